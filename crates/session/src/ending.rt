//! How a script ends.

/// Why a script ended.
#[derive(Clone, Copy, Debug, PartialEq, Eq)]
pub enum Ending {
    /// At the end of the input.
    Whole,
    /// At a line of no form.
    BadLine,
    /// At a `reopen` that the store refused.
    NotOpened,
    /// The reader refused, or there was no memory for a line.
    InputRefused,
    /// The writer refused.
    OutputRefused,
}
