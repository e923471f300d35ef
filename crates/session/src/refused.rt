//! A refused line or answer.

/// The reader or the writer refused, or there was no memory for what it was to take.
#[derive(Clone, Copy, Debug)]
pub struct Refused;
