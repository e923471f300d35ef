//! Chains of extents, as a slot of the status log names them.

/// Where a chain begins, how many extents it has and how many records they hold.
#[derive(Clone, Copy, Debug, PartialEq, Eq)]
pub struct ChainName {
    pub first: u32,
    pub extents: u32,
    pub records: u32,
}

/// Whose records a chain holds.
#[derive(Clone, Copy, Debug, PartialEq, Eq)]
pub enum Kinds {
    /// A commit's: values, deltas and deletions.
    OfCommit,
    /// Those of a reclaim: old versions alone, from at least 1 and at most this time, in
    /// microseconds since 1970.
    OfAnchors(u64),
}
