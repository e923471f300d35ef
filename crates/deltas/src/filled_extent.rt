//! How much goes into extents.

/// What one extent was filled with.
#[derive(Clone, Copy, Debug, PartialEq, Eq)]
pub struct FilledExtent {
    pub records: u32,
    /// How many bytes the records have, without the extent's header.
    pub used: u32,
}

/// What a chain needs.
#[derive(Clone, Copy, Debug, PartialEq, Eq)]
pub struct ExtentCount {
    pub extents: u32,
    pub records: u32,
}
