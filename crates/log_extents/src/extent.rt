//! What an extent of a chain says, and how many extents bytes take.

ghost use Rattle.std.specs.Prelude.{◌≡◌, ◌↔◌, IsTrue};
ghost use Rattle.log_extents.specs.Chains.{count_of};

/// How many bytes of an extent come before its part of the chain's bytes: the gate and three zeros,
/// and five numbers of four bytes each.
pub const HEAD_LEN: usize = 24;

/// How many bytes of a chain one extent holds.
pub const BODY_LEN: usize = 8168;

/// The one value of a gate that is open. Any other value is a closed gate.
pub const OPEN_GATE: u8 = 0xC7;

/// What an extent says, in a loan of its bytes.
#[derive(Clone, Copy, Debug)]
pub struct LinkedRef<'a> {
    /// The first byte. It means something in the first extent of a chain alone.
    pub gate: u8,
    /// The extent's own number; the first of a heap has 1.
    pub number: u32,
    /// The number of the next extent of the chain; 0 for the last one.
    pub next: u32,
    /// In the first extent of a chain of the log the number of the extent where the next chain
    /// begins, else 0.
    pub link: u32,
    /// The extent's part of the chain's bytes.
    pub body: &'a [u8],
}

/// Whether a gate is open.
pub fn is_open(gate: u8) -> bool
    ensures { IsTrue result ↔ (gate ≡ 0xC7) }
{
    gate == OPEN_GATE
}

/// How many extents a chain of so many bytes has.
pub fn count_extents(len: usize) -> usize
    ensures { result ≡ count_of len }
{
    len.div_ceil(BODY_LEN)
}
