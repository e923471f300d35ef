//! The numbers of a status area.

/// The bytes before the first slot.
pub const FRONT_LEN: u64 = 512;

/// The bytes of a slot: its gate and its body.
pub const SLOT_LEN: u64 = 512;

/// The bytes of the header and of a slot, as the lengths of arrays and slices.
pub(crate) const FRONT_BYTES: usize = FRONT_LEN as usize;

pub(crate) const SLOT_BYTES: usize = SLOT_LEN as usize;

/// The slots of a piece by which an area grows.
pub const PIECE_SLOTS: u32 = 256;

/// The same, to add up.
pub(crate) const PIECE_TOTAL: u64 = PIECE_SLOTS as u64;

/// The fewest slots that a store is made with.
pub const LEAST_SLOTS: u32 = 16;

/// The most pieces of one: as many as the most slots hold.
pub(crate) const MOST_PIECES: u32 = MOST_SLOTS / PIECE_SLOTS;

/// The most slots that a store has.
pub const MOST_SLOTS: u32 = 65_536;

/// The same, to compare sums with.
pub(crate) const MOST_TOTAL: u64 = MOST_SLOTS as u64;
