//! Laws of chains and of stored writes, each as a function with nothing to do.
ghost use Rattle.deltas.specs.Laws.{FilledIsFirst, FilledIsPacked, OnePacking, PackedIsHeld, StoredIsWritten};

/// Images hold the records of at most one list.
pub fn one_packing()
    ensures { OnePacking }
{}

/// Records packed and sealed are a chain of those records.
pub fn packed_is_held()
    ensures { PackedIsHeld }
{}

/// A stored record writes just what it was stored for.
pub fn stored_is_written()
    ensures { StoredIsWritten }
{}

/// Extents filled one after the other, until no record is left, are those records packed and sealed.
pub fn filled_is_packed()
    ensures first { FilledIsFirst }
    ensures all { FilledIsPacked }
{}
