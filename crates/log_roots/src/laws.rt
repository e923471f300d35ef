//! Laws of the header, each as a function with nothing to do.
ghost use Rattle.log_roots.specs.Laws.{OneReading, OtherIsFree, TurnIsFree};

/// Bytes are at most one header.
pub fn one_reading()
    ensures { OneReading }
{}

/// While the other root is written, whatever its four bytes are, the rest says the same.
pub fn other_is_free()
    ensures { OtherIsFree }
{}

/// While the turn gate is written, the header is one of the two that differ in which root counts,
/// if both roots are extents of the heap.
pub fn turn_is_free()
    ensures { TurnIsFree }
{}
