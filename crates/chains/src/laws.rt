//! What the definitions say, as functions that are proved and do nothing.

ghost use Rattle.std.specs.Prelude.{ℕ, List};
ghost use Rattle.chains.specs.KeyWrites.{KeyWrites, IsOrdered};
ghost use Rattle.history.specs.Queries.{IsScanOfRows};
ghost use Rattle.chains.specs.Rows.{scanned_rows, rows_in};
ghost use Rattle.chains.specs.Scans.{scanned, IsScanOf};

/// A scan shows exactly the records of its relation that have a value at its time, each once and in
/// rising order.
pub fn scan_is_exact()
    ensures { (m : List KeyWrites) (relation time : ℕ) → IsOrdered m → IsScanOf m relation time (scanned relation time m) }
{}

/// A scan of rows shows exactly the rows of its relation's records from one time to another, by
/// record and then by time.
pub fn scan_of_rows_is_exact()
    ensures { (m : List KeyWrites) (relation a b : ℕ) → IsOrdered m → IsScanOfRows (rows_in m a b) relation (scanned_rows relation a b m) }
{}
