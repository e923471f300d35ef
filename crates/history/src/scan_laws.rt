//! Every history has its scans: laws, each as a function with nothing to do.

ghost use Rattle.history.specs.ScanLaws.{ScanExists, ScanOfRowsExists, SeenScanExists};

/// There is a scan of the values of a relation at every time.
pub fn scans_exist<V>()
    ensures { ScanExists V }
{}

/// There is a scan of the rows of a relation between any two times.
pub fn scans_of_rows_exist<V>()
    ensures { ScanOfRowsExists V }
{}

/// There is a scan of what a transaction sees of a relation: its own writes over its snapshot.
pub fn seen_scans_exist<V>()
    ensures { SeenScanExists V }
{}
