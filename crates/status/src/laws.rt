//! Laws of logs, each as a function with nothing to do.
ghost use Rattle.status.specs.Laws.{GateChanges, FloorsAreKept};
ghost use Rattle.status.specs.Pieces.{PieceShut, PieceOpens};

/// A log whose next gate changes is the old log, or has one slot more.
pub fn gate_changes()
    ensures { GateChanges }
{}

/// The floors that memory has of a log are the log's.
pub fn floors_are_kept()
    ensures { FloorsAreKept }
{}

/// With its gate shut a piece counts for nothing.
pub fn piece_shut()
    ensures { PieceShut }
{}

/// With its gate open, and zeros after the slots that there were, the log is the same.
pub fn piece_opens()
    ensures { PieceOpens }
{}
