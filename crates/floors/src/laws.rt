//! What holds of floors.
ghost use Rattle.floors.specs.Laws.{RaisedIs};

/// A floor that is raised is that of the relations that it covers, and no other changes.
pub fn raised_is()
    ensures { RaisedIs }
{}
