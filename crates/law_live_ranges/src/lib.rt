//! What the log names is not written: laws of every store that opened, each as a function with nothing to do.
#![tactic(auto)]

ghost use Rattle.law_live_ranges.specs.Laws.{OpenedWritesBehind, OpenedNames, CallLeavesNamed, NamedStays, StopLeavesNamed, PublishedNamed, ArchivedNamed};
ghost use Rattle.law_live_ranges.specs.Laws.{AnchorsNamed, FloorNamesNoMore, GrowthNamesPiece};

/// A store that opened runs no job, and has all that the log of its image names.
pub fn opened_names()
    ensures behind { OpenedWritesBehind }
    ensures names { OpenedNames }
{}

/// No call of a store writes a place of the heap, of the archive or of the status area that its log
/// names. None gives it up, but that the slot of a reclaim gives up the chains of the commits up to its
/// mark and the anchors before. What the log then names more is named from that call on.
pub fn call_leaves_named()
    ensures { CallLeavesNamed }
{}

/// So it is of any calls one after another, and of what a stop may leave after them.
pub fn named_stays()
    ensures stays { NamedStays }
    ensures stops { StopLeavesNamed }
{}

/// What the slot of a group or of a job names is named from the call on that opens it: the extents of
/// the group's commits, the run of an archive, and the extents of a reclaim's anchors. A floor's slot
/// names nothing, and the last call of a growth nothing but its piece.
pub fn slots_name()
    ensures group { PublishedNamed }
    ensures job { ArchivedNamed }
    ensures anchors { AnchorsNamed }
    ensures floor { FloorNamesNoMore }
    ensures growth { GrowthNamesPiece }
{}
