//! Laws of images as bytes, each as a function with nothing to do.
ghost use Rattle.law_layout.specs.Jobs.{ArchiveLaid, ReclaimLaid, FloorLaid, ArchiveKept, ReclaimKept, FloorKept};
ghost use Rattle.law_layout.specs.Beside.{HeapBeside, ArchiveBeside, TurnBesideWrite, TurnBesideSync};
ghost use Rattle.law_layout.specs.Growing.{GrowthLeaves, GrowthGoes, SlotIsCalm, PieceLaid, ShutHolds, OpenHolds, GrownRests, GrownTurns};
ghost use Rattle.law_layout.specs.Unique.{OneChain, OneLog, TornIsNone};
ghost use Rattle.law_layout.specs.Opening.{StandsOpens, OpensOnce, OpensOrFails, FailsOnce};
ghost use Rattle.law_layout.specs.Laws.{FrameReads, SlotStands, RestStands, EmptyStands, SyncedRests, SlotGoes, TurnStands, GroupGoes, GroupEnds};

/// An image that agrees with another on all that a layout names has its readings.
pub fn frame_reads()
    ensures { FrameReads }
{}

/// An image with the slot of a group and its extents represents the history with the group's commits.
pub fn slot_stands()
    ensures { SlotStands }
{}

/// Areas at rest leave only images that represent the history.
pub fn rest_stands()
    ensures { RestStands }
{}

/// A header with closed gates represents the empty history.
pub fn empty_stands()
    ensures { EmptyStands }
{}

/// An image that was synced is at rest.
pub fn synced_rests()
    ensures { SyncedRests }
{}

/// At every moment of the writing of a slot, whatever a stop leaves holds the layout with the slot or without it.
pub fn slot_goes()
    ensures { SlotGoes }
{}

/// At every moment of a group's way to the disk, whatever a stop leaves represents the history, with the whole group or without it.
pub fn group_goes()
    ensures goes { GroupGoes }
    ensures ends { GroupEnds }
{}

/// The slots of archive, reclaim and floor lead to layouts that spell what the jobs lead to.
pub fn jobs_laid()
    ensures archive { ArchiveLaid }
    ensures reclaim { ReclaimLaid }
    ensures floor { FloorLaid }
{}

/// And their parts stay.
pub fn jobs_kept()
    ensures archive { ArchiveKept }
    ensures reclaim { ReclaimKept }
    ensures floor { FloorKept }
{}

/// A write apart from the live chains, and one after the last run, leave all that the log names.
pub fn write_beside()
    ensures heap { HeapBeside }
    ensures archive { ArchiveBeside }
{}

/// A status area is one log, and a slot names one chain of extents in a heap.
pub fn bytes_are_one()
    ensures log { OneLog }
    ensures chain { OneChain }
{}

/// While a slot is in the writing, an extent of neither layout may be written, and the heap may be synced.
pub fn turn_beside()
    ensures write { TurnBesideWrite }
    ensures sync { TurnBesideSync }
{}

/// At every moment of the writing of a slot, whatever a stop leaves represents the old history or the one that the slot leads to.
pub fn turn_stands()
    ensures { TurnStands }
{}

/// An image with an open gate before bytes that are no slot represents nothing.
pub fn torn_is_none()
    ensures { TornIsNone }
{}

/// An image that represents a history opens, as the reading by which it does.
pub fn image_opens()
    ensures { StandsOpens }
{}

/// An image opens as one reading; where it opens no check fails, and of checks that fail one is the first.
pub fn opens_once()
    ensures one { OpensOnce }
    ensures or_fails { OpensOrFails }
    ensures fails { FailsOnce }
{}

/// While a piece of slots is being made, a stop leaves, but for the piece, what it may leave of the calm area.
pub fn growth_leaves()
    ensures { GrowthLeaves }
{}

/// At each device call of a piece, made or refused; and where it is made the piece is at its next stage.
pub fn growth_goes()
    ensures { GrowthGoes }
{}

/// A device call of a slot is the same one on the calm area.
pub fn slot_is_calm()
    ensures { SlotIsCalm }
{}

/// One piece more changes no layout, whether its gate is shut or open.
pub fn piece_keeps_layouts()
    ensures laid { PieceLaid }
    ensures shut { ShutHolds }
    ensures opens { OpenHolds }
{}

/// Once its gate is synced, what is said of the calm area is so of the area.
pub fn piece_is_grown()
    ensures rests { GrownRests }
    ensures turns { GrownTurns }
{}
