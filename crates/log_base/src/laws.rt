//! What holds of a base that takes the place of a log's first chains.
ghost use Rattle.log_base.specs.Laws.{FrontIs, MarkIs, RunsAre, RollsAre, AnchorsAre, NamesGoOn, HeadsAre, BaseTakesFront, BaseIsEntry};
ghost use Rattle.log_base.specs.Laws.{RunsStayInRow, RollComesBehind, NewRollIs};
ghost use Rattle.log_base.specs.Places.{MadeBaseMay};

/// The first chains have no commit later than the mark, the first chain of the rest has one, and no base is in the
/// rest.
pub fn front_is()
    ensures { FrontIs }
{}

/// The mark that memory tells is that of the log.
pub fn mark_is()
    ensures { MarkIs }
{}

/// The runs of the base are those that the first chains leave.
pub fn runs_are()
    ensures { RunsAre }
{}

/// The rolls of the first chains are those that the log names.
pub fn rolls_are()
    ensures { RollsAre }
{}

/// The rolls and one more have the names of all that the log tells up to the new mark.
pub fn names_go_on()
    ensures { NamesGoOn }
{}

/// The heads in memory have the commits that the log tells and no roll names.
pub fn heads_are()
    ensures { HeadsAre }
{}

/// The base takes the place of the first chains: the log tells the same, but for the reclaim mark.
pub fn base_takes_front()
    ensures { BaseTakesFront }
{}

/// A chain of the log may hold the base.
pub fn base_is_entry()
    ensures { BaseIsEntry }
{}

/// The anchors that memory tells are those of the log, and a new base may name them.
pub fn anchors_are()
    ensures { AnchorsAre }
{}

/// The runs of the base and those of the chains after it are in a row.
pub fn runs_stay_in_row()
    ensures { RunsStayInRow }
{}

/// A roll that begins where all else of the archive ends comes after the rolls, and is apart from all.
pub fn roll_comes_behind()
    ensures { RollComesBehind }
{}

/// The names of a new roll are in order and in their ranges, and its bytes are those of a roll.
pub fn new_roll_is()
    ensures { NewRollIs }
{}

/// The base that is computed may take the place of the first chains, where its extents are free and its roll lies
/// after all that the log names in the archive.
pub fn made_base_may()
    ensures { MadeBaseMay }
{}
