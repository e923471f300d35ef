//! Laws of the queries of a store whose log lies in the heap.
ghost use Rattle.law_log_queries.specs.Laws.{OpenStands, StopReopens, CallKeeps, CallStands, CallsGoOn};
ghost use Rattle.law_log_queries.specs.Names.{TimesAreAnswered, TimesStand};
ghost use Rattle.law_log_queries.specs.Views.{ViewIsOfHistory, ViewGoesOn, AtIsAnswered, ScanAtIsAnswered, BetweenIsAnswered, ScanBetweenIsAnswered};
ghost use Rattle.law_log_queries.specs.Views.{AtIsFrozen, ScanAtIsFrozen, BetweenIsFrozen, ScanBetweenIsFrozen};
ghost use Rattle.law_log_queries.specs.Views.{AtIsAnsweredRecently, ScanAtIsAnsweredRecently, BetweenIsAnsweredRecently, ScanBetweenIsAnsweredRecently};

/// A store that was opened on an image of a history represents a machine that is opened on it, with its archive; so does one that is
/// opened on what a stop left, of what is published, or, once the group's gate may be open, of that with the whole group.
pub fn open_stands()
    ensures stands { OpenStands }
    ensures again { StopReopens }
{}

/// No call takes from the archive what it has, and from views what they read.
pub fn calls_keep()
    ensures keeps { CallKeeps }
    ensures stands { CallStands }
    ensures go_on { CallsGoOn }
{}

/// A view represents the published history of its moment, and is answered by it, from memory and from the archive, also once the store
/// has gone on.
pub fn view_is_answered()
    ensures view { ViewIsOfHistory }
    ensures goes_on { ViewGoesOn }
    ensures at { AtIsAnswered }
    ensures scan_at { ScanAtIsAnswered }
    ensures between { BetweenIsAnswered }
    ensures scan_between { ScanBetweenIsAnswered }
{}

/// A view is answered by the history of its moment for ever, whichever calls come after it was taken.
pub fn views_are_frozen()
    ensures at { AtIsFrozen }
    ensures scan_at { ScanAtIsFrozen }
    ensures between { BetweenIsFrozen }
    ensures scan_between { ScanBetweenIsFrozen }
{}

/// From its reclaim mark on a view is answered by its history whatever the disk holds.
pub fn recent_is_answered()
    ensures at { AtIsAnsweredRecently }
    ensures scan_at { ScanAtIsAnsweredRecently }
    ensures between { BetweenIsAnsweredRecently }
    ensures scan_between { ScanBetweenIsAnsweredRecently }
{}

/// The times of a label are those of the published history, those up to the reclaim mark too, which rolls of the archive have.
pub fn times_are_answered()
    ensures answered { TimesAreAnswered }
    ensures stands { TimesStand }
{}
