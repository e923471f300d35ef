//! What the library promises a host that upholds what the header asks of it, and what it answers: laws, no code.
#![tactic(auto)]

ghost use Rattle.law_library.specs.Answers.{EventsHaveMoments, TimesAreAnswered, ViewsAreAnswered};
ghost use Rattle.law_library.specs.Formats.{NewStands, MemoryAloneRefuses, NewKeeps};
ghost use Rattle.law_library.specs.Promise.{LibraryPromise};

/// The promise of the library: for every list of calls of exported functions, with any answers of the
/// host's device calls, and at every moment: whatever a stop may leave of the host's areas survives, with
/// every commit of which `ts_redeem` answered `TS_OK`.
pub fn whatever_a_host_leaves()
    ensures { LibraryPromise }
{}

/// What `ts_format` or `ts_format_endless` tells stands for the empty history once a host has made of it what the
/// header asks. `ts_open` refuses what stands for a history for want of memory alone, and the promise holds of the store
/// that it opens there.
pub fn what_is_formatted_is_kept()
    ensures stands { NewStands }
    ensures opens { MemoryAloneRefuses }
    ensures keeps { NewKeeps }
{}

/// Whoever lends the queries the host's own archive area is answered by the write sets: of a view by those of the
/// commits that were published when its number was told, however many calls were made since, and of a label by
/// those that are published now.
pub fn whatever_a_host_asks()
    ensures moments { EventsHaveMoments }
    ensures views { ViewsAreAnswered }
    ensures times { TimesAreAnswered }
{}
