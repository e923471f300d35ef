//! Laws of the memory.
ghost use Rattle.law_commits.specs.Laws.{LastIsLast, AssignedIsLast, BeginStands, AbortStands, ConflictIsFound, ConflictIsDecided, SubmitStands};
ghost use Rattle.law_commits.specs.Laws.{RedeemStands, AwaitedIsAnswered, OthersAreStrangers, PublishStands, PublishedIsMachine, BreakStands};
ghost use Rattle.law_commits.specs.Views.{ViewIsOfHistory};
ghost use Rattle.law_commits.specs.Beside.{BesideStands, GroupStands, RaiseStands};
ghost use Rattle.law_commits.specs.Reclaims.{ReclaimStands, FreshStands, FreshIsFresh};
ghost use Rattle.law_commits.specs.Tickets.{QueuedIsAwaited, ReclaimKeepsAwaited, LateTimesAreOfLabel};

/// The last published time, and the last time that was given, are those of the history and of the commit
/// order, wherever the names of the first commits are.
pub fn last_is_last()
    ensures published { LastIsLast }
    ensures assigned { AssignedIsLast }
{}

/// A begin takes the last published time as its snapshot.
pub fn begin_stands()
    ensures { BeginStands }
{}

/// A transaction that is aborted gives its snapshot up.
pub fn abort_stands()
    ensures { AbortStands }
{}

/// A submit answers a conflict exactly where a later commit in the commit order wrote a key of its write
/// set, and else its writes wait at a time later than all before.
pub fn submit_stands()
    ensures found { ConflictIsFound }
    ensures decided { ConflictIsDecided }
    ensures stands { SubmitStands }
{}

/// A ticket whose commit is awaited in memory is answered as the machine says, and every other one is a
/// stranger's.
pub fn redeem_stands()
    ensures stands { RedeemStands }
    ensures awaited { AwaitedIsAnswered }
    ensures others { OthersAreStrangers }
{}

/// A group that is published is that of the first commits that wait. A store that has failed represents
/// the machine that has.
pub fn publish_stands()
    ensures published { PublishStands }
    ensures machine { PublishedIsMachine }
    ensures broken { BreakStands }
{}

/// A view of what memory has represents the published history: from its reclaim mark on it is answered
/// by that, whatever lies on the disk.
pub fn view_stands()
    ensures { ViewIsOfHistory }
{}

/// A group that begins, a floor in the making and where the gate is leave memory as it is; floors that are
/// raised replace those before.
pub fn floors_stand()
    ensures beside { BesideStands }
    ensures group { GroupStands }
    ensures raised { RaiseStands }
{}

/// A reclaim makes memory forget, and the names up to its mark leave it but for those that wait for their
/// Done: it represents the same machine.
pub fn reclaims_stand()
    ensures { ReclaimStands }
{
    law_refinement::forgotten_holds();
}

/// A group that began before a reclaim was done is made fresh, and may be published then.
pub fn freshened_stands()
    ensures stands { FreshStands }
    ensures fresh { FreshIsFresh }
{}

/// A commit that begins to wait is awaited, and no reclaim changes what is awaited.
pub fn tickets_stay()
    ensures queued { QueuedIsAwaited }
    ensures reclaimed { ReclaimKeepsAwaited }
{}

/// The times of a label that are later than the reclaim mark are those of the published history.
pub fn times_are_of_label()
    ensures { LateTimesAreOfLabel }
{}
