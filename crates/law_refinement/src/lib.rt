//! A store's calls are steps of the machine, with what a stop may leave: laws, each as a function
//! with nothing to do.
#![tactic(auto)]

ghost use Rattle.law_refinement.specs.Laws.{TimesAreOfLabel, ForgottenHolds};
ghost use Rattle.law_refinement.specs.Views.{ViewIsOfHistory, ViewGoesOn, AtIsAnswered, ScanAtIsAnswered, BetweenIsAnswered, ScanBetweenIsAnswered};
ghost use Rattle.law_refinement.specs.Views.{RecentIsAnswered, AtIsAnsweredRecently, ScanAtIsAnsweredRecently, BetweenIsAnsweredRecently};
ghost use Rattle.law_refinement.specs.Views.{ScanBetweenIsAnsweredRecently, AtStands, ScanAtStands, BetweenStands, ScanBetweenStands, PumpGoesOn};
ghost use Rattle.law_refinement.specs.Views.{JobPumpGoesOn, ArchiveStartGoesOn, ReclaimStartGoesOn, FloorStartGoesOn, GrowStartGoesOn, RestGoesOn};
ghost use Rattle.law_refinement.specs.Leaving.{PumpLeaves, ArchiveStartLeaves, ReclaimStartLeaves, FloorStartLeaves, GrowStartLeaves, JobPumpLeaves};
ghost use Rattle.law_refinement.specs.Leaving.{SubmitLeaves, TicketTells, RedeemLeaves, PumpPublishes};
ghost use Rattle.law_refinement.specs.Calls.{BeginStands, AbortStands, SubmitStands, PumpStands, RedeemStands, ArchiveStartStands, ReclaimStartStands};
ghost use Rattle.law_refinement.specs.Calls.{FloorStartStands, GrowStartStands, JobPumpStands};

/// A begin takes the last published time as its snapshot.
pub fn begin_stands()
    ensures { BeginStands }
{}

/// A transaction that is aborted gives its snapshot up.
pub fn abort_stands()
    ensures { AbortStands }
{}

/// A submit answers a conflict exactly where a later commit in the commit order wrote a key of its
/// write set, and else queues the writes at a time later than all before.
pub fn submit_stands()
    ensures { SubmitStands }
{}

/// In a step of a group the machine's group begins, is published, or the machine fails, or nothing
/// of the machine's happens. Before the step and after it, made or refused, whatever a stop may
/// leave represents what is published, or that with the whole group.
pub fn pump_stands()
    ensures { PumpStands }
{}

/// An archive, a reclaim or a growth that begins, and each step of these, changes nothing of the machine's;
/// a floor that begins is one in the making, and its last step raises it. Before each step and after it,
/// made or refused, whatever a stop may leave represents what is published, with the present floors or,
/// once a floor's gate may be open, with that floor; and it has the slots that there are or, once a piece's
/// gate may be open, 256 more.
pub fn jobs_stand()
    ensures archive { ArchiveStartStands }
    ensures reclaim { ReclaimStartStands }
    ensures floor { FloorStartStands }
    ensures grow { GrowStartStands }
    ensures step { JobPumpStands }
{}

/// A ticket is answered as the machine says.
pub fn redeem_stands()
    ensures { RedeemStands }
{}

/// No step of a group or of a job, and no beginning of a job, changes the store mark, the open
/// transactions or the heads of its commit order.
pub fn steps_leave()
    ensures pump { PumpLeaves }
    ensures archive { ArchiveStartLeaves }
    ensures reclaim { ReclaimStartLeaves }
    ensures floor { FloorStartLeaves }
    ensures grow { GrowStartLeaves }
    ensures job_pump { JobPumpLeaves }
{}

/// A ticket has the store mark and the time of the machine's commit, and what only reads tells its
/// snapshot. Done is of the ticket's own head, which is published and is awaited no more. A step of a
/// group publishes the first commits of the queue, as many as it says, and changes nothing else that is
/// read.
pub fn answers_tell()
    ensures submit { SubmitLeaves }
    ensures ticket { TicketTells }
    ensures redeem { RedeemLeaves }
    ensures pump { PumpPublishes }
{}

/// The times of a label are those of the published history.
pub fn times_are_of_label()
    ensures { TimesAreOfLabel }
{}

/// A view represents the published history of its moment, and goes on answering by it, from memory and
/// from the archive.
pub fn view_is_answered()
    ensures view { ViewIsOfHistory }
    ensures goes_on { ViewGoesOn }
    ensures at { AtIsAnswered }
    ensures scan_at { ScanAtIsAnswered }
    ensures between { BetweenIsAnswered }
    ensures scan_between { ScanBetweenIsAnswered }
{}

/// A query changes nothing of what the store represents, and no call takes from views what they read.
pub fn views_go_on()
    ensures at { AtStands }
    ensures scan_at { ScanAtStands }
    ensures between { BetweenStands }
    ensures scan_between { ScanBetweenStands }
    ensures pump { PumpGoesOn }
    ensures job_pump { JobPumpGoesOn }
    ensures archive { ArchiveStartGoesOn }
    ensures reclaim { ReclaimStartGoesOn }
    ensures floor { FloorStartGoesOn }
    ensures grow { GrowStartGoesOn }
    ensures rest { RestGoesOn }
{}

/// From its reclaim mark on a view answers by its history whatever the disk holds, and so it does from
/// memory alone.
pub fn recent_is_answered()
    ensures alone { RecentIsAnswered }
    ensures at { AtIsAnsweredRecently }
    ensures scan_at { ScanAtIsAnsweredRecently }
    ensures between { BetweenIsAnsweredRecently }
    ensures scan_between { ScanBetweenIsAnsweredRecently }
{}

/// Memory that forgets what ended by a mark represents the same history, from the mark on.
pub fn forgotten_holds()
    ensures { ForgottenHolds }
{}
