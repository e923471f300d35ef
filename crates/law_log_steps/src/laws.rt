//! Laws of the calls of a store whose log lies in the heap.
ghost use Rattle.law_log_steps.specs.Laws.{AbortStands, ArchiveStartStands, BeginStands, FloorStartStands, JobPumpStands, OpenedStands, OpenStands};
ghost use Rattle.law_log_steps.specs.Laws.{LeavesFronts, PumpStands, ReclaimStartStands, RedeemStands, RestsOnFront, StopOpens, StopReopens, SubmitStands};

/// A store that is opened on an image of a history represents a machine that is opened on it.
pub fn opened_stands()
    ensures { OpenedStands }
{}

/// A store that was opened on an image which represents a history, with its floors, represents a machine that is
/// opened on it.
pub fn open_stands()
    ensures { OpenStands }
{}

/// Whatever a crash leaves between two calls, also after a refused one, represents what is published, or that
/// with the whole group that is being written.
pub fn rests_on_front()
    ensures { RestsOnFront }
{}

/// What a crash leaves opens, unless the device refuses a call or memory is short, and the opened store represents a
/// machine that is opened on what is published, or, once the group's gate may be open, on that with the whole group.
pub fn stops_reopen()
    ensures fronts { LeavesFronts }
    ensures again { StopReopens }
    ensures opens { StopOpens }
{}

/// A begin takes the last published time as its snapshot.
pub fn begin_stands()
    ensures { BeginStands }
{}

/// A transaction that is aborted gives its snapshot up.
pub fn abort_stands()
    ensures { AbortStands }
{}

/// A ticket is answered as the machine says, or is a stranger's.
pub fn redeem_stands()
    ensures { RedeemStands }
{}

/// A submit answers a conflict exactly where a later commit in the commit order wrote a key of its write set, and
/// else queues the writes at a time later than all before, where they have room.
pub fn submit_stands()
    ensures { SubmitStands }
{}

/// A step of a group publishes as many of the first commits of the queue as it says, and changes nothing else of
/// the machine's; or the machine fails.
pub fn pump_stands()
    ensures { PumpStands }
{}

/// A step of a job goes on with the raising of its floor: the floor is raised once its last call is made, and nothing else of the
/// machine's changes; or the job waits for a group, or the machine fails. A step of an archive or a reclaim changes nothing of the
/// machine's.
pub fn job_stands()
    ensures { JobPumpStands }
{}

/// A floor begins that the machine may raise, or it is refused as the machine says; or the store has failed, floors are not of this
/// kind, a job runs, the heap has no room for its entry, or there is no memory.
pub fn floor_starts()
    ensures { FloorStartStands }
{}

/// An archive that begins, or is refused, changes nothing of the machine's.
pub fn archive_starts()
    ensures { ArchiveStartStands }
{}

/// Nor does a reclaim that begins, or is refused.
pub fn reclaim_starts()
    ensures { ReclaimStartStands }
{}
