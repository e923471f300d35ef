//! Laws of the disk of a store whose log lies in the heap.
ghost use Rattle.law_log_store.specs.Calls.{AbortKeeps, ArchiveBegins, BeginKeeps, FailedQueuesNone, FailedRests, FloorBegins, JobLeaves, JobSteps};
ghost use Rattle.law_log_store.specs.Calls.{PumpLeaves, PumpSteps, ReclaimBegins, RedeemKeeps, SubmitSteps};
ghost use Rattle.law_log_store.specs.Opened.{OpenedStands, OpensAny, OpenStands, RoomOpens};
ghost use Rattle.law_log_store.specs.Laws.{GroupBegins, GroupGoesOn, GroupJoins, StandingStops, SubmitKeeps};

/// A store that is opened on a log that represents a history represents that history: the heap has the room that
/// an opened one is to have, and all is on the disk.
pub fn opened_stands()
    ensures room { RoomOpens }
    ensures stands { OpenedStands }
{}

/// A store that was opened on an image of a history represents that history, and no opening is refused for
/// what such an image says: only where the disk refuses a call, or memory is short.
pub fn open_stands()
    ensures stands { OpenStands }
    ensures any { OpensAny }
{}

/// The next commits are a group of the log: their records over the versions in memory are those over what
/// the log says, and their bytes joined are the bytes of the group's chain.
pub fn group_joins()
    ensures { GroupJoins }
{}

/// A group's way to the disk, call by call: what a crash leaves represents what is published, or, from the
/// write of the gate on, that or that with the whole group, also where the call is refused. Once the last
/// call is made the disk represents what is published then.
pub fn group_goes_on()
    ensures stops { StandingStops }
    ensures call { GroupGoesOn }
{}

/// A group begins: its chain begins where the log ends and takes free extents, and with it the heap stays
/// within its shares. The disk represents what it did.
pub fn group_begins()
    ensures { GroupBegins }
{}

/// A commit that may follow the commit order, and has room, is queued with its bytes. The disk represents what it
/// did, and the states after the queue have room for their anchors.
pub fn submit_keeps()
    ensures { SubmitKeeps }
{}

/// A step of a group of a store that works: as many of the first commits of the queue are published as it says,
/// and the disk represents that; or nothing has changed for want of memory; or the store has failed, and what a
/// crash leaves represents what is published, or that with the whole group. So does what a crash leaves before
/// the step and after it, whatever its answer.
pub fn pump_steps()
    ensures steps { PumpSteps }
    ensures leaves { PumpLeaves }
    ensures failed { FailedRests }
{}

/// A step of a job of a store that works: the run of an archive is written after all that the log names, and is synced; its entry
/// goes its way to the disk as a group does, and after its last call the disk represents what it says; or the job waits for a
/// group, or nothing has changed for want of memory, or the store has failed. What a crash leaves before the step and after it
/// represents what is published, with what the entry says or without. An archive's says nothing else: it loses no version. Nor
/// does a reclaim: whichever root a crash leaves, what it leaves represents what is published, or that with the whole group.
pub fn job_steps()
    ensures steps { JobSteps }
    ensures leaves { JobLeaves }
{}

/// A floor that begins changes nothing of what the disk represents.
pub fn floor_begins()
    ensures { FloorBegins }
{}

/// Nor does an archive that begins: its run will have, of the versions that end after the archive mark and the floor of their
/// relation, those that end by its time.
pub fn archive_begins()
    ensures { ArchiveBegins }
{}

/// Nor does a reclaim that begins: its base and its anchors have free extents, and the base may take the place of the first chains.
/// Of the versions that are valid at the archive mark memory has to have those of the heap.
pub fn reclaim_begins()
    ensures { ReclaimBegins }
{}

/// Transactions that begin or are given up, and tickets that are shown, change nothing of that.
pub fn memory_keeps()
    ensures begin { BeginKeeps }
    ensures abort { AbortKeeps }
    ensures redeem { RedeemKeeps }
{}

/// A submit queues one commit or none. The disk represents what it did, and the queue has it at its end.
pub fn submit_steps()
    ensures steps { SubmitSteps }
    ensures failed { FailedQueuesNone }
{}
