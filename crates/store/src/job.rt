//! What a store does of a job.
ghost use Rattle.std.specs.Prelude.{◌≡◌};

use archive::RunWriter;
use floors::Floors;
use group::PumpFault;
use status::{Growth, SlotTurn};
use vacuum::{AnchorSource, ArchiveWalk};
use wire::{Anchors, Run};

/// What is done of a job.
pub enum JobStage {
    /// What its slot is to name is being written; a growth, which has no slot, is at this stage till
    /// its end.
    Writing,
    /// That is written and synced.
    Stored,
    /// Its slot is in the writing.
    Turning(SlotTurn),
}

/// What a job makes before its slot.
#[derive(Drop)]
pub enum JobWork {
    /// A run of the archive: as the slot will name it, and what is left of it to be written.
    Archive {
        run: Run,
        writer: RunWriter<ArchiveWalk>,
    },
    /// A chain of anchors in the extents that are out for the job: as the slot will name it, the
    /// records that are left, and how many extents are written.
    Reclaim {
        anchors: Anchors,
        source: AnchorSource,
        written: usize,
    },
    /// Nothing: its slot alone names the floor, in microseconds since 1970, that of one relation or of
    /// every one. The floors are those once it is open.
    Floor {
        scope: Option<u16>,
        floor: u64,
        floors: Floors,
    },
    /// A piece of 256 slots more, after those of the log. It has no slot.
    Grow {
        growth: Growth,
    },
}

/// A job that runs: an archive, a reclaim, a floor or a growth.
pub struct Job {
    pub(crate) work: JobWork,
    pub(crate) stage: JobStage,
}

impl Job {
    /// What it makes. What it has of a slot is given up: that slot stays in the writing.
    pub(crate) fn into_work(self) -> JobWork
        ensures { result ≡ self.work }
    {
        let Job { work, stage } = self;
        match stage {
            JobStage::Writing | JobStage::Stored => {}
            JobStage::Turning(turn) => turn.give_up(),
        }
        work
    }
}

/// Why no job begins. Of several reasons the first is told; want of memory comes where it is met.
#[derive(Clone, Copy, Debug, PartialEq, Eq)]
pub enum StartFault {
    /// A write or sync of the device was refused before.
    Failed,
    /// In a store of this profile floors are those of all relations together, or of one each.
    WrongProfile,
    /// A job runs.
    JobBusy,
    /// All versions that ended by then are archived, or the heap has nothing that is archived, or the
    /// floor of the relation is as late.
    NothingToDo,
    /// No commit is as late: the time of the last one, in microseconds since 1970.
    NotYet(u64),
    /// A transaction is open that reads below the archive mark, or below the new floor: the least
    /// snapshot of those that are open, in microseconds since 1970.
    InUse(u64),
    /// No slot of the status log is left for it.
    StatusFull,
    /// The run would end past byte 2^63 - 1 of the archive.
    ArchiveFull,
    /// The anchors need more extents than are free.
    HeapFull,
    NoMemory,
    /// A store of profile 1 has no pieces, and none has more than 65,536 slots.
    NotGrowable,
}

/// What a step of a job did.
#[derive(Clone, Copy, Debug, PartialEq, Eq)]
pub enum JobDid {
    /// Nothing: no job runs.
    Idle,
    /// The next part of the run is written.
    WroteRun,
    RunSynced,
    /// The next extent of the anchors is written.
    WroteExtent,
    HeapSynced,
    /// The next 8,192 zeros of a piece are written.
    WroteZeros,
    ZerosSynced,
    BodyWritten,
    BodySynced,
    /// The gate of the job's slot, or of the piece, is written.
    GateWritten,
    /// The job's slot is open, or the piece is.
    JobDone,
}

/// What a step of a job answers, and the job after it.
pub(crate) type Stepped = (Result<JobDid, PumpFault>, Option<Job>);
