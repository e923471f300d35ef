//! What a job is.
ghost use Rattle.std.specs.Prelude.{◌≡◌};

use archive::RunWriter;
use floors::Floors;
use log_entries::{Archive, Listed, RelationFloor};
use log_writer::ChainWriter;
use vacuum::ArchiveWalk;

/// What a job puts into the log by its entry.
#[derive(Drop)]
pub enum JobWork {
    /// A floor of one relation, and the floors once its entry is the log's.
    Floor {
        floor: RelationFloor,
        floors: Floors,
    },
    /// A run of the archive, and all archives that the log names once its entry is the log's.
    Archive {
        archive: Archive,
        archives: Listed<Archive>,
    },
}

/// How far a job is.
#[derive(Drop)]
pub enum JobStage {
    /// The run that its entry will name is in the writing.
    Writing(RunWriter<ArchiveWalk>),
    /// Its entry is not begun. Where the job has waited for a group, no other group begins before its entry.
    Ready { waited: bool },
    /// Its entry is in the writing.
    Entering(ChainWriter),
}

/// A job that runs.
#[derive(Drop)]
pub struct Job {
    pub(crate) work: JobWork,
    pub(crate) stage: JobStage,
}

/// What a step of a job did.
#[derive(Clone, Copy, Debug, PartialEq, Eq)]
pub enum JobDid {
    /// No job runs.
    Idle,
    /// The next part of the run is written.
    WroteRun,
    RunSynced,
    /// Its entry is written, but for its gate.
    WroteEntry,
    /// The gate where the log will end is closed.
    GateClosed,
    HeapSynced,
    /// The gate of its entry is open.
    GateWritten,
    /// The next extent of a base's anchors is written, or of the base.
    WroteExtent,
    /// The next part of a base's roll is written.
    WroteRoll,
    RollSynced,
    /// The status area names the base as the root that does not count yet.
    RootWritten,
    RootSynced,
    /// The turn gate is written: the root that names the base counts.
    TurnWritten,
    /// Its entry or its base is the log's, and no job runs.
    JobDone,
}

/// Why no job begins. Of several reasons the first is told; want of memory comes where it is met.
#[derive(Clone, Copy, Debug, PartialEq, Eq)]
pub enum StartFault {
    /// A write or sync of the device was refused before.
    Failed,
    /// Floors are those of one relation each.
    WrongProfile,
    /// A job runs, or a reclaim.
    JobBusy,
    /// The floor of the relation is as late, or all versions that ended by then are archived, or the present base says all that the
    /// first chains of the log do.
    NothingToDo,
    /// The last commit that is published has this earlier time, in microseconds since 1970.
    NotYet(u64),
    /// An open transaction reads at this earlier time, in microseconds since 1970.
    InUse(u64),
    /// The log's half of the heap has no extent for its entry, or a base none for the floor; or the base or its anchors would pass their
    /// share.
    HeapFull,
    /// The run or the roll would end past byte 2^63 - 1 of the archive.
    ArchiveFull,
    NoMemory,
}
