//! The steps of a job before its slot: the parts of what its slot is to name, or those of a growth.
ghost use Rattle.std.specs.Prelude.{◌≡◌, ◌+◌, ◌<◌, ◌≤◌, ◌^◌, slice_get, IfSome, length, drop, ℕ, Option, None, Some, MatchOption};
ghost use Rattle.status.specs.TurnState.{LogState, TurnState};
ghost use Rattle.deltas.specs.Chains.{first_number};
ghost use Rattle.store.specs.Jobs.{Stores, writing, Grows, growing, WritesOrSyncs, WritesRun, AnchorsOrSync, SyncsStored};
ghost use Rattle.store.specs.Parts.{parts_of, IsStageOf, GrowsBehind};
ghost use Rattle.store.specs.Values.{ArchiveValue, lent_by};

use crate::giving_up::GiveUp;
use crate::job::{Job, JobDid, JobStage, JobWork, Stepped};
use crate::starting::first_number;
use archive::RunWriter;
use deltas::{EXTENT_LEN, fill_extent};
use disk::{Area, DeviceFault, Disk};
use extents::Extent;
use group::{PumpFault, Transactions};
use status::{Grew, Growth, PIECE_SLOTS, StatusLog};
use vacuum::{AnchorSource, ArchiveWalk};
use wire::{Anchors, Run};

/// The bytes of an extent.
pub(crate) const EXTENT_BYTES: u64 = EXTENT_LEN as u64;

// Writes the next piece of what the slot is to name; where all is written it is synced. A growth makes
// its next device call.
pub(crate) fn store_next<D: Disk>(
    transactions: &mut Transactions,
    log: &mut StatusLog,
    disk: &mut D,
    work: JobWork,
) -> Stepped
    requires stage { IsStageOf work JobStage.Writing }
    requires behind { GrowsBehind work log.old }
    requires lent { log.old.slots ≡ transactions.old.slots + lent_by work }
    ensures { (turn : Option TurnState) (archived runs_end : ℕ) (archive : ArchiveValue)
        → Stores D.tells work (writing work) (parts_of transactions.old log.old turn (Some (writing work)) archived runs_end archive (D.state disk.old))
        result.0 (parts_of transactions.new log.new turn result.1 archived runs_end archive (D.state disk.new)) }
{
    match work {
        JobWork::Archive { run, writer } => store_run(transactions, disk, run, writer),
        JobWork::Reclaim {
            anchors,
            source,
            written,
        } => store_anchors(transactions, disk, anchors, source, written),
        JobWork::Floor { .. } => unreachable!(),
        JobWork::Grow { growth } => grow(transactions, log, disk, growth),
    }
}

// The next device call of a piece of slots. Once its gate is synced its slots are the store's.
fn grow<D: Disk>(
    transactions: &mut Transactions,
    log: &mut StatusLog,
    disk: &mut D,
    growth: Growth,
) -> Stepped
    requires behind { growth.slots ≡ transactions.old.slots }
    requires room { growth.slots + 256 ≤ 65536 }
    ensures { (turn : Option TurnState) (archived runs_end : ℕ) (archive : ArchiveValue)
        → Grows D.tells growth (parts_of transactions.old log.old turn (Some (growing growth)) archived runs_end archive (D.state disk.old)) result.0
        (parts_of transactions.new log.new turn result.1 archived runs_end archive (D.state disk.new)) }
{
    let mut growth = growth;
    let grew = log.grow(&mut growth, disk);
    let job = Job {
        work: JobWork::Grow { growth },
        stage: JobStage::Writing,
    };
    match grew {
        Err(DeviceFault) => {
            transactions.fail();
            (Err(PumpFault::Failed), Some(job))
        }
        Ok(Grew::WroteZeros) => (Ok(JobDid::WroteZeros), Some(job)),
        Ok(Grew::ZerosSynced) => (Ok(JobDid::ZerosSynced), Some(job)),
        Ok(Grew::GateWritten) => (Ok(JobDid::GateWritten), Some(job)),
        Ok(Grew::Grown) => {
            job.give_up();
            transactions.add_slots(PIECE_SLOTS);
            (Ok(JobDid::JobDone), None)
        }
    }
}

// Writes the next piece of the run; where all is written the archive is synced.
fn store_run<D: Disk>(
    transactions: &mut Transactions,
    disk: &mut D,
    run: Run,
    writer: RunWriter<ArchiveWalk>,
) -> Stepped
    ensures { (log : LogState) (turn : Option TurnState) (archived runs_end : ℕ) (archive : ArchiveValue)
        → WritesOrSyncs D.tells writer.left run writer (writing (JobWork.Archive run writer))
        (parts_of transactions.old log turn (Some (writing (JobWork.Archive run writer))) archived runs_end archive (D.state disk.old)) result.0
        (parts_of transactions.new log turn result.1 archived runs_end archive (D.state disk.new)) }
{
    if writer.left() == 0 {
        sync_stored(
            transactions,
            disk,
            Area::Archive,
            JobDid::RunSynced,
            JobWork::Archive { run, writer },
        )
    } else {
        write_run(transactions, disk, run, writer)
    }
}

// Writes the next piece of the run.
fn write_run<D: Disk>(
    transactions: &mut Transactions,
    disk: &mut D,
    run: Run,
    writer: RunWriter<ArchiveWalk>,
) -> Stepped
    requires { 0 < length writer.left }
    ensures { (log : LogState) (turn : Option TurnState) (archived runs_end : ℕ) (archive : ArchiveValue)
        → WritesRun D.tells run writer (writing (JobWork.Archive run writer))
        (parts_of transactions.old log turn (Some (writing (JobWork.Archive run writer))) archived runs_end archive (D.state disk.old)) result.0
        (parts_of transactions.new log turn result.1 archived runs_end archive (D.state disk.new)) }
{
    let mut writer = writer;
    let written = writer.write_piece(disk);
    let job = Job {
        work: JobWork::Archive { run, writer },
        stage: JobStage::Writing,
    };
    match written {
        Err(DeviceFault) => {
            transactions.fail();
            (Err(PumpFault::Failed), Some(job))
        }
        Ok(()) => (Ok(JobDid::WroteRun), Some(job)),
    }
}

// Writes the next extent of the anchors; where all are written the heap is synced.
fn store_anchors<D: Disk>(
    transactions: &mut Transactions,
    disk: &mut D,
    anchors: Anchors,
    source: AnchorSource,
    written: usize,
) -> Stepped
    ensures { (log : LogState) (turn : Option TurnState) (archived runs_end : ℕ) (archive : ArchiveValue)
        → AnchorsOrSync D.tells (slice_get transactions.old.reserved written) anchors source written (writing (JobWork.Reclaim anchors source written))
        (parts_of transactions.old log turn (Some (writing (JobWork.Reclaim anchors source written))) archived runs_end archive (D.state disk.old)) result.0
        (parts_of transactions.new log turn result.1 archived runs_end archive (D.state disk.new)) }
{
    let Some((number, next)) = next_extent(transactions.reserved(), written) else {
        let work = JobWork::Reclaim {
            anchors,
            source,
            written,
        };
        return sync_stored(transactions, disk, Area::Heap, JobDid::HeapSynced, work);
    };
    let mut source = source;
    let mut image = [0; EXTENT_LEN];
    let _filled = fill_extent(&mut source, number, next, &mut image);
    let job = Job {
        work: JobWork::Reclaim {
            anchors,
            source,
            written: written + 1,
        },
        stage: JobStage::Writing,
    };
    match disk.write_at(Area::Heap, EXTENT_BYTES * u64::from(number - 1), &image) {
        Err(DeviceFault) => {
            transactions.fail();
            (Err(PumpFault::Failed), Some(job))
        }
        Ok(()) => (Ok(JobDid::WroteExtent), Some(job)),
    }
}

// The number of the extent at this place, and of the one behind it, 0 for none.
fn next_extent(reserved: &[Extent], place: usize) -> Option<(u32, u32)>
    ensures is { MatchOption result (slice_get reserved.now place ≡ None)
        (λ r. (slice_get reserved.now place ≡ Some r.0) × (r.1 ≡ first_number (drop (place + 1) reserved.now))) }
    ensures low { IfSome result (λ r. 1 ≤ r.0) }
    ensures high { IfSome result (λ r. r.0 ≤ 65536) }
    ensures within { IfSome result (λ r. place < length reserved.now) }
    ensures fits { length reserved.now < 2 ^ 63 }
{
    match reserved.get(place) {
        None => None,
        Some(extent) => Some((extent.number(), first_number(&reserved[place + 1..]))),
    }
}

// Syncs what the job made.
fn sync_stored<D: Disk>(
    transactions: &mut Transactions,
    disk: &mut D,
    area: Area,
    did: JobDid,
    work: JobWork,
) -> Stepped
    ensures { (log : LogState) (turn : Option TurnState) (archived runs_end : ℕ) (archive : ArchiveValue)
        → SyncsStored D.tells area did (writing work) (parts_of transactions.old log turn (Some (writing work)) archived runs_end archive (D.state disk.old))
        result.0 (parts_of transactions.new log turn result.1 archived runs_end archive (D.state disk.new)) }
{
    match disk.sync(area) {
        Err(DeviceFault) => {
            transactions.fail();
            let job = Job {
                work,
                stage: JobStage::Writing,
            };
            (Err(PumpFault::Failed), Some(job))
        }
        Ok(()) => {
            let job = Job {
                work,
                stage: JobStage::Stored,
            };
            (Ok(did), Some(job))
        }
    }
}
