//! The steps of a job's slot, and what counts once it is open.
ghost use Rattle.std.specs.Prelude.{◌≡◌, ◌<◌, false, OnOk, OnErr, ℕ, Option, Some};
ghost use Rattle.status.specs.TurnState.{LogState, TurnState};
ghost use Rattle.store.specs.Jobs.{BeginsJobSlot, TurnsJob, stored, slot_body, made_ready, work_done, TakesMemory};
ghost use Rattle.disk.specs.Calls.{DiskState};
ghost use Rattle.group.specs.Values.{KeepsSlots};
ghost use Rattle.store.specs.Parts.{parts_of, job_did_of, IsInPlace, IsStageOf};
ghost use Rattle.store.specs.Values.{ArchiveValue};
ghost use Rattle.store.specs.declared.job.Job.{Job};

use crate::job::{Job, JobDid, JobStage, JobWork, Stepped};
use crate::slot_calls::{SlotCall, SlotStep, advance_slot};
use crate::store_archive::Archived;
use disk::Disk;
use group::{PumpFault, Transactions};
use status::{SlotTurn, StatusLog};
use std::alloc::{AllocError, Global};
use wire::Body;

// Begins the slot of what the job made, and writes its body.
pub(crate) fn begin_slot<D: Disk>(
    alloc: Global,
    transactions: &mut Transactions,
    log: &mut StatusLog,
    disk: &mut D,
    archived: &mut Archived,
    work: JobWork,
) -> Stepped
    requires slots { transactions.old.slots < 65536 }
    requires end { IsInPlace work }
    requires kind { IsStageOf work JobStage.Stored }
    requires free { log.old.writing ≡ false }
    requires room { log.old.used < log.old.slots }
    ensures { (turn : Option TurnState)
        → BeginsJobSlot D.tells (stored work) (parts_of transactions.old log.old turn
        (Some (stored work)) archived.old.upto archived.old.runs_end archived.old.archive (D.state disk.old)) result.0
        (parts_of transactions.new log.new turn result.1 archived.new.upto archived.new.runs_end archived.new.archive (D.state disk.new)) }
{
    let Ok(()) = make_ready(alloc, transactions, &work) else {
        return (Err(PumpFault::NoMemory), Some(stored(work)));
    };
    match log.begin_slot(slot_body(&work)) {
        Err(_) => unreachable!(),
        Ok(turn) => turn_job_slot(alloc, transactions, log, disk, archived, work, turn),
    }
}

// The next device call of the job's slot. Once the last one is made what the job made stands; a
// refused one spends the turn, and the store has failed.
pub(crate) fn turn_job_slot<D: Disk>(
    alloc: Global,
    transactions: &mut Transactions,
    log: &mut StatusLog,
    disk: &mut D,
    archived: &mut Archived,
    work: JobWork,
    turn: SlotTurn,
) -> Stepped
    requires slots { transactions.old.slots < 65536 }
    requires end { IsInPlace work }
    ensures { (other : Option TurnState) (before : Option Job)
        → TurnsJob D.tells (stored work) turn (parts_of transactions.old log.old other before archived.old.upto archived.old.runs_end archived.old.archive
        (D.state disk.old)) result.0 (parts_of transactions.new log.new other result.1 archived.new.upto archived.new.runs_end archived.new.archive
        (D.state disk.new)) }
{
    match advance_slot(transactions, log, disk, turn) {
        Err(fault) => (Err(fault), Some(stored(work))),
        Ok(SlotStep::Opened) => {
            finish(alloc, transactions, archived, work);
            transactions.slot_used();
            (Ok(JobDid::JobDone), None)
        }
        Ok(SlotStep::More(call, next)) => {
            let did = job_did_of(call);
            let job = Job {
                work,
                stage: JobStage::Turning(next),
            };
            (Ok(did), Some(job))
        }
    }
}

// The job once that is written and synced which its slot is to name.
pub(crate) fn stored(work: JobWork) -> Job
    ensures { result ≡ stored work }
{
    Job {
        work,
        stage: JobStage::Stored,
    }
}

// What the job's slot says.
fn slot_body(work: &JobWork) -> Body
    requires { IsStageOf work.now JobStage.Stored }
    ensures { result ≡ slot_body work.now }
{
    match work {
        JobWork::Archive { run, .. } => Body::Archived(*run),
        JobWork::Reclaim { anchors, .. } => Body::Reclaimed(*anchors),
        JobWork::Floor { scope, floor, .. } => Body::Floor {
            relation: *scope,
            floor: *floor,
        },
        JobWork::Grow { .. } => unreachable!(),
    }
}

// Makes in memory what has to be made before the slot is begun.
fn make_ready(
    alloc: Global,
    transactions: &mut Transactions,
    work: &JobWork,
) -> Result<(), AllocError>
    ensures ok { OnOk result ((log : LogState) (turn : Option TurnState) (job : Option Job) (archived runs_end : ℕ) (archive : ArchiveValue) (disk : DiskState)
        → parts_of transactions.new log turn job archived runs_end archive disk
        ≡ made_ready work.now (parts_of transactions.old log turn job archived runs_end archive disk)) }
    ensures err { OnErr result (TakesMemory work.now × (transactions.new ≡ transactions.old)) }
    ensures slots { KeepsSlots transactions.old transactions.new }
{
    match work {
        JobWork::Archive { .. } | JobWork::Floor { .. } | JobWork::Grow { .. } => Ok(()),
        JobWork::Reclaim { anchors, .. } => transactions.prepare_reclaim(alloc, anchors.upto),
    }
}

// What the job made stands: an archive's run is the log's, and raises the archive mark; a reclaim
// raises the reclaim mark, and a floor puts the floors that then stand into their place.
fn finish(alloc: Global, transactions: &mut Transactions, archived: &mut Archived, work: JobWork)
    requires { IsInPlace work }
    ensures is { (log : LogState) (turn : Option TurnState) (job : Option Job) (disk : DiskState)
        → parts_of transactions.new log turn job archived.new.upto archived.new.runs_end archived.new.archive disk
        ≡ work_done work (parts_of transactions.old log turn job archived.old.upto archived.old.runs_end archived.old.archive disk) }
    ensures slots { KeepsSlots transactions.old transactions.new }
{
    match work {
        JobWork::Archive { run, .. } => {
            archived.upto = run.upto;
            archived.runs_end = run.start + run.len;
            archived.archive.put_run();
        }
        JobWork::Reclaim { anchors, .. } => transactions.reclaim(alloc, anchors.upto),
        JobWork::Floor { floors, .. } => transactions.put_floors(floors),
        JobWork::Grow { .. } => {}
    }
}

// What a step of a job did that made this call of its slot.
fn job_did_of(call: SlotCall) -> JobDid
    ensures { result ≡ job_did_of call }
{
    match call {
        SlotCall::BodyWritten => JobDid::BodyWritten,
        SlotCall::BodySynced => JobDid::BodySynced,
        SlotCall::GateWritten => JobDid::GateWritten,
    }
}
