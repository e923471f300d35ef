//! The steps of a job to the disk.
ghost use Rattle.std.specs.Prelude.{◌≡◌, ◌+◌, ◌<◌, false, is_some, IsTrue, Option, Some};
ghost use Rattle.disk.specs.Areas.{AreSound};
ghost use Rattle.status.specs.TurnState.{TurnState};
ghost use Rattle.store.specs.Jobs.{PumpsJob, TakesJobStep};
ghost use Rattle.store.specs.Parts.{parts_of, IsInPlace, IsStageOf, GrowsBehind};
ghost use Rattle.store.specs.Values.{lent_by};

use crate::giving_up::put_in_place;
use crate::job::{Job, JobDid, JobStage, Stepped};
use crate::job_pieces::store_next;
use crate::job_slot::{begin_slot, stored, turn_job_slot};
use crate::store::Store;
use crate::store_archive::Archived;
use disk::Disk;
use group::{PumpFault, Transactions};
use status::StatusLog;
use std::alloc::Global;
use std::mem;

impl<D: Disk> Store<D> {
    /// One step of the job that runs: it writes the next 8,192 bytes of its run, of its anchors or of its
    /// piece's zeros, syncs them, or makes the next device call of its slot or of the piece's gate; a floor
    /// has its slot alone, and a growth none. `Idle` is answered where no job runs.
    ///
    /// Answers `Failed` once a write or sync of the device was refused, and `Busy`, with nothing done,
    /// where the job would begin its slot while a group's is in the writing. `NoMemory`, with nothing
    /// done, is answered where a reclaim would begin its slot.
    pub fn job_pump(&mut self) -> Result<JobDid, PumpFault>
        ensures is { PumpsJob D.tells self.old result self.new }
        ensures sound { IsTrue D.tells → AreSound self.new.disk.areas }
    {
        if self.transactions.has_failed() {
            return Err(PumpFault::Failed);
        }
        let is_turning = self.is_group_turning();
        match mem::replace(&mut self.job, None) {
            None => Ok(JobDid::Idle),
            Some(job) => {
                let (answer, next) = step_job(
                    self.alloc,
                    &mut self.transactions,
                    &mut self.log,
                    &mut self.disk,
                    &mut self.archived,
                    is_turning,
                    job,
                );
                put_in_place(&mut self.job, next);
                answer
            }
        }
    }

    // Whether a group's slot is in the writing.
    fn is_group_turning(&self) -> bool
        ensures { result ≡ is_some self.now.turn }
    {
        self.turn.is_some()
    }
}

// The next step of a job, where a group's slot is in the writing or none is, and the job after it.
fn step_job<D: Disk>(
    alloc: Global,
    transactions: &mut Transactions,
    log: &mut StatusLog,
    disk: &mut D,
    archived: &mut Archived,
    is_turning: bool,
    job: Job,
) -> Stepped
    requires slots { transactions.old.slots < 65536 }
    requires end { IsInPlace job.work }
    requires stage { IsStageOf job.work job.stage }
    requires free { is_turning ≡ false → job.stage ≡ JobStage.Stored → log.old.writing ≡ false }
    requires behind { GrowsBehind job.work log.old }
    requires lent { log.old.slots ≡ transactions.old.slots + lent_by job.work }
    requires room { job.stage ≡ JobStage.Stored → log.old.used < log.old.slots }
    ensures { (turn : Option TurnState) → is_some turn ≡ is_turning
        → TakesJobStep D.tells job.stage job (parts_of transactions.old log.old turn (Some job) archived.old.upto archived.old.runs_end archived.old.archive
        (D.state disk.old)) result.0 (parts_of transactions.new log.new turn result.1 archived.new.upto archived.new.runs_end archived.new.archive
        (D.state disk.new)) }
{
    let Job { work, stage } = job;
    match stage {
        JobStage::Writing => store_next(transactions, log, disk, work),
        JobStage::Stored => {
            if is_turning {
                return (Err(PumpFault::Busy), Some(stored(work)));
            }
            begin_slot(alloc, transactions, log, disk, archived, work)
        }
        JobStage::Turning(turn) => {
            turn_job_slot(alloc, transactions, log, disk, archived, work, turn)
        }
    }
}
