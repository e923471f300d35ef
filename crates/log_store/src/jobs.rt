//! The steps of a job to the disk.
ghost use Rattle.std.specs.Prelude.{◌≡◌, length, false, true, IsTrue, IfErr, IfOk, OnOk, OnErr, MatchOption, None};
ghost use Rattle.disk.specs.Areas.{AreSound};
ghost use Rattle.disk.specs.Calls.{Counts};
ghost use Rattle.status.specs.SlotCalls.{answer_of};
ghost use Rattle.log_entries.specs.Spelling.{entry_bytes};
ghost use Rattle.log_extents.specs.Chains.{count_of};
ghost use Rattle.log_recovery.specs.Live.{part_of};
ghost use Rattle.log_store.specs.declared.job.JobStage.TheVariants.{Ready};
ghost use Rattle.log_store.specs.Jobs.{PumpsJob, BeginsEntry, AdvancesEntry, IsWriting, IsReady, IsEntering, is_writing, is_ready, at_stage};
ghost use Rattle.log_store.specs.Jobs.{entry_of, commits_with, named_with, archive_with, commits_by, named_by, archive_by, did_of};
ghost use Rattle.log_store.specs.Jobs.{IsStageOnItsWay, IsEntryCallOf, IsNextOf, waiting, entering};
ghost use Rattle.log_store.specs.Runs.{CallsAt, WritesRun, did_at, behind};
ghost use Rattle.log_store.specs.Values.{IsInPlace, IsJobInPlace};

use crate::job::{Job, JobDid, JobStage, JobWork};
use crate::named::Named;
use crate::store::LogStore;
use commits::Commits;
use disk::{Area, DeviceFault, Disk};
use group::PumpFault;
use log_entries::{push_archive, push_floor};
use log_recovery::LivePart;
use log_writer::{ChainWriter, Wrote};
use std::alloc::{AllocError, Global};
use timequery::StoreArchive;

/// An entry takes one extent.
const ENTRY_EXTENTS: usize = 1;

// What a call of an entry's chain did.
fn did_of(what: Wrote) -> JobDid
    ensures { result ≡ did_of what }
{
    match what {
        Wrote::Extent => JobDid::WroteEntry,
        Wrote::ClosedGate => JobDid::GateClosed,
        Wrote::Synced => JobDid::HeapSynced,
        Wrote::Gate => JobDid::GateWritten,
        Wrote::Settled => JobDid::JobDone,
    }
}

impl JobWork {
    // The bytes of its entry, which have room in one extent.
    fn entry(&self, alloc: Global) -> Result<Vec<u8>, AllocError>
        ensures is { IfOk result (λ bytes. bytes.items ≡ entry_bytes (entry_of self.now)) }
        ensures one { IfOk result (λ bytes. count_of (length bytes.items) ≡ 1) }
    {
        let mut bytes = Vec::new(alloc);
        match self {
            JobWork::Floor { floor, .. } => {
                push_floor(&mut bytes, floor)?;
                Ok(bytes)
            }
            JobWork::Archive { archive, .. } => {
                push_archive(&mut bytes, archive)?;
                Ok(bytes)
            }
        }
    }

    // What memory keeps of its entry.
    fn part(&self) -> LivePart
        ensures { result ≡ part_of (entry_of self.now) }
    {
        match self {
            JobWork::Floor { floor, .. } => LivePart::Floor(*floor),
            JobWork::Archive { archive, .. } => LivePart::Archived(*archive),
        }
    }

    // Its entry is the log's.
    fn ends(self, commits: &mut Commits, named: &mut Named, archived: &mut StoreArchive)
        requires { IsInPlace self }
        ensures commits { commits.new ≡ commits_with self commits.old }
        ensures named { named.new ≡ named_with self named.old }
        ensures archived { archived.new ≡ archive_with self archived.old }
    {
        match self {
            JobWork::Floor { floors, .. } => commits.put_floors(floors),
            JobWork::Archive { archive, archives } => {
                named.put_archives(archives, archive);
                archived.put_run();
            }
        }
    }
}

// Whether the run that its entry will name is in the writing.
fn is_writing(job: &Job) -> bool
    ensures { result ≡ is_writing job.now.stage }
{
    matches!(&job.stage, JobStage::Writing(_))
}

// Whether its entry is to begin.
fn is_ready(job: &Job) -> bool
    ensures { result ≡ is_ready job.now.stage }
{
    matches!(&job.stage, JobStage::Ready { .. })
}

impl Job {
    // The next device call of its run: a piece of it, or its sync where all is written. After a refused write the writer stands behind the
    // piece too.
    fn write_next<D: Disk>(&mut self, disk: &mut D) -> Result<JobDid, DeviceFault>
        requires { is_writing self.old.stage ≡ true }
        ensures call { IsTrue D.tells → CallsAt self.old.stage (answer_of result) (D.state disk.old).areas (D.state disk.new).areas }
        ensures counts { Counts result (D.state disk.old) (D.state disk.new) }
        ensures ok { IfOk result (λ what. (what ≡ did_at self.old.stage) × (self.new ≡ behind self.old true)) }
        ensures err { IfErr result (λ why. self.new ≡ behind self.old false) }
    {
        let JobStage::Writing(writer) = &mut self.stage else {
            unreachable!()
        };
        if writer.left() > 0 {
            writer.write_piece(disk)?;
            return Ok(JobDid::WroteRun);
        }
        disk.sync(Area::Archive)?;
        self.stage = JobStage::Ready { waited: false };
        Ok(JobDid::RunSynced)
    }

    // The next device call of its entry. A refused one changes nothing here.
    fn advance<D: Disk>(&mut self, disk: &mut D) -> Result<Wrote, DeviceFault>
        requires { IsStageOnItsWay self.old.stage }
        ensures call { IsTrue D.tells → IsEntryCallOf self.old.stage (answer_of result) (D.state disk.old).areas (D.state disk.new).areas }
        ensures counts { Counts result (D.state disk.old) (D.state disk.new) }
        ensures ok { IfOk result (λ what. IsNextOf self.old what self.new) }
        ensures err { IfErr result (λ why. self.new ≡ self.old) }
    {
        match &mut self.stage {
            JobStage::Writing(_) | JobStage::Ready { .. } => unreachable!(),
            JobStage::Entering(entry) => entry.advance(disk),
        }
    }
}

// The job has waited for a group.
fn wait(job: &mut Option<Job>)
    ensures { job.new ≡ waiting job.old }
{
    if let Some(job) = job {
        job.stage = JobStage::Ready { waited: true };
    }
}

// The entry of a job that is ready is in the writing.
fn enter(job: &mut Option<Job>, entry: ChainWriter)
    ensures { job.new ≡ entering job.old entry }
{
    if let Some(job) = job {
        job.stage = JobStage::Entering(entry);
    }
}

// The entry of the job is the log's, and no job runs.
fn end_job(
    job: &mut Option<Job>,
    commits: &mut Commits,
    named: &mut Named,
    archived: &mut StoreArchive,
)
    requires { IsJobInPlace job.old }
    ensures none { job.new ≡ None }
    ensures commits { commits.new ≡ commits_by job.old commits.old }
    ensures named { named.new ≡ named_by job.old named.old }
    ensures archived { archived.new ≡ archive_by job.old archived.old }
{
    if let Some(job) = job.take() {
        let Job { work, stage: _ } = job;
        work.ends(commits, named, archived);
    }
}

impl<D: Disk> LogStore<D> {
    /// The next step of the job or the reclaim that runs, which makes at most one write or sync of the disk. `Idle` is answered where none
    /// runs.
    ///
    /// # Errors
    ///
    /// `Failed` once a write or sync of the device was refused. Where its entry would begin: `Busy` while a group is in the writing, and
    /// from then on no other group begins before that entry; `NoMemory`, with nothing done. Where a reclaim would turn the root: `Busy` while
    /// the gate of a group is written and not synced.
    pub fn job_pump(&mut self) -> Result<JobDid, PumpFault>
        ensures is { PumpsJob D.tells self.old result self.new }
        ensures sound { IsTrue D.tells → AreSound self.new.disk.areas }
    {
        if self.commits.has_failed() {
            return Err(PumpFault::Failed);
        }
        if self.reclaim.is_some() {
            return self.step_reclaim();
        }
        let Some(job) = &self.job else {
            return Ok(JobDid::Idle);
        };
        if is_writing(job) {
            return self.write_run();
        }
        if is_ready(job) {
            if self.turn.is_some() {
                self.wait_for_group();
                return Err(PumpFault::Busy);
            }
            if self.begin_entry().is_err() {
                return Err(PumpFault::NoMemory);
            }
        }
        self.advance_entry()
    }

    // The next device call of the run of the job.
    fn write_run(&mut self) -> Result<JobDid, PumpFault>
        requires works { self.old.commits.failed ≡ false }
        requires writing { IsWriting self.old.job }
        ensures is { MatchOption self.old.job ⊥ (λ job. WritesRun D.tells job self.old result self.new) }
        ensures sound { IsTrue D.tells → AreSound self.new.disk.areas }
    {
        let Some(job) = &mut self.job else {
            unreachable!()
        };
        match job.write_next(&mut self.disk) {
            Err(DeviceFault) => {
                self.commits.fail();
                Err(PumpFault::Failed)
            }
            Ok(did) => Ok(did),
        }
    }

    // No other group begins before the entry of the job, which is not begun.
    fn wait_for_group(&mut self)
        requires { IsReady self.old.job }
        ensures { MatchOption self.old.job ⊥ (λ job. self.new ≡ at_stage self.old job (Ready true)) }
    {
        wait(&mut self.job);
    }

    // The entry begins, of which nothing is written yet.
    fn begin_entry(&mut self) -> Result<(), AllocError>
        requires none { self.old.turn ≡ None }
        requires ready { IsReady self.old.job }
        ensures ok { OnOk result (MatchOption self.old.job ⊥ (λ job. BeginsEntry self.old job self.new)) }
        ensures err { OnErr result (self.new ≡ self.old) }
    {
        let Some(job) = &self.job else { unreachable!() };
        let bytes = job.work.entry(self.alloc)?;
        let part = job.work.part();
        let place = self.live.make_place(self.alloc, ENTRY_EXTENTS)?;
        let chain = self
            .room
            .take_chain(self.alloc, ENTRY_EXTENTS, ENTRY_EXTENTS)?;
        self.live.put(place, &chain.numbers, part);
        let entry = ChainWriter::new(chain.numbers, chain.link, bytes);
        enter(&mut self.job, entry);
        Ok(())
    }

    // The next device call of the entry's chain.
    fn advance_entry(&mut self) -> Result<JobDid, PumpFault>
        requires works { self.old.commits.failed ≡ false }
        requires entering { IsEntering self.old.job }
        ensures is { AdvancesEntry D.tells self.old.job self.old result self.new }
        ensures sound { IsTrue D.tells → AreSound self.new.disk.areas }
    {
        let Some(job) = &mut self.job else {
            unreachable!()
        };
        match job.advance(&mut self.disk) {
            Err(DeviceFault) => {
                self.commits.fail();
                Err(PumpFault::Failed)
            }
            Ok(Wrote::Settled) => {
                end_job(
                    &mut self.job,
                    &mut self.commits,
                    &mut self.named,
                    &mut self.archive,
                );
                Ok(JobDid::JobDone)
            }
            Ok(what) => Ok(did_of(what)),
        }
    }
}
