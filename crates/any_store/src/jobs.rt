//! Jobs.
ghost use Rattle.std.specs.Prelude.{◌≡◌, IsTrue, None, Some};
ghost use Rattle.disk.specs.Areas.{AreSound};
ghost use Rattle.any_store.specs.Values.{disk_of};
ghost use Rattle.any_store.specs.Jobs.{none_of, StartsArchive, StartsReclaim, StartsFloor, StartsGrowth, PumpsJob};
ghost use Rattle.any_store.specs.Jobs.{told_fault, told_start, StartsLogArchive, StartsLogReclaim, StartsLogFloor};

use crate::any::Store;
use crate::engine::Engine;
use crate::steps::{JobDid, pump_log_job, pump_slots_job};
use disk::Disk;
use group::PumpFault;
use log_store::{LogStore, StartFault as LogStartFault};
use store::StartFault;

impl<D: Disk> Store<D> {
    /// Begins an archive of the versions that ended by `upto`, in microseconds since 1970. No device call is made.
    pub fn archive_start(&mut self, upto: u64) -> Result<(), StartFault>
        ensures { StartsArchive self.old upto result self.new }
    {
        match &mut self.engine {
            Engine::Slots(store) => store.archive_start(upto),
            Engine::Log(store) => start_log_archive(store, upto),
        }
    }

    /// Begins a reclaim: heap and memory are to give up what ended by the archive mark. No device call is made.
    pub fn reclaim_start(&mut self) -> Result<(), StartFault>
        ensures { StartsReclaim self.old result self.new }
    {
        match &mut self.engine {
            Engine::Slots(store) => store.reclaim_start(),
            Engine::Log(store) => start_log_reclaim(store),
        }
    }

    /// Begins to raise the floor of every relation, in a store that has one for all. No device call is made.
    pub fn floor_start(&mut self, floor: u64) -> Result<(), StartFault>
        ensures { StartsFloor self.old None floor result self.new }
    {
        self.start_floor(None, floor)
    }

    /// Begins to raise the floor of one relation, in a store that has one for each. No device call is made.
    pub fn floor_of_start(&mut self, relation: u16, floor: u64) -> Result<(), StartFault>
        ensures { StartsFloor self.old (Some relation) floor result self.new }
    {
        self.start_floor(Some(relation), floor)
    }

    /// Begins to raise the floor of one relation, or of every relation. No device call is made.
    pub fn start_floor(&mut self, scope: Option<u16>, floor: u64) -> Result<(), StartFault>
        ensures { StartsFloor self.old scope floor result self.new }
    {
        match &mut self.engine {
            Engine::Slots(store) => store.start_floor(scope, floor),
            Engine::Log(store) => start_log_floor(store, scope, floor),
        }
    }

    /// Begins to make 256 slots more, where the log is slots. No device call is made.
    pub fn grow_start(&mut self) -> Result<(), StartFault>
        ensures { StartsGrowth self.old result self.new }
    {
        match &mut self.engine {
            Engine::Slots(store) => store.grow_start(),
            Engine::Log(store) => Err(none_of(store.has_failed(), StartFault::NotGrowable)),
        }
    }

    /// The next step of the job that runs, which makes at most one write or sync of the disk.
    pub fn job_pump(&mut self) -> Result<JobDid, PumpFault>
        ensures is { PumpsJob D.tells self.old result self.new }
        ensures sound { IsTrue D.tells → AreSound (disk_of self.new).areas }
    {
        match &mut self.engine {
            Engine::Slots(store) => pump_slots_job(store),
            Engine::Log(store) => pump_log_job(store),
        }
    }
}

// Why no job begins in a store of a profile that has none of its kind.
fn none_of(failed: bool, why: StartFault) -> StartFault
    ensures { result ≡ none_of failed why }
{
    if failed { StartFault::Failed } else { why }
}

// ---- where the log lies in the heap

// Why no job begins.
fn told_fault(why: LogStartFault) -> StartFault
    ensures { result ≡ told_fault why }
{
    match why {
        LogStartFault::Failed => StartFault::Failed,
        LogStartFault::WrongProfile => StartFault::WrongProfile,
        LogStartFault::JobBusy => StartFault::JobBusy,
        LogStartFault::NothingToDo => StartFault::NothingToDo,
        LogStartFault::NotYet(last) => StartFault::NotYet(last),
        LogStartFault::InUse(snapshot) => StartFault::InUse(snapshot),
        LogStartFault::HeapFull => StartFault::HeapFull,
        LogStartFault::ArchiveFull => StartFault::ArchiveFull,
        LogStartFault::NoMemory => StartFault::NoMemory,
    }
}

fn told_start(said: Result<(), LogStartFault>) -> Result<(), StartFault>
    ensures { result ≡ told_start said }
{
    match said {
        Ok(()) => Ok(()),
        Err(why) => Err(told_fault(why)),
    }
}

fn start_log_archive<D: Disk>(store: &mut LogStore<D>, upto: u64) -> Result<(), StartFault>
    ensures { StartsLogArchive upto result store.old store.new }
{
    told_start(store.archive_start(upto))
}

fn start_log_reclaim<D: Disk>(store: &mut LogStore<D>) -> Result<(), StartFault>
    ensures { StartsLogReclaim result store.old store.new }
{
    told_start(store.reclaim_start())
}

fn start_log_floor<D: Disk>(
    store: &mut LogStore<D>,
    scope: Option<u16>,
    floor: u64,
) -> Result<(), StartFault>
    ensures { StartsLogFloor scope floor result store.old store.new }
{
    told_start(store.start_floor(scope, floor))
}
