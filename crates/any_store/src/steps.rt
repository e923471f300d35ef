//! What the steps of a group and of a job did, in either layout.
ghost use Rattle.std.specs.Prelude.{◌≡◌, IsTrue};
ghost use Rattle.disk.specs.Areas.{AreSound};
ghost use Rattle.any_store.specs.Steps.{slots_did, log_did, slots_job_did, log_job_did, slots_step, log_step, slots_job_step, log_job_step};
ghost use Rattle.any_store.specs.Steps.{PumpsSlots, PumpsLog, PumpsSlotsJob, PumpsLogJob};

use disk::Disk;
use group::{Did as SlotsDid, PumpFault};
use log_store::{Did as LogDid, JobDid as LogJobDid, LogStore};
use store::{JobDid as SlotsJobDid, Store as SlotStore};

/// What a step of a group did. Each but `Idle` is one write or one sync.
#[derive(Clone, Copy, Debug, PartialEq, Eq)]
pub enum Did {
    /// Nothing: no group is in the writing, and no commit waits.
    Idle,
    /// An extent of the group is written; in a log in the heap without the gate of its chain.
    WroteExtent,
    /// Where the log lies in the heap: the gate where it will end is closed.
    GateClosed,
    HeapSynced,
    /// Where the log is slots: the group's slot is written, but for its gate.
    BodyWritten,
    BodySynced,
    /// The gate of the group's slot, or of its chain, is written.
    GateWritten,
    /// That many commits are published: the gate is synced.
    Published(u32),
}

/// What a step of a job did. Each but `Idle` is one write or one sync.
#[derive(Clone, Copy, Debug, PartialEq, Eq)]
pub enum JobDid {
    /// Nothing: no job runs.
    Idle,
    /// The next part of the run is written.
    WroteRun,
    RunSynced,
    /// The next extent of the anchors is written, or of a base.
    WroteExtent,
    HeapSynced,
    /// The next 8,192 zeros of a piece of slots are written.
    WroteZeros,
    ZerosSynced,
    /// Where the log is slots: the job's slot is written, but for its gate.
    BodyWritten,
    BodySynced,
    /// Where the log lies in the heap: the job's entry is written, but for its gate.
    WroteEntry,
    /// There too: the gate where the log will end is closed.
    GateClosed,
    /// There too: the next part of a roll of names is written.
    WroteRoll,
    RollSynced,
    /// There too: the root that does not count yet names the base.
    RootWritten,
    RootSynced,
    /// There too: the turn gate is written, so that the root counts that names the base.
    TurnWritten,
    /// The gate of the job's slot, entry or piece is written.
    GateWritten,
    /// The job's slot, entry, base or piece counts: its gate is synced.
    JobDone,
}

// ---- steps of a group

fn slots_did(what: SlotsDid) -> Did
    ensures { result ≡ slots_did what }
{
    match what {
        SlotsDid::Idle => Did::Idle,
        SlotsDid::WroteExtent => Did::WroteExtent,
        SlotsDid::HeapSynced => Did::HeapSynced,
        SlotsDid::BodyWritten => Did::BodyWritten,
        SlotsDid::BodySynced => Did::BodySynced,
        SlotsDid::GateWritten => Did::GateWritten,
        SlotsDid::Published(count) => Did::Published(count),
    }
}

fn log_did(what: LogDid) -> Did
    ensures { result ≡ log_did what }
{
    match what {
        LogDid::Idle => Did::Idle,
        LogDid::WroteExtent => Did::WroteExtent,
        LogDid::GateClosed => Did::GateClosed,
        LogDid::HeapSynced => Did::HeapSynced,
        LogDid::GateWritten => Did::GateWritten,
        LogDid::Published(count) => Did::Published(count),
    }
}

fn slots_step(said: Result<SlotsDid, PumpFault>) -> Result<Did, PumpFault>
    ensures { result ≡ slots_step said }
{
    match said {
        Ok(what) => Ok(slots_did(what)),
        Err(why) => Err(why),
    }
}

fn log_step(said: Result<LogDid, PumpFault>) -> Result<Did, PumpFault>
    ensures { result ≡ log_step said }
{
    match said {
        Ok(what) => Ok(log_did(what)),
        Err(why) => Err(why),
    }
}

pub(crate) fn pump_slots<D: Disk>(store: &mut SlotStore<D>) -> Result<Did, PumpFault>
    ensures is { PumpsSlots D.tells result store.old store.new }
    ensures sound { IsTrue D.tells → AreSound store.new.disk.areas }
{
    slots_step(store.pump())
}

pub(crate) fn pump_log<D: Disk>(store: &mut LogStore<D>) -> Result<Did, PumpFault>
    ensures is { PumpsLog D.tells result store.old store.new }
    ensures sound { IsTrue D.tells → AreSound store.new.disk.areas }
{
    log_step(store.pump())
}

// ---- steps of a job

fn slots_job_did(what: SlotsJobDid) -> JobDid
    ensures { result ≡ slots_job_did what }
{
    match what {
        SlotsJobDid::Idle => JobDid::Idle,
        SlotsJobDid::WroteRun => JobDid::WroteRun,
        SlotsJobDid::RunSynced => JobDid::RunSynced,
        SlotsJobDid::WroteExtent => JobDid::WroteExtent,
        SlotsJobDid::HeapSynced => JobDid::HeapSynced,
        SlotsJobDid::WroteZeros => JobDid::WroteZeros,
        SlotsJobDid::ZerosSynced => JobDid::ZerosSynced,
        SlotsJobDid::BodyWritten => JobDid::BodyWritten,
        SlotsJobDid::BodySynced => JobDid::BodySynced,
        SlotsJobDid::GateWritten => JobDid::GateWritten,
        SlotsJobDid::JobDone => JobDid::JobDone,
    }
}

fn log_job_did(what: LogJobDid) -> JobDid
    ensures { result ≡ log_job_did what }
{
    match what {
        LogJobDid::Idle => JobDid::Idle,
        LogJobDid::WroteRun => JobDid::WroteRun,
        LogJobDid::RunSynced => JobDid::RunSynced,
        LogJobDid::WroteEntry => JobDid::WroteEntry,
        LogJobDid::GateClosed => JobDid::GateClosed,
        LogJobDid::HeapSynced => JobDid::HeapSynced,
        LogJobDid::GateWritten => JobDid::GateWritten,
        LogJobDid::WroteExtent => JobDid::WroteExtent,
        LogJobDid::WroteRoll => JobDid::WroteRoll,
        LogJobDid::RollSynced => JobDid::RollSynced,
        LogJobDid::RootWritten => JobDid::RootWritten,
        LogJobDid::RootSynced => JobDid::RootSynced,
        LogJobDid::TurnWritten => JobDid::TurnWritten,
        LogJobDid::JobDone => JobDid::JobDone,
    }
}

fn slots_job_step(said: Result<SlotsJobDid, PumpFault>) -> Result<JobDid, PumpFault>
    ensures { result ≡ slots_job_step said }
{
    match said {
        Ok(what) => Ok(slots_job_did(what)),
        Err(why) => Err(why),
    }
}

fn log_job_step(said: Result<LogJobDid, PumpFault>) -> Result<JobDid, PumpFault>
    ensures { result ≡ log_job_step said }
{
    match said {
        Ok(what) => Ok(log_job_did(what)),
        Err(why) => Err(why),
    }
}

pub(crate) fn pump_slots_job<D: Disk>(store: &mut SlotStore<D>) -> Result<JobDid, PumpFault>
    ensures is { PumpsSlotsJob D.tells result store.old store.new }
    ensures sound { IsTrue D.tells → AreSound store.new.disk.areas }
{
    slots_job_step(store.job_pump())
}

pub(crate) fn pump_log_job<D: Disk>(store: &mut LogStore<D>) -> Result<JobDid, PumpFault>
    ensures is { PumpsLogJob D.tells result store.old store.new }
    ensures sound { IsTrue D.tells → AreSound store.new.disk.areas }
{
    log_job_step(store.job_pump())
}
