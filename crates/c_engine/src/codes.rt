//! The codes of a store's answers.
ghost use Rattle.std.specs.Prelude.{◌≡◌};
ghost use Rattle.c_engine.specs.Areas.{area_number};
ghost use Rattle.c_engine.specs.Codes.{IsDamagedCode, IsOpenCode, begin_code, txn_code, IsSubmitCode, pump_code, IsStartCode, told_did, job_number};
ghost use Rattle.c_engine.specs.Queries.{IsFaultCode};

use crate::code::{Code, Info};
use any_store::{
    BeginFault, Did, JobDid, OpenFault, PumpFault, QueryFault, StartFault, SubmitFault, TxnFault,
};
use disk::Area;

pub(crate) fn area_number(area: Area) -> u32
    ensures { result ≡ area_number area }
{
    match area {
        Area::Status => 0,
        Area::Heap => 1,
        Area::Archive => 2,
    }
}

// The place of what is damaged, and its area, are told.
fn damaged_code(area: Area, place: u64, info: &mut Info) -> Code
    ensures { IsDamagedCode area place result info.new }
{
    info.a = place;
    info.b = area_number(area) as u64;
    Code::Damaged
}

pub(crate) fn open_code(fault: OpenFault, info: &mut Info) -> Code
    ensures { IsOpenCode fault result info.new }
{
    match fault {
        OpenFault::NotAStore => Code::NotAStore,
        OpenFault::Damaged(area, place) => damaged_code(area, place, info),
        OpenFault::Device => Code::Failed,
        OpenFault::NoMemory => Code::NoMemory,
    }
}

pub(crate) fn begin_code(fault: BeginFault) -> Code
    ensures { result ≡ begin_code fault }
{
    match fault {
        BeginFault::NoMemory => Code::NoMemory,
        BeginFault::Failed => Code::Failed,
    }
}

pub(crate) fn txn_code(outcome: Result<(), TxnFault>) -> Code
    ensures { result ≡ txn_code outcome }
{
    match outcome {
        Ok(()) => Code::Ok,
        Err(TxnFault::Missing) => Code::Missing,
        Err(TxnFault::TooManyKeys) => Code::TooManyKeys,
        Err(TxnFault::BadValue) => Code::BadValue,
        Err(TxnFault::NoMemory) => Code::NoMemory,
    }
}

// The key of a conflict is told.
pub(crate) fn submit_code(fault: SubmitFault, info: &mut Info) -> Code
    ensures { IsSubmitCode fault result info.new }
{
    match fault {
        SubmitFault::Conflict(key) => {
            info.a = key.relation as u64;
            info.b = key.record;
            Code::Conflict
        }
        SubmitFault::HeapFull => Code::HeapFull,
        SubmitFault::StatusFull => Code::StatusFull,
        SubmitFault::ClockEnd => Code::ClockEnd,
        SubmitFault::NoMemory => Code::NoMemory,
        SubmitFault::Failed => Code::Failed,
        SubmitFault::Stranger => Code::Stranger,
    }
}

pub(crate) fn pump_code(fault: PumpFault) -> Code
    ensures { result ≡ pump_code fault }
{
    match fault {
        PumpFault::Busy => Code::Busy,
        PumpFault::NoMemory => Code::NoMemory,
        PumpFault::Failed => Code::Failed,
    }
}

// The time of the last commit, or the least open snapshot, is told.
pub(crate) fn start_code(fault: StartFault, info: &mut Info) -> Code
    ensures { IsStartCode fault result info.new }
{
    match fault {
        StartFault::Failed => Code::Failed,
        StartFault::WrongProfile => Code::WrongProfile,
        StartFault::JobBusy => Code::JobBusy,
        StartFault::NothingToDo => Code::NothingToDo,
        StartFault::NotYet(last) => {
            info.a = last;
            Code::NotYet
        }
        StartFault::InUse(oldest) => {
            info.a = oldest;
            Code::InUse
        }
        StartFault::StatusFull => Code::StatusFull,
        StartFault::ArchiveFull => Code::ArchiveFull,
        StartFault::HeapFull => Code::HeapFull,
        StartFault::NoMemory => Code::NoMemory,
        StartFault::NotGrowable => Code::NotGrowable,
    }
}

// The bound that a time breaks is told, and what is damaged.
pub(crate) fn query_code(fault: QueryFault, info: &mut Info) -> Code
    ensures { IsFaultCode fault result info.new }
{
    match fault {
        QueryFault::BeforeKept(time) => {
            info.a = time;
            Code::BeforeKept
        }
        QueryFault::NotYet(time) => {
            info.a = time;
            Code::NotYet
        }
        QueryFault::Damaged(place) => damaged_code(Area::Archive, place, info),
        QueryFault::EmptyInterval => Code::EmptyInterval,
        QueryFault::Device => Code::Failed,
        QueryFault::NeedsDisk => Code::NeedsArchive,
        QueryFault::NoMemory => Code::NoMemory,
        QueryFault::Stranger => Code::Stranger,
    }
}

// What a step of a group did, and how many commits are published.
pub(crate) fn did_number(did: Did, info: &mut Info)
    ensures { info.new ≡ told_did did }
{
    info.b = 0;
    info.a = match did {
        Did::Idle => 0,
        Did::WroteExtent => 1,
        Did::HeapSynced => 2,
        Did::BodyWritten => 3,
        Did::BodySynced => 4,
        Did::GateWritten => 5,
        Did::Published(count) => {
            info.b = count as u64;
            6
        }
        Did::GateClosed => 13,
    };
}

// What a step of a job did.
pub(crate) fn job_number(did: JobDid) -> u64
    ensures { result ≡ job_number did }
{
    match did {
        JobDid::Idle => 0,
        JobDid::WroteRun => 1,
        JobDid::RunSynced => 2,
        JobDid::BodyWritten => 3,
        JobDid::BodySynced => 4,
        JobDid::GateWritten => 5,
        JobDid::JobDone => 6,
        JobDid::WroteExtent => 7,
        JobDid::HeapSynced => 8,
        JobDid::WroteZeros => 9,
        JobDid::ZerosSynced => 10,
        JobDid::WroteEntry => 12,
        JobDid::GateClosed => 13,
        JobDid::WroteRoll => 14,
        JobDid::RollSynced => 15,
        JobDid::RootWritten => 16,
        JobDid::RootSynced => 17,
        JobDid::TurnWritten => 18,
    }
}
