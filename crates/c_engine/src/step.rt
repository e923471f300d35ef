//! Steps of a group and of a job, and the device call of each.
ghost use Rattle.std.specs.Prelude.{◌≡◌};
ghost use Rattle.c_engine.specs.Steps.{group_call, job_call, call_of, told_step};

use crate::code::Info;
use crate::codes::{did_number, job_number};
use crate::device_call::DeviceCall;
use any_store::{Did, JobDid};
use disk::Area;

/// What a step of a store did, and the area of the gate that makes it count.
#[derive(Clone, Copy, Debug, PartialEq, Eq)]
pub enum Step {
    Group(Area, Did),
    Job(Area, JobDid),
}

fn group_call(log: Area, did: Did) -> Option<DeviceCall>
    ensures { result ≡ group_call log did }
{
    match did {
        Did::Idle => None,
        Did::WroteExtent | Did::GateClosed => Some(DeviceCall::Write(Area::Heap)),
        Did::HeapSynced => Some(DeviceCall::Sync(Area::Heap)),
        Did::BodyWritten | Did::GateWritten => Some(DeviceCall::Write(log)),
        Did::BodySynced | Did::Published(_) => Some(DeviceCall::Sync(log)),
    }
}

fn job_call(log: Area, did: JobDid) -> Option<DeviceCall>
    ensures { result ≡ job_call log did }
{
    match did {
        JobDid::Idle => None,
        JobDid::WroteRun | JobDid::WroteRoll => Some(DeviceCall::Write(Area::Archive)),
        JobDid::RunSynced | JobDid::RollSynced => Some(DeviceCall::Sync(Area::Archive)),
        JobDid::WroteExtent | JobDid::WroteEntry | JobDid::GateClosed => {
            Some(DeviceCall::Write(Area::Heap))
        }
        JobDid::HeapSynced => Some(DeviceCall::Sync(Area::Heap)),
        JobDid::WroteZeros | JobDid::RootWritten | JobDid::TurnWritten => {
            Some(DeviceCall::Write(Area::Status))
        }
        JobDid::ZerosSynced | JobDid::RootSynced => Some(DeviceCall::Sync(Area::Status)),
        JobDid::BodyWritten | JobDid::GateWritten => Some(DeviceCall::Write(log)),
        JobDid::BodySynced | JobDid::JobDone => Some(DeviceCall::Sync(log)),
    }
}

impl Step {
    /// The device call of this step; none where there was nothing to do.
    pub fn call(self) -> Option<DeviceCall>
        ensures { result ≡ call_of self }
    {
        match self {
            Step::Group(log, did) => group_call(log, did),
            Step::Job(log, did) => job_call(log, did),
        }
    }

    // What it did, and how many commits are published.
    pub(crate) fn tell(self, info: &mut Info)
        ensures { info.new ≡ told_step self }
    {
        match self {
            Step::Group(_, did) => did_number(did, info),
            Step::Job(_, did) => {
                *info = Info {
                    a: job_number(did),
                    b: 0,
                };
            }
        }
    }
}
