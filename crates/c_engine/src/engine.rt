//! A store, what it gave out, and the device call that the host is to make.
ghost use Rattle.std.specs.Prelude.{◌≡◌, IfSome};

use crate::DeviceCall;
use crate::asking::{self, Kept};
use crate::code::{Call, Code, Info};
use crate::codes::{area_number, pump_code};
use crate::places::Places;
use crate::step::Step;
use crate::values::copy_bytes;
use any_store::{PumpFault, View};
use disk::{Area, Disk};
use std::alloc::Global;
use std::mem;

/// Whether the engine's store is asked now.
#[derive(Clone, Copy, Debug, PartialEq, Eq)]
pub enum EngineState {
    Settled,
    /// The host has not made the device call of this step.
    Asks(Step),
    /// The host was refused a device call.
    Failed,
}

/// What was published before a device call.
pub struct Published {
    pub view: View,
    pub last: u64,
    pub floor: u64,
}

impl Published {
    /// Ends the view that it holds.
    pub fn spend(self) {
        let Published {
            view,
            last: _,
            floor: _,
        } = self;
        view.spend();
    }
}

/// A store for a host that makes its device calls, which it pulls. While one is due nothing else is
/// answered but by views and open transactions; after one that was refused what was published before it.
pub struct Engine {
    pub(crate) alloc: Global,
    pub(crate) store: Kept,
    pub(crate) places: Places,
    pub(crate) state: EngineState,
    // What was published before the call that stands out or was refused.
    pub(crate) before: Option<Published>,
}

impl Drop for Engine {
    fn drop(self) {
        let Engine {
            alloc: _,
            store,
            places,
            state: _,
            before,
        } = self;
        if let Some(published) = before {
            published.spend();
        }
        places.give_up();
        let _disk = store.close();
    }
}

// What a step tells whose device call the host is to make.
const CALL_DUE: u64 = 11;

const NO_CALL: Call = Call {
    kind: 0,
    area: 0,
    at: 0,
    len: 0,
};

fn put_published(place: &mut Option<Published>, published: Option<Published>)
    ensures { place.new ≡ published }
{
    if let Some(before) = mem::replace(place, published) {
        before.spend();
    }
}

impl Engine {
    ghost use Rattle.disk.specs.Areas.{area_of};
    ghost use Rattle.any_store.specs.Values.{disk_of};
    ghost use Rattle.c_engine.specs.Engines.{stopped_by, asks, is_failed, due_in, IsNew, TellsTimes, HasCalled, StandsOut, IsRefused, WasPublished, TellsCall};
    ghost use Rattle.c_engine.specs.HostCalls.{Tells, write_in};
    ghost use Rattle.c_engine.specs.LastWrites.{last_write};

    pub(crate) fn new(alloc: Global, store: Kept, mark: u64) -> Engine
        ensures store { result.store ≡ store }
        ensures is_new { IsNew mark result }
    {
        Engine {
            alloc,
            store,
            places: Places::new(alloc, mark),
            state: EngineState::Settled,
            before: None,
        }
    }

    /// Why nothing may be asked of the store now.
    pub(crate) fn stopped(&self) -> Option<Code>
        ensures { result ≡ stopped_by self.now.state }
    {
        match self.state {
            EngineState::Settled => None,
            EngineState::Asks(_) => Some(Code::Pending),
            EngineState::Failed => Some(Code::Failed),
        }
    }

    /// Whether a device call is due.
    pub(crate) fn asks(&self) -> bool
        ensures { result ≡ asks self.now.state }
    {
        matches!(self.state, EngineState::Asks(_))
    }

    /// Whether a device call was refused.
    pub(crate) fn has_failed(&self) -> bool
        ensures { result ≡ is_failed self.now.state }
    {
        matches!(self.state, EngineState::Failed)
    }

    /// The time of the last commit, and the floor of the relations that have none of their own.
    pub fn last(&self, info: &mut Info) -> Code
        ensures { TellsTimes self.now.state self.now result info.new }
    {
        match self.state {
            EngineState::Settled => {
                info.a = self.store.last();
                info.b = self.store.floors().every();
                Code::Ok
            }
            EngineState::Asks(_) => Code::Pending,
            EngineState::Failed => match &self.before {
                None => Code::Failed,
                Some(published) => {
                    info.a = published.last;
                    info.b = published.floor;
                    Code::Ok
                }
            },
        }
    }

    // The device call of the step that the store has taken, and the host has not.
    fn due(&self) -> Option<DeviceCall>
        ensures { result ≡ due_in self.now.state }
    {
        match self.state {
            EngineState::Asks(step) => step.call(),
            EngineState::Settled | EngineState::Failed => None,
        }
    }

    /// The device call that the host is to make, and the bytes that it writes.
    pub fn call(&self, call: &mut Call, out: &mut [u8]) -> Code
        ensures { TellsCall self.now result call.new out.new }
    {
        match self.due() {
            None => {
                *call = NO_CALL;
                Code::None
            }
            Some(DeviceCall::Sync(area)) => {
                *call = Call {
                    kind: 2,
                    area: area_number(area),
                    at: 0,
                    len: 0,
                };
                Code::Ok
            }
            Some(DeviceCall::Write(area)) => self.tell_write(area, call, out),
        }
    }

    // The last write of an area is told.
    fn tell_write(&self, area: Area, call: &mut Call, out: &mut [u8]) -> Code
        ensures { Tells (write_in area (last_write (area_of (disk_of self.now.store).areas area))) result call.new out.new }
    {
        let write = self.store.disk().last_write(area);
        let Some(at) = write.at else {
            *call = NO_CALL;
            return Code::None;
        };
        let bytes = &write.bytes[..];
        *call = Call {
            kind: 1,
            area: area_number(area),
            at,
            len: bytes.len() as u64,
        };
        if copy_bytes(bytes, out) {
            Code::Ok
        } else {
            Code::Small
        }
    }

    /// The host has made the device call, and what its step did is told; or it was refused.
    pub fn called(&mut self, made: bool, info: &mut Info) -> Code
        ensures { HasCalled made self.old result info.new self.new }
    {
        let EngineState::Asks(step) = self.state else {
            return Code::None;
        };
        if !made {
            self.state = EngineState::Failed;
            return Code::Failed;
        }
        step.tell(info);
        self.state = EngineState::Settled;
        put_published(&mut self.before, None);
        Code::Ok
    }

    /// What is published now.
    pub(crate) fn published(&self) -> Option<Published>
        ensures { IfSome result (WasPublished self.now.store) }
    {
        let Ok(view) = asking::view(&self.store) else {
            return None;
        };
        Some(Published {
            view,
            last: self.store.last(),
            floor: self.store.floors().every(),
        })
    }

    /// The step's device call is due from now on, if it has one: that is told, and what was published before it
    /// is kept.
    pub(crate) fn stand_out(&mut self, step: Step, published: Published, info: &mut Info) -> Code
        ensures { StandsOut step published self.old result info.new self.new }
    {
        match step.call() {
            None => {
                *info = Info { a: 0, b: 0 };
                published.spend();
            }
            Some(_) => {
                *info = Info { a: CALL_DUE, b: 0 };
                self.state = EngineState::Asks(step);
                put_published(&mut self.before, Some(published));
            }
        }
        Code::Ok
    }

    /// A step was refused, when so many device calls were counted before: where its own was, the store goes on no
    /// more.
    pub(crate) fn refuse_step(&mut self, fault: PumpFault, made: u64, published: Published) -> Code
        ensures { IsRefused fault made published self.old result self.new }
    {
        if self.calls() == made {
            published.spend();
        } else {
            self.state = EngineState::Failed;
            put_published(&mut self.before, Some(published));
        }
        pump_code(fault)
    }

    pub(crate) fn calls(&self) -> u64
        ensures { result ≡ (disk_of self.now.store).made }
    {
        self.store.disk().made()
    }
}
