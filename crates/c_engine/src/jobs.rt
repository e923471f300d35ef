//! Archives, reclaims, floors and growths.
use crate::code::{Code, Info};
use crate::codes::start_code;
use crate::engine::Engine;
use crate::step::Step;

impl Engine {
    ghost use Rattle.c_engine.specs.Engines.{ArchivesEngine, ReclaimsEngine, RaisesEngine, RaisesFloorOf, GrowsEngine, PumpsJobOf};

    /// Begins an archive of what ended by a time.
    pub fn archive(&mut self, upto: u64, info: &mut Info) -> Code
        ensures { ArchivesEngine upto self.old result info.new self.new }
    {
        if let Some(code) = self.stopped() {
            return code;
        }
        match self.store.archive_start(upto) {
            Ok(()) => Code::Ok,
            Err(fault) => start_code(fault, info),
        }
    }

    /// Begins a reclaim of what is archived.
    pub fn reclaim(&mut self, info: &mut Info) -> Code
        ensures { ReclaimsEngine self.old result info.new self.new }
    {
        if let Some(code) = self.stopped() {
            return code;
        }
        match self.store.reclaim_start() {
            Ok(()) => Code::Ok,
            Err(fault) => start_code(fault, info),
        }
    }

    /// Begins to raise the floor of all relations to a time.
    pub fn floor(&mut self, time: u64, info: &mut Info) -> Code
        ensures { RaisesEngine time self.old result info.new self.new }
    {
        if let Some(code) = self.stopped() {
            return code;
        }
        match self.store.floor_start(time) {
            Ok(()) => Code::Ok,
            Err(fault) => start_code(fault, info),
        }
    }

    /// Begins to raise the floor of one relation to a time.
    pub fn floor_of_start(&mut self, relation: u16, time: u64, info: &mut Info) -> Code
        ensures { RaisesFloorOf relation time self.old result info.new self.new }
    {
        if let Some(code) = self.stopped() {
            return code;
        }
        match self.store.floor_of_start(relation, time) {
            Ok(()) => Code::Ok,
            Err(fault) => start_code(fault, info),
        }
    }

    /// Begins to make 256 slots more.
    pub fn grow(&mut self, info: &mut Info) -> Code
        ensures { GrowsEngine self.old result info.new self.new }
    {
        if let Some(code) = self.stopped() {
            return code;
        }
        match self.store.grow_start() {
            Ok(()) => Code::Ok,
            Err(fault) => start_code(fault, info),
        }
    }

    /// One step of the job that runs; whether a device call is due for it is told.
    pub fn job_pump(&mut self, info: &mut Info) -> Code
        ensures { PumpsJobOf self.old result info.new self.new }
    {
        if let Some(code) = self.stopped() {
            return code;
        }
        let Some(published) = self.published() else {
            return Code::NoMemory;
        };
        let made = self.calls();
        let log = self.store.job_area();
        match self.store.job_pump() {
            Ok(did) => self.stand_out(Step::Job(log, did), published, info),
            Err(fault) => self.refuse_step(fault, made, published),
        }
    }
}
