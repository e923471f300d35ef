//! The steps of a group to the disk.
ghost use Rattle.std.specs.Prelude.{◌≡◌, ◌<◌, false, is_some, IsTrue, IsSome, None};
ghost use Rattle.store.specs.Values.{turn_of};
ghost use Rattle.disk.specs.Areas.{AreSound};
ghost use Rattle.group.specs.Steps.{due, next_extent};
ghost use Rattle.store.specs.Pumps.{Pumps, TakesStep, SyncsHeap, MayBeginSlot, TakesSlot, TurnsSlot, store_of, did_of};

use crate::giving_up::put_in_place;
use crate::job::JobStage;
use crate::job_pieces::EXTENT_BYTES;
use crate::slot_calls::{SlotCall, SlotStep, advance_slot};
use crate::store::Store;
use disk::{Area, DeviceFault, Disk};
use group::{Did, NextStep, PumpFault, Transactions};
use status::{SlotTurn, StatusLog};
use std::mem;
use wire::Body;

impl<D: Disk> Store<D> {
    /// One step of the group of commits that is being written; where there is none, one begins of the
    /// first 16 that wait. Each step makes one write or sync of the disk. `Idle` is answered where
    /// there is no group and no commit waits.
    pub fn pump(&mut self) -> Result<Did, PumpFault>
        ensures is { Pumps D.tells self.old result self.new }
        ensures sound { IsTrue D.tells → AreSound self.new.disk.areas }
    {
        if self.transactions.has_failed() {
            return Err(PumpFault::Failed);
        }
        match self.transactions.next_step() {
            NextStep::Idle => Ok(Did::Idle),
            NextStep::WriteExtent => self.write_extent(),
            NextStep::SyncHeap => self.sync_heap(),
            NextStep::BeginSlot => {
                if self.is_job_turning() {
                    return Err(PumpFault::Busy);
                }
                self.begin_slot()
            }
            NextStep::AdvanceSlot => self.advance_group_slot(),
        }
    }

    // Whether the job's slot is in the writing.
    fn is_job_turning(&self) -> bool
        ensures { result ≡ is_some (turn_of self.now.job) }
    {
        match &self.job {
            None => false,
            Some(job) => match &job.stage {
                JobStage::Writing | JobStage::Stored => false,
                JobStage::Turning(_) => true,
            },
        }
    }

    // Writes the group's next extent.
    fn write_extent(&mut self) -> Result<Did, PumpFault>
        requires due { due self.old.transactions ≡ NextStep.WriteExtent }
        requires extent { IsSome (next_extent self.old.transactions) }
        ensures is { TakesStep D.tells NextStep.WriteExtent self.old result self.new }
        ensures sound { IsTrue D.tells → AreSound self.new.disk.areas }
    {
        let Some(stored) = self.transactions.next_extent() else {
            unreachable!()
        };
        let place = EXTENT_BYTES * u64::from(stored.extent.number() - 1);
        match self.disk.write_at(Area::Heap, place, stored.image.bytes()) {
            Err(DeviceFault) => {
                self.transactions.fail();
                Err(PumpFault::Failed)
            }
            Ok(()) => {
                self.transactions.wrote_extent();
                Ok(Did::WroteExtent)
            }
        }
    }

    fn sync_heap(&mut self) -> Result<Did, PumpFault>
        requires { due self.old.transactions ≡ NextStep.SyncHeap }
        ensures is { SyncsHeap D.tells self.old result self.new }
        ensures sound { IsTrue D.tells → AreSound self.new.disk.areas }
    {
        match self.disk.sync(Area::Heap) {
            Err(DeviceFault) => {
                self.transactions.fail();
                Err(PumpFault::Failed)
            }
            Ok(()) => {
                self.transactions.heap_synced();
                Ok(Did::HeapSynced)
            }
        }
    }

    // Begins the slot of the group's commits, and writes its body.
    #[tactic(auto, using(crate::proofs::Begins::may_begin, crate::proofs::Begins::lacks))]
    fn begin_slot(&mut self) -> Result<Did, PumpFault>
        requires due { due self.old.transactions ≡ NextStep.BeginSlot }
        requires works { self.old.transactions.failed ≡ false }
        requires room { self.old.transactions.used < self.old.transactions.slots }
        requires free { is_some (turn_of self.old.job) ≡ false }
        ensures is { MayBeginSlot D.tells self.old result self.new }
        ensures sound { IsTrue D.tells → AreSound self.new.disk.areas }
    {
        let body = self.transactions.slot_body();
        let Ok(()) = self.transactions.freshen(self.alloc) else {
            return Err(PumpFault::NoMemory);
        };
        self.take_slot(body)
    }

    // Begins the next slot with this body, and writes it.
    fn take_slot(&mut self, body: Body) -> Result<Did, PumpFault>
        requires due { due self.old.transactions ≡ NextStep.BeginSlot }
        requires works { self.old.transactions.failed ≡ false }
        requires room { self.old.transactions.used < self.old.transactions.slots }
        requires free { is_some (turn_of self.old.job) ≡ false }
        ensures is { TakesSlot D.tells body self.old result self.new }
        ensures sound { IsTrue D.tells → AreSound self.new.disk.areas }
    {
        match self.log.begin_slot(body) {
            Err(_) => unreachable!(),
            Ok(turn) => {
                self.transactions.slot_begun();
                let (answer, next) = turn_group_slot(
                    &mut self.transactions,
                    &mut self.log,
                    &mut self.disk,
                    turn,
                );
                put_in_place(&mut self.turn, next);
                answer
            }
        }
    }

    // Goes on with the group's slot.
    fn advance_group_slot(&mut self) -> Result<Did, PumpFault>
        requires due { due self.old.transactions ≡ NextStep.AdvanceSlot }
        requires works { self.old.transactions.failed ≡ false }
        ensures is { TakesStep D.tells NextStep.AdvanceSlot self.old result self.new }
        ensures sound { IsTrue D.tells → AreSound self.new.disk.areas }
    {
        match mem::replace(&mut self.turn, None) {
            None => unreachable!(),
            Some(turn) => {
                let (answer, next) = turn_group_slot(
                    &mut self.transactions,
                    &mut self.log,
                    &mut self.disk,
                    turn,
                );
                put_in_place(&mut self.turn, next);
                answer
            }
        }
    }
}

// The next device call of the group's slot. The last one publishes the group; a refused one spends
// the turn, and the store has failed.
fn turn_group_slot<D: Disk>(
    transactions: &mut Transactions,
    log: &mut StatusLog,
    disk: &mut D,
    turn: SlotTurn,
) -> (Result<Did, PumpFault>, Option<SlotTurn>)
    requires { due transactions.old ≡ NextStep.AdvanceSlot }
    ensures { TurnsSlot D.tells turn (store_of transactions.old log.old None (D.state disk.old)) result.0
        (store_of transactions.new log.new result.1 (D.state disk.new)) }
{
    match advance_slot(transactions, log, disk, turn) {
        Err(fault) => (Err(fault), None),
        Ok(SlotStep::Opened) => {
            let count = transactions.publish();
            (Ok(Did::Published(count)), None)
        }
        Ok(SlotStep::More(call, next)) => {
            let did = did_of(call);
            (Ok(did), Some(next))
        }
    }
}

// What a step of a group did that made this call of its slot.
fn did_of(call: SlotCall) -> Did
    ensures { result ≡ did_of call }
{
    match call {
        SlotCall::BodyWritten => Did::BodyWritten,
        SlotCall::BodySynced => Did::BodySynced,
        SlotCall::GateWritten => Did::GateWritten,
    }
}
