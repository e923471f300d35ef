//! The steps of a group to the disk.
ghost use Rattle.std.specs.Prelude.{◌≡◌, ◌<◌, false, IsTrue, IsSome, OnErr, OnOk, length, None};
ghost use Rattle.disk.specs.Areas.{AreSound};
ghost use Rattle.log_store.specs.Gates.{bars_gate, turn_waits};
ghost use Rattle.log_store.specs.Pumps.{Pumps, bars_groups, Begins, AdvancesGroup, did_of};

use crate::job::JobStage;
use crate::reclaim::Reclaim;
use crate::store::LogStore;
use commits::MOST_IN_GROUP;
use disk::{DeviceFault, Disk};
use group::PumpFault;
use log_extents::count_extents;
use log_recovery::LivePart;
use log_room::{drop_first, join};
use log_writer::{ChainWriter, Wrote};
use std::alloc::AllocError;

/// What a step of a group did.
#[derive(Clone, Copy, Debug, PartialEq, Eq)]
pub enum Did {
    /// No group is in the writing, and no commit waits.
    Idle,
    /// The next extent of the group's chain is written, the first one but for its gate.
    WroteExtent,
    /// The gate where the log will end is closed.
    GateClosed,
    HeapSynced,
    /// The gate of the chain is open.
    GateWritten,
    /// That many commits are published.
    Published(u32),
}

// What a call of a group's chain did.
fn did_of(what: Wrote, group: u32) -> Did
    ensures { result ≡ did_of what group }
{
    match what {
        Wrote::Extent => Did::WroteExtent,
        Wrote::ClosedGate => Did::GateClosed,
        Wrote::Synced => Did::HeapSynced,
        Wrote::Gate => Did::GateWritten,
        Wrote::Settled => Did::Published(group),
    }
}

// Whether the turn gate is written and not synced.
fn bars_gate(reclaim: &Option<Reclaim>) -> bool
    ensures { result ≡ bars_gate reclaim.now }
{
    match reclaim {
        None => false,
        Some(reclaim) => reclaim.is_turned(),
    }
}

impl<D: Disk> LogStore<D> {
    /// One step of the group of commits that is being written; where there is none, one begins of the first 1,024 that wait. Each step
    /// makes one write or sync of the disk. `Idle` is answered where there is no group and no commit waits.
    ///
    /// # Errors
    ///
    /// `Failed` once a write or sync of the device was refused. With nothing done, where a group would begin: `Busy` while a job's entry is in
    /// the writing, or waits to be; `NoMemory`. Where its gate would open: `Busy` while a reclaim has turned the root and not synced that.
    pub fn pump(&mut self) -> Result<Did, PumpFault>
        ensures is { Pumps D.tells self.old result self.new }
        ensures sound { IsTrue D.tells → AreSound self.new.disk.areas }
    {
        if self.commits.has_failed() {
            return Err(PumpFault::Failed);
        }
        if self.turn.is_none() {
            if self.commits.waiting() == 0 {
                return Ok(Did::Idle);
            }
            if self.is_barred() {
                return Err(PumpFault::Busy);
            }
            if self.begin_group().is_err() {
                return Err(PumpFault::NoMemory);
            }
        } else if self.waits_to_open() {
            return Err(PumpFault::Busy);
        }
        self.advance()
    }

    // Whether a job bars groups.
    fn is_barred(&self) -> bool
        ensures { result ≡ bars_groups self.now.job }
    {
        match &self.job {
            None => false,
            Some(job) => match &job.stage {
                JobStage::Writing(_) => false,
                JobStage::Ready { waited } => *waited,
                JobStage::Entering(_) => true,
            },
        }
    }

    // Whether the next call would open the gate of the group's chain while the turn gate of a reclaim is written and not synced.
    fn waits_to_open(&self) -> bool
        ensures { result ≡ turn_waits self.now.turn self.now.reclaim }
    {
        match &self.turn {
            None => false,
            Some(turn) => turn.is_opening() && bars_gate(&self.reclaim),
        }
    }

    // A group begins, of which nothing is written yet.
    fn begin_group(&mut self) -> Result<(), AllocError>
        requires none { self.old.turn ≡ None }
        requires unbarred { bars_groups self.old.job ≡ false }
        requires some { 0 < length self.old.commits.queue }
        ensures ok { OnOk result (Begins self.old self.new) }
        ensures err { OnErr result (self.new ≡ self.old) }
    {
        let size = MOST_IN_GROUP.min(self.commits.waiting());
        let group = join(self.alloc, &self.contents, size)?;
        let count = count_extents(group.bytes.len());
        let place = self.live.make_place(self.alloc, count)?;
        let chain = self.room.take_chain(self.alloc, count, group.count)?;
        self.commits.begin_group(MOST_IN_GROUP);
        drop_first(&mut self.contents, size);
        let last = self.commits.group_last();
        self.live
            .put(place, &chain.numbers, LivePart::Commits(last));
        self.turn = Some(ChainWriter::new(chain.numbers, chain.link, group.bytes));
        Ok(())
    }

    // The next device call of the group's chain.
    fn advance(&mut self) -> Result<Did, PumpFault>
        requires works { self.old.commits.failed ≡ false }
        requires some { IsSome self.old.turn }
        ensures is { AdvancesGroup D.tells self.old self.old.turn result self.new }
        ensures sound { IsTrue D.tells → AreSound self.new.disk.areas }
    {
        let Some(turn) = &mut self.turn else {
            unreachable!()
        };
        let group = self.commits.group() as u32;
        match turn.advance(&mut self.disk) {
            Err(DeviceFault) => {
                self.commits.fail();
                Err(PumpFault::Failed)
            }
            Ok(Wrote::Settled) => {
                self.turn = None;
                Ok(Did::Published(self.commits.publish()))
            }
            Ok(what) => Ok(did_of(what, group)),
        }
    }
}
