//! The store, and its calls but queries and jobs.
ghost use Rattle.std.specs.Prelude.{◌≡◌, IsTrue};
ghost use Rattle.disk.specs.Areas.{AreSound};
ghost use Rattle.any_store.specs.Values.{disk_of, profile_of};
ghost use Rattle.any_store.specs.Places.{log_area, job_area};
ghost use Rattle.any_store.specs.Calls.{last, floors, has_own_floors, Begins, Aborts, Submits, Redeems, Pumps};

use crate::engine::Engine;
use crate::steps::{Did, pump_log, pump_slots};
use disk::{Area, Disk};
use floors::Floors;
use group::{BeginFault, PumpFault, Redeemed, SubmitFault, Submitted, Ticket};
use log_store::LogStore;
use snapshot::Txn;
use std::marker::Model;
use store::Store as SlotStore;

/// A store over a disk of three areas. Each call but opening makes at most one write or sync of the
/// disk. After a refused one the store is failed: it writes nothing more, and reading goes on.
pub struct Store<D: Disk> {
    pub(crate) engine: Engine<SlotStore<D>, LogStore<D>>,
}

impl<D: Disk> Model for Store<D> {
    ghost use Rattle.any_store.specs.Values.{StoreValue};

    ghost Value = { StoreValue };

    ghost view = { λ s. s.engine };
}

impl<D: Disk> Store<D> {
    /// Ends the store and hands its disk back. What waits is not published.
    pub fn close(self) -> D
        ensures { D.state result ≡ disk_of self }
    {
        let Store { engine } = self;
        match engine {
            Engine::Slots(store) => store.close(),
            Engine::Log(store) => store.close(),
        }
    }

    /// The time of the last published commit in microseconds since 1970, 0 for none.
    pub fn last(&self) -> u64
        ensures { result ≡ last self.now }
    {
        match &self.engine {
            Engine::Slots(store) => store.last(),
            Engine::Log(store) => store.last(),
        }
    }

    /// For each relation the time before which nothing is promised.
    pub fn floors(&self) -> &Floors
        ensures { result.now ≡ floors self.now }
    {
        match &self.engine {
            Engine::Slots(store) => store.floors(),
            Engine::Log(store) => store.floors(),
        }
    }

    /// The number of its layout's profile.
    pub fn profile(&self) -> u32
        ensures { result ≡ profile_of self.now }
    {
        match &self.engine {
            Engine::Slots(store) => store.profile().number(),
            Engine::Log(_) => log_store::PROFILE,
        }
    }

    /// Whether each relation has a floor of its own. Else there is one floor for all relations.
    pub fn has_own_floors(&self) -> bool
        ensures { result ≡ has_own_floors self.now }
    {
        match &self.engine {
            Engine::Slots(store) => store.profile().has_own_floors(),
            Engine::Log(_) => true,
        }
    }

    /// The area of its log: a group is committed by a gate there.
    pub fn log_area(&self) -> Area
        ensures { result ≡ log_area self.now }
    {
        match &self.engine {
            Engine::Slots(_) => Area::Status,
            Engine::Log(_) => Area::Heap,
        }
    }

    /// The area of the gate by which the job that runs comes to count.
    pub fn job_area(&self) -> Area
        ensures { result ≡ job_area self.now }
    {
        match &self.engine {
            Engine::Slots(_) => Area::Status,
            Engine::Log(store) => {
                if store.is_reclaiming() {
                    Area::Status
                } else {
                    Area::Heap
                }
            }
        }
    }

    /// A transaction on what is published now.
    pub fn begin(&mut self) -> Result<Txn, BeginFault>
        ensures { Begins self.old result self.new }
    {
        match &mut self.engine {
            Engine::Slots(store) => store.begin(),
            Engine::Log(store) => store.begin(),
        }
    }

    /// Gives the transaction's snapshot up. A stranger is only spent.
    pub fn abort(&mut self, txn: Txn)
        ensures { Aborts self.old txn self.new }
    {
        match &mut self.engine {
            Engine::Slots(store) => store.abort(txn),
            Engine::Log(store) => store.abort(txn),
        }
    }

    /// Queues the transaction's writes as a commit with this label, at the time `now` (microseconds
    /// since 1970) or just after the last commit, whichever is later. The transaction is over in any
    /// case. A transaction without writes is read-only, and over at once.
    pub fn submit(&mut self, txn: Txn, label: u64, now: u64) -> Result<Submitted, SubmitFault>
        ensures { Submits self.old txn label now result self.new }
    {
        match &mut self.engine {
            Engine::Slots(store) => store.submit(txn, label, now),
            Engine::Log(store) => store.submit(txn, label, now),
        }
    }

    /// One step of the group of commits that is being written; where there is none, one begins of
    /// the first that wait. Each step makes at most one write or sync of the disk.
    pub fn pump(&mut self) -> Result<Did, PumpFault>
        ensures is { Pumps D.tells self.old result self.new }
        ensures sound { IsTrue D.tells → AreSound (disk_of self.new).areas }
    {
        match &mut self.engine {
            Engine::Slots(store) => pump_slots(store),
            Engine::Log(store) => pump_log(store),
        }
    }

    /// Whether the ticket's commit is published. Only `Waiting` gives the ticket back.
    pub fn redeem(&mut self, ticket: Ticket) -> Redeemed
        ensures { Redeems self.old ticket result self.new }
    {
        match &mut self.engine {
            Engine::Slots(store) => store.redeem(ticket),
            Engine::Log(store) => store.redeem(ticket),
        }
    }
}
