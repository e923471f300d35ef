//! The store, and its calls that ask nothing of the disk.
ghost use Rattle.std.specs.Prelude.{◌≡◌};
ghost use Rattle.commits.specs.Values.{last};
ghost use Rattle.log_store.specs.Calls.{Begins, Aborts, Redeems};

use crate::job::Job;
use crate::live::Live;
use crate::named::Named;
use crate::reclaim::Reclaim;
use commits::Commits;
use disk::Disk;
use floors::Floors;
use group::{BeginFault, Redeemed, Ticket};
use log_room::{Content, HeapRoom};
use log_roots::Roots;
use log_writer::ChainWriter;
use snapshot::Txn;
use std::alloc::Global;
use std::collections::VecDeque;
use std::marker::Model;
use timequery::StoreArchive;

/// A store over a disk of three areas, whose log lies in the heap. Each call but opening makes at most one write or sync of the disk.
/// After a refused one the store is failed: it writes nothing more, and reading goes on.
pub struct LogStore<D: Disk> {
    pub(crate) alloc: Global,
    pub(crate) roots: Roots,
    pub(crate) commits: Commits,
    // The bytes of the commits that wait in no begun group, in their order.
    pub(crate) contents: VecDeque<Content>,
    pub(crate) room: HeapRoom,
    pub(crate) live: Live,
    // The group's chain while it is in the writing.
    pub(crate) turn: Option<ChainWriter>,
    pub(crate) job: Option<Job>,
    // Where no other job runs.
    pub(crate) reclaim: Option<Reclaim>,
    // What a base would name.
    pub(crate) named: Named,
    pub(crate) archive: StoreArchive,
    pub(crate) disk: D,
}

impl<D: Disk> Model for LogStore<D> {
    ghost use Rattle.log_store.specs.Live.{live_value};
    ghost use Rattle.log_store.specs.Values.{LogStoreValue, IsInStep};

    ghost Value = { LogStoreValue };

    ghost view = { λ s. record {
      roots = s.roots;
      commits = s.commits;
      contents = s.contents.items;
      room = s.room;
      live = live_value s.live;
      turn = s.turn;
      job = s.job;
      reclaim = s.reclaim;
      named = s.named;
      archive = s.archive;
      disk = D.state s.disk;
    } };

    ghost invariant = { λ s. IsInStep (record {
      roots = s.roots;
      commits = s.commits;
      contents = s.contents.items;
      room = s.room;
      live = live_value s.live;
      turn = s.turn;
      job = s.job;
      reclaim = s.reclaim;
      named = s.named;
      archive = s.archive;
      disk = D.state s.disk;
    }) };
}

impl<D: Disk> LogStore<D> {
    /// Ends the store and hands its disk back. What waits is not published.
    pub fn close(self) -> D
        ensures { D.state result ≡ self.disk }
    {
        let LogStore {
            alloc: _,
            roots: _,
            commits: _,
            contents: _,
            room: _,
            live: _,
            turn: _,
            job: _,
            reclaim: _,
            named: _,
            archive: _,
            disk,
        } = self;
        disk
    }

    /// The time of the last published commit in microseconds since 1970, 0 for none.
    pub fn last(&self) -> u64
        ensures { result ≡ last self.now.commits }
    {
        self.commits.last()
    }

    /// For each relation the time before which nothing is promised.
    pub fn floors(&self) -> &Floors
        ensures { result.now ≡ self.now.commits.floors }
    {
        self.commits.floors()
    }

    /// Whether a write or sync of the device was refused.
    pub fn has_failed(&self) -> bool
        ensures { result ≡ self.now.commits.failed }
    {
        self.commits.has_failed()
    }

    /// A transaction on what is published now.
    pub fn begin(&mut self) -> Result<Txn, BeginFault>
        ensures { Begins self.old result self.new }
    {
        self.commits.begin(self.alloc)
    }

    /// Gives the transaction's snapshot up. A stranger is only spent.
    pub fn abort(&mut self, txn: Txn)
        ensures { Aborts self.old txn self.new }
    {
        self.commits.abort(txn);
    }

    /// Whether the ticket's commit is published. Only `Waiting` gives the ticket back.
    pub fn redeem(&mut self, ticket: Ticket) -> Redeemed
        ensures { Redeems self.old ticket result self.new }
    {
        self.commits.redeem(ticket)
    }
}
