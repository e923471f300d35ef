//! The commits and transactions of a store in memory.
ghost use Rattle.std.specs.Prelude.{◌≡◌, ◌<◌, ◌≤◌, ◌^◌, [], length, max, false, IfOk, if◌then◌else◌};
ghost use Rattle.chains.specs.KeyWrites.{latest};
ghost use Rattle.snapshot.specs.OpenTable.{open_count};
ghost use Rattle.group.specs.CommitOrder.{IsRisingAfter, last_time, times_of};
ghost use Rattle.commits.specs.Values.{over, is_own_of, with_floors, last, order_of};
ghost use Rattle.commits.specs.Calls.{Begins, Aborts, Redeems, oldest};
ghost use Rattle.commits.specs.Steps.{broken};

use crate::submit::gone_is_of_value;
use crate::waiting::Waiting;
use chains::Frozen;
use floors::Floors;
use group::{BeginFault, CommitHead, CommitOrder, Redeemed, Ticket, TicketState};
use snapshot::{OpenTable, Txn, TxnParts};
use std::alloc::{AllocError, Global};
use std::collections::VecDeque;
use std::marker::Model;
use timequery::View;

/// The open transactions, the commit order with the versions of each key, the commits that wait and
/// the group.
#[derive(Drop)]
pub struct Commits {
    pub(crate) mark: u64,
    pub(crate) opened: OpenTable,
    pub(crate) order: CommitOrder,
    pub(crate) versions: Frozen,
    pub(crate) queue: VecDeque<Waiting>,
    pub(crate) group: usize,
    pub(crate) floors: Floors,
    // The versions have forgotten what ended by this mark.
    pub(crate) reclaimed: u64,
    pub(crate) failed: bool,
}

impl Model for Commits {
    ghost use Rattle.commits.specs.Values.{CommitsValue};
    ghost use Rattle.commits.specs.Order.{IsInOrder};

    ghost Value = { CommitsValue };

    ghost view = { λ c. record {
      mark = c.mark;
      opened = c.opened;
      heads = c.order.heads;
      published = c.order.published;
      versions = c.versions;
      queue = c.queue.items;
      group = c.group;
      floors = c.floors;
      reclaimed = c.reclaimed;
      failed = c.failed;
    } };

    ghost invariant = { λ c. IsInOrder (record {
      mark = c.mark;
      opened = c.opened;
      heads = c.order.heads;
      published = c.order.published;
      versions = c.versions;
      queue = c.queue.items;
      group = c.group;
      floors = c.floors;
      reclaimed = c.reclaimed;
      failed = c.failed;
    }) };
}

impl Commits {
    /// Those of a store that was just opened: the store mark that its transactions carry, the
    /// published commits, the versions of each key, the floors, and the reclaim mark in
    /// microseconds since 1970, up to which the versions have forgotten what ended.
    pub fn of_recovered(
        alloc: Global,
        mark: u64,
        heads: Vec<CommitHead>,
        versions: Frozen,
        floors: Floors,
        reclaimed: u64,
    ) -> Self
        requires rising { IsRisingAfter 0 heads.items }
        requires latest { latest versions ≤ max reclaimed (last_time heads.items) }
        requires in_range { reclaimed < 2 ^ 63 }
        ensures { result ≡ record {
          mark = mark;
          opened = [];
          heads = heads.items;
          published = length heads.items;
          versions = versions;
          queue = [];
          group = 0;
          floors = floors;
          reclaimed = reclaimed;
          failed = false;
        } }
    {
        Commits {
            mark,
            opened: OpenTable::new(alloc),
            order: CommitOrder::of_published(heads),
            versions,
            queue: VecDeque::new(alloc),
            group: 0,
            floors,
            reclaimed,
            failed: false,
        }
    }

    /// A transaction on what is published now.
    ///
    /// Its number is the least that no open one has, so the table of the open ones is never longer
    /// than the most that were open at once. Answers `Failed` once a write or sync of the device was
    /// refused, before any growth.
    pub fn begin(&mut self, alloc: Global) -> Result<Txn, BeginFault>
        ensures is { Begins self.old result self.new }
        ensures short { length self.new.opened ≤ max (length self.old.opened) (open_count self.new.opened) }
    {
        if self.failed {
            return Err(BeginFault::Failed);
        }
        let snapshot = self.last();
        let Ok(state) = self.versions.share() else {
            return Err(BeginFault::NoMemory);
        };
        match self.opened.open(snapshot) {
            Err(AllocError) => Err(BeginFault::NoMemory),
            Ok(number) => Ok(Txn::new(alloc, self.mark, number, snapshot, state)),
        }
    }

    /// Gives the transaction's snapshot up. A stranger is only spent.
    pub fn abort(&mut self, txn: Txn)
        ensures { Aborts self.old txn self.new }
    {
        let parts = txn.spend();
        let _own = self.finish(&parts);
    }

    /// Whether the ticket's commit is published. Only `Waiting` gives the ticket back.
    pub fn redeem(&mut self, ticket: Ticket) -> Redeemed
        ensures { Redeems self.old ticket result self.new }
    {
        if ticket.mark() != self.mark {
            ticket.give_up();
            return Redeemed::Stranger;
        }
        let time = ticket.time();
        match self.order.redeem(time) {
            TicketState::Published => {
                ticket.give_up();
                Redeemed::Done(time)
            }
            TicketState::Unknown => {
                ticket.give_up();
                Redeemed::Stranger
            }
            TicketState::Waiting => {
                if self.failed {
                    ticket.give_up();
                    Redeemed::InDoubt
                } else {
                    Redeemed::Waiting(ticket)
                }
            }
        }
    }

    /// A view of what is published now, over what is in memory alone.
    pub fn view(&self) -> Result<View, AllocError>
        ensures { IfOk result (λ v. v ≡ record {
          mark = self.now.mark;
          last = last self.now;
          floors = self.now.floors;
          reclaimed = 0;
          runs = [];
          state = self.now.versions;
        }) }
    {
        let state = self.versions.share()?;
        let floors = self.floors.share()?;
        Ok(View::new(self.mark, self.last(), floors, state))
    }

    /// Whether a transaction is the store's own. If so, it is over.
    pub fn finish(&mut self, txn: &TxnParts) -> bool
        ensures own { result ≡ is_own_of self.old txn.now.mark txn.now.number txn.now.snapshot txn.now.writes.items }
        ensures new { self.new ≡ (if result then over self.old txn.now.number else self.old) }
    {
        if !self.is_own(txn) {
            return false;
        }
        self.opened.close(txn.number);
        true
    }

    fn is_own(&self, txn: &TxnParts) -> bool
        ensures { result ≡ is_own_of self.now txn.now.mark txn.now.number txn.now.snapshot txn.now.writes.items }
    {
        if txn.mark != self.mark {
            return false;
        }
        if self.opened.snapshot_of(txn.number) != Some(txn.snapshot) {
            return false;
        }
        gone_is_of_value(&self.versions, txn.snapshot, &txn.writes)
    }

    /// The store mark, which its transactions, tickets and views carry.
    pub fn mark(&self) -> u64
        ensures { result ≡ self.now.mark }
    {
        self.mark
    }

    /// One more holder of the versions of what is published.
    pub fn versions(&self) -> Result<Frozen, AllocError>
        ensures { IfOk result (λ versions. versions ≡ self.now.versions) }
    {
        self.versions.share()
    }

    /// The time of the last published commit in microseconds since 1970, or the reclaim mark where that
    /// is later; 0 for none.
    pub fn last(&self) -> u64
        ensures is { result ≡ last self.now }
        ensures in_range { result < 2 ^ 63 }
    {
        self.reclaimed.max(self.order.last())
    }

    /// For each relation the time before which nothing is promised.
    pub fn floors(&self) -> &Floors
        ensures { result.now ≡ self.now.floors }
    {
        &self.floors
    }

    /// Puts these floors in the place of those before. It takes no memory.
    pub fn put_floors(&mut self, floors: Floors)
        ensures { self.new ≡ with_floors self.old floors }
    {
        self.floors = floors;
    }

    /// The reclaim mark, up to which the published versions have forgotten what ended, in
    /// microseconds since 1970.
    pub fn reclaimed(&self) -> u64
        ensures is { result ≡ self.now.reclaimed }
        ensures in_range { result < 2 ^ 63 }
    {
        self.reclaimed
    }

    /// The commits in memory, those that are published, and then those that wait.
    pub fn heads(&self) -> &[CommitHead]
        ensures is { result.now ≡ self.now.heads }
        ensures rising { IsRisingAfter 0 self.now.heads }
    {
        self.order.heads()
    }

    /// Whether the device refused a write or a sync: nothing is written any more.
    pub fn has_failed(&self) -> bool
        ensures { result ≡ self.now.failed }
    {
        self.failed
    }

    /// Nothing is written any more.
    pub fn fail(&mut self)
        ensures { self.new ≡ broken self.old }
    {
        self.failed = true;
    }

    /// The times of the published commits with a label, rising, in microseconds since 1970.
    pub fn times_of(&self, alloc: Global, label: u64) -> Result<Vec<u64>, AllocError>
        ensures { IfOk result (λ times. times.items ≡ times_of label (order_of self.now)) }
    {
        self.order.times_of(alloc, label)
    }

    /// The least snapshot of the open transactions, in microseconds since 1970.
    pub fn oldest(&self) -> Option<u64>
        ensures { result ≡ oldest self.now }
    {
        self.opened.least()
    }
}
