//! What a store has in memory of its transactions.
ghost use Rattle.std.specs.Prelude.{◌≡◌, ◌<◌, ◌≤◌, ◌^◌, [], length, max, false, None, IfOk, if◌then◌else◌};
ghost use Rattle.chains.specs.KeyWrites.{latest};
ghost use Rattle.snapshot.specs.OpenTable.{open_count};
ghost use Rattle.group.specs.CommitOrder.{IsRisingAfter, last_time, times_of};
ghost use Rattle.group.specs.declared.stage.GroupStage.TheVariants.{NoGroup};
ghost use Rattle.group.specs.Values.{ordered, ordered_mark, over, is_own_of, with_floors, KeepsSlots};
ghost use Rattle.group.specs.Calls.{Begins, Aborts, Redeems, last, order_of};

use crate::stage::GroupStage;
use crate::submit::gone_is_of_value;
use crate::{
    BeginFault, CommitHead, CommitOrder, Queued, QueuedParts, Redeemed, Ticket, TicketState,
    give_back_all, keep_all,
};
use chains::Frozen;
use extents::{ChainTimes, Extent, Extents};
use floors::Floors;
use snapshot::{OpenTable, Txn, TxnParts};
use std::alloc::{AllocError, Global};
use std::collections::VecDeque;
use std::marker::Model;
use timequery::View;

/// The open transactions, the commit order with the versions of each key, the commits that wait and
/// the group, the use of the extents, and the room in the log.
pub struct Transactions {
    pub(crate) mark: u64,
    pub(crate) opened: OpenTable,
    pub(crate) order: CommitOrder,
    pub(crate) versions: Frozen,
    // What the versions are to be once a reclaim is done.
    pub(crate) pending: Option<Frozen>,
    pub(crate) queue: VecDeque<Queued>,
    pub(crate) extents: Extents,
    // The time of the commit whose chain has each extent.
    pub(crate) times: ChainTimes,
    // The extents that are out for a job.
    pub(crate) reserved: Vec<Extent>,
    pub(crate) slots: u32,
    pub(crate) used: u32,
    pub(crate) group: usize,
    pub(crate) stage: GroupStage,
    pub(crate) floors: Floors,
    // The versions have forgotten what ended by this mark.
    pub(crate) reclaimed: u64,
    pub(crate) failed: bool,
}

impl Model for Transactions {
    ghost use Rattle.group.specs.Values.{TransactionsValue};
    ghost use Rattle.group.specs.Order.{IsInOrder};

    ghost Value = { TransactionsValue };

    ghost view = { λ t. record {
      mark = t.mark;
      opened = t.opened;
      heads = t.order.heads;
      published = t.order.published;
      versions = t.versions;
      pending =
          t.pending;
      queue = t.queue.items;
      usages = t.extents;
      times = t.times;
      reserved = t.reserved.items;
      slots = t.slots;
      used = t.used;
      group = t.group;
      stage = t.stage;
      floors = t.floors;
      reclaimed = t.reclaimed;
      failed = t.failed;
    } };

    ghost invariant = { λ t. IsInOrder (record {
      mark = t.mark;
      opened = t.opened;
      heads = t.order.heads;
      published = t.order.published;
      versions = t.versions;
      pending =
          t.pending;
      queue = t.queue.items;
      usages = t.extents;
      times = t.times;
      reserved = t.reserved.items;
      slots = t.slots;
      used = t.used;
      group = t.group;
      stage = t.stage;
      floors = t.floors;
      reclaimed = t.reclaimed;
      failed = t.failed;
    }) };
}

impl Transactions {
    /// Those of a store that was just opened: the published commits, the versions of each key, the
    /// extents in use and the commits whose chains they are in, the slots of the store and of its log,
    /// the floors and the reclaim mark.
    #[allow(clippy::too_many_arguments)]
    pub fn of_recovered(
        alloc: Global,
        mark: u64,
        heads: Vec<CommitHead>,
        versions: Frozen,
        extents: Extents,
        times: ChainTimes,
        slots: u32,
        used: u32,
        floors: Floors,
        reclaimed: u64,
    ) -> Self
        requires rising { IsRisingAfter 0 heads.items }
        requires latest { latest versions ≤ last_time heads.items }
        requires room { used ≤ slots }
        requires slots { slots ≤ 65536 }
        ensures { result ≡ record {
          mark = mark;
          opened = [];
          heads = heads.items;
          published = length heads.items;
          versions = versions;
          pending = None;
          queue =
              [];
          usages = extents;
          times = times;
          reserved = [];
          slots = slots;
          used = used;
          group = 0;
          stage = NoGroup;
          floors = floors;
          reclaimed = reclaimed;
          failed = false;
        } }
    {
        Transactions {
            mark,
            opened: OpenTable::new(alloc),
            order: CommitOrder::of_published(heads),
            versions,
            pending: None,
            queue: VecDeque::new(alloc),
            extents,
            times,
            reserved: Vec::new(alloc),
            slots,
            used,
            group: 0,
            stage: GroupStage::NoGroup,
            floors,
            reclaimed,
            failed: false,
        }
    }

    /// Gives up what waits: its commits are not published here any more.
    pub fn spend(self) {
        let Transactions {
            mark: _,
            opened: _,
            order: _,
            versions: _,
            pending: _,
            queue,
            mut extents,
            times: _,
            reserved,
            slots: _,
            used: _,
            group: _,
            stage: _,
            floors: _,
            reclaimed: _,
            failed: _,
        } = self;
        give_back_all(&mut extents, reserved);
        let mut queue = queue;
        while let Some(queued) = queue.pop_front() {
            let QueuedParts {
                entry: _,
                after: _,
                stored,
            } = queued.spend();
            keep_all(&mut extents, stored);
        }
        queue.destroy_empty();
    }

    /// A transaction on what is published now.
    ///
    /// Its number is the least that no open one has, so the table of the open ones is never longer
    /// than the most that were open at once. Answers `Failed` once a write or sync of the device was
    /// refused, before any growth.
    pub fn begin(&mut self, alloc: Global) -> Result<Txn, BeginFault>
        ensures is { Begins self.old result self.new }
        ensures short { length self.new.opened ≤ max (length self.old.opened) (open_count self.new.opened) }
        ensures slots { KeepsSlots self.old self.new }
    {
        if self.failed {
            return Err(BeginFault::Failed);
        }
        let snapshot = self.order.last();
        let Ok(state) = self.versions.share() else {
            return Err(BeginFault::NoMemory);
        };
        match self.opened.open(snapshot) {
            Err(AllocError) => Err(BeginFault::NoMemory),
            Ok(number) => Ok(Txn::new(alloc, self.mark, number, snapshot, state)),
        }
    }

    /// Gives the transaction's snapshot up. A stranger is only spent.
    pub fn abort(&mut self, txn: Txn)
        ensures is { Aborts self.old txn self.new }
        ensures slots { KeepsSlots self.old self.new }
    {
        let parts = txn.spend();
        let _own = self.finish(&parts);
    }

    /// Whether the ticket's commit is published. Only `Waiting` gives the ticket back.
    pub fn redeem(&mut self, ticket: Ticket) -> Redeemed
        ensures is { Redeems self.old ticket result self.new }
        ensures slots { KeepsSlots self.old self.new }
    {
        if ticket.mark() != self.mark {
            ticket.give_up();
            return Redeemed::Stranger;
        }
        let time = ticket.time();
        match self.order.redeem(time) {
            TicketState::Published => {
                ticket.give_up();
                Redeemed::Done(time)
            }
            TicketState::Unknown => {
                ticket.give_up();
                Redeemed::Stranger
            }
            TicketState::Waiting => {
                if self.failed {
                    ticket.give_up();
                    Redeemed::InDoubt
                } else {
                    Redeemed::Waiting(ticket)
                }
            }
        }
    }

    /// A view of what is published now.
    pub fn view(&self) -> Result<View, AllocError>
        ensures { IfOk result (λ v. v ≡ record {
          mark = self.now.mark;
          last = last self.now;
          floors = self.now.floors;
          reclaimed = 0;
          runs = [];
          state =
              self.now.versions;
        }) }
    {
        let state = self.versions.share()?;
        let floors = self.floors.share()?;
        Ok(View::new(self.mark, self.order.last(), floors, state))
    }

    // Whether a transaction is the store's own; if so, it is over.
    pub(crate) fn finish(&mut self, txn: &TxnParts) -> bool
        ensures own { result ≡ is_own_of self.old txn.now.mark txn.now.number txn.now.snapshot txn.now.writes.items }
        ensures new { self.new ≡ (if result then over self.old txn.now.number else self.old) }
        ensures slots { KeepsSlots self.old self.new }
    {
        if !self.is_own(txn) {
            return false;
        }
        self.opened.close(txn.number);
        true
    }

    fn is_own(&self, txn: &TxnParts) -> bool
        ensures { result ≡ is_own_of self.now txn.now.mark txn.now.number txn.now.snapshot txn.now.writes.items }
    {
        if txn.mark != self.mark {
            return false;
        }
        if self.opened.snapshot_of(txn.number) != Some(txn.snapshot) {
            return false;
        }
        gone_is_of_value(&self.versions, txn.snapshot, &txn.writes)
    }

    /// The versions after the whole commit order.
    pub(crate) fn ordered(&self) -> &Frozen
        ensures is { result.now ≡ ordered self.now }
        ensures upto { latest result.now ≤ last_time self.now.heads }
    {
        match self.queue.back() {
            None => &self.versions,
            Some(queued) => queued.after(),
        }
    }

    /// The reclaim mark, up to which the versions after the whole commit order have forgotten what
    /// ended.
    pub(crate) fn ordered_mark(&self) -> u64
        ensures { result ≡ ordered_mark self.now }
    {
        match self.queue.back() {
            None => self.reclaimed,
            Some(queued) => queued.reclaimed(),
        }
    }

    /// The store mark, which its transactions, tickets and views carry.
    pub fn mark(&self) -> u64
        ensures { result ≡ self.now.mark }
    {
        self.mark
    }

    /// One more holder of the versions of what is published.
    pub fn versions(&self) -> Result<Frozen, AllocError>
        ensures { IfOk result (λ versions. versions ≡ self.now.versions) }
    {
        self.versions.share()
    }

    /// The time of the last published commit in microseconds since 1970, 0 for none.
    pub fn last(&self) -> u64
        ensures is { result ≡ last self.now }
        ensures in_range { result < 2 ^ 63 }
    {
        self.order.last()
    }

    /// For each relation the time before which nothing is promised.
    pub fn floors(&self) -> &Floors
        ensures { result.now ≡ self.now.floors }
    {
        &self.floors
    }

    /// Puts these floors in the place of those before. It takes no memory.
    pub fn put_floors(&mut self, floors: Floors)
        ensures is { self.new ≡ with_floors self.old floors }
        ensures slots { KeepsSlots self.old self.new }
    {
        self.floors = floors;
    }

    /// The reclaim mark, up to which the published versions have forgotten what ended, in
    /// microseconds since 1970.
    pub fn reclaimed(&self) -> u64
        ensures { result ≡ self.now.reclaimed }
    {
        self.reclaimed
    }

    /// Whether the device refused a write or a sync: nothing is written any more.
    pub fn has_failed(&self) -> bool
        ensures is { result ≡ self.now.failed }
        ensures room { self.now.used ≤ self.now.slots }
    {
        self.failed
    }

    /// The times of the published commits with a label, rising, in microseconds since 1970.
    pub fn times_of(&self, alloc: Global, label: u64) -> Result<Vec<u64>, AllocError>
        ensures { IfOk result (λ times. times.items ≡ times_of label (order_of self.now)) }
    {
        self.order.times_of(alloc, label)
    }
}
