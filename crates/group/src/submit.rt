//! What becomes of a submit.
ghost use Rattle.std.specs.Prelude.{◌≡◌, ◌<◌, ◌≤◌, ◌+◌, ◌^◌, length, map, MatchResult, IfOk, OnOk, OnErr};
ghost use Rattle.std.specs.List.{list_all};
ghost use Rattle.std.specs.List.Sorted.{IsStrictlySortedBy};
ghost use Rattle.history.specs.Key.{key_cmp};
ghost use Rattle.group.specs.CommitOrder.{last_time};
ghost use Rattle.extents.specs.Usages.{used_count};
ghost use Rattle.deltas.specs.Chains.{first_number};
ghost use Rattle.group.specs.Values.{is_of_value, spare, KeepsSlots};
ghost use Rattle.group.specs.Submits.{Submits, verdict_on_writes, Queues, bodies_for, bodies_over, JoinsQueue, IsRefusalOf, IsStored};

use crate::transactions::Transactions;
use crate::{
    CommitHead, Queued, StoredExtent, SubmitFault, Submitted, Ticket, WriteRecords, first_conflict,
    give_back_all, seal_all, take_extents,
};
use chains::{Frozen, SharedValue};
use clock::{ClockEnd, CommitClock};
use deltas::{ExtentBody, pack_all};
use extents::Extents;
use history::KeyWrite;
use snapshot::Txn;
use std::alloc::{AllocError, Global};
use wire::Member;

// A commit that may be queued: its time, and the bytes of its records for each extent.
#[derive(Drop)]
struct Accepted {
    time: u64,
    bodies: Vec<ExtentBody>,
}

impl Transactions {
    /// Queues the transaction's writes as a commit, at the time `now` (in microseconds since 1970)
    /// or just after the last commit, whichever is later. The transaction is over in any case.
    pub fn submit(
        &mut self,
        alloc: Global,
        txn: Txn,
        label: u64,
        now: u64,
    ) -> Result<Submitted, SubmitFault>
        ensures is { Submits self.old txn label now result self.new }
        ensures slots { KeepsSlots self.old self.new }
    {
        let parts = txn.spend();
        if !self.finish(&parts) {
            return Err(SubmitFault::Stranger);
        }
        if self.failed {
            return Err(SubmitFault::Failed);
        }
        if parts.writes.is_empty() {
            return Ok(Submitted::ReadOnly(parts.snapshot));
        }
        let accepted = match self.decide(alloc, parts.snapshot, &parts.writes, now) {
            Ok(accepted) => accepted,
            Err(fault) => return Err(fault),
        };
        let time = accepted.time;
        match self.enqueue(alloc, label, &parts.writes, accepted) {
            Ok(()) => Ok(Submitted::Queued(Ticket::new(self.mark, time))),
            Err(AllocError) => Err(SubmitFault::NoMemory),
        }
    }

    // Whether the writes, which are some, may be queued.
    fn decide(
        &self,
        alloc: Global,
        snapshot: u64,
        writes: &[KeyWrite<SharedValue>],
        now: u64,
    ) -> Result<Accepted, SubmitFault>
        ensures is { MatchResult result (λ a. (verdict_on_writes self.now snapshot writes.now now ≡ Queues a.time)
            × (a.bodies.items ≡ bodies_for self.now writes.now)) (IsRefusalOf (verdict_on_writes self.now snapshot writes.now now)) }
        ensures later { IfOk result (λ a. last_time self.now.heads < a.time) }
        ensures in_range { IfOk result (λ a. a.time < 2 ^ 63) }
        ensures extents { IfOk result (λ a. used_count self.now.usages + length a.bodies.items ≤ 65536) }
        ensures slots { OnOk result (2 < spare self.now) }
    {
        let versions = self.ordered();
        if let Some(key) = first_conflict(versions, snapshot, writes) {
            return Err(SubmitFault::Conflict(key));
        }
        let Ok(bodies) = packed(alloc, versions, writes) else {
            return Err(SubmitFault::NoMemory);
        };
        if (self.extents.free_count() as usize) < bodies.len() {
            return Err(SubmitFault::HeapFull);
        }
        if self.spare() <= 2 {
            return Err(SubmitFault::StatusFull);
        }
        match CommitClock::new(self.order.last_assigned()).next(now) {
            Ok(time) => Ok(Accepted { time, bodies }),
            Err(ClockEnd) => Err(SubmitFault::ClockEnd),
        }
    }
}

impl Transactions {
    // The commit waits, with its extents taken. The time is later than every commit.
    fn enqueue(
        &mut self,
        alloc: Global,
        label: u64,
        writes: &[KeyWrite<SharedValue>],
        accepted: Accepted,
    ) -> Result<(), AllocError>
        requires rising { IsStrictlySortedBy key_cmp (map (λ w. w.key) writes.now) }
        requires some { 0 < length writes.now }
        requires few { length writes.now ≤ 1024 }
        requires bodies { accepted.bodies.items ≡ bodies_for self.old writes.now }
        requires later { last_time self.old.heads < accepted.time }
        requires in_range { accepted.time < 2 ^ 63 }
        requires extents { used_count self.old.usages + length accepted.bodies.items ≤ 65536 }
        requires slots { 2 < spare self.old }
        ensures ok { OnOk result (JoinsQueue self.old label accepted.time writes.now self.new) }
        ensures err { OnErr result (self.new ≡ self.old) }
        ensures slots { KeepsSlots self.old self.new }
    {
        let Accepted { time, bodies } = accepted;
        let reclaimed = self.ordered_mark();
        let after = self.ordered().with_commit(alloc, time, writes)?;
        if self.queue.reserve(1).is_err() || self.order.reserve(1).is_err() {
            return Err(AllocError);
        }
        let extents = bodies.len() as u32;
        let Ok(stored) = store(alloc, &mut self.extents, bodies) else {
            return Err(AllocError);
        };
        let entry = Member {
            label,
            time,
            first: first_number(&stored),
            extents,
            records: writes.len() as u32,
        };
        let queued = Queued::new(entry, after, reclaimed, stored);
        self.queue.push_back_reserved(queued);
        self.order.push_reserved(CommitHead {
            time,
            label,
            awaited: true,
        });
        Ok(())
    }
}

// Whether gone stands only where the key has a value at the snapshot.
pub(crate) fn gone_is_of_value(
    versions: &Frozen,
    snapshot: u64,
    writes: &[KeyWrite<SharedValue>],
) -> bool
    ensures { result ≡ list_all (is_of_value versions.now snapshot) writes.now }
{
    for w in writes {
        if w.write.is_none() && versions.at(w.key, snapshot).is_none() {
            return false;
        }
    }
    true
}

// The bytes of the records of these writes over the versions, in each extent that they need.
fn packed(
    alloc: Global,
    versions: &Frozen,
    writes: &[KeyWrite<SharedValue>],
) -> Result<Vec<ExtentBody>, AllocError>
    ensures { IfOk result (λ packed. packed.items ≡ bodies_over versions.now writes.now) }
{
    pack_all(alloc, &mut WriteRecords::new(versions, writes))
}

// Takes an extent for each of these bodies. Where memory is refused none is taken.
fn store(
    alloc: Global,
    extents: &mut Extents,
    bodies: Vec<ExtentBody>,
) -> Result<Vec<StoredExtent>, AllocError>
    requires { used_count extents.old + length bodies.items ≤ 65536 }
    ensures ok { IfOk result (λ stored. IsStored extents.old bodies.items stored.items extents.new) }
    ensures err { OnErr result (extents.new ≡ extents.old) }
{
    let taken = match take_extents(alloc, extents, bodies.len()) {
        Ok(taken) => taken,
        Err(AllocError) => return Err(AllocError),
    };
    match seal_all(alloc, taken, bodies) {
        Ok(stored) => Ok(stored),
        Err(taken) => {
            give_back_all(extents, taken);
            Err(AllocError)
        }
    }
}

// The number of the first of these extents, 0 for none.
fn first_number(stored: &[StoredExtent]) -> u32
    ensures { result ≡ first_number (map (λ s. s.extent) stored.now) }
{
    match stored {
        [] => 0,
        [first, ..] => first.extent.number(),
    }
}
