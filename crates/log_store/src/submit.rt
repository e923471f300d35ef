//! What becomes of a submit.
ghost use Rattle.std.specs.Prelude.{◌≡◌, ◌<◌, ◌≤◌, ◌^◌, length, map, MatchResult, IsTrue, IfOk, OnOk, OnErr};
ghost use Rattle.std.specs.List.Sorted.{IsStrictlySortedBy};
ghost use Rattle.history.specs.Key.{key_cmp};
ghost use Rattle.group.specs.Submits.{IsRefusalOf, Queues};
ghost use Rattle.log_room.specs.Contents.{extents_over};
ghost use Rattle.commits.specs.Values.{ordered, last_assigned};
ghost use Rattle.log_store.specs.Submits.{Submits, verdict_on_writes, has_room, anchors_behind, with_queued};

use crate::store::LogStore;
use chains::SharedValue;
use clock::ClockEnd;
use disk::Disk;
use group::{SubmitFault, Submitted, Ticket};
use history::KeyWrite;
use log_room::{count_for, spell};
use snapshot::Txn;
use std::alloc::AllocError;

// A commit that may be queued: its time, how many extents it takes alone, and the bytes of the anchors behind it.
#[derive(Clone, Copy)]
struct Accepted {
    time: u64,
    count: usize,
    anchors: u64,
}

impl<D: Disk> LogStore<D> {
    /// Queues the transaction's writes as a commit with this label, at the time `now` (microseconds since 1970) or just after the last
    /// commit, whichever is later. The transaction is over in any case. A transaction without writes is read-only, and over at once.
    pub fn submit(&mut self, txn: Txn, label: u64, now: u64) -> Result<Submitted, SubmitFault>
        ensures { Submits self.old txn label now result self.new }
    {
        let parts = txn.spend();
        if !self.commits.finish(&parts) {
            return Err(SubmitFault::Stranger);
        }
        if self.commits.has_failed() {
            return Err(SubmitFault::Failed);
        }
        if parts.writes.is_empty() {
            return Ok(Submitted::ReadOnly(parts.snapshot));
        }
        let accepted = match self.decide(parts.snapshot, &parts.writes, now) {
            Ok(accepted) => accepted,
            Err(fault) => return Err(fault),
        };
        match self.enqueue(label, &parts.writes, accepted) {
            Ok(()) => Ok(Submitted::Queued(Ticket::new(self.commits.mark(), accepted.time))),
            Err(AllocError) => Err(SubmitFault::NoMemory),
        }
    }

    // Whether the writes, which are some, may be queued.
    fn decide(
        &self,
        snapshot: u64,
        writes: &[KeyWrite<SharedValue>],
        now: u64,
    ) -> Result<Accepted, SubmitFault>
        requires few { length writes.now ≤ 1024 }
        ensures is { MatchResult result (λ a. verdict_on_writes self.now snapshot writes.now now ≡ Queues a.time)
            (IsRefusalOf (verdict_on_writes self.now snapshot writes.now now)) }
        ensures later { IfOk result (λ a. last_assigned self.now.commits < a.time) }
        ensures in_range { IfOk result (λ a. a.time < 2 ^ 63) }
        ensures count { IfOk result (λ a. a.count ≡ extents_over (ordered self.now.commits) writes.now) }
        ensures anchors { IfOk result (λ a. a.anchors ≡ anchors_behind self.now writes.now) }
        ensures room { OnOk result (IsTrue (has_room self.now writes.now)) }
    {
        if let Some(key) = self.commits.conflict(snapshot, writes) {
            return Err(SubmitFault::Conflict(key));
        }
        let count = count_for(self.commits.ordered(), writes);
        let anchors = self.room.anchors_behind(self.commits.ordered(), writes);
        if !self.room.fits(count, anchors) {
            return Err(SubmitFault::HeapFull);
        }
        match self.commits.next_time(now) {
            Ok(time) => Ok(Accepted {
                time,
                count,
                anchors,
            }),
            Err(ClockEnd) => Err(SubmitFault::ClockEnd),
        }
    }

    // The commit waits, and is promised its extents. The time is later than every commit.
    fn enqueue(
        &mut self,
        label: u64,
        writes: &[KeyWrite<SharedValue>],
        accepted: Accepted,
    ) -> Result<(), AllocError>
        requires rising { IsStrictlySortedBy key_cmp (map (λ w. w.key) writes.now) }
        requires some { 0 < length writes.now }
        requires few { length writes.now ≤ 1024 }
        requires later { last_assigned self.old.commits < accepted.time }
        requires in_range { accepted.time < 2 ^ 63 }
        requires count { accepted.count ≡ extents_over (ordered self.old.commits) writes.now }
        requires anchors { accepted.anchors ≡ anchors_behind self.old writes.now }
        requires room { IsTrue (has_room self.old writes.now) }
        ensures ok { OnOk result (self.new ≡ with_queued self.old label accepted.time writes.now) }
        ensures err { OnErr result (self.new ≡ self.old) }
    {
        let content = spell(
            self.alloc,
            label,
            accepted.time,
            self.commits.ordered(),
            writes,
        )?;
        self.contents.reserve(1)?;
        self.commits
            .enqueue(self.alloc, label, accepted.time, writes)?;
        self.contents.push_back_reserved(content);
        self.room.promise(accepted.count, accepted.anchors);
        Ok(())
    }
}
