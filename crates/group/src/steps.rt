//! The steps of a group, between the device calls.
ghost use Rattle.std.specs.Prelude.{◌≡◌, ◌≤◌, ◌<◌, IsSome, length, map, take, drop, option_copied, ℕ, List, ◌++◌, Some, true, OnOk, OnErr, slice_get};
ghost use Rattle.std.specs.Prelude.{slice_set};
ghost use Rattle.std.specs.List.{flat_map};
ghost use Rattle.extents.specs.Usages.{AreOut, with_usages};
ghost use Rattle.extents.specs.declared.usage.Usage.TheVariants.{Kept};
ghost use Rattle.group.specs.Queued.{QueuedValue, numbers_of};
ghost use Rattle.group.specs.Values.{versions_after, KeepsSlots};
ghost use Rattle.extents.specs.Times.{with_times};
ghost use Rattle.group.specs.Steps as steps;
ghost use Rattle.group.specs.declared.stage.GroupStage.TheVariants as stages;

use crate::stage::{GroupStage, NextStep};
use crate::transactions::Transactions;
use crate::{Queued, QueuedParts, StoredExtent, keep_all};
use arrayvec::ArrayVec;
use chains::Frozen;
use extents::{ChainTimes, Extents};
use std::alloc::{AllocError, Global};
use std::collections::VecDeque;
use wire::{Body, Member};

/// At most so many commits are published under one gate.
pub const MOST_MEMBERS: usize = 16;

impl Transactions {
    /// What the group needs next. Where there is none, one begins of the first 16 that wait.
    pub fn next_step(&mut self) -> NextStep
        ensures new { self.new ≡ steps.grouped self.old }
        ensures is { result ≡ steps.due self.new }
        ensures extent { result ≡ NextStep.WriteExtent → IsSome (steps.next_extent self.new) }
        ensures room { result ≡ NextStep.BeginSlot → self.new.used < self.new.slots }
        ensures few { self.new.slots ≤ 65536 }
        ensures slots { KeepsSlots self.old self.new }
    {
        self.begin_group();
        self.due()
    }

    // Where no group stands and commits wait, one begins.
    fn begin_group(&mut self)
        ensures is { self.new ≡ steps.grouped self.old }
        ensures slots { KeepsSlots self.old self.new }
    {
        if self.group == 0 && !self.queue.is_empty() {
            self.group = self.queue.len().min(MOST_MEMBERS);
            self.stage = GroupStage::Storing {
                member: 0,
                extent: 0,
            };
        }
    }

    // What the group that stands needs next.
    fn due(&self) -> NextStep
        ensures is { result ≡ steps.due self.now }
        ensures extent { result ≡ NextStep.WriteExtent → IsSome (steps.next_extent self.now) }
        ensures room { result ≡ NextStep.BeginSlot → self.now.used < self.now.slots }
        ensures few { self.now.slots ≤ 65536 }
    {
        match self.stage {
            GroupStage::NoGroup => NextStep::Idle,
            GroupStage::Storing { member, .. } => {
                if member < self.group {
                    NextStep::WriteExtent
                } else {
                    NextStep::SyncHeap
                }
            }
            GroupStage::Stored => NextStep::BeginSlot,
            GroupStage::Turning => NextStep::AdvanceSlot,
        }
    }

    /// The next extent of the group to be written.
    pub fn next_extent(&self) -> Option<&StoredExtent>
        ensures { option_copied result ≡ steps.next_extent self.now }
    {
        let GroupStage::Storing { member, extent } = self.stage else {
            return None;
        };
        match self.queue.get(member) {
            None => None,
            Some(queued) => queued.stored().get(extent),
        }
    }

    /// The next extent is written.
    pub fn wrote_extent(&mut self)
        requires { steps.due self.old ≡ NextStep.WriteExtent }
        ensures { self.new ≡ steps.wrote_extent self.old }
    {
        self.stage = self.stage_behind();
    }

    // The stage once the next extent is written.
    fn stage_behind(&self) -> GroupStage
        ensures { result ≡ steps.stage_behind self.now.queue self.now.stage }
    {
        let GroupStage::Storing { member, extent } = self.stage else {
            return self.stage;
        };
        let behind = GroupStage::Storing {
            member: member.saturating_add(1),
            extent: 0,
        };
        match self.queue.get(member) {
            None => behind,
            Some(queued) => {
                if extent.saturating_add(1) < queued.stored().len() {
                    GroupStage::Storing {
                        member,
                        extent: extent.saturating_add(1),
                    }
                } else {
                    behind
                }
            }
        }
    }

    /// Every extent of the group is synced.
    pub fn heap_synced(&mut self)
        requires { steps.due self.old ≡ NextStep.SyncHeap }
        ensures { self.new ≡ steps.at_stage stages.Stored self.old }
    {
        self.stage = GroupStage::Stored;
    }

    /// The versions that the group leaves forget what ended by the reclaim mark, where they were made
    /// before it was raised.
    ///
    /// # Errors
    ///
    /// Where they were, and there is no memory for them; nothing has changed.
    pub fn freshen(&mut self, alloc: Global) -> Result<(), AllocError>
        ensures ok { OnOk result (self.new ≡ steps.freshened self.old) }
        ensures err { OnErr result ((steps.is_stale self.old ≡ true) × (self.new ≡ self.old)) }
        ensures slots { KeepsSlots self.old self.new }
        ensures due { steps.due self.new ≡ steps.due self.old }
    {
        let place = self.group.saturating_sub(1);
        let mark = self.reclaimed;
        let Some(queued) = queued_at(&self.queue, place) else {
            return Ok(());
        };
        if queued.reclaimed() >= mark {
            return Ok(());
        }
        let Ok(after) = queued.after().forget(alloc, mark) else {
            return Err(AllocError);
        };
        put_versions(&mut self.queue, place, after, mark);
        Ok(())
    }

    /// The group's slot is in the writing.
    pub fn slot_begun(&mut self)
        requires { steps.due self.old ≡ NextStep.BeginSlot }
        ensures { self.new ≡ steps.at_stage stages.Turning self.old }
    {
        self.stage = GroupStage::Turning;
    }

    /// Nothing is written any more.
    pub fn fail(&mut self)
        ensures { self.new ≡ steps.broken self.old }
    {
        self.failed = true;
    }

    /// What the group's slot says.
    pub fn slot_body(&self) -> Body
        ensures { steps.IsCommitOf (steps.entries self.now) result }
    {
        let mut members: ArrayVec<Member, 16> = ArrayVec::new();
        for place in 0..self.group {
            match self.queue.get(place) {
                None => unreachable!(),
                Some(queued) => members.push(queued.entry()),
            }
        }
        Body::Commit(members)
    }

    /// The group's slot is open: its commits are published. Says how many they are.
    pub fn publish(&mut self) -> u32
        requires { steps.due self.old ≡ NextStep.AdvanceSlot }
        ensures count { result ≡ self.old.group }
        ensures new { self.new ≡ steps.published self.old }
    {
        let count = self.group;
        publish_first(
            &mut self.queue,
            &mut self.versions,
            &mut self.extents,
            &mut self.times,
            count,
        );
        self.order.publish(count);
        self.used += 1;
        self.group = 0;
        self.stage = GroupStage::NoGroup;
        count as u32
    }
}

// The commit at this place of the queue.
fn queued_at(queue: &VecDeque<Queued>, place: usize) -> Option<&Queued>
    ensures { option_copied result ≡ slice_get queue.now.items place }
{
    queue.get(place)
}

// The versions after the commit at this place are these, which have forgotten what ended by the mark.
fn put_versions(queue: &mut VecDeque<Queued>, place: usize, after: Frozen, mark: u64)
    ensures { (q : QueuedValue) → slice_get queue.old.items place ≡ Some q
        → queue.new.items ≡ slice_set queue.old.items place (record q { after = after; reclaimed = mark }) }
{
    if let Some(queued) = queue.get_mut(place) {
        queued.forget(after, mark);
    }
}

// The first commits that wait do so no longer: their versions stand, and their extents are kept.
fn publish_first(
    queue: &mut VecDeque<Queued>,
    versions: &mut Frozen,
    extents: &mut Extents,
    times: &mut ChainTimes,
    count: usize,
)
    requires out { AreOut extents.old (flat_map numbers_of queue.old.items) }
    requires within { count ≤ length queue.old.items }
    ensures queue { queue.new.items ≡ drop count queue.old.items }
    ensures versions { versions.new ≡ versions_after versions.old (take count queue.old.items) }
    ensures extents { extents.new ≡ with_usages extents.old (flat_map numbers_of (take count queue.old.items)) Kept }
    ensures times { times.new ≡ steps.with_chains times.old (take count queue.old.items) }
    ensures still_out { (others : List ℕ) → AreOut extents.old (flat_map numbers_of queue.old.items ++ others)
        → AreOut extents.new (flat_map numbers_of queue.new.items ++ others) }
{
    for _ in 0..count {
        match queue.pop_front() {
            None => unreachable!(),
            Some(queued) => {
                let QueuedParts {
                    entry,
                    after,
                    stored,
                } = queued.spend();
                set_times(times, &stored, entry.time);
                keep_all(extents, stored);
                *versions = after;
            }
        }
    }
}

// These extents are in the chain of the commit of this time.
fn set_times(times: &mut ChainTimes, stored: &[StoredExtent], time: u64)
    ensures { times.new ≡ with_times times.old (map (λ s. s.extent) stored.now) time }
{
    let mut rest = stored;
    while let [one, after @ ..] = rest {
        times.set(one.extent.number(), time);
        rest = after;
    }
}
