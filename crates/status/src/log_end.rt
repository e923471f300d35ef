//! Where a log ends, and which slot may follow.
ghost use Rattle.std.specs.Prelude.{◌≡◌, ◌↔◌, ◌+◌, ◌<◌, ◌≤◌, ◌^◌, List, [], ◌∷◌, ◌++◌, map, ℕ, IsTrue, IfOk};
ghost use Rattle.wire.specs.Spelling.{InRange, kind_of};
ghost use Rattle.wire.specs.declared.slot.Slot.{Slot};
ghost use Rattle.law_image.specs.Log.{last_time_after};
ghost use Rattle.status.specs.Rules.{head_of, slot_of, MayFollow};
ghost use Rattle.status.specs.Kept.{kept_after};
ghost use Rattle.status.specs.Walking.{StartsAfter, IsNextRun, AreNextAnchors, IsNextFloor, EndsAt};

use crate::reading::is_built;
use arrayvec::ArrayVec;
use floors::Floors;
use std::alloc::{AllocError, Global};
use wire::{Anchors, Body, Member, Profile, Run, Slot};

/// Where a log ends. Times are microseconds since 1970.
#[derive(Drop)]
pub struct LogEnd {
    /// The time of the last commit, 0 for none.
    pub last: u64,
    /// The archive mark, 0 for none.
    pub archived: u64,
    /// The reclaim mark, 0 for none.
    pub reclaimed: u64,
    pub floors: Floors,
    /// The byte of the archive at which the last run ends, 0 for none.
    pub runs_end: u64,
}

fn kind_of(body: &Body) -> u8
    ensures { result ≡ kind_of body.now }
{
    match body {
        Body::Commit(_) => 1,
        Body::Archived(_) => 2,
        Body::Reclaimed(_) => 3,
        Body::Floor { .. } => 4,
    }
}

// Whether the first of these commits is later than a time.
fn starts_after(time: u64, members: &[Member]) -> bool
    ensures { IsTrue result ↔ StartsAfter time members.now }
{
    match members {
        [first, ..] => time < first.time,
        [] => false,
    }
}

// The time of the last of these commits, or that before them.
fn last_after(before: u64, members: &[Member]) -> u64
    ensures { result ≡ last_time_after before (map head_of members.now) }
{
    let mut last = before;
    for member in members {
        last = member.time;
    }
    last
}

/// The floors once this slot follows those of which these are the floors.
pub fn floors_behind(alloc: Global, floors: &Floors, body: &Body) -> Result<Floors, AllocError>
    ensures { IfOk result (λ f. f ≡ kept_after floors.now (slot_of body.now ∷ [])) }
{
    match body {
        Body::Floor { relation, floor } => floors.raised(alloc, *relation, *floor),
        Body::Commit(_) | Body::Archived(_) | Body::Reclaimed(_) => floors.share(),
    }
}

impl LogEnd {
    /// That of a log without slots.
    pub(crate) fn start() -> LogEnd
        ensures { EndsAt [] result }
    {
        LogEnd {
            last: 0,
            archived: 0,
            reclaimed: 0,
            floors: Floors::none(),
            runs_end: 0,
        }
    }

    // Whether the run goes further than the archive mark, no further than the last commit, and starts where the last run ends.
    fn takes_run(&self, run: &Run) -> bool
        ensures { IsTrue result ↔ IsNextRun self.now run.now }
    {
        self.archived < run.upto && run.upto <= self.last && run.start == self.runs_end
    }

    // Whether the reclaim goes to the archive mark, and the reclaim before it did not.
    fn takes_anchors(&self, anchors: &Anchors) -> bool
        ensures { IsTrue result ↔ AreNextAnchors self.now anchors.now }
    {
        anchors.upto == self.archived && self.reclaimed < anchors.upto
    }

    // Whether the floor is greater than those before it that it covers, and no later than the last commit.
    fn takes_floor(&self, relation: Option<u16>, floor: u64) -> bool
        ensures { IsTrue result ↔ IsNextFloor self.now relation floor }
    {
        self.floors.are_below(relation, floor) && floor <= self.last
    }

    /// Whether this slot may follow in a store of this profile.
    pub(crate) fn may_be_followed(&self, profile: Profile, slot: &Slot) -> bool
        ensures { InRange profile slot.now.body → (before : List Slot) → EndsAt before self.now → (IsTrue result ↔ MayFollow profile before slot.now) }
    {
        if !is_built(profile, kind_of(&slot.body)) {
            return false;
        }
        match &slot.body {
            Body::Commit(members) => starts_after(self.last, members.as_slice()),
            Body::Archived(run) => self.takes_run(run),
            Body::Reclaimed(anchors) => self.takes_anchors(anchors),
            Body::Floor { relation, floor } => self.takes_floor(*relation, *floor),
        }
    }

    /// Where the log ends once this slot follows, and its floors are these.
    pub(crate) fn with(&self, slot: &Slot, floors: Floors) -> LogEnd
        requires in_range { (profile : ℕ) × InRange profile slot.now.body }
        requires floors { floors ≡ kept_after self.now.floors (slot_of slot.now.body ∷ []) }
        ensures { (before : List Slot) → EndsAt before self.now → EndsAt (before ++ slot.now ∷ []) result }
    {
        match &slot.body {
            Body::Commit(members) => LogEnd {
                last: last_after(self.last, members.as_slice()),
                archived: self.archived,
                reclaimed: self.reclaimed,
                floors,
                runs_end: self.runs_end,
            },
            Body::Archived(run) => LogEnd {
                last: self.last,
                archived: run.upto,
                reclaimed: self.reclaimed,
                floors,
                runs_end: run.start + run.len,
            },
            Body::Reclaimed(anchors) => LogEnd {
                last: self.last,
                archived: self.archived,
                reclaimed: anchors.upto,
                floors,
                runs_end: self.runs_end,
            },
            Body::Floor { .. } => LogEnd {
                last: self.last,
                archived: self.archived,
                reclaimed: self.reclaimed,
                floors,
                runs_end: self.runs_end,
            },
        }
    }
}
