//! The commit order: what is published, and then what waits.
ghost use Rattle.std.specs.Prelude.{◌≡◌, ◌<◌, ◌≤◌, ◌^◌, ◌+◌, ◌-◌, ◌↔◌, ◌∷◌, ◌++◌, [], length, IfOk, OnErr, OnOk, MatchOption, map, filter, ◌==◌};
ghost use Rattle.group.specs.CommitOrder.{last_published, last_assigned, times_of, state_of_ticket, after_redeem, IsRisingAfter, HasNone, IsPlaceOf, HasRoom};

use std::alloc::{AllocError, Global};
use std::marker::Model;

/// A commit as its slot names it: its time in microseconds since 1970, and its caller's label.
#[derive(Clone, Copy, Debug, PartialEq, Eq)]
pub struct CommitHead {
    pub time: u64,
    pub label: u64,
    /// Whether it was submitted since the store was opened, and its ticket is not redeemed yet.
    pub awaited: bool,
}

/// Published commits, followed by those that wait. Their times rise.
#[derive(Drop)]
pub struct CommitOrder {
    heads: Vec<CommitHead>,
    published: usize,
}

impl Model for CommitOrder {
    ghost use Rattle.std.specs.Prelude.{◌-◌};
    ghost use Rattle.std.specs.Vec.{vec_capacity, vec_len};
    ghost use Rattle.group.specs.CommitOrder.{CommitOrderValue, AreHeads};

    ghost Value = { CommitOrderValue };

    ghost view = { λ o. record { heads = o.heads.items; published = o.published; room = vec_capacity o.heads - vec_len o.heads } };

    ghost invariant = { λ o. AreHeads o.heads.items o.published };
}

impl CommitOrder {
    /// No commit.
    pub fn new(alloc: Global) -> Self
        ensures heads { result.heads ≡ [] }
        ensures published { result.published ≡ 0 }
    {
        CommitOrder {
            heads: Vec::new(alloc),
            published: 0,
        }
    }

    /// These commits, all of them published.
    pub fn of_published(heads: Vec<CommitHead>) -> Self
        requires { IsRisingAfter 0 heads.items }
        ensures heads { result.heads ≡ heads.items }
        ensures published { result.published ≡ length heads.items }
    {
        let published = heads.len();
        CommitOrder { heads, published }
    }

    /// The time of the last published commit, 0 for none.
    pub fn last(&self) -> u64
        ensures is { result ≡ last_published self.now }
        ensures in_range { result < 2 ^ 63 }
    {
        if self.published == 0 {
            return 0;
        }
        self.heads[self.published - 1].time
    }

    /// The last time that was given to a commit, 0 for none.
    pub fn last_assigned(&self) -> u64
        ensures is { result ≡ last_assigned self.now }
        ensures in_range { result < 2 ^ 63 }
        ensures rising { IsRisingAfter 0 self.now.heads }
    {
        let count = self.heads.len();
        if count == 0 {
            return 0;
        }
        self.heads[count - 1].time
    }

    /// Makes room for that many more commits.
    pub fn reserve(&mut self, count: usize) -> Result<(), AllocError>
        ensures ok { OnOk result (count ≤ self.new.room) }
        ensures same { HasRoom self.old self.new }
        ensures err { OnErr result (self.new ≡ self.old) }
    {
        self.heads.reserve(count)?;
        Ok(())
    }

    /// One more commit waits. It takes no memory.
    pub fn push_reserved(&mut self, head: CommitHead)
        requires later { last_assigned self.old < head.time }
        requires in_range { head.time < 2 ^ 63 }
        requires room { 0 < self.old.room }
        ensures { self.new ≡ record self.old { heads = self.old.heads ++ head ∷ []; room = self.old.room - 1 } }
    {
        self.heads.push_reserved(head);
    }

    /// The first of those that wait are published.
    pub fn publish(&mut self, count: usize)
        requires { self.old.published + count ≤ length self.old.heads }
        ensures { self.new ≡ record self.old { published = self.old.published + count } }
    {
        self.published += count;
    }

    /// The commits, those that are published, and then those that wait.
    pub fn heads(&self) -> &[CommitHead]
        ensures is { result.now ≡ self.now.heads }
        ensures rising { IsRisingAfter 0 self.now.heads }
    {
        self.heads.as_slice()
    }

    /// How many commits are published.
    pub fn published(&self) -> usize
        ensures is { result ≡ self.now.published }
        ensures within { result ≤ length self.now.heads }
        ensures rising { IsRisingAfter 0 self.now.heads }
    {
        self.published
    }

    /// What became of the commit of a time, of which a ticket was given out. A published one is
    /// awaited no longer.
    pub fn redeem(&mut self, time: u64) -> TicketState
        ensures is { result ≡ state_of_ticket time self.old }
        ensures new { self.new ≡ after_redeem time self.old }
    {
        let last = self.last();
        let Some(place) = place_of(&self.heads, time) else {
            return TicketState::Unknown;
        };
        if !self.heads[place].awaited {
            return TicketState::Unknown;
        }
        if time > last {
            return TicketState::Waiting;
        }
        self.heads[place].awaited = false;
        TicketState::Published
    }

    /// The times of the published commits with a label, rising.
    pub fn times_of(&self, alloc: Global, label: u64) -> Result<Vec<u64>, AllocError>
        ensures { IfOk result (λ times. times.items ≡ times_of label self.now) }
    {
        published_times(alloc, &self.heads[..self.published], label)
    }
}

fn published_times(alloc: Global, heads: &[CommitHead], label: u64) -> Result<Vec<u64>, AllocError>
    ensures { IfOk result (λ times. times.items ≡ map (λ (head : CommitHead). head.time) (filter (λ (head : CommitHead). head.label == label) heads.now)) }
{
    let mut times = Vec::new(alloc);
    let mut rest = heads;
    while let [head, after @ ..] = rest {
        if head.label == label {
            times.push(head.time)?;
        }
        rest = after;
    }
    Ok(times)
}

/// What became of a commit of which a ticket was given out.
#[derive(Clone, Copy, Debug, PartialEq, Eq)]
pub enum TicketState {
    /// No ticket of this time is out.
    Unknown,
    Waiting,
    Published,
}

// The place of the head of a time.
fn place_of(heads: &[CommitHead], time: u64) -> Option<usize>
    requires { IsRisingAfter 0 heads.now }
    ensures { MatchOption result (HasNone time heads.now) (IsPlaceOf time heads.now) }
{
    let place = heads.partition_point(|head| head.time < time);
    if place < heads.len() && heads[place].time == time {
        Some(place)
    } else {
        None
    }
}
