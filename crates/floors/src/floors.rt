//! Floors that several may hold.
ghost use Rattle.std.specs.Prelude.{◌≡◌, ◌↔◌, ◌&&◌, nat_lt, [], IfOk, IsTrue, None, IsOk, length};
ghost use Rattle.floors.specs.Floors.{floor_at, floor_or, behind, with_own, raised_in, no_floors, same_floor, same_own, same_floors, all_below, AreBelow};
ghost use Rattle.floors.specs.Floors.{AreRising};

use std::alloc::{AllocError, Global};
use std::marker::Model;
use std::sync::Arc;

/// The floor of one relation, in microseconds since 1970.
#[derive(Clone, Copy, Debug, PartialEq, Eq)]
pub struct OwnFloor {
    pub relation: u16,
    pub floor: u64,
}

/// The floors of all relations at one moment, which several may hold: one of every relation, and those
/// that some relations have of their own. They never change; raised ones are others. Times are
/// microseconds since 1970, and 0 is no floor.
#[derive(Drop)]
pub struct Floors {
    every: u64,
    // By rising relation.
    own: Option<Arc<Vec<OwnFloor>>>,
}

impl Model for Floors {
    ghost use Rattle.floors.specs.Floors.{FloorsValue, own_in, AreRising};

    ghost Value = { FloorsValue };

    ghost view = { λ f. record { every = f.every; own = own_in f.own } };

    ghost invariant = { λ f. AreRising (own_in f.own) };
}

// The floor of a relation among these, or else the other.
fn floor_among(own: &[OwnFloor], relation: u16, every: u64) -> u64
    requires { AreRising own.now }
    ensures { result ≡ floor_or every own.now relation }
{
    let place = own.partition_point(|o| o.relation < relation);
    if place < own.len() && own[place].relation == relation {
        own[place].floor
    } else {
        every
    }
}

// What stands behind the floor of a relation, where none of a lesser one is among these.
fn behind(own: &[OwnFloor], relation: u16) -> &[OwnFloor]
    ensures { result.now ≡ behind own.now relation }
{
    match own {
        [first, after @ ..] if first.relation == relation => after,
        _ => own,
    }
}

// These floors with that of one relation, in place of the one that it had.
fn with_own(
    alloc: Global,
    own: &[OwnFloor],
    relation: u16,
    floor: u64,
) -> Result<Vec<OwnFloor>, AllocError>
    requires { AreRising own.now }
    ensures is { IfOk result (λ raised. raised.items ≡ with_own own.now relation floor) }
    ensures rising { IfOk result (λ raised. AreRising raised.items) }
{
    let place = own.partition_point(|o| o.relation < relation);
    let mut raised = Vec::new(alloc);
    raised.extend_from_slice(&own[..place])?;
    raised.push(OwnFloor { relation, floor })?;
    raised.extend_from_slice(behind(&own[place..], relation))?;
    Ok(raised)
}

// Whether this is the same floor of the same relation.
fn is_same(mine: &OwnFloor, other: &OwnFloor) -> bool
    ensures { result ≡ same_floor mine.now other.now }
{
    mine.relation == other.relation && mine.floor == other.floor
}

// Whether these floors are the others.
fn are_same(own: &[OwnFloor], others: &[OwnFloor]) -> bool
    ensures { result ≡ same_own own.now others.now }
{
    let mut rest = own;
    let mut left = others;
    while let [mine, after @ ..] = rest {
        let [other, behind @ ..] = left else {
            return false;
        };
        if !is_same(mine, other) {
            return false;
        }
        rest = after;
        left = behind;
    }
    match left {
        [] => true,
        _ => false,
    }
}

// Whether each of these floors is below this one.
fn all_below(own: &[OwnFloor], floor: u64) -> bool
    ensures { result ≡ all_below floor own.now }
{
    let mut rest = own;
    while let [first, after @ ..] = rest {
        if floor <= first.floor {
            return false;
        }
        rest = after;
    }
    true
}

// Whether these floors and that of every relation are below this one.
fn every_below(every: u64, own: &[OwnFloor], floor: u64) -> bool
    ensures { result ≡ (nat_lt every floor && all_below floor own.now) }
{
    every < floor && all_below(own, floor)
}

impl Floors {
    /// No floor.
    pub fn none() -> Self
        ensures { result ≡ no_floors }
    {
        Self::of_every(0)
    }

    /// One floor of every relation.
    pub fn of_every(floor: u64) -> Self
        ensures { result ≡ record { every = floor; own = [] } }
    {
        Floors {
            every: floor,
            own: None,
        }
    }

    /// One more holder of the same. It takes no memory.
    ///
    /// # Errors
    ///
    /// Where the count of holders is at its end.
    pub fn share(&self) -> Result<Self, AllocError>
        ensures { IfOk result (λ f. f ≡ self.now) }
    {
        let own = match &self.own {
            None => None,
            Some(own) => Some(Arc::try_clone(own)?),
        };
        Ok(Floors {
            every: self.every,
            own,
        })
    }

    // The floors that relations have of their own.
    fn own(&self) -> &[OwnFloor]
        ensures is { result.now ≡ self.now.own }
        ensures rising { AreRising result.now }
    {
        match &self.own {
            None => &[],
            Some(own) => own.as_slice(),
        }
    }

    /// The floor of a relation.
    pub fn at(&self, relation: u16) -> u64
        ensures { result ≡ floor_at self.now relation }
    {
        floor_among(self.own(), relation, self.every)
    }

    /// The floor of the relations that have none of their own.
    pub fn every(&self) -> u64
        ensures { result ≡ self.now.every }
    {
        self.every
    }

    /// How many relations have a floor of their own.
    pub fn relations(&self) -> usize
        ensures { result ≡ length self.now.own }
    {
        self.own().len()
    }

    /// Whether these are the other floors.
    pub fn is(&self, other: &Self) -> bool
        ensures { result ≡ same_floors self.now other.now }
    {
        self.every() == other.every() && are_same(self.own(), other.own())
    }

    /// Whether each of them that this one would take the place of is below it: that of one relation, or those
    /// of every relation.
    pub fn are_below(&self, scope: Option<u16>, floor: u64) -> bool
        ensures { IsTrue result ↔ AreBelow self.now scope floor }
    {
        match scope {
            Some(relation) => self.at(relation) < floor,
            None => every_below(self.every(), self.own(), floor),
        }
    }

    /// The floors after one is raised: that of one relation, or of every relation, which takes no memory.
    pub fn raised(&self, alloc: Global, scope: Option<u16>, floor: u64) -> Result<Self, AllocError>
        ensures is { IfOk result (λ f. f ≡ raised_in scope floor self.now) }
        ensures every { scope ≡ None → IsOk result }
    {
        let Some(relation) = scope else {
            return Ok(Self::of_every(floor));
        };
        let own = with_own(alloc, self.own(), relation, floor)?;
        Ok(Floors {
            every: self.every,
            own: Some(Arc::new(alloc, own)?),
        })
    }
}
