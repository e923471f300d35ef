//! A walk over the versions that a reclaim writes as anchors.
ghost use Rattle.std.specs.Prelude.{◌≡◌, drop, option_map, slice_get};
ghost use Rattle.deltas.specs.Loans.{record_of_loan};
ghost use Rattle.vacuum.specs.Anchors.{IsAnchored, key_olds, olds_of, olds_at};
ghost use Rattle.vacuum.specs.Archives.{AreInMemory};

use chains::{Bound, Chain, Frozen};
use deltas::{ContentRef, RecordRef, RecordSource};
use history::Key;
use std::marker::Model;

/// Goes over the anchor records of the versions that are valid at a mark, one of a key at most, in
/// the order of the keys. It takes no memory.
#[derive(Drop)]
pub struct AnchorSource {
    frozen: Frozen,
    mark: u64,
    bound: Bound,
}

impl Model for AnchorSource {
    ghost use Rattle.vacuum.specs.Anchors.{Sourced, olds_of, olds_at, IsAnchored};

    ghost Value = { Sourced };

    ghost view = { λ s. record { all = olds_of s.mark s.frozen; left = olds_at s.mark s.bound s.frozen } };

    ghost invariant = { λ s. IsAnchored s.mark s.bound s.frozen };
}

impl AnchorSource {
    /// The anchor records of the versions that are valid at the mark, in microseconds since 1970.
    /// All of them are left.
    pub fn new(frozen: Frozen, mark: u64) -> AnchorSource
        ensures is { result ≡ record { all = olds_of mark frozen; left = olds_of mark frozen } }
        ensures versions { AreInMemory frozen }
    {
        let bound = first_bound(&frozen, mark);
        AnchorSource {
            frozen,
            mark,
            bound,
        }
    }

    /// Goes back to the first record.
    pub fn restart(&mut self)
        ensures { self.new ≡ record { all = self.old.all; left = self.old.all } }
    {
        self.bound = first_bound(&self.frozen, self.mark);
    }
}

impl RecordSource for AnchorSource {
    ghost left = { λ s. s.left };

    fn peek(&self) -> Option<RecordRef<'_>> {
        match self.frozen.least(self.bound) {
            None => None,
            Some(chain) => anchor_of(chain, self.mark),
        }
    }

    fn advance(&mut self) {
        self.bound = next_bound(&self.frozen, self.mark, self.bound);
    }
}

/// The anchor record of a key, if a version is valid at the mark.
fn anchor_of(chain: &Chain, mark: u64) -> Option<RecordRef<'_>>
    ensures { option_map record_of_loan result ≡ slice_get (key_olds mark chain.now) 0 }
{
    let Some(version) = chain.ending_after(mark) else {
        return None;
    };
    if mark < version.from {
        return None;
    }
    let content = ContentRef::Old {
        from: version.from,
        value: version.value.value(),
    };
    Some(RecordRef {
        key: chain.key(),
        content,
    })
}

/// Goes on from a bound to the next record, over the keys that have none.
fn settled(frozen: &Frozen, mark: u64, bound: Bound) -> Bound
    ensures left { olds_at mark result frozen.now ≡ olds_at mark bound frozen.now }
    ensures settled { IsAnchored mark result frozen.now }
    ensures versions { AreInMemory frozen.now }
{
    let mut bound = bound;
    while let Some(chain) = frozen.least(bound) {
        if anchor_of(chain, mark).is_some() {
            return bound;
        }
        bound = Bound::After(chain.key());
    }
    bound
}

/// The bound from which on all records are.
fn first_bound(frozen: &Frozen, mark: u64) -> Bound
    ensures left { olds_at mark result frozen.now ≡ olds_of mark frozen.now }
    ensures settled { IsAnchored mark result frozen.now }
    ensures versions { AreInMemory frozen.now }
{
    let least = Key {
        relation: 0,
        record: 0,
    };
    settled(frozen, mark, Bound::From(least))
}

/// The bound after the next record.
fn next_bound(frozen: &Frozen, mark: u64, bound: Bound) -> Bound
    requires { IsAnchored mark bound frozen.now }
    ensures left { olds_at mark result frozen.now ≡ drop 1 (olds_at mark bound frozen.now) }
    ensures settled { IsAnchored mark result frozen.now }
{
    match frozen.least(bound) {
        None => bound,
        Some(chain) => settled(frozen, mark, Bound::After(chain.key())),
    }
}
