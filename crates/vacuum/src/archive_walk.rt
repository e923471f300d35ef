//! A walk over the versions that a run takes.
ghost use Rattle.std.specs.Prelude.{◌≡◌, ℕ, IfOk, List, MatchOption, [], Some, drop, max, option_map, slice_get};
ghost use Rattle.archive.specs.Answers.{head_of, record_of};
ghost use Rattle.chains.specs.KeyWrites.{KeyWrites};
ghost use Rattle.vacuum.specs.declared.archive_walk.Place.{Place};
ghost use Rattle.vacuum.specs.declared.archive_walk.Since.{Since};
ghost use Rattle.chains.specs.declared.bound.Bound.TheVariants.{From};
ghost use Rattle.vacuum.specs.Ahead.{IsAhead, IsAheadOf};
ghost use Rattle.vacuum.specs.Archives.{AreInMemory, since_of, key_left, key_records, records_at, records_of};

use crate::ahead::{Ahead, ahead_in, moves};
use archive::{Head, RecordWalk};
use chains::{Bound, Chain, Frozen};
use floors::Floors;
use history::Key;
use std::alloc::AllocError;
use std::marker::Model;
use wire::Value;

/// What is not in a run: what ended by the archive mark, in microseconds since 1970, or by the floor of its
/// relation.
#[derive(Drop)]
pub struct Since {
    pub mark: u64,
    pub floors: Floors,
}

impl Since {
    // What ended by this time is not in the run, of a relation.
    fn of(&self, relation: u16) -> u64
        ensures { result ≡ since_of self.now relation }
    {
        self.mark.max(self.floors.at(relation))
    }
}

/// Where a walk is: of the first key within the bound the versions that ended by `passed`, in
/// microseconds since 1970, are done.
#[derive(Clone, Copy)]
pub(crate) struct Place {
    bound: Bound,
    passed: u64,
}

/// Goes over the archive records of the versions that ended after the mark and the floor of their
/// relation, and by a time, by key and then by rising time. It takes no memory. Versions that lie together
/// are searched for once: it is one more holder of those that are next.
#[derive(Drop)]
pub struct ArchiveWalk {
    frozen: Frozen,
    since: Since,
    upto: u64,
    place: Place,
    ahead: Option<Ahead>,
}

impl Model for ArchiveWalk {
    ghost use Rattle.vacuum.specs.Archives.{Walked, records_of, records_at};

    ghost Value = { Walked };

    ghost view = { λ w. record { all = records_of w.since w.upto w.frozen; left = records_at w.since w.upto w.place w.frozen } };

    ghost use Rattle.vacuum.specs.Ahead.{IsAhead};

    ghost invariant = { λ w. IsAhead w.since w.upto w.place w.frozen w.ahead };
}

impl ArchiveWalk {
    /// A walk over the records of the versions that ended after `since` and by `upto`, in
    /// microseconds since 1970. All of them are left.
    pub fn new(frozen: Frozen, since: Since, upto: u64) -> ArchiveWalk
        ensures is { result ≡ record { all = records_of since upto frozen; left = records_of since upto frozen } }
        ensures versions { AreInMemory frozen }
    {
        // The versions are in the order of their keys, and of each key in that of their times.
        let _none = frozen.is_empty();
        let place = first_place();
        ArchiveWalk {
            frozen,
            since,
            upto,
            place,
            ahead: None,
        }
    }
}

impl RecordWalk for ArchiveWalk {
    ghost all = { λ w. w.all };

    ghost left = { λ w. w.left };

    fn peek(&self) -> Option<(Head, &Value)> {
        match &self.ahead {
            Some(ahead) => ahead.record(self.upto),
            None => next_record(&self.frozen, &self.since, self.upto, self.place),
        }
    }

    fn advance(&mut self, head: &Head) {
        let behind = place_behind(&self.frozen, head);
        self.place = behind;
        if moves(&mut self.ahead, self.upto) {
            return;
        }
        let stand = stand_at(&self.frozen, &self.since, self.upto, behind);
        self.place = stand.place;
        self.ahead = stand.ahead;
    }

    fn restart(&mut self) {
        let first = first_place();
        let stand = stand_at(&self.frozen, &self.since, self.upto, first);
        self.place = stand.place;
        self.ahead = stand.ahead;
    }
}

/// The first record of a key whose version ended after `passed`, if it ended by `upto`.
fn key_record(chain: &Chain, passed: u64, upto: u64) -> Option<(Head, &Value)>
    ensures { option_map (λ p. record_of p.0 p.1.now) result ≡ slice_get (key_records passed upto chain.now) 0 }
{
    let Some(version) = chain.ending_after(passed) else {
        return None;
    };
    if upto < version.to {
        return None;
    }
    let head = Head {
        key: chain.key(),
        from: version.from,
        to: version.to,
    };
    Some((head, version.value.value()))
}

/// The first record of a key whose version ended after `since` and after `passed`, if it ended by `upto`.
fn next_of<'a>(chain: &'a Chain, since: &Since, passed: u64, upto: u64) -> Option<(Head, &'a Value)>
    ensures { option_map (λ p. record_of p.0 p.1.now) result ≡ slice_get (key_left passed since.now upto chain.now) 0 }
{
    key_record(chain, passed.max(since.of(chain.key().relation)), upto)
}

/// The next record from a place on, over the keys that have none.
fn next_record<'a>(
    frozen: &'a Frozen,
    since: &Since,
    upto: u64,
    place: Place,
) -> Option<(Head, &'a Value)>
    ensures { option_map (λ p. record_of p.0 p.1.now) result ≡ slice_get (records_at since.now upto place frozen.now) 0 }
{
    let mut place = place;
    while let Some(chain) = frozen.least(place.bound) {
        let found = next_of(chain, since, place.passed, upto);
        if found.is_some() {
            return found;
        }
        place = Place {
            bound: Bound::After(chain.key()),
            passed: 0,
        };
    }
    None
}

/// A place, and what comes next there, if it is held.
#[derive(Drop)]
struct Stand {
    place: Place,
    ahead: Option<Ahead>,
}

/// What comes next of a key of which those that ended by `passed` are done, if there is a record.
fn ahead_of(
    chain: &Chain,
    since: &Since,
    passed: u64,
    upto: u64,
) -> Result<Option<Ahead>, AllocError>
    ensures { IfOk result (λ found. MatchOption found (key_left passed since.now upto chain.now ≡ [])
        (IsAheadOf (max passed (since_of since.now chain.now.key.relation)) upto chain.now)) }
{
    ahead_in(chain, passed.max(since.of(chain.key().relation)), upto)
}

/// Goes from a place on to the next record, over the keys that have none.
fn stand_at(frozen: &Frozen, since: &Since, upto: u64, place: Place) -> Stand
    ensures left { records_at since.now upto result.place frozen.now ≡ records_at since.now upto place frozen.now }
    ensures ahead { IsAhead since.now upto result.place frozen.now result.ahead }
{
    let mut place = place;
    while let Some(chain) = frozen.least(place.bound) {
        match ahead_of(chain, since, place.passed, upto) {
            Ok(Some(ahead)) => {
                return Stand {
                    place,
                    ahead: Some(ahead),
                };
            }
            Ok(None) => {}
            Err(_) => return Stand { place, ahead: None },
        }
        place = Place {
            bound: Bound::After(chain.key()),
            passed: 0,
        };
    }
    Stand { place, ahead: None }
}

/// The place of the first record.
fn first_place() -> Place
    ensures { (since : Since) (upto : ℕ) (frozen : List KeyWrites) → records_at since upto result frozen ≡ records_of since upto frozen }
{
    let least = Key {
        relation: 0,
        record: 0,
    };
    Place {
        bound: Bound::From(least),
        passed: 0,
    }
}

/// The place after the next record, which has this head.
fn place_behind(frozen: &Frozen, head: &Head) -> Place
    ensures is { result ≡ record { bound = From head.now.key; passed = head.now.to } }
    ensures left { (since : Since) (upto : ℕ) (place : Place) → option_map head_of (slice_get (records_at since upto place frozen.now) 0) ≡ Some head.now
        → records_at since upto result frozen.now ≡ drop 1 (records_at since upto place frozen.now) }
{
    // The keys stand in order, so the first one from that of the head on is its own.
    let _none = frozen.is_empty();
    Place {
        bound: Bound::From(head.key),
        passed: head.to,
    }
}
