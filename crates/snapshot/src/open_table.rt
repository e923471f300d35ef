//! The open transactions of a store.
ghost use Rattle.std.specs.Prelude.{◌≡◌, ◌≤◌, [], length, max, IfOk, OnErr, None};
ghost use Rattle.snapshot.specs.OpenTable.{snapshot_of, with_opened, with_closed, lesser, least_open, least_free, open_count};

use std::alloc::{AllocError, Global};
use std::marker::Model;

/// The snapshots of the open transactions. Each has a number that no other open one has, and a
/// number is given again once its transaction is over: the table is never longer than the most
/// transactions that were open at once.
#[derive(Drop)]
pub struct OpenTable {
    places: Vec<Option<u64>>,
    // Each place before this one is taken.
    all_taken: usize,
}

impl Model for OpenTable {
    ghost use Rattle.std.specs.Prelude.{◌≤◌, List, ℕ, Option};
    ghost use Rattle.snapshot.specs.OpenTable.{least_free};

    ghost Value = { List (Option ℕ) };

    ghost view = { λ t. t.places.items };

    ghost invariant = { λ t. t.all_taken ≤ least_free t.places.items };
}

impl OpenTable {
    /// None is open.
    pub fn new(alloc: Global) -> Self
        ensures { result ≡ [] }
    {
        OpenTable {
            places: Vec::new(alloc),
            all_taken: 0,
        }
    }

    /// The snapshot of the open transaction of this number.
    pub fn snapshot_of(&self, number: u64) -> Option<u64>
        ensures { result ≡ snapshot_of number self.now }
    {
        match self.places.get(number as usize) {
            None => None,
            Some(place) => *place,
        }
    }

    /// Opens a transaction with this snapshot, and gives its number: the least that no open one has.
    pub fn open(&mut self, snapshot: u64) -> Result<u64, AllocError>
        ensures least { IfOk result (λ number. number ≡ least_free self.old) }
        ensures fresh { IfOk result (λ number. snapshot_of number self.old ≡ None) }
        ensures ok { IfOk result (λ number. self.new ≡ with_opened self.old number snapshot) }
        ensures within { IfOk result (λ number. number ≤ length self.old) }
        ensures short { IfOk result (λ _. length self.new ≤ max (length self.old) (open_count self.new)) }
        ensures err { OnErr result (self.new ≡ self.old) }
    {
        let place = self.least_free();
        if place < self.places.len() {
            self.places[place] = Some(snapshot);
            self.all_taken = place + 1;
            return Ok(place as u64);
        }
        self.places.push(Some(snapshot))?;
        self.all_taken = place + 1;
        Ok(place as u64)
    }

    // The least place that is free, or the one behind the last.
    fn least_free(&self) -> usize
        ensures is { result ≡ least_free self.now }
        ensures within { result ≤ length self.now }
    {
        let mut place = self.all_taken;
        while self.snapshot_of(place as u64).is_some() {
            place += 1;
        }
        place
    }

    /// The transaction of this number is over.
    pub fn close(&mut self, number: u64)
        ensures { self.new ≡ with_closed self.old number }
    {
        let place = number as usize;
        if place < self.places.len() {
            self.places[place] = None;
            self.all_taken = self.all_taken.min(place);
        }
    }

    /// The least snapshot of the open transactions.
    pub fn least(&self) -> Option<u64>
        ensures { result ≡ least_open self.now }
    {
        let mut least = None;
        let mut rest = self.places.as_slice();
        while let [place, after @ ..] = rest {
            least = lesser(least, *place);
            rest = after;
        }
        least
    }
}

// The lesser of two snapshots, of which either may be none.
fn lesser(a: Option<u64>, b: Option<u64>) -> Option<u64>
    ensures { result ≡ lesser a b }
{
    match (a, b) {
        (None, other) => other,
        (Some(a), None) => Some(a),
        (Some(a), Some(b)) => Some(a.min(b)),
    }
}
