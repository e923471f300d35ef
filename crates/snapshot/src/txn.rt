//! A transaction.
ghost use Rattle.std.specs.Prelude.{◌≡◌, ◌≢◌, ◌≤◌, ◌↔◌, [], map, IfOk, IfErr, OnOk, OnErr, Err, Some, None, IsSome, if◌then◌else◌};
ghost use Rattle.std.specs.Option.{option_copied};
ghost use Rattle.history.specs.declared.key.Key.{Key};
ghost use Rattle.history.specs.Key.{same_key, write_in};
ghost use Rattle.law_image.specs.Values.{IsValue};
ghost use Rattle.wire.specs.Values.{HasSizes};
ghost use Rattle.snapshot.specs.Txn.{seen_by, at_snapshot, AreTxnWrites, IsFullFor, with_put, with_delete};
ghost use Rattle.history.specs.Queries.{IsScan};
ghost use Rattle.snapshot.specs.TxnFaults.{IsOfValue};

use crate::scan::overlay;
use crate::write_set::{place_of, place_with_room, put_at, remove_write};
use chains::{Frozen, SharedValue};
use history::{Key, KeyWrite};
use std::alloc::{AllocError, Global};
use std::marker::Model;
use wire::{Value, ValueFault};

/// An open transaction: it reads what was published when it began, with its own writes over it.
/// It is submitted or aborted; it can't be dropped.
pub struct Txn {
    mark: u64,
    number: u64,
    snapshot: u64,
    frozen: Frozen,
    // In strictly rising order of the keys.
    writes: Vec<KeyWrite<SharedValue>>,
}

impl Model for Txn {
    ghost use Rattle.snapshot.specs.Txn.{TxnValue, AreTxnWrites};

    ghost Value = { TxnValue };

    ghost view = { λ t. record { mark = t.mark; number = t.number; snapshot = t.snapshot; state = t.frozen; writes = t.writes.items } };

    ghost invariant = { λ t. AreTxnWrites t.frozen t.snapshot t.writes.items };
}

/// What a transaction held that is over.
#[derive(Drop)]
pub struct TxnParts {
    pub mark: u64,
    pub number: u64,
    /// Microseconds since 1970; 0 where nothing was published.
    pub snapshot: u64,
    pub frozen: Frozen,
    /// In strictly rising order of the keys.
    pub writes: Vec<KeyWrite<SharedValue>>,
}

/// Why a call of a transaction is refused: where several reasons apply, the first of them. The
/// transaction stays as it was.
#[derive(Clone, Copy, Debug, PartialEq, Eq)]
pub enum TxnFault {
    /// The key that was to be deleted has no value.
    Missing = 1,
    /// The transaction has written as many keys as it may.
    TooManyKeys = 2,
    /// There are no fields or more than 16, or one has more than 255 bytes.
    BadValue = 3,
    NoMemory = 4,
}

// A value of these fields that can be shared.
fn shared_value(alloc: Global, fields: &[&[u8]]) -> Result<SharedValue, TxnFault>
    ensures made { IfOk result (λ value. value ≡ map (λ field. field.now) fields.now) }
    ensures in_range { IfOk result IsValue }
    ensures bad { (result ≡ Err TxnFault.BadValue) ↔ (¬ HasSizes (map (λ field. field.now) fields.now)) }
    ensures only { IfErr result IsOfValue }
{
    match Value::new(alloc, fields) {
        Err(ValueFault::BadValue) => Err(TxnFault::BadValue),
        Err(ValueFault::NoMemory) => Err(TxnFault::NoMemory),
        Ok(value) => {
            let _in_range = value.len();
            Ok(SharedValue::new(value))
        }
    }
}

impl Txn {
    /// A transaction without writes. It takes no memory.
    pub fn new(alloc: Global, mark: u64, number: u64, snapshot: u64, frozen: Frozen) -> Self
        ensures { result ≡ record { mark = mark; number = number; snapshot = snapshot; state = frozen; writes = [] } }
    {
        Txn {
            mark,
            number,
            snapshot,
            frozen,
            writes: Vec::new(alloc),
        }
    }

    /// The store mark of the store that began it.
    pub fn mark(&self) -> u64
        ensures { result ≡ self.now.mark }
    {
        self.mark
    }

    /// The number that no other open transaction of its store has.
    pub fn number(&self) -> u64
        ensures { result ≡ self.now.number }
    {
        self.number
    }

    /// The time whose state it reads, in microseconds since 1970; 0 where nothing was published.
    pub fn snapshot(&self) -> u64
        ensures { result ≡ self.now.snapshot }
    {
        self.snapshot
    }

    /// What was published when it began.
    pub fn frozen(&self) -> &Frozen
        ensures { result.now ≡ self.now.state }
    {
        &self.frozen
    }

    /// Its writes, in strictly rising order of the keys.
    pub fn writes(&self) -> &[KeyWrite<SharedValue>]
        ensures is { result.now ≡ self.now.writes }
        ensures are { AreTxnWrites self.now.state self.now.snapshot self.now.writes }
    {
        &self.writes
    }

    /// The value of a key as the transaction sees it. It takes no memory.
    pub fn get(&self, key: Key) -> Option<&SharedValue>
        ensures { option_copied result ≡ seen_by self.now key }
    {
        match place_of(&self.writes, key) {
            Ok(place) => self.writes[place].write.as_ref(),
            Err(_) => self.frozen.at(key, self.snapshot),
        }
    }

    /// The records of a relation that have a value as the transaction sees them, with their values,
    /// in rising order.
    ///
    /// # Errors
    ///
    /// Where there is no memory for them.
    pub fn scan(&self, alloc: Global, relation: u16) -> Result<Vec<(u64, SharedValue)>, AllocError>
        ensures { IfOk result (λ found. IsScan (seen_by self.now) relation found.items) }
    {
        // The versions are in the order of their keys.
        let _none = self.frozen.is_empty();
        let published = self.frozen.scan(alloc, relation, self.snapshot)?;
        overlay(alloc, relation, &published, &self.writes)
    }

    /// Writes a value of these fields to a key.
    ///
    /// # Errors
    ///
    /// `TooManyKeys`, `BadValue` or `NoMemory`.
    pub fn put(&mut self, alloc: Global, key: Key, fields: &[&[u8]]) -> Result<(), TxnFault>
        ensures ok { OnOk result (self.new ≡ with_put self.old key (map (λ field. field.now) fields.now)) }
        ensures by_key { OnOk result ((q : Key) → seen_by self.new q
            ≡ (if same_key key q then Some (map (λ field. field.now) fields.now) else seen_by self.old q)) }
        ensures missing { result ≢ Err TxnFault.Missing }
        ensures too_many { (result ≡ Err TxnFault.TooManyKeys) ↔ IsFullFor self.old.writes key }
        ensures bad { (result ≡ Err TxnFault.BadValue) ↔ ((¬ IsFullFor self.old.writes key) × (¬ HasSizes (map (λ field. field.now) fields.now))) }
        ensures err { OnErr result (self.new ≡ self.old) }
    {
        let Some(place) = place_with_room(&self.writes, key) else {
            return Err(TxnFault::TooManyKeys);
        };
        let _relation = key.relation;
        let _record = key.record;
        let value = match shared_value(alloc, fields) {
            Ok(value) => value,
            Err(fault) => return Err(fault),
        };
        let write = KeyWrite {
            key,
            write: Some(value),
        };
        match put_at(&mut self.writes, place, write) {
            Ok(()) => Ok(()),
            Err(AllocError) => Err(TxnFault::NoMemory),
        }
    }

    /// Writes that a key is gone. Where the snapshot has no value of it, the key is left without a
    /// write.
    ///
    /// # Errors
    ///
    /// `Missing`, `TooManyKeys` or `NoMemory`.
    pub fn delete(&mut self, key: Key) -> Result<(), TxnFault>
        ensures ok { OnOk result (self.new ≡ with_delete self.old key) }
        ensures by_key { OnOk result ((q : Key) → seen_by self.new q ≡ (if same_key key q then None else seen_by self.old q)) }
        ensures missing { (result ≡ Err TxnFault.Missing) ↔ (seen_by self.old key ≡ None) }
        ensures too_many { (result ≡ Err TxnFault.TooManyKeys) ↔ (IsSome (seen_by self.old key) × IsFullFor self.old.writes key) }
        ensures bad { result ≢ Err TxnFault.BadValue }
        ensures err { OnErr result (self.new ≡ self.old) }
    {
        if self.get(key).is_none() {
            return Err(TxnFault::Missing);
        }
        if self.frozen.at(key, self.snapshot).is_none() {
            remove_write(&mut self.writes, key);
            return Ok(());
        }
        let Some(place) = place_with_room(&self.writes, key) else {
            return Err(TxnFault::TooManyKeys);
        };
        let _relation = key.relation;
        let _record = key.record;
        match put_at(&mut self.writes, place, KeyWrite { key, write: None }) {
            Ok(()) => Ok(()),
            Err(AllocError) => Err(TxnFault::NoMemory),
        }
    }

    /// The transaction is over.
    pub fn spend(self) -> TxnParts
        ensures is { self ≡ record {
          mark = result.mark;
          number = result.number;
          snapshot = result.snapshot;
          state = result.frozen;
          writes =
              result.writes.items;
        } }
        ensures are { AreTxnWrites result.frozen result.snapshot result.writes.items }
    {
        let Txn {
            mark,
            number,
            snapshot,
            frozen,
            writes,
        } = self;
        TxnParts {
            mark,
            number,
            snapshot,
            frozen,
            writes,
        }
    }
}
