//! Transactions of a shared store.
ghost use Rattle.std.specs.Prelude.{◌≡◌, ◌≢◌, ◌↔◌, map, IfOk, IfErr, OnOk, OnErr, Err, None, Some, IsSome, if◌then◌else◌};
ghost use Rattle.std.specs.Option.{option_copied};
ghost use Rattle.history.specs.declared.key.Key.{Key};
ghost use Rattle.history.specs.Histories.{last};
ghost use Rattle.history.specs.Key.{same_key};
ghost use Rattle.history.specs.Queries.{IsScan};
ghost use Rattle.wire.specs.Values.{HasSizes};
ghost use Rattle.snapshot.specs.Txn.{IsFullFor, at_snapshot, with_put, with_delete};
ghost use Rattle.shared.specs.Moments.{GoesWith, value_for};
ghost use Rattle.shared.specs.Posted.{written, AreBarred};
ghost use Rattle.shared.specs.Shared.{SeenReached};

use crate::copied::apply;
use crate::naming::Opening;
use crate::txn_pass::TxnPass;
use any_store::{SharedValue, Txn, TxnFault};
use history::{Key, KeyWrite};
use std::alloc::{AllocError, Global};
use std::marker::Model;
use wire::Value;

/// An open transaction: it reads what was published when it began, with its own writes over it, and
/// takes no lock. It is submitted or aborted; it can't be dropped.
pub struct SharedTxn<L: Opening> {
    txn: Txn,
    pass: TxnPass<L>,
}

impl<L: Opening> Model for SharedTxn<L> {
    ghost use Rattle.shared.specs.Moments.{TxnMoment, GoesWith};

    ghost Value = { TxnMoment };

    ghost view = { λ t. record { txn = t.txn; seen = t.pass.seen } };

    ghost invariant = { λ t. GoesWith L.start L.mark t.txn t.pass };
}

impl<L: Opening> SharedTxn<L> {
    pub(crate) fn of(txn: Txn, pass: TxnPass<L>) -> SharedTxn<L>
        requires { GoesWith L.start L.mark txn pass }
        ensures { result ≡ record { txn = txn; seen = pass.seen } }
    {
        SharedTxn { txn, pass }
    }

    /// The time of the last commit that it reads, in microseconds since 1970; 0 for none.
    pub fn snapshot(&self) -> u64
        ensures is { result ≡ last self.now.seen.published }
        ensures reached { SeenReached L.start self.now.seen }
    {
        let _ = &self.pass;
        self.txn.snapshot()
    }

    /// The value of a key as the transaction sees it. It takes no memory.
    pub fn get(&self, key: Key) -> Option<&SharedValue>
        ensures is { option_copied result ≡ value_for self.now key }
        ensures reached { SeenReached L.start self.now.seen }
    {
        let _ = &self.pass;
        self.txn.get(key)
    }

    /// The records of a relation that have a value as the transaction sees them, with their values,
    /// in rising order.
    ///
    /// # Errors
    ///
    /// Where there is no memory for them.
    pub fn scan(&self, alloc: Global, relation: u16) -> Result<Vec<(u64, SharedValue)>, AllocError>
        ensures is { IfOk result (λ found. IsScan (value_for self.now) relation found.items) }
        ensures reached { SeenReached L.start self.now.seen }
    {
        let _ = &self.pass;
        self.txn.scan(alloc, relation)
    }

    /// Writes a value of these fields to a key.
    ///
    /// # Errors
    ///
    /// `TooManyKeys`, `BadValue` or `NoMemory`.
    pub fn put(&mut self, alloc: Global, key: Key, fields: &[&[u8]]) -> Result<(), TxnFault>
        ensures ok { OnOk result (self.new ≡ record self.old { txn = with_put self.old.txn key (map (λ field. field.now) fields.now) }) }
        ensures by_key { OnOk result ((q : Key)
            → value_for self.new q ≡ (if same_key key q then Some (map (λ field. field.now) fields.now) else value_for self.old q)) }
        ensures missing { result ≢ Err TxnFault.Missing }
        ensures too_many { (result ≡ Err TxnFault.TooManyKeys) ↔ IsFullFor self.old.txn.writes key }
        ensures bad { (result ≡ Err TxnFault.BadValue) ↔ ((¬ IsFullFor self.old.txn.writes key) × (¬ HasSizes (map (λ field. field.now) fields.now))) }
        ensures err { OnErr result (self.new ≡ self.old) }
    {
        let _ = &self.pass;
        self.txn.put(alloc, key, fields)
    }

    /// Writes that a key is gone. Where the snapshot has no value of it, the key is left without a
    /// write.
    ///
    /// # Errors
    ///
    /// `Missing`, `TooManyKeys` or `NoMemory`.
    pub fn delete(&mut self, key: Key) -> Result<(), TxnFault>
        ensures ok { OnOk result (self.new ≡ record self.old { txn = with_delete self.old.txn key }) }
        ensures by_key { OnOk result ((q : Key) → value_for self.new q ≡ (if same_key key q then None else value_for self.old q)) }
        ensures missing { (result ≡ Err TxnFault.Missing) ↔ (value_for self.old key ≡ None) }
        ensures too_many { (result ≡ Err TxnFault.TooManyKeys) ↔ (IsSome (value_for self.old key) × IsFullFor self.old.txn.writes key) }
        ensures bad { result ≢ Err TxnFault.BadValue }
        ensures err { OnErr result (self.new ≡ self.old) }
    {
        let _ = &self.pass;
        self.txn.delete(key)
    }

    /// Makes these changes in turn, which have memory of their own.
    pub(crate) fn apply(
        &mut self,
        alloc: Global,
        writes: &[KeyWrite<Value>],
    ) -> Result<(), TxnFault>
        ensures ok { OnOk result
            (self.new.txn.writes ≡ written (at_snapshot self.old.txn.state self.old.txn.snapshot) self.old.txn.writes writes.now) }
        ensures err { IfErr result (AreBarred (at_snapshot self.old.txn.state self.old.txn.snapshot) self.old.txn.writes writes.now) }
        ensures snapshot { self.new.txn.snapshot ≡ self.old.txn.snapshot }
    {
        let _ = &self.pass;
        apply(alloc, &mut self.txn, writes)
    }

    /// The transaction, and the pass that goes with it.
    pub(crate) fn spend(self) -> (Txn, TxnPass<L>)
        ensures is { (result.0 ≡ self.txn) × (result.1.seen ≡ self.seen) }
        ensures goes { GoesWith L.start L.mark result.0 result.1 }
    {
        let SharedTxn { txn, pass } = self;
        (txn, pass)
    }
}
