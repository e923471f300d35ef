//! Changes with memory of their own, and what a transaction makes of them.
ghost use Rattle.std.specs.Prelude.{◌≡◌, ◌≢◌, ◌≤◌, ◌↔◌, map, take, length, Err, IfOk, IfErr, OnOk, OnErr, IsTrue};
ghost use Rattle.law_image.specs.Values.{IsValue};
ghost use Rattle.wire.specs.Values.{HasSizes};
ghost use Rattle.snapshot.specs.Txn.{at_snapshot, with_put, IsFullFor};
ghost use Rattle.shared.specs.Posted.{write_of, wrote, written, IsBarred, AreBarred, IsUncopied, AreUncopied};

use crate::change::Change;
use any_store::{Txn, TxnFault};
use history::{Key, KeyWrite};
use std::alloc::{AllocError, Global};
use wire::{Value, ValueFault};

/// The changes in memory of their own: a value, or none where the key is to be deleted.
pub(crate) fn copy_changes(
    alloc: Global,
    changes: &[Change<'_>],
) -> Result<Vec<KeyWrite<Value>>, TxnFault>
    ensures ok { IfOk result (λ writes. writes.items ≡ map write_of changes.now) }
    ensures err { IfErr result (AreUncopied (map write_of changes.now)) }
{
    let mut writes = Vec::new(alloc);
    for change in changes {
        let write = copy_change(alloc, change)?;
        if writes.push(write).is_err() {
            return Err(TxnFault::NoMemory);
        }
    }
    Ok(writes)
}

fn copy_change(alloc: Global, change: &Change<'_>) -> Result<KeyWrite<Value>, TxnFault>
    ensures ok { IfOk result (λ write. write ≡ write_of change.now) }
    ensures err { IfErr result (IsUncopied (write_of change.now)) }
{
    match *change {
        Change::Put { key, fields } => match Value::new(alloc, fields) {
            Ok(value) => Ok(KeyWrite {
                key,
                write: Some(value),
            }),
            Err(ValueFault::BadValue) => Err(TxnFault::BadValue),
            Err(ValueFault::NoMemory) => Err(TxnFault::NoMemory),
        },
        Change::Delete { key } => Ok(KeyWrite { key, write: None }),
    }
}

/// Whether these are the changes' copies.
pub(crate) fn are_copies(changes: &[Change<'_>], writes: &[KeyWrite<Value>]) -> bool
    ensures { IsTrue result → map write_of changes.now ≡ writes.now }
{
    let mut rest = changes;
    let mut left = writes;
    while let [change, after @ ..] = rest {
        let [write, others @ ..] = left else {
            return false;
        };
        if !is_copy(change, write) {
            return false;
        }
        rest = after;
        left = others;
    }
    left.is_empty()
}

fn is_copy(change: &Change<'_>, write: &KeyWrite<Value>) -> bool
    ensures { IsTrue result → write_of change.now ≡ write.now }
{
    match (*change, &write.write) {
        (Change::Put { key, fields }, Some(value)) => key == write.key && has_fields(value, fields),
        (Change::Delete { key }, None) => key == write.key,
        _ => false,
    }
}

fn are_same(a: &[u8], b: &[u8]) -> bool
    ensures { IsTrue result ↔ (a.now ≡ b.now) }
{
    a == b
}

// Whether the value has these fields and no others.
fn has_fields(value: &Value, fields: &[&[u8]]) -> bool
    ensures { IsTrue result → map (λ field. field.now) fields.now ≡ value.now }
{
    let mut left = value.iter();
    let mut rest = fields;
    while let [field, after @ ..] = rest {
        let Some(found) = left.take_field() else {
            return false;
        };
        if !are_same(found, field) {
            return false;
        }
        rest = after;
    }
    left.take_field().is_none()
}

/// Makes the changes in turn.
pub(crate) fn apply(
    alloc: Global,
    txn: &mut Txn,
    writes: &[KeyWrite<Value>],
) -> Result<(), TxnFault>
    ensures ok { OnOk result (txn.new.writes ≡ written (at_snapshot txn.old.state txn.old.snapshot) txn.old.writes writes.now) }
    ensures err { IfErr result (AreBarred (at_snapshot txn.old.state txn.old.snapshot) txn.old.writes writes.now) }
    ensures kept { txn.new ≡ record txn.old { writes = txn.new.writes } }
{
    for write in writes {
        make_change(alloc, txn, write)?;
    }
    Ok(())
}

// Makes one of them.
fn make_change(alloc: Global, txn: &mut Txn, write: &KeyWrite<Value>) -> Result<(), TxnFault>
    ensures ok { OnOk result
        (txn.new ≡ record txn.old { writes = wrote (at_snapshot txn.old.state txn.old.snapshot) txn.old.writes write.now.key write.now.write }) }
    ensures err { IfErr result (IsBarred (at_snapshot txn.old.state txn.old.snapshot) txn.old.writes write.now) }
    ensures kept { OnErr result (txn.new ≡ txn.old) }
{
    match &write.write {
        Some(value) => put(alloc, txn, write.key, value),
        None => txn.delete(write.key),
    }
}

fn put(alloc: Global, txn: &mut Txn, key: Key, value: &Value) -> Result<(), TxnFault>
    ensures ok { OnOk result (txn.new ≡ with_put txn.old key value.now) }
    ensures missing { result ≢ Err TxnFault.Missing }
    ensures too_many { (result ≡ Err TxnFault.TooManyKeys) ↔ IsFullFor txn.old.writes key }
    ensures bad { result ≡ Err TxnFault.BadValue → ¬ HasSizes value.now }
    ensures err { OnErr result (txn.new ≡ txn.old) }
{
    let _in_range = value.len();
    let mut parts: [&[u8]; 16] = [&[]; 16];
    let count = take_fields_of(value, &mut parts);
    txn.put(alloc, key, &parts[..count])
}

// Puts the fields of a value behind one another; how many there are.
fn take_fields_of<'a>(value: &'a Value, parts: &mut [&'a [u8]; 16]) -> usize
    requires { IsValue value.now }
    ensures few { result ≤ 16 }
    ensures room { length parts.new ≡ 16 }
    ensures are { map (λ part. part.now) (take result parts.new) ≡ value.now }
{
    let mut fields = value.iter();
    let mut count = 0;
    while let Some(field) = fields.take_field() {
        parts[count] = field;
        count += 1;
    }
    count
}
