//! Values as bytes: how many fields, and then each as its length and its bytes.
ghost use Rattle.std.specs.Prelude.{◌≡◌, ◌≤◌, nat_le, map, take, length, is_some, IsTrue, IfOk, IfSome, MatchOption};
ghost use Rattle.wire.specs.Values.{IsValue, value_bytes};
ghost use Rattle.c_engine.specs.Writes.{SpellsValue, Puts};

use any_store::{Txn, TxnFault};
use history::Key;
use std::alloc::{AllocError, Global};
use wire::{Value, take_fields};

/// Copies a value to the beginning; none where there is no room.
pub fn copy_out(value: &Value, out: &mut [u8]) -> Option<usize>
    ensures copied { IfSome result (λ len. (len ≡ length (value_bytes value.now)) × (take len out.new ≡ value_bytes value.now)) }
    ensures room { is_some result ≡ nat_le (length (value_bytes value.now)) (length out.old) }
{
    let spelled = value.fields().spelled();
    let len = spelled.len() + 1;
    if out.len() < len {
        return None;
    }
    out[0] = value.len();
    out[1..len].copy_from_slice(spelled);
    Some(len)
}

/// Copies bytes to the beginning, where there is room; else nothing.
pub fn copy_bytes(bytes: &[u8], out: &mut [u8]) -> bool
    ensures room { result ≡ nat_le (length bytes.now) (length out.old) }
    ensures copied { IsTrue result → take (length bytes.now) out.new ≡ bytes.now }
{
    if out.len() < bytes.len() {
        return false;
    }
    out[..bytes.len()].copy_from_slice(bytes);
    true
}

/// How many bytes a value takes.
pub fn length_of(value: &Value) -> usize
    ensures { result ≡ length (value_bytes value.now) }
{
    value.fields().spelled().len() + 1
}

// Puts the fields of a value behind one another; how many there are.
fn take_fields_of<'a>(value: &'a Value, parts: &mut [&'a [u8]; 16]) -> usize
    requires { IsValue value.now }
    ensures few { result ≤ 16 }
    ensures room { length parts.new ≡ 16 }
    ensures are { map (λ part. part.now) (take result parts.new) ≡ value.now }
{
    let mut fields = value.iter();
    let mut count = 0;
    while let Some(field) = fields.take_field() {
        parts[count] = field;
        count += 1;
    }
    count
}

// The value of these bytes; none where they are not those of one.
fn read_value(alloc: Global, bytes: &[u8]) -> Result<Option<Value>, AllocError>
    ensures { IfOk result (λ found. MatchOption found (¬ SpellsValue bytes.now) (λ value. IsValue value × (bytes.now ≡ value_bytes value))) }
{
    match take_fields(alloc, bytes)? {
        None => Ok(None),
        Some((value, rest)) => {
            if rest.is_empty() {
                return Ok(Some(value));
            }
            Ok(None)
        }
    }
}

// Writes a value.
fn put_value(txn: &mut Txn, alloc: Global, key: Key, value: &Value) -> Result<(), TxnFault>
    requires { IsValue value.now }
    ensures { Puts key (value_bytes value.now) txn.old result txn.new }
{
    let mut parts: [&[u8]; 16] = [&[]; 16];
    let count = take_fields_of(value, &mut parts);
    txn.put(alloc, key, &parts[..count])
}

/// Writes the value of these bytes.
pub fn put(txn: &mut Txn, alloc: Global, key: Key, value: &[u8]) -> Result<(), TxnFault>
    ensures { Puts key value.now txn.old result txn.new }
{
    match read_value(alloc, value) {
        Err(_) => Err(TxnFault::NoMemory),
        Ok(None) => Err(TxnFault::BadValue),
        Ok(Some(value)) => put_value(txn, alloc, key, &value),
    }
}
