//! Records as the writes that they store.

ghost use Rattle.std.specs.Prelude.{◌≡◌, ◌↔◌, IfOk, IsSome, MatchOption, map};
ghost use Rattle.std.specs.Option.{option_copied};
ghost use Rattle.std.specs.List.{AllByRecursion};
ghost use Rattle.deltas.specs.Records.{heap_record};
ghost use Rattle.deltas.specs.Chains.{IsPermitted};
ghost use Rattle.deltas.specs.declared.chain.Kinds.TheVariants.{OfCommit};
ghost use Rattle.law_image.specs.Facts.{IsStored, write_of};
ghost use Rattle.recovery.specs.Resolving.{before_of};

use chains::{Frozen, SharedValue};
use deltas::{Record, apply_owned};
use history::{ENDLESS, Key, KeyWrite};
use std::alloc::{AllocError, Global};
use wire::Value;

// The value that a key has after all of its writes.
fn value_before(chains: &Frozen, key: Key) -> Option<&Value>
    ensures is { option_copied result ≡ before_of chains.now key }
    ensures some { IsSome result ↔ IsSome (before_of chains.now key) }
{
    match chains.at(key, ENDLESS) {
        None => None,
        Some(shared) => Some(shared.value()),
    }
}

fn shared(write: Option<Value>) -> Option<SharedValue>
    ensures { result ≡ write }
{
    match write {
        None => None,
        Some(value) => Some(SharedValue::new(value)),
    }
}

// The write that a record stands for, over the value before it. None where the record is not the one that its write is stored as.
fn resolve_one(
    alloc: Global,
    chains: &Frozen,
    entry: Record,
) -> Result<Option<KeyWrite<SharedValue>>, AllocError>
    requires { IsPermitted OfCommit entry.content }
    ensures { IfOk result (λ o. MatchOption o (¬ IsStored (before_of chains.now) (heap_record entry))
        (λ w. IsStored (before_of chains.now) (heap_record entry) × (w ≡ write_of (before_of chains.now) (heap_record entry)))) }
{
    let Record { key, content } = entry;
    let Some(write) = apply_owned(alloc, value_before(chains, key), content)? else {
        return Ok(None);
    };
    Ok(Some(KeyWrite {
        key,
        write: shared(write),
    }))
}

/// The writes that the records of a commit store, over the values before them. None where one of them is not the record that its write is stored as.
pub fn resolve(
    alloc: Global,
    chains: &Frozen,
    records: Vec<Record>,
) -> Result<Option<Vec<KeyWrite<SharedValue>>>, AllocError>
    requires { AllByRecursion (λ r. IsPermitted OfCommit r.content) records.items }
    ensures { IfOk result (λ o. MatchOption o (¬ AllByRecursion (IsStored (before_of chains.now)) (map heap_record records.items))
        (λ writes. AllByRecursion (IsStored (before_of chains.now)) (map heap_record records.items)
        × (writes.items ≡ map (write_of (before_of chains.now)) (map heap_record records.items)))) }
{
    let mut writes = Vec::with_capacity(alloc, records.len())?;
    for entry in records {
        let Some(write) = resolve_one(alloc, chains, entry)? else {
            return Ok(None);
        };
        writes.push(write)?;
    }
    Ok(Some(writes))
}
