//! What a transaction sees of a relation.
ghost use Rattle.std.specs.Prelude.{◌≡◌, ◌++◌, IfOk, OnOk};
ghost use Rattle.snapshot.specs.Scans.{lesser, from_record, without_first, overlaid, pair_of};

use chains::SharedValue;
use history::KeyWrite;
use std::alloc::{AllocError, Global};

// Shares those with lesser records at the front, and gives what follows them.
fn push_lesser<'a>(
    found: &mut Vec<(u64, SharedValue)>,
    record: u64,
    pairs: &'a [(u64, SharedValue)],
) -> Result<&'a [(u64, SharedValue)], AllocError>
    ensures { IfOk result (λ rest. (found.new.items ≡ found.old.items ++ lesser «record» pairs.now) × (rest.now ≡ from_record «record» pairs.now)) }
{
    let mut rest = pairs;
    while let [pair, after @ ..] = rest {
        if pair.0 >= record {
            return Ok(rest);
        }
        found.push((pair.0, pair.1.share()?))?;
        rest = after;
    }
    Ok(rest)
}

// Shares them all.
fn push_all(
    found: &mut Vec<(u64, SharedValue)>,
    pairs: &[(u64, SharedValue)],
) -> Result<(), AllocError>
    ensures { OnOk result (found.new.items ≡ found.old.items ++ pairs.now) }
{
    let mut rest = pairs;
    while let [pair, after @ ..] = rest {
        found.push((pair.0, pair.1.share()?))?;
        rest = after;
    }
    Ok(())
}

fn skip_record(record: u64, pairs: &[(u64, SharedValue)]) -> &[(u64, SharedValue)]
    ensures { result.now ≡ without_first «record» pairs.now }
{
    match pairs {
        [pair, after @ ..] if pair.0 == record => after,
        _ => pairs,
    }
}

fn push_write(
    found: &mut Vec<(u64, SharedValue)>,
    write: &KeyWrite<SharedValue>,
) -> Result<(), AllocError>
    ensures { OnOk result (found.new.items ≡ found.old.items ++ pair_of write.now) }
{
    if let Some(value) = &write.write {
        found.push((write.key.record, value.share()?))?;
    }
    Ok(())
}

/// The pairs of a relation, rising, with these writes over them.
pub fn overlay(
    alloc: Global,
    relation: u16,
    pairs: &[(u64, SharedValue)],
    writes: &[KeyWrite<SharedValue>],
) -> Result<Vec<(u64, SharedValue)>, AllocError>
    ensures { IfOk result (λ found. found.items ≡ overlaid relation pairs.now writes.now) }
{
    let mut found = Vec::new(alloc);
    let mut rest = pairs;
    let mut left = writes;
    while let [write, after @ ..] = left {
        if write.key.relation == relation {
            rest = push_lesser(&mut found, write.key.record, rest)?;
            rest = skip_record(write.key.record, rest);
            push_write(&mut found, write)?;
        }
        left = after;
    }
    push_all(&mut found, rest)?;
    Ok(found)
}
