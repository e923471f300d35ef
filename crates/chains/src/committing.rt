//! The chains of some keys with the writes of a commit.
ghost use Rattle.std.specs.Prelude.{◌≡◌, ◌<◌, ◌^◌, ◌++◌, [], IfOk, OnOk, map};
ghost use Rattle.std.specs.List.Sorted.{IsStrictlySortedBy};
ghost use Rattle.std.specs.Option.{option_copied};
ghost use Rattle.history.specs.Key.{key_cmp};
ghost use Rattle.chains.specs.Committing as specs;
ghost use Rattle.chains.specs.KeyWrites.{with_commit, latest, IsOrdered};
ghost use Rattle.chains.specs.Stamps.{write_of_loan};
ghost use Rattle.chains.specs.Writes.{last_time};

use crate::chain::Chain;
use crate::share::Share;
use crate::shared_value::SharedValue;
use history::{Key, KeyWrite, TimedWrite};
use std::alloc::{AllocError, Global};

/// The writes of keys before this one, and the others.
pub(crate) fn parted(
    writes: &[KeyWrite<SharedValue>],
    key: Key,
) -> (&[KeyWrite<SharedValue>], &[KeyWrite<SharedValue>])
    requires { IsStrictlySortedBy key_cmp (map (λ w. w.key) writes.now) }
    ensures { specs.IsParted key writes.now result.0.now result.1.now }
{
    let count = writes.partition_point(|w| w.key.is_before(key));
    writes.split_at(count)
}

/// The write of this key, if there is one, and the writes of later keys.
fn own_write(
    writes: &[KeyWrite<SharedValue>],
    key: Key,
) -> (Option<&KeyWrite<SharedValue>>, &[KeyWrite<SharedValue>])
    requires rising { IsStrictlySortedBy key_cmp (map (λ w. w.key) writes.now) }
    requires from { specs.BeginFrom key writes.now }
    ensures { specs.HasOwn key writes.now (option_copied result.0) result.1.now }
{
    let Some((first, after)) = writes.split_first() else {
        return (None, writes);
    };
    if key.is_before(first.key) {
        return (None, writes);
    }
    (Some(first), after)
}

/// The write of a commit at its time, with its value in a loan.
fn timed(time: u64, write: &KeyWrite<SharedValue>) -> TimedWrite<&SharedValue>
    ensures { write_of_loan result ≡ record { time = time; write = write.now.write } }
{
    TimedWrite {
        time,
        write: write.write.as_ref(),
    }
}

/// The chain with what the commit writes of its key, if it does.
fn with_own(
    alloc: Global,
    time: u64,
    chain: &Chain,
    own: Option<&KeyWrite<SharedValue>>,
) -> Result<Chain, AllocError>
    requires later { last_time chain.now.writes < time }
    requires in_range { time < 2 ^ 63 }
    ensures { IfOk result (λ c. c ≡ specs.with_own time chain.now (option_copied own.entry)) }
{
    match own {
        None => chain.share(),
        Some(write) => chain.with_write(alloc, timed(time, write)),
    }
}

/// The same of a chain that is given away.
fn into_with_own(
    alloc: Global,
    time: u64,
    chain: Chain,
    own: Option<&KeyWrite<SharedValue>>,
) -> Result<Chain, AllocError>
    requires later { last_time chain.writes < time }
    requires in_range { time < 2 ^ 63 }
    ensures { IfOk result (λ c. c ≡ specs.with_own time chain (option_copied own.entry)) }
{
    match own {
        None => Ok(chain),
        Some(write) => chain.into_with_write(alloc, timed(time, write)),
    }
}

/// Appends to others the chains of a commit's writes alone.
pub(crate) fn add_new(
    alloc: Global,
    found: &mut Vec<Chain>,
    time: u64,
    writes: &[KeyWrite<SharedValue>],
) -> Result<(), AllocError>
    requires rising { IsStrictlySortedBy key_cmp (map (λ w. w.key) writes.now) }
    requires positive { 0 < time }
    requires in_range { time < 2 ^ 63 }
    ensures { OnOk result (found.new.items ≡ found.old.items ++ with_commit [] time writes.now) }
{
    let (before, rest) = writes.split_at(writes.len() / 2);
    let Some((write, after)) = rest.split_first() else {
        return Ok(());
    };
    add_new(alloc, found, time, before)?;
    found.push(Chain::new(alloc, write.key, timed(time, write))?)?;
    add_new(alloc, found, time, after)
}

/// Appends to others the chains with the writes of a commit, each shared: in one walk in the order of the
/// keys, found by halving.
pub(crate) fn add_with_writes(
    alloc: Global,
    found: &mut Vec<Chain>,
    time: u64,
    chains: &[Chain],
    writes: &[KeyWrite<SharedValue>],
) -> Result<(), AllocError>
    requires ordered { IsOrdered chains.now }
    requires rising { IsStrictlySortedBy key_cmp (map (λ w. w.key) writes.now) }
    requires later { latest chains.now < time }
    requires in_range { time < 2 ^ 63 }
    ensures { OnOk result (found.new.items ≡ found.old.items ++ with_commit chains.now time writes.now) }
{
    let (left, right) = chains.split_at(chains.len() / 2);
    let Some((chain, behind)) = right.split_first() else {
        return add_new(alloc, found, time, writes);
    };
    let key = chain.key();
    let (before, rest) = parted(writes, key);
    let (own, after) = own_write(rest, key);
    add_with_writes(alloc, found, time, left, before)?;
    found.push(with_own(alloc, time, chain, own)?)?;
    add_with_writes(alloc, found, time, behind, after)
}

/// The same of chains that are given away: each is changed in its place in memory.
pub(crate) fn into_with_writes(
    alloc: Global,
    time: u64,
    chains: Vec<Chain>,
    writes: &[KeyWrite<SharedValue>],
) -> Result<Vec<Chain>, AllocError>
    requires ordered { IsOrdered chains.items }
    requires rising { IsStrictlySortedBy key_cmp (map (λ w. w.key) writes.now) }
    requires later { latest chains.items < time }
    requires in_range { time < 2 ^ 63 }
    ensures { IfOk result (λ cs. cs.items ≡ with_commit chains.items time writes.now) }
{
    let room = chains.len().saturating_add(writes.len());
    let mut found = Vec::with_capacity(alloc, room)?;
    let mut left = writes;
    for chain in chains {
        let key = chain.key();
        let (before, rest) = parted(left, key);
        let (own, after) = own_write(rest, key);
        add_new(alloc, &mut found, time, before)?;
        let written = into_with_own(alloc, time, chain, own)?;
        found.push(written)?;
        left = after;
    }
    add_new(alloc, &mut found, time, left)?;
    Ok(found)
}
