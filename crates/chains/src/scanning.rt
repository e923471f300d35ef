//! What chains show of a relation.
ghost use Rattle.std.specs.Prelude.{◌≡◌, ◌++◌, IfOk, OnOk};
ghost use Rattle.std.specs.Option.{option_copied};
ghost use Rattle.chains.specs.Rows.{of_relation, shown_rows};
ghost use Rattle.chains.specs.Scans.{shown_value};
ghost use Rattle.chains.specs.Spots.{shown_of, shown_there};

use crate::chain::Chain;
use crate::rows::add_record;
use crate::shared_value::SharedValue;
use crate::spot::Spot;
use history::Version;
use std::alloc::{AllocError, Global};

/// Records of a relation with what each shows.
pub(crate) type Found<X> = Vec<(u64, X)>;

/// Appends to what was found a record with its value, if it has one.
#[inline]
fn add_value(
    found: &mut Found<SharedValue>,
    record: u64,
    value: Option<&SharedValue>,
) -> Result<(), AllocError>
    ensures { OnOk result (found.new.items ≡ found.old.items ++ shown_of «record» (option_copied value.entry)) }
{
    let Some(value) = value else {
        return Ok(());
    };
    match value.value().short_copy() {
        Some(short) => found.push((record, SharedValue::new(short)))?,
        None => found.push((record, value.share()?))?,
    }
    Ok(())
}

/// Appends to other places where the chain's value at a time lies, with its record.
fn add_spot<'a>(
    spots: &mut Vec<(u64, Spot<'a>)>,
    chain: &'a Chain,
    time: u64,
    near: &mut usize,
) -> Result<(), AllocError>
    ensures { OnOk result (shown_there spots.new.items ≡ shown_there spots.old.items ++ shown_value time chain.now) }
{
    spots.push((chain.key().record, chain.spot(time, near)))?;
    Ok(())
}

/// Where the values at a time lie of those of the chains' records that are of a relation.
fn spots_of(
    alloc: Global,
    chains: &[Chain],
    relation: u16,
    time: u64,
) -> Result<Vec<(u64, Spot<'_>)>, AllocError>
    ensures { IfOk result (λ spots. shown_there spots.items ≡ of_relation relation (shown_value time) chains.now) }
{
    let mut spots = Vec::with_capacity(alloc, chains.len())?;
    let mut near = 0;
    let mut rest = chains;
    while let [chain, behind @ ..] = rest {
        if chain.key().relation == relation {
            add_spot(&mut spots, chain, time, &mut near)?;
        }
        rest = behind;
    }
    Ok(spots)
}

/// How many of the places have something. It looks at each in turn, with nothing to be done between, so that a
/// processor fetches many at once; who then asks for the values has them near.
fn near_count(spots: &[(u64, Spot<'_>)]) -> usize {
    let mut count = 0usize;
    for (_, spot) in spots {
        if spot.is_near() {
            count = count.saturating_add(1);
        }
    }
    count
}

/// Appends to what was found each record with its value, if it has one.
fn add_values(found: &mut Found<SharedValue>, spots: &[(u64, Spot<'_>)]) -> Result<(), AllocError>
    ensures { OnOk result (found.new.items ≡ found.old.items ++ shown_there spots.now) }
{
    let mut rest = spots;
    while let [(record, spot), behind @ ..] = rest {
        add_value(found, *record, spot.value())?;
        rest = behind;
    }
    Ok(())
}

/// Whether one of the chains has older writes in more than a few places.
fn is_some_long(chains: &[Chain]) -> bool {
    for chain in chains {
        if chain.is_long() {
            return true;
        }
    }
    false
}

/// Appends to what was found the chain's record with each of its rows from `a` to `b`.
fn add_rows(
    alloc: Global,
    found: &mut Found<Version<SharedValue>>,
    chain: &Chain,
    a: u64,
    b: u64,
) -> Result<(), AllocError>
    ensures { OnOk result (found.new.items ≡ found.old.items ++ shown_rows a b chain.now) }
{
    add_record(found, chain.key().record, chain.rows(alloc, a, b)?)
}

/// Appends to what was found those of the chains' records that are of a relation and have a value at a
/// time, with their values. Where a value may lie far away, all are found first, and then fetched.
pub(crate) fn add_values_of_relation(
    alloc: Global,
    found: &mut Found<SharedValue>,
    chains: &[Chain],
    relation: u16,
    time: u64,
) -> Result<(), AllocError>
    ensures { OnOk result (found.new.items ≡ found.old.items ++ of_relation relation (shown_value time) chains.now) }
{
    if is_some_long(chains) {
        let spots = spots_of(alloc, chains, relation, time)?;
        found.reserve(near_count(spots.as_slice()))?;
        return add_values(found, spots.as_slice());
    }
    let mut rest = chains;
    while let [chain, behind @ ..] = rest {
        if chain.key().relation == relation {
            add_value(found, chain.key().record, chain.at(time))?;
        }
        rest = behind;
    }
    Ok(())
}

/// Appends to what was found the rows of those of the chains' records that are of a relation, from `a` to
/// `b`, each with its record.
pub(crate) fn add_rows_of_relation(
    alloc: Global,
    found: &mut Found<Version<SharedValue>>,
    chains: &[Chain],
    relation: u16,
    a: u64,
    b: u64,
) -> Result<(), AllocError>
    ensures { OnOk result (found.new.items ≡ found.old.items ++ of_relation relation (shown_rows a b) chains.now) }
{
    let mut rest = chains;
    while let [chain, behind @ ..] = rest {
        if chain.key().relation == relation {
            add_rows(alloc, found, chain, a, b)?;
        }
        rest = behind;
    }
    Ok(())
}
