//! The rows of an interval among one key's writes.
ghost use Rattle.std.specs.Prelude.{◌≡◌, ◌≤◌, ◌++◌, ℕ, OnOk, length, map, option_map, option_to_list};
ghost use Rattle.history.specs.Versions as spans;
ghost use Rattle.chains.specs.Rows as specs;

use crate::shared_value::SharedValue;
use crate::stamped::StampedWrite;
use crate::write::first_time_or;
use history::Version;
use std::alloc::AllocError;

/// Rows, each a part of a version: the value, and from which time on and up to which it is valid.
pub(crate) type Rows = Vec<Version<SharedValue>>;

/// 1 where the write has a value, at which it looks at the beginning and where its second field begins,
/// and else 0.
pub(crate) fn one_if_near(write: &StampedWrite) -> usize
    ensures is { (from to : ℕ) → result ≡ length (spans.version_of from to write.now.write) }
    ensures most { result ≤ 1 }
{
    let Some(shared) = write.value() else {
        return 0;
    };
    let value = shared.value();
    let second = match value.field(1) {
        None => 0,
        Some(field) => field.len(),
    };
    (value.len() as usize).max(second).min(1)
}

/// How many of these writes have a value. It looks at each value in turn, at two places that lie apart, with
/// nothing to be done between, so that a processor fetches many at once; who then goes over their rows
/// has them near.
pub(crate) fn near_count(writes: &[StampedWrite]) -> usize
    ensures is { (end : ℕ) → result ≡ length (specs.versions_upto end writes.now) }
{
    let mut count = 0;
    let mut rest = writes;
    while let [first, after @ ..] = rest {
        count += one_if_near(first);
        rest = after;
    }
    count
}

/// Whether there are some, and all of them were made from `from` on and before `upto`.
pub(crate) fn are_between(writes: &[StampedWrite], from: u64, upto: u64) -> bool {
    if let Some(first) = writes.first()
        && let Some(last) = writes.last()
    {
        from <= first.time() && last.time() < upto
    } else {
        false
    }
}

/// The part from `a` to `b` of a version that ends at `to`, if there is one.
pub(crate) fn row_of(write: &StampedWrite, to: u64, a: u64, b: u64) -> Option<Version<&SharedValue>>
    ensures { option_to_list (option_map specs.version_of_loan result) ≡ spans.rows (spans.version_of write.now.time to write.now.write) a b }
{
    let Some(value) = write.value() else {
        return None;
    };
    let from = write.time().max(a);
    let to = to.min(b);
    if to <= from {
        return None;
    }
    Some(Version { from, to, value })
}

/// Appends to the rows the part from `a` to `b` of a version that ends at `to`, if there is one.
fn add_row(rows: &mut Rows, write: &StampedWrite, to: u64, a: u64, b: u64) -> Result<(), AllocError>
    ensures { OnOk result (rows.new.items ≡ rows.old.items ++ spans.rows (spans.version_of write.now.time to write.now.write) a b) }
{
    let Some(row) = row_of(write, to, a, b) else {
        return Ok(());
    };
    let Version { from, to, value } = row;
    match value.value().short_copy() {
        Some(short) => {
            let value = SharedValue::new(short);
            rows.push(Version { from, to, value })?;
        }
        None => {
            let value = value.share()?;
            rows.push(Version { from, to, value })?;
        }
    }
    Ok(())
}

/// Puts the rows of one record after those of the records before it.
pub(crate) fn add_record(
    found: &mut Vec<(u64, Version<SharedValue>)>,
    record: u64,
    rows: Rows,
) -> Result<(), AllocError>
    ensures { OnOk result (found.new.items ≡ found.old.items ++ map (λ row. («record», row)) rows.items) }
{
    for row in rows {
        found.push((record, row))?;
    }
    Ok(())
}

/// Appends to the rows those of the versions of these writes, of which the last ends at `end`.
fn add_rows_of(
    rows: &mut Rows,
    writes: &[StampedWrite],
    end: u64,
    a: u64,
    b: u64,
) -> Result<(), AllocError>
    ensures { OnOk result (rows.new.items ≡ rows.old.items ++ spans.rows (specs.versions_upto end writes.now) a b) }
{
    let [first, rest @ ..] = writes else {
        return Ok(());
    };
    add_row(rows, first, first_time_or(rest, end), a, b)?;
    add_rows_of(rows, rest, end, a, b)
}

/// The same; where all of them were made in the interval, there is room made for all of their rows first.
pub(crate) fn add_rows_in(
    rows: &mut Rows,
    writes: &[StampedWrite],
    end: u64,
    a: u64,
    b: u64,
) -> Result<(), AllocError>
    ensures { OnOk result (rows.new.items ≡ rows.old.items ++ spans.rows (specs.versions_upto end writes.now) a b) }
{
    if are_between(writes, a, b) {
        rows.reserve(near_count(writes))?;
    }
    add_rows_of(rows, writes, end, a, b)
}
