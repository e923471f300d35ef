//! Rows of both homes, put together.
ghost use Rattle.std.specs.Prelude.{◌≡◌, ◌++◌, ◌<◌, ◌∷◌, [], IfOk, OnOk, MatchOption, map, option_to_list};
ghost use Rattle.timequery.specs.Homes as specs;

use chains::SharedValue;
use history::Version;
use std::alloc::{AllocError, Global};
use std::collections::VecDeque;
use wire::Value;

/// A record with a row of it.
pub(crate) type ScanRow = (u64, Version<SharedValue>);

// A row of the archive, whose value can be shared.
fn shared_row(row: Version<Value>) -> Version<SharedValue>
    ensures { result ≡ row }
{
    Version {
        from: row.from,
        to: row.to,
        value: SharedValue::new(row.value),
    }
}

/// Rows of the archive, whose values can be shared.
pub(crate) fn shared_rows(
    alloc: Global,
    rows: Vec<Version<Value>>,
) -> Result<Vec<Version<SharedValue>>, AllocError>
    ensures { IfOk result (λ shared. shared.items ≡ rows.items) }
{
    let mut shared = Vec::new(alloc);
    for row in rows {
        shared.push(shared_row(row))?;
    }
    Ok(shared)
}

// The part from `a` to `b` of a row whose version ends after the mark, if it has one.
fn part_after(row: Version<SharedValue>, mark: u64, a: u64, b: u64) -> Option<Version<SharedValue>>
    ensures { option_to_list result ≡ specs.rows_after mark a b (row ∷ []) }
{
    let Version { from, to, value } = row;
    if to <= mark {
        return None;
    }
    let from = from.max(a);
    let to = to.min(b);
    if to <= from {
        return None;
    }
    Some(Version { from, to, value })
}

/// Appends to the rows the parts from `a` to `b` of those whose versions end after the mark.
pub(crate) fn add_rows_after(
    found: &mut Vec<Version<SharedValue>>,
    rows: Vec<Version<SharedValue>>,
    mark: u64,
    a: u64,
    b: u64,
) -> Result<(), AllocError>
    ensures { OnOk result (found.new.items ≡ found.old.items ++ specs.rows_after mark a b rows.items) }
{
    for row in rows {
        if let Some(part) = part_after(row, mark, a, b) {
            found.push(part)?;
        }
    }
    Ok(())
}

/// The parts from `a` to `b` of the rows whose versions end after the mark, each with its record.
pub(crate) fn scan_rows_after(
    alloc: Global,
    rows: Vec<ScanRow>,
    mark: u64,
    a: u64,
    b: u64,
) -> Result<VecDeque<ScanRow>, AllocError>
    ensures { IfOk result (λ found. found.items ≡ specs.scanned_after mark a b rows.items) }
{
    let mut found = VecDeque::new(alloc);
    for (number, row) in rows {
        if let Some(part) = part_after(row, mark, a, b) {
            found.push_back((number, part))?;
        }
    }
    Ok(found)
}

// Takes the first of the rows, if its record is lesser.
fn pop_lesser(rows: &mut VecDeque<ScanRow>, number: u64) -> Option<ScanRow>
    ensures { MatchOption result ((specs.lesser number rows.old.items ≡ []) × (specs.not_lesser number rows.old.items ≡ rows.old.items)
        × (rows.new.items ≡ rows.old.items)) (λ row. (row.0 < number) × (rows.old.items ≡ row ∷ rows.new.items)) }
{
    let Some(row) = rows.front() else {
        return None;
    };
    if number <= row.0 {
        return None;
    }
    rows.pop_front()
}

// Puts behind the rows those at the front of others whose records are lesser.
fn add_lesser(
    found: &mut Vec<ScanRow>,
    rows: &mut VecDeque<ScanRow>,
    number: u64,
) -> Result<(), AllocError>
    ensures found { OnOk result (found.new.items ≡ found.old.items ++ specs.lesser number rows.old.items) }
    ensures rest { OnOk result (rows.new.items ≡ specs.not_lesser number rows.old.items) }
{
    while let Some(row) = pop_lesser(rows, number) {
        found.push(row)?;
    }
    Ok(())
}

// Puts others behind the rows.
fn add_all(found: &mut Vec<ScanRow>, rows: VecDeque<ScanRow>) -> Result<(), AllocError>
    ensures { OnOk result (found.new.items ≡ found.old.items ++ rows.items) }
{
    let mut rows = rows;
    while let Some(row) = rows.pop_front() {
        found.push(row)?;
    }
    Ok(())
}

/// The rows of the archive and those of memory as one list by record, where those of memory come after
/// those of the archive of the same record. Both are by record.
pub(crate) fn merged(
    alloc: Global,
    archived: Vec<(u64, Version<Value>)>,
    recent: VecDeque<ScanRow>,
) -> Result<Vec<ScanRow>, AllocError>
    ensures { IfOk result (λ found. found.items ≡ specs.merged archived.items recent.items) }
{
    let mut found = Vec::new(alloc);
    let mut recent = recent;
    for (number, row) in archived {
        add_lesser(&mut found, &mut recent, number)?;
        found.push((number, shared_row(row)))?;
    }
    add_all(&mut found, recent)?;
    Ok(found)
}

/// The values of rows, each with its record.
pub(crate) fn values_of(
    alloc: Global,
    rows: Vec<ScanRow>,
) -> Result<Vec<(u64, SharedValue)>, AllocError>
    ensures { IfOk result (λ found. found.items ≡ specs.values_of rows.items) }
{
    let mut found = Vec::new(alloc);
    for (number, row) in rows {
        found.push((number, row.value))?;
    }
    Ok(found)
}
