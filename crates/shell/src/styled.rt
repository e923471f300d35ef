//! The answers to questions, in a style.
ghost use Rattle.std.specs.Prelude.{◌≡◌, IfOk, OnOk, Some, length, max, option_map};
ghost use Rattle.std.specs.List.{flat_map};
ghost use Rattle.std.specs.Io.KnownBytes.{Appends};
ghost use Rattle.forms.specs.Lines.{IsTimesText, found_text};
ghost use Rattle.session.specs.Texts.{Text};
ghost use Rattle.shell.specs.Dump.{Each};
ghost use Rattle.shell.specs.Styled.{IsRowLine, IsRowsText, pair_text, record_width, records_text, row_width};

use forms::{
    Form, Style, spell_count, spell_found, spell_record, spell_record_head, spell_row,
    spell_row_head, spell_times,
};
use history::Version;
use std::alloc::{AllocError, Global};
use store::SharedValue;
use wire::Value;

/// The value that was found.
fn value_of(found: &Option<SharedValue>) -> Option<&Value>
    ensures { option_map (λ v. v.now) result ≡ found.now }
{
    match found {
        Some(value) => Some(value.value()),
        None => None,
    }
}

/// The line of a value or none.
pub fn found_lines(
    alloc: Global,
    form: Form,
    found: &Option<SharedValue>,
) -> Result<Vec<u8>, AllocError>
    ensures { IfOk result (λ text. text.items ≡ found_text form found.now) }
{
    let mut text = Vec::new(alloc);
    spell_found(alloc, &mut text, form, value_of(found))?;
    Ok(text)
}

/// The columns of fields that a table needs, where so many are needed without this value.
fn wider(width: u8, value: &Value) -> u8
    ensures { result ≡ max width (length value.now) }
{
    width.max(value.len())
}

/// The most fields that a value of these has.
fn record_width(found: &[(u64, SharedValue)]) -> u8
    ensures { result ≡ record_width found.now }
{
    let mut width = 0;
    for pair in found {
        width = wider(width, pair.1.value());
    }
    width
}

/// Spells the line of a record and its value.
fn spell_pair(
    alloc: Global,
    text: &mut Vec<u8>,
    form: Form,
    width: u8,
    found: &(u64, SharedValue),
) -> Result<(), AllocError>
    ensures { OnOk result (Appends (Some text.old.items) (Some text.new.items) (pair_text form width found.now)) }
{
    spell_record(alloc, text, form, width, found.0, found.1.value())
}

fn spell_pairs(
    alloc: Global,
    text: &mut Vec<u8>,
    form: Form,
    width: u8,
    found: &[(u64, SharedValue)],
) -> Result<(), AllocError>
    ensures { OnOk result (Appends (Some text.old.items) (Some text.new.items) (flat_map (pair_text form width) found.now)) }
{
    for pair in found {
        spell_pair(alloc, text, form, width, pair)?;
    }
    Ok(())
}

/// A line for each record, below the names of the columns where the form has them, and then how many
/// they are.
pub fn record_lines(
    alloc: Global,
    form: Form,
    found: &[(u64, SharedValue)],
) -> Result<Vec<u8>, AllocError>
    ensures { IfOk result (λ text. text.items ≡ records_text form found.now) }
{
    let width = record_width(found);
    let mut text = Vec::new(alloc);
    spell_record_head(alloc, &mut text, form, width)?;
    spell_pairs(alloc, &mut text, form, width, found)?;
    spell_count(&mut text, form, found.len())?;
    Ok(text)
}

/// The most fields that a value of these has.
fn row_width(rows: &[Version<SharedValue>]) -> u8
    ensures { result ≡ row_width rows.now }
{
    let mut width = 0;
    for row in rows {
        width = wider(width, row.value.value());
    }
    width
}

/// Spells the line of a row.
fn spell_version(
    alloc: Global,
    text: &mut Vec<u8>,
    style: Style,
    width: u8,
    row: &Version<SharedValue>,
) -> Result<(), AllocError>
    ensures { OnOk result ((line : Text) × IsRowLine style width row.now line × Appends (Some text.old.items) (Some text.new.items) line) }
{
    let value = row.value.value();
    spell_row(alloc, text, style, width, row.from, row.to, value)
}

fn spell_versions(
    alloc: Global,
    text: &mut Vec<u8>,
    style: Style,
    width: u8,
    rows: &[Version<SharedValue>],
) -> Result<(), AllocError>
    ensures { OnOk result ((lines : Text) × Each (IsRowLine style width) rows.now lines × Appends (Some text.old.items) (Some text.new.items) lines) }
{
    for row in rows {
        spell_version(alloc, text, style, width, row)?;
    }
    Ok(())
}

/// A line for each row, below the names of the columns where the form has them, and then how many they
/// are.
pub fn row_lines(
    alloc: Global,
    style: Style,
    rows: &[Version<SharedValue>],
) -> Result<Vec<u8>, AllocError>
    ensures { IfOk result (λ text. IsRowsText style rows.now text.items) }
{
    let width = row_width(rows);
    let mut text = Vec::new(alloc);
    spell_row_head(alloc, &mut text, style.form, width)?;
    spell_versions(alloc, &mut text, style, width, rows)?;
    spell_count(&mut text, style.form, rows.len())?;
    Ok(text)
}

/// The times of the commits with a label.
pub fn time_lines(alloc: Global, style: Style, times: &[u64]) -> Result<Vec<u8>, AllocError>
    ensures { IfOk result (λ text. IsTimesText style times.now text.items) }
{
    let mut text = Vec::new(alloc);
    spell_times(alloc, &mut text, style, times)?;
    Ok(text)
}
