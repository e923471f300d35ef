//! Rows of CSV.
ghost use Rattle.std.specs.Prelude.{◌≡◌, ◌+◌, OnOk, Some, option_map, ◌∷◌, [], codes, replicate};
ghost use Rattle.std.specs.Fmt.{decimal};
ghost use Rattle.std.specs.Io.KnownBytes.{Appends};
ghost use Rattle.csv.specs.Records.{fields_of, partial_of};
ghost use Rattle.forms.specs.Csv as told;
ghost use Rattle.forms.specs.Csv.{Gains};
ghost use Rattle.forms.specs.Shown.{moment_of};
ghost use Rattle.forms.specs.Times.{time_text};

use crate::moment::Shown;
use crate::text_field::{is_cell_text, spell_hex};
use csv::{ByteRecord, Terminator, WriterBuilder};
use std::alloc::{AllocError, Global};
use std::mem;
use wire::Value;

/// Spells the cells as a row. A cell is in quotes where it has a comma, a quote or an end of a line.
fn spell_cells(alloc: Global, text: &mut Vec<u8>, cells: &ByteRecord) -> Result<(), AllocError>
    ensures { OnOk result (Appends (Some text.old.items) (Some text.new.items) (told.csv_line (fields_of cells.now))) }
{
    let before = mem::replace(text, Vec::new(alloc));
    let mut writer = WriterBuilder::new()
        .terminator(Terminator::CRLF)
        .from_writer(before);
    if writer.write_byte_record(cells).is_err() {
        return Err(AllocError);
    }
    match writer.into_inner() {
        Ok(after) => {
            *text = after;
            Ok(())
        }
        Err(_) => Err(AllocError),
    }
}

/// Adds a cell.
fn push_cell(cells: &mut ByteRecord, cell: &[u8]) -> Result<(), AllocError>
    requires { partial_of cells.old ≡ [] }
    ensures { OnOk result (Gains cells.old cells.new (cell.now ∷ [])) }
{
    match cells.push_field(cell) {
        Ok(()) => Ok(()),
        Err(_) => Err(AllocError),
    }
}

/// Adds a number.
fn push_number(cells: &mut ByteRecord, number: u64) -> Result<(), AllocError>
    requires { partial_of cells.old ≡ [] }
    ensures { OnOk result (Gains cells.old cells.new (decimal number ∷ [])) }
{
    push_cell(cells, itoa::Buffer::new().format(number).as_bytes())
}

/// Adds a time.
fn push_time(cells: &mut ByteRecord, time: Shown<'_>) -> Result<(), AllocError>
    requires { partial_of cells.old ≡ [] }
    ensures { OnOk result (Gains cells.old cells.new (time_text (moment_of time.entry) ∷ [])) }
{
    match time.instant {
        Some(instant) => push_cell(cells, instant.as_bytes()),
        None => push_number(cells, time.time),
    }
}

/// Adds a field, as it is where it is a text that is shown, else as `\x` and its bytes in hexadecimal.
fn push_field(alloc: Global, cells: &mut ByteRecord, field: &[u8]) -> Result<(), AllocError>
    requires { partial_of cells.old ≡ [] }
    ensures { OnOk result (Gains cells.old cells.new (told.cell field.now ∷ [])) }
{
    if is_cell_text(field) {
        return push_cell(cells, field);
    }
    let mut text = Vec::new(alloc);
    text.extend_from_slice(b"\\x")?;
    spell_hex(alloc, &mut text, field)?;
    push_cell(cells, text.as_slice())
}

/// Adds the fields of a value.
fn push_fields(alloc: Global, cells: &mut ByteRecord, value: &Value) -> Result<(), AllocError>
    requires { partial_of cells.old ≡ [] }
    ensures { OnOk result (Gains cells.old cells.new (told.field_cells value.now)) }
{
    let mut left = value.iter();
    while let Some(field) = left.take_field() {
        push_field(alloc, cells, field)?;
    }
    Ok(())
}

/// Adds so many empty cells.
fn push_blanks(cells: &mut ByteRecord, count: u8) -> Result<(), AllocError>
    requires { partial_of cells.old ≡ [] }
    ensures { OnOk result (Gains cells.old cells.new (replicate count [])) }
{
    for _ in 0..count {
        push_cell(cells, b"")?;
    }
    Ok(())
}

/// Adds a value in a table of so many columns of fields.
fn push_value(
    alloc: Global,
    cells: &mut ByteRecord,
    width: u8,
    value: &Value,
) -> Result<(), AllocError>
    requires { partial_of cells.old ≡ [] }
    ensures { OnOk result (Gains cells.old cells.new (told.value_cells width value.now)) }
{
    let count = value.len();
    push_number(cells, u64::from(count))?;
    push_fields(alloc, cells, value)?;
    push_blanks(cells, width.saturating_sub(count))
}

/// Adds the name of the column of a field, of which the first is 1.
fn push_name(alloc: Global, cells: &mut ByteRecord, number: u64) -> Result<(), AllocError>
    requires { partial_of cells.old ≡ [] }
    ensures { OnOk result (Gains cells.old cells.new (told.field_name number ∷ [])) }
{
    let mut name = Vec::new(alloc);
    name.extend_from_slice(b"field")?;
    name.extend_from_slice(itoa::Buffer::new().format(number).as_bytes())?;
    push_cell(cells, name.as_slice())
}

/// Adds the names of the columns of fields.
fn push_names(alloc: Global, cells: &mut ByteRecord, width: u8) -> Result<(), AllocError>
    requires { partial_of cells.old ≡ [] }
    ensures { OnOk result (Gains cells.old cells.new (told.field_names width)) }
{
    for index in 0..width {
        push_name(alloc, cells, u64::from(index) + 1)?;
    }
    Ok(())
}

/// Adds the names of the columns of values.
fn push_value_names(alloc: Global, cells: &mut ByteRecord, width: u8) -> Result<(), AllocError>
    requires { partial_of cells.old ≡ [] }
    ensures { OnOk result (Gains cells.old cells.new (told.value_names width)) }
{
    push_cell(cells, b"fields")?;
    push_names(alloc, cells, width)
}

/// Spells the names of the columns of values.
fn spell_value_head(alloc: Global, text: &mut Vec<u8>, width: u8) -> Result<(), AllocError>
    ensures { OnOk result (Appends (Some text.old.items) (Some text.new.items) (told.csv_line (told.value_names width))) }
{
    let mut cells = ByteRecord::new(alloc);
    push_value_names(alloc, &mut cells, width)?;
    spell_cells(alloc, text, &cells)
}

/// Spells the table of one value.
fn spell_value(alloc: Global, text: &mut Vec<u8>, value: &Value) -> Result<(), AllocError>
    ensures { OnOk result (Appends (Some text.old.items) (Some text.new.items) (told.value_table value.now)) }
{
    spell_value_head(alloc, text, value.len())?;
    let mut cells = ByteRecord::new(alloc);
    push_value(alloc, &mut cells, value.len(), value)?;
    spell_cells(alloc, text, &cells)
}

/// Spells the table of a value or none.
pub fn spell_found(
    alloc: Global,
    text: &mut Vec<u8>,
    found: Option<&Value>,
) -> Result<(), AllocError>
    ensures { OnOk result (Appends (Some text.old.items) (Some text.new.items) (told.found_table (option_map (λ v. v.now) found.entry))) }
{
    match found {
        Some(value) => spell_value(alloc, text, value),
        None => spell_value_head(alloc, text, 0),
    }
}

/// Spells the names of the columns of records.
pub fn spell_record_head(alloc: Global, text: &mut Vec<u8>, width: u8) -> Result<(), AllocError>
    ensures { OnOk result (Appends (Some text.old.items) (Some text.new.items) (told.csv_line (told.record_names width))) }
{
    let mut cells = ByteRecord::new(alloc);
    push_cell(&mut cells, b"record")?;
    push_value_names(alloc, &mut cells, width)?;
    spell_cells(alloc, text, &cells)
}

/// Spells the row of a record and its value.
pub fn spell_record(
    alloc: Global,
    text: &mut Vec<u8>,
    width: u8,
    number: u64,
    value: &Value,
) -> Result<(), AllocError>
    ensures { OnOk result (Appends (Some text.old.items) (Some text.new.items) (told.csv_line (told.record_cells width number value.now))) }
{
    let mut cells = ByteRecord::new(alloc);
    push_number(&mut cells, number)?;
    push_value(alloc, &mut cells, width, value)?;
    spell_cells(alloc, text, &cells)
}

/// Spells the names of the columns of rows.
pub fn spell_row_head(alloc: Global, text: &mut Vec<u8>, width: u8) -> Result<(), AllocError>
    ensures { OnOk result (Appends (Some text.old.items) (Some text.new.items) (told.csv_line (told.row_names width))) }
{
    let mut cells = ByteRecord::new(alloc);
    push_cell(&mut cells, b"from")?;
    push_cell(&mut cells, b"to")?;
    push_value_names(alloc, &mut cells, width)?;
    spell_cells(alloc, text, &cells)
}

/// Spells the row that says from when on and up to when a value was valid, and the value.
pub fn spell_row(
    alloc: Global,
    text: &mut Vec<u8>,
    width: u8,
    from: Shown<'_>,
    to: Shown<'_>,
    value: &Value,
) -> Result<(), AllocError>
    ensures { OnOk result (Appends (Some text.old.items) (Some text.new.items) (told.csv_line (told.row_cells width (moment_of from.entry) (moment_of to.entry)
        value.now))) }
{
    let mut cells = ByteRecord::new(alloc);
    push_time(&mut cells, from)?;
    push_time(&mut cells, to)?;
    push_value(alloc, &mut cells, width, value)?;
    spell_cells(alloc, text, &cells)
}

/// Spells the name of the column of times.
pub fn spell_time_head(alloc: Global, text: &mut Vec<u8>) -> Result<(), AllocError>
    ensures { OnOk result (Appends (Some text.old.items) (Some text.new.items) (told.csv_line (codes "time" ∷ []))) }
{
    let mut cells = ByteRecord::new(alloc);
    push_cell(&mut cells, b"time")?;
    spell_cells(alloc, text, &cells)
}

/// Spells the row of the time of a commit.
pub fn spell_time(alloc: Global, text: &mut Vec<u8>, time: Shown<'_>) -> Result<(), AllocError>
    ensures { OnOk result (Appends (Some text.old.items) (Some text.new.items) (told.csv_line (time_text (moment_of time.entry) ∷ []))) }
{
    let mut cells = ByteRecord::new(alloc);
    push_time(&mut cells, time)?;
    spell_cells(alloc, text, &cells)
}
