//! Lines of JSON.
ghost use Rattle.std.specs.Prelude.{◌≡◌, OnOk, codes, Some, option_map, ◌∷◌, []};
ghost use Rattle.std.specs.Io.KnownBytes.{Appends};
ghost use Rattle.json.specs.Token.{key};
ghost use Rattle.forms.specs.Fields.{field_tokens, fields_tokens, value_tokens};
ghost use Rattle.forms.specs.Json.{Adds};
ghost use Rattle.forms.specs.Lines as told;
ghost use Rattle.forms.specs.Times.{time_token};
ghost use Rattle.forms.specs.Shown.{moment_of};

use crate::moment::Shown;
use crate::text_field::as_text;
use json::Writer;
use std::alloc::{AllocError, Global};
use std::mem;
use wire::Value;

/// Writes a field: a text as a string, bytes that are none as an object with their digits.
fn write_field(alloc: Global, line: &mut Writer, field: &[u8]) -> Result<(), AllocError>
    ensures { OnOk result (Adds line.old line.new (field_tokens field.now)) }
{
    match as_text(field) {
        Some(text) => line.string(text),
        None => {
            let digits = hex::encode(alloc, field)?;
            line.begin_object()?;
            line.key("hex")?;
            line.string(digits.as_str())?;
            line.end_object()
        }
    }
}

/// Writes fields.
fn write_fields(alloc: Global, line: &mut Writer, value: &Value) -> Result<(), AllocError>
    ensures { OnOk result (Adds line.old line.new (fields_tokens value.now)) }
{
    let mut left = value.iter();
    while let Some(field) = left.take_field() {
        write_field(alloc, line, field)?;
    }
    Ok(())
}

/// Writes a value as an array of its fields.
fn write_value(alloc: Global, line: &mut Writer, value: &Value) -> Result<(), AllocError>
    ensures { OnOk result (Adds line.old line.new (value_tokens value.now)) }
{
    line.begin_array()?;
    write_fields(alloc, line, value)?;
    line.end_array()
}

/// Writes the member of an object that has the value.
fn write_member(alloc: Global, line: &mut Writer, value: &Value) -> Result<(), AllocError>
    ensures { OnOk result (Adds line.old line.new (key (codes "value") ∷ value_tokens value.now)) }
{
    line.key("value")?;
    write_value(alloc, line, value)
}

/// Writes a time.
fn write_time(line: &mut Writer, time: Shown<'_>) -> Result<(), AllocError>
    ensures { OnOk result (Adds line.old line.new (time_token (moment_of time.entry) ∷ [])) }
{
    match time.instant {
        Some(instant) => line.string(instant),
        None => line.u64(time.time),
    }
}

/// A line after a text, which is given back by `end`.
fn begin(alloc: Global, text: &mut Vec<u8>) -> Writer
    ensures before { result.before ≡ text.old.items }
    ensures tokens { result.tokens ≡ [] }
{
    Writer::new(mem::replace(text, Vec::new(alloc)))
}

/// Ends a line, after which the text is what was before it and the line.
fn end(line: Writer, text: &mut Vec<u8>) -> Result<(), AllocError>
    ensures { OnOk result (Appends (Some line.before) (Some text.new.items) (told.json_line line.tokens)) }
{
    *text = line.into_inner();
    Ok(text.push(b'\n')?)
}

/// Writes a value or none.
fn write_found(alloc: Global, line: &mut Writer, found: Option<&Value>) -> Result<(), AllocError>
    ensures { OnOk result (Adds line.old line.new (told.found_tokens (option_map (λ v. v.now) found.entry))) }
{
    line.begin_object()?;
    line.key("value")?;
    match found {
        Some(value) => write_value(alloc, line, value)?,
        None => line.null()?,
    }
    line.end_object()
}

/// Spells the line that says a value or none.
pub fn spell_found(
    alloc: Global,
    text: &mut Vec<u8>,
    found: Option<&Value>,
) -> Result<(), AllocError>
    ensures { OnOk result (Appends (Some text.old.items) (Some text.new.items) (told.json_line (told.found_tokens (option_map (λ v. v.now) found.entry)))) }
{
    let mut line = begin(alloc, text);
    write_found(alloc, &mut line, found)?;
    end(line, text)
}

/// Writes a record and its value.
fn write_record(
    alloc: Global,
    line: &mut Writer,
    number: u64,
    value: &Value,
) -> Result<(), AllocError>
    ensures { OnOk result (Adds line.old line.new (told.record_tokens number value.now)) }
{
    line.begin_object()?;
    line.key("record")?;
    line.u64(number)?;
    line.key("value")?;
    write_value(alloc, line, value)?;
    line.end_object()
}

/// Spells the line that says a record and its value.
pub fn spell_record(
    alloc: Global,
    text: &mut Vec<u8>,
    number: u64,
    value: &Value,
) -> Result<(), AllocError>
    ensures { OnOk result (Appends (Some text.old.items) (Some text.new.items) (told.json_line (told.record_tokens number value.now))) }
{
    let mut line = begin(alloc, text);
    write_record(alloc, &mut line, number, value)?;
    end(line, text)
}

/// Writes from when on and up to when a value was valid.
fn write_times(line: &mut Writer, from: Shown<'_>, to: Shown<'_>) -> Result<(), AllocError>
    ensures { OnOk result (Adds line.old line.new (told.span_tokens (moment_of from.entry) (moment_of to.entry))) }
{
    line.key("from")?;
    write_time(line, from)?;
    line.key("to")?;
    write_time(line, to)
}

/// Writes a row.
fn write_row(
    alloc: Global,
    line: &mut Writer,
    from: Shown<'_>,
    to: Shown<'_>,
    value: &Value,
) -> Result<(), AllocError>
    ensures { OnOk result (Adds line.old line.new (told.row_tokens (moment_of from.entry) (moment_of to.entry) value.now)) }
{
    line.begin_object()?;
    write_times(line, from, to)?;
    write_member(alloc, line, value)?;
    line.end_object()
}

/// Spells the line that says a row.
pub fn spell_row(
    alloc: Global,
    text: &mut Vec<u8>,
    from: Shown<'_>,
    to: Shown<'_>,
    value: &Value,
) -> Result<(), AllocError>
    ensures { OnOk result (Appends (Some text.old.items) (Some text.new.items) (told.json_line (told.row_tokens (moment_of from.entry)
        (moment_of to.entry) value.now))) }
{
    let mut line = begin(alloc, text);
    write_row(alloc, &mut line, from, to, value)?;
    end(line, text)
}

/// Writes the time of a commit.
fn write_moment(line: &mut Writer, time: Shown<'_>) -> Result<(), AllocError>
    ensures { OnOk result (Adds line.old line.new (told.time_tokens (moment_of time.entry))) }
{
    line.begin_object()?;
    line.key("time")?;
    write_time(line, time)?;
    line.end_object()
}

/// Spells the line that says the time of a commit.
pub fn spell_time(alloc: Global, text: &mut Vec<u8>, time: Shown<'_>) -> Result<(), AllocError>
    ensures { OnOk result (Appends (Some text.old.items) (Some text.new.items) (told.json_line (told.time_tokens (moment_of time.entry)))) }
{
    let mut line = begin(alloc, text);
    write_moment(&mut line, time)?;
    end(line, text)
}
