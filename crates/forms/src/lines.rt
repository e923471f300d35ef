//! The lines of answers.
ghost use Rattle.std.specs.Prelude.{◌≡◌, ◌++◌, OnOk, Some, option_map, string_bytes, codes};
ghost use Rattle.std.specs.Io.KnownBytes.{Appends};
ghost use Rattle.std.specs.Fmt.{decimal};
ghost use Rattle.forms.specs.Fields.{Text};
ghost use Rattle.forms.specs.Times.{moment_as, time_text};
ghost use Rattle.forms.specs.Shown.{moment_of};
ghost use Rattle.forms.specs.Lines as told;

use crate::field::{spell_gap, spell_words};
use crate::moment::{Shown, instant_if};
use crate::style::{Form, Style};
use crate::{csv_line, json_line};
use std::alloc::{AllocError, Global};
use wire::Value;

/// Spells a value or none in words.
fn spell_found_words(
    alloc: Global,
    text: &mut Vec<u8>,
    form: Form,
    found: Option<&Value>,
) -> Result<(), AllocError>
    ensures { OnOk result (Appends (Some text.old.items) (Some text.new.items) (told.found_words form (option_map (λ v. v.now) found.entry))) }
{
    match found {
        Some(value) => {
            text.extend_from_slice(b"value")?;
            spell_words(alloc, text, form, value)?;
            Ok(text.push(b'\n')?)
        }
        None => text.extend_from_slice(b"none\n"),
    }
}

/// Spells the line that says a value or none, in CSV below the names of its columns.
///
/// # Errors
///
/// Where there is no memory for it.
pub fn spell_found(
    alloc: Global,
    text: &mut Vec<u8>,
    form: Form,
    found: Option<&Value>,
) -> Result<(), AllocError>
    ensures { OnOk result (Appends (Some text.old.items) (Some text.new.items) (told.found_text form (option_map (λ v. v.now) found.entry))) }
{
    match form {
        Form::Hex => spell_found_words(alloc, text, form, found),
        Form::Text => spell_found_words(alloc, text, form, found),
        Form::Json => json_line::spell_found(alloc, text, found),
        Form::Csv => csv_line::spell_found(alloc, text, found),
    }
}

/// Spells a number.
fn spell_number(text: &mut Vec<u8>, number: u64) -> Result<(), AllocError>
    ensures { OnOk result (Appends (Some text.old.items) (Some text.new.items) (decimal number)) }
{
    text.extend_from_slice(itoa::Buffer::new().format(number).as_bytes())
}

/// Spells a record and its value in words.
fn spell_record_words(
    alloc: Global,
    text: &mut Vec<u8>,
    form: Form,
    number: u64,
    value: &Value,
) -> Result<(), AllocError>
    ensures { OnOk result (Appends (Some text.old.items) (Some text.new.items) (told.record_words form number value.now)) }
{
    spell_number(text, number)?;
    spell_words(alloc, text, form, value)?;
    Ok(text.push(b'\n')?)
}

/// Spells what comes before the lines of records: in CSV the names of the columns, of which so many
/// are those of fields.
///
/// # Errors
///
/// Where there is no memory for it.
pub fn spell_record_head(
    alloc: Global,
    text: &mut Vec<u8>,
    form: Form,
    width: u8,
) -> Result<(), AllocError>
    ensures { OnOk result (Appends (Some text.old.items) (Some text.new.items) (told.record_head form width)) }
{
    match form {
        Form::Hex => Ok(()),
        Form::Text => Ok(()),
        Form::Json => Ok(()),
        Form::Csv => csv_line::spell_record_head(alloc, text, width),
    }
}

/// Spells the line that says a record and its value, in CSV with so many columns of fields.
///
/// # Errors
///
/// Where there is no memory for it.
pub fn spell_record(
    alloc: Global,
    text: &mut Vec<u8>,
    form: Form,
    width: u8,
    number: u64,
    value: &Value,
) -> Result<(), AllocError>
    ensures { OnOk result (Appends (Some text.old.items) (Some text.new.items) (told.record_text form width number value.now)) }
{
    match form {
        Form::Hex => spell_record_words(alloc, text, form, number, value),
        Form::Text => spell_record_words(alloc, text, form, number, value),
        Form::Json => json_line::spell_record(alloc, text, number, value),
        Form::Csv => csv_line::spell_record(alloc, text, width, number, value),
    }
}

/// Spells a time.
fn spell_time(text: &mut Vec<u8>, time: Shown<'_>) -> Result<(), AllocError>
    ensures { OnOk result (Appends (Some text.old.items) (Some text.new.items) (time_text (moment_of time.entry))) }
{
    match time.instant {
        Some(instant) => text.extend_from_slice(instant.as_bytes()),
        None => spell_number(text, time.time),
    }
}

/// Spells a row in words.
fn spell_row_words(
    alloc: Global,
    text: &mut Vec<u8>,
    form: Form,
    from: Shown<'_>,
    to: Shown<'_>,
    value: &Value,
) -> Result<(), AllocError>
    ensures { OnOk result (Appends (Some text.old.items) (Some text.new.items) (told.row_words form (moment_of from.entry) (moment_of to.entry) value.now)) }
{
    spell_time(text, from)?;
    spell_gap(text, form)?;
    spell_time(text, to)?;
    spell_words(alloc, text, form, value)?;
    Ok(text.push(b'\n')?)
}

/// Spells what comes before the lines of rows.
///
/// # Errors
///
/// Where there is no memory for it.
pub fn spell_row_head(
    alloc: Global,
    text: &mut Vec<u8>,
    form: Form,
    width: u8,
) -> Result<(), AllocError>
    ensures { OnOk result (Appends (Some text.old.items) (Some text.new.items) (told.row_head form width)) }
{
    match form {
        Form::Hex => Ok(()),
        Form::Text => Ok(()),
        Form::Json => Ok(()),
        Form::Csv => csv_line::spell_row_head(alloc, text, width),
    }
}

/// Spells a row whose times are shown so.
fn spell_shown_row(
    alloc: Global,
    text: &mut Vec<u8>,
    form: Form,
    width: u8,
    from: Shown<'_>,
    to: Shown<'_>,
    value: &Value,
) -> Result<(), AllocError>
    ensures { OnOk result (Appends (Some text.old.items) (Some text.new.items) (told.row_line form width (moment_of from.entry) (moment_of to.entry)
        value.now)) }
{
    match form {
        Form::Hex => spell_row_words(alloc, text, form, from, to, value),
        Form::Text => spell_row_words(alloc, text, form, from, to, value),
        Form::Json => json_line::spell_row(alloc, text, from, to, value),
        Form::Csv => csv_line::spell_row(alloc, text, width, from, to, value),
    }
}

/// The text of an instant.
fn as_shown(time: u64, instant: &Option<String>) -> Shown<'_>
    ensures { moment_of result ≡ moment_as time (option_map string_bytes instant.now) }
{
    Shown {
        time,
        instant: match instant {
            Some(text) => Some(text.as_str()),
            None => None,
        },
    }
}

/// Spells the line that says from when on and up to when a value was valid, and the value, in CSV
/// with so many columns of fields.
///
/// # Errors
///
/// Where there is no memory for it.
pub fn spell_row(
    alloc: Global,
    text: &mut Vec<u8>,
    style: Style,
    width: u8,
    from: u64,
    to: u64,
    value: &Value,
) -> Result<(), AllocError>
    ensures { OnOk result ((line : Text) × told.IsRowText style width from to value.now line × Appends (Some text.old.items) (Some text.new.items) line) }
{
    let shown_from = instant_if(alloc, style.instants, from)?;
    let shown_to = instant_if(alloc, style.instants, to)?;
    let begin = as_shown(from, &shown_from);
    let end = as_shown(to, &shown_to);
    spell_shown_row(alloc, text, style.form, width, begin, end, value)
}

/// Spells a line of words and a number.
fn spell_counted(text: &mut Vec<u8>, words: &str, count: usize) -> Result<(), AllocError>
    ensures { OnOk result (Appends (Some text.old.items) (Some text.new.items) (words.now ++ (decimal count ++ codes "\n"))) }
{
    text.extend_from_slice(words.as_bytes())?;
    spell_number(text, count as u64)?;
    Ok(text.push(b'\n')?)
}

/// Spells how many lines came before; JSON and CSV have no such line.
///
/// # Errors
///
/// Where there is no memory for it.
pub fn spell_count(text: &mut Vec<u8>, form: Form, count: usize) -> Result<(), AllocError>
    ensures { OnOk result (Appends (Some text.old.items) (Some text.new.items) (told.count_text form count)) }
{
    match form {
        Form::Hex => spell_counted(text, "rows ", count),
        Form::Text => spell_counted(text, "rows\t", count),
        Form::Json => Ok(()),
        Form::Csv => Ok(()),
    }
}

/// Spells one of the times of commits.
fn spell_shown_time(
    alloc: Global,
    text: &mut Vec<u8>,
    form: Form,
    time: Shown<'_>,
) -> Result<(), AllocError>
    ensures { OnOk result (Appends (Some text.old.items) (Some text.new.items) (told.time_piece form (moment_of time.entry))) }
{
    match form {
        Form::Hex => {
            text.push(b' ')?;
            spell_time(text, time)
        }
        Form::Text => {
            text.push(b'\t')?;
            spell_time(text, time)
        }
        Form::Json => json_line::spell_time(alloc, text, time),
        Form::Csv => csv_line::spell_time(alloc, text, time),
    }
}

/// Spells one of the times of commits, as an instant where this is asked for.
fn spell_piece(alloc: Global, text: &mut Vec<u8>, style: Style, time: u64) -> Result<(), AllocError>
    ensures { OnOk result ((piece : Text) × told.IsTimePiece style time piece × Appends (Some text.old.items) (Some text.new.items) piece) }
{
    let instant = instant_if(alloc, style.instants, time)?;
    spell_shown_time(alloc, text, style.form, as_shown(time, &instant))
}

/// Spells each of the times.
fn spell_pieces(
    alloc: Global,
    text: &mut Vec<u8>,
    style: Style,
    times: &[u64],
) -> Result<(), AllocError>
    ensures { OnOk result ((pieces : Text) × told.AreTimePieces style times.now pieces × Appends (Some text.old.items) (Some text.new.items) pieces) }
{
    for time in times {
        spell_piece(alloc, text, style, *time)?;
    }
    Ok(())
}

/// Spells what comes before the times.
fn spell_front(alloc: Global, text: &mut Vec<u8>, form: Form) -> Result<(), AllocError>
    ensures { OnOk result (Appends (Some text.old.items) (Some text.new.items) (told.times_front form)) }
{
    match form {
        Form::Hex => text.extend_from_slice(b"times"),
        Form::Text => text.extend_from_slice(b"times"),
        Form::Json => Ok(()),
        Form::Csv => csv_line::spell_time_head(alloc, text),
    }
}

/// Spells what comes after the times.
fn spell_end(text: &mut Vec<u8>, form: Form) -> Result<(), AllocError>
    ensures { OnOk result (Appends (Some text.old.items) (Some text.new.items) (told.times_end form)) }
{
    match form {
        Form::Hex => Ok(text.push(b'\n')?),
        Form::Text => Ok(text.push(b'\n')?),
        Form::Json => Ok(()),
        Form::Csv => Ok(()),
    }
}

/// Spells the times of the commits with a label: a line, or in JSON and CSV a line for each.
///
/// # Errors
///
/// Where there is no memory for it.
pub fn spell_times(
    alloc: Global,
    text: &mut Vec<u8>,
    style: Style,
    times: &[u64],
) -> Result<(), AllocError>
    ensures { OnOk result ((said : Text) × told.IsTimesText style times.now said × Appends (Some text.old.items) (Some text.new.items) said) }
{
    spell_front(alloc, text, style.form)?;
    spell_pieces(alloc, text, style, times)?;
    spell_end(text, style.form)
}
