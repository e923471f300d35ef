//! The fields of a value.
ghost use Rattle.std.specs.Prelude.{◌≡◌, ◌++◌, ◌≢◌, OnOk, Some};
ghost use Rattle.std.specs.Io.KnownBytes.{Appends};
ghost use Rattle.forms.specs.Lines as told;

use crate::style::Form;
use crate::text_field::{spell_hex_field, spell_text_field};
use std::alloc::{AllocError, Global};
use wire::Value;

/// Spells what comes before each word but the first of a line.
pub fn spell_gap(text: &mut Vec<u8>, form: Form) -> Result<(), AllocError>
    ensures { OnOk result (Appends (Some text.old.items) (Some text.new.items) (told.gap form)) }
{
    match form {
        Form::Hex => Ok(text.push(b' ')?),
        Form::Text => Ok(text.push(b'\t')?),
        Form::Json => Ok(()),
        Form::Csv => Ok(()),
    }
}

/// Spells a field as a word.
fn spell_word(alloc: Global, text: &mut Vec<u8>, form: Form, field: &[u8]) -> Result<(), AllocError>
    ensures { OnOk result (Appends (Some text.old.items) (Some text.new.items) (told.field_word form field.now)) }
{
    match form {
        Form::Hex => spell_hex_field(alloc, text, field),
        Form::Text => spell_text_field(alloc, text, field),
        Form::Json => Ok(()),
        Form::Csv => Ok(()),
    }
}

/// Spells the fields of a value, each after a gap.
pub fn spell_words(
    alloc: Global,
    text: &mut Vec<u8>,
    form: Form,
    value: &Value,
) -> Result<(), AllocError>
    ensures { OnOk result (Appends (Some text.old.items) (Some text.new.items) (told.field_words form value.now)) }
{
    let mut left = value.iter();
    while let Some(field) = left.take_field() {
        spell_gap(text, form)?;
        spell_word(alloc, text, form, field)?;
    }
    Ok(())
}
