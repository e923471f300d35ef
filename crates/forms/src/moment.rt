//! Times as instants.
ghost use Rattle.std.specs.Prelude.{◌≡◌, ◌++◌, ◌-◌, ◌<◌, length, IfOk, OnOk, IsSome, string_bytes, option_map, codes, true};
ghost use Rattle.std.specs.Str.{IsCharBoundary};
ghost use Rattle.clock.specs.Instant.{Spells, second_at};
ghost use Rattle.forms.specs.Times as told;

use clock::show_instant;
use std::alloc::{AllocError, Global};

/// A time, and its text where it is shown as an instant.
#[derive(Clone, Copy, Debug, PartialEq, Eq)]
pub struct Shown<'a> {
    pub time: u64,
    pub instant: Option<&'a str>,
}

/// Adds a digit.
fn push_digit(text: &mut String, digit: u32) -> Result<(), AllocError>
    requires { digit < 10 }
    ensures { OnOk result (string_bytes text.new ≡ string_bytes text.old ++ told.digit digit) }
{
    text.push(char::from(b'0' + digit as u8))
}

/// Adds the microseconds after a second, if there are some.
fn push_micros(text: &mut String, micros: u32) -> Result<(), AllocError>
    requires { micros < 1_000_000 }
    ensures { OnOk result (string_bytes text.new ≡ string_bytes text.old ++ told.micros_text micros) }
{
    if micros == 0 {
        return Ok(());
    }
    text.push('.')?;
    push_digit(text, micros / 100_000)?;
    push_digit(text, micros / 10_000 % 10)?;
    push_digit(text, micros / 1000 % 10)?;
    push_digit(text, micros / 100 % 10)?;
    push_digit(text, micros / 10 % 10)?;
    push_digit(text, micros % 10)
}

/// The text of a second, with microseconds before its last letter.
fn with_micros(alloc: Global, second: &str, micros: u32) -> Result<String, AllocError>
    requires some { 0 < length second.now }
    requires ends { IsCharBoundary second.now (length second.now - 1) }
    requires short { micros < 1_000_000 }
    ensures { IfOk result (λ text. string_bytes text ≡ told.with_micros micros second.now) }
{
    let mut text = String::with_capacity(alloc, 27)?;
    text.push_str(&second[..second.len() - 1])?;
    push_micros(&mut text, micros)?;
    text.push('Z')?;
    Ok(text)
}

/// The text of a time as an instant; none after the year 9999.
fn instant(alloc: Global, time: u64) -> Result<Option<String>, AllocError>
    ensures { IfOk result (λ shown. told.IsInstantIf true time (option_map string_bytes shown)) }
{
    match show_instant(alloc, time)? {
        Some(second) => {
            let micros = (time % 1_000_000) as u32;
            Ok(Some(with_micros(alloc, second.as_str(), micros)?))
        }
        None => Ok(None),
    }
}

/// The text of a time, where it is asked for as an instant.
pub fn instant_if(alloc: Global, instants: bool, time: u64) -> Result<Option<String>, AllocError>
    ensures { IfOk result (λ shown. told.IsInstantIf instants time (option_map string_bytes shown)) }
{
    if instants {
        return instant(alloc, time);
    }
    Ok(None)
}
