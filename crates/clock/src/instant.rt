//! The text of an instant, `YYYY-MM-DDTHH:MM:SSZ`.
ghost use Rattle.std.specs.Prelude.{◌≡◌, ℕ, List, [], ◌∷◌, ◌++◌, OnOk, ◌+◌, ◌*◌, ◌<◌, ◌≤◌, ◌↔◌, IfOk, IfSome, IfNone, IsSome, IsNone, Ok, None, Some};
ghost use Rattle.std.specs.Prelude.{string_bytes};
ghost use Rattle.clock.specs.declared.instant.Moment.{Moment};
ghost use Rattle.clock.specs.Instant.{IsMoment, FitsText, Spells, date_spelling, instant_of, second_at, spelling, time_spelling, two_digits};

use jiff::civil::Date;
use jiff_core::civil::Date as PlainDate;
use std::alloc::{AllocError, Global};

/// The text is no instant.
#[derive(Clone, Copy, Debug, PartialEq, Eq)]
pub struct BadInstant;

/// A second of the calendar.
#[derive(Clone, Copy, Debug, PartialEq, Eq)]
pub struct Moment {
    pub year: u16,
    pub month: u8,
    pub day: u8,
    pub hour: u8,
    pub minute: u8,
    pub second: u8,
}

/// The number that two digits spell.
fn number(tens: u8, units: u8) -> Option<u8>
    ensures found { IfSome result (λ n. (n < 100) × (two_digits n ≡ tens ∷ units ∷ [])) }
    ensures none { IfNone result ((n : ℕ) → n < 100 → two_digits n ≡ tens ∷ units ∷ [] → ⊥) }
{
    if tens.is_ascii_digit() && units.is_ascii_digit() {
        Some((tens - b'0') * 10 + (units - b'0'))
    } else {
        None
    }
}

/// The year, the month and the day that a text spells, in range or not.
fn date_parts(bytes: &[u8]) -> Option<(u16, u8, u8)>
    ensures found { IfSome result (λ (year, month, day). (year < 10_000) × (month < 100) × (day < 100) × (bytes.now ≡ date_spelling year month day)) }
    ensures none { IfNone result ((year month day : ℕ) → year < 10_000 → month < 100 → day < 100 → bytes.now ≡ date_spelling year month day → ⊥) }
{
    let &[y3, y2, y1, y0, b'-', m1, m0, b'-', d1, d0] = bytes else {
        return None;
    };
    let century = number(y3, y2)?;
    let year = number(y1, y0)?;
    let month = number(m1, m0)?;
    let day = number(d1, d0)?;
    Some((u16::from(century) * 100 + u16::from(year), month, day))
}

/// The hour, the minute and the second that a text spells, in range or not.
fn time_parts(bytes: &[u8]) -> Option<(u8, u8, u8)>
    ensures found { IfSome result (λ (hour, minute, second). (hour < 100) × (minute < 100) × (second < 100) × (bytes.now ≡ time_spelling hour minute second)) }
    ensures none { IfNone result ((hour minute second : ℕ) → hour < 100 → minute < 100 → second < 100 → bytes.now ≡ time_spelling hour minute second → ⊥) }
{
    let &[b'T', h1, h0, b':', m1, m0, b':', s1, s0, b'Z'] = bytes else {
        return None;
    };
    Some((number(h1, h0)?, number(m1, m0)?, number(s1, s0)?))
}

/// The parts that a text spells, in range or not.
fn parts(bytes: &[u8]) -> Option<Moment>
    ensures found { IfSome result (λ m. FitsText m × (bytes.now ≡ spelling m)) }
    ensures none { IfNone result ((m : Moment) → FitsText m → bytes.now ≡ spelling m → ⊥) }
{
    if bytes.len() != 20 {
        return None;
    }
    let (date, time) = bytes.split_at(10);
    let (year, month, day) = date_parts(date)?;
    let (hour, minute, second) = time_parts(time)?;
    Some(Moment {
        year,
        month,
        day,
        hour,
        minute,
        second,
    })
}

/// The microseconds from 1970 to the moment, where there is such a moment. By the day number of a civil date,
/// since jiff's `Timestamp` ends before the last instant of the year 9999.
fn instant(moment: Moment) -> Option<u64>
    requires { FitsText moment }
    ensures real { IsSome result ↔ IsMoment moment }
    ensures value { IfSome result (λ t. t ≡ instant_of moment) }
{
    if moment.year < 1970 || moment.hour > 23 || moment.minute > 59 || moment.second > 59 {
        return None;
    }
    let date = Date::new(moment.year as i16, moment.month as i8, moment.day as i8).ok()?;
    let day = u64::from(date.to_plain().to_unix_epoch_day().unsigned_abs());
    let second = u64::from(moment.hour) * 3600
        + u64::from(moment.minute) * 60
        + u64::from(moment.second);
    Some((day * 86_400 + second) * 1_000_000)
}

/// The instant that a text of the form `YYYY-MM-DDTHH:MM:SSZ` spells, in microseconds since 1970.
///
/// # Errors
///
/// Where the text is not 20 bytes of that form, or no second of the years 1970 to 9999.
pub fn read_instant(text: &str) -> Result<u64, BadInstant>
    ensures ok { IfOk result (Spells text.now) }
    ensures only { (t : ℕ) → Spells text.now t → result ≡ Ok t }
{
    read_instant_bytes(text.as_bytes())
}

/// The same of bytes that may be no text.
///
/// # Errors
///
/// Where they are not 20 bytes of that form, or no second of the years 1970 to 9999.
pub fn read_instant_bytes(bytes: &[u8]) -> Result<u64, BadInstant>
    ensures ok { IfOk result (Spells bytes.now) }
    ensures only { (t : ℕ) → Spells bytes.now t → result ≡ Ok t }
{
    parts(bytes).and_then(instant).ok_or(BadInstant)
}

/// The moment whose second holds `t`, up to the year 9999.
fn moment_at(t: u64) -> Option<Moment>
    ensures none { IsNone result ↔ (253_402_300_800_000_000 ≤ t) }
    ensures found { IfSome result (λ m. IsMoment m × (instant_of m ≤ t) × (t < instant_of m + 1_000_000)) }
{
    let second = t / 1_000_000;
    let date = PlainDate::from_unix_epoch_day((second / 86_400) as i64).ok()?;
    let second = second % 86_400;
    Some(Moment {
        year: date.year.unsigned_abs(),
        month: date.month,
        day: date.day,
        hour: (second / 3600) as u8,
        minute: (second / 60 % 60) as u8,
        second: (second % 60) as u8,
    })
}

/// Adds a number's two digits.
fn push_number(text: &mut String, number: u8) -> Result<(), AllocError>
    requires { number < 100 }
    ensures { OnOk result (string_bytes text.new ≡ string_bytes text.old ++ two_digits number) }
{
    text.push(char::from(b'0' + number / 10))?;
    text.push(char::from(b'0' + number % 10))
}

/// The text of a moment.
fn text_of(alloc: Global, moment: Moment) -> Result<String, AllocError>
    requires { FitsText moment }
    ensures { IfOk result (λ s. string_bytes s ≡ spelling moment) }
{
    let mut text = String::with_capacity(alloc, 20)?;
    push_number(&mut text, (moment.year / 100) as u8)?;
    push_number(&mut text, (moment.year % 100) as u8)?;
    text.push('-')?;
    push_number(&mut text, moment.month)?;
    text.push('-')?;
    push_number(&mut text, moment.day)?;
    text.push('T')?;
    push_number(&mut text, moment.hour)?;
    text.push(':')?;
    push_number(&mut text, moment.minute)?;
    text.push(':')?;
    push_number(&mut text, moment.second)?;
    text.push('Z')?;
    Ok(text)
}

/// The text of the second that holds `t`, in microseconds since 1970; none after the year 9999.
///
/// # Errors
///
/// Where there is no memory for the text.
pub fn show_instant(alloc: Global, t: u64) -> Result<Option<String>, AllocError>
    ensures none { IfOk result (λ shown. IsNone shown ↔ (253_402_300_800_000_000 ≤ t)) }
    ensures some { IfOk result (λ shown. IfSome shown (λ s. Spells (string_bytes s) (second_at t))) }
{
    match moment_at(t) {
        Some(moment) => Ok(Some(text_of(alloc, moment)?)),
        None => Ok(None),
    }
}
