//! The times that words spell.
ghost use Rattle.std.specs.Prelude.{◌≡◌, Some, None};
ghost use Rattle.command_line.specs.Moments as told;

use jiff::Timestamp;
use script::read_time;

/// The time of a number of microseconds since 1970, or of a second, as a script has them.
fn scripted(word: &str) -> Option<u64>
    ensures { result ≡ told.scripted word.now }
{
    read_time(word.as_bytes())
}

/// Midnight of a date, by UTC.
fn midnight(date: &[u8]) -> Option<u64>
    ensures { result ≡ told.midnight date.now }
{
    let &[a, b, c, d, e, f, g, h, i, j] = date else {
        return None;
    };
    read_time(&[
        a, b, c, d, e, f, g, h, i, j, b'T', b'0', b'0', b':', b'0', b'0', b':', b'0', b'0', b'Z',
    ])
}

/// A number that is not below 0.
fn not_negative(number: i64) -> Option<u64>
    ensures { result ≡ told.not_negative number }
{
    if number < 0 {
        None
    } else {
        Some(number as u64)
    }
}

/// The time of a date and a time of the day with an offset from UTC. What is less than a microsecond is cut.
fn instant(word: &str) -> Option<u64>
    ensures { result ≡ told.instant word.now }
{
    match word.parse::<Timestamp>() {
        Ok(timestamp) => not_negative(timestamp.as_microsecond()),
        Err(_) => None,
    }
}

/// The time that a word spells: as a script has it, or as a date, or with an offset from UTC.
pub fn moment(word: &str) -> Option<u64>
    ensures { result ≡ told.moment word.now }
{
    if let Some(time) = scripted(word) {
        return Some(time);
    }
    if let Some(time) = midnight(word.as_bytes()) {
        return Some(time);
    }
    instant(word)
}
