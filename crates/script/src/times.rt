//! Times, in microseconds since 1970.
ghost use Rattle.std.specs.Prelude.{◌≡◌};
ghost use Rattle.script.specs.Instants.{instant_in};
ghost use Rattle.script.specs.Lines.{time_in};

use crate::numbers::number;
use clock::read_instant_bytes;

/// The instant that a text of the form `YYYY-MM-DDTHH:MM:SSZ` spells.
fn instant(word: &[u8]) -> Option<u64>
    ensures { result ≡ instant_in word.now }
{
    read_instant_bytes(word).ok()
}

/// The time that a word spells, in microseconds since 1970: a decimal number of 1 to 20 digits, or an instant
/// as `2001-09-09T01:46:40Z`.
pub fn read_time(word: &[u8]) -> Option<u64>
    ensures { result ≡ time_in word.now }
{
    match number(word) {
        Some(time) => Some(time),
        None => instant(word),
    }
}
