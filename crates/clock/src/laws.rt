//! Laws of commit times and of the texts of instants.
ghost use Rattle.std.specs.Prelude.{◌≡◌, ℕ, nat_lt, None, Some, IfOk, MatchOption, if◌then◌else◌, string_bytes};
ghost use Rattle.clock.specs.Commit.{TimesRise};
ghost use Rattle.clock.specs.Instant.{Spells, second_at, ReadsAsOne, IsShownAsOne, HasTwentyBytes};

use crate::instant::{read_instant, show_instant};
use std::alloc::{AllocError, Global};

/// Over every list of calls of a clock, each time is greater than every earlier one.
pub fn times_rise()
    ensures { TimesRise }
{}

/// A text spells at most one instant, and an instant has at most one text, of 20 bytes.
pub fn texts_are_instants()
    ensures read { ReadsAsOne }
    ensures shown { IsShownAsOne }
    ensures len { HasTwentyBytes }
{}

/// What is shown of an instant reads as the beginning of its second.
///
/// # Errors
///
/// Where there is no memory for the text.
pub fn read_shown(alloc: Global, t: u64) -> Result<Option<u64>, AllocError>
    ensures { IfOk result (λ read. read ≡ (if nat_lt t 253_402_300_800_000_000 then Some (second_at t) else None)) }
{
    match show_instant(alloc, t)? {
        None => Ok(None),
        Some(text) => Ok(read_instant(text.as_str()).ok()),
    }
}

/// What a text reads as is shown as that text; none where it is no instant.
///
/// # Errors
///
/// Where there is no memory for the text.
pub fn show_read(alloc: Global, text: &str) -> Result<Option<String>, AllocError>
    ensures { IfOk result (λ shown. MatchOption shown
        ((t : ℕ) → Spells text.now t → ⊥) (λ s. string_bytes s ≡ text.now)) }
{
    match read_instant(text) {
        Err(_) => Ok(None),
        Ok(t) => show_instant(alloc, t),
    }
}
