//! A ROLL at the beginning of bytes.

ghost use Rattle.std.specs.Prelude.{◌≡◌, ◌≤◌, ◌↔◌, length, drop, IsTrue};
ghost use Rattle.log_entries.specs.Spelling.{roll_bytes};
ghost use Rattle.log_entries.specs.Ranges.{IsRoll};
ghost use Rattle.log_entries.specs.Reading.{roll_at};
ghost use Rattle.log_entries.specs.Lengths.{roll_some};

use crate::entry::Roll;
use crate::item::{Item, has_kind};
use byteorder::{ByteOrder, LittleEndian};
use std::alloc::{AllocError, Global};
use wire::LAST_PLACE;

/// The byte that a ROLL begins with.
pub(crate) const ROLL: u8 = 9;

/// How many bytes a ROLL has.
pub(crate) const ROLL_LEN: usize = 17;

/// How many bytes a name has in a roll.
const NAME_LEN: u64 = 16;

#[tactic(auto, unfolding(crate::specs::Reading::roll_at))]
fn read_roll(bytes: &[u8]) -> Roll
    requires { 17 ≤ length bytes.now }
    ensures { result ≡ roll_at bytes.now }
{
    Roll {
        start: LittleEndian::read_u64(&bytes[1..]),
        len: LittleEndian::read_u64(&bytes[9..]),
    }
}

fn is_roll(roll: &Roll) -> bool
    ensures { IsTrue result ↔ IsRoll roll.now }
{
    roll.len % NAME_LEN == 0
        && NAME_LEN <= roll.len
        && roll.len <= LAST_PLACE
        && roll.start <= LAST_PLACE - roll.len
}

impl Item for Roll {
    ghost bytes_of = { roll_bytes };

    ghost Is = { IsRoll };

    ghost some = { roll_some };

    fn take(_alloc: Global, bytes: &[u8]) -> Result<Option<(Roll, &[u8])>, AllocError> {
        if !has_kind(bytes, ROLL, ROLL_LEN) {
            return Ok(None);
        }
        let roll = read_roll(bytes);
        if !is_roll(&roll) {
            return Ok(None);
        }
        Ok(Some((roll, &bytes[ROLL_LEN..])))
    }
}
