//! A FLOOR at the beginning of bytes.

ghost use Rattle.std.specs.Prelude.{◌≡◌, ◌≤◌, ◌↔◌, length, drop, IsTrue};
ghost use Rattle.log_entries.specs.Spelling.{floor_bytes};
ghost use Rattle.log_entries.specs.Ranges.{IsFloor};
ghost use Rattle.log_entries.specs.Reading.{floor_at};
ghost use Rattle.log_entries.specs.Lengths.{floor_some};

use crate::entry::RelationFloor;
use crate::item::{Item, has_kind};
use byteorder::{ByteOrder, LittleEndian};
use history::LAST_TIME;
use std::alloc::{AllocError, Global};

/// The byte that a FLOOR begins with.
pub(crate) const FLOOR: u8 = 7;

/// How many bytes a FLOOR has.
pub(crate) const FLOOR_LEN: usize = 11;

#[tactic(auto, unfolding(crate::specs::Reading::floor_at))]
fn read_floor(bytes: &[u8]) -> RelationFloor
    requires { 11 ≤ length bytes.now }
    ensures { result ≡ floor_at bytes.now }
{
    RelationFloor {
        floor: LittleEndian::read_u64(&bytes[1..]),
        relation: LittleEndian::read_u16(&bytes[9..]),
    }
}

fn is_floor(floor: &RelationFloor) -> bool
    ensures { IsTrue result ↔ IsFloor floor.now }
{
    // Any relation has one.
    let _relation = floor.relation;
    1 <= floor.floor && floor.floor <= LAST_TIME
}

impl Item for RelationFloor {
    ghost bytes_of = { floor_bytes };

    ghost Is = { IsFloor };

    ghost some = { floor_some };

    fn take(_alloc: Global, bytes: &[u8]) -> Result<Option<(RelationFloor, &[u8])>, AllocError> {
        if !has_kind(bytes, FLOOR, FLOOR_LEN) {
            return Ok(None);
        }
        let floor = read_floor(bytes);
        if !is_floor(&floor) {
            return Ok(None);
        }
        Ok(Some((floor, &bytes[FLOOR_LEN..])))
    }
}
