//! Bytes as a header.
ghost use Rattle.std.specs.Prelude.{◌≡◌, ◌↔◌, ◌+◌, ◌≤◌, length, drop, IsTrue, IfSome, Some, slice_index};
ghost use Rattle.byteorder.specs.Endian.{little_number};
ghost use Rattle.log_roots.specs.declared.roots.Roots.{Roots};
ghost use Rattle.log_roots.specs.Roots.{IsRoots, is_open, roots_bytes, roots_at, HasRoots};

use crate::encoding::{OPEN, encode_with};
use crate::roots::{HEADER_LEN, Roots};
use byteorder::{ByteOrder, LittleEndian};

// The number of four bytes at this place.
fn number_at(bytes: &[u8], place: usize) -> u32
    requires { place + 4 ≤ length bytes.now }
    ensures { result ≡ little_number 4 (drop place bytes.now) }
{
    LittleEndian::read_u32(&bytes[place..])
}

// The numbers at their places, right or wrong.
#[tactic(auto, unfolding(crate::specs::Roots::roots_at))]
fn read_roots(bytes: &[u8]) -> Roots
    requires { length bytes.now ≡ 512 }
    ensures is { result ≡ roots_at bytes.now }
    ensures turned { result.turned ≡ is_open (slice_index bytes.now 16) }
{
    Roots {
        extents: number_at(bytes, 12),
        turned: bytes[16] == OPEN,
        root_0: number_at(bytes, 20),
        root_1: number_at(bytes, 24),
    }
}

// Whether the roots are in range and these are their bytes: they are written again, and compared.
fn is_said(roots: &Roots, bytes: &[u8; HEADER_LEN]) -> bool
    ensures { IsTrue result ↔ IsRoots roots.now × (bytes.now ≡ roots_bytes (slice_index bytes.now 16) roots.now) }
{
    roots.is_in_range() && encode_with(bytes[16], roots).as_slice() == bytes.as_slice()
}

/// What the first 512 bytes of a status area say, if they are the header of a store whose log lies
/// in the heap and the root that counts is one of its extents. Any value of the turn gate but the
/// open one is a closed gate, and the other root may be anything.
pub fn decode(bytes: &[u8; HEADER_LEN]) -> Option<Roots>
    ensures found { IfSome result (HasRoots bytes.now) }
    ensures only { (roots : Roots) → HasRoots bytes.now roots → result ≡ Some roots }
{
    let roots = read_roots(bytes);
    let is_said = is_said(&roots, bytes);
    if is_said { Some(roots) } else { None }
}
