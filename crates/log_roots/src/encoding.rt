//! The header as bytes.
ghost use Rattle.std.specs.Prelude.{◌≡◌, ◌≤◌, ◌∷◌, ◌++◌, length, drop};
ghost use Rattle.byteorder.specs.Endian.{little_bytes};
ghost use Rattle.wire.specs.Numbers.{u32_bytes};
ghost use Rattle.status.specs.Header.{header_front};
ghost use Rattle.log_roots.specs.Roots.{IsRoots, turn_gate, roots_bytes, HasRoots};

use crate::roots::{HEADER_LEN, PROFILE, Roots};
use byteorder::{ByteOrder, LittleEndian};

/// The value of a gate that is open. Any other value is a closed gate.
pub(crate) const OPEN: u8 = 0xC7;

// What a status area begins with, whatever its profile.
const NAME: [u8; 8] = *b"NOOVER01";

// The name, the profile and the number of extents.
fn put_front(bytes: &mut [u8], extents: u32)
    requires { 16 ≤ length bytes.old }
    ensures { bytes.new ≡ header_front 4 extents ++ drop 16 bytes.old }
{
    bytes[..8].copy_from_slice(&NAME);
    LittleEndian::write_u32(&mut bytes[8..], PROFILE);
    LittleEndian::write_u32(&mut bytes[12..], extents);
}

// The turn gate, three zeros and the two roots.
#[tactic(auto, unfolding(wire::specs::Numbers::u32_bytes))]
fn put_roots(bytes: &mut [u8], gate: u8, root_0: u32, root_1: u32)
    requires { 12 ≤ length bytes.old }
    ensures { bytes.new ≡ gate ∷ 0 ∷ 0 ∷ 0 ∷ (u32_bytes root_0 ++ u32_bytes root_1 ++ drop 12 bytes.old) }
{
    bytes[..4].copy_from_slice(&[gate, 0, 0, 0]);
    LittleEndian::write_u32(&mut bytes[4..], root_0);
    LittleEndian::write_u32(&mut bytes[8..], root_1);
}

/// The header with this turn gate.
pub(crate) fn encode_with(gate: u8, roots: &Roots) -> [u8; HEADER_LEN]
    ensures { result ≡ roots_bytes gate roots.now }
{
    let mut bytes = [0; HEADER_LEN];
    put_roots(&mut bytes[16..], gate, roots.root_0, roots.root_1);
    put_front(&mut bytes, roots.extents);
    bytes
}

/// The first 512 bytes of the status area. A closed turn gate is written as 0.
pub fn encode(roots: &Roots) -> [u8; HEADER_LEN]
    ensures is { result ≡ roots_bytes (turn_gate roots.now.turned) roots.now }
    ensures read { IsRoots roots.now → HasRoots result roots.now }
{
    let gate = if roots.turned { OPEN } else { 0 };
    encode_with(gate, roots)
}
