//! Extents as bytes.

ghost use Rattle.std.specs.Prelude.{◌≡◌, ◌≤◌, ◌-◌, ◌∷◌, ◌++◌, length, drop, replicate};
ghost use Rattle.wire.specs.Numbers.{u32_bytes};
ghost use Rattle.log_extents.specs.Extents.{linked_bytes};

use crate::extent::HEAD_LEN;
use byteorder::{ByteOrder, LittleEndian};
use deltas::EXTENT_LEN;

// The bytes, and zeros behind them.
fn put_body(part: &mut [u8], body: &[u8])
    requires part { length part.old ≡ 8168 }
    requires fits { length body.now ≤ 8168 }
    ensures { part.new ≡ body.now ++ replicate (8168 - length body.now) 0 }
{
    part[..body.len()].copy_from_slice(body);
    part[body.len()..].fill(0);
}

// What stands before the body, with a closed gate.
#[tactic(auto, unfolding(wire::specs::Numbers::u32_bytes))]
fn put_head(image: &mut [u8], number: u32, next: u32, used: u32, link: u32)
    requires { 24 ≤ length image.old }
    ensures { image.new ≡ 0 ∷ 0 ∷ 0 ∷ 0 ∷ (u32_bytes number ++ u32_bytes next ++ u32_bytes used ++ u32_bytes link ++ u32_bytes 0 ++ drop 24 image.old) }
{
    LittleEndian::write_u32(image, 0);
    LittleEndian::write_u32(&mut image[4..], number);
    LittleEndian::write_u32(&mut image[8..], next);
    LittleEndian::write_u32(&mut image[12..], used);
    LittleEndian::write_u32(&mut image[16..], link);
    LittleEndian::write_u32(&mut image[20..], 0);
}

/// Writes all bytes of an extent: its gate is closed, and after its part of the chain's bytes come
/// zeros.
pub fn fill_extent(link: u32, number: u32, next: u32, body: &[u8], image: &mut [u8; EXTENT_LEN])
    requires { length body.now ≤ 8168 }
    ensures { image.new ≡ linked_bytes (record { gate = 0; number = number; next = next; link = link; body = body.now }) }
{
    put_body(&mut image[HEAD_LEN..], body);
    put_head(image, number, next, body.len() as u32, link);
}
