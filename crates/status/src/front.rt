//! The first 512 bytes of a status area.
ghost use Rattle.std.specs.Prelude.{◌≡◌, ◌≢◌, ◌↔◌, ℕ, ◌<◌, ◌≤◌, ◌++◌, length, take, drop, slice_index, codes, IsTrue, IfSome, IfNone};
ghost use Rattle.byteorder.specs.Endian.{little_number, little_bytes};
ghost use Rattle.wire.specs.Profiles.{IsProfile};
ghost use Rattle.status.specs.Header.{zeros_from, HasNumbers, Says, IsFront, header_front, new_header};

use crate::header::Header;
use crate::sizes::{FRONT_BYTES, LEAST_SLOTS, MOST_TOTAL};
use crate::turn::OPEN;
use byteorder::{ByteOrder, LittleEndian};
use wire::Profile;

const NAME: [u8; 8] = *b"NOOVER01";

// Where the gates of the pieces stand, 255 of them.
const GATES: usize = 16;

const GATES_END: usize = 271;

// How many of the gates are open before the first closed one.
fn open_pieces(gates: &[u8]) -> usize
    ensures few { result ≤ length gates.now }
    ensures open { (i : ℕ) → i < result → slice_index gates.now i ≡ 0xC7 }
    ensures next { result < length gates.now → slice_index gates.now result ≢ 0xC7 }
{
    for (i, gate) in gates.iter().enumerate() {
        if *gate != OPEN {
            return i;
        }
    }
    gates.len()
}

// The profile of a front; none where its number is no profile's.
fn profile_of(front: &[u8; FRONT_BYTES]) -> Option<Profile>
    ensures some { IfSome result (λ profile. little_number 4 (drop 8 front.now) ≡ profile) }
    ensures none { IfNone result (¬ IsProfile (little_number 4 (drop 8 front.now))) }
{
    Profile::of(LittleEndian::read_u32(&front[8..]))
}

// The numbers of a front of this profile, right or wrong.
fn numbers_of(profile: Profile, front: &[u8; FRONT_BYTES]) -> Header
    requires { little_number 4 (drop 8 front.now) ≡ profile }
    ensures { Says result front.now }
{
    Header {
        profile,
        slots: LittleEndian::read_u32(&front[12..]),
        pieces: open_pieces(&front[GATES..GATES_END]) as u32,
    }
}

fn are_zeros(bytes: &[u8]) -> bool
    ensures { IsTrue result ↔ ((k : ℕ) → k < length bytes.now → slice_index bytes.now k ≡ 0) }
{
    bytes.iter().all(|byte| *byte == 0)
}

fn is_header(header: &Header) -> bool
    ensures { IsTrue result ↔ HasNumbers header.now }
{
    LEAST_SLOTS <= header.slots
        && (header.profile.has_pieces() || header.pieces == 0)
        && header.total() <= MOST_TOTAL
}

fn zeros_follow(profile: Profile, front: &[u8; FRONT_BYTES]) -> bool
    ensures { IsTrue result ↔ ((k : ℕ) → zeros_from profile ≤ k → k < 512 → slice_index front.now k ≡ 0) }
{
    if profile.has_pieces() {
        are_zeros(&front[GATES_END..])
    } else {
        are_zeros(&front[GATES..])
    }
}

fn is_named(front: &[u8; FRONT_BYTES]) -> bool
    ensures { IsTrue result ↔ (take 8 front.now ≡ codes "NOOVER01") }
{
    &front[..8] == NAME.as_slice()
}

/// The header that the first 512 bytes of a status area are, if they are one.
pub fn decode_header(front: &[u8; FRONT_BYTES]) -> Option<Header>
    ensures found { IfSome result (λ header. IsFront header front.now) }
    ensures none { IfNone result ((header : Header) → ¬ IsFront header front.now) }
{
    let header = numbers_of(profile_of(front)?, front);
    if is_named(front) && is_header(&header) && zeros_follow(header.profile, front) {
        Some(header)
    } else {
        None
    }
}

fn u32_le(number: u32) -> [u8; 4]
    ensures { result ≡ little_bytes 4 number }
{
    let mut bytes = [0; 4];
    LittleEndian::write_u32(&mut bytes, number);
    bytes
}

// What stands before the gates.
fn first_bytes(profile: Profile, slots: u32) -> [u8; 16]
    ensures { result ≡ header_front profile slots }
{
    let p = u32_le(profile.number());
    let s = u32_le(slots);
    [
        b'N', b'O', b'O', b'V', b'E', b'R', b'0', b'1', p[0], p[1], p[2], p[3], s[0], s[1], s[2],
        s[3],
    ]
}

fn put_front(bytes: &mut [u8], front: &[u8])
    requires { length front.now ≤ length bytes.old }
    ensures { bytes.new ≡ front.now ++ drop (length front.now) bytes.old }
{
    bytes[..front.len()].copy_from_slice(front);
}

/// The first 512 bytes of a new status area: no piece is open.
pub fn encode_header(profile: Profile, slots: u32) -> [u8; FRONT_BYTES]
    ensures is { HasNumbers (new_header profile slots) → IsFront (new_header profile slots) result }
    ensures zeros { (k : ℕ) → 16 ≤ k → slice_index result k ≡ 0 }
{
    let mut bytes = [0; FRONT_BYTES];
    put_front(&mut bytes, &first_bytes(profile, slots));
    bytes
}
