//! The bytes of a record, made in place.
ghost use Rattle.std.specs.Prelude.{◌≡◌, ◌+◌, ◌≤◌, [], ◌∷◌, ◌++◌, length, take};
ghost use Rattle.wire.specs.Numbers.{u16_bytes, u64_bytes};
ghost use Rattle.wire.specs.Fields.{fields_bytes};
ghost use Rattle.archive.specs.Answers.{record_of};
ghost use Rattle.archive.specs.declared.head.Head.{Head};
ghost use Rattle.archive.specs.Records.{head_bytes, record_bytes};

use crate::Head;
use byteorder::{ByteOrder, LittleEndian};
use wire::Value;

/// Writes bytes from a place on, and tells where they end.
fn put(out: &mut [u8], at: usize, bytes: &[u8]) -> usize
    requires { at + length bytes.now ≤ length out.old }
    ensures end { result ≡ at + length bytes.now }
    ensures front { take result out.new ≡ take at out.old ++ bytes.now }
{
    let end = at + bytes.len();
    out[at..end].copy_from_slice(bytes);
    end
}

#[tactic(auto, unfolding(wire::specs::Numbers::u16_bytes))]
fn put_u16(out: &mut [u8], at: usize, number: u16) -> usize
    requires { at + 2 ≤ length out.old }
    ensures end { result ≡ at + 2 }
    ensures front { take result out.new ≡ take at out.old ++ u16_bytes number }
{
    let mut bytes = [0; 2];
    LittleEndian::write_u16(&mut bytes, number);
    put(out, at, &bytes)
}

#[tactic(auto, unfolding(wire::specs::Numbers::u64_bytes))]
fn put_u64(out: &mut [u8], at: usize, number: u64) -> usize
    requires { at + 8 ≤ length out.old }
    ensures end { result ≡ at + 8 }
    ensures front { take result out.new ≡ take at out.old ++ u64_bytes number }
{
    let mut bytes = [0; 8];
    LittleEndian::write_u64(&mut bytes, number);
    put(out, at, &bytes)
}

/// Writes a place of the index to the beginning of the buffer, 8 bytes.
pub(crate) fn encode_place(place: u64, out: &mut [u8]) -> usize
    requires { 8 ≤ length out.old }
    ensures len { result ≡ 8 }
    ensures bytes { take result out.new ≡ u64_bytes place }
{
    put_u64(out, 0, place)
}

/// Writes a head to the beginning of the buffer, 26 bytes.
fn encode_head(head: &Head, out: &mut [u8]) -> usize
    requires { 26 ≤ length out.old }
    ensures len { result ≡ 26 }
    ensures bytes { take result out.new ≡ head_bytes (record_of head.now []) }
{
    let at = put_u16(out, 0, head.key.relation);
    let at = put_u64(out, at, head.key.record);
    let at = put_u64(out, at, head.from);
    put_u64(out, at, head.to)
}

/// How many bytes the record of this value has: 28 to 4,123.
pub(crate) fn record_len(value: &Value) -> usize
    ensures is { (head : Head) → result ≡ length (record_bytes (record_of head value.now)) }
    ensures least { 28 ≤ result }
    ensures most { result ≤ 4123 }
{
    let _fields = value.len();
    27 + value.fields().spelled().len()
}

/// Writes a record to the beginning of the buffer, and tells its length.
pub(crate) fn encode_record(head: &Head, value: &Value, out: &mut [u8]) -> usize
    requires { 4123 ≤ length out.old }
    ensures most { result ≤ 4123 }
    ensures bytes { take result out.new ≡ record_bytes (record_of head.now value.now) }
{
    let at = encode_head(head, out);
    let at = put(out, at, &[value.len()]);
    put(out, at, value.fields().spelled())
}
