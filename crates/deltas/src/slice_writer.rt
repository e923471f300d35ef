//! Records written to their place among bytes.

ghost use Rattle.std.specs.Prelude.{◌≡◌, ◌++◌, ◌+◌, ◌≤◌, [], ◌∷◌, length, take, drop};
ghost use Rattle.wire.specs.Numbers.{u16_bytes, u32_bytes, u64_bytes};
ghost use Rattle.wire.specs.Fields.{field_bytes, fields_bytes};
ghost use Rattle.wire.specs.Values.{value_bytes};
ghost use Rattle.law_image.specs.Facts.{mask_of, changed_of};
ghost use Rattle.deltas.specs.Records.{kind_of, rest_of, spelling};
ghost use Rattle.deltas.specs.Loans.{content_of_loan, record_of_loan};
ghost use Rattle.deltas.specs.Images.{IsSameFrom};

use crate::changes::{changed_len, mask};
use crate::record_ref::{ContentRef, RecordRef};
use byteorder::{ByteOrder, LittleEndian};
use history::Key;
use wire::{FieldsIter, Value};

// Writes the bytes from this place on, and tells where they end. As each `put_` here, it changes
// nothing behind them.
fn put(out: &mut [u8], at: usize, bytes: &[u8]) -> usize
    requires { at + length bytes.now ≤ length out.old }
    ensures end { result ≡ at + length bytes.now }
    ensures front { take result out.new ≡ take at out.old ++ bytes.now }
    ensures behind { IsSameFrom result out.old out.new }
    ensures len { length out.new ≡ length out.old }
{
    let end = at + bytes.len();
    out[at..end].copy_from_slice(bytes);
    end
}

#[tactic(auto, unfolding(wire::specs::Numbers::u16_bytes))]
fn put_u16(out: &mut [u8], at: usize, number: u16) -> usize
    requires { at + 2 ≤ length out.old }
    ensures end { result ≡ at + 2 }
    ensures front { take result out.new ≡ take at out.old ++ u16_bytes number }
    ensures behind { IsSameFrom result out.old out.new }
    ensures len { length out.new ≡ length out.old }
{
    let mut bytes = [0; 2];
    LittleEndian::write_u16(&mut bytes, number);
    put(out, at, &bytes)
}

#[tactic(auto, unfolding(wire::specs::Numbers::u64_bytes))]
fn put_u64(out: &mut [u8], at: usize, number: u64) -> usize
    requires { at + 8 ≤ length out.old }
    ensures end { result ≡ at + 8 }
    ensures front { take result out.new ≡ take at out.old ++ u64_bytes number }
    ensures behind { IsSameFrom result out.old out.new }
    ensures len { length out.new ≡ length out.old }
{
    let mut bytes = [0; 8];
    LittleEndian::write_u64(&mut bytes, number);
    put(out, at, &bytes)
}

fn put_value(out: &mut [u8], at: usize, value: &Value) -> usize
    requires { at + length (value_bytes value.now) ≤ length out.old }
    ensures end { result ≡ at + length (value_bytes value.now) }
    ensures front { take result out.new ≡ take at out.old ++ value_bytes value.now }
    ensures behind { IsSameFrom result out.old out.new }
    ensures len { length out.new ≡ length out.old }
{
    let fields = put(out, at, &[value.len()]);
    put(out, fields, value.fields().spelled())
}

fn put_key(out: &mut [u8], at: usize, key: Key) -> usize
    requires { at + 10 ≤ length out.old }
    ensures end { result ≡ at + 10 }
    ensures front { take result out.new ≡ take at out.old ++ u16_bytes key.relation ++ u64_bytes key.record }
    ensures behind { IsSameFrom result out.old out.new }
    ensures len { length out.new ≡ length out.old }
{
    let number = put_u16(out, at, key.relation);
    put_u64(out, number, key.record)
}

fn put_field(out: &mut [u8], at: usize, field: &[u8]) -> usize
    requires short { length field.now ≤ 255 }
    requires room { at + length (field_bytes field.now) ≤ length out.old }
    ensures end { result ≡ at + length (field_bytes field.now) }
    ensures front { take result out.new ≡ take at out.old ++ field_bytes field.now }
    ensures behind { IsSameFrom result out.old out.new }
    ensures len { length out.new ≡ length out.old }
{
    let behind = put(out, at, &[field.len() as u8]);
    put(out, behind, field)
}

fn put_changed(out: &mut [u8], at: usize, olds: FieldsIter, news: FieldsIter) -> usize
    requires { at + length (fields_bytes (changed_of olds news)) ≤ length out.old }
    ensures end { result ≡ at + length (fields_bytes (changed_of olds.entry news.entry)) }
    ensures front { take result out.new ≡ take at out.old ++ fields_bytes (changed_of olds.entry news.entry) }
    ensures behind { IsSameFrom result out.old out.new }
    ensures len { length out.new ≡ length out.old }
{
    let mut olds = olds;
    let mut news = news;
    let (Some(a), Some(b)) = (olds.take_field(), news.take_field()) else {
        return at;
    };
    if a == b {
        return put_changed(out, at, olds, news);
    }
    let behind = put_field(out, at, b);
    put_changed(out, behind, olds, news)
}

#[tactic(auto, unfolding(wire::specs::Numbers::u16_bytes))]
fn put_delta(out: &mut [u8], at: usize, old: &Value, new: &Value) -> usize
    requires { at + (2 + length (fields_bytes (changed_of old.now new.now))) ≤ length out.old }
    ensures end { result ≡ at + (2 + length (fields_bytes (changed_of old.now new.now))) }
    ensures front { take result out.new ≡ take at out.old ++ u16_bytes (mask_of old.now new.now) ++ fields_bytes (changed_of old.now new.now) }
    ensures behind { IsSameFrom result out.old out.new }
    ensures len { length out.new ≡ length out.old }
{
    let _few = old.len();
    let fields = put_u16(out, at, mask(old.iter(), new.iter()));
    put_changed(out, fields, old.iter(), new.iter())
}

// How many bytes a mask has and the fields that it names.
fn delta_len(old: &Value, new: &Value) -> usize
    ensures is { result ≡ 2 + length (fields_bytes (changed_of old.now new.now)) }
    ensures short { result ≤ 4098 }
{
    let _few = old.len();
    2 + changed_len(old.iter(), new.iter())
}

/// The byte that a record of this content begins with.
pub fn kind(content: ContentRef) -> u8
    ensures { result ≡ kind_of (content_of_loan content.entry) }
{
    match content {
        ContentRef::Anchor(_) => 1,
        ContentRef::Delta { .. } | ContentRef::Changed { .. } => 2,
        ContentRef::Gone => 3,
        ContentRef::Old { .. } => 4,
    }
}

#[tactic(auto, unfolding(wire::specs::Numbers::u16_bytes, wire::specs::Numbers::u64_bytes))]
fn put_rest(out: &mut [u8], at: usize, content: ContentRef) -> usize
    requires { at + length (rest_of (content_of_loan content)) ≤ length out.old }
    ensures end { result ≡ at + length (rest_of (content_of_loan content.entry)) }
    ensures front { take result out.new ≡ take at out.old ++ rest_of (content_of_loan content.entry) }
    ensures behind { IsSameFrom result out.old out.new }
    ensures len { length out.new ≡ length out.old }
{
    match content {
        ContentRef::Anchor(value) => put_value(out, at, value),
        ContentRef::Delta { mask, changed } => {
            let fields = put_u16(out, at, mask);
            put(out, fields, changed.spelled())
        }
        ContentRef::Changed { old, new } => put_delta(out, at, old, new),
        ContentRef::Gone => at,
        ContentRef::Old { from, value } => {
            let behind = put_u64(out, at, from);
            put_value(out, behind, value)
        }
    }
}

/// Writes the one spelling of a record from this place on, and tells where it ends.
#[tactic(auto, unfolding(crate::specs::Records::spelling, wire::specs::Numbers::u16_bytes, wire::specs::Numbers::u64_bytes))]
pub fn put_record(out: &mut [u8], at: usize, one: RecordRef) -> usize
    requires { at + length (spelling (record_of_loan one)) ≤ length out.old }
    ensures end { result ≡ at + length (spelling (record_of_loan one.entry)) }
    ensures front { take result out.new ≡ take at out.old ++ spelling (record_of_loan one.entry) }
    ensures behind { IsSameFrom result out.old out.new }
    ensures len { length out.new ≡ length out.old }
{
    let key = put(out, at, &[kind(one.content)]);
    let rest = put_key(out, key, one.key);
    put_rest(out, rest, one.content)
}

#[tactic(auto, unfolding(wire::specs::Numbers::u16_bytes, wire::specs::Numbers::u64_bytes))]
fn rest_len(content: ContentRef) -> usize
    ensures is { result ≡ length (rest_of (content_of_loan content.entry)) }
    ensures short { result ≤ 4105 }
{
    match content {
        ContentRef::Anchor(value) => 1 + value.fields().spelled().len(),
        ContentRef::Delta { changed, .. } => 2 + changed.spelled().len(),
        ContentRef::Changed { old, new } => delta_len(old, new),
        ContentRef::Gone => 0,
        ContentRef::Old { value, .. } => 9 + value.fields().spelled().len(),
    }
}

/// How many bytes the spelling of a record has.
#[tactic(auto, unfolding(crate::specs::Records::spelling, wire::specs::Numbers::u16_bytes, wire::specs::Numbers::u64_bytes))]
pub fn loan_len(one: RecordRef) -> usize
    ensures is { result ≡ length (spelling (record_of_loan one.entry)) }
    ensures low { 11 ≤ result }
    ensures short { result ≤ 4116 }
{
    11 + rest_len(one.content)
}

/// Writes the header of an extent before its records, which have `used` bytes.
#[tactic(auto, unfolding(wire::specs::Numbers::u32_bytes))]
pub fn put_header(image: &mut [u8], number: u32, next: u32, used: u32)
    requires { 16 ≤ length image.old }
    ensures { image.new ≡ u32_bytes number ++ u32_bytes next ++ u32_bytes used ++ u32_bytes 0 ++ drop 16 image.old }
{
    LittleEndian::write_u32(image, number);
    LittleEndian::write_u32(&mut image[4..], next);
    LittleEndian::write_u32(&mut image[8..], used);
    LittleEndian::write_u32(&mut image[12..], 0);
}
