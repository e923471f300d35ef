//! The records that are written and asked for: values of four fields of 16 bytes.

use byteorder::{ByteOrder, LittleEndian};
use history::Key;
use store::SharedValue;

/// The relation of all records.
pub(crate) const RELATION: u16 = 1;

/// The keys that are written and asked for.
pub(crate) const KEYS: u64 = 1_000;

/// The versions of each key that a store to be asked has.
pub(crate) const VERSIONS: u64 = 100;

/// The time of the first version, in microseconds since 1970.
pub(crate) const FIRST_TIME: u64 = 1_700_000_000_000_000;

/// The microseconds from one version to the next.
pub(crate) const STEP: u64 = 15_625;

/// The bytes of a field.
const FIELD_LEN: usize = 16;

/// The bytes of a value's fields.
pub(crate) const VALUE_LEN: usize = 64;

pub(crate) fn key(record: u64) -> Key {
    Key {
        relation: RELATION,
        record,
    }
}

/// A field of two numbers.
fn pair(first: u64, second: u64) -> [u8; FIELD_LEN] {
    let mut field = [0; FIELD_LEN];
    field[..8].copy_from_slice(&first.to_le_bytes());
    field[8..].copy_from_slice(&second.to_le_bytes());
    field
}

/// The fields of a record's version: the first is the record's number and the version's. Each of them
/// changes from version to version.
pub(crate) fn fields(record: u64, version: u64) -> [[u8; FIELD_LEN]; 4] {
    let mixed = record.wrapping_add(1).wrapping_mul(0x9E37_79B9_7F4A_7C15)
        ^ version.wrapping_add(1).wrapping_mul(0xD1B5_4A32_D192_ED03);
    [
        pair(record, version),
        pair(mixed, mixed.rotate_left(13)),
        pair(mixed.rotate_left(29), mixed.rotate_left(37)),
        pair(mixed.rotate_left(43), mixed.rotate_left(53)),
    ]
}

/// The fields as a commit takes them.
pub(crate) fn slices(fields: &[[u8; FIELD_LEN]; 4]) -> [&[u8]; 4] {
    let [first, second, third, fourth] = fields;
    [
        first.as_slice(),
        second.as_slice(),
        third.as_slice(),
        fourth.as_slice(),
    ]
}

/// Whether a value is that of a record's version, by its first field, compared as two numbers.
pub(crate) fn is_version(value: &SharedValue, record: u64, version: u64) -> bool {
    match value.value().field(0) {
        Some(field) if field.len() == FIELD_LEN => {
            LittleEndian::read_u64(field) == record
                && LittleEndian::read_u64(&field[8..]) == version
        }
        _ => false,
    }
}
