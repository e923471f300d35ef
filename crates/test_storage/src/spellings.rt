//! Values, and slots of the log byte for byte.
use crate::area_bytes::{begin_with, put};
use crate::worked_bytes::{COMMIT_BODY, RUN, Said, body_of, profile_of};
use std::alloc::{AllocError, Global};
use wire::{
    Anchors, BadSlot, Fields, Slot, Value, ValueFault, decode_encoded, decode_slot, encode_slot,
    is_in_range, one_spelling, one_value, put_fields, take_fields,
};

/// A slot of a store of this profile, and how its bytes begin. Zeros follow.
#[derive(Clone, Copy)]
struct SpelledSlot {
    profile: u32,
    number: u32,
    said: Said,
    front: &'static [u8],
}

const NO_ANCHORS: Anchors = Anchors {
    upto: 120,
    first: 0,
    extents: 0,
    records: 0,
};

const SPELLED: &[SpelledSlot] = &[
    SpelledSlot {
        profile: 1,
        number: 0,
        said: Said::Commit,
        front: &COMMIT_BODY,
    },
    SpelledSlot {
        profile: 1,
        number: 4,
        said: Said::Run(RUN),
        front: b"\x02\0\0\x04\0\0\0\x78\0\0\0\0\0\0\0\0\0\0\0\0\0\0\0\x4a\0\0\0\0\0\0\0\x02",
    },
    SpelledSlot {
        profile: 1,
        number: 5,
        said: Said::Reclaim(NO_ANCHORS),
        front: b"\x03\0\0\x05\0\0\0\x78",
    },
    SpelledSlot {
        profile: 1,
        number: 6,
        said: Said::Floor(None, 120),
        front: b"\x04\0\0\x06\0\0\0\x78",
    },
    SpelledSlot {
        profile: 3,
        number: 4,
        said: Said::Floor(Some(1), 115),
        front: b"\x04\0\0\x04\0\0\0\x73\0\0\0\0\0\0\0\x01",
    },
];

/// Whether a slot has its bytes, is in range, and is read from them.
fn is_spelled(row: &SpelledSlot) -> bool {
    let slot = Slot {
        number: row.number,
        body: body_of(&row.said),
    };
    begin_with(&encode_slot(profile_of(row.profile), &slot), row.front)
        && is_in_range(profile_of(row.profile), &slot.body)
        && decode_encoded(profile_of(row.profile), &slot).is_ok()
}

#[test]
fn slots_are_spelled_byte_for_byte(rt: HostRuntime) {
    one_spelling();
    for row in SPELLED {
        assert!(rt; is_spelled(row), "slot {} of {}", row.number, row.profile);
    }
    assert!(rt; !is_in_range(profile_of(2), &body_of(&Said::Floor(Some(1), 115))));
}

/// Bytes of the slot of one commit that are changed: where, to what, and what is wrong then.
const CHANGED: &[(u16, u8, Option<BadSlot>)] = &[
    (0, 1, None),
    (0, 5, Some(BadSlot::Kind)),
    (1, 0, Some(BadSlot::Count)),
    (1, 17, Some(BadSlot::Count)),
    (3, 1, Some(BadSlot::Number)),
    (27, 2, Some(BadSlot::Range)),
    (2, 1, Some(BadSlot::Rest)),
    (510, 1, Some(BadSlot::Rest)),
];

/// What is wrong with the slot of one commit once this byte is changed.
fn fault(at: u16, byte: u8) -> Option<BadSlot> {
    let mut bytes = [0; 511];
    put(&mut bytes, 0, &COMMIT_BODY);
    put(&mut bytes, at, &[byte]);
    decode_slot(profile_of(1), 0, &bytes).err()
}

#[test]
fn the_least_fault_of_a_slot_is_told(rt: HostRuntime) {
    for (at, byte, want) in CHANGED {
        assert!(rt; fault(*at, *byte) == *want, "at {at} {byte}");
    }
}

/// Whether a value of two fields has these alone, and so has its copy.
fn has_its_fields(alloc: Global) -> bool {
    let Ok(value) = Value::new(alloc, &[b"a", b""]) else {
        return false;
    };
    let Ok(copy) = value.copy(alloc) else {
        return false;
    };
    value.len() == 2
        && value.field(0) == Some(b"a")
        && value.field(2).is_none()
        && value.is_same(&copy)
}

#[test]
fn a_value_has_its_fields(rt: HostRuntime) {
    one_value();
    assert!(rt; has_its_fields(rt.alloc()));
}

/// The bytes that a value is put as behind one byte and before another.
fn put_between(alloc: Global, value: &Value) -> Result<Vec<u8>, AllocError> {
    let mut bytes = [7].to_vec(alloc)?;
    put_fields(&mut bytes, value)?;
    bytes.push(9)?;
    Ok(bytes)
}

/// Whether this value is taken from the front of these bytes, and these are left.
fn is_taken(alloc: Global, value: &Value, bytes: &[u8], left: &[u8]) -> bool {
    match take_fields(alloc, bytes) {
        Ok(Some((read, rest))) => read.is_same(value) && rest == left,
        _ => false,
    }
}

/// Whether a value of two fields has its bytes, and is taken from them.
fn is_put_and_taken(alloc: Global) -> bool {
    let Ok(value) = Value::new(alloc, &[b"a", b""]) else {
        return false;
    };
    match put_between(alloc, &value) {
        Ok(bytes) => {
            bytes.as_slice() == [7, 2, 1, 97, 0, 9].as_slice()
                && is_taken(alloc, &value, &bytes[1..], &[9])
        }
        Err(_) => false,
    }
}

#[test]
fn a_value_is_put_and_taken(rt: HostRuntime) {
    assert!(rt; is_put_and_taken(rt.alloc()));
}

/// Bytes that are cut within a value.
const CUT: &[&[u8]] = &[&[0, 1], &[1, 2, 97]];

#[test]
fn cut_bytes_are_no_value(rt: HostRuntime) {
    for bytes in CUT {
        assert!(rt;
            matches!(take_fields(rt.alloc(), bytes), Ok(None)),
            "{} bytes",
            bytes.len()
        );
    }
}

const ONE: &[u8] = b"a";

const LONGEST: &[u8] = &[0; 255];

const TOO_LONG: &[u8] = &[0; 256];

/// Fields, and why no value has them: a value has 1 to 16 fields, each of at most 255 bytes.
const SIZES: &[(&str, &[&[u8]], Option<ValueFault>)] = &[
    ("no field", &[], Some(ValueFault::BadValue)),
    ("17 fields", &[ONE; 17], Some(ValueFault::BadValue)),
    (
        "a field of 256 bytes",
        &[TOO_LONG],
        Some(ValueFault::BadValue),
    ),
    ("16 fields of 255 bytes", &[LONGEST; 16], None),
];

/// Whether this is the first of so many fields, where it is not refused.
fn counts_with(alloc: Global, field: &[u8], count: Option<u8>) -> bool {
    match Fields::none(alloc).with(field) {
        Ok(Some(fields)) => Some(fields.count()) == count,
        Ok(None) => count.is_none(),
        Err(_) => false,
    }
}

#[test]
fn fields_of_other_sizes_are_no_value(rt: HostRuntime) {
    let alloc = rt.alloc();
    for (what, fields, fault) in SIZES {
        assert!(rt; Value::new(alloc, fields).err() == *fault, "{what}");
    }
    assert!(rt; Value::of(Fields::none(alloc)).is_none());
    assert!(rt; counts_with(alloc, TOO_LONG, None) && counts_with(alloc, ONE, Some(1)));
}
