//! Records of the heap: what a write is stored as, and what a stored record writes.
use crate::area_bytes::begin_with;
use crate::worked_bytes::KEY;
use deltas::{
    Content, EXTENT_LEN, Record, RecordList, apply, encode_write, fill_extent, laws, pack,
};
use std::alloc::Global;
use std::test::Fail;
use wire::{Value, ValueFault};

/// The fields of a value, or none where there is no value.
type Given = Option<&'static [&'static [u8]]>;

fn value_of(alloc: Global, given: Given) -> Result<Option<Value>, ValueFault> {
    match given {
        Some(fields) => Ok(Some(Value::new(alloc, fields)?)),
        None => Ok(None),
    }
}

/// What a write over a previous value is stored as; none where memory is short.
fn stored(alloc: Global, previous: Given, write: Given) -> Option<Content> {
    let Ok(previous) = value_of(alloc, previous) else {
        return None;
    };
    let Ok(write) = value_of(alloc, write) else {
        return None;
    };
    encode_write(alloc, previous.as_ref(), write.as_ref()).ok()
}

/// Whether the one record of this content fills an extent with these bytes alone.
fn fills(records: &[Record], bytes: &[u8]) -> bool {
    let mut image = [0xff; EXTENT_LEN];
    let filled = fill_extent(&mut RecordList::new(records), 1, 0, &mut image);
    filled.records == 1 && filled.used as usize == bytes.len() && begin_with(&image[16..], bytes)
}

/// Whether these records are packed into one extent, with these bytes.
fn packs(alloc: Global, records: &[Record], bytes: &[u8]) -> bool {
    match pack(alloc, records) {
        Ok(bodies) => matches!(bodies.as_slice(), [body] if body.bytes() == bytes),
        Err(_) => false,
    }
}

/// Whether the record of this content for the key has these bytes, packed and filled into an
/// extent.
fn is_spelled(alloc: Global, content: Content, bytes: &[u8]) -> bool {
    let records = [Record { key: KEY, content }];
    packs(alloc, &records, bytes) && fills(&records, bytes)
}

/// A write over a previous value, and the bytes that it is stored as.
#[derive(Clone, Copy)]
struct Write {
    what: &'static str,
    previous: Given,
    write: Given,
    bytes: &'static [u8],
}

const WRITES: &[Write] = &[
    Write {
        what: "a first value",
        previous: None,
        write: Some(&[b"a"]),
        bytes: b"\x01\x01\0\x07\0\0\0\0\0\0\0\x01\x01a",
    },
    Write {
        what: "another second field",
        previous: Some(&[b"a", b"b"]),
        write: Some(&[b"a", b"c"]),
        bytes: b"\x02\x01\0\x07\0\0\0\0\0\0\0\x02\0\x01c",
    },
    Write {
        what: "another first field",
        previous: Some(&[b"a", b"c"]),
        write: Some(&[b"d", b"c"]),
        bytes: b"\x02\x01\0\x07\0\0\0\0\0\0\0\x01\0\x01d",
    },
    Write {
        what: "the same three fields",
        previous: Some(&[b"a", b"a", b"a"]),
        write: Some(&[b"a", b"a", b"a"]),
        bytes: b"\x02\x01\0\x07\0\0\0\0\0\0\0\0\0",
    },
    Write {
        what: "a whole value where that is shorter",
        previous: Some(&[b"a"]),
        write: Some(&[b"b"]),
        bytes: b"\x01\x01\0\x07\0\0\0\0\0\0\0\x01\x01b",
    },
    Write {
        what: "a whole value where that is as short",
        previous: Some(&[b""]),
        write: Some(&[b""]),
        bytes: b"\x01\x01\0\x07\0\0\0\0\0\0\0\x01\0",
    },
    Write {
        what: "another number of fields",
        previous: Some(&[b"a"]),
        write: Some(&[b"a", b"b"]),
        bytes: b"\x01\x01\0\x07\0\0\0\0\0\0\0\x02\x01a\x01b",
    },
    Write {
        what: "no value any more",
        previous: Some(&[b"a"]),
        write: None,
        bytes: b"\x03\x01\0\x07\0\0\0\0\0\0\0",
    },
];

/// From 130 on the key has the value c.
const OLD: [u8; 22] = [
    4, 1, 0, 7, 0, 0, 0, 0, 0, 0, 0, 0x82, 0, 0, 0, 0, 0, 0, 0, 1, 1, 0x63,
];

fn is_stored(alloc: Global, row: &Write) -> bool {
    match stored(alloc, row.previous, row.write) {
        Some(content) => is_spelled(alloc, content, row.bytes),
        None => false,
    }
}

#[test]
fn writes_are_stored_byte_for_byte(rt: HostRuntime) -> Result<(), Fail> {
    for row in WRITES {
        assert!(rt; is_stored(rt.alloc(), row), "{}", row.what);
    }
    let value = Value::new(rt.alloc(), &[b"c"])?;
    assert!(rt; is_spelled(rt.alloc(), Content::Old { from: 130, value }, &OLD));
    Ok(())
}

/// What a write over a previous value is stored as, and what that writes over another value: a
/// value or none, or nothing where it is no record of a commit.
#[derive(Clone, Copy)]
struct Applied {
    what: &'static str,
    previous: Given,
    write: Given,
    over: Given,
    want: Option<Given>,
}

const APPLIED: &[Applied] = &[
    Applied {
        what: "a delta",
        previous: Some(&[b"a", b"c"]),
        write: Some(&[b"d", b"c"]),
        over: Some(&[b"a", b"c"]),
        want: Some(Some(&[b"d", b"c"])),
    },
    Applied {
        what: "a delta over no value",
        previous: Some(&[b"a", b"c"]),
        write: Some(&[b"d", b"c"]),
        over: None,
        want: None,
    },
    Applied {
        what: "an anchor where a delta is due",
        previous: None,
        write: Some(&[b"a", b"c"]),
        over: Some(&[b"a", b"b"]),
        want: None,
    },
    Applied {
        what: "an anchor",
        previous: None,
        write: Some(&[b"a", b"c"]),
        over: None,
        want: Some(Some(&[b"a", b"c"])),
    },
    Applied {
        what: "a deletion",
        previous: Some(&[b"a"]),
        write: None,
        over: Some(&[b"a"]),
        want: Some(None),
    },
    Applied {
        what: "a deletion of no value",
        previous: Some(&[b"a"]),
        write: None,
        over: None,
        want: None,
    },
];

/// Whether these are the same: a value and its fields, or no value.
fn is_written(alloc: Global, written: &Option<Value>, given: Given) -> bool {
    match (written, value_of(alloc, given)) {
        (Some(written), Ok(Some(value))) => written.is_same(&value),
        (None, Ok(None)) => true,
        _ => false,
    }
}

/// Whether this content writes over a row's other value what the row says.
fn writes(alloc: Global, content: &Content, row: &Applied) -> bool {
    let Ok(over) = value_of(alloc, row.over) else {
        return false;
    };
    match (apply(alloc, over.as_ref(), content), row.want) {
        (Ok(Some(written)), Some(want)) => is_written(alloc, &written, want),
        (Ok(None), None) => true,
        _ => false,
    }
}

fn is_applied(alloc: Global, row: &Applied) -> bool {
    match stored(alloc, row.previous, row.write) {
        Some(content) => writes(alloc, &content, row),
        None => false,
    }
}

#[test]
fn stored_records_write_what_they_were_stored_for(rt: HostRuntime) {
    laws::stored_is_written();
    for row in APPLIED {
        assert!(rt; is_applied(rt.alloc(), row), "{}", row.what);
    }
}
