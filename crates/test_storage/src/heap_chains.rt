//! Chains of extents: packed, sealed, filled one by one, and changed.
use crate::area_bytes::{begin_with, put};
use crate::worked_bytes::{ANCHOR, EXTENT_FRONT};
use deltas::{
    ChainName, Content, EXTENT_LEN, ExtentBody, ExtentCount, Image, Kinds, Record, RecordList,
    RecordSource, count_extents, fill_extent, laws, pack, seal, unpack,
};
use history::Key;
use std::alloc::Global;
use wire::Value;

/// So many records that say that a key of relation 1 has the value of these fields, each of the next
/// key.
#[derive(Clone, Copy)]
struct Records {
    first: u64,
    count: u64,
    fields: &'static [&'static [u8]],
}

/// The record whose bytes `ANCHOR` has.
const SEVEN: Records = Records {
    first: 7,
    count: 1,
    fields: &[b"a"],
};

/// The longest field.
const LONGEST: &[u8] = &[0; 255];

/// Two of the longest records.
const TWO_LONG: Records = Records {
    first: 1,
    count: 2,
    fields: &[LONGEST; 16],
};

/// That many records of 14 bytes.
fn short(count: u64) -> Records {
    Records {
        first: 0,
        count,
        fields: &[b"a"],
    }
}

fn record_of(alloc: Global, record: u64, fields: &[&[u8]]) -> Option<Record> {
    let key = Key {
        relation: 1,
        record,
    };
    let content = Content::Anchor(Value::new(alloc, fields).ok()?);
    Some(Record { key, content })
}

/// None where memory is short.
fn list_of(alloc: Global, records: Records) -> Option<Vec<Record>> {
    let mut list = Vec::new(alloc);
    for number in 0..records.count {
        let record = records.first.saturating_add(number);
        list.push(record_of(alloc, record, records.fields)?).ok()?;
    }
    Some(list)
}

fn packed(alloc: Global, records: Records) -> Option<Vec<ExtentBody>> {
    let records = list_of(alloc, records)?;
    pack(alloc, &records).ok()
}

/// Whether these records are packed into two extents that hold so many bytes.
fn has_lens(alloc: Global, records: Records, first: usize, second: usize) -> bool {
    let Some(bodies) = packed(alloc, records) else {
        return false;
    };
    match bodies.as_slice() {
        [one, two] => one.bytes().len() == first && two.bytes().len() == second,
        _ => false,
    }
}

#[test]
fn a_record_that_does_not_fit_begins_an_extent(rt: HostRuntime) {
    assert!(rt; has_lens(rt.alloc(), TWO_LONG, 4108, 4108));
    assert!(rt; has_lens(rt.alloc(), short(1024), 8176, 6160));
}

/// Whether a chain of these records needs so many extents, and has so many records.
fn counts(alloc: Global, records: Records, extents: u32, count: u32) -> bool {
    let Some(records) = list_of(alloc, records) else {
        return false;
    };
    match count_extents(&mut RecordList::new(&records)) {
        Some(counted) => counted.extents == extents && counted.records == count,
        None => false,
    }
}

/// How many records of 14 bytes there are, and how many extents they need.
const COUNTED: &[(u32, u32)] = &[(0, 0), (1, 1), (584, 1), (585, 2)];

#[test]
fn extents_are_counted_first(rt: HostRuntime) {
    for (count, extents) in COUNTED {
        let right = counts(rt.alloc(), short((*count).into()), *extents, *count);
        assert!(rt; right, "{count} records");
    }
    assert!(rt; counts(rt.alloc(), TWO_LONG, 2, 2));
}

/// The bodies in extents 3 and 4.
fn sealed(bodies: Vec<ExtentBody>) -> Option<[Image; 2]> {
    let mut bodies = bodies.into_iter();
    match (bodies.next(), bodies.next(), bodies.next()) {
        (Some(first), Some(second), None) => Some([seal(3, 4, first), seal(4, 0, second)]),
        _ => None,
    }
}

/// The chain of 1,024 records of 14 bytes.
fn chain_of_two(alloc: Global) -> Option<[Image; 2]> {
    sealed(packed(alloc, short(1024))?)
}

const TWO_EXTENTS: ChainName = ChainName {
    first: 3,
    extents: 2,
    records: 1024,
};

const FEWER_RECORDS: ChainName = ChainName {
    records: 1023,
    ..TWO_EXTENTS
};

/// Whether the chain of this name holds so many records; none where the images are not that chain.
fn holds(
    alloc: Global,
    name: ChainName,
    kinds: Kinds,
    images: &[Image],
    want: Option<usize>,
) -> bool {
    match unpack(alloc, name, kinds, images) {
        Ok(Some(records)) => want == Some(records.len()),
        Ok(None) => want.is_none(),
        Err(_) => false,
    }
}

#[test]
fn a_chain_is_held_by_its_name_and_kind(rt: HostRuntime) {
    laws::packed_is_held();
    laws::one_packing();
    let alloc = rt.alloc();
    let Some(images) = chain_of_two(alloc) else {
        panic!(rt; "no chain of two");
    };
    assert!(rt; holds(alloc, TWO_EXTENTS, Kinds::OfCommit, &images, Some(1024)));
    assert!(rt; holds(alloc, FEWER_RECORDS, Kinds::OfCommit, &images, None));
    assert!(rt; holds(alloc, TWO_EXTENTS, Kinds::OfAnchors(9), &images, None));
}

/// The extent of one commit of one record.
fn extent(alloc: Global) -> Option<Image> {
    let mut bodies = packed(alloc, SEVEN)?.into_iter();
    match (bodies.next(), bodies.next()) {
        (Some(body), None) => Some(seal(1, 0, body)),
        _ => None,
    }
}

/// Whether an extent is the one record's, byte for byte.
fn is_extent_one(image: &Image) -> bool {
    image.number() == 1
        && image.next() == 0
        && image.bytes().starts_with(&EXTENT_FRONT)
        && begin_with(image.bytes().get(16..).unwrap_or(&[]), &ANCHOR)
}

/// Whether the extent that is filled from a source is this one, with so many records and bytes.
fn is_filled(source: &mut RecordList<'_>, image: &Image, want: (u32, u32)) -> bool {
    let mut buffer = [0xff; EXTENT_LEN];
    let count = fill_extent(source, image.number(), image.next(), &mut buffer);
    (count.records, count.used) == want && image.bytes() == buffer.as_slice()
}

/// Whether these are the extents that are filled from these records, of so many records and bytes
/// each.
fn fills(alloc: Global, records: Records, images: &[Image], wants: &[(u32, u32)]) -> bool {
    let Some(records) = list_of(alloc, records) else {
        return false;
    };
    let mut source = RecordList::new(&records);
    for (place, image) in images.iter().enumerate() {
        let Some(want) = wants.get(place) else {
            return false;
        };
        if !is_filled(&mut source, image, *want) {
            return false;
        }
    }
    source.peek().is_none()
}

#[test]
fn an_extent_is_sealed_and_filled_byte_for_byte(rt: HostRuntime) {
    let Some(image) = extent(rt.alloc()) else {
        panic!(rt; "no extent");
    };
    assert!(rt; is_extent_one(&image));
    assert!(rt; fills(rt.alloc(), SEVEN, &[image], &[(1, 14)]));
}

#[test]
fn extents_filled_one_by_one_are_the_packed_chain(rt: HostRuntime) {
    laws::filled_is_packed();
    let Some(images) = chain_of_two(rt.alloc()) else {
        panic!(rt; "no chain of two");
    };
    assert!(rt;
        fills(
            rt.alloc(),
            short(1024),
            &images,
            &[(584, 8176), (440, 6160)]
        )
    );
}

#[test]
fn an_extent_is_filled_with_no_record(rt: HostRuntime) {
    let mut image = [0xff; EXTENT_LEN];
    let filled = fill_extent(&mut RecordList::new(&[]), 5, 0, &mut image);
    assert!(rt; filled.records == 0 && filled.used == 0 && begin_with(&image, &[5]));
}

/// The same extent with one byte changed.
fn changed(alloc: Global, at: u16, byte: u8) -> Option<Image> {
    let mut bytes = extent(alloc)?.bytes().to_vec(alloc).ok()?;
    put(&mut bytes, at, &[byte]);
    Image::of(bytes)
}

const ONE_EXTENT: ChainName = ChainName {
    first: 1,
    extents: 1,
    records: 1,
};

/// A byte of the extent that is changed, and how many records it holds then; none where it is no
/// chain.
const CHANGES: &[(&str, u16, u8, Option<usize>)] = &[
    ("nothing", 0, 1, Some(1)),
    ("the number", 0, 2, None),
    ("the next extent", 4, 2, None),
    ("how many bytes are used", 8, 0x0d, None),
    ("the rest of the header", 12, 1, None),
    ("the kind", 16, 4, None),
    ("no kind", 16, 5, None),
    ("what stands behind the record", 30, 1, None),
];

/// Whether the changed extent holds so many records; none where it is no chain.
fn holds_changed(alloc: Global, at: u16, byte: u8, want: Option<usize>) -> bool {
    match changed(alloc, at, byte) {
        Some(image) => holds(alloc, ONE_EXTENT, Kinds::OfCommit, &[image], want),
        None => false,
    }
}

/// Whether the extent is another one once a byte is changed.
fn is_another(alloc: Global, at: u16, byte: u8) -> bool {
    match (extent(alloc), changed(alloc, at, byte)) {
        (Some(image), Some(other)) => !image.is_same(&other),
        _ => false,
    }
}

#[test]
fn a_changed_extent_is_no_chain(rt: HostRuntime) {
    for (what, at, byte, want) in CHANGES {
        assert!(rt;
            holds_changed(rt.alloc(), *at, *byte, *want),
            "{what} changed"
        );
    }
    assert!(rt; is_another(rt.alloc(), 30, 1));
}

/// How many extents a chain of these records needs.
fn count_of(alloc: Global, records: Records) -> Option<ExtentCount> {
    let records = list_of(alloc, records)?;
    count_extents(&mut RecordList::new(&records))
}

#[test]
fn a_count_says_how_many_extents_a_chain_needs(rt: HostRuntime) {
    let long = Some(ExtentCount {
        extents: 2,
        records: 1024,
    });
    assert!(rt; count_of(rt.alloc(), short(1024)) == long);
    let one = Some(ExtentCount {
        extents: 1,
        records: 1,
    });
    assert!(rt; count_of(rt.alloc(), SEVEN) == one);
}
