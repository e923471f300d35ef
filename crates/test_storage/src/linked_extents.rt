//! Extents whose chains' bytes run on from one to the next, and the header with two roots.
use crate::area_bytes::{begin_with, put};
use deltas::EXTENT_LEN;
use log_extents::{
    BODY_LEN, ChainKind, ChainReader, HEAD_LEN, Taken, count_extents, fill_extent, is_open,
    read_extent,
};
use log_roots::{HEADER_LEN, Roots, decode, encode, is_heap_size};
use std::alloc::{AllocError, Global};
use std::test::Fail;

/// The extents of the heap in which the chains lie.
const EXTENTS: u32 = 64;

/// A chain of one extent.
#[derive(Clone, Copy)]
struct OneExtent {
    kind: ChainKind,
    number: u32,
    link: u32,
    head: [u8; HEAD_LEN],
    body: &'static [u8],
}

/// The value a of record 7 of relation 1, committed at 100 with the label 9.
const COMMIT: OneExtent = OneExtent {
    kind: ChainKind::Log,
    number: 1,
    link: 2,
    head: [
        0xc7, 0, 0, 0, 1, 0, 0, 0, 0, 0, 0, 0, 0x21, 0, 0, 0, 2, 0, 0, 0, 0, 0, 0, 0,
    ],
    body: &[
        5, 9, 0, 0, 0, 0, 0, 0, 0, 0x64, 0, 0, 0, 0, 0, 0, 0, 1, 0, 1, 1, 0, 7, 0, 0, 0, 0, 0, 0,
        0, 1, 1, 0x61,
    ],
};

/// An archive up to 120, whose run of two records has 74 bytes at 0.
const ARCHIVED: OneExtent = OneExtent {
    kind: ChainKind::Log,
    number: 5,
    link: 6,
    head: [
        0xc7, 0, 0, 0, 5, 0, 0, 0, 0, 0, 0, 0, 0x23, 0, 0, 0, 6, 0, 0, 0, 0, 0, 0, 0,
    ],
    body: &[
        6, 0x78, 0, 0, 0, 0, 0, 0, 0, 0, 0, 0, 0, 0, 0, 0, 0, 0x4a, 0, 0, 0, 0, 0, 0, 0, 2, 0, 0,
        0, 0, 0, 0, 0, 0, 0,
    ],
};

/// What a reclaim up to 120 puts in the place of the chains before the one in extent 4: it has no
/// anchors, and names of 48 bytes at 74 of the archive.
const BASE: OneExtent = OneExtent {
    kind: ChainKind::Log,
    number: 7,
    link: 4,
    head: [
        0xc7, 0, 0, 0, 7, 0, 0, 0, 0, 0, 0, 0, 0x26, 0, 0, 0, 4, 0, 0, 0, 0, 0, 0, 0,
    ],
    body: &[
        8, 0x78, 0, 0, 0, 0, 0, 0, 0, 0, 0, 0, 0, 0, 0, 0, 0, 0, 0, 0, 0, 9, 0x4a, 0, 0, 0, 0, 0,
        0, 0, 0x30, 0, 0, 0, 0, 0, 0, 0,
    ],
};

/// The one anchor of a reclaim up to 130: the value c from 130 on.
const ANCHOR: OneExtent = OneExtent {
    kind: ChainKind::Anchors,
    number: 2,
    link: 0,
    head: [
        0, 0, 0, 0, 2, 0, 0, 0, 0, 0, 0, 0, 0x16, 0, 0, 0, 0, 0, 0, 0, 0, 0, 0, 0,
    ],
    body: &[
        4, 1, 0, 7, 0, 0, 0, 0, 0, 0, 0, 0x82, 0, 0, 0, 0, 0, 0, 0, 1, 1, 0x63,
    ],
};

/// What that reclaim puts in the place of the whole log.
const SECOND_BASE: OneExtent = OneExtent {
    kind: ChainKind::Log,
    number: 3,
    link: 1,
    head: [
        0xc7, 0, 0, 0, 3, 0, 0, 0, 0, 0, 0, 0, 0x7d, 0, 0, 0, 1, 0, 0, 0, 0, 0, 0, 0,
    ],
    body: &[
        8, 0x82, 0, 0, 0, 0, 0, 0, 0, 2, 0, 0, 0, 1, 0, 0, 0, 1, 0, 0, 0, 9, 0x4a, 0, 0, 0, 0, 0,
        0, 0, 0x30, 0, 0, 0, 0, 0, 0, 0, 9, 0x7a, 0, 0, 0, 0, 0, 0, 0, 0x10, 0, 0, 0, 0, 0, 0, 0,
        6, 0x78, 0, 0, 0, 0, 0, 0, 0, 0, 0, 0, 0, 0, 0, 0, 0, 0x4a, 0, 0, 0, 0, 0, 0, 0, 2, 0, 0,
        0, 0, 0, 0, 0, 0, 0, 6, 0x82, 0, 0, 0, 0, 0, 0, 0, 0x7a, 0, 0, 0, 0, 0, 0, 0, 0, 0, 0, 0,
        0, 0, 0, 0, 0, 0, 0, 0, 0, 0, 0, 0, 0, 0,
    ],
};

const CHAINS: &[OneExtent] = &[COMMIT, ARCHIVED, BASE, ANCHOR, SECOND_BASE];

/// All bytes of an extent.
fn image_of(head: &[u8], body: &[u8]) -> [u8; EXTENT_LEN] {
    let mut image = [0; EXTENT_LEN];
    put(&mut image, 0, head);
    put(&mut image, 24, body);
    image
}

/// Whether an extent is filled with just these bytes, but for its gate, which is closed.
fn fills(number: u32, next: u32, link: u32, body: &[u8], image: &[u8; EXTENT_LEN]) -> bool {
    let mut filled = [0xff; EXTENT_LEN];
    if body.len() > BODY_LEN {
        return false;
    }
    fill_extent(link, number, next, body, &mut filled);
    filled[0] == 0 && filled[1..] == image[1..]
}

#[test]
fn extents_are_filled_byte_for_byte(rt: HostRuntime) {
    for chain in CHAINS {
        let image = image_of(&chain.head, chain.body);
        let fills = fills(chain.number, 0, chain.link, chain.body, &image);
        assert!(rt; fills, "extent {}", chain.number);
    }
}

/// What the first extent of a chain makes.
fn first_taken(alloc: Global, chain: &OneExtent, image: &[u8; EXTENT_LEN]) -> Option<Taken> {
    let mut reader = ChainReader::new(alloc, chain.kind, EXTENTS, chain.number);
    reader.take(image).ok()
}

/// Whether a chain of one extent is read, with its link and its bytes.
fn is_read(alloc: Global, chain: &OneExtent) -> bool {
    let mut reader = ChainReader::new(alloc, chain.kind, EXTENTS, chain.number);
    let image = image_of(&chain.head, chain.body);
    matches!(reader.take(&image), Ok(Taken::Whole))
        && reader.numbers() == [chain.number].as_slice()
        && reader.link() == chain.link
        && reader.into_content().as_slice() == chain.body
}

#[test]
fn a_chain_of_one_extent_is_read(rt: HostRuntime) {
    for chain in CHAINS {
        assert!(rt; is_read(rt.alloc(), chain), "extent {}", chain.number);
    }
}

/// The changes of one byte of the commit's extent that make it no chain: the gate closed, a byte of
/// the zeros behind it, another number, a next one that is itself, one past the heap and one that
/// would have to stand behind a full extent, bytes that are used and not said to be, none that are
/// used, no link and one past the heap, and bytes where zeros are.
const CHANGES: &[(u16, u8)] = &[
    (0, 0),
    (0, 0xc6),
    (3, 1),
    (4, 2),
    (8, 1),
    (8, 2),
    (8, 65),
    (12, 0x20),
    (12, 0),
    (13, 0x20),
    (16, 0),
    (16, 65),
    (20, 1),
    (57, 1),
    (8191, 1),
];

#[test]
fn a_changed_extent_is_no_chain(rt: HostRuntime) {
    for (place, byte) in CHANGES {
        let mut image = image_of(&COMMIT.head, COMMIT.body);
        put(&mut image, *place, &[*byte]);
        let taken = first_taken(rt.alloc(), &COMMIT, &image);
        assert!(rt; taken == Some(Taken::Bad), "byte {place}");
    }
    let anchors = OneExtent {
        kind: ChainKind::Anchors,
        ..COMMIT
    };
    let image = image_of(&COMMIT.head, COMMIT.body);
    assert!(rt; first_taken(rt.alloc(), &anchors, &image) == Some(Taken::Bad));
    assert!(rt; is_open(0xc7) && !is_open(0xff) && read_extent(&image, 1).is_none());
}

/// Puts the value of 16 fields of 255 bytes x of this record of relation 1 behind the others.
fn push_longest(content: &mut Vec<u8>, record: u8) -> Result<(), AllocError> {
    content.extend_from_slice(&[1, 1, 0, record, 0, 0, 0, 0, 0, 0, 0, 16])?;
    for _ in 0..16 {
        content.push(0xff)?;
        content.extend_from_slice(&[0x78; 255])?;
    }
    Ok(())
}

/// A commit of two of these, at 100 with the label 1.
fn two_longest(alloc: Global) -> Result<Vec<u8>, AllocError> {
    let mut content = Vec::new(alloc);
    content.extend_from_slice(&[5, 1, 0, 0, 0, 0, 0, 0, 0, 0x64, 0, 0, 0, 0, 0, 0, 0, 2, 0])?;
    push_longest(&mut content, 1)?;
    push_longest(&mut content, 2)?;
    Ok(content)
}

/// The heads of the two extents of its chain.
const FIRST_HEAD: [u8; HEAD_LEN] = [
    0xc7, 0, 0, 0, 1, 0, 0, 0, 2, 0, 0, 0, 0xe8, 0x1f, 0, 0, 3, 0, 0, 0, 0, 0, 0, 0,
];

const SECOND_HEAD: [u8; HEAD_LEN] = [
    0, 0, 0, 0, 2, 0, 0, 0, 0, 0, 0, 0, 0x43, 0, 0, 0, 0, 0, 0, 0, 0, 0, 0, 0,
];

/// What the two extents make, one after the other.
fn both_taken(
    alloc: Global,
    first: &[u8; EXTENT_LEN],
    second: &[u8; EXTENT_LEN],
    content: &[u8],
) -> Option<(Taken, Taken, bool)> {
    let mut reader = ChainReader::new(alloc, ChainKind::Log, EXTENTS, 1);
    let one = reader.take(first).ok()?;
    let two = reader.take(second).ok()?;
    let numbered = reader.numbers() == [1, 2].as_slice() && reader.link() == 3;
    let same = numbered && reader.into_content().as_slice() == content;
    Some((one, two, same))
}

#[test]
fn a_record_runs_on_in_the_next_extent(rt: HostRuntime) -> Result<(), Fail> {
    let content = two_longest(rt.alloc())?;
    assert!(rt; content.len() == 8235 && count_extents(content.len()) == 2);
    assert!(rt; count_extents(8168) == 1 && count_extents(8169) == 2 && count_extents(0) == 0);
    let (one, two) = content.as_slice().split_at(content.len().min(BODY_LEN));
    let first = image_of(&FIRST_HEAD, one);
    let mut second = image_of(&SECOND_HEAD, two);
    assert!(rt; begin_with(&second[24..], &[0x78; 67]));
    assert!(rt; fills(1, 2, 3, one, &first) && fills(2, 0, 0, two, &second));
    let whole = (Taken::More(2), Taken::Whole, true);
    assert!(rt; both_taken(rt.alloc(), &first, &second, &content) == Some(whole));
    put(&mut second, 16, &[3]);
    let linked = (Taken::More(2), Taken::Bad, false);
    assert!(rt; both_taken(rt.alloc(), &first, &second, &content) == Some(linked));
    Ok(())
}

/// The headers of a new store of 64 extents, of one that was reclaimed, and of one that was
/// reclaimed twice; zeros follow each.
const HEADERS: &[(Roots, [u8; 28], u32)] = &[
    (
        Roots {
            extents: 64,
            turned: false,
            root_0: 1,
            root_1: 0,
        },
        [
            0x4e, 0x4f, 0x4f, 0x56, 0x45, 0x52, 0x30, 0x31, 4, 0, 0, 0, 0x40, 0, 0, 0, 0, 0, 0, 0,
            1, 0, 0, 0, 0, 0, 0, 0,
        ],
        1,
    ),
    (
        Roots {
            extents: 64,
            turned: true,
            root_0: 1,
            root_1: 7,
        },
        [
            0x4e, 0x4f, 0x4f, 0x56, 0x45, 0x52, 0x30, 0x31, 4, 0, 0, 0, 0x40, 0, 0, 0, 0xc7, 0, 0,
            0, 1, 0, 0, 0, 7, 0, 0, 0,
        ],
        7,
    ),
    (
        Roots {
            extents: 64,
            turned: false,
            root_0: 3,
            root_1: 7,
        },
        [
            0x4e, 0x4f, 0x4f, 0x56, 0x45, 0x52, 0x30, 0x31, 4, 0, 0, 0, 0x40, 0, 0, 0, 0, 0, 0, 0,
            3, 0, 0, 0, 7, 0, 0, 0,
        ],
        3,
    ),
];

#[test]
fn a_header_names_its_root(rt: HostRuntime) {
    for (roots, front, root) in HEADERS {
        let bytes = encode(roots);
        assert!(rt;
            begin_with(&bytes, front) && decode(&bytes) == Some(*roots),
            "root {root}"
        );
        assert!(rt; roots.root() == *root, "root {root}");
    }
}

/// The header of a new store with some bytes changed.
fn changed(place: u16, part: &[u8]) -> [u8; HEADER_LEN] {
    let mut bytes = [0; HEADER_LEN];
    if let [(_, front, _), ..] = HEADERS {
        put(&mut bytes, 0, front);
    }
    put(&mut bytes, place, part);
    bytes
}

/// Bytes that make it no header: another name, another profile, sizes that no heap has, a byte of the
/// zeros, and a root that is no extent, or not one of this heap.
const NO_HEADERS: &[(u16, &[u8])] = &[
    (0, &[0x6e]),
    (8, &[3]),
    (12, &[48]),
    (12, &[72]),
    (12, &[0x10, 0, 0x10]),
    (17, &[1]),
    (19, &[1]),
    (20, &[0]),
    (20, &[65]),
    (28, &[1]),
    (511, &[1]),
];

/// Bytes that it may have: any value of a gate that is not open, and any other root.
const HEADERS_TOO: &[(u16, &[u8])] = &[(16, &[0x37]), (16, &[0xff]), (24, &[0xff; 4])];

#[test]
fn other_bytes_are_no_header(rt: HostRuntime) {
    for (place, part) in NO_HEADERS {
        assert!(rt; decode(&changed(*place, part)).is_none(), "byte {place}");
    }
    for (place, part) in HEADERS_TOO {
        let root = decode(&changed(*place, part)).map(|roots| roots.root());
        assert!(rt; root == Some(1), "byte {place}");
    }
    for extents in [48, 63, 72, 1_048_592] {
        assert!(rt; !is_heap_size(extents), "{extents} extents");
    }
    assert!(rt; is_heap_size(64) && is_heap_size(1_048_576));
}
