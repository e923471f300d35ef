//! Images of stores whose log lies in the heap, byte for byte.
use disk::{Area, MemDisk};
use std::alloc::{AllocError, Global};

const EXTENT_1: &[u8] =
    b"\xc7\0\0\0\x01\0\0\0\0\0\0\0!\0\0\0\x02\0\0\0\0\0\0\0\x05\x01\0\0\0\0\0\0\0d\0\0\0\0\0\0\0\x01\0\x01\x01\0\x07\0\
      \0\0\0\0\0\0\x01\x01a";

const EXTENT_2: &[u8] =
    b"\xc7\0\0\0\x02\0\0\0\0\0\0\0!\0\0\0\x03\0\0\0\0\0\0\0\x05\x02\0\0\0\0\0\0\0n\0\0\0\0\0\0\0\x01\0\x01\x01\0\x07\0\
      \0\0\0\0\0\0\x01\x01b";

const EXTENT_3: &[u8] =
    b"\xc7\0\0\0\x03\0\0\0\0\0\0\0\x1e\0\0\0\x04\0\0\0\0\0\0\0\x05\x03\0\0\0\0\0\0\0x\0\0\0\0\0\0\0\x01\0\x03\x01\0\
      \x07\0\0\0\0\0\0\0";

const EXTENT_4: &[u8] =
    b"\xc7\0\0\0\x04\0\0\0\0\0\0\0!\0\0\0\x05\0\0\0\0\0\0\0\x05\x04\0\0\0\0\0\0\0\x82\0\0\0\0\0\0\0\x01\0\x01\x01\0\
      \x07\0\0\0\0\0\0\0\x01\x01c";

const ARCHIVED: &[u8] =
    b"\xc7\0\0\0\x05\0\0\0\0\0\0\0#\0\0\0\x06\0\0\0\0\0\0\0\x06x\0\0\0\0\0\0\0\0\0\0\0\0\0\0\0J\0\0\0\0\0\0\0\x02\0\0\
      \0\0\0\0\0\0\0";

const BASE: &[u8] =
    b"\xc7\0\0\0\x07\0\0\0\0\0\0\0&\0\0\0\x04\0\0\0\0\0\0\0\x08x\0\0\0\0\0\0\0\0\0\0\0\0\0\0\0\0\0\0\0\x09J\0\0\0\0\0\
      \0\00\0\0\0\0\0\0\0";

const RUN: &[u8] =
    b"\x01\0\x07\0\0\0\0\0\0\0d\0\0\0\0\0\0\0n\0\0\0\0\0\0\0\x01\x01a\x01\0\x07\0\0\0\0\0\0\0n\0\0\0\0\0\0\0x\0\0\0\0\
      \0\0\0\x01\x01b\0\0\0\0\0\0\0\0\x1d\0\0\0\0\0\0\0";

const ROLL: &[u8] =
    b"\x01\0\0\0\0\0\0\0d\0\0\0\0\0\0\0\x02\0\0\0\0\0\0\0n\0\0\0\0\0\0\0\x03\0\0\0\0\0\0\0x\0\0\0\0\0\0\0";

const SECOND_ROLL: &[u8] = b"\x04\0\0\0\0\0\0\0\x82\0\0\0\0\0\0\0";

const ANCHORS: &[u8] =
    b"\0\0\0\0\x02\0\0\0\0\0\0\0\x16\0\0\0\0\0\0\0\0\0\0\0\x04\x01\0\x07\0\0\0\0\0\0\0\x82\0\0\0\0\0\0\0\x01\x01c";

const SECOND_BASE: &[u8] =
    b"\xc7\0\0\0\x03\0\0\0\0\0\0\0}\0\0\0\x01\0\0\0\0\0\0\0\x08\x82\0\0\0\0\0\0\0\x02\0\0\0\x01\0\0\0\x01\0\0\0\x09J\0\
      \0\0\0\0\0\00\0\0\0\0\0\0\0\x09z\0\0\0\0\0\0\0\x10\0\0\0\0\0\0\0\x06x\0\0\0\0\0\0\0\0\0\0\0\0\0\0\0J\0\0\0\0\0\0\
      \0\x02\0\0\0\0\0\0\0\0\0\x06\x82\0\0\0\0\0\0\0z\0\0\0\0\0\0\0\0\0\0\0\0\0\0\0\0\0\0\0\0\0\0\0\0\0";

const SECOND_ARCHIVED: &[u8] =
    b"\xc7\0\0\0\x06\0\0\0\0\0\0\0#\0\0\0\x01\0\0\0\0\0\0\0\x06\x82\0\0\0\0\0\0\0z\0\0\0\0\0\0\0\0\0\0\0\0\0\0\0\0\0\0\
      \0\0\0\0\0\0\0";

const FLOOR: &[u8] =
    b"\xc7\0\0\0\x01\0\0\0\0\0\0\0\x0b\0\0\0\x04\0\0\0\0\0\0\0\x07\x82\0\0\0\0\0\0\0\x01\0";

const FLOORED_BASE: &[u8] =
    b"\xc7\0\0\0\x05\0\0\0\0\0\0\0\x88\0\0\0\x04\0\0\0\0\0\0\0\x08\x82\0\0\0\0\0\0\0\x02\0\0\0\x01\0\0\0\x01\0\0\0\x09J\0\
      \0\0\0\0\0\00\0\0\0\0\0\0\0\x09z\0\0\0\0\0\0\0\x10\0\0\0\0\0\0\0\x06x\0\0\0\0\0\0\0\0\0\0\0\0\0\0\0J\0\0\0\0\0\0\
      \0\x02\0\0\0\0\0\0\0\0\0\x06\x82\0\0\0\0\0\0\0z\0\0\0\0\0\0\0\0\0\0\0\0\0\0\0\0\0\0\0\0\0\0\0\0\0\x07\x82\0\0\0\0\
      \0\0\0\x01\0";

const HEADER_A: &[u8] = b"NOOVER01\x04\0\0\0@\0\0\0\0\0\0\0\x01\0\0\0\0\0\0\0";

const HEADER_B: &[u8] = b"NOOVER01\x04\0\0\0@\0\0\0\xc7\0\0\0\x01\0\0\0\x07\0\0\0";

const HEADER_C: &[u8] = b"NOOVER01\x04\0\0\0@\0\0\0\0\0\0\0\x03\0\0\0\x07\0\0\0";

const HEADER_E: &[u8] = b"NOOVER01\x04\0\0\0@\0\0\0\xc7\0\0\0\x03\0\0\0\x05\0\0\0";

/// Where extents begin, by their numbers.
const AT_1: u64 = 0;

const AT_2: u64 = 8_192;

const AT_3: u64 = 16_384;

const AT_4: u64 = 24_576;

const AT_5: u64 = 32_768;

const AT_6: u64 = 40_960;

const AT_7: u64 = 49_152;

/// What differs in an area: bytes at a place, or its length.
#[derive(Clone, Copy)]
pub enum Change {
    Put(Area, u64, &'static [u8]),
    Cut(Area, u64),
}

/// An image that a store leaves: how long heap and archive are, and what they and the header hold.
#[derive(Clone, Copy)]
struct Image {
    heap: usize,
    archive: usize,
    parts: &'static [Change],
}

/// The heap of one group.
const ONE_GROUP: Image = Image {
    heap: 8_193,
    archive: 0,
    parts: &[Change::Put(Area::Status, 0, HEADER_A)],
};

/// Four groups: ["a"] at 100, ["b"] at 110, nothing at 120, ["c"] at 130.
const FOUR_GROUPS: Image = Image {
    heap: 32_769,
    archive: 0,
    parts: &[
        Change::Put(Area::Status, 0, HEADER_A),
        Change::Put(Area::Heap, AT_1, EXTENT_1),
        Change::Put(Area::Heap, AT_2, EXTENT_2),
        Change::Put(Area::Heap, AT_3, EXTENT_3),
        Change::Put(Area::Heap, AT_4, EXTENT_4),
    ],
};

/// The same, archived up to 120.
const ARCHIVED_ONCE: Image = Image {
    heap: 40_961,
    archive: 74,
    parts: &[
        Change::Put(Area::Status, 0, HEADER_A),
        Change::Put(Area::Heap, AT_1, EXTENT_1),
        Change::Put(Area::Heap, AT_2, EXTENT_2),
        Change::Put(Area::Heap, AT_3, EXTENT_3),
        Change::Put(Area::Heap, AT_4, EXTENT_4),
        Change::Put(Area::Heap, AT_5, ARCHIVED),
        Change::Put(Area::Archive, 0, RUN),
    ],
};

/// The same, archived and reclaimed up to 120.
const RECLAIMED: Image = Image {
    heap: 57_344,
    archive: 122,
    parts: &[
        Change::Put(Area::Status, 0, HEADER_B),
        Change::Put(Area::Heap, AT_1, EXTENT_1),
        Change::Put(Area::Heap, AT_2, EXTENT_2),
        Change::Put(Area::Heap, AT_3, EXTENT_3),
        Change::Put(Area::Heap, AT_4, EXTENT_4),
        Change::Put(Area::Heap, AT_5, ARCHIVED),
        Change::Put(Area::Heap, AT_7, BASE),
        Change::Put(Area::Archive, 0, RUN),
        Change::Put(Area::Archive, 74, ROLL),
    ],
};

/// The same, archived up to 130: nothing ended behind 120. The log goes on in extent 1, whose gate is closed.
const ARCHIVED_AGAIN: Image = Image {
    heap: 57_344,
    archive: 122,
    parts: &[
        Change::Put(Area::Status, 0, HEADER_B),
        Change::Put(Area::Heap, AT_1, EXTENT_1),
        Change::Put(Area::Heap, AT_1, b"\0"),
        Change::Put(Area::Heap, AT_2, EXTENT_2),
        Change::Put(Area::Heap, AT_3, EXTENT_3),
        Change::Put(Area::Heap, AT_4, EXTENT_4),
        Change::Put(Area::Heap, AT_5, ARCHIVED),
        Change::Put(Area::Heap, AT_6, SECOND_ARCHIVED),
        Change::Put(Area::Heap, AT_7, BASE),
        Change::Put(Area::Archive, 0, RUN),
        Change::Put(Area::Archive, 74, ROLL),
    ],
};

/// The same, archived and reclaimed up to 130.
const RECLAIMED_AGAIN: Image = Image {
    heap: 57_344,
    archive: 138,
    parts: &[
        Change::Put(Area::Status, 0, HEADER_C),
        Change::Put(Area::Heap, AT_1, EXTENT_1),
        Change::Put(Area::Heap, AT_1, b"\0"),
        Change::Put(Area::Heap, AT_2, ANCHORS),
        Change::Put(Area::Heap, AT_3, SECOND_BASE),
        Change::Put(Area::Heap, AT_4, EXTENT_4),
        Change::Put(Area::Heap, AT_5, ARCHIVED),
        Change::Put(Area::Heap, AT_6, SECOND_ARCHIVED),
        Change::Put(Area::Heap, AT_7, BASE),
        Change::Put(Area::Archive, 0, RUN),
        Change::Put(Area::Archive, 74, ROLL),
        Change::Put(Area::Archive, 122, SECOND_ROLL),
    ],
};

/// The same with a floor.
const FLOORED: Image = Image {
    heap: 57_344,
    archive: 138,
    parts: &[
        Change::Put(Area::Status, 0, HEADER_C),
        Change::Put(Area::Heap, AT_1, FLOOR),
        Change::Put(Area::Heap, AT_2, ANCHORS),
        Change::Put(Area::Heap, AT_3, SECOND_BASE),
        Change::Put(Area::Heap, AT_4, EXTENT_4),
        Change::Put(Area::Heap, AT_4, b"\0"),
        Change::Put(Area::Heap, AT_5, ARCHIVED),
        Change::Put(Area::Heap, AT_6, SECOND_ARCHIVED),
        Change::Put(Area::Heap, AT_7, BASE),
        Change::Put(Area::Archive, 0, RUN),
        Change::Put(Area::Archive, 74, ROLL),
        Change::Put(Area::Archive, 122, SECOND_ROLL),
    ],
};

/// The same, reclaimed: the base has the floor, and the anchors stay.
const FLOORS_RECLAIMED: Image = Image {
    heap: 57_344,
    archive: 138,
    parts: &[
        Change::Put(Area::Status, 0, HEADER_E),
        Change::Put(Area::Heap, AT_1, FLOOR),
        Change::Put(Area::Heap, AT_2, ANCHORS),
        Change::Put(Area::Heap, AT_3, SECOND_BASE),
        Change::Put(Area::Heap, AT_4, EXTENT_4),
        Change::Put(Area::Heap, AT_4, b"\0"),
        Change::Put(Area::Heap, AT_5, FLOORED_BASE),
        Change::Put(Area::Heap, AT_6, SECOND_ARCHIVED),
        Change::Put(Area::Heap, AT_7, BASE),
        Change::Put(Area::Archive, 0, RUN),
        Change::Put(Area::Archive, 74, ROLL),
        Change::Put(Area::Archive, 122, SECOND_ROLL),
    ],
};

/// Which image it is.
#[derive(Clone, Copy)]
pub enum Left {
    /// No group is there yet, but the room for one in the first extent.
    OneGroup,
    FourGroups,
    /// These, archived up to 120.
    Archived,
    /// And reclaimed.
    Reclaimed,
    /// And archived up to 130.
    ArchivedAgain,
    /// And reclaimed.
    ReclaimedAgain,
    /// And a floor of relation 1 at 130.
    Floored,
    /// And reclaimed.
    FloorsReclaimed,
}

fn image_of(left: Left) -> Image {
    match left {
        Left::OneGroup => ONE_GROUP,
        Left::FourGroups => FOUR_GROUPS,
        Left::Archived => ARCHIVED_ONCE,
        Left::Reclaimed => RECLAIMED,
        Left::ArchivedAgain => ARCHIVED_AGAIN,
        Left::ReclaimedAgain => RECLAIMED_AGAIN,
        Left::Floored => FLOORED,
        Left::FloorsReclaimed => FLOORS_RECLAIMED,
    }
}

// The bytes of an area, with these at a place. What lies past their end makes them longer.
fn put(bytes: &mut Vec<u8>, place: u64, part: &[u8]) -> Result<(), AllocError> {
    for (number, byte) in part.iter().enumerate() {
        let here = (place as usize).wrapping_add(number);
        match bytes.get_mut(here) {
            Some(slot) => *slot = *byte,
            None => bytes.push(*byte)?,
        }
    }
    Ok(())
}

/// The bytes of the three areas.
#[derive(Drop)]
struct Areas {
    status: Vec<u8>,
    heap: Vec<u8>,
    archive: Vec<u8>,
}

impl Areas {
    fn new(alloc: Global, image: Image) -> Result<Areas, AllocError> {
        Ok(Areas {
            status: vec![in alloc; 0u8; 512]?,
            heap: vec![in alloc; 0u8; image.heap]?,
            archive: vec![in alloc; 0u8; image.archive]?,
        })
    }

    fn area(&mut self, area: Area) -> &mut Vec<u8> {
        match area {
            Area::Status => &mut self.status,
            Area::Heap => &mut self.heap,
            Area::Archive => &mut self.archive,
        }
    }

    fn change(&mut self, changes: &[Change]) -> Result<(), AllocError> {
        for change in changes {
            match *change {
                Change::Put(area, place, part) => put(self.area(area), place, part)?,
                Change::Cut(area, len) => self.area(area).truncate(len as usize),
            }
        }
        Ok(())
    }
}

/// A disk with this image, but for some changes.
pub fn disk_of(alloc: Global, left: Left, changes: &[Change]) -> Result<MemDisk, AllocError> {
    let image = image_of(left);
    let mut areas = Areas::new(alloc, image)?;
    areas.change(image.parts)?;
    areas.change(changes)?;
    Ok(MemDisk::with_bytes(areas.status, areas.heap, areas.archive))
}
