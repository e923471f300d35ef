//! Whole images: as they are formatted, read, and damaged.
use crate::area_bytes::spells;
use crate::opened_images::{Image, Look, Opening, all_open, disk_of};
use crate::worked_bytes::{
    ANCHOR, COMMIT_BODY, EXTENT_FRONT, FOUR_COMMITS, FOUR_EXTENTS, HEADER, NEW_HEADER, RUN,
    RUN_BYTES,
};
use disk::{Area, Disk, MemDisk};
use recovery::{FormatFault, OpenFault, format, read_image};
use std::alloc::Global;
use std::test::Fail;

/// Formats to so many slots in turn, how each is refused, and how long the status area is then.
const FORMATS: &[(u32, Option<FormatFault>, u64)] = &[
    (15, Some(FormatFault::BadSlots), 0),
    (65_537, Some(FormatFault::BadSlots), 0),
    (16, None, 8704),
    (32, Some(FormatFault::Occupied), 8704),
];

/// Whether a format is refused so, and the status area has so many bytes then, the heap none.
fn is_formatted(
    alloc: Global,
    disk: &mut MemDisk,
    slots: u32,
    want: Option<FormatFault>,
    len: u64,
) -> bool {
    format(alloc, disk, slots).err() == want
        && disk.len(Area::Status) == Ok(len)
        && disk.len(Area::Heap) == Ok(0)
}

#[test]
fn a_new_store_is_a_header_and_closed_slots(rt: HostRuntime) {
    let mut disk = MemDisk::new(rt.alloc());
    for (slots, want, len) in FORMATS {
        let right = is_formatted(rt.alloc(), &mut disk, *slots, *want, *len);
        assert!(rt; right, "{slots} slots");
    }
    assert!(rt; spells(&mut disk, Area::Status, &NEW_HEADER));
}

/// The header of 16 slots, all of them closed, and no heap.
const EMPTY: Image = Image {
    status_len: 8704,
    status: &[&[(0, &HEADER)]],
    heap_len: 0,
    heap: &[],
    stained: 0,
    archive_len: 0,
    archive: &[],
};

/// One commit of the key, with the value a, at 100 with label 9.
const ONE_COMMIT: Image = Image {
    status: &[&[(0, &HEADER), (512, &[0xc7]), (513, &COMMIT_BODY)]],
    heap_len: 8192,
    heap: &[&[(0, &EXTENT_FRONT), (16, &ANCHOR)]],
    ..EMPTY
};

/// Two commits in one slot, at 100 and 110, the second with its chain in extent 2.
const TWO_COMMITS: Image = Image {
    status: &[&[
        (0, &HEADER),
        (512, &[0xc7, 1, 2]),
        (528, &[100, 0, 0, 0, 0, 0, 0, 0, 1, 0, 0, 0, 1, 0, 0, 0, 1]),
        (556, &[110, 0, 0, 0, 0, 0, 0, 0, 2, 0, 0, 0, 1, 0, 0, 0, 1]),
    ]],
    heap_len: 16_384,
    heap: &[&[
        (0, &[1, 0, 0, 0, 0, 0, 0, 0, 13]),
        (16, &[1, 1, 0, 7, 0, 0, 0, 0, 0, 0, 0, 1]),
        (8192, &[2, 0, 0, 0, 0, 0, 0, 0, 13]),
        (8208, &[1, 1, 0, 7, 0, 0, 0, 0, 0, 0, 0, 1]),
    ]],
    ..EMPTY
};

/// The key has a at 100, b at 110, no value at 120 and c at 130, and what ended by 120 is archived
/// in a run of 74 bytes.
const ONE_RUN: Image = Image {
    status: &[
        &[(0, &HEADER)],
        FOUR_COMMITS,
        &[
            (2560, &[0xc7, 2, 0, 0, 4, 0, 0, 0, 120]),
            (2584, &[74, 0, 0, 0, 0, 0, 0, 0, 2]),
        ],
    ],
    heap_len: 32_768,
    heap: &[FOUR_EXTENTS],
    archive_len: 74,
    archive: &RUN_BYTES,
    ..EMPTY
};

const CUT_HEAP: Image = Image {
    heap_len: 8191,
    ..ONE_COMMIT
};

const NO_HEAP: Image = Image {
    heap_len: 0,
    ..ONE_COMMIT
};

const CUT_HEADER: Image = Image {
    status_len: 511,
    ..EMPTY
};

const CUT_SLOTS: Image = Image {
    status_len: 8703,
    ..EMPTY
};

const NO_ARCHIVE: Image = Image {
    archive_len: 0,
    ..ONE_RUN
};

const CUT_ARCHIVE: Image = Image {
    archive_len: 73,
    ..ONE_RUN
};

const LONG_ARCHIVE: Image = Image {
    archive_len: 100,
    ..ONE_RUN
};

/// What is seen of no commit, and of one commit at 100.
const NONE: Result<&[Look], OpenFault> = Ok(&[
    Look::Counts([16, 0, 0, 0, 0]),
    Look::Times(0, 0, 0),
]);

const ONE: Result<&[Look], OpenFault> = Ok(&[
    Look::Counts([16, 1, 1, 1, 1]),
    Look::Times(100, 0, 0),
]);

const NO_STORE: Result<&[Look], OpenFault> = Err(OpenFault::NotAStore);

const SLOT: Result<&[Look], OpenFault> = Err(OpenFault::Damaged(Area::Status, 0));

const NEXT_SLOT: Result<&[Look], OpenFault> = Err(OpenFault::Damaged(Area::Status, 1));

const CHAIN: Result<&[Look], OpenFault> = Err(OpenFault::Damaged(Area::Heap, 1));

const RUN_CUT: Result<&[Look], OpenFault> = Err(OpenFault::Damaged(Area::Archive, 0));

/// One commit, with a byte of the log or of the heap changed.
const CHANGED: &[Opening] = &[
    Opening(
        "the profile",
        &ONE_COMMIT,
        &[(Area::Status, 8, &[9])],
        NO_STORE,
    ),
    Opening(
        "a closed gate",
        &ONE_COMMIT,
        &[(Area::Status, 512, &[0x37])],
        NONE,
    ),
    Opening(
        "the slot's kind",
        &ONE_COMMIT,
        &[(Area::Status, 513, &[5])],
        SLOT,
    ),
    Opening(
        "how many commits it has",
        &ONE_COMMIT,
        &[(Area::Status, 514, &[0])],
        SLOT,
    ),
    Opening(
        "its number",
        &ONE_COMMIT,
        &[(Area::Status, 516, &[1])],
        SLOT,
    ),
    Opening(
        "how many extents it has",
        &ONE_COMMIT,
        &[(Area::Status, 540, &[2])],
        SLOT,
    ),
    Opening(
        "a next slot of zeros",
        &ONE_COMMIT,
        &[(Area::Status, 1024, &[0xc7])],
        NEXT_SLOT,
    ),
    Opening(
        "a slot past a closed one",
        &ONE_COMMIT,
        &[(Area::Status, 1536, &[0xc7])],
        ONE,
    ),
    Opening(
        "how many bytes are used",
        &ONE_COMMIT,
        &[(Area::Heap, 8, &[13])],
        CHAIN,
    ),
    Opening(
        "the record's kind",
        &ONE_COMMIT,
        &[(Area::Heap, 16, &[4])],
        CHAIN,
    ),
    Opening(
        "what stands behind the record",
        &ONE_COMMIT,
        &[(Area::Heap, 30, &[1])],
        CHAIN,
    ),
];

/// Areas that are too short, or as long as they have to be at least.
const CUT: &[Opening] = &[
    Opening("a heap of 8,191 bytes", &CUT_HEAP, &[], CHAIN),
    Opening("no heap", &NO_HEAP, &[], CHAIN),
    Opening("a header of 511 bytes", &CUT_HEADER, &[], NO_STORE),
    Opening("slots that end in 8,703 bytes", &CUT_SLOTS, &[], NO_STORE),
    Opening("slots that end in 8,704 bytes", &EMPTY, &[], Ok(&[])),
    Opening("no archive", &NO_ARCHIVE, &[], RUN_CUT),
    Opening("an archive of 73 bytes", &CUT_ARCHIVE, &[], RUN_CUT),
    Opening("an archive of 74 bytes", &ONE_RUN, &[], Ok(&[])),
    Opening("an archive of 100 bytes", &LONG_ARCHIVE, &[], Ok(&[])),
];

const READ: &[Opening] = &[
    Opening(
        "one commit",
        &ONE_COMMIT,
        &[],
        Ok(&[
            Look::Counts([16, 1, 1, 1, 1]),
            Look::Times(100, 0, 0),
            Look::FirstCommit(100, 9),
            Look::Fields(99, None),
            Look::Fields(100, Some(1)),
        ]),
    ),
    Opening(
        "two commits in one slot",
        &TWO_COMMITS,
        &[],
        Ok(&[Look::Counts([16, 1, 2, 2, 2]), Look::Times(110, 0, 0)]),
    ),
    Opening(
        "one extent in two chains",
        &TWO_COMMITS,
        &[(Area::Status, 564, &[1])],
        CHAIN,
    ),
    Opening(
        "an archived slot",
        &ONE_RUN,
        &[],
        Ok(&[
            Look::Used(5),
            Look::Times(130, 120, 0),
            Look::Floors(0, &[]),
            Look::Runs(1),
            Look::Run(0, RUN, 0, 0, &[]),
            Look::Fields(115, Some(1)),
            Look::Fields(125, None),
        ]),
    ),
];

#[test]
fn images_are_read_or_refused(rt: HostRuntime) {
    all_open(&rt, rt.alloc(), READ);
    all_open(&rt, rt.alloc(), CHANGED);
    all_open(&rt, rt.alloc(), CUT);
}

/// Whether an image of a last commit at 110 opens, or memory is short.
fn opens_or_is_short(alloc: Global, disk: &mut MemDisk) -> bool {
    match read_image(alloc, disk) {
        Ok(found) => found.last == 110,
        Err(fault) => fault == OpenFault::NoMemory,
    }
}

/// Tried with each allocation failing in turn.
#[test]
fn a_refused_growth_is_no_memory(rt: HostRuntime) -> Result<(), Fail> {
    let mut disk = disk_of(rt.alloc(), &TWO_COMMITS, &[])?;
    assert!(rt; opens_or_is_short(rt.alloc(), &mut disk));
    Ok(())
}
