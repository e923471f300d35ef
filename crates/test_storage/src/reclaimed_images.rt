//! Images with a reclaimed slot: what is read of them, and which damage is found.
use crate::opened_images::{Image, Look, Opening, all_open};
use crate::worked_bytes::{HEADER, KEY};
use disk::Area;
use extents::Usage;
use history::Key;
use recovery::OpenFault;

const OTHER_KEY: Key = Key {
    relation: 1,
    record: 8,
};

/// Where the four extents of the heap begin.
const EXTENT_1: u16 = 0;

const EXTENT_3: u16 = 16_384;

const EXTENT_4: u16 = 24_576;

/// Where the slots begin that name the last commit, the archive and the reclaim, and the slot behind
/// them.
const COMMIT_SLOT: u16 = 1536;

const RECLAIMED_SLOT: u16 = 2560;

const NEXT_SLOT: u16 = 3072;

/// The key has a at 100, the other key x at 105, and the key b at 110. An empty run goes up to 105,
/// and so does the reclaim, whose two anchors are in extent 4. Extents 1 and 2 are free, and are full
/// of other bytes.
const RECLAIMED: Image = Image {
    status_len: 8704,
    status: &[&[
        (0, &HEADER),
        (512, &[0xc7, 1, 1, 0, 0, 0, 0, 0, 1]),
        (528, &[100, 0, 0, 0, 0, 0, 0, 0, 1, 0, 0, 0, 1, 0, 0, 0, 1]),
        (1024, &[0xc7, 1, 1, 0, 1, 0, 0, 0, 2]),
        (1040, &[105, 0, 0, 0, 0, 0, 0, 0, 2, 0, 0, 0, 1, 0, 0, 0, 1]),
        (COMMIT_SLOT, &[0xc7, 1, 1, 0, 2, 0, 0, 0, 3]),
        (1552, &[110, 0, 0, 0, 0, 0, 0, 0, 3, 0, 0, 0, 1, 0, 0, 0, 1]),
        (2048, &[0xc7, 2, 0, 0, 3, 0, 0, 0, 105]),
        (RECLAIMED_SLOT, &[0xc7, 3, 0, 0, 4, 0, 0, 0, 105]),
        (RECLAIMED_SLOT + 16, &[4, 0, 0, 0, 1, 0, 0, 0, 2]),
    ]],
    heap_len: 32_768,
    heap: &[&[
        (EXTENT_3, &[3, 0, 0, 0, 0, 0, 0, 0, 14]),
        (
            EXTENT_3 + 16,
            &[1, 1, 0, 7, 0, 0, 0, 0, 0, 0, 0, 1, 1, b'b'],
        ),
        (EXTENT_4, &[4, 0, 0, 0, 0, 0, 0, 0, 44]),
        (
            EXTENT_4 + 16,
            &[
                4, 1, 0, 7, 0, 0, 0, 0, 0, 0, 0, 100, 0, 0, 0, 0, 0, 0, 0, 1, 1, b'a',
            ],
        ),
        (
            EXTENT_4 + 38,
            &[
                4, 1, 0, 8, 0, 0, 0, 0, 0, 0, 0, 105, 0, 0, 0, 0, 0, 0, 0, 1, 1, b'x',
            ],
        ),
    ]],
    stained: 16_384,
    archive_len: 0,
    archive: &[],
};

/// The anchors and the commits behind them are read, and extents of chains up to the mark are free.
const READ: Opening = Opening(
    "a reclaimed slot",
    &RECLAIMED,
    &[],
    Ok(&[
        Look::Counts([16, 5, 3, 1, 2]),
        Look::Times(110, 105, 105),
        Look::Floors(0, &[]),
        Look::Byte(KEY, 99, None),
        Look::Byte(KEY, 105, Some(b'a')),
        Look::Byte(KEY, 109, Some(b'a')),
        Look::Byte(KEY, 110, Some(b'b')),
        Look::Byte(OTHER_KEY, 104, None),
        Look::Byte(OTHER_KEY, 105, Some(b'x')),
        Look::Byte(OTHER_KEY, 110, Some(b'x')),
        Look::LastWrite(OTHER_KEY, 105),
        Look::Has(1, Usage::Free),
        Look::Has(2, Usage::Free),
        Look::Has(5, Usage::Free),
        Look::Has(3, Usage::Kept),
        Look::Has(4, Usage::Kept),
    ]),
);

const ANCHORS: Result<&[Look], OpenFault> = Err(OpenFault::Damaged(Area::Heap, 4));

const COMMIT: Result<&[Look], OpenFault> = Err(OpenFault::Damaged(Area::Heap, 3));

const RECLAIM: Result<&[Look], OpenFault> = Err(OpenFault::Damaged(Area::Status, 4));

/// Bytes of an area that are changed, and where damage is found then, if any.
const CHANGED: &[Opening] = &[
    Opening(
        "nothing reads a chain up to the mark",
        &RECLAIMED,
        &[(Area::Heap, EXTENT_1, &[1, 0, 0, 0])],
        Ok(&[]),
    ),
    Opening(
        "the last anchor is of the mark, and not later",
        &RECLAIMED,
        &[(Area::Heap, EXTENT_4 + 49, &[106])],
        ANCHORS,
    ),
    Opening(
        "an anchor is of time 1 at least",
        &RECLAIMED,
        &[(Area::Heap, EXTENT_4 + 27, &[0])],
        ANCHORS,
    ),
    Opening(
        "a key twice",
        &RECLAIMED,
        &[(Area::Heap, EXTENT_4 + 41, &[7])],
        ANCHORS,
    ),
    Opening(
        "keys that fall",
        &RECLAIMED,
        &[(Area::Heap, EXTENT_4 + 41, &[6])],
        ANCHORS,
    ),
    Opening(
        "a deletion among the anchors",
        &RECLAIMED,
        &[(Area::Heap, EXTENT_4 + 16, &[3])],
        ANCHORS,
    ),
    Opening(
        "an anchor among a commit's records",
        &RECLAIMED,
        &[(Area::Heap, EXTENT_3 + 16, &[4])],
        COMMIT,
    ),
    Opening(
        "the extent's own number",
        &RECLAIMED,
        &[(Area::Heap, EXTENT_4, &[5])],
        ANCHORS,
    ),
    Opening(
        "fewer records than the slot says",
        &RECLAIMED,
        &[(Area::Status, RECLAIMED_SLOT + 24, &[3])],
        ANCHORS,
    ),
    Opening(
        "the anchors' chain is a commit's",
        &RECLAIMED,
        &[(Area::Status, RECLAIMED_SLOT + 16, &[3])],
        COMMIT,
    ),
    Opening(
        "a commit's chain is the anchors'",
        &RECLAIMED,
        &[(Area::Status, COMMIT_SLOT + 24, &[4])],
        ANCHORS,
    ),
    Opening(
        "extents without a first one",
        &RECLAIMED,
        &[(Area::Status, RECLAIMED_SLOT + 16, &[0])],
        RECLAIM,
    ),
    Opening(
        "more extents than records",
        &RECLAIMED,
        &[(Area::Status, RECLAIMED_SLOT + 20, &[3])],
        RECLAIM,
    ),
    Opening(
        "short of the archive mark",
        &RECLAIMED,
        &[(Area::Status, RECLAIMED_SLOT + 8, &[104])],
        RECLAIM,
    ),
    Opening(
        "a second reclaim without an archive between",
        &RECLAIMED,
        &[(Area::Status, NEXT_SLOT, &[0xc7, 3, 0, 0, 5, 0, 0, 0, 105])],
        Err(OpenFault::Damaged(Area::Status, 5)),
    ),
    Opening(
        "a deletion of an anchored key",
        &RECLAIMED,
        &[(
            Area::Heap,
            EXTENT_3 + 8,
            &[
                11, 0, 0, 0, 0, 0, 0, 0, 3, 1, 0, 7, 0, 0, 0, 0, 0, 0, 0, 0, 0, 0,
            ],
        )],
        Ok(&[]),
    ),
    Opening(
        "a deletion of a key without an anchor",
        &RECLAIMED,
        &[(
            Area::Heap,
            EXTENT_3 + 8,
            &[
                11, 0, 0, 0, 0, 0, 0, 0, 3, 1, 0, 9, 0, 0, 0, 0, 0, 0, 0, 0, 0, 0,
            ],
        )],
        COMMIT,
    ),
    Opening(
        "anchors come before commits: where both are damaged, they are named",
        &RECLAIMED,
        &[(Area::Heap, EXTENT_3, &[0]), (Area::Heap, EXTENT_4, &[0])],
        ANCHORS,
    ),
    READ,
];

#[test]
fn damage_beside_anchors_is_found_in_its_place(rt: HostRuntime) {
    all_open(&rt, rt.alloc(), CHANGED);
}
