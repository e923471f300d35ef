//! Images with floors: those behind the last slot are the log's, and each run has those before its slot.
use crate::area_bytes::Parts;
use crate::opened_images::{Image, Look, Opening, all_open};
use crate::worked_bytes::{FOUR_COMMITS, FOUR_EXTENTS, HEADER, KEY};
use wire::Run;

/// The only record of the first run, b from 110 to 120, and its index.
const RUN_BYTES: [u8; 37] = [
    1, 0, 7, 0, 0, 0, 0, 0, 0, 0, 110, 0, 0, 0, 0, 0, 0, 0, 120, 0, 0, 0, 0, 0, 0, 0, 1, 1, b'b',
    0, 0, 0, 0, 0, 0, 0, 0,
];

/// That run, before which nothing was archived.
const FIRST_RUN: Run = Run {
    upto: 120,
    start: 0,
    len: 37,
    records: 1,
};

/// The second run, which is empty: what ended by 120 was archived before it.
const SECOND_RUN: Run = Run {
    upto: 130,
    start: 37,
    len: 0,
    records: 0,
};

/// Behind the four commits stand the floor 115, the first run, the floor 120, the second run and the
/// floor 130.
const FLOORS_AND_RUNS: Parts = &[
    (2560, &[0xc7, 4, 0, 0, 4, 0, 0, 0, 115]),
    (3072, &[0xc7, 2, 0, 0, 5, 0, 0, 0, 120]),
    (3096, &[37, 0, 0, 0, 0, 0, 0, 0, 1]),
    (3584, &[0xc7, 4, 0, 0, 6, 0, 0, 0, 120]),
    (4096, &[0xc7, 2, 0, 0, 7, 0, 0, 0, 130]),
    (4112, &[37]),
    (4608, &[0xc7, 4, 0, 0, 8, 0, 0, 0, 130]),
];

/// The profile in which each relation has its own floor: 115 is that of the key's relation, 120 that of
/// relation 2 and 130 that of relation 3.
const BY_RELATION: Parts = &[(8, &[3]), (2576, &[1]), (3600, &[2]), (4624, &[3])];

/// One floor of all relations.
const FLOORED: Image = Image {
    status_len: 8704,
    status: &[&[(0, &HEADER)], FOUR_COMMITS, FLOORS_AND_RUNS],
    heap_len: 32_768,
    heap: &[FOUR_EXTENTS],
    stained: 0,
    archive_len: 37,
    archive: &RUN_BYTES,
};

/// A floor of each relation.
const FLOORED_BY_RELATION: Image = Image {
    status: &[&[(0, &HEADER)], FOUR_COMMITS, FLOORS_AND_RUNS, BY_RELATION],
    ..FLOORED
};

const FLOORED_IMAGES: &[Opening] = &[
    Opening(
        "the last floor is recovered, and each run has the one before it",
        &FLOORED,
        &[],
        Ok(&[
            Look::Used(9),
            Look::Times(130, 130, 0),
            Look::Floors(130, &[]),
            Look::Runs(2),
            Look::Run(0, FIRST_RUN, 0, 115, &[]),
            Look::Run(1, SECOND_RUN, 120, 120, &[]),
            Look::Byte(KEY, 119, Some(b'b')),
            Look::Byte(KEY, 125, None),
            Look::Byte(KEY, 130, Some(b'c')),
        ]),
    ),
    Opening(
        "each relation has its floor, and each run those before it",
        &FLOORED_BY_RELATION,
        &[],
        Ok(&[
            Look::Used(9),
            Look::Times(130, 130, 0),
            Look::FloorOf(1, 115),
            Look::FloorOf(2, 120),
            Look::FloorOf(3, 130),
            Look::FloorOf(4, 0),
            Look::Floors(0, &[(1, 115), (2, 120), (3, 130)]),
            Look::Runs(2),
            Look::Run(0, FIRST_RUN, 0, 0, &[(1, 115)]),
            Look::Run(1, SECOND_RUN, 120, 0, &[(2, 120), (1, 115)]),
        ]),
    ),
];

#[test]
fn floors_and_runs_are_recovered(rt: HostRuntime) {
    all_open(&rt, rt.alloc(), FLOORED_IMAGES);
}
