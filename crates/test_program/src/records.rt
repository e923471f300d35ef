//! What stands on the disk: headers, slots and records.
use crate::examples::{Example, FOUR_COMMITS, ONE_COMMIT, each_goes};
use crate::machine::Profiles::Each;
use crate::steps::Step;
use crate::steps::Step::{Extents, Long, New, Says, Spells};
use disk::Area;
use std::test::Fail;

/// A header, a slot and an extent, to their ends.
const ONE_RECORD: &[Step] = &[
    New(16),
    Says(ONE_COMMIT),
    Spells(
        Area::Status,
        0,
        "4e4f4f5645523031 03000000
        10000000 ..z 496
        c7 01 01 00 00000000 0900000000000000 6400000000000000 01000000 01000000 01000000 ..z 476
        ..z 7680",
    ),
    Long(Area::Status, 8704),
    Extents(&[
        "01000000 00000000 0e000000 00000000
        01 0100 0700000000000000 01 01 61 ..z 8162",
    ]),
];

/// Two commits under one gate.
const TWO_MEMBERS: &[Step] = &[
    New(16),
    Says(
        "begin a | snapshot 0
begin b | snapshot 0
put a 1 7 61 | ok
put b 1 8 62 | ok
submit a 1 100 | queued
submit b 2 100 | queued
flush | idle
",
    ),
    Spells(
        Area::Status,
        512,
        "c7 01 02 00 00000000
         0100000000000000 6400000000000000 01000000 01000000 01000000
         0200000000000000 6500000000000000 02000000 01000000 01000000 ..z 448",
    ),
];

/// Dialogues, and the bytes that they leave.
const EXAMPLES: &[Example] = &[
    Example {
        name: "one_commit_of_one_record",
        profiles: Each,
        steps: ONE_RECORD,
    },
    Example {
        name: "a_slot_of_two_members",
        profiles: Each,
        steps: TWO_MEMBERS,
    },
    Example {
        name: "a_change_of_one_field_is_a_delta",
        profiles: Each,
        steps: &[
            New(16),
            Says(
                "begin a | snapshot 0
put a 1 7 61 62 | ok
submit a 1 100 | queued
flush | idle
begin b | snapshot 100
put b 1 7 61 63 | ok
submit b 2 110 | queued
flush | idle
begin c | snapshot 110
put c 1 7 64 63 | ok
submit c 3 120 | queued
flush | idle
reopen | last 120 floors 0
at 1 7 100 | value 61 62
at 1 7 110 | value 61 63
at 1 7 120 | value 64 63
",
            ),
            Extents(&[
                "01000000 00000000 10000000 00000000 01 0100 0700000000000000 02 01 61 01 62 ..z 8160",
                "02000000 00000000 0f000000 00000000 02 0100 0700000000000000 0200 01 63 ..z 8161",
                "03000000 00000000 0f000000 00000000 02 0100 0700000000000000 0100 01 64 ..z 8161",
            ]),
        ],
    },
    Example {
        name: "an_unchanged_value_is_a_delta_without_fields",
        profiles: Each,
        steps: &[
            New(16),
            Says(
                "begin a | snapshot 0
put a 1 7 61 61 61 | ok
submit a 1 100 | queued
flush | idle
begin b | snapshot 100
put b 1 7 61 61 61 | ok
put b 1 8 61 61 61 | ok
submit b 2 110 | queued
flush | idle
reopen | last 110 floors 0
at 1 7 110 | value 61 61 61
at 1 8 110 | value 61 61 61
",
            ),
            Extents(&[
                "01000000 00000000 12000000 00000000
         01 0100 0700000000000000 03 01 61 01 61 01 61 ..z 8158",
                "02000000 00000000 1f000000 00000000 02 0100 0700000000000000 0000
         01 0100 0800000000000000 03 01 61 01 61 01 61 ..z 8145",
            ]),
        ],
    },
    Example {
        name: "a_delta_that_is_no_shorter_is_not_stored",
        profiles: Each,
        steps: &[
            New(16),
            Says(
                "begin a | snapshot 0
put a 1 7 61 | ok
put a 1 8 - | ok
submit a 1 100 | queued
flush | idle
begin b | snapshot 100
put b 1 7 62 | ok
put b 1 8 - | ok
submit b 2 110 | queued
flush | idle
reopen | last 110 floors 0
at 1 7 110 | value 62
at 1 8 110 | value -
",
            ),
            Extents(&[
                "01000000 00000000 1b000000 00000000 01 0100 0700000000000000 01 01 61
         01 0100 0800000000000000 01 00 ..z 8149",
                "02000000 00000000 1b000000 00000000 01 0100 0700000000000000 01 01 62
         01 0100 0800000000000000 01 00 ..z 8149",
            ]),
        ],
    },
    Example {
        name: "another_count_of_fields_is_stored_whole",
        profiles: Each,
        steps: &[
            New(16),
            Says(
                "begin a | snapshot 0
put a 1 7 61 62 63 | ok
submit a 1 100 | queued
flush | idle
begin b | snapshot 100
put b 1 7 61 62 | ok
submit b 2 110 | queued
flush | idle
reopen | last 110 floors 0
at 1 7 110 | value 61 62
",
            ),
            Extents(&[
                "01000000 00000000 12000000 00000000
         01 0100 0700000000000000 03 01 61 01 62 01 63 ..z 8158",
                "02000000 00000000 10000000 00000000 01 0100 0700000000000000 02 01 61 01 62 ..z 8160",
            ]),
        ],
    },
    Example {
        name: "after_a_deletion_a_value_is_stored_whole",
        profiles: Each,
        steps: &[
            New(16),
            Says(
                "begin a | snapshot 0
put a 1 7 61 62 | ok
submit a 1 100 | queued
flush | idle
begin b | snapshot 100
del b 1 7 | ok
submit b 2 110 | queued
flush | idle
begin c | snapshot 110
put c 1 7 61 63 | ok
submit c 3 120 | queued
flush | idle
reopen | last 120 floors 0
at 1 7 119 | none
at 1 7 120 | value 61 63
",
            ),
            Extents(&[
                "01000000 00000000 10000000 00000000 01 0100 0700000000000000 02 01 61 01 62 ..z 8160",
                "02000000 00000000 0b000000 00000000 03 0100 0700000000000000 ..z 8165",
                "03000000 00000000 10000000 00000000 01 0100 0700000000000000 02 01 61 01 63 ..z 8160",
            ]),
        ],
    },
    Example {
        name: "four_commits_have_four_extents",
        profiles: Each,
        steps: &[
            New(16),
            Says(FOUR_COMMITS),
            Extents(&[
                "01000000 00000000 0e000000 00000000 01 0100 0700000000000000 01 01 61 ..z 8162",
                "02000000 00000000 0e000000 00000000 01 0100 0700000000000000 01 01 62 ..z 8162",
                "03000000 00000000 0b000000 00000000 03 0100 0700000000000000 ..z 8165",
                "04000000 00000000 0e000000 00000000 01 0100 0700000000000000 01 01 63 ..z 8162",
            ]),
        ],
    },
];

#[test]
fn records_are_stored(rt: HostRuntime) -> Result<(), Fail> {
    each_goes(rt.alloc(), EXAMPLES)
}
