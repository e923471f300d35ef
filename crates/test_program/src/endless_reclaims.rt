//! Reclaims of stores whose log lies in the heap: their steps and bytes, commits beside them, and vacuums.
use crate::archiving::ROWS;
use crate::endless::ONE_COMMIT;
use crate::examples::{Example, FOUR_COMMITS, each_goes};
use crate::machine::Profiles::Endless;
use crate::refused_archives::ALIKE;
use crate::steps::Step;
use crate::steps::Step::{Does, Dumps, Long, New, Parts, Says, Spells, Vacuums};
use disk::Area;
use shell::Action;
use std::test::Fail;

/// An archive up to 120, and then one up to 130, whose run is empty.
pub const ARCHIVE: &str = "archive 120 | started\nfinish | idle\n";

pub const ARCHIVE_AGAIN: &str = "archive 130 | started\nfinish | idle\n";

/// A reclaim behind the first, whose base is one extent.
pub const ONE_RECLAIM: &str = "reclaim | started
job | wrote extent
job | heap synced
job | wrote roll
job | roll synced
job | root written
job | root synced
job | turn written
job | job done
";

/// And behind the second: its anchors are one extent more.
pub const WITH_ANCHORS: &str = "reclaim | started
job | wrote extent
job | wrote extent
job | heap synced
job | wrote roll
job | roll synced
job | root written
job | root synced
job | turn written
job | job done
";

/// And behind a floor: there is no name to tell.
const OF_FLOORS: &str = "reclaim | started
job | wrote extent
job | heap synced
job | root written
job | root synced
job | turn written
job | job done
";

/// The header, the base and the roll of the first.
pub const HEADER: &str = "4e4f4f5645523031 04000000 40000000 c7 000000 01000000 07000000 ..z 484";

pub const BASE: &str = "c7 000000 07000000 00000000 26000000 04000000 00000000
    08 7800000000000000 00000000 00000000 00000000 09 4a00000000000000 3000000000000000 ..z 8130";

pub const ROLL: &str = "0100000000000000 6400000000000000 0200000000000000 6e00000000000000
    0300000000000000 7800000000000000";

/// The header, the anchors and the base of the second.
const SECOND_HEADER: &str =
    "4e4f4f5645523031 04000000 40000000 00 000000 03000000 07000000 ..z 484";

pub const ANCHORS: &str = "00 000000 02000000 00000000 16000000 00000000 00000000
    04 0100 0700000000000000 8200000000000000 01 01 63 ..z 8146
    c7 000000 03000000 00000000 7d000000 01000000 00000000
    08 8200000000000000 02000000 01000000 01000000
    09 4a00000000000000 3000000000000000 09 7a00000000000000 1000000000000000
    06 7800000000000000 0000000000000000 4a00000000000000 0200000000000000 0000
    06 8200000000000000 7a00000000000000 0000000000000000 0000000000000000 0000 ..z 8043";

pub const SECOND_ROLL: &str = "0400000000000000 8200000000000000";

/// The header and the base of the third.
const THIRD_HEADER: &str = "4e4f4f5645523031 04000000 40000000 c7 000000 03000000 05000000 ..z 484";

const FLOORED_BASE: &str = "c7 000000 05000000 00000000 88000000 04000000 00000000
    08 8200000000000000 02000000 01000000 01000000
    09 4a00000000000000 3000000000000000 09 7a00000000000000 1000000000000000
    06 7800000000000000 0000000000000000 4a00000000000000 0200000000000000 0000
    06 8200000000000000 7a00000000000000 0000000000000000 0000000000000000 0000
    07 8200000000000000 0100 ..z 8032";

/// The log of the four commits behind the first reclaim, behind the second, and behind the third.
pub const RECLAIMED_LOG: &str = "header extents 64 root 7
chain 7 base 120 0 0 0
roll 74 48
chain 4 commits extents 1
member 4 130 1 1970-01-01T00:00:00Z
chain 5 archived 120 0 74 2 0
next 6
used 3 of 64
";

pub const SECOND_LOG: &str = "header extents 64 root 3
chain 3 base 130 2 1 1
roll 74 48
roll 122 16
archived 120 0 74 2 0
archived 130 122 0 0 0
next 1
used 2 of 64
";

const THIRD_LOG: &str = "header extents 64 root 5
chain 5 base 130 2 1 1
roll 74 48
roll 122 16
archived 120 0 74 2 0
archived 130 122 0 0 0
floor 130 relation 1
next 4
used 2 of 64
";

const INFO: Action<'static> = Action::Info {
    dir: "",
    json: false,
};

/// What they tell. The commits whose names are in rolls count.
const FACTS: Step = Does(
    INFO,
    "",
    "profile 4
heap 64
extents 3
log 3
free 29
commits 4
last 130
archived 120
archive 122
reclaimed 120
",
    0,
);

const SECOND_FACTS: Step = Does(
    INFO,
    "",
    "profile 4
heap 64
extents 2
log 1
free 31
commits 4
last 130
archived 130
archive 138
reclaimed 130
",
    0,
);

const THIRD_FACTS: Step = Does(
    INFO,
    "",
    "profile 4
heap 64
extents 2
log 1
free 31
commits 4
last 130
archived 130
archive 138
reclaimed 130
floor 1 130
",
    0,
);

/// All answers stay, whatever step the reclaim is at; no other job begins before it is done.
const STEP_BY_STEP: &[Step] = &[
    New(0),
    Parts(&[
        (FOUR_COMMITS, 1),
        ("reclaim | refused: nothing to do\n", 1),
        (ARCHIVE, 1),
        (ROWS, 1),
        (
            "reclaim | started
reclaim | refused: job busy
archive 130 | refused: job busy
floorof 1 130 | refused: job busy
job | wrote extent
",
            1,
        ),
        (ROWS, 1),
        ("job | heap synced\njob | wrote roll\n", 1),
        (ROWS, 1),
        ("job | roll synced\njob | root written\n", 1),
        (ROWS, 1),
        ("job | root synced\njob | turn written\n", 1),
        (ROWS, 1),
        (
            "job | job done
job | idle
finish | idle
reclaim | refused: nothing to do
archive 120 | refused: nothing to do
",
            1,
        ),
        (ROWS, 1),
    ]),
    Long(Area::Heap, 57_344),
    Long(Area::Archive, 122),
    Spells(Area::Status, 0, HEADER),
    Spells(Area::Heap, 49_152, BASE),
    Spells(Area::Archive, 74, ROLL),
    Dumps(RECLAIMED_LOG, 0),
    FACTS,
    Says("reclaim | refused: nothing to do\ntimes 4 | times 130\n"),
    ALIKE,
];

/// The second base has an anchor of what stands, and the log goes on where the first groups were. The third has a floor, and the same
/// anchor.
const ONE_AFTER_ANOTHER: &[Step] = &[
    New(0),
    Parts(&[(FOUR_COMMITS, 1), (ARCHIVE, 1), (ONE_RECLAIM, 1)]),
    Parts(&[(ARCHIVE_AGAIN, 1), (WITH_ANCHORS, 1)]),
    Long(Area::Heap, 57_344),
    Long(Area::Archive, 138),
    Spells(Area::Status, 0, SECOND_HEADER),
    Spells(Area::Heap, 8_192, ANCHORS),
    Spells(Area::Archive, 74, ROLL),
    Spells(Area::Archive, 122, SECOND_ROLL),
    Dumps(SECOND_LOG, 0),
    SECOND_FACTS,
    ALIKE,
    Parts(&[
        (
            "reclaim | refused: nothing to do\nfloorof 1 130 | started\nfinish | idle\n",
            1,
        ),
        (OF_FLOORS, 1),
        ("reclaim | refused: nothing to do\n", 1),
    ]),
    Spells(Area::Status, 0, THIRD_HEADER),
    Spells(Area::Heap, 32_768, FLOORED_BASE),
    Dumps(THIRD_LOG, 0),
    THIRD_FACTS,
    Says(
        "at 1 7 129 | refused: before kept 130
at 1 7 130 | value 63
begin e | snapshot 130
put e 1 8 64 | ok
submit e 5 0 | queued
flush | idle
redeem e | done 131
reopen | last 131 floors 1
at 1 7 131 | value 63
at 1 8 131 | value 64
times 5 | times 131
",
    ),
];

/// All of one commit is reclaimed, in one script.
const ALL_OF_IT: &[Step] = &[
    New(0),
    Parts(&[
        (ONE_COMMIT, 1),
        (
            "pump | idle
archive 100 | started
job | run synced
job | wrote entry
job | gate closed
job | heap synced
job | gate written
job | job done
job | idle
",
            1,
        ),
        (WITH_ANCHORS, 1),
        (
            "job | idle
floorof 1 100 | started
job | wrote entry
job | gate closed
job | heap synced
job | gate written
job | job done
job | idle
times 9 | times 100
redeem t | done 100
reopen | last 100 floors 1
at 1 7 99 | refused: before kept 100
at 1 7 100 | value 61
reclaim | started
",
            1,
        ),
    ]),
];

/// The first six commits are published between the steps. The seventh's gate is written when the root is to turn, and the eighth's is
/// to be written when it has turned: each waits for the other.
const BESIDE: &[Step] = &[
    New(0),
    Parts(&[
        (FOUR_COMMITS, 1),
        (ARCHIVE, 1),
        ("reclaim | started\n", 1),
        (
            "begin e | snapshot 130
put e 1 101 64 | ok
submit e 11 0 | queued
flush | idle
redeem e | done 131
job | wrote extent
begin e | snapshot 131
put e 1 102 64 | ok
submit e 12 0 | queued
flush | idle
redeem e | done 132
job | heap synced
begin e | snapshot 132
put e 1 103 64 | ok
submit e 13 0 | queued
flush | idle
redeem e | done 133
job | wrote roll
begin e | snapshot 133
put e 1 104 64 | ok
submit e 14 0 | queued
flush | idle
redeem e | done 134
job | roll synced
begin e | snapshot 134
put e 1 105 64 | ok
submit e 15 0 | queued
flush | idle
redeem e | done 135
job | root written
begin e | snapshot 135
put e 1 106 64 | ok
submit e 16 0 | queued
flush | idle
redeem e | done 136
job | root synced
",
            1,
        ),
        (
            "begin f | snapshot 136
put f 1 107 64 | ok
submit f 17 0 | queued
pump | wrote extent
pump | gate closed
pump | heap synced
pump | gate written
job | refused: busy
finish | refused: busy
pump | published 1
job | turn written
begin g | snapshot 137
put g 1 108 64 | ok
submit g 18 0 | queued
pump | wrote extent
pump | gate closed
pump | heap synced
pump | refused: busy
flush | refused: busy
job | job done
pump | gate written
pump | published 1
pump | idle
job | idle
redeem f | done 137
redeem g | done 138
reopen | last 138 floors 0
reclaim | refused: nothing to do
at 1 101 131 | value 64
at 1 108 138 | value 64
times 11 | times 131
times 18 | times 138
",
            1,
        ),
        (ROWS, 1),
    ]),
    Dumps(
        "header extents 64 root 7
chain 7 base 120 0 0 0
roll 74 48
chain 4 commits extents 1
member 4 130 1 1970-01-01T00:00:00Z
chain 5 archived 120 0 74 2 0
chain 6 commits extents 1
member 11 131 1 1970-01-01T00:00:00Z
chain 8 commits extents 1
member 12 132 1 1970-01-01T00:00:00Z
chain 9 commits extents 1
member 13 133 1 1970-01-01T00:00:00Z
chain 10 commits extents 1
member 14 134 1 1970-01-01T00:00:00Z
chain 11 commits extents 1
member 15 135 1 1970-01-01T00:00:00Z
chain 12 commits extents 1
member 16 136 1 1970-01-01T00:00:00Z
chain 13 commits extents 1
member 17 137 1 1970-01-01T00:00:00Z
chain 14 commits extents 1
member 18 138 1 1970-01-01T00:00:00Z
next 15
used 11 of 64
",
        0,
    ),
];

/// A transaction that reads at 130 bars a reclaim up to a later time. Where it is over the reclaim begins.
const IN_USE: &[Step] = &[
    New(0),
    Says(FOUR_COMMITS),
    Parts(&[
        (
            "begin u | snapshot 130
begin e | snapshot 130
put e 1 7 64 | ok
submit e 5 140 | queued
flush | idle
archive 140 | started
finish | idle
reclaim | refused: in use 130
job | idle
get u 1 7 | value 63
abort u | ok
",
            1,
        ),
        (WITH_ANCHORS, 1),
        ("reopen | last 140 floors 0\nat 1 7 140 | value 64\n", 1),
        (ROWS, 1),
    ]),
];

/// What a vacuum archives and reclaims. Each says what it did itself.
const VACUUMS: &[Step] = &[
    New(0),
    Vacuums("1", "refused: not yet 0\n", 1),
    Says(FOUR_COMMITS),
    Vacuums("131", "refused: not yet 130\n", 1),
    Vacuums("120", "archived 2\nreclaimed 0\n", 0),
    Dumps(RECLAIMED_LOG, 0),
    FACTS,
    Says(ROWS),
    Vacuums("120", "refused: nothing to do\n", 1),
    Vacuums("130", "archived 0\nreclaimed 1\n", 0),
    Dumps(SECOND_LOG, 0),
    SECOND_FACTS,
    Says(ROWS),
];

/// A value that ended before its relation's floor is not archived, and its commit's name is kept.
const FLOORED: &[Step] = &[
    New(0),
    Says(FOUR_COMMITS),
    Says("floorof 1 115 | started\nfinish | idle\n"),
    Vacuums("120", "archived 1\nreclaimed 0\n", 0),
    Long(Area::Archive, 85),
    Spells(Area::Archive, 37, ROLL),
    Dumps(
        "header extents 64 root 8
chain 8 base 120 0 0 0
roll 37 48
chain 4 commits extents 1
member 4 130 1 1970-01-01T00:00:00Z
chain 5 floor 115 relation 1
chain 6 archived 120 0 37 1 0
next 7
used 4 of 64
",
        0,
    ),
    Says(
        "at 1 7 114 | refused: before kept 115
between 1 7 115 131 | 115 120 62
| 130 131 63
| rows 2
",
    ),
];

const ONE: &[Example] = &[Example {
    name: "a_reclaim_is_made_step_by_step",
    profiles: Endless,
    steps: STEP_BY_STEP,
}];

const MORE: &[Example] = &[
    Example {
        name: "a_base_takes_the_place_of_the_one_before",
        profiles: Endless,
        steps: ONE_AFTER_ANOTHER,
    },
    Example {
        name: "all_of_a_log_is_reclaimed",
        profiles: Endless,
        steps: ALL_OF_IT,
    },
];

const TOGETHER: &[Example] = &[
    Example {
        name: "a_reclaim_and_a_group_wait_for_each_other",
        profiles: Endless,
        steps: BESIDE,
    },
    Example {
        name: "an_open_transaction_bars_a_reclaim",
        profiles: Endless,
        steps: IN_USE,
    },
];

const BOTH_JOBS: &[Example] = &[
    Example {
        name: "a_vacuum_archives_and_reclaims",
        profiles: Endless,
        steps: VACUUMS,
    },
    Example {
        name: "a_vacuum_keeps_names_below_a_floor",
        profiles: Endless,
        steps: FLOORED,
    },
];

#[test]
fn an_endless_reclaim_is_made_step_by_step(rt: HostRuntime) -> Result<(), Fail> {
    each_goes(rt.alloc(), ONE)
}

#[test]
fn endless_reclaims_are_made_one_after_another(rt: HostRuntime) -> Result<(), Fail> {
    each_goes(rt.alloc(), MORE)
}

#[test]
fn endless_reclaims_go_beside_groups_and_transactions(rt: HostRuntime) -> Result<(), Fail> {
    each_goes(rt.alloc(), TOGETHER)
}

#[test]
fn endless_vacuums_archive_and_reclaim(rt: HostRuntime) -> Result<(), Fail> {
    each_goes(rt.alloc(), BOTH_JOBS)
}
