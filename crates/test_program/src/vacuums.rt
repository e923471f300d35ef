//! The command `vacuum`: what it archives and reclaims, and where it stops.
use crate::dumps::RECLAIMED_LOG;
use crate::examples::{Example, FOUR_COMMITS, each_goes};
use crate::machine::Profiles::{Each, Older};
use crate::raised_floors::FROM_115;
use crate::refusals::Then::Left;
use crate::refusals::{Calls, Outcome, Refusals, each_refusal_goes};
use crate::steps::Step;
use crate::steps::Step::{At, Dumps, Extents, Long, New, Parts, Says, Spells, Vacuums};
use disk::Area;
use shell::Action;
use std::test::Fail;

/// All that stood after the four commits.
const ROWS: &str = "between 1 7 100 131 | 100 110 61
| 110 120 62
| 130 131 63
| rows 3
at 1 7 105 | value 61
at 1 7 125 | none
at 1 7 130 | value 63
";

/// The slot of a reclaim up to 120 that leaves no anchors, to its end.
const NO_ANCHORS: &str = "c7 03 00 00 05000000 7800000000000000 00000000 00000000 00000000 ..z 484";

/// Both say what they did.
const ENDED: &[Step] = &[
    New(16),
    Says(FOUR_COMMITS),
    Vacuums("120", "archived 2\nreclaimed 0\n", 0),
    Dumps(RECLAIMED_LOG, 0),
    Spells(Area::Status, 3072, NO_ANCHORS),
    Says(ROWS),
    Says("scan 1 105 | 7 61\n| rows 1\nreopen | last 130 floors 0\nscan 1 105 | 7 61\n| rows 1\n"),
];

/// What 61 was ended before the floor.
const FLOORED: &[Step] = &[
    New(16),
    Says(FOUR_COMMITS),
    Says("floor 115 | started\nfinish | idle\n"),
    Vacuums("120", "archived 1\nreclaimed 0\n", 0),
    Says(FROM_115),
];

/// Three commits of two keys, of which two stand at 105.
const TWO_KEYS: &str = "begin a | snapshot 0
put a 1 7 61 | ok
submit a 1 100 | queued
flush | idle
redeem a | done 100
begin b | snapshot 100
put b 1 8 78 | ok
submit b 2 105 | queued
flush | idle
redeem b | done 105
begin c | snapshot 105
put c 1 7 62 | ok
submit c 3 110 | queued
flush | idle
redeem c | done 110
";

/// Three more commits of the first key.
const THREE_MORE: &str = "begin a | snapshot 110
put a 1 7 64 | ok
submit a 4 120 | queued
flush | idle
begin b | snapshot 120
put b 1 7 65 | ok
submit b 5 130 | queued
flush | idle
begin c | snapshot 130
put c 1 7 66 | ok
submit c 6 140 | queued
flush | idle
";

/// Nothing ended by 105, and what stood then is two anchors of 22 bytes each in extent 4. Of the commits'
/// extents 1 and 2 become free, and 3 stays: the next commits take 1, 2 and 5.
const EMPTY: &[Step] = &[
    New(16),
    Says(TWO_KEYS),
    Vacuums("105", "archived 0\nreclaimed 2\n", 0),
    Says("between 1 7 100 111 | 100 110 61\n| 110 111 62\n| rows 2\n"),
    Long(Area::Archive, 0),
    Spells(
        Area::Status,
        2560,
        "c7 03 00 00 04000000 6900000000000000 04000000 01000000 02000000 ..z 484",
    ),
    Says(THREE_MORE),
    Extents(&[
        "01000000 00000000 0e000000 00000000 01 0100 0700000000000000 01 01 64 ..z 8162",
        "02000000 00000000 0e000000 00000000 01 0100 0700000000000000 01 01 65 ..z 8162",
        "03000000 00000000 0e000000 00000000 01 0100 0700000000000000 01 01 62 ..z 8162",
        "04000000 00000000 2c000000 00000000
         04 0100 0700000000000000 6400000000000000 01 01 61
         04 0100 0800000000000000 6900000000000000 01 01 78 ..z 8132",
        "05000000 00000000 0e000000 00000000 01 0100 0700000000000000 01 01 66 ..z 8162",
    ]),
    Says("between 1 7 100 111 | 100 110 61\n| 110 111 62\n| rows 2\nat 1 8 120 | value 78\n"),
];

/// A vacuum behind a vacuum.
const AGAIN: &[Step] = &[
    New(16),
    Says(FOUR_COMMITS),
    Vacuums("1970-01-01T00:00:00Z", "refused: nothing to do\n", 1),
    Vacuums("110", "archived 1\nreclaimed 1\n", 0),
    Says(ROWS),
    Vacuums("130", "archived 1\nreclaimed 1\n", 0),
    Vacuums("130", "refused: nothing to do\n", 1),
    Says(ROWS),
];

/// Vacuums of no store, and of one that has nothing to do.
const REFUSED: &[Step] = &[
    Vacuums("soon", "refused: bad time\n", 1),
    Vacuums("1", "refused: not a store\n", 1),
    New(16),
    Says(FOUR_COMMITS),
    Vacuums("131", "refused: not yet 130\n", 1),
    Says("archive 120 | started\nfinish | idle\n"),
    Vacuums("120", "refused: nothing to do\n", 1),
    At("105", "value 61"),
];

/// Each commit replaces the value of the one before, one microsecond later.
pub const REPLACED: &str = "begin t | snapshot #
put t 1 7 61 | ok
submit t # 0 | queued
flush | idle
redeem t | done +
";

/// Of 16 slots 14 are commits' and one is an archive's, so the vacuum's archive takes the last one.
const FULL: &[Step] = &[
    New(16),
    Parts(&[(REPLACED, 14), ("archive 1 | started\nfinish | idle\n", 1)]),
    Vacuums("14", "archived 13\nrefused: status full\n", 1),
    Says("at 1 7 7 | value 61\n"),
];

/// All stands as before, whatever was refused.
const ROWS_LEFT: &[(u8, &[Step])] = &[(0xC7, &[Says(ROWS)])];

/// The log cannot be read.
const UNREAD: Outcome = Outcome {
    calls: Calls::Over(0),
    said: ("refused: device\n", ""),
    more: false,
    status: 1,
    then: Left(ROWS_LEFT, &[]),
};

/// Each call is refused in turn: those of opening, the six of the archive, the five of the reclaim, and
/// those of reading the log for what they did.
const STOPPED: &[Refusals] = &[Refusals {
    name: "a_vacuum_stops_at_each_refused_call",
    profiles: Each,
    before: &[New(16), Says(FOUR_COMMITS)],
    action: Action::Vacuum {
        dir: "",
        time: Some(120),
    },
    script: "",
    write_reaches: false,
    outcomes: &[
        UNREAD,
        Outcome {
            calls: Calls::Just(6),
            said: ("refused: failed\n", ""),
            more: false,
            status: 1,
            then: Left(ROWS_LEFT, &[]),
        },
        Outcome {
            calls: Calls::Just(5),
            said: ("archived 2\nrefused: failed\n", ""),
            more: false,
            status: 1,
            then: Left(ROWS_LEFT, &[]),
        },
        UNREAD,
        Outcome {
            calls: Calls::Just(1),
            said: ("archived 2\nreclaimed 0\n", ""),
            more: false,
            status: 0,
            then: Left(ROWS_LEFT, &[]),
        },
    ],
}];

/// Each example, by its name.
const EXAMPLES: &[Example] = &[
    Example {
        name: "what_ended_is_archived_and_its_space_reclaimed",
        profiles: Each,
        steps: ENDED,
    },
    Example {
        name: "what_ended_by_the_floor_is_not_archived",
        profiles: Older,
        steps: FLOORED,
    },
    Example {
        name: "an_archive_may_be_empty_and_a_reclaim_not",
        profiles: Each,
        steps: EMPTY,
    },
    Example {
        name: "each_vacuum_says_what_it_did_itself",
        profiles: Each,
        steps: AGAIN,
    },
    Example {
        name: "a_vacuum_that_cannot_begin_is_refused",
        profiles: Each,
        steps: REFUSED,
    },
    Example {
        name: "what_was_archived_is_said_where_the_reclaim_is_refused",
        profiles: Each,
        steps: FULL,
    },
];

#[test]
fn vacuums_say_what_they_did(rt: HostRuntime) -> Result<(), Fail> {
    each_goes(rt.alloc(), EXAMPLES)
}

#[test]
fn a_vacuum_stops_at_each_refused_call(rt: HostRuntime) -> Result<(), Fail> {
    each_refusal_goes(rt.alloc(), STOPPED)
}
