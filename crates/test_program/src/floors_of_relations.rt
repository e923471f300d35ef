//! Floors of single relations: what each bars, what an archive and a reclaim then keep, and what a log
//! with them is as bytes and as text.
use crate::examples::{Example, each_goes};
use crate::machine::Profiles::{Newest, Older};
use crate::steps::Step;
use crate::steps::Step::{Dumps, Long, New, Says, Spells};
use disk::Area;
use std::test::Fail;

/// Two commits of a record of relation 1, and two of one of relation 2.
const TWO_RELATIONS: &str = "begin a | snapshot 0
put a 1 7 61 | ok
submit a 1 100 | queued
flush | idle
begin b | snapshot 100
put b 2 5 7a | ok
submit b 2 105 | queued
flush | idle
begin c | snapshot 105
put c 1 7 62 | ok
submit c 3 110 | queued
flush | idle
begin d | snapshot 110
put d 2 5 79 | ok
submit d 4 115 | queued
flush | idle
";

/// The floor of relation 1 is raised to 115.
const RAISED: &str = "floorof 1 115 | started
finish | idle
";

/// What is answered from then on.
const FROM_115: &str = "at 1 7 114 | refused: before kept 115
at 1 7 115 | value 62
at 2 5 104 | none
at 2 5 109 | value 7a
at 2 5 115 | value 79
between 1 7 114 116 | refused: before kept 115
between 1 7 115 116 | 115 116 62
| rows 1
between 2 5 100 116 | 105 115 7a
| 115 116 79
| rows 2
scan 1 114 | refused: before kept 115
scan 1 115 | 7 62
| rows 1
scan 2 109 | 5 7a
| rows 1
scan 3 0 | rows 0
";

/// The slot of the floor, the fifth.
const SLOT: &str = "c7 04 00 00 04000000 7300000000000000 0100 ..z 494";

/// The one record of the archive: 7a from 105 to 115. What 61 was ended before the floor of its relation.
const RUN: &str =
    "0200 0500000000000000 6900000000000000 7300000000000000 01 01 7a 0000000000000000";

/// The fifth extent, with what stands at the reclaim mark: 62 from 110 on and 79 from 115 on.
const ANCHORS: &str = "05000000 00000000 2c00000000000000
04 0100 0700000000000000 6e00000000000000 01 01 62
04 0200 0500000000000000 7300000000000000 01 01 79 ..z 8132";

/// A floor bars its own relation alone, before and after the store is opened anew.
const BARRED: &[Step] = &[
    New(16),
    Says(TWO_RELATIONS),
    Says("reopen | last 115 floors 0\n"),
    Says(RAISED),
    Spells(Area::Status, 2560, SLOT),
    Says(FROM_115),
    Says("reopen | last 115 floors 1\n"),
    Says(FROM_115),
];

/// What a relation keeps is archived and reclaimed.
const KEPT: &[Step] = &[
    New(16),
    Says(TWO_RELATIONS),
    Says(RAISED),
    Says("archive 115 | started\nfinish | idle\n"),
    Spells(Area::Archive, 0, RUN),
    Long(Area::Archive, 37),
    Says(FROM_115),
    Says("reclaim | started\nfinish | idle\n"),
    Spells(Area::Heap, 32_768, ANCHORS),
    Says(FROM_115),
    Says("reopen | last 115 floors 1\n"),
    Says(FROM_115),
];

/// The log of the store whose floor of relation 1 was raised, and which was archived and reclaimed up
/// to 115 and then written once more, in the first extent.
const LOG: &str = "header 16 pieces 0
slot 0 commit
member 1 100 1 1 1 1970-01-01T00:00:00Z
slot 1 commit
member 2 105 2 1 1 1970-01-01T00:00:00Z
slot 2 commit
member 3 110 3 1 1 1970-01-01T00:00:00Z
slot 3 commit
member 4 115 4 1 1 1970-01-01T00:00:00Z
slot 4 floor 115 relation 1
slot 5 archived 115 0 37 1
slot 6 reclaimed 115 5 1 2
slot 7 commit
member 5 120 1 1 1 1970-01-01T00:00:00Z
used 8 of 16
";

/// The log tells of which relation a floor is.
const TOLD: &[Step] = &[
    New(16),
    Says(TWO_RELATIONS),
    Says(RAISED),
    Says(
        "archive 115 | started
finish | idle
reclaim | started
finish | idle
begin e | snapshot 115
put e 1 7 63 | ok
submit e 5 120 | queued
flush | idle
",
    ),
    Dumps(LOG, 0),
];

/// Floors of relations are refused in their order.
const REFUSED: &[Step] = &[
    New(16),
    Says(TWO_RELATIONS),
    Says(
        "floor 115 | refused: wrong profile
floor 0 | refused: wrong profile
floorof 1 0 | refused: nothing to do
floorof 1 116 | refused: not yet 115
begin r | snapshot 115
begin e | snapshot 115
put e 1 7 63 | ok
submit e 5 120 | queued
flush | idle
floorof 2 116 | refused: in use 115
floorof 2 115 | started
floorof 1 115 | refused: job busy
floor 115 | refused: wrong profile
at 2 5 109 | value 7a
finish | idle
at 2 5 109 | refused: before kept 115
floorof 2 115 | refused: nothing to do
floorof 1 110 | started
finish | idle
at 1 7 109 | refused: before kept 110
abort r | ok
floorof 65535 120 | started
finish | idle
reopen | last 120 floors 3
",
    ),
];

/// A store with one floor of all relations has none of one.
const ONE_FLOOR: &[Step] = &[
    New(16),
    Says(TWO_RELATIONS),
    Says(
        "floorof 1 115 | refused: wrong profile
floorof 1 0 | refused: wrong profile
floor 115 | started
floorof 1 115 | refused: wrong profile
floor 115 | refused: job busy
finish | idle
at 2 5 109 | refused: before kept 115
reopen | last 115 floor 115
",
    ),
];

/// Each example, by its name.
const EXAMPLES: &[Example] = &[
    Example {
        name: "a_floor_bars_its_own_relation_alone",
        profiles: Newest,
        steps: BARRED,
    },
    Example {
        name: "what_a_relation_keeps_is_archived_and_reclaimed",
        profiles: Newest,
        steps: KEPT,
    },
    Example {
        name: "a_log_tells_of_which_relation_a_floor_is",
        profiles: Newest,
        steps: TOLD,
    },
    Example {
        name: "floors_of_relations_are_refused_in_their_order",
        profiles: Newest,
        steps: REFUSED,
    },
    Example {
        name: "a_store_with_one_floor_has_none_of_a_relation",
        profiles: Older,
        steps: ONE_FLOOR,
    },
];

#[test]
fn floors_of_relations_are_answered(rt: HostRuntime) -> Result<(), Fail> {
    each_goes(rt.alloc(), EXAMPLES)
}
