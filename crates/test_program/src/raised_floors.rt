//! Floors: from when on a store answers, and what bars one.
use crate::examples::{Example, FOUR_COMMITS, each_goes};
use crate::machine::Profiles::Older;
use crate::steps::Step;
use crate::steps::Step::{At, Long, New, Parts, Says, Spells};
use disk::Area;
use std::test::Fail;

/// What ended by 120 is archived and reclaimed, and the floor is raised to it.
pub const RAISED: &str = "archive 120 | started
finish | idle
reclaim | started
finish | idle
floor 120 | started
finish | idle
";

/// What is answered from then on.
const FROM_120: &str = "at 1 7 0 | refused: before kept 120
at 1 7 119 | refused: before kept 120
at 1 7 120 | none
at 1 7 130 | value 63
at 1 7 131 | refused: not yet 130
between 1 7 119 131 | refused: before kept 120
between 1 7 120 131 | 130 131 63
| rows 1
scan 1 119 | refused: before kept 120
scan 1 130 | 7 63
| rows 1
floor 120 | refused: nothing to do
floor 131 | refused: not yet 130
";

/// The slot of the floor, the seventh.
const SLOT: &str = "c7 04 00 00 06000000 7800000000000000 ..z 496";

/// A floor, and the store opened again behind it.
const FLOORED: &[Step] = &[
    New(16),
    Parts(&[
        (FOUR_COMMITS, 1),
        (RAISED, 1),
        (FROM_120, 1),
        ("reopen | last 130 floor 120\n", 1),
        (FROM_120, 1),
    ]),
    Spells(Area::Status, 3584, SLOT),
    Says(FROM_120),
    At("119", "refused: before kept 120"),
    At("120", "none"),
];

/// What is answered of the four commits once the floor is raised to 115.
pub const FROM_115: &str = "between 1 7 115 131 | 115 120 62
| 130 131 63
| rows 2
between 1 7 114 131 | refused: before kept 115
at 1 7 114 | refused: before kept 115
at 1 7 115 | value 62
";

/// The one record of the archive: 62 from 110 to 120. What 61 was ended before the floor.
const RUN: &str =
    "0100 0700000000000000 6e00000000000000 7800000000000000 01 01 62 0000000000000000";

/// A floor, and behind it an archive and a reclaim.
const LEFT_OUT: &[Step] = &[
    New(16),
    Parts(&[
        (FOUR_COMMITS, 1),
        ("floor 115 | started\nfinish | idle\n", 1),
        ("archive 120 | started\nfinish | idle\n", 1),
        (FROM_115, 1),
        ("reopen | last 130 floor 115\n", 1),
        (FROM_115, 1),
    ]),
    Spells(Area::Archive, 0, RUN),
    Long(Area::Archive, 37),
    Says("reclaim | started\nfinish | idle\n"),
    Says(FROM_115),
];

/// Each example, by its name.
const EXAMPLES: &[Example] = &[
    Example {
        name: "a_floor_bars_what_stood_before_it",
        profiles: Older,
        steps: FLOORED,
    },
    Example {
        name: "an_archive_leaves_out_what_ended_by_the_floor",
        profiles: Older,
        steps: LEFT_OUT,
    },
];

#[test]
fn floors_bar_what_stood_before_them(rt: HostRuntime) -> Result<(), Fail> {
    each_goes(rt.alloc(), EXAMPLES)
}
