//! Rows of an interval, and scans at a time.
use crate::examples::{Example, FOUR_COMMITS, each_goes};
use crate::machine::Profiles::Every;
use crate::steps::Step;
use crate::steps::Step::{New, Rows, Runs, Says};
use std::test::Fail;

/// Record 7 is a value, another, gone and a third; record 3 is written in between.
const FIVE_COMMITS: &str = "begin a | snapshot 0
put a 1 7 61 | ok
submit a 1 100 | queued
flush | idle
begin b | snapshot 100
put b 1 7 62 | ok
submit b 2 110 | queued
flush | idle
begin x | snapshot 110
put x 1 3 78 | ok
submit x 5 115 | queued
flush | idle
begin c | snapshot 115
del c 1 7 | ok
submit c 3 120 | queued
flush | idle
begin d | snapshot 120
put d 1 7 63 | ok
submit d 4 130 | queued
flush | idle
";

/// What is scanned at a time.
const SCANS: &[Step] = &[
    New(16),
    Says(FIVE_COMMITS),
    Runs(
        "scan 1 115\nscan 1 125\nscan 2 115\nscan 1 99\nscan 1 131\nreopen\nscan 1 130\n",
        "3 78\n7 62\nrows 2\n3 78\nrows 1\nrows 0\nrows 0\nrefused: not yet 130\nlast 130 floors 0\n3 78\n7 63\nrows 2\n",
        0,
    ),
];

/// Rows of intervals.
const CUT: &[Step] = &[
    New(16),
    Says(FIVE_COMMITS),
    Runs(
        "between 1 7 105 121\nbetween 1 7 112 131\nbetween 1 3 112 131\nbetween 1 7 120 130\nbetween 1 9 0 131\n",
        "105 110 61\n110 120 62\nrows 2\n112 120 62\n130 131 63\nrows 2\n115 131 78\nrows 1\nrows 0\nrows 0\n",
        0,
    ),
    Runs(
        "between 1 7 140 140\nbetween 1 7 0 132\nbetween 1 7 120 120\nbetween 1 7 121 120\n",
        "refused: not yet 130\nrefused: not yet 130\nrefused: empty interval\nrefused: empty interval\n",
        0,
    ),
];

/// Rows of a value, another, none, and a third: whole, cut at both ends, while there is no value, of an
/// empty interval, and of one that ends too late.
const OF_FOUR: &[Step] = &[
    New(16),
    Says(FOUR_COMMITS),
    Says(
        "between 1 7 100 131 | 100 110 61
| 110 120 62
| 130 131 63
| rows 3
between 1 7 105 115 | 105 110 61
| 110 115 62
| rows 2
between 1 7 120 130 | rows 0
between 1 7 110 110 | refused: empty interval
between 1 7 100 132 | refused: not yet 130
",
    ),
];

/// What a command answers, and refuses.
const ASKED: &[Step] = &[
    New(16),
    Says(FIVE_COMMITS),
    Rows("112", "131", "112 120 62\n130 131 63\nrows 2\n", 0),
    Rows("0", "1970-01-01T00:00:01Z", "refused: not yet 130\n", 1),
    Rows("5", "5", "refused: empty interval\n", 1),
    Rows("0", "soon", "refused: bad time\n", 1),
    Rows("today", "9", "refused: bad time\n", 1),
];

/// Each example, by its name.
const EXAMPLES: &[Example] = &[
    Example {
        name: "a_scan_shows_what_stood_at_its_time",
        profiles: Every,
        steps: SCANS,
    },
    Example {
        name: "rows_are_cut_to_their_interval",
        profiles: Every,
        steps: CUT,
    },
    Example {
        name: "rows_of_four_commits",
        profiles: Every,
        steps: OF_FOUR,
    },
    Example {
        name: "a_command_asks_for_rows",
        profiles: Every,
        steps: ASKED,
    },
];

#[test]
fn scans_and_rows_are_what_stood(rt: HostRuntime) -> Result<(), Fail> {
    each_goes(rt.alloc(), EXAMPLES)
}
