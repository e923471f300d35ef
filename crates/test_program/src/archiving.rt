//! Archives that a script makes, step by step.
use crate::archived::{RUN, SLOT};
use crate::examples::{Example, FOUR_COMMITS, each_goes};
use crate::machine::Profiles::{Each, Newest};
use crate::steps::Step;
use crate::steps::Step::{Long, New, Parts, Says, Spells, SpellsParts};
use disk::Area;
use std::test::Fail;

/// All that stood after the four commits.
pub const ROWS: &str = "between 1 7 100 131 | 100 110 61
| 110 120 62
| 130 131 63
| rows 3
";

/// The steps of an archive whose run is one piece.
const STEPS: &str = "job | wrote run
job | run synced
job | body written
job | body synced
job | gate written
job | job done
";

/// Archives of the four commits up to the third, up to the last, and where there is nothing to do.
const STEP_BY_STEP: &[Step] = &[
    New(16),
    Parts(&[
        (FOUR_COMMITS, 1),
        (ROWS, 1),
        (
            "archive 120 | started\narchive 130 | refused: job busy\n",
            1,
        ),
        (STEPS, 1),
        (
            "job | idle\nfinish | idle\narchive 120 | refused: nothing to do\n",
            1,
        ),
        (ROWS, 1),
    ]),
    Spells(Area::Status, 2560, SLOT),
    Spells(Area::Archive, 0, RUN),
    Long(Area::Archive, 74),
    Says(ROWS),
    Says(
        "archive 120 | refused: nothing to do
archive 131 | refused: not yet 130
archive 1970-01-01T00:00:00Z | refused: nothing to do
archive 130 | started
archive 130 | refused: job busy
archive 131 | refused: job busy
finish | idle
archive 130 | refused: nothing to do
",
    ),
];

/// A value from 100 on and another from 110 on.
pub const TWO_COMMITS: &str = "begin a | snapshot 0
put a 1 7 61 | ok
submit a 9 100 | queued
flush | idle
begin b | snapshot 100
put b 1 7 62 | ok
submit b 9 110 | queued
flush | idle
";

/// An archive up to the last commit, a deletion.
const ENDED: &[Step] = &[
    New(16),
    Parts(&[
        (TWO_COMMITS, 1),
        (
            "begin c | snapshot 110
del c 1 7 | ok
submit c 9 120 | queued
flush | idle
archive 121 | refused: not yet 120
archive 120 | started
archive 120 | refused: job busy
",
            1,
        ),
        (STEPS, 1),
        ("job | idle\n", 1),
    ]),
    Long(Area::Archive, 74),
    Spells(Area::Archive, 0, RUN),
    Says("archive 120 | refused: nothing to do\n"),
];

/// An archive up to the second of three commits, by when nothing had ended.
const EMPTY: &[Step] = &[
    New(16),
    Says(
        "begin a | snapshot 0
put a 1 7 61 | ok
submit a 1 100 | queued
flush | idle
begin x | snapshot 100
put x 1 8 78 | ok
submit x 2 105 | queued
flush | idle
begin b | snapshot 105
put b 1 7 62 | ok
submit b 3 110 | queued
flush | idle
archive 105 | started
job | run synced
job | body written
job | body synced
job | gate written
job | job done
job | idle
reopen | last 110 floors 0
at 1 7 105 | value 61
at 1 8 105 | value 78
at 1 7 110 | value 62
",
    ),
    Spells(
        Area::Status,
        2048,
        "c7 02 00 00 03000000 6900000000000000 0000000000000000 0000000000000000 0000000000000000 ..z 472",
    ),
    Long(Area::Archive, 0),
];

/// Two values of 16 long fields, and a short one, of which an archive up to the last begins.
pub const LONG_VALUES: &str = "begin a | snapshot 0
put a 1 7A | ok
submit a 1 100 | queued
flush | idle
begin b | snapshot 100
put b 1 7A | ok
submit b 2 110 | queued
flush | idle
begin c | snapshot 110
put c 1 7 63 | ok
submit c 3 120 | queued
flush | idle
archive 120 | started
job | wrote run
";

/// The second piece of its run.
const SECOND_PIECE: &str = "job | wrote run
job | run synced
job | body written
job | body synced
job | gate written
job | job done
";

/// The run: two records of 4,123 bytes, and the index of their places. Each value has 16 fields of 255
/// bytes 61.
pub const TWO_LONG_RECORDS: Step = SpellsParts(
    Area::Archive,
    &[
        (
            "0100 0700000000000000 6400000000000000 6e00000000000000 10",
            1,
        ),
        ("E", 16),
        (
            "0100 0700000000000000 6e00000000000000 7800000000000000 10",
            1,
        ),
        ("E", 16),
        ("0000000000000000 1b10000000000000", 1),
    ],
);

/// An archive of two values of 16 long fields.
const TWO_PIECES: &[Step] = &[
    New(16),
    Parts(&[
        (LONG_VALUES, 1),
        (SECOND_PIECE, 1),
        (
            "reopen | last 120 floors 0
at 1 7 105 | valueA
at 1 7 119 | valueA
at 1 7 120 | value 63
",
            1,
        ),
    ]),
    Spells(
        Area::Status,
        2048,
        "c7 02 00 00 03000000 7800000000000000 0000000000000000 4620000000000000 0200000000000000 ..z 472",
    ),
    Long(Area::Archive, 8262),
    TWO_LONG_RECORDS,
];

/// The same with a commit that is published between the two pieces, and takes the slot before the run's.
const COMMIT_BETWEEN: &[Step] = &[
    New(16),
    Parts(&[
        (LONG_VALUES, 1),
        (
            "begin d | snapshot 120
put d 1 7 64 | ok
submit d 4 130 | queued
flush | idle
redeem d | done 130
",
            1,
        ),
        (SECOND_PIECE, 1),
        (
            "reopen | last 130 floors 0
at 1 7 105 | valueA
at 1 7 119 | valueA
at 1 7 120 | value 63
at 1 7 130 | value 64
",
            1,
        ),
    ]),
    Spells(
        Area::Status,
        2560,
        "c7 02 00 00 04000000 7800000000000000 0000000000000000 4620000000000000 0200000000000000 ..z 472",
    ),
    Long(Area::Archive, 8262),
    TWO_LONG_RECORDS,
];

/// An archive that was not finished is made anew.
const GIVEN_UP: &[Step] = &[
    New(16),
    Parts(&[
        (FOUR_COMMITS, 1),
        (
            "archive 120 | started
job | wrote run
job | run synced
job | body written
reopen | last 130 floors 0
job | idle
archive 120 | started
job | wrote run
",
            1,
        ),
    ]),
    Parts(&[
        ("job | idle\narchive 120 | started\n", 1),
        (STEPS, 1),
        (ROWS, 1),
    ]),
    Spells(Area::Status, 2560, SLOT),
    Spells(Area::Archive, 0, RUN),
];

/// Each of so many commits ends the value of the one before, which an archive then has: the first run is
/// empty, and each of the others has one record. The values are asked of the runs, and of memory the last.
const MANY_RUNS: &[Step] = &[
    New(256),
    Parts(&[
        (
            "begin t | snapshot #
put t 1 7 61 | ok
submit t # 0 | queued
flush | idle
redeem t | done +
archive + | started
finish | idle
",
            101,
        ),
        (
            "reclaim | started\nfinish | idle\nreopen | last 101 floors 0\n",
            1,
        ),
        ("at 1 7 + | value 61\n", 101),
        (
            "begin u | snapshot 101
put u 1 7 62 | ok
submit u 9 0 | queued
flush | idle
at 1 7 102 | value 62
between 1 7 99 103 | 99 100 61
| 100 101 61
| 101 102 61
| 102 103 62
| rows 4
",
            1,
        ),
    ]),
];

/// A new store has nothing to archive.
const OF_NOTHING: &[Step] = &[
    New(16),
    Says(
        "job | idle
finish | idle
archive 0 | refused: nothing to do
archive 1 | refused: not yet 0
",
    ),
];

/// Each example, by its name.
const EXAMPLES: &[Example] = &[
    Example {
        name: "an_archive_is_made_step_by_step",
        profiles: Each,
        steps: STEP_BY_STEP,
    },
    Example {
        name: "an_archive_is_what_ended_by_its_time",
        profiles: Each,
        steps: ENDED,
    },
    Example {
        name: "a_run_may_be_empty",
        profiles: Each,
        steps: EMPTY,
    },
    Example {
        name: "a_long_run_is_written_in_pieces",
        profiles: Each,
        steps: TWO_PIECES,
    },
    Example {
        name: "a_commit_between_two_pieces_changes_no_byte_of_the_run",
        profiles: Each,
        steps: COMMIT_BETWEEN,
    },
    Example {
        name: "what_is_not_finished_is_given_up",
        profiles: Each,
        steps: GIVEN_UP,
    },
    Example {
        name: "a_hundred_runs_are_asked",
        profiles: Newest,
        steps: MANY_RUNS,
    },
    Example {
        name: "nothing_is_archived_of_nothing",
        profiles: Each,
        steps: OF_NOTHING,
    },
];

#[test]
fn archives_are_made_step_by_step(rt: HostRuntime) -> Result<(), Fail> {
    each_goes(rt.alloc(), EXAMPLES)
}
