//! The times of a label where the log lies in the heap: those up to the reclaim mark are read in the archive.
use crate::endless_reclaims::{ARCHIVE, ONE_RECLAIM};
use crate::examples::{Example, FOUR_COMMITS, each_goes};
use crate::machine::Profiles::Endless;
use crate::machine::SCRIPT;
use crate::refusals::Then::Nothing;
use crate::refusals::{Calls, Outcome, Refusals, UNOPENED, each_refusal_goes};
use crate::steps::Step;
use crate::steps::Step::{Asks, Back, Changes, Mark, New, Parts, Says};
use disk::Area;
use shell::Question;
use std::test::Fail;

/// What the labels of the four commits answer, whatever stands of the reclaim.
const LABELS: &str = "times 1 | times 100
times 2 | times 110
times 3 | times 120
times 4 | times 130
times 5 | times
";

/// The times stay, whatever step the reclaim is at, and in a store that is opened behind it.
const STEP_BY_STEP: &[Step] = &[
    New(0),
    Parts(&[
        (FOUR_COMMITS, 1),
        (LABELS, 1),
        (ARCHIVE, 1),
        (LABELS, 1),
        ("reclaim | started\njob | wrote extent\n", 1),
        (LABELS, 1),
        ("job | heap synced\njob | wrote roll\n", 1),
        (LABELS, 1),
        ("job | roll synced\njob | root written\n", 1),
        (LABELS, 1),
        ("job | root synced\njob | turn written\n", 1),
        (LABELS, 1),
        ("job | job done\n", 1),
        (LABELS, 1),
        ("reopen | last 130 floors 0\n", 1),
        (LABELS, 1),
    ]),
    Says(LABELS),
];

/// A label has commits in two rolls, and then one in memory too.
const IN_ROLLS: &[Step] = &[
    New(0),
    Parts(&[(FOUR_COMMITS, 1), (ARCHIVE, 1), (ONE_RECLAIM, 1)]),
    Says(
        "begin e | snapshot 130
put e 1 8 64 | ok
submit e 1 140 | queued
flush | idle
times 1 | times 100 140
archive 140 | started
finish | idle
reclaim | started
finish | idle
times 1 | times 100 140
reopen | last 140 floors 0
times 1 | times 100 140
begin f | snapshot 140
put f 1 8 65 | ok
submit f 1 150 | queued
times 1 | times 100 140
flush | idle
times 1 | times 100 140 150
",
    ),
    Asks(Question::Times(1), "times 100 140 150\n", 0),
    Asks(Question::Times(4), "times 130\n", 0),
    Asks(Question::Times(5), "times\n", 0),
];

/// The first name of the roll has a time of no commit. The script goes on.
const DAMAGED: &[Step] = &[
    New(0),
    Parts(&[(FOUR_COMMITS, 1), (ARCHIVE, 1), (ONE_RECLAIM, 1)]),
    Mark,
    Changes(Area::Archive, 82, 0),
    Says("times 1 | refused: damaged archive 74\nat 1 7 130 | value 63\n"),
    Asks(Question::Times(1), "refused: damaged archive 74\n", 1),
    Back,
    Says(LABELS),
];

const EXAMPLES: &[Example] = &[
    Example {
        name: "the_times_of_a_label_stay_at_each_step_of_a_reclaim",
        profiles: Endless,
        steps: STEP_BY_STEP,
    },
    Example {
        name: "the_times_of_a_label_lie_in_rolls_and_in_memory",
        profiles: Endless,
        steps: IN_ROLLS,
    },
    Example {
        name: "a_name_with_no_time_is_damage",
        profiles: Endless,
        steps: DAMAGED,
    },
];

/// Each call in turn is refused: those of opening, and then those that read the roll. What memory has is answered behind them.
const REFUSED: &[Refusals] = &[Refusals {
    name: "times_in_a_roll_that_is_not_read_are_refused",
    profiles: Endless,
    before: &[
        New(0),
        Parts(&[(FOUR_COMMITS, 1), (ARCHIVE, 1), (ONE_RECLAIM, 1)]),
    ],
    action: SCRIPT,
    script: "times 1\nat 1 7 130\n",
    write_reaches: false,
    outcomes: &[
        UNOPENED,
        Outcome {
            calls: Calls::Over(0),
            said: ("refused: device\nvalue 63\n", ""),
            more: false,
            status: 0,
            then: Nothing,
        },
        Outcome {
            calls: Calls::Just(1),
            said: ("times 100\nvalue 63\n", ""),
            more: false,
            status: 0,
            then: Nothing,
        },
    ],
}];

#[test]
fn endless_times_lie_in_rolls_and_in_memory(rt: HostRuntime) -> Result<(), Fail> {
    each_goes(rt.alloc(), EXAMPLES)
}

#[test]
fn endless_times_are_refused_where_a_roll_is_not_read(rt: HostRuntime) -> Result<(), Fail> {
    each_refusal_goes(rt.alloc(), REFUSED)
}
