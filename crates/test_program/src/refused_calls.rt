//! Calls that the disk refuses.
use crate::examples::{FOUR_COMMITS, NEW};
use crate::machine::Profiles::{Each, Newest};
use crate::machine::SCRIPT;
use crate::refusals::Then::{Left, Made, NotMade, Nothing, Still};
use crate::refusals::{Calls, Outcome, Refusals, UNOPENED, each_refusal_goes};
use crate::steps::Step;
use crate::steps::Step::{At, New, Runs, Says, Stops, Tries};
use shell::{Action, Layout};
use std::test::Fail;

/// A commit, and what is asked for behind it.
const LINES: &str = "begin t
put t 1 7 61
submit t 9 100
flush
redeem t
at 1 7 0
begin u
times 9
";

/// What is said of it where the device refuses a step.
const IN_DOUBT: &str = "snapshot 0
ok
queued
refused: failed
in doubt
none
refused: failed
times
";

/// What is said of it where nothing is refused.
const PUBLISHED: &str = "snapshot 0
ok
queued
idle
done 100
none
snapshot 100
times 100
";

/// The store was not opened, and holds nothing.
pub const UNOPENED_AND_EMPTY: Outcome = Outcome {
    then: Still(&[At("0", "none")]),
    ..UNOPENED
};

/// Each call is refused in turn: while the store is opened, so that it is not; at a step of the commit, of
/// which there are six, so that the store is failed and reads on. The fifth step writes the gate.
const REFUSED: &[Refusals] = &[
    Refusals {
        name: "after_a_refused_call_reading_goes_on",
        profiles: Each,
        before: NEW,
        action: SCRIPT,
        script: LINES,
        write_reaches: false,
        outcomes: &[
            UNOPENED_AND_EMPTY,
            Outcome {
                calls: Calls::Just(5),
                said: (IN_DOUBT, ""),
                more: false,
                status: 0,
                then: NotMade,
            },
            Outcome {
                calls: Calls::Just(1),
                said: (IN_DOUBT, ""),
                more: false,
                status: 0,
                then: Made,
            },
            Outcome {
                calls: Calls::Just(1),
                said: (PUBLISHED, ""),
                more: false,
                status: 0,
                then: Nothing,
            },
        ],
    },
    Refusals {
        name: "after_a_refused_call_that_was_made_reading_goes_on",
        profiles: Each,
        before: NEW,
        action: SCRIPT,
        script: LINES,
        write_reaches: true,
        outcomes: &[
            UNOPENED_AND_EMPTY,
            Outcome {
                calls: Calls::Just(4),
                said: (IN_DOUBT, ""),
                more: false,
                status: 0,
                then: NotMade,
            },
            Outcome {
                calls: Calls::Just(2),
                said: (IN_DOUBT, ""),
                more: false,
                status: 0,
                then: Made,
            },
            Outcome {
                calls: Calls::Just(1),
                said: (PUBLISHED, ""),
                more: false,
                status: 0,
                then: Nothing,
            },
        ],
    },
];

/// The calls of a reopening, behind those of the opening and the six of a commit.
const REOPENED: &[Refusals] = &[Refusals {
    name: "a_refused_reopening_ends_the_script",
    profiles: Each,
    before: NEW,
    action: SCRIPT,
    script: "begin t
put t 1 7 61
submit t 9 100
flush
reopen
at 1 7 100
",
    write_reaches: false,
    outcomes: &[
        UNOPENED,
        Outcome {
            calls: Calls::Just(6),
            said: ("snapshot 0\nok\nqueued\nrefused: failed\n", ""),
            more: true,
            status: 0,
            then: Nothing,
        },
        Outcome {
            calls: Calls::Over(3),
            said: ("snapshot 0\nok\nqueued\nidle\nrefused: device\n", ""),
            more: false,
            status: 1,
            then: Made,
        },
        Outcome {
            calls: Calls::Just(1),
            said: (
                "snapshot 0\nok\nqueued\nidle\nlast 100 floors 0\nvalue 61\n",
                "",
            ),
            more: false,
            status: 0,
            then: Nothing,
        },
    ],
}];

/// A format that was refused is made again, and leaves an empty store.
const FORMAT: &[Refusals] = &[Refusals {
    name: "a_refused_format_is_made_again",
    profiles: Newest,
    before: &[],
    action: FORMAT_16,
    script: "",
    write_reaches: true,
    outcomes: &[
        Outcome {
            then: Still(&[Tries(FORMAT_16), At("0", "none")]),
            ..UNOPENED
        },
        Outcome {
            calls: Calls::Just(1),
            said: ("formatted 16\n", ""),
            more: false,
            status: 0,
            then: Nothing,
        },
    ],
}];

/// A format to 16 slots.
const FORMAT_16: Action<'static> = Action::Format {
    dir: "",
    layout: Some(Layout::Slots(16)),
};

/// What is said of it where the sync after the gate is refused.
const GATE_IN_DOUBT: &str = "snapshot 130
ok
queued
wrote extent
heap synced
body written
body synced
gate written
refused: failed
in doubt
refused: failed
value 63
refused: not yet 130
";

/// What is left of the gate tells whether the commit was made, then and after a further stop.
const TIMES_LEFT: &[(u8, &[Step])] = &[
    (0xC7, &[MADE, Stops(0x00), MADE]),
    (0xC7, &[MADE, Stops(0xC7), MADE]),
    (0xC7, &[MADE, Stops(0xFF), MADE]),
    (0x00, &[NOT_MADE, Stops(0x00), NOT_MADE]),
    (0x00, &[NOT_MADE, Stops(0xC7), NOT_MADE]),
    (0x00, &[NOT_MADE, Stops(0xFF), NOT_MADE]),
    (0xFF, &[NOT_MADE, Stops(0x00), NOT_MADE]),
    (0xFF, &[NOT_MADE, Stops(0xC7), NOT_MADE]),
    (0xFF, &[NOT_MADE, Stops(0xFF), NOT_MADE]),
];

const MADE: Step = Runs("times 9\n", "times 140\n", 0);

const NOT_MADE: Step = Runs("times 9\n", "times\n", 0);

/// A fifth commit, the sync after whose gate is refused behind five calls. The commit is what each of
/// these leaves, and is made on the disk as it is.
const FIFTH_COMMIT: &[Refusals] = &[Refusals {
    name: "a_commit_in_doubt_is_what_the_disk_kept",
    profiles: Each,
    before: &[New(16), Says(FOUR_COMMITS)],
    action: SCRIPT,
    script: "begin e
put e 1 7 64
submit e 9 140
pump
pump
pump
pump
pump
pump
redeem e
begin f
at 1 7 130
at 1 7 140
",
    write_reaches: true,
    outcomes: &[
        UNOPENED,
        Outcome {
            calls: Calls::Just(5),
            said: ("snapshot 130\nok\nqueued\n", ""),
            more: true,
            status: 0,
            then: Nothing,
        },
        Outcome {
            calls: Calls::Just(1),
            said: (GATE_IN_DOUBT, ""),
            more: false,
            status: 0,
            then: Left(
                TIMES_LEFT,
                &[Runs("times 9\nat 1 7 140\n", "times 140\nvalue 64\n", 0)],
            ),
        },
    ],
}];

#[test]
fn after_a_refused_call_reading_goes_on(rt: HostRuntime) -> Result<(), Fail> {
    each_refusal_goes(rt.alloc(), REFUSED)
}

#[test]
fn a_refused_reopening_ends_the_script(rt: HostRuntime) -> Result<(), Fail> {
    each_refusal_goes(rt.alloc(), REOPENED)
}

#[test]
fn a_refused_format_is_made_again(rt: HostRuntime) -> Result<(), Fail> {
    each_refusal_goes(rt.alloc(), FORMAT)
}

#[test]
fn a_commit_in_doubt_is_what_the_disk_kept(rt: HostRuntime) -> Result<(), Fail> {
    each_refusal_goes(rt.alloc(), FIFTH_COMMIT)
}
