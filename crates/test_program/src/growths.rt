//! Growths of a store beside its commits and an archive, stopped at each device call.
use crate::examples::{Example, FOUR_COMMITS, each_goes};
use crate::machine::Profiles::{First, Growing};
use crate::steps::Step;
use crate::steps::Step::{Dumps, Ends, New, Parts, Says, Stops};
use crate::sweeps::{Sweep, each_sweep_goes};
use std::test::Fail;

/// A growth whose calls stand between those of a group, an archive, and a growth and a group again.
const LINES: &[(&str, u32)] = &[
    ("grow | started\n", 1),
    ("job | wrote zeros\n", 4),
    (
        "begin e | snapshot 130
put e 1 7 64 | ok
submit e 5 140 | queued
pump | wrote extent
archive 120 | refused: job busy
grow | refused: job busy
",
        1,
    ),
    ("job | wrote zeros\n", 4),
    ("pump | heap synced\npump | body written\n", 1),
    ("job | wrote zeros\n", 8),
    (
        "pump | body synced
pump | gate written
job | zeros synced
pump | published 1
job | gate written
job | job done
redeem e | done 140
archive 120 | started
job | wrote run
job | run synced
job | body written
job | body synced
job | gate written
job | job done
grow | started
",
        1,
    ),
    ("job | wrote zeros\n", 16),
    (
        "begin f | snapshot 140
put f 1 7 65 | ok
submit f 6 150 | queued
job | zeros synced
pump | wrote extent
pump | heap synced
pump | body written
pump | body synced
job | gate written
pump | gate written
job | job done
pump | published 1
redeem f | done 150
",
        1,
    ),
];

/// The four commits, and what is done behind them.
const STORE: &[Step] = &[New(16), Says(FOUR_COMMITS)];

/// The log once all of it is done.
const LOG: &str = "header 16 pieces 2
slot 0 commit
member 1 100 1 1 1 1970-01-01T00:00:00Z
slot 1 commit
member 2 110 2 1 1 1970-01-01T00:00:00Z
slot 2 commit
member 3 120 3 1 1 1970-01-01T00:00:00Z
slot 3 commit
member 4 130 4 1 1 1970-01-01T00:00:00Z
slot 4 commit
member 5 140 5 1 1 1970-01-01T00:00:00Z
slot 5 archived 120 0 74 2
slot 6 commit
member 6 150 6 1 1 1970-01-01T00:00:00Z
used 7 of 528
";

/// All that is to be had of the four commits, of five and of six.
const FOUR: Step = Says(
    "reopen | last 130 floors 0
between 1 7 100 131 | 100 110 61
| 110 120 62
| 130 131 63
| rows 3
at 1 7 131 | refused: not yet 130
times 5 | times
times 6 | times
",
);

const FIVE: Step = Says(
    "reopen | last 140 floors 0
between 1 7 100 141 | 100 110 61
| 110 120 62
| 130 140 63
| 140 141 64
| rows 4
at 1 7 141 | refused: not yet 140
times 5 | times 140
times 6 | times
",
);

const SIX: Step = Says(
    "reopen | last 150 floors 0
between 1 7 100 151 | 100 110 61
| 110 120 62
| 130 140 63
| 140 150 64
| 150 151 65
| rows 5
at 1 7 151 | refused: not yet 150
times 5 | times 140
times 6 | times 150
",
);

/// What is done on whatever a stop left: a vacuum, a growth, a commit, and a further stop.
const VACUUM: Step = Ends("archive 120\nfinish\nreclaim\nfinish\n");

const GROWTH: Step = Says("grow | started\nfinish | idle\n");

const COMMIT: Step = Ends("begin z\nput z 2 8 66\nsubmit z 9 900\nflush\nredeem z\n");

const COMMITTED: Step = Says(
    "reopen | last 900 floors 0
at 2 8 900 | value 66
between 1 7 100 120 | 100 110 61
| 110 120 62
| rows 2
at 1 7 130 | value 63
",
);

/// What is left of the store once so many of the groups are published goes on.
const FRONTS: &[&[Step]] = &[
    &[
        FOUR,
        VACUUM,
        FOUR,
        GROWTH,
        FOUR,
        COMMIT,
        COMMITTED,
        Stops(0xC7),
        COMMITTED,
    ],
    &[
        FIVE,
        VACUUM,
        FIVE,
        GROWTH,
        FIVE,
        COMMIT,
        COMMITTED,
        Stops(0xC7),
        COMMITTED,
    ],
    &[
        SIX,
        VACUUM,
        SIX,
        GROWTH,
        SIX,
        COMMIT,
        COMMITTED,
        Stops(0xC7),
        COMMITTED,
    ],
];

/// The device calls of the lines: two growths of 19, two groups of six, an archive of six.
const SWEEPS: &[Sweep] = &[Sweep {
    name: "a_stop_of_a_growth_beside_commits",
    profiles: Growing,
    before: STORE,
    parts: LINES,
    calls: 56,
    stops: true,
    failed: "",
    gate: Some("pump | gate written"),
    fronts: FRONTS,
}];

/// The lines are answered as they say, and leave this log.
const WHOLE: &[Step] = &[New(16), Says(FOUR_COMMITS), Parts(LINES), Dumps(LOG, 0)];

/// A store of the first profile does not grow, and goes on.
const FIRST_PROFILE: &[Step] = &[
    New(16),
    Says(FOUR_COMMITS),
    Says("grow | refused: not growable\njob | idle\n"),
    FOUR,
    VACUUM,
    FOUR,
];

/// Each example, by its name.
const EXAMPLES: &[Example] = &[
    Example {
        name: "a_growth_beside_commits",
        profiles: Growing,
        steps: WHOLE,
    },
    Example {
        name: "a_store_of_the_first_profile_does_not_grow",
        profiles: First,
        steps: FIRST_PROFILE,
    },
];

#[test]
fn growths_are_answered(rt: HostRuntime) -> Result<(), Fail> {
    each_goes(rt.alloc(), EXAMPLES)
}

#[test]
fn a_stop_of_a_growth_beside_commits_leaves_what_is_done(rt: HostRuntime) -> Result<(), Fail> {
    each_sweep_goes(rt.alloc(), SWEEPS, false)
}

#[test]
fn a_stop_after_a_call_of_a_growth_leaves_what_is_done(rt: HostRuntime) -> Result<(), Fail> {
    each_sweep_goes(rt.alloc(), SWEEPS, true)
}
