//! Stores whose log lies in the heap: their steps, their floors, the jobs that they refuse, stops at each call,
//! and what is shown of them.
use crate::examples::{Example, each_goes};
use crate::fronts::FRONTS;
use crate::machine::Profiles::Endless;
use crate::steps::Step;
use crate::steps::Step::{
    At, Back, Changes, Does, Dumps, Formats, Long, Mark, New, Parts, Says, Spells, Stops,
};
use crate::sweeps::{Sweep, each_goes_between, each_sweep_goes};
use disk::Area;
use shell::{Action, Layout};
use std::test::Fail;

const NEW: &[Step] = &[New(0)];

/// A commit, step by step.
pub const ONE_COMMIT: &str = "begin t | snapshot 0
put t 1 7 61 | ok
submit t 9 100 | queued
pump | wrote extent
pump | gate closed
pump | heap synced
pump | gate written
pump | published 1
";

const KEPT: &[Step] = &[At("100", "value 61")];

const NOT_KEPT: &[Step] = &[At("100", "refused: not yet 0")];

/// Two groups, of two commits and one, step by step.
const TWO_GROUPS: &str = "begin a | snapshot 0
begin b | snapshot 0
put a 1 7 61 | ok
put b 1 8 62 | ok
submit a 1 100 | queued
submit b 2 100 | queued
pump | wrote extent
pump | gate closed
pump | heap synced
pump | gate written
pump | published 2
redeem a | done 100
redeem b | done 101
begin c | snapshot 101
put c 1 7 63 | ok
del c 1 8 | ok
submit c 3 110 | queued
pump | wrote extent
pump | gate closed
pump | heap synced
pump | gate written
pump | published 1
redeem c | done 110
";

/// What is opened has the groups and floors whose gate stands open. Each makes five calls.
const SWEEPS: &[Sweep] = &[
    Sweep {
        name: "a_stop_keeps_all_of_a_commit_or_nothing",
        profiles: Endless,
        before: NEW,
        parts: &[(ONE_COMMIT, 1)],
        calls: 5,
        stops: true,
        failed: "",
        gate: Some("pump | gate written"),
        fronts: &[NOT_KEPT, KEPT],
    },
    Sweep {
        name: "a_stop_keeps_a_floor_or_nothing_of_it",
        profiles: Endless,
        before: &[New(0), Says(ONE_COMMIT)],
        parts: &[(ONE_FLOOR, 1)],
        calls: 5,
        stops: true,
        failed: "",
        gate: Some("job | gate written"),
        fronts: &[NOT_RAISED, RAISED],
    },
    Sweep {
        name: "a_stop_leaves_what_is_done_or_one_more_group",
        profiles: Endless,
        before: NEW,
        parts: &[(TWO_GROUPS, 1)],
        calls: 10,
        stops: true,
        failed: "",
        gate: Some("pump | gate written"),
        fronts: FRONTS,
    },
];

/// Where nothing is archived no reclaim begins, and no growth at all. What was committed stays.
const NO_JOBS: &[Step] = &[
    New(0),
    Says(ONE_COMMIT),
    Says(
        "reclaim | refused: nothing to do
floor 100 | refused: wrong profile
grow | refused: not growable
job | idle
finish | idle
reopen | last 100 floors 0
at 1 7 100 | value 61
times 9 | times 100
",
    ),
    Step::Vacuums("100", "archived 0\nreclaimed 1\n", 0),
    Does(Action::Grow { dir: "" }, "", "refused: not growable\n", 1),
    At("100", "value 61"),
];

/// The floor of the commit's relation, step by step.
pub const ONE_FLOOR: &str = "floorof 1 100 | started
job | wrote entry
job | gate closed
job | heap synced
job | gate written
job | job done
";

const RAISED: &[Step] = &[At("99", "refused: before kept 100"), At("100", "value 61")];

const NOT_RAISED: &[Step] = &[At("99", "none"), At("100", "value 61")];

/// A floor bars its relation, and stays; one is raised by a command too.
const FLOORS: &[Step] = &[
    New(0),
    Says(ONE_COMMIT),
    Parts(&[
        ("floorof 1 0 | refused: nothing to do\n", 1),
        ("floorof 1 101 | refused: not yet 100\n", 1),
        (ONE_FLOOR, 1),
        (
            "job | idle
floorof 1 100 | refused: nothing to do
reopen | last 100 floors 1
at 1 7 99 | refused: before kept 100
at 1 7 100 | value 61
times 9 | times 100
",
            1,
        ),
    ]),
    Does(
        Action::Floor {
            dir: "",
            relation: 2,
            time: Some(100),
        },
        "",
        "floor 100\n",
        0,
    ),
    Says("at 2 7 99 | refused: before kept 100\nat 2 7 100 | none\n"),
    At("100", "value 61"),
];

/// A store is made once, of a size that there is.
const MADE: &[Step] = &[
    Does(
        Action::Format {
            dir: "",
            layout: None,
        },
        "",
        "refused: wrong profile\n",
        1,
    ),
    Does(
        Action::Format {
            dir: "",
            layout: Some(Layout::Extents(72)),
        },
        "",
        "refused: bad slots\n",
        1,
    ),
    Long(Area::Status, 0),
    New(0),
    Long(Area::Status, 512),
    Long(Area::Heap, 8192),
    Spells(Area::Status, 0, "4e4f4f5645523031 04000000"),
    Does(
        Action::Format {
            dir: "",
            layout: Some(Layout::Extents(64)),
        },
        "",
        "refused: occupied\n",
        1,
    ),
    Formats(16, "refused: occupied\n", 1),
    Says("at 1 7 0 | none\n"),
];

/// Seventeen commits are one group, and a stop behind it keeps them.
const ONE_GROUP: &[Step] = &[
    New(0),
    Parts(&[
        (
            "begin t# | snapshot 0
put t# 1 # 61 | ok
submit t# # 100 | queued
",
            17,
        ),
        (
            "pump | wrote extent
pump | gate closed
pump | heap synced
pump | gate written
redeem t0 | waiting
pump | published 17
pump | idle
",
            1,
        ),
        ("redeem t# | done @\ntimes # | times @\n", 17),
    ]),
    Stops(0xC7),
    Parts(&[
        ("reopen | last 116 floors 0\n", 1),
        ("at 1 # 116 | value 61\n", 17),
    ]),
];

/// What is told of a log of one commit.
const FACTS: Step = Does(
    Action::Info {
        dir: "",
        json: false,
    },
    "",
    "profile 4
heap 64
extents 1
log 2
free 30
commits 1
last 100
archived 0
archive 0
reclaimed 0
",
    0,
);

/// The log is shown as far as no check fails, and without it nothing is told.
const SHOWN: &[Step] = &[
    New(0),
    Dumps("header extents 64 root 1\nnext 1\nused 0 of 64\n", 0),
    Says(ONE_COMMIT),
    Dumps(
        "header extents 64 root 1
chain 1 commits extents 1
member 9 100 1 1970-01-01T00:00:00Z
next 2
used 1 of 64
",
        0,
    ),
    FACTS,
    Mark,
    Changes(Area::Heap, 12, 0),
    Dumps("header extents 64 root 1\nrefused: damaged heap 1\n", 1),
    Does(
        Action::Info {
            dir: "",
            json: true,
        },
        "",
        "refused: damaged heap 1\n",
        1,
    ),
    Back,
    Changes(Area::Status, 12, 0x48),
    Dumps("refused: not a store\n", 1),
];

const EXAMPLES: &[Example] = &[
    Example {
        name: "no_other_job_begins",
        profiles: Endless,
        steps: NO_JOBS,
    },
    Example {
        name: "a_log_is_shown_up_to_a_check",
        profiles: Endless,
        steps: SHOWN,
    },
    Example {
        name: "a_floor_bars_its_relation",
        profiles: Endless,
        steps: FLOORS,
    },
    Example {
        name: "a_store_is_made_once",
        profiles: Endless,
        steps: MADE,
    },
    Example {
        name: "seventeen_commits_are_one_group",
        profiles: Endless,
        steps: ONE_GROUP,
    },
];

#[test]
fn endless_stores_answer(rt: HostRuntime) -> Result<(), Fail> {
    each_goes(rt.alloc(), EXAMPLES)
}

#[test]
fn an_endless_log_is_stopped_within_each_call(rt: HostRuntime) -> Result<(), Fail> {
    each_sweep_goes(rt.alloc(), SWEEPS, false)
}

#[test]
fn an_endless_log_is_stopped_after_each_call(rt: HostRuntime) -> Result<(), Fail> {
    each_sweep_goes(rt.alloc(), SWEEPS, true)
}

#[test]
fn an_endless_log_is_stopped_between_calls(rt: HostRuntime) -> Result<(), Fail> {
    each_goes_between(rt.alloc(), SWEEPS)
}
