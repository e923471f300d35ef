//! Stops at each call of a reclaim of a log in the heap, also with groups beside it, and calls that are refused.
use crate::archiving::ROWS;
use crate::endless_reclaims::{
    ANCHORS, ARCHIVE, ARCHIVE_AGAIN, BASE, HEADER, ONE_RECLAIM, RECLAIMED_LOG, ROLL, SECOND_LOG,
    SECOND_ROLL, WITH_ANCHORS,
};
use crate::examples::FOUR_COMMITS;
use crate::machine::Profiles::Endless;
use crate::refusals::Then::Left;
use crate::refusals::{Calls, Outcome, Refusals, each_refusal_goes};
use crate::refused_archives::{ALIKE, FAILED};
use crate::steps::Step;
use crate::steps::Step::{Dumps, Ends, New, Says, Spells};
use crate::sweeps::{Sweep, each_goes_between, each_sweep_goes};
use disk::Area;
use shell::Action;
use std::test::Fail;

/// The four commits, archived up to 120.
const STORE: &[Step] = &[New(0), Says(FOUR_COMMITS), Says(ARCHIVE)];

/// The same, reclaimed, and archived up to 130.
const SECOND_STORE: &[Step] = &[
    New(0),
    Says(FOUR_COMMITS),
    Says(ARCHIVE),
    Says("reclaim | started\nfinish | idle\n"),
    Says(ARCHIVE_AGAIN),
];

/// All is as if nothing had stopped the reclaim.
const NOT_RECLAIMED: &[Step] = &[
    ALIKE,
    Says("reclaim | started\nfinish | idle\n"),
    Spells(Area::Status, 0, HEADER),
    Spells(Area::Heap, 49_152, BASE),
    Spells(Area::Archive, 74, ROLL),
    Dumps(RECLAIMED_LOG, 0),
    ALIKE,
];

const RECLAIMED: &[Step] = &[
    ALIKE,
    Says("reclaim | refused: nothing to do\n"),
    Spells(Area::Status, 0, HEADER),
    Spells(Area::Heap, 49_152, BASE),
    Spells(Area::Archive, 74, ROLL),
    Dumps(RECLAIMED_LOG, 0),
];

/// The same of either, whether it was reclaimed or not.
const FIRST_ENDS: &[Step] = &[
    ALIKE,
    Ends("reclaim\nfinish\n"),
    Says("reclaim | refused: nothing to do\n"),
    Dumps(RECLAIMED_LOG, 0),
    ALIKE,
];

const BEHIND_THE_GATE: &str = "000000 03000000 07000000 ..z 484";

const SECOND_ENDS: &[Step] = &[
    ALIKE,
    Ends("reclaim\nfinish\n"),
    Says("reclaim | refused: nothing to do\n"),
    Spells(Area::Status, 17, BEHIND_THE_GATE),
    Spells(Area::Heap, 8_192, ANCHORS),
    Spells(Area::Archive, 122, SECOND_ROLL),
    Dumps(SECOND_LOG, 0),
    ALIKE,
];

/// Two groups beside a reclaim. The gate of the first is written before the root turns, that of the second behind it.
const TWO_GROUPS_BESIDE: &str = "begin e | snapshot 130
put e 1 8 64 | ok
submit e 5 140 | queued
reclaim | started
pump | wrote extent
job | wrote extent
pump | gate closed
job | heap synced
pump | heap synced
job | wrote roll
pump | gate written
job | roll synced
job | root written
job | root synced
job | refused: busy
pump | published 1
redeem e | done 140
begin f | snapshot 140
put f 1 8 65 | ok
submit f 6 150 | queued
pump | wrote extent
job | turn written
pump | gate closed
pump | heap synced
pump | refused: busy
job | job done
pump | gate written
pump | published 1
redeem f | done 150
";

/// What is left goes on, and is reclaimed if it was not.
const GOES_ON: Step = Ends("reclaim\nfinish\nbegin g\nput g 1 9 66\nsubmit g 7 0\nflush\n");

const NO_GROUP: &[Step] = &[
    Says("at 1 8 131 | refused: not yet 130\n"),
    GOES_ON,
    Says("reclaim | refused: nothing to do\nat 1 9 131 | value 66\n"),
    Says(ROWS),
];

const ONE_GROUP: &[Step] = &[
    Says("at 1 8 140 | value 64\nat 1 8 141 | refused: not yet 140\n"),
    GOES_ON,
    Says("reclaim | refused: nothing to do\nat 1 8 140 | value 64\nat 1 9 141 | value 66\n"),
    Says(ROWS),
];

const BOTH_GROUPS: &[Step] = &[
    Says("at 1 8 140 | value 64\nat 1 8 150 | value 65\nat 1 8 151 | refused: not yet 150\n"),
    GOES_ON,
    Says("reclaim | refused: nothing to do\nat 1 8 150 | value 65\nat 1 9 151 | value 66\n"),
    Says(ROWS),
];

/// At each of the calls the machine stops. The second closes the gate that the first opens, and a stop may leave any byte that is not
/// an open one.
const STOPS: &[Sweep] = &[
    Sweep {
        name: "a_stop_keeps_a_reclaim_or_nothing_of_it",
        profiles: Endless,
        before: STORE,
        parts: &[(ONE_RECLAIM, 1)],
        calls: 8,
        stops: true,
        failed: "",
        gate: Some("job | turn written"),
        fronts: &[NOT_RECLAIMED, RECLAIMED],
    },
    Sweep {
        name: "a_stop_in_a_second_reclaim_changes_no_answer",
        profiles: Endless,
        before: SECOND_STORE,
        parts: &[(WITH_ANCHORS, 1)],
        calls: 9,
        stops: true,
        failed: "",
        gate: None,
        fronts: &[SECOND_ENDS],
    },
];

const STOPS_BESIDE: &[Sweep] = &[Sweep {
    name: "a_stop_beside_a_reclaim_keeps_each_group_or_nothing_of_it",
    profiles: Endless,
    before: STORE,
    parts: &[(TWO_GROUPS_BESIDE, 1)],
    calls: 18,
    stops: true,
    failed: "",
    gate: Some("pump | gate written"),
    fronts: &[NO_GROUP, ONE_GROUP, BOTH_GROUPS],
}];

/// A reclaim of which a step is refused, and what is asked for behind it.
const REFUSED_RECLAIM: &str = "reclaim | started
finish | idle
job | idle
pump | idle
begin u | snapshot 130
reclaim | refused: nothing to do
at 1 7 110 | value 62
between 1 7 100 131 | 100 110 61
| 110 120 62
| 130 131 63
| rows 3
";

/// At each of the calls the store fails.
const REFUSED: &[Sweep] = &[Sweep {
    name: "after_a_refused_step_of_a_reclaim_reading_goes_on",
    profiles: Endless,
    before: STORE,
    parts: &[(REFUSED_RECLAIM, 1)],
    calls: 8,
    stops: false,
    failed: FAILED,
    gate: None,
    fronts: &[FIRST_ENDS],
}];

/// All stands as before, whatever was refused.
const ROWS_LEFT: &[(u8, &[Step])] = &[(0xC7, &[Says(ROWS)])];

/// The log cannot be read.
const UNREAD: Outcome = Outcome {
    calls: Calls::Over(0),
    said: ("refused: device\n", ""),
    more: false,
    status: 1,
    then: Left(ROWS_LEFT, &[]),
};

/// Each call of a vacuum is refused in turn: those of opening, the seven of the archive, the eight of the reclaim, and those of reading
/// the log for what they did.
const VACUUM: &[Refusals] = &[Refusals {
    name: "a_vacuum_stops_at_each_refused_call",
    profiles: Endless,
    before: &[New(0), Says(FOUR_COMMITS)],
    action: Action::Vacuum {
        dir: "",
        time: Some(120),
    },
    script: "",
    write_reaches: false,
    outcomes: &[
        UNREAD,
        Outcome {
            calls: Calls::Just(7),
            said: ("refused: failed\n", ""),
            more: false,
            status: 1,
            then: Left(ROWS_LEFT, &[]),
        },
        Outcome {
            calls: Calls::Just(8),
            said: ("archived 2\nrefused: failed\n", ""),
            more: false,
            status: 1,
            then: Left(ROWS_LEFT, &[]),
        },
        UNREAD,
        Outcome {
            calls: Calls::Just(1),
            said: ("archived 2\nreclaimed 0\n", ""),
            more: false,
            status: 0,
            then: Left(ROWS_LEFT, &[]),
        },
    ],
}];

#[test]
fn an_endless_reclaim_is_stopped_within_each_call(rt: HostRuntime) -> Result<(), Fail> {
    each_sweep_goes(rt.alloc(), STOPS, false)
}

#[test]
fn an_endless_reclaim_is_stopped_after_each_call(rt: HostRuntime) -> Result<(), Fail> {
    each_sweep_goes(rt.alloc(), STOPS, true)
}

#[test]
fn an_endless_reclaim_is_stopped_between_calls(rt: HostRuntime) -> Result<(), Fail> {
    each_goes_between(rt.alloc(), STOPS)
}

#[test]
fn groups_beside_an_endless_reclaim_are_stopped_within_each_call(
    rt: HostRuntime,
) -> Result<(), Fail> {
    each_sweep_goes(rt.alloc(), STOPS_BESIDE, false)
}

#[test]
fn groups_beside_an_endless_reclaim_are_stopped_between_calls(rt: HostRuntime) -> Result<(), Fail> {
    each_goes_between(rt.alloc(), STOPS_BESIDE)
}

#[test]
fn after_a_refused_step_of_an_endless_reclaim_reading_goes_on(rt: HostRuntime) -> Result<(), Fail> {
    each_sweep_goes(rt.alloc(), REFUSED, false)
}

#[test]
fn an_endless_vacuum_stops_at_each_refused_call(rt: HostRuntime) -> Result<(), Fail> {
    each_refusal_goes(rt.alloc(), VACUUM)
}
