//! Archives of stores whose log lies in the heap: their steps and bytes, commits and floors beside them, a log that is
//! almost full, refused calls, and stops at each call.
use crate::archived::RUN;
use crate::archiving::{LONG_VALUES, ROWS, TWO_LONG_RECORDS};
use crate::endless::{ONE_COMMIT, ONE_FLOOR};
use crate::examples::{Example, FOUR_COMMITS, each_goes};
use crate::machine::Profiles::Endless;
use crate::refused_archives::{ALIKE, ANSWERS_ALIKE, FAILED, REFUSED_JOB};
use crate::steps::Step;
use crate::steps::Step::{Does, Dumps, Long, New, Parts, Says, Spells, Vacuums};
use crate::sweeps::{Sweep, each_goes_between, each_sweep_goes};
use crate::vacuums::REPLACED;
use disk::Area;
use shell::Action;
use std::test::Fail;

/// The steps of an entry.
const ENTRY_STEPS: &str = "job | wrote entry
job | gate closed
job | heap synced
job | gate written
job | job done
";

/// An archive up to 120, whose run is one piece.
const ONE_ARCHIVE: &str = "archive 120 | started
job | wrote run
job | run synced
job | wrote entry
job | gate closed
job | heap synced
job | gate written
job | job done
";

/// Its extent behind those of the four commits, and the closed gate behind it.
const ENTRY: &str = "c7 000000 05000000 00000000 23000000 06000000 00000000
    06 7800000000000000 0000000000000000 4a00000000000000 0200000000000000 0000 ..z 8133 00";

/// The log of the four commits and this archive.
const ARCHIVED_LOG: &str = "header extents 64 root 1
chain 1 commits extents 1
member 1 100 1 1970-01-01T00:00:00Z
chain 2 commits extents 1
member 2 110 1 1970-01-01T00:00:00Z
chain 3 commits extents 1
member 3 120 1 1970-01-01T00:00:00Z
chain 4 commits extents 1
member 4 130 1 1970-01-01T00:00:00Z
chain 5 archived 120 0 74 2 0
next 6
used 5 of 64
";

/// What it tells.
const FACTS: Step = Does(
    Action::Info {
        dir: "",
        json: false,
    },
    "",
    "profile 4
heap 64
extents 5
log 6
free 26
commits 4
last 130
archived 120
archive 74
reclaimed 0
",
    0,
);

/// An archive of the four commits up to the third.
const STEP_BY_STEP: &[Step] = &[
    New(0),
    Parts(&[
        (FOUR_COMMITS, 1),
        (ROWS, 1),
        (
            "archive 0 | refused: nothing to do
archive 131 | refused: not yet 130
",
            1,
        ),
        (ONE_ARCHIVE, 1),
        (
            "job | idle
finish | idle
archive 120 | refused: nothing to do
archive 131 | refused: not yet 130
",
            1,
        ),
        (ROWS, 1),
    ]),
    Long(Area::Heap, 40_961),
    Spells(Area::Heap, 32_768, ENTRY),
    Long(Area::Archive, 74),
    Spells(Area::Archive, 0, RUN),
    Says(ROWS),
    Dumps(ARCHIVED_LOG, 0),
    FACTS,
    Says(
        "archive 120 | refused: nothing to do
archive 130 | started
archive 130 | refused: job busy
archive 131 | refused: job busy
floorof 1 130 | refused: job busy
finish | idle
archive 130 | refused: nothing to do
",
    ),
];

/// Nothing ended by the time of the one commit. A floor goes on behind the archive.
const EMPTY: &[Step] = &[
    New(0),
    Parts(&[
        (ONE_COMMIT, 1),
        ("archive 100 | started\njob | run synced\n", 1),
        (ENTRY_STEPS, 1),
        ("job | idle\n", 1),
        (ONE_FLOOR, 1),
        (
            "job | idle
reopen | last 100 floors 1
at 1 7 99 | refused: before kept 100
at 1 7 100 | value 61
times 9 | times 100
archive 100 | refused: nothing to do
",
            1,
        ),
    ]),
    Long(Area::Archive, 0),
    Dumps(
        "header extents 64 root 1
chain 1 commits extents 1
member 9 100 1 1970-01-01T00:00:00Z
chain 2 archived 100 0 0 0 0
chain 3 floor 100 relation 1
next 4
used 3 of 64
",
        0,
    ),
];

/// An archive of two values of 16 long fields.
const TWO_PIECES: &[Step] = &[
    New(0),
    Parts(&[
        (LONG_VALUES, 1),
        ("job | wrote run\njob | run synced\n", 1),
        (ENTRY_STEPS, 1),
        (
            "reopen | last 120 floors 0
at 1 7 105 | valueA
at 1 7 119 | valueA
at 1 7 120 | value 63
",
            1,
        ),
    ]),
    Long(Area::Archive, 8262),
    TWO_LONG_RECORDS,
];

/// What 61 was ended before the floor.
const FLOORED: &[Step] = &[
    New(0),
    Says(FOUR_COMMITS),
    Says(
        "floorof 1 115 | started
archive 120 | refused: job busy
finish | idle
archive 120 | started
finish | idle
",
    ),
    Long(Area::Archive, 37),
    Spells(
        Area::Archive,
        0,
        "0100 0700000000000000 6e00000000000000 7800000000000000 01 01 62 0000000000000000",
    ),
    Says(
        "at 1 7 114 | refused: before kept 115
between 1 7 115 131 | 115 120 62
| 130 131 63
| rows 2
",
    ),
];

/// One chain is in the writing at a time, and the run beside it.
const BESIDE: &[Step] = &[
    New(0),
    Parts(&[
        (FOUR_COMMITS, 1),
        (
            "begin e | snapshot 130
put e 1 8 64 | ok
submit e 5 140 | queued
pump | wrote extent
archive 120 | started
job | wrote run
pump | gate closed
job | run synced
job | refused: busy
begin f | snapshot 130
put f 1 9 65 | ok
submit f 6 150 | queued
finish | refused: busy
pump | heap synced
pump | gate written
job | refused: busy
pump | published 1
pump | refused: busy
flush | refused: busy
job | wrote entry
pump | refused: busy
job | gate closed
job | heap synced
job | gate written
pump | refused: busy
job | job done
pump | wrote extent
pump | gate closed
pump | heap synced
pump | gate written
pump | published 1
redeem e | done 140
redeem f | done 150
reopen | last 150 floors 0
archive 120 | refused: nothing to do
at 1 8 140 | value 64
at 1 9 150 | value 65
",
            1,
        ),
        (ROWS, 1),
    ]),
];

/// No commit has room any more. An archive up to the last one has, where floors have none, and a reclaim makes room.
const FULL: &[Step] = &[
    New(0),
    Parts(&[
        (REPLACED, 27),
        (
            "begin u | snapshot 27
put u 1 8 61 | ok
submit u 9 0 | refused: heap full
floorof 2 27 | started
finish | idle
floorof 3 27 | started
finish | idle
floorof 4 27 | refused: heap full
archive 26 | refused: heap full
",
            1,
        ),
    ]),
    Vacuums("26", "refused: heap full\n", 1),
    Says(
        "archive 27 | started
finish | idle
begin u | snapshot 27
put u 1 8 61 | ok
submit u 9 0 | refused: heap full
reclaim | started
begin u | snapshot 27
put u 1 8 61 | ok
submit u 9 0 | refused: heap full
finish | idle
begin u | snapshot 27
put u 1 8 61 | ok
submit u 9 0 | queued
flush | idle
redeem u | done 28
floorof 4 27 | started
finish | idle
at 1 7 5 | value 61
times 26 | times 27
reopen | last 28 floors 3
at 1 7 5 | value 61
at 1 7 28 | value 61
at 1 8 28 | value 61
",
    ),
];

const EXAMPLES: &[Example] = &[
    Example {
        name: "an_archive_is_made_step_by_step",
        profiles: Endless,
        steps: STEP_BY_STEP,
    },
    Example {
        name: "a_run_may_be_empty",
        profiles: Endless,
        steps: EMPTY,
    },
    Example {
        name: "a_long_run_is_written_in_pieces",
        profiles: Endless,
        steps: TWO_PIECES,
    },
    Example {
        name: "what_ended_by_the_floor_is_not_archived",
        profiles: Endless,
        steps: FLOORED,
    },
    Example {
        name: "an_entry_and_a_group_wait_for_each_other",
        profiles: Endless,
        steps: BESIDE,
    },
    Example {
        name: "an_archive_of_all_has_room_in_a_full_log",
        profiles: Endless,
        steps: FULL,
    },
];

/// The four commits on a new store.
const STORE: &[Step] = &[New(0), Says(FOUR_COMMITS)];

/// All is as if nothing had stopped the archive.
const WHOLE: Step = Spells(Area::Heap, 32_768, ENTRY);

const NOT_ARCHIVED: &[Step] = &[
    ALIKE,
    Says("archive 120 | started\nfinish | idle\n"),
    Spells(Area::Archive, 0, RUN),
    WHOLE,
    ALIKE,
];

const ARCHIVED: &[Step] = &[
    ALIKE,
    Says("archive 120 | refused: nothing to do\n"),
    Spells(Area::Archive, 0, RUN),
    WHOLE,
];

/// At each of the seven calls the machine stops.
const STOPS: &[Sweep] = &[Sweep {
    name: "a_stop_keeps_an_archive_or_nothing_of_it",
    profiles: Endless,
    before: STORE,
    parts: &[(ONE_ARCHIVE, 1)],
    calls: 7,
    stops: true,
    failed: "",
    gate: Some("job | gate written"),
    fronts: &[NOT_ARCHIVED, ARCHIVED],
}];

/// At each of the seven the store fails.
const REFUSED: &[Sweep] = &[Sweep {
    name: "after_a_refused_step_of_an_archive_reading_goes_on",
    profiles: Endless,
    before: STORE,
    parts: &[(REFUSED_JOB, 1)],
    calls: 7,
    stops: false,
    failed: FAILED,
    gate: None,
    fronts: &[ANSWERS_ALIKE],
}];

#[test]
fn endless_archives_are_made_step_by_step(rt: HostRuntime) -> Result<(), Fail> {
    each_goes(rt.alloc(), EXAMPLES)
}

#[test]
fn an_endless_archive_is_stopped_within_each_call(rt: HostRuntime) -> Result<(), Fail> {
    each_sweep_goes(rt.alloc(), STOPS, false)
}

#[test]
fn an_endless_archive_is_stopped_after_each_call(rt: HostRuntime) -> Result<(), Fail> {
    each_sweep_goes(rt.alloc(), STOPS, true)
}

#[test]
fn an_endless_archive_is_stopped_between_calls(rt: HostRuntime) -> Result<(), Fail> {
    each_goes_between(rt.alloc(), STOPS)
}

#[test]
fn after_a_refused_step_of_an_endless_archive_reading_goes_on(rt: HostRuntime) -> Result<(), Fail> {
    each_sweep_goes(rt.alloc(), REFUSED, true)
}
