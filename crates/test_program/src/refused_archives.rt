//! Archives of which a call of the disk is refused, or in which the machine stops: no answer changes.
use crate::archived::RUN;
use crate::archiving::ROWS;
use crate::examples::FOUR_COMMITS;
use crate::machine::Profiles::Each;
use crate::machine::SCRIPT;
use crate::refusals::Then::Nothing;
use crate::refusals::{Calls, Outcome, Refusals, UNOPENED, each_refusal_goes};
use crate::steps::Step;
use crate::steps::Step::{Ends, New, Parts, Says, Spells};
use crate::sweeps::{Sweep, each_sweep_goes};
use disk::Area;
use std::test::Fail;

/// What the four commits answer, whatever stands of the archive.
pub const ALIKE: Step = Parts(&[
    (ROWS, 1),
    ("at 1 7 10# | value 61\n", 10),
    ("at 1 7 11# | value 62\n", 10),
    ("at 1 7 12# | none\n", 10),
    ("at 1 7 130 | value 63\n", 1),
]);

/// Whatever stands of the archive, the four commits answer alike, and the archive can be made.
pub const ANSWERS_ALIKE: &[Step] = &[
    ALIKE,
    Ends("archive 120\nfinish\n"),
    Says("archive 120 | refused: nothing to do\n"),
    Spells(Area::Archive, 0, RUN),
    ALIKE,
];

/// The four commits on a new store.
const STORE: &[Step] = &[New(16), Says(FOUR_COMMITS)];

/// An archive up to 120, step by step.
const ONE_ARCHIVE: &str = "archive 120 | started
job | wrote run
job | run synced
job | body written
job | body synced
job | gate written
job | job done
";

/// An archive of which a step is refused, and what is asked for behind it.
pub const REFUSED_JOB: &str = "archive 120 | started
finish | idle
job | idle
pump | idle
begin u | snapshot 130
archive 120 | refused: nothing to do
at 1 7 110 | value 62
between 1 7 100 131 | 100 110 61
| 110 120 62
| 130 131 63
| rows 3
";

/// What is said from the refused step on: reading goes on.
pub const FAILED: &str = "refused: failed
refused: failed
refused: failed
refused: failed
refused: failed
value 62
100 110 61
110 120 62
130 131 63
rows 3
";

/// At each of the six calls of the archive the machine stops.
const STOPS: &[Sweep] = &[Sweep {
    name: "a_stop_in_an_archive_changes_no_answer",
    profiles: Each,
    before: STORE,
    parts: &[(ONE_ARCHIVE, 1)],
    calls: 6,
    stops: true,
    failed: "",
    gate: None,
    fronts: &[ANSWERS_ALIKE],
}];

/// At each of the six the store fails.
const REFUSED: &[Sweep] = &[Sweep {
    name: "after_a_refused_step_of_a_job_reading_goes_on",
    profiles: Each,
    before: STORE,
    parts: &[(REFUSED_JOB, 1)],
    calls: 6,
    stops: false,
    failed: FAILED,
    gate: None,
    fronts: &[ANSWERS_ALIKE],
}];

/// One of the calls is the sync of the run, and the store reads on behind it.
const RUN_SYNC: &[Refusals] = &[Refusals {
    name: "a_refused_sync_of_a_run_fails_the_store",
    profiles: Each,
    before: STORE,
    action: SCRIPT,
    script: "archive 120\njob\njob\nbegin u\nat 1 7 110\nat 1 7 130\n",
    write_reaches: false,
    outcomes: &[
        UNOPENED,
        Outcome {
            calls: Calls::Just(1),
            said: ("started\nrefused: failed\n", ""),
            more: true,
            status: 0,
            then: Nothing,
        },
        Outcome {
            calls: Calls::Just(1),
            said: (
                "started\nwrote run\nrefused: failed\nrefused: failed\nvalue 62\nvalue 63\n",
                "",
            ),
            more: false,
            status: 0,
            then: Nothing,
        },
    ],
}];

#[test]
fn a_stop_in_an_archive_changes_no_answer(rt: HostRuntime) -> Result<(), Fail> {
    each_sweep_goes(rt.alloc(), STOPS, false)
}

#[test]
fn a_stop_after_a_write_of_an_archive_changes_no_answer(rt: HostRuntime) -> Result<(), Fail> {
    each_sweep_goes(rt.alloc(), STOPS, true)
}

#[test]
fn after_a_refused_step_of_a_job_reading_goes_on(rt: HostRuntime) -> Result<(), Fail> {
    each_sweep_goes(rt.alloc(), REFUSED, false)
}

#[test]
fn after_a_refused_step_that_was_made_reading_goes_on(rt: HostRuntime) -> Result<(), Fail> {
    each_sweep_goes(rt.alloc(), REFUSED, true)
}

#[test]
fn a_refused_sync_of_a_run_fails_the_store(rt: HostRuntime) -> Result<(), Fail> {
    each_refusal_goes(rt.alloc(), RUN_SYNC)
}
