//! Stops of the machine before, within and after each call of the disk.
use crate::examples::{Example, NEW, each_goes};
use crate::machine::Profiles::Each;
use crate::steps::Step;
use crate::steps::Step::{At, New, Says, Spells, Stops};
use crate::sweeps::{Sweep, each_sweep_goes};
use disk::Area;
use std::test::Fail;

/// A commit, step by step.
const ONE_COMMIT: &str = "begin t | snapshot 0
put t 1 7 61 | ok
submit t 9 100 | queued
pump | wrote extent
pump | heap synced
pump | body written
pump | body synced
pump | gate written
pump | published 1
";

/// What stands of it, and what stands before.
const KEPT: &[Step] = &[At("100", "value 61")];

const NOT_KEPT: &[Step] = &[At("100", "refused: not yet 0")];

/// Three commits under one gate, which is written and not synced.
const THREE_AT_THE_GATE: Step = Says(
    "begin a | snapshot 0
begin b | snapshot 0
begin c | snapshot 0
put a 1 1 61 | ok
put b 1 2 62 | ok
put c 1 3 63 | ok
submit a 1 100 | queued
submit b 2 100 | queued
submit c 3 100 | queued
pump | wrote extent
pump | wrote extent
pump | wrote extent
pump | heap synced
pump | body written
pump | body synced
pump | gate written
",
);

/// Where the gate was left open.
const WHOLE: &[Step] = &[
    New(16),
    THREE_AT_THE_GATE,
    Stops(0xC7),
    Says(
        "reopen | last 102 floors 0
at 1 1 100 | value 61
at 1 2 100 | none
at 1 2 101 | value 62
at 1 3 102 | value 63
times 1 | times 100
times 2 | times 101
times 3 | times 102
",
    ),
];

/// Nothing is left of the group, and the next commit takes its slot.
const GONE: Step = Says(
    "reopen | last 0 floors 0
at 1 1 0 | none
at 1 1 100 | refused: not yet 0
times 1 | times
begin d | snapshot 0
put d 1 7 61 | ok
submit d 9 100 | queued
flush | idle
redeem d | done 100
reopen | last 100 floors 0
at 1 1 100 | none
at 1 7 100 | value 61
",
);

/// The slot of that commit, and an empty one.
const SLOT: Step = Spells(
    Area::Status,
    512,
    "c7 01 01 00 00000000 0900000000000000 6400000000000000 01000000 01000000 01000000 ..z 476 ..z 512",
);

/// Where the gate was not left open.
const NOT_WHOLE: &[Step] = &[
    New(16),
    THREE_AT_THE_GATE,
    Stops(0x00),
    GONE,
    SLOT,
    New(16),
    THREE_AT_THE_GATE,
    Stops(0x37),
    GONE,
    SLOT,
];

/// Nothing stands before the gate is written, what the gate has then until it is synced, and from then on
/// the value committed.
const SWEEPS: &[Sweep] = &[Sweep {
    name: "a_stop_keeps_all_of_a_commit_or_nothing",
    profiles: Each,
    before: NEW,
    parts: &[(ONE_COMMIT, 1)],
    calls: 6,
    stops: true,
    failed: "",
    gate: Some("pump | gate written"),
    fronts: &[NOT_KEPT, KEPT],
}];

/// Each example, by its name.
const EXAMPLES: &[Example] = &[
    Example {
        name: "a_group_stands_whole",
        profiles: Each,
        steps: WHOLE,
    },
    Example {
        name: "a_group_is_gone_whole",
        profiles: Each,
        steps: NOT_WHOLE,
    },
];

#[test]
fn groups_stand_whole_or_are_gone(rt: HostRuntime) -> Result<(), Fail> {
    each_goes(rt.alloc(), EXAMPLES)
}

#[test]
fn a_stop_keeps_all_of_a_commit_or_nothing(rt: HostRuntime) -> Result<(), Fail> {
    each_sweep_goes(rt.alloc(), SWEEPS, false)
}

#[test]
fn a_stop_after_a_write_keeps_all_or_nothing(rt: HostRuntime) -> Result<(), Fail> {
    each_sweep_goes(rt.alloc(), SWEEPS, true)
}
