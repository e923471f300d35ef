//! A script of commits and an archive, stopped before, within and after each call of the disk: what is
//! opened again is what the lines `done` say, or that with the whole group whose gate was begun.
use crate::examples::NEW;
use crate::machine::Profiles::Each;
use crate::steps::Step;
use crate::steps::Step::Says;
use crate::sweeps::{Sweep, each_goes_between, each_sweep_goes};
use std::test::Fail;

/// Three groups, of two commits, one and three, and an archive before the last, step by step.
const LINES: &str = "begin a | snapshot 0
begin b | snapshot 0
put a 1 7 61 | ok
put b 1 8 62 | ok
submit a 1 100 | queued
submit b 2 100 | queued
pump | wrote extent
pump | wrote extent
pump | heap synced
pump | body written
pump | body synced
pump | gate written
pump | published 2
redeem a | done 100
redeem b | done 101
begin c | snapshot 101
put c 1 7 63 | ok
del c 1 8 | ok
submit c 3 110 | queued
pump | wrote extent
pump | heap synced
pump | body written
pump | body synced
pump | gate written
pump | published 1
redeem c | done 110
archive 110 | started
job | wrote run
job | run synced
job | body written
job | body synced
job | gate written
job | job done
begin d | snapshot 110
begin e | snapshot 110
begin f | snapshot 110
put d 1 9 64 | ok
put e 1 7 65 | ok
put f 2 7 66 | ok
submit d 4 120 | queued
submit e 5 120 | queued
submit f 6 120 | queued
pump | wrote extent
pump | wrote extent
pump | wrote extent
pump | heap synced
pump | body written
pump | body synced
pump | gate written
pump | published 3
redeem d | done 120
redeem e | done 121
redeem f | done 122
";

/// All that is to be had of the store once so many of the groups are published.
pub const FRONTS: &[&[Step]] = &[
    &[Says(
        "reopen | last 0 floors 0
between 1 7 0 1 | rows 0
between 1 8 0 1 | rows 0
between 1 9 0 1 | rows 0
between 2 7 0 1 | rows 0
scan 1 0 | rows 0
times 1 | times
times 2 | times
times 3 | times
times 4 | times
times 5 | times
times 6 | times
",
    )],
    &[Says(
        "reopen | last 101 floors 0
between 1 7 0 102 | 100 102 61
| rows 1
between 1 8 0 102 | 101 102 62
| rows 1
between 1 9 0 102 | rows 0
between 2 7 0 102 | rows 0
scan 1 101 | 7 61
| 8 62
| rows 2
times 1 | times 100
times 2 | times 101
times 3 | times
times 4 | times
times 5 | times
times 6 | times
",
    )],
    &[Says(
        "reopen | last 110 floors 0
between 1 7 0 111 | 100 110 61
| 110 111 63
| rows 2
between 1 8 0 111 | 101 110 62
| rows 1
between 1 9 0 111 | rows 0
between 2 7 0 111 | rows 0
scan 1 110 | 7 63
| rows 1
times 1 | times 100
times 2 | times 101
times 3 | times 110
times 4 | times
times 5 | times
times 6 | times
",
    )],
    &[Says(
        "reopen | last 122 floors 0
between 1 7 0 123 | 100 110 61
| 110 121 63
| 121 123 65
| rows 3
between 1 8 0 123 | 101 110 62
| rows 1
between 1 9 0 123 | 120 123 64
| rows 1
between 2 7 0 123 | 122 123 66
| rows 1
scan 1 122 | 7 65
| 9 64
| rows 2
scan 2 122 | 7 66
| rows 1
times 1 | times 100
times 2 | times 101
times 3 | times 110
times 4 | times 120
times 5 | times 121
times 6 | times 122
",
    )],
];

/// What is opened has the groups that were published, or one more whose gate is open. The calls of the
/// steps: seven of the first group, six of the second, six of the archive and eight of the third group.
const SWEEPS: &[Sweep] = &[Sweep {
    name: "a_stop_leaves_what_is_done_or_one_more_group",
    profiles: Each,
    before: NEW,
    parts: &[(LINES, 1)],
    calls: 27,
    stops: true,
    failed: "",
    gate: Some("pump | gate written"),
    fronts: FRONTS,
}];

#[test]
fn a_stop_within_a_call_leaves_what_is_done_or_one_more_group(rt: HostRuntime) -> Result<(), Fail> {
    each_sweep_goes(rt.alloc(), SWEEPS, false)
}

#[test]
fn a_stop_after_a_call_leaves_what_is_done_or_one_more_group(rt: HostRuntime) -> Result<(), Fail> {
    each_sweep_goes(rt.alloc(), SWEEPS, true)
}

#[test]
fn a_stop_between_calls_leaves_what_is_done_or_one_more_group(rt: HostRuntime) -> Result<(), Fail> {
    each_goes_between(rt.alloc(), SWEEPS)
}
