//! Archives beside commits, which wait for one another.
use crate::archiving::TWO_COMMITS;
use crate::examples::{Example, FOUR_COMMITS, each_goes};
use crate::machine::Profiles::Each;
use crate::steps::Step::{New, Parts};
use std::test::Fail;

/// Scripts of archives beside commits.
const BESIDE: &[Example] = &[
    Example {
        name: "one_slot_is_in_the_writing_at_a_time",
        profiles: Each,
        steps: &[
            New(16),
            Parts(&[
                (TWO_COMMITS, 1),
                (
                    "archive 100 | started
begin c | snapshot 110
put c 1 7 63 | ok
submit c 9 130 | queued
pump | wrote extent
pump | heap synced
pump | body written
job | run synced
job | refused: busy
pump | body synced
pump | gate written
pump | published 1
job | body written
begin d | snapshot 130
put d 1 7 64 | ok
submit d 9 140 | queued
pump | wrote extent
pump | heap synced
pump | refused: busy
job | body synced
job | gate written
job | job done
pump | body written
pump | body synced
pump | gate written
pump | published 1
reopen | last 140 floors 0
",
                    1,
                ),
            ]),
        ],
    },
    Example {
        name: "a_group_waits_for_a_jobs_slot",
        profiles: Each,
        steps: &[
            New(16),
            Parts(&[
                (FOUR_COMMITS, 1),
                (
                    "archive 120 | started
job | wrote run
job | run synced
job | body written
begin e | snapshot 130
put e 1 7 64 | ok
submit e 5 140 | queued
pump | wrote extent
pump | heap synced
pump | refused: busy
flush | refused: busy
job | body synced
job | gate written
pump | refused: busy
job | job done
pump | body written
pump | body synced
pump | gate written
pump | published 1
redeem e | done 140
reopen | last 140 floors 0
at 1 7 110 | value 62
at 1 7 140 | value 64
archive 120 | refused: nothing to do
",
                    1,
                ),
            ]),
        ],
    },
    Example {
        name: "a_job_waits_for_a_groups_slot",
        profiles: Each,
        steps: &[
            New(16),
            Parts(&[
                (FOUR_COMMITS, 1),
                (
                    "begin e | snapshot 130
put e 1 7 64 | ok
submit e 5 140 | queued
pump | wrote extent
pump | heap synced
pump | body written
archive 120 | started
job | wrote run
finish | refused: busy
job | refused: busy
flush | idle
job | body written
finish | idle
redeem e | done 140
reopen | last 140 floors 0
archive 120 | refused: nothing to do
at 1 7 110 | value 62
at 1 7 140 | value 64
",
                    1,
                ),
            ]),
        ],
    },
    Example {
        name: "an_archive_takes_a_slot_that_commits_leave",
        profiles: Each,
        steps: &[
            New(16),
            Parts(&[
                (
                    "begin t | snapshot 0
put t 1 50 61 | ok
submit t 9 100 | queued
flush | idle
",
                    1,
                ),
                (
                    "begin t# | snapshot @
put t# 1 # 61 | ok
submit t# 9 1 | queued
flush | idle
",
                    12,
                ),
                (
                    "begin u | snapshot 112
begin v | snapshot 112
begin w | snapshot 112
put u 1 60 61 | ok
put v 1 61 61 | ok
put w 1 61 61 | ok
submit u 9 200 | queued
submit v 9 201 | refused: status full
archive 112 | started
submit w 9 201 | refused: status full
finish | idle
flush | idle
redeem u | done 200
archive 150 | started
finish | idle
archive 200 | refused: status full
reopen | last 200 floors 0
at 1 60 200 | value 61
",
                    1,
                ),
            ]),
        ],
    },
];

#[test]
fn archives_beside_commits_are_answered(rt: HostRuntime) -> Result<(), Fail> {
    each_goes(rt.alloc(), BESIDE)
}
