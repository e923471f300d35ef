//! Commits that are published under one gate, and the room in the log.
use crate::examples::{Example, each_goes};
use crate::machine::Profiles::Each;
use crate::steps::Step::{New, Parts, Says};
use std::test::Fail;

/// Scripts of commits that wait for one another, and of a log that fills.
const EXAMPLES: &[Example] = &[
    Example {
        name: "seventeen_commits_take_two_slots",
        profiles: Each,
        steps: &[
            New(64),
            Parts(&[
                (
                    "begin t# | snapshot 0
put t# 1 # 61 | ok
submit t# # 100 | queued
",
                    17,
                ),
                ("pump | wrote extent\n", 16),
                (
                    "pump | heap synced
pump | body written
pump | body synced
pump | gate written
redeem t0 | waiting
pump | published 16
redeem t16 | waiting
pump | wrote extent
pump | heap synced
pump | body written
pump | body synced
pump | gate written
pump | published 1
pump | idle
",
                    1,
                ),
                ("redeem t# | done @\ntimes # | times @\n", 17),
                ("reopen | last 116 floors 0\n", 1),
                ("at 1 # 116 | value 61\n", 17),
                ("at 1 16 115 | none\n", 1),
            ]),
        ],
    },
    Example {
        name: "a_group_is_what_waits_when_it_begins",
        profiles: Each,
        steps: &[
            New(16),
            Says(
                "begin a | snapshot 0
begin b | snapshot 0
put a 1 7 61 | ok
put b 1 8 62 | ok
submit a 1 100 | queued
pump | wrote extent
submit b 2 100 | queued
pump | heap synced
pump | body written
pump | body synced
pump | gate written
pump | published 1
redeem a | done 100
redeem b | waiting
pump | wrote extent
pump | heap synced
pump | body written
pump | body synced
pump | gate written
pump | published 1
redeem b | done 101
pump | idle
",
            ),
        ],
    },
    Example {
        name: "two_slots_are_left_for_later",
        profiles: Each,
        steps: &[
            New(16),
            Parts(&[
                (
                    "begin t | snapshot #
put t 1 7 61 | ok
submit t 1 0 | queued
flush | idle
redeem t | done +
",
                    13,
                ),
                (
                    "begin a | snapshot 13
begin b | snapshot 13
begin c | snapshot 13
put a 1 7 62 | ok
put b 1 8 62 | ok
put c 1 8 62 | ok
submit a 1 0 | queued
submit b 1 0 | refused: status full
flush | idle
redeem a | done 14
submit c 1 0 | refused: status full
begin d | snapshot 14
submit d 1 0 | readonly 14
reopen | last 14 floors 0
at 1 7 14 | value 62
",
                    1,
                ),
            ]),
        ],
    },
];

#[test]
fn groups_are_answered(rt: HostRuntime) -> Result<(), Fail> {
    each_goes(rt.alloc(), EXAMPLES)
}
