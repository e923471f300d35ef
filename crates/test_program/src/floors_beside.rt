//! Floors beside transactions, commits and other jobs.
use crate::examples::{Example, FOUR_COMMITS, each_goes};
use crate::machine::Profiles::Older;
use crate::steps::Step::{New, Parts, Says};
use std::test::Fail;

/// Scripts of floors beside transactions, commits and other jobs.
const BESIDE: &[Example] = &[
    Example {
        name: "a_floor_is_made_step_by_step",
        profiles: Older,
        steps: &[
            New(16),
            Says(FOUR_COMMITS),
            Says(
                "floor 0 | refused: nothing to do
floor 1970-01-01T00:00:00Z | refused: nothing to do
floor 131 | refused: not yet 130
floor 18446744073709551615 | refused: not yet 130
floor 120 | started
floor 0 | refused: job busy
floor 131 | refused: job busy
archive 120 | refused: job busy
reclaim | refused: job busy
job | body written
job | body synced
at 1 7 105 | value 61
job | gate written
floor 130 | refused: job busy
at 1 7 119 | value 62
job | job done
at 1 7 119 | refused: before kept 120
job | idle
finish | idle
floor 119 | refused: nothing to do
archive 120 | started
floor 130 | refused: job busy
finish | idle
floor 130 | started
finish | idle
reopen | last 130 floor 130
",
            ),
        ],
    },
    Example {
        name: "a_transaction_below_the_floor_bars_it",
        profiles: Older,
        steps: &[
            New(16),
            Says(
                "begin a | snapshot 0
put a 1 7 61 | ok
submit a 1 100 | queued
flush | idle
begin b | snapshot 100
put b 1 7 62 | ok
submit b 2 110 | queued
flush | idle
",
            ),
            Says(
                "begin r | snapshot 110
begin c | snapshot 110
del c 1 7 | ok
submit c 3 120 | queued
flush | idle
begin s | snapshot 120
begin d | snapshot 120
put d 1 7 63 | ok
submit d 4 130 | queued
flush | idle
floor 111 | refused: in use 110
floor 120 | refused: in use 110
floor 131 | refused: not yet 130
floor 110 | started
finish | idle
get r 1 7 | value 62
floor 120 | refused: in use 110
abort r | ok
floor 121 | refused: in use 120
floor 120 | started
finish | idle
get s 1 7 | none
reopen | last 130 floor 120
",
            ),
        ],
    },
    Example {
        name: "a_floor_may_be_an_instant",
        profiles: Older,
        steps: &[
            New(16),
            Says(
                "begin a | snapshot 0
put a 1 7 61 | ok
submit a 1 1970-01-01T00:00:01Z | queued
flush | idle
begin b | snapshot 1000000
put b 1 7 62 | ok
submit b 2 1970-01-01T00:00:02Z | queued
flush | idle
",
            ),
            Says(
                "floor 1970-01-01T00:00:02Z | started
finish | idle
reopen | last 2000000 floor 2000000
at 1 7 1970-01-01T00:00:01Z | refused: before kept 2000000
at 1 7 1970-01-01T00:00:02Z | value 62
",
            ),
        ],
    },
    Example {
        name: "a_group_waits_for_a_floors_slot",
        profiles: Older,
        steps: &[
            New(16),
            Says(FOUR_COMMITS),
            Says(
                "floor 120 | started
job | body written
begin e | snapshot 130
put e 1 7 64 | ok
submit e 5 140 | queued
pump | wrote extent
pump | heap synced
pump | refused: busy
job | body synced
job | gate written
flush | refused: busy
job | job done
flush | idle
redeem e | done 140
reopen | last 140 floor 120
at 1 7 119 | refused: before kept 120
at 1 7 140 | value 64
",
            ),
        ],
    },
    Example {
        name: "a_floor_waits_for_a_groups_slot",
        profiles: Older,
        steps: &[
            New(16),
            Says(FOUR_COMMITS),
            Says(
                "begin e | snapshot 130
put e 1 7 64 | ok
submit e 5 140 | queued
pump | wrote extent
pump | heap synced
pump | body written
floor 140 | refused: not yet 130
floor 130 | started
job | refused: busy
finish | refused: busy
flush | idle
finish | idle
floor 140 | started
finish | idle
reopen | last 140 floor 140
at 1 7 140 | value 64
",
            ),
        ],
    },
    Example {
        name: "a_floor_takes_a_slot_that_commits_leave",
        profiles: Older,
        steps: &[
            New(16),
            Parts(&[
                (
                    "begin t | snapshot #
put t 1 7 61 | ok
submit t # 0 | queued
flush | idle
redeem t | done +
",
                    14,
                ),
                (
                    "floor 1 | started
finish | idle
floor 2 | started
finish | idle
floor 2 | refused: nothing to do
floor 3 | refused: status full
floor 15 | refused: not yet 14
archive 3 | refused: status full
reopen | last 14 floor 2
at 1 7 1 | refused: before kept 2
at 1 7 2 | value 61
",
                    1,
                ),
            ]),
        ],
    },
    Example {
        name: "a_floor_that_is_not_finished_is_given_up",
        profiles: Older,
        steps: &[
            New(16),
            Says(FOUR_COMMITS),
            Says(
                "floor 120 | started
reopen | last 130 floor 0
job | idle
floor 120 | started
job | body written
job | body synced
reopen | last 130 floor 0
job | idle
at 1 7 105 | value 61
floor 110 | started
finish | idle
reopen | last 130 floor 110
at 1 7 109 | refused: before kept 110
at 1 7 110 | value 62
",
            ),
        ],
    },
];

#[test]
fn floors_beside_other_work_are_answered(rt: HostRuntime) -> Result<(), Fail> {
    each_goes(rt.alloc(), BESIDE)
}
