//! Commits, one after another and beside each other.
use crate::examples::{Example, FOUR_COMMITS, each_goes};
use crate::machine::Profiles::{Each, Every};
use crate::steps::Step;
use crate::steps::Step::{Extents, New, Says, Spells};
use disk::Area;
use std::test::Fail;

/// A deletion of what was put, and what was given up.
const NOTHING: &[Step] = &[
    New(16),
    Says(
        "begin t | snapshot 0
put t 1 7 61 | ok
del t 1 7 | ok
get t 1 7 | none
submit t 9 100 | readonly 0
redeem t | refused: name
pump | idle
begin t | snapshot 0
put t 1 7 61 | ok
abort t | ok
flush | idle
times 9 | times
",
    ),
    Extents(&[]),
    Spells(Area::Status, 512, "..z 8192"),
];

/// Scripts on a new store, and on one that is opened after the four commits.
const EXAMPLES: &[Example] = &[
    Example {
        name: "one_record_step_by_step",
        profiles: Each,
        steps: &[
            New(16),
            Says(
                "at 1 7 0 | none
at 1 7 1 | refused: not yet 0
begin t | snapshot 0
put t 1 7 61 | ok
get t 1 7 | value 61
submit t 9 100 | queued
pump | wrote extent
pump | heap synced
pump | body written
pump | body synced
pump | gate written
redeem t | waiting
at 1 7 100 | refused: not yet 0
pump | published 1
pump | idle
redeem t | done 100
at 1 7 99 | none
at 1 7 100 | value 61
at 1 7 101 | refused: not yet 100
times 9 | times 100
reopen | last 100 floors 0
at 1 7 99 | none
at 1 7 100 | value 61
at 1 7 101 | refused: not yet 100
times 9 | times 100
",
            ),
        ],
    },
    Example {
        name: "commit_times_rise",
        profiles: Every,
        steps: &[
            New(16),
            Says(
                "begin a | snapshot 0
put a 1 7 61 | ok
submit a 1 100 | queued
flush | idle
redeem a | done 100
begin a | snapshot 100
put a 1 7 62 | ok
submit a 2 100 | queued
flush | idle
redeem a | done 101
begin a | snapshot 101
put a 1 7 63 | ok
submit a 3 50 | queued
flush | idle
redeem a | done 102
at 1 7 100 | value 61
at 1 7 101 | value 62
at 1 7 102 | value 63
",
            ),
        ],
    },
    Example {
        name: "no_commit_is_later_than_the_last_time",
        profiles: Every,
        steps: &[
            New(16),
            Says(
                "begin a | snapshot 0
put a 1 7 61 | ok
submit a 1 9223372036854775808 | refused: clock end
begin a | snapshot 0
begin b | snapshot 0
begin c | snapshot 0
put a 1 7 61 | ok
put b 1 8 62 | ok
put c 1 8 62 | ok
submit a 1 9223372036854775807 | queued
submit b 1 0 | refused: clock end
submit c 1 9223372036854775807 | refused: clock end
flush | idle
redeem a | done 9223372036854775807
begin d | snapshot 9223372036854775807
put d 1 8 62 | ok
submit d 1 0 | refused: clock end
begin e | snapshot 9223372036854775807
submit e 1 0 | readonly 9223372036854775807
at 1 7 9223372036854775807 | value 61
at 1 7 9223372036854775808 | refused: not yet 9223372036854775807
reopen | last 9223372036854775807 floors 0
",
            ),
        ],
    },
    Example {
        name: "the_first_of_two_writers_wins",
        profiles: Every,
        steps: &[
            New(16),
            Says(
                "begin a | snapshot 0
begin b | snapshot 0
put a 1 7 61 | ok
put b 1 7 62 | ok
submit a 1 100 | queued
submit b 2 100 | refused: conflict 1 7
redeem b | refused: name
flush | idle
redeem a | done 100
at 1 7 100 | value 61
times 1 | times 100
times 2 | times
",
            ),
        ],
    },
    Example {
        name: "a_conflict_names_the_least_key",
        profiles: Every,
        steps: &[
            New(16),
            Says(
                "begin t | snapshot 0
put t 1 9 61 | ok
put t 1 3 61 | ok
put t 1 7 61 | ok
begin a | snapshot 0
put a 1 9 62 | ok
submit a 1 100 | queued
begin b | snapshot 0
put b 1 7 62 | ok
submit b 1 110 | queued
flush | idle
submit t 1 120 | refused: conflict 1 7
at 1 3 110 | none
",
            ),
        ],
    },
    Example {
        name: "a_deletion_conflicts",
        profiles: Every,
        steps: &[
            New(16),
            Says(FOUR_COMMITS),
            Says(
                "begin a | snapshot 130
begin b | snapshot 130
begin c | snapshot 130
del a 1 7 | ok
put b 1 7 64 | ok
del c 1 7 | ok
submit a 1 0 | queued
submit b 1 0 | refused: conflict 1 7
flush | idle
submit c 1 0 | refused: conflict 1 7
at 1 7 131 | none
",
            ),
        ],
    },
    Example {
        name: "write_skew_stands",
        profiles: Every,
        steps: &[
            New(16),
            Says(
                "begin a | snapshot 0
put a 1 1 78 | ok
put a 1 2 79 | ok
submit a 1 100 | queued
flush | idle
begin b | snapshot 100
begin c | snapshot 100
get b 1 1 | value 78
get c 1 2 | value 79
put b 1 2 62 | ok
put c 1 1 63 | ok
submit b 2 0 | queued
submit c 2 0 | queued
flush | idle
redeem b | done 101
redeem c | done 102
at 1 1 102 | value 63
at 1 2 102 | value 62
times 2 | times 101 102
",
            ),
        ],
    },
    Example {
        name: "what_is_absent_is_not_deleted",
        profiles: Every,
        steps: &[
            New(16),
            Says(FOUR_COMMITS),
            Says(
                "begin t | snapshot 130
del t 1 8 | refused: missing
get t 1 7 | value 63
del t 1 7 | ok
del t 1 7 | refused: missing
get t 1 7 | none
submit t 5 140 | queued
flush | idle
redeem t | done 140
at 1 7 139 | value 63
at 1 7 140 | none
begin t | snapshot 140
del t 1 7 | refused: missing
submit t 5 150 | readonly 140
",
            ),
        ],
    },
    Example {
        name: "what_stood_at_each_time",
        profiles: Every,
        steps: &[
            New(16),
            Says(FOUR_COMMITS),
            Says(
                "at 1 7 99 | none
at 1 7 100 | value 61
at 1 7 109 | value 61
at 1 7 110 | value 62
at 1 7 119 | value 62
at 1 7 120 | none
at 1 7 129 | none
at 1 7 130 | value 63
at 1 7 131 | refused: not yet 130
at 2 7 130 | none
times 1 | times 100
times 3 | times 120
times 5 | times
",
            ),
        ],
    },
    Example {
        name: "a_transaction_reads_what_is_published",
        profiles: Every,
        steps: &[
            New(16),
            Says(FOUR_COMMITS),
            Says(
                "begin a | snapshot 130
put a 1 7 64 | ok
submit a 5 140 | queued
begin b | snapshot 130
get b 1 7 | value 63
flush | idle
get b 1 7 | value 63
begin c | snapshot 140
get c 1 7 | value 64
redeem a | done 140
",
            ),
        ],
    },
    Example {
        name: "nothing_written_uses_no_slot",
        profiles: Each,
        steps: NOTHING,
    },
];

#[test]
fn commits_are_answered(rt: HostRuntime) -> Result<(), Fail> {
    each_goes(rt.alloc(), EXAMPLES)
}
