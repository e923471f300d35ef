//! A store with an archived slot: it opens, all versions are answered, and commits go on behind the
//! slot.
use crate::examples::{Example, FOUR_COMMITS, each_goes};
use crate::machine::Profiles::Each;
use crate::steps::Step;
use crate::steps::Step::{At, Back, Changes, Cuts, Mark, New, Puts, Says, Spells};
use disk::Area;
use std::test::Fail;

/// What ended by 120: 61 from 100 to 110, and 62 from 110 to 120.
pub const RUN: &str = "0100 0700000000000000 6400000000000000 6e00000000000000 01 01 61
    0100 0700000000000000 6e00000000000000 7800000000000000 01 01 62
    0000000000000000 1d00000000000000";

/// The slot behind those of the four commits, and then zeros to the end of the area.
pub const SLOT: &str = "c7 02 00 00 04000000
    7800000000000000 0000000000000000 4a00000000000000 0200000000000000 ..z 6104";

/// All versions are answered, and a commit goes on behind the slot.
const GOES_ON: &[Step] = &[
    New(16),
    Says(FOUR_COMMITS),
    Puts(Area::Status, 2560, SLOT),
    Puts(Area::Archive, 0, RUN),
    Says(
        "at 1 7 100 | value 61
at 1 7 110 | value 62
at 1 7 120 | none
at 1 7 130 | value 63
begin e | snapshot 130
put e 1 7 64 | ok
submit e 5 140 | queued
flush | idle
reopen | last 140 floors 0
at 1 7 110 | value 62
at 1 7 140 | value 64
",
    ),
    Spells(
        Area::Status,
        3072,
        "c7 01 01 00 05000000 0500000000000000 8c00000000000000 05000000 01000000 01000000 ..z 476",
    ),
    Spells(Area::Archive, 0, RUN),
];

/// An archive that was cut, and one that was not.
const CUT: &[Step] = &[
    New(16),
    Says(FOUR_COMMITS),
    Puts(Area::Status, 2560, SLOT),
    Puts(Area::Archive, 0, RUN),
    Mark,
    Cuts(Area::Archive, 0),
    At("100", "refused: damaged archive 0"),
    Back,
    Cuts(Area::Archive, 73),
    At("100", "refused: damaged archive 0"),
    Back,
    At("100", "value 61"),
];

/// Another kind, another number, a time later than the last commit, and another start of its run.
const CHANGED: &[Step] = &[
    New(16),
    Says(FOUR_COMMITS),
    Puts(Area::Status, 2560, SLOT),
    Puts(Area::Archive, 0, RUN),
    Mark,
    Changes(Area::Status, 2561, 3),
    At("100", "refused: damaged status 4"),
    Back,
    Changes(Area::Status, 2564, 5),
    At("100", "refused: damaged status 4"),
    Back,
    Changes(Area::Status, 2568, 131),
    At("100", "refused: damaged status 4"),
    Back,
    Changes(Area::Status, 2576, 1),
    At("100", "refused: damaged status 4"),
];

/// All that the key had by 120 goes to the archive; the heap keeps its last value alone. A run that was
/// cut, and one whose index has another place of the first record.
const DAMAGED: &[Step] = &[
    New(16),
    Says(FOUR_COMMITS),
    Says(
        "archive 120 | started
finish | idle
reclaim | started
finish | idle
",
    ),
    Spells(Area::Archive, 0, RUN),
    Mark,
    Cuts(Area::Archive, 73),
    At("130", "refused: damaged archive 0"),
    Back,
    Changes(Area::Archive, 58, 1),
    Says(
        "reopen | last 130 floors 0
at 1 7 130 | value 63
between 1 7 100 131 | refused: damaged archive 0
",
    ),
];

/// Each example, by its name.
const EXAMPLES: &[Example] = &[
    Example {
        name: "a_store_with_an_archived_slot_goes_on",
        profiles: Each,
        steps: GOES_ON,
    },
    Example {
        name: "an_archive_that_was_cut_is_damaged",
        profiles: Each,
        steps: CUT,
    },
    Example {
        name: "an_archived_slot_keeps_its_rules",
        profiles: Each,
        steps: CHANGED,
    },
    Example {
        name: "a_damaged_run_is_told_by_what_reads_it",
        profiles: Each,
        steps: DAMAGED,
    },
];

#[test]
fn archived_slots_keep_their_rules(rt: HostRuntime) -> Result<(), Fail> {
    each_goes(rt.alloc(), EXAMPLES)
}
