//! Disks that hold no store, damaged stores, and scripts and commands that ask for what is not to be
//! had. Each is refused by its name, and nothing is lost.
use crate::examples::{Example, ONE_COMMIT, each_goes};
use crate::machine::Profiles::{Each, Newest};
use crate::steps::Step;
use crate::steps::Step::{
    At, Back, BadLines, Changes, Cuts, Does, Formats, Long, Mark, New, Refuses, Runs, Says, Spoils,
};
use disk::Area;
use shell::Action;
use std::test::Fail;

/// A disk that holds nothing.
const EMPTY: &[Step] = &[Refuses("refused: not a store"), Long(Area::Status, 0)];

/// Areas that were cut, a profile that there is not, and a store of which nothing was.
const CUT: &[Step] = &[
    New(16),
    Says(ONE_COMMIT),
    Mark,
    Cuts(Area::Status, 0),
    Refuses("refused: not a store"),
    Back,
    Cuts(Area::Status, 511),
    Refuses("refused: not a store"),
    Back,
    Cuts(Area::Status, 8703),
    Refuses("refused: not a store"),
    Back,
    Changes(Area::Status, 8, 4),
    Refuses("refused: not a store"),
    Back,
    Cuts(Area::Heap, 0),
    Refuses("refused: damaged heap 1"),
    Back,
    Cuts(Area::Heap, 8191),
    Refuses("refused: damaged heap 1"),
    Back,
    At("100", "value 61"),
];

/// A byte that was changed is refused; put back, it is not.
const CHANGED: &[Step] = &[
    New(16),
    Says(ONE_COMMIT),
    Spoils(Area::Status, 0, 0x4e, 0x4f, "refused: not a store"),
    Spoils(Area::Status, 12, 16, 15, "refused: not a store"),
    Spoils(Area::Status, 12, 16, 17, "refused: not a store"),
    Spoils(Area::Status, 16, 0, 0xC7, "refused: not a store"),
    Spoils(Area::Status, 271, 0, 1, "refused: not a store"),
    Spoils(Area::Status, 511, 0, 1, "refused: not a store"),
    Spoils(Area::Status, 513, 1, 5, "refused: damaged status 0"),
    Spoils(Area::Status, 1023, 0, 1, "refused: damaged status 0"),
    Spoils(Area::Status, 1024, 0, 0xC7, "refused: damaged status 1"),
    Spoils(Area::Status, 536, 1, 2, "refused: damaged heap 2"),
    Spoils(Area::Heap, 0, 1, 2, "refused: damaged heap 1"),
    Spoils(Area::Heap, 8191, 0, 1, "refused: damaged heap 1"),
];

/// A slot whose gate is closed, and one behind it.
const CLOSED: &[Step] = &[
    New(16),
    Says(ONE_COMMIT),
    Changes(Area::Status, 1025, 5),
    Changes(Area::Status, 1536, 0xC7),
    At("100", "value 61"),
];

/// Lines of no form. Each is refused by its number where it is the seventh of a script, and what was
/// committed before it stays.
const BAD_LINES: &[Step] = &[BadLines(
    "
forget u
begin
begin U
begin abcdefghijklmnopq
put u 1 7 6
put u 1 7 6A
put u  1 7 61
put u 1 7 61\x20
put u 65536 7 61
get u 1 18446744073709551616
get u 1 000000000000000000007
del u 1 -7
submit u 9
submit u 18446744073709551616 100
at 1 7 soon
at 1 7 2001-02-29T00:00:00Z
pump u
reopen\r",
)];

/// Scripts whose last lines have no line feed.
const LAST_LINES: &[Step] = &[
    New(16),
    Says(ONE_COMMIT),
    Runs("at 1 7 100", "value 61\n", 0),
    Runs("", "", 0),
    Runs("times 9\nat 1 7", "times 100\nline 2: bad\n", 1),
];

/// Counts of slots that a store cannot have.
const BAD_SLOTS: &[Step] = &[
    Formats(0, "refused: bad slots\n", 1),
    Formats(15, "refused: bad slots\n", 1),
    Formats(65_537, "refused: bad slots\n", 1),
    Formats(u32::MAX, "refused: bad slots\n", 1),
    Long(Area::Status, 0),
];

/// A store cannot be formatted once more, with whatever count of slots.
const OCCUPIED: &[Step] = &[
    New(16),
    Says(ONE_COMMIT),
    Formats(16, "refused: occupied\n", 1),
    Formats(15, "refused: bad slots\n", 1),
    At("100", "value 61"),
];

/// The example, and once more.
const TWICE: &[Step] = &[
    Does(Action::Example, "at 1 7 0\n", "none\n", 0),
    Does(Action::Example, "at 1 7 0\n", "refused: occupied\n", 1),
];

/// The most slots that a store may have.
const MOST_SLOTS: &[Step] = &[
    Formats(65_536, "formatted 65536\n", 0),
    Long(Area::Status, 33_554_944),
];

/// Questions for a time, of no store and of one.
const TIMES: &[Step] = &[
    At("soon", "refused: bad time"),
    At("2001-09-09T01:46:60Z", "refused: bad time"),
    At("1", "refused: not a store"),
    New(16),
    Says(ONE_COMMIT),
    At("1970-01-01T00:00:00Z", "none"),
    At("1970-01-01T00:00:01Z", "refused: not yet 100"),
];

/// Disks that hold no store, or a damaged one, and formats.
const DISKS: &[Example] = &[
    Example {
        name: "an_empty_disk_is_no_store",
        profiles: Newest,
        steps: EMPTY,
    },
    Example {
        name: "a_store_that_was_cut_is_refused",
        profiles: Each,
        steps: CUT,
    },
    Example {
        name: "a_damaged_store_is_refused",
        profiles: Each,
        steps: CHANGED,
    },
    Example {
        name: "a_closed_slot_is_not_read",
        profiles: Each,
        steps: CLOSED,
    },
    Example {
        name: "a_store_has_a_count_of_slots",
        profiles: Newest,
        steps: BAD_SLOTS,
    },
    Example {
        name: "a_store_is_formatted_once",
        profiles: Each,
        steps: OCCUPIED,
    },
    Example {
        name: "the_example_needs_an_empty_disk",
        profiles: Newest,
        steps: TWICE,
    },
    Example {
        name: "a_store_may_have_most_slots",
        profiles: Newest,
        steps: MOST_SLOTS,
    },
];

#[test]
fn bad_disks_are_refused_by_their_names(rt: HostRuntime) -> Result<(), Fail> {
    each_goes(rt.alloc(), DISKS)
}

/// Scripts and questions.
const ASKED: &[Example] = &[
    Example {
        name: "a_line_of_no_form_ends_the_script",
        profiles: Each,
        steps: BAD_LINES,
    },
    Example {
        name: "the_last_line_may_lack_its_line_feed",
        profiles: Each,
        steps: LAST_LINES,
    },
    Example {
        name: "a_question_has_a_time",
        profiles: Each,
        steps: TIMES,
    },
];

#[test]
fn bad_input_is_refused_by_its_name(rt: HostRuntime) -> Result<(), Fail> {
    each_goes(rt.alloc(), ASKED)
}
