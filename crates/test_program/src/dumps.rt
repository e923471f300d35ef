//! Logs as text.
use crate::examples::{Example, FOUR_COMMITS, ONE_COMMIT, each_goes};
use crate::machine::Profiles::{Each, First, Growing, Newest, Older};
use crate::raised_floors::RAISED;
use crate::steps::Step;
use crate::steps::Step::{Back, Changes, Cuts, Dumps, Mark, New, Parts, Says};
use disk::Area;
use std::test::Fail;

/// All that ended by 120 goes to the archive.
const ARCHIVED: &str = "archive 120 | started\nfinish | idle\n";

const COMMITS: &[Step] = &[
    New(16),
    Dumps("header 16 pieces 0\nused 0 of 16\n", 0),
    Says(FOUR_COMMITS),
    Says(ARCHIVED),
    Dumps(
        "header 16 pieces 0
slot 0 commit
member 1 100 1 1 1 1970-01-01T00:00:00Z
slot 1 commit
member 2 110 2 1 1 1970-01-01T00:00:00Z
slot 2 commit
member 3 120 3 1 1 1970-01-01T00:00:00Z
slot 3 commit
member 4 130 4 1 1 1970-01-01T00:00:00Z
slot 4 archived 120 0 74 2
used 5 of 16
",
        0,
    ),
];

/// The log of the four commits, an archive and a reclaim up to 120.
pub const RECLAIMED_LOG: &str = "header 16 pieces 0
slot 0 commit
member 1 100 1 1 1 1970-01-01T00:00:00Z
slot 1 commit
member 2 110 2 1 1 1970-01-01T00:00:00Z
slot 2 commit
member 3 120 3 1 1 1970-01-01T00:00:00Z
slot 3 commit
member 4 130 4 1 1 1970-01-01T00:00:00Z
slot 4 archived 120 0 74 2
slot 5 reclaimed 120 0 0 0
used 6 of 16
";

/// Slot 5 becomes a reclaim up to 120 that needs no anchors, by its bytes that are not zero.
const RECLAIMED: &[Step] = &[
    New(16),
    Says(FOUR_COMMITS),
    Says(ARCHIVED),
    Changes(Area::Status, 3072, 0xC7),
    Changes(Area::Status, 3073, 3),
    Changes(Area::Status, 3076, 5),
    Changes(Area::Status, 3080, 120),
    Dumps(RECLAIMED_LOG, 0),
];

const FLOORED: &[Step] = &[
    New(16),
    Parts(&[(FOUR_COMMITS, 1), (RAISED, 1)]),
    Dumps(
        "header 16 pieces 0
slot 0 commit
member 1 100 1 1 1 1970-01-01T00:00:00Z
slot 1 commit
member 2 110 2 1 1 1970-01-01T00:00:00Z
slot 2 commit
member 3 120 3 1 1 1970-01-01T00:00:00Z
slot 3 commit
member 4 130 4 1 1 1970-01-01T00:00:00Z
slot 4 archived 120 0 74 2
slot 5 reclaimed 120 0 0 0
slot 6 floor 120
used 7 of 16
",
        0,
    ),
];

/// A group of two, one of which has two records in two extents, and commits at the last time that has
/// an instant of its own, one after it, and the last time of all.
const LATE_COMMITS: &str = "begin a | snapshot 0
begin b | snapshot 0
put a 1 7A | ok
put a 1 8A | ok
put b 1 9 61 | ok
submit a 18446744073709551615 1000000000000000 | queued
submit b 0 1000000000000000 | queued
flush | idle
begin c | snapshot 1000000000000001
put c 1 9 62 | ok
submit c 3 253402300799999999 | queued
flush | idle
begin d | snapshot 253402300799999999
put d 1 9 63 | ok
submit d 4 253402300800000000 | queued
begin e | snapshot 253402300799999999
put e 1 8 63 | ok
submit e 5 9223372036854775807 | queued
flush | idle
";

const LATE: &[Step] = &[
    New(17),
    Parts(&[(LATE_COMMITS, 1)]),
    Dumps(
        "header 17 pieces 0
slot 0 commit
member 18446744073709551615 1000000000000000 1 2 2 2001-09-09T01:46:40Z
member 0 1000000000000001 3 1 1 2001-09-09T01:46:40Z
slot 1 commit
member 3 253402300799999999 4 1 1 9999-12-31T23:59:59Z
slot 2 commit
member 4 253402300800000000 5 1 1 -
member 5 9223372036854775807 6 1 1 -
used 3 of 17
",
        0,
    ),
];

/// The log of a store with one commit at 100.
pub const ONE_MEMBER: &str = "header 16 pieces 0
slot 0 commit
member 9 100 1 1 1 1970-01-01T00:00:00Z
used 1 of 16
";

/// So it is of a store of profile 1.
pub const FIRST_PROFILE: &str = "header 16
slot 0 commit
member 9 100 1 1 1 1970-01-01T00:00:00Z
used 1 of 16
";

/// Bytes that are not of the log are cut, and bytes of the log are changed.
const CHANGED: &[Step] = &[
    New(16),
    Says(ONE_COMMIT),
    Mark,
    Cuts(Area::Heap, 0),
    Dumps(ONE_MEMBER, 0),
    Back,
    Changes(Area::Status, 512, 0x37),
    Dumps("header 16 pieces 0\nused 0 of 16\n", 0),
    Back,
    Changes(Area::Status, 513, 3),
    Dumps("refused: damaged status 0\n", 1),
    Back,
    Changes(Area::Status, 1023, 1),
    Dumps("refused: damaged status 0\n", 1),
    Back,
    Changes(Area::Status, 1024, 0xC7),
    Dumps("refused: damaged status 1\n", 1),
    Back,
    Changes(Area::Status, 1536, 0xC7),
    Dumps(ONE_MEMBER, 0),
    Back,
    Changes(Area::Status, 8, 9),
    Dumps("refused: not a store\n", 1),
    Back,
    Changes(Area::Status, 8, 1),
    Dumps(FIRST_PROFILE, 0),
];

/// In the profiles whose stores grow the second gate of a piece is not read where the first is closed.
const GROWING: &[Step] = &[
    New(16),
    Says(ONE_COMMIT),
    Mark,
    Changes(Area::Status, 8, 2),
    Dumps(ONE_MEMBER, 0),
    Back,
    Changes(Area::Status, 8, 3),
    Dumps(ONE_MEMBER, 0),
    Back,
    Changes(Area::Status, 17, 0xC7),
    Dumps(ONE_MEMBER, 0),
];

/// In the first profile that byte is zero.
const FIRST: &[Step] = &[
    New(16),
    Says(ONE_COMMIT),
    Mark,
    Changes(Area::Status, 17, 0xC7),
    Dumps("refused: not a store\n", 1),
];

/// Each example, by its name.
const EXAMPLES: &[Example] = &[
    Example {
        name: "commits_a_deletion_and_an_archive",
        profiles: Each,
        steps: COMMITS,
    },
    Example {
        name: "a_reclaim_behind_an_archive",
        profiles: Each,
        steps: RECLAIMED,
    },
    Example {
        name: "a_floor_behind_a_reclaim",
        profiles: Older,
        steps: FLOORED,
    },
    Example {
        name: "groups_and_instants",
        profiles: Each,
        steps: LATE,
    },
    Example {
        name: "only_the_log_is_read",
        profiles: Each,
        steps: CHANGED,
    },
    Example {
        name: "an_empty_disk_has_no_log",
        profiles: Newest,
        steps: &[Dumps("refused: not a store\n", 1)],
    },
    Example {
        name: "a_header_tells_its_profile",
        profiles: Growing,
        steps: GROWING,
    },
    Example {
        name: "a_header_of_the_first_profile",
        profiles: First,
        steps: FIRST,
    },
];

#[test]
fn logs_are_told_as_text(rt: HostRuntime) -> Result<(), Fail> {
    each_goes(rt.alloc(), EXAMPLES)
}
