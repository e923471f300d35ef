//! Six commits beside an archive, stopped before, within and after each call of the disk. What is left goes on
//! with a reclaim, where the archive stands, and a commit, and is stopped again at each call of these.
use crate::again::{Again, Reached};
use crate::examples::{Example, FOUR_COMMITS, each_goes};
use crate::machine::Profiles::Each;
use crate::steps::Step;
use crate::steps::Step::{Dumps, Has, New, Says, StopsAtEach};
use crate::sweeps::{Sweep, each_goes_between, each_sweep_goes};
use crate::write_sets::Written;
use std::test::Fail;

/// What is on the disk before.
const BEFORE: &[Step] = &[New(16), Says(FOUR_COMMITS)];

/// An archive of what ended by 120, and before each of its steps a commit, which goes on until it is
/// published or meets the archive's slot. In the end all are published: 37 calls of the disk.
const ARCHIVE_AND_COMMITS: &str = "archive 120 | started
begin e | snapshot 130
put e 1 101 65 | ok
submit e 11 0 | queued
pump | wrote extent
pump | heap synced
pump | body written
pump | body synced
pump | gate written
pump | published 1
pump | idle
job | wrote run
begin f | snapshot 131
put f 1 102 66 | ok
submit f 12 0 | queued
pump | wrote extent
pump | heap synced
pump | body written
pump | body synced
pump | gate written
pump | published 1
pump | idle
job | run synced
begin g | snapshot 132
put g 1 103 67 | ok
submit g 13 0 | queued
pump | wrote extent
pump | heap synced
pump | body written
pump | body synced
pump | gate written
pump | published 1
pump | idle
job | body written
begin h | snapshot 133
put h 1 104 68 | ok
submit h 14 0 | queued
pump | wrote extent
pump | heap synced
pump | refused: busy
job | body synced
begin i | snapshot 133
put i 1 105 69 | ok
submit i 15 0 | queued
pump | refused: busy
job | gate written
begin j | snapshot 133
put j 1 106 6a | ok
submit j 16 0 | queued
pump | refused: busy
job | job done
pump | body written
pump | body synced
pump | gate written
pump | published 1
pump | wrote extent
pump | wrote extent
pump | heap synced
pump | body written
pump | body synced
pump | gate written
pump | published 2
pump | idle
";

/// The records of all commits.
const RECORDS: &[u32] = &[7, 101, 102, 103, 104, 105, 106];

/// What each commit writes: the four of before, the six beside the archive, and the one behind a stop.
const AT_100: Written = Written {
    time: 100,
    record: 7,
    field: Some("61"),
};

const AT_110: Written = Written {
    time: 110,
    record: 7,
    field: Some("62"),
};

const AT_120: Written = Written {
    time: 120,
    record: 7,
    field: None,
};

const AT_130: Written = Written {
    time: 130,
    record: 7,
    field: Some("63"),
};

const AT_131: Written = Written {
    time: 131,
    record: 101,
    field: Some("65"),
};

const AT_132: Written = Written {
    time: 132,
    record: 102,
    field: Some("66"),
};

const AT_133: Written = Written {
    time: 133,
    record: 103,
    field: Some("67"),
};

const AT_134: Written = Written {
    time: 134,
    record: 104,
    field: Some("68"),
};

const AT_135: Written = Written {
    time: 135,
    record: 105,
    field: Some("69"),
};

const AT_136: Written = Written {
    time: 136,
    record: 106,
    field: Some("6a"),
};

const AT_140: Written = Written {
    time: 140,
    record: 7,
    field: Some("64"),
};

/// What is published up to each time, and with the commit behind a stop.
const UP_TO_130: &[Written] = &[AT_100, AT_110, AT_120, AT_130];

const UP_TO_131: &[Written] = &[AT_100, AT_110, AT_120, AT_130, AT_131];

const UP_TO_132: &[Written] = &[AT_100, AT_110, AT_120, AT_130, AT_131, AT_132];

const UP_TO_133: &[Written] = &[AT_100, AT_110, AT_120, AT_130, AT_131, AT_132, AT_133];

const UP_TO_134: &[Written] = &[
    AT_100, AT_110, AT_120, AT_130, AT_131, AT_132, AT_133, AT_134,
];

const UP_TO_136: &[Written] = &[
    AT_100, AT_110, AT_120, AT_130, AT_131, AT_132, AT_133, AT_134, AT_135, AT_136,
];

const AFTER_130: &[Written] = &[AT_100, AT_110, AT_120, AT_130, AT_140];

const AFTER_131: &[Written] = &[AT_100, AT_110, AT_120, AT_130, AT_131, AT_140];

const AFTER_132: &[Written] = &[AT_100, AT_110, AT_120, AT_130, AT_131, AT_132, AT_140];

const AFTER_133: &[Written] = &[
    AT_100, AT_110, AT_120, AT_130, AT_131, AT_132, AT_133, AT_140,
];

const AFTER_134: &[Written] = &[
    AT_100, AT_110, AT_120, AT_130, AT_131, AT_132, AT_133, AT_134, AT_140,
];

const AFTER_136: &[Written] = &[
    AT_100, AT_110, AT_120, AT_130, AT_131, AT_132, AT_133, AT_134, AT_135, AT_136, AT_140,
];

/// The commit behind a stop, which replaces the value of before, once it has begun.
const COMMIT: &str = "put t 1 7 64 | ok
submit t 9 140 | queued
pump | wrote extent
pump | heap synced
pump | body written
pump | body synced
pump | gate written
pump | published 1
redeem t | done 140
";

/// Without an archive there is nothing to reclaim.
const NOTHING: &str = "reclaim | refused: nothing to do\n";

/// The archive's versions go from the heap.
const RECLAIM: &str = "reclaim | started
job | heap synced
job | body written
job | body synced
job | gate written
job | job done
";

/// What is done behind each gate. Without a reclaim the commit takes the extent behind the last one; with it
/// the first three are free, and it takes the first.
const AGAIN_NONE: Again = Again {
    parts: &[(NOTHING, 1), ("begin t | snapshot 130\n", 1), (COMMIT, 1)],
    records: RECORDS,
    fronts: &[UP_TO_130, AFTER_130],
    slot: (
        2560,
        "c7 01 01 00 04000000 0900000000000000 8c00000000000000 05000000 01000000 01000000 ..z 476",
    ),
};

const AGAIN_FIRST: Again = Again {
    parts: &[(NOTHING, 1), ("begin t | snapshot 131\n", 1), (COMMIT, 1)],
    records: RECORDS,
    fronts: &[UP_TO_131, AFTER_131],
    slot: (
        3072,
        "c7 01 01 00 05000000 0900000000000000 8c00000000000000 06000000 01000000 01000000 ..z 476",
    ),
};

const AGAIN_SECOND: Again = Again {
    parts: &[(NOTHING, 1), ("begin t | snapshot 132\n", 1), (COMMIT, 1)],
    records: RECORDS,
    fronts: &[UP_TO_132, AFTER_132],
    slot: (
        3584,
        "c7 01 01 00 06000000 0900000000000000 8c00000000000000 07000000 01000000 01000000 ..z 476",
    ),
};

const AGAIN_THIRD: Again = Again {
    parts: &[(NOTHING, 1), ("begin t | snapshot 133\n", 1), (COMMIT, 1)],
    records: RECORDS,
    fronts: &[UP_TO_133, AFTER_133],
    slot: (
        4096,
        "c7 01 01 00 07000000 0900000000000000 8c00000000000000 08000000 01000000 01000000 ..z 476",
    ),
};

const AGAIN_ARCHIVE: Again = Again {
    parts: &[(RECLAIM, 1), ("begin t | snapshot 133\n", 1), (COMMIT, 1)],
    records: RECORDS,
    fronts: &[UP_TO_133, UP_TO_133, AFTER_133],
    slot: (
        5120,
        "c7 01 01 00 09000000 0900000000000000 8c00000000000000 01000000 01000000 01000000 ..z 476",
    ),
};

const AGAIN_FOURTH: Again = Again {
    parts: &[(RECLAIM, 1), ("begin t | snapshot 134\n", 1), (COMMIT, 1)],
    records: RECORDS,
    fronts: &[UP_TO_134, UP_TO_134, AFTER_134],
    slot: (
        5632,
        "c7 01 01 00 0a000000 0900000000000000 8c00000000000000 01000000 01000000 01000000 ..z 476",
    ),
};

const AGAIN_ALL: Again = Again {
    parts: &[(RECLAIM, 1), ("begin t | snapshot 136\n", 1), (COMMIT, 1)],
    records: RECORDS,
    fronts: &[UP_TO_136, UP_TO_136, AFTER_136],
    slot: (
        6144,
        "c7 01 01 00 0b000000 0900000000000000 8c00000000000000 01000000 01000000 01000000 ..z 476",
    ),
};

/// At each of the 37 calls the machine stops.
const WITHIN: &[Sweep] = &[Sweep {
    name: "a_stop_within_an_archive_beside_commits",
    profiles: Each,
    before: BEFORE,
    parts: &[(ARCHIVE_AND_COMMITS, 1)],
    calls: 37,
    stops: true,
    failed: "",
    gate: Some("| gate written"),
    fronts: &[
        &[Has(RECORDS, UP_TO_130)],
        &[Has(RECORDS, UP_TO_131)],
        &[Has(RECORDS, UP_TO_132)],
        &[Has(RECORDS, UP_TO_133)],
        &[Has(RECORDS, UP_TO_133)],
        &[Has(RECORDS, UP_TO_134)],
        &[Has(RECORDS, UP_TO_136)],
    ],
}];

/// Before each of them and behind the last it stops, and what is left goes on.
const BETWEEN: &[Sweep] = &[Sweep {
    name: "a_second_stop_behind_an_archive_beside_commits",
    profiles: Each,
    before: BEFORE,
    parts: &[(ARCHIVE_AND_COMMITS, 1)],
    calls: 37,
    stops: true,
    failed: "",
    gate: Some("| gate written"),
    fronts: &[
        &[Has(RECORDS, UP_TO_130), StopsAtEach(Reached::Nothing)],
        &[Has(RECORDS, UP_TO_131), StopsAtEach(Reached::One)],
        &[Has(RECORDS, UP_TO_132), StopsAtEach(Reached::Two)],
        &[Has(RECORDS, UP_TO_133), StopsAtEach(Reached::Three)],
        &[Has(RECORDS, UP_TO_133), StopsAtEach(Reached::Archive)],
        &[Has(RECORDS, UP_TO_134), StopsAtEach(Reached::Four)],
        &[Has(RECORDS, UP_TO_136), StopsAtEach(Reached::All)],
    ],
}];

fn again_none() -> Again {
    AGAIN_NONE
}

fn again_first() -> Again {
    AGAIN_FIRST
}

fn again_second() -> Again {
    AGAIN_SECOND
}

fn again_third() -> Again {
    AGAIN_THIRD
}

fn again_archive() -> Again {
    AGAIN_ARCHIVE
}

fn again_fourth() -> Again {
    AGAIN_FOURTH
}

fn again_all() -> Again {
    AGAIN_ALL
}

/// What goes on behind a stop, by what had been reached.
pub fn again_behind(reached: Reached) -> Again {
    match reached {
        Reached::Nothing => again_none(),
        Reached::One => again_first(),
        Reached::Two => again_second(),
        Reached::Three => again_third(),
        Reached::Archive => again_archive(),
        Reached::Four => again_fourth(),
        Reached::All => again_all(),
    }
}

/// Without a stop: three commits before the archive's slot, one behind it, and two that share a slot.
const NO_STOP: &[Example] = &[Example {
    name: "an_archive_among_commits",
    profiles: Each,
    steps: &[
        New(16),
        Says(FOUR_COMMITS),
        Says(ARCHIVE_AND_COMMITS),
        Dumps(
            "header 16 pieces 0
slot 0 commit
member 1 100 1 1 1 1970-01-01T00:00:00Z
slot 1 commit
member 2 110 2 1 1 1970-01-01T00:00:00Z
slot 2 commit
member 3 120 3 1 1 1970-01-01T00:00:00Z
slot 3 commit
member 4 130 4 1 1 1970-01-01T00:00:00Z
slot 4 commit
member 11 131 5 1 1 1970-01-01T00:00:00Z
slot 5 commit
member 12 132 6 1 1 1970-01-01T00:00:00Z
slot 6 commit
member 13 133 7 1 1 1970-01-01T00:00:00Z
slot 7 archived 120 0 74 2
slot 8 commit
member 14 134 8 1 1 1970-01-01T00:00:00Z
slot 9 commit
member 15 135 9 1 1 1970-01-01T00:00:00Z
member 16 136 10 1 1 1970-01-01T00:00:00Z
used 10 of 16
",
            0,
        ),
    ],
}];

#[test]
fn commits_go_on_beside_an_archive(rt: HostRuntime) -> Result<(), Fail> {
    each_goes(rt.alloc(), NO_STOP)
}

#[test]
fn a_stop_within_a_call_leaves_all_or_nothing(rt: HostRuntime) -> Result<(), Fail> {
    each_sweep_goes(rt.alloc(), WITHIN, false)
}

#[test]
fn a_second_stop_leaves_all_or_nothing(rt: HostRuntime) -> Result<(), Fail> {
    each_goes_between(rt.alloc(), BETWEEN)
}
