//! The status log: its header, its slots, and the rules that a slot must meet.
use crate::area_bytes::{begin_with, put, zeros};
use crate::worked_bytes::{COMMIT_BODY, HEADER, Said, body_of, profile_of};
use disk::{Area, Disk, MemDisk};
use status::{
    Header, LogFault, SlotFault, Stage, StatusLog, Step, decode_header, encode_header, is_built,
    read_header, read_log,
};
use std::alloc::{AllocError, Global};
use std::test::Fail;
use wire::{Anchors, Profile, Run};

/// The header of a new store of 16 slots.
fn header_of(profile: u32) -> Header {
    Header {
        profile: profile_of(profile),
        slots: 16,
        pieces: 0,
    }
}

/// A disk whose status area has so many bytes, that header and zeros, as far as it reaches.
fn disk_of(alloc: Global, profile: u32, len: usize) -> Result<MemDisk, AllocError> {
    let mut status = zeros(alloc, len)?;
    put(&mut status, 0, &encode_header(profile_of(profile), 16));
    Ok(MemDisk::with_bytes(status, Vec::new(alloc), Vec::new(alloc)))
}

/// Whether so long a status area has that header, or is no store.
fn reads(alloc: Global, len: usize, want: Result<Header, LogFault>) -> bool {
    match disk_of(alloc, 1, len) {
        Ok(mut disk) => read_header(&mut disk) == want,
        Err(_) => false,
    }
}

#[test]
fn a_header_is_read_from_its_bytes(rt: HostRuntime) {
    let no_store = Err(LogFault::NotAStore);
    assert!(rt;
        begin_with(&encode_header(profile_of(1), 16), &HEADER) && header_of(1).total() == 16
    );
    assert!(rt; reads(rt.alloc(), 511, no_store) && reads(rt.alloc(), 8703, no_store));
    assert!(rt; reads(rt.alloc(), 8704, Ok(header_of(1))));
}

#[test]
fn open_pieces_are_counted(rt: HostRuntime) {
    let mut front = encode_header(profile_of(2), 16);
    front[16] = 0xc7;
    front[18] = 0xc7;
    assert!(rt; matches!(decode_header(&front), Some(header) if header.total() == 272));
    front[271] = 1;
    assert!(rt; decode_header(&front).is_none());
}

/// A slot in all its device calls; its number, none where it is refused or takes more than four.
fn write_slot(log: &mut StatusLog, said: &Said, disk: &mut MemDisk) -> Option<u32> {
    let Ok(mut turn) = log.begin_slot(body_of(said)) else {
        return None;
    };
    for _ in 0..4 {
        match log.advance(turn, disk) {
            Ok(Step::Open(number)) => return Some(number),
            Ok(Step::More(next)) => turn = next,
            Err(_) => return None,
        }
    }
    turn.give_up();
    None
}

/// Whether slot 0 is that of one commit, and the others are closed.
fn has_one_commit(disk: &mut MemDisk) -> bool {
    let mut status = [0; 8704];
    matches!(disk.len(Area::Status), Ok(8704))
        && disk.read(Area::Status, 0, &mut status).is_ok()
        && status[512] == 0xc7
        && begin_with(&status[513..], &COMMIT_BODY)
}

/// How many slots are read, or why none are.
fn slots_read(alloc: Global, disk: &mut MemDisk, profile: u32) -> Result<usize, LogFault> {
    match read_log(alloc, disk, &header_of(profile)) {
        Ok(slots) => Ok(slots.len()),
        Err(fault) => Err(fault),
    }
}

#[test]
fn a_slot_is_written_byte_for_byte(rt: HostRuntime) -> Result<(), Fail> {
    let mut disk = disk_of(rt.alloc(), 1, 8704)?;
    let mut log = StatusLog::new(&header_of(1), 0);
    assert!(rt; write_slot(&mut log, &Said::Commit, &mut disk) == Some(0));
    assert!(rt; has_one_commit(&mut disk));
    assert!(rt; slots_read(rt.alloc(), &mut disk, 1) == Ok(1));
    Ok(())
}

/// What is done of the slot that is begun, and let be, or why none is.
fn begun(log: &mut StatusLog) -> Result<Stage, SlotFault> {
    let turn = log.begin_slot(body_of(&Said::Commit))?;
    let stage = turn.stage();
    turn.give_up();
    Ok(stage)
}

/// Whether a log has 16 slots of which so many are used, and one is in the writing.
fn has_used(log: &StatusLog, used: u32, is_writing: bool) -> bool {
    log.slots() == 16 && log.used() == used && log.is_writing() == is_writing
}

#[test]
fn one_slot_is_in_the_writing(rt: HostRuntime) {
    let mut log = StatusLog::new(&header_of(1), 15);
    assert!(rt; has_used(&log, 15, false));
    assert!(rt; begun(&mut log) == Ok(Stage::Begun));
    assert!(rt; begun(&mut log) == Err(SlotFault::Busy) && log.is_writing());
    let mut full = StatusLog::new(&header_of(1), 16);
    assert!(rt; begun(&mut full) == Err(SlotFault::StatusFull) && !full.is_writing());
}

const FIRST_RUN: Run = Run {
    upto: 60,
    start: 0,
    len: 40,
    records: 1,
};

const SECOND_RUN: Run = Run {
    upto: 100,
    start: 40,
    len: 74,
    records: 2,
};

const MARK_STAYS: Run = Run {
    upto: 60,
    ..SECOND_RUN
};

const PAST_LAST: Run = Run {
    upto: 101,
    ..SECOND_RUN
};

const AWAY: Run = Run {
    start: 1,
    ..FIRST_RUN
};

const BEHIND: Run = Run {
    start: 41,
    ..SECOND_RUN
};

/// A reclaim up to a mark that needs no anchors.
const UPTO_60: Anchors = Anchors {
    upto: 60,
    first: 0,
    extents: 0,
    records: 0,
};

const UPTO_59: Anchors = Anchors {
    upto: 59,
    ..UPTO_60
};

const UPTO_61: Anchors = Anchors {
    upto: 61,
    ..UPTO_60
};

const UPTO_100: Anchors = Anchors {
    upto: 100,
    ..UPTO_60
};

/// What a row shows, a store's profile, the slots behind one of a commit at 100, and how many slots
/// are read or why none are.
#[derive(Clone, Copy)]
struct Log(&'static str, u32, &'static [Said], Result<usize, LogFault>);

const FIRST: Result<usize, LogFault> = Err(LogFault::Damaged(1));

const SECOND: Result<usize, LogFault> = Err(LogFault::Damaged(2));

const THIRD: Result<usize, LogFault> = Err(LogFault::Damaged(3));

const RUNS: &[Log] = &[
    Log(
        "two runs",
        1,
        &[Said::Run(FIRST_RUN), Said::Run(SECOND_RUN)],
        Ok(3),
    ),
    Log(
        "the mark does not rise",
        1,
        &[Said::Run(FIRST_RUN), Said::Run(MARK_STAYS)],
        SECOND,
    ),
    Log(
        "it rises past the last commit",
        1,
        &[Said::Run(FIRST_RUN), Said::Run(PAST_LAST)],
        SECOND,
    ),
    Log(
        "the first run starts away from the front",
        1,
        &[Said::Run(AWAY)],
        FIRST,
    ),
    Log(
        "the second starts behind the first's end",
        1,
        &[Said::Run(FIRST_RUN), Said::Run(BEHIND)],
        SECOND,
    ),
];

const RECLAIMS: &[Log] = &[
    Log(
        "up to the archive mark",
        1,
        &[Said::Run(FIRST_RUN), Said::Reclaim(UPTO_60)],
        Ok(3),
    ),
    Log(
        "up to the mark of the last of two runs",
        1,
        &[
            Said::Run(FIRST_RUN),
            Said::Run(SECOND_RUN),
            Said::Reclaim(UPTO_100),
        ],
        Ok(4),
    ),
    Log(
        "short of the archive mark",
        1,
        &[Said::Run(FIRST_RUN), Said::Reclaim(UPTO_59)],
        SECOND,
    ),
    Log(
        "past the archive mark",
        1,
        &[Said::Run(FIRST_RUN), Said::Reclaim(UPTO_61)],
        SECOND,
    ),
    Log("nothing is archived", 1, &[Said::Reclaim(UPTO_100)], FIRST),
    Log(
        "twice without an archive between",
        1,
        &[
            Said::Run(FIRST_RUN),
            Said::Reclaim(UPTO_60),
            Said::Reclaim(UPTO_60),
        ],
        THIRD,
    ),
];

const FLOORS: &[Log] = &[
    Log(
        "two floors, up to the last commit",
        1,
        &[Said::Floor(None, 60), Said::Floor(None, 100)],
        Ok(3),
    ),
    Log(
        "the floor goes back",
        1,
        &[Said::Floor(None, 60), Said::Floor(None, 59)],
        SECOND,
    ),
    Log(
        "the floor does not rise",
        1,
        &[Said::Floor(None, 60), Said::Floor(None, 60)],
        SECOND,
    ),
    Log(
        "behind a floor that rose, one goes back",
        1,
        &[
            Said::Floor(None, 60),
            Said::Floor(None, 100),
            Said::Floor(None, 99),
        ],
        THIRD,
    ),
    Log(
        "the floor is past the last commit",
        1,
        &[Said::Floor(None, 101)],
        FIRST,
    ),
    Log("no floor is 0", 1, &[Said::Floor(None, 0)], FIRST),
];

const FLOORS_OF_RELATIONS: &[Log] = &[
    Log(
        "a lower floor of another relation",
        3,
        &[Said::Floor(Some(1), 60), Said::Floor(Some(2), 50)],
        Ok(3),
    ),
    Log(
        "the floor of a relation goes back",
        3,
        &[
            Said::Floor(Some(1), 60),
            Said::Floor(Some(2), 50),
            Said::Floor(Some(1), 59),
        ],
        THIRD,
    ),
    Log(
        "the floor of a relation does not rise",
        3,
        &[Said::Floor(Some(1), 60), Said::Floor(Some(1), 60)],
        SECOND,
    ),
    Log(
        "the least and the last relation",
        3,
        &[
            Said::Floor(Some(0), 60),
            Said::Floor(Some(65_535), 60),
            Said::Floor(Some(0), 61),
        ],
        Ok(4),
    ),
    Log(
        "a relation's floor is past the last commit",
        3,
        &[Said::Floor(Some(1), 101)],
        FIRST,
    ),
    Log(
        "no floor of a relation is 0",
        3,
        &[Said::Floor(Some(1), 0)],
        FIRST,
    ),
];

/// Whether each slot is written.
fn are_written(log: &mut StatusLog, slots: &[Said], disk: &mut MemDisk) -> bool {
    for said in slots {
        if write_slot(log, said, disk).is_none() {
            return false;
        }
    }
    true
}

/// Whether a row's slots are written, and then read or refused as it says.
fn keeps_its_rules(alloc: Global, row: &Log) -> bool {
    let Ok(mut disk) = disk_of(alloc, row.1, 8704) else {
        return false;
    };
    let mut log = StatusLog::new(&header_of(row.1), 0);
    are_written(&mut log, &[Said::Commit], &mut disk)
        && are_written(&mut log, row.2, &mut disk)
        && slots_read(alloc, &mut disk, row.1) == row.3
}

#[test]
fn slots_keep_their_rules(rt: HostRuntime) {
    for rows in [RUNS, RECLAIMS, FLOORS, FLOORS_OF_RELATIONS] {
        for row in rows {
            assert!(rt; keeps_its_rules(rt.alloc(), row), "{}", row.0);
        }
    }
}

/// Whether a profile has slots of kinds 1 to 4 and no others.
fn has_four_kinds(profile: u32) -> bool {
    for kind in 0..6 {
        if is_built(profile_of(profile), kind) != (kind != 0 && kind != 5) {
            return false;
        }
    }
    true
}

#[test]
fn all_slots_are_built_in_three_profiles(rt: HostRuntime) {
    assert!(rt; has_four_kinds(1) && has_four_kinds(2) && has_four_kinds(3));
    assert!(rt; Profile::of(0).is_none() && Profile::of(4).is_none());
}
