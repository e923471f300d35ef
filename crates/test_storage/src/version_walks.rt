//! What an archive and a reclaim are made of: walks over versions in memory.
ghost use Rattle.std.specs.Prelude.{◌<◌, ◌≤◌, ◌^◌, IfOk};
ghost use Rattle.chains.specs.KeyWrites.{latest};

use crate::area_bytes::holds;
use crate::worked_bytes::{KEY, RUN, RUN_BYTES};
use archive::{RecordWalk, RunWriter};
use chains::{Frozen, SharedValue};
use deltas::{ContentRef, EXTENT_LEN, ExtentCount, RecordSource, count_extents, fill_extent};
use disk::{Area, MemDisk};
use floors::Floors;
use history::{Key, KeyWrite, LAST_TIME};
use std::alloc::{AllocError, Global};
use std::test::Fail;
use vacuum::{AnchorSource, ArchiveWalk, Since, archive_run, laws};
use wire::{Run, Value};

/// The value of one field, or none, in the record of this number.
fn write_of(
    alloc: Global,
    number: u64,
    field: Option<&[u8]>,
) -> Result<KeyWrite<SharedValue>, AllocError> {
    let key = Key {
        relation: 1,
        record: number,
    };
    let Some(field) = field else {
        return Ok(KeyWrite { key, write: None });
    };
    let Ok(value) = Value::new(alloc, &[field]) else {
        return Err(AllocError);
    };
    let write = Some(SharedValue::new(value));
    Ok(KeyWrite { key, write })
}

/// The versions with one more write, and no later one.
fn written(
    alloc: Global,
    frozen: &Frozen,
    time: u64,
    number: u64,
    field: Option<&[u8]>,
) -> Result<Frozen, AllocError>
    requires later { latest frozen.now < time }
    requires in_range { time < 2 ^ 63 }
    ensures { IfOk result (λ f. latest f ≤ time) }
{
    let write = write_of(alloc, number, field)?;
    frozen.with_commit(alloc, time, &[write])
}

/// Commits of one record each: their times, which have to rise, the records, and the one field, none
/// where it is gone.
type Commits = &'static [(u64, u64, Option<&'static [u8]>)];

/// Record 7 is a from 100 on, b from 110 on, gone from 120 on and c from 130 on.
const ONE_KEY: Commits = &[
    (100, 7, Some(b"a")),
    (110, 7, Some(b"b")),
    (120, 7, None),
    (130, 7, Some(b"c")),
];

/// Record 7 is a from 100 on and b from 110 on, and record 8 is x from 105 on.
const TWO_KEYS: Commits = &[
    (100, 7, Some(b"a")),
    (105, 8, Some(b"x")),
    (110, 7, Some(b"b")),
];

/// What these commits leave; no memory also where their times do not rise.
fn commits(alloc: Global, commits: Commits) -> Result<Frozen, AllocError> {
    let mut frozen = Frozen::new();
    let mut last = 0;
    for (time, number, field) in commits {
        if *time <= last || *time > LAST_TIME {
            return Err(AllocError);
        }
        frozen = written(alloc, &frozen, *time, *number, *field)?;
        last = *time;
    }
    Ok(frozen)
}

pub fn one_key(alloc: Global) -> Result<Frozen, AllocError> {
    commits(alloc, ONE_KEY)
}

/// Record 7 is 1 from 10 on, 2 from 20 on and so forth up to 100 from 1,000 on, and record 9 is x
/// from 1,010 up to 1,020.
fn long_key(alloc: Global) -> Result<Frozen, AllocError> {
    let mut frozen = Frozen::new();
    for number in 1..101u8 {
        let time = u64::from(number) * 10;
        frozen = written(alloc, &frozen, time, 7, Some(&[number]))?;
    }
    let frozen = written(alloc, &frozen, 1010, 9, Some(b"x"))?;
    written(alloc, &frozen, 1020, 9, Some(b"y"))
}

#[derive(Clone, Copy)]
enum Versions {
    None,
    OneKey,
    TwoKeys,
    LongKey,
}

fn versions_of(alloc: Global, which: Versions) -> Result<Frozen, AllocError> {
    match which {
        Versions::None => Ok(Frozen::new()),
        Versions::OneKey => one_key(alloc),
        Versions::TwoKeys => commits(alloc, TWO_KEYS),
        Versions::LongKey => long_key(alloc),
    }
}

/// What ended by the mark, or by the floor of all relations, is left out.
fn since(mark: u64, floor: u64) -> Since {
    Since {
        mark,
        floors: Floors::of_every(floor),
    }
}

/// Whether the walk goes over these versions and then ends: record, from and to of each.
fn walks_over(walk: &mut ArchiveWalk, versions: &[(u64, u64, u64)]) -> bool {
    for version in versions {
        let Some((head, _)) = walk.peek() else {
            return false;
        };
        if (head.key.record, head.from, head.to) != *version {
            return false;
        }
        walk.advance(&head);
    }
    walk.peek().is_none()
}

/// A walk over what ended after the mark and by `upto`: record, from and to of each version.
#[derive(Clone, Copy)]
struct Walk {
    versions: Versions,
    mark: u64,
    upto: u64,
    want: &'static [(u64, u64, u64)],
}

const WALKS: &[Walk] = &[
    Walk {
        versions: Versions::OneKey,
        mark: 0,
        upto: 120,
        want: &[(7, 100, 110), (7, 110, 120)],
    },
    Walk {
        versions: Versions::LongKey,
        mark: 480,
        upto: 500,
        want: &[(7, 480, 490), (7, 490, 500)],
    },
    Walk {
        versions: Versions::LongKey,
        mark: 990,
        upto: 1020,
        want: &[(7, 990, 1000), (9, 1010, 1020)],
    },
];

/// Whether a row's walk goes over its versions, and again from its beginning.
fn walks_twice(alloc: Global, row: &Walk) -> bool {
    let Ok(versions) = versions_of(alloc, row.versions) else {
        return false;
    };
    let mut walk = ArchiveWalk::new(versions, since(row.mark, 0), row.upto);
    if !walks_over(&mut walk, row.want) {
        return false;
    }
    walk.restart();
    walks_over(&mut walk, row.want)
}

#[test]
fn a_walk_goes_over_what_ended_in_its_time(rt: HostRuntime) {
    for row in WALKS {
        assert!(rt; walks_twice(rt.alloc(), row), "up to {}", row.upto);
    }
}

/// Whether a run is written in one piece with its bytes, and named as its slot names it.
fn is_made(run: Run, writer: &mut RunWriter<ArchiveWalk>, disk: &mut MemDisk) -> bool {
    run == RUN
        && writer.write_piece(disk).is_ok()
        && writer.left() == 0
        && holds(disk, Area::Archive, &RUN_BYTES)
}

/// Whether the run up to 120 is made of the versions of one key.
fn is_made_of_one_key(alloc: Global, disk: &mut MemDisk) -> bool {
    let Ok(versions) = one_key(alloc) else {
        return false;
    };
    match archive_run(versions, since(0, 0), 120, 0) {
        Some((run, mut writer)) => is_made(run, &mut writer, disk),
        None => false,
    }
}

#[test]
fn a_run_is_made_of_versions(rt: HostRuntime) {
    laws::archive_is_walked();
    let mut disk = MemDisk::new(rt.alloc());
    assert!(rt; is_made_of_one_key(rt.alloc(), &mut disk));
}

/// A run that goes up to a time and starts at a place of the archive. What ended by the mark is left
/// out, and by the floor of one relation, or of all.
#[derive(Clone, Copy)]
struct RunCount {
    versions: Versions,
    mark: u64,
    floor: (Option<u16>, u64),
    upto: u64,
    start: u64,
}

/// Up to 120, of the record 7, from the front of the archive on.
const WHOLE: RunCount = RunCount {
    versions: Versions::OneKey,
    mark: 0,
    floor: (None, 0),
    upto: 120,
    start: 0,
};

const END: u64 = 1 << 63;

/// How many records such runs would have; none where they would end past the last place.
const COUNTS: &[(&str, RunCount, Option<u64>)] = &[
    ("the mark 109", RunCount { mark: 109, ..WHOLE }, Some(2)),
    ("the mark 110", RunCount { mark: 110, ..WHOLE }, Some(1)),
    (
        "the floor 110",
        RunCount {
            floor: (None, 110),
            ..WHOLE
        },
        Some(1),
    ),
    ("up to 119", RunCount { upto: 119, ..WHOLE }, Some(1)),
    (
        "up to 130",
        RunCount {
            mark: 120,
            upto: 130,
            ..WHOLE
        },
        Some(0),
    ),
    (
        "two keys up to 105",
        RunCount {
            versions: Versions::TwoKeys,
            upto: 105,
            ..WHOLE
        },
        Some(0),
    ),
    (
        "two keys up to 110",
        RunCount {
            versions: Versions::TwoKeys,
            upto: 110,
            ..WHOLE
        },
        Some(1),
    ),
    (
        "no key",
        RunCount {
            versions: Versions::None,
            upto: 110,
            ..WHOLE
        },
        Some(0),
    ),
    (
        "its relation's floor",
        RunCount {
            floor: (Some(1), 110),
            ..WHOLE
        },
        Some(1),
    ),
    (
        "another relation's floor",
        RunCount {
            floor: (Some(2), 110),
            ..WHOLE
        },
        Some(2),
    ),
    (
        "it ends past the last place",
        RunCount {
            start: END - 74,
            ..WHOLE
        },
        None,
    ),
    (
        "it ends at the last place",
        RunCount {
            start: END - 75,
            ..WHOLE
        },
        Some(2),
    ),
];

fn floors_of(alloc: Global, (scope, floor): (Option<u16>, u64)) -> Result<Floors, AllocError> {
    match scope {
        Some(_) => Floors::none().raised(alloc, scope, floor),
        None => Ok(Floors::of_every(floor)),
    }
}

/// How many records a run would have, where it is one and memory is not short.
fn counted(alloc: Global, row: &RunCount) -> Result<Option<u64>, AllocError> {
    let since = Since {
        mark: row.mark,
        floors: floors_of(alloc, row.floor)?,
    };
    match archive_run(
        versions_of(alloc, row.versions)?,
        since,
        row.upto,
        row.start,
    ) {
        Some((run, _)) => Ok(Some(run.records)),
        None => Ok(None),
    }
}

#[test]
fn marks_floors_and_places_bound_a_run(rt: HostRuntime) {
    for (what, row, want) in COUNTS {
        assert!(rt; counted(rt.alloc(), row) == Ok(*want), "{what}");
    }
}

/// The anchor records of two keys at 105.
const OLDS: [u8; 44] = [
    4, 1, 0, 7, 0, 0, 0, 0, 0, 0, 0, 0x64, 0, 0, 0, 0, 0, 0, 0, 1, 1, 0x61, 4, 1, 0, 8, 0, 0, 0, 0,
    0, 0, 0, 0x69, 0, 0, 0, 0, 0, 0, 0, 1, 1, 0x78,
];

/// Whether both anchors are counted, and fill an extent with their bytes.
fn fills_olds(source: &mut AnchorSource) -> bool {
    let needed = ExtentCount {
        extents: 1,
        records: 2,
    };
    if count_extents(source) != Some(needed) {
        return false;
    }
    source.restart();
    let mut image = [0xff; EXTENT_LEN];
    let filled = fill_extent(source, 1, 0, &mut image);
    filled.records == 2 && filled.used == 44 && &image[16..60] == OLDS.as_slice()
}

#[test]
fn anchors_stand_at_the_mark(rt: HostRuntime) -> Result<(), Fail> {
    laws::reclaim_is_walked();
    let mut source = AnchorSource::new(commits(rt.alloc(), TWO_KEYS)?, 105);
    assert!(rt; fills_olds(&mut source));
    Ok(())
}

/// From when the next anchor's value stands; none at the end.
fn next_from(source: &AnchorSource) -> Option<u64> {
    match source.peek()?.content {
        ContentRef::Old { from, .. } => Some(from),
        _ => None,
    }
}

/// Whether the anchors that are left stand from these times.
fn stand_from(source: &mut AnchorSource, times: &[u64]) -> bool {
    for time in times {
        if next_from(source) != Some(*time) {
            return false;
        }
        source.advance();
    }
    next_from(source).is_none()
}

/// From when the values stand that keys have at a mark.
const ANCHORS: &[(Versions, u64, &[u64])] = &[
    (Versions::OneKey, 120, &[]),
    (Versions::OneKey, 99, &[]),
    (Versions::OneKey, 119, &[110]),
    (Versions::LongKey, 1010, &[1000, 1010]),
];

fn has_anchors(alloc: Global, versions: Versions, mark: u64, times: &[u64]) -> bool {
    match versions_of(alloc, versions) {
        Ok(versions) => stand_from(&mut AnchorSource::new(versions, mark), times),
        Err(_) => false,
    }
}

#[test]
fn a_key_has_one_anchor_at_most(rt: HostRuntime) {
    for (versions, mark, times) in ANCHORS {
        assert!(rt;
            has_anchors(rt.alloc(), *versions, *mark, times),
            "at {mark}"
        );
    }
}
