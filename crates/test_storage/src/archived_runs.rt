//! Runs of old versions, as they are searched and damaged.
use crate::area_bytes::put;
use crate::worked_bytes::{KEY, RUN_BYTES, two_records};
use archive::{ArchiveFault, ArchiveReader, RunEntry};
use disk::MemDisk;
use std::alloc::Global;
use wire::Value;

/// What is asked of the key, or of its relation.
#[derive(Clone, Copy)]
enum Query {
    /// The value at a time.
    Find(u64),
    /// The key's rows from one time up to another.
    Rows(u64, u64),
    /// The relation's rows.
    Scan(u64, u64),
}

/// What is answered, in short.
#[derive(Clone, Copy, PartialEq, Eq)]
enum Found {
    Nothing,
    /// A value of one field of one byte.
    Value(u8),
    OtherValue,
    /// How many rows there are, and when the first ends.
    Rows(usize, u64),
    /// How many rows there are, and the record of the first.
    Scan(usize, u64),
}

fn shown(value: &Value) -> Found {
    match value.field(0) {
        Some([byte]) => Found::Value(*byte),
        _ => Found::OtherValue,
    }
}

fn find(
    reader: &mut ArchiveReader,
    disk: &mut MemDisk,
    runs: &[RunEntry],
    time: u64,
) -> Result<Found, ArchiveFault> {
    match reader.find(disk, runs, &KEY, time)? {
        Some(value) => Ok(shown(&value)),
        None => Ok(Found::Nothing),
    }
}

fn rows(
    reader: &mut ArchiveReader,
    disk: &mut MemDisk,
    runs: &[RunEntry],
    a: u64,
    b: u64,
) -> Result<Found, ArchiveFault> {
    let rows = reader.rows(disk, runs, &KEY, a, b)?;
    match rows.first() {
        Some(first) => Ok(Found::Rows(rows.len(), first.to)),
        None => Ok(Found::Nothing),
    }
}

fn scan(
    reader: &mut ArchiveReader,
    disk: &mut MemDisk,
    runs: &[RunEntry],
    a: u64,
    b: u64,
) -> Result<Found, ArchiveFault> {
    let rows = reader.scan(disk, runs, KEY.relation, a, b)?;
    match rows.first() {
        Some((record, _)) => Ok(Found::Scan(rows.len(), *record)),
        None => Ok(Found::Nothing),
    }
}

fn ask(
    reader: &mut ArchiveReader,
    disk: &mut MemDisk,
    runs: &[RunEntry],
    query: Query,
) -> Result<Found, ArchiveFault> {
    match query {
        Query::Find(time) => find(reader, disk, runs, time),
        Query::Rows(a, b) => rows(reader, disk, runs, a, b),
        Query::Scan(a, b) => scan(reader, disk, runs, a, b),
    }
}

/// Queries, and what each is answered.
type Asked = &'static [(Query, Result<Found, ArchiveFault>)];

/// The place of the first query that is not answered as it should be.
fn first_wrong(
    reader: &mut ArchiveReader,
    disk: &mut MemDisk,
    runs: &[RunEntry],
    asked: Asked,
) -> Option<usize> {
    for (place, (query, want)) in asked.iter().enumerate() {
        if ask(reader, disk, runs, *query) != *want {
            return Some(place);
        }
    }
    None
}

/// A disk with these bytes as its archive.
pub fn disk_of(alloc: Global, archive: Vec<u8>) -> MemDisk {
    MemDisk::with_bytes(Vec::new(alloc), Vec::new(alloc), archive)
}

/// A reader, and a disk that has an archive.
#[derive(Drop)]
pub struct Archived {
    pub reader: ArchiveReader,
    pub disk: MemDisk,
}

/// A reader with a cache, and a disk with these bytes as its archive; none where memory is short.
pub fn read_archive(alloc: Global, bytes: &[u8]) -> Option<Archived> {
    let Ok(reader) = ArchiveReader::new(alloc) else {
        return None;
    };
    let Ok(bytes) = bytes.to_vec(alloc) else {
        return None;
    };
    Some(Archived {
        reader,
        disk: disk_of(alloc, bytes),
    })
}

/// The run of two records: a from 100 to 110, and b from 110 to 120.
const BY_TIMES: Asked = &[
    (Query::Find(99), Ok(Found::Nothing)),
    (Query::Find(109), Ok(Found::Value(b'a'))),
    (Query::Find(110), Ok(Found::Value(b'b'))),
    (Query::Rows(100, 131), Ok(Found::Rows(2, 110))),
    (Query::Rows(112, 115), Ok(Found::Rows(1, 115))),
    (Query::Rows(120, 130), Ok(Found::Nothing)),
    (Query::Scan(105, 121), Ok(Found::Scan(2, 7))),
    (Query::Scan(120, 121), Ok(Found::Nothing)),
];

/// Once the run has ended, no head of it is read.
const AFTER: Asked = &[(Query::Find(120), Ok(Found::Nothing))];

#[test]
fn a_run_answers_by_its_times(rt: HostRuntime) {
    let Some(mut archived) = read_archive(rt.alloc(), &RUN_BYTES) else {
        panic!(rt; "no memory");
    };
    let Archived { reader, disk } = &mut archived;
    let runs = [two_records()];
    assert_eq!(rt; first_wrong(reader, disk, &runs, BY_TIMES), None);
    let heads = reader.heads();
    assert!(rt; first_wrong(reader, disk, &runs, AFTER).is_none() && reader.heads() == heads);
}

const DAMAGED: Result<Found, ArchiveFault> = Err(ArchiveFault::Damaged(0));

const ALL_ROWS: Query = Query::Rows(100, 131);

const ALL_SCANNED: Query = Query::Scan(100, 131);

/// What becomes of the run where a byte of it is changed, and what is answered then.
#[derive(Clone, Copy)]
struct Change(&'static str, u16, u8, Asked);

const CHANGES: &[Change] = &[
    Change(
        "the first record has another place",
        58,
        1,
        &[
            (Query::Find(105), DAMAGED),
            (ALL_ROWS, DAMAGED),
            (ALL_SCANNED, DAMAGED),
            (Query::Find(120), Ok(Found::Nothing)),
        ],
    ),
    Change(
        "the second record has another place",
        66,
        0x1e,
        &[(Query::Find(105), DAMAGED)],
    ),
    Change(
        "it ends past the run",
        47,
        0x79,
        &[
            (Query::Find(105), DAMAGED),
            (ALL_ROWS, DAMAGED),
            (ALL_SCANNED, DAMAGED),
        ],
    ),
    Change(
        "it begins when it ends",
        39,
        0x78,
        &[(Query::Find(105), DAMAGED)],
    ),
    Change(
        "it begins just before it ends",
        39,
        0x77,
        &[(Query::Find(119), Ok(Found::Value(b'b')))],
    ),
    Change(
        "it begins before the first ends, seen where it is read right after the first",
        39,
        0x69,
        &[
            (ALL_ROWS, DAMAGED),
            (ALL_SCANNED, DAMAGED),
            (Query::Find(112), DAMAGED),
            (Query::Find(107), Ok(Found::Value(b'a'))),
        ],
    ),
    Change("it has a lesser key", 31, 6, &[(ALL_SCANNED, DAMAGED)]),
    Change(
        "its value has fewer bytes than fields, seen where it is read",
        55,
        2,
        &[
            (Query::Find(115), DAMAGED),
            (Query::Find(105), Ok(Found::Value(b'a'))),
        ],
    ),
    Change(
        "bytes stand behind its value",
        56,
        0,
        &[(Query::Find(115), DAMAGED)],
    ),
    Change(
        "the first value has no field, seen where it is read",
        26,
        0,
        &[
            (ALL_ROWS, DAMAGED),
            (ALL_SCANNED, DAMAGED),
            (Query::Rows(112, 115), Ok(Found::Rows(1, 115))),
            (Query::Scan(112, 115), Ok(Found::Scan(1, 7))),
        ],
    ),
];

/// Whether a reader answers so where the archive has the run's bytes and one of them changed.
fn answers(
    alloc: Global,
    reader: &mut ArchiveReader,
    (at, byte): (u16, u8),
    query: Query,
    want: Result<Found, ArchiveFault>,
) -> bool {
    let Ok(mut bytes) = RUN_BYTES.to_vec(alloc) else {
        return false;
    };
    put(&mut bytes, at, &[byte]);
    ask(reader, &mut disk_of(alloc, bytes), &[two_records()], query) == want
}

/// Whether two readers answer so, the one with a cache and the one without.
fn both_answer(
    alloc: Global,
    change: (u16, u8),
    query: Query,
    want: Result<Found, ArchiveFault>,
) -> bool {
    let Ok(mut reader) = ArchiveReader::new(alloc) else {
        return false;
    };
    answers(alloc, &mut reader, change, query, want)
        && answers(
            alloc,
            &mut ArchiveReader::without_cache(alloc),
            change,
            query,
            want,
        )
}

fn are_answered(alloc: Global, change: &Change) -> bool {
    for (query, want) in change.3 {
        if !both_answer(alloc, (change.1, change.2), *query, *want) {
            return false;
        }
    }
    true
}

#[test]
fn damage_is_told_where_it_is_read(rt: HostRuntime) {
    for change in CHANGES {
        assert!(rt; are_answered(rt.alloc(), change), "{}", change.0);
    }
}

#[test]
fn a_run_past_the_end_is_damaged(rt: HostRuntime) {
    let Some(mut archived) = read_archive(rt.alloc(), &RUN_BYTES[..73]) else {
        panic!(rt; "no memory");
    };
    let Archived { reader, disk } = &mut archived;
    assert!(rt; find(reader, disk, &[two_records()], 109) == DAMAGED);
}
