//! Queries of a view whose versions are in memory, in the archive, or in both.
use crate::archived_runs::{Archived, read_archive};
use crate::version_walks::one_key;
use crate::worked_bytes::{KEY, RUN_BYTES, two_records};
use archive::ArchiveReader;
use chains::SharedValue;
use disk::MemDisk;
use floors::Floors;
use history::Version;
use std::alloc::{AllocError, Global};
use timequery::{QueryFault, Runs, View};

/// From when on a version stands, up to when, and the byte of its one field.
type Part = (u64, u64, u8);

/// What stands of record 7 at a time: a from 100 on, b from 110 on, none from 120 on and c from 130 on.
const STANDING: &[(u64, Option<u8>)] = &[
    (100, Some(b'a')),
    (109, Some(b'a')),
    (110, Some(b'b')),
    (119, Some(b'b')),
    (120, None),
    (129, None),
    (130, Some(b'c')),
];

/// Its rows from one time up to another.
const ROWS: &[(u64, u64, &[Part])] = &[
    (
        100,
        131,
        &[(100, 110, b'a'), (110, 120, b'b'), (130, 131, b'c')],
    ),
    (105, 115, &[(105, 110, b'a'), (110, 115, b'b')]),
    (112, 118, &[(112, 118, b'b')]),
    (109, 110, &[(109, 110, b'a')]),
    (120, 130, &[]),
    (119, 131, &[(119, 120, b'b'), (130, 131, b'c')]),
];

/// The marks up to which the heap and memory gave up what the archive has.
const MARKS: &[u64] = &[110, 120];

/// The one byte of a value of one field.
fn byte_of(value: &SharedValue) -> u8 {
    match value.value().field(0) {
        Some([byte]) => *byte,
        _ => 0,
    }
}

/// Whether the answer is a value of this one byte, or none.
fn is_found(answer: &Result<Option<SharedValue>, QueryFault>, want: Option<u8>) -> bool {
    match answer {
        Ok(Some(value)) => want == Some(byte_of(value)),
        Ok(None) => want.is_none(),
        Err(_) => false,
    }
}

/// Whether the answer is the one record that has this value, or no record.
fn is_listed(answer: &Result<Vec<(u64, SharedValue)>, QueryFault>, want: Option<u8>) -> bool {
    let Ok(list) = answer else {
        return false;
    };
    match list.as_slice() {
        [] => want.is_none(),
        [row] => want == Some(byte_of(&row.1)),
        _ => false,
    }
}

fn is_row(row: &Version<SharedValue>, part: &Part) -> bool {
    row.from == part.0 && row.to == part.1 && byte_of(&row.value) == part.2
}

/// Whether these are the rows of record 7.
fn are_rows(answer: &Result<Vec<(u64, Version<SharedValue>)>, QueryFault>, parts: &[Part]) -> bool {
    let Ok(rows) = answer else {
        return false;
    };
    for (place, row) in rows.iter().enumerate() {
        let Some(part) = parts.get(place) else {
            return false;
        };
        if row.0 != 7 || !is_row(&row.1, part) {
            return false;
        }
    }
    rows.len() == parts.len()
}

fn are_key_rows(answer: &Result<Vec<Version<SharedValue>>, QueryFault>, parts: &[Part]) -> bool {
    let Ok(rows) = answer else {
        return false;
    };
    for (place, row) in rows.iter().enumerate() {
        let Some(part) = parts.get(place) else {
            return false;
        };
        if !is_row(row, part) {
            return false;
        }
    }
    rows.len() == parts.len()
}

/// A view over the run of two records, of a store that has reclaimed up to this mark.
fn reclaimed(alloc: Global, mark: u64) -> Result<View, AllocError> {
    let mut runs = Vec::new(alloc);
    runs.push(two_records())?;
    let runs = Runs::from_vec(alloc, runs)?;
    let state = one_key(alloc)?.forget(alloc, mark)?;
    Ok(View::new(3, 130, Floors::none(), state).with_archive(mark, runs))
}

/// Whether a view from a mark on says that this stands at a time, of the key and of its relation.
fn stands(
    alloc: Global,
    Archived { reader, disk }: &mut Archived,
    mark: u64,
    time: u64,
    want: Option<u8>,
) -> bool {
    let Ok(view) = reclaimed(alloc, mark) else {
        return false;
    };
    let found = view.value_at(reader, disk, KEY, time);
    let listed = view.values_at(alloc, reader, disk, 1, time);
    view.spend();
    is_found(&found, want) && is_listed(&listed, want)
}

#[test]
fn both_homes_say_what_stood_at_a_time(rt: HostRuntime) {
    let Some(mut archived) = read_archive(rt.alloc(), &RUN_BYTES) else {
        panic!(rt; "no memory");
    };
    for mark in MARKS {
        for (time, want) in STANDING {
            let right = stands(rt.alloc(), &mut archived, *mark, *time, *want);
            assert!(rt; right, "{mark} {time}");
        }
    }
}

/// Whether a view from a mark on has these rows, of the key and of its relation.
fn has_rows(
    alloc: Global,
    Archived { reader, disk }: &mut Archived,
    mark: u64,
    (a, b, parts): &(u64, u64, &[Part]),
) -> bool {
    let Ok(view) = reclaimed(alloc, mark) else {
        return false;
    };
    let rows = view.rows_between(alloc, reader, disk, KEY, *a, *b);
    let listed = view.scan_rows_between(alloc, reader, disk, 1, *a, *b);
    view.spend();
    are_key_rows(&rows, parts) && are_rows(&listed, parts)
}

#[test]
fn a_version_in_both_homes_is_shown_once(rt: HostRuntime) {
    let Some(mut archived) = read_archive(rt.alloc(), &RUN_BYTES) else {
        panic!(rt; "no memory");
    };
    for mark in MARKS {
        for row in ROWS {
            let right = has_rows(rt.alloc(), &mut archived, *mark, row);
            assert!(rt; right, "{mark} {} {}", row.0, row.1);
        }
    }
}

/// Whether the value at a time is this, and of the archive some heads are read, or none.
fn is_read(
    alloc: Global,
    view: &View,
    disk: &mut MemDisk,
    (time, want, reads): (u64, u8, bool),
) -> bool {
    let mut reader = ArchiveReader::without_cache(alloc);
    let found = view.value_at(&mut reader, disk, KEY, time);
    let heads = reader.heads();
    is_found(&found, Some(want)) && heads <= 3 && (heads > 0) == reads
}

/// Whether memory alone has the value at a time, where it is this one; else the disk is needed.
fn is_recent(view: &View, time: u64, want: Option<u8>) -> bool {
    match view.recent(KEY, time) {
        Ok(Some(value)) => want == Some(byte_of(value)),
        Err(QueryFault::NeedsDisk) => want.is_none(),
        _ => false,
    }
}

/// Whether all that is so of a view from 110 on.
fn reads_below_the_mark(alloc: Global, disk: &mut MemDisk) -> bool {
    let Ok(view) = reclaimed(alloc, 110) else {
        return false;
    };
    let right = is_read(alloc, &view, disk, (110, b'b', false))
        && is_read(alloc, &view, disk, (109, b'a', true))
        && is_recent(&view, 109, None)
        && is_recent(&view, 110, Some(b'b'));
    view.spend();
    right
}

#[test]
fn from_the_reclaim_mark_on_no_run_is_read(rt: HostRuntime) {
    let Some(mut archived) = read_archive(rt.alloc(), &RUN_BYTES) else {
        panic!(rt; "no memory");
    };
    assert!(rt; reads_below_the_mark(rt.alloc(), &mut archived.disk));
}
