//! Runs of old versions, as they are written piece by piece.
use crate::archived_runs::{Archived, read_archive};
use crate::area_bytes::holds;
use crate::list_walk::ListWalk;
use crate::worked_bytes::{KEY, RUN_BYTES, two_records};
use archive::{ArchiveReader, Head, RunEntry, RunWriter};
use disk::{Area, Disk, MemDisk};
use floors::Floors;
use history::Key;
use std::alloc::Global;
use wire::{Run, Value, ValueFault};

/// A version of a key with these fields.
fn version(
    alloc: Global,
    key: Key,
    (from, to): (u64, u64),
    fields: &[&[u8]],
) -> Result<(Head, Value), ValueFault> {
    let head = Head { key, from, to };
    Ok((head, Value::new(alloc, fields)?))
}

/// Two records of the key: from 100 to 110, and from there to 120.
fn two(alloc: Global, first: &[&[u8]], second: &[&[u8]]) -> Result<[(Head, Value); 2], ValueFault> {
    let first = version(alloc, KEY, (100, 110), first)?;
    let second = version(alloc, KEY, (110, 120), second)?;
    Ok([first, second])
}

const LONGEST: &[u8] = &[0x61; 255];

/// Writes a piece of a run: whether it is made, and so many bytes are left and calls made then.
fn writes(writer: &mut RunWriter<ListWalk<'_>>, disk: &mut MemDisk, left: u64, calls: u64) -> bool {
    writer.write_piece(disk).is_ok() && writer.left() == left && disk.made() == calls
}

/// What a run of two records shows, their fields, how many bytes it has, and what is left and how many
/// calls are made once each of two pieces is written.
#[derive(Clone, Copy)]
struct Written(
    &'static str,
    [&'static [&'static [u8]]; 2],
    u64,
    [(u64, u64); 2],
);

const WRITTEN: &[Written] = &[
    Written("one piece", [&[b"a"], &[b"b"]], 74, [(0, 1), (0, 1)]),
    // Each record has 4,123 bytes.
    Written(
        "two pieces",
        [&[LONGEST; 16], &[LONGEST; 16]],
        8262,
        [(70, 1), (0, 2)],
    ),
];

/// Whether a run of these records is written so.
fn is_written(records: &[(Head, Value)], disk: &mut MemDisk, row: &Written) -> bool {
    let Some(mut writer) = RunWriter::new(ListWalk::new(records), 0) else {
        return false;
    };
    let [(first, first_calls), (second, second_calls)] = row.3;
    writer.records() == 2
        && writer.left() == row.2
        && writes(&mut writer, disk, first, first_calls)
        && writes(&mut writer, disk, second, second_calls)
}

/// Whether a row's run is written, and the archive is as long then.
fn is_right(alloc: Global, disk: &mut MemDisk, row: &Written) -> bool {
    let [first, second] = row.1;
    match two(alloc, first, second) {
        Ok(records) => { is_written(&records, disk, row) && disk.len(Area::Archive) == Ok(row.2) }
        Err(_) => false,
    }
}

#[test]
fn runs_are_written_piece_by_piece(rt: HostRuntime) {
    for row in WRITTEN {
        let mut disk = MemDisk::new(rt.alloc());
        assert!(rt; is_right(rt.alloc(), &mut disk, row), "{}", row.0);
    }
}

#[test]
fn a_run_is_written_byte_for_byte(rt: HostRuntime) {
    let mut disk = MemDisk::new(rt.alloc());
    let right = is_right(rt.alloc(), &mut disk, &WRITTEN[0]);
    assert!(rt; right && holds(&mut disk, Area::Archive, &RUN_BYTES));
}

/// Whether a run of two records of 37 bytes each may start at a place.
fn may_start(alloc: Global, start: u64) -> bool {
    match two(alloc, &[b"a"], &[b"b"]) {
        Ok(records) => RunWriter::new(ListWalk::new(&records), start).is_some(),
        Err(_) => false,
    }
}

#[test]
fn no_run_ends_past_the_last_place(rt: HostRuntime) {
    let end = 1 << 63;
    assert!(rt; !may_start(rt.alloc(), end - 74) && may_start(rt.alloc(), end - 75));
}

/// A run behind that of two records, of one record of a lesser key.
fn later() -> RunEntry {
    RunEntry {
        slot: Run {
            upto: 130,
            start: 74,
            len: 37,
            records: 1,
        },
        mark: 120,
        floors: Floors::none(),
    }
}

const LESSER: Key = Key {
    relation: 1,
    record: 3,
};

/// Writes that run behind the other one on a disk; whether that is made.
fn adds_later(alloc: Global, disk: &mut MemDisk) -> bool {
    let Ok(record) = version(alloc, LESSER, (110, 130), &[b"x"]) else {
        return false;
    };
    let records = [record];
    match RunWriter::new(ListWalk::new(&records), 74) {
        Some(mut writer) => writer.write_piece(disk).is_ok(),
        None => false,
    }
}

/// Whether a scan of both runs up to 200 shows so many rows, the first of which is of record 3.
fn scans(reader: &mut ArchiveReader, disk: &mut MemDisk, from: u64, count: usize) -> bool {
    let runs = [two_records(), later()];
    match reader.scan(disk, &runs, 1, from, 200) {
        Ok(rows) => rows.len() == count && matches!(rows.first(), Some((3, _))),
        Err(_) => false,
    }
}

#[test]
fn scans_of_several_runs_are_merged(rt: HostRuntime) {
    let Some(mut archived) = read_archive(rt.alloc(), &RUN_BYTES) else {
        panic!(rt; "no memory");
    };
    let Archived { reader, disk } = &mut archived;
    let right = adds_later(rt.alloc(), disk)
        && scans(reader, disk, 100, 3)
        && scans(reader, disk, 120, 1);
    assert!(rt; right);
}
