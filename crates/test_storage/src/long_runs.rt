//! Runs of many records: which of their heads and blocks a search reads.
use crate::archived_runs::disk_of;
use crate::area_bytes::put;
use archive::{ArchiveFault, ArchiveReader, RunEntry};
use disk::{Disk, Fault, FaultDisk};
use floors::Floors;
use history::Key;
use std::alloc::{AllocError, Global};
use std::test::Fail;
use wire::Run;

/// The record of the key (1, number), a from 100 to 110.
fn put_record(bytes: &mut Vec<u8>, number: u64) -> Result<(), AllocError> {
    bytes.extend_from_slice(&[1, 0])?;
    bytes.extend_from_slice(&number.to_le_bytes())?;
    bytes.extend_from_slice(b"\x64\0\0\0\0\0\0\0\x6e\0\0\0\0\0\0\0\x01\x01a")?;
    Ok(())
}

/// The bytes of a run of this many records of 29 bytes, of the keys (1, 0), (1, 1) and so on.
fn many(alloc: Global, count: u64) -> Result<Vec<u8>, AllocError> {
    let mut bytes = Vec::new(alloc);
    if count > 2000 {
        return Ok(bytes);
    }
    for number in 0..count {
        put_record(&mut bytes, number)?;
    }
    for number in 0..count {
        bytes.extend_from_slice(&(29 * number).to_le_bytes())?;
    }
    Ok(bytes)
}

/// A run of a thousand records of 29 bytes, in 10 blocks.
const THOUSAND: Run = Run {
    upto: 120,
    start: 0,
    len: 37_000,
    records: 1000,
};

const MORE: Run = Run {
    len: 37_888,
    records: 1024,
    ..THOUSAND
};

const NO_RECORD: Run = Run {
    len: 0,
    records: 0,
    ..THOUSAND
};

fn thousand() -> RunEntry {
    RunEntry {
        slot: THOUSAND,
        mark: 0,
        floors: Floors::none(),
    }
}

fn more() -> RunEntry {
    RunEntry {
        slot: MORE,
        mark: 0,
        floors: Floors::none(),
    }
}

fn no_record() -> RunEntry {
    RunEntry {
        slot: NO_RECORD,
        mark: 0,
        floors: Floors::none(),
    }
}

fn key_of(record: u64) -> Key {
    Key {
        relation: 1,
        record,
    }
}

/// Whether a reader finds the version of a key at 105 in such a run.
fn finds<D: Disk>(
    reader: &mut ArchiveReader,
    disk: &mut D,
    run: RunEntry,
    record: u64,
) -> Result<bool, ArchiveFault> {
    match reader.find(disk, &[run], &key_of(record), 105) {
        Ok(found) => Ok(found.is_some()),
        Err(fault) => Err(fault),
    }
}

/// Whether a reader finds a key's version in such a run, and the heads that it reads for that.
fn heads_read(alloc: Global, run: RunEntry, record: u64) -> Result<(bool, u64), ArchiveFault> {
    let Ok(bytes) = many(alloc, run.slot.records) else {
        return Err(ArchiveFault::NoMemory);
    };
    let mut reader = ArchiveReader::without_cache(alloc);
    match finds(&mut reader, &mut disk_of(alloc, bytes), run, record) {
        Ok(found) => Ok((found, reader.heads())),
        Err(fault) => Err(fault),
    }
}

#[test]
fn few_heads_are_read_of_many(rt: HostRuntime) {
    for hundred in 0..10u64 {
        let heads = heads_read(rt.alloc(), thousand(), 111 * hundred);
        assert!(rt;
            matches!(heads, Ok((true, n)) if n <= 11),
            "in hundred {hundred}"
        );
    }
    let heads = heads_read(rt.alloc(), more(), 1023);
    assert!(rt; matches!(heads, Ok((true, n)) if n <= 12));
    assert!(rt; heads_read(rt.alloc(), no_record(), 7) == Ok((false, 0)));
}

const SILENT: Fault = Fault {
    calls_before: 0,
    write_reaches: false,
    stops: true,
};

/// Whether the reader finds a version of the key (1, 700), and then again on a disk that refuses each
/// call, or not again.
fn finds_again(alloc: Global, reader: &mut ArchiveReader, again: bool) -> bool {
    let Ok(bytes) = many(alloc, 1000) else {
        return false;
    };
    let mut disk = disk_of(alloc, bytes);
    if finds(reader, &mut disk, thousand(), 700) != Ok(true) {
        return false;
    }
    let mut silent = FaultDisk::new(disk, SILENT);
    (finds(reader, &mut silent, thousand(), 700) == Ok(true)) == again
}

#[test]
fn kept_blocks_spare_every_read(rt: HostRuntime) -> Result<(), Fail> {
    assert!(rt; finds_again(rt.alloc(), &mut ArchiveReader::new(rt.alloc())?, true));
    assert!(rt;
        finds_again(
            rt.alloc(),
            &mut ArchiveReader::without_cache(rt.alloc()),
            false
        )
    );
    Ok(())
}

/// Whether the search of a key is answered so in a run of a thousand records whose third has no length
/// in time.
fn answers_beside_damage(alloc: Global, record: u64, want: Result<bool, ArchiveFault>) -> bool {
    let Ok(mut bytes) = many(alloc, 1000) else {
        return false;
    };
    put(&mut bytes, 2 * 29 + 18, &[100]);
    let Ok(mut reader) = ArchiveReader::new(alloc) else {
        return false;
    };
    finds(&mut reader, &mut disk_of(alloc, bytes), thousand(), record) == want
}

#[test]
fn a_head_that_no_look_reads_is_not_looked_at(rt: HostRuntime) {
    assert!(rt; answers_beside_damage(rt.alloc(), 700, Ok(true)));
    assert!(rt; answers_beside_damage(rt.alloc(), 2, Err(ArchiveFault::Damaged(0))));
}
