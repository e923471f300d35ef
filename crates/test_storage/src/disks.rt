//! Disks in memory: what is read, what a stop tears, and which calls are refused.
use crate::area_bytes::holds;
use disk::{Area, Disk, Fault, FaultDisk, MemDisk};
use std::alloc::{AllocError, Global};
use std::test::Fail;

/// A disk whose status area has four bytes.
fn four(alloc: Global) -> Result<MemDisk, AllocError> {
    Ok(MemDisk::with_bytes(b"abcd".to_vec(alloc)?, Vec::new(alloc), Vec::new(alloc)))
}

/// A call of a disk on one area, or what it is asked of all.
#[derive(Clone, Copy)]
enum Call {
    /// Two bytes are written at a place; whether that is made.
    Write(u16, &'static [u8; 2], bool),
    /// Whether it is made.
    Sync(bool),
    /// None where it is refused.
    Len(Option<u64>),
    /// How many writes and syncs were made, and how many calls refused.
    Counts(u64, u64),
}

fn is_answered<D: Disk>(disk: &mut D, area: Area, call: &Call) -> bool {
    match *call {
        Call::Write(at, bytes, made) => disk.write_at(area, at.into(), bytes).is_ok() == made,
        Call::Sync(made) => disk.sync(area).is_ok() == made,
        Call::Len(len) => disk.len(area).ok() == len,
        Call::Counts(made, refused) => disk.made() == made && disk.refused() == refused,
    }
}

/// Whether each call is answered so.
fn are_answered<D: Disk>(disk: &mut D, area: Area, calls: &[Call]) -> bool {
    for call in calls {
        if !is_answered(disk, area, call) {
            return false;
        }
    }
    true
}

const GAP: &[Call] = &[
    Call::Write(2, b"xy", true),
    Call::Sync(true),
    Call::Counts(2, 0),
];

#[test]
fn a_gap_reads_as_zeros(rt: HostRuntime) {
    let mut disk = MemDisk::new(rt.alloc());
    assert!(rt; are_answered(&mut disk, Area::Archive, GAP));
    assert!(rt; holds(&mut disk, Area::Archive, b"\0\0xy"));
}

/// Whether a stop leaves these bytes in an area.
fn leaves(left: Result<MemDisk, AllocError>, area: Area, bytes: &[u8]) -> bool {
    match left {
        Ok(mut disk) => holds(&mut disk, area, bytes),
        Err(_) => false,
    }
}

#[test]
fn a_stop_tears_what_was_written(rt: HostRuntime) -> Result<(), Fail> {
    let mut disk = four(rt.alloc())?;
    assert!(rt; are_answered(&mut disk, Area::Status, &[Call::Write(1, b"xy", true)]));
    let left = disk.left(rt.alloc(), 0xc7, b"z");
    assert!(rt; leaves(left, Area::Status, b"a\xc7\xc7dz"));
    assert!(rt; are_answered(&mut disk, Area::Status, &[Call::Sync(true)]));
    let left = disk.left(rt.alloc(), 0xc7, b"z");
    assert!(rt; leaves(left, Area::Status, b"axyd"));
    Ok(())
}

const REFUSED: Fault = Fault {
    calls_before: 2,
    write_reaches: false,
    stops: false,
};

/// The length, a sync, a write that is refused, and what is read.
const ONE_REFUSED: &[Call] = &[
    Call::Len(Some(4)),
    Call::Sync(true),
    Call::Write(1, b"xy", false),
    Call::Counts(2, 1),
];

/// A refused write that has reached nothing is torn by a stop all the same.
#[test]
fn a_refused_write_is_torn(rt: HostRuntime) -> Result<(), Fail> {
    let mut disk = FaultDisk::new(four(rt.alloc())?, REFUSED);
    assert!(rt; are_answered(&mut disk, Area::Status, ONE_REFUSED));
    assert!(rt; holds(&mut disk, Area::Status, b"abcd"));
    let left = disk.left(rt.alloc(), 0, b"");
    assert!(rt; leaves(left, Area::Status, b"a\0\0d"));
    Ok(())
}

const STOPPED: Fault = Fault {
    calls_before: 1,
    write_reaches: true,
    stops: true,
};

/// All calls behind the first are refused.
const ALL_REFUSED: &[Call] = &[
    Call::Sync(true),
    Call::Write(0, b"qq", false),
    Call::Len(None),
    Call::Sync(false),
    Call::Counts(3, 3),
];

#[test]
fn a_stopped_disk_refuses_all(rt: HostRuntime) -> Result<(), Fail> {
    let mut disk = FaultDisk::new(four(rt.alloc())?, STOPPED);
    assert!(rt; are_answered(&mut disk, Area::Heap, ALL_REFUSED));
    assert!(rt; leaves(disk.left(rt.alloc(), b'q', b""), Area::Heap, b""));
    Ok(())
}
