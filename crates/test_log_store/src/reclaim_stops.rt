//! What a stop leaves of a reclaim, at each of its device calls, and a second one of what the first left.
use crate::images::{Left, disk_of};
use crate::on_disk::{are_alike, finishes, has_bytes, opened};
use crate::queries::is_value;
use disk::{Area, Disk, Fault, FaultDisk, MemDisk};
use history::Key;
use log_store::{LogStore, StartFault};
use std::alloc::Global;
use std::process::Abort;
use std::test::Fail;
use timequery::QueryFault;

const SEVEN: Key = Key {
    relation: 1,
    record: 7,
};

/// What record 7 tells at a time.
#[derive(Clone, Copy)]
enum Told {
    Value(&'static [u8]),
    Nothing,
    /// It is kept from 130 on.
    Before,
}

const ALL: &[(u64, Told)] = &[
    (99, Told::Nothing),
    (100, Told::Value(b"a")),
    (109, Told::Value(b"a")),
    (110, Told::Value(b"b")),
    (119, Told::Value(b"b")),
    (120, Told::Nothing),
    (129, Told::Nothing),
    (130, Told::Value(b"c")),
];

const FLOORED: &[(u64, Told)] = &[(129, Told::Before), (130, Told::Value(b"c"))];

/// The image on which a reclaim begins, what record 7 tells there and behind it, and the image that the reclaim leaves.
struct Case(Left, &'static [(u64, Told)], Left);

const CASES: &[Case] = &[
    Case(Left::Archived, ALL, Left::Reclaimed),
    Case(Left::ArchivedAgain, ALL, Left::ReclaimedAgain),
    Case(Left::Floored, FLOORED, Left::FloorsReclaimed),
];

/// More calls than an opening and a reclaim make, reads among them.
const CALLS: u64 = 32;

/// Whether the write that is refused reaches the disk, and the byte that torn places have.
const STOPS: &[(bool, u8)] = &[(false, 0), (true, 0), (true, 0xc7), (true, 0xff)];

fn is_told<D: Disk>(store: &mut LogStore<D>, time: u64, told: Told) -> bool {
    let Ok(view) = store.view() else {
        return false;
    };
    let found = store.at(&view, SEVEN, time);
    store.end(view);
    match (found, told) {
        (Ok(Some(value)), Told::Value(field)) => is_value(&value, field),
        (Ok(None), Told::Nothing) => true,
        (Err(QueryFault::BeforeKept(kept)), Told::Before) => kept == 130,
        _ => false,
    }
}

fn tells<D: Disk>(store: &mut LogStore<D>, all: &[(u64, Told)]) -> bool {
    for (time, told) in all {
        if !is_told(store, *time, *told) {
            return false;
        }
    }
    store.last() == 130
}

// What a stop at a device call leaves of a disk on which a store is opened and reclaimed, unless it is already; and whether the reclaim was
// done before the stop.
fn left_of(
    alloc: Global,
    disk: MemDisk,
    calls: u64,
    (write_reaches, fill): (bool, u8),
) -> Result<(MemDisk, bool), Fail> {
    let fault = Fault {
        calls_before: calls,
        write_reaches,
        stops: true,
    };
    match LogStore::open(alloc, FaultDisk::new(disk, fault), 2) {
        Err((_, disk)) => Ok((disk.left(alloc, fill, b"")?, false)),
        Ok(mut store) => {
            let is_done = match store.reclaim_start() {
                Ok(()) => finishes(&mut store),
                Err(fault) => fault == StartFault::NothingToDo,
            };
            Ok((store.close().left(alloc, fill, b"")?, is_done))
        }
    }
}

// A turn gate that is not open gets the byte that a store closes it with: a stop may leave another.
fn close_turn(rt: &impl Abort, disk: &mut MemDisk) {
    if !has_bytes(disk, Area::Status, 16, &[0xc7]) {
        assert!(rt; disk.write_at(Area::Status, 16, &[0]).is_ok());
    }
}

// The store answers as ever, and is reclaimed if that was done, or may be. Then it is as if nothing had stopped it.
fn is_whole(
    rt: &impl Abort,
    alloc: Global,
    disk: MemDisk,
    case: &Case,
    is_done: bool,
) -> Result<(), Fail> {
    let mut store = opened(rt, alloc, disk);
    assert!(rt; tells(&mut store, case.1));
    match store.reclaim_start() {
        Ok(()) => assert!(rt; !is_done && finishes(&mut store)),
        Err(fault) => assert!(rt; fault == StartFault::NothingToDo),
    }
    assert!(rt; tells(&mut store, case.1));
    let mut disk = store.close();
    close_turn(rt, &mut disk);
    let mut want = disk_of(alloc, case.2, &[])?;
    assert!(rt; are_alike(alloc, &mut disk, &mut want));
    Ok(())
}

#[test]
fn a_stop_leaves_a_reclaim_or_nothing_of_it(rt: HostRuntime) -> Result<(), Fail> {
    for case in CASES {
        for calls in 0..CALLS {
            for stop in STOPS {
                let disk = disk_of(rt.alloc(), case.0, &[])?;
                let (disk, is_done) = left_of(rt.alloc(), disk, calls, *stop)?;
                is_whole(&rt, rt.alloc(), disk, case, is_done)?;
            }
        }
        let disk = disk_of(rt.alloc(), case.0, &[])?;
        let (_disk, is_done) = left_of(rt.alloc(), disk, CALLS, (true, 0))?;
        assert!(rt; is_done);
    }
    Ok(())
}

#[test]
fn a_second_stop_in_a_reclaim_does_too(rt: HostRuntime) -> Result<(), Fail> {
    for case in CASES {
        for calls in 0..CALLS {
            for more in 0..3 {
                let disk = disk_of(rt.alloc(), case.0, &[])?;
                let (disk, was_done) = left_of(rt.alloc(), disk, calls, (true, 0xc7))?;
                let (disk, is_done) = left_of(rt.alloc(), disk, calls + more, (false, 0xff))?;
                is_whole(&rt, rt.alloc(), disk, case, was_done || is_done)?;
            }
        }
    }
    Ok(())
}
