//! Stores that are opened again, and what a stop leaves of one: at each device call of an opening and of a commit behind it.
use crate::on_disk::{ONE_EXTENT, new_store, pumps, queue};
use chains::SharedValue;
use disk::{Disk, Fault, FaultDisk, MemDisk};
use history::Key;
use log_store::{Did, LogStore};
use std::alloc::Global;
use std::process::Abort;
use std::test::Fail;

const SEVEN: Key = Key {
    relation: 1,
    record: 7,
};

// More calls than an opening and a commit make.
const CALLS: u64 = 48;

/// Whether the write that is refused reaches the disk, and the byte that torn places have.
const STOPS: &[(bool, u8)] = &[(false, 0), (true, 0), (true, 0xc7), (true, 0xff)];

fn opened<D: Disk>(rt: &impl Abort, alloc: Global, disk: D) -> LogStore<D> {
    match LogStore::open(alloc, disk, 2) {
        Ok(store) => store,
        Err((fault, _)) => panic!(rt; "{fault:?}"),
    }
}

// The disk of a store with record 7 put at 100.
fn with_one_commit(rt: &impl Abort, alloc: Global) -> MemDisk {
    let mut store = new_store(rt, alloc);
    queue(rt, alloc, &mut store, &[7], &[b"a"], 9).give_up();
    pumps(rt, &mut store, ONE_EXTENT);
    store.close()
}

fn is_value(value: &SharedValue, field: &[u8]) -> bool {
    value.value().len() == 1 && value.value().field(0) == Some(field)
}

// Whether record 7 had this value at a time.
fn was<D: Disk>(store: &mut LogStore<D>, time: u64, field: &[u8]) -> bool {
    let Ok(view) = store.view() else {
        return false;
    };
    let found = store.at(&view, SEVEN, time);
    store.end(view);
    match found {
        Ok(Some(value)) => is_value(&value, field),
        _ => false,
    }
}

#[test]
fn a_store_is_opened_with_its_commits(rt: HostRuntime) -> Result<(), Fail> {
    let mut store = opened(&rt, rt.alloc(), with_one_commit(&rt, rt.alloc()));
    assert!(rt; store.last() == 100);
    match store.times_of(9) {
        Ok(times) => assert!(rt; times.as_slice() == [100].as_slice()),
        Err(_) => panic!(rt; "no memory"),
    }
    assert!(rt; was(&mut store, 100, b"a"));
    let ticket = queue(&rt, rt.alloc(), &mut store, &[7], &[b"b"], 10);
    assert!(rt; ticket.time() == 101);
    ticket.give_up();
    pumps(&rt, &mut store, ONE_EXTENT);
    let mut store = opened(&rt, rt.alloc(), store.close());
    assert!(rt; store.last() == 101);
    assert!(rt; was(&mut store, 100, b"a"));
    assert!(rt; was(&mut store, 101, b"b"));
    let _disk = store.close();
    Ok(())
}

// Makes the steps of a group until it is published or a call is refused.
fn go_on<D: Disk>(store: &mut LogStore<D>) {
    for _ in 0..8 {
        match store.pump() {
            Ok(Did::Published(_)) => return,
            Ok(_) => {}
            Err(_) => return,
        }
    }
}

// What a stop at a device call leaves of a disk on which a store is opened and record 7 is put.
fn left_of(
    rt: &impl Abort,
    alloc: Global,
    disk: MemDisk,
    calls: u64,
    (write_reaches, fill): (bool, u8),
) -> Result<MemDisk, Fail> {
    let fault = Fault {
        calls_before: calls,
        write_reaches,
        stops: true,
    };
    match LogStore::open(alloc, FaultDisk::new(disk, fault), 2) {
        Err((_, disk)) => Ok(disk.left(alloc, fill, b"")?),
        Ok(mut store) => {
            queue(rt, alloc, &mut store, &[7], &[b"b"], 10).give_up();
            go_on(&mut store);
            Ok(store.close().left(alloc, fill, b"")?)
        }
    }
}

// The store has the first commit, and of those behind it some; it takes another one.
fn has_a_front(rt: &impl Abort, alloc: Global, disk: MemDisk, most: u64) -> MemDisk {
    let mut store = opened(rt, alloc, disk);
    let last = store.last();
    assert!(rt; 100 <= last && last <= most, "{last}");
    assert!(rt; was(&mut store, 100, b"a"));
    if 100 < last {
        assert!(rt; was(&mut store, last, b"b"));
    }
    let ticket = queue(rt, alloc, &mut store, &[7], &[b"c"], 11);
    let next = ticket.time();
    assert!(rt; next == last.wrapping_add(1));
    ticket.give_up();
    pumps(rt, &mut store, ONE_EXTENT);
    assert!(rt; was(&mut store, next, b"c"));
    store.close()
}

#[test]
fn a_stop_leaves_a_commit_whole_or_not_at_all(rt: HostRuntime) -> Result<(), Fail> {
    for calls in 0..CALLS {
        for stop in STOPS {
            let disk = with_one_commit(&rt, rt.alloc());
            let disk = left_of(&rt, rt.alloc(), disk, calls, *stop)?;
            let _disk = has_a_front(&rt, rt.alloc(), disk, 101);
        }
    }
    Ok(())
}

#[test]
fn a_second_stop_does_too(rt: HostRuntime) -> Result<(), Fail> {
    for calls in 0..CALLS {
        for stop in STOPS {
            let disk = with_one_commit(&rt, rt.alloc());
            let disk = left_of(&rt, rt.alloc(), disk, calls, *stop)?;
            let disk = left_of(&rt, rt.alloc(), disk, CALLS - calls, (true, 0xc7))?;
            let _disk = has_a_front(&rt, rt.alloc(), disk, 102);
        }
    }
    Ok(())
}
