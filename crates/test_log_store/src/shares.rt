//! The shares of the heap: which commits have room in one of 64 extents, and which are answered `HeapFull`.
use crate::on_disk::{ONE_EXTENT, finishes, new_store, pumps, queue_at};
use disk::MemDisk;
use group::{SubmitFault, Submitted};
use history::Key;
use log_store::{Did, LogStore, StartFault};
use snapshot::Txn;
use std::alloc::Global;
use std::process::Abort;
use std::test::Fail;

fn key(record: u64) -> Key {
    Key {
        relation: 1,
        record,
    }
}

fn begun(rt: &impl Abort, store: &mut LogStore<MemDisk>) -> Txn {
    match store.begin() {
        Ok(txn) => txn,
        Err(fault) => panic!(rt; "{fault:?}"),
    }
}

// Whether the transaction's commit is queued; else it has no room in the heap.
fn is_queued(rt: &impl Abort, store: &mut LogStore<MemDisk>, txn: Txn) -> bool {
    match store.submit(txn, 1, 0) {
        Ok(Submitted::Queued(ticket)) => {
            ticket.give_up();
            true
        }
        Err(SubmitFault::HeapFull) => false,
        Ok(Submitted::ReadOnly(_)) => panic!(rt; "nothing was written"),
        Err(fault) => panic!(rt; "{fault:?}"),
    }
}

// Whether values of these fields are queued for so many records, from the first on.
fn puts(
    rt: &impl Abort,
    alloc: Global,
    store: &mut LogStore<MemDisk>,
    first: u64,
    count: u64,
    fields: &[&[u8]],
) -> bool {
    let mut txn = begun(rt, store);
    for record in 0..count {
        assert!(rt;
            txn.put(alloc, key(first.wrapping_add(record)), fields)
                .is_ok()
        );
    }
    is_queued(rt, store, txn)
}

// The same, and what is queued is published.
fn publishes(
    rt: &impl Abort,
    alloc: Global,
    store: &mut LogStore<MemDisk>,
    first: u64,
    count: u64,
    fields: &[&[u8]],
) -> bool {
    let queued = puts(rt, alloc, store, first, count, fields);
    if queued {
        pumps(rt, store, ONE_EXTENT);
    }
    queued
}

#[test]
fn the_log_has_half_of_the_heap(rt: HostRuntime) -> Result<(), Fail> {
    let mut store = new_store(&rt, rt.alloc());
    for _ in 0..27 {
        assert!(rt; publishes(&rt, rt.alloc(), &mut store, 7, 1, &[b"a"]));
    }
    assert!(rt; store.last() == 27);
    assert!(rt; !publishes(&rt, rt.alloc(), &mut store, 7, 1, &[b"a"]));
    let _disk = store.close();
    Ok(())
}

#[test]
fn commits_that_wait_are_promised_extents(rt: HostRuntime) -> Result<(), Fail> {
    let mut store = new_store(&rt, rt.alloc());
    for record in 0..27 {
        assert!(rt; puts(&rt, rt.alloc(), &mut store, record, 1, &[b"a"]));
    }
    assert!(rt; !puts(&rt, rt.alloc(), &mut store, 27, 1, &[b"a"]));
    assert!(rt; store.pump() == Ok(Did::WroteExtent));
    assert!(rt; puts(&rt, rt.alloc(), &mut store, 27, 1, &[b"a"]));
    let _disk = store.close();
    Ok(())
}

#[test]
fn the_anchors_of_each_state_have_their_share(rt: HostRuntime) -> Result<(), Fail> {
    let field = [b'x'; 200];
    let other = [b'y'; 200];
    let fields: [&[u8]; 2] = [&field, &field];
    let others: [&[u8]; 2] = [&other, &other];
    let mut store = new_store(&rt, rt.alloc());
    for commit in 0..12 {
        assert!(rt; publishes(&rt, rt.alloc(), &mut store, 19 * commit, 19, &fields));
    }
    assert!(rt; !puts(&rt, rt.alloc(), &mut store, 228, 19, &fields));
    assert!(rt; !puts(&rt, rt.alloc(), &mut store, 228, 5, &fields));
    assert!(rt; publishes(&rt, rt.alloc(), &mut store, 228, 4, &fields));
    assert!(rt; !puts(&rt, rt.alloc(), &mut store, 232, 1, &fields));
    assert!(rt; publishes(&rt, rt.alloc(), &mut store, 0, 1, &others));
    let mut txn = begun(&rt, &mut store);
    assert!(rt; txn.delete(key(0)).is_ok());
    assert!(rt; is_queued(&rt, &mut store, txn));
    pumps(&rt, &mut store, ONE_EXTENT);
    assert!(rt; puts(&rt, rt.alloc(), &mut store, 232, 1, &fields));
    let _disk = store.close();
    Ok(())
}

// A commit of one extent, now this time.
fn commits(rt: &impl Abort, alloc: Global, store: &mut LogStore<MemDisk>, now: u64) {
    queue_at(rt, alloc, store, &[7], &[b"a"], 1, now).give_up();
    pumps(rt, store, ONE_EXTENT);
}

fn archives(rt: &impl Abort, store: &mut LogStore<MemDisk>, upto: u64) {
    assert!(rt; store.archive_start(upto) == Ok(()) && finishes(store));
}

fn reclaims(rt: &impl Abort, store: &mut LogStore<MemDisk>) {
    assert!(rt; store.reclaim_start() == Ok(()) && finishes(store));
}

// Whether the floor of a relation is raised; else a base that has it has no room.
fn raises(rt: &impl Abort, store: &mut LogStore<MemDisk>, relation: u16, floor: u64) -> bool {
    match store.start_floor(Some(relation), floor) {
        Ok(()) => {
            assert!(rt; finishes(store));
            true
        }
        Err(StartFault::HeapFull) => false,
        Err(fault) => panic!(rt; "{fault:?}"),
    }
}

#[test]
fn floors_take_half_of_the_share_of_a_base(rt: HostRuntime) -> Result<(), Fail> {
    let mut store = new_store(&rt, rt.alloc());
    commits(&rt, rt.alloc(), &mut store, 100);
    archives(&rt, &mut store, 100);
    reclaims(&rt, &mut store);
    for relation in 0..1_469 {
        assert!(rt; raises(&rt, &mut store, relation, 100));
        if relation % 16 == 0 {
            reclaims(&rt, &mut store);
        }
    }
    assert!(rt; !raises(&rt, &mut store, 1_469, 100));
    reclaims(&rt, &mut store);
    commits(&rt, rt.alloc(), &mut store, 110);
    assert!(rt; !raises(&rt, &mut store, 3_000, 110));
    assert!(rt; raises(&rt, &mut store, 0, 110));
    archives(&rt, &mut store, 110);
    reclaims(&rt, &mut store);
    commits(&rt, rt.alloc(), &mut store, 120);
    archives(&rt, &mut store, 120);
    assert!(rt; raises(&rt, &mut store, 1, 120));
    let _disk = store.close();
    Ok(())
}
