//! The examples of the pages `CALLING.md` of `store`, `run`, `disk` and `clock`.
use crate::published::SEVEN;
use any_store::Layout;
use clock::{LAST_TIME, read_instant, show_instant};
use disk::{Area, DeviceFault, Disk, MemDisk};
use history::Key;
use run::{Answer, Call};
use std::alloc::Global;
use std::process::Abort;
use std::test::Fail;
use store::{Did, QueryFault, Redeemed, Store, Submitted, Ticket, format};

// The example of store.
#[test]
fn a_store_says_what_stood_at_a_time(rt: HostRuntime) -> Result<(), Fail> {
    let mut disk = MemDisk::new(rt.alloc());
    format(rt.alloc(), &mut disk, 16)?;
    let mut store = match Store::open(rt.alloc(), disk, 1) {
        Ok(store) => store,
        Err((fault, _)) => panic!(rt; "{fault:?}"),
    };
    commit_red(&rt, rt.alloc(), &mut store);
    look_back(&rt, &mut store);
    let _disk = store.close();
    Ok(())
}

/// A transaction is queued as a commit with the label 9, at the time 100.
fn queue_red(rt: &impl Abort, alloc: Global, store: &mut Store<MemDisk>) -> Ticket {
    let mut txn = match store.begin() {
        Ok(txn) => txn,
        Err(fault) => panic!(rt; "{fault:?}"),
    };
    assert!(rt; txn.put(alloc, SEVEN, &[b"red"]).is_ok());
    match store.submit(txn, 9, 100) {
        Ok(Submitted::Queued(ticket)) => ticket,
        Ok(Submitted::ReadOnly(_)) => panic!(rt; "nothing was written"),
        Err(fault) => panic!(rt; "{fault:?}"),
    }
}

/// The steps of its group, each one call of the disk. The commit counts from the last one on.
fn commit_red(rt: &impl Abort, alloc: Global, store: &mut Store<MemDisk>) {
    let ticket = queue_red(rt, alloc, store);
    for did in [
        Did::WroteExtent,
        Did::HeapSynced,
        Did::BodyWritten,
        Did::BodySynced,
        Did::GateWritten,
        Did::Published(1),
    ] {
        assert!(rt; store.pump() == Ok(did));
    }
    match store.redeem(ticket) {
        Redeemed::Done(time) => assert!(rt; time == 100),
        _ => panic!(rt; "not published"),
    }
}

/// A view says what stood at each time up to the last commit.
fn look_back(rt: &impl Abort, store: &mut Store<MemDisk>) {
    let view = match store.view() {
        Ok(view) => view,
        Err(fault) => panic!(rt; "{fault:?}"),
    };
    assert!(rt; matches!(store.at(&view, SEVEN, 99), Ok(None)));
    match store.at(&view, SEVEN, 100) {
        Ok(Some(value)) => assert!(rt; value.value().field(0) == Some(b"red")),
        _ => panic!(rt; "no value"),
    }
    assert!(rt; matches!(store.at(&view, SEVEN, 101), Err(QueryFault::NotYet(100))));
    store.end(view);
}

// The example of run.
#[test]
fn a_list_of_calls_is_answered_in_its_order(rt: HostRuntime) -> Result<(), Fail> {
    let alloc = rt.alloc();
    let key = Key {
        relation: 1,
        record: 7,
    };
    let mut disk = MemDisk::new(alloc);
    run::format(alloc, &mut disk, Layout::Slots(16))?;
    let mut store = match run::open(alloc, disk, 1) {
        Ok(store) => store,
        Err((fault, _)) => panic!(rt; "{fault:?}"),
    };
    let calls = [
        Call::Begin,
        // The transaction is what the call at place 0 gave.
        Call::Put {
            transaction: 0,
            key,
            fields: &[b"red"],
        },
        Call::Get {
            transaction: 0,
            key,
        },
        Call::Abort { transaction: 0 },
        // It is spent.
        Call::Abort { transaction: 0 },
    ];
    let outcome = run::run(alloc, &mut store, &calls);
    let _disk = run::close(store);
    let answers = outcome?;
    assert!(rt; matches!(answers.get(1), Some(Answer::Put(Ok(())))));
    assert!(rt; matches!(answers.get(2), Some(Answer::Get(Ok(Some(_))))));
    assert!(rt; matches!(answers.get(3), Some(Answer::Abort)));
    assert!(rt; matches!(answers.get(4), Some(Answer::Unknown)));
    Ok(())
}

// The example of disk.
#[test]
fn a_stop_leaves_what_was_synced(rt: HostRuntime) -> Result<(), Fail> {
    let mut disk = MemDisk::new(rt.alloc());
    write_twice(&mut disk)?;
    assert!(rt; disk.made() == 3 && disk.refused() == 0);
    // A stop now may leave any bytes where the second write reached.
    let mut left = disk.left(rt.alloc(), b'?', b"")?;
    assert!(rt; is_torn(&mut left)?);
    Ok(())
}

fn write_twice(disk: &mut MemDisk) -> Result<(), DeviceFault> {
    disk.write_at(Area::Heap, 0, b"kept")?;
    disk.sync(Area::Heap)?;
    disk.write_at(Area::Heap, 1, b"xy")
}

fn is_torn(disk: &mut MemDisk) -> Result<bool, DeviceFault> {
    let mut bytes = [0; 4];
    if disk.len(Area::Heap)? != 4 {
        return Ok(false);
    }
    disk.read(Area::Heap, 0, &mut bytes)?;
    Ok(&bytes == b"k??t")
}

// The example of clock.
#[test]
fn an_instant_is_read_and_shown(rt: HostRuntime) -> Result<(), Fail> {
    let instant = read_instant("2001-09-09T01:46:40Z");
    assert_eq!(rt; instant, Ok(1_000_000_000_000_000));
    let shown = show_instant(rt.alloc(), 1_000_000_000_000_000)?.ok_or("none")?;
    assert_eq!(rt; shown.as_str(), "2001-09-09T01:46:40Z");
    // No text has a year after 9999, though a commit may be as late.
    assert!(rt; show_instant(rt.alloc(), LAST_TIME)?.is_none());
    Ok(())
}
