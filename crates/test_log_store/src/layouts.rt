//! One caller, over a store of either layout.
use crate::queries::is_value;
use any_store::{Did, JobDid, Layout, Redeemed, StartFault, Store, Submitted, format};
use disk::{Area, Disk, MemDisk};
use history::Key;
use std::alloc::Global;
use std::process::Abort;
use std::test::Fail;

const SEVEN: Key = Key {
    relation: 1,
    record: 7,
};

/// The steps of a group of one commit in a slot.
const ONE_SLOT: &[Did] = &[
    Did::WroteExtent,
    Did::HeapSynced,
    Did::BodyWritten,
    Did::BodySynced,
    Did::GateWritten,
    Did::Published(1),
];

/// And in a chain of one extent.
const ONE_CHAIN: &[Did] = &[
    Did::WroteExtent,
    Did::GateClosed,
    Did::HeapSynced,
    Did::GateWritten,
    Did::Published(1),
];

fn opened(rt: &impl Abort, alloc: Global, disk: MemDisk) -> Store<MemDisk> {
    match Store::open(alloc, disk, 1) {
        Ok(store) => store,
        Err((fault, _)) => panic!(rt; "{fault:?}"),
    }
}

/// A value is put to record 7 at the time 100, with the label 9, and its group takes these steps.
fn commit_red(rt: &impl Abort, alloc: Global, store: &mut Store<MemDisk>, steps: &[Did]) {
    let mut txn = match store.begin() {
        Ok(txn) => txn,
        Err(fault) => panic!(rt; "{fault:?}"),
    };
    assert!(rt; txn.put(alloc, SEVEN, &[b"red"]).is_ok());
    let ticket = match store.submit(txn, 9, 100) {
        Ok(Submitted::Queued(ticket)) => ticket,
        Ok(Submitted::ReadOnly(_)) => panic!(rt; "nothing was written"),
        Err(fault) => panic!(rt; "{fault:?}"),
    };
    for did in steps {
        assert!(rt; store.pump() == Ok(*did));
    }
    match store.redeem(ticket) {
        Redeemed::Done(time) => assert!(rt; time == 100),
        _ => panic!(rt; "not published"),
    }
}

/// Whether a view says that record 7 is red at the time 100, and in every kind of query.
fn is_red(store: &mut Store<MemDisk>) -> bool {
    let Ok(view) = store.view() else {
        return false;
    };
    let at = store.at(&view, SEVEN, 100);
    let scan = store.scan_at(&view, 1, 100);
    let rows = store.between(&view, SEVEN, 100, 101);
    let all = store.scan_between(&view, 1, 100, 101);
    store.end(view);
    let is_at = match at {
        Ok(Some(value)) => is_value(&value, b"red"),
        _ => false,
    };
    let is_scan = match scan {
        Ok(found) => found.len() == 1 && found[0].0 == 7 && is_value(&found[0].1, b"red"),
        Err(_) => false,
    };
    let is_row = match rows {
        Ok(rows) => rows.len() == 1 && is_value(&rows[0].value, b"red"),
        Err(_) => false,
    };
    let are_all = match all {
        Ok(rows) => rows.len() == 1 && rows[0].0 == 7 && is_value(&rows[0].1.value, b"red"),
        Err(_) => false,
    };
    is_at && is_scan && is_row && are_all
}

/// A store of this profile commits by these steps, answers, and is found as it was when it is opened again.
fn keeps_red(rt: &impl Abort, alloc: Global, disk: MemDisk, profile: u32, steps: &[Did]) {
    let mut store = opened(rt, alloc, disk);
    assert!(rt; store.profile() == profile && store.last() == 0);
    commit_red(rt, alloc, &mut store, steps);
    assert!(rt; is_red(&mut store));
    let mut store = opened(rt, alloc, store.close());
    assert!(rt; store.last() == 100 && store.floors().at(1) == 0);
    match store.times_of(9) {
        Ok(times) => assert!(rt; times.len() == 1 && times[0] == 100),
        Err(fault) => panic!(rt; "{fault:?}"),
    }
    assert!(rt; is_red(&mut store));
    let (store, _before) = store.over(MemDisk::new(alloc));
    assert!(rt; store.disk().made() == 0);
    let _disk = store.close();
}

#[test]
fn a_store_of_slots_keeps_what_is_committed(rt: HostRuntime) -> Result<(), Fail> {
    let mut disk = MemDisk::new(rt.alloc());
    format(rt.alloc(), &mut disk, Layout::Slots(16))?;
    keeps_red(&rt, rt.alloc(), disk, 3, ONE_SLOT);
    Ok(())
}

#[test]
fn a_store_with_its_log_in_the_heap_keeps_it(rt: HostRuntime) -> Result<(), Fail> {
    let mut disk = MemDisk::new(rt.alloc());
    format(rt.alloc(), &mut disk, Layout::Log(64))?;
    keeps_red(&rt, rt.alloc(), disk, 4, ONE_CHAIN);
    Ok(())
}

/// The steps of a floor whose entry is a chain of one extent.
const ONE_FLOOR: &[JobDid] = &[
    JobDid::WroteEntry,
    JobDid::GateClosed,
    JobDid::HeapSynced,
    JobDid::GateWritten,
    JobDid::JobDone,
];

/// And of an archive of nothing.
const ONE_ARCHIVE: &[JobDid] = &[
    JobDid::RunSynced,
    JobDid::WroteEntry,
    JobDid::GateClosed,
    JobDid::HeapSynced,
    JobDid::GateWritten,
    JobDid::JobDone,
];

/// And of a reclaim with anchors and a roll.
const ONE_RECLAIM: &[JobDid] = &[
    JobDid::WroteExtent,
    JobDid::WroteExtent,
    JobDid::HeapSynced,
    JobDid::WroteRoll,
    JobDid::RollSynced,
    JobDid::RootWritten,
    JobDid::RootSynced,
    JobDid::TurnWritten,
    JobDid::JobDone,
];

// The steps of the job that runs, and that none runs behind them.
fn ends(rt: &impl Abort, store: &mut Store<MemDisk>, steps: &[JobDid]) {
    for did in steps {
        assert!(rt; store.job_pump() == Ok(*did));
    }
    assert!(rt; store.job_pump() == Ok(JobDid::Idle));
}

#[test]
fn jobs_begin_where_the_log_lies_in_the_heap(rt: HostRuntime) -> Result<(), Fail> {
    let mut disk = MemDisk::new(rt.alloc());
    log_store::format(&mut disk, 64)?;
    let mut store = opened(&rt, rt.alloc(), disk);
    commit_red(&rt, rt.alloc(), &mut store, ONE_CHAIN);
    assert!(rt; store.reclaim_start() == Err(StartFault::NothingToDo));
    assert!(rt; store.floor_start(100) == Err(StartFault::WrongProfile));
    assert!(rt; store.grow_start() == Err(StartFault::NotGrowable));
    assert!(rt; store.job_pump() == Ok(JobDid::Idle));
    assert!(rt; store.floor_of_start(1, 101) == Err(StartFault::NotYet(100)));
    assert!(rt; store.floor_of_start(1, 100) == Ok(()));
    assert!(rt; store.archive_start(100) == Err(StartFault::JobBusy));
    ends(&rt, &mut store, ONE_FLOOR);
    assert!(rt; store.archive_start(101) == Err(StartFault::NotYet(100)));
    assert!(rt; store.archive_start(100) == Ok(()));
    assert!(rt; store.floor_of_start(2, 100) == Err(StartFault::JobBusy));
    ends(&rt, &mut store, ONE_ARCHIVE);
    assert!(rt; store.archive_start(100) == Err(StartFault::NothingToDo));
    assert!(rt; store.floor_of_start(1, 100) == Err(StartFault::NothingToDo));
    assert!(rt; store.job_area() == Area::Heap);
    assert!(rt; store.reclaim_start() == Ok(()));
    assert!(rt; store.job_area() == Area::Status);
    assert!(rt; store.archive_start(100) == Err(StartFault::JobBusy));
    ends(&rt, &mut store, ONE_RECLAIM);
    assert!(rt; store.reclaim_start() == Err(StartFault::NothingToDo));
    assert!(rt; is_red(&mut store));
    let mut store = opened(&rt, rt.alloc(), store.close());
    assert!(rt; is_red(&mut store));
    assert!(rt; store.archive_start(100) == Err(StartFault::NothingToDo));
    assert!(rt; store.reclaim_start() == Err(StartFault::NothingToDo));
    assert!(rt; store.floors().at(1) == 100 && store.floors().at(2) == 0);
    let _disk = store.close();
    Ok(())
}
