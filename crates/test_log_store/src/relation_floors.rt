//! Floors of one relation: when they begin, the steps of their entry, and its bytes.
use crate::images::{Left, disk_of};
use crate::on_disk::{ONE_EXTENT, has_bytes, has_run, new_store, pumps, queue};
use crate::queries::is_value;
use disk::{Area, MemDisk};
use group::{PumpFault, SubmitFault, Submitted};
use history::Key;
use log_store::{Did, JobDid, LogStore, StartFault};
use std::alloc::Global;
use std::process::Abort;
use std::test::Fail;
use timequery::QueryFault;

const SEVEN: Key = Key {
    relation: 1,
    record: 7,
};

/// The steps of an entry.
const ENTRY: &[JobDid] = &[
    JobDid::WroteEntry,
    JobDid::GateClosed,
    JobDid::HeapSynced,
    JobDid::GateWritten,
    JobDid::JobDone,
];

/// The extent of a floor of 130 of relation 1, behind which the log goes on in extent 4.
const FLOOR: &[u8] =
    b"\xc7\0\0\0\x01\0\0\0\0\0\0\0\x0b\0\0\0\x04\0\0\0\0\0\0\0\x07\x82\0\0\0\0\0\0\0\x01\0";

fn opened(rt: &impl Abort, alloc: Global, disk: MemDisk) -> LogStore<MemDisk> {
    match LogStore::open(alloc, disk, 2) {
        Ok(store) => store,
        Err((fault, _)) => panic!(rt; "{fault:?}"),
    }
}

// The steps of the job that runs, and that none runs behind them.
fn enters(rt: &impl Abort, store: &mut LogStore<MemDisk>) {
    for did in ENTRY {
        assert!(rt; store.job_pump() == Ok(*did));
    }
    assert!(rt; store.job_pump() == Ok(JobDid::Idle));
}

// Whether a commit of one extent has no room.
fn is_full(rt: &impl Abort, alloc: Global, store: &mut LogStore<MemDisk>) -> bool {
    let mut txn = match store.begin() {
        Ok(txn) => txn,
        Err(fault) => panic!(rt; "{fault:?}"),
    };
    assert!(rt; txn.put(alloc, SEVEN, &[b"a"]).is_ok());
    match store.submit(txn, 1, 100) {
        Ok(Submitted::Queued(ticket)) => {
            ticket.give_up();
            false
        }
        Err(SubmitFault::HeapFull) => true,
        Ok(Submitted::ReadOnly(_)) => panic!(rt; "nothing was written"),
        Err(fault) => panic!(rt; "{fault:?}"),
    }
}

// Whether record 7 is told from 130 on alone, where it has the value "c".
fn is_kept_from_130(rt: &impl Abort, store: &mut LogStore<MemDisk>) -> bool {
    let Ok(view) = store.view() else {
        panic!(rt; "no view");
    };
    let before = store.at(&view, SEVEN, 129);
    let then = store.at(&view, SEVEN, 130);
    store.end(view);
    match (before, then) {
        (Err(QueryFault::BeforeKept(130)), Ok(Some(value))) => is_value(&value, b"c"),
        _ => false,
    }
}

#[test]
fn a_floor_takes_an_extent(rt: HostRuntime) -> Result<(), Fail> {
    let mut store = opened(
        &rt,
        rt.alloc(),
        disk_of(rt.alloc(), Left::ReclaimedAgain, &[])?,
    );
    assert!(rt; store.start_floor(Some(1), 130) == Ok(()));
    assert!(rt; store.start_floor(Some(1), 130) == Err(StartFault::JobBusy));
    enters(&rt, &mut store);
    assert!(rt; store.floors().at(1) == 130);
    assert!(rt; store.floors().at(2) == 0);
    assert!(rt; is_kept_from_130(&rt, &mut store));
    let mut disk = store.close();
    assert!(rt; has_bytes(&mut disk, Area::Heap, 0, FLOOR));
    assert!(rt; has_run(&mut disk, 35, 8_192, 0));
    assert!(rt; has_bytes(&mut disk, Area::Heap, 24_576, b"\0\0\0\0\x04"));
    let mut store = opened(&rt, rt.alloc(), disk);
    assert!(rt; store.last() == 130);
    assert!(rt; store.floors().at(1) == 130);
    assert!(rt; is_kept_from_130(&rt, &mut store));
    let _disk = store.close();
    Ok(())
}

#[test]
fn an_entry_that_is_cut_off_raises_no_floor(rt: HostRuntime) -> Result<(), Fail> {
    let mut store = opened(
        &rt,
        rt.alloc(),
        disk_of(rt.alloc(), Left::ReclaimedAgain, &[])?,
    );
    assert!(rt; store.start_floor(Some(1), 130) == Ok(()));
    assert!(rt; store.job_pump() == Ok(JobDid::WroteEntry));
    assert!(rt; store.job_pump() == Ok(JobDid::GateClosed));
    assert!(rt; store.job_pump() == Ok(JobDid::HeapSynced));
    let mut disk = store.close();
    assert!(rt; has_bytes(&mut disk, Area::Heap, 0, b"\0\0\0\0\x01"));
    let store = opened(&rt, rt.alloc(), disk);
    assert!(rt; store.floors().at(1) == 0);
    let _disk = store.close();
    Ok(())
}

#[test]
fn a_floor_is_refused(rt: HostRuntime) -> Result<(), Fail> {
    let mut store = opened(
        &rt,
        rt.alloc(),
        disk_of(rt.alloc(), Left::ReclaimedAgain, &[])?,
    );
    assert!(rt; store.start_floor(None, 130) == Err(StartFault::WrongProfile));
    assert!(rt; store.start_floor(Some(1), 0) == Err(StartFault::NothingToDo));
    assert!(rt; store.start_floor(Some(1), 131) == Err(StartFault::NotYet(130)));
    assert!(rt; store.job_pump() == Ok(JobDid::Idle));
    let _disk = store.close();
    Ok(())
}

#[test]
fn an_entry_and_a_group_wait_for_each_other(rt: HostRuntime) -> Result<(), Fail> {
    let mut store = new_store(&rt, rt.alloc());
    queue(&rt, rt.alloc(), &mut store, &[7], &[b"a"], 1).give_up();
    pumps(&rt, &mut store, ONE_EXTENT);
    queue(&rt, rt.alloc(), &mut store, &[7], &[b"b"], 2).give_up();
    assert!(rt; store.pump() == Ok(Did::WroteExtent));
    assert!(rt; store.start_floor(Some(1), 100) == Ok(()));
    assert!(rt; store.job_pump() == Err(PumpFault::Busy));
    queue(&rt, rt.alloc(), &mut store, &[8], &[b"c"], 3).give_up();
    assert!(rt; store.pump() == Ok(Did::GateClosed));
    assert!(rt; store.pump() == Ok(Did::HeapSynced));
    assert!(rt; store.pump() == Ok(Did::GateWritten));
    assert!(rt; store.pump() == Ok(Did::Published(1)));
    assert!(rt; store.pump() == Err(PumpFault::Busy));
    assert!(rt; store.job_pump() == Ok(JobDid::WroteEntry));
    assert!(rt; store.pump() == Err(PumpFault::Busy));
    assert!(rt; store.job_pump() == Ok(JobDid::GateClosed));
    assert!(rt; store.job_pump() == Ok(JobDid::HeapSynced));
    assert!(rt; store.job_pump() == Ok(JobDid::GateWritten));
    assert!(rt; store.job_pump() == Ok(JobDid::JobDone));
    pumps(&rt, &mut store, ONE_EXTENT);
    assert!(rt; store.last() == 102);
    let _disk = store.close();
    Ok(())
}

#[test]
fn an_entry_is_promised_its_extent(rt: HostRuntime) -> Result<(), Fail> {
    let mut store = new_store(&rt, rt.alloc());
    for label in 0..26 {
        queue(&rt, rt.alloc(), &mut store, &[7], &[b"a"], label).give_up();
        pumps(&rt, &mut store, ONE_EXTENT);
    }
    assert!(rt; store.start_floor(Some(1), 125) == Ok(()));
    assert!(rt; is_full(&rt, rt.alloc(), &mut store));
    assert!(rt; store.job_pump() == Ok(JobDid::WroteEntry));
    assert!(rt; is_full(&rt, rt.alloc(), &mut store));
    let _disk = store.close();
    Ok(())
}

#[test]
fn entries_leave_two_extents_of_the_half(rt: HostRuntime) -> Result<(), Fail> {
    let mut store = new_store(&rt, rt.alloc());
    for label in 0..27 {
        queue(&rt, rt.alloc(), &mut store, &[7], &[b"a"], label).give_up();
        pumps(&rt, &mut store, ONE_EXTENT);
    }
    assert!(rt; store.last() == 126);
    assert!(rt; store.start_floor(Some(1), 126) == Ok(()));
    enters(&rt, &mut store);
    assert!(rt; store.start_floor(Some(2), 126) == Ok(()));
    enters(&rt, &mut store);
    assert!(rt; store.start_floor(Some(3), 126) == Err(StartFault::HeapFull));
    assert!(rt; store.start_floor(Some(1), 126) == Err(StartFault::NothingToDo));
    let _disk = store.close();
    Ok(())
}
