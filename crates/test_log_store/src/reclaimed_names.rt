//! The names of the commits that a base covers: the rolls that tell them, and the times of a label.
use crate::on_disk::{ONE_EXTENT, finishes, has_bytes, new_store, opened, pumps, queue_at};
use disk::{Area, Disk, MemDisk};
use group::{Redeemed, Ticket};
use log_store::LogStore;
use std::alloc::Global;
use std::process::Abort;
use std::test::Fail;
use timequery::QueryFault;

/// The rolls of a store with the labels 9, 4, 9 at 100, 110, 120, reclaimed, then 9, 4 at 130, 140, reclaimed, and then 9 at 150, reclaimed: in
/// each the names by label and time.
const FIRST_ROLL: &[u8] =
    b"\x04\0\0\0\0\0\0\0n\0\0\0\0\0\0\0\x09\0\0\0\0\0\0\0d\0\0\0\0\0\0\0\x09\0\0\0\0\0\0\0x\0\0\0\0\0\0\0";

const SECOND_ROLL: &[u8] =
    b"\x04\0\0\0\0\0\0\0\x8c\0\0\0\0\0\0\0\x09\0\0\0\0\0\0\0\x82\0\0\0\0\0\0\0";

const THIRD_ROLL: &[u8] = b"\x09\0\0\0\0\0\0\0\x96\0\0\0\0\0\0\0";

// Whether a label has just these times.
fn are_times<D: Disk>(store: &mut LogStore<D>, label: u64, want: &[u64]) -> bool {
    match store.times_of(label) {
        Ok(times) => times.as_slice() == want,
        Err(_) => false,
    }
}

// A value of record 7 is published with this label at this time.
fn publishes(
    rt: &impl Abort,
    alloc: Global,
    store: &mut LogStore<MemDisk>,
    (label, time): (u64, u64),
) -> Ticket {
    let ticket = queue_at(rt, alloc, store, &[7], &[b"a"], label, time);
    assert!(rt; ticket.time() == time);
    pumps(rt, store, ONE_EXTENT);
    ticket
}

// All of these are published, archived and reclaimed.
fn reclaims(rt: &impl Abort, alloc: Global, store: &mut LogStore<MemDisk>, names: &[(u64, u64)]) {
    for name in names {
        publishes(rt, alloc, store, *name).give_up();
    }
    let last = store.last();
    assert!(rt; store.archive_start(last) == Ok(()) && finishes(store));
    assert!(rt; store.reclaim_start() == Ok(()) && finishes(store));
}

#[test]
fn each_reclaim_adds_a_roll_of_names(rt: HostRuntime) -> Result<(), Fail> {
    let mut store = new_store(&rt, rt.alloc());
    reclaims(&rt, rt.alloc(), &mut store, &[(9, 100), (4, 110), (9, 120)]);
    reclaims(&rt, rt.alloc(), &mut store, &[(9, 130), (4, 140)]);
    let ticket = publishes(&rt, rt.alloc(), &mut store, (9, 150));
    assert!(rt; are_times(&mut store, 9, &[100, 120, 130, 150]));
    assert!(rt; are_times(&mut store, 4, &[110, 140]));
    assert!(rt; are_times(&mut store, 5, &[]));
    assert!(rt; store.archive_start(150) == Ok(()) && finishes(&mut store));
    assert!(rt; store.reclaim_start() == Ok(()) && finishes(&mut store));
    assert!(rt; are_times(&mut store, 9, &[100, 120, 130, 150]));
    match store.redeem(ticket) {
        Redeemed::Done(time) => assert!(rt; time == 150),
        _ => panic!(rt; "not published"),
    }
    assert!(rt; are_times(&mut store, 9, &[100, 120, 130, 150]));
    let mut disk = store.close();
    assert!(rt; has_bytes(&mut disk, Area::Archive, 74, FIRST_ROLL));
    assert!(rt; has_bytes(&mut disk, Area::Archive, 196, SECOND_ROLL));
    assert!(rt; has_bytes(&mut disk, Area::Archive, 265, THIRD_ROLL));
    let mut store = opened(&rt, rt.alloc(), disk);
    assert!(rt; store.last() == 150);
    assert!(rt; are_times(&mut store, 9, &[100, 120, 130, 150]));
    assert!(rt; are_times(&mut store, 4, &[110, 140]));
    assert!(rt; are_times(&mut store, 5, &[]));
    publishes(&rt, rt.alloc(), &mut store, (9, 160)).give_up();
    assert!(rt; are_times(&mut store, 9, &[100, 120, 130, 150, 160]));
    let _disk = store.close();
    Ok(())
}

// The byte of the archive at this place is that one.
fn forge(rt: &impl Abort, disk: &mut MemDisk, place: u32, byte: u8) {
    assert!(rt; disk.write_at(Area::Archive, u64::from(place), &[byte]) == Ok(()));
    assert!(rt; disk.sync(Area::Archive) == Ok(()));
}

// A store of the label 9 at 100, 110 and 120, whose roll begins at byte 74.
fn with_one_roll(rt: &impl Abort, alloc: Global) -> MemDisk {
    let mut store = new_store(rt, alloc);
    reclaims(rt, alloc, &mut store, &[(9, 100), (9, 110), (9, 120)]);
    store.close()
}

#[test]
fn a_name_of_no_commit_is_damaged(rt: HostRuntime) -> Result<(), Fail> {
    let mut disk = with_one_roll(&rt, rt.alloc());
    // The second name has the time 0.
    forge(&rt, &mut disk, 98, 0);
    let mut store = opened(&rt, rt.alloc(), disk);
    assert!(rt; store.times_of(9).err() == Some(QueryFault::Damaged(74)));
    assert!(rt; store.last() == 120);
    let _disk = store.close();
    Ok(())
}

#[test]
fn names_in_another_order_are_damaged(rt: HostRuntime) -> Result<(), Fail> {
    let mut disk = with_one_roll(&rt, rt.alloc());
    // The last name has the time 105, which is before that of the one before it.
    forge(&rt, &mut disk, 114, 105);
    let mut store = opened(&rt, rt.alloc(), disk);
    assert!(rt; store.times_of(9).err() == Some(QueryFault::Damaged(74)));
    let _disk = store.close();
    Ok(())
}
