//! What stores answer that are opened on images whose bytes are known, and what they write then.
use crate::images::{Change, Left, disk_of};
use crate::on_disk::{ONE_EXTENT, has_bytes, has_run, is_log, pumps, queue, queue_at};
use crate::queries::{are_rows, is_value};
use disk::{Area, MemDisk};
use history::Key;
use log_store::{Did, LogStore};
use recovery::OpenFault;
use std::alloc::Global;
use std::process::Abort;
use std::test::Fail;

const SEVEN: Key = Key {
    relation: 1,
    record: 7,
};

/// One group of two commits: ["a", "b"] at 100, and at 101 the second field alone, "c", as a delta.
const TWICE: &[u8] =
    b"\xc7\0\0\0\x01\0\0\0\0\0\0\0E\0\0\0\x02\0\0\0\0\0\0\0\x05\x01\0\0\0\0\0\0\0d\0\0\0\0\0\0\0\x01\0\
      \x01\x01\0\x07\0\0\0\0\0\0\0\x02\x01a\x01b\x05\x02\0\0\0\0\0\0\0e\0\0\0\0\0\0\0\x01\0\x02\
      \x01\0\x07\0\0\0\0\0\0\0\x02\0\x01c";

/// The same with the whole value ["a", "c"] at 101, which is longer than the delta.
const TWICE_WHOLE: &[u8] =
    b"\xc7\0\0\0\x01\0\0\0\0\0\0\0F\0\0\0\x02\0\0\0\0\0\0\0\x05\x01\0\0\0\0\0\0\0d\0\0\0\0\0\0\0\x01\0\
      \x01\x01\0\x07\0\0\0\0\0\0\0\x02\x01a\x01b\x05\x02\0\0\0\0\0\0\0e\0\0\0\0\0\0\0\x01\0\x01\
      \x01\0\x07\0\0\0\0\0\0\0\x02\x01a\x01c";

/// Nothing at 101, and the whole value at 102.
const GONE_BETWEEN: &[u8] =
    b"\xc7\0\0\0\x01\0\0\0\0\0\0\0d\0\0\0\x02\0\0\0\0\0\0\0\x05\x01\0\0\0\0\0\0\0d\0\0\0\0\0\0\0\x01\0\
      \x01\x01\0\x07\0\0\0\0\0\0\0\x02\x01a\x01b\x05\x02\0\0\0\0\0\0\0e\0\0\0\0\0\0\0\x01\0\x03\
      \x01\0\x07\0\0\0\0\0\0\0\x05\x03\0\0\0\0\0\0\0f\0\0\0\0\0\0\0\x01\0\x01\x01\0\x07\0\0\0\0\
      \0\0\0\x02\x01a\x01c";

fn opened(rt: &impl Abort, alloc: Global, disk: MemDisk) -> LogStore<MemDisk> {
    match LogStore::open(alloc, disk, 2) {
        Ok(store) => store,
        Err((fault, _)) => panic!(rt; "{fault:?}"),
    }
}

// The second field of record 7 at a time; none where it has no value then.
fn second_is(rt: &impl Abort, store: &mut LogStore<MemDisk>, time: u64, field: &[u8]) -> bool {
    let Ok(view) = store.view() else {
        panic!(rt; "no view");
    };
    let found = store.at(&view, SEVEN, time);
    store.end(view);
    match found {
        Ok(Some(value)) => value.value().field(1) == Some(field),
        _ => false,
    }
}

// Whether record 7 had this value of one field at a time, or none.
fn had(rt: &impl Abort, store: &mut LogStore<MemDisk>, time: u64, field: Option<&[u8]>) -> bool {
    let Ok(view) = store.view() else {
        panic!(rt; "no view");
    };
    let found = store.at(&view, SEVEN, time);
    store.end(view);
    match (found, field) {
        (Ok(None), None) => true,
        (Ok(Some(value)), Some(field)) => is_value(&value, field),
        _ => false,
    }
}

#[test]
fn a_group_may_write_a_key_twice(rt: HostRuntime) -> Result<(), Fail> {
    let changes = [Change::Put(Area::Heap, 0, TWICE)];
    let mut store = opened(
        &rt,
        rt.alloc(),
        disk_of(rt.alloc(), Left::OneGroup, &changes)?,
    );
    assert!(rt; store.last() == 101);
    assert!(rt; second_is(&rt, &mut store, 100, b"b"));
    assert!(rt; second_is(&rt, &mut store, 101, b"c"));
    let _disk = store.close();
    let changes = [Change::Put(Area::Heap, 0, TWICE_WHOLE)];
    match LogStore::open(
        rt.alloc(),
        disk_of(rt.alloc(), Left::OneGroup, &changes)?,
        2,
    ) {
        Err((fault, _)) => assert!(rt; fault == OpenFault::Damaged(Area::Heap, 1)),
        Ok(_) => panic!(rt; "a value in the place of a delta"),
    }
    let changes = [Change::Put(Area::Heap, 0, GONE_BETWEEN)];
    let mut store = opened(
        &rt,
        rt.alloc(),
        disk_of(rt.alloc(), Left::OneGroup, &changes)?,
    );
    assert!(rt; store.last() == 102);
    assert!(rt; had(&rt, &mut store, 101, None));
    assert!(rt; second_is(&rt, &mut store, 102, b"c"));
    let _disk = store.close();
    Ok(())
}

#[test]
fn what_is_reclaimed_is_read_from_the_archive(rt: HostRuntime) -> Result<(), Fail> {
    let mut store = opened(&rt, rt.alloc(), disk_of(rt.alloc(), Left::Reclaimed, &[])?);
    assert!(rt; store.last() == 130);
    assert!(rt; had(&rt, &mut store, 99, None));
    assert!(rt; had(&rt, &mut store, 105, Some(b"a")));
    assert!(rt; had(&rt, &mut store, 115, Some(b"b")));
    assert!(rt; had(&rt, &mut store, 120, None));
    assert!(rt; had(&rt, &mut store, 130, Some(b"c")));
    let Ok(view) = store.view() else {
        panic!(rt; "no view");
    };
    match store.between(&view, SEVEN, 100, 131) {
        Ok(rows) => {
            assert!(rt;
                are_rows(
                    &rows,
                    &[(100, 110, b"a"), (110, 120, b"b"), (130, 131, b"c")]
                )
            )
        }
        Err(fault) => panic!(rt; "{fault:?}"),
    }
    store.end(view);
    let _disk = store.close();
    Ok(())
}

#[test]
fn a_commit_is_later_than_what_is_reclaimed(rt: HostRuntime) -> Result<(), Fail> {
    let mut store = opened(
        &rt,
        rt.alloc(),
        disk_of(rt.alloc(), Left::ReclaimedAgain, &[])?,
    );
    assert!(rt; store.last() == 130);
    assert!(rt; had(&rt, &mut store, 130, Some(b"c")));
    let ticket = queue(&rt, rt.alloc(), &mut store, &[7], &[b"d"], 5);
    assert!(rt; ticket.time() == 131);
    ticket.give_up();
    pumps(&rt, &mut store, ONE_EXTENT);
    assert!(rt; had(&rt, &mut store, 131, Some(b"d")));
    let _disk = store.close();
    Ok(())
}

/// What stands where the group of 140 goes, and where the log goes on behind it: before each pump, and behind all of them.
const GATES: &[(Did, &[u8], &[u8])] = &[
    (Did::WroteExtent, b"\xc7", b"\0"),
    (Did::GateClosed, b"\0", b"\0"),
    (Did::HeapSynced, b"\0", b"\0"),
    (Did::GateWritten, b"\0", b"\xc7"),
    (Did::Published(1), b"\0", b"\xc7"),
];

/// The extent of the group of 140, and the log with it.
const EXTENT_6: &[u8] =
    b"\xc7\0\0\0\x06\0\0\0\0\0\0\0!\0\0\0\x01\0\0\0\0\0\0\0\x05\x05\0\0\0\0\0\0\0\x8c\0\0\0\0\0\0\0\
      \x01\0\x01\x01\0\x07\0\0\0\0\0\0\0\x01\x01d";

const GONE_ON: &[u8] = b"header extents 64 root 7\nchain 7 base 120 0 0 0\nroll 74 48\n\
      chain 4 commits extents 1\nmember 4 130 1 1970-01-01T00:00:00Z\nchain 5 archived 120 0 74 2 0\n\
      chain 6 commits extents 1\nmember 5 140 1 1970-01-01T00:00:00Z\nnext 1\nused 4 of 64\n";

// The first steps of the group of 140, so many, on a store that is opened over a base; and the disk behind them.
fn pumped(rt: &impl Abort, alloc: Global, disk: MemDisk, count: usize) -> MemDisk {
    let mut store = opened(rt, alloc, disk);
    assert!(rt; store.last() == 130);
    let ticket = queue_at(rt, alloc, &mut store, &[7], &[b"d"], 5, 140);
    assert!(rt; ticket.time() == 140);
    ticket.give_up();
    for (did, _, _) in GATES.iter().take(count) {
        assert!(rt; store.pump() == Ok(*did));
    }
    store.close()
}

#[test]
fn a_group_closes_the_stale_gate_behind_it(rt: HostRuntime) -> Result<(), Fail> {
    for (count, (_, behind, head)) in GATES.iter().enumerate() {
        let disk = disk_of(rt.alloc(), Left::Reclaimed, &[])?;
        let mut disk = pumped(&rt, rt.alloc(), disk, count + 1);
        assert!(rt; has_bytes(&mut disk, Area::Heap, 0, behind), "{count}");
        assert!(rt; has_bytes(&mut disk, Area::Heap, 40_960, head), "{count}");
    }
    let disk = disk_of(rt.alloc(), Left::Reclaimed, &[])?;
    let mut disk = pumped(&rt, rt.alloc(), disk, 5);
    assert!(rt; has_bytes(&mut disk, Area::Heap, 40_960, EXTENT_6));
    assert!(rt; has_run(&mut disk, 41_017, 49_152, 0));
    assert!(rt; is_log(rt.alloc(), &mut disk, GONE_ON));
    let mut store = opened(&rt, rt.alloc(), disk);
    assert!(rt; store.last() == 140);
    assert!(rt; had(&rt, &mut store, 140, Some(b"d")));
    let _disk = store.close();
    Ok(())
}

#[test]
fn a_gate_that_is_cut_off_is_written_again(rt: HostRuntime) -> Result<(), Fail> {
    let disk = disk_of(rt.alloc(), Left::Reclaimed, &[])?;
    let disk = pumped(&rt, rt.alloc(), disk, 4);
    let store = opened(&rt, rt.alloc(), disk.left(rt.alloc(), 0xc7, b"")?);
    assert!(rt; store.last() == 140);
    let _disk = store.close();
    let mut disk = pumped(
        &rt,
        rt.alloc(),
        disk.left(rt.alloc(), 0x37, b"")?,
        GATES.len(),
    );
    assert!(rt; is_log(rt.alloc(), &mut disk, GONE_ON));
    Ok(())
}
