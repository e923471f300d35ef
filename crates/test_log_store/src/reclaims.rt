//! Reclaims: when they begin, their steps, also beside groups, and the bytes that they leave.
use crate::images::{Left, disk_of};
use crate::on_disk::{
    ONE_EXTENT, are_alike, has_bytes, is_log, opened, pumps, queue, queue_at, works,
};
use crate::queries::{are_rows, is_value};
use disk::{Area, Disk, MemDisk};
use group::PumpFault;
use history::Key;
use log_store::{Did, JobDid, LogStore, StartFault};
use std::alloc::Global;
use std::process::Abort;
use std::test::Fail;
use timequery::QueryFault;

const SEVEN: Key = Key {
    relation: 1,
    record: 7,
};

/// The steps of an archive, and of one without versions.
const ARCHIVE: &[JobDid] = &[
    JobDid::WroteRun,
    JobDid::RunSynced,
    JobDid::WroteEntry,
    JobDid::GateClosed,
    JobDid::HeapSynced,
    JobDid::GateWritten,
    JobDid::JobDone,
];

const EMPTY_ARCHIVE: &[JobDid] = &[
    JobDid::RunSynced,
    JobDid::WroteEntry,
    JobDid::GateClosed,
    JobDid::HeapSynced,
    JobDid::GateWritten,
    JobDid::JobDone,
];

/// And of a floor.
const FLOOR: &[JobDid] = &[
    JobDid::WroteEntry,
    JobDid::GateClosed,
    JobDid::HeapSynced,
    JobDid::GateWritten,
    JobDid::JobDone,
];

/// The steps of a reclaim: of a base in one extent and its roll, of anchors too, and of floors alone.
const BASE: &[JobDid] = &[
    JobDid::WroteExtent,
    JobDid::HeapSynced,
    JobDid::WroteRoll,
    JobDid::RollSynced,
    JobDid::RootWritten,
    JobDid::RootSynced,
    JobDid::TurnWritten,
    JobDid::JobDone,
];

const ANCHORED: &[JobDid] = &[
    JobDid::WroteExtent,
    JobDid::WroteExtent,
    JobDid::HeapSynced,
    JobDid::WroteRoll,
    JobDid::RollSynced,
    JobDid::RootWritten,
    JobDid::RootSynced,
    JobDid::TurnWritten,
    JobDid::JobDone,
];

const FLOORS: &[JobDid] = &[
    JobDid::WroteExtent,
    JobDid::HeapSynced,
    JobDid::RootWritten,
    JobDid::RootSynced,
    JobDid::TurnWritten,
    JobDid::JobDone,
];

// The store that has this image.
fn opened_on(rt: &impl Abort, alloc: Global, left: Left) -> LogStore<MemDisk> {
    let Ok(disk) = disk_of(alloc, left, &[]) else {
        panic!(rt; "no memory");
    };
    opened(rt, alloc, disk)
}

// Whether a disk holds just this image.
fn is_image(rt: &impl Abort, alloc: Global, disk: &mut MemDisk, left: Left) -> bool {
    let Ok(mut image) = disk_of(alloc, left, &[]) else {
        panic!(rt; "no memory");
    };
    are_alike(alloc, disk, &mut image)
}

// Whether a label has just these times.
fn are_times<D: Disk>(store: &mut LogStore<D>, label: u64, want: &[u64]) -> bool {
    match store.times_of(label) {
        Ok(times) => times.as_slice() == want,
        Err(_) => false,
    }
}

// Whether the versions of record 7 from 100 on, before 131, are those of the four groups.
fn tells_rows<D: Disk>(store: &mut LogStore<D>) -> bool {
    let Ok(view) = store.view() else {
        return false;
    };
    let rows = store.between(&view, SEVEN, 100, 131);
    store.end(view);
    match rows {
        Ok(rows) => are_rows(
            &rows,
            &[(100, 110, b"a"), (110, 120, b"b"), (130, 131, b"c")],
        ),
        Err(_) => false,
    }
}

// Whether record 7 had this value at a time.
fn had<D: Disk>(store: &mut LogStore<D>, time: u64, field: &[u8]) -> bool {
    let Ok(view) = store.view() else {
        return false;
    };
    let found = store.at(&view, SEVEN, time);
    store.end(view);
    match found {
        Ok(Some(value)) => is_value(&value, field),
        _ => false,
    }
}

// Whether nothing is told of record 7 before 130.
fn is_kept_from_130<D: Disk>(store: &mut LogStore<D>) -> bool {
    let Ok(view) = store.view() else {
        return false;
    };
    let found = store.at(&view, SEVEN, 129);
    store.end(view);
    matches!(found, Err(QueryFault::BeforeKept(130)))
}

#[test]
fn a_base_takes_the_place_of_the_front(rt: HostRuntime) -> Result<(), Fail> {
    let mut store = opened_on(&rt, rt.alloc(), Left::FourGroups);
    assert!(rt; store.reclaim_start() == Err(StartFault::NothingToDo));
    assert!(rt; store.archive_start(120) == Ok(()));
    assert!(rt; store.reclaim_start() == Err(StartFault::JobBusy));
    works(&rt, &mut store, ARCHIVE);
    assert!(rt; !store.is_reclaiming());
    assert!(rt; store.reclaim_start() == Ok(()));
    assert!(rt; store.is_reclaiming());
    assert!(rt; store.reclaim_start() == Err(StartFault::JobBusy));
    assert!(rt; store.archive_start(130) == Err(StartFault::JobBusy));
    assert!(rt; store.start_floor(Some(1), 130) == Err(StartFault::JobBusy));
    works(&rt, &mut store, BASE);
    assert!(rt; !store.is_reclaiming());
    assert!(rt; store.reclaim_start() == Err(StartFault::NothingToDo));
    assert!(rt; tells_rows(&mut store));
    assert!(rt; are_times(&mut store, 1, &[100]) && are_times(&mut store, 4, &[130]));
    let mut disk = store.close();
    assert!(rt; is_image(&rt, rt.alloc(), &mut disk, Left::Reclaimed));
    let mut store = opened(&rt, rt.alloc(), disk);
    assert!(rt; store.last() == 130);
    assert!(rt; are_times(&mut store, 4, &[130]));
    assert!(rt; tells_rows(&mut store));
    assert!(rt; store.reclaim_start() == Err(StartFault::NothingToDo));
    assert!(rt; store.archive_start(120) == Err(StartFault::NothingToDo));
    let _disk = store.close();
    Ok(())
}

#[test]
fn a_second_base_has_anchors(rt: HostRuntime) -> Result<(), Fail> {
    let mut store = opened_on(&rt, rt.alloc(), Left::Reclaimed);
    assert!(rt; store.reclaim_start() == Err(StartFault::NothingToDo));
    assert!(rt; store.archive_start(130) == Ok(()));
    works(&rt, &mut store, EMPTY_ARCHIVE);
    assert!(rt; store.reclaim_start() == Ok(()));
    works(&rt, &mut store, ANCHORED);
    assert!(rt; store.reclaim_start() == Err(StartFault::NothingToDo));
    assert!(rt; tells_rows(&mut store));
    let mut disk = store.close();
    assert!(rt; is_image(&rt, rt.alloc(), &mut disk, Left::ReclaimedAgain));
    let mut store = opened(&rt, rt.alloc(), disk);
    assert!(rt; store.last() == 130);
    assert!(rt; tells_rows(&mut store));
    assert!(rt; store.reclaim_start() == Err(StartFault::NothingToDo));
    let _disk = store.close();
    Ok(())
}

/// A store that is never closed has the same bytes: it frees what it gives up, and goes on behind the greatest place that it named.
#[test]
fn reclaims_follow_one_another(rt: HostRuntime) -> Result<(), Fail> {
    let mut store = opened_on(&rt, rt.alloc(), Left::FourGroups);
    assert!(rt; store.archive_start(120) == Ok(()));
    works(&rt, &mut store, ARCHIVE);
    assert!(rt; store.reclaim_start() == Ok(()));
    works(&rt, &mut store, BASE);
    assert!(rt; store.archive_start(130) == Ok(()));
    works(&rt, &mut store, EMPTY_ARCHIVE);
    assert!(rt; store.reclaim_start() == Ok(()));
    works(&rt, &mut store, ANCHORED);
    assert!(rt; tells_rows(&mut store));
    assert!(rt; store.start_floor(Some(1), 130) == Ok(()));
    works(&rt, &mut store, FLOOR);
    assert!(rt; is_kept_from_130(&mut store));
    assert!(rt; store.reclaim_start() == Ok(()));
    works(&rt, &mut store, FLOORS);
    assert!(rt; is_kept_from_130(&mut store));
    let mut disk = store.close();
    assert!(rt; is_image(&rt, rt.alloc(), &mut disk, Left::FloorsReclaimed));
    Ok(())
}

#[test]
fn a_reclaim_of_floors_keeps_the_anchors(rt: HostRuntime) -> Result<(), Fail> {
    let mut store = opened_on(&rt, rt.alloc(), Left::Floored);
    assert!(rt; is_kept_from_130(&mut store) && had(&mut store, 130, b"c"));
    assert!(rt; store.reclaim_start() == Ok(()));
    works(&rt, &mut store, FLOORS);
    assert!(rt; store.reclaim_start() == Err(StartFault::NothingToDo));
    assert!(rt; is_kept_from_130(&mut store) && had(&mut store, 130, b"c"));
    let mut disk = store.close();
    assert!(rt; is_image(&rt, rt.alloc(), &mut disk, Left::FloorsReclaimed));
    Ok(())
}

#[test]
fn commits_behind_a_reclaim_leave_the_anchors(rt: HostRuntime) -> Result<(), Fail> {
    let mut store = opened_on(&rt, rt.alloc(), Left::Floored);
    assert!(rt; store.reclaim_start() == Ok(()));
    works(&rt, &mut store, FLOORS);
    for record in 1..4 {
        queue(&rt, rt.alloc(), &mut store, &[record], &[b"x"], record).give_up();
        pumps(&rt, &mut store, ONE_EXTENT);
    }
    let mut disk = store.close();
    assert!(rt;
        has_bytes(
            &mut disk,
            Area::Heap,
            24_576,
            b"\xc7\0\0\0\x04\0\0\0\0\0\0\0!\0\0\0\x01"
        )
    );
    assert!(rt;
        has_bytes(
            &mut disk,
            Area::Heap,
            0,
            b"\xc7\0\0\0\x01\0\0\0\0\0\0\0!\0\0\0\x03"
        )
    );
    assert!(rt;
        has_bytes(
            &mut disk,
            Area::Heap,
            16_384,
            b"\xc7\0\0\0\x03\0\0\0\0\0\0\0!\0\0\0\x06"
        )
    );
    let mut store = opened(&rt, rt.alloc(), disk);
    assert!(rt; store.last() == 133);
    assert!(rt; store.floors().at(1) == 130);
    assert!(rt; had(&mut store, 133, b"c"));
    let _disk = store.close();
    Ok(())
}

#[test]
fn no_reclaim_below_an_open_transaction(rt: HostRuntime) -> Result<(), Fail> {
    let mut store = opened_on(&rt, rt.alloc(), Left::FourGroups);
    let Ok(txn) = store.begin() else {
        panic!(rt; "no transaction");
    };
    queue(&rt, rt.alloc(), &mut store, &[1], &[b"x"], 5).give_up();
    pumps(&rt, &mut store, ONE_EXTENT);
    assert!(rt; store.archive_start(131) == Ok(()));
    works(&rt, &mut store, ARCHIVE);
    assert!(rt; store.reclaim_start() == Err(StartFault::InUse(130)));
    store.abort(txn);
    assert!(rt; store.reclaim_start() == Ok(()));
    works(&rt, &mut store, ANCHORED);
    let store = opened(&rt, rt.alloc(), store.close());
    assert!(rt; store.last() == 131);
    let _disk = store.close();
    Ok(())
}

// A commit of a record behind 100 with a label behind 10, now 0.
fn queues(rt: &impl Abort, alloc: Global, store: &mut LogStore<MemDisk>, number: u8) {
    let number = u64::from(number);
    queue_at(rt, alloc, store, &[100 + number], &[b"x"], 10 + number, 0).give_up();
}

/// When the reclaim began, its front was fixed and extent 7 taken for its base: the base links to the chain of 130, and all that was published
/// meanwhile stays.
const BESIDE: &[u8] = b"header extents 64 root 7\nchain 7 base 120 0 0 0\nroll 74 48\n\
      chain 4 commits extents 1\nmember 4 130 1 1970-01-01T00:00:00Z\nchain 5 archived 120 0 74 2 0\n\
      chain 6 commits extents 1\nmember 11 131 1 1970-01-01T00:00:00Z\nchain 8 commits extents 1\nmember 12 132 1 1970-01-01T00:00:00Z\n\
      chain 9 commits extents 1\nmember 13 133 1 1970-01-01T00:00:00Z\nchain 10 commits extents 1\nmember 14 134 1 1970-01-01T00:00:00Z\n\
      chain 11 commits extents 1\nmember 15 135 1 1970-01-01T00:00:00Z\nchain 12 commits extents 1\nmember 16 136 1 1970-01-01T00:00:00Z\n\
      chain 13 commits extents 1\nmember 17 137 1 1970-01-01T00:00:00Z\nchain 14 commits extents 1\nmember 18 138 1 1970-01-01T00:00:00Z\n\
      next 15\nused 11 of 64\n";

#[test]
fn groups_are_published_beside_a_reclaim(rt: HostRuntime) -> Result<(), Fail> {
    let mut store = opened_on(&rt, rt.alloc(), Left::Archived);
    assert!(rt; store.reclaim_start() == Ok(()));
    for (number, did) in (1..).zip(&BASE[..6]) {
        queues(&rt, rt.alloc(), &mut store, number);
        pumps(&rt, &mut store, ONE_EXTENT);
        assert!(rt; store.job_pump() == Ok(*did));
    }
    queues(&rt, rt.alloc(), &mut store, 7);
    for did in &ONE_EXTENT[..4] {
        assert!(rt; store.pump() == Ok(*did));
    }
    assert!(rt; store.job_pump() == Err(PumpFault::Busy));
    pumps(&rt, &mut store, &[Did::Published(1)]);
    assert!(rt; store.job_pump() == Ok(JobDid::TurnWritten));
    queues(&rt, rt.alloc(), &mut store, 8);
    for did in &ONE_EXTENT[..3] {
        assert!(rt; store.pump() == Ok(*did));
    }
    assert!(rt; store.pump() == Err(PumpFault::Busy));
    assert!(rt; store.job_pump() == Ok(JobDid::JobDone));
    pumps(&rt, &mut store, &[Did::GateWritten, Did::Published(1)]);
    assert!(rt; store.job_pump() == Ok(JobDid::Idle));
    let mut disk = store.close();
    assert!(rt; is_log(rt.alloc(), &mut disk, BESIDE));
    let mut store = opened(&rt, rt.alloc(), disk);
    assert!(rt; store.last() == 138);
    assert!(rt; are_times(&mut store, 18, &[138]));
    assert!(rt; tells_rows(&mut store));
    let _disk = store.close();
    Ok(())
}

/// What a stop leaves where the turn gate is in the writing: the base, or the log as it was.
const TURNED: &[u8] = b"header extents 64 root 7\nchain 7 base 120 0 0 0\nroll 74 48\n\
      chain 4 commits extents 1\nmember 4 130 1 1970-01-01T00:00:00Z\nchain 5 archived 120 0 74 2 0\nnext 6\nused 3 of 64\n";

const NOT_TURNED: &[u8] =
    b"header extents 64 root 1\nchain 1 commits extents 1\nmember 1 100 1 1970-01-01T00:00:00Z\n\
      chain 2 commits extents 1\nmember 2 110 1 1970-01-01T00:00:00Z\n\
      chain 3 commits extents 1\nmember 3 120 1 1970-01-01T00:00:00Z\n\
      chain 4 commits extents 1\nmember 4 130 1 1970-01-01T00:00:00Z\n\
      chain 5 archived 120 0 74 2 0\nnext 6\nused 5 of 64\n";

#[test]
fn a_stop_while_the_root_turns_leaves_either_log(rt: HostRuntime) -> Result<(), Fail> {
    for (fill, text) in [(0xc7, TURNED), (0x37, NOT_TURNED)] {
        let mut store = opened_on(&rt, rt.alloc(), Left::Archived);
        assert!(rt; store.reclaim_start() == Ok(()));
        for did in &BASE[..6] {
            assert!(rt; store.job_pump() == Ok(*did));
        }
        queues(&rt, rt.alloc(), &mut store, 1);
        for did in &ONE_EXTENT[..3] {
            assert!(rt; store.pump() == Ok(*did));
        }
        assert!(rt; store.job_pump() == Ok(JobDid::TurnWritten));
        let disk = store.close();
        let mut disk = disk.left(rt.alloc(), fill, b"")?;
        assert!(rt; is_log(rt.alloc(), &mut disk, text));
        let mut store = opened(&rt, rt.alloc(), disk);
        assert!(rt; store.last() == 130);
        assert!(rt; tells_rows(&mut store));
        let _disk = store.close();
    }
    Ok(())
}
