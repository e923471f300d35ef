//! Archives: when they begin, their steps, their bytes, and what a stop leaves of one.
use crate::images::{Left, disk_of};
use crate::on_disk::{ONE_EXTENT, are_alike, finishes, is_log, new_store, opened, pumps};
use crate::queries::is_value;
use disk::{Disk, Fault, FaultDisk, MemDisk};
use group::{PumpFault, SubmitFault, Submitted};
use history::Key;
use log_store::{Did, JobDid, LogStore, StartFault};
use std::alloc::Global;
use std::process::Abort;
use std::test::Fail;

/// What is done to a store, and what must come of it.
#[derive(Clone, Copy)]
enum Deed {
    /// An archive up to a time begins, or is refused.
    Archive(u64, Result<(), StartFault>),
    /// A reclaim begins, or is refused.
    Reclaim(Result<(), StartFault>),
    /// A floor of a relation at a time begins, or is refused.
    Floor(u16, u64, Result<(), StartFault>),
    /// A step of the job.
    Job(Result<JobDid, PumpFault>),
    /// All steps of the job.
    Finish,
    /// A step of a group.
    Pump(Result<Did, PumpFault>),
    /// A value is put to a record, and the commit is queued at a time; or the heap has no room for it.
    Put(u64, &'static [u8], u64),
    Full,
    /// So many commits of record 7, from time 1 on, each published before the next.
    Commits(u64),
    /// A value of record 7 is published at a time, and archived up to then.
    Kept(&'static [u8], u64),
    /// The four values of the images.
    Tells,
    /// It is closed and opened again.
    Reopen,
}

use Deed::{Archive, Commits, Finish, Floor, Full, Job, Kept, Pump, Put, Reclaim, Reopen, Tells};

/// What record 7 has in the images, at times within each version and between.
const VALUES: &[(u64, Option<&[u8]>)] = &[
    (99, None),
    (100, Some(b"a")),
    (109, Some(b"a")),
    (110, Some(b"b")),
    (119, Some(b"b")),
    (120, None),
    (129, None),
    (130, Some(b"c")),
];

fn key(record: u64) -> Key {
    Key {
        relation: 1,
        record,
    }
}

// Whether record 7 had this value at a time, or none.
fn had<D: Disk>(store: &mut LogStore<D>, time: u64, field: Option<&[u8]>) -> bool {
    let Ok(view) = store.view() else {
        return false;
    };
    let found = store.at(&view, key(7), time);
    store.end(view);
    match (found, field) {
        (Ok(None), None) => true,
        (Ok(Some(value)), Some(field)) => is_value(&value, field),
        _ => false,
    }
}

fn tells<D: Disk>(store: &mut LogStore<D>) -> bool {
    for (time, field) in VALUES {
        if !had(store, *time, *field) {
            return false;
        }
    }
    true
}

// Whether a value is put to a record and its commit is queued; none where it has no room in the heap.
fn puts<D: Disk>(
    alloc: Global,
    store: &mut LogStore<D>,
    record: u64,
    field: &[u8],
    now: u64,
) -> Option<bool> {
    let mut txn = store.begin().ok()?;
    if txn.put(alloc, key(record), &[field]).is_err() {
        store.abort(txn);
        return None;
    }
    match store.submit(txn, 1, now) {
        Ok(Submitted::Queued(ticket)) => {
            ticket.give_up();
            Some(true)
        }
        Err(SubmitFault::HeapFull) => Some(false),
        Ok(Submitted::ReadOnly(_)) => None,
        Err(_) => None,
    }
}

// A commit of record 7 that is published.
fn commits(rt: &impl Abort, alloc: Global, store: &mut LogStore<MemDisk>, field: &[u8], now: u64) {
    assert!(rt; puts(alloc, store, 7, field, now) == Some(true));
    pumps(rt, store, ONE_EXTENT);
}

// The same so many times, from time 1 on.
fn commits_all(rt: &impl Abort, alloc: Global, store: &mut LogStore<MemDisk>, count: u64) {
    for _ in 0..count {
        commits(rt, alloc, store, b"a", 0);
    }
}

// A deed that leaves the store open. Whether all came of it that must.
fn does(rt: &impl Abort, alloc: Global, store: &mut LogStore<MemDisk>, deed: Deed) -> bool {
    match deed {
        Archive(upto, answer) => store.archive_start(upto) == answer,
        Reclaim(answer) => store.reclaim_start() == answer,
        Floor(relation, floor, answer) => store.start_floor(Some(relation), floor) == answer,
        Job(answer) => store.job_pump() == answer,
        Finish => finishes(store),
        Pump(answer) => store.pump() == answer,
        Put(record, field, now) => puts(alloc, store, record, field, now) == Some(true),
        Full => puts(alloc, store, 8, b"a", 0) == Some(false),
        Commits(count) => {
            commits_all(rt, alloc, store, count);
            true
        }
        Kept(field, time) => {
            commits(rt, alloc, store, field, time);
            store.archive_start(time) == Ok(()) && finishes(store)
        }
        Tells => tells(store),
        Reopen => false,
    }
}

// All of it is done, in this order, and the disk is given back.
fn goes(rt: &impl Abort, alloc: Global, store: LogStore<MemDisk>, deeds: &[Deed]) -> MemDisk {
    let mut store = store;
    for (number, deed) in deeds.iter().enumerate() {
        match *deed {
            Reopen => store = opened(rt, alloc, store.close()),
            other => assert!(rt; does(rt, alloc, &mut store, other), "deed {number}"),
        }
    }
    store.close()
}

/// Old times are answered alike before, between and behind the steps of an archive.
const STEP_BY_STEP: &[Deed] = &[
    Tells,
    Archive(0, Err(StartFault::NothingToDo)),
    Archive(131, Err(StartFault::NotYet(130))),
    Archive(120, Ok(())),
    Archive(120, Err(StartFault::JobBusy)),
    Floor(1, 130, Err(StartFault::JobBusy)),
    Tells,
    Job(Ok(JobDid::WroteRun)),
    Tells,
    Job(Ok(JobDid::RunSynced)),
    Tells,
    Job(Ok(JobDid::WroteEntry)),
    Tells,
    Job(Ok(JobDid::GateClosed)),
    Tells,
    Job(Ok(JobDid::HeapSynced)),
    Tells,
    Job(Ok(JobDid::GateWritten)),
    Tells,
    Job(Ok(JobDid::JobDone)),
    Tells,
    Job(Ok(JobDid::Idle)),
    Archive(120, Err(StartFault::NothingToDo)),
    Archive(131, Err(StartFault::NotYet(130))),
    Reopen,
    Tells,
    Archive(120, Err(StartFault::NothingToDo)),
];

/// Nothing ended behind 120, so there is no piece of the run to write. What ended before is read of the run that stands.
const EMPTY_RUN: &[Deed] = &[
    Tells,
    Archive(120, Err(StartFault::NothingToDo)),
    Archive(130, Ok(())),
    Tells,
    Job(Ok(JobDid::RunSynced)),
    Job(Ok(JobDid::WroteEntry)),
    Job(Ok(JobDid::GateClosed)),
    Job(Ok(JobDid::HeapSynced)),
    Job(Ok(JobDid::GateWritten)),
    Tells,
    Job(Ok(JobDid::JobDone)),
    Tells,
    Reopen,
    Tells,
    Archive(130, Err(StartFault::NothingToDo)),
];

/// What is archived of which image, and the image that it leaves.
const ARCHIVES: &[(&str, Left, &[Deed], Left)] = &[
    (
        "two versions",
        Left::FourGroups,
        STEP_BY_STEP,
        Left::Archived,
    ),
    (
        "no version",
        Left::Reclaimed,
        EMPTY_RUN,
        Left::ArchivedAgain,
    ),
];

#[test]
fn an_archive_is_a_run_and_its_entry(rt: HostRuntime) -> Result<(), Fail> {
    for (name, left, deeds, behind) in ARCHIVES {
        let store = opened(&rt, rt.alloc(), disk_of(rt.alloc(), *left, &[])?);
        let mut disk = goes(&rt, rt.alloc(), store, deeds);
        let mut want = disk_of(rt.alloc(), *behind, &[])?;
        assert!(rt; are_alike(rt.alloc(), &mut disk, &mut want), "{name}");
    }
    Ok(())
}

/// A floor of what ended by 115, which no run takes.
const FLOORED: &[Deed] = &[
    Floor(1, 115, Ok(())),
    Archive(120, Err(StartFault::JobBusy)),
    Finish,
    Archive(120, Ok(())),
    Finish,
];

const FLOORED_LOG: &[u8] =
    b"header extents 64 root 1\nchain 1 commits extents 1\nmember 1 100 1 1970-01-01T00:00:00Z\n\
      chain 2 commits extents 1\nmember 2 110 1 1970-01-01T00:00:00Z\n\
      chain 3 commits extents 1\nmember 3 120 1 1970-01-01T00:00:00Z\n\
      chain 4 commits extents 1\nmember 4 130 1 1970-01-01T00:00:00Z\n\
      chain 5 floor 115 relation 1\nchain 6 archived 120 0 37 1 0\nnext 7\nused 6 of 64\n";

/// Seven values, each archived when it is published: the first run is empty, and each of the others has one version.
const SEVEN_RUNS: &[Deed] = &[
    Kept(b"1", 110),
    Kept(b"2", 120),
    Kept(b"3", 130),
    Kept(b"4", 140),
    Kept(b"5", 150),
    Kept(b"6", 160),
    Kept(b"7", 170),
];

const SEVEN_RUNS_LOG: &[u8] =
    b"header extents 64 root 1\nchain 1 commits extents 1\nmember 1 110 1 1970-01-01T00:00:00Z\nchain 2 archived 110 0 0 0 0\n\
      chain 3 commits extents 1\nmember 1 120 1 1970-01-01T00:00:00Z\nchain 4 archived 120 0 37 1 0\n\
      chain 5 commits extents 1\nmember 1 130 1 1970-01-01T00:00:00Z\nchain 6 archived 130 37 37 1 0\n\
      chain 7 commits extents 1\nmember 1 140 1 1970-01-01T00:00:00Z\nchain 8 archived 140 74 37 1 0\n\
      chain 9 commits extents 1\nmember 1 150 1 1970-01-01T00:00:00Z\nchain 10 archived 150 111 37 1 0\n\
      chain 11 commits extents 1\nmember 1 160 1 1970-01-01T00:00:00Z\nchain 12 archived 160 148 37 1 0\n\
      chain 13 commits extents 1\nmember 1 170 1 1970-01-01T00:00:00Z\nchain 14 archived 170 185 37 1 0\nnext 15\nused 14 of 64\n";

#[test]
fn a_run_leaves_out_what_ended_by_a_floor(rt: HostRuntime) -> Result<(), Fail> {
    let store = opened(&rt, rt.alloc(), disk_of(rt.alloc(), Left::FourGroups, &[])?);
    let mut disk = goes(&rt, rt.alloc(), store, FLOORED);
    assert!(rt; is_log(rt.alloc(), &mut disk, FLOORED_LOG));
    Ok(())
}

#[test]
fn each_run_begins_where_the_one_before_ends(rt: HostRuntime) -> Result<(), Fail> {
    let store = new_store(&rt, rt.alloc());
    let mut disk = goes(&rt, rt.alloc(), store, SEVEN_RUNS);
    assert!(rt; is_log(rt.alloc(), &mut disk, SEVEN_RUNS_LOG));
    Ok(())
}

/// The run is written and synced beside a group, but one chain is in the writing at a time: the entry waits for the group, and the next group
/// for the entry.
const BESIDE: &[Deed] = &[
    Put(8, b"d", 140),
    Pump(Ok(Did::WroteExtent)),
    Archive(120, Ok(())),
    Job(Ok(JobDid::WroteRun)),
    Pump(Ok(Did::GateClosed)),
    Job(Ok(JobDid::RunSynced)),
    Job(Err(PumpFault::Busy)),
    Put(9, b"e", 150),
    Pump(Ok(Did::HeapSynced)),
    Pump(Ok(Did::GateWritten)),
    Job(Err(PumpFault::Busy)),
    Pump(Ok(Did::Published(1))),
    Pump(Err(PumpFault::Busy)),
    Job(Ok(JobDid::WroteEntry)),
    Pump(Err(PumpFault::Busy)),
    Job(Ok(JobDid::GateClosed)),
    Job(Ok(JobDid::HeapSynced)),
    Job(Ok(JobDid::GateWritten)),
    Pump(Err(PumpFault::Busy)),
    Job(Ok(JobDid::JobDone)),
    Pump(Ok(Did::WroteExtent)),
    Pump(Ok(Did::GateClosed)),
    Pump(Ok(Did::HeapSynced)),
    Pump(Ok(Did::GateWritten)),
    Pump(Ok(Did::Published(1))),
    Tells,
    Reopen,
    Tells,
    Archive(120, Err(StartFault::NothingToDo)),
    Archive(151, Err(StartFault::NotYet(150))),
];

#[test]
fn an_entry_of_an_archive_and_a_group_wait_for_each_other(rt: HostRuntime) -> Result<(), Fail> {
    let store = opened(&rt, rt.alloc(), disk_of(rt.alloc(), Left::FourGroups, &[])?);
    let _disk = goes(&rt, rt.alloc(), store, BESIDE);
    Ok(())
}

/// Where the log has 28 of its 32 extents: the entries of floors and of archives below the last commit leave two, and that of an archive up to
/// the last commit none. A reclaim makes room.
const ALMOST_FULL: &[Deed] = &[
    Commits(27),
    Full,
    Floor(1, 27, Ok(())),
    Finish,
    Archive(26, Ok(())),
    Finish,
    Floor(2, 27, Err(StartFault::HeapFull)),
    Floor(1, 27, Err(StartFault::NothingToDo)),
    Archive(26, Err(StartFault::NothingToDo)),
    Archive(27, Ok(())),
    Finish,
    Full,
    Reclaim(Ok(())),
    Finish,
    Put(7, b"a", 0),
];

/// Two floors leave no room for one below the last commit.
const TWO_FLOORS: &[Deed] = &[
    Commits(27),
    Floor(1, 27, Ok(())),
    Finish,
    Floor(2, 27, Ok(())),
    Finish,
    Archive(26, Err(StartFault::HeapFull)),
    Archive(27, Ok(())),
    Finish,
];

/// The extent of its entry is no commit's, from the beginning of the job on. A reclaim makes room.
const PROMISED: &[Deed] = &[
    Commits(26),
    Archive(26, Ok(())),
    Full,
    Job(Ok(JobDid::WroteRun)),
    Job(Ok(JobDid::RunSynced)),
    Full,
    Job(Ok(JobDid::WroteEntry)),
    Full,
    Finish,
    Full,
    Reclaim(Ok(())),
    Finish,
    Put(7, b"a", 0),
];

const SHARES: &[&[Deed]] = &[ALMOST_FULL, TWO_FLOORS, PROMISED];

#[test]
fn an_archive_of_all_has_room_in_a_log_that_is_full(rt: HostRuntime) -> Result<(), Fail> {
    for deeds in SHARES {
        let _disk = goes(&rt, rt.alloc(), new_store(&rt, rt.alloc()), deeds);
    }
    Ok(())
}

#[test]
fn a_view_reads_on_beside_an_archive(rt: HostRuntime) -> Result<(), Fail> {
    let mut store = opened(&rt, rt.alloc(), disk_of(rt.alloc(), Left::Reclaimed, &[])?);
    let Ok(view) = store.view() else {
        panic!(rt; "no view");
    };
    assert!(rt; store.archive_start(130) == Ok(()) && finishes(&mut store));
    match store.at(&view, key(7), 105) {
        Ok(Some(value)) => assert!(rt; is_value(&value, b"a")),
        _ => panic!(rt; "no value at 105"),
    }
    store.end(view);
    let _disk = store.close();
    Ok(())
}

// More calls than an opening and an archive make.
const CALLS: u64 = 32;

/// Whether the write that is refused reaches the disk, and the byte that torn places have.
const STOPS: &[(bool, u8)] = &[(false, 0), (true, 0), (true, 0xc7), (true, 0xff)];

// What a stop at a device call leaves of a disk on which a store is opened and archived up to 120, unless it is already; and whether the
// archive was done before the stop.
fn left_of(
    alloc: Global,
    disk: MemDisk,
    calls: u64,
    (write_reaches, fill): (bool, u8),
) -> Result<(MemDisk, bool), Fail> {
    let fault = Fault {
        calls_before: calls,
        write_reaches,
        stops: true,
    };
    match LogStore::open(alloc, FaultDisk::new(disk, fault), 2) {
        Err((_, disk)) => Ok((disk.left(alloc, fill, b"")?, false)),
        Ok(mut store) => {
            let is_done = match store.archive_start(120) {
                Ok(()) => finishes(&mut store),
                Err(fault) => fault == StartFault::NothingToDo,
            };
            Ok((store.close().left(alloc, fill, b"")?, is_done))
        }
    }
}

// The store answers as ever, and has the archive if it was done, or may take it. Then it is as if nothing had stopped it.
fn is_whole(rt: &impl Abort, alloc: Global, disk: MemDisk, is_done: bool) -> Result<(), Fail> {
    let mut store = opened(rt, alloc, disk);
    assert!(rt; tells(&mut store));
    match store.archive_start(120) {
        Ok(()) => assert!(rt; !is_done && finishes(&mut store)),
        Err(fault) => assert!(rt; fault == StartFault::NothingToDo),
    }
    assert!(rt; tells(&mut store));
    let mut disk = store.close();
    let mut want = disk_of(alloc, Left::Archived, &[])?;
    assert!(rt; are_alike(alloc, &mut disk, &mut want));
    Ok(())
}

#[test]
fn a_stop_leaves_an_archive_or_nothing_of_it(rt: HostRuntime) -> Result<(), Fail> {
    for calls in 0..CALLS {
        for stop in STOPS {
            let disk = disk_of(rt.alloc(), Left::FourGroups, &[])?;
            let (disk, is_done) = left_of(rt.alloc(), disk, calls, *stop)?;
            is_whole(&rt, rt.alloc(), disk, is_done)?;
        }
    }
    let disk = disk_of(rt.alloc(), Left::FourGroups, &[])?;
    let (_disk, is_done) = left_of(rt.alloc(), disk, CALLS, (true, 0))?;
    assert!(rt; is_done);
    Ok(())
}

#[test]
fn a_second_stop_in_an_archive_does_too(rt: HostRuntime) -> Result<(), Fail> {
    for calls in 0..CALLS {
        for more in 0..3 {
            let disk = disk_of(rt.alloc(), Left::FourGroups, &[])?;
            let (disk, was_done) = left_of(rt.alloc(), disk, calls, (true, 0xc7))?;
            let (disk, is_done) = left_of(rt.alloc(), disk, calls + more, (false, 0xff))?;
            is_whole(&rt, rt.alloc(), disk, was_done || is_done)?;
        }
    }
    Ok(())
}
