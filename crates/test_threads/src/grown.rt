//! A growth through the lock, beside the commits of another thread.
ghost use Rattle.std.specs.Prelude.{◌≡◌, [], length, true};
ghost use Rattle.crossbeam_utils.specs.Seq.{cell_view};
ghost use Rattle.shared.specs.Naming.{IsFresh};

use crate::written::{pump_to, queued};
use any_store::{Did, JobDid, Layout, StartFault, Store};
use disk::{Area, Disk, MemDisk};
use shared::{Observer, Opened, Opening, SharedStore, fresh_store};
use std::alloc::{AllocError, Global};
use std::marker::Brand;
use std::process::Abort;
use std::sync::Wait;
use std::test::Fail;
use std::thread::{Threads, join};

/// The steps of a growth behind its zeros.
const GATE_STEPS: [JobDid; 4] = [
    JobDid::ZerosSynced,
    JobDid::GateWritten,
    JobDid::JobDone,
    JobDid::Idle,
];

/// All steps of a growth. None waits for a group.
fn grow<D: Disk, L: Opening, R: Wait + Abort>(rt: &R, store: &SharedStore<D, L>, me: Observer<L>) {
    let mut me = me;
    assert_eq!(rt; store.grow_start(rt, &mut me), Ok(()));
    assert_eq!(rt; store.grow_start(rt, &mut me), Err(StartFault::JobBusy));
    for _ in 0..16 {
        assert_eq!(rt; store.job_pump(rt, &mut me), Ok(JobDid::WroteZeros));
    }
    for did in GATE_STEPS {
        assert_eq!(rt; store.job_pump(rt, &mut me), Ok(did));
    }
}

/// Ten commits, each in a slot of its own.
fn commit_ten<D: Disk, L: Opening, R: Wait + Abort>(
    rt: &R,
    alloc: Global,
    store: &SharedStore<D, L>,
    me: Observer<L>,
) {
    let mut me = me;
    for record in 0..10 {
        queued(rt, alloc, store, &mut me, (record, Some("a")), 0).give_up();
        pump_to(rt, store, &mut me, Ok(Did::Published(1)));
    }
}

/// A thread lets the store grow, while another commits.
fn grow_beside_commits<D: Disk + Send, L: Opening + Send + Sync, R: Threads + Wait + Abort + Sync>(
    rt: &R,
    alloc: Global,
    store: &SharedStore<D, L>,
    me: Observer<L>,
) {
    let mut me = me;
    let other = store.another(&mut me);
    join(
        rt,
        move || grow(rt, store, other),
        move || commit_ten(rt, alloc, store, me),
    );
}

/// The store has twenty commits, each a microsecond behind the one before.
fn has_twenty<D: Disk>(rt: &impl Abort, store: &mut Store<D>) {
    assert_eq!(rt; store.last(), 20);
    match store.times_of(9) {
        Ok(times) => assert_eq!(rt; times.len(), 20),
        Err(why) => panic!(rt; "{why:?}"),
    }
}

/// The whole example, on a store of 16 slots that was just opened. Of these commits leave two, so the
/// last six commits stand in new ones.
fn fills_new_slots<
    D: Disk + Drop + Send,
    L: Opening + Send + Sync,
    R: Threads + Wait + Abort + Sync,
>(rt: &R, alloc: Global, opened: Opened<D>)
    requires name { (opened.blank.name ≡ L.name) × (opened.blank.parts ≡ L.parts) × (opened.cell.table.shared.table_id ≡ L.table) }
    requires fresh { IsFresh D.tells L.start L.kind L.mark opened.store (cell_view opened.writer) }
{
    let (store, mut share, mut me) = opened.named::<L>();
    let other = store.another(&mut me);
    grow_beside_commits(rt, alloc, &store, other);
    commit_ten(rt, alloc, &store, me);
    let mut store = store.into_store(&mut share);
    has_twenty(rt, &mut store);
    // 512 bytes, and 512 more for each of 272 slots.
    let mut disk = store.close();
    assert_eq!(rt; disk.len(Area::Status), Ok(139_776));
}

#[test]
fn a_store_grows_beside_commits(rt: HostRuntime) -> Result<(), Fail> {
    let alloc = rt.alloc();
    let Ok(store) = fresh_store(alloc, MemDisk::new(alloc), Layout::Slots(16), 1) else {
        return Err(Fail::from("no store"));
    };
    match Opened::new(&rt, alloc, 1, store) {
        Ok(opened) => {
            fills_new_slots::<MemDisk, Brand, _>(&rt, alloc, opened);
            Ok(())
        }
        Err((AllocError, store)) => {
            let _disk = store.close();
            Err(Fail::from("no memory"))
        }
    }
}
