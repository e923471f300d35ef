//! The floor of a relation where the log lies in the heap: one thread raises it while another commits.
ghost use Rattle.std.specs.Prelude.{◌≡◌, [], length, true};
ghost use Rattle.crossbeam_utils.specs.Seq.{cell_view};
ghost use Rattle.shared.specs.Naming.{IsFresh};

use crate::floored::ask_later;
use crate::written::{publish_four, queued};
use any_store::{Did, JobDid, Layout, PumpFault, StartFault};
use disk::{Disk, MemDisk};
use shared::{Observer, Opened, Opening, SharedStore, fresh_store};
use std::alloc::{AllocError, Global};
use std::marker::Brand;
use std::process::Abort;
use std::sync::Wait;
use std::test::Fail;
use std::thread;
use std::thread::{Threads, join};

/// The steps of a floor's entry.
const ENTRY: [JobDid; 5] = [
    JobDid::WroteEntry,
    JobDid::GateClosed,
    JobDid::HeapSynced,
    JobDid::GateWritten,
    JobDid::JobDone,
];

/// The next step of the job, which waits while a group is in the writing.
fn next_step<D: Disk, L: Opening, R: Wait>(
    rt: &R,
    store: &SharedStore<D, L>,
    me: &mut Observer<L>,
) -> Result<JobDid, PumpFault> {
    for _ in rt.forever() {
        let did = store.job_pump(rt, me);
        if did != Err(PumpFault::Busy) {
            return did;
        }
        thread::yield_now();
    }
    unreachable!()
}

/// Raises the floor of the relation to 120. There is none for all relations, and a reclaim waits for an archive.
fn raise<D: Disk, L: Opening, R: Wait + Abort>(rt: &R, store: &SharedStore<D, L>, me: Observer<L>) {
    let mut me = me;
    let wrong = Err(StartFault::WrongProfile);
    assert_eq!(rt; store.floor_start(rt, 120, &mut me), wrong);
    assert_eq!(rt;
        store.reclaim_start(rt, &mut me),
        Err(StartFault::NothingToDo)
    );
    assert_eq!(rt; store.floor_of_start(rt, 1, 120, &mut me), Ok(()));
    assert_eq!(rt;
        store.floor_of_start(rt, 2, 120, &mut me),
        Err(StartFault::JobBusy)
    );
    for did in ENTRY {
        assert_eq!(rt; next_step(rt, store, &mut me), Ok(did));
    }
    assert_eq!(rt; store.job_pump(rt, &mut me), Ok(JobDid::Idle));
    assert_eq!(rt;
        store.floor_of_start(rt, 1, 120, &mut me),
        Err(StartFault::NothingToDo)
    );
}

/// Takes steps of the group until a commit is published. While a job's entry is before it, it waits.
fn publish_one<D: Disk, L: Opening, R: Wait>(
    rt: &R,
    store: &SharedStore<D, L>,
    me: &mut Observer<L>,
) {
    for _ in rt.forever() {
        if store.pump(rt, me) == Ok(Did::Published(1)) {
            return;
        }
        thread::yield_now();
    }
}

/// Ten commits, each published before the next.
fn commit_ten<D: Disk, L: Opening, R: Wait + Abort>(
    rt: &R,
    alloc: Global,
    store: &SharedStore<D, L>,
    me: Observer<L>,
) {
    let mut me = me;
    for record in 0..10 {
        queued(rt, alloc, store, &mut me, (record, Some("a")), 0).give_up();
        publish_one(rt, store, &mut me);
    }
}

/// A thread raises the floor, while another commits.
fn raise_beside_commits<D: Disk + Send, L: Opening + Send + Sync, R: Threads + Wait + Abort + Sync>(
    rt: &R,
    alloc: Global,
    store: &SharedStore<D, L>,
    me: Observer<L>,
) {
    let mut me = me;
    let other = store.another(&mut me);
    join(
        rt,
        move || raise(rt, store, other),
        move || commit_ten(rt, alloc, store, me),
    );
}

/// The whole example, on a store that was just opened.
fn refuses_below_its_floor<
    D: Disk + Drop + Send,
    L: Opening + Send + Sync,
    R: Threads + Wait + Abort + Sync,
>(rt: &R, alloc: Global, opened: Opened<D>)
    requires name { (opened.blank.name ≡ L.name) × (opened.blank.parts ≡ L.parts) × (opened.cell.table.shared.table_id ≡ L.table) }
    requires fresh { IsFresh D.tells L.start L.kind L.mark opened.store (cell_view opened.writer) }
{
    let (store, mut share, mut me) = opened.named::<L>();
    publish_four(rt, alloc, &store, &mut me);
    let other = store.another(&mut me);
    raise_beside_commits(rt, alloc, &store, other);
    let Ok(mut view) = store.view(rt, &mut me) else {
        panic!(rt; "no view");
    };
    ask_later(rt, &store, &mut view);
    store.end(view);
    let store = store.into_store(&mut share);
    assert_eq!(rt; store.last(), 140);
    assert_eq!(rt; (store.floors().at(1), store.floors().at(2)), (120, 0));
    let _disk = store.close();
}

#[test]
fn a_floor_in_the_heap_is_raised_beside_commits(rt: HostRuntime) -> Result<(), Fail> {
    let alloc = rt.alloc();
    let Ok(store) = fresh_store(alloc, MemDisk::new(alloc), Layout::Log(64), 1) else {
        return Err(Fail::from("no store"));
    };
    match Opened::new(&rt, alloc, 1, store) {
        Ok(opened) => {
            refuses_below_its_floor::<MemDisk, Brand, _>(&rt, alloc, opened);
            Ok(())
        }
        Err((AllocError, store)) => {
            let _disk = store.close();
            Err(Fail::from("no memory"))
        }
    }
}
