//! A committer goes on until it is told to end, and what it waits for wakes it.
ghost use Rattle.std.specs.Prelude.{◌≡◌, [], length, true};
ghost use Rattle.crossbeam_utils.specs.Seq.{cell_view};
ghost use Rattle.shared.specs.Naming.{IsFresh};

use crate::loops::{await_count, count_one, note_step};
use crate::noted::Step;
use crate::written::{publish_four, pump_job, queued};
use any_store::{Did, JobDid, Layout, PumpFault};
use disk::{Disk, MemDisk};
use shared::{Observer, Opened, Opening, SharedStore, fresh_store};
use std::alloc::{AllocError, Global};
use std::marker::Brand;
use std::process::Abort;
use std::sync::Wait;
use std::sync::atomic::AtomicU64;
use std::test::Fail;
use std::thread::{Threads, join};

/// Its steps: three commits in turn, one that waits for a job, and its end. Between the commits, and where the
/// job's slot is in the writing, it sleeps.
const STEPS: [Step; 26] = [
    Step::Group(Ok(Did::WroteExtent)),
    Step::Group(Ok(Did::HeapSynced)),
    Step::Group(Ok(Did::BodyWritten)),
    Step::Group(Ok(Did::BodySynced)),
    Step::Group(Ok(Did::GateWritten)),
    Step::Group(Ok(Did::Published(1))),
    Step::Group(Ok(Did::WroteExtent)),
    Step::Group(Ok(Did::HeapSynced)),
    Step::Group(Ok(Did::BodyWritten)),
    Step::Group(Ok(Did::BodySynced)),
    Step::Group(Ok(Did::GateWritten)),
    Step::Group(Ok(Did::Published(1))),
    Step::Group(Ok(Did::WroteExtent)),
    Step::Group(Ok(Did::HeapSynced)),
    Step::Group(Ok(Did::BodyWritten)),
    Step::Group(Ok(Did::BodySynced)),
    Step::Group(Ok(Did::GateWritten)),
    Step::Group(Ok(Did::Published(1))),
    Step::Group(Ok(Did::WroteExtent)),
    Step::Group(Ok(Did::HeapSynced)),
    Step::Group(Err(PumpFault::Busy)),
    Step::Group(Ok(Did::BodyWritten)),
    Step::Group(Ok(Did::BodySynced)),
    Step::Group(Ok(Did::GateWritten)),
    Step::Group(Ok(Did::Published(1))),
    Step::Group(Ok(Did::Idle)),
];

/// The committer made this step.
fn note(rt: &impl Abort, steps: &AtomicU64, did: &Result<Did, PumpFault>) {
    note_step(rt, steps, &STEPS, Step::Group(*did));
}

/// The committer makes its steps up to its end, which is counted too.
fn run<D: Disk, L: Opening, R: Wait + Abort>(
    rt: &R,
    store: &SharedStore<D, L>,
    me: Observer<L>,
    steps: &AtomicU64,
) {
    let mut me = me;
    let last = store.run_committer(rt, &mut me, |rt, did| note(rt, steps, did));
    assert!(rt; last == Ok(Did::Idle));
    count_one(steps);
}

/// A commit finds the committer asleep, which publishes it with its step of this number.
fn commit<D: Disk, L: Opening, R: Wait + Abort>(
    rt: &R,
    alloc: Global,
    store: &SharedStore<D, L>,
    me: &mut Observer<L>,
    steps: &AtomicU64,
    published: u64,
) {
    queued(rt, alloc, store, me, (8, Some("d")), 0).give_up();
    await_count(rt, steps, published);
}

/// An archive up to the writing of its slot's body.
fn begin_archive<D: Disk, L: Opening, R: Wait + Abort>(
    rt: &R,
    store: &SharedStore<D, L>,
    me: &mut Observer<L>,
) {
    assert!(rt; store.archive_start(rt, 120, me).is_ok());
    for _ in 0..2 {
        assert!(rt; store.job_pump(rt, me).is_ok());
    }
    assert!(rt; store.job_pump(rt, me) == Ok(JobDid::BodyWritten));
}

/// A commit that waits for the archive: once that is done the committer goes on.
fn commit_behind_a_job<D: Disk, L: Opening, R: Wait + Abort>(
    rt: &R,
    alloc: Global,
    store: &SharedStore<D, L>,
    me: &mut Observer<L>,
    steps: &AtomicU64,
) {
    begin_archive(rt, store, me);
    commit(rt, alloc, store, me, steps, 21);
    pump_job(rt, store, me);
    await_count(rt, steps, 25);
}

/// Commits that find the committer asleep, of which a job is before the last. Then it is told to end.
fn wake<D: Disk, L: Opening, R: Wait + Abort>(
    rt: &R,
    alloc: Global,
    store: &SharedStore<D, L>,
    me: Observer<L>,
    steps: &AtomicU64,
) {
    let mut me = me;
    commit(rt, alloc, store, &mut me, steps, 6);
    commit(rt, alloc, store, &mut me, steps, 12);
    commit(rt, alloc, store, &mut me, steps, 18);
    commit_behind_a_job(rt, alloc, store, &mut me, steps);
    store.stop(rt);
    await_count(rt, steps, 27);
}

/// A committer in a thread of its own, which another wakes.
fn run_beside<D: Disk + Send, L: Opening + Send + Sync, R: Threads + Wait + Abort + Sync>(
    rt: &R,
    alloc: Global,
    store: &SharedStore<D, L>,
    me: Observer<L>,
    steps: &AtomicU64,
) {
    let mut me = me;
    let other = store.another(&mut me);
    join(
        rt,
        move || run(rt, store, other, steps),
        move || wake(rt, alloc, store, me, steps),
    );
}

/// The whole example, on a store that was just opened.
fn goes_on<D: Disk + Drop + Send, L: Opening + Send + Sync, R: Threads + Wait + Abort + Sync>(
    rt: &R,
    alloc: Global,
    opened: Opened<D>,
)
    requires name { (opened.blank.name ≡ L.name) × (opened.blank.parts ≡ L.parts) × (opened.cell.table.shared.table_id ≡ L.table) }
    requires fresh { IsFresh D.tells L.start L.kind L.mark opened.store (cell_view opened.writer) }
{
    let (store, mut share, mut me) = opened.named::<L>();
    publish_four(rt, alloc, &store, &mut me);
    let steps = AtomicU64::new(0);
    run_beside(rt, alloc, &store, me, &steps);
    let _disk = store.into_store(&mut share).close();
}

#[test]
fn a_committer_goes_on_until_it_is_told_to_end(rt: HostRuntime) -> Result<(), Fail> {
    let alloc = rt.alloc();
    let Ok(store) = fresh_store(alloc, MemDisk::new(alloc), Layout::Slots(64), 1) else {
        return Err(Fail::from("no store"));
    };
    match Opened::new(&rt, alloc, 1, store) {
        Ok(opened) => {
            goes_on::<MemDisk, Brand, _>(&rt, alloc, opened);
            Ok(())
        }
        Err((AllocError, store)) => {
            let _disk = store.close();
            Err(Fail::from("no memory"))
        }
    }
}
