//! A vacuum goes on until it is told to end, and what it waits for wakes it.
ghost use Rattle.std.specs.Prelude.{◌≡◌, [], length, true};
ghost use Rattle.crossbeam_utils.specs.Seq.{cell_view};
ghost use Rattle.shared.specs.Naming.{IsFresh};

use crate::loops::{await_count, count_one, note_step};
use crate::noted::{Step, step_of};
use crate::written::{begun, publish_four, pump_to, queued};
use any_store::{Did, JobDid, Layout, StartFault};
use disk::{Disk, MemDisk};
use shared::{Observer, Opened, Opening, SharedStore, SharedTxn, VacuumEnd, Vacuumed, fresh_store};
use std::alloc::{AllocError, Global};
use std::marker::Brand;
use std::process::Abort;
use std::sync::Wait;
use std::sync::atomic::AtomicU64;
use std::test::Fail;
use std::thread::{Threads, join};

/// Its steps: both jobs; nothing, where a commit is queued; once it is published an archive, and a reclaim
/// that a transaction bars; and the reclaim once that has ended. Between these it sleeps.
const STEPS: [Step; 38] = [
    Step::Start(Ok(())),
    Step::Job(Ok(JobDid::WroteRun)),
    Step::Job(Ok(JobDid::RunSynced)),
    Step::Job(Ok(JobDid::BodyWritten)),
    Step::Job(Ok(JobDid::BodySynced)),
    Step::Job(Ok(JobDid::GateWritten)),
    Step::Job(Ok(JobDid::JobDone)),
    Step::Start(Ok(())),
    Step::Job(Ok(JobDid::WroteExtent)),
    Step::Job(Ok(JobDid::HeapSynced)),
    Step::Job(Ok(JobDid::BodyWritten)),
    Step::Job(Ok(JobDid::BodySynced)),
    Step::Job(Ok(JobDid::GateWritten)),
    Step::Job(Ok(JobDid::JobDone)),
    Step::Start(Err(StartFault::NothingToDo)),
    Step::Start(Err(StartFault::NothingToDo)),
    Step::Start(Err(StartFault::NothingToDo)),
    Step::Start(Err(StartFault::NothingToDo)),
    Step::Start(Ok(())),
    Step::Job(Ok(JobDid::WroteRun)),
    Step::Job(Ok(JobDid::RunSynced)),
    Step::Job(Ok(JobDid::BodyWritten)),
    Step::Job(Ok(JobDid::BodySynced)),
    Step::Job(Ok(JobDid::GateWritten)),
    Step::Job(Ok(JobDid::JobDone)),
    Step::Start(Err(StartFault::InUse(130))),
    Step::Start(Err(StartFault::NothingToDo)),
    Step::Start(Err(StartFault::InUse(130))),
    Step::Start(Err(StartFault::NothingToDo)),
    Step::Start(Ok(())),
    Step::Job(Ok(JobDid::WroteExtent)),
    Step::Job(Ok(JobDid::HeapSynced)),
    Step::Job(Ok(JobDid::BodyWritten)),
    Step::Job(Ok(JobDid::BodySynced)),
    Step::Job(Ok(JobDid::GateWritten)),
    Step::Job(Ok(JobDid::JobDone)),
    Step::Start(Err(StartFault::NothingToDo)),
    Step::Start(Err(StartFault::NothingToDo)),
];

/// Its last answer.
const LAST: Vacuumed = Vacuumed::Start(Err(StartFault::NothingToDo));

/// The vacuum gave this answer.
fn note(rt: &impl Abort, steps: &AtomicU64, answer: &Vacuumed) {
    note_step(rt, steps, &STEPS, step_of(answer));
}

/// The vacuum makes its steps up to its end, which is counted too.
fn run<D: Disk, L: Opening, R: Wait + Abort>(
    rt: &R,
    store: &SharedStore<D, L>,
    me: Observer<L>,
    steps: &AtomicU64,
) {
    let mut me = me;
    let end = store.run_vacuum(rt, &mut me, |rt, answer| note(rt, steps, answer));
    assert!(rt; end == VacuumEnd::Told(Some(LAST)));
    count_one(steps);
}

/// A commit that is queued finds the vacuum asleep, and so does its publication.
fn wake_by_a_commit<D: Disk, L: Opening, R: Wait + Abort>(
    rt: &R,
    alloc: Global,
    store: &SharedStore<D, L>,
    me: &mut Observer<L>,
    steps: &AtomicU64,
) {
    queued(rt, alloc, store, me, (7, Some("d")), 140).give_up();
    await_count(rt, steps, 18);
    pump_to(rt, store, me, Ok(Did::Published(1)));
    await_count(rt, steps, 28);
}

/// So does the end of the transaction that bars its reclaim.
fn wake_by_an_end<D: Disk, L: Opening, R: Wait + Abort>(
    rt: &R,
    store: &SharedStore<D, L>,
    reader: SharedTxn<L>,
    me: &mut Observer<L>,
    steps: &AtomicU64,
) {
    store.abort(rt, reader, me);
    await_count(rt, steps, 38);
}

/// Each of these wakes it, and then it is told to end.
fn wake<D: Disk, L: Opening, R: Wait + Abort>(
    rt: &R,
    alloc: Global,
    store: &SharedStore<D, L>,
    me: Observer<L>,
    steps: &AtomicU64,
) {
    let mut me = me;
    await_count(rt, steps, 16);
    let reader = begun(rt, store, &mut me);
    wake_by_a_commit(rt, alloc, store, &mut me, steps);
    wake_by_an_end(rt, store, reader, &mut me, steps);
    store.stop(rt);
    await_count(rt, steps, 39);
}

/// A vacuum in a thread of its own, which another wakes.
fn run_beside<D: Disk + Send, L: Opening + Send + Sync, R: Threads + Wait + Abort + Sync>(
    rt: &R,
    alloc: Global,
    store: &SharedStore<D, L>,
    me: Observer<L>,
    steps: &AtomicU64,
) {
    let mut me = me;
    let other = store.another(&mut me);
    join(
        rt,
        move || run(rt, store, other, steps),
        move || wake(rt, alloc, store, me, steps),
    );
}

/// The whole example, on a store that was just opened.
fn goes_on<D: Disk + Drop + Send, L: Opening + Send + Sync, R: Threads + Wait + Abort + Sync>(
    rt: &R,
    alloc: Global,
    opened: Opened<D>,
)
    requires name { (opened.blank.name ≡ L.name) × (opened.blank.parts ≡ L.parts) × (opened.cell.table.shared.table_id ≡ L.table) }
    requires fresh { IsFresh D.tells L.start L.kind L.mark opened.store (cell_view opened.writer) }
{
    let (store, mut share, mut me) = opened.named::<L>();
    publish_four(rt, alloc, &store, &mut me);
    let steps = AtomicU64::new(0);
    run_beside(rt, alloc, &store, me, &steps);
    let _disk = store.into_store(&mut share).close();
}

#[test]
fn a_vacuum_goes_on_until_it_is_told_to_end(rt: HostRuntime) -> Result<(), Fail> {
    let alloc = rt.alloc();
    let Ok(store) = fresh_store(alloc, MemDisk::new(alloc), Layout::Slots(64), 1) else {
        return Err(Fail::from("no store"));
    };
    match Opened::new(&rt, alloc, 1, store) {
        Ok(opened) => {
            goes_on::<MemDisk, Brand, _>(&rt, alloc, opened);
            Ok(())
        }
        Err((AllocError, store)) => {
            let _disk = store.close();
            Err(Fail::from("no memory"))
        }
    }
}
