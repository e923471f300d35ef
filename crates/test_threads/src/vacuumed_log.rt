//! A vacuum where the log lies in the heap: it archives, reclaims, and goes on. Views answer the same, and a label has all its times.
ghost use Rattle.std.specs.Prelude.{◌≡◌, [], length, true};
ghost use Rattle.crossbeam_utils.specs.Seq.{cell_view};
ghost use Rattle.shared.specs.Naming.{IsFresh};

use crate::counted_disk::CountedDisk;
use crate::noted::{Notes, Step, note, step_of};
use crate::vacuumed::wait_for_a_snapshot;
use crate::written::{has, has_none, has_rows, has_times, publish_four, pump_job, refuses};
use any_store::{JobDid, Layout, QueryFault, StartFault};
use disk::{Disk, MemDisk};
use shared::{
    Observer, Opened, Opening, SharedStore, SharedView, VacuumEnd, Vacuumed, fresh_store,
};
use std::alloc::{AllocError, Global};
use std::marker::Brand;
use std::process::Abort;
use std::sync::atomic::AtomicU64;
use std::sync::{Arc, Wait};
use std::test::Fail;

/// An archive of all that has ended, a reclaim with one extent of anchors and one of the base, and then nothing more to do.
const STEPS: [(Step, u64); 20] = [
    (Step::Start(Ok(())), 130),
    (Step::Job(Ok(JobDid::WroteRun)), 130),
    (Step::Job(Ok(JobDid::RunSynced)), 130),
    (Step::Job(Ok(JobDid::WroteEntry)), 130),
    (Step::Job(Ok(JobDid::GateClosed)), 130),
    (Step::Job(Ok(JobDid::HeapSynced)), 130),
    (Step::Job(Ok(JobDid::GateWritten)), 130),
    (Step::Job(Ok(JobDid::JobDone)), 130),
    (Step::Start(Ok(())), 130),
    (Step::Job(Ok(JobDid::WroteExtent)), 130),
    (Step::Job(Ok(JobDid::WroteExtent)), 130),
    (Step::Job(Ok(JobDid::HeapSynced)), 130),
    (Step::Job(Ok(JobDid::WroteRoll)), 130),
    (Step::Job(Ok(JobDid::RollSynced)), 130),
    (Step::Job(Ok(JobDid::RootWritten)), 130),
    (Step::Job(Ok(JobDid::RootSynced)), 130),
    (Step::Job(Ok(JobDid::TurnWritten)), 130),
    (Step::Job(Ok(JobDid::JobDone)), 130),
    (Step::Start(Err(StartFault::NothingToDo)), 130),
    (Step::Start(Err(StartFault::NothingToDo)), 130),
];

/// Its last answer.
const LAST: Vacuumed = Vacuumed::Start(Err(StartFault::NothingToDo));

/// The vacuum gave this answer. At the last one it is told to stop.
fn note_vacuumed<D: Disk, L: Opening, R: Wait + Abort>(
    rt: &R,
    store: &SharedStore<D, L>,
    calls: &AtomicU64,
    me: &mut Observer<L>,
    notes: &mut Notes<'_>,
    answer: &Vacuumed,
) {
    if notes.count() == 19 {
        store.stop(rt);
    }
    note(rt, store, calls, me, notes, step_of(answer));
}

/// A vacuum archives and reclaims, and goes on until it is told to end.
fn vacuum_all<D: Disk, L: Opening, R: Wait + Abort>(
    rt: &R,
    store: &SharedStore<D, L>,
    calls: &AtomicU64,
    me: &mut Observer<L>,
) {
    let mut other = store.another(me);
    let mut notes = Notes::new(&STEPS, calls);
    let end = store.run_vacuum(rt, me, |rt, answer| {
        note_vacuumed(rt, store, calls, &mut other, &mut notes, answer);
    });
    assert_eq!(rt; notes.count(), STEPS.len());
    assert_eq!(rt; end, VacuumEnd::Told(Some(LAST)));
}

/// All versions are there, whatever is archived and reclaimed.
fn ask_store<D: Disk, L: Opening, R: Wait + Abort>(
    rt: &R,
    store: &SharedStore<D, L>,
    view: &mut SharedView<L>,
) {
    assert!(rt; has(rt, store, view, 7, (105, "a")));
    assert!(rt; has(rt, store, view, 7, (119, "b")));
    assert!(rt; has_none(rt, store, view, 125));
    assert!(rt; has(rt, store, view, 7, (130, "c")));
    assert!(rt; refuses(rt, store, view, 131, QueryFault::NotYet(130)));
    let rows = [(100, 110, "a"), (110, 120, "b"), (130, 131, "c")];
    assert!(rt; has_rows(rt, store, view, (100, 131), &rows));
}

/// An archive up to an earlier time, which a thread begins and ends itself.
fn archive_some<D: Disk, L: Opening, R: Wait + Abort>(
    rt: &R,
    store: &SharedStore<D, L>,
    me: &mut Observer<L>,
) {
    assert_eq!(rt;
        store.archive_start(rt, 131, me),
        Err(StartFault::NotYet(130))
    );
    assert_eq!(rt; store.archive_start(rt, 110, me), Ok(()));
    assert_eq!(rt; store.archive_start(rt, 120, me), Err(StartFault::JobBusy));
    pump_job(rt, store, me);
    assert_eq!(rt;
        store.archive_start(rt, 110, me),
        Err(StartFault::NothingToDo)
    );
}

/// The whole example, on a store that was just opened.
fn archives_and_reclaims<D: Disk + Drop, L: Opening, R: Wait + Abort>(
    rt: &R,
    alloc: Global,
    opened: Opened<D>,
    calls: &AtomicU64,
)
    requires name { (opened.blank.name ≡ L.name) × (opened.blank.parts ≡ L.parts) × (opened.cell.table.shared.table_id ≡ L.table) }
    requires fresh { IsFresh D.tells L.start L.kind L.mark opened.store (cell_view opened.writer) }
{
    let (store, mut share, mut me) = opened.named::<L>();
    publish_four(rt, alloc, &store, &mut me);
    archive_some(rt, &store, &mut me);
    let Ok(mut earlier) = store.view(rt, &mut me) else {
        panic!(rt; "no view");
    };
    vacuum_all(rt, &store, calls, &mut me);
    let Ok(mut view) = store.view(rt, &mut me) else {
        panic!(rt; "no view");
    };
    ask_store(rt, &store, &mut view);
    ask_store(rt, &store, &mut earlier);
    assert!(rt; has_times(rt, &store, &mut me, &[100, 110, 120, 130]));
    wait_for_a_snapshot(rt, alloc, &store, &mut me);
    ask_store(rt, &store, &mut earlier);
    assert!(rt; has_times(rt, &store, &mut me, &[100, 110, 120, 130, 140]));
    store.end(view);
    store.end(earlier);
    let _disk = store.into_store(&mut share).close();
}

#[test]
fn a_vacuum_of_a_log_in_the_heap_reclaims(rt: HostRuntime) -> Result<(), Fail> {
    let alloc = rt.alloc();
    let calls = Arc::new(alloc, AtomicU64::new(0))?;
    let disk = CountedDisk::new(MemDisk::new(alloc), Arc::try_clone(&calls)?);
    let Ok(store) = fresh_store(alloc, disk, Layout::Log(64), 1) else {
        return Err(Fail::from("no store"));
    };
    match Opened::new(&rt, alloc, 1, store) {
        Ok(opened) => {
            archives_and_reclaims::<CountedDisk, Brand, _>(&rt, alloc, opened, &calls);
            Ok(())
        }
        Err((AllocError, store)) => {
            let _disk = store.close();
            Err(Fail::from("no memory"))
        }
    }
}
