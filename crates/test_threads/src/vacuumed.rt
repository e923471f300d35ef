//! What a vacuum gives back, and what views answer after it: from memory alone, and through the lock from the archive too.
ghost use Rattle.std.specs.Prelude.{◌≡◌, [], length, true};
ghost use Rattle.crossbeam_utils.specs.Seq.{cell_view};
ghost use Rattle.shared.specs.Naming.{IsFresh};

use crate::counted_disk::CountedDisk;
use crate::noted::{Notes, Step, note, step_of};
use crate::written::{
    are_rows, are_rows_of_seven, begun, has, has_none, has_rows, has_times, is_field,
    is_seven_alone, key_of, publish_four, pump_job, pump_to, queued, refuses,
};
use any_store::{Did, JobDid, Layout, QueryFault, StartFault};
use disk::{Disk, MemDisk};
use shared::{
    Observer, Opened, Opening, SharedStore, SharedView, VacuumEnd, Vacuumed, fresh_store,
};
use std::alloc::{AllocError, Global};
use std::marker::Brand;
use std::process::Abort;
use std::sync::atomic::AtomicU64;
use std::sync::{Arc, Wait};
use std::test::Fail;

/// An archive, and then a reclaim with one extent of anchors.
const BOTH: [(Step, u64); 14] = [
    (Step::Start(Ok(())), 130),
    (Step::Job(Ok(JobDid::WroteRun)), 130),
    (Step::Job(Ok(JobDid::RunSynced)), 130),
    (Step::Job(Ok(JobDid::BodyWritten)), 130),
    (Step::Job(Ok(JobDid::BodySynced)), 130),
    (Step::Job(Ok(JobDid::GateWritten)), 130),
    (Step::Job(Ok(JobDid::JobDone)), 130),
    (Step::Start(Ok(())), 130),
    (Step::Job(Ok(JobDid::WroteExtent)), 130),
    (Step::Job(Ok(JobDid::HeapSynced)), 130),
    (Step::Job(Ok(JobDid::BodyWritten)), 130),
    (Step::Job(Ok(JobDid::BodySynced)), 130),
    (Step::Job(Ok(JobDid::GateWritten)), 130),
    (Step::Job(Ok(JobDid::JobDone)), 130),
];

/// The vacuum gave this answer. At the beginning of its reclaim it is told to stop.
fn note_vacuumed<D: Disk, L: Opening, R: Wait + Abort>(
    rt: &R,
    store: &SharedStore<D, L>,
    calls: &AtomicU64,
    me: &mut Observer<L>,
    notes: &mut Notes<'_>,
    answer: &Vacuumed,
) {
    if notes.count() == 7 {
        store.stop(rt);
    }
    note(rt, store, calls, me, notes, step_of(answer));
}

/// A vacuum archives and then reclaims.
fn vacuum_both<D: Disk, L: Opening, R: Wait + Abort>(
    rt: &R,
    store: &SharedStore<D, L>,
    calls: &AtomicU64,
    me: &mut Observer<L>,
) {
    let mut other = store.another(me);
    let mut notes = Notes::new(&BOTH, calls);
    let end = store.run_vacuum(rt, me, |rt, answer| {
        note_vacuumed(rt, store, calls, &mut other, &mut notes, answer);
    });
    assert_eq!(rt; notes.count(), BOTH.len());
    let last = Vacuumed::Job(Ok(JobDid::JobDone));
    assert_eq!(rt; end, VacuumEnd::Told(Some(last)));
}

/// Whether memory alone shows this one field at a time.
fn recalls<L: Opening>(view: &SharedView<L>, time: u64, field: &str) -> bool {
    match view.recent(key_of(7), time) {
        Ok(Some(value)) => is_field(value, field.as_bytes()),
        _ => false,
    }
}

/// Whether memory alone finds c at 130.
fn recalls_scan<L: Opening>(alloc: Global, view: &SharedView<L>) -> bool {
    match view.recent_scan(alloc, 1, 130) {
        Ok(found) => is_seven_alone(found.as_slice(), "c"),
        Err(_) => false,
    }
}

/// Whether memory alone has this row of the key.
fn recalls_row<L: Opening>(alloc: Global, view: &SharedView<L>) -> bool {
    match view.recent_between(alloc, key_of(7), 130, 131) {
        Ok(rows) => are_rows(rows.as_slice(), &[(130, 131, "c")]),
        Err(_) => false,
    }
}

/// Whether memory alone lends it, and no other.
fn lends_row<L: Opening>(view: &SharedView<L>) -> bool {
    let Ok(mut walk) = view.recent_rows(key_of(7), 130, 131) else {
        return false;
    };
    let is_first = match walk.next() {
        Some(row) => row.from == 130 && row.to == 131 && is_field(row.value, b"c"),
        None => false,
    };
    is_first && walk.next().is_none()
}

/// Whether memory alone has it of the relation.
fn recalls_scanned_row<L: Opening>(alloc: Global, view: &SharedView<L>) -> bool {
    match view.recent_scan_between(alloc, 1, 130, 131) {
        Ok(rows) => are_rows_of_seven(rows.as_slice(), &[(130, 131, "c")]),
        Err(_) => false,
    }
}

/// Whether the disk is needed for what stood at 129.
fn needs_disk_at<L: Opening>(alloc: Global, view: &SharedView<L>) -> bool {
    let value = matches!(view.recent(key_of(7), 129), Err(QueryFault::NeedsDisk));
    let scan = matches!(view.recent_scan(alloc, 1, 129), Err(QueryFault::NeedsDisk));
    value && scan
}

/// Whether the disk is needed for what stood from 129 on.
fn needs_disk_from<L: Opening>(alloc: Global, view: &SharedView<L>) -> bool {
    let rows = matches!(
        view.recent_between(alloc, key_of(7), 129, 131),
        Err(QueryFault::NeedsDisk)
    );
    let lent = matches!(
        view.recent_rows(key_of(7), 129, 131),
        Err(QueryFault::NeedsDisk)
    );
    let scan = matches!(
        view.recent_scan_between(alloc, 1, 129, 131),
        Err(QueryFault::NeedsDisk)
    );
    rows && lent && scan
}

/// From the reclaim mark on memory alone answers, and before it the disk is needed.
fn ask_memory<L: Opening>(rt: &impl Abort, alloc: Global, view: &SharedView<L>) {
    assert!(rt; recalls(view, 130, "c"));
    assert!(rt; recalls_scan(alloc, view));
    assert!(rt; recalls_row(alloc, view));
    assert!(rt; lends_row(view));
    assert!(rt; recalls_scanned_row(alloc, view));
    assert!(rt; needs_disk_at(alloc, view));
    assert!(rt; needs_disk_from(alloc, view));
}

/// Whether the relation has b alone at 115.
fn scans<D: Disk, L: Opening, R: Wait>(
    rt: &R,
    store: &SharedStore<D, L>,
    view: &mut SharedView<L>,
) -> bool {
    match store.scan_at(rt, view, 1, 115) {
        Ok(found) => is_seven_alone(found.as_slice(), "b"),
        Err(_) => false,
    }
}

/// Whether the relation has these rows from 105 up to 121.
fn scans_rows<D: Disk, L: Opening, R: Wait>(
    rt: &R,
    store: &SharedStore<D, L>,
    view: &mut SharedView<L>,
) -> bool {
    let wanted = [(105, 110, "a"), (110, 120, "b")];
    match store.scan_between(rt, view, 1, 105, 121) {
        Ok(rows) => are_rows_of_seven(rows.as_slice(), &wanted),
        Err(_) => false,
    }
}

/// Through the lock the archive answers for what memory has given up.
fn ask_store<D: Disk, L: Opening, R: Wait + Abort>(
    rt: &R,
    store: &SharedStore<D, L>,
    view: &mut SharedView<L>,
) {
    assert!(rt; has(rt, store, view, 7, (105, "a")));
    assert!(rt; has_none(rt, store, view, 125));
    assert!(rt; refuses(rt, store, view, 131, QueryFault::NotYet(130)));
    assert!(rt; scans(rt, store, view));
    let rows = [(100, 110, "a"), (110, 120, "b"), (130, 131, "c")];
    assert!(rt; has_rows(rt, store, view, (100, 131), &rows));
    assert!(rt; scans_rows(rt, store, view));
}

/// A view of before the vacuum has all in memory.
fn ask_earlier<L: Opening>(rt: &impl Abort, view: &SharedView<L>) {
    assert!(rt; recalls(view, 105, "a"));
}

/// A reclaim is refused as long as a transaction reads what would go, and tells from when on one does.
pub fn wait_for_a_snapshot<D: Disk, L: Opening, R: Wait + Abort>(
    rt: &R,
    alloc: Global,
    store: &SharedStore<D, L>,
    me: &mut Observer<L>,
) {
    let reader = begun(rt, store, me);
    queued(rt, alloc, store, me, (7, Some("d")), 140).give_up();
    pump_to(rt, store, me, Ok(Did::Published(1)));
    assert_eq!(rt; store.archive_start(rt, 140, me), Ok(()));
    pump_job(rt, store, me);
    assert_eq!(rt; store.reclaim_start(rt, me), Err(StartFault::InUse(130)));
    store.abort(rt, reader, me);
    assert_eq!(rt; store.reclaim_start(rt, me), Ok(()));
    pump_job(rt, store, me);
}

/// The whole example, on a store that was just opened.
fn answers_from_both<D: Disk + Drop, L: Opening, R: Wait + Abort>(
    rt: &R,
    alloc: Global,
    opened: Opened<D>,
    calls: &AtomicU64,
)
    requires name { (opened.blank.name ≡ L.name) × (opened.blank.parts ≡ L.parts) × (opened.cell.table.shared.table_id ≡ L.table) }
    requires fresh { IsFresh D.tells L.start L.kind L.mark opened.store (cell_view opened.writer) }
{
    let (store, mut share, mut me) = opened.named::<L>();
    publish_four(rt, alloc, &store, &mut me);
    let Ok(mut earlier) = store.view(rt, &mut me) else {
        panic!(rt; "no view");
    };
    vacuum_both(rt, &store, calls, &mut me);
    let Ok(mut view) = store.view(rt, &mut me) else {
        panic!(rt; "no view");
    };
    ask_memory(rt, alloc, &view);
    ask_store(rt, &store, &mut view);
    ask_earlier(rt, &earlier);
    ask_store(rt, &store, &mut earlier);
    wait_for_a_snapshot(rt, alloc, &store, &mut me);
    ask_earlier(rt, &earlier);
    assert!(rt; has_times(rt, &store, &mut me, &[100, 110, 120, 130, 140]));
    store.end(view);
    store.end(earlier);
    let _disk = store.into_store(&mut share).close();
}

#[test]
fn a_vacuum_reclaims_and_views_go_on(rt: HostRuntime) -> Result<(), Fail> {
    let alloc = rt.alloc();
    let calls = Arc::new(alloc, AtomicU64::new(0))?;
    let disk = CountedDisk::new(MemDisk::new(alloc), Arc::try_clone(&calls)?);
    let Ok(store) = fresh_store(alloc, disk, Layout::Slots(64), 1) else {
        return Err(Fail::from("no store"));
    };
    match Opened::new(&rt, alloc, 1, store) {
        Ok(opened) => {
            answers_from_both::<CountedDisk, Brand, _>(&rt, alloc, opened, &calls);
            Ok(())
        }
        Err((AllocError, store)) => {
            let _disk = store.close();
            Err(Fail::from("no memory"))
        }
    }
}
