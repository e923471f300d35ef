//! The floor of a relation that is raised through the lock: a view of before it answers as it did, and a later one nothing below it.
ghost use Rattle.std.specs.Prelude.{◌≡◌, [], length, true};
ghost use Rattle.crossbeam_utils.specs.Seq.{cell_view};
ghost use Rattle.shared.specs.Naming.{IsFresh};

use crate::written::{
    begun, has, has_none, is_field, key_of, publish_four, pump_to, queued, refuses,
};
use any_store::{Did, JobDid, Layout, QueryFault, StartFault};
use disk::{Disk, MemDisk};
use shared::{Observer, Opened, Opening, SharedStore, SharedView, fresh_store};
use std::alloc::{AllocError, Global};
use std::marker::Brand;
use std::process::Abort;
use std::sync::Wait;
use std::test::Fail;

/// The steps of a floor.
const STEPS: [JobDid; 4] = [
    JobDid::BodyWritten,
    JobDid::BodySynced,
    JobDid::GateWritten,
    JobDid::JobDone,
];

/// While a transaction reads before it, or a job runs, no floor begins.
fn refuse_each<D: Disk, L: Opening, R: Wait + Abort>(
    rt: &R,
    store: &SharedStore<D, L>,
    me: &mut Observer<L>,
) {
    assert_eq!(rt;
        store.floor_of_start(rt, 1, 131, me),
        Err(StartFault::InUse(130))
    );
    assert_eq!(rt;
        store.floor_of_start(rt, 1, 141, me),
        Err(StartFault::NotYet(140))
    );
    assert_eq!(rt; store.archive_start(rt, 110, me), Ok(()));
    assert_eq!(rt;
        store.floor_of_start(rt, 1, 120, me),
        Err(StartFault::JobBusy)
    );
    // Each relation has a floor of its own, and there is none for all.
    assert_eq!(rt;
        store.floor_start(rt, 120, me),
        Err(StartFault::WrongProfile)
    );
}

/// A commit is published while a transaction reads before it.
fn refuse_floors<D: Disk, L: Opening, R: Wait + Abort>(
    rt: &R,
    alloc: Global,
    store: &SharedStore<D, L>,
    me: &mut Observer<L>,
) {
    let open = begun(rt, store, me);
    queued(rt, alloc, store, me, (8, Some("d")), 140).give_up();
    pump_to(rt, store, me, Ok(Did::Published(1)));
    refuse_each(rt, store, me);
    store.abort(rt, open, me);
}

/// The archive that was begun ends, and the floor is raised to 120.
fn raise_floor<D: Disk, L: Opening, R: Wait + Abort>(
    rt: &R,
    store: &SharedStore<D, L>,
    me: &mut Observer<L>,
) {
    for _ in 0..10 {
        if store.job_pump(rt, me) == Ok(JobDid::JobDone) {
            break;
        }
    }
    assert_eq!(rt; store.floor_of_start(rt, 1, 120, me), Ok(()));
    for did in STEPS {
        assert_eq!(rt; store.job_pump(rt, me), Ok(did));
    }
    assert_eq!(rt; store.job_pump(rt, me), Ok(JobDid::Idle));
    assert_eq!(rt;
        store.floor_of_start(rt, 1, 120, me),
        Err(StartFault::NothingToDo)
    );
}

/// Whether memory alone shows b at 119.
fn recalls_earlier<L: Opening>(view: &SharedView<L>) -> bool {
    match view.recent(key_of(7), 119) {
        Ok(Some(value)) => is_field(value, b"b"),
        _ => false,
    }
}

/// The view shows b at 119.
fn ask_earlier<D: Disk, L: Opening, R: Wait + Abort>(
    rt: &R,
    store: &SharedStore<D, L>,
    view: &mut SharedView<L>,
) {
    assert!(rt; recalls_earlier(view));
    assert!(rt; has(rt, store, view, 7, (119, "b")));
}

/// Whether memory alone refuses what stood before 120.
fn bars_earlier<L: Opening>(view: &SharedView<L>) -> bool {
    matches!(
        view.recent(key_of(7), 119),
        Err(QueryFault::BeforeKept(120))
    )
}

/// The view shows nothing before 120, and from then on what stood.
pub fn ask_later<D: Disk, L: Opening, R: Wait + Abort>(
    rt: &R,
    store: &SharedStore<D, L>,
    view: &mut SharedView<L>,
) {
    assert!(rt; bars_earlier(view));
    assert!(rt; refuses(rt, store, view, 119, QueryFault::BeforeKept(120)));
    assert!(rt; has_none(rt, store, view, 120));
    assert!(rt; has(rt, store, view, 7, (130, "c")));
}

/// The whole example, on a store that was just opened.
fn answers_by_its_floor<D: Disk + Drop, L: Opening, R: Wait + Abort>(
    rt: &R,
    alloc: Global,
    opened: Opened<D>,
)
    requires name { (opened.blank.name ≡ L.name) × (opened.blank.parts ≡ L.parts) × (opened.cell.table.shared.table_id ≡ L.table) }
    requires fresh { IsFresh D.tells L.start L.kind L.mark opened.store (cell_view opened.writer) }
{
    let (store, mut share, mut me) = opened.named::<L>();
    publish_four(rt, alloc, &store, &mut me);
    refuse_floors(rt, alloc, &store, &mut me);
    let Ok(mut earlier) = store.view(rt, &mut me) else {
        panic!(rt; "no view");
    };
    raise_floor(rt, &store, &mut me);
    let Ok(mut later) = store.view(rt, &mut me) else {
        panic!(rt; "no view");
    };
    ask_later(rt, &store, &mut later);
    ask_earlier(rt, &store, &mut earlier);
    store.end(later);
    store.end(earlier);
    let _disk = store.into_store(&mut share).close();
}

#[test]
fn a_floor_is_raised_and_views_go_on(rt: HostRuntime) -> Result<(), Fail> {
    let alloc = rt.alloc();
    let Ok(store) = fresh_store(alloc, MemDisk::new(alloc), Layout::Slots(64), 1) else {
        return Err(Fail::from("no store"));
    };
    match Opened::new(&rt, alloc, 1, store) {
        Ok(opened) => {
            answers_by_its_floor::<MemDisk, Brand, _>(&rt, alloc, opened);
            Ok(())
        }
        Err((AllocError, store)) => {
            let _disk = store.close();
            Err(Fail::from("no memory"))
        }
    }
}
