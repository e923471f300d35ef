//! A view goes on answering in another thread, whatever the store does meanwhile.
ghost use Rattle.std.specs.Prelude.{◌≡◌, ◌<◌, [], length, true};
ghost use Rattle.crossbeam_utils.specs.Seq.{cell_view};
ghost use Rattle.shared.specs.Naming.{IsFresh};

use crate::written::{is_field, key_of, publish_four, pump_job, pump_to, queued};
use any_store::{Did, Layout, QueryFault};
use disk::{Disk, MemDisk};
use shared::{Observer, Opened, Opening, SharedStore, SharedView, fresh_store};
use std::alloc::{AllocError, Global};
use std::marker::Brand;
use std::process::Abort;
use std::sync::Wait;
use std::sync::atomic::{AtomicBool, Ordering};
use std::test::Fail;
use std::thread;
use std::thread::{Threads, join};

/// A view that may be let go, as what goes to another thread has to be.
struct Carried<L: Opening> {
    view: SharedView<L>,
}

impl<L: Opening> Drop for Carried<L> {
    fn drop(self) {
        let Carried { view } = self;
        view.spend().spend();
    }
}

/// The view shows c at 130, and nothing later.
fn is_as_taken<L: Opening>(carried: &Carried<L>) -> bool {
    let view = &carried.view;
    let shows = match view.recent(key_of(7), 130) {
        Ok(Some(value)) => is_field(value, b"c"),
        _ => false,
    };
    shows && matches!(view.recent(key_of(7), 131), Err(QueryFault::NotYet(130)))
}

/// Asks the view again and again, until the others are done and once more.
fn watch<L: Opening, R: Wait + Abort>(
    rt: &R,
    carried: Carried<L>,
    done: &AtomicBool,
) -> Carried<L> {
    for _ in rt.forever() {
        let last_time = done.load(Ordering::SeqCst);
        assert!(rt; is_as_taken(&carried));
        if last_time {
            break;
        }
        thread::yield_now();
    }
    carried
}

/// A hundred commits of the key, each published before the next, a vacuum of all that ended, and then a
/// floor of their relation at the last one.
fn change<D: Disk, L: Opening, R: Wait + Abort>(
    rt: &R,
    alloc: Global,
    store: &SharedStore<D, L>,
    me: Observer<L>,
    done: &AtomicBool,
) -> Observer<L> {
    let mut me = me;
    for _ in 0..100 {
        queued(rt, alloc, store, &mut me, (7, Some("d")), 0).give_up();
        pump_to(rt, store, &mut me, Ok(Did::Published(1)));
    }
    let last = store.last_published(rt, &mut me);
    assert_eq!(rt; store.archive_start(rt, last, &mut me), Ok(()));
    pump_job(rt, store, &mut me);
    assert_eq!(rt; store.reclaim_start(rt, &mut me), Ok(()));
    pump_job(rt, store, &mut me);
    assert_eq!(rt; store.floor_of_start(rt, 1, last, &mut me), Ok(()));
    pump_job(rt, store, &mut me);
    done.store(true, Ordering::SeqCst);
    me
}

/// The whole example, on a store that was just opened.
fn keeps_its_moment<
    D: Disk + Drop + Send,
    L: Opening + Send + Sync,
    R: Threads + Wait + Abort + Sync,
>(rt: &R, alloc: Global, opened: Opened<D>)
    requires name { (opened.blank.name ≡ L.name) × (opened.blank.parts ≡ L.parts) × (opened.cell.table.shared.table_id ≡ L.table) }
    requires fresh { IsFresh D.tells L.start L.kind L.mark opened.store (cell_view opened.writer) }
{
    let (store, mut share, mut me) = opened.named::<L>();
    publish_four(rt, alloc, &store, &mut me);
    let Ok(view) = store.view(rt, &mut me) else {
        panic!(rt; "no view");
    };
    let done = AtomicBool::new(false);
    let (shared, flag) = (&store, &done);
    let carried = Carried { view };
    let (carried, mut me) = join(
        rt,
        move || watch(rt, carried, flag),
        move || change(rt, alloc, shared, me, flag),
    );
    assert!(rt; is_as_taken(&carried));
    assert_eq!(rt; store.last_published(rt, &mut me), 230);
    let _disk = store.into_store(&mut share).close();
}

#[test]
fn a_view_keeps_its_moment_in_another_thread(rt: HostRuntime) -> Result<(), Fail> {
    let alloc = rt.alloc();
    let Ok(store) = fresh_store(alloc, MemDisk::new(alloc), Layout::Slots(256), 1) else {
        return Err(Fail::from("no store"));
    };
    match Opened::new(&rt, alloc, 1, store) {
        Ok(opened) => {
            keeps_its_moment::<MemDisk, Brand, _>(&rt, alloc, opened);
            Ok(())
        }
        Err((AllocError, store)) => {
            let _disk = store.close();
            Err(Fail::from("no memory"))
        }
    }
}
