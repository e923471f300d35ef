//! Readers share a view that is kept beside the lock, and it has what they have seen.
ghost use Rattle.std.specs.Prelude.{◌≡◌, ◌<◌, [], length, true};
ghost use Rattle.crossbeam_utils.specs.Seq.{cell_view};
ghost use Rattle.shared.specs.Naming.{IsFresh};

use crate::written::{is_field, key_of, publish_four, pump_job, pump_to, queued};
use any_store::{Did, Layout, QueryFault};
use disk::{Disk, MemDisk};
use shared::{Observer, Opened, Opening, SharedStore, SharedView, fresh_store};
use std::alloc::{AllocError, Global};
use std::marker::Brand;
use std::process::Abort;
use std::sync::Wait;
use std::test::Fail;
use std::thread;
use std::thread::{Threads, join};

/// Whether the view ends with a commit of this time, at which record 7 has this one field.
fn ends_with<L: Opening>(view: &SharedView<L>, time: u64, field: &str) -> bool {
    let shows = match view.recent(key_of(7), time) {
        Ok(Some(value)) => is_field(value, field.as_bytes()),
        _ => false,
    };
    shows && view.last() == time
}

/// Whether a reader's view ends so.
fn is_shown<D: Disk, L: Opening, R: Wait>(
    rt: &R,
    store: &SharedStore<D, L>,
    me: &mut Observer<L>,
    wanted: (u64, &str),
) -> bool {
    match store.latest_view(rt, me) {
        Ok(view) => {
            let shown = ends_with(&view, wanted.0, wanted.1);
            store.end(view);
            shown
        }
        Err(AllocError) => false,
    }
}

/// A commit of record 7 is published.
fn publish<D: Disk, L: Opening, R: Wait + Abort>(
    rt: &R,
    alloc: Global,
    store: &SharedStore<D, L>,
    me: &mut Observer<L>,
    write: (u64, &str),
) {
    queued(rt, alloc, store, me, (7, Some(write.1)), write.0).give_up();
    pump_to(rt, store, me, Ok(Did::Published(1)));
}

/// Views that are asked for twice, behind each commit, and behind commits between which none was.
fn show_each_commit<D: Disk, L: Opening, R: Wait + Abort>(
    rt: &R,
    alloc: Global,
    store: &SharedStore<D, L>,
    me: &mut Observer<L>,
) {
    assert!(rt; is_shown(rt, store, me, (130, "c")));
    assert!(rt; is_shown(rt, store, me, (130, "c")));
    for write in [(140, "d"), (150, "e")] {
        publish(rt, alloc, store, me, write);
        assert!(rt; is_shown(rt, store, me, write));
        assert!(rt; is_shown(rt, store, me, write));
    }
    for write in [(160, "f"), (170, "g"), (180, "h")] {
        publish(rt, alloc, store, me, write);
    }
    assert!(rt; is_shown(rt, store, me, (180, "h")));
}

/// A floor that is raised stands in the view that is asked for next.
fn show_a_floor<D: Disk, L: Opening, R: Wait + Abort>(
    rt: &R,
    store: &SharedStore<D, L>,
    me: &mut Observer<L>,
) {
    assert_eq!(rt; store.floor_of_start(rt, 1, 150, me), Ok(()));
    pump_job(rt, store, me);
    let Ok(view) = store.latest_view(rt, me) else {
        panic!(rt; "no view");
    };
    let refused = matches!(
        view.recent(key_of(7), 149),
        Err(QueryFault::BeforeKept(150))
    );
    let shown = ends_with(&view, 180, "h");
    store.end(view);
    assert!(rt; refused && shown);
}

/// A view that is renewed behind each commit, and again where nothing was published.
fn renew_behind_commits<D: Disk, L: Opening, R: Wait + Abort>(
    rt: &R,
    alloc: Global,
    store: &SharedStore<D, L>,
    me: &mut Observer<L>,
) {
    let Ok(mut view) = store.latest_view(rt, me) else {
        panic!(rt; "no view");
    };
    for write in [(190, "j"), (200, "k")] {
        publish(rt, alloc, store, me, write);
        assert!(rt; view.last() < write.0);
        for _ in 0..2 {
            assert_eq!(rt; store.renew(rt, &mut view, me), Ok(()));
            assert!(rt; ends_with(&view, write.0, write.1));
        }
    }
    store.end(view);
}

/// Takes views again and again: each has what was published before it was asked for.
fn watch<D: Disk, L: Opening, R: Wait + Abort>(
    rt: &R,
    store: &SharedStore<D, L>,
    me: Observer<L>,
) -> Observer<L> {
    let mut me = me;
    for _ in 0..1_000 {
        let published = store.last_published(rt, &mut me);
        let Ok(view) = store.latest_view(rt, &mut me) else {
            panic!(rt; "no view");
        };
        let shown = view.last();
        store.end(view);
        assert!(rt; published <= shown);
        thread::yield_now();
    }
    me
}

/// A hundred commits, each published before the next.
fn write<D: Disk, L: Opening, R: Wait + Abort>(
    rt: &R,
    alloc: Global,
    store: &SharedStore<D, L>,
    me: Observer<L>,
) -> Observer<L> {
    let mut me = me;
    for _ in 0..100 {
        publish(rt, alloc, store, &mut me, (0, "i"));
    }
    me
}

/// A thread takes views, while another commits.
fn watch_beside_commits<D: Disk + Send, L: Opening + Send + Sync, R: Threads + Wait + Abort + Sync>(
    rt: &R,
    alloc: Global,
    store: &SharedStore<D, L>,
    reader: Observer<L>,
    me: Observer<L>,
) -> Observer<L> {
    let (_reader, me) = join(
        rt,
        move || watch(rt, store, reader),
        move || write(rt, alloc, store, me),
    );
    me
}

/// The whole example, on a store that was just opened.
fn shows_what_is_published<
    D: Disk + Drop + Send,
    L: Opening + Send + Sync,
    R: Threads + Wait + Abort + Sync,
>(rt: &R, alloc: Global, opened: Opened<D>)
    requires name { (opened.blank.name ≡ L.name) × (opened.blank.parts ≡ L.parts) × (opened.cell.table.shared.table_id ≡ L.table) }
    requires fresh { IsFresh D.tells L.start L.kind L.mark opened.store (cell_view opened.writer) }
{
    let (store, mut share, mut me) = opened.named::<L>();
    publish_four(rt, alloc, &store, &mut me);
    show_each_commit(rt, alloc, &store, &mut me);
    show_a_floor(rt, &store, &mut me);
    renew_behind_commits(rt, alloc, &store, &mut me);
    let reader = store.another(&mut me);
    let mut me = watch_beside_commits(rt, alloc, &store, reader, me);
    assert!(rt; is_shown(rt, &store, &mut me, (300, "i")));
    let _disk = store.into_store(&mut share).close();
}

#[test]
fn readers_share_a_view_of_what_is_published(rt: HostRuntime) -> Result<(), Fail> {
    let alloc = rt.alloc();
    let Ok(store) = fresh_store(alloc, MemDisk::new(alloc), Layout::Slots(256), 1) else {
        return Err(Fail::from("no store"));
    };
    match Opened::new(&rt, alloc, 1, store) {
        Ok(opened) => {
            shows_what_is_published::<MemDisk, Brand, _>(&rt, alloc, opened);
            Ok(())
        }
        Err((AllocError, store)) => {
            let _disk = store.close();
            Err(Fail::from("no memory"))
        }
    }
}
