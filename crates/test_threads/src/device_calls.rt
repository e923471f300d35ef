//! Each holding of the lock makes at most one call of the device.
ghost use Rattle.std.specs.Prelude.{◌≡◌, ◌<◌, [], length, true};
ghost use Rattle.crossbeam_utils.specs.Seq.{cell_view};
ghost use Rattle.shared.specs.Naming.{IsFresh};

use crate::counted_disk::CountedDisk;
use crate::noted::{Notes, Step, note, step_of, take_all};
use crate::written::{has, has_rows, key_of, publish_four, queued};
use any_store::{Did, JobDid, Layout, PumpFault, Redeemed, Ticket};
use disk::{Disk, MemDisk};
use shared::{
    Change, CommitFault, Committed, Observer, Opened, Opening, SharedStore, VacuumEnd, Vacuumed,
    fresh_store,
};
use std::alloc::{AllocError, Global};
use std::marker::Brand;
use std::process::Abort;
use std::sync::atomic::{AtomicU64, Ordering};
use std::sync::ledger::Share;
use std::sync::{Arc, Wait};
use std::test::Fail;
use std::thread;
use std::thread::{Threads, join};

/// An archive beside the body of a group of two: while the one's slot is in the writing, the other has to wait.
const BESIDE: [Step; 8] = [
    Step::Start(Ok(())),
    Step::Job(Ok(JobDid::WroteRun)),
    Step::Group(Ok(Did::WroteExtent)),
    Step::Job(Ok(JobDid::RunSynced)),
    Step::Group(Ok(Did::WroteExtent)),
    Step::Group(Ok(Did::HeapSynced)),
    Step::Job(Ok(JobDid::BodyWritten)),
    Step::Group(Err(PumpFault::Busy)),
];

/// The rest of both.
const AFTER: [Step; 7] = [
    Step::Job(Ok(JobDid::BodySynced)),
    Step::Job(Ok(JobDid::GateWritten)),
    Step::Job(Ok(JobDid::JobDone)),
    Step::Group(Ok(Did::BodyWritten)),
    Step::Group(Ok(Did::BodySynced)),
    Step::Group(Ok(Did::GateWritten)),
    Step::Group(Ok(Did::Published(2))),
];

/// What follows the write of a group's one extent.
const ONE_GROUP: [Step; 5] = [
    Step::Group(Ok(Did::HeapSynced)),
    Step::Group(Ok(Did::BodyWritten)),
    Step::Group(Ok(Did::BodySynced)),
    Step::Group(Ok(Did::GateWritten)),
    Step::Group(Ok(Did::Published(1))),
];

/// The vacuum's answers, once it is told to stop at the first.
const VACUUM: [(Step, u64); 7] = [
    (Step::Start(Ok(())), 133),
    (Step::Job(Ok(JobDid::WroteRun)), 133),
    (Step::Job(Ok(JobDid::RunSynced)), 133),
    (Step::Job(Ok(JobDid::BodyWritten)), 133),
    (Step::Job(Ok(JobDid::BodySynced)), 133),
    (Step::Job(Ok(JobDid::GateWritten)), 133),
    (Step::Job(Ok(JobDid::JobDone)), 133),
];

/// The committer's, with three commits that wait and nothing to come.
const COMMITTER: [(Step, u64); 9] = [
    (Step::Group(Ok(Did::WroteExtent)), 133),
    (Step::Group(Ok(Did::WroteExtent)), 133),
    (Step::Group(Ok(Did::WroteExtent)), 133),
    (Step::Group(Ok(Did::HeapSynced)), 133),
    (Step::Group(Ok(Did::BodyWritten)), 133),
    (Step::Group(Ok(Did::BodySynced)), 133),
    (Step::Group(Ok(Did::GateWritten)), 133),
    (Step::Group(Ok(Did::Published(3))), 136),
    (Step::Group(Ok(Did::Idle)), 136),
];

/// The commit still waits, and asking makes no call of the device.
fn still_waits<D: Disk, L: Opening, R: Wait + Abort>(
    rt: &R,
    store: &SharedStore<D, L>,
    calls: &AtomicU64,
    share: &mut Share<L>,
    me: &mut Observer<L>,
    ticket: Ticket,
)
    requires { 0 < share.old.parts }
    ensures { share.new.parts ≡ share.old.parts }
{
    let before = calls.load(Ordering::SeqCst);
    match store.redeem(rt, ticket, share, me) {
        Redeemed::Waiting(ticket) => ticket.give_up(),
        _ => panic!(rt; "it does not wait"),
    }
    assert_eq!(rt; calls.load(Ordering::SeqCst), before);
}

/// An archive and a group of two commits, step beside step.
fn archive_beside_commits<D: Disk, L: Opening, R: Wait + Abort>(
    rt: &R,
    alloc: Global,
    store: &SharedStore<D, L>,
    calls: &AtomicU64,
    share: &mut Share<L>,
    me: &mut Observer<L>,
)
    requires { 0 < share.old.parts }
    ensures { share.new.parts ≡ share.old.parts }
{
    let first = queued(rt, alloc, store, me, (8, Some("x")), 0);
    let second = queued(rt, alloc, store, me, (9, Some("y")), 0);
    assert_eq!(rt; (first.time(), second.time()), (131, 132));
    take_all(rt, store, calls, me, &BESIDE);
    still_waits(rt, store, calls, share, me, first);
    still_waits(rt, store, calls, share, me, second);
    take_all(rt, store, calls, me, &AFTER);
}

/// Commits two keys in one commit, and waits until it is published.
fn commit_pair<D: Disk, L: Opening, R: Wait>(
    rt: &R,
    store: &SharedStore<D, L>,
    share: Share<L>,
    me: Observer<L>,
) -> (Result<Committed, CommitFault>, Share<L>, Observer<L>)
    requires { 0 < share.parts }
{
    let (mut share, mut me) = (share, me);
    let (seven, thirteen) = ([b"d".as_slice()], [b"e".as_slice()]);
    let changes = [
        Change::Put {
            key: key_of(7),
            fields: &seven,
        },
        Change::Put {
            key: key_of(13),
            fields: &thirteen,
        },
    ];
    let committed = store.commit(rt, &changes, 9, 0, &mut share, &mut me);
    (committed, share, me)
}

/// Pumps, with nothing to do until the commit of another thread is queued, and then to its publication.
fn pump_one_group<D: Disk, L: Opening, R: Wait + Abort>(
    rt: &R,
    store: &SharedStore<D, L>,
    calls: &AtomicU64,
    me: Observer<L>,
) {
    let mut me = me;
    let before = calls.load(Ordering::SeqCst);
    for _ in rt.forever() {
        let did = store.pump(rt, &mut me);
        if did != Ok(Did::Idle) {
            assert_eq!(rt; did, Ok(Did::WroteExtent));
            break;
        }
        assert_eq!(rt; calls.load(Ordering::SeqCst), before);
        thread::yield_now();
    }
    assert_eq!(rt; calls.load(Ordering::SeqCst), before.wrapping_add(1));
    take_all(rt, store, calls, &mut me, &ONE_GROUP);
}

/// A thread commits two keys and waits for it, while another pumps.
fn commit_beside_pumps<D: Disk + Send, L: Opening + Send + Sync, R: Threads + Wait + Abort + Sync>(
    rt: &R,
    store: &SharedStore<D, L>,
    calls: &AtomicU64,
    share: Share<L>,
    me: Observer<L>,
) -> (Share<L>, Observer<L>)
    requires { 0 < share.parts }
{
    let mut me = me;
    let other = store.another(&mut me);
    let ((committed, share, me), ()) = join(
        rt,
        move || commit_pair(rt, store, share, me),
        move || pump_one_group(rt, store, calls, other),
    );
    assert_eq!(rt; committed, Ok(Committed::Done(133)));
    (share, me)
}

/// What the committer of both keys sees next.
fn ask_view<D: Disk, L: Opening, R: Wait + Abort>(
    rt: &R,
    store: &SharedStore<D, L>,
    me: &mut Observer<L>,
) {
    let Ok(mut view) = store.view(rt, me) else {
        panic!(rt; "no view");
    };
    assert!(rt; has(rt, store, &mut view, 7, (133, "d")));
    assert!(rt; has(rt, store, &mut view, 7, (132, "c")));
    assert!(rt; has(rt, store, &mut view, 13, (133, "e")));
    let rows = [(132, 133, "c"), (133, 134, "d")];
    assert!(rt; has_rows(rt, store, &mut view, (132, 134), &rows));
    store.end(view);
}

/// The vacuum gave this answer. At its first it is told to stop.
fn note_vacuumed<D: Disk, L: Opening, R: Wait + Abort>(
    rt: &R,
    store: &SharedStore<D, L>,
    calls: &AtomicU64,
    me: &mut Observer<L>,
    notes: &mut Notes<'_>,
    answer: &Vacuumed,
) {
    if notes.count() == 0 {
        store.stop(rt);
    }
    note(rt, store, calls, me, notes, step_of(answer));
}

/// A vacuum that is told to stop at its first answer makes its job to the end.
fn vacuum_once<D: Disk, L: Opening, R: Wait + Abort>(
    rt: &R,
    store: &SharedStore<D, L>,
    calls: &AtomicU64,
    me: &mut Observer<L>,
) {
    let mut other = store.another(me);
    let mut notes = Notes::new(&VACUUM, calls);
    let end = store.run_vacuum(rt, me, |rt, answer| {
        note_vacuumed(rt, store, calls, &mut other, &mut notes, answer);
    });
    assert_eq!(rt; notes.count(), VACUUM.len());
    let last = Vacuumed::Job(Ok(JobDid::JobDone));
    assert_eq!(rt; end, VacuumEnd::Told(Some(last)));
}

/// A committer that was told to stop publishes all that waits.
fn commit_to_end<D: Disk, L: Opening, R: Wait + Abort>(
    rt: &R,
    alloc: Global,
    store: &SharedStore<D, L>,
    calls: &AtomicU64,
    me: &mut Observer<L>,
) {
    for record in 10..13 {
        queued(rt, alloc, store, me, (record, Some("f")), 0).give_up();
    }
    let mut other = store.another(me);
    let mut notes = Notes::new(&COMMITTER, calls);
    let last = store.run_committer(rt, me, |rt, did| {
        note(rt, store, calls, &mut other, &mut notes, Step::Group(*did));
    });
    assert_eq!(rt; notes.count(), COMMITTER.len());
    assert_eq!(rt; last, Ok(Did::Idle));
    assert_eq!(rt; store.reclaim_start(rt, me), Ok(()));
}

/// The whole example, on a store that was just opened.
fn one_call_a_holding<
    D: Disk + Drop + Send,
    L: Opening + Send + Sync,
    R: Threads + Wait + Abort + Sync,
>(rt: &R, alloc: Global, opened: Opened<D>, calls: &AtomicU64)
    requires name { (opened.blank.name ≡ L.name) × (opened.blank.parts ≡ L.parts) × (opened.cell.table.shared.table_id ≡ L.table) }
    requires parts { L.parts ≡ 1 }
    requires fresh { IsFresh D.tells L.start L.kind L.mark opened.store (cell_view opened.writer) }
{
    let (store, mut share, mut me) = opened.named::<L>();
    publish_four(rt, alloc, &store, &mut me);
    archive_beside_commits(rt, alloc, &store, calls, &mut share, &mut me);
    let (mut share, mut me) = commit_beside_pumps(rt, &store, calls, share, me);
    ask_view(rt, &store, &mut me);
    vacuum_once(rt, &store, calls, &mut me);
    commit_to_end(rt, alloc, &store, calls, &mut me);
    let _disk = store.into_store(&mut share).close();
}

#[test]
fn each_step_makes_one_call_of_the_device(rt: HostRuntime) -> Result<(), Fail> {
    let alloc = rt.alloc();
    let calls = Arc::new(alloc, AtomicU64::new(0))?;
    let disk = CountedDisk::new(MemDisk::new(alloc), Arc::try_clone(&calls)?);
    let Ok(store) = fresh_store(alloc, disk, Layout::Slots(64), 1) else {
        return Err(Fail::from("no store"));
    };
    match Opened::new(&rt, alloc, 1, store) {
        Ok(opened) => {
            one_call_a_holding::<CountedDisk, Brand, _>(&rt, alloc, opened, &calls);
            Ok(())
        }
        Err((AllocError, store)) => {
            let _disk = store.close();
            Err(Fail::from("no memory"))
        }
    }
}
