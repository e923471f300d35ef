//! A caller that commits again and again comes back each time, and finds its place free.
ghost use Rattle.std.specs.Prelude.{◌≡◌, ◌<◌, [], length, true};
ghost use Rattle.crossbeam_utils.specs.Seq.{cell_view};
ghost use Rattle.shared.specs.Naming.{IsFresh};

use crate::loops::{await_count, count_one};
use crate::written::{key_of, publish_four};
use any_store::{Did, Layout, TxnFault};
use disk::{Disk, MemDisk};
use shared::{Change, CommitFault, Committed, Observer, Opened, Opening, SharedStore, fresh_store};
use std::alloc::{AllocError, Global};
use std::marker::Brand;
use std::process::Abort;
use std::sync::Wait;
use std::sync::atomic::AtomicU64;
use std::sync::ledger::Share;
use std::test::Fail;
use std::thread::{Threads, join};

/// How often it calls.
const CALLS: u64 = 50;

/// A committer up to its end, which is counted.
fn serve<D: Disk, L: Opening, R: Wait + Abort>(
    rt: &R,
    store: &SharedStore<D, L>,
    me: Observer<L>,
    count: &AtomicU64,
) {
    let mut me = me;
    let last = store.run_committer(rt, &mut me, |_, _| {});
    assert!(rt; last == Ok(Did::Idle));
    count_one(count);
}

/// What a call of `commit` with one change comes to.
fn committed<D: Disk, L: Opening, R: Wait>(
    rt: &R,
    store: &SharedStore<D, L>,
    share: &mut Share<L>,
    me: &mut Observer<L>,
    change: Change<'_>,
) -> Result<Committed, CommitFault>
    requires { 0 < share.old.parts }
    ensures { share.new.parts ≡ share.old.parts }
{
    store.commit(rt, &[change], 9, 0, share, me)
}

/// Commits a value, which is published.
fn commit<D: Disk, L: Opening, R: Wait + Abort>(
    rt: &R,
    store: &SharedStore<D, L>,
    share: &mut Share<L>,
    me: &mut Observer<L>,
)
    requires { 0 < share.old.parts }
    ensures { share.new.parts ≡ share.old.parts }
{
    let fields = [b"d".as_slice()];
    let change = Change::Put {
        key: key_of(7),
        fields: &fields,
    };
    let done = committed(rt, store, share, me, change);
    assert!(rt; matches!(done, Ok(Committed::Done(_))));
}

/// Commits the end of a record that is not there, which is refused.
fn be_refused<D: Disk, L: Opening, R: Wait + Abort>(
    rt: &R,
    store: &SharedStore<D, L>,
    share: &mut Share<L>,
    me: &mut Observer<L>,
)
    requires { 0 < share.old.parts }
    ensures { share.new.parts ≡ share.old.parts }
{
    let change = Change::Delete { key: key_of(8) };
    let refused = committed(rt, store, share, me, change);
    assert!(rt; refused == Err(CommitFault::Txn(TxnFault::Missing)));
}

/// Calls again and again, and counts how often it has come back. Then the committer is told to end.
fn call<D: Disk, L: Opening, R: Wait + Abort>(
    rt: &R,
    store: &SharedStore<D, L>,
    share: Share<L>,
    me: Observer<L>,
    count: &AtomicU64,
)
    requires { 0 < share.parts }
{
    let (mut share, mut me) = (share, me);
    for _ in 0..CALLS {
        commit(rt, store, &mut share, &mut me);
        be_refused(rt, store, &mut share, &mut me);
        count_one(count);
    }
    store.stop(rt);
}

/// Looks whether the caller comes back each time, and the committer ends.
fn watch(rt: &impl Abort, count: &AtomicU64) {
    for number in 0..CALLS {
        await_count(rt, count, number + 1);
    }
    await_count(rt, count, CALLS + 1);
}

/// A caller that is watched.
fn call_watched<D: Disk + Send, L: Opening + Send + Sync, R: Threads + Wait + Abort + Sync>(
    rt: &R,
    store: &SharedStore<D, L>,
    share: Share<L>,
    me: Observer<L>,
    count: &AtomicU64,
)
    requires { 0 < share.parts }
{
    join(
        rt,
        move || call(rt, store, share, me, count),
        move || watch(rt, count),
    );
}

/// A committer in a thread of its own, which serves one caller.
fn serve_beside<D: Disk + Send, L: Opening + Send + Sync, R: Threads + Wait + Abort + Sync>(
    rt: &R,
    store: &SharedStore<D, L>,
    share: Share<L>,
    me: Observer<L>,
    count: &AtomicU64,
)
    requires { 0 < share.parts }
{
    let mut me = me;
    let other = store.another(&mut me);
    join(
        rt,
        move || serve(rt, store, other, count),
        move ||
            requires { 0 < share.parts }
        { call_watched(rt, store, share, me, count) },
    );
}

/// The whole example, on a store that was just opened: one place serves the caller.
fn comes_back<D: Disk + Drop + Send, L: Opening + Send + Sync, R: Threads + Wait + Abort + Sync>(
    rt: &R,
    alloc: Global,
    opened: Opened<D>,
)
    requires name { (opened.blank.name ≡ L.name) × (opened.blank.parts ≡ L.parts) × (opened.cell.table.shared.table_id ≡ L.table) }
    requires parts { L.parts ≡ 2 }
    requires fresh { IsFresh D.tells L.start L.kind L.mark opened.store (cell_view opened.writer) }
{
    let (store, mut share, mut me) = opened.named::<L>();
    publish_four(rt, alloc, &store, &mut me);
    let count = AtomicU64::new(0);
    let part = share.split_off(1, 0);
    serve_beside(rt, &store, part, me, &count);
    assert!(rt; store.most_callers(rt) == 1);
    let _disk = store.into_store(&mut share).close();
}

#[test]
fn a_caller_has_one_place_and_comes_back(rt: HostRuntime) -> Result<(), Fail> {
    let alloc = rt.alloc();
    let Ok(store) = fresh_store(alloc, MemDisk::new(alloc), Layout::Slots(256), 1) else {
        return Err(Fail::from("no store"));
    };
    match Opened::new(&rt, alloc, 2, store) {
        Ok(opened) => {
            comes_back::<MemDisk, Brand, _>(&rt, alloc, opened);
            Ok(())
        }
        Err((AllocError, store)) => {
            let _disk = store.close();
            Err(Fail::from("no memory"))
        }
    }
}
