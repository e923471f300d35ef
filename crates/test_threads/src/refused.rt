//! Commits that are refused: each is told why, and leaves no snapshot open.
ghost use Rattle.std.specs.Prelude.{◌≡◌, ◌<◌, [], length, true};
ghost use Rattle.crossbeam_utils.specs.Seq.{cell_view};
ghost use Rattle.shared.specs.Naming.{IsFresh};

use crate::written::{key_of, publish_four, pump_job, pump_to, queued};
use any_store::{Did, Layout, SubmitFault, TxnFault};
use disk::{Disk, MemDisk};
use shared::{Change, CommitFault, Observer, Opened, Opening, SharedStore, fresh_store};
use std::alloc::{AllocError, Global};
use std::marker::Brand;
use std::process::Abort;
use std::sync::Wait;
use std::sync::ledger::Share;
use std::test::Fail;

/// Commits one change, which is refused for this reason.
fn refuse<D: Disk, L: Opening, R: Wait + Abort>(
    rt: &R,
    store: &SharedStore<D, L>,
    share: &mut Share<L>,
    me: &mut Observer<L>,
    change: Change<'_>,
    why: CommitFault,
)
    requires { 0 < share.old.parts }
    ensures { share.new.parts ≡ share.old.parts }
{
    assert_eq!(rt; store.commit(rt, &[change], 9, 0, share, me), Err(why));
}

/// A value of no field, a key that has none, and a key that a commit which waits has written too.
fn refuse_each<D: Disk, L: Opening, R: Wait + Abort>(
    rt: &R,
    store: &SharedStore<D, L>,
    share: &mut Share<L>,
    me: &mut Observer<L>,
)
    requires { 0 < share.old.parts }
    ensures { share.new.parts ≡ share.old.parts }
{
    let none = Change::Put {
        key: key_of(7),
        fields: &[],
    };
    let bad = CommitFault::Txn(TxnFault::BadValue);
    refuse(rt, store, share, me, none, bad);
    let gone = Change::Delete { key: key_of(8) };
    let missing = CommitFault::Txn(TxnFault::Missing);
    refuse(rt, store, share, me, gone, missing);
    let fields = [b"e".as_slice()];
    let other = Change::Put {
        key: key_of(7),
        fields: &fields,
    };
    let conflict = CommitFault::Submit(SubmitFault::Conflict(key_of(7)));
    refuse(rt, store, share, me, other, conflict);
}

/// The whole example, on a store that was just opened. No snapshot before 140 is open at its end, so a
/// reclaim begins.
fn refuses_commits<D: Disk + Drop, L: Opening, R: Wait + Abort>(
    rt: &R,
    alloc: Global,
    opened: Opened<D>,
)
    requires name { (opened.blank.name ≡ L.name) × (opened.blank.parts ≡ L.parts) × (opened.cell.table.shared.table_id ≡ L.table) }
    requires parts { L.parts ≡ 1 }
    requires fresh { IsFresh D.tells L.start L.kind L.mark opened.store (cell_view opened.writer) }
{
    let (store, mut share, mut me) = opened.named::<L>();
    publish_four(rt, alloc, &store, &mut me);
    queued(rt, alloc, &store, &mut me, (7, Some("d")), 140).give_up();
    refuse_each(rt, &store, &mut share, &mut me);
    pump_to(rt, &store, &mut me, Ok(Did::Published(1)));
    assert_eq!(rt; store.archive_start(rt, 140, &mut me), Ok(()));
    pump_job(rt, &store, &mut me);
    assert_eq!(rt; store.reclaim_start(rt, &mut me), Ok(()));
    let _disk = store.into_store(&mut share).close();
}

#[test]
fn a_refused_commit_is_told_why(rt: HostRuntime) -> Result<(), Fail> {
    let alloc = rt.alloc();
    let Ok(store) = fresh_store(alloc, MemDisk::new(alloc), Layout::Slots(64), 1) else {
        return Err(Fail::from("no store"));
    };
    match Opened::new(&rt, alloc, 1, store) {
        Ok(opened) => {
            refuses_commits::<MemDisk, Brand, _>(&rt, alloc, opened);
            Ok(())
        }
        Err((AllocError, store)) => {
            let _disk = store.close();
            Err(Fail::from("no memory"))
        }
    }
}
