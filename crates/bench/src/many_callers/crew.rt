//! Threads that write and read a shared store, and its committer.
ghost use Rattle.std.specs.Prelude.{◌≡◌, ◌+◌, ◌<◌, [], true, length, IfOk};
ghost use Rattle.crossbeam_utils.specs.Seq.{cell_view};
ghost use Rattle.shared.specs.Naming.{IsFresh};

use crate::fault::Fault;
use crate::many_callers::groups::{Spent, Watch};
use crate::numbers::nanoseconds;
use crate::records;
use crate::records::KEYS;
use any_store::{Did, Store};
use disk::Disk;
use shared::{Change, Committed, Observer, Opened, Opening, SharedStore};
use std::alloc::{AllocError, Global};
use std::sync::Wait;
use std::sync::atomic::{AtomicU64, Ordering};
use std::sync::ledger::Share;
use std::thread::{Threads, join, map_vec};
use std::time::{Clock, Instant};

/// What the readers do.
#[derive(Clone, Copy)]
pub(crate) enum Reading {
    /// Each takes a view for each key that it asks for.
    Views,
    /// Each takes one of those that readers share.
    LatestViews,
    /// Each has one view, which it renews before each key.
    RenewedViews,
    /// Each asks for all its keys by one view.
    Asks,
}

/// So many threads that commit, each so often, and so many that read. Where some read, the others write
/// until these have ended.
#[derive(Clone, Copy)]
pub(crate) struct Load {
    pub(crate) writers: u8,
    pub(crate) commits: u64,
    pub(crate) readers: u8,
    pub(crate) reads: u64,
    pub(crate) reading: Reading,
}

/// What was done.
#[derive(Clone, Copy)]
pub(crate) struct Work {
    pub(crate) commits: u64,
    pub(crate) spent: Spent,
    pub(crate) reads: u64,
    pub(crate) nanoseconds: u64,
}

/// A thread that commits: its number, from 0 on, how often it does, one part of the ledger, and what it
/// has seen.
#[derive(Drop)]
pub(crate) struct Writer<L: Opening> {
    pub(crate) number: u64,
    pub(crate) rounds: u64,
    pub(crate) share: Share<L>,
    pub(crate) me: Observer<L>,
    pub(crate) ghost one_part: { share.parts ≡ 1 },
}

/// What threads did, where none was refused.
#[derive(Clone, Copy, Drop)]
struct Called {
    commits: Option<u64>,
    reads: Option<u64>,
}

fn make_writer<L: Opening>(number: u64, rounds: u64, share: Share<L>, me: Observer<L>) -> Writer<L>
    requires { share.parts ≡ 1 }
{
    Writer {
        number,
        rounds,
        share,
        me,
    }
}

/// Threads that are to write so often, with a part of the ledger each.
pub(crate) fn writers_for<D: Disk, L: Opening>(
    alloc: Global,
    store: &SharedStore<D, L>,
    all: &mut Share<L>,
    me: &mut Observer<L>,
    writers: u8,
    rounds: u64,
) -> Result<Vec<Writer<L>>, AllocError>
    requires parts { all.old.parts ≡ writers + 1 }
    requires amount { all.old.amount ≡ 0 }
{
    let mut made = Vec::new(alloc);
    for number in 0..writers {
        let share = all.split_off(1, 0);
        made.push(make_writer(u64::from(number), rounds, share, store.another(me)))?;
    }
    Ok(made)
}

/// What threads that are to read have seen.
pub(crate) fn readers_for<D: Disk, L: Opening>(
    alloc: Global,
    store: &SharedStore<D, L>,
    me: &mut Observer<L>,
    readers: u8,
) -> Result<Vec<Observer<L>>, AllocError> {
    let mut observers = Vec::new(alloc);
    for _ in 0..readers {
        observers.push(store.another(me))?;
    }
    Ok(observers)
}

// Commits a version of one record. Whether it was published.
fn write_one<D: Disk, L: Opening, R: Wait>(
    rt: &R,
    store: &SharedStore<D, L>,
    record: u64,
    version: u64,
    share: &mut Share<L>,
    me: &mut Observer<L>,
) -> bool
    requires { 0 < share.old.parts }
    ensures { share.new.parts ≡ share.old.parts }
{
    let fields = records::fields(record, version);
    let slices = records::slices(&fields);
    let changes = [Change::Put {
        key: records::key(record),
        fields: &slices,
    }];
    let done = store.commit(rt, &changes, version, 0, share, me);
    matches!(done, Ok(Committed::Done(_)))
}

// Commits records of its own, one at a time, until the readers have ended. How many, or none where one
// was refused.
fn write<D: Disk, L: Opening, R: Wait>(
    rt: &R,
    store: &SharedStore<D, L>,
    writer: Writer<L>,
    done: &AtomicU64,
) -> Option<u64> {
    let Writer {
        number,
        rounds,
        mut share,
        mut me,
    } = writer;
    let first = number.wrapping_add(1).wrapping_mul(KEYS);
    let mut commits = 0u64;
    for version in 0..rounds {
        if done.load(Ordering::SeqCst) != 0 {
            break;
        }
        let record = first.wrapping_add(version % KEYS);
        if !write_one(rt, store, record, version, &mut share, &mut me) {
            return None;
        }
        commits = commits.wrapping_add(1);
    }
    Some(commits)
}

// Takes a view and asks it for a key that was written before. Whether it was answered right.
fn view_one<D: Disk, L: Opening, R: Wait>(
    rt: &R,
    store: &SharedStore<D, L>,
    me: &mut Observer<L>,
    reading: Reading,
    record: u64,
) -> bool {
    let taken = match reading {
        Reading::LatestViews => store.latest_view(rt, me),
        Reading::Views | Reading::RenewedViews | Reading::Asks => store.view(rt, me),
    };
    let view = match taken {
        Ok(view) => view,
        Err(AllocError) => return false,
    };
    let right = match view.recent(records::key(record), 1) {
        Ok(Some(value)) => records::is_version(value, record, 0),
        _ => false,
    };
    store.end(view);
    right
}

// Asks one view for keys that were written before, which is renewed before each where it is to be. How many
// were answered right.
fn ask<D: Disk, L: Opening, R: Wait>(
    rt: &R,
    store: &SharedStore<D, L>,
    me: &mut Observer<L>,
    load: Load,
) -> u64 {
    let mut view = match store.view(rt, me) {
        Ok(view) => view,
        Err(AllocError) => return 0,
    };
    let is_renewed = matches!(load.reading, Reading::RenewedViews);
    let mut right = 0u64;
    for number in 0..load.reads {
        if is_renewed && store.renew(rt, &mut view, me).is_err() {
            break;
        }
        let record = number.wrapping_mul(7) % KEYS;
        if let Ok(Some(value)) = view.recent(records::key(record), 1) {
            right = right.wrapping_add(u64::from(records::is_version(value, record, 0)));
        }
    }
    store.end(view);
    right
}

// Reads so often. How often, or none where an answer was not right.
fn read<D: Disk, L: Opening, R: Wait>(
    rt: &R,
    store: &SharedStore<D, L>,
    me: Observer<L>,
    load: Load,
) -> Option<u64> {
    let mut me = me;
    match load.reading {
        Reading::Asks | Reading::RenewedViews => {
            let right = ask(rt, store, &mut me, load);
            (right == load.reads).then_some(right)
        }
        Reading::Views | Reading::LatestViews => {
            for number in 0..load.reads {
                if !view_one(rt, store, &mut me, load.reading, number % KEYS) {
                    return None;
                }
            }
            Some(load.reads)
        }
    }
}

// All of them together; none where one was refused.
fn sum(each: Result<Vec<Option<u64>>, AllocError>) -> Option<u64> {
    let mut sum = 0u64;
    match each {
        Ok(each) => {
            for one in &each {
                sum = sum.wrapping_add((*one)?);
            }
            Some(sum)
        }
        Err(AllocError) => None,
    }
}

fn write_all<D: Disk + Send, L: Opening + Send + Sync, R: Threads + Wait + Sync>(
    rt: &R,
    store: &SharedStore<D, L>,
    writers: Vec<Writer<L>>,
    done: &AtomicU64,
) -> Option<u64> {
    sum(map_vec(rt, writers, &|writer| write(rt, store, writer, done)))
}

fn read_all<D: Disk + Send, L: Opening + Send + Sync, R: Threads + Wait + Sync>(
    rt: &R,
    store: &SharedStore<D, L>,
    readers: Vec<Observer<L>>,
    load: Load,
    done: &AtomicU64,
) -> Option<u64> {
    let some = !readers.is_empty();
    let read = sum(map_vec(rt, readers, &|me| read(rt, store, me, load)));
    done.store(u64::from(some), Ordering::SeqCst);
    read
}

// Writers and readers, until all have ended. Then the committer is told to end.
fn call_all<D: Disk + Send, L: Opening + Send + Sync, R: Threads + Wait + Sync>(
    rt: &R,
    store: &SharedStore<D, L>,
    writers: Vec<Writer<L>>,
    readers: Vec<Observer<L>>,
    load: Load,
) -> Called {
    let done = AtomicU64::new(0);
    let flag = &done;
    let (commits, reads) = join(
        rt,
        move || write_all(rt, store, writers, flag),
        move || read_all(rt, store, readers, load, flag),
    );
    store.stop(rt);
    Called { commits, reads }
}

// Publishes until told to end. What it spent.
fn publish_all<D: Disk, L: Opening, R: Wait + Clock>(
    rt: &R,
    store: &SharedStore<D, L>,
    me: Observer<L>,
) -> Spent {
    let mut me = me;
    let mut watch = Watch::new(rt);
    let _last = store.run_committer(rt, &mut me, |rt, did| watch.note(rt, did));
    watch.spent()
}

// The keys that are read, each with a version 0 at 1.
fn load_keys<D: Disk, L: Opening, R: Wait>(
    rt: &R,
    alloc: Global,
    store: &SharedStore<D, L>,
    me: &mut Observer<L>,
) -> Result<(), Fault> {
    let mut txn = store.begin(rt, me)?;
    for record in 0..KEYS {
        let fields = records::fields(record, 0);
        if let Err(fault) = txn.put(alloc, records::key(record), &records::slices(&fields)) {
            store.abort(rt, txn, me);
            return Err(Fault::Txn(fault));
        }
    }
    match store.submit(rt, txn, 0, 1, me)? {
        store::Submitted::Queued(ticket) => ticket.give_up(),
        store::Submitted::ReadOnly(_) => return Err(Fault::Wrong("nothing was written")),
    }
    for _ in 0..u64::MAX {
        if store.pump(rt, me)? == Did::Idle {
            break;
        }
    }
    Ok(())
}

fn run_threads<D: Disk + Send, L: Opening + Send + Sync, R: Threads + Wait + Clock + Sync>(
    rt: &R,
    store: &SharedStore<D, L>,
    writers: Vec<Writer<L>>,
    readers: Vec<Observer<L>>,
    me: Observer<L>,
    load: Load,
) -> Result<Work, Fault> {
    let start = Instant::now(rt)?;
    let (called, spent) = join(
        rt,
        move || call_all(rt, store, writers, readers, load),
        move || publish_all(rt, store, me),
    );
    let nanoseconds = nanoseconds(rt, &start)?;
    match (called.commits, called.reads) {
        (Some(commits), Some(reads)) => Ok(Work {
            commits,
            spent,
            reads,
            nanoseconds,
        }),
        (None, _) => Err(Fault::Wrong("a commit was refused")),
        (_, None) => Err(Fault::Wrong("a view answered wrong")),
    }
}

/// The load's threads over a store that was just opened. Gives the store back.
pub(crate) fn run<D: Disk + Send, L: Opening + Send + Sync, R: Threads + Wait + Clock + Sync>(
    rt: &R,
    alloc: Global,
    opened: Opened<D>,
    load: Load,
) -> (Store<D>, Result<Work, Fault>)
    requires name { (opened.blank.name ≡ L.name) × (opened.blank.parts ≡ L.parts) × (opened.cell.table.shared.table_id ≡ L.table) }
    requires parts { L.parts ≡ load.writers + 1 }
    requires fresh { IsFresh D.tells L.start L.kind L.mark opened.store (cell_view opened.writer) }
{
    let (store, mut all, mut me) = opened.named::<L>();
    let loaded = if load.readers > 0 {
        load_keys(rt, alloc, &store, &mut me)
    } else {
        Ok(())
    };
    let writers = writers_for(alloc, &store, &mut all, &mut me, load.writers, load.commits);
    let readers = readers_for(alloc, &store, &mut me, load.readers);
    let done = match (loaded, writers, readers) {
        (Ok(()), Ok(writers), Ok(readers)) => {
            run_threads(rt, &store, writers, readers, me, load)
        }
        (Err(fault), _, _) => Err(fault),
        (_, Err(AllocError), _) | (_, _, Err(AllocError)) => Err(Fault::Memory(AllocError)),
    };
    (store.into_store(&mut all), done)
}
