//! Commits of a store whose log lies in the heap, compared with the raw writes and the two syncs of
//! as many.

use crate::fault::Fault;
use crate::numbers::{Times, nanoseconds};
use crate::one_caller::committing::{Batch, LABEL, put_all};
use crate::one_caller::writing::print;
use crate::raw::RawLog;
use crate::records::KEYS;
use disk_file::{Access, FileDisk};
use log_store::{Did, LogStore};
use rand_core::{Rng, SeedableRng};
use rand_xoshiro::Xoshiro256PlusPlus;
use std::alloc::Global;
use std::fs::{File, create_dir};
use std::rt::Files;
use std::time::{Clock, Instant};
use store::{Submitted, Ticket};

/// As many extents as a heap may have.
const MOST_EXTENTS: u32 = 1_048_576;

/// The groups that are timed before as many raw ones are.
const TURN: u64 = 20;

/// The seed of the keys that are written.
const SEED: u64 = 42;

fn submit(alloc: Global, store: &mut LogStore<FileDisk>, batch: &Batch) -> Result<Ticket, Fault> {
    let mut txn = store.begin()?;
    match put_all(alloc, &mut txn, batch) {
        Ok(()) => {}
        Err(fault) => {
            store.abort(txn);
            return Err(fault);
        }
    }
    match store.submit(txn, LABEL, batch.now)? {
        Submitted::Queued(ticket) => Ok(ticket),
        Submitted::ReadOnly(_) => Err(Fault::Wrong("nothing was written")),
    }
}

/// Publishes all that waits. Gives how many commits that were.
fn publish(store: &mut LogStore<FileDisk>) -> Result<u64, Fault> {
    let mut published = 0u64;
    for _ in 0..u64::MAX {
        match store.pump()? {
            Did::Idle => break,
            Did::Published(count) => published = published.saturating_add(u64::from(count)),
            _ => {}
        }
    }
    Ok(published)
}

/// Commits one group of so many commits of one record. Their tickets are
/// given up.
fn commit_group(
    alloc: Global,
    store: &mut LogStore<FileDisk>,
    random: &mut Xoshiro256PlusPlus,
    commits: u64,
    version: u64,
) -> Result<(), Fault> {
    for member in 0..commits {
        let batch = Batch {
            first: member
                .wrapping_mul(KEYS)
                .wrapping_add(random.next_u64() % KEYS),
            count: 1,
            version,
            now: 0,
        };
        submit(alloc, store, &batch)?.give_up();
    }
    if publish(store)? == commits {
        Ok(())
    } else {
        Err(Fault::Wrong("other commits were published"))
    }
}

/// The nanoseconds of one group.
fn time_group(
    rt: &HostRuntime,
    alloc: Global,
    store: &mut LogStore<FileDisk>,
    random: &mut Xoshiro256PlusPlus,
    commits: u64,
    version: u64,
) -> Result<u64, Fault> {
    let start = Instant::now(rt)?;
    commit_group(alloc, store, random, commits, version)?;
    Ok(nanoseconds(rt, &start)?)
}

/// The nanoseconds of the raw writes and syncs of one group.
fn time_raw(rt: &HostRuntime, raw: &mut RawLog, extents: u64) -> Result<u64, Fault> {
    let start = Instant::now(rt)?;
    raw.write_group(extents)?;
    Ok(nanoseconds(rt, &start)?)
}

/// Times this many groups, and as many of raw writes and syncs, in turns.
fn time_groups(
    rt: &HostRuntime,
    alloc: Global,
    store: &mut LogStore<FileDisk>,
    raw: &mut RawLog,
    (commits, extents): (u64, u64),
    count: u64,
) -> Result<(Times, Times), Fault> {
    let mut random = Xoshiro256PlusPlus::seed_from_u64(SEED);
    let mut groups = Times::new(alloc);
    let mut raws = Times::new(alloc);
    for turn in 0..count / TURN + 1 {
        let first = turn.saturating_mul(TURN);
        let rounds = count.saturating_sub(first).min(TURN);
        for round in 0..rounds {
            let version = first.wrapping_add(round);
            groups.push(time_group(rt, alloc, store, &mut random, commits, version)?)?;
        }
        for _ in 0..rounds {
            raws.push(time_raw(rt, raw, extents)?)?;
        }
    }
    Ok((groups, raws))
}

/// A new store, in a folder of its own below this one.
fn new_store(rt: &HostRuntime, alloc: Global, folder: &str) -> Result<LogStore<FileDisk>, Fault> {
    let folder = format!(in alloc; "{folder}/store")?;
    create_dir(rt, folder.as_str())?;
    let disk = FileDisk::open(rt, folder.as_str(), Access::Make)?;
    match LogStore::create(alloc, disk, 1, MOST_EXTENTS) {
        Ok(store) => Ok(store),
        Err((fault, _)) => Err(Fault::Format(fault)),
    }
}

/// Measures this many groups of so many commits, in so many extents.
pub(crate) fn measure(
    rt: &HostRuntime,
    alloc: Global,
    folder: &str,
    commits: u64,
    extents: u64,
    count: u64,
) -> Result<(), Fault> {
    let mut raw = RawLog::new(rt, alloc, folder)?;
    let mut store = new_store(rt, alloc, folder)?;
    let times = time_groups(rt, alloc, &mut store, &mut raw, (commits, extents), count);
    let _disk = store.close();
    print(rt, commits, times?)
}
