//! Commits, compared with the raw writes and syncs of as many.

use crate::fault::Fault;
use crate::numbers::{Times, microseconds, nanoseconds, quotient, rate};
use crate::one_caller::committing::{Batch, publish, redeem, submit};
use crate::one_caller::verb::Shape;
use crate::raw::RawFiles;
use crate::records::KEYS;
use crate::stores;
use disk_file::FileDisk;
use rand_core::{Rng, SeedableRng};
use rand_xoshiro::Xoshiro256PlusPlus;
use std::alloc::Global;
use std::fs::File;
use std::rt::Files;
use std::time::{Clock, Instant};
use store::Store;

/// As many slots as a store may have.
const MOST_SLOTS: u32 = 65_536;

/// The groups that are timed before as many raw ones are.
const TURN: u64 = 20;

/// The seed of the keys that are written.
const SEED: u64 = 42;

/// What the member of this number writes in a group: records of its own.
fn batch(random: &mut Xoshiro256PlusPlus, shape: Shape, member: u64, version: u64) -> Batch {
    let first = if shape.records == 1 {
        member
            .wrapping_mul(KEYS)
            .wrapping_add(random.next_u64() % KEYS)
    } else {
        0
    };
    Batch {
        first,
        count: shape.records,
        version,
        now: 0,
    }
}

/// Commits one group. The ticket of its last member is shown, the others are given up.
fn commit_group(
    alloc: Global,
    store: &mut Store<FileDisk>,
    random: &mut Xoshiro256PlusPlus,
    shape: Shape,
    version: u64,
) -> Result<(), Fault> {
    for member in 1..shape.transactions {
        submit(alloc, store, &batch(random, shape, member, version))?.give_up();
    }
    let last = submit(alloc, store, &batch(random, shape, 0, version))?;
    match publish(store) {
        Ok(count) => {
            redeem(store, last)?;
            if count == shape.transactions {
                Ok(())
            } else {
                Err(Fault::Wrong("other commits were published"))
            }
        }
        Err(fault) => {
            last.give_up();
            Err(fault)
        }
    }
}

/// The nanoseconds of one group.
fn time_group(
    rt: &HostRuntime,
    alloc: Global,
    store: &mut Store<FileDisk>,
    random: &mut Xoshiro256PlusPlus,
    shape: Shape,
    version: u64,
) -> Result<u64, Fault> {
    let start = Instant::now(rt)?;
    commit_group(alloc, store, random, shape, version)?;
    Ok(nanoseconds(rt, &start)?)
}

/// The nanoseconds of the raw writes and syncs of one group.
fn time_raw(rt: &HostRuntime, raw: &mut RawFiles, shape: Shape) -> Result<u64, Fault> {
    let start = Instant::now(rt)?;
    raw.write_group(shape.extents)?;
    Ok(nanoseconds(rt, &start)?)
}

/// Times this many groups, and as many of raw writes and syncs, in turns.
fn time_groups(
    rt: &HostRuntime,
    alloc: Global,
    store: &mut Store<FileDisk>,
    raw: &mut RawFiles,
    shape: Shape,
    count: u64,
) -> Result<(Times, Times), Fault> {
    let mut random = Xoshiro256PlusPlus::seed_from_u64(SEED);
    let mut groups = Times::new(alloc);
    let mut raws = Times::new(alloc);
    for turn in 0..count / TURN + 1 {
        let first = turn.saturating_mul(TURN);
        let rounds = count.saturating_sub(first).min(TURN);
        for round in 0..rounds {
            let version = first.wrapping_add(round);
            groups.push(time_group(rt, alloc, store, &mut random, shape, version)?)?;
        }
        for _ in 0..rounds {
            raws.push(time_raw(rt, raw, shape)?)?;
        }
    }
    Ok((groups, raws))
}

/// Of groups of so many records, prints how many are committed in a second, the median of a group's microseconds, the same
/// of the raw writes and syncs, and how many times their median the group's is.
pub(crate) fn print(rt: &HostRuntime, each: u64, times: (Times, Times)) -> Result<(), Fault> {
    let (mut groups, mut raws) = times;
    let count = groups.count();
    let value = rate(count.saturating_mul(each), groups.sum());
    let raw = rate(count.saturating_mul(each), raws.sum());
    let median = groups.median()?;
    let raw_median = raws.median()?;
    println!(rt;
        "{{\"value\": {value}, \"groups\": {count}, \"median_us\": {}, \"raw\": {raw}, \"raw_median_us\": {}, \"times_raw\": {}}}",
        microseconds(median),
        microseconds(raw_median),
        quotient(median, raw_median),
    )?;
    Ok(())
}

/// The files of raw writes, in a folder of their own below this one.
fn open_raw(rt: &HostRuntime, alloc: Global, folder: &str) -> Result<RawFiles, Fault> {
    let folder = format!(in alloc; "{folder}/raw")?;
    RawFiles::new(rt, alloc, folder.as_str(), MOST_SLOTS)
}

/// A new store, in a folder of its own below this one.
fn open_store(rt: &HostRuntime, alloc: Global, folder: &str) -> Result<Store<FileDisk>, Fault> {
    let folder = format!(in alloc; "{folder}/store")?;
    stores::make(rt, alloc, folder.as_str(), MOST_SLOTS)?;
    stores::open(rt, alloc, folder.as_str())
}

/// Measures this many groups of commits.
pub(crate) fn measure(
    rt: &HostRuntime,
    alloc: Global,
    folder: &str,
    shape: Shape,
    count: u64,
) -> Result<(), Fault> {
    let mut raw = open_raw(rt, alloc, folder)?;
    let mut store = open_store(rt, alloc, folder)?;
    let times = time_groups(rt, alloc, &mut store, &mut raw, shape, count);
    store.close();
    print(rt, shape.transactions.saturating_mul(shape.records), times?)
}
