//! Queries of a store that may have been vacuumed, at all its times and at its last.

use crate::fault::Fault;
use crate::numbers::{Times, microseconds, nanoseconds, quotient, rate};
use crate::one_caller::asking::{ask, time_questions};
use crate::one_caller::verb::Question;
use crate::records::{FIRST_TIME, KEYS};
use crate::stores;
use disk_file::FileDisk;
use rand_core::{Rng, SeedableRng};
use rand_xoshiro::Xoshiro256PlusPlus;
use std::alloc::Global;
use std::fs::File;
use std::rt::Files;
use std::time::{Clock, Instant};
use store::Store;

/// How often the store is opened and asked a first question.
const OPENINGS: u64 = 7;

/// How often that question is asked again.
const REPEATS: u64 = 5;

/// The seed of the first questions.
const SEED: u64 = 13;

/// The microseconds from the first version to the last.
fn span(store: &Store<FileDisk>) -> u64 {
    store.last().saturating_sub(FIRST_TIME)
}

/// The nanoseconds of a first question on a store that was just opened, and of the same again.
fn time_first(
    rt: &HostRuntime,
    store: &mut Store<FileDisk>,
    question: Question,
    random: &mut Xoshiro256PlusPlus,
) -> Result<(u64, u64), Fault> {
    let record = random.next_u64() % KEYS;
    let after = random.next_u64() % span(store).max(1);
    let start = Instant::now(rt)?;
    ask(store, question, record, after)?;
    let first = nanoseconds(rt, &start)?;
    let start = Instant::now(rt)?;
    for _ in 0..REPEATS {
        ask(store, question, record, after)?;
    }
    Ok((first, nanoseconds(rt, &start)? / REPEATS))
}

/// The medians of first questions and of the same again, in nanoseconds.
fn time_openings(
    rt: &HostRuntime,
    alloc: Global,
    folder: &str,
    question: Question,
) -> Result<(u64, u64), Fault> {
    let mut random = Xoshiro256PlusPlus::seed_from_u64(SEED);
    let mut firsts = Times::new(alloc);
    let mut others = Times::new(alloc);
    for _ in 0..OPENINGS {
        let mut store = stores::open(rt, alloc, folder)?;
        let times = time_first(rt, &mut store, question, &mut random);
        store.close();
        let (first, other) = times?;
        firsts.push(first)?;
        others.push(other)?;
    }
    Ok((firsts.median()?, others.median()?))
}

/// The nanoseconds of this many questions at random keys, all as of the last commit.
fn time_last(
    rt: &HostRuntime,
    store: &mut Store<FileDisk>,
    question: Question,
    count: u64,
) -> Result<u64, Fault> {
    let mut random = Xoshiro256PlusPlus::seed_from_u64(SEED);
    let after = span(store);
    let start = Instant::now(rt)?;
    for _ in 0..count {
        ask(store, question, random.next_u64() % KEYS, after)?;
    }
    Ok(nanoseconds(rt, &start)?)
}

/// The nanoseconds of this many questions on one store, as of times before the last commit, and of as
/// many as of the last.
fn time_opened(
    rt: &HostRuntime,
    alloc: Global,
    folder: &str,
    question: Question,
    count: u64,
) -> Result<(u64, u64), Fault> {
    let mut store = stores::open(rt, alloc, folder)?;
    let times = span(&store);
    let past = time_questions(rt, &mut store, question, times, count);
    let last = time_last(rt, &mut store, question, count);
    store.close();
    Ok((past?, last?))
}

/// Measures this many questions on the store of a folder.
pub(crate) fn measure(
    rt: &HostRuntime,
    alloc: Global,
    folder: &str,
    question: Question,
    count: u64,
) -> Result<(), Fault> {
    let folder = format!(in alloc; "{folder}/store")?;
    let (first, again) = time_openings(rt, alloc, folder.as_str(), question)?;
    let (past, last) = time_opened(rt, alloc, folder.as_str(), question, count)?;
    println!(rt;
        "{{\"value\": {}, \"count\": {count}, \"us\": {}, \"first_us\": {}, \"again_us\": {}, \"last\": {}, \"last_us\": {}}}",
        rate(count, past),
        quotient(past / 1000, count),
        microseconds(first),
        microseconds(again),
        rate(count, last),
        quotient(last / 1000, count),
    )?;
    Ok(())
}
