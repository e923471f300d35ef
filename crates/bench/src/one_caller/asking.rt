//! Queries of a store with 1,000 keys of as many versions each, compared with copies of their
//! answers.

use crate::fault::Fault;
use crate::numbers::{milliseconds, nanoseconds, quotient, rate};
use crate::one_caller::committing::{Batch, commit};
use crate::one_caller::copying::time_copies;
use crate::one_caller::verb::Question;
use crate::records::{FIRST_TIME, KEYS, RELATION, STEP, is_version, key};
use crate::stores;
use disk::{Area, Disk};
use disk_file::FileDisk;
use history::Version;
use rand_core::{Rng, SeedableRng};
use rand_xoshiro::Xoshiro256PlusPlus;
use std::alloc::Global;
use std::fs::File;
use std::rt::Files;
use std::time::{Clock, Instant};
use store::{QueryFault, SharedValue, Store, View};

/// The slots of a store that `format` makes where it isn't told otherwise.
const SLOTS: u32 = 1_024;

/// The seed of the keys and times that are asked for.
const SEED: u64 = 11;

/// The microseconds from the first version up to the last, of so many.
fn span_of(versions: u64) -> u64 {
    versions.saturating_sub(1).saturating_mul(STEP)
}

/// How many versions each key has.
fn versions_in(store: &Store<FileDisk>) -> u64 {
    store.last().saturating_sub(FIRST_TIME) / STEP + 1
}

/// Commits version after version of all keys.
fn load(alloc: Global, store: &mut Store<FileDisk>, versions: u64) -> Result<(), Fault> {
    for version in 0..versions {
        let batch = Batch {
            first: 0,
            count: KEYS,
            version,
            now: FIRST_TIME.saturating_add(version.saturating_mul(STEP)),
        };
        commit(alloc, store, &batch)?;
    }
    Ok(())
}

/// Makes a folder with a store of so many versions of each key, and closes it. Gives its disk.
fn make(rt: &HostRuntime, alloc: Global, folder: &str, versions: u64) -> Result<FileDisk, Fault> {
    stores::make(rt, alloc, folder, SLOTS)?;
    let mut store = stores::open(rt, alloc, folder)?;
    let loaded = load(alloc, &mut store, versions);
    let disk = store.close();
    loaded?;
    Ok(disk)
}

/// Asks for the value of a key as of a time.
fn ask_value(store: &mut Store<FileDisk>, record: u64, after: u64) -> Result<(), Fault> {
    let view = store.view()?;
    let found = store.at(&view, key(record), FIRST_TIME.wrapping_add(after));
    store.end(view);
    match found? {
        Some(value) if is_version(&value, record, after / STEP) => Ok(()),
        _ => Err(Fault::Wrong("another value")),
    }
}

/// Whether these are all versions of a key, so many.
fn are_versions(rows: &[Version<SharedValue>], record: u64, versions: u64) -> bool {
    let mut version = 0u64;
    for row in rows {
        if !is_version(&row.value, record, version) {
            return false;
        }
        version = version.wrapping_add(1);
    }
    version == versions
}

/// Asks for all versions of a key.
fn ask_rows(store: &mut Store<FileDisk>, record: u64) -> Result<(), Fault> {
    let versions = versions_in(store);
    let end = store.last().saturating_add(1);
    let view = store.view()?;
    let found = store.between(&view, key(record), FIRST_TIME, end);
    store.end(view);
    if are_versions(&found?, record, versions) {
        Ok(())
    } else {
        Err(Fault::Wrong("other rows"))
    }
}

/// Whether a walk goes over all versions of a key, so many, up to a time.
fn walks_versions(view: &View, record: u64, end: u64, versions: u64) -> Result<bool, QueryFault> {
    let mut walk = view.recent_rows(key(record), FIRST_TIME, end)?;
    let mut version = 0u64;
    while let Some(row) = walk.next() {
        if !is_version(row.value, record, version) {
            return Ok(false);
        }
        version = version.wrapping_add(1);
    }
    Ok(version == versions)
}

/// Asks for all versions of a key, in a loan.
fn ask_walk(store: &mut Store<FileDisk>, record: u64) -> Result<(), Fault> {
    let versions = versions_in(store);
    let end = store.last().saturating_add(1);
    let view = store.view()?;
    let found = walks_versions(&view, record, end, versions);
    store.end(view);
    if found? {
        Ok(())
    } else {
        Err(Fault::Wrong("other rows"))
    }
}

/// Whether these are all keys with this version.
fn are_records(found: &[(u64, SharedValue)], version: u64) -> bool {
    let mut record = 0u64;
    for pair in found {
        if pair.0 != record || !is_version(&pair.1, record, version) {
            return false;
        }
        record = record.wrapping_add(1);
    }
    record == KEYS
}

/// Asks for all records as of a time.
fn ask_scan(store: &mut Store<FileDisk>, after: u64) -> Result<(), Fault> {
    let view = store.view()?;
    let found = store.scan_at(&view, RELATION, FIRST_TIME.wrapping_add(after));
    store.end(view);
    if are_records(&found?, after / STEP) {
        Ok(())
    } else {
        Err(Fault::Wrong("other records"))
    }
}

/// Asks a question of this key, or of all, as of so many microseconds after the first version.
pub(crate) fn ask(
    store: &mut Store<FileDisk>,
    question: Question,
    record: u64,
    after: u64,
) -> Result<(), Fault> {
    match question {
        Question::Value => ask_value(store, record, after),
        Question::Rows => ask_rows(store, record),
        Question::Walk => ask_walk(store, record),
        Question::Scan => ask_scan(store, after),
    }
}

/// The nanoseconds of this many questions at random keys, and at random times, less than so many
/// microseconds after the first version. Each takes a view of its own.
pub(crate) fn time_questions(
    rt: &HostRuntime,
    store: &mut Store<FileDisk>,
    question: Question,
    times: u64,
    count: u64,
) -> Result<u64, Fault> {
    let mut random = Xoshiro256PlusPlus::seed_from_u64(SEED);
    let start = Instant::now(rt)?;
    for _ in 0..count {
        let record = random.next_u64() % KEYS;
        let after = random.next_u64() % times.max(1);
        ask(store, question, record, after)?;
    }
    Ok(nanoseconds(rt, &start)?)
}

/// How many values an answer has where each key has so many versions, and how many things the measurement
/// counts of it.
fn sizes(question: Question, versions: u64) -> (u64, u64) {
    match question {
        Question::Value => (1, 1),
        Question::Rows | Question::Walk => (versions, versions),
        Question::Scan => (KEYS, 1),
    }
}

/// The nanoseconds of opening a store of so many versions of each key, and of this many questions.
fn time_opened(
    rt: &HostRuntime,
    alloc: Global,
    folder: &str,
    question: Question,
    count: u64,
    versions: u64,
) -> Result<(u64, u64), Fault> {
    let start = Instant::now(rt)?;
    let mut store = stores::open(rt, alloc, folder)?;
    let opened = nanoseconds(rt, &start);
    let times = span_of(versions).saturating_add(1);
    let time = time_questions(rt, &mut store, question, times, count);
    store.close();
    Ok((opened?, time?))
}

/// Measures this many questions of a store of so many versions of each key, after it was closed and opened.
pub(crate) fn measure(
    rt: &HostRuntime,
    alloc: Global,
    folder: &str,
    question: Question,
    count: u64,
    versions: u64,
) -> Result<(), Fault> {
    let folder = format!(in alloc; "{folder}/store")?;
    make(rt, alloc, folder.as_str(), versions)?;
    let (opened, time) = time_opened(rt, alloc, folder.as_str(), question, count, versions)?;
    let (values, each) = sizes(question, versions);
    let value = rate(count.saturating_mul(each), time);
    let copies = rate(
        count.saturating_mul(each),
        time_copies(rt, alloc, values, count)?,
    );
    let opened = milliseconds(opened);
    println!(rt;
        "{{\"value\": {value}, \"count\": {count}, \"copies\": {copies}, \"opening_ms\": {opened}}}"
    )?;
    Ok(())
}

/// Measures the bytes on disk of a version, where each key has so many: of the three files, and of the heap
/// alone.
pub(crate) fn measure_size(
    rt: &HostRuntime,
    alloc: Global,
    folder: &str,
    versions: u64,
) -> Result<(), Fault> {
    let folder = format!(in alloc; "{folder}/store")?;
    let mut disk = make(rt, alloc, folder.as_str(), versions)?;
    let heap = disk.len(Area::Heap)?;
    let status = disk.len(Area::Status)?;
    let archive = disk.len(Area::Archive)?;
    let versions = KEYS.saturating_mul(versions);
    let value = quotient(
        heap.saturating_add(status).saturating_add(archive),
        versions,
    );
    println!(rt;
        "{{\"value\": {value}, \"versions\": {versions}, \"heap\": {}}}",
        quotient(heap, versions)
    )?;
    Ok(())
}
