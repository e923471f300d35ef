//! Commits and views of many threads, compared with the raw writes and syncs of as many groups.
ghost use Rattle.std.specs.Prelude.{◌≡◌, [], false, length, IfOk};
ghost use Rattle.any_store.specs.Values.{commits_of};
ghost use Rattle.history.specs.Machine.{Machine};
ghost use Rattle.law_image.specs.Values.{Value};
ghost use Rattle.law_any_store.specs.Standing.{Stands};
ghost use Rattle.shared.specs.Counts.{told_count};

use crate::fault::Fault;
use crate::many_callers::crew::{Load, Reading, Work};
use crate::many_callers::sharing::{MOST_EXTENTS, MOST_SLOTS, fresh};
use crate::many_callers::verb::Verb;
use crate::many_callers::{crew, holding, soak};
use crate::numbers::{Thousandths, nanoseconds, quotient, rate};
use crate::raw::RawFiles;
use crate::words::Request;
use any_store::{Layout, Store};
use disk_file::FileDisk;
use shared::Opened;
use std::alloc::{AllocError, Global};
use std::fs::File;
use std::marker::Brand;
use std::rt::Files;
use std::sync::Wait;
use std::thread::Threads;
use std::time::{Clock, Instant};

/// The layout of a store whose log is slots.
const SLOTS: Layout = Layout::Slots(MOST_SLOTS);

/// The layout of a store whose log lies in the heap.
const LOG: Layout = Layout::Log(MOST_EXTENTS);

/// The most commits under one gate where the log is slots.
const FULL_GROUP: u64 = 16;

/// The most commits under one gate where the log lies in the heap.
const FULL_LOG_GROUP: u64 = 1_024;

/// The most raw groups.
const MOST_RAW_GROUPS: u64 = 1_000;

/// The most commits of a writer among readers: a store has not many more slots.
const MOST_COMMITS: u64 = 60_000;

/// The threads of a measurement that is done so often.
fn load_of(writers: u8, readers: u8, reading: Reading, count: u64) -> Load {
    Load {
        writers,
        commits: if readers == 0 {
            count / u64::from(writers).max(1)
        } else {
            MOST_COMMITS
        },
        readers,
        reads: count,
        reading,
    }
}

/// The commits of a group that all writers are in.
fn members_of(layout: Layout, load: Load) -> u64 {
    let most = match layout {
        Layout::Slots(_) => FULL_GROUP,
        Layout::Log(_) => FULL_LOG_GROUP,
    };
    u64::from(load.writers).min(most)
}

/// The nanoseconds of so many groups of raw writes and syncs.
fn time_raw<R: Clock>(rt: &R, raw: &mut RawFiles, groups: u64, extents: u64) -> Result<u64, Fault> {
    let start = Instant::now(rt)?;
    for _ in 0..groups {
        raw.write_group(extents)?;
    }
    Ok(nanoseconds(rt, &start)?)
}

// The load's threads over a new store.
fn run_load<R: Threads + Wait + Clock + Sync>(
    rt: &R,
    alloc: Global,
    store: Store<FileDisk>,
    load: Load,
) -> Result<Work, Fault>
    ghost start: { Machine Value }
    requires stands { Stands false store start }
    requires fresh { told_count (commits_of store).heads ≡ length (commits_of store).heads }
    requires queue { start.queue ≡ [] }
{
    match Opened::new(rt, alloc, u64::from(load.writers) + 1, store) {
        Ok(opened) => {
            let (store, done) = crew::run::<FileDisk, Brand, R>(rt, alloc, opened, load);
            let _disk = store.close();
            done
        }
        Err((AllocError, store)) => {
            let _disk = store.close();
            Err(Fault::Memory(AllocError))
        }
    }
}

/// Microseconds a group.
fn each(nanoseconds: u64, groups: u64) -> Thousandths {
    quotient(nanoseconds / 1000, groups)
}

/// Prints how many commits or, where some read, reads there were in a second; both; how many groups, with
/// the microseconds of each; and how many commits a second raw groups of three syncs would make of as many
/// members as there are writers, up to as many as a group of this layout has.
fn print<R: Print>(
    rt: &R,
    layout: Layout,
    load: Load,
    work: Work,
    raw_groups: u64,
    raws: u64,
) -> Result<(), Fault> {
    let commits = rate(work.commits, work.nanoseconds);
    let reads = rate(work.reads, work.nanoseconds);
    let value = if load.readers == 0 { commits } else { reads };
    let raw_commits = raw_groups.saturating_mul(members_of(layout, load));
    let of_raw = quotient(
        work.commits.saturating_mul(raws / 1000),
        raw_commits.saturating_mul(work.nanoseconds / 1000),
    );
    let spent = work.spent;
    println!(rt;
        "{{\"value\": {value}, \"commits_s\": {commits}, \"reads_s\": {reads}, \"commits\": {}, \"groups\": {}, \"members\": {}, \
         \"raw\": {}, \"of_raw\": {of_raw}, \"raw_us\": {}, \"gathering_us\": {}, \"writing_us\": {}, \"syncing_us\": {}}}",
        work.commits,
        spent.groups,
        quotient(work.commits, spent.groups),
        rate(raw_commits, raws),
        each(raws, raw_groups),
        each(spent.gathering, spent.groups),
        each(spent.writing, spent.groups),
        each(spent.syncing, spent.groups),
    )?;
    Ok(())
}

/// Measures so often, or of so many commits together.
pub(crate) fn measure<R: Files<File = File> + AllocGlobal + Print + Clock + Threads + Wait + Sync>(
    rt: &R,
    alloc: Global,
    verb: Verb,
    request: &Request<'_>,
) -> Result<(), Fault> {
    let (folder, count) = (request.folder, request.count);
    match verb {
        Verb::Writers(writers) => {
            let load = load_of(writers, 0, Reading::Views, count);
            measure_load(rt, alloc, folder, SLOTS, load)
        }
        Verb::LogWriters(writers) => {
            let load = load_of(writers, 0, Reading::Views, count);
            measure_load(rt, alloc, folder, LOG, load)
        }
        Verb::Readers(readers, reading) => {
            let load = load_of(1, readers, reading, count);
            measure_load(rt, alloc, folder, SLOTS, load)
        }
        Verb::Holding => holding::measure(rt, alloc, folder, count),
        Verb::Soak(pace) => {
            let seed = request.number.unwrap_or(1);
            soak::measure(rt, alloc, folder, count, seed, pace)
        }
    }
}

/// Measures this load, between two halves of as many raw groups.
fn measure_load<R: Files<File = File> + AllocGlobal + Print + Clock + Threads + Wait + Sync>(
    rt: &R,
    alloc: Global,
    folder: &str,
    layout: Layout,
    load: Load,
) -> Result<(), Fault> {
    let place = format!(in alloc; "{folder}/raw")?;
    let mut raw = RawFiles::new(rt, alloc, place.as_str(), MOST_SLOTS)?;
    let members = members_of(layout, load);
    let half = (load.commits.min(MOST_RAW_GROUPS) / 2).max(1);
    let before = time_raw(rt, &mut raw, half, members)?;
    let store = fresh(rt, alloc, folder, layout)?;
    let work = run_load(rt, alloc, store, load)?;
    let after = time_raw(rt, &mut raw, half, members)?;
    let raws = before.saturating_add(after);
    print(rt, layout, load, work, half.saturating_mul(2), raws)
}
