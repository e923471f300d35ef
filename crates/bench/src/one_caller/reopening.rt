//! Opening a store that may have been vacuumed.

use crate::fault::Fault;
use crate::numbers::{Times, milliseconds, nanoseconds};
use crate::one_caller::opening::time_reads;
use crate::records::key;
use crate::stores;
use disk_file::FileDisk;
use std::alloc::Global;
use std::fs::File;
use std::rt::Files;
use std::time::{Clock, Instant};
use store::Store;

/// Asks for a value as of the last commit.
fn ask(store: &mut Store<FileDisk>) -> Result<(), Fault> {
    let last = store.last();
    let view = store.view()?;
    let found = store.at(&view, key(0), last);
    store.end(view);
    match found? {
        Some(_) => Ok(()),
        None => Err(Fault::Wrong("the last version is not there")),
    }
}

/// The nanoseconds of opening the store, up to a first answer.
fn time_opening(rt: &HostRuntime, alloc: Global, folder: &str) -> Result<u64, Fault> {
    let start = Instant::now(rt)?;
    let mut store = stores::open(rt, alloc, folder)?;
    let asked = ask(&mut store);
    let time = nanoseconds(rt, &start);
    store.close();
    asked?;
    Ok(time?)
}

/// Measures the opening of the store of a folder, up to a first answer: the median of so many.
pub(crate) fn measure(
    rt: &HostRuntime,
    alloc: Global,
    folder: &str,
    count: u64,
) -> Result<(), Fault> {
    let folder = format!(in alloc; "{folder}/store")?;
    let mut times = Times::new(alloc);
    for _ in 0..count {
        times.push(time_opening(rt, alloc, folder.as_str())?)?;
    }
    let value = milliseconds(times.median()?);
    let (read, bytes) = time_reads(rt, alloc, folder.as_str())?;
    println!(rt;
        "{{\"value\": {value}, \"count\": {count}, \"reading_ms\": {}, \"bytes\": {bytes}}}",
        milliseconds(read)
    )?;
    Ok(())
}
