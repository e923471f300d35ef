//! Opening a store, compared with reading its files.

use crate::fault::Fault;
use crate::numbers::{milliseconds, nanoseconds};
use crate::one_caller::committing::{Batch, commit};
use crate::records::{KEYS, is_version, key};
use crate::stores;
use disk_file::FileDisk;
use std::alloc::Global;
use std::fs::File;
use std::io;
use std::io::Read;
use std::rt::Files;
use std::time::{Clock, Instant};
use store::Store;

/// The slots that a store has beyond its commits.
const SPARE_SLOTS: u64 = 16;

/// The bytes that one call reads.
const READ_LEN: usize = 1_048_576;

/// What the commit of this number writes: a new version of one key.
fn batch(number: u64) -> Batch {
    Batch {
        first: number % KEYS,
        count: 1,
        version: number / KEYS,
        now: 0,
    }
}

fn load(alloc: Global, store: &mut Store<FileDisk>, count: u64) -> Result<(), Fault> {
    for number in 0..count {
        commit(alloc, store, &batch(number))?;
    }
    Ok(())
}

/// Asks for what the commit of this number wrote.
fn ask(store: &mut Store<FileDisk>, number: u64) -> Result<(), Fault> {
    let wrote = batch(number);
    let last = store.last();
    let view = store.view()?;
    let found = store.at(&view, key(wrote.first), last);
    store.end(view);
    match found? {
        Some(value) if is_version(&value, wrote.first, wrote.version) => Ok(()),
        _ => Err(Fault::Wrong("the last commit is not there")),
    }
}

/// Reads a file to its end. Gives how many bytes it has.
fn read_file(rt: &HostRuntime, folder: &str, name: &str, buffer: &mut [u8]) -> io::Result<u64> {
    let path = format!(in rt.alloc(); "{folder}/{name}")?;
    let mut file = std::fs::open(rt, path.as_str())?;
    let mut bytes = 0u64;
    for _ in 0..u64::MAX {
        let count = file.read(buffer)?;
        if count == 0 {
            break;
        }
        bytes = bytes.saturating_add(count as u64);
    }
    Ok(bytes)
}

/// The nanoseconds of reading the three files, and how many bytes they have.
pub(crate) fn time_reads(
    rt: &HostRuntime,
    alloc: Global,
    folder: &str,
) -> Result<(u64, u64), Fault> {
    let mut buffer = vec![in alloc; 0u8; READ_LEN]?;
    let start = Instant::now(rt)?;
    let status = read_file(rt, folder, "status", &mut buffer)?;
    let heap = read_file(rt, folder, "heap", &mut buffer)?;
    let archive = read_file(rt, folder, "archive", &mut buffer)?;
    let time = nanoseconds(rt, &start)?;
    Ok((time, status.saturating_add(heap).saturating_add(archive)))
}

/// Makes a folder with a store of this many commits of one record each.
fn make(rt: &HostRuntime, alloc: Global, folder: &str, count: u64) -> Result<(), Fault> {
    let slots = u32::try_from(count.saturating_add(SPARE_SLOTS)).unwrap_or(u32::MAX);
    stores::make(rt, alloc, folder, slots)?;
    let mut store = stores::open(rt, alloc, folder)?;
    let loaded = load(alloc, &mut store, count);
    store.close();
    loaded
}

/// The nanoseconds of opening a store of this many commits, up to its first answer.
fn time_opening(rt: &HostRuntime, alloc: Global, folder: &str, count: u64) -> Result<u64, Fault> {
    let start = Instant::now(rt)?;
    let mut store = stores::open(rt, alloc, folder)?;
    let asked = ask(&mut store, count.saturating_sub(1));
    let time = nanoseconds(rt, &start);
    store.close();
    asked?;
    Ok(time?)
}

/// Measures the opening of a store of this many commits, up to its first answer.
pub(crate) fn measure(
    rt: &HostRuntime,
    alloc: Global,
    folder: &str,
    count: u64,
) -> Result<(), Fault> {
    let folder = format!(in alloc; "{folder}/store")?;
    make(rt, alloc, folder.as_str(), count)?;
    let value = milliseconds(time_opening(rt, alloc, folder.as_str(), count)?);
    let (read, bytes) = time_reads(rt, alloc, folder.as_str())?;
    println!(rt;
        "{{\"value\": {value}, \"commits\": {count}, \"reading_ms\": {}, \"bytes\": {bytes}}}",
        milliseconds(read)
    )?;
    Ok(())
}
