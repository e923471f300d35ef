//! Stores that are to be vacuumed: of each key the last version is valid, and the others ended.

use crate::fault::Fault;
use crate::numbers::{milliseconds, nanoseconds};
use crate::one_caller::committing::{Batch, commit};
use crate::one_caller::verb::Breadth;
use crate::records::{FIRST_TIME, KEYS, STEP};
use crate::stores;
use disk::{Area, Disk};
use disk_file::FileDisk;
use std::alloc::Global;
use std::fs::File;
use std::rt::Files;
use std::time::{Clock, Instant};
use store::Store;

/// The slots that a store has beyond its commits.
const SPARE_SLOTS: u64 = 256;

/// How a store is filled.
#[derive(Clone, Copy)]
struct Filling {
    /// How many commits write each key once.
    parts: u64,
    /// How many versions each key gets.
    rounds: u64,
}

/// That by which about this many versions have ended.
fn plan(breadth: Breadth, ended: u64) -> Filling {
    let thousands = ended / KEYS;
    match breadth {
        Breadth::Deep => Filling {
            parts: 1,
            rounds: thousands.saturating_add(1),
        },
        Breadth::Wide => Filling {
            parts: thousands,
            rounds: 2,
        },
    }
}

/// Commits the next version of all keys.
fn fill_round(
    alloc: Global,
    store: &mut Store<FileDisk>,
    parts: u64,
    version: u64,
) -> Result<(), Fault> {
    for part in 0..parts {
        let number = version.saturating_mul(parts).saturating_add(part);
        let batch = Batch {
            first: part.wrapping_mul(KEYS),
            count: KEYS,
            version,
            now: FIRST_TIME.saturating_add(number.saturating_mul(STEP)),
        };
        commit(alloc, store, &batch)?;
    }
    Ok(())
}

fn fill(alloc: Global, store: &mut Store<FileDisk>, filling: Filling) -> Result<(), Fault> {
    for version in 0..filling.rounds {
        fill_round(alloc, store, filling.parts, version)?;
    }
    Ok(())
}

/// Makes the folder `store` below this one, with a store of which this many versions have ended.
pub(crate) fn measure(
    rt: &HostRuntime,
    alloc: Global,
    folder: &str,
    breadth: Breadth,
    ended: u64,
) -> Result<(), Fault> {
    let folder = format!(in alloc; "{folder}/store")?;
    let filling = plan(breadth, ended);
    let commits = filling.parts.saturating_mul(filling.rounds);
    let slots = u32::try_from(commits.saturating_add(SPARE_SLOTS)).unwrap_or(u32::MAX);
    stores::make(rt, alloc, folder.as_str(), slots)?;
    let start = Instant::now(rt)?;
    let mut store = stores::open(rt, alloc, folder.as_str())?;
    let filled = fill(alloc, &mut store, filling);
    let mut disk = store.close();
    filled?;
    let value = milliseconds(nanoseconds(rt, &start)?);
    let heap = disk.len(Area::Heap)?;
    println!(rt; "{{\"value\": {value}, \"commits\": {commits}, \"heap\": {heap}}}")?;
    Ok(())
}
