//! Archives and reclaims, compared with a plain copy of as many bytes.

use crate::fault::Fault;
use crate::numbers::{megabytes_a_second, milliseconds, nanoseconds};
use crate::one_caller::memory::{Held, forget_most, read_held};
use crate::one_caller::plain_copy::time_copy;
use crate::one_caller::verb::Task;
use crate::records::{FIRST_TIME, VALUE_LEN};
use crate::stores;
use disk::{Area, Disk};
use disk_file::FileDisk;
use std::alloc::Global;
use std::fs::File;
use std::rt::Files;
use std::time::{Clock, Instant};
use store::{JobDid, Store};

/// The most bytes that one step writes.
const PIECE_LEN: u64 = 8_192;

/// The bytes of a job's slot.
const SLOT_LEN: u64 = 512;

/// The nanoseconds of jobs, and how many parts they wrote.
#[derive(Clone, Copy)]
struct Spent {
    starting: u64,
    writing: u64,
    syncing: u64,
    /// The step that makes in memory what the job needs, and begins its slot.
    turning: u64,
    /// The last sync, and what follows it in memory.
    ending: u64,
    pieces: u64,
}

impl Spent {
    fn new() -> Self {
        Spent {
            starting: 0,
            writing: 0,
            syncing: 0,
            turning: 0,
            ending: 0,
            pieces: 0,
        }
    }

    /// Adds the nanoseconds of a step.
    fn add(&mut self, did: JobDid, time: u64) {
        match did {
            JobDid::Idle => {}
            JobDid::WroteRun | JobDid::WroteExtent => {
                self.pieces = self.pieces.saturating_add(1);
                self.writing = self.writing.saturating_add(time);
            }
            JobDid::BodyWritten => self.turning = self.turning.saturating_add(time),
            JobDid::JobDone => self.ending = self.ending.saturating_add(time),
            _ => self.syncing = self.syncing.saturating_add(time),
        }
    }

    fn sum(&self) -> u64 {
        self.starting
            .saturating_add(self.writing)
            .saturating_add(self.syncing)
            .saturating_add(self.turning)
            .saturating_add(self.ending)
    }
}

/// Makes the next step of the job that runs. Gives whether there was one.
fn step(rt: &HostRuntime, store: &mut Store<FileDisk>, spent: &mut Spent) -> Result<bool, Fault> {
    let start = Instant::now(rt)?;
    let did = store.job_pump()?;
    spent.add(did, nanoseconds(rt, &start)?);
    Ok(did != JobDid::Idle)
}

/// Makes all steps of the job that runs.
fn finish(rt: &HostRuntime, store: &mut Store<FileDisk>, spent: &mut Spent) -> Result<(), Fault> {
    for _ in 0..u64::MAX {
        if !step(rt, store, spent)? {
            break;
        }
    }
    Ok(())
}

/// Archives what ended by a time.
fn archive(
    rt: &HostRuntime,
    store: &mut Store<FileDisk>,
    upto: u64,
    spent: &mut Spent,
) -> Result<(), Fault> {
    let start = Instant::now(rt)?;
    store.archive_start(upto)?;
    spent.starting = spent.starting.saturating_add(nanoseconds(rt, &start)?);
    finish(rt, store, spent)
}

/// Archives all that ended, in runs of as long a time each.
fn archive_all(
    rt: &HostRuntime,
    store: &mut Store<FileDisk>,
    runs: u64,
    spent: &mut Spent,
) -> Result<(), Fault> {
    let last = store.last();
    let each = last.saturating_sub(FIRST_TIME) / runs.max(1);
    for number in 1..runs {
        let after = each.saturating_mul(number);
        archive(rt, store, FIRST_TIME.saturating_add(after), spent)?;
    }
    archive(rt, store, last, spent)
}

/// Reclaims what is archived.
fn reclaim(rt: &HostRuntime, store: &mut Store<FileDisk>, spent: &mut Spent) -> Result<(), Fault> {
    let start = Instant::now(rt)?;
    store.reclaim_start()?;
    spent.starting = nanoseconds(rt, &start)?;
    finish(rt, store, spent)
}

/// What a task took: its nanoseconds, the bytes that it wrote, and the memory before and after it.
#[derive(Clone, Copy)]
struct Took {
    spent: Spent,
    bytes: u64,
    before: Held,
    after: Held,
}

fn do_task(
    rt: &HostRuntime,
    store: &mut Store<FileDisk>,
    task: Task,
    runs: u64,
    spent: &mut Spent,
) -> Result<(), Fault> {
    match task {
        Task::Archive => archive_all(rt, store, runs, spent),
        Task::Reclaim => reclaim(rt, store, spent),
    }
}

/// Opens the store of a folder, and does a task.
fn take(
    rt: &HostRuntime,
    alloc: Global,
    folder: &str,
    task: Task,
    runs: u64,
) -> Result<Took, Fault> {
    let mut store = stores::open(rt, alloc, folder)?;
    let forgot = forget_most(rt);
    let before = read_held(rt);
    let mut spent = Spent::new();
    let done = do_task(rt, &mut store, task, runs, &mut spent);
    let after = read_held(rt);
    let mut disk = store.close();
    done?;
    forgot?;
    let written = match task {
        Task::Archive => disk
            .len(Area::Archive)?
            .saturating_add(runs.saturating_mul(SLOT_LEN)),
        Task::Reclaim => spent
            .pieces
            .saturating_mul(PIECE_LEN)
            .saturating_add(SLOT_LEN),
    };
    Ok(Took {
        spent,
        bytes: written,
        before: before?,
        after: after?,
    })
}

/// The file that a task writes most to.
fn file_of(task: Task) -> &'static str {
    match task {
        Task::Archive => "archive",
        Task::Reclaim => "heap",
    }
}

/// Prints the milliseconds of the task and of its parts, the bytes that it wrote and those of the
/// values, the milliseconds of the copy, and the memory before the task, at most and after it.
fn print(
    rt: &HostRuntime,
    runs: u64,
    versions: u64,
    took: &Took,
    copied: u64,
) -> Result<(), Fault> {
    let spent = &took.spent;
    println!(rt;
        "{{\"value\": {}, \"runs\": {runs}, \"versions\": {versions}, \"starting_ms\": {}, \"writing_ms\": {}, \"syncing_ms\": {}, \"turning_ms\": {}, \
         \"ending_ms\": {}, \"bytes\": {}, \"value_bytes\": {}, \"mb_s\": {}, \"copy_ms\": {}, \"copy_mb_s\": {}, \
         \"held_before\": {}, \"most\": {}, \"held_after\": {}}}",
        milliseconds(spent.sum()),
        milliseconds(spent.starting),
        milliseconds(spent.writing),
        milliseconds(spent.syncing),
        milliseconds(spent.turning),
        milliseconds(spent.ending),
        took.bytes,
        versions.saturating_mul(VALUE_LEN as u64),
        megabytes_a_second(took.bytes, spent.sum()),
        milliseconds(copied),
        megabytes_a_second(took.bytes, copied),
        took.before.now,
        took.after.most,
        took.after.now,
    )?;
    Ok(())
}

/// Measures a task on the store of this many versions that ended.
pub(crate) fn measure(
    rt: &HostRuntime,
    alloc: Global,
    folder: &str,
    task: Task,
    versions: u64,
    runs: u64,
) -> Result<(), Fault> {
    let from = format!(in alloc; "{folder}/store/{}", file_of(task))?;
    let to = format!(in alloc; "{folder}/copy of {}", file_of(task))?;
    let folder = format!(in alloc; "{folder}/store")?;
    let took = take(rt, alloc, folder.as_str(), task, runs)?;
    let copied = time_copy(rt, from.as_str(), to.as_str(), took.bytes)?;
    print(rt, runs, versions, &took, copied)
}
