//! A soak: writers of the same records and readers, with a committer and a vacuum.
ghost use Rattle.std.specs.Prelude.{◌≡◌, ◌+◌, ◌<◌, [], true, false, length};
ghost use Rattle.crossbeam_utils.specs.Seq.{cell_view};
ghost use Rattle.any_store.specs.Values.{commits_of};
ghost use Rattle.history.specs.Machine.{Machine};
ghost use Rattle.law_image.specs.Values.{Value};
ghost use Rattle.law_any_store.specs.Standing.{Stands};
ghost use Rattle.shared.specs.Naming.{IsFresh};
ghost use Rattle.shared.specs.Counts.{told_count};

use crate::fault::Fault;
use crate::many_callers::crew::{Writer, readers_for, writers_for};
use crate::many_callers::notes;
use crate::many_callers::notes::Note;
use crate::many_callers::sharing::{MOST_SLOTS, fresh};
use crate::many_callers::soaking::{Worker, read_once, source, write};
use any_store::{Layout, Store};
use disk::Disk;
use disk_file::FileDisk;
use shared::{Observer, Opened, Opening, SharedStore};
use std::alloc::{AllocError, Global};
use std::fs::File;
use std::marker::Brand;
use std::rt::Files;
use std::sync::Wait;
use std::sync::atomic::{AtomicU64, Ordering};
use std::thread;
use std::thread::{Threads, join, map_vec};
use std::time::{Clock, Duration};

const WRITERS: u8 = 8;

const READERS: u8 = 8;

/// The milliseconds between two steps of the vacuum. Each of its jobs takes a slot.
const VACUUM_MS: u64 = 5;

/// The milliseconds between two views of a reader.
const READ_MS: u64 = 20;

/// The numbers of a soak's threads come from the seed; each writer writes so often, and there are so many
/// milliseconds from one round of all writers to the next.
#[derive(Clone, Copy)]
struct Plan {
    seed: u64,
    rounds: u64,
    pace: u64,
}

/// A thread that writes, with what it needs.
#[derive(Drop)]
struct Writing<L: Opening> {
    alloc: Global,
    plan: Plan,
    writer: Writer<L>,
}

/// One that reads, with its number.
#[derive(Drop)]
struct Reading<L: Opening> {
    alloc: Global,
    seed: u64,
    number: u64,
    me: Observer<L>,
}

/// What the threads noted; none of a thread that met a refusal that is not a named one.
type Noted = Result<Vec<Option<Vec<Note>>>, AllocError>;

fn writing_of<L: Opening>(
    alloc: Global,
    writers: Vec<Writer<L>>,
    plan: Plan,
) -> Result<Vec<Writing<L>>, AllocError> {
    let mut all = Vec::new(alloc);
    for writer in writers {
        all.push(Writing {
            alloc,
            plan,
            writer,
        })?;
    }
    Ok(all)
}

// The readers' numbers go on from those of the writers.
fn reading_of<L: Opening>(
    alloc: Global,
    readers: Vec<Observer<L>>,
    plan: Plan,
) -> Result<Vec<Reading<L>>, AllocError> {
    let mut all = Vec::new(alloc);
    let mut number = u64::from(WRITERS);
    for me in readers {
        all.push(Reading {
            alloc,
            seed: plan.seed,
            number,
            me,
        })?;
        number = number.wrapping_add(1);
    }
    Ok(all)
}

fn write_notes<D: Disk, L: Opening, R: Wait + Clock>(
    rt: &R,
    store: &SharedStore<D, L>,
    writing: Writing<L>,
) -> Option<Vec<Note>> {
    let Writing {
        alloc,
        plan,
        writer,
    } = writing;
    let Writer {
        number,
        rounds,
        mut share,
        mut me,
    } = writer;
    let worker = Worker {
        seed: plan.seed,
        number,
        rounds,
        pace: plan.pace,
    };
    write(rt, alloc, store, worker, &mut share, &mut me)
}

// Reads again and again, until the writers are done.
fn read_notes<D: Disk, L: Opening, R: Wait + Clock>(
    rt: &R,
    store: &SharedStore<D, L>,
    reading: Reading<L>,
    done: &AtomicU64,
) -> Option<Vec<Note>> {
    let Reading {
        alloc,
        seed,
        number,
        mut me,
    } = reading;
    let mut random = source(seed, number);
    let mut notes = Vec::new(alloc);
    for _ in rt.forever() {
        if done.load(Ordering::SeqCst) != 0 {
            break;
        }
        read_once(rt, store, &mut random, &mut me, &mut notes)?;
        thread::sleep(rt, Duration::from_millis(READ_MS));
    }
    Some(notes)
}

fn write_all<D: Disk + Send, L: Opening + Send + Sync, R: Threads + Wait + Clock + Sync>(
    rt: &R,
    store: &SharedStore<D, L>,
    writers: Vec<Writing<L>>,
    done: &AtomicU64,
) -> Noted {
    let noted = map_vec(rt, writers, &|writing| write_notes(rt, store, writing));
    done.store(1, Ordering::SeqCst);
    noted
}

fn read_all<D: Disk + Send, L: Opening + Send + Sync, R: Threads + Wait + Clock + Sync>(
    rt: &R,
    store: &SharedStore<D, L>,
    readers: Vec<Reading<L>>,
    done: &AtomicU64,
) -> Noted {
    map_vec(
        rt,
        readers,
        &|reading| { read_notes(rt, store, reading, done) },
    )
}

// Writers and readers, until all have ended. Then both loops are told to end.
fn call_all<D: Disk + Send, L: Opening + Send + Sync, R: Threads + Wait + Clock + Sync>(
    rt: &R,
    store: &SharedStore<D, L>,
    writers: Vec<Writing<L>>,
    readers: Vec<Reading<L>>,
) -> (Noted, Noted) {
    let done = AtomicU64::new(0);
    let flag = &done;
    let noted = join(
        rt,
        move || write_all(rt, store, writers, flag),
        move || read_all(rt, store, readers, flag),
    );
    store.stop(rt);
    noted
}

fn vacuum_on<D: Disk, L: Opening, R: Wait + Clock>(
    rt: &R,
    store: &SharedStore<D, L>,
    me: Observer<L>,
) {
    let mut me = me;
    let _end = store.run_vacuum(rt, &mut me, |rt, _| {
        thread::sleep(rt, Duration::from_millis(VACUUM_MS))
    });
}

fn commit_on<D: Disk, L: Opening, R: Wait>(rt: &R, store: &SharedStore<D, L>, me: Observer<L>) {
    let mut me = me;
    let _last = store.run_committer(rt, &mut me, |_, _| {});
}

// Publishes, archives and reclaims, until told to end.
fn keep_up<D: Disk + Send, L: Opening + Send + Sync, R: Threads + Wait + Clock + Sync>(
    rt: &R,
    store: &SharedStore<D, L>,
    me: Observer<L>,
) {
    let mut me = me;
    let other = store.another(&mut me);
    join(
        rt,
        move || commit_on(rt, store, me),
        move || vacuum_on(rt, store, other),
    );
}

fn run_threads<D: Disk + Send, L: Opening + Send + Sync, R: Threads + Wait + Clock + Sync>(
    rt: &R,
    alloc: Global,
    store: &SharedStore<D, L>,
    writers: Vec<Writer<L>>,
    readers: Vec<Observer<L>>,
    me: Observer<L>,
    plan: Plan,
) -> Result<(Noted, Noted), Fault> {
    let writers = writing_of(alloc, writers, plan)?;
    let readers = reading_of(alloc, readers, plan)?;
    let (noted, ()) = join(
        rt,
        move || call_all(rt, store, writers, readers),
        move || keep_up(rt, store, me),
    );
    Ok(noted)
}

// The soak on a store that was just opened, which is given back.
fn run<D: Disk + Send, L: Opening + Send + Sync, R: Threads + Wait + Clock + Sync>(
    rt: &R,
    alloc: Global,
    opened: Opened<D>,
    plan: Plan,
) -> (Store<D>, Result<(Noted, Noted), Fault>)
    requires name { (opened.blank.name ≡ L.name) × (opened.blank.parts ≡ L.parts) × (opened.cell.table.shared.table_id ≡ L.table) }
    requires parts { L.parts ≡ 9 }
    requires fresh { IsFresh D.tells L.start L.kind L.mark opened.store (cell_view opened.writer) }
{
    let (store, mut all, mut me) = opened.named::<L>();
    let writers = writers_for(alloc, &store, &mut all, &mut me, WRITERS, plan.rounds);
    let readers = readers_for(alloc, &store, &mut me, READERS);
    let noted = match (writers, readers) {
        (Ok(writers), Ok(readers)) => run_threads(rt, alloc, &store, writers, readers, me, plan),
        _ => Err(Fault::Memory(AllocError)),
    };
    (store.into_store(&mut all), noted)
}

fn run_over<R: Threads + Wait + Clock + Sync>(
    rt: &R,
    alloc: Global,
    store: Store<FileDisk>,
    plan: Plan,
) -> Result<(Noted, Noted), Fault>
    ghost start: { Machine Value }
    requires stands { Stands false store start }
    requires fresh { told_count (commits_of store).heads ≡ length (commits_of store).heads }
    requires queue { start.queue ≡ [] }
{
    match Opened::new(rt, alloc, u64::from(WRITERS) + 1, store) {
        Ok(opened) => {
            let (store, noted) = run::<FileDisk, Brand, R>(rt, alloc, opened, plan);
            let _disk = store.close();
            noted
        }
        Err((AllocError, store)) => {
            let _disk = store.close();
            Err(Fault::Memory(AllocError))
        }
    }
}

/// Prints the notes of each thread after a line with what it did and its number.
fn print_all<R: Print>(rt: &R, kind: &str, noted: Noted) -> Result<(), Fault> {
    let mut number = 0u64;
    for each in noted? {
        println!(rt; "{kind} {number}")?;
        number = number.wrapping_add(1);
        let Some(each) = each else {
            return Err(Fault::Wrong("a thread met a refusal that is not a named one"));
        };
        for note in each {
            notes::print(rt, note)?;
        }
    }
    Ok(())
}

/// Prints a line for each thing that a thread was told.
pub(crate) fn measure<R: Files<File = File> + AllocGlobal + Print + Clock + Threads + Wait + Sync>(
    rt: &R,
    alloc: Global,
    folder: &str,
    rounds: u64,
    seed: u64,
    pace: u64,
) -> Result<(), Fault> {
    let store = fresh(rt, alloc, folder, Layout::Slots(MOST_SLOTS))?;
    let plan = Plan { seed, rounds, pace };
    let (written, read) = run_over(rt, alloc, store, plan)?;
    print_all(rt, "writer", written)?;
    print_all(rt, "reader", read)
}
