//! Steps that are taken with a store, as tables have them, each with its answer.
use crate::answers::{Row, Rows, Value};
use crate::held::{
    Held, Which, abort, begin, end, is_at, is_between, is_none_at, is_recent, is_scan_at,
    is_scan_between, view,
};
use crate::published::SEVEN;
use disk::Disk;
use history::Key;
use std::alloc::Global;
use store::{Did, JobDid, PumpFault, StartFault, Store, SubmitFault, Submitted, Txn};

/// What is done with a store, or asked of it, and what must come of it.
#[derive(Clone, Copy)]
pub enum Step {
    /// A commit of `SEVEN` is queued at a time: a value of one field of this text, or no value.
    Queue(Option<&'static str>, u64),
    /// The same of a record of relation 1.
    QueueRecord(u64, &'static str, u64),
    /// Commits of the value a, one at each time from the first up to the last, are published.
    Commits(u64, u64),
    /// A commit of the record of this number at this time: whether it is queued, or else no slot of
    /// the log is left.
    QueueOther(u64, bool),
    /// Commits of records of their own from a time on are published till no slot is left for one more:
    /// how many.
    Fill(u64, u64),
    /// A step of a group.
    Pump(Result<Did, PumpFault>),
    /// Steps of groups up to this one.
    PumpTo(Did),
    /// A step of a job is refused.
    JobFault(PumpFault),
    /// Steps of a job in turn.
    Jobs(&'static [JobDid]),
    /// An archive up to a time begins.
    Archive(u64, Result<(), StartFault>),
    Reclaim(Result<(), StartFault>),
    Grow(Result<(), StartFault>),
    /// A floor of one relation, or of all, begins to be raised.
    Floor(Option<u16>, u64, Result<(), StartFault>),
    /// The floor of one relation, or of all.
    FloorIs(Option<u16>, u64),
    /// How many relations have floors of their own.
    OwnFloors(usize),
    /// The time of the last commit.
    Last(u64),
    /// A transaction begins, and is held.
    Begin,
    Abort,
    /// A view is made, and held.
    View(Which),
    End(Which),
    /// The value of a key at a time.
    At(Which, Key, u64, Value),
    /// The same of `SEVEN` from memory alone.
    Recent(Which, u64, Value),
    /// The rows of `SEVEN` from one time up to another.
    Between(Which, u64, u64, Rows),
    /// No record of a relation has a value at a time.
    NoneAt(Which, u16, u64),
    /// The records of relation 1 that have a value at a time, each with it.
    ScanAt(Which, u64, &'static [(u64, &'static str)]),
    /// The rows of relation 1 from one time up to another, each with its record.
    ScanBetween(Which, u64, u64, &'static [(u64, Row)]),
}

/// Whether a transaction is submitted and its commit queued, and else no slot is left.
fn submit<D: Disk>(store: &mut Store<D>, txn: Txn, now: u64) -> Result<(), SubmitFault> {
    match store.submit(txn, 9, now)? {
        Submitted::Queued(ticket) => {
            ticket.give_up();
            Ok(())
        }
        Submitted::ReadOnly(_) => Err(SubmitFault::NoMemory),
    }
}

/// Queues a commit that writes a value of this one field, or deletes the record.
fn queue<D: Disk>(
    alloc: Global,
    store: &mut Store<D>,
    key: Key,
    text: Option<&str>,
    now: u64,
) -> Result<(), SubmitFault> {
    let Ok(mut txn) = store.begin() else {
        return Err(SubmitFault::NoMemory);
    };
    let written = match text {
        Some(text) => txn.put(alloc, key, &[text.as_bytes()]),
        None => txn.delete(key),
    };
    if written.is_err() {
        store.abort(txn);
        return Err(SubmitFault::NoMemory);
    }
    submit(store, txn, now)
}

/// Takes steps of groups up to this one, at most a hundred; whether it is taken.
fn pump_to<D: Disk>(store: &mut Store<D>, last: Did) -> bool {
    for _ in 0..100 {
        match store.pump() {
            Ok(did) if did == last => return true,
            Ok(_) => {}
            Err(_) => return false,
        }
    }
    false
}

/// Whether each of these commits is published.
fn commits<D: Disk>(alloc: Global, store: &mut Store<D>, first: u64, last: u64) -> bool {
    for now in first..last {
        if queue(alloc, store, SEVEN, Some("a"), now).is_err() || !pump_to(store, Did::Idle) {
            return false;
        }
    }
    true
}

/// The record of this number.
fn key_of(record: u64) -> Key {
    Key {
        relation: 1,
        record,
    }
}

/// Whether a commit of a record of its own is queued, or else no slot is left.
fn queues_other<D: Disk>(alloc: Global, store: &mut Store<D>, now: u64, is_queued: bool) -> bool {
    match queue(alloc, store, key_of(now), Some("a"), now) {
        Ok(()) => is_queued,
        Err(fault) => !is_queued && fault == SubmitFault::StatusFull,
    }
}

/// Whether so many commits of records of their own from a time on leave no slot for one more.
fn fills<D: Disk>(alloc: Global, store: &mut Store<D>, from: u64, count: u64) -> bool {
    for number in 0..count {
        let now = from.saturating_add(number);
        if !queues_other(alloc, store, now, true) || !pump_to(store, Did::Idle) {
            return false;
        }
    }
    queues_other(alloc, store, from.saturating_add(count), false)
}

/// Whether a job takes these steps.
fn takes<D: Disk>(store: &mut Store<D>, steps: &[JobDid]) -> bool {
    for did in steps {
        if store.job_pump() != Ok(*did) {
            return false;
        }
    }
    true
}

fn start_floor<D: Disk>(
    store: &mut Store<D>,
    scope: Option<u16>,
    floor: u64,
) -> Result<(), StartFault> {
    match scope {
        Some(relation) => store.floor_of_start(relation, floor),
        None => store.floor_start(floor),
    }
}

fn floor_of<D: Disk>(store: &Store<D>, scope: Option<u16>) -> u64 {
    match scope {
        Some(relation) => store.floors().at(relation),
        None => store.floors().every(),
    }
}

/// Whether commits and steps of groups are answered as the step says.
fn is_pumped<D: Disk>(alloc: Global, store: &mut Store<D>, step: &Step) -> bool {
    match *step {
        Step::Queue(text, now) => queue(alloc, store, SEVEN, text, now).is_ok(),
        Step::QueueRecord(record, text, now) => {
            queue(alloc, store, key_of(record), Some(text), now).is_ok()
        }
        Step::Commits(first, last) => commits(alloc, store, first, last),
        Step::QueueOther(now, is_queued) => queues_other(alloc, store, now, is_queued),
        Step::Fill(from, count) => fills(alloc, store, from, count),
        Step::Pump(did) => store.pump() == did,
        Step::PumpTo(last) => pump_to(store, last),
        Step::Last(time) => store.last() == time,
        _ => false,
    }
}

/// Whether jobs and floors are answered as the step says.
fn is_worked<D: Disk>(alloc: Global, store: &mut Store<D>, step: &Step) -> bool {
    match *step {
        Step::JobFault(fault) => store.job_pump() == Err(fault),
        Step::Jobs(steps) => takes(store, steps),
        Step::Archive(upto, began) => store.archive_start(upto) == began,
        Step::Reclaim(began) => store.reclaim_start() == began,
        Step::Grow(began) => store.grow_start() == began,
        Step::Floor(scope, floor, began) => start_floor(store, scope, floor) == began,
        Step::FloorIs(scope, floor) => floor_of(store, scope) == floor,
        Step::OwnFloors(count) => store.floors().relations() == count,
        _ => is_pumped(alloc, store, step),
    }
}

/// Whether queries are answered as the step says.
fn is_shown<D: Disk>(alloc: Global, store: &mut Store<D>, held: &Held, step: &Step) -> bool {
    match *step {
        Step::At(which, key, time, want) => is_at(store, held.view(which), key, time, want),
        Step::Recent(which, time, want) => is_recent(held.view(which), time, want),
        Step::Between(which, a, b, want) => is_between(store, held.view(which), a, b, want),
        Step::NoneAt(which, relation, time) => is_none_at(store, held.view(which), relation, time),
        Step::ScanAt(which, time, want) => is_scan_at(store, held.view(which), time, want),
        Step::ScanBetween(which, a, b, want) => {
            is_scan_between(store, held.view(which), a, b, want)
        }
        _ => is_worked(alloc, store, step),
    }
}

/// Whether the store answers as the step says.
pub fn is_answered<D: Disk>(
    alloc: Global,
    store: &mut Store<D>,
    held: &mut Held,
    step: &Step,
) -> bool {
    match *step {
        Step::Begin => begin(store, held),
        Step::Abort => abort(store, held.take_reader()),
        Step::View(which) => view(store, held, which),
        Step::End(which) => end(store, held.put_view(which, None)),
        _ => is_shown(alloc, store, held, step),
    }
}
