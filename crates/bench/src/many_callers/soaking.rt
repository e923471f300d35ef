//! What the threads of a soak do: writers that write the same records, and readers, each with notes of
//! what they were told.
ghost use Rattle.std.specs.Prelude.{◌≡◌, ◌<◌};

use crate::many_callers::notes::{Ending, Note, digest_of, number_in, number_of};
use disk::Disk;
use history::Key;
use rand_core::{Rng, SeedableRng};
use rand_xoshiro::Xoshiro256PlusPlus;
use shared::{
    Change, CommitFault, Committed, Observer, Opening, SharedStore, SharedTxn, SharedView,
};
use std::alloc::Global;
use std::sync::Wait;
use std::sync::ledger::Share;
use std::thread;
use std::time::{Clock, Duration, Instant};
use store::{QueryFault, Redeemed, SubmitFault, Submitted, Ticket, TxnFault};

/// The records that all writers write.
const RECORDS: u64 = 32;

/// The microseconds that a writer waits before it asks for its ticket again.
const WAIT_US: u64 = 200;

/// A thread of a soak: where its numbers come from, its own number, how often it writes, and how many
/// milliseconds there are from one round of all writers to the next.
#[derive(Clone, Copy)]
pub(crate) struct Worker {
    pub(crate) seed: u64,
    pub(crate) number: u64,
    pub(crate) rounds: u64,
    pub(crate) pace: u64,
}

/// Labels of one writer are this far from those of the next.
const LABELS: u64 = 1 << 32;

pub(crate) fn key(record: u64) -> Key {
    Key {
        relation: 1,
        record,
    }
}

/// A source of numbers for a thread of a soak.
pub(crate) fn source(seed: u64, number: u64) -> Xoshiro256PlusPlus {
    Xoshiro256PlusPlus::seed_from_u64(seed.wrapping_mul(1_000).wrapping_add(number))
}

fn below(random: &mut Xoshiro256PlusPlus, end: u64) -> u64 {
    random.next_u64() % end.max(1)
}

/// How a submit that was refused ended; none where the refusal is no named one of a soak.
fn refused_by(fault: SubmitFault) -> Option<Ending> {
    match fault {
        SubmitFault::Conflict(key) => Some(Ending::Conflict(key.record)),
        SubmitFault::StatusFull | SubmitFault::HeapFull => Some(Ending::Full),
        _ => None,
    }
}

fn ending_of(committed: Result<Committed, CommitFault>) -> Option<Ending> {
    match committed {
        Ok(Committed::Done(time)) => Some(Ending::Done(time)),
        Err(CommitFault::Submit(fault)) => refused_by(fault),
        Err(CommitFault::Txn(TxnFault::Missing)) => Some(Ending::Missing),
        _ => None,
    }
}

// One commit by one call: a put, and a put or a delete of another record.
fn commit_one<D: Disk, L: Opening, R: Wait>(
    rt: &R,
    store: &SharedStore<D, L>,
    random: &mut Xoshiro256PlusPlus,
    label: u64,
    share: &mut Share<L>,
    me: &mut Observer<L>,
) -> Option<Note>
    requires { 0 < share.old.parts }
    ensures { share.new.parts ≡ share.old.parts }
{
    let seen = store.last_published(rt, me);
    let puts = below(random, RECORDS);
    let step = below(random, RECORDS - 1).wrapping_add(1);
    let other = puts.wrapping_add(step) % RECORDS;
    let deletes = below(random, 2) == 0;
    let bytes = label.to_le_bytes();
    let fields = [bytes.as_slice()];
    let first = Change::Put {
        key: key(puts),
        fields: &fields,
    };
    let second = if deletes {
        Change::Delete { key: key(other) }
    } else {
        Change::Put {
            key: key(other),
            fields: &fields,
        }
    };
    let changes = [first, second];
    let ending = ending_of(store.commit(rt, &changes, label, 0, share, me))?;
    Some(Note::Commit {
        label,
        seen,
        puts,
        other,
        deletes,
        ending,
    })
}

// Asks for the ticket until it has an answer.
fn wait_for<D: Disk, L: Opening, R: Wait + Clock>(
    rt: &R,
    store: &SharedStore<D, L>,
    ticket: Ticket,
    share: &mut Share<L>,
    me: &mut Observer<L>,
) -> Option<Ending>
    requires { 0 < share.old.parts }
    ensures { share.new.parts ≡ share.old.parts }
{
    let mut ticket = ticket;
    for _ in rt.forever() {
        match store.redeem(rt, ticket, share, me) {
            Redeemed::Done(time) => return Some(Ending::Done(time)),
            Redeemed::Waiting(again) => ticket = again,
            Redeemed::InDoubt | Redeemed::Stranger => return None,
        }
        thread::sleep(rt, Duration::from_micros(WAIT_US));
    }
    ticket.give_up();
    None
}

// Reads a record and writes the label to it.
fn rewrite<L: Opening>(
    alloc: Global,
    txn: &mut SharedTxn<L>,
    record: u64,
    label: u64,
) -> Option<u64> {
    let read = match txn.get(key(record)) {
        Some(value) => number_of(value),
        None => 0,
    };
    let bytes = label.to_le_bytes();
    match txn.put(alloc, key(record), &[bytes.as_slice()]) {
        Ok(()) => Some(read),
        Err(_) => None,
    }
}

// One transaction that reads a record and writes it, step by step.
fn transact_one<D: Disk, L: Opening, R: Wait + Clock>(
    rt: &R,
    alloc: Global,
    store: &SharedStore<D, L>,
    random: &mut Xoshiro256PlusPlus,
    label: u64,
    share: &mut Share<L>,
    me: &mut Observer<L>,
) -> Option<Note>
    requires { 0 < share.old.parts }
    ensures { share.new.parts ≡ share.old.parts }
{
    let record = below(random, RECORDS);
    let mut txn = store.begin(rt, me).ok()?;
    let snapshot = txn.snapshot();
    let Some(read) = rewrite(alloc, &mut txn, record, label) else {
        store.abort(rt, txn, me);
        return None;
    };
    let ending = match store.submit(rt, txn, label, 0, me) {
        Ok(Submitted::Queued(ticket)) => wait_for(rt, store, ticket, share, me)?,
        Ok(Submitted::ReadOnly(_)) => return None,
        Err(fault) => refused_by(fault)?,
    };
    Some(Note::Txn {
        label,
        snapshot,
        record,
        read,
        ending,
    })
}

// Sleeps until this round is due. A clock that cannot be read ends the soak.
fn await_round<R: Clock>(rt: &R, start: &Instant, round: u64, pace: u64) -> Option<()> {
    let due = Duration::from_millis(round.wrapping_mul(pace));
    if let Some(left) = due.checked_sub(start.elapsed(rt).ok()?) {
        thread::sleep(rt, left);
    }
    Some(())
}

// One round: writers of even numbers commit by one call, the others step by step.
fn write_once<D: Disk, L: Opening, R: Wait + Clock>(
    rt: &R,
    alloc: Global,
    store: &SharedStore<D, L>,
    random: &mut Xoshiro256PlusPlus,
    label: u64,
    share: &mut Share<L>,
    me: &mut Observer<L>,
) -> Option<Note>
    requires { 0 < share.old.parts }
    ensures { share.new.parts ≡ share.old.parts }
{
    if (label / LABELS) % 2 == 0 {
        commit_one(rt, store, random, label, share, me)
    } else {
        transact_one(rt, alloc, store, random, label, share, me)
    }
}

/// Writes so often, or until the store is full. None where a refusal is not a named one.
pub(crate) fn write<D: Disk, L: Opening, R: Wait + Clock>(
    rt: &R,
    alloc: Global,
    store: &SharedStore<D, L>,
    worker: Worker,
    share: &mut Share<L>,
    me: &mut Observer<L>,
) -> Option<Vec<Note>>
    requires { 0 < share.old.parts }
{
    let mut random = source(worker.seed, worker.number);
    let first = worker.number.wrapping_mul(LABELS);
    let start = Instant::now(rt).ok()?;
    let mut notes = Vec::new(alloc);
    for round in 0..worker.rounds {
        await_round(rt, &start, round, worker.pace)?;
        let label = first.wrapping_add(round).wrapping_add(1);
        let note = write_once(rt, alloc, store, &mut random, label, share, me)?;
        notes.push(note).ok()?;
        if is_full(note) {
            break;
        }
    }
    Some(notes)
}

fn is_full(note: Note) -> bool {
    match note {
        Note::Commit { ending, .. } | Note::Txn { ending, .. } => matches!(ending, Ending::Full),
        _ => false,
    }
}

// A value through the lock, and by memory alone at the time of the view.
fn ask_values<D: Disk, L: Opening, R: Wait>(
    rt: &R,
    store: &SharedStore<D, L>,
    view: &mut SharedView<L>,
    seen: u64,
    place: (u64, u64),
    notes: &mut Vec<Note>,
) -> Option<()> {
    let (record, time) = place;
    let value = number_in(store.at(rt, view, key(record), time))?;
    notes
        .push(Note::Value {
            seen,
            record,
            time,
            value,
        })
        .ok()?;
    let value = match view.recent(key(record), time) {
        Ok(Some(value)) => number_of(value),
        Ok(None) => 0,
        Err(QueryFault::NeedsDisk) => return Some(()),
        Err(_) => return None,
    };
    notes
        .push(Note::Recent {
            seen,
            record,
            time,
            value,
        })
        .ok()?;
    Some(())
}

fn ask_rows<D: Disk, L: Opening, R: Wait>(
    rt: &R,
    store: &SharedStore<D, L>,
    view: &mut SharedView<L>,
    place: (u64, u64, u64),
    notes: &mut Vec<Note>,
) -> Option<()> {
    let (record, a, b) = place;
    let rows = store.between(rt, view, key(record), a, b).ok()?;
    notes
        .push(Note::Rows {
            record,
            a,
            b,
            rows: rows.len() as u64,
            digest: digest_of(&rows),
        })
        .ok()?;
    Some(())
}

// Asks a view that was taken when so much had been seen.
fn ask_view<D: Disk, L: Opening, R: Wait>(
    rt: &R,
    store: &SharedStore<D, L>,
    view: &mut SharedView<L>,
    random: &mut Xoshiro256PlusPlus,
    seen: u64,
    notes: &mut Vec<Note>,
) -> Option<()> {
    let record = below(random, RECORDS);
    let before = seen - below(random, seen.min(2_000) + 1).min(seen);
    ask_values(rt, store, view, seen, (record, seen), notes)?;
    ask_values(rt, store, view, seen, (record, before), notes)?;
    ask_rows(
        rt,
        store,
        view,
        (record, before, seen.saturating_add(1)),
        notes,
    )
}

/// Takes a view, through the lock or one that readers share, and asks it. None where a refusal is not a
/// named one.
pub(crate) fn read_once<D: Disk, L: Opening, R: Wait>(
    rt: &R,
    store: &SharedStore<D, L>,
    random: &mut Xoshiro256PlusPlus,
    me: &mut Observer<L>,
    notes: &mut Vec<Note>,
) -> Option<()> {
    let seen = store.last_published(rt, me);
    let taken = if below(random, 2) == 0 {
        store.view(rt, me)
    } else {
        store.latest_view(rt, me)
    };
    let mut view = taken.ok()?;
    let asked = ask_view(rt, store, &mut view, random, seen, notes);
    store.end(view);
    asked
}
