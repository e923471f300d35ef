//! Calls of a list over a disk in memory, as tables have them, and how they are answered.
use crate::list_answers::{Want, is_answer};
use crate::published::SEVEN;
use any_store::{Layout, Store};
use disk::MemDisk;
use run::{Answer, Call, Held, close, format, open, run_on};
use std::alloc::{AllocError, Global};
use std::test::Fail;

/// A call of a list. All are of `SEVEN` and relation 1; a number is first the place of the call that
/// gave the transaction, the ticket or the view.
#[derive(Clone, Copy)]
pub enum Ask {
    Begin,
    Put(usize),
    Delete(usize),
    Get(usize),
    Scan(usize),
    /// With the label 9, at 100.
    Submit(usize),
    Abort(usize),
    Pump,
    Redeem(usize),
    GiveUp(usize),
    View,
    At(usize, u64),
    ScanAt(usize, u64),
    Between(usize, u64, u64),
    ScanBetween(usize, u64, u64),
    Recent(usize, u64),
    End(usize),
    /// Of the label 9.
    TimesOf,
    Archive(u64),
    Reclaim,
    /// Of relation 1.
    Floor(u64),
    JobPump,
}

/// The value that is put.
const FIELDS: [&[u8]; 1] = [b"a"];

/// A call of a view.
fn viewed(ask: Ask) -> Call<'static> {
    let relation = SEVEN.relation;
    match ask {
        Ask::At(view, time) => Call::At {
            view,
            key: SEVEN,
            time,
        },
        Ask::ScanAt(view, time) => Call::ScanAt {
            view,
            relation,
            time,
        },
        Ask::Between(view, a, b) => Call::Between {
            view,
            key: SEVEN,
            a,
            b,
        },
        Ask::ScanBetween(view, a, b) => Call::ScanBetween {
            view,
            relation,
            a,
            b,
        },
        Ask::Recent(view, time) => Call::Recent {
            view,
            key: SEVEN,
            time,
        },
        Ask::End(view) => Call::End { view },
        Ask::TimesOf => Call::TimesOf { label: 9 },
        Ask::Archive(upto) => Call::Archive { upto },
        Ask::Reclaim => Call::Reclaim,
        Ask::Floor(floor) => Call::Floor {
            scope: Some(relation),
            floor,
        },
        Ask::JobPump => Call::JobPump,
        _ => Call::View,
    }
}

pub fn call_of(ask: Ask) -> Call<'static> {
    match ask {
        Ask::Begin => Call::Begin,
        Ask::Put(transaction) => Call::Put {
            transaction,
            key: SEVEN,
            fields: &FIELDS,
        },
        Ask::Delete(transaction) => Call::Delete {
            transaction,
            key: SEVEN,
        },
        Ask::Get(transaction) => Call::Get {
            transaction,
            key: SEVEN,
        },
        Ask::Scan(transaction) => Call::Scan {
            transaction,
            relation: SEVEN.relation,
        },
        Ask::Submit(transaction) => Call::Submit {
            transaction,
            label: 9,
            now: 100,
        },
        Ask::Abort(transaction) => Call::Abort { transaction },
        Ask::Pump => Call::Pump,
        Ask::Redeem(ticket) => Call::Redeem { ticket },
        Ask::GiveUp(ticket) => Call::GiveUp { ticket },
        _ => viewed(ask),
    }
}

/// Calls and their answers.
pub type Rows = &'static [(Ask, Want)];

/// The calls of a list.
pub fn calls_of(alloc: Global, rows: &[(Ask, Want)]) -> Result<Vec<Call<'static>>, AllocError> {
    let mut calls = Vec::new(alloc);
    for (ask, _) in rows {
        calls.push(call_of(*ask))?;
    }
    Ok(calls)
}

/// The place of the first answer that is another one; the place behind all where there are too few or
/// too many.
pub fn first_wrong(answers: &[Answer], rows: &[(Ask, Want)]) -> Option<usize> {
    for (place, answer) in answers.iter().enumerate() {
        let Some(row) = rows.get(place) else {
            return Some(place);
        };
        if !is_answer(answer, &row.1) {
            return Some(place);
        }
    }
    if answers.len() == rows.len() {
        None
    } else {
        Some(rows.len())
    }
}

/// An empty store, opened.
pub fn opened(alloc: Global) -> Result<Store<MemDisk>, Fail> {
    let mut disk = MemDisk::new(alloc);
    if format(alloc, &mut disk, Layout::Slots(16)).is_err() {
        return Err(Fail::from("not formatted"));
    }
    match open(alloc, disk, 5) {
        Ok(store) => Ok(store),
        Err(_) => Err(Fail::from("not opened")),
    }
}

/// Spends what a place holds: whether it held something.
pub fn is_spent(held: Held) -> bool {
    match held {
        Held::Nothing => false,
        Held::Transaction(txn) => {
            let _over = txn.spend();
            true
        }
        Held::Ticket(ticket) => {
            ticket.give_up();
            true
        }
        Held::View(view) => {
            view.spend();
            true
        }
    }
}

/// The answers to these calls on an empty store, and how many places hold something at the end.
pub fn answers_to(alloc: Global, calls: &[Call<'_>]) -> Result<(Vec<Answer>, u32), Fail> {
    let mut store = opened(alloc)?;
    let mut places = Vec::new(alloc);
    let outcome = run_on(alloc, &mut store, &mut places, calls);
    let _disk = close(store);
    let mut left: u32 = 0;
    while let Some(held) = places.pop() {
        if is_spent(held) {
            left = left.saturating_add(1);
        }
    }
    places.destroy_empty();
    Ok((outcome?, left))
}
