//! Transactions that are open: what they read, what they write, and their numbers.
use crate::answers::are_records;
use crate::published::{SEVEN, is_text, published};
use chains::Frozen;
use history::Key;
use snapshot::{OpenTable, Txn, TxnFault};
use std::alloc::Global;
use std::test::Fail;

fn key(record: u64) -> Key {
    Key {
        relation: 1,
        record,
    }
}

/// What is done in a transaction, or asked of it, and what must come of it. A number is first that of a
/// record of relation 1.
#[derive(Clone, Copy)]
enum Step {
    Put(u64, &'static [&'static [u8]], Result<(), TxnFault>),
    /// One field is put in each record from the first up to the last.
    PutEach(u64, u64),
    Delete(u64, Result<(), TxnFault>),
    /// The text of the one field, or no value.
    Get(u64, Option<&'static str>),
    /// How many keys are written.
    Writes(usize),
    /// The records of a relation.
    Scan(u16, &'static [u64]),
}

fn puts_each(alloc: Global, txn: &mut Txn, first: u64, last: u64) -> bool {
    for record in first..last {
        if txn.put(alloc, key(record), &[FIELD]).is_err() {
            return false;
        }
    }
    true
}

fn scans(alloc: Global, txn: &Txn, relation: u16, records: &[u64]) -> bool {
    match txn.scan(alloc, relation) {
        Ok(found) => are_records(&found, records),
        Err(_) => false,
    }
}

fn is_answered(alloc: Global, txn: &mut Txn, step: &Step) -> bool {
    match *step {
        Step::Put(record, fields, want) => txn.put(alloc, key(record), fields) == want,
        Step::PutEach(first, last) => puts_each(alloc, txn, first, last),
        Step::Delete(record, want) => txn.delete(key(record)) == want,
        Step::Get(record, text) => is_text(txn.get(key(record)), text),
        Step::Writes(count) => txn.writes().len() == count,
        Step::Scan(relation, records) => scans(alloc, txn, relation, records),
    }
}

const FIELD: &[u8] = b"a";

const LONGEST: &[u8] = &[0; 255];

const TOO_LONG: &[u8] = &[0; 256];

const BAD: Result<(), TxnFault> = Err(TxnFault::BadValue);

const TOO_MANY: Result<(), TxnFault> = Err(TxnFault::TooManyKeys);

/// What a transaction shows, the commits before its snapshot, the snapshot's time, and its steps.
#[derive(Clone, Copy)]
struct Case(
    &'static str,
    &'static [(u64, u64, Option<&'static str>)],
    u64,
    &'static [Step],
);

const CASES: &[Case] = &[
    Case(
        "own writes stand over the snapshot",
        &[(130, 7, Some("c")), (140, 7, Some("d"))],
        130,
        &[
            Step::Get(7, Some("c")),
            Step::Put(7, &[b"e"], Ok(())),
            Step::Get(7, Some("e")),
            Step::Delete(7, Ok(())),
            Step::Get(7, None),
            Step::Delete(7, Err(TxnFault::Missing)),
            Step::Writes(1),
        ],
    ),
    Case(
        "a put that is deleted leaves no write",
        &[],
        0,
        &[
            Step::Delete(7, Err(TxnFault::Missing)),
            Step::Put(7, &[FIELD], Ok(())),
            Step::Delete(7, Ok(())),
            Step::Writes(0),
        ],
    ),
    Case(
        "values and write sets have their limits",
        &[],
        0,
        &[
            Step::Put(7, &[], BAD),
            Step::Put(7, &[FIELD; 17], BAD),
            Step::Put(7, &[TOO_LONG], BAD),
            Step::Put(7, &[LONGEST; 16], Ok(())),
            Step::PutEach(8, 1031),
            Step::Put(1031, &[FIELD], TOO_MANY),
            Step::Put(1031, &[], TOO_MANY),
            Step::Put(7, &[FIELD], Ok(())),
            Step::Writes(1024),
        ],
    ),
    Case(
        "a scan shows own writes",
        &[(100, 3, Some("x")), (110, 7, Some("a"))],
        110,
        &[
            Step::Put(5, &[b"y"], Ok(())),
            Step::Delete(7, Ok(())),
            Step::Scan(1, &[3, 5]),
            Step::Scan(2, &[]),
        ],
    ),
];

/// The place of the first step that is not answered as it should be.
fn first_wrong(alloc: Global, txn: &mut Txn, steps: &[Step]) -> Option<usize> {
    for (place, step) in steps.iter().enumerate() {
        if !is_answered(alloc, txn, step) {
            return Some(place);
        }
    }
    None
}

/// Whether a transaction is over with its mark, its number and its snapshot, and as many writes as it
/// had.
fn is_over(txn: Txn, snapshot: u64) -> bool {
    let count = txn.writes().len();
    let parts = txn.spend();
    (parts.mark, parts.number, parts.snapshot) == (1, 2, snapshot) && parts.writes.len() == count
}

#[test]
fn transactions_read_and_write_step_by_step(rt: HostRuntime) -> Result<(), Fail> {
    for case in CASES {
        let state = published(rt.alloc(), case.1)?;
        let mut txn = Txn::new(rt.alloc(), 1, 2, case.2, state);
        let wrong = first_wrong(rt.alloc(), &mut txn, case.3);
        assert_eq!(rt; (wrong, is_over(txn, case.2)), (None, true), "{}", case.0);
    }
    Ok(())
}

#[test]
fn a_transaction_says_whose_it_is(rt: HostRuntime) {
    let txn = Txn::new(rt.alloc(), 1, 2, 130, Frozen::new());
    let says = (txn.mark(), txn.number(), txn.snapshot()) == (1, 2, 130);
    let is_empty = txn.frozen().at(SEVEN, 130).is_none();
    let _over = txn.spend();
    assert!(rt; says && is_empty);
}

/// Whether two transactions that are open have numbers of their own, and the first's is given again once
/// it is over.
fn gives_again(open: &mut OpenTable) -> bool {
    let (Ok(first), Ok(second)) = (open.open(100), open.open(130)) else {
        return false;
    };
    let are_open = open.snapshot_of(first) == Some(100) && open.snapshot_of(second) == Some(130);
    open.close(first);
    let is_over = open.snapshot_of(first).is_none();
    let Ok(third) = open.open(140) else {
        return false;
    };
    first != second
        && are_open
        && is_over
        && third == first
        && open.snapshot_of(first) == Some(140)
        && open.snapshot_of(7).is_none()
}

#[test]
fn a_number_is_given_again_once_its_transaction_is_over(rt: HostRuntime) {
    let mut open = OpenTable::new(rt.alloc());
    assert!(rt; gives_again(&mut open));
}
