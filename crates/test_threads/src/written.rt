//! What the examples write through a shared store, and what they find.
use any_store::{Did, JobDid, PumpFault, QueryFault, SharedValue, Submitted, Ticket};
use disk::Disk;
use history::{Key, Version};
use shared::{Observer, Opening, SharedStore, SharedTxn, SharedView};
use std::alloc::Global;
use std::process::Abort;
use std::sync::Wait;

/// A key of the examples' relation.
pub fn key_of(record: u64) -> Key {
    Key {
        relation: 1,
        record,
    }
}

/// A transaction on all that is published.
pub fn begun<D: Disk, L: Opening, R: Wait + Abort>(
    rt: &R,
    store: &SharedStore<D, L>,
    me: &mut Observer<L>,
) -> SharedTxn<L> {
    match store.begin(rt, me) {
        Ok(txn) => txn,
        Err(fault) => panic!(rt; "{fault:?}"),
    }
}

/// A commit of one key waits: of a value of one field, or of none where the key goes.
pub fn queued<D: Disk, L: Opening, R: Wait + Abort>(
    rt: &R,
    alloc: Global,
    store: &SharedStore<D, L>,
    me: &mut Observer<L>,
    write: (u64, Option<&str>),
    now: u64,
) -> Ticket {
    let mut txn = begun(rt, store, me);
    let key = key_of(write.0);
    let done = match write.1 {
        Some(field) => txn.put(alloc, key, &[field.as_bytes()]),
        None => txn.delete(key),
    };
    assert!(rt; done.is_ok());
    match store.submit(rt, txn, 9, now, me) {
        Ok(Submitted::Queued(ticket)) => ticket,
        Ok(Submitted::ReadOnly(_)) => panic!(rt; "nothing was written"),
        Err(fault) => panic!(rt; "{fault:?}"),
    }
}

/// Takes steps of the group until one answers so.
pub fn pump_to<D: Disk, L: Opening, R: Wait + Abort>(
    rt: &R,
    store: &SharedStore<D, L>,
    me: &mut Observer<L>,
    wanted: Result<Did, PumpFault>,
) {
    for _ in 0..100 {
        if store.pump(rt, me) == wanted {
            return;
        }
    }
    panic!(rt; "no such answer came");
}

/// Takes steps of the job until it is done.
pub fn pump_job<D: Disk, L: Opening, R: Wait + Abort>(
    rt: &R,
    store: &SharedStore<D, L>,
    me: &mut Observer<L>,
) {
    for _ in 0..100 {
        if store.job_pump(rt, me) == Ok(JobDid::JobDone) {
            return;
        }
    }
    panic!(rt; "the job does not end");
}

/// Commits of one key, each published before the next: a at 100, b at 110, none at 120, c at 130.
pub fn publish_four<D: Disk, L: Opening, R: Wait + Abort>(
    rt: &R,
    alloc: Global,
    store: &SharedStore<D, L>,
    me: &mut Observer<L>,
) {
    for (value, now) in [
        (Some("a"), 100),
        (Some("b"), 110),
        (None, 120),
        (Some("c"), 130),
    ] {
        queued(rt, alloc, store, me, (7, value), now).give_up();
        pump_to(rt, store, me, Ok(Did::Published(1)));
    }
}

/// Whether a value has this one field.
pub fn is_field(value: &SharedValue, field: &[u8]) -> bool {
    let value = value.value();
    value.len() == 1 && value.field(0) == Some(field)
}

/// Whether a row has these times and this one field.
fn is_row(row: &Version<SharedValue>, wanted: (u64, u64, &str)) -> bool {
    row.from == wanted.0 && row.to == wanted.1 && is_field(&row.value, wanted.2.as_bytes())
}

/// Whether these are the rows.
pub fn are_rows(rows: &[Version<SharedValue>], wanted: &[(u64, u64, &str)]) -> bool {
    for (row, wanted) in rows.iter().zip(wanted) {
        if !is_row(row, *wanted) {
            return false;
        }
    }
    rows.len() == wanted.len()
}

/// Whether these are the rows, all of them of record 7.
pub fn are_rows_of_seven(
    rows: &[(u64, Version<SharedValue>)],
    wanted: &[(u64, u64, &str)],
) -> bool {
    for (row, wanted) in rows.iter().zip(wanted) {
        if row.0 != 7 || !is_row(&row.1, *wanted) {
            return false;
        }
    }
    rows.len() == wanted.len()
}

/// Whether record 7 alone was found, with this one field.
pub fn is_seven_alone(found: &[(u64, SharedValue)], field: &str) -> bool {
    match found {
        [one] => one.0 == 7 && is_field(&one.1, field.as_bytes()),
        _ => false,
    }
}

/// Whether a record of the view has this one field at a time.
pub fn has<D: Disk, L: Opening, R: Wait>(
    rt: &R,
    store: &SharedStore<D, L>,
    view: &mut SharedView<L>,
    record: u64,
    wanted: (u64, &str),
) -> bool {
    match store.at(rt, view, key_of(record), wanted.0) {
        Ok(Some(value)) => is_field(&value, wanted.1.as_bytes()),
        _ => false,
    }
}

/// Whether record 7 has nothing at a time.
pub fn has_none<D: Disk, L: Opening, R: Wait>(
    rt: &R,
    store: &SharedStore<D, L>,
    view: &mut SharedView<L>,
    time: u64,
) -> bool {
    matches!(store.at(rt, view, key_of(7), time), Ok(None))
}

/// Whether the view refuses to say what record 7 had at a time, for this reason.
pub fn refuses<D: Disk, L: Opening, R: Wait>(
    rt: &R,
    store: &SharedStore<D, L>,
    view: &mut SharedView<L>,
    time: u64,
    why: QueryFault,
) -> bool {
    match store.at(rt, view, key_of(7), time) {
        Err(fault) => fault == why,
        Ok(_) => false,
    }
}

/// Whether these are the times of the commits that the examples make, which have one label.
pub fn has_times<D: Disk, L: Opening, R: Wait>(
    rt: &R,
    store: &SharedStore<D, L>,
    me: &mut Observer<L>,
    wanted: &[u64],
) -> bool {
    match store.times_of(rt, 9, me) {
        Ok(times) => times.as_slice() == wanted,
        Err(_) => false,
    }
}

/// Whether these are record 7's rows in an interval.
pub fn has_rows<D: Disk, L: Opening, R: Wait>(
    rt: &R,
    store: &SharedStore<D, L>,
    view: &mut SharedView<L>,
    interval: (u64, u64),
    wanted: &[(u64, u64, &str)],
) -> bool {
    match store.between(rt, view, key_of(7), interval.0, interval.1) {
        Ok(rows) => are_rows(rows.as_slice(), wanted),
        Err(_) => false,
    }
}
