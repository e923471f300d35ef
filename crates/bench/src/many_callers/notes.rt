//! What the threads of a soak were told, one line each, for a check by a program that was written apart.

use crate::fault::Fault;
use history::Version;
use store::{QueryFault, SharedValue};

/// How a commit ended.
#[derive(Clone, Copy)]
pub(crate) enum Ending {
    /// It is published, with this time.
    Done(u64),
    /// A later commit wrote this record.
    Conflict(u64),
    /// It deletes a record that is not there.
    Missing,
    /// The log or the heap is full.
    Full,
}

/// What a thread was told. A value of 0 is that of a record that is not there.
#[derive(Clone, Copy)]
pub(crate) enum Note {
    /// A commit by one call, of the label to the one record, and of it or of none to the other. Its caller
    /// had seen what was published up to a time.
    Commit {
        label: u64,
        seen: u64,
        puts: u64,
        other: u64,
        deletes: bool,
        ending: Ending,
    },
    /// A transaction that read a record at its snapshot and then wrote the label to it.
    Txn {
        label: u64,
        snapshot: u64,
        record: u64,
        read: u64,
        ending: Ending,
    },
    /// A record's value at a time, by a view that was taken when so much had been seen.
    Value {
        seen: u64,
        record: u64,
        time: u64,
        value: u64,
    },
    /// The same by memory alone.
    Recent {
        seen: u64,
        record: u64,
        time: u64,
        value: u64,
    },
    /// The rows of a record from one time up to another, by their digest.
    Rows {
        record: u64,
        a: u64,
        b: u64,
        rows: u64,
        digest: u64,
    },
}

fn print_ending<R: Print>(rt: &R, ending: Ending) -> Result<(), Fault> {
    match ending {
        Ending::Done(time) => println!(rt; "done {time}")?,
        Ending::Conflict(record) => println!(rt; "conflict {record}")?,
        Ending::Missing => println!(rt; "missing")?,
        Ending::Full => println!(rt; "full")?,
    }
    Ok(())
}

/// Prints the line of a note.
pub(crate) fn print<R: Print>(rt: &R, note: Note) -> Result<(), Fault> {
    match note {
        Note::Commit {
            label,
            seen,
            puts,
            other,
            deletes,
            ending,
        } => {
            print!(rt;
                "commit {label} {seen} {puts} {other} {} ",
                u64::from(deletes)
            )?;
            print_ending(rt, ending)
        }
        Note::Txn {
            label,
            snapshot,
            record,
            read,
            ending,
        } => {
            print!(rt; "txn {label} {snapshot} {record} {read} ")?;
            print_ending(rt, ending)
        }
        read => print_read(rt, read),
    }
}

fn print_read<R: Print>(rt: &R, note: Note) -> Result<(), Fault> {
    match note {
        Note::Value {
            seen,
            record,
            time,
            value,
        } => println!(rt; "value {seen} {record} {time} {value}")?,
        Note::Recent {
            seen,
            record,
            time,
            value,
        } => println!(rt; "recent {seen} {record} {time} {value}")?,
        Note::Rows {
            record,
            a,
            b,
            rows,
            digest,
        } => println!(rt; "rows {record} {a} {b} {rows} {digest}")?,
        _ => {}
    }
    Ok(())
}

/// The number that is a value's one field.
pub(crate) fn number_of(value: &SharedValue) -> u64 {
    match value.value().field(0) {
        Some(&[a, b, c, d, e, f, g, h]) => u64::from_le_bytes([a, b, c, d, e, f, g, h]),
        _ => u64::MAX,
    }
}

/// The number of an answer, 0 of none.
pub(crate) fn number_in(answer: Result<Option<SharedValue>, QueryFault>) -> Option<u64> {
    match answer {
        Ok(Some(value)) => Some(number_of(&value)),
        Ok(None) => Some(0),
        Err(_) => None,
    }
}

/// A number that tells these rows from others.
pub(crate) fn digest_of(rows: &[Version<SharedValue>]) -> u64 {
    let mut digest = 0u64;
    for row in rows {
        digest = digest
            .wrapping_mul(1_000_003)
            .wrapping_add(row.from.wrapping_mul(31))
            .wrapping_add(row.to.wrapping_mul(17))
            .wrapping_add(number_of(&row.value));
    }
    digest
}
