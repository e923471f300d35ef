//! What a store answers by a plain list of writes.
use std::alloc::{AllocError, Global};
use std::fmt::Write;

/// A published write of a record of relation 1.
#[derive(Clone, Copy)]
pub struct Written {
    /// When its commit was published.
    pub time: u32,
    pub record: u32,
    /// The one field of its value, as a script spells it. None where the record goes.
    pub field: Option<&'static str>,
}

/// The first time that is asked for.
const FIRST: u32 = 100;

/// The record that is asked for alone at each time.
const RECORD: u32 = 7;

/// The time of the last of the writes, which rise.
fn last_time(writes: &[Written]) -> u32 {
    match writes.last() {
        Some(write) => write.time,
        None => 0,
    }
}

/// What a record has at a time: the field of its last write up to it.
fn field_at(writes: &[Written], record: u32, time: u32) -> Option<&'static str> {
    let mut field = None;
    for write in writes {
        if write.record == record && write.time <= time {
            field = write.field;
        }
    }
    field
}

/// When the write of a record at a time ends: at its next write, or just past the last time.
fn end_of(writes: &[Written], record: u32, time: u32) -> u32 {
    for write in writes {
        if write.record == record && time < write.time {
            return write.time;
        }
    }
    last_time(writes).saturating_add(1)
}

/// Appends the question for the record at a time.
fn push_at(text: &mut String, writes: &[Written], time: u32) -> Result<(), AllocError> {
    match field_at(writes, RECORD, time) {
        Some(field) => writeln!(text, "at 1 {RECORD} {time} | value {field}")?,
        None => writeln!(text, "at 1 {RECORD} {time} | none")?,
    }
    Ok(())
}

/// Appends the question for all records at the last time.
fn push_scan(text: &mut String, records: &[u32], writes: &[Written]) -> Result<(), AllocError> {
    let mut rows: u32 = 0;
    let last = last_time(writes);
    write!(text, "scan 1 {last} | ")?;
    for record in records {
        if let Some(field) = field_at(writes, *record, last) {
            write!(text, "{record} {field}\n| ")?;
            rows = rows.saturating_add(1);
        }
    }
    writeln!(text, "rows {rows}")?;
    Ok(())
}

/// Appends the question for all rows of a record.
fn push_between(text: &mut String, writes: &[Written], record: u32) -> Result<(), AllocError> {
    let mut rows: u32 = 0;
    let past = last_time(writes).saturating_add(1);
    write!(text, "between 1 {record} {FIRST} {past} | ")?;
    for write in writes {
        if let (true, Some(field)) = (write.record == record, write.field) {
            let (from, to) = (write.time, end_of(writes, record, write.time));
            write!(text, "{from} {to} {field}\n| ")?;
            rows = rows.saturating_add(1);
        }
    }
    writeln!(text, "rows {rows}")?;
    Ok(())
}

/// Appends the questions for the record at each time, and the one that comes too early.
fn push_times(text: &mut String, writes: &[Written]) -> Result<(), AllocError> {
    let last = last_time(writes);
    let past = last.saturating_add(1);
    for time in FIRST..past {
        push_at(text, writes, time)?;
    }
    writeln!(text, "at 1 {RECORD} {past} | refused: not yet {last}")?;
    Ok(())
}

/// The questions to a store which has just these writes, of these records, with their answers.
pub fn questions(alloc: Global, records: &[u32], writes: &[Written]) -> Result<String, AllocError> {
    let mut text = String::new(alloc);
    push_times(&mut text, writes)?;
    push_scan(&mut text, records, writes)?;
    for record in records {
        push_between(&mut text, writes, *record)?;
    }
    Ok(text)
}
