//! What queries answer, as tables have it.
use crate::published::is_text;
use history::Version;
use store::{QueryFault, RowWalk, SharedValue};

/// The text of the one field of a value, or none where there is no value, or why that is not told.
pub type Value = Result<Option<&'static str>, QueryFault>;

pub fn is_answer(answer: Result<Option<&SharedValue>, QueryFault>, want: Value) -> bool {
    match (answer, want) {
        (Ok(value), Ok(text)) => is_text(value, text),
        (Err(fault), Err(wanted)) => fault == wanted,
        _ => false,
    }
}

/// From when and up to when each row goes, and the text of its value's one field.
pub type Row = (u64, u64, &'static str);

pub fn is_row(row: &Version<SharedValue>, want: &Row) -> bool {
    row.from == want.0 && row.to == want.1 && is_text(Some(&row.value), Some(want.2))
}

/// Whether these rows are told.
pub fn are_rows(rows: &[Version<SharedValue>], want: &[Row]) -> bool {
    for (place, row) in rows.iter().enumerate() {
        let Some(part) = want.get(place) else {
            return false;
        };
        if !is_row(row, part) {
            return false;
        }
    }
    rows.len() == want.len()
}

/// Whether these rows of records are told.
pub fn are_scanned(rows: &[(u64, Version<SharedValue>)], want: &[(u64, Row)]) -> bool {
    for (place, row) in rows.iter().enumerate() {
        let Some(part) = want.get(place) else {
            return false;
        };
        if row.0 != part.0 || !is_row(&row.1, &part.1) {
            return false;
        }
    }
    rows.len() == want.len()
}

/// Whether these records are told, and no others.
pub fn are_records(found: &[(u64, SharedValue)], want: &[u64]) -> bool {
    for (place, one) in found.iter().enumerate() {
        let Some(record) = want.get(place) else {
            return false;
        };
        if one.0 != *record {
            return false;
        }
    }
    found.len() == want.len()
}

/// Whether these records have these values, each of one field.
pub fn are_values(found: &[(u64, SharedValue)], want: &[(u64, &str)]) -> bool {
    for (place, one) in found.iter().enumerate() {
        let Some(part) = want.get(place) else {
            return false;
        };
        if one.0 != part.0 || !is_text(Some(&one.1), Some(part.1)) {
            return false;
        }
    }
    found.len() == want.len()
}

/// Rows of a key, or why they are not told.
pub type Rows = Result<&'static [Row], QueryFault>;

pub fn are_answer(answer: &Result<Vec<Version<SharedValue>>, QueryFault>, want: Rows) -> bool {
    match (answer, want) {
        (Ok(rows), Ok(parts)) => are_rows(rows, parts),
        (Err(fault), Err(wanted)) => *fault == wanted,
        _ => false,
    }
}

fn is_lent_row(row: &Version<&SharedValue>, want: &Row) -> bool {
    row.from == want.0 && row.to == want.1 && is_text(Some(row.value), Some(want.2))
}

/// Whether a walk goes over these rows, and no others.
pub fn are_lent(walk: RowWalk<'_>, want: &[Row]) -> bool {
    let mut walk = walk;
    for part in want {
        match walk.next() {
            Some(row) if is_lent_row(&row, part) => {}
            _ => return false,
        }
    }
    walk.next().is_none()
}

/// Whether a walk goes over so many rows.
pub fn goes_over(walk: RowWalk<'_>, count: usize) -> bool {
    let mut walk = walk;
    for _ in 0..count {
        if walk.next().is_none() {
            return false;
        }
    }
    walk.next().is_none()
}
