//! Keys, and the rows, values and conflicts of a few commits.
use crate::answers::{Row, are_rows};
use crate::published::{SEVEN, is_text, published};
use chains::{Frozen, SharedValue};
use group::first_conflict;
use history::{ENDLESS, Key, KeyWrite};
use std::alloc::{AllocError, Global};
use std::test::Fail;

const NINE: Key = Key {
    relation: 1,
    record: 9,
};

const THREE: Key = Key {
    relation: 1,
    record: 3,
};

/// The first and the second record of relation 1.
const X: Key = Key {
    relation: 1,
    record: 1,
};

const Y: Key = Key {
    relation: 1,
    record: 2,
};

/// Commits of one record of relation 1 each: the time, the record, and the text that is its one field,
/// none where it is gone.
type Commits = &'static [(u64, u64, Option<&'static str>)];

/// Record 7 is a, b, gone and c.
const FOUR: Commits = &[
    (100, 7, Some("a")),
    (110, 7, Some("b")),
    (120, 7, None),
    (130, 7, Some("c")),
];

/// The same, and record 3 is x.
const FIVE: Commits = &[
    (100, 7, Some("a")),
    (110, 7, Some("b")),
    (115, 3, Some("x")),
    (120, 7, None),
    (130, 7, Some("c")),
];

const TWO: Commits = &[(130, 7, Some("c")), (140, 7, Some("d"))];

const NINE_BETWEEN: Commits = &[
    (130, 7, Some("c")),
    (140, 9, Some("d")),
    (150, 7, Some("e")),
];

/// The first transaction wrote y after the second's snapshot, at 101, which read y and writes x.
const SKEW: Commits = &[
    (100, 1, Some("a")),
    (101, 2, Some("b")),
    (102, 2, Some("c")),
];

/// What commits tell.
#[derive(Clone, Copy)]
enum Told {
    /// The rows of a key from one time up to another.
    Rows(Key, u64, u64, &'static [Row]),
    /// The text of a key's one field at a time.
    Value(Key, u64, Option<&'static str>),
    /// Whether a key is written after a time.
    Written(Key, u64, bool),
    /// The least key of these that is written after a time.
    Conflict(u64, &'static [Key], Option<Key>),
}

/// What each row shows, its commits, and what they tell.
const TOLD: &[(&str, Commits, Told)] = &[
    (
        "versions",
        FOUR,
        Told::Rows(
            SEVEN,
            0,
            ENDLESS,
            &[(100, 110, "a"), (110, 120, "b"), (130, ENDLESS, "c")],
        ),
    ),
    (
        "all rows",
        FOUR,
        Told::Rows(
            SEVEN,
            100,
            131,
            &[(100, 110, "a"), (110, 120, "b"), (130, 131, "c")],
        ),
    ),
    (
        "parts of rows",
        FOUR,
        Told::Rows(SEVEN, 105, 115, &[(105, 110, "a"), (110, 115, "b")]),
    ),
    ("no row", FOUR, Told::Rows(SEVEN, 120, 130, &[])),
    ("3 at 115", FIVE, Told::Value(THREE, 115, Some("x"))),
    ("7 at 115", FIVE, Told::Value(SEVEN, 115, Some("b"))),
    ("3 at 125", FIVE, Told::Value(THREE, 125, Some("x"))),
    ("7 at 125", FIVE, Told::Value(SEVEN, 125, None)),
    (
        "rows of 3",
        FIVE,
        Told::Rows(THREE, 112, 131, &[(115, 131, "x")]),
    ),
    (
        "rows of 7",
        FIVE,
        Told::Rows(SEVEN, 112, 131, &[(112, 120, "b"), (130, 131, "c")]),
    ),
    (
        "from its commit on",
        TWO,
        Told::Value(SEVEN, 130, Some("c")),
    ),
    (
        "from the next one on",
        TWO,
        Told::Value(SEVEN, 140, Some("d")),
    ),
    (
        "7 is written later",
        NINE_BETWEEN,
        Told::Written(SEVEN, 140, true),
    ),
    (
        "9 is not written later",
        NINE_BETWEEN,
        Told::Written(NINE, 140, false),
    ),
    (
        "the least key",
        NINE_BETWEEN,
        Told::Conflict(130, &[THREE, SEVEN, NINE], Some(SEVEN)),
    ),
    (
        "no key",
        NINE_BETWEEN,
        Told::Conflict(150, &[THREE, SEVEN, NINE], None),
    ),
    (
        "write skew is no conflict",
        SKEW,
        Told::Conflict(101, &[X], None),
    ),
    ("another write is", SKEW, Told::Conflict(101, &[Y], Some(Y))),
];

/// Writes that these keys are gone.
fn gone(alloc: Global, keys: &[Key]) -> Result<Vec<KeyWrite<SharedValue>>, AllocError> {
    let mut writes = Vec::new(alloc);
    for key in keys {
        writes.push(KeyWrite {
            key: *key,
            write: None,
        })?;
    }
    Ok(writes)
}

fn is_told(alloc: Global, frozen: &Frozen, told: &Told) -> Result<bool, AllocError> {
    match *told {
        Told::Rows(key, a, b, rows) => Ok(are_rows(&frozen.rows(alloc, key, a, b)?, rows)),
        Told::Value(key, time, text) => Ok(is_text(frozen.at(key, time), text)),
        Told::Written(key, time, later) => Ok((time < frozen.last_write(key)) == later),
        Told::Conflict(time, keys, key) => {
            Ok(first_conflict(frozen, time, &gone(alloc, keys)?) == key)
        }
    }
}

#[test]
fn commits_tell_rows_values_and_conflicts(rt: HostRuntime) -> Result<(), Fail> {
    for (what, commits, told) in TOLD {
        let frozen = published(rt.alloc(), commits)?;
        assert!(rt; is_told(rt.alloc(), &frozen, told) == Ok(true), "{what}");
    }
    Ok(())
}

const ORDER: &[(Key, Key, bool)] = &[
    (NINE, OF_SECOND_RELATION, true),
    (OF_SECOND_RELATION, NINE, false),
    (THREE, SEVEN, true),
    (SEVEN, SEVEN, false),
];

const OF_SECOND_RELATION: Key = Key {
    relation: 2,
    record: 3,
};

#[test]
fn keys_go_by_relation_before_record(rt: HostRuntime) {
    for (left, right, before) in ORDER {
        let (first, second) = (left.record, right.record);
        assert!(rt; left.is_before(*right) == *before, "{first} {second}");
    }
}
