//! What views answer before, at and after their times.
use crate::answers::{
    Row, Rows, Value, are_answer, are_lent, are_records, goes_over, is_answer, is_row,
};
use crate::published::{SEVEN, published};
use floors::Floors;
use history::Key;
use std::alloc::{AllocError, Global};
use std::test::Fail;
use store::{QueryFault, View};

/// What a view is asked.
#[derive(Clone, Copy)]
enum Ask {
    /// The value of record 7 of a relation at a time.
    At(u16, u64, Value),
    /// The rows of `SEVEN` from one time up to another, in a vector and lent one by one.
    Between(u64, u64, Rows),
    /// How many rows of `SEVEN` there are, in both forms.
    Count(u64, u64, usize),
    /// The rows of a relation, all of record 7.
    ScanBetween(u16, u64, u64, Rows),
    /// The records of a relation that have a value at a time.
    ScanAt(u16, u64, Result<&'static [u64], QueryFault>),
}

fn counts(alloc: Global, view: &View, a: u64, b: u64, count: usize) -> bool {
    let told = matches!(view.recent_between(alloc, SEVEN, a, b), Ok(rows) if rows.len() == count);
    match view.recent_rows(SEVEN, a, b) {
        Ok(walk) => told && goes_over(walk, count),
        Err(_) => false,
    }
}

/// Whether the rows of `SEVEN` are lent so.
fn lends(view: &View, a: u64, b: u64, want: Rows) -> bool {
    match (view.recent_rows(SEVEN, a, b), want) {
        (Ok(walk), Ok(parts)) => are_lent(walk, parts),
        (Err(fault), Err(wanted)) => fault == wanted,
        _ => false,
    }
}

/// Whether the rows of a relation are these, all of record 7.
fn scans_rows(alloc: Global, view: &View, (relation, a, b): (u16, u64, u64), want: Rows) -> bool {
    let answer = view.recent_scan_between(alloc, relation, a, b);
    match (&answer, want) {
        (Ok(rows), Ok(parts)) => {
            for (place, row) in rows.iter().enumerate() {
                let Some(part) = parts.get(place) else {
                    return false;
                };
                if row.0 != 7 || !is_row(&row.1, part) {
                    return false;
                }
            }
            rows.len() == parts.len()
        }
        (Err(fault), Err(wanted)) => *fault == wanted,
        _ => false,
    }
}

fn scans(
    alloc: Global,
    view: &View,
    relation: u16,
    time: u64,
    want: Result<&[u64], QueryFault>,
) -> bool {
    let answer = view.recent_scan(alloc, relation, time);
    match (&answer, want) {
        (Ok(found), Ok(records)) => are_records(found, records),
        (Err(fault), Err(wanted)) => *fault == wanted,
        _ => false,
    }
}

fn is_told(alloc: Global, view: &View, ask: &Ask) -> bool {
    match *ask {
        Ask::At(relation, time, want) => {
            let key = Key {
                relation,
                record: 7,
            };
            is_answer(view.recent(key, time), want)
        }
        Ask::Between(a, b, want) => {
            are_answer(&view.recent_between(alloc, SEVEN, a, b), want) && lends(view, a, b, want)
        }
        Ask::Count(a, b, count) => counts(alloc, view, a, b, count),
        Ask::ScanBetween(relation, a, b, want) => scans_rows(alloc, view, (relation, a, b), want),
        Ask::ScanAt(relation, time, want) => scans(alloc, view, relation, time, want),
    }
}

/// Commits of record 7, and none where it is gone.
type Commits = &'static [(u64, u64, Option<&'static str>)];

/// A at 100, b at 110, gone from 120 on and c at 130.
const FOUR: Commits = &[
    (100, 7, Some("a")),
    (110, 7, Some("b")),
    (120, 7, None),
    (130, 7, Some("c")),
];

/// What a view shows, its commits, the floor of all relations and those of single ones, and what it is
/// asked.
#[derive(Clone, Copy)]
struct Viewed(
    &'static str,
    Commits,
    u64,
    &'static [(u16, u64)],
    &'static [Ask],
);

const VIEWS: &[Viewed] = &[
    Viewed(
        "a value stands from its commit up to the last one",
        &[(100, 7, Some("a"))],
        0,
        &[],
        &[
            Ask::At(1, 99, Ok(None)),
            Ask::At(1, 100, Ok(Some("a"))),
            Ask::At(1, 101, Err(QueryFault::NotYet(100))),
        ],
    ),
    Viewed(
        "nothing is answered before the floor",
        &[(110, 7, Some("b")), (120, 7, None), (130, 7, Some("c"))],
        120,
        &[],
        &[
            Ask::At(1, 119, Err(QueryFault::BeforeKept(120))),
            Ask::At(1, 120, Ok(None)),
            Ask::At(1, 130, Ok(Some("c"))),
        ],
    ),
    Viewed(
        "rows of a key are cut to the interval",
        FOUR,
        0,
        &[],
        &[Ask::Between(105, 121, Ok(&[(105, 110, "a"), (110, 120, "b")]))],
    ),
    Viewed(
        "a deletion ends a row",
        FOUR,
        0,
        &[],
        &[
            Ask::ScanBetween(1, 100, 131, Ok(ALL_ROWS)),
            Ask::ScanBetween(2, 100, 131, Ok(&[])),
        ],
    ),
    Viewed(
        "a scan shows what stood then",
        FOUR,
        0,
        &[],
        &[Ask::ScanAt(1, 105, Ok(&[7])), Ask::ScanAt(1, 125, Ok(&[]))],
    ),
    Viewed(
        "intervals are refused in order",
        FOUR,
        120,
        &[],
        &[
            Ask::Between(119, 131, Err(QueryFault::BeforeKept(120))),
            Ask::Between(130, 119, Err(QueryFault::BeforeKept(120))),
            Ask::Between(140, 140, Err(QueryFault::NotYet(130))),
            Ask::Between(125, 125, Err(QueryFault::EmptyInterval)),
            Ask::ScanBetween(1, 120, 132, Err(QueryFault::NotYet(130))),
            Ask::ScanAt(1, 131, Err(QueryFault::NotYet(130))),
            Ask::Count(120, 131, 1),
        ],
    ),
    Viewed(
        "each relation is answered from its own floor",
        FOUR,
        0,
        &[(2, 125), (1, 115)],
        &[
            Ask::At(1, 114, Err(QueryFault::BeforeKept(115))),
            Ask::At(1, 115, Ok(Some("b"))),
            Ask::At(2, 124, Err(QueryFault::BeforeKept(125))),
            Ask::At(2, 125, Ok(None)),
            Ask::At(3, 0, Ok(None)),
            Ask::Between(114, 131, Err(QueryFault::BeforeKept(115))),
            Ask::Count(115, 131, 2),
            Ask::ScanBetween(2, 115, 131, Err(QueryFault::BeforeKept(125))),
            Ask::ScanAt(1, 115, Ok(&[7])),
            Ask::ScanAt(2, 115, Err(QueryFault::BeforeKept(125))),
        ],
    ),
];

const ALL_ROWS: &[Row] = &[(100, 110, "a"), (110, 120, "b"), (130, 131, "c")];

/// The floor of all relations, above which those of single ones are raised one by one.
fn floors_of(alloc: Global, every: u64, raised: &[(u16, u64)]) -> Result<Floors, AllocError> {
    let mut floors = Floors::of_every(every);
    for (relation, floor) in raised {
        floors = floors.raised(alloc, Some(*relation), *floor)?;
    }
    Ok(floors)
}

/// The time of the last commit.
fn last_of(commits: &[(u64, u64, Option<&str>)]) -> u64 {
    match commits.last() {
        Some(commit) => commit.0,
        None => 0,
    }
}

/// The place of the first question that is not answered as it should be.
fn first_wrong(alloc: Global, view: &View, asked: &[Ask]) -> Option<usize> {
    for (place, ask) in asked.iter().enumerate() {
        if !is_told(alloc, view, ask) {
            return Some(place);
        }
    }
    None
}

fn view_of(alloc: Global, row: &Viewed) -> Result<View, Fail> {
    let floors = floors_of(alloc, row.2, row.3)?;
    Ok(View::new(3, last_of(row.1), floors, published(alloc, row.1)?))
}

#[test]
fn views_answer_of_their_times(rt: HostRuntime) -> Result<(), Fail> {
    for row in VIEWS {
        let view = view_of(rt.alloc(), row)?;
        let (mark, wrong) = (view.mark(), first_wrong(rt.alloc(), &view, row.4));
        view.spend();
        assert_eq!(rt; (mark, wrong), (3, None), "{}", row.0);
    }
    Ok(())
}
