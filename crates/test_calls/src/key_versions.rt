//! The versions of keys in memory: what stands, what comes next, what is forgotten, and what a frozen
//! view keeps.
ghost use Rattle.std.specs.Prelude.{◌<◌, ◌≤◌, IfOk};
ghost use Rattle.chains.specs.KeyWrites.{latest};

use crate::published::{SEVEN, is_text, is_value, put, value};
use chains::{Bound, Cursor, Frozen};
use history::KeyWrite;
use std::alloc::{AllocError, Global};
use std::test::Fail;

/// Record 7 is a at 100, b at 110 and gone from 120 on; record 9 is x from 110 on.
fn two_records(alloc: Global) -> Result<Frozen, Fail> {
    let gone = KeyWrite {
        key: SEVEN,
        write: None,
    };
    let first = [put(alloc, 7, b"a")?];
    let second = [put(alloc, 7, b"b")?, put(alloc, 9, b"x")?];
    let frozen = Frozen::new().with_commit(alloc, 100, &first)?;
    let frozen = frozen.with_commit(alloc, 110, &second)?;
    Ok(frozen.with_commit(alloc, 120, &[gone])?)
}

#[test]
fn a_commit_is_not_in_an_earlier_frozen_view(rt: HostRuntime) -> Result<(), Fail> {
    let before = Frozen::new();
    let write = [put(rt.alloc(), 7, b"a")?];
    let after = before.with_commit(rt.alloc(), 100, &write)?;
    assert!(rt; before.at(SEVEN, 100).is_none() && is_text(after.at(SEVEN, 100), Some("a")));
    assert!(rt; after.last_write(SEVEN) == 100);
    let forgotten = after.forget(rt.alloc(), 100)?;
    assert!(rt; is_text(forgotten.at(SEVEN, 100), Some("a")));
    Ok(())
}

#[test]
fn a_cursor_goes_on_in_the_order_of_keys(rt: HostRuntime) -> Result<(), Fail> {
    let mut walk = Cursor::new(two_records(rt.alloc())?, Bound::After(SEVEN));
    assert!(rt; matches!(walk.peek(), Some(chain) if chain.key().record == 9));
    walk.advance();
    assert!(rt; walk.peek().is_none());
    Ok(())
}

/// Record 7 is 1 from 10 on, 2 from 20 on and so forth up to 99 from 990 on, but gone at each fifth.
fn long_chain(alloc: Global) -> Result<Frozen, Fail>
    ensures { IfOk result (λ f. latest f < 1010) }
{
    let mut frozen = Frozen::new();
    for number in 1..101u8 {
        let write = if number % 5 == 0 {
            None
        } else {
            Some(value(alloc, &[number])?)
        };
        let writes = [KeyWrite { key: SEVEN, write }];
        frozen = frozen.with_commit(alloc, u64::from(number) * 10, &writes)?;
    }
    Ok(frozen)
}

/// Whether the long chain shows a number at a time, or nothing at each fifth.
fn shows(frozen: &Frozen, number: u8, time: u64) -> bool {
    let found = frozen.at(SEVEN, time);
    if number % 5 == 0 {
        return found.is_none();
    }
    is_value(found, &[number])
}

/// Whether it shows each number from this one on, to the last moment before the next one.
fn shows_all_from(frozen: &Frozen, first: u8) -> bool {
    for number in first..101 {
        let time = u64::from(number) * 10;
        if !shows(frozen, number, time) || !shows(frozen, number, time + 9) {
            return false;
        }
    }
    true
}

/// When record 7 is written next.
fn next_time(frozen: &Frozen, time: u64) -> Option<u64> {
    let chain = frozen.least(Bound::From(SEVEN))?;
    Some(chain.next_after(time)?.time)
}

/// From when and up to when the first version of record 7 stands that ends after a time.
fn ending_after(frozen: &Frozen, time: u64) -> Option<(u64, u64)> {
    let chain = frozen.least(Bound::From(SEVEN))?;
    let version = chain.ending_after(time)?;
    Some((version.from, version.to))
}

/// What is asked of versions, and what they must answer.
#[derive(Clone, Copy)]
enum Look {
    /// The text of the one field that record 7 has at a time, or no value.
    At(u64, Option<&'static str>),
    /// When record 7 was written last.
    Last(u64),
    /// How many records of a relation have a value at a time.
    Count(u16, u64, usize),
    /// The numbers of the long chain from this one on.
    ShowsFrom(u8),
    /// When record 7 is written next after a time.
    Next(u64, Option<u64>),
    /// The first version that ends after a time.
    Ending(u64, Option<(u64, u64)>),
}

fn is_seen(alloc: Global, frozen: &Frozen, look: &Look) -> bool {
    match *look {
        Look::At(time, text) => is_text(frozen.at(SEVEN, time), text),
        Look::Last(time) => frozen.last_write(SEVEN) == time,
        Look::Count(relation, time, count) => {
            matches!(frozen.scan(alloc, relation, time), Ok(found) if found.len() == count)
        }
        Look::ShowsFrom(first) => shows_all_from(frozen, first),
        Look::Next(time, next) => next_time(frozen, time) == next,
        Look::Ending(time, version) => ending_after(frozen, time) == version,
    }
}

/// The place of the first look that is answered otherwise.
fn first_unseen(alloc: Global, frozen: &Frozen, looks: &[Look]) -> Option<usize> {
    for (place, look) in looks.iter().enumerate() {
        if !is_seen(alloc, frozen, look) {
            return Some(place);
        }
    }
    None
}

/// What versions show, whether they are the long chain or the two records, the marks up to which they
/// are forgotten one after another, and looks at what is left.
#[derive(Clone, Copy)]
struct Seen(&'static str, bool, &'static [u64], &'static [Look]);

const SEEN: &[Seen] = &[
    Seen(
        "a value stands up to the next write",
        false,
        &[],
        &[
            Look::At(99, None),
            Look::At(100, Some("a")),
            Look::At(119, Some("b")),
            Look::At(120, None),
            Look::Last(120),
            Look::Count(1, 115, 2),
            Look::Count(1, 125, 1),
            Look::Count(2, 115, 0),
            Look::Ending(119, Some((110, 120))),
            Look::Ending(120, None),
        ],
    ),
    Seen(
        "what later times need not is forgotten",
        false,
        &[110],
        &[
            Look::At(105, None),
            Look::At(110, Some("b")),
            Look::Last(120),
        ],
    ),
    Seen(
        "a record that is gone is forgotten",
        false,
        &[110, 120],
        &[Look::Last(0)],
    ),
    Seen(
        "a long chain has each value at its time",
        true,
        &[],
        &[
            Look::ShowsFrom(1),
            Look::At(9, None),
            Look::At(47, Some("\x04")),
            Look::At(50, None),
            Look::At(999, Some("\x63")),
            Look::At(u64::MAX, None),
            Look::Last(1000),
        ],
    ),
    Seen(
        "a long chain has a next write",
        true,
        &[],
        &[
            Look::Next(0, Some(10)),
            Look::Next(47, Some(50)),
            Look::Next(50, Some(60)),
            Look::Next(959, Some(960)),
            Look::Next(960, Some(970)),
            Look::Next(999, Some(1000)),
            Look::Next(1000, None),
        ],
    ),
    Seen(
        "a long chain has a first version that ends after a time",
        true,
        &[],
        &[
            Look::Ending(0, Some((10, 20))),
            Look::Ending(19, Some((10, 20))),
            Look::Ending(20, Some((20, 30))),
            Look::Ending(49, Some((40, 50))),
            Look::Ending(50, Some((60, 70))),
            Look::Ending(989, Some((980, 990))),
            Look::Ending(999, Some((990, 1000))),
            Look::Ending(1000, None),
        ],
    ),
    Seen(
        "a mark between writes",
        true,
        &[525],
        &[Look::At(519, None), Look::ShowsFrom(52)],
    ),
    Seen(
        "a mark before a write",
        true,
        &[509],
        &[Look::At(499, None), Look::ShowsFrom(51)],
    ),
    Seen(
        "a second mark",
        true,
        &[525, 985],
        &[Look::At(979, None), Look::ShowsFrom(98)],
    ),
    Seen(
        "up to the last moment",
        true,
        &[525, 985, 999],
        &[Look::Last(1000)],
    ),
    Seen(
        "up to the last write, which is none",
        true,
        &[525, 985, 1000],
        &[Look::Last(0)],
    ),
];

/// What is left of versions that are forgotten up to marks, one after another.
fn forgotten(alloc: Global, frozen: Frozen, marks: &[u64]) -> Result<Frozen, AllocError> {
    let mut frozen = frozen;
    for mark in marks {
        frozen = frozen.forget(alloc, *mark)?;
    }
    Ok(frozen)
}

#[test]
fn versions_are_seen_and_forgotten(rt: HostRuntime) -> Result<(), Fail> {
    for row in SEEN {
        let all = if row.1 {
            long_chain(rt.alloc())?
        } else {
            two_records(rt.alloc())?
        };
        let left = forgotten(rt.alloc(), all, row.2)?;
        assert_eq!(rt; first_unseen(rt.alloc(), &left, row.3), None, "{}", row.0);
    }
    Ok(())
}

/// Whether versions show all that they showed, once what is left of them is forgotten further.
fn stay(alloc: Global, whole: &Frozen) -> bool {
    let Ok(standing) = whole.forget(alloc, 525) else {
        return false;
    };
    let Ok(late) = standing.forget(alloc, 985) else {
        return false;
    };
    shows_all_from(&late, 98) && shows_all_from(&standing, 52) && shows_all_from(whole, 1)
}

#[test]
fn a_long_chain_is_forgotten_up_to_a_mark(rt: HostRuntime) -> Result<(), Fail> {
    let whole = long_chain(rt.alloc())?;
    assert!(rt; stay(rt.alloc(), &whole));
    Ok(())
}

#[test]
fn a_long_chain_goes_on_beside_what_was_frozen(rt: HostRuntime) -> Result<(), Fail> {
    let frozen = long_chain(rt.alloc())?.forget(rt.alloc(), 525)?;
    let writes = [put(rt.alloc(), 7, b"z")?];
    let next = frozen.with_commit(rt.alloc(), 1010, &writes)?;
    let goes_on = [Look::ShowsFrom(52), Look::At(1010, Some("z"))];
    assert!(rt; first_unseen(rt.alloc(), &next, &goes_on).is_none());
    let is_left = [Look::At(1010, None), Look::Last(1000)];
    assert!(rt; first_unseen(rt.alloc(), &frozen, &is_left).is_none());
    Ok(())
}

/// Each of the first records of relation 1 is a, one time after another.
fn many_keys(alloc: Global, count: u16) -> Result<Frozen, Fail>
    ensures { IfOk result (λ f. latest f ≤ count) }
{
    let mut frozen = Frozen::new();
    for number in 0..count {
        let record = u64::from(number);
        let writes = [put(alloc, record, b"a")?];
        frozen = frozen.with_commit(alloc, record + 1, &writes)?;
    }
    Ok(frozen)
}

const STAYS: &[Look] = &[
    Look::At(2000, Some("a")),
    Look::Last(8),
    Look::Count(1, 2000, 1024),
    Look::Count(1, 16, 16),
];

#[test]
fn a_frozen_view_of_many_keys_stays(rt: HostRuntime) -> Result<(), Fail> {
    let frozen = many_keys(rt.alloc(), 1024)?;
    let writes = [put(rt.alloc(), 7, b"z")?];
    let next = frozen.with_commit(rt.alloc(), 2000, &writes)?;
    assert!(rt; first_unseen(rt.alloc(), &frozen, STAYS).is_none());
    assert!(rt;
        is_text(next.at(SEVEN, 2000), Some("z")) && is_text(next.at(SEVEN, 1999), Some("a"))
    );
    Ok(())
}
