//! A walk over the rows of a key, in a loan.
ghost use Rattle.std.specs.Prelude.{◌≡◌, ◌++◌, ◌∷◌, [], ℕ, IfSome, MatchOption};
ghost use Rattle.std.specs.Option.{option_copied};
ghost use Rattle.history.specs.Time.{IsRisingAfter};
ghost use Rattle.history.specs.Versions.{versions, rows};
ghost use Rattle.chains.specs.KeyWrites.{writes_in};
ghost use Rattle.chains.specs.Rows.{versions_upto, version_of_loan, IsNextChunk};

use crate::chain::Chain;
use crate::rows::{are_between, near_count, row_of};
use crate::shared_value::SharedValue;
use crate::stamped::StampedWrite;
use crate::write::first_time_or;
use history::Version;
use std::marker::Model;

/// The rows that are left of a key's from one time up to another, in microseconds since 1970, by rising
/// time: the part of each version that lies in between. The values stay where they are: it takes no
/// memory, and is no holder of a value.
#[derive(Drop)]
pub struct RowWalk<'a> {
    chain: Option<&'a Chain>,
    // The writes that are left of one chunk, whose rows begin at `from` and whose last version ends at
    // `end`; the rows of the chain from then on come behind them.
    left: &'a [StampedWrite],
    from: u64,
    end: u64,
    upto: u64,
}

impl<'a> Model for RowWalk<'a> {
    ghost use Rattle.std.specs.Prelude.{◌++◌, List};
    ghost use Rattle.std.specs.Option.{option_copied};
    ghost use Rattle.history.specs.Versions.{versions, rows};
    ghost use Rattle.chains.specs.Found.{Versions};
    ghost use Rattle.chains.specs.KeyWrites.{writes_in};
    ghost use Rattle.chains.specs.Rows.{versions_upto};

    ghost Value = { Versions };

    ghost view = { λ w. rows (versions_upto w.end w.left.now) w.from w.upto ++ rows (versions (writes_in (option_copied w.chain))) w.end w.upto };

    ghost use Rattle.history.specs.Time.{IsRisingAfter};

    ghost invariant = { λ w. IsRisingAfter 0 w.left.now };
}

/// The first row of these writes, and the writes after it; the last version ends at `end`. It goes no
/// further than the interval.
fn next_row(
    writes: &[StampedWrite],
    end: u64,
    from: u64,
    upto: u64,
) -> Option<(Version<&SharedValue>, &[StampedWrite])>
    requires { IsRisingAfter 0 writes.now }
    ensures rising { IfSome result (λ found. IsRisingAfter 0 found.1.now) }
    ensures is { MatchOption result (rows (versions_upto end writes.now) from upto ≡ [])
        (λ found. rows (versions_upto end writes.now) from upto ≡ version_of_loan found.0 ∷ rows (versions_upto end found.1.now) from upto) }
{
    let mut rest = writes;
    while let [first, after @ ..] = rest {
        if upto <= first.time() {
            return None;
        }
        if let Some(row) = row_of(first, first_time_or(after, end), from, upto) {
            return Some((row, after));
        }
        rest = after;
    }
    None
}

/// The same writes; none where none of them has a value. Where all of them are between the two times it
/// looks at each value in turn, so that they are at hand when they are asked for.
fn looked_at(writes: &[StampedWrite], from: u64, upto: u64) -> &[StampedWrite]
    ensures is { (end : ℕ) → versions_upto end result.now ≡ versions_upto end writes.now }
    ensures rising { IsRisingAfter 0 writes.now → IsRisingAfter 0 result.now }
{
    if are_between(writes, from, upto) && near_count(writes) == 0 {
        return &[];
    }
    writes
}

/// The writes of the chunk of a chain from which rows go on at a time, and when its last version ends;
/// none where no rows are left.
fn next_chunk<'a>(
    chain: Option<&'a Chain>,
    time: u64,
    upto: u64,
) -> Option<(&'a [StampedWrite], u64)>
    ensures { MatchOption result (rows (versions (writes_in (option_copied chain.entry))) time upto ≡ [])
        (λ found. IsNextChunk time upto (versions (writes_in (option_copied chain.entry))) found.0.now found.1) }
{
    if upto <= time {
        return None;
    }
    match chain {
        None => None,
        Some(chain) => chain.chunk_at(time),
    }
}

impl<'a> RowWalk<'a> {
    /// All rows of a chain from `from` up to `upto`, in microseconds since 1970; none where there is no
    /// chain.
    pub(crate) fn new(chain: Option<&'a Chain>, from: u64, upto: u64) -> RowWalk<'a>
        ensures { result ≡ rows (versions (writes_in (option_copied chain.entry))) from upto }
    {
        RowWalk {
            chain,
            left: &[],
            from,
            end: from,
            upto,
        }
    }

    /// The next row, with its value in a loan; none at the end.
    pub fn next(&mut self) -> Option<Version<&'a SharedValue>>
        ensures { MatchOption result ((self.old ≡ []) × (self.new ≡ [])) (λ row. self.old ≡ version_of_loan row ∷ self.new) }
    {
        loop {
            if let Some((row, left)) = next_row(self.left, self.end, self.from, self.upto) {
                self.left = left;
                return Some(row);
            }
            let (left, end) = next_chunk(self.chain, self.end, self.upto)?;
            self.left = looked_at(left, self.end, self.upto);
            self.from = self.end;
            self.end = end;
        }
    }
}
