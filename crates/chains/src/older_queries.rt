//! What is asked of a key's older writes.
ghost use Rattle.std.specs.Prelude.{◌≡◌, ◌<◌, ◌≤◌, ◌++◌, IfOk, OnOk, find, option_map};
ghost use Rattle.std.specs.Option.{option_copied};
ghost use Rattle.history.specs.Time.{value_at, IsRisingAfter};
ghost use Rattle.history.specs.Versions.{rows, ends_after};
ghost use Rattle.chains.specs.Found.{IsFound};
ghost use Rattle.chains.specs.Rows.{versions_upto, version_of_loan, IsFront};
ghost use Rattle.chains.specs.Writes.{is_after, last_time};

use crate::branching::{begun_by, first_time_or, from_begun};
use crate::ending::ending_in;
use crate::full_chunk::even_place;
use crate::older::{Older, Parts};
use crate::part::{Part, before_part};
use crate::rows::{Rows, add_rows_in};
use crate::shared_value::SharedValue;
use crate::spot::Spot;
use crate::stamped::StampedWrite;
use crate::write::{next_in, value_in};
use history::Version;
use std::alloc::AllocError;

impl Older {
    /// Where the value at a time lies. That the first of the writes was made at `first`, and those after them from
    /// `end` on, says where the search in a full chunk begins, and no more; so does `near` of a search among
    /// branches, where the last such search ended, and where this one does from then on.
    pub(crate) fn spot(&self, first: u64, end: u64, time: u64, near: &mut usize) -> Spot<'_>
        ensures { result ≡ value_at self.now.chunks time }
    {
        if let Some(full) = self.full_chunk() {
            return Spot::full(time, full, even_place(first, end, time));
        }
        let branches = match self.parts() {
            Parts::Writes(writes) => return Spot::of(time, value_in(writes, time)),
            Parts::Branches(branches) => branches,
        };
        let begun = begun_by(branches, *near, time);
        *near = begun;
        if begun == 0 {
            return Spot::of(time, None);
        }
        let branch = &branches[begun - 1];
        let next = first_time_or(&branches[begun..], end);
        branch.writes().spot(branch.first_time(), next, time, near)
    }

    /// The first write made after a time.
    pub(crate) fn next_after(&self, time: u64) -> Option<&StampedWrite>
        ensures { option_copied result ≡ find (is_after time) self.now.chunks }
    {
        let branches = match self.parts() {
            Parts::Writes(writes) => return next_in(writes, time),
            Parts::Branches(branches) => branches,
        };
        let mut rest = from_begun(branches, time);
        while let [branch, behind @ ..] = rest {
            if let Some(write) = branch.writes().next_after(time) {
                return Some(write);
            }
            rest = behind;
        }
        None
    }

    /// The first version that ends after a time; the last one ends at `end`.
    pub(crate) fn ending_after(&self, end: u64, time: u64) -> Option<Version<&SharedValue>>
        ensures { option_map version_of_loan result ≡ find (ends_after time) (versions_upto end self.now.chunks) }
    {
        let branches = match self.parts() {
            Parts::Writes(writes) => return ending_in(writes, end, time),
            Parts::Branches(branches) => branches,
        };
        let mut rest = from_begun(branches, time);
        while let [branch, behind @ ..] = rest {
            let next = first_time_or(behind, end);
            if let Some(version) = branch.writes().ending_after(next, time) {
                return Some(version);
            }
            rest = behind;
        }
        None
    }

    /// Versions of one chunk, from the first one on that ends after the time; the last of all ends at
    /// `end`. It looks at those that begin before the time `near`.
    pub(crate) fn part_after(
        &self,
        end: u64,
        time: u64,
        near: u64,
    ) -> Result<Option<Part>, AllocError>
        ensures { IfOk result (IsFound time (versions_upto end self.now.chunks)) }
    {
        let branches = match self.parts() {
            Parts::Writes(writes) => {
                return match before_part(writes, end, time, near) {
                    None => Ok(None),
                    Some(passed) => Ok(Some(Part::new(self.chunk()?, end, passed))),
                };
            }
            Parts::Branches(branches) => branches,
        };
        let mut rest = from_begun(branches, time);
        while let [branch, behind @ ..] = rest {
            let next = first_time_or(behind, end);
            if let Some(part) = branch.writes().part_after(next, time, near)? {
                return Ok(Some(part));
            }
            rest = behind;
        }
        Ok(None)
    }

    /// The writes of the last chunk that begins by the time, or else of the first one, and when their last
    /// version ends; the last of all ends at `end`.
    pub(crate) fn chunk_at(&self, end: u64, time: u64) -> (&[StampedWrite], u64)
        requires ended { last_time self.now.chunks ≤ end }
        requires later { time < end }
        ensures rising { IsRisingAfter 0 result.0.now }
        ensures is { IsFront time result.1 (versions_upto end self.now.chunks) (versions_upto result.1 result.0.now) }
        ensures upto { result.1 ≤ end }
    {
        let branches = match self.parts() {
            Parts::Writes(writes) => return (writes, end),
            Parts::Branches(branches) => branches,
        };
        match from_begun(branches, time) {
            [] => (&[], end),
            [branch, behind @ ..] => branch.writes().chunk_at(first_time_or(behind, end), time),
        }
    }

    /// Appends to the rows those of its versions, of which the last ends at `end`, from `a` to `b`. It
    /// goes only where there may be some.
    pub(crate) fn add_rows(
        &self,
        found: &mut Rows,
        end: u64,
        a: u64,
        b: u64,
    ) -> Result<(), AllocError>
        ensures { OnOk result (found.new.items ≡ found.old.items ++ rows (versions_upto end self.now.chunks) a b) }
    {
        let branches = match self.parts() {
            Parts::Writes(writes) => return add_rows_in(found, writes, end, a, b),
            Parts::Branches(branches) => branches,
        };
        let mut rest = from_begun(branches, a);
        while let [branch, behind @ ..] = rest {
            if b <= branch.first_time() {
                return Ok(());
            }
            let next = first_time_or(behind, end);
            branch.writes().add_rows(found, next, a, b)?;
            rest = behind;
        }
        Ok(())
    }
}
