//! The walk over the rows of runs.
use crate::search::Bound;
use crate::{ArchiveFault, ArchiveReader, Placed, Row, RunEntry, Wanted};
use disk::Disk;
use history::Version;

impl ArchiveReader {
    ghost use Rattle.std.specs.Prelude.{◌++◌, MatchResult, ◌≡◌, ℕ, ◌+◌, ◌<◌, ◌≤◌, List, Option, IsTrue, IfOk, IfErr, OnOk, length};
    ghost use Rattle.std.specs.List.{flat_map};
    ghost use Rattle.law_image.specs.Reading.{ArchiveRecord};
    ghost use Rattle.archive.specs.Digits.{digits};
    ghost use Rattle.archive.specs.Parts.{IsRight, Keeps};
    ghost use Rattle.archive.specs.Runs.{HoldRuns, RunsEndBy};
    ghost use Rattle.archive.specs.Answers.{is_wanted, row_of, rows_in};
    ghost use Rattle.archive.specs.Readers.{kept_of};
    ghost use Rattle.archive.specs.declared.head.Placed.{Placed};
    ghost use Rattle.archive.specs.Searches.{archive_of, after_query, LooksInto, Reads, Answers, IsFaultIn, IsPlaced, IsSeen, IsPlace, AreSkipped};
    ghost use Rattle.archive.specs.Searches.{heads_to_find};
    ghost use Rattle.archive.specs.Damages.{placed_at, IsHeadSound, IsValueBroken, IfDamaged};
    ghost use Rattle.archive.specs.Traces.{IsOneKey, HasPart, GivesRow, GoesOn, IsSkipBroken, IsWalked, IsWalkBroken, IsOfRuns, IsDamagedRun};

    /// Adds the row of the record with this head, if it has a part in the interval.
    fn add_row<D: Disk, R: Row>(
        &mut self,
        disk: &mut D,
        run: &RunEntry,
        wanted: &Wanted,
        placed: &Placed,
        rows: &mut Vec<R>,
    ) -> Result<(), ArchiveFault>
        requires few { placed.now.number < run.now.slot.records }
        requires place { IsPlace run.now placed.now.number placed.now.place }
        requires wanted { IsTrue (is_wanted wanted.now placed.now.head) }
        ensures looks { LooksInto run.now D.tells (D.state disk.old) (D.state disk.new) (kept_of self.old) (kept_of self.new) result }
        ensures heads { self.new.heads ≡ self.old.heads }
        ensures count { OnOk result (HasPart wanted.now placed.now.head → length rows.new.items ≡ length rows.old.items + 1) }
        ensures only { (records : List ArchiveRecord) (r : ArchiveRecord) → Reads D.tells (kept_of self.old) (D.state disk.old) run.now records
            → IsPlaced records r placed.now → Answers result (λ _. rows.new.items ≡ rows.old.items ++ row_of R.shown wanted.now r) }
        ensures exact { IsTrue D.tells → IsRight (kept_of self.old) (archive_of (D.state disk.old))
            → placed.now ≡ placed_at (archive_of (D.state disk.old)) run.now placed.now.number
            → MatchResult result (λ _. (row : List R) × GivesRow R.shown (archive_of (D.state disk.old)) wanted.now run.now placed.now.number row
            × (rows.new.items ≡ rows.old.items ++ row))
            (IfDamaged (λ _. HasPart wanted.now placed.now.head × IsValueBroken (archive_of (D.state disk.old)) run.now placed.now.number)) }
    {
        let from = placed.head.from.max(wanted.a);
        let to = placed.head.to.min(wanted.b);
        if to <= from {
            return Ok(());
        }
        let value = self.read_value(disk, run, placed)?;
        rows.push(R::show(placed.head.key.record, Version { from, to, value }))?;
        Ok(())
    }

    /// Where a walk over the rows of one run goes on after the record with this head.
    fn go_on<D: Disk>(
        &mut self,
        disk: &mut D,
        run: &RunEntry,
        wanted: &Wanted,
        placed: &Placed,
        stride: u64,
    ) -> Result<Bound, ArchiveFault>
        requires few { placed.now.number < run.now.slot.records }
        ensures looks { LooksInto run.now D.tells (D.state disk.old) (D.state disk.new) (kept_of self.old) (kept_of self.new) result }
        ensures rises { self.old.heads ≤ self.new.heads }
        ensures heads { IsOneKey wanted.now → IsTrue (is_wanted wanted.now placed.now.head) → self.new.heads ≡ self.old.heads }
        ensures behind { IfOk result (λ bound. placed.now.number < bound.number) }
        ensures few { IfOk result (λ bound. bound.number ≤ run.now.slot.records) }
        ensures only { (records : List ArchiveRecord) (r : ArchiveRecord) → Reads D.tells (kept_of self.old) (D.state disk.old) run.now records
            → IsPlaced records r placed.now → Answers result (λ bound. AreSkipped records wanted.now placed.now.number bound.number
            × IsSeen records bound.last) }
        ensures exact { (last : Option Placed) → IsTrue D.tells → IsRight (kept_of self.old) (archive_of (D.state disk.old))
            → (placed.now ≡ placed_at (archive_of (D.state disk.old)) run.now placed.now.number)
            × IsHeadSound (archive_of (D.state disk.old)) run.now last placed.now.number
            → MatchResult result (λ bound. GoesOn (archive_of (D.state disk.old)) wanted.now run.now placed.now.number bound.number bound.last)
            (IfDamaged (λ _. IsSkipBroken (archive_of (D.state disk.old)) wanted.now run.now placed.now.number)) }
    {
        match wanted.skip_to(&placed.head) {
            Some(key) => self.count_from(disk, run, placed, &key, wanted.a, stride),
            None => Ok(Bound {
                number: placed.number + 1,
                last: Some(*placed),
            }),
        }
    }

    /// Adds the rows that one run has.
    fn add_rows<D: Disk, R: Row>(
        &mut self,
        disk: &mut D,
        run: &RunEntry,
        wanted: &Wanted,
        rows: &mut Vec<R>,
    ) -> Result<(), ArchiveFault>
        ensures looks { LooksInto run.now D.tells (D.state disk.old) (D.state disk.new) (kept_of self.old) (kept_of self.new) result }
        ensures rises { self.old.heads ≤ self.new.heads }
        ensures heads { IsOneKey wanted.now → OnOk result (self.new.heads + length rows.old.items
            ≤ self.old.heads + (digits run.now.slot.records + 1) + length rows.new.items) }
        ensures only { (records : List ArchiveRecord) → Reads D.tells (kept_of self.old) (D.state disk.old) run.now records
            → Answers result (λ _. rows.new.items ≡ rows.old.items ++ rows_in R.shown wanted.now records) }
        ensures exact { IsTrue D.tells → IsRight (kept_of self.old) (archive_of (D.state disk.old))
            → MatchResult result (λ _. (found : List R) × IsWalked R.shown (archive_of (D.state disk.old)) wanted.now run.now found
            × (rows.new.items ≡ rows.old.items ++ found))
            (IfDamaged (λ _. IsWalkBroken R.shown (archive_of (D.state disk.old)) wanted.now run.now)) }
    {
        let bound = self.count_before(disk, run, &wanted.first, wanted.a)?;
        let mut number = bound.number;
        let mut last = bound.last;
        let mut stride = 0;
        while number < run.slot.records {
            let placed = self.read_head(disk, run, number, &last)?;
            if !wanted.has(&placed.head) {
                break;
            }
            self.add_row(disk, run, wanted, &placed, rows)?;
            let next = self.go_on(disk, run, wanted, &placed, stride)?;
            stride = (next.number - number).saturating_sub(2);
            number = next.number;
            last = next.last;
        }
        Ok(())
    }

    /// The rows that these runs have, one run after another, and in each by record and then by time.
    pub(crate) fn read_rows<D: Disk, R: Row>(
        &mut self,
        disk: &mut D,
        runs: &[RunEntry],
        wanted: &Wanted,
    ) -> Result<Vec<R>, ArchiveFault>
        ensures disk { D.state disk.new ≡ after_query result (D.state disk.old) }
        ensures kept { (limit : ℕ) → RunsEndBy limit runs.now → Keeps limit D.tells (archive_of (D.state disk.old)) (kept_of self.old) (kept_of self.new) }
        ensures damaged { IfErr result (IsFaultIn wanted.now.a runs.now) }
        ensures rises { self.old.heads ≤ self.new.heads }
        ensures heads { IsOneKey wanted.now → IfOk result (λ found. self.new.heads
            ≤ self.old.heads + heads_to_find wanted.now.a runs.now + length found.items) }
        ensures only { (lists : List (List ArchiveRecord)) → IsTrue D.tells → IsRight (kept_of self.old) (archive_of (D.state disk.old))
            → HoldRuns (archive_of (D.state disk.old)) runs.now lists
            → Answers result (λ found. found.items ≡ flat_map (rows_in R.shown wanted.now) lists) }
        ensures exact { IsTrue D.tells → IsRight (kept_of self.old) (archive_of (D.state disk.old))
            → MatchResult result (λ found. IsOfRuns (IsWalked R.shown (archive_of (D.state disk.old)) wanted.now) wanted.now.a runs.now found.items)
            (IfDamaged (IsDamagedRun (IsWalked R.shown (archive_of (D.state disk.old)) wanted.now)
            (IsWalkBroken R.shown (archive_of (D.state disk.old)) wanted.now) wanted.now.a runs.now)) }
    {
        let mut rows = Vec::new(self.alloc);
        for run in runs {
            if run.slot.upto <= wanted.a {
                continue;
            }
            self.add_rows(disk, run, wanted, &mut rows)?;
        }
        Ok(rows)
    }
}
