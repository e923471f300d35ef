//! The search for a version in one run.
use crate::{ArchiveFault, ArchiveReader, Placed, RunEntry, precedes};
use disk::Disk;
use history::Key;
use wire::Value;

/// How many of the first records precede, and what was read last to find it.
#[derive(Clone, Copy, Debug, PartialEq, Eq)]
pub(crate) struct Bound {
    pub number: u64,
    pub last: Option<Placed>,
}

impl ArchiveReader {
    ghost use Rattle.std.specs.Prelude.{MatchResult, ◌≡◌, ℕ, ◌+◌, ◌<◌, ◌≤◌, List, [], ◌∷◌, ◌++◌, true, None, IsTrue, IfOk};
    ghost use Rattle.law_image.specs.Reading.{ArchiveRecord};
    ghost use Rattle.archive.specs.Digits.{digits};
    ghost use Rattle.history.specs.Versions.{standing_at};
    ghost use Rattle.law_image.specs.Facts.{run_versions};
    ghost use Rattle.archive.specs.Parts.{IsRight};
    ghost use Rattle.archive.specs.Readers.{kept_of};
    ghost use Rattle.archive.specs.Searches.{archive_of, LooksInto, Reads, Answers, IsPlaced, IsSeen, IsBound};
    ghost use Rattle.archive.specs.Answers.{precedes as comes_before};
    ghost use Rattle.archive.specs.Damages.{placed_at, IsHeadSound, IfDamaged};
    ghost use Rattle.archive.specs.Traces.{last_of, IsSearched, IsSearchBroken, IsSearchBrokenFrom, IsFoundIn, IsFindBroken};

    /// How many of the first records are of a lesser key, or of this key and ended by this time.
    pub(crate) fn count_before<D: Disk>(
        &mut self,
        disk: &mut D,
        run: &RunEntry,
        key: &Key,
        time: u64,
    ) -> Result<Bound, ArchiveFault>
        ensures looks { LooksInto run.now D.tells (D.state disk.old) (D.state disk.new) (kept_of self.old) (kept_of self.new) result }
        ensures rises { self.old.heads ≤ self.new.heads }
        ensures few { IfOk result (λ bound. bound.number ≤ run.now.slot.records) }
        ensures heads { self.new.heads ≤ self.old.heads + digits run.now.slot.records }
        ensures only { (records : List ArchiveRecord) → Reads D.tells (kept_of self.old) (D.state disk.old) run.now records
            → Answers result (λ bound. IsBound records key.now time bound.number × IsSeen records bound.last) }
        ensures exact { IsTrue D.tells → IsRight (kept_of self.old) (archive_of (D.state disk.old))
            → MatchResult result (λ bound. (read : List ℕ) × IsSearched (archive_of (D.state disk.old)) run.now key.now time read bound.number
            × (bound.last ≡ last_of (archive_of (D.state disk.old)) run.now read))
            (IfDamaged (λ _. IsSearchBroken (archive_of (D.state disk.old)) run.now key.now time)) }
    {
        let mut low = 0;
        let mut high = run.slot.records;
        let mut last = None;
        while low < high {
            let middle = low + (high - low) / 2;
            let placed = self.read_head(disk, run, middle, &last)?;
            last = Some(placed);
            if precedes(&placed.head, key, time) {
                low = middle + 1;
            } else {
                high = middle;
            }
        }
        Ok(Bound { number: low, last })
    }

    /// The same, where the record with this head is one of them: it looks first at those after it,
    /// `stride` records on, and then farther and farther.
    pub(crate) fn count_from<D: Disk>(
        &mut self,
        disk: &mut D,
        run: &RunEntry,
        from: &Placed,
        key: &Key,
        time: u64,
        stride: u64,
    ) -> Result<Bound, ArchiveFault>
        requires few { from.now.number < run.now.slot.records }
        requires before { comes_before key.now time from.now.head ≡ true }
        ensures looks { LooksInto run.now D.tells (D.state disk.old) (D.state disk.new) (kept_of self.old) (kept_of self.new) result }
        ensures rises { self.old.heads ≤ self.new.heads }
        ensures behind { IfOk result (λ bound. from.now.number < bound.number) }
        ensures few { IfOk result (λ bound. bound.number ≤ run.now.slot.records) }
        ensures only { (records : List ArchiveRecord) (r : ArchiveRecord) → Reads D.tells (kept_of self.old) (D.state disk.old) run.now records
            → IsPlaced records r from.now → Answers result (λ bound. IsBound records key.now time bound.number × IsSeen records bound.last) }
        ensures exact { IsTrue D.tells → IsRight (kept_of self.old) (archive_of (D.state disk.old))
            → from.now ≡ placed_at (archive_of (D.state disk.old)) run.now from.now.number
            → IsHeadSound (archive_of (D.state disk.old)) run.now None from.now.number
            → MatchResult result (λ bound. (read : List ℕ) × IsSearched (archive_of (D.state disk.old)) run.now key.now time
            (read ++ from.now.number ∷ []) bound.number
            × (bound.last ≡ last_of (archive_of (D.state disk.old)) run.now (read ++ from.now.number ∷ [])))
            (IfDamaged (λ _. IsSearchBrokenFrom (archive_of (D.state disk.old)) run.now key.now time from.now.number)) }
    {
        let mut low = from.number + 1;
        let mut high = run.slot.records;
        let mut last = Some(*from);
        let mut step = stride;
        let mut next_step = 0_u64;
        while low < high {
            let middle = low + ((high - low) / 2).min(step);
            let placed = self.read_head(disk, run, middle, &last)?;
            last = Some(placed);
            if precedes(&placed.head, key, time) {
                low = middle + 1;
                step = next_step;
                next_step = next_step.saturating_mul(2).saturating_add(1);
            } else {
                high = middle;
            }
        }
        Ok(Bound { number: low, last })
    }

    /// The value of the key's version that is valid at this time, in one run.
    pub(crate) fn find_in<D: Disk>(
        &mut self,
        disk: &mut D,
        run: &RunEntry,
        key: &Key,
        time: u64,
    ) -> Result<Option<Value>, ArchiveFault>
        ensures looks { LooksInto run.now D.tells (D.state disk.old) (D.state disk.new) (kept_of self.old) (kept_of self.new) result }
        ensures rises { self.old.heads ≤ self.new.heads }
        ensures heads { self.new.heads ≤ self.old.heads + (digits run.now.slot.records + 1) }
        ensures only { (records : List ArchiveRecord) → Reads D.tells (kept_of self.old) (D.state disk.old) run.now records
            → Answers result (λ found. found ≡ standing_at (run_versions key.now records) time) }
        ensures exact { IsTrue D.tells → IsRight (kept_of self.old) (archive_of (D.state disk.old))
            → MatchResult result (IsFoundIn (archive_of (D.state disk.old)) run.now key.now time)
            (IfDamaged (λ _. IsFindBroken (archive_of (D.state disk.old)) run.now key.now time)) }
    {
        let bound = self.count_before(disk, run, key, time)?;
        if bound.number == run.slot.records {
            return Ok(None);
        }
        let placed = self.read_head(disk, run, bound.number, &bound.last)?;
        if placed.head.key != *key {
            return Ok(None);
        }
        if time < placed.head.from {
            return Ok(None);
        }
        Ok(Some(self.read_value(disk, run, &placed)?))
    }
}
