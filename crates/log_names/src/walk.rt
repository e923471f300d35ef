//! The walk over the names of a label, in one roll and in several.
use crate::{NAME_BYTES, NamesReader, ReadsParts, may_follow};
use archive::ArchiveFault;
use disk::Disk;
use log_entries::Roll;
use std::alloc::Global;

impl NamesReader {
    ghost use Rattle.std.specs.Prelude.{◌≡◌, ◌⊎◌, ℕ, ◌+◌, ◌≤◌, ◌<◌, ◌++◌, None, Some, List, IfOk, IfErr, IsTrue, length};
    ghost use Rattle.std.specs.List.{AllByRecursion};
    ghost use Rattle.disk.specs.Calls.{DiskState};
    ghost use Rattle.archive.specs.Digits.{digits};
    ghost use Rattle.archive.specs.Parts.{IsRight, Keeps};
    ghost use Rattle.archive.specs.Searches.{archive_of, after_query, Answers};
    ghost use Rattle.law_image.specs.Reading.{Head};
    ghost use Rattle.log_entries.specs.Ranges.{IsRoll};
    ghost use Rattle.law_log_layout.specs.HeapLog.{PlacedRoll};
    ghost use Rattle.log_names.specs.Looks.{LooksAt, Follows};
    ghost use Rattle.log_names.specs.Standing.{name_count, roll_end, times_behind, times_there, times_in_all, IsInOrder, IsBroken, IsFirstBroken};
    ghost use Rattle.log_names.specs.Rolls.{IsFaultIn, RollsEndBy, names_to_read, HoldsNames, HoldRolls, times_named};

    /// Adds the times of the names of the label from the n-th on, up to the first of another label.
    fn add_times<P: ReadsParts, D: Disk>(
        &mut self,
        parts: &mut P,
        disk: &mut D,
        roll: &Roll,
        upto: u64,
        label: u64,
        first: u64,
        into: &mut Vec<u64>,
    ) -> Result<(), ArchiveFault>
        requires is { IsRoll roll.now }
        requires few { first ≤ name_count roll.now }
        ensures looks { LooksAt roll.now.start roll.now.len D.tells (D.state disk.old) (D.state disk.new) (P.kept parts.old) (P.kept parts.new) result }
        ensures rises { self.old.names ≤ self.new.names }
        ensures front { (times : List ℕ) × (into.new.items ≡ into.old.items ++ times) × (self.new.names ≤ self.old.names + (length times + 1))
            × AllByRecursion (λ time. (0 < time) × (time ≤ upto)) times }
        ensures exact { Follows D.tells (D.state disk.old) (P.kept parts.old) result
            (λ area _. (times : List ℕ) × (times_behind area upto label roll.now first ≡ Some times) × (into.new.items ≡ into.old.items ++ times))
            (λ area _. (length area < roll_end roll.now) ⊎ (times_behind area upto label roll.now first ≡ None)) }
    {
        let count = roll.len / NAME_BYTES;
        let mut last = None;
        let mut n = first;
        while n < count {
            let name = self.read_name(parts, disk, roll, upto, n)?;
            if !may_follow(&last, &name) {
                return Err(ArchiveFault::Damaged(roll.start));
            }
            if name.label != label {
                return Ok(());
            }
            into.push(name.time)?;
            last = Some(name);
            n += 1;
        }
        Ok(())
    }

    /// Adds the times of the label in the roll, where rolls go up to the time `upto` (microseconds since 1970): by
    /// halving it finds the first name whose label is not below this one, and then it reads on while the label is this
    /// one. Damaged, with the roll's start, exactly where a name that it reads has a time of 0 or above `upto`, or where
    /// the walk forward reads one that is not above the one read just before it, by label and then by time. The names that
    /// the halving reads are not compared with others: it does not read them in their order. What is not read is not
    /// looked at. Where there is a fault, times that were found before it may be added.
    pub fn times_in<P: ReadsParts, D: Disk>(
        &mut self,
        parts: &mut P,
        disk: &mut D,
        roll: &Roll,
        upto: u64,
        label: u64,
        into: &mut Vec<u64>,
    ) -> Result<(), ArchiveFault>
        requires { IsRoll roll.now }
        ensures looks { LooksAt roll.now.start roll.now.len D.tells (D.state disk.old) (D.state disk.new) (P.kept parts.old) (P.kept parts.new) result }
        ensures rises { self.old.names ≤ self.new.names }
        ensures front { (times : List ℕ) × (into.new.items ≡ into.old.items ++ times)
            × (self.new.names ≤ self.old.names + (digits (name_count roll.now) + (length times + 1)))
            × AllByRecursion (λ time. (0 < time) × (time ≤ upto)) times }
        ensures only { (heads : List Head) → IsTrue D.tells → IsRight (P.kept parts.old) (archive_of (D.state disk.old))
            → HoldsNames (archive_of (D.state disk.old)) upto roll.now heads
            → Answers result (λ _. into.new.items ≡ into.old.items ++ times_named label heads) }
        ensures exact { Follows D.tells (D.state disk.old) (P.kept parts.old) result
            (λ area _. (times : List ℕ) × (times_there area upto label roll.now ≡ Some times) × (into.new.items ≡ into.old.items ++ times))
            (λ area _. IsBroken area upto label roll.now) }
    {
        let first = self.first_in(parts, disk, roll, upto, label)?;
        self.add_times(parts, disk, roll, upto, label, first, into)?;
        Ok(())
    }

    /// The times of the label in these rolls, one roll after another.
    fn gather<P: ReadsParts, D: Disk>(
        &mut self,
        alloc: Global,
        parts: &mut P,
        disk: &mut D,
        rolls: &[Roll],
        upto: u64,
        label: u64,
    ) -> Result<Vec<u64>, ArchiveFault>
        requires { AllByRecursion IsRoll rolls.now }
        ensures disk { D.state disk.new ≡ after_query result (D.state disk.old) }
        ensures kept { (limit : ℕ) → RollsEndBy limit rolls.now
            → Keeps limit D.tells (archive_of (D.state disk.old)) (P.kept parts.old) (P.kept parts.new) }
        ensures damaged { IfErr result (IsFaultIn rolls.now) }
        ensures rises { self.old.names ≤ self.new.names }
        ensures names { IfOk result (λ found. self.new.names ≤ self.old.names + names_to_read rolls.now + length found.items) }
        ensures within { IfOk result (λ found. AllByRecursion (λ time. (0 < time) × (time ≤ upto)) found.items) }
        ensures exact { Follows D.tells (D.state disk.old) (P.kept parts.old) result
            (λ area found. times_in_all area upto label rolls.now ≡ Some found.items)
            (λ area start. IsFirstBroken area upto label rolls.now start) }
    {
        let mut times = Vec::new(alloc);
        let mut rest = rolls;
        while let [roll, behind @ ..] = rest {
            self.times_in(parts, disk, roll, upto, label, &mut times)?;
            rest = behind;
        }
        Ok(times)
    }

    /// The times of the label in these rolls of a log, by rising time, where rolls go up to the time `upto`
    /// (microseconds since 1970). Damaged, with its start, at the first roll of which a name that is read breaks a rule,
    /// as in `times_in`.
    pub fn times_of_rolls<P: ReadsParts, D: Disk>(
        &mut self,
        alloc: Global,
        parts: &mut P,
        disk: &mut D,
        rolls: &[Roll],
        upto: u64,
        label: u64,
    ) -> Result<Vec<u64>, ArchiveFault>
        requires { AllByRecursion IsRoll rolls.now }
        ensures disk { D.state disk.new ≡ after_query result (D.state disk.old) }
        ensures kept { (limit : ℕ) → RollsEndBy limit rolls.now
            → Keeps limit D.tells (archive_of (D.state disk.old)) (P.kept parts.old) (P.kept parts.new) }
        ensures damaged { IfErr result (IsFaultIn rolls.now) }
        ensures rises { self.old.names ≤ self.new.names }
        ensures names { IfOk result (λ found. self.new.names ≤ self.old.names + names_to_read rolls.now + length found.items) }
        ensures within { IfOk result (λ found. AllByRecursion (λ time. (0 < time) × (time ≤ upto)) found.items) }
        ensures only { (heads : List Head) → IsTrue D.tells → IsRight (P.kept parts.old) (archive_of (D.state disk.old))
            → HoldRolls (archive_of (D.state disk.old)) upto rolls.now heads
            → Answers result (λ found. found.items ≡ times_named label heads) }
        ensures exact { Follows D.tells (D.state disk.old) (P.kept parts.old) result
            (λ area found. (times : List ℕ) × (times_in_all area upto label rolls.now ≡ Some times) × IsInOrder times found.items)
            (λ area start. IsFirstBroken area upto label rolls.now start) }
    {
        let mut times = self.gather(alloc, parts, disk, rolls, upto, label)?;
        times.sort_unstable();
        Ok(times)
    }
}
