//! The times of a label in one roll.
use crate::{NAME_BYTES, NAME_LEN, Name, ReadsParts, decode_name, is_in_time};
use archive::ArchiveFault;
use disk::Disk;
use log_entries::Roll;

/// Finds the times of a label in rolls, by halving.
#[derive(Clone, Copy, Debug, PartialEq, Eq)]
pub struct NamesReader {
    pub(crate) names: u64,
}

impl NamesReader {
    ghost use Rattle.std.specs.Prelude.{◌≡◌, ◌⊎◌, ℕ, ◌+◌, ◌*◌, ◌<◌, ◌≤◌, false, true, None, Some, IfOk, length};
    ghost use Rattle.archive.specs.Digits.{digits};
    ghost use Rattle.log_entries.specs.Ranges.{IsRoll};
    ghost use Rattle.log_names.specs.Looks.{LooksAt, Follows};
    ghost use Rattle.log_names.specs.Standing.{name_at, name_count, roll_end, first_in};
    ghost use Rattle.log_names.specs.Standing as standing;

    /// A reader that has read nothing yet.
    pub fn new() -> Self
        ensures { result.names ≡ 0 }
    {
        NamesReader { names: 0 }
    }

    /// The names that were read so far. The count stays at its greatest value.
    pub fn names(&self) -> u64
        ensures { result ≡ self.now.names }
    {
        self.names
    }

    /// The n-th name of the roll, if its time is one of a commit no later than `upto`.
    pub(crate) fn read_name<P: ReadsParts, D: Disk>(
        &mut self,
        parts: &mut P,
        disk: &mut D,
        roll: &Roll,
        upto: u64,
        n: u64,
    ) -> Result<Name, ArchiveFault>
        requires is { IsRoll roll.now }
        requires few { n < name_count roll.now }
        ensures looks { LooksAt roll.now.start roll.now.len D.tells (D.state disk.old) (D.state disk.new) (P.kept parts.old) (P.kept parts.new) result }
        ensures rises { self.old.names ≤ self.new.names }
        ensures counted { self.new.names ≤ self.old.names + 1 }
        ensures within { IfOk result (λ name. (0 < name.time) × (name.time ≤ upto)) }
        ensures exact { Follows D.tells (D.state disk.old) (P.kept parts.old) result
            (λ area name. (name ≡ name_at area roll.now.start n) × (standing.is_in_time upto name ≡ true))
            (λ area _. (length area < roll_end roll.now) ⊎ (standing.is_in_time upto (name_at area roll.now.start n) ≡ false)) }
    {
        let mut bytes = [0; NAME_LEN];
        self.names = self.names.saturating_add(1);
        parts.read_at(disk, roll.start, roll.len, NAME_BYTES * n, &mut bytes)?;
        let name = decode_name(&bytes);
        if !is_in_time(&name, upto) {
            return Err(ArchiveFault::Damaged(roll.start));
        }
        Ok(name)
    }

    /// The place of the first name whose label is not below this one, or how many names there are.
    pub(crate) fn first_in<P: ReadsParts, D: Disk>(
        &mut self,
        parts: &mut P,
        disk: &mut D,
        roll: &Roll,
        upto: u64,
        label: u64,
    ) -> Result<u64, ArchiveFault>
        requires { IsRoll roll.now }
        ensures looks { LooksAt roll.now.start roll.now.len D.tells (D.state disk.old) (D.state disk.new) (P.kept parts.old) (P.kept parts.new) result }
        ensures rises { self.old.names ≤ self.new.names }
        ensures few { IfOk result (λ n. n ≤ name_count roll.now) }
        ensures names { self.new.names ≤ self.old.names + digits (name_count roll.now) }
        ensures exact { Follows D.tells (D.state disk.old) (P.kept parts.old) result
            (λ area n. first_in area upto label roll.now ≡ Some n)
            (λ area _. (length area < roll_end roll.now) ⊎ (first_in area upto label roll.now ≡ None)) }
    {
        let mut low = 0;
        let mut high = roll.len / NAME_BYTES;
        while low < high {
            let middle = low + (high - low) / 2;
            let name = self.read_name(parts, disk, roll, upto, middle)?;
            if name.label < label {
                low = middle + 1;
            } else {
                high = middle;
            }
        }
        Ok(low)
    }
}
