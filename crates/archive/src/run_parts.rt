//! What a reader reads of one run: a part, a place, a head and a value.
ghost use Rattle.std.specs.Prelude.{◌≡◌, ◌↔◌, ◌+◌, ◌≤◌, IsTrue, MatchResult};
ghost use Rattle.archive.specs.Searches.{IsPlace};

use crate::head::{HEAD_BYTES, HEAD_LEN};
use crate::value::decode_value;
use crate::{
    ArchiveFault, ArchiveReader, Placed, RunEntry, decode_head, is_in_range, is_place,
    may_follow_last,
};
use byteorder::{ByteOrder, LittleEndian};
use disk::Disk;
use wire::{LEAST_RECORD, MOST_RECORD, Value};

/// The most bytes of a value as it is spelled, and how many of a short one are read by way of a small buffer.
const MOST_SPELLED: usize = 4097;

const SHORT_SPELLED: usize = 256;

/// The place, if records leave room for it as that of the n-th.
fn check_place(run: &RunEntry, n: u64, place: u64) -> Result<u64, ArchiveFault>
    requires { n ≤ run.now.slot.records }
    ensures { MatchResult result (λ found. (found ≡ place) × IsPlace run.now n place)
        (λ fault. (fault ≡ ArchiveFault.Damaged run.now.slot.start) × ¬ IsPlace run.now n place) }
{
    if !is_place(run, n, place) {
        return Err(ArchiveFault::Damaged(run.slot.start));
    }
    Ok(place)
}

/// Whether a record may lie from this place to that end.
fn is_record_room(place: u64, end: u64) -> bool
    ensures { IsTrue result ↔ (place + 28 ≤ end) × (end ≤ place + 4123) }
{
    place <= end && LEAST_RECORD <= end - place && end - place <= MOST_RECORD
}

impl ArchiveReader {
    ghost use Rattle.std.specs.Prelude.{◌⊎◌, ◌≢◌, MatchResult, ◌≡◌, ℕ, ◌+◌, ◌-◌, ◌^◌, ◌<◌, ◌≤◌, List, IsTrue, Some, IfOk, OnOk, min, length, slice_get};
    ghost use Rattle.std.specs.Prelude.{slice_range};
    ghost use Rattle.law_image.specs.Reading.{ArchiveRecord};
    ghost use Rattle.wire.specs.Values.{IsValue, value_bytes};
    ghost use Rattle.archive.specs.Parts.{IsRight};
    ghost use Rattle.archive.specs.Runs.{place_of, run_end};
    ghost use Rattle.archive.specs.Readers.{kept_of};
    ghost use Rattle.archive.specs.Searches.{archive_of, LooksInto, Reads, Answers, IsPlaced, IsSeen, IsPlace};
    ghost use Rattle.archive.specs.Searches as searches;
    ghost use Rattle.archive.specs.Damages.{entry_at, placed_at, IsHeadSound, IsValueAt, IsEntryThere, IsEntryBroken, IsHeadBroken, IsValueBroken, IfDamaged};

    /// The bytes of a part of the run.
    fn read_part<D: Disk>(
        &mut self,
        disk: &mut D,
        run: &RunEntry,
        at: u64,
        buf: &mut [u8],
    ) -> Result<(), ArchiveFault>
        requires inside { at + length buf.old ≤ run.now.slot.len }
        ensures looks { LooksInto run.now D.tells (D.state disk.old) (D.state disk.new) (kept_of self.old) (kept_of self.new) result }
        ensures heads { self.new.heads ≡ self.old.heads }
        ensures only { (records : List ArchiveRecord) → Reads D.tells (kept_of self.old) (D.state disk.old) run.now records
            → Answers result (λ _. buf.new ≡ slice_range (archive_of (D.state disk.old)) (run.now.slot.start + at) (run.now.slot.start + at + length buf.old)) }
        ensures exact { IsTrue D.tells → IsRight (kept_of self.old) (archive_of (D.state disk.old))
            → MatchResult result (λ _. buf.new ≡ slice_range (archive_of (D.state disk.old)) (run.now.slot.start + at)
            (run.now.slot.start + at + length buf.old)) (IfDamaged (λ _. length (archive_of (D.state disk.old)) < run_end run.now)) }
    {
        self.blocks.read(disk, run, at, buf)?;
        Ok(())
    }

    /// Where the n-th record begins, or where the last one ends.
    fn read_place<D: Disk>(
        &mut self,
        disk: &mut D,
        run: &RunEntry,
        n: u64,
    ) -> Result<u64, ArchiveFault>
        requires few { n ≤ run.now.slot.records }
        ensures looks { LooksInto run.now D.tells (D.state disk.old) (D.state disk.new) (kept_of self.old) (kept_of self.new) result }
        ensures heads { self.new.heads ≡ self.old.heads }
        ensures place { IfOk result (IsPlace run.now n) }
        ensures only { (records : List ArchiveRecord) → Reads D.tells (kept_of self.old) (D.state disk.old) run.now records
            → Answers result (λ place. place ≡ place_of records n) }
        ensures exact { IsTrue D.tells → IsRight (kept_of self.old) (archive_of (D.state disk.old))
            → MatchResult result (λ place. (place ≡ entry_at (archive_of (D.state disk.old)) run.now n)
            × IsEntryThere (archive_of (D.state disk.old)) run.now n) (IfDamaged (λ _. IsEntryBroken (archive_of (D.state disk.old)) run.now n)) }
    {
        let index = run.slot.len - 8 * run.slot.records;
        if n == run.slot.records {
            return check_place(run, n, index);
        }
        let mut bytes = [0; 8];
        self.read_part(disk, run, index + 8 * n, &mut bytes)?;
        check_place(run, n, LittleEndian::read_u64(&bytes))
    }

    /// The head of the n-th record, by what was read last.
    pub(crate) fn read_head<D: Disk>(
        &mut self,
        disk: &mut D,
        run: &RunEntry,
        n: u64,
        last: &Option<Placed>,
    ) -> Result<Placed, ArchiveFault>
        requires few { n < run.now.slot.records }
        ensures looks { LooksInto run.now D.tells (D.state disk.old) (D.state disk.new) (kept_of self.old) (kept_of self.new) result }
        ensures rises { self.old.heads ≤ self.new.heads }
        ensures heads { self.new.heads ≤ self.old.heads + 1 }
        ensures counted { OnOk result (self.new.heads ≡ min (self.old.heads + 1) (2 ^ 64 - 1)) }
        ensures number { IfOk result (λ placed. placed.number ≡ n) }
        ensures place { IfOk result (λ placed. IsPlace run.now n placed.place) }
        ensures in_range { IfOk result (λ placed. IsTrue (searches.is_in_range placed.head run.now)) }
        ensures follows { IfOk result (λ placed. IsTrue (searches.may_follow_last last.now placed)) }
        ensures only { (records : List ArchiveRecord) (r : ArchiveRecord) → Reads D.tells (kept_of self.old) (D.state disk.old) run.now records
            → slice_get records n ≡ Some r → IsSeen records last.now → Answers result (IsPlaced records r) }
        ensures exact { IsTrue D.tells → IsRight (kept_of self.old) (archive_of (D.state disk.old))
            → MatchResult result (λ placed. (placed ≡ placed_at (archive_of (D.state disk.old)) run.now n)
            × IsHeadSound (archive_of (D.state disk.old)) run.now last.now n)
            (IfDamaged (λ _. IsHeadBroken (archive_of (D.state disk.old)) run.now last.now n)) }
    {
        let place = self.read_place(disk, run, n)?;
        let mut bytes = [0; HEAD_LEN];
        self.heads = self.heads.saturating_add(1);
        self.read_part(disk, run, place, &mut bytes)?;
        let placed = Placed {
            number: n,
            place,
            head: decode_head(&bytes),
        };
        if !is_in_range(&placed.head, run) {
            return Err(ArchiveFault::Damaged(run.slot.start));
        }
        if !may_follow_last(last, &placed) {
            return Err(ArchiveFault::Damaged(run.slot.start));
        }
        Ok(placed)
    }

    /// The value that a part of the run spells, by way of a buffer of that length.
    fn read_fields<D: Disk>(
        &mut self,
        disk: &mut D,
        run: &RunEntry,
        at: u64,
        buf: &mut [u8],
    ) -> Result<Value, ArchiveFault>
        requires inside { at + length buf.old ≤ run.now.slot.len }
        ensures looks { LooksInto run.now D.tells (D.state disk.old) (D.state disk.new) (kept_of self.old) (kept_of self.new) result }
        ensures heads { self.new.heads ≡ self.old.heads }
        ensures only { (records : List ArchiveRecord) (value : List (List ℕ)) (len : ℕ) → Reads D.tells (kept_of self.old) (D.state disk.old) run.now records
            → len ≡ length buf.old → IsValue value → slice_range (archive_of (D.state disk.old)) (run.now.slot.start + at) (run.now.slot.start + at + len)
            ≡ value_bytes value
            → Answers result (λ found. found ≡ value) }
        ensures exact { IsTrue D.tells → IsRight (kept_of self.old) (archive_of (D.state disk.old))
            → MatchResult result (λ value. IsValue value × (slice_range (archive_of (D.state disk.old)) (run.now.slot.start + at)
            (run.now.slot.start + at + length buf.old) ≡ value_bytes value))
            (IfDamaged (λ _. (length (archive_of (D.state disk.old)) < run_end run.now)
            ⊎ ((value : List (List ℕ)) → IsValue value → slice_range (archive_of (D.state disk.old)) (run.now.slot.start + at)
            (run.now.slot.start + at + length buf.old) ≢ value_bytes value))) }
    {
        self.read_part(disk, run, at, buf)?;
        decode_value(self.alloc, run, buf)
    }

    /// The value of the record with this head.
    pub(crate) fn read_value<D: Disk>(
        &mut self,
        disk: &mut D,
        run: &RunEntry,
        placed: &Placed,
    ) -> Result<Value, ArchiveFault>
        requires few { placed.now.number < run.now.slot.records }
        requires place { IsPlace run.now placed.now.number placed.now.place }
        ensures looks { LooksInto run.now D.tells (D.state disk.old) (D.state disk.new) (kept_of self.old) (kept_of self.new) result }
        ensures heads { self.new.heads ≡ self.old.heads }
        ensures only { (records : List ArchiveRecord) (r : ArchiveRecord) → Reads D.tells (kept_of self.old) (D.state disk.old) run.now records
            → IsPlaced records r placed.now → Answers result (λ value. value ≡ r.version.value) }
        ensures exact { IsTrue D.tells → IsRight (kept_of self.old) (archive_of (D.state disk.old))
            → placed.now ≡ placed_at (archive_of (D.state disk.old)) run.now placed.now.number
            → MatchResult result (IsValueAt (archive_of (D.state disk.old)) run.now placed.now.number)
            (IfDamaged (λ _. IsValueBroken (archive_of (D.state disk.old)) run.now placed.now.number)) }
    {
        let end = self.read_place(disk, run, placed.number + 1)?;
        if !is_record_room(placed.place, end) {
            return Err(ArchiveFault::Damaged(run.slot.start));
        }
        let len = (end - placed.place - HEAD_BYTES) as usize;
        self.read_spelled(disk, run, placed.place + HEAD_BYTES, len)
    }

    /// The value that a part of the run of this length spells.
    fn read_spelled<D: Disk>(
        &mut self,
        disk: &mut D,
        run: &RunEntry,
        at: u64,
        len: usize,
    ) -> Result<Value, ArchiveFault>
        requires short { len ≤ 4097 }
        requires inside { at + len ≤ run.now.slot.len }
        ensures looks { LooksInto run.now D.tells (D.state disk.old) (D.state disk.new) (kept_of self.old) (kept_of self.new) result }
        ensures heads { self.new.heads ≡ self.old.heads }
        ensures only { (records : List ArchiveRecord) (value : List (List ℕ)) → Reads D.tells (kept_of self.old) (D.state disk.old) run.now records
            → IsValue value → slice_range (archive_of (D.state disk.old)) (run.now.slot.start + at) (run.now.slot.start + at + len) ≡ value_bytes value
            → Answers result (λ found. found ≡ value) }
        ensures exact { IsTrue D.tells → IsRight (kept_of self.old) (archive_of (D.state disk.old))
            → MatchResult result (λ value. IsValue value × (slice_range (archive_of (D.state disk.old)) (run.now.slot.start + at)
            (run.now.slot.start + at + len) ≡ value_bytes value))
            (IfDamaged (λ _. (length (archive_of (D.state disk.old)) < run_end run.now)
            ⊎ ((value : List (List ℕ)) → IsValue value → slice_range (archive_of (D.state disk.old)) (run.now.slot.start + at)
            (run.now.slot.start + at + len) ≢ value_bytes value))) }
    {
        if len <= SHORT_SPELLED {
            let mut bytes = [0; SHORT_SPELLED];
            return self.read_fields(disk, run, at, &mut bytes[..len]);
        }
        self.read_long(disk, run, at, len)
    }

    /// The same of a long one. It stays a call of its own: its array is cleared, which would take longer
    /// than to read a short value.
    #[inline(never)]
    fn read_long<D: Disk>(
        &mut self,
        disk: &mut D,
        run: &RunEntry,
        at: u64,
        len: usize,
    ) -> Result<Value, ArchiveFault>
        requires short { len ≤ 4097 }
        requires inside { at + len ≤ run.now.slot.len }
        ensures looks { LooksInto run.now D.tells (D.state disk.old) (D.state disk.new) (kept_of self.old) (kept_of self.new) result }
        ensures heads { self.new.heads ≡ self.old.heads }
        ensures only { (records : List ArchiveRecord) (value : List (List ℕ)) → Reads D.tells (kept_of self.old) (D.state disk.old) run.now records
            → IsValue value → slice_range (archive_of (D.state disk.old)) (run.now.slot.start + at) (run.now.slot.start + at + len) ≡ value_bytes value
            → Answers result (λ found. found ≡ value) }
        ensures exact { IsTrue D.tells → IsRight (kept_of self.old) (archive_of (D.state disk.old))
            → MatchResult result (λ value. IsValue value × (slice_range (archive_of (D.state disk.old)) (run.now.slot.start + at)
            (run.now.slot.start + at + len) ≡ value_bytes value))
            (IfDamaged (λ _. (length (archive_of (D.state disk.old)) < run_end run.now)
            ⊎ ((value : List (List ℕ)) → IsValue value → slice_range (archive_of (D.state disk.old)) (run.now.slot.start + at)
            (run.now.slot.start + at + len) ≢ value_bytes value))) }
    {
        let mut bytes = [0; MOST_SPELLED];
        self.read_fields(disk, run, at, &mut bytes[..len])
    }
}
