//! Queries of memory and of the archive together.
ghost use Rattle.std.specs.Prelude.{◌≡◌, ◌≤◌, ◌<◌, ◌+◌, ◌++◌, ℕ, List, IsTrue, IfOk, IfErr, MatchResult, Ok, length};
ghost use Rattle.archive.specs.Parts.{IsRight, Keeps};
ghost use Rattle.archive.specs.Readers.{kept_of};
ghost use Rattle.archive.specs.Runs.{RunsEndBy};
ghost use Rattle.archive.specs.Searches.{archive_of, heads_to_find};
ghost use Rattle.archive.specs.Traces.{IsFindDamaged, IsDamagedRun, AreRowsOf, AreRowsBroken, AreScanRowsOf, AreScanRowsBroken};
ghost use Rattle.chains.specs.KeyWrites.{writes_of};
ghost use Rattle.floors.specs.Floors.{floor_at};
ghost use Rattle.chains.specs.Rows.{rows_in, scanned_rows};
ghost use Rattle.chains.specs.Scans.{scanned};
ghost use Rattle.history.specs.Answers.{at_answer, between_answer, IsScanAtAnswer, IsScanBetweenAnswer};
ghost use Rattle.history.specs.Histories.{History};
ghost use Rattle.history.specs.Key.{key_of};
ghost use Rattle.history.specs.Time.{value_at};
ghost use Rattle.history.specs.Versions as versions;
ghost use Rattle.archive.specs.Answers.{versions_in, rows_of};
ghost use Rattle.archive.specs.Runs.{HoldRuns};
ghost use Rattle.law_image.specs.Reading.{ArchiveRecord};
ghost use Rattle.law_image.specs.Values as values;
ghost use Rattle.std.specs.List.Sorted.{IsNonDecreasingBy};
ghost use Rattle.timequery.specs.Faults.{after_query};
ghost use Rattle.timequery.specs.Homes.{ReadsHistory, Answers, IfDamaged, RefusesRuns, RefusesAt, RefusesRows, IsValueFound, AreRowsFound, AreOfBoth};
ghost use Rattle.timequery.specs.Homes.{AreValuesFound, AreScanRowsFound, recent_rows};
ghost use Rattle.timequery.specs.View.{mark_of, AnswersAt, AnswersBetween};

use crate::fault::QueryFault;
use crate::rows::{ScanRow, add_rows_after, merged, scan_rows_after, shared_rows, values_of};
use crate::view::View;
use archive::ArchiveReader;
use chains::SharedValue;
use disk::Disk;
use history::{Key, Version};
use std::alloc::Global;

impl View {
    /// The value of a key at a time in microseconds since 1970, from the floor up to the last commit. The
    /// runs of the archive are read only below the reclaim mark, and only where memory has no value; a
    /// run whose `upto` is at most the time is not.
    pub fn value_at<D: Disk>(
        &self,
        reader: &mut ArchiveReader,
        disk: &mut D,
        key: Key,
        time: u64,
    ) -> Result<Option<SharedValue>, QueryFault>
        ensures disk { D.state disk.new ≡ after_query result (D.state disk.old) }
        ensures kept { (limit : ℕ) → RunsEndBy limit self.now.runs
            → Keeps limit D.tells (archive_of (D.state disk.old)) (kept_of reader.old) (kept_of reader.new) }
        ensures heads { reader.new.heads ≤ reader.old.heads + heads_to_find time self.now.runs }
        ensures refused { IfErr result (RefusesAt self.now key.relation time) }
        ensures recent { self.now.reclaimed ≤ time → (reader.new ≡ reader.old)
            × IfOk result (λ o. AnswersAt self.now key.relation time o (value_at (writes_of self.now.state key) time)) }
        ensures only { (h : History values.Value) → ReadsHistory D.tells (kept_of reader.old) (D.state disk.old) self.now h
            → Answers result (λ o. at_answer h (floor_at self.now.floors) key time ≡ Ok o) }
        ensures exact { IsTrue D.tells → IsRight (kept_of reader.old) (archive_of (D.state disk.old))
            → MatchResult result (IsValueFound (archive_of (D.state disk.old)) self.now key time)
            (IfDamaged (IsFindDamaged (archive_of (D.state disk.old)) self.now.runs key time)) }
    {
        self.check_time(key.relation, time)?;
        if let Some(value) = self.state.at(key, time) {
            return Ok(Some(value.share()?));
        }
        if self.reclaimed <= time {
            return Ok(None);
        }
        match reader.find(disk, self.runs.as_slice(), &key, time)? {
            None => Ok(None),
            Some(value) => Ok(Some(SharedValue::new(value))),
        }
    }

    // Up to where memory is asked for the rows up to `b`, so that what ends after the runs' mark is seen to.
    fn end_in_memory(&self, b: u64) -> u64
        ensures later { b ≤ result }
        ensures past_mark { mark_of self.now.runs < result }
    {
        b.max(self.runs.archive_mark() + 1)
    }

    /// The rows of a key from `a` up to `b` in microseconds since 1970, by rising time: the part of each
    /// version that lies in the interval, with its value. Below the reclaim mark what ended by the mark of
    /// the runs is read from them, and the rest from memory; a run whose `upto` is at most `a` is not read.
    pub fn rows_between<D: Disk>(
        &self,
        alloc: Global,
        reader: &mut ArchiveReader,
        disk: &mut D,
        key: Key,
        a: u64,
        b: u64,
    ) -> Result<Vec<Version<SharedValue>>, QueryFault>
        ensures disk { D.state disk.new ≡ after_query result (D.state disk.old) }
        ensures kept { (limit : ℕ) → RunsEndBy limit self.now.runs
            → Keeps limit D.tells (archive_of (D.state disk.old)) (kept_of reader.old) (kept_of reader.new) }
        ensures heads { IfOk result (λ found. reader.new.heads ≤ reader.old.heads + heads_to_find a self.now.runs + length found.items) }
        ensures refused { IfErr result (RefusesRows self.now key.relation a b) }
        ensures recent { self.now.reclaimed ≤ a → (reader.new ≡ reader.old)
            × IfOk result (λ found. AnswersBetween self.now key.relation a b found.items (rows_in self.now.state a b key)) }
        ensures only { (h : History values.Value) → ReadsHistory D.tells (kept_of reader.old) (D.state disk.old) self.now h
            → Answers result (λ found. between_answer h (floor_at self.now.floors) key a b ≡ Ok found.items) }
        ensures exact { IsTrue D.tells → IsRight (kept_of reader.old) (archive_of (D.state disk.old))
            → MatchResult result (λ found. AreRowsFound (archive_of (D.state disk.old)) self.now key a b found.items)
            (IfDamaged (IsDamagedRun (AreRowsOf (archive_of (D.state disk.old)) key a b)
            (AreRowsBroken (archive_of (D.state disk.old)) key a b) a self.now.runs)) }
    {
        self.check_interval(key.relation, a, b)?;
        if self.reclaimed <= a {
            return Ok(self.state.rows(alloc, key, a, b)?);
        }
        let archived = reader.rows(disk, self.runs.as_slice(), &key, a, b)?;
        let mut found = shared_rows(alloc, archived)?;
        let recent = self.state.rows(alloc, key, a, self.end_in_memory(b))?;
        add_rows_after(&mut found, recent, self.runs.archive_mark(), a, b)?;
        Ok(found)
    }

    // The rows of a relation's records from `a` up to `b`, by record and then by time, each with its
    // record: what ended by the mark of the runs from them, and the rest from memory.
    fn scan_both<D: Disk>(
        &self,
        alloc: Global,
        reader: &mut ArchiveReader,
        disk: &mut D,
        relation: u16,
        a: u64,
        b: u64,
    ) -> Result<Vec<ScanRow>, QueryFault>
        ensures disk { D.state disk.new ≡ after_query result (D.state disk.old) }
        ensures kept { (limit : ℕ) → RunsEndBy limit self.now.runs
            → Keeps limit D.tells (archive_of (D.state disk.old)) (kept_of reader.old) (kept_of reader.new) }
        ensures refused { IfErr result (RefusesRuns a self.now.runs) }
        ensures in_order { IfOk result (λ found. IsNonDecreasingBy (λ row. row.0) found.items) }
        ensures only { (lists : List (List ArchiveRecord)) → IsTrue D.tells → IsRight (kept_of reader.old) (archive_of (D.state disk.old))
            → HoldRuns (archive_of (D.state disk.old)) self.now.runs lists
            → Answers result (λ found. (number : ℕ) → rows_of number found.items
            ≡ versions.rows (versions_in (key_of relation number) lists) a b ++ recent_rows self.now a b (key_of relation number)) }
        ensures exact { IsTrue D.tells → IsRight (kept_of reader.old) (archive_of (D.state disk.old))
            → MatchResult result (λ found. AreOfBoth (archive_of (D.state disk.old)) self.now relation a b found.items)
            (IfDamaged (IsDamagedRun (AreScanRowsOf (archive_of (D.state disk.old)) relation a b)
            (AreScanRowsBroken (archive_of (D.state disk.old)) relation a b) a self.now.runs)) }
    {
        let archived = reader.scan(disk, self.runs.as_slice(), relation, a, b)?;
        let recent = self
            .state
            .scan_rows(alloc, relation, a, self.end_in_memory(b))?;
        let recent = scan_rows_after(alloc, recent, self.runs.archive_mark(), a, b)?;
        Ok(merged(alloc, archived, recent)?)
    }

    /// The records of a relation that have a value at a time in microseconds since 1970, in rising order,
    /// with their values. Below the reclaim mark the runs are read too, but for those whose `upto` is at
    /// most the time.
    pub fn values_at<D: Disk>(
        &self,
        alloc: Global,
        reader: &mut ArchiveReader,
        disk: &mut D,
        relation: u16,
        time: u64,
    ) -> Result<Vec<(u64, SharedValue)>, QueryFault>
        ensures disk { D.state disk.new ≡ after_query result (D.state disk.old) }
        ensures kept { (limit : ℕ) → RunsEndBy limit self.now.runs
            → Keeps limit D.tells (archive_of (D.state disk.old)) (kept_of reader.old) (kept_of reader.new) }
        ensures refused { IfErr result (RefusesAt self.now relation time) }
        ensures recent { self.now.reclaimed ≤ time → (reader.new ≡ reader.old)
            × IfOk result (λ found. AnswersAt self.now relation time found.items (scanned relation time self.now.state)) }
        ensures only { (h : History values.Value) → ReadsHistory D.tells (kept_of reader.old) (D.state disk.old) self.now h
            → Answers result (λ found. IsScanAtAnswer h (floor_at self.now.floors) relation time (Ok found.items)) }
        ensures exact { IsTrue D.tells → IsRight (kept_of reader.old) (archive_of (D.state disk.old))
            → MatchResult result (λ found. AreValuesFound (archive_of (D.state disk.old)) self.now relation time found.items)
            (IfDamaged (IsDamagedRun (AreScanRowsOf (archive_of (D.state disk.old)) relation time (time + 1))
            (AreScanRowsBroken (archive_of (D.state disk.old)) relation time (time + 1)) time self.now.runs)) }
    {
        self.check_time(relation, time)?;
        if self.reclaimed <= time {
            return Ok(self.state.scan(alloc, relation, time)?);
        }
        let rows = self.scan_both(alloc, reader, disk, relation, time, time + 1)?;
        Ok(values_of(alloc, rows)?)
    }

    /// The rows of a relation's records from `a` up to `b` in microseconds since 1970, by record and then
    /// by time, each with its record. Below the reclaim mark the runs are read too, but for those whose
    /// `upto` is at most `a`.
    pub fn scan_rows_between<D: Disk>(
        &self,
        alloc: Global,
        reader: &mut ArchiveReader,
        disk: &mut D,
        relation: u16,
        a: u64,
        b: u64,
    ) -> Result<Vec<(u64, Version<SharedValue>)>, QueryFault>
        ensures disk { D.state disk.new ≡ after_query result (D.state disk.old) }
        ensures kept { (limit : ℕ) → RunsEndBy limit self.now.runs
            → Keeps limit D.tells (archive_of (D.state disk.old)) (kept_of reader.old) (kept_of reader.new) }
        ensures refused { IfErr result (RefusesRows self.now relation a b) }
        ensures recent { self.now.reclaimed ≤ a → (reader.new ≡ reader.old)
            × IfOk result (λ found. AnswersBetween self.now relation a b found.items (scanned_rows relation a b self.now.state)) }
        ensures only { (h : History values.Value) → ReadsHistory D.tells (kept_of reader.old) (D.state disk.old) self.now h
            → Answers result (λ found. IsScanBetweenAnswer h (floor_at self.now.floors) relation a b (Ok found.items)) }
        ensures exact { IsTrue D.tells → IsRight (kept_of reader.old) (archive_of (D.state disk.old))
            → MatchResult result (λ found. AreScanRowsFound (archive_of (D.state disk.old)) self.now relation a b found.items)
            (IfDamaged (IsDamagedRun (AreScanRowsOf (archive_of (D.state disk.old)) relation a b)
            (AreScanRowsBroken (archive_of (D.state disk.old)) relation a b) a self.now.runs)) }
    {
        self.check_interval(relation, a, b)?;
        if self.reclaimed <= a {
            return Ok(self.state.scan_rows(alloc, relation, a, b)?);
        }
        self.scan_both(alloc, reader, disk, relation, a, b)
    }
}
