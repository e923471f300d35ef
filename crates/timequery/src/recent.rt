//! What a view answers from memory alone, over a store that may have given up versions.
ghost use Rattle.std.specs.Prelude.{◌≤◌, MatchResult};
ghost use Rattle.std.specs.Option.{option_copied};
ghost use Rattle.history.specs.Time.{value_at};
ghost use Rattle.chains.specs.KeyWrites.{writes_of};
ghost use Rattle.chains.specs.Rows.{rows_in, scanned_rows};
ghost use Rattle.chains.specs.Scans.{scanned};
ghost use Rattle.timequery.specs.View.{RefusesRecent, RefusesRecentScan, RefusesRecentRows, RefusesRecentWalk, NeedsRuns, AnswersAt, AnswersBetween};

use crate::fault::QueryFault;
use crate::view::View;
use chains::{RowWalk, SharedValue};
use history::{Key, Version};
use std::alloc::Global;

impl View {
    /// Whether memory has every version that is valid at this time or later.
    fn check_memory(&self, time: u64) -> Result<(), QueryFault>
        ensures { MatchResult result (λ _. self.now.reclaimed ≤ time) (NeedsRuns self.now time) }
    {
        if time < self.reclaimed {
            return Err(QueryFault::NeedsDisk);
        }
        Ok(())
    }

    /// The value of a key at a time in microseconds since 1970, from memory alone: from the reclaim mark
    /// and the floor up to the last commit.
    pub fn recent(&self, key: Key, time: u64) -> Result<Option<&SharedValue>, QueryFault>
        ensures { MatchResult result (λ o. (self.now.reclaimed ≤ time)
            × AnswersAt self.now key.relation time (option_copied o) (value_at (writes_of self.now.state key) time))
            (RefusesRecent self.now key.relation time) }
    {
        self.check_time(key.relation, time)?;
        self.check_memory(time)?;
        Ok(self.state.at(key, time))
    }

    /// The records of a relation that have a value at a time, in rising order, with their values, from
    /// memory alone. The times are those of `recent`.
    pub fn recent_scan(
        &self,
        alloc: Global,
        relation: u16,
        time: u64,
    ) -> Result<Vec<(u64, SharedValue)>, QueryFault>
        ensures { MatchResult result (λ found. (self.now.reclaimed ≤ time)
            × AnswersAt self.now relation time found.items (scanned relation time self.now.state)) (RefusesRecentScan self.now relation time) }
    {
        self.check_time(relation, time)?;
        self.check_memory(time)?;
        Ok(self.state.scan(alloc, relation, time)?)
    }

    /// The rows of a key from `a` up to `b` in microseconds since 1970, by rising time, from memory alone:
    /// the part of each version that lies in the interval, with its value.
    pub fn recent_between(
        &self,
        alloc: Global,
        key: Key,
        a: u64,
        b: u64,
    ) -> Result<Vec<Version<SharedValue>>, QueryFault>
        ensures { MatchResult result (λ rows. (self.now.reclaimed ≤ a) × AnswersBetween self.now key.relation a b rows.items (rows_in self.now.state a b key))
            (RefusesRecentRows self.now key.relation a b) }
    {
        self.check_interval(key.relation, a, b)?;
        self.check_memory(a)?;
        Ok(self.state.rows(alloc, key, a, b)?)
    }

    /// The same rows in a loan of the view: a walk over them, which takes no memory, and is no holder of
    /// their values.
    pub fn recent_rows(&self, key: Key, a: u64, b: u64) -> Result<RowWalk<'_>, QueryFault>
        ensures { MatchResult result (λ walk. (self.now.reclaimed ≤ a) × AnswersBetween self.now key.relation a b walk (rows_in self.now.state a b key))
            (RefusesRecentWalk self.now key.relation a b) }
    {
        self.check_interval(key.relation, a, b)?;
        self.check_memory(a)?;
        Ok(self.state.row_walk(key, a, b))
    }

    /// The rows of a relation's records from `a` up to `b`, by record and then by time, each with its
    /// record, from memory alone.
    pub fn recent_scan_between(
        &self,
        alloc: Global,
        relation: u16,
        a: u64,
        b: u64,
    ) -> Result<Vec<(u64, Version<SharedValue>)>, QueryFault>
        ensures { MatchResult result (λ rows. (self.now.reclaimed ≤ a)
            × AnswersBetween self.now relation a b rows.items (scanned_rows relation a b self.now.state)) (RefusesRecentRows self.now relation a b) }
    {
        self.check_interval(relation, a, b)?;
        self.check_memory(a)?;
        Ok(self.state.scan_rows(alloc, relation, a, b)?)
    }
}
