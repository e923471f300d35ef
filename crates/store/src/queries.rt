//! Queries.
ghost use Rattle.store.specs.Calls.{AnswersAtView, AnswersScanAt, AnswersRows, AnswersScanRows};

use crate::store::Store;
use chains::SharedValue;
use disk::Disk;
use history::{Key, Version};
use timequery::{QueryFault, View};

impl<D: Disk> Store<D> {
    /// The value of a key at a time in microseconds since 1970, as the view's moment knows it. Only below
    /// the view's reclaim mark the disk is read. `Stranger` comes first, then `BeforeKept`, then `NotYet`;
    /// `Device`, `NoMemory` and `Damaged` where they are met.
    pub fn at(
        &mut self,
        view: &View,
        key: Key,
        time: u64,
    ) -> Result<Option<SharedValue>, QueryFault>
        ensures { AnswersAtView D.tells self.old view.now key time result self.new }
    {
        let mark = self.transactions.mark();
        self.archived
            .archive
            .at(mark, &mut self.disk, view, key, time)
    }

    /// The records of a relation that have a value at a time in microseconds since 1970, in rising
    /// order, with their values, as the view's moment knows them. The refusals are those of `at`.
    pub fn scan_at(
        &mut self,
        view: &View,
        relation: u16,
        time: u64,
    ) -> Result<Vec<(u64, SharedValue)>, QueryFault>
        ensures { AnswersScanAt D.tells self.old view.now relation time result self.new }
    {
        let mark = self.transactions.mark();
        self.archived
            .archive
            .scan_at(self.alloc, mark, &mut self.disk, view, relation, time)
    }

    /// The rows of a key from `a` up to `b` in microseconds since 1970, by rising time: of each version
    /// that was valid in between the value, and the times from which and up to which it was. `Stranger`
    /// comes first, then `BeforeKept`, `NotYet` and `EmptyInterval`, and then those of `at`.
    pub fn between(
        &mut self,
        view: &View,
        key: Key,
        a: u64,
        b: u64,
    ) -> Result<Vec<Version<SharedValue>>, QueryFault>
        ensures { AnswersRows D.tells self.old view.now key a b result self.new }
    {
        let mark = self.transactions.mark();
        self.archived
            .archive
            .between(self.alloc, mark, &mut self.disk, view, key, a, b)
    }

    /// The rows of a relation's records from `a` up to `b`, by record and then by time, each with its
    /// record. The refusals are those of `between`.
    pub fn scan_between(
        &mut self,
        view: &View,
        relation: u16,
        a: u64,
        b: u64,
    ) -> Result<Vec<(u64, Version<SharedValue>)>, QueryFault>
        ensures { AnswersScanRows D.tells self.old view.now relation a b result self.new }
    {
        let mark = self.transactions.mark();
        self.archived
            .archive
            .scan_between(self.alloc, mark, &mut self.disk, view, relation, a, b)
    }
}
