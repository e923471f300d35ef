//! Views and the queries over them, and the times of a label.
ghost use Rattle.std.specs.Prelude.{◌≡◌, IfOk};
ghost use Rattle.any_store.specs.Queries.{IsViewOf, AnswersAtView, AnswersScanAt, AnswersRows, AnswersScanRows, AnswersTimes, has_rolls};
ghost use Rattle.any_store.specs.Values.{with_disk};

use crate::any::Store;
use crate::engine::Engine;
use chains::SharedValue;
use disk::Disk;
use history::{Key, Version};
use std::alloc::AllocError;
use timequery::{QueryFault, View};

impl<D: Disk> Store<D> {
    /// A view of what is published now, which later commits do not change, and no job: it shares the
    /// versions in memory and the runs of the log, and its floors are those of now.
    pub fn view(&self) -> Result<View, AllocError>
        ensures { IfOk result (IsViewOf self.now) }
    {
        match &self.engine {
            Engine::Slots(store) => store.view(),
            Engine::Log(store) => store.view(),
        }
    }

    /// Ends a view.
    pub fn end(&mut self, view: View)
        ensures { self.new ≡ self.old }
    {
        view.spend();
    }

    /// The value of a key at a time in microseconds since 1970, as the view's moment knows it. Only below
    /// the view's reclaim mark the disk is read. `Stranger` comes first, then `BeforeKept`, then `NotYet`;
    /// `Device`, `NoMemory` and `Damaged` where they are met.
    pub fn at(
        &mut self,
        view: &View,
        key: Key,
        time: u64,
    ) -> Result<Option<SharedValue>, QueryFault>
        ensures { AnswersAtView D.tells self.old view.now key time result self.new }
    {
        match &mut self.engine {
            Engine::Slots(store) => store.at(view, key, time),
            Engine::Log(store) => store.at(view, key, time),
        }
    }

    /// The records of a relation that have a value at a time in microseconds since 1970, in rising
    /// order, with their values, as the view's moment knows them. The refusals are those of `at`.
    pub fn scan_at(
        &mut self,
        view: &View,
        relation: u16,
        time: u64,
    ) -> Result<Vec<(u64, SharedValue)>, QueryFault>
        ensures { AnswersScanAt D.tells self.old view.now relation time result self.new }
    {
        match &mut self.engine {
            Engine::Slots(store) => store.scan_at(view, relation, time),
            Engine::Log(store) => store.scan_at(view, relation, time),
        }
    }

    /// The rows of a key from `a` up to `b` in microseconds since 1970, by rising time: of each
    /// version that was valid in between the value, and the times from which and up to which it
    /// was. `Stranger` comes first, then `EmptyInterval`, then the refusals of `at`.
    pub fn between(
        &mut self,
        view: &View,
        key: Key,
        a: u64,
        b: u64,
    ) -> Result<Vec<Version<SharedValue>>, QueryFault>
        ensures { AnswersRows D.tells self.old view.now key a b result self.new }
    {
        match &mut self.engine {
            Engine::Slots(store) => store.between(view, key, a, b),
            Engine::Log(store) => store.between(view, key, a, b),
        }
    }

    /// The rows of a relation from `a` up to `b`, by record and then by rising time. The refusals are
    /// those of `between`.
    pub fn scan_between(
        &mut self,
        view: &View,
        relation: u16,
        a: u64,
        b: u64,
    ) -> Result<Vec<(u64, Version<SharedValue>)>, QueryFault>
        ensures { AnswersScanRows D.tells self.old view.now relation a b result self.new }
    {
        match &mut self.engine {
            Engine::Slots(store) => store.scan_between(view, relation, a, b),
            Engine::Log(store) => store.scan_between(view, relation, a, b),
        }
    }

    /// The times of the published commits with a label, rising, in microseconds since 1970. Where the log
    /// lies in the heap those up to its reclaim mark are read in the archive: `Device`, `NoMemory` and
    /// `Damaged` where they are met. Else `NoMemory` alone is a refusal.
    pub fn times_of(&mut self, label: u64) -> Result<Vec<u64>, QueryFault>
        ensures { AnswersTimes D.tells self.old label result self.new }
    {
        match &mut self.engine {
            Engine::Slots(store) => Ok(store.times_of(label)?),
            Engine::Log(store) => store.times_of(label),
        }
    }

    /// The same where the archive is read on this disk, in place of the store's. What it holds is the caller's to
    /// see to.
    pub fn times_over<E: Disk>(&self, disk: &mut E, label: u64) -> Result<Vec<u64>, QueryFault>
        ensures { AnswersTimes E.tells (with_disk self.now (E.state disk.old)) label result (with_disk self.now (E.state disk.new)) }
    {
        match &self.engine {
            Engine::Slots(slots) => Ok(slots.times_of(label)?),
            Engine::Log(log) => log.times_over(disk, label),
        }
    }

    /// Whether some times of labels are read in the archive: names of commits lie there.
    pub fn has_rolls(&self) -> bool
        ensures { result ≡ has_rolls self.now }
    {
        match &self.engine {
            Engine::Slots(_) => false,
            Engine::Log(log) => log.has_rolls(),
        }
    }
}
