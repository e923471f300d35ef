//! What a store has of its archive, and the queries over it.
ghost use Rattle.std.specs.Prelude.{◌≡◌, ◌++◌, ◌∷◌, [], IfOk, OnOk, OnErr};
ghost use Rattle.timequery.specs.Archives.{same_run, is_front, with_next_run, IsUnread};
ghost use Rattle.timequery.specs.Asked.{alone, is_own, AnswersAtView, AnswersScanAt, AnswersRows, AnswersScanRows};

use crate::fault::QueryFault;
use crate::runs::Runs;
use crate::view::View;
use archive::{ArchiveReader, RunEntry};
use chains::SharedValue;
use disk::Disk;
use history::{Key, Version};
use std::alloc::{AllocError, Global};
use std::marker::Model;
use std::mem;

/// The runs of the log, and a reader of the archive.
#[derive(Drop)]
pub struct StoreArchive {
    reader: ArchiveReader,
    runs: Runs,
    // While an archive is made: those and its run, so that its end takes no memory.
    next: Runs,
}

impl Model for StoreArchive {
    ghost use Rattle.archive.specs.Readers.{kept_of};
    ghost use Rattle.timequery.specs.Archives.{ArchiveValue};

    ghost Value = { ArchiveValue };

    ghost view = { λ a. record { runs = a.runs; next = a.next; kept = kept_of a.reader } };
}

fn is_same_run(a: &RunEntry, b: &RunEntry) -> bool
    ensures { result ≡ same_run a.now b.now }
{
    a.slot.upto == b.slot.upto
        && a.slot.start == b.slot.start
        && a.slot.len == b.slot.len
        && a.slot.records == b.slot.records
        && a.mark == b.mark
        && a.floors.is(&b.floors)
}

// Whether these runs are the first of the others.
fn is_front(runs: &[RunEntry], others: &[RunEntry]) -> bool
    ensures { result ≡ is_front runs.now others.now }
{
    let mut rest = runs;
    let mut left = others;
    while let [run, after @ ..] = rest {
        let [other, behind @ ..] = left else {
            return false;
        };
        if !is_same_run(run, other) {
            return false;
        }
        rest = after;
        left = behind;
    }
    true
}

impl StoreArchive {
    /// That of a log with these runs, of which nothing is read.
    ///
    /// # Errors
    ///
    /// Where there is no memory for it.
    pub fn new(alloc: Global, runs: Vec<RunEntry>) -> Result<Self, AllocError>
        ensures { IfOk result (IsUnread runs.items) }
    {
        Ok(StoreArchive {
            reader: ArchiveReader::new(alloc)?,
            runs: Runs::from_vec(alloc, runs)?,
            next: Runs::new(),
        })
    }

    /// The runs of the log for one more holder. It takes no memory.
    ///
    /// # Errors
    ///
    /// Where the count of holders is at its end.
    pub fn share_runs(&self) -> Result<Runs, AllocError>
        ensures { IfOk result (λ runs. runs ≡ self.now.runs) }
    {
        self.runs.share()
    }

    /// Makes the place of one more run after those of the log.
    ///
    /// # Errors
    ///
    /// Where there is no memory for it; then nothing has changed.
    pub fn make_place(&mut self, alloc: Global, run: RunEntry) -> Result<(), AllocError>
        ensures ok { OnOk result (self.new ≡ record self.old { next = self.old.runs ++ run ∷ [] }) }
        ensures err { OnErr result (self.new ≡ self.old) }
    {
        self.next = self.runs.with(alloc, run)?;
        Ok(())
    }

    /// The run whose place was made is one of the log's.
    pub fn put_run(&mut self)
        ensures { self.new ≡ with_next_run self.old }
    {
        self.runs = mem::replace(&mut self.next, Runs::new());
    }

    // Whether the store with this mark gave the view: the view carries its mark, and the view's runs are the first of the log.
    fn is_own(&self, mark: u64, view: &View) -> bool
        ensures { result ≡ is_own mark self.now view.now }
    {
        view.mark() == mark && is_front(view.runs(), self.runs.as_slice())
    }

    /// The value of a key at a time in microseconds since 1970, as the view's moment knows it, of the store with this store mark. Only
    /// below the view's reclaim mark the disk is read.
    ///
    /// # Errors
    ///
    /// `Stranger` comes first, then `BeforeKept`, then `NotYet`; `Device`, `NoMemory` and `Damaged` where they are met.
    pub fn at<D: Disk>(
        &mut self,
        mark: u64,
        disk: &mut D,
        view: &View,
        key: Key,
        time: u64,
    ) -> Result<Option<SharedValue>, QueryFault>
        ensures { AnswersAtView alone D.tells mark (self.old, D.state disk.old) view.now key time result (self.new, D.state disk.new) }
    {
        if !self.is_own(mark, view) {
            return Err(QueryFault::Stranger);
        }
        view.value_at(&mut self.reader, disk, key, time)
    }

    /// The records of a relation that have a value at a time in microseconds since 1970, in rising order, with their values, as the view's
    /// moment knows them.
    ///
    /// # Errors
    ///
    /// Those of `at`.
    pub fn scan_at<D: Disk>(
        &mut self,
        alloc: Global,
        mark: u64,
        disk: &mut D,
        view: &View,
        relation: u16,
        time: u64,
    ) -> Result<Vec<(u64, SharedValue)>, QueryFault>
        ensures { AnswersScanAt alone D.tells mark (self.old, D.state disk.old) view.now relation time result (self.new, D.state disk.new) }
    {
        if !self.is_own(mark, view) {
            return Err(QueryFault::Stranger);
        }
        view.values_at(alloc, &mut self.reader, disk, relation, time)
    }

    /// The rows of a key from `a` up to `b` in microseconds since 1970, by rising time: of each version that was valid in between the
    /// value, and the times from which and up to which it was.
    ///
    /// # Errors
    ///
    /// `Stranger` comes first, then `BeforeKept`, `NotYet` and `EmptyInterval`, and then those of `at`.
    pub fn between<D: Disk>(
        &mut self,
        alloc: Global,
        mark: u64,
        disk: &mut D,
        view: &View,
        key: Key,
        a: u64,
        b: u64,
    ) -> Result<Vec<Version<SharedValue>>, QueryFault>
        ensures { AnswersRows alone D.tells mark (self.old, D.state disk.old) view.now key a b result (self.new, D.state disk.new) }
    {
        if !self.is_own(mark, view) {
            return Err(QueryFault::Stranger);
        }
        view.rows_between(alloc, &mut self.reader, disk, key, a, b)
    }

    /// The rows of a relation's records from `a` up to `b`, by record and then by time, each with its record.
    ///
    /// # Errors
    ///
    /// Those of `between`.
    pub fn scan_between<D: Disk>(
        &mut self,
        alloc: Global,
        mark: u64,
        disk: &mut D,
        view: &View,
        relation: u16,
        a: u64,
        b: u64,
    ) -> Result<Vec<(u64, Version<SharedValue>)>, QueryFault>
        ensures { AnswersScanRows alone D.tells mark (self.old, D.state disk.old) view.now relation a b result (self.new, D.state disk.new) }
    {
        if !self.is_own(mark, view) {
            return Err(QueryFault::Stranger);
        }
        view.scan_rows_between(alloc, &mut self.reader, disk, relation, a, b)
    }
}
