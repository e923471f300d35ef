//! The store's views and queries: nothing else of this crate asks for them.
ghost use Rattle.std.specs.Prelude.{true, IfOk};
ghost use Rattle.any_store.specs.Queries.{IsViewOf, AnswersTimes};
ghost use Rattle.any_store.specs.Values.{with_disk};
ghost use Rattle.timequery.specs.Archives.{ArchiveValue};
ghost use Rattle.timequery.specs.Asked.{alone, FindsAt, FindsScanAt, FindsRows, FindsScanRows};
ghost use Rattle.c_engine.specs.Queries.{IsOver, over};
ghost use Rattle.c_engine.specs.RelayState.{slices_state};

use crate::{RelayDisk, SliceDisk};
use any_store::{QueryFault, SharedValue, Store, View};
use archive::ArchiveReader;
use history::{Key, Version};
use std::alloc::{AllocError, Global};

/// The store under an engine.
pub type Kept = Store<RelayDisk>;

/// A view of all that is published.
pub fn view(store: &Kept) -> Result<View, AllocError>
    ensures { IfOk result (IsViewOf store.now) }
{
    store.view()
}

/// The archive that a host lends for one query, and its reader, which has no cache.
#[derive(Drop)]
pub struct Lent<'a> {
    alloc: Global,
    reader: ArchiveReader,
    disk: SliceDisk<'a>,
}

impl<'a> Lent<'a> {
    /// A reader of the archive's bytes, which the host lends for the call.
    pub fn new(alloc: Global, archive: &'a [u8]) -> Lent<'a>
        ensures { IsOver archive.now result }
    {
        Lent {
            alloc,
            reader: ArchiveReader::without_cache(alloc),
            disk: SliceDisk::new(&[], &[], archive),
        }
    }

    /// The value of a key at a time, in microseconds since 1970, as the view has it; why not, where it is not told.
    pub fn at(
        &mut self,
        view: &View,
        key: Key,
        time: u64,
    ) -> Result<Option<SharedValue>, QueryFault>
        ensures { (runs : ArchiveValue) → FindsAt alone true (over self.old runs) view.now key time result (over self.new runs) }
    {
        view.value_at(&mut self.reader, &mut self.disk, key, time)
    }

    /// The records of a relation that have a value at a time, with their values.
    pub fn scan_at(
        &mut self,
        view: &View,
        relation: u16,
        time: u64,
    ) -> Result<Vec<(u64, SharedValue)>, QueryFault>
        ensures { (runs : ArchiveValue) → FindsScanAt alone true (over self.old runs) view.now relation time result (over self.new runs) }
    {
        view.values_at(self.alloc, &mut self.reader, &mut self.disk, relation, time)
    }

    /// The rows of a key from one time up to another.
    pub fn between(
        &mut self,
        view: &View,
        key: Key,
        a: u64,
        b: u64,
    ) -> Result<Vec<Version<SharedValue>>, QueryFault>
        ensures { (runs : ArchiveValue) → FindsRows alone true (over self.old runs) view.now key a b result (over self.new runs) }
    {
        view.rows_between(self.alloc, &mut self.reader, &mut self.disk, key, a, b)
    }

    /// The rows of a relation's records from one time up to another.
    pub fn scan_between(
        &mut self,
        view: &View,
        relation: u16,
        a: u64,
        b: u64,
    ) -> Result<Vec<(u64, Version<SharedValue>)>, QueryFault>
        ensures { (runs : ArchiveValue) → FindsScanRows alone true (over self.old runs) view.now relation a b result (over self.new runs) }
    {
        view.scan_rows_between(self.alloc, &mut self.reader, &mut self.disk, relation, a, b)
    }

    /// The times of the published commits with a label, rising, in microseconds since 1970; why not, where they are not told.
    pub fn times_of(&mut self, store: &Kept, label: u64) -> Result<Vec<u64>, QueryFault>
        ensures { AnswersTimes true (with_disk store.now (slices_state self.old.disk)) label result (with_disk store.now (slices_state self.new.disk)) }
    {
        store.times_over(&mut self.disk, label)
    }
}
