//! A store on files that threads share.
ghost use Rattle.std.specs.Prelude.{◌≡◌, [], true, false, length, IfOk};
ghost use Rattle.any_store.specs.Values.{commits_of};
ghost use Rattle.law_any_store.specs.Standing.{Stands, opened_in};
ghost use Rattle.shared.specs.Counts.{told_count};

use crate::fault::Fault;
use crate::stores;
use any_store::{Layout, Store};
use disk::MemDisk;
use disk_file::{Access, FileDisk};
use shared::fresh_store;
use std::alloc::Global;
use std::fs::File;
use std::rt::Files;

/// As many slots as a store may have.
pub(crate) const MOST_SLOTS: u32 = 65_536;

/// As many extents as the heap of a store may have in which its log lies.
pub(crate) const MOST_EXTENTS: u32 = 1_048_576;

// The store over files that hold what its memory did.
fn over_files(store: Store<MemDisk>, disk: FileDisk) -> Store<FileDisk>
    requires stands { Stands true store (opened_in store [] (λ relation. 0)) }
    requires fresh { told_count (commits_of store).heads ≡ length (commits_of store).heads }
    ensures stands { Stands false result (opened_in result [] (λ relation. 0)) }
    ensures fresh { told_count (commits_of result).heads ≡ length (commits_of result).heads }
{
    let (store, _memory) = store.over(disk);
    store
}

/// A new store of this layout in the folder `store` below this one. It is opened in memory and moved over files of the
/// same format, since no contract says what files hold.
pub(crate) fn fresh<R: Files<File = File> + AllocGlobal>(
    rt: &R,
    alloc: Global,
    folder: &str,
    layout: Layout,
) -> Result<Store<FileDisk>, Fault>
    ensures stands { IfOk result (λ store. Stands false store (opened_in store [] (λ relation. 0))) }
    ensures fresh { IfOk result (λ store. told_count (commits_of store).heads ≡ length (commits_of store).heads) }
{
    let folder = format!(in alloc; "{folder}/store")?;
    stores::make_as(rt, alloc, folder.as_str(), layout)?;
    let disk = FileDisk::open(rt, folder.as_str(), Access::Change)?;
    match fresh_store(alloc, MemDisk::new(alloc), layout, stores::MARK) {
        Ok(store) => Ok(over_files(store, disk)),
        Err(_) => Err(Fault::Wrong("no store is made in memory")),
    }
}
