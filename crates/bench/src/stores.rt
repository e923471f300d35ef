//! Stores in folders.

use crate::fault::Fault;
use any_store::Layout;
use disk_file::{Access, FileDisk};
use std::alloc::Global;
use std::fs::{File, create_dir};
use std::rt::Files;
use store::Store;

/// The store mark of the one store that is open.
pub(crate) const MARK: u64 = 1;

/// Makes a folder with an empty store of this layout.
pub(crate) fn make_as<R: Files<File = File> + AllocGlobal>(
    rt: &R,
    alloc: Global,
    folder: &str,
    layout: Layout,
) -> Result<(), Fault> {
    create_dir(rt, folder)?;
    let mut disk = FileDisk::open(rt, folder, Access::Make)?;
    any_store::format(alloc, &mut disk, layout)?;
    Ok(())
}

/// Makes a folder with an empty store of this many slots.
pub(crate) fn make<R: Files<File = File> + AllocGlobal>(
    rt: &R,
    alloc: Global,
    folder: &str,
    slots: u32,
) -> Result<(), Fault> {
    make_as(rt, alloc, folder, Layout::Slots(slots))
}

/// Opens the store of a folder.
pub(crate) fn open<R: Files<File = File> + AllocGlobal>(
    rt: &R,
    alloc: Global,
    folder: &str,
) -> Result<Store<FileDisk>, Fault> {
    let disk = FileDisk::open(rt, folder, Access::Change)?;
    match Store::open(alloc, disk, MARK) {
        Ok(store) => Ok(store),
        Err((fault, _)) => Err(Fault::Open(fault)),
    }
}
