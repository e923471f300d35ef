//! Opening the store that a disk holds.
ghost use Rattle.std.specs.Prelude.{IfOk, IfErr};
ghost use Rattle.any_store.specs.Opens.{Opens, OpenRefuses};

use crate::any::Store;
use crate::engine::Engine;
use disk::Disk;
use log_store::LogStore;
use recovery::OpenFault;
use std::alloc::Global;
use store::Store as SlotStore;

impl<D: Disk> Store<D> {
    /// Opens the store that the disk holds, of any profile. It first looks at the header, then syncs the three areas,
    /// and then only reads. The store mark is a number of the caller's, which the store's transactions and tickets
    /// carry. A refused opening hands the disk back.
    ///
    /// # Errors
    ///
    /// `NotAStore` where there is no header; `Damaged` tells the first check that fails, with its area and
    /// place; `Device` where a read or sync is refused; `NoMemory`.
    pub fn open(alloc: Global, disk: D, mark: u64) -> Result<Store<D>, (OpenFault, D)>
        ensures ok { IfOk result (λ s. Opens D.tells (D.state disk) mark s) }
        ensures err { IfErr result (λ e. OpenRefuses D.tells (D.state disk) e.0 (D.state e.1)) }
    {
        let mut disk = disk;
        match log_store::has_log_header(&mut disk) {
            Err(_) => Err((OpenFault::Device, disk)),
            Ok(false) => match SlotStore::open(alloc, disk, mark) {
                Ok(store) => Ok(Store {
                    engine: Engine::Slots(store),
                }),
                Err(refused) => Err(refused),
            },
            Ok(true) => match LogStore::open(alloc, disk, mark) {
                Ok(store) => Ok(Store {
                    engine: Engine::Log(store),
                }),
                Err(refused) => Err(refused),
            },
        }
    }
}
