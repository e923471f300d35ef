//! A new store.
ghost use Rattle.std.specs.Prelude.{IfOk, IfErr};
ghost use Rattle.log_store.specs.Formats.{Creates, CreateRefuses};

use crate::formatting::{format, new_roots};
use crate::live::Live;
use crate::named::Named;
use crate::store::LogStore;
use chains::Frozen;
use commits::Commits;
use disk::Disk;
use floors::Floors;
use log_room::HeapRoom;
use log_roots::is_heap_size;
use log_space::Space;
use recovery::FormatFault;
use std::alloc::Global;
use std::collections::VecDeque;
use timequery::StoreArchive;

impl<D: Disk> LogStore<D> {
    /// Makes a new store whose heap has so many extents, as `format` does, and opens it. The store mark is a number of the caller's,
    /// which the store's transactions and tickets carry. Where it is refused the disk comes back.
    ///
    /// # Errors
    ///
    /// As those of `format`; `NoMemory` before any write.
    pub fn create(
        alloc: Global,
        disk: D,
        mark: u64,
        extents: u32,
    ) -> Result<LogStore<D>, (FormatFault, D)>
        ensures ok { IfOk result (λ s. Creates D.tells (D.state disk) mark extents s) }
        ensures err { IfErr result (λ e. CreateRefuses D.tells (D.state disk) extents e.0 (D.state e.1)) }
    {
        if !is_heap_size(extents) {
            return Err((FormatFault::BadSlots, disk));
        }
        let Ok(space) = Space::new(alloc, extents) else {
            return Err((FormatFault::NoMemory, disk));
        };
        let Ok(archive) = StoreArchive::new(alloc, Vec::new(alloc)) else {
            return Err((FormatFault::NoMemory, disk));
        };
        let Ok(live) = Live::none(alloc) else {
            return Err((FormatFault::NoMemory, disk));
        };
        let mut disk = disk;
        match format(&mut disk, extents) {
            Err(fault) => Err((fault, disk)),
            Ok(()) => Ok(LogStore {
                alloc,
                roots: new_roots(extents),
                commits: Commits::of_recovered(
                    alloc,
                    mark,
                    Vec::new(alloc),
                    Frozen::new(),
                    Floors::none(),
                    0,
                ),
                contents: VecDeque::new(alloc),
                room: HeapRoom::of_opened(space, 1, 1, 0),
                live,
                turn: None,
                job: None,
                reclaim: None,
                named: Named::none(alloc),
                archive,
                disk,
            }),
        }
    }
}
