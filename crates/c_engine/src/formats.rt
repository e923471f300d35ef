//! Making a store and opening one.
ghost use Rattle.std.specs.Prelude.{◌≡◌, ◌⊎◌, IfOk, IfErr};
ghost use Rattle.disk.specs.Memory.{disk_state};
ghost use Rattle.c_engine.specs.Bytes.{AreBytesTold};
ghost use Rattle.c_engine.specs.Engines.{OpensEngine, RefusesEngine};
ghost use Rattle.c_engine.specs.Formats.{FormatsStore};

use crate::code::{Code, Info};
use crate::codes::open_code;
use crate::engine::Engine;
use crate::{RelayDisk, SliceDisk};
use any_store::{FormatFault, Layout, Store};
use disk::{Area, Disk, MemDisk};
use std::alloc::Global;

/// The bytes of the status area of a new store of this layout, and how many zeros its heap begins with. The host
/// writes those zeros, if there are any, and syncs the heap; it writes these bytes from 512 on, if there are any, and
/// syncs; and it writes the first 512, and syncs. The archive is empty.
pub fn format(alloc: Global, layout: Layout, out: &mut [u8], info: &mut Info) -> Code
    ensures { FormatsStore layout result info.new out.new }
{
    let mut disk = MemDisk::new(alloc);
    match any_store::format(alloc, &mut disk, layout) {
        Err(FormatFault::BadSlots) => return Code::BadSlots,
        Err(_) => return Code::NoMemory,
        Ok(()) => {}
    }
    let Ok(zeros) = disk.len(Area::Heap) else {
        return Code::NoMemory;
    };
    info.b = zeros;
    tell_status(&mut disk, out, info)
}

// All of the status area is told.
fn tell_status(disk: &mut MemDisk, out: &mut [u8], info: &mut Info) -> Code
    ensures told { (result ≡ Code.NoMemory) ⊎ AreBytesTold (disk_state disk.old).areas.status.bytes result info.new out.new }
    ensures known { ¬ (result ≡ Code.BadSlots) }
    ensures heap { info.new.b ≡ info.old.b }
{
    let Ok(len) = disk.len(Area::Status) else {
        return Code::NoMemory;
    };
    info.a = len;
    if (out.len() as u64) < len {
        return Code::Small;
    }
    match disk.read(Area::Status, 0, &mut out[..len as usize]) {
        Ok(()) => Code::Ok,
        Err(_) => Code::NoMemory,
    }
}

/// Opens the store that these bytes are, which the host has synced. They are read in place, and none of
/// them is needed once it is open. The times of the last commit and of the floor are told.
pub fn open(
    alloc: Global,
    status: &[u8],
    heap: &[u8],
    archive: &[u8],
    mark: u64,
    info: &mut Info,
) -> Result<Box<Engine>, Code>
    ensures opened { IfOk result (λ engine. OpensEngine status.now heap.now archive.now mark info.new engine.value) }
    ensures refused { IfErr result (λ code. RefusesEngine status.now heap.now archive.now code info.new) }
{
    match Store::open(alloc, SliceDisk::new(status, heap, archive), mark) {
        Err((fault, _)) => Err(open_code(fault, info)),
        Ok(store) => {
            info.a = store.last();
            info.b = store.floors().every();
            let relay = RelayDisk::new(alloc, store.disk());
            let (store, _) = store.over(relay);
            match Box::new(alloc, Engine::new(alloc, store, mark)) {
                Ok(engine) => Ok(engine),
                Err(_) => Err(Code::NoMemory),
            }
        }
    }
}
