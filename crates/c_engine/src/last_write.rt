//! What was written last to each area of a disk.
ghost use Rattle.std.specs.Prelude.{◌≡◌, None, Some, OnOk, OnErr};
ghost use Rattle.disk.specs.Areas.{AreBytes};
ghost use Rattle.c_engine.specs.LastWrites.{noted_write, noted_in, writes_of, with_write};

use disk::{Area, DeviceFault};
use std::alloc::Global;
use std::mem;

/// The last write of an area since its last sync: its place, and its bytes.
#[derive(Drop)]
pub struct LastWrite {
    // None where the area was not written since.
    pub(crate) at: Option<u64>,
    pub(crate) bytes: Vec<u8>,
}

impl LastWrite {
    fn none(alloc: Global) -> LastWrite
        ensures { noted_write result ≡ None }
    {
        LastWrite {
            at: None,
            bytes: Vec::new(alloc),
        }
    }

    // These bytes were written at a place; the room of those before them is given back.
    fn note(&mut self, at: u64, bytes: &mut Vec<u8>)
        ensures { noted_write self.new ≡ Some (at, bytes.old.items) }
    {
        mem::swap(&mut self.bytes, bytes);
        self.at = Some(at);
    }
}

/// The last write of each area since its last sync.
#[derive(Drop)]
pub struct LastWrites {
    pub(crate) status: LastWrite,
    pub(crate) heap: LastWrite,
    pub(crate) archive: LastWrite,
    // Room for the bytes of the next write.
    spare: Vec<u8>,
}

impl LastWrites {
    /// Nothing was written since the last sync.
    pub(crate) fn none(alloc: Global) -> LastWrites
        ensures { (area : Area) → noted_in (writes_of result) area ≡ None }
    {
        LastWrites {
            status: LastWrite::none(alloc),
            heap: LastWrite::none(alloc),
            archive: LastWrite::none(alloc),
            spare: Vec::new(alloc),
        }
    }

    /// Notes a write, or nothing where there is no memory for its bytes.
    pub(crate) fn write(&mut self, area: Area, at: u64, bytes: &[u8]) -> Result<(), DeviceFault>
        ensures noted { OnOk result (writes_of self.new ≡ with_write area (Some (at, bytes.now)) (writes_of self.old)) }
        ensures same { OnErr result (writes_of self.new ≡ writes_of self.old) }
        ensures are_bytes { AreBytes bytes.now }
    {
        self.spare.clear();
        self.spare.extend_from_slice(bytes)?;
        match area {
            Area::Status => self.status.note(at, &mut self.spare),
            Area::Heap => self.heap.note(at, &mut self.spare),
            Area::Archive => self.archive.note(at, &mut self.spare),
        }
        Ok(())
    }

    /// Nothing of the area was written since its sync.
    pub(crate) fn sync(&mut self, area: Area)
        ensures { writes_of self.new ≡ with_write area None (writes_of self.old) }
    {
        match area {
            Area::Status => self.status.at = None,
            Area::Heap => self.heap.at = None,
            Area::Archive => self.archive.at = None,
        }
    }

    pub(crate) fn of(&self, area: Area) -> &LastWrite
        ensures { noted_write result.now ≡ noted_in (writes_of self.now) area }
    {
        match area {
            Area::Status => &self.status,
            Area::Heap => &self.heap,
            Area::Archive => &self.archive,
        }
    }
}
