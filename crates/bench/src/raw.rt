//! The writes and syncs that a group of commits cannot do without, on files of their own.

use crate::fault::Fault;
use crate::stores;
use std::alloc::Global;
use std::fs::{File, OpenOptions, create_dir};
use std::io;
use std::os::unix::fs::FileExt;
use std::rt::Files;

const EXTENT_LEN: u64 = 8_192;

const SLOT_LEN: u64 = 512;

/// The bytes of a slot after its gate.
const BODY_LEN: usize = 511;

/// An open gate.
const OPEN: [u8; 1] = [0xC7];

/// The files of a new store that no store writes: the heap grows, and the status file was written
/// before.
#[derive(Drop)]
pub(crate) struct RawFiles {
    status: File,
    heap: File,
    extents: u64,
    slots: u64,
}

fn open<R: Files<File = File> + AllocGlobal>(
    rt: &R,
    folder: &str,
    name: &str,
) -> Result<File, Fault> {
    let path = format!(in rt.alloc(); "{folder}/{name}")?;
    let file = OpenOptions::new()
        .read(true)
        .write(true)
        .open(rt, path.as_str())?;
    Ok(file)
}

impl RawFiles {
    /// Makes a folder with the files of a store of this many slots.
    pub(crate) fn new<R: Files<File = File> + AllocGlobal>(
        rt: &R,
        alloc: Global,
        folder: &str,
        slots: u32,
    ) -> Result<RawFiles, Fault> {
        stores::make(rt, alloc, folder, slots)?;
        Ok(RawFiles {
            status: open(rt, folder, "status")?,
            heap: open(rt, folder, "heap")?,
            extents: 0,
            slots: 0,
        })
    }

    /// Writes so many extents, the body of the next slot and its gate, with a sync after each of the
    /// three.
    pub(crate) fn write_group(&mut self, extents: u64) -> io::Result<()> {
        let extent = [(self.slots % 251) as u8; EXTENT_LEN as usize];
        for _ in 0..extents {
            self.heap
                .write_all_at(&extent, self.extents.wrapping_mul(EXTENT_LEN))?;
            self.extents = self.extents.wrapping_add(1);
        }
        self.heap.sync_data()?;
        self.slots = self.slots.wrapping_add(1);
        let slot = self.slots.wrapping_mul(SLOT_LEN);
        self.status
            .write_all_at(&[0x61; BODY_LEN], slot.wrapping_add(1))?;
        self.status.sync_data()?;
        self.status.write_all_at(&OPEN, slot)?;
        self.status.sync_data()
    }
}

/// The file of a heap that no store writes.
#[derive(Drop)]
pub(crate) struct RawLog {
    heap: File,
    extents: u64,
}

impl RawLog {
    /// Makes a folder with an empty heap, below this one.
    pub(crate) fn new<R: Files<File = File> + AllocGlobal>(
        rt: &R,
        alloc: Global,
        folder: &str,
    ) -> Result<RawLog, Fault> {
        let folder = format!(in alloc; "{folder}/raw")?;
        create_dir(rt, folder.as_str())?;
        let path = format!(in alloc; "{folder}/heap")?;
        let heap = OpenOptions::new()
            .read(true)
            .write(true)
            .create_new(true)
            .open(rt, path.as_str())?;
        Ok(RawLog { heap, extents: 0 })
    }

    /// Writes so many extents, and a gate after them; then the gate before them, with a sync after each of the
    /// two.
    pub(crate) fn write_group(&mut self, extents: u64) -> io::Result<()> {
        let extent = [(self.extents % 251) as u8; EXTENT_LEN as usize];
        let first = self.extents.wrapping_mul(EXTENT_LEN);
        for _ in 0..extents {
            self.heap
                .write_all_at(&extent, self.extents.wrapping_mul(EXTENT_LEN))?;
            self.extents = self.extents.wrapping_add(1);
        }
        self.heap
            .write_all_at(&[0], self.extents.wrapping_mul(EXTENT_LEN))?;
        self.heap.sync_data()?;
        self.heap.write_all_at(&OPEN, first)?;
        self.heap.sync_data()
    }
}
