//! A disk in memory whose writes and syncs may be counted while another thread has it.
use disk::{Area, DeviceFault, Disk, MemDisk};
use std::alloc::Global;
use std::sync::Arc;
use std::sync::atomic::{AtomicU64, Ordering};

/// The writes and syncs so far, which the disk and its observer share.
pub type CallCount = Arc<AtomicU64, Global>;

#[derive(Drop)]
pub struct CountedDisk {
    disk: MemDisk,
    calls: CallCount,
}

impl CountedDisk {
    pub fn new(disk: MemDisk, calls: CallCount) -> CountedDisk {
        CountedDisk { disk, calls }
    }
}

impl Disk for CountedDisk {
    ghost use Rattle.std.specs.Prelude.{true};
    ghost use Rattle.disk.specs.Memory.{disk_state};
    ghost use Rattle.disk.specs.MemorySound.{memory_is_sound};

    ghost tells = { true };

    ghost state = { λ d. disk_state d.disk };

    fn len(&mut self, area: Area) -> Result<u64, DeviceFault> {
        self.disk.len(area)
    }

    fn read(&mut self, area: Area, at: u64, buf: &mut [u8]) -> Result<(), DeviceFault> {
        self.disk.read(area, at, buf)
    }

    fn write_at(&mut self, area: Area, at: u64, bytes: &[u8]) -> Result<(), DeviceFault> {
        self.calls.fetch_add(1, Ordering::SeqCst);
        self.disk.write_at(area, at, bytes)
    }

    fn sync(&mut self, area: Area) -> Result<(), DeviceFault> {
        self.calls.fetch_add(1, Ordering::SeqCst);
        self.disk.sync(area)
    }

    fn made(&self) -> u64 {
        self.disk.made()
    }

    fn refused(&self) -> u64 {
        self.disk.refused()
    }

    ghost sound = { λ d told. memory_is_sound d.disk };
}
