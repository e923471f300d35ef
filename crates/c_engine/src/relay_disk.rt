//! A disk whose writes and syncs a host makes.
ghost use Rattle.std.specs.Prelude.{◌≡◌};
ghost use Rattle.disk.specs.Areas.{AreSound};
ghost use Rattle.c_engine.specs.LastWrites.{writes_of, last_writes};
ghost use Rattle.c_engine.specs.RelayFacts.{AreSound-prop};

use crate::last_write::{LastWrite, LastWrites};
use crate::shadow::{Note, Shadow};
use crate::slice_disk::SliceDisk;
use disk::{Area, DeviceFault, Disk};
use std::alloc::Global;

/// A disk that notes the last write of each area for a host, which makes a write or a sync before it asks for
/// another. It holds no other bytes of its areas, so reads are refused.
#[derive(Drop)]
pub struct RelayDisk {
    shadow: Shadow,
    writes: LastWrites,
    made: u64,
    refused: u64,
    pub ghost sound: { AreSound shadow.areas } by { AreSound-prop shadow.areas },
    pub ghost noted: { ∥ writes_of writes ≡ last_writes shadow.areas ∥₁ },
}

impl RelayDisk {
    ghost use Rattle.disk.specs.Areas.{area_of, image_of, settled_on};
    ghost use Rattle.disk.specs.Calls.{Counts, refused_answer};
    ghost use Rattle.c_engine.specs.LastWrites.{last_write, noted_write};
    ghost use Rattle.c_engine.specs.RelayState.{relay_state, slices_state};

    /// A disk whose areas have these bytes, all of them synced.
    pub fn new(alloc: Global, areas: &SliceDisk<'_>) -> RelayDisk
        ensures { relay_state result ≡ record { areas = settled_on (image_of (slices_state areas.now).areas); made = 0; refused = 0 } }
    {
        let note = Note::Holds(areas.status, areas.heap, areas.archive);
        RelayDisk {
            shadow: Shadow::new().then(&note),
            writes: LastWrites::none(alloc),
            made: 0,
            refused: 0,
        }
    }

    /// The last write of an area since its last sync.
    pub fn last_write(&self, area: Area) -> &LastWrite
        ensures { noted_write result.now ≡ last_write (area_of (relay_state self.now).areas area) }
    {
        self.writes.of(area)
    }

    // Counts a write or a sync that is refused.
    fn refuse(&mut self)
        ensures counts { Counts refused_answer (relay_state self.old) (relay_state self.new) }
        ensures same { (relay_state self.new).areas ≡ (relay_state self.old).areas }
    {
        self.made = self.made.saturating_add(1);
        self.refused = self.refused.saturating_add(1);
    }
}

impl Disk for RelayDisk {
    ghost use Rattle.std.specs.Prelude.{true};
    ghost use Rattle.c_engine.specs.RelayState.{relay_state};

    ghost tells = { true };

    ghost state = { relay_state };

    fn len(&mut self, _area: Area) -> Result<u64, DeviceFault> {
        self.refused = self.refused.saturating_add(1);
        Err(DeviceFault)
    }

    fn read(&mut self, _area: Area, _at: u64, _buf: &mut [u8]) -> Result<(), DeviceFault> {
        self.refused = self.refused.saturating_add(1);
        Err(DeviceFault)
    }

    fn write_at(&mut self, area: Area, at: u64, bytes: &[u8]) -> Result<(), DeviceFault> {
        if self.made == u64::MAX {
            self.refuse();
            return Err(DeviceFault);
        }
        match self.writes.write(area, at, bytes) {
            Err(_) => {
                self.refuse();
                Err(DeviceFault)
            }
            Ok(()) => {
                self.made += 1;
                self.shadow = self.shadow.then(&Note::Writes(area, at, bytes));
                Ok(())
            }
        }
    }

    fn sync(&mut self, area: Area) -> Result<(), DeviceFault> {
        if self.made == u64::MAX {
            self.refuse();
            return Err(DeviceFault);
        }
        self.made += 1;
        self.writes.sync(area);
        self.shadow = self.shadow.then(&Note::Syncs(area));
        Ok(())
    }

    fn made(&self) -> u64 {
        self.made
    }

    fn refused(&self) -> u64 {
        self.refused
    }

    ghost sound = { λ d told. d.sound };
}
