//! Bytes that a host lends.
ghost use Rattle.std.specs.Prelude.{◌≡◌, ◌<◌, ◌-◌, ◌^◌, None};
ghost use Rattle.disk.specs.Areas.{AreBytes};

use disk::{Area, DeviceFault, Disk};

/// So many bytes of an area, from a place on.
#[derive(Clone, Copy, Drop)]
struct Range {
    area: Area,
    at: u64,
    len: u64,
}

/// A disk that reads three areas where a host has them, and writes nothing. The host has synced them. It refuses
/// writes, and all syncs after the first of them, but no read.
#[derive(Drop)]
pub struct SliceDisk<'a> {
    pub(crate) status: &'a [u8],
    pub(crate) heap: &'a [u8],
    pub(crate) archive: &'a [u8],
    made: u64,
    refused: u64,
    // Where the first write was to go. For all that a caller is told, a part of it may have been made.
    torn: Option<Range>,
    pub ghost served: { torn ≡ None → made < 2 ^ 64 - 1 → refused ≡ 0 },
    pub ghost status_bytes: { AreBytes status.now },
    pub ghost heap_bytes: { AreBytes heap.now },
    pub ghost archive_bytes: { AreBytes archive.now },
}

impl<'a> SliceDisk<'a> {
    ghost use Rattle.disk.specs.Areas.{area_of};
    ghost use Rattle.disk.specs.Calls.{fresh_on};
    ghost use Rattle.c_engine.specs.RelayState.{slices_state};

    /// A disk of these bytes.
    pub fn new(status: &'a [u8], heap: &'a [u8], archive: &'a [u8]) -> SliceDisk<'a>
        ensures { slices_state result ≡ fresh_on (record { status = status.now; heap = heap.now; archive = archive.now }) }
    {
        SliceDisk {
            status,
            heap,
            archive,
            made: 0,
            refused: 0,
            torn: None,
        }
    }

    fn area(&self, area: Area) -> &'a [u8]
        ensures { result.now ≡ (area_of (slices_state self.now).areas area).bytes }
    {
        match area {
            Area::Status => self.status,
            Area::Heap => self.heap,
            Area::Archive => self.archive,
        }
    }
}

impl<'a> Disk for SliceDisk<'a> {
    ghost use Rattle.std.specs.Prelude.{true};
    ghost use Rattle.c_engine.specs.RelayState.{slices_state};
    ghost use Rattle.c_engine.specs.RelaySound.{slices_are_sound};

    ghost tells = { true };

    ghost state = { slices_state };

    fn len(&mut self, area: Area) -> Result<u64, DeviceFault> {
        Ok(self.area(area).len() as u64)
    }

    fn read(&mut self, area: Area, at: u64, buf: &mut [u8]) -> Result<(), DeviceFault> {
        let start = at as usize;
        let end = start + buf.len();
        buf.copy_from_slice(&self.area(area)[start..end]);
        Ok(())
    }

    fn write_at(&mut self, area: Area, at: u64, bytes: &[u8]) -> Result<(), DeviceFault> {
        if self.made < u64::MAX && self.torn.is_none() {
            let len = bytes.len() as u64;
            self.torn = Some(Range { area, at, len });
        }
        self.made = self.made.saturating_add(1);
        self.refused = self.refused.saturating_add(1);
        Err(DeviceFault)
    }

    fn sync(&mut self, _area: Area) -> Result<(), DeviceFault> {
        if self.made == u64::MAX || self.torn.is_some() {
            self.made = self.made.saturating_add(1);
            self.refused = self.refused.saturating_add(1);
            return Err(DeviceFault);
        }
        self.made += 1;
        Ok(())
    }

    fn made(&self) -> u64 {
        self.made
    }

    fn refused(&self) -> u64 {
        self.refused
    }

    ghost sound = { λ d told. slices_are_sound d };
}
