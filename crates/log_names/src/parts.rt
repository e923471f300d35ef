//! What a search of rolls needs of a reader of the archive.
ghost use Rattle.std.specs.Prelude.{◌≡◌, ℕ, ◌+◌, ◌<◌, ◌≤◌, ◌^◌, List, length, slice_range};
ghost use Rattle.log_names.specs.Looks.{LooksAt, Follows};

use archive::ArchiveFault;
use disk::{Area, Disk};

/// Reads parts of what lies in the archive. It may have a cache of some, each with the place in the archive at which
/// it begins.
pub trait ReadsParts {
    /// What is in the cache.
    ghost kept: { Self → List (ℕ × List ℕ) };

    /// The bytes from `at` on, of what lies from `start` on and has `len` bytes. Damaged, with the start, only where
    /// the archive ends before that does.
    fn read_at<D: Disk>(
        &mut self,
        disk: &mut D,
        start: u64,
        len: u64,
        at: u64,
        buf: &mut [u8],
    ) -> Result<(), ArchiveFault>
        requires inside { at + length buf.old ≤ len }
        requires end { start + len < 2 ^ 63 }
        ensures looks { LooksAt start len D.tells (D.state disk.old) (D.state disk.new) (kept self.old) (kept self.new) result }
        ensures exact { Follows D.tells (D.state disk.old) (kept self.old) result
            (λ area _. buf.new ≡ slice_range area (start + at) (start + at + length buf.old))
            (λ area _. length area < start + len) };
}

/// A reader without a cache.
#[derive(Clone, Copy, Debug, PartialEq, Eq)]
pub struct UncachedParts;

impl ReadsParts for UncachedParts {
    ghost use Rattle.std.specs.Prelude.{[]};

    ghost kept = { λ parts. [] };

    fn read_at<D: Disk>(
        &mut self,
        disk: &mut D,
        start: u64,
        len: u64,
        at: u64,
        buf: &mut [u8],
    ) -> Result<(), ArchiveFault> {
        let end = disk.len(Area::Archive)?;
        if end < start + len {
            return Err(ArchiveFault::Damaged(start));
        }
        disk.read(Area::Archive, start + at, buf)?;
        Ok(())
    }
}
