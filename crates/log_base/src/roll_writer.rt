//! A roll on its way to the archive.

ghost use Rattle.std.specs.Prelude.{◌≡◌, ◌+◌, ◌<◌, ◌^◌, [], IsTrue, length, take, drop, is_ok, if◌then◌else◌};

use disk::{Area, DeviceFault, Disk};
use std::marker::Model;

/// How many bytes one write has at the most.
const PIECE_LEN: usize = 8192;

/// Writes the bytes of a roll to the archive, in parts of 8,192, the last of which may be shorter.
#[derive(Drop)]
pub struct RollWriter {
    // Where the roll begins, its bytes, and how many of them are written.
    start: u64,
    bytes: Vec<u8>,
    written: usize,
}

impl Model for RollWriter {
    ghost use Rattle.std.specs.Prelude.{◌+◌, ◌<◌, ◌≤◌, ◌^◌, drop, length};
    ghost use Rattle.log_base.specs.Rolls.{InRoll};

    ghost Value = { InRoll };

    ghost view = { λ w. record { at = w.start + w.written; left = drop w.written w.bytes.items } };

    ghost invariant = { λ w. (w.written ≤ length w.bytes.items) × (w.start + length w.bytes.items < 2 ^ 63) };
}

impl RollWriter {
    ghost use Rattle.std.specs.Prelude.{Ok};
    ghost use Rattle.disk.specs.Calls.{Counts, Writes};
    ghost use Rattle.disk.specs.declared.area.Area.TheVariants.{Archive};

    /// A writer of a roll with these bytes, from this place of the archive on.
    pub fn new(start: u64, bytes: Vec<u8>) -> Self
        requires { start + length bytes.items < 2 ^ 63 }
        ensures { result ≡ record { at = start; left = bytes.items } }
    {
        RollWriter {
            start,
            bytes,
            written: 0,
        }
    }

    /// How many bytes are left to write.
    pub fn left(&self) -> usize
        ensures { result ≡ length self.now.left }
    {
        self.bytes.len() - self.written
    }

    /// Writes the next part, in one device write; nothing where all was written. Where the write is refused the
    /// part is left to write.
    pub fn write_piece<D: Disk>(&mut self, disk: &mut D) -> Result<(), DeviceFault>
        ensures left { self.new.left ≡ (if is_ok result then drop 8192 self.old.left else self.old.left) }
        ensures at { self.new.at ≡ (if is_ok result then self.old.at + length (take 8192 self.old.left) else self.old.at) }
        ensures none { self.old.left ≡ [] → (result ≡ Ok tt) × (D.state disk.new ≡ D.state disk.old) }
        ensures counts { 0 < length self.old.left → Counts result (D.state disk.old) (D.state disk.new) }
        ensures wrote { IsTrue D.tells → 0 < length self.old.left
            → Writes Archive self.old.at (take 8192 self.old.left) result (D.state disk.old).areas (D.state disk.new).areas }
    {
        let left = self.bytes.len() - self.written;
        if left == 0 {
            return Ok(());
        }
        let end = self.written + left.min(PIECE_LEN);
        let at = self.start + self.written as u64;
        match disk.write_at(Area::Archive, at, &self.bytes[self.written..end]) {
            Ok(()) => {
                self.written = end;
                Ok(())
            }
            Err(fault) => Err(fault),
        }
    }
}
