ghost use Rattle.std.specs.Prelude.{◌≡◌, ◌+◌, ◌*◌, ◌<◌, ◌≤◌, ◌^◌, ◌↔◌, [], IsTrue, length, take, drop, IfSome, MatchOption};
ghost use Rattle.archive.specs.Runs.{run_bytes};

use crate::packer::BUFFER_LEN;
use crate::run_chunks::{RunChunks, measure};
use crate::{Packer, RecordWalk};
use disk::{Area, DeviceFault, Disk};
use std::marker::Model;
use wire::LAST_PLACE;

/// Writes the bytes of a run in parts of 8,192, the last of which may be shorter, as it walks its
/// records, each straight into the part that it is of. No call holds more of them than one part and
/// two records.
#[derive(Drop)]
pub struct RunWriter<W: RecordWalk> {
    packer: Packer<RunChunks<W>>,
    at: u64,
    left: u64,
    records: u64,
}

impl<W: RecordWalk> Model for RunWriter<W> {
    ghost use Rattle.std.specs.Prelude.{◌≡◌, ◌+◌, ◌<◌, ◌^◌, length};
    ghost use Rattle.archive.specs.Pieces.{InWriting, rest_of, chunks_left};

    ghost Value = { InWriting };

    ghost view = { λ w. record {
      at = w.at;
      left = rest_of w.packer.skip (chunks_left w.packer.chunks.place (W.all w.packer.chunks.walk) (W.left w.packer.chunks.walk));
      records = w.records;
    } };

    ghost invariant = { λ w. (w.left ≡ length (rest_of w.packer.skip
        (chunks_left w.packer.chunks.place (W.all w.packer.chunks.walk) (W.left w.packer.chunks.walk))))
        × (w.at + w.left < 2 ^ 63) };
}

impl<W: RecordWalk> RunWriter<W> {
    ghost use Rattle.std.specs.Prelude.{Ok};
    ghost use Rattle.disk.specs.Calls.{Counts, Writes};
    ghost use Rattle.disk.specs.declared.area.Area.TheVariants.{Archive};

    /// A writer of the run of all records of the walk, from the place `start` of the archive on;
    /// none where it would end past 2^63 - 1. It walks over them once.
    pub fn new(walk: W, start: u64) -> Option<Self>
        ensures is { MatchOption result (2 ^ 63 ≤ start + length (run_bytes (W.all walk)))
            (λ writer. writer ≡ record { at = start; left = run_bytes (W.all walk); records = length (W.all walk) }) }
        ensures least { IfSome result (λ writer. 36 * writer.records ≤ length writer.left) }
        ensures most { IfSome result (λ writer. length writer.left ≤ 4131 * writer.records) }
    {
        let mut walk = walk;
        walk.restart();
        let Some(sizes) = measure(&mut walk) else {
            return None;
        };
        if start > LAST_PLACE || sizes.len > LAST_PLACE - start {
            return None;
        }
        walk.restart();
        Some(RunWriter {
            packer: Packer::new(RunChunks::new(walk)),
            at: start,
            left: sizes.len,
            records: sizes.records,
        })
    }

    /// How many records the run has.
    pub fn records(&self) -> u64
        ensures { result ≡ self.now.records }
    {
        self.records
    }

    /// How many bytes are left to write.
    pub fn left(&self) -> u64
        ensures { result ≡ length self.now.left }
    {
        self.left
    }

    /// Writes the next part, in one device write; nothing where all was written. After a refused
    /// write the writer has passed the part too: the run is given up.
    pub fn write_piece<D: Disk>(&mut self, disk: &mut D) -> Result<(), DeviceFault>
        ensures left { self.new.left ≡ drop 8192 self.old.left }
        ensures at { self.new.at ≡ self.old.at + length (take 8192 self.old.left) }
        ensures records { self.new.records ≡ self.old.records }
        ensures none { self.old.left ≡ [] → (result ≡ Ok tt) × (D.state disk.new ≡ D.state disk.old) }
        ensures counts { 0 < length self.old.left → Counts result (D.state disk.old) (D.state disk.new) }
        ensures wrote { IsTrue D.tells → 0 < length self.old.left
            → Writes Archive self.old.at (take 8192 self.old.left) result (D.state disk.old).areas (D.state disk.new).areas }
    {
        if self.left == 0 {
            return Ok(());
        }
        let mut buffer = [0; BUFFER_LEN];
        let (from, to) = self.packer.fill(&mut buffer);
        let len = (to - from) as u64;
        let at = self.at;
        self.at += len;
        self.left -= len;
        disk.write_at(Area::Archive, at, &buffer[from..to])
    }
}
