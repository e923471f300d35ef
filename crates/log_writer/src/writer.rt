//! A chain in the writing.
ghost use Rattle.std.specs.Prelude.{◌≡◌, ◌<◌, ◌≤◌, ◌+◌, ◌*◌, ◌^◌, IsTrue, IfOk, OnErr, length, take, drop, slice_get, Some};
ghost use Rattle.std.specs.List.{AllByRecursion};
ghost use Rattle.deltas.specs.Extents.{extent_start};
ghost use Rattle.disk.specs.Calls.{Counts, Writes};
ghost use Rattle.disk.specs.declared.area.Area.TheVariants.{Heap};
ghost use Rattle.status.specs.SlotCalls.{answer_of};
ghost use Rattle.log_extents.specs.Chains.{count_of, IsNumberOf};
ghost use Rattle.log_writer.specs.Turns.{IsCallOf, stage_after, Part};
ghost use Rattle.log_writer.specs.Writer.{turn, did};

use crate::place::extent_place;
use deltas::EXTENT_LEN;
use disk::{Area, DeviceFault, Disk};
use log_extents::{BODY_LEN, OPEN_GATE, fill_extent};
use std::marker::Model;

/// What is done of a chain.
#[derive(Clone, Copy, Debug, PartialEq, Eq)]
pub(crate) enum Step {
    /// So many of its extents are written, the head without its gate.
    Writing(usize),
    Syncing,
    Opening,
    Settling,
    Done,
}

/// What a device call did of a chain.
#[derive(Clone, Copy, Debug, PartialEq, Eq)]
pub enum Wrote {
    Extent,
    /// The gate where the log will end is closed.
    ClosedGate,
    Synced,
    Gate,
    /// The chain is the log's, and will stay so.
    Settled,
}

/// A chain on its way to the end of the log: its extents, the one where the log goes on after it, and its
/// bytes.
#[derive(Drop)]
pub struct ChainWriter {
    numbers: Vec<u32>,
    link: u32,
    content: Vec<u8>,
    step: Step,
}

impl Model for ChainWriter {
    ghost use Rattle.log_writer.specs.Writer.{WriterState, stage_of, IsWriter};
    ghost use Rattle.log_writer.specs.Turns.{chain_turn};

    ghost Value = { WriterState };

    ghost view = { λ w. record {
      numbers = w.numbers.items;
      link = w.link;
      content = w.content.items;
      stage =
          stage_of (chain_turn w.numbers.items w.link w.content.items).parts w.step;
    } };

    ghost invariant = { λ w. IsWriter w.numbers.items w.link w.content.items w.step };
}

impl ChainWriter {
    ghost use Rattle.std.specs.Prelude.{◌<◌, ◌≤◌, ◌^◌, length};
    ghost use Rattle.std.specs.List.{AllByRecursion};
    ghost use Rattle.log_extents.specs.Chains.{count_of, IsNumberOf};
    ghost use Rattle.log_writer.specs.Writer.{stage_of};
    ghost use Rattle.log_writer.specs.Turns.{chain_turn};
    ghost use Rattle.log_writer.specs.declared.writer.Step.TheVariants.{Writing};

    /// A chain of this content, of which nothing is written yet, in these extents, its head first. The
    /// log is to go on in the extent `link` after it.
    pub fn new(numbers: Vec<u32>, link: u32, content: Vec<u8>) -> ChainWriter
        requires some { 0 < length numbers.items }
        requires count { length numbers.items ≡ count_of (length content.items) }
        requires in_range { AllByRecursion (IsNumberOf (2 ^ 20)) numbers.items }
        requires link_low { 0 < link }
        requires link_high { link ≤ 2 ^ 20 }
        ensures { result ≡ record {
          numbers = numbers.items;
          link = link;
          content = content.items;
          stage =
              stage_of (chain_turn numbers.items link content.items).parts (Writing 0);
        } }
    {
        ChainWriter {
            numbers,
            link,
            content,
            step: Step::Writing(0),
        }
    }
}

impl ChainWriter {
    ghost use Rattle.std.specs.Prelude.{◌≡◌, ◌<◌, ◌*◌, ◌==◌, ◌∷◌, ℕ, List, take, drop, length, if◌then◌else◌};
    ghost use Rattle.log_extents.specs.Chains.{first_or};
    ghost use Rattle.log_extents.specs.Extents.{linked_bytes};

    // The number of the extent behind this one, or 0 behind the last.
    fn number_behind(&self, index: usize) -> u32
        requires { index < length self.now.numbers }
        ensures { result ≡ first_or 0 (drop (index + 1) self.now.numbers) }
    {
        match self.numbers.get(index + 1) {
            Some(number) => *number,
            None => 0,
        }
    }

    // The extent's part of the content.
    fn body(&self, index: usize) -> &[u8]
        requires { index < length self.now.numbers }
        ensures { result.now ≡ take 8168 (drop (8168 * index) self.now.content) }
    {
        let rest = &self.content.as_slice()[BODY_LEN * index..];
        &rest[..rest.len().min(BODY_LEN)]
    }
}

impl ChainWriter {
    ghost use Rattle.std.specs.Prelude.{◌≡◌, ◌<◌, ◌*◌, ◌∷◌, ℕ, List, drop, length, IsTrue};
    ghost use Rattle.disk.specs.Calls.{Counts, Writes};
    ghost use Rattle.disk.specs.declared.area.Area.TheVariants.{Heap};
    ghost use Rattle.log_writer.specs.Turns.{Part};
    ghost use Rattle.log_writer.specs.Writer.{turn};

    // Writes the head, all but its gate.
    fn write_head<D: Disk>(&self, disk: &mut D) -> Result<(), DeviceFault>
        requires { 0 < length self.now.numbers }
        ensures call { (p : Part) (rest : List Part) → (turn self.now).parts ≡ p ∷ rest → IsTrue D.tells
            → Writes Heap p.place p.bytes result (D.state disk.old).areas (D.state disk.new).areas }
        ensures counts { Counts result (D.state disk.old) (D.state disk.new) }
    {
        let mut image = [0; EXTENT_LEN];
        let number = self.numbers[0];
        fill_extent(
            self.link,
            number,
            self.number_behind(0),
            self.body(0),
            &mut image,
        );
        disk.write_at(Area::Heap, extent_place(number) + 1, &image[1..])
    }

    // Writes another extent of the chain.
    fn write_other<D: Disk>(&self, index: usize, disk: &mut D) -> Result<(), DeviceFault>
        requires other { 0 < index }
        requires within { index < length self.now.numbers }
        ensures call { (p : Part) (rest : List Part) → drop index (turn self.now).parts ≡ p ∷ rest → IsTrue D.tells
            → Writes Heap p.place p.bytes result (D.state disk.old).areas (D.state disk.new).areas }
        ensures counts { Counts result (D.state disk.old) (D.state disk.new) }
    {
        let mut image = [0; EXTENT_LEN];
        let number = self.numbers[index];
        fill_extent(
            0,
            number,
            self.number_behind(index),
            self.body(index),
            &mut image,
        );
        disk.write_at(Area::Heap, extent_place(number), &image)
    }
}

impl ChainWriter {
    ghost use Rattle.std.specs.Prelude.{◌≡◌, ◌<◌, ◌≤◌, ◌+◌, ◌∷◌, [], ℕ, List, drop, length, IsTrue, IfOk, IfErr};
    ghost use Rattle.deltas.specs.Extents.{extent_start};
    ghost use Rattle.disk.specs.Calls.{Counts, Writes};
    ghost use Rattle.disk.specs.declared.area.Area.TheVariants.{Heap};
    ghost use Rattle.status.specs.SlotCalls.{answer_of};
    ghost use Rattle.log_writer.specs.Turns.{Part, IsCallOf, stage_after};
    ghost use Rattle.log_writer.specs.Writer.{turn, did, stage_of, IsStepOf, IsOnItsWay, with_stage};

    // Writes the extent of this index.
    fn write_extent<D: Disk>(&self, index: usize, disk: &mut D) -> Result<(), DeviceFault>
        requires { index < length self.now.numbers }
        ensures call { (p : Part) (rest : List Part) → drop index (turn self.now).parts ≡ p ∷ rest → IsTrue D.tells
            → Writes Heap p.place p.bytes result (D.state disk.old).areas (D.state disk.new).areas }
        ensures counts { Counts result (D.state disk.old) (D.state disk.new) }
    {
        if index == 0 {
            self.write_head(disk)
        } else {
            self.write_other(index, disk)
        }
    }

    // Writes a gate of this extent.
    fn write_gate<D: Disk>(number: u32, gate: u8, disk: &mut D) -> Result<(), DeviceFault>
        requires { 0 < number }
        ensures call { IsTrue D.tells → Writes Heap (extent_start number) (gate ∷ []) result (D.state disk.old).areas (D.state disk.new).areas }
        ensures counts { Counts result (D.state disk.old) (D.state disk.new) }
    {
        disk.write_at(Area::Heap, extent_place(number), &[gate])
    }
}

impl ChainWriter {
    ghost use Rattle.std.specs.Prelude.{◌≡◌, length, IsTrue, IfOk, IfErr};
    ghost use Rattle.disk.specs.Calls.{Counts};
    ghost use Rattle.status.specs.SlotCalls.{answer_of};
    ghost use Rattle.log_writer.specs.Turns.{IsCallOf, stage_after};
    ghost use Rattle.log_writer.specs.Writer.{turn, did, stage_of, IsStepOf, IsOnItsWay, with_stage};

    // The next device call of the chain, and where it leads.
    fn make_call<D: Disk>(&self, disk: &mut D) -> Result<(Step, Wrote), DeviceFault>
        requires { IsOnItsWay self.now.stage }
        ensures call { IsTrue D.tells → IsCallOf (turn self.now) self.now.stage (answer_of result) (D.state disk.old).areas (D.state disk.new).areas }
        ensures counts { Counts result (D.state disk.old) (D.state disk.new) }
        ensures leads { IfOk result (λ r. (stage_of (turn self.now).parts r.0 ≡ stage_after self.now.stage) × (r.1 ≡ did self.now.stage)
            × IsStepOf (length self.now.numbers) r.0) }
    {
        match self.step {
            Step::Writing(written) if written < self.numbers.len() => {
                self.write_extent(written, disk)?;
                Ok((Step::Writing(written + 1), Wrote::Extent))
            }
            Step::Writing(_) => {
                ChainWriter::write_gate(self.link, 0, disk)?;
                Ok((Step::Syncing, Wrote::ClosedGate))
            }
            Step::Syncing => {
                disk.sync(Area::Heap)?;
                Ok((Step::Opening, Wrote::Synced))
            }
            Step::Opening => {
                ChainWriter::write_gate(self.numbers[0], OPEN_GATE, disk)?;
                Ok((Step::Settling, Wrote::Gate))
            }
            Step::Settling => {
                disk.sync(Area::Heap)?;
                Ok((Step::Done, Wrote::Settled))
            }
            Step::Done => unreachable!(),
        }
    }

    /// The next device call of the chain. A refused one changes nothing here.
    pub fn advance<D: Disk>(&mut self, disk: &mut D) -> Result<Wrote, DeviceFault>
        requires { IsOnItsWay self.old.stage }
        ensures call { IsTrue D.tells → IsCallOf (turn self.old) self.old.stage (answer_of result) (D.state disk.old).areas (D.state disk.new).areas }
        ensures counts { Counts result (D.state disk.old) (D.state disk.new) }
        ensures ok { IfOk result (λ what. (what ≡ did self.old.stage) × (self.new ≡ with_stage self.old (stage_after self.old.stage))) }
        ensures err { IfErr result (λ why. self.new ≡ self.old) }
    {
        let (step, what) = self.make_call(disk)?;
        self.step = step;
        Ok(what)
    }
}

impl ChainWriter {
    ghost use Rattle.std.specs.Prelude.{◌≡◌};
    ghost use Rattle.log_writer.specs.Writer.{is_opening, is_settling};

    /// Whether the next call opens its gate.
    pub fn is_opening(&self) -> bool
        ensures { result ≡ is_opening self.now.stage }
    {
        matches!(self.step, Step::Opening)
    }

    /// Whether its gate is open, and the next call syncs that.
    pub fn is_settling(&self) -> bool
        ensures { result ≡ is_settling self.now.stage }
    {
        matches!(self.step, Step::Settling)
    }
}
