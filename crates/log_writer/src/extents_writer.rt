//! A chain of extents that is written whole, while no log names it.
ghost use Rattle.std.specs.Prelude.{◌≡◌, ◌<◌, ◌≤◌, ◌+◌, ◌*◌, ◌^◌, ◌∷◌, ℕ, List, IsTrue, OnOk, OnErr, false, length, take, drop};
ghost use Rattle.std.specs.List.{AllByRecursion};
ghost use Rattle.disk.specs.Calls.{Counts, Writes};
ghost use Rattle.disk.specs.declared.area.Area.TheVariants.{Heap};
ghost use Rattle.log_extents.specs.Chains.{count_of, first_or, IsNumberOf};
ghost use Rattle.log_writer.specs.Turns.{Part};
ghost use Rattle.log_writer.specs.Whole.{whole_parts, at_head};
ghost use Rattle.log_extents.specs.Extents.{linked_bytes};

use crate::place::extent_place;
use deltas::EXTENT_LEN;
use disk::{Area, DeviceFault, Disk};
use log_extents::{BODY_LEN, fill_extent};
use std::marker::Model;

/// The extents of a chain that no log names yet, and its bytes. The head has a gate and a link, which the anchors have as 0.
#[derive(Drop)]
pub struct ExtentsWriter {
    gate: u8,
    link: u32,
    numbers: Vec<u32>,
    content: Vec<u8>,
    // So many are written.
    written: usize,
}

impl Model for ExtentsWriter {
    ghost use Rattle.log_writer.specs.Whole.{WholeState, IsWhole, parts_left};

    ghost Value = { WholeState };

    ghost view = { λ w. record { numbers = w.numbers.items; left = parts_left w.gate w.link w.numbers.items w.content.items w.written } };

    ghost invariant = { λ w. IsWhole w.numbers.items w.content.items w.written };
}

impl ExtentsWriter {
    /// A chain of this content, of which nothing is written yet, in these extents, its head first.
    pub fn new(gate: u8, link: u32, numbers: Vec<u32>, content: Vec<u8>) -> ExtentsWriter
        requires count { length numbers.items ≡ count_of (length content.items) }
        requires in_range { AllByRecursion (IsNumberOf (2 ^ 20)) numbers.items }
        ensures { result ≡ record { numbers = numbers.items; left = whole_parts gate link numbers.items content.items } }
    {
        ExtentsWriter {
            gate,
            link,
            numbers,
            content,
            written: 0,
        }
    }

    /// Its extents.
    pub fn numbers(&self) -> &[u32]
        ensures { result.now ≡ self.now.numbers }
    {
        self.numbers.as_slice()
    }

    /// Whether all is written.
    pub fn is_written(&self) -> bool
        ensures yes { IsTrue result → length self.now.left ≡ 0 }
        ensures no { result ≡ false → 0 < length self.now.left }
    {
        self.numbers.len() <= self.written
    }
}

// The number of the extent behind this one, or 0 behind the last.
fn number_behind(numbers: &[u32], index: usize) -> u32
    requires { index < length numbers.now }
    ensures { result ≡ first_or 0 (drop (index + 1) numbers.now) }
{
    match numbers.get(index + 1) {
        Some(number) => *number,
        None => 0,
    }
}

// Gate and link stand in the head alone.
fn gate_at(gate: u8, index: usize) -> u8
    ensures { result ≡ at_head gate index }
{
    if index == 0 { gate } else { 0 }
}

fn link_at(link: u32, index: usize) -> u32
    ensures { result ≡ at_head link index }
{
    if index == 0 { link } else { 0 }
}

// The extent's part of a content.
fn body_of(content: &[u8], index: usize) -> &[u8]
    requires { 8168 * index ≤ length content.now }
    ensures { result.now ≡ take 8168 (drop (8168 * index) content.now) }
{
    let rest = &content[BODY_LEN * index..];
    &rest[..rest.len().min(BODY_LEN)]
}

// The bytes of an extent of such a chain.
fn image_of(gate: u8, link: u32, number: u32, next: u32, body: &[u8]) -> [u8; EXTENT_LEN]
    requires { length body.now ≤ 8168 }
    ensures { result ≡ linked_bytes (record { gate = gate; number = number; next = next; link = link; body = body.now }) }
{
    let mut image = [0; EXTENT_LEN];
    fill_extent(link, number, next, body, &mut image);
    image[0] = gate;
    image
}

impl ExtentsWriter {
    /// The next device call of the chain, which writes its next extent. A refused one changes nothing here.
    pub fn write_next<D: Disk>(&mut self, disk: &mut D) -> Result<(), DeviceFault>
        requires { 0 < length self.old.left }
        ensures call { (p : Part) (rest : List Part) → self.old.left ≡ p ∷ rest → IsTrue D.tells
            → Writes Heap p.place p.bytes result (D.state disk.old).areas (D.state disk.new).areas }
        ensures counts { Counts result (D.state disk.old) (D.state disk.new) }
        ensures ok { OnOk result (self.new ≡ record { numbers = self.old.numbers; left = drop 1 self.old.left }) }
        ensures err { OnErr result (self.new ≡ self.old) }
    {
        let index = self.written;
        let number = self.numbers[index];
        let gate = gate_at(self.gate, index);
        let link = link_at(self.link, index);
        let next = number_behind(self.numbers.as_slice(), index);
        let body = body_of(self.content.as_slice(), index);
        let image = image_of(gate, link, number, next, body);
        disk.write_at(Area::Heap, extent_place(number), &image)?;
        self.written = index + 1;
        Ok(())
    }
}
