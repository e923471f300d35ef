//! The extents of a chain, read one after the other.

ghost use Rattle.std.specs.Prelude.{◌≡◌, ◌≢◌, ◌≤◌, ◌↔◌, ℕ, List, [], ◌∷◌, ◌++◌, length, IsTrue, IfOk, OnOk, OnErr, IfSome, IfNone};
ghost use Rattle.std.specs.List.{AllByRecursion};
ghost use Rattle.log_extents.specs.Extents.{LinkedExtent, linked_bytes, extent_of};
ghost use Rattle.log_extents.specs.Chains.{IsNew, AreOthersUpto, greatest_after};
ghost use Rattle.log_extents.specs.Taking.{ChainState, IsTaking, IsPlaced, GoesOn, Fits, behind, Takes, gate_of, IsLinkOf, link_after, told_by};

use crate::extent::{BODY_LEN, LinkedRef, is_open};
use crate::reading::read_extent;
use deltas::EXTENT_LEN;
use std::alloc::{AllocError, Global};
use std::marker::Model;

/// Which chain is read.
#[derive(Clone, Copy, Debug, PartialEq, Eq)]
pub enum ChainKind {
    /// A chain of the log: the gate of its first extent is open, and that names the extent where the
    /// next chain of the log begins.
    Log,
    /// A chain of anchors: its gate and its link are 0.
    Anchors,
}

/// What the extents so far are.
#[derive(Clone, Copy, Debug, PartialEq, Eq)]
pub enum Taken {
    /// The beginning of a chain, which goes on with the extent of this number.
    More(u32),
    /// A whole chain.
    Whole,
    /// No chain, whatever comes after them.
    Bad,
}

/// A chain that was read: the numbers of its extents, the link of its first one, and the bytes that they hold.
#[derive(Drop)]
pub struct ChainParts {
    pub numbers: Vec<u32>,
    pub link: u32,
    pub content: Vec<u8>,
}

/// The extents of a chain as far as they were read, and the bytes that they hold.
#[derive(Drop)]
pub struct ChainReader {
    kind: ChainKind,
    most: u32,
    numbers: Vec<u32>,
    // The greatest of the numbers behind the first. A chain's extents are mostly by rising numbers,
    // so that the next one is mostly seen to be new by this alone.
    greatest: u32,
    next: u32,
    link: u32,
    content: Vec<u8>,
}

impl Model for ChainReader {
    ghost use Rattle.log_extents.specs.Chains.{AreOthersUpto};
    ghost use Rattle.log_extents.specs.Taking.{ChainState, IsTaking, state_of};

    ghost Value = { ChainState };

    ghost view = { λ r. state_of r.kind r.most r.numbers.items r.next r.link r.content.items };

    ghost invariant = { λ r. IsTaking (state_of r.kind r.most r.numbers.items r.next r.link r.content.items) × AreOthersUpto r.greatest r.numbers.items };
}

fn is_link(kind: ChainKind, most: u32, link: u32) -> bool
    ensures { IsTrue result ↔ IsLinkOf kind most link }
{
    match kind {
        ChainKind::Log => 1 <= link && link <= most,
        ChainKind::Anchors => link == 0,
    }
}

fn is_gate(kind: ChainKind, gate: u8) -> bool
    ensures { IsTrue result ↔ (gate ≡ gate_of kind) }
{
    match kind {
        ChainKind::Log => is_open(gate),
        ChainKind::Anchors => gate == 0,
    }
}

fn is_placed(kind: ChainKind, most: u32, numbers: &[u32], extent: LinkedRef<'_>) -> bool
    ensures { IsTrue result ↔ IsPlaced kind most numbers.now (extent_of extent.entry) }
{
    match numbers {
        [] => is_gate(kind, extent.gate) && is_link(kind, most, extent.link),
        [_, ..] => extent.gate == 0 && extent.link == 0,
    }
}

fn is_new(number: u32, numbers: &[u32]) -> bool
    ensures { IsTrue result ↔ IsNew number numbers.now }
{
    let mut rest = numbers;
    while let [other, after @ ..] = rest {
        if *other == number {
            return false;
        }
        rest = after;
    }
    true
}

// The same where none of the others is above the greatest.
fn is_new_upto(number: u32, others: &[u32], greatest: u32) -> bool
    requires { AllByRecursion (λ n. n ≤ greatest) others.now }
    ensures { IsTrue result ↔ IsNew number others.now }
{
    if greatest < number {
        return true;
    }
    is_new(number, others)
}

fn is_new_behind(number: u32, numbers: &[u32], greatest: u32) -> bool
    requires { AreOthersUpto greatest numbers.now }
    ensures { IsTrue result ↔ IsNew number numbers.now }
{
    match numbers {
        [] => true,
        [first, others @ ..] => *first != number && is_new_upto(number, others, greatest),
    }
}

fn goes_on(numbers: &[u32], greatest: u32, extent: LinkedRef<'_>) -> bool
    requires { AreOthersUpto greatest numbers.now }
    ensures { IsTrue result ↔ GoesOn numbers.now (extent_of extent.entry) }
{
    extent.next == 0
        || (extent.body.len() == BODY_LEN
            && extent.number != extent.next
            && is_new_behind(extent.next, numbers, greatest))
}

// The link of the chain behind an extent, of which that may be the first.
fn link_after(numbers: &[u32], link: u32, own: u32) -> u32
    ensures { result ≡ link_after numbers.now link own }
{
    match numbers {
        [] => own,
        [_, ..] => link,
    }
}

// The greatest number behind the first, with one more at the end.
fn greatest_after(numbers: &[u32], greatest: u32, number: u32) -> u32
    ensures { result ≡ greatest_after numbers.now greatest number }
{
    match numbers {
        [] => 0,
        [_, ..] => greatest.max(number),
    }
}

fn taken_of(next: u32) -> Taken
    ensures { result ≡ told_by next }
{
    match next {
        0 => Taken::Whole,
        number => Taken::More(number),
    }
}

// Puts a number and bytes behind the others; where memory is short, neither.
fn append(
    numbers: &mut Vec<u32>,
    content: &mut Vec<u8>,
    number: u32,
    bytes: &[u8],
) -> Result<(), AllocError>
    ensures numbers { OnOk result (numbers.new.items ≡ numbers.old.items ++ number ∷ []) }
    ensures content { OnOk result (content.new.items ≡ content.old.items ++ bytes.now) }
    ensures same_numbers { OnErr result (numbers.new.items ≡ numbers.old.items) }
    ensures same_content { OnErr result (content.new.items ≡ content.old.items) }
{
    numbers.reserve(1)?;
    content.extend_from_slice(bytes)?;
    numbers.push_reserved(number);
    Ok(())
}

impl ChainReader {
    /// Nothing is read yet of the chain whose first extent has this number, in a heap of `most`
    /// extents. The first extent that `take` is given is this one.
    pub fn new(alloc: Global, kind: ChainKind, most: u32, number: u32) -> ChainReader
        ensures { result ≡ record { kind = kind; most = most; numbers = []; next = number; link = 0; content = [] } }
    {
        ChainReader {
            kind,
            most,
            numbers: Vec::new(alloc),
            greatest: 0,
            next: number,
            link: 0,
            content: Vec::new(alloc),
        }
    }

    // What the bytes say, if they are an extent that may come next.
    fn fitting<'a>(&self, image: &'a [u8; EXTENT_LEN]) -> Option<LinkedRef<'a>>
        ensures found { IfSome result (λ extent. Fits self.now (extent_of extent) × (image.now ≡ linked_bytes (extent_of extent))) }
        ensures none { IfNone result ((e : LinkedExtent) → Fits self.now e → image.now ≢ linked_bytes e) }
        ensures taking { IsTaking self.now }
    {
        let extent = read_extent(image, self.most)?;
        let numbers = self.numbers.as_slice();
        let fits = extent.number == self.next
            && is_placed(self.kind, self.most, numbers, extent)
            && goes_on(numbers, self.greatest, extent);
        if fits { Some(extent) } else { None }
    }

    // Puts the extent behind the others.
    fn push(&mut self, extent: LinkedRef<'_>) -> Result<(), AllocError>
        requires { Fits self.old (extent_of extent) }
        ensures ok { OnOk result (self.new ≡ behind self.old (extent_of extent.entry)) }
        ensures err { OnErr result (self.new ≡ self.old) }
    {
        let link = link_after(self.numbers.as_slice(), self.link, extent.link);
        let greatest = greatest_after(self.numbers.as_slice(), self.greatest, extent.number);
        append(
            &mut self.numbers,
            &mut self.content,
            extent.number,
            extent.body,
        )?;
        self.greatest = greatest;
        self.link = link;
        self.next = extent.next;
        Ok(())
    }

    /// Takes the next extent of the chain: the first is the one of `new`'s number, and each other
    /// one that of the number that `More` told before. Where it is `Bad`, nothing has changed.
    ///
    /// # Errors
    ///
    /// `AllocError`; nothing has changed then.
    pub fn take(&mut self, image: &[u8; EXTENT_LEN]) -> Result<Taken, AllocError>
        ensures taken { IfOk result (λ taken. Takes self.old self.new image.now taken) }
        ensures err { OnErr result (self.new ≡ self.old) }
    {
        let Some(extent) = self.fitting(image) else {
            return Ok(Taken::Bad);
        };
        self.push(extent)?;
        Ok(taken_of(extent.next))
    }

    /// The numbers of the extents that were taken.
    pub fn numbers(&self) -> &[u32]
        ensures { result.now ≡ self.now.numbers }
    {
        self.numbers.as_slice()
    }

    /// The link of the first extent; 0 as long as none was taken.
    pub fn link(&self) -> u32
        ensures { result ≡ self.now.link }
    {
        self.link
    }

    /// The bytes of the extents that were taken, in their order.
    pub fn into_content(self) -> Vec<u8>
        ensures { result.items ≡ self.content }
    {
        self.content
    }

    /// The extents that were taken, with the link of the first and the bytes of all.
    pub fn into_parts(self) -> ChainParts
        ensures numbers { result.numbers.items ≡ self.numbers }
        ensures link { result.link ≡ self.link }
        ensures content { result.content.items ≡ self.content }
    {
        ChainParts {
            numbers: self.numbers,
            link: self.link,
            content: self.content,
        }
    }
}
