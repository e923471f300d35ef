//! The chains of the log, as memory has them.
ghost use Rattle.std.specs.Prelude.{◌≡◌, ◌<◌, ◌≤◌, ◌∷◌, [], ◌↔◌, IsTrue, IfOk, OnOk, length, drop, vec_len, vec_capacity};
ghost use Rattle.std.specs.List.{AllByRecursion};
ghost use Rattle.log_recovery.specs.declared.live.LivePart.TheVariants as parts;
ghost use Rattle.log_store.specs.Live.{none_live, with_live, is_base, IsNoBase, AreNumbers, HasNumbers, AreLive};

use log_entries::Base;
use log_recovery::{LiveChain, LivePart};
use std::alloc::{AllocError, Global};
use std::marker::Model;

/// The extents of a heap have numbers from 1 up to this one.
const MOST_EXTENTS: u32 = 1 << 20;

// Whether these are numbers of extents.
fn are_numbers(numbers: &[u32]) -> bool
    ensures { IsTrue result ↔ AreNumbers numbers.now }
{
    let mut rest = numbers;
    while let [first, after @ ..] = rest {
        if *first == 0 || *first > MOST_EXTENTS {
            return false;
        }
        rest = after;
    }
    true
}

// Whether all extents of these chains have such numbers.
fn have_numbers(chains: &[LiveChain]) -> bool
    ensures { IsTrue result ↔ AllByRecursion HasNumbers chains.now }
{
    let mut rest = chains;
    while let [first, after @ ..] = rest {
        if !are_numbers(&first.numbers) {
            return false;
        }
        rest = after;
    }
    true
}

// Whether a chain is a base.
fn is_base(part: &LivePart) -> bool
    ensures { result ≡ is_base part.now }
{
    matches!(part, LivePart::Base(_))
}

// Whether none of these chains is one.
fn are_no_bases(chains: &[LiveChain]) -> bool
    ensures { IsTrue result ↔ AllByRecursion IsNoBase chains.now }
{
    let mut rest = chains;
    while let [first, after @ ..] = rest {
        if is_base(&first.part) {
            return false;
        }
        rest = after;
    }
    true
}

/// Whether these are the chains and the anchors of a log as far as their extents go, and no chain but the first is a base.
pub(crate) fn are_live(chains: &[LiveChain], anchors: &[u32]) -> bool
    ensures { IsTrue result ↔ AreLive (record { chains = chains.now; anchors = anchors.now }) }
{
    let behind = match chains {
        [] => true,
        [_, behind @ ..] => are_no_bases(behind),
    };
    behind && have_numbers(chains) && are_numbers(anchors)
}

// A chain takes the place of so many of the first ones. It takes no memory.
fn put_first(chains: &mut Vec<LiveChain>, front: usize, first: LiveChain)
    requires front { front ≤ length chains.old.items }
    requires room { front ≡ 0 → vec_len chains.old < vec_capacity chains.old }
    ensures { chains.new.items ≡ first ∷ drop front chains.old.items }
{
    let kept = chains.len() - front;
    chains.as_mut_slice().rotate_left(front);
    chains.truncate(kept);
    chains.push_reserved(first);
    chains.as_mut_slice().rotate_right(1);
}

/// The chains of the log, and the extents of the base's anchors.
#[derive(Drop)]
pub struct Live {
    // In their order, the base first if there is one. While a group or an entry is in the writing its chain is the last one.
    chains: Vec<LiveChain>,
    anchors: Vec<u32>,
}

impl Model for Live {
    ghost use Rattle.std.specs.Prelude.{◌≡◌, ◌⊎◌, ◌<◌, ◌-◌, true, vec_len, vec_capacity};
    ghost use Rattle.log_store.specs.Live.{LivePlaces, begins_with_base};

    ghost Value = { LivePlaces };

    ghost view = { λ l. record {
      live = record { chains = l.chains.items; anchors = l.anchors.items };
      spare = vec_capacity l.chains - vec_len l.chains;
    } };

    // A base has its place: that of the one that stands, or a spare one.
    ghost invariant = { λ l. (begins_with_base l.chains.items ≡ true) ⊎ (vec_len l.chains < vec_capacity l.chains) };
}

impl Live {
    /// These chains, and anchors of these extents.
    pub(crate) fn new(chains: Vec<LiveChain>, anchors: Vec<u32>) -> Result<Live, AllocError>
        ensures { IfOk result (λ live. live.live ≡ record { chains = chains.items; anchors = anchors.items }) }
    {
        let mut chains = chains;
        chains.reserve(1)?;
        Ok(Live { chains, anchors })
    }

    /// None of them.
    pub(crate) fn none(alloc: Global) -> Result<Live, AllocError>
        ensures { IfOk result (λ live. live.live ≡ none_live) }
    {
        Live::new(Vec::new(alloc), Vec::new(alloc))
    }

    /// The chains in their order.
    pub(crate) fn chains(&self) -> &[LiveChain]
        ensures { result.now ≡ self.now.live.chains }
    {
        self.chains.as_slice()
    }

    /// The extents of the base's anchors.
    pub(crate) fn anchors(&self) -> &[u32]
        ensures { result.now ≡ self.now.live.anchors }
    {
        self.anchors.as_slice()
    }

    /// Takes memory for one chain more, of so many extents.
    pub(crate) fn make_place(&mut self, alloc: Global, count: usize) -> Result<Vec<u32>, AllocError>
        ensures same { self.new.live ≡ self.old.live }
        ensures room { OnOk result (1 < self.new.spare) }
        ensures none { IfOk result (λ place. place.items ≡ []) }
        ensures place { IfOk result (λ place. vec_capacity place ≡ count) }
    {
        let place = Vec::with_capacity(alloc, count)?;
        self.chains.reserve(2)?;
        Ok(place)
    }

    /// One chain more, in the place that was made for it. It takes no memory.
    pub(crate) fn put(&mut self, place: Vec<u32>, numbers: &[u32], part: LivePart)
        requires room { 1 < self.old.spare }
        requires none { place.items ≡ [] }
        requires place { length numbers.now ≤ vec_capacity place }
        ensures { self.new.live ≡ with_live self.old.live numbers.now part }
    {
        let mut copy = place;
        match copy.extend_from_slice(numbers) {
            Err(AllocError) => unreachable!(),
            Ok(()) => self.chains.push_reserved(LiveChain {
                numbers: copy,
                part,
            }),
        }
    }

    /// A base takes the place of so many of the first chains, among them the base before, if there is one. It takes no memory.
    pub(crate) fn put_base(
        &mut self,
        front: usize,
        numbers: Vec<u32>,
        base: Base,
        anchors: Vec<u32>,
    )
        requires front { front ≤ length self.old.live.chains }
        requires back { AllByRecursion IsNoBase (drop front self.old.live.chains) }
        ensures { self.new.live ≡ record {
          chains = record { numbers = numbers.items; part = parts.Base base } ∷ drop front self.old.live.chains;
          anchors = anchors.items;
        } }
    {
        let first = LiveChain {
            numbers,
            part: LivePart::Base(base),
        };
        put_first(&mut self.chains, front, first);
        self.anchors = anchors;
    }
}
