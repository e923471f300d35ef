//! Which commit's chain has each extent.

ghost use Rattle.std.specs.Prelude.{◌≡◌, ◌≢◌, ◌<◌, ℕ, IfOk, replicate};
ghost use Rattle.extents.specs.Usages.{HasUsage, IsKept};
ghost use Rattle.extents.specs.declared.usage.Usage.{Usage};
ghost use Rattle.extents.specs.declared.usage.Usage.TheVariants.{Kept};
ghost use Rattle.extents.specs.Times.{with_time, time_of, all_retired_by};

use crate::extent::EXTENTS;
use crate::extents::Extents;
use std::alloc::{AllocError, Global};
use std::marker::Model;

/// The time of the commit whose chain has each extent, in microseconds since 1970; 0 where a chain
/// of anchors has it, or none.
#[derive(Drop)]
pub struct ChainTimes {
    // That of extent n at place n - 1.
    times: Vec<u64>,
}

impl Model for ChainTimes {
    ghost use Rattle.std.specs.Prelude.{◌≡◌, ℕ, List, length};

    ghost Value = { List ℕ };

    ghost view = { λ t. t.times.items };
}

impl ChainTimes {
    /// No commit's chain has an extent.
    pub fn new(alloc: Global) -> Result<ChainTimes, AllocError>
        ensures { IfOk result (λ times. times ≡ replicate 65536 0) }
    {
        let times = vec![in alloc; 0; EXTENTS]?;
        Ok(ChainTimes { times })
    }

    /// The extent of this number is in the chain of a commit of this time, or of anchors where that
    /// is 0.
    pub fn set(&mut self, number: u32, time: u64)
        ensures { self.new ≡ with_time self.old number time }
    {
        let place = (number as usize).saturating_sub(1);
        if place < self.times.len() {
            self.times[place] = time;
        }
    }

    /// The time of the commit whose chain has the extent of this number.
    pub fn time_of(&self, number: u32) -> u64
        ensures { result ≡ time_of self.now number }
    {
        match self.times.get((number as usize).saturating_sub(1)) {
            None => 0,
            Some(time) => *time,
        }
    }
}

impl Extents {
    /// Frees each kept extent of a chain of anchors, or of a commit with a time up to the mark. It
    /// takes no memory.
    pub fn retire_by(&mut self, times: &ChainTimes, mark: u64)
        ensures is { self.new ≡ all_retired_by mark times.now self.old }
        ensures kept { (number : ℕ) → mark < time_of times.now number → IsKept self.old number → IsKept self.new number }
        ensures others { (usage : Usage) (number : ℕ) → usage ≢ Kept → HasUsage usage self.old number → HasUsage usage self.new number }
    {
        let count = self.usages.len() as u32;
        for place in 0..count {
            if times.time_of(place + 1) <= mark {
                self.retire(place + 1);
            }
        }
    }
}
