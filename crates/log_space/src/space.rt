//! Which extents of a heap are in use, and which one a search finds.

ghost use Rattle.std.specs.Prelude.{◌≡◌, ◌≢◌, ℕ, ◌≤◌, ◌<◌, ◌+◌, ◌-◌, length, IfOk, MatchOption, replicate, IsTrue, ◌↔◌, true, false, if◌then◌else◌};
ghost use Rattle.std.specs.List.{AllByRecursion};
ghost use Rattle.log_space.specs.Uses.{IsFree, with_use, all_used, used_count, IsLeastFree, AreUsed, IsLeastPlace, HasNoFree};

use std::alloc::{AllocError, Global};
use std::marker::Model;

/// Which extents of a heap are in use. Those are numbered from 1 on.
#[derive(Drop)]
pub struct Space {
    // That of extent n at place n - 1.
    used: Vec<bool>,
    // None of so many from the first on is free, so a search begins behind them.
    passed: usize,
    count: u32,
}

impl Model for Space {
    ghost use Rattle.std.specs.Prelude.{List, Bool};
    ghost use Rattle.log_space.specs.Uses.{AreUses};

    ghost Value = { List Bool };

    ghost view = { λ s. s.used.items };

    ghost invariant = { λ s. AreUses s.used.items s.passed s.count };
}

// The least place of a free one, where none of the first `passed` is free.
fn least_place(used: &[bool], passed: usize) -> Option<usize>
    requires { AreUsed used.now passed }
    ensures { MatchOption result (HasNoFree used.now) (IsLeastPlace used.now) }
{
    for place in passed..used.len() {
        if !used[place] {
            return Some(place);
        }
    }
    None
}

impl Space {
    /// A heap of so many extents, all free.
    pub fn new(alloc: Global, most: u32) -> Result<Space, AllocError>
        ensures { IfOk result (λ space. space ≡ replicate most false) }
    {
        let used = vec![in alloc; false; most as usize]?;
        Ok(Space {
            used,
            passed: 0,
            count: 0,
        })
    }

    /// How many extents the heap has.
    pub fn len(&self) -> u32
        ensures { result ≡ length self.now }
    {
        self.used.len() as u32
    }

    /// Whether the heap has an extent of this number, and it is free.
    pub fn is_free(&self, number: u32) -> bool
        ensures { IsTrue result ↔ IsFree self.now number }
    {
        1 <= number && number as usize <= self.used.len() && !self.used[number as usize - 1]
    }

    /// Takes the extent of this number into use, if it is free; says whether it was.
    pub fn claim(&mut self, number: u32) -> bool
        ensures was_free { IsTrue result ↔ IsFree self.old number }
        ensures is { self.new ≡ (if result then with_use self.old number true else self.old) }
    {
        if !self.is_free(number) {
            return false;
        }
        self.used[number as usize - 1] = true;
        self.count += 1;
        true
    }

    /// Takes the extents of these numbers into use, those too that are in use already.
    pub fn claim_all(&mut self, numbers: &[u32])
        requires { AllByRecursion (λ (number : ℕ). 0 < number) numbers.now }
        ensures is { self.new ≡ all_used self.old numbers.now }
        ensures most { used_count self.new ≤ used_count self.old + length numbers.now }
    {
        let mut rest = numbers;
        while let Some((number, after)) = rest.split_first() {
            let _was_free = self.claim(*number);
            rest = after;
        }
    }

    /// Frees all extents.
    pub fn clear(&mut self)
        ensures { self.new ≡ replicate (length self.old) false }
    {
        self.used.as_mut_slice().fill(false);
        self.passed = 0;
        self.count = 0;
    }

    /// The free extent of the least number; none if no extent is free.
    pub fn least(&self) -> Option<u32>
        ensures { MatchOption result ((number : ℕ) → ¬ IsFree self.now number) (IsLeastFree self.now) }
    {
        match least_place(&self.used, self.passed) {
            None => None,
            Some(place) => Some(place as u32 + 1),
        }
    }

    /// Takes the free extent of the least number into use; none if no extent is free.
    pub fn take(&mut self) -> Option<u32>
        ensures { MatchOption result (((number : ℕ) → ¬ IsFree self.old number) × (self.new ≡ self.old))
            (λ number. IsLeastFree self.old number × (self.new ≡ with_use self.old number true)) }
    {
        match least_place(&self.used, self.passed) {
            None => {
                self.passed = self.used.len();
                None
            }
            Some(place) => {
                self.used[place] = true;
                self.count += 1;
                self.passed = place;
                Some(place as u32 + 1)
            }
        }
    }

    /// Frees the extent of this number. A number that no extent of the heap has changes nothing.
    pub fn free(&mut self, number: u32)
        ensures is { 0 < number → self.new ≡ with_use self.old number false }
        ensures zero { number ≡ 0 → self.new ≡ self.old }
    {
        if number == 0 || number as usize > self.used.len() {
            return;
        }
        let place = number as usize - 1;
        if self.used[place] {
            self.used[place] = false;
            self.count -= 1;
            if place < self.passed {
                self.passed = place;
            }
        }
    }

    /// How many extents are in use.
    pub fn used(&self) -> u32
        ensures is { result ≡ used_count self.now }
        ensures most { result ≤ length self.now }
    {
        self.count
    }
}
