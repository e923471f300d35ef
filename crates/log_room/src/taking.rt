//! Extents taken into use one after the other.
ghost use Rattle.std.specs.Prelude.{◌≡◌, ◌≤◌, ◌+◌, ◌∷◌, [], ℕ, List, IfOk, OnErr, length, vec_capacity};
ghost use Rattle.log_space.specs.Uses.{used_count};
ghost use Rattle.log_room.specs.Rooms.{TakesLeast};

use log_space::Space;
use std::alloc::{AllocError, Global};

/// This number, and after it so many of the free extents, which are in use now: each the least free one.
pub(crate) fn take_least(
    alloc: Global,
    space: &mut Space,
    first: u32,
    count: usize,
) -> Result<Vec<u32>, AllocError>
    requires room { used_count space.old + count ≤ length space.old }
    requires few { length space.old ≤ 1048576 }
    ensures ok { IfOk result (λ numbers. (taken : List ℕ) × (numbers.items ≡ first ∷ taken) × TakesLeast space.old count taken space.new) }
    ensures err { OnErr result (space.new ≡ space.old) }
{
    let mut numbers = Vec::with_capacity(alloc, count + 1)?;
    numbers.push_reserved(first);
    for _ in 0..count {
        match space.take() {
            Some(number) => numbers.push_reserved(number),
            None => unreachable!(),
        }
    }
    Ok(numbers)
}

/// So many of the free extents, which are in use now: each the least free one. They are put in the place that was made for
/// them.
pub(crate) fn take_free(space: &mut Space, place: Vec<u32>, count: usize) -> Vec<u32>
    requires room { used_count space.old + count ≤ length space.old }
    requires few { length space.old ≤ 1048576 }
    requires none { place.items ≡ [] }
    requires place { vec_capacity place ≡ count }
    ensures { TakesLeast space.old count result.items space.new }
{
    let mut numbers = place;
    for _ in 0..count {
        match space.take() {
            Some(number) => numbers.push_reserved(number),
            None => unreachable!(),
        }
    }
    numbers
}
