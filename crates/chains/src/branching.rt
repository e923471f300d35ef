//! Branches of a key's older writes that lie together, one after another.
ghost use Rattle.std.specs.Prelude.{◌≡◌, ◌<◌, ◌≤◌, ◌-◌, ◌++◌, IfOk, OnOk, drop, length, take};
ghost use Rattle.history.specs.Time.{IsRisingAfter};
ghost use Rattle.chains.specs.Branches.{BeginBy, BeginAfter, IsFrom};
ghost use Rattle.chains.specs.Growth.{branches_of};
ghost use Rattle.chains.specs.Shapes.{all_of, highest};
ghost use Rattle.chains.specs.Rows as specs;

use crate::older::{Branch, Older};
use crate::share::Share;
use std::alloc::AllocError;

/// How many branches lie together at most.
pub(crate) const WIDTH: usize = 32;

/// From so many branches on they take the memory of as many as lie together at most.
pub(crate) const NEARLY_ALL: usize = 24;

/// The memory that a fork of so many branches takes, in branches.
pub(crate) fn room_for(count: usize) -> usize {
    if count < NEARLY_ALL {
        count
    } else {
        count.max(WIDTH)
    }
}

/// These branches, and the last one again and again after them, up to as many as lie together at most.
pub(crate) fn padded(branches: Vec<Branch>) -> Result<Vec<Branch>, AllocError>
    requires some { 0 < length branches.items }
    requires few { length branches.items ≤ 32 }
    ensures front { IfOk result (λ all. take (length branches.items) all.items ≡ branches.items) }
    ensures full { IfOk result (λ all. length all.items ≡ 32) }
    ensures low { IfOk result (λ all. highest all.items ≤ highest branches.items) }
{
    let mut all = branches;
    while all.len() < WIDTH {
        let last = all[all.len() - 1].share()?;
        all.push(last)?;
    }
    Ok(all)
}

/// Puts a branch of older writes after others, where there are some.
pub(crate) fn add_branch(branches: &mut Vec<Branch>, older: Older) -> Result<(), AllocError>
    ensures chunks { OnOk result (all_of branches.new.items ≡ all_of branches.old.items ++ older.chunks) }
    ensures branches { OnOk result (branches.new.items ≡ branches.old.items ++ branches_of older older.chunks) }
{
    if let Some(branch) = Branch::of(older) {
        branches.push(branch)?;
    }
    Ok(())
}

/// When the first write of these branches was made, or `end` where there is none.
pub(crate) fn first_time_or(branches: &[Branch], end: u64) -> u64
    ensures { result ≡ specs.first_time_or end (all_of branches.now) }
{
    match branches {
        [] => end,
        [branch, ..] => branch.first_time(),
    }
}

/// The first of these branches, from a place on, that begins after a time; after the last where none does.
#[inline]
fn later_from(branches: &[Branch], place: usize, time: u64) -> usize
    ensures within { result ≤ length branches.now }
    ensures after { BeginAfter time (drop result branches.now) }
{
    let mut begun = place.min(branches.len());
    while begun < branches.len() && branches[begun].first_time() <= time {
        begun += 1;
    }
    begun
}

/// How many of the branches begin by a time. They are few and lie together, so they are passed one after
/// another from a place on, which may be any: where they come from far, halving would wait for each step's.
#[inline]
pub(crate) fn begun_by(branches: &[Branch], place: usize, time: u64) -> usize
    ensures within { result ≤ length branches.now }
    ensures before { 0 < result → BeginBy time (drop (result - 1) branches.now) }
    ensures after { BeginAfter time (drop result branches.now) }
{
    let mut begun = later_from(branches, place, time);
    while begun > 0 && time < branches[begun - 1].first_time() {
        begun -= 1;
    }
    begun
}

/// The branches from the last one on that begins by a time; all of them where none does.
pub(crate) fn from_begun(branches: &[Branch], time: u64) -> &[Branch]
    requires { IsRisingAfter 0 (all_of branches.now) }
    ensures { IsFrom time branches.now result.now }
{
    let begun = begun_by(branches, branches.len(), time);
    &branches[begun.saturating_sub(1)..]
}
