//! Versions of one key that lie together, for who goes over all of them.
ghost use Rattle.std.specs.Prelude.{◌≡◌, ◌<◌, ◌≤◌, ℕ, IfOk, IfSome, IsTrue, None, false, drop, find, length, option_map, slice_get};
ghost use Rattle.history.specs.Versions.{version_of, ends_after};
ghost use Rattle.chains.specs.Found.{IsFound};
ghost use Rattle.chains.specs.Rows.{versions_upto, version_of_loan};

use crate::chunk::Chunk;
use crate::rows::one_if_near;
use crate::share::Share;
use crate::shared_value::SharedValue;
use crate::stamped::StampedWrite;
use crate::write::first_time_or;
use history::Version;
use std::alloc::AllocError;
use std::marker::Model;

/// Some versions of one key, one after another, oldest first. It is one more holder of their writes,
/// whatever is made of the chain that they are of.
#[derive(Drop)]
pub struct Part {
    chunk: Chunk,
    end: u64,
    passed: usize,
}

impl Model for Part {
    ghost use Rattle.std.specs.Prelude.{◌≤◌, drop, length};
    ghost use Rattle.chains.specs.Found.{Versions};
    ghost use Rattle.chains.specs.Rows.{versions_upto};

    ghost Value = { Versions };

    ghost view = { λ p. versions_upto p.end (drop p.passed p.chunk) };

    ghost invariant = { λ p. p.passed ≤ length p.chunk };
}

/// Whether a write has a version that ends at `to`, after the time.
fn is_ending_after(write: &StampedWrite, to: u64, time: u64) -> bool
    ensures none { result ≡ false → find (ends_after time) (version_of write.now.time to write.now.write) ≡ None }
    ensures found { IsTrue result
        → find (ends_after time) (version_of write.now.time to write.now.write) ≡ slice_get (version_of write.now.time to write.now.write) 0 }
    ensures some { IsTrue result → 0 < length (version_of write.now.time to write.now.write) }
{
    let Some(_) = write.value() else {
        return false;
    };
    time < to
}

/// How many of these writes come before the first version that ends after the time; the last version
/// ends at `end`.
fn before_ending(writes: &[StampedWrite], end: u64, time: u64) -> usize
    ensures within { result ≤ length writes.now }
    ensures found { slice_get (versions_upto end (drop result writes.now)) 0 ≡ find (ends_after time) (versions_upto end writes.now) }
{
    let mut passed = 0;
    let mut rest = writes;
    while let [first, after @ ..] = rest {
        if is_ending_after(first, first_time_or(after, end), time) {
            return passed;
        }
        rest = after;
        passed += 1;
    }
    passed
}

/// The first version of these writes; the last one ends at `end`.
fn first_version(writes: &[StampedWrite], end: u64) -> Option<Version<&SharedValue>>
    ensures { option_map version_of_loan result ≡ slice_get (versions_upto end writes.now) 0 }
{
    let mut rest = writes;
    while let [first, after @ ..] = rest {
        if let Some(value) = first.value() {
            return Some(Version {
                from: first.time(),
                to: first_time_or(after, end),
                value,
            });
        }
        rest = after;
    }
    None
}

/// How many of these writes there are up to the first version, with that one's own.
fn upto_first(writes: &[StampedWrite]) -> usize
    ensures within { result ≤ length writes.now }
    ensures left { (end : ℕ) → versions_upto end (drop result writes.now) ≡ drop 1 (versions_upto end writes.now) }
{
    let mut passed = 0;
    let mut rest = writes;
    while let [first, after @ ..] = rest {
        passed += 1;
        if first.value().is_some() {
            return passed;
        }
        rest = after;
    }
    passed
}

/// 1 where the write has a value, at which it does not look, and else 0.
fn one_if_written(write: &StampedWrite) -> usize
    ensures is { (from to : ℕ) → result ≡ length (version_of from to write.now.write) }
    ensures most { result ≤ 1 }
{
    match write.value() {
        Some(_) => 1,
        None => 0,
    }
}

/// How many of these writes have a value. It looks at each value that was written before the time
/// `near`, in turn, at two places that lie apart, with nothing to be done between, so that a processor fetches many at once; who then
/// goes over them has them near.
fn version_count(writes: &[StampedWrite], near: u64) -> usize
    ensures is { (end : ℕ) → result ≡ length (versions_upto end writes.now) }
{
    let mut count = 0;
    let mut rest = writes;
    while let [first, after @ ..] = rest {
        count += if first.time() < near {
            one_if_near(first)
        } else {
            one_if_written(first)
        };
        rest = after;
    }
    count
}

/// How many of these writes come before the first version that ends after the time, none where no version
/// does; the last one ends at `end`. It looks at those that begin before the time `near`.
pub(crate) fn before_part(writes: &[StampedWrite], end: u64, time: u64, near: u64) -> Option<usize>
    ensures within { IfSome result (λ passed. passed ≤ length writes.now) }
    ensures is { IsFound time (versions_upto end writes.now) (option_map (λ passed. versions_upto end (drop passed writes.now)) result) }
{
    let passed = before_ending(writes, end, time);
    let versions = version_count(&writes[passed..], near);
    if versions == 0 {
        return None;
    }
    Some(passed)
}

impl Part {
    /// The versions of a chunk, without those of so many of its writes; the last one ends at `end`.
    pub(crate) fn new(chunk: Chunk, end: u64, passed: usize) -> Self
        requires { passed ≤ length chunk }
        ensures { result ≡ versions_upto end (drop passed chunk) }
    {
        Part { chunk, end, passed }
    }

    /// The versions of a chunk from the first one on that ends after the time; the last one ends at
    /// `end`. It looks at those that begin before the time `near`.
    pub(crate) fn of(
        chunk: &Chunk,
        end: u64,
        time: u64,
        near: u64,
    ) -> Result<Option<Part>, AllocError>
        ensures { IfOk result (IsFound time (versions_upto end chunk.now)) }
    {
        match before_part(chunk.as_slice(), end, time, near) {
            None => Ok(None),
            Some(passed) => Ok(Some(Part::new(chunk.share()?, end, passed))),
        }
    }

    /// The first of the versions.
    pub fn peek(&self) -> Option<Version<&SharedValue>>
        ensures { option_map version_of_loan result ≡ slice_get self.now 0 }
    {
        first_version(&self.chunk.as_slice()[self.passed..], self.end)
    }

    /// Goes on after the first of the versions.
    pub fn advance(&mut self)
        ensures { self.new ≡ drop 1 self.old }
    {
        let passed = upto_first(&self.chunk.as_slice()[self.passed..]);
        self.passed += passed;
    }
}
