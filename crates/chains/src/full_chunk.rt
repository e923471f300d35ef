//! As many writes of one key as a chunk has at most, in one place of memory.
ghost use Rattle.std.specs.Prelude.{◌≡◌, ◌<◌, ◌≤◌, IfOk, length, map, slice_index_or};
ghost use Rattle.std.specs.Option.{option_copied};
ghost use Rattle.history.specs.Time.{value_at, IsRisingAfter};
ghost use Rattle.chains.specs.Writes.{Write, IsBegun};

use crate::shared_value::SharedValue;
use crate::stamped::StampedWrite;
use std::alloc::{AllocError, Global};
use std::marker::Model;

/// How many writes a chunk has at most.
pub(crate) const MOST: usize = 32;

/// As many writes as a chunk has at most, oldest first. The time of each lies before them once more: a search
/// reads those times alone, which lie together, and the value is found where its number says.
#[derive(Drop)]
pub(crate) struct FullChunk {
    times: [u64; MOST],
    writes: [StampedWrite; MOST],
}

impl Model for FullChunk {
    ghost use Rattle.std.specs.Prelude.{List};
    ghost use Rattle.chains.specs.Writes.{Write};

    ghost Value = { List Write };

    ghost use Rattle.chains.specs.FullChunks.{HasTimes};

    ghost view = { λ f. f.writes };

    ghost invariant = { λ f. HasTimes f.times f.writes };
}

/// When each of these writes was made.
fn times_of(alloc: Global, writes: &[StampedWrite]) -> Result<Vec<u64>, AllocError>
    ensures { IfOk result (λ times. times.items ≡ map (λ w. w.time) writes.now) }
{
    let mut times = Vec::with_capacity(alloc, writes.len())?;
    let mut rest = writes;
    while let [write, after @ ..] = rest {
        times.push(write.time())?;
        rest = after;
    }
    Ok(times)
}

/// The place of the write that holds at a time, were as many as a chunk has at most made in even steps from
/// `first` on and before `end`.
#[inline]
pub(crate) fn even_place(first: u64, end: u64, time: u64) -> usize
    ensures { result < 32 }
{
    let step = (end.saturating_sub(first) / MOST as u64).max(1);
    (time.saturating_sub(first) / step).min(MOST as u64 - 1) as usize
}

impl FullChunk {
    /// A chunk of as many as it has at most.
    pub(crate) fn of(alloc: Global, writes: Vec<StampedWrite>) -> Result<Self, AllocError>
        requires { length writes.items ≡ 32 }
        ensures { IfOk result (λ f. f ≡ writes.items) }
    {
        let Ok(times) = <[u64; MOST]>::try_from(times_of(alloc, writes.as_slice())?) else {
            unreachable!()
        };
        let Ok(writes) = <[StampedWrite; MOST]>::try_from(writes) else {
            unreachable!()
        };
        Ok(FullChunk { times, writes })
    }

    /// Its writes.
    pub(crate) fn as_slice(&self) -> &[StampedWrite]
        ensures is { result.now ≡ self.now }
        ensures full { length self.now ≡ 32 }
    {
        &self.writes
    }

    /// When the write at a place was made.
    #[inline]
    pub(crate) fn time(&self, place: usize) -> u64
        requires { place < 32 }
        ensures is { (d : Write) → result ≡ (slice_index_or self.now place d).time }
        ensures full { length self.now ≡ 32 }
    {
        self.times[place]
    }

    /// The value of the write at a place.
    #[inline]
    fn value(&self, place: usize) -> Option<&SharedValue>
        requires { place < 32 }
        ensures { (d : Write) → option_copied result ≡ (slice_index_or self.now place d).write }
    {
        self.writes[place].value()
    }

    /// Whether the write at a place was made when it is said to be: it always was. It looks at both, neither of which
    /// tells where the other is, and at where the write ends, so that a processor fetches them together; who
    /// comes to them next has them near.
    #[inline]
    pub(crate) fn is_near(&self, place: usize) -> bool {
        let place = place.min(MOST - 1);
        let behind = (place + 1).min(MOST - 1);
        (self.times[place] == self.writes[place].time())
            & (self.times[behind] == self.writes[behind].time())
    }

    /// The first place from this one on whose write was made after a time; after the last where none was.
    #[inline]
    fn later_from(&self, place: usize, time: u64) -> usize
        requires { place ≤ 32 }
        ensures within { result ≤ 32 }
        ensures later { (d : Write) → result < 32 → time < (slice_index_or self.now result d).time }
        ensures full { length self.now ≡ 32 }
    {
        let places = self.as_slice().len();
        let mut begun = place;
        while begun < places && self.time(begun) <= time {
            begun += 1;
        }
        begun
    }

    /// How many of the writes were made by a time. The search begins at a place that may be anywhere: the nearer
    /// it is to the last of them, the less is passed, and a processor that takes it for that one goes on to its
    /// value before the times have come.
    #[inline]
    fn begun_by(&self, place: usize, time: u64) -> usize
        requires rising { IsRisingAfter 0 self.now }
        requires within { place ≤ 32 }
        ensures is { IsBegun time self.now result }
        ensures within { result ≤ 32 }
    {
        let mut begun = self.later_from(place, time);
        while begun > 0 && time < self.time(begun - 1) {
            begun -= 1;
        }
        begun
    }

    /// The value at a time. The search for it begins at a place.
    #[inline]
    pub(crate) fn at(&self, place: usize, time: u64) -> Option<&SharedValue>
        requires rising { IsRisingAfter 0 self.now }
        requires within { place < 32 }
        ensures { option_copied result ≡ value_at self.now time }
    {
        let begun = self.begun_by(place + 1, time);
        if begun == 0 {
            return None;
        }
        self.value(begun - 1)
    }
}
