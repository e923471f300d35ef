//! Some writes of one key that lie together.
ghost use Rattle.std.specs.Prelude.{◌≡◌, ◌<◌, ◌^◌, ◌∷◌, ◌++◌, [], IfOk, IfSome, IsTrue, OnErr, OnOk, length};
ghost use Rattle.history.specs.Time.{IsRisingAfter};
ghost use Rattle.history.specs.Versions.{first_time};
ghost use Rattle.chains.specs.Chunks.{held};
ghost use Rattle.chains.specs.Shapes.{leaf};
ghost use Rattle.chains.specs.Stamps.{write_of_loan};
ghost use Rattle.chains.specs.Writes.{last_time, kept_after};

use crate::full_chunk::{FullChunk, MOST};
use crate::older::Older;
use crate::share::{Share, add_shared};
use crate::shared_value::SharedValue;
use crate::stamped::StampedWrite;
use crate::write::{ended_by, first_time_or};
use history::{ENDLESS, TimedWrite};
use std::alloc::{AllocError, Global};
use std::marker::Model;
use std::slice;
use std::sync::Arc;

/// Where the writes of a chunk lie.
#[derive(Drop)]
pub(crate) enum Slots {
    /// One write lies next to the count of those who share it.
    One(Arc<StampedWrite>),
    /// More of them lie in memory that the chunks share that were taken from one another. The time of
    /// the first one lies next to them, so that a search among chunks reads no chunk but the last.
    Many {
        first: u64,
        shared: Arc<Vec<StampedWrite>>,
    },
    /// As many as one chunk has at most, which lie next to the count of those who share them: one place
    /// of memory less on the way to them.
    Full {
        first: u64,
        shared: Arc<FullChunk>,
    },
}

/// Some writes of one key, at least one, oldest first. It never changes, and shares its memory with
/// what it was taken from.
#[derive(Drop)]
pub(crate) struct Chunk {
    slots: Slots,
}

impl Model for Chunk {
    ghost use Rattle.std.specs.Prelude.{List};
    ghost use Rattle.chains.specs.Writes.{Write};

    ghost Value = { List Write };

    ghost use Rattle.chains.specs.Slots.{writes_at, AreSlots};

    ghost view = { λ p. writes_at p.slots };

    ghost invariant = { λ p. AreSlots p.slots };
}

impl Share for Chunk {
    fn share(&self) -> Result<Self, AllocError> {
        let slots = match &self.slots {
            Slots::One(write) => Slots::One(Arc::try_clone(write)?),
            Slots::Many { first, shared } => Slots::Many {
                first: *first,
                shared: Arc::try_clone(shared)?,
            },
            Slots::Full { first, shared } => {
                let first = *first;
                let shared = Arc::try_clone(shared)?;
                Slots::Full { first, shared }
            }
        };
        Ok(Chunk { slots })
    }
}

impl Chunk {
    /// A chunk of writes that lie together.
    pub(crate) fn many(shared: Arc<Vec<StampedWrite>>) -> Self
        requires rising { IsRisingAfter 0 shared.value.items }
        requires some { 0 < length shared.value.items }
        ensures { result ≡ shared.value.items }
    {
        let first = first_time_or(shared.as_slice(), ENDLESS);
        Chunk {
            slots: Slots::Many { first, shared },
        }
    }

    /// A chunk of as many as it has at most.
    pub(crate) fn full(shared: Arc<FullChunk>) -> Self
        requires rising { IsRisingAfter 0 shared.value }
        requires some { 0 < length shared.value }
        ensures { result ≡ shared.value }
    {
        let first = first_time_or(shared.as_slice(), ENDLESS);
        Chunk {
            slots: Slots::Full { first, shared },
        }
    }

    fn of(alloc: Global, writes: Vec<StampedWrite>) -> Result<Self, AllocError>
        requires rising { IsRisingAfter 0 writes.items }
        requires some { 0 < length writes.items }
        ensures { IfOk result (λ p. p ≡ writes.items) }
    {
        if writes.len() == MOST {
            return Ok(Self::full(packed(alloc, writes)?));
        }
        Ok(Self::many(Arc::new(alloc, writes)?))
    }

    /// A chunk of the same writes, with their values shared, if there are some.
    pub(crate) fn of_shared(
        alloc: Global,
        writes: &[StampedWrite],
    ) -> Result<Option<Self>, AllocError>
        requires { IsRisingAfter 0 writes.now }
        ensures is { IfOk result (λ p. held p ≡ writes.now) }
        ensures some { IfOk result (λ p. IfSome p (λ left. 0 < length left)) }
    {
        match writes {
            [] => Ok(None),
            [write] => Ok(Some(Chunk {
                slots: Slots::One(Arc::new(alloc, write.share()?)?),
            })),
            _ => Ok(Some(Self::of(alloc, shared(alloc, writes, 0)?)?)),
        }
    }

    /// A chunk of some writes and those of a later chunk.
    pub(crate) fn of_both(
        alloc: Global,
        earlier: &[StampedWrite],
        later: &Chunk,
    ) -> Result<Self, AllocError>
        requires { IsRisingAfter 0 (earlier.now ++ later.now) }
        ensures is { IfOk result (λ p. p ≡ earlier.now ++ later.now) }
        ensures some { 0 < length later.now }
    {
        let later = later.as_slice();
        let mut both = shared(alloc, earlier, later.len())?;
        add_shared(&mut both, later)?;
        Self::of(alloc, both)
    }

    /// Its writes as older ones: a full chunk's in the form of full ones, where nothing else holds them.
    pub(crate) fn into_older(self, alloc: Global) -> Result<Older, AllocError>
        ensures is { IfOk result (λ o. o ≡ leaf self) }
        ensures some { 0 < length self }
    {
        match self.slots {
            Slots::One(write) => {
                let writes = shared(alloc, slice::from_ref(&*write), 0)?;
                Ok(Older::few(Arc::new(alloc, writes)?))
            }
            Slots::Many { shared, .. } if shared.len() == MOST => older_of(alloc, shared),
            Slots::Many { shared, .. } => Ok(Older::few(shared)),
            Slots::Full { shared, .. } => Ok(Older::full(shared)),
        }
    }

    /// A chunk of one write.
    pub(crate) fn one(alloc: Global, write: TimedWrite<&SharedValue>) -> Result<Self, AllocError>
        requires positive { 0 < write.time }
        requires in_range { write.time < 2 ^ 63 }
        ensures { IfOk result (λ p. p ≡ write_of_loan write.entry ∷ []) }
    {
        Ok(Chunk {
            slots: Slots::One(Arc::new(alloc, StampedWrite::of(alloc, write)?)?),
        })
    }

    /// The chunk with a later write.
    pub(crate) fn with_write(
        &self,
        alloc: Global,
        write: TimedWrite<&SharedValue>,
    ) -> Result<Self, AllocError>
        requires later { last_time self.now < write.time }
        requires in_range { write.time < 2 ^ 63 }
        ensures { IfOk result (λ p. p ≡ self.now ++ write_of_loan write.entry ∷ []) }
    {
        let mut longer = shared(alloc, self.as_slice(), 1)?;
        put_last(alloc, &mut longer, write)?;
        Self::of(alloc, longer)
    }

    /// A later write is put after the others, in place where no other chunk holds them.
    pub(crate) fn put_write(
        &mut self,
        alloc: Global,
        write: TimedWrite<&SharedValue>,
    ) -> Result<(), AllocError>
        requires later { last_time self.old < write.time }
        requires in_range { write.time < 2 ^ 63 }
        ensures ok { OnOk result (self.new ≡ self.old ++ write_of_loan write.entry ∷ []) }
        ensures err { OnErr result (self.new ≡ self.old) }
    {
        if let Slots::Many { shared, .. } = &mut self.slots
            && let Some(own) = Arc::get_mut(shared)
        {
            return put_last(alloc, own, write);
        }
        *self = self.with_write(alloc, write)?;
        Ok(())
    }

    /// Whether it has as many writes as one chunk has at most.
    pub(crate) fn is_full(&self) -> bool
        ensures { 0 < length self.now }
    {
        self.as_slice().len() >= MOST
    }

    /// When the first of its writes was made.
    pub(crate) fn first_time(&self) -> u64
        ensures is { result ≡ first_time self.now }
        ensures some { 0 < length self.now }
        ensures rising { IsRisingAfter 0 self.now }
    {
        match &self.slots {
            Slots::One(write) => write.time(),
            Slots::Many { first, .. } => *first,
            Slots::Full { first, .. } => *first,
        }
    }

    /// When the last of its writes was made.
    pub(crate) fn last_time(&self) -> u64
        ensures is { result ≡ last_time self.now }
        ensures some { 0 < length self.now }
    {
        match self.as_slice().last() {
            None => 0,
            Some(w) => w.time(),
        }
    }

    /// Whether it has some writes. It looks at the memory that one more holder is counted in.
    pub(crate) fn is_at_hand(&self) -> bool {
        match &self.slots {
            Slots::One(write) => write.time() > 0,
            Slots::Many { shared, .. } => shared.len() > 0,
            Slots::Full { shared, .. } => shared.time(0) > 0,
        }
    }

    /// Its writes.
    pub(crate) fn as_slice(&self) -> &[StampedWrite]
        ensures is { result.now ≡ self.now }
        ensures some { 0 < length self.now }
        ensures rising { IsRisingAfter 0 self.now }
    {
        match &self.slots {
            Slots::One(write) => slice::from_ref(&**write),
            Slots::Many { shared, .. } => shared.as_slice(),
            Slots::Full { shared, .. } => shared.as_slice(),
        }
    }

    /// Whether each of its writes says something of times from the mark on.
    pub(crate) fn is_kept(&self, mark: u64) -> bool
        ensures { IsTrue result → kept_after mark self.now ≡ self.now }
    {
        ended_by(self.as_slice(), mark) == 0
    }

    /// A chunk of those writes that say something of times from the mark on, if there are some.
    pub(crate) fn kept(&self, alloc: Global, mark: u64) -> Result<Option<Self>, AllocError>
        ensures is { IfOk result (λ p. held p ≡ kept_after mark self.now) }
        ensures some { IfOk result (λ p. IfSome p (λ left. 0 < length left)) }
    {
        let writes = self.as_slice();
        let ended = ended_by(writes, mark);
        if ended == 0 {
            return Ok(Some(self.share()?));
        }
        Self::of_shared(alloc, &writes[ended..])
    }
}

/// As many writes as one chunk has at most, next to the count of those who share them: a function of its
/// own, so that no other chunk takes the way of so many bytes.
fn packed(alloc: Global, writes: Vec<StampedWrite>) -> Result<Arc<FullChunk>, AllocError>
    requires { length writes.items ≡ 32 }
    ensures { IfOk result (λ shared. shared.value ≡ writes.items) }
{
    Ok(Arc::new(alloc, FullChunk::of(alloc, writes)?)?)
}

/// The writes of a full chunk as older ones, in the form of full ones where nothing else holds them.
fn older_of(alloc: Global, shared: Arc<Vec<StampedWrite>>) -> Result<Older, AllocError>
    requires rising { IsRisingAfter 0 shared.value.items }
    requires full { length shared.value.items ≡ 32 }
    ensures { IfOk result (λ o. o ≡ leaf shared.value.items) }
{
    match Arc::try_unwrap(shared) {
        Ok(writes) => Ok(Older::full(packed(alloc, writes)?)),
        Err(shared) => Ok(Older::few(shared)),
    }
}

/// The same writes, with their values shared, and with room for some more.
fn shared(
    alloc: Global,
    writes: &[StampedWrite],
    more: usize,
) -> Result<Vec<StampedWrite>, AllocError>
    ensures { IfOk result (λ ws. ws.items ≡ writes.now) }
{
    let mut shared = Vec::with_capacity(alloc, writes.len().saturating_add(more))?;
    add_shared(&mut shared, writes)?;
    Ok(shared)
}

/// How many writes more there is room for where one has none: few, since most keys have few.
fn more_room(count: usize) -> usize {
    (count / 4).max(2)
}

/// Puts a write after others.
fn put_last(
    alloc: Global,
    writes: &mut Vec<StampedWrite>,
    write: TimedWrite<&SharedValue>,
) -> Result<(), AllocError>
    requires { write.time < 2 ^ 63 }
    ensures ok { OnOk result (writes.new.items ≡ writes.old.items ++ write_of_loan write.entry ∷ []) }
    ensures err { OnErr result (writes.new.items ≡ writes.old.items) }
{
    let write = StampedWrite::of(alloc, write)?;
    if writes.len() == writes.capacity() {
        writes.reserve_exact(more_room(writes.len()))?;
    }
    writes.push(write)?;
    Ok(())
}
