//! A key's older writes with a chunk more, and without those that nothing asks for any more.
ghost use Rattle.std.specs.Prelude.{◌≡◌, ◌⊎◌, ◌<◌, ◌≤◌, ◌+◌, ◌∷◌, ◌++◌, [], IfOk, IsTrue, length};
ghost use Rattle.history.specs.Time.{IsRisingAfter};
ghost use Rattle.chains.specs.Growth.{IsForkOf, IsAlone, IsRoomTaken, IsLonger, as_branch, has_room};
ghost use Rattle.chains.specs.Shapes.{all_of, highest};
ghost use Rattle.chains.specs.Writes.{kept_after};

use crate::branching::{WIDTH, add_branch, from_begun, room_for};
use crate::chunk::Chunk;
use crate::full_chunk::MOST;
use crate::older::{Branch, Older, Parts};
use crate::share::{Share, add_shared};
use crate::stamped::StampedWrite;
use crate::write::ended_by;
use std::alloc::{AllocError, Global};

/// The writes of branches, and some more after them.
fn with_last(alloc: Global, front: &[Branch], last: Older) -> Result<Older, AllocError>
    requires { IsRisingAfter 0 (all_of front.now ++ last.chunks) }
    ensures is { IfOk result (λ o. o.chunks ≡ all_of front.now ++ last.chunks) }
    ensures shape { IfOk result (λ o. 0 < length last.chunks → IsForkOf (front.now ++ as_branch last ∷ []) o) }
{
    let mut all = Vec::with_capacity(alloc, room_for(front.len().saturating_add(1)))?;
    add_shared(&mut all, front)?;
    add_branch(&mut all, last)?;
    Older::fork(alloc, all)
}

/// Some writes, and those of branches after them.
fn with_first(alloc: Global, first: Older, behind: &[Branch]) -> Result<Older, AllocError>
    requires { IsRisingAfter 0 (first.chunks ++ all_of behind.now) }
    ensures is { IfOk result (λ o. o.chunks ≡ first.chunks ++ all_of behind.now) }
    ensures height { IfOk result (λ o. o.height ≤ highest (as_branch first ∷ behind.now) + 1) }
{
    if behind.is_empty() {
        return Ok(first);
    }
    let mut all = Vec::with_capacity(alloc, room_for(behind.len().saturating_add(1)))?;
    add_branch(&mut all, first)?;
    add_shared(&mut all, behind)?;
    Older::fork(alloc, all)
}

/// Whether a chunk's writes may lie together with those before them.
fn fits_behind(writes: &[StampedWrite], chunk: &Chunk) -> bool
    ensures { result ≡ has_room (length chunk.now) (length writes.now) [] }
{
    writes.is_empty() || writes.len().saturating_add(chunk.as_slice().len()) <= MOST
}

impl Older {
    /// Whether there is room for the writes of a chunk without growing higher.
    fn has_room_for(&self, chunk: &Chunk) -> bool
        ensures is { result ≡ has_room (length chunk.now) self.now.together self.now.forks }
        ensures some { IsTrue result ⊎ (0 < length self.now.chunks) }
    {
        match self.parts() {
            Parts::Writes(writes) => fits_behind(writes, chunk),
            Parts::Branches(branches) => match branches {
                [.., last] if branches.len() >= WIDTH => last.writes().has_room_for(chunk),
                _ => true,
            },
        }
    }

    /// A chunk's writes alone, as high as these.
    fn beside(&self, alloc: Global, chunk: Chunk) -> Result<Self, AllocError>
        ensures is { IfOk result (λ o. o.chunks ≡ chunk) }
        ensures alone { IfOk result (IsAlone (length chunk) self.now) }
        ensures some { 0 < length chunk }
    {
        let Parts::Branches([.., branch]) = self.parts() else {
            return chunk.into_older(alloc);
        };
        let below = branch.writes().beside(alloc, chunk)?;
        with_last(alloc, &[], below)
    }

    /// The same with a later chunk at the end, where there is room for it.
    fn with_room_taken(&self, alloc: Global, chunk: Chunk) -> Result<Self, AllocError>
        requires { IsRisingAfter 0 (self.now.chunks ++ chunk) }
        ensures is { IfOk result (λ o. o.chunks ≡ self.now.chunks ++ chunk) }
        ensures taken { IfOk result (IsRoomTaken (length chunk) self.now) }
        ensures some { 0 < length chunk }
    {
        let branches = match self.parts() {
            Parts::Writes(writes) => {
                return Chunk::of_both(alloc, writes, &chunk)?.into_older(alloc);
            }
            Parts::Branches(branches) => branches,
        };
        let [front @ .., last] = branches else {
            return chunk.into_older(alloc);
        };
        if last.writes().has_room_for(&chunk) {
            let longer = last.writes().with_room_taken(alloc, chunk)?;
            return with_last(alloc, front, longer);
        }
        let later = last.writes().beside(alloc, chunk)?;
        with_last(alloc, branches, later)
    }

    /// The same with a later chunk at the end: the last two are made one where they are small.
    pub(crate) fn with_chunk(&self, alloc: Global, chunk: Chunk) -> Result<Self, AllocError>
        requires { IsRisingAfter 0 (self.now.chunks ++ chunk) }
        ensures is { IfOk result (λ o. o.chunks ≡ self.now.chunks ++ chunk) }
        ensures height { IfOk result (IsLonger (length chunk) self.now) }
    {
        if self.is_empty() {
            return chunk.into_older(alloc);
        }
        if self.has_room_for(&chunk) {
            return self.with_room_taken(alloc, chunk);
        }
        let mut both = Vec::with_capacity(alloc, 2)?;
        add_branch(&mut both, self.share()?)?;
        add_branch(&mut both, self.beside(alloc, chunk)?)?;
        Older::fork(alloc, both)
    }

    /// Whether each of the writes says something of times from the mark on.
    pub(crate) fn is_kept(&self, mark: u64) -> bool
        ensures { IsTrue result → kept_after mark self.now.chunks ≡ self.now.chunks }
    {
        let branches = match self.parts() {
            Parts::Writes(writes) => return ended_by(writes, mark) == 0,
            Parts::Branches(branches) => branches,
        };
        let rest = from_begun(branches, mark);
        match rest {
            [branch, ..] if rest.len() == branches.len() => branch.writes().is_kept(mark),
            _ => false,
        }
    }

    /// Those of the writes that say something of times from the mark on.
    pub(crate) fn kept(&self, alloc: Global, mark: u64) -> Result<Self, AllocError>
        ensures is { IfOk result (λ o. o.chunks ≡ kept_after mark self.now.chunks) }
        ensures height { IfOk result (λ o. o.height ≤ self.now.height) }
    {
        let writes = match self.parts() {
            Parts::Writes(writes) => writes,
            Parts::Branches(branches) => match from_begun(branches, mark) {
                [] => return Ok(Older::new()),
                [branch, behind @ ..] => {
                    let first = branch.writes().kept(alloc, mark)?;
                    return with_first(alloc, first, behind);
                }
            },
        };
        let ended = ended_by(writes, mark);
        if ended == 0 {
            return self.share();
        }
        match Chunk::of_shared(alloc, &writes[ended..])? {
            None => Ok(Older::new()),
            Some(left) => left.into_older(alloc),
        }
    }
}
