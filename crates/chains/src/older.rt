//! One key's older writes: chunks in a search tree whose nodes are wide.
ghost use Rattle.std.specs.Prelude.{◌≡◌, ◌<◌, ◌≤◌, [], IfOk, IfSome, IsTrue, MatchOption, length};
ghost use Rattle.history.specs.Time.{IsRisingAfter};
ghost use Rattle.history.specs.Versions.{first_time};
ghost use Rattle.chains.specs.Branches.{IsMadeOf};
ghost use Rattle.chains.specs.Growth.{IsForkOf, as_branch};
ghost use Rattle.chains.specs.Shapes.{all_of, leaf};

use crate::branching::{NEARLY_ALL, WIDTH, padded};
use crate::chunk::Chunk;
use crate::full_chunk::FullChunk;
use crate::share::Share;
use crate::stamped::StampedWrite;
use std::alloc::{AllocError, Global};
use std::marker::Model;
use std::mem::size_of;
use std::sync::Arc;

/// The writes of a key but those of its last chunk, oldest first; most keys have none. They never change,
/// and share their memory with what they were taken from.
#[cycle(older)]
#[derive(Drop)]
pub(crate) struct Older {
    inside: Inside,
}

#[cycle(older)]
#[derive(Drop)]
enum Inside {
    Nothing,
    /// The writes of one chunk.
    Few(Arc<Vec<StampedWrite>>),
    /// As many as one chunk has at most, which lie next to the count of those who share them: one place
    /// of memory less on the way to them.
    Full(Arc<FullChunk>),
    /// Branches one after another that lie together, so that a search among them reads few places that lie
    /// apart.
    Fork(Arc<Vec<Branch>>),
    /// Nearly as many as can, or as many, next to the count of those who share them. Those after so many are
    /// the last of them again.
    Wide {
        count: u8,
        shared: Arc<[Branch; WIDTH]>,
    },
}

/// Some older writes, at least one, and when the first of them was made, so that a search among branches
/// reads no writes but those that it is for.
#[cycle(older)]
#[derive(Drop)]
pub(crate) struct Branch {
    first: u64,
    older: Older,
}

const _: () = prove!(size_of::<Older>() == 16 && size_of::<Branch>() == 24);

/// What older writes are made of, in a loan: the writes of one chunk, or branches one after another.
#[derive(Drop)]
pub(crate) enum Parts<'a> {
    Writes(&'a [StampedWrite]),
    Branches(&'a [Branch]),
}

impl Model for Older {
    ghost use Rattle.chains.specs.Shapes.{Shape};
    ghost use Rattle.chains.specs.Writes.{Write};

    ghost Value = { Shape Write };

    ghost use Rattle.chains.specs.Branches.{older_in, IsOlder};

    ghost view = { λ o. older_in o.inside };

    ghost invariant = { λ o. IsOlder o.inside };

    ghost size = { λ o. o.height };

    ghost use Rattle.chains.specs.BranchesFall.{depth_le-height};

    ghost size_decreases = { λ a h. depth_le-height a.inside };
}

impl Model for Branch {
    ghost use Rattle.chains.specs.Shapes.{Shape};
    ghost use Rattle.chains.specs.Writes.{Write};

    ghost Value = { Shape Write };

    ghost use Rattle.chains.specs.Growth.{as_branch};

    ghost view = { λ b. as_branch b.older };

    ghost use Rattle.chains.specs.Branches.{BeginAt};

    ghost invariant = { λ b. BeginAt b.first b.older.chunks };

    ghost size = { λ b. b.height };

    ghost use Rattle.std.proofs.Common.{arith};

    ghost size_decreases = { λ a h. Prim.grind (arith) };
}

impl Share for Older {
    fn share(&self) -> Result<Self, AllocError> {
        let inside = match &self.inside {
            Inside::Nothing => Inside::Nothing,
            Inside::Few(shared) => Inside::Few(Arc::try_clone(shared)?),
            Inside::Full(shared) => Inside::Full(Arc::try_clone(shared)?),
            Inside::Fork(shared) => Inside::Fork(Arc::try_clone(shared)?),
            Inside::Wide { count, shared } => Inside::Wide {
                count: *count,
                shared: Arc::try_clone(shared)?,
            },
        };
        Ok(Older { inside })
    }
}

impl Share for Branch {
    fn share(&self) -> Result<Self, AllocError> {
        Ok(Branch {
            first: self.first,
            older: self.older.share()?,
        })
    }
}

impl Older {
    /// Without any write.
    pub(crate) fn new() -> Self
        ensures { result ≡ leaf [] }
    {
        Older {
            inside: Inside::Nothing,
        }
    }

    /// The writes of one chunk.
    pub(crate) fn few(writes: Arc<Vec<StampedWrite>>) -> Self
        requires { IsRisingAfter 0 writes.value.items }
        ensures { result ≡ leaf writes.value.items }
    {
        Older {
            inside: Inside::Few(writes),
        }
    }

    /// The writes of one chunk, as many as it has at most.
    pub(crate) fn full(writes: Arc<FullChunk>) -> Self
        requires { IsRisingAfter 0 writes.value }
        ensures { result ≡ leaf writes.value }
    {
        Older {
            inside: Inside::Full(writes),
        }
    }

    /// The writes of branches, one after another.
    pub(crate) fn fork(alloc: Global, branches: Vec<Branch>) -> Result<Self, AllocError>
        requires { IsRisingAfter 0 (all_of branches.items) }
        ensures is { IfOk result (λ o. o.chunks ≡ all_of branches.items) }
        ensures shape { IfOk result (λ o. 0 < length branches.items → IsForkOf branches.items o) }
    {
        let count = branches.len();
        if count == 0 {
            return Ok(Self::new());
        }
        if NEARLY_ALL <= count && count <= WIDTH {
            return Self::wide(alloc, branches);
        }
        let shared = Arc::new(alloc, branches)?;
        Ok(Older {
            inside: Inside::Fork(shared),
        })
    }

    /// The same, in the memory of as many as lie together at most.
    fn wide(alloc: Global, branches: Vec<Branch>) -> Result<Self, AllocError>
        requires rising { IsRisingAfter 0 (all_of branches.items) }
        requires some { 0 < length branches.items }
        requires few { length branches.items ≤ 32 }
        ensures is { IfOk result (λ o. o.chunks ≡ all_of branches.items) }
        ensures shape { IfOk result (IsForkOf branches.items) }
    {
        let count = branches.len() as u8;
        let Ok(full) = <[Branch; WIDTH]>::try_from(padded(branches)?) else {
            unreachable!()
        };
        let shared = Arc::new(alloc, full)?;
        Ok(Older {
            inside: Inside::Wide { count, shared },
        })
    }

    /// Whether there are none.
    pub(crate) fn is_empty(&self) -> bool
        ensures { IsTrue result → self.now ≡ leaf [] }
    {
        matches!(&self.inside, Inside::Nothing)
    }

    /// What they are made of.
    #[inline]
    pub(crate) fn parts(&self) -> Parts<'_>
        ensures { IsMadeOf self.now result }
    {
        match &self.inside {
            Inside::Nothing => Parts::Writes(&[]),
            Inside::Few(shared) => Parts::Writes(shared.as_slice()),
            Inside::Full(shared) => Parts::Writes(shared.as_slice()),
            Inside::Fork(shared) => Parts::Branches(shared.as_slice()),
            Inside::Wide { count, shared } => Parts::Branches(&shared[..*count as usize]),
        }
    }

    /// Whether they lie in more than a few places, so that some may lie in full chunks.
    pub(crate) fn are_many(&self) -> bool {
        !matches!(&self.inside, Inside::Nothing | Inside::Few(_))
    }

    /// The chunk that they are, where it is a full one.
    #[inline]
    pub(crate) fn full_chunk(&self) -> Option<&FullChunk>
        ensures { IfSome result (λ full. (self.now.chunks ≡ full.now) × IsRisingAfter 0 full.now) }
    {
        match &self.inside {
            Inside::Full(shared) => Some(shared),
            _ => None,
        }
    }

    /// A chunk that is one more holder of the same writes.
    pub(crate) fn chunk(&self) -> Result<Chunk, AllocError>
        requires one { self.now.height ≡ 0 }
        requires some { 0 < length self.now.chunks }
        ensures { IfOk result (λ p. p ≡ self.now.chunks) }
    {
        match &self.inside {
            Inside::Few(shared) => Ok(Chunk::many(Arc::try_clone(shared)?)),
            Inside::Full(shared) => Ok(Chunk::full(Arc::try_clone(shared)?)),
            _ => unreachable!(),
        }
    }
}

impl Branch {
    /// The same writes, where there are some.
    pub(crate) fn of(older: Older) -> Option<Self>
        ensures is { MatchOption result (older.chunks ≡ []) (λ b. b ≡ as_branch older) }
        ensures some { IfSome result (λ b. 0 < length older.chunks) }
    {
        let first = match older.parts() {
            Parts::Writes(writes) => writes.first()?.time(),
            Parts::Branches(branches) => branches.first()?.first,
        };
        Some(Branch { first, older })
    }

    /// When the first of its writes was made.
    #[inline]
    pub(crate) fn first_time(&self) -> u64
        ensures is { result ≡ first_time self.now.chunks }
        ensures some { 0 < length self.now.chunks }
        ensures rising { IsRisingAfter 0 self.now.chunks }
    {
        self.first
    }

    /// Its writes.
    #[inline]
    pub(crate) fn writes(&self) -> &Older
        ensures is { result.now.chunks ≡ self.now.chunks }
        ensures lower { result.now.height < self.now.height }
        ensures branch { self.now ≡ as_branch result.now }
    {
        &self.older
    }
}
