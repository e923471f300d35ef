//! What is in a list, one after the other.

ghost use Rattle.std.specs.Prelude.{◌≡◌, ◌<◌, ◌≤◌, ◌↔◌, ◌++◌, ℕ, List, length, slice_index, IsTrue, IfOk, MatchOption};
ghost use Rattle.std.specs.List.{flat_map, AllByRecursion};
ghost use Rattle.log_entries.specs.Items.{HasNone};

use std::alloc::{AllocError, Global};

/// What is spelled in one way alone, and read from the beginning of bytes.
pub(crate) trait Item: Sized + Drop {
    /// The one spelling.
    ghost bytes_of: { Self → List ℕ };

    /// Each number is in its range.
    ghost Is: { Self → Type 0 };

    /// The first one, and what follows it; none where none is spelled there.
    fn take(alloc: Global, bytes: &[u8]) -> Result<Option<(Self, &[u8])>, AllocError>
        ensures { IfOk result (λ o. MatchOption o (HasNone bytes_of Is bytes.now) (λ p. Is p.0 × (bytes.now ≡ bytes_of p.0 ++ p.1.now))) };

    /// It has bytes.
    ghost some: { (x : Self) → 0 < length (bytes_of x) };
}

/// Whether there are so many bytes, the first of this kind.
pub(crate) fn has_kind(bytes: &[u8], kind: u8, len: usize) -> bool
    requires { 0 < len }
    ensures { IsTrue result ↔ ((len ≤ length bytes.now) × (slice_index bytes.now 0 ≡ kind)) }
{
    len <= bytes.len() && bytes[0] == kind
}

/// As many as there are at the beginning, and what follows them.
pub(crate) fn take_list<T: Item>(alloc: Global, bytes: &[u8]) -> Result<(Vec<T>, &[u8]), AllocError>
    ensures each { IfOk result (λ p. AllByRecursion T.Is p.0.items) }
    ensures bytes { IfOk result (λ p. bytes.now ≡ flat_map T.bytes_of p.0.items ++ p.1.now) }
    ensures all { IfOk result (λ p. HasNone T.bytes_of T.Is p.1.now) }
{
    let mut found = Vec::new(alloc);
    let mut rest = bytes;
    while let Some((item, after)) = T::take(alloc, rest)? {
        found.push(item)?;
        rest = after;
    }
    Ok((found, rest))
}
