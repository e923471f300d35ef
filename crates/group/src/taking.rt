//! Many extents at once.
ghost use Rattle.std.specs.Prelude.{◌≡◌, ◌≤◌, ◌<◌, ◌+◌, ◌++◌, length, map, MatchResult};
ghost use Rattle.extents.specs.Usages.{with_usages, used_count, AreOut};
ghost use Rattle.extents.specs.declared.usage.Usage.TheVariants.{Out, Free, Kept};
ghost use Rattle.group.specs.Taking.{AreLeastFree};

use crate::queued::StoredExtent;
use extents::{Extent, Extents};
use std::alloc::{AllocError, Global};

/// Takes so many extents, each the least free one. There have to be as many free ones.
pub fn take_extents(
    alloc: Global,
    extents: &mut Extents,
    count: usize,
) -> Result<Vec<Extent>, AllocError>
    requires { used_count extents.old + count ≤ 65536 }
    ensures { MatchResult result (λ taken. (length taken.items ≡ count) × AreLeastFree extents.old taken.items
        × (extents.new ≡ with_usages extents.old taken.items Out)) (λ _. extents.new ≡ extents.old) }
{
    let mut taken = Vec::with_capacity(alloc, count)?;
    for _ in 0..count {
        match extents.take() {
            Ok(extent) => taken.push_reserved(extent),
            Err(_) => unreachable!(),
        }
    }
    Ok(taken)
}

/// Gives extents back that were taken.
pub fn give_back_all(extents: &mut Extents, taken: Vec<Extent>)
    ensures { AreOut extents.old taken.items → extents.new ≡ with_usages extents.old taken.items Free }
{
    let mut taken = taken.into_iter();
    while let Some(extent) = taken.next() {
        extents.give_back(extent);
    }
    taken.destroy_empty();
}

/// Keeps extents that were taken.
pub fn keep_taken(extents: &mut Extents, taken: Vec<Extent>)
    ensures { AreOut extents.old taken.items → extents.new ≡ with_usages extents.old taken.items Kept }
{
    let mut taken = taken.into_iter();
    while let Some(extent) = taken.next() {
        extents.keep(extent);
    }
    taken.destroy_empty();
}

/// Keeps the extents of a commit that is published.
pub fn keep_all(extents: &mut Extents, stored: Vec<StoredExtent>)
    ensures { AreOut extents.old (map (λ s. s.extent) stored.items) → extents.new ≡ with_usages extents.old (map (λ s. s.extent) stored.items) Kept }
{
    let mut stored = stored.into_iter();
    while let Some(StoredExtent { extent, image: _ }) = stored.next() {
        extents.keep(extent);
    }
    stored.destroy_empty();
}
