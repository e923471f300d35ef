//! The shares of the heap: half of it is the log's, a sixteenth the base's, and three sixteenths the anchors' of any state.

ghost use Rattle.std.specs.Prelude.{◌≡◌, ◌↔◌, ◌+◌, ◌≤◌, ◌/◌, ◌^◌, ◌<◌, ◌*◌, IsTrue, MatchOption, List, length, flat_map};
ghost use Rattle.std.specs.List.{AllByRecursion};
ghost use Rattle.log_entries.specs.Spelling.{entry_bytes};
ghost use Rattle.law_log_layout.specs.HeapLog.{counted_of, IsBaseSmall};
ghost use Rattle.log_recovery.specs.Ends.{counted_in, AreBasesSmall};
ghost use Rattle.law_image.specs.Reading.{Member, OldRecord};
ghost use Rattle.log_extents.specs.Chains.{count_of};
ghost use Rattle.law_log_sizes.specs.Sizes.{anchors_len, greatest, lens_behind};
ghost use Rattle.log_sizes.specs.Counted.{AreSizesBehind};
ghost use Rattle.log_recovery.specs.Members.{values_of};

use crate::chain::LogChain;
use log_entries::Entry;
use log_extents::count_extents;
use log_sizes::AnchorSizes;

/// How many bytes a ROLL has.
const ROLL_LEN: usize = 17;

// Whether a base has room for one roll more.
fn is_base_small(most: u32, chain: &LogChain) -> bool
    ensures { IsTrue result ↔ IsBaseSmall most chain.now.entry }
{
    match &chain.entry {
        Entry::Base(_) => count_extents(chain.len() + ROLL_LEN) <= most as usize / 16,
        Entry::Group(_) => true,
        Entry::Archived(_) => true,
        Entry::Floor(_) => true,
    }
}

/// Whether each base has room for one roll more within its share of the heap.
pub(crate) fn are_bases_small(most: u32, chains: &[LogChain]) -> bool
    ensures { IsTrue result ↔ AreBasesSmall most chains.now }
{
    let mut rest = chains;
    while let Some((chain, after)) = rest.split_first() {
        if !is_base_small(most, chain) {
            return false;
        }
        rest = after;
    }
    true
}

// How many extents of a chain count as the log's: all but those of a base.
fn counted(chain: &LogChain) -> usize
    ensures { result ≡ length (counted_of chain.now.numbers chain.now.entry) }
{
    match &chain.entry {
        Entry::Base(_) => 0,
        Entry::Group(_) => chain.numbers.len(),
        Entry::Archived(_) => chain.numbers.len(),
        Entry::Floor(_) => chain.numbers.len(),
    }
}

/// How many extents these chains have, those of the base aside. None where these are over so many.
pub(crate) fn count_log(chains: &[LogChain], most: usize) -> Option<usize>
    ensures { MatchOption result (most < length (counted_in chains.now)) (λ count. (count ≡ length (counted_in chains.now)) × (count ≤ most)) }
{
    let mut left = most;
    let mut rest = chains;
    while let Some((chain, after)) = rest.split_first() {
        let counted = counted(chain);
        if left < counted {
            return None;
        }
        left -= counted;
        rest = after;
    }
    Some(most - left)
}

/// Whether the anchors of each state, of these sizes, are within their share of a heap of so many
/// extents.
pub fn are_anchors_small(most: u32, sizes: AnchorSizes) -> bool
    ensures { (olds : List OldRecord) (members : List Member) → AreSizesBehind olds members sizes
        → (IsTrue result ↔ (count_of (greatest (anchors_len olds) (lens_behind (anchors_len olds) (values_of olds) members)) ≤ (3 * most) / 16)) }
{
    let share = 3 * u64::from(most) / 16;
    sizes.fit(share as u32)
}
