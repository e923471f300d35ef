//! Whether the log ends right.

ghost use Rattle.std.specs.Prelude.{◌≡◌, ◌↔◌, ◌≤◌, ◌<◌, ◌+◌, ◌/◌, max, IsTrue, IfSome, MatchOption, length, map};
ghost use Rattle.std.specs.List.{AllByRecursion};
ghost use Rattle.deltas.specs.Extents.{extent_start};
ghost use Rattle.law_log_layout.specs.HeapLog.{AreSpansInRow, run_span};
ghost use Rattle.log_recovery.specs.Rules.{roll_part};
ghost use Rattle.log_recovery.specs.Ends.{EndsEarly, KeepsLogShare, open_of, counted_in, IsEndSeen};

use crate::apart::are_apart;
use crate::chain::LogChain;
use crate::rules::LogEnd;
use crate::shares::{are_bases_small, count_log};
use crate::taking::EXTENT_BYTES;
use log_space::Space;

// Whether the first byte of an extent lies within a heap of this length.
fn is_within(heap_len: u64, number: u32) -> bool
    requires { 0 < number }
    ensures { IsTrue result ↔ (extent_start number + 1 ≤ heap_len) }
{
    u64::from(number - 1) * EXTENT_BYTES < heap_len
}

// How many extents the log is to have beside those of its chains: where it ends, and one more where not all is
// archived.
fn extents_beside(end: &LogEnd) -> usize
    ensures is { result ≡ 1 + open_of end.now.archived (max end.now.mark end.now.last) }
    ensures few { result ≤ 2 }
{
    if end.archived < end.told_time() { 2 } else { 1 }
}

/// How many extents the log has, those of the base aside. None where the log or the base is not within its share of a
/// heap of so many extents.
pub fn kept_log(most: u32, chains: &[LogChain], end: &LogEnd) -> Option<usize>
    ensures kept { MatchOption result (¬ KeepsLogShare most chains.now end.now)
        (λ count. KeepsLogShare most chains.now end.now × (count ≡ length (counted_in chains.now))) }
    ensures few { IfSome result (λ count. count ≤ most / 2) }
{
    let half = most as usize / 2;
    let count = count_log(chains, half)?;
    if half - count < extents_beside(end) || !are_bases_small(most, chains) {
        return None;
    }
    Some(count)
}

/// Whether the log ends within a heap of this length at an extent that is free, what is reclaimed is archived, and
/// runs and rolls lie apart.
pub fn is_end_right(heap_len: u64, next: u32, space: &Space, end: &LogEnd) -> bool
    requires next { 0 < next }
    requires runs { AreSpansInRow 0 (map run_span end.now.runs.items) }
    requires rolls { AreSpansInRow 0 (map roll_part end.now.rolls.items) }
    requires run_ends { AllByRecursion EndsEarly (map run_span end.now.runs.items) }
    requires roll_ends { AllByRecursion EndsEarly (map roll_part end.now.rolls.items) }
    ensures { IsTrue result ↔ IsEndSeen heap_len next space.now end.now }
{
    is_within(heap_len, next)
        && space.is_free(next)
        && end.mark <= end.archived
        && are_apart(&end.runs, &end.rolls)
}
