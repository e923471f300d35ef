//! How many extents a chain of records needs.

ghost use Rattle.std.specs.Prelude.{◌≡◌, ◌≤◌, ◌^◌, [], length, MatchOption};
ghost use Rattle.deltas.specs.Filling.{IsCountOf};

use crate::extent_image::BODY_LEN;
use crate::filled_extent::ExtentCount;
use crate::record_source::RecordSource;
use crate::slice_writer::loan_len;

/// How many extents a chain of the records that are left needs, and how many these are. None where
/// there are 2^32 or more. It goes over all of them.
pub fn count_extents<S: RecordSource>(source: &mut S) -> Option<ExtentCount>
    ensures { MatchOption result (2 ^ 32 ≤ length (S.left source.old)) (λ count. IsCountOf (S.left source.old) count × (S.left source.new ≡ [])) }
{
    let mut extents = 0;
    let mut records = 0;
    // As in a full extent, so that the first record begins one.
    let mut used = BODY_LEN;
    while let Some(record) = source.peek() {
        if records == u32::MAX {
            return None;
        }
        let len = loan_len(record);
        if used + len > BODY_LEN {
            extents += 1;
            used = len;
        } else {
            used += len;
        }
        records += 1;
        source.advance();
    }
    Some(ExtentCount { extents, records })
}
