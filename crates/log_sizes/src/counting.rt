//! The bytes of anchors, state by state.

ghost use Rattle.std.specs.Prelude.{◌≡◌, ◌≤◌, ◌^◌, ◌↔◌, ℕ, max, length, IsTrue};
ghost use Rattle.log_extents.specs.Chains.{count_of};
ghost use Rattle.law_log_sizes.specs.Sizes.{len_behind};
ghost use Rattle.log_sizes.specs.Counted.{values_in, AreSizes};

use crate::anchor_sizes::AnchorSizes;
use crate::lens::len_with_all;
use chains::{Frozen, SharedValue};
use history::KeyWrite;
use log_extents::BODY_LEN;

/// Anchors of more bytes than this are not counted. No heap has room for so many.
pub const MOST_COUNTED: u64 = 1 << 62;

impl AnchorSizes {
    /// Those of one state, whose anchors take so many bytes.
    pub fn of(len: u64) -> AnchorSizes
        ensures len { result.len ≡ len }
        ensures most { result.most ≡ len }
        ensures sizes { AreSizes len len result }
    {
        AnchorSizes { len, most: len }
    }

    /// Those with one state more: the one after a commit of these writes, where these are the versions before it.
    pub fn with_writes(self, before: &Frozen, writes: &[KeyWrite<SharedValue>]) -> AnchorSizes
        requires few { length writes.now ≤ 1024 }
        ensures len { self.most ≤ 2 ^ 62 → result.len ≡ len_behind self.len (values_in before.now) writes.now }
        ensures most { self.most ≤ 2 ^ 62 → result.most ≡ max self.most result.len }
        ensures sizes { (len most : ℕ) → AreSizes len most self
            → AreSizes (len_behind len (values_in before.now) writes.now) (max most (len_behind len (values_in before.now) writes.now)) result }
    {
        if self.most > MOST_COUNTED {
            return self;
        }
        let len = len_with_all(self.len, before, writes);
        AnchorSizes {
            len,
            most: self.most.max(len),
        }
    }

    /// Whether the anchors of each state fit into so many extents.
    pub fn fit(self, extents: u32) -> bool
        ensures is { IsTrue result ↔ (count_of self.most ≤ extents) }
        ensures sizes { (len most : ℕ) → AreSizes len most self → (IsTrue result ↔ (count_of most ≤ extents)) }
    {
        self.most <= BODY_LEN as u64 * u64::from(extents)
    }
}
