//! How many bytes the anchors take: of the last state, and of all states so far the most.

ghost use Rattle.std.specs.Prelude.{◌≤◌};

/// How many bytes the anchors of a state take, and of all states up to it the most. Once a state has more than
/// `MOST_COUNTED`, `most` is above that from then on, and says no more.
#[derive(Clone, Copy, Debug)]
pub struct AnchorSizes {
    pub len: u64,
    pub most: u64,
    ghost len_upto_most: { len ≤ most },
}
