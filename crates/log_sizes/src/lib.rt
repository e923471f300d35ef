//! The running number of the bytes that the anchors of a state take.
#![tactic(auto)]

mod anchor_sizes;
mod counting;
mod lens;

pub use anchor_sizes::AnchorSizes;
pub use counting::MOST_COUNTED;
pub use lens::anchor_len;
