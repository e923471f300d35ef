//! The room in the heap of a store whose log lies there: the bytes of the commits that wait, and the extents that they take.
#![tactic(auto)]

mod base_share;
mod content;
mod room;
mod taking;

pub use base_share::BaseParts;
pub use content::{Content, Joined, count_for, drop_first, join, spell};
pub use room::{HeapRoom, Reserved, TakenChain};
