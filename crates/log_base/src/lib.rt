//! What a reclaim puts in the place of a log's first chains, computed from what memory has: the base, and the
//! names of commits that its roll has.
#![tactic(auto)]

mod base;
mod front;
pub mod laws;
mod names;
mod raising;
mod roll_writer;

pub use base::base_of;
pub use front::{anchors_of, front_len, mark_of};
pub use names::names_of;
pub use roll_writer::RollWriter;
