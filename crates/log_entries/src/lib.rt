//! What a chain of the endless profile's log holds: its bytes, read and written.
#![tactic(auto)]

mod archive;
mod base;
mod decoding;
mod encode;
mod entry;
mod floor;
mod group;
mod item;
pub mod laws;
mod listed;
mod roll;

pub use decoding::decode;
pub use encode::{commit_len, push_archive, push_base, push_commit, push_floor, push_write};
pub use entry::{AnchorName, Archive, Base, Entry, Member, RelationFloor, Roll};
pub use listed::Listed;
