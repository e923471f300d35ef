//! What the log of a store tells: how much is used and left, the times of its commits, its marks and floors.
#![tactic(auto)]

mod facts;
mod floor;
mod heap_facts;
mod heap_floors;
mod heap_info;
mod info;
mod json_info;
mod lines;

pub use heap_info::{heap_info_text, read_heap_info};
pub use info::info_text;
