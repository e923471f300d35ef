//! Extents of the heap that name the next one of their chain, and chains whose bytes run on from
//! extent to extent.
#![tactic(auto)]

mod chain_reader;
mod extent;
mod filling;
pub mod laws;
mod reading;

pub use chain_reader::{ChainKind, ChainParts, ChainReader, Taken};
pub use extent::{BODY_LEN, HEAD_LEN, LinkedRef, OPEN_GATE, count_extents, is_open};
pub use filling::fill_extent;
pub use reading::read_extent;
