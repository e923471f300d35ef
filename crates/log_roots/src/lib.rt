//! The header of a store whose log lies in the heap: where that log begins, and the way to another beginning.
#![tactic(auto)]

mod decoding;
mod encoding;
pub mod laws;
mod roots;
mod turning;

pub use decoding::decode;
pub use encoding::encode;
pub use roots::{
    HEADER_LEN, LEAST_EXTENTS, MOST_EXTENTS, PROFILE, ROOT_0_PLACE, ROOT_1_PLACE, Roots,
    TURN_PLACE, is_heap_size,
};
pub use turning::{RootWriter, RootWrote};
