//! The log of a store whose log lies in the heap, as text, without opening the store.
#![tactic(auto)]

mod dump;
mod lines;

pub use dump::{Dump, read_dump, write_dump};
pub use lines::{DumpFault, write_instant};
