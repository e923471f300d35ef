//! The writing of a chain, one device call at a time: at the end of the log, or where no log names it yet.
#![tactic(auto)]

mod extents_writer;
mod place;
mod writer;

pub use extents_writer::ExtentsWriter;
pub use writer::{ChainWriter, Wrote};
