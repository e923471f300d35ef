//! Which extents of a heap are in use.
#![tactic(auto)]

pub mod laws;
mod space;

pub use space::Space;
