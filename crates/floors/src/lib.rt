//! The floors of a store: before its floor nothing is promised of a relation.
#![tactic(auto)]

mod floors;
pub mod laws;

pub use floors::{Floors, OwnFloor};
