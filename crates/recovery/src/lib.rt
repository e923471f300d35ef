//! Making the image of a new store, and reading the image of one.
#![tactic(auto)]

mod anchors;
mod chain;
mod fault;
mod formatting;
mod heap;
pub mod laws;
mod members;
mod opening;
mod records;
mod recovered;
mod resolving;
mod runs;

pub use anchors::anchored;
pub use fault::{FormatFault, OpenFault};
pub use formatting::format;
pub use members::with_records;
pub use opening::{read_image, settle};
pub use recovered::{LiveChain, Recovered};
pub use resolving::resolve;
