//! Commit times, and the text of an instant.
#![tactic(auto)]

mod commit;
mod instant;
pub mod laws;

pub use commit::{ClockEnd, CommitClock};
pub use history::LAST_TIME;
pub use instant::{BadInstant, Moment, read_instant, read_instant_bytes, show_instant};
