//! Writers, readers, a committer and a vacuum, each a thread, over one store that they share, with an exact count of commits.
#![tactic(auto)]

mod in_memory;
mod workers;

pub use in_memory::{SLOTS, holds_last_rounds, stress, stress_on};
pub use workers::{Badge, Plan, Worked, read, run_workers};
