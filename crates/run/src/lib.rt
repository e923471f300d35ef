//! Lists of calls of a store and of what it gave out, with their answers.
#![tactic(auto)]

mod calls;
mod held;
pub mod laws;
mod opening;
mod redeeming;
mod runner;
mod transacting;
mod viewing;

pub use calls::{Answer, Call, RedeemOutcome, SubmitOutcome};
pub use held::Held;
pub use opening::{close, format, open, whatever_a_stop_leaves};
pub use runner::{give_back, run, run_on, step};
