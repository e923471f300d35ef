//! Scripts on a store.
#![tactic(auto)]

mod digits;
mod ending;
mod engine;
mod fault;
mod input;
mod names;
mod output;
mod queries;
mod refused;
mod reply;
mod session;
mod starting;
mod stepping;
mod text;
mod transacting;

pub use ending::Ending;
pub use engine::answer_lines;
pub use fault::Fault;
pub use input::{LineInput, Lines};
pub use output::{Answers, write_numbered, write_reply};
pub use refused::Refused;
pub use reply::Reply;
pub use session::{MARK, Session};
