//! The lines of a script.
#![tactic(auto)]

mod fields;
mod line;
mod name;
mod numbers;
mod times;
mod words;

pub use fields::Fields;
pub use line::{Line, parse};
pub use name::Name;
pub use times::read_time;
