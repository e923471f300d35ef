//! What the log of a store says that lies in the heap, up to the first check of opening that fails. The store is not
//! opened.
#![tactic(auto)]

mod items;
mod reading;
mod shown;
mod walk;

pub use items::LogItem;
pub use reading::{LogExtents, ShownEnd};
pub use shown::{LogShown, read_shown};
