//! The command line of `timestore`.
#![tactic(auto)]

mod action;
mod advice;
mod command;
mod help;
mod layout;
mod moment;
mod question;
mod read;

pub use action::Action;
pub use advice::words_advice;
pub use command::read_words;
pub use forms::{Form, Style};
pub use layout::Layout;
pub use question::{Question, RecordWrite, When};
pub use read::action_of;
