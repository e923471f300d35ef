//! What the commands of `timestore` do.
#![tactic(auto)]

mod actions;
mod advising;
mod asking;
mod dump;
mod job_records;
mod needs;
mod showing;
mod stress_answer;
mod styled;
mod vacuuming;
mod writing;

pub use actions::{act, refuse_folder};
pub use advising::advice;
pub use command_line::{
    Action, Form, Layout, Question, RecordWrite, Style, When, action_of, read_words, words_advice,
};
pub use dump::write_dump;
pub use needs::{Need, folder_need};
pub use recovery::OpenFault;
pub use stress_answer::write_stress_answer;
