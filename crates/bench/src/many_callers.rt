//! A store on real files that threads share, compared with raw writes and syncs, and a soak of one.

mod crew;
mod groups;
mod holding;
mod notes;
mod sharing;
mod soak;
mod soaking;
mod together;
mod verb;

pub(crate) use together::measure;
pub(crate) use verb::{Verb, known};
