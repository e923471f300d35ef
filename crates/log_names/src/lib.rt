//! The times of a label in rolls: the names of commits that the archive has.
#![tactic(auto)]

mod name;
mod parts;
mod reader;
mod walk;

pub(crate) use name::{NAME_BYTES, NAME_LEN, Name, decode_name, is_in_time, may_follow};
pub use parts::{ReadsParts, UncachedParts};
pub use reader::NamesReader;
