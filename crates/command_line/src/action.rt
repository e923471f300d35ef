//! What the words of a command line ask for.
use crate::layout::Layout;
use crate::question::{Question, RecordWrite};
use forms::Style;
use history::Key;

/// What to do. A time is in microseconds since 1970, and `None` where its word spells none.
#[derive(Clone, Copy, Debug, PartialEq, Eq)]
pub enum Action<'a> {
    /// No word: the script of standard input, on a new store of 16 slots in memory.
    Example,
    /// Makes an empty store of this layout in a folder, or `None` where the words say a size that is of
    /// another profile.
    Format {
        dir: &'a str,
        layout: Option<Layout>,
    },
    /// Runs the script of standard input on the store in a folder.
    Run {
        dir: &'a str,
    },
    /// Asks the store in a folder for a key's value at a time.
    At {
        dir: &'a str,
        key: Key,
        time: Option<u64>,
    },
    /// Asks the store in a folder for a key's rows from one time up to another.
    Between {
        dir: &'a str,
        key: Key,
        from: Option<u64>,
        to: Option<u64>,
    },
    /// Asks the store in a folder a question, or `None` where a word that is to be a time is none. The
    /// answer is spelled so.
    Ask {
        dir: &'a str,
        question: Option<Question>,
        style: Style,
    },
    /// Writes a record of the store in a folder, in a commit of its own.
    Write {
        dir: &'a str,
        write: RecordWrite<'a>,
    },
    /// Archives what ended in the store in a folder by a time, and reclaims its space.
    Vacuum {
        dir: &'a str,
        time: Option<u64>,
    },
    /// Makes 256 slots more in the store in a folder.
    Grow {
        dir: &'a str,
    },
    /// Lets the history of a relation before a time go, in the store in a folder.
    Floor {
        dir: &'a str,
        relation: u16,
        time: Option<u64>,
    },
    /// Shows what the store in a folder has and has room for, in lines or in JSON.
    Info {
        dir: &'a str,
        json: bool,
    },
    /// Shows what the log of the store in a folder says.
    Dump {
        dir: &'a str,
    },
    /// Lets this many threads write and read a new store in memory, each so many times.
    Stress {
        writers: u8,
        readers: u8,
        rounds: u16,
    },
}
