//! What is asked of a store, and what is written in it.
use history::Key;

/// A time that is asked about.
#[derive(Clone, Copy, Debug, PartialEq, Eq)]
pub enum When {
    /// The first that the relation answers: its floor.
    First,
    /// This one, in microseconds since 1970.
    At(u64),
    /// That of the last commit.
    Now,
}

/// What one line of a script asks.
#[derive(Clone, Copy, Debug, PartialEq, Eq)]
pub enum Question {
    /// The value of a key at a time.
    Value(Key, When),
    /// The records of a relation that have a value at a time.
    Records(u16, When),
    /// The rows of a key from one time up to another; up to `Now`, with what is valid now.
    Rows(Key, When, When),
    /// The times of the commits with a label.
    Times(u64),
}

/// What is written of a record, in a commit of its own.
#[derive(Clone, Copy, Debug, PartialEq, Eq)]
pub struct RecordWrite<'a> {
    pub key: Key,
    /// The words of its fields, or `None` where the record is deleted.
    pub fields: Option<&'a [&'a str]>,
    /// Whether these words are text, and not hexadecimal.
    pub is_text: bool,
    pub label: u64,
    /// What the clock says, in microseconds since 1970.
    pub now: u64,
}
