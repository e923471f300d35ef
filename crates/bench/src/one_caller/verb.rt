//! What is measured of a store with one caller.

/// How a measurement of commits is made up: so many transactions under one gate, each of so many
/// records, all in so many extents.
#[derive(Clone, Copy)]
pub(crate) struct Shape {
    pub(crate) transactions: u64,
    pub(crate) records: u64,
    pub(crate) extents: u64,
}

/// One record, one commit, one gate.
const ALONE: Shape = Shape {
    transactions: 1,
    records: 1,
    extents: 1,
};

/// As many commits of one record as one gate takes.
const GATHERED: Shape = Shape {
    transactions: 16,
    records: 1,
    extents: 16,
};

/// As many records as a commit takes: 80 bytes each, 102 in an extent.
const LARGE: Shape = Shape {
    transactions: 1,
    records: 1_024,
    extents: 11,
};

/// What is asked of the versions of some keys.
#[derive(Clone, Copy)]
pub(crate) enum Question {
    /// The value of a key as of a time.
    Value,
    /// All versions of a key.
    Rows,
    /// The same, walked over in a loan.
    Walk,
    /// All records as of a time.
    Scan,
}

/// Of what keys a store is made that is to be vacuumed.
#[derive(Clone, Copy)]
pub(crate) enum Breadth {
    /// Many versions of each of 1,000 keys.
    Deep,
    /// Two versions of each of many keys.
    Wide,
}

/// What a vacuum does.
#[derive(Clone, Copy)]
pub(crate) enum Task {
    Archive,
    Reclaim,
}

#[derive(Clone, Copy)]
pub(crate) enum Verb {
    Commits(Shape),
    /// Groups of so many commits in so many extents, of a store whose log lies in the heap.
    LogCommits(u64, u64),
    Queries(Question),
    Opening,
    Size,
    /// A store is made, which those below take from its folder.
    Preparing(Breadth),
    Vacuum(Task),
    Past(Question),
    Reopening,
    Memory,
}

/// The verb of a name, and how often it is done where no count is given.
pub(crate) fn known(name: &str) -> Option<(Verb, u64)> {
    match name {
        "w1" => Some((Verb::Commits(ALONE), 2_000)),
        "w2g" => Some((Verb::Commits(GATHERED), 500)),
        "w3" => Some((Verb::Commits(LARGE), 200)),
        "e1" => Some((Verb::LogCommits(1, 1), 2_000)),
        "e16" => Some((Verb::LogCommits(16, 1), 500)),
        "e64" => Some((Verb::LogCommits(64, 1), 500)),
        "e1024" => Some((Verb::LogCommits(1_024, 13), 100)),
        "w4" => Some((Verb::Queries(Question::Value), 1_000_000)),
        "w5" => Some((Verb::Queries(Question::Rows), 50_000)),
        "w5w" => Some((Verb::Queries(Question::Walk), 50_000)),
        "w6" => Some((Verb::Queries(Question::Scan), 3_000)),
        "w7" => Some((Verb::Opening, 3_000)),
        "w8" => Some((Verb::Size, 1)),
        "v0" => Some((Verb::Preparing(Breadth::Deep), 100_000)),
        "v0k" => Some((Verb::Preparing(Breadth::Wide), 100_000)),
        "v1" => Some((Verb::Vacuum(Task::Archive), 100_000)),
        "v2" => Some((Verb::Vacuum(Task::Reclaim), 100_000)),
        "v3" => Some((Verb::Past(Question::Value), 100_000)),
        "v4" => Some((Verb::Past(Question::Scan), 10)),
        "v5" => Some((Verb::Reopening, 5)),
        "v6" => Some((Verb::Memory, 100_000)),
        _ => None,
    }
}
