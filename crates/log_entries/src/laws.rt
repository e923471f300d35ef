//! Laws of the bytes of chains, each as a function with nothing to do.
ghost use Rattle.log_entries.specs.Laws.{OneEntry, CommitLen};

/// Bytes are those of at most one entry.
pub fn one_entry()
    ensures { OneEntry }
{}

/// A commit has as many bytes as its records' lengths say.
pub fn commit_len()
    ensures { CommitLen }
{}
