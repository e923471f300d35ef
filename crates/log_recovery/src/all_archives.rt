//! The archives that a log names.

ghost use Rattle.std.specs.Prelude.{◌≡◌, ◌++◌, IfOk, OnOk};
ghost use Rattle.log_recovery.specs.Read.{archives_named, all_archives};

use crate::chain::LogChain;
use log_entries::{Archive, Entry};
use std::alloc::{AllocError, Global};

// The archives that a chain names, behind others.
fn push_archives(archives: &mut Vec<Archive>, entry: &Entry) -> Result<(), AllocError>
    ensures { OnOk result (archives.new.items ≡ archives.old.items ++ archives_named entry.now) }
{
    match entry {
        Entry::Archived(archive) => archives.push(*archive)?,
        Entry::Base(base) => archives.extend_from_slice(base.archives.as_slice())?,
        Entry::Group(_) | Entry::Floor(_) => {}
    }
    Ok(())
}

/// The archives that the log of these chains names, in their order.
pub(crate) fn archives_of(alloc: Global, chains: &[LogChain]) -> Result<Vec<Archive>, AllocError>
    ensures { IfOk result (λ archives. archives.items ≡ all_archives chains.now) }
{
    let mut archives = Vec::new(alloc);
    let mut rest = chains;
    while let [chain, after @ ..] = rest {
        push_archives(&mut archives, &chain.entry)?;
        rest = after;
    }
    Ok(archives)
}
