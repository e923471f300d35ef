//! A store on real files with one caller, with no lines of a script between, compared with what the files
//! and the memory can do themselves. What a vacuum does and leaves is measured step by step, by one call
//! each, on the store that a call before left in the folder.

mod asking;
mod committing;
mod copying;
mod log_writing;
mod memory;
mod opening;
mod past;
mod plain_copy;
mod preparing;
mod reopening;
mod vacuuming;
mod verb;
mod writing;

use crate::fault::Fault;
use crate::records::VERSIONS;
use crate::words::Request;
use std::alloc::Global;
use std::fs::File;
use std::rt::Files;
use std::time::Clock;
pub(crate) use verb::{Verb, known};

/// Measures so often, or of so many versions, and prints a line of JSON.
pub(crate) fn measure(
    rt: &HostRuntime,
    alloc: Global,
    verb: Verb,
    request: &Request<'_>,
) -> Result<(), Fault> {
    let folder = request.folder;
    let count = request.count;
    let versions = request.number.unwrap_or(VERSIONS);
    let runs = request.number.unwrap_or(1);
    match verb {
        Verb::Commits(shape) => writing::measure(rt, alloc, folder, shape, count),
        Verb::LogCommits(commits, extents) => {
            log_writing::measure(rt, alloc, folder, commits, extents, count)
        }
        Verb::Queries(question) => asking::measure(rt, alloc, folder, question, count, versions),
        Verb::Opening => opening::measure(rt, alloc, folder, count),
        Verb::Size => asking::measure_size(rt, alloc, folder, versions),
        Verb::Preparing(breadth) => preparing::measure(rt, alloc, folder, breadth, count),
        Verb::Vacuum(task) => vacuuming::measure(rt, alloc, folder, task, count, runs),
        Verb::Past(question) => past::measure(rt, alloc, folder, question, count),
        Verb::Reopening => reopening::measure(rt, alloc, folder, count),
        Verb::Memory => memory::measure(rt, alloc, folder, count),
    }
}
