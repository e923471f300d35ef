//! The memory that the process holds, as the system tells it.

use crate::fault::Fault;
use crate::numbers::quotient;
use crate::stores;
use std::alloc::Global;
use std::fs::File;
use std::io;
use std::rt::Files;
use std::time::Clock;

/// Bytes of memory.
#[derive(Clone, Copy)]
pub(crate) struct Held {
    /// What is held.
    pub(crate) now: u64,
    /// The most that was held since the process began, or since `forget_most`.
    pub(crate) most: u64,
}

/// The number of kilobytes after this name, in bytes; 0 where the name isn't there.
fn bytes_of(status: &str, name: &str) -> u64 {
    for line in status.lines() {
        let mut words = line.split_whitespace();
        if words.next() == Some(name) {
            let number = words.next().and_then(|word| word.parse::<u64>().ok());
            return number.unwrap_or(0).saturating_mul(1_024);
        }
    }
    0
}

/// What the process holds.
pub(crate) fn read_held(rt: &HostRuntime) -> io::Result<Held> {
    let status = std::fs::read_to_string(rt, "/proc/self/status")?;
    Ok(Held {
        now: bytes_of(status.as_str(), "VmRSS:"),
        most: bytes_of(status.as_str(), "VmHWM:"),
    })
}

/// From now on `most` is of what comes.
pub(crate) fn forget_most(rt: &HostRuntime) -> io::Result<()> {
    std::fs::write(rt, "/proc/self/clear_refs", "5")
}

/// Measures the memory that the opened store of a folder holds, for each of this many versions.
pub(crate) fn measure(
    rt: &HostRuntime,
    alloc: Global,
    folder: &str,
    versions: u64,
) -> Result<(), Fault> {
    let folder = format!(in alloc; "{folder}/store")?;
    let before = read_held(rt)?;
    let store = stores::open(rt, alloc, folder.as_str())?;
    let after = read_held(rt);
    store.close();
    let after = after?;
    let opened = after.now.saturating_sub(before.now);
    let most = after.most.saturating_sub(before.now);
    println!(rt;
        "{{\"value\": {}, \"versions\": {versions}, \"held\": {opened}, \"most\": {most}}}",
        quotient(opened, versions)
    )?;
    Ok(())
}
