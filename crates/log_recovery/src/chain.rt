//! A chain of the log that was read.

ghost use Rattle.std.specs.Prelude.{◌≡◌, ◌<◌, ◌^◌, length};
ghost use Rattle.log_entries.specs.Spelling.{entry_bytes};

use log_entries::Entry;
use std::marker::Model;

/// A chain of the log: its extents, its head first, the extent where the log goes on after it, and what it says.
#[derive(Drop)]
pub struct LogChain {
    pub numbers: Vec<u32>,
    pub link: u32,
    pub entry: Entry,
    // How many bytes the entry has.
    pub(crate) len: usize,
}

impl Model for LogChain {
    ghost use Rattle.std.specs.Prelude.{◌≡◌, ◌<◌, ◌^◌, length};
    ghost use Rattle.log_entries.specs.Spelling.{entry_bytes};
    ghost use Rattle.law_log_layout.specs.HeapLog.{PlacedChain};

    ghost Value = { PlacedChain };

    ghost view = { λ c. record { numbers = c.numbers.items; link = c.link; entry = c.entry } };

    ghost invariant = { λ c. (c.len ≡ length (entry_bytes c.entry)) × (c.len < 2 ^ 63) };
}

impl LogChain {
    /// How many bytes the chain holds.
    pub fn len(&self) -> usize
        ensures is { result ≡ length (entry_bytes self.now.entry) }
        ensures small { result < 2 ^ 63 }
    {
        self.len
    }
}
