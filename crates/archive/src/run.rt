ghost use Rattle.std.specs.Prelude.{◌≡◌, IfOk};
ghost use Rattle.wire.specs.Spelling.{IsRun};

use floors::Floors;
use std::alloc::AllocError;
use wire::Run;

/// A run as its slot of the log names it, with the archive mark and the floors before that slot.
#[derive(Drop)]
pub struct RunEntry {
    pub slot: Run,
    /// The archive mark, in microseconds since 1970.
    pub mark: u64,
    pub floors: Floors,
    ghost in_range: { IsRun slot },
}

impl RunEntry {
    /// The same once more. It takes no memory.
    ///
    /// # Errors
    ///
    /// Where the count of holders of its floors is at its end.
    pub fn share(&self) -> Result<Self, AllocError>
        ensures { IfOk result (λ entry. entry ≡ self.now) }
    {
        Ok(RunEntry {
            slot: self.slot,
            mark: self.mark,
            floors: self.floors.share()?,
        })
    }
}
