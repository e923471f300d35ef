//! Extents from the numbers of those that are live, as the chains of a log name them.

ghost use Rattle.std.specs.Prelude.{◌≡◌, ℕ, ◌↔◌, Contains, length, IfOk, IfErr};
ghost use Rattle.extents.specs.Usages.{IsFree, IsKept, used_count};
ghost use Rattle.extents.specs.Live.{IsNumber, AreLive, usages_of_live, IsLiveFault};

use crate::extent::NotFree;
use crate::extents::Extents;
use std::alloc::{AllocError, Global};

/// Why no extents have these numbers as the live ones.
#[derive(Clone, Copy, Debug, PartialEq, Eq)]
pub enum LiveFault {
    NoMemory,
    /// The first number that is none of 1 to `LAST_EXTENT` or is there a second time.
    NotFree(u32),
}

impl From<AllocError> for LiveFault {
    ghost use Rattle.std.specs.Prelude.{◌≡◌};
    ghost use Rattle.extents.specs.declared.live.LiveFault.TheVariants.{NoMemory};

    ghost from_gives = { λ _ fault. fault ≡ NoMemory };

    fn from(_: AllocError) -> Self {
        LiveFault::NoMemory
    }
}

impl Extents {
    /// The extents of these numbers are kept, and all others are free. The time is linear in the
    /// numbers.
    ///
    /// # Errors
    ///
    /// `NotFree` with the first number that is none of 1 to `LAST_EXTENT` or is there a second
    /// time; `NoMemory`.
    pub fn of_live(alloc: Global, numbers: &[u32]) -> Result<Extents, LiveFault>
        ensures live { IfOk result (λ extents. AreLive numbers.now × (extents ≡ usages_of_live numbers.now)) }
        ensures kept { IfOk result (λ extents. (number : ℕ) → IsKept extents number ↔ Contains numbers.now number) }
        ensures free { IfOk result (λ extents. (number : ℕ) → IsFree extents number ↔ (IsNumber number × ¬ Contains numbers.now number)) }
        ensures counted { IfOk result (λ extents. used_count extents ≡ length numbers.now) }
        ensures fault { IfErr result (IsLiveFault numbers.now) }
    {
        let mut extents = Extents::new(alloc)?;
        for number in numbers {
            match extents.claim(*number) {
                Ok(()) => {}
                Err(NotFree) => return Err(LiveFault::NotFree(*number)),
            }
        }
        Ok(extents)
    }
}
