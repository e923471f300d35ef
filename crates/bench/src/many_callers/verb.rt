//! What is measured of a store that threads share.

use crate::many_callers::crew::Reading;

/// The milliseconds from one round of a soak's writers to the next.
const SOAK_MS: u64 = 40;

/// What is measured.
#[derive(Clone, Copy)]
pub(crate) enum Verb {
    /// Commits of so many writers.
    Writers(u8),
    /// The same of a store whose log lies in the heap.
    LogWriters(u8),
    /// What so many readers read while one writes.
    Readers(u8, Reading),
    /// How long the lock is held.
    Holding,
    /// Many threads, with notes of what they were told; so many milliseconds from one round of the writers
    /// to the next.
    Soak(u64),
}

/// The verb of a name, and how often it is done where no count is given.
pub(crate) fn known(name: &str) -> Option<(Verb, u64)> {
    match name {
        "c1" => Some((Verb::Writers(1), 2_000)),
        "c2" => Some((Verb::Writers(2), 4_000)),
        "c4" => Some((Verb::Writers(4), 8_000)),
        "c8" => Some((Verb::Writers(8), 16_000)),
        "c16" => Some((Verb::Writers(16), 32_000)),
        "c32" => Some((Verb::Writers(32), 32_000)),
        "ec1" => Some((Verb::LogWriters(1), 2_000)),
        "ec2" => Some((Verb::LogWriters(2), 4_000)),
        "ec4" => Some((Verb::LogWriters(4), 8_000)),
        "ec8" => Some((Verb::LogWriters(8), 16_000)),
        "ec16" => Some((Verb::LogWriters(16), 32_000)),
        "ec32" => Some((Verb::LogWriters(32), 32_000)),
        "r1" => Some((Verb::Readers(1, Reading::Views), 10_000)),
        "r2" => Some((Verb::Readers(2, Reading::Views), 10_000)),
        "r3" => Some((Verb::Readers(3, Reading::Views), 10_000)),
        "r4" => Some((Verb::Readers(4, Reading::Views), 10_000)),
        "l1" => Some((Verb::Readers(1, Reading::LatestViews), 10_000)),
        "l2" => Some((Verb::Readers(2, Reading::LatestViews), 10_000)),
        "l3" => Some((Verb::Readers(3, Reading::LatestViews), 10_000)),
        "l4" => Some((Verb::Readers(4, Reading::LatestViews), 10_000)),
        "n1" => Some((Verb::Readers(1, Reading::RenewedViews), 5_000_000)),
        "n2" => Some((Verb::Readers(2, Reading::RenewedViews), 5_000_000)),
        "n3" => Some((Verb::Readers(3, Reading::RenewedViews), 5_000_000)),
        "n4" => Some((Verb::Readers(4, Reading::RenewedViews), 5_000_000)),
        "q1" => Some((Verb::Readers(1, Reading::Asks), 5_000_000)),
        "q2" => Some((Verb::Readers(2, Reading::Asks), 5_000_000)),
        "q3" => Some((Verb::Readers(3, Reading::Asks), 5_000_000)),
        "q4" => Some((Verb::Readers(4, Reading::Asks), 5_000_000)),
        "h" => Some((Verb::Holding, 200)),
        "soak" => Some((Verb::Soak(SOAK_MS), 250)),
        "rush" => Some((Verb::Soak(0), 250)),
        _ => None,
    }
}
