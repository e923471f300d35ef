//! Where a committer's time goes.

use crate::numbers::nanoseconds;
use any_store::{Did, PumpFault};
use std::time::{Clock, Instant};

/// The groups that a committer published, and the nanoseconds that it waited for the commits of one, wrote
/// and synced.
#[derive(Clone, Copy, Drop)]
pub(crate) struct Spent {
    pub(crate) groups: u64,
    /// From the end of a group to that of the first write of the next.
    pub(crate) gathering: u64,
    pub(crate) writing: u64,
    pub(crate) syncing: u64,
}

/// What a committer has spent so far. Where the clock cannot be read nothing is added.
#[derive(Drop)]
pub(crate) struct Watch {
    start: Option<Instant>,
    // When the last step ended, in nanoseconds from the start.
    last: u64,
    gathers: bool,
    spent: Spent,
}

impl Watch {
    pub(crate) fn new<R: Clock>(rt: &R) -> Watch {
        Watch {
            start: Instant::now(rt).ok(),
            last: 0,
            gathers: true,
            spent: Spent {
                groups: 0,
                gathering: 0,
                writing: 0,
                syncing: 0,
            },
        }
    }

    pub(crate) fn spent(&self) -> Spent {
        self.spent
    }

    // The nanoseconds since the last step ended.
    fn lap<R: Clock>(&mut self, rt: &R) -> u64 {
        let now = match &self.start {
            Some(start) => nanoseconds(rt, start).unwrap_or(self.last),
            None => 0,
        };
        let lap = now.saturating_sub(self.last);
        self.last = now;
        lap
    }

    /// A step has ended so.
    pub(crate) fn note<R: Clock>(&mut self, rt: &R, did: &Result<Did, PumpFault>) {
        let lap = self.lap(rt);
        let spent = &mut self.spent;
        match did {
            Ok(Did::WroteExtent | Did::GateClosed | Did::BodyWritten | Did::GateWritten)
                if !self.gathers => {
                spent.writing = spent.writing.wrapping_add(lap);
            }
            Ok(Did::HeapSynced | Did::BodySynced | Did::Published(_)) => {
                spent.syncing = spent.syncing.wrapping_add(lap);
            }
            _ => spent.gathering = spent.gathering.wrapping_add(lap),
        }
        self.gathers = matches!(did, Ok(Did::Published(_) | Did::Idle));
        if let Ok(Did::Published(_)) = did {
            self.spent.groups = self.spent.groups.wrapping_add(1);
        }
    }
}
