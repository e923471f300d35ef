//! Views.
ghost use Rattle.std.specs.Prelude.{◌≡◌, ◌≤◌, [], IfOk, MatchResult};
ghost use Rattle.floors.specs.Floors.{floor_at};
ghost use Rattle.timequery.specs.View.{RefusesTime, RefusesBounds, IsInView};

use crate::fault::QueryFault;
use crate::runs::Runs;
use archive::RunEntry;
use chains::Frozen;
use floors::Floors;
use std::alloc::AllocError;
use std::marker::Model;

/// What is published at one moment, which later commits do not change. It is to be given back to
/// its store.
pub struct View {
    pub(crate) mark: u64,
    pub(crate) last: u64,
    pub(crate) floors: Floors,
    // Memory has the versions that end after the reclaim mark.
    pub(crate) reclaimed: u64,
    pub(crate) runs: Runs,
    pub(crate) state: Frozen,
}

impl Model for View {
    ghost use Rattle.timequery.specs.View.{ViewValue};
    ghost use Rattle.chains.specs.KeyWrites.{IsOrdered, AreRising};

    ghost Value = { ViewValue };

    ghost view = { λ v. record { mark = v.mark; last = v.last; floors = v.floors; reclaimed = v.reclaimed; runs = v.runs; state = v.state } };

    ghost invariant = { λ v. IsOrdered v.state × AreRising v.state };
}

impl View {
    /// A view of a store with this store mark: the time of its last commit, its floors and its versions.
    /// Nothing is archived or reclaimed.
    pub fn new(mark: u64, last: u64, floors: Floors, state: Frozen) -> Self
        ensures { result ≡ record { mark = mark; last = last; floors = floors; reclaimed = 0; runs = []; state = state } }
    {
        // The versions are in the order of their keys, and of each key in that of their times.
        let _none = state.is_empty();
        View {
            mark,
            last,
            floors,
            reclaimed: 0,
            runs: Runs::new(),
            state,
        }
    }

    /// The same over these runs of the archive, where memory has given up the versions that ended by the
    /// reclaim mark, in microseconds since 1970.
    pub fn with_archive(self, reclaimed: u64, runs: Runs) -> Self
        ensures { result ≡ record self { reclaimed = reclaimed; runs = runs } }
    {
        let View {
            mark,
            last,
            floors,
            reclaimed: _,
            runs: _,
            state,
        } = self;
        View {
            mark,
            last,
            floors,
            reclaimed,
            runs,
            state,
        }
    }

    /// The store mark of the store that gave it.
    pub fn mark(&self) -> u64
        ensures { result ≡ self.now.mark }
    {
        self.mark
    }

    /// The time of its last commit in microseconds since 1970, 0 where there is none.
    pub fn last(&self) -> u64
        ensures { result ≡ self.now.last }
    {
        self.last
    }

    /// The same view for another holder. It copies no version, however many there are.
    ///
    /// # Errors
    ///
    /// Where the count of holders is at its end.
    pub fn share(&self) -> Result<Self, AllocError>
        ensures { IfOk result (λ v. v ≡ self.now) }
    {
        Ok(View {
            mark: self.mark,
            last: self.last,
            floors: self.floors.share()?,
            reclaimed: self.reclaimed,
            runs: self.runs.share()?,
            state: self.state.share()?,
        })
    }

    /// The runs of the archive that it reads, oldest first.
    pub fn runs(&self) -> &[RunEntry]
        ensures { result.now ≡ self.now.runs }
    {
        self.runs.as_slice()
    }

    /// Lets go of what it holds.
    pub fn spend(self) {
        let View {
            mark: _,
            last: _,
            floors: _,
            reclaimed: _,
            runs: _,
            state: _,
        } = self;
    }

    /// Whether a time in microseconds since 1970 is answered of a relation: from its floor up to the last
    /// commit.
    pub(crate) fn check_time(&self, relation: u16, time: u64) -> Result<(), QueryFault>
        ensures { MatchResult result (λ _. (floor_at self.now.floors relation ≤ time) × (time ≤ self.now.last)) (RefusesTime self.now relation time) }
    {
        let floor = self.floors.at(relation);
        if time < floor {
            return Err(QueryFault::BeforeKept(floor));
        }
        if self.last < time {
            return Err(QueryFault::NotYet(self.last));
        }
        Ok(())
    }

    /// Whether all times from `a` up to `b`, itself no longer among them, are answered of a relation, and
    /// there are some.
    pub(crate) fn check_interval(&self, relation: u16, a: u64, b: u64) -> Result<(), QueryFault>
        ensures { MatchResult result (λ _. IsInView self.now relation a b) (RefusesBounds self.now relation a b) }
    {
        let kept_from = self.floors.at(relation);
        if a.min(b) < kept_from {
            return Err(QueryFault::BeforeKept(kept_from));
        }
        if self.last < b && b - self.last > 1 {
            return Err(QueryFault::NotYet(self.last));
        }
        if b <= a {
            return Err(QueryFault::EmptyInterval);
        }
        Ok(())
    }
}
