//! The runs of the archive that a view reads.
ghost use Rattle.std.specs.Prelude.{◌≡◌, ◌++◌, ◌<◌, ◌^◌, [], ◌∷◌, IfOk};
ghost use Rattle.timequery.specs.View.{mark_of};

use archive::RunEntry;
use std::alloc::{AllocError, Global};
use std::marker::Model;
use std::sync::Arc;

/// The runs of a log at one moment, in its order, which several views may hold. The list never changes: a
/// longer one is another.
#[derive(Drop)]
pub struct Runs {
    shared: Option<Arc<Vec<RunEntry>>>,
}

impl Model for Runs {
    ghost use Rattle.std.specs.Prelude.{List};
    ghost use Rattle.archive.specs.declared.run.RunEntry.{RunEntry};
    ghost use Rattle.timequery.specs.View.{runs_in};

    ghost Value = { List RunEntry };

    ghost view = { λ r. runs_in r.shared };
}

// The same runs once more.
fn shared(alloc: Global, runs: &[RunEntry]) -> Result<Vec<RunEntry>, AllocError>
    ensures { IfOk result (λ again. again.items ≡ runs.now) }
{
    let mut again = Vec::new(alloc);
    let mut rest = runs;
    while let [run, after @ ..] = rest {
        again.push(run.share()?)?;
        rest = after;
    }
    Ok(again)
}

impl Runs {
    /// No run.
    pub fn new() -> Self
        ensures { result ≡ [] }
    {
        Runs { shared: None }
    }

    /// These runs, in the order of their log.
    ///
    /// # Errors
    ///
    /// Where there is no memory for the count of holders.
    pub fn from_vec(alloc: Global, runs: Vec<RunEntry>) -> Result<Self, AllocError>
        ensures { IfOk result (λ r. r ≡ runs.items) }
    {
        Ok(Runs {
            shared: Some(Arc::new(alloc, runs)?),
        })
    }

    /// One more holder of the same runs. It takes no memory.
    ///
    /// # Errors
    ///
    /// Where the count of holders is at its end.
    pub fn share(&self) -> Result<Self, AllocError>
        ensures { IfOk result (λ r. r ≡ self.now) }
    {
        let shared = match &self.shared {
            None => None,
            Some(runs) => Some(Arc::try_clone(runs)?),
        };
        Ok(Runs { shared })
    }

    /// The runs, oldest first.
    pub fn as_slice(&self) -> &[RunEntry]
        ensures { result.now ≡ self.now }
    {
        match &self.shared {
            None => &[],
            Some(runs) => runs.as_slice(),
        }
    }

    /// The same with one more run after them. `self` stays as it is.
    ///
    /// # Errors
    ///
    /// Where there is no memory for the longer list.
    pub fn with(&self, alloc: Global, run: RunEntry) -> Result<Self, AllocError>
        ensures { IfOk result (λ r. r ≡ self.now ++ run ∷ []) }
    {
        let mut runs = shared(alloc, self.as_slice())?;
        runs.push(run)?;
        Self::from_vec(alloc, runs)
    }

    /// The archive mark in microseconds since 1970: versions that ended by it are in these runs. 0 where
    /// there is no run.
    pub fn archive_mark(&self) -> u64
        ensures is { result ≡ mark_of self.now }
        ensures in_range { result < 2 ^ 63 }
    {
        let Some(run) = self.as_slice().last() else {
            return 0;
        };
        run.slot.upto
    }
}
