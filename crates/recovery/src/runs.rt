//! The runs of the archive, as the slots of a log say.

ghost use Rattle.std.specs.Prelude.{IfOk};
ghost use Rattle.std.specs.List.{AllByRecursion};
ghost use Rattle.status.specs.Rules.{runs_of};
ghost use Rattle.wire.specs.Spelling.{IsRun};
ghost use Rattle.recovery.specs.RunEntries.{AreEntriesOf};

use archive::RunEntry;
use floors::Floors;
use std::alloc::{AllocError, Global};
use wire::{Body, Slot};

/// The runs that slots name, in their order, each with the archive mark and the floors before its slot.
pub fn read_runs(alloc: Global, slots: &[Slot]) -> Result<Vec<RunEntry>, AllocError>
    requires { AllByRecursion IsRun (runs_of slots.now) }
    ensures { IfOk result (λ runs. AreEntriesOf slots.now runs.items) }
{
    let mut runs = Vec::new(alloc);
    let mut archived = 0;
    let mut floors = Floors::none();
    let mut rest = slots;
    while let [slot, after @ ..] = rest {
        match &slot.body {
            Body::Archived(run) => {
                runs.push(RunEntry {
                    slot: *run,
                    mark: archived,
                    floors: floors.share()?,
                })?;
                archived = run.upto;
            }
            Body::Floor { relation, floor } => floors = floors.raised(alloc, *relation, *floor)?,
            Body::Commit(_) => {}
            Body::Reclaimed(_) => {}
        }
        rest = after;
    }
    Ok(runs)
}
