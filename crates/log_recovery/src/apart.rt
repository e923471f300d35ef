//! Parts of the archive that have no byte in common.

ghost use Rattle.std.specs.Prelude.{◌≡◌, ◌⊎◌, ◌↔◌, ◌≤◌, ◌<◌, ◌+◌, ◌^◌, ◌++◌, ℕ, IsTrue, map};
ghost use Rattle.std.specs.List.{AllByRecursion};
ghost use Rattle.law_log_layout.specs.HeapLog.{AreSpansApart, AreSpansInRow, run_span};
ghost use Rattle.log_recovery.specs.Rules.{roll_part};
ghost use Rattle.log_recovery.specs.Ends.{EndsEarly};

use log_entries::Roll;
use wire::Run;

// Whether a part is empty, or ends before a place.
fn ends_by(start: u64, len: u64, place: u64) -> bool
    requires { start + len < 2 ^ 63 }
    ensures { IsTrue result ↔ ((len ≡ 0) ⊎ (start + len ≤ place)) }
{
    len == 0 || start + len <= place
}

/// Whether no byte of the archive lies in two of these runs and rolls, where each run starts after the one before
/// it, and each roll too.
pub(crate) fn are_apart(runs: &[Run], rolls: &[Roll]) -> bool
    requires runs { AreSpansInRow 0 (map run_span runs.now) }
    requires rolls { AreSpansInRow 0 (map roll_part rolls.now) }
    requires run_ends { AllByRecursion EndsEarly (map run_span runs.now) }
    requires roll_ends { AllByRecursion EndsEarly (map roll_part rolls.now) }
    ensures { IsTrue result ↔ AreSpansApart (map run_span runs.now ++ map roll_part rolls.now) }
{
    let mut runs_left = runs;
    let mut rolls_left = rolls;
    while let Some((run, after_run)) = runs_left.split_first() {
        let Some((roll, after_roll)) = rolls_left.split_first() else {
            return true;
        };
        if ends_by(run.start, run.len, roll.start) {
            runs_left = after_run;
        } else if ends_by(roll.start, roll.len, run.start) {
            rolls_left = after_roll;
        } else {
            return false;
        }
    }
    true
}
