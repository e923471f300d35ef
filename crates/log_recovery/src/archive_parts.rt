//! Whether runs and rolls end within the archive.

ghost use Rattle.std.specs.Prelude.{◌≡◌, ◌<◌, ◌^◌, ◌++◌, MatchOption, map};
ghost use Rattle.std.specs.List.{AllByRecursion};
ghost use Rattle.law_log_layout.specs.HeapLog.{run_span};
ghost use Rattle.log_recovery.specs.Rules.{roll_part};
ghost use Rattle.log_recovery.specs.Ends.{EndsEarly};
ghost use Rattle.log_recovery.specs.Opening.{EndsWithin, FailsSpans};

use log_entries::Roll;
use wire::Run;

// Where the first run starts that does not end within an archive of this length.
fn first_run_past(archive_len: u64, runs: &[Run]) -> Option<u64>
    requires { AllByRecursion EndsEarly (map run_span runs.now) }
    ensures { MatchOption result (AllByRecursion (EndsWithin archive_len) (map run_span runs.now)) (FailsSpans archive_len (map run_span runs.now)) }
{
    let mut rest = runs;
    while let Some((run, after)) = rest.split_first() {
        if archive_len < run.start + run.len {
            return Some(run.start);
        }
        rest = after;
    }
    None
}

// Where the first roll starts that does not.
fn first_roll_past(archive_len: u64, rolls: &[Roll]) -> Option<u64>
    requires { AllByRecursion EndsEarly (map roll_part rolls.now) }
    ensures { MatchOption result (AllByRecursion (EndsWithin archive_len) (map roll_part rolls.now)) (FailsSpans archive_len (map roll_part rolls.now)) }
{
    let mut rest = rolls;
    while let Some((roll, after)) = rest.split_first() {
        if archive_len < roll.start + roll.len {
            return Some(roll.start);
        }
        rest = after;
    }
    None
}

/// Where the first of these runs, and then of these rolls, starts that does not end within an archive of this length.
pub(crate) fn first_past(archive_len: u64, runs: &[Run], rolls: &[Roll]) -> Option<u64>
    requires runs { AllByRecursion EndsEarly (map run_span runs.now) }
    requires rolls { AllByRecursion EndsEarly (map roll_part rolls.now) }
    ensures { MatchOption result (AllByRecursion (EndsWithin archive_len) (map run_span runs.now ++ map roll_part rolls.now))
        (FailsSpans archive_len (map run_span runs.now ++ map roll_part rolls.now)) }
{
    match first_run_past(archive_len, runs) {
        Some(start) => Some(start),
        None => first_roll_past(archive_len, rolls),
    }
}
