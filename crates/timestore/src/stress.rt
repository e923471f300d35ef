//! The command `stress`.
ghost use Rattle.std.specs.Prelude.{◌≡◌, ◌≤◌, ◌*◌, ◌++◌, ℕ, codes};
ghost use Rattle.std.specs.Fmt.{decimal};
ghost use Rattle.std.specs.Io.KnownBytes.{Appends};
ghost use Rattle.any_store.specs.declared.formatting.Layout.TheVariants.{Slots};
ghost use Rattle.workload.specs.Reading.{HasCommitted};

use shell::write_stress_answer;
use std::alloc::Global;
use std::io::Write;
use std::sync::Wait;
use std::thread::Threads;
use workload::{Plan, SLOTS, stress};

/// The status of a run whose answer was written in full.
const DONE: u8 = 0;

/// The status where a worker was refused, a record has not the value of its last round, or the
/// answer could not be written.
const REFUSED: u8 = 1;

/// Lets the plan's threads write and read a new store in memory, and says how many commits there
/// were and the time of the last. Gives the program's status.
pub fn run_stress<R: Threads + Wait + Sync, W: Write>(
    rt: &R,
    alloc: Global,
    plan: Plan,
    output: &mut W,
) -> u8
    ensures done { result ≡ 0 → (last : ℕ) × HasCommitted (Slots 32768) plan.writers plan.rounds (plan.writers * plan.rounds) last
        × Appends (W.contents output.old) (W.contents output.new)
        (codes "commits " ++ (decimal (plan.writers * plan.rounds) ++ (codes " last " ++ (decimal last ++ codes "\n")))) }
    ensures status { result ≤ 1 }
{
    let Some((commits, last)) = stress(rt, alloc, SLOTS, plan) else {
        return REFUSED;
    };
    match write_stress_answer(output, commits, last) {
        Ok(()) => DONE,
        Err(_) => REFUSED,
    }
}
