//! Dialogues whose device calls are refused one after the other, or at which the machine stops: what is
//! left each time has just the commits or floors whose gate stands open.
use crate::machine::{Machine, Profiles};
use crate::steps::Step;
use crate::stopped::{
    Came, Dialogue, Gates, dialogue_of, fillings, gates_behind, gates_of, is_call, refuses,
};
use crate::text::script_of;
use disk::Fault;
use std::alloc::Global;
use std::test::Fail;

/// A dialogue of which each device call in turn is refused.
pub struct Sweep {
    pub name: &'static str,
    pub profiles: Profiles,
    /// What stands on the disk before.
    pub before: &'static [Step],
    /// The dialogue's parts, as `repeated` has them.
    pub parts: &'static [(&'static str, u32)],
    /// How many calls it makes once the store is opened.
    pub calls: u32,
    /// Whether the machine stops with the refused call.
    pub stops: bool,
    /// What is said from the refused step on. Empty where a stop says it no one.
    pub failed: &'static str,
    /// How the lines end whose steps write a gate, if gates count here.
    pub gate: Option<&'static str>,
    /// All that is to be had once so many gates stand open.
    pub fronts: &'static [&'static [Step]],
}

/// Whether what a stop leaves, with each filling of what is torn, has its gates.
fn each_left_goes(machine: &mut Machine, sweep: &Sweep, gates: Gates) -> bool {
    for torn in fillings(machine) {
        let goes = match sweep.fronts.get(gates.left_open(torn.0)) {
            Some(front) => machine.goes_left(*torn, front),
            None => false,
        };
        if !goes {
            return false;
        }
    }
    true
}

/// Runs the script on a machine of which a call is refused, and goes on with what a stop leaves.
fn goes_on(machine: &mut Machine, sweep: &Sweep, dialogue: &Dialogue, fault: Fault) -> Came {
    if !machine.goes(sweep.before) {
        return Came::Wrong;
    }
    let came = refuses(machine, dialogue, sweep.failed, fault);
    let gates = gates_of(machine, dialogue, sweep.gate);
    if each_left_goes(machine, sweep, gates) {
        came
    } else {
        Came::Wrong
    }
}

/// Refuses each call in turn: each of the dialogue's is met once, and before them those of the opening.
fn refuses_each(
    alloc: Global,
    sweep: &Sweep,
    dialogue: &Dialogue,
    (write_reaches, profile): (bool, u8),
) -> Result<(), Fail> {
    let mut failed: u32 = 0;
    for calls_before in 0..200 {
        let fault = Fault {
            calls_before,
            write_reaches,
            stops: sweep.stops,
        };
        let mut machine = Machine::new(alloc, profile);
        match goes_on(&mut machine, sweep, dialogue, fault) {
            Came::Unopened => {}
            Came::Failed => failed = failed.saturating_add(1),
            Came::Whole if failed == sweep.calls => return Ok(()),
            Came::Whole | Came::Wrong => return Err(machine.failure(sweep.name, calls_before)),
        }
    }
    Err(Fail::new(sweep.name))
}

/// A sweep in each of its profiles.
fn goes(alloc: Global, sweep: &Sweep, write_reaches: bool) -> Result<(), Fail> {
    let dialogue = dialogue_of(alloc, sweep.parts)?;
    for profile in sweep.profiles.all() {
        refuses_each(alloc, sweep, &dialogue, (write_reaches, *profile))?;
    }
    Ok(())
}

/// Each sweep must go, where a refused write has reached the disk, or has not.
pub fn each_sweep_goes(alloc: Global, sweeps: &[Sweep], write_reaches: bool) -> Result<(), Fail> {
    for sweep in sweeps {
        goes(alloc, sweep, write_reaches)?;
    }
    Ok(())
}

/// Whether a stop behind so many lines of the dialogue leaves its gates, and the disk as it is has all
/// gates that were written.
fn stops_behind(machine: &mut Machine, sweep: &Sweep, dialogue: &str, lines: usize) -> bool {
    let Ok(script) = script_of(machine.alloc, dialogue, lines) else {
        return false;
    };
    let gates = gates_behind(dialogue, (lines, lines), sweep.gate);
    let Some(front) = sweep.fronts.get(gates.written) else {
        return false;
    };
    machine.goes(sweep.before)
        && machine.ends(script.as_str())
        && each_left_goes(machine, sweep, gates)
        && machine.goes(front)
}

/// The same on a new machine of a profile.
fn stops_behind_in(
    alloc: Global,
    sweep: &Sweep,
    dialogue: &str,
    (lines, profile): (usize, u8),
) -> Result<(), Fail> {
    let mut machine = Machine::new(alloc, profile);
    if stops_behind(&mut machine, sweep, dialogue, lines) {
        return Ok(());
    }
    Err(machine.failure(sweep.name, lines as u64))
}

/// A stop before each call in turn, and behind all lines, in a profile.
fn stops_before_each(
    alloc: Global,
    sweep: &Sweep,
    dialogue: &str,
    profile: u8,
) -> Result<(), Fail> {
    for (lines, line) in dialogue.lines().enumerate() {
        if is_call(line) {
            stops_behind_in(alloc, sweep, dialogue, (lines, profile))?;
        }
    }
    stops_behind_in(alloc, sweep, dialogue, (usize::MAX, profile))
}

/// A stop between two calls of a sweep, in each of its profiles.
fn goes_between(alloc: Global, sweep: &Sweep) -> Result<(), Fail> {
    let dialogue = dialogue_of(alloc, sweep.parts)?;
    for profile in sweep.profiles.all() {
        stops_before_each(alloc, sweep, dialogue.lines.as_str(), *profile)?;
    }
    Ok(())
}

/// Each sweep must go, where the machine stops between two calls.
pub fn each_goes_between(alloc: Global, sweeps: &[Sweep]) -> Result<(), Fail> {
    for sweep in sweeps {
        goes_between(alloc, sweep)?;
    }
    Ok(())
}
