//! Actions whose device calls are refused one after the other: what is said each time, and what the disk
//! then has.
use crate::examples::{MADE, NOT_MADE};
use crate::machine::{Machine, Profiles};
use crate::steps::Step;
use crate::text::behind_answers;
use disk::Fault;
use shell::Action;
use std::alloc::Global;
use std::test::Fail;

/// An action of which each device call in turn is refused, and then goes on.
pub struct Refusals {
    pub name: &'static str,
    pub profiles: Profiles,
    /// What stands on the disk before.
    pub before: &'static [Step],
    pub action: Action<'static>,
    pub script: &'static str,
    /// A refused write has reached the disk.
    pub write_reaches: bool,
    /// What comes of it, in the order of the calls: first those of the opening, and last the outcome
    /// that ends the row.
    pub outcomes: &'static [Outcome],
}

/// What comes of a refused call.
pub struct Outcome {
    /// How many calls end so.
    pub calls: Calls,
    /// What is said: some lines and then others, and whatever behind them where there is more.
    pub said: (&'static str, &'static str),
    pub more: bool,
    pub status: u8,
    /// What the disk has then.
    pub then: Then,
}

/// What a disk has of which a call was refused.
pub enum Then {
    /// It is not asked.
    Nothing,
    /// The commit at 100 was made, or was not.
    Made,
    NotMade,
    /// It goes on with these steps.
    Still(&'static [Step]),
    /// What is left by a stop that leaves this byte in each torn place goes on, and then the disk.
    Left(&'static [(u8, &'static [Step])], &'static [Step]),
}

/// How many calls end in one way.
pub enum Calls {
    Just(u32),
    Over(u32),
    /// More than the calls of the opening.
    OverOpening,
}

/// An opening whose call is refused: three syncs and a length at least.
pub const UNOPENED: Outcome = Outcome {
    calls: Calls::Over(3),
    said: ("refused: device\n", ""),
    more: false,
    status: 1,
    then: Then::Nothing,
};

/// How far the outcomes have come: the one that is met, how often, and how often the first was.
#[derive(Drop)]
struct Met {
    outcome: usize,
    times: u32,
    opening: u32,
}

/// Whether as many calls ended so as must have.
fn is_often(calls: &Calls, met: &Met) -> bool {
    match *calls {
        Calls::Just(times) => met.times == times,
        Calls::Over(times) => met.times > times,
        Calls::OverOpening => met.times > met.opening,
    }
}

/// Whether this is what was said.
fn is_said(machine: &Machine, outcome: &Outcome) -> bool {
    let (first, second) = outcome.said;
    let rest = match behind_answers(machine.said(), first, usize::MAX, machine.profile) {
        Some(rest) => behind_answers(rest, second, usize::MAX, machine.profile),
        None => None,
    };
    match rest {
        Some(rest) => machine.status == outcome.status && (outcome.more || rest == ""),
        None => false,
    }
}

/// Whether the next call may end as this outcome says once more.
fn fits(machine: &Machine, outcome: &Outcome, met: &Met) -> bool {
    let is_over = match outcome.calls {
        Calls::Just(times) => met.times >= times,
        _ => false,
    };
    !is_over && is_said(machine, outcome)
}

/// Whether each that a stop leaves goes on.
fn each_left_goes(machine: &mut Machine, left: &[(u8, &[Step])]) -> bool {
    for (fill, steps) in left {
        if !machine.goes_left((*fill, 0), steps) {
            return false;
        }
    }
    true
}

/// Whether the disk has this.
fn has(machine: &mut Machine, then: &Then) -> bool {
    match *then {
        Then::Nothing => true,
        Then::Made => machine.goes(MADE),
        Then::NotMade => machine.goes(NOT_MADE),
        Then::Still(steps) => machine.goes(steps),
        Then::Left(left, steps) => each_left_goes(machine, left) && machine.goes(steps),
    }
}

/// Goes on to the next outcome, if the one before was met as often as it must be.
fn next(outcomes: &[Outcome], met: &mut Met) -> bool {
    let is_often = match outcomes.get(met.outcome) {
        Some(outcome) => is_often(&outcome.calls, met),
        None => false,
    };
    if met.outcome == 0 {
        met.opening = met.times;
    }
    met.outcome = met.outcome.saturating_add(1);
    met.times = 0;
    is_often
}

/// Whether the disk has what the outcome says that is met.
fn is_met(machine: &mut Machine, outcomes: &[Outcome], met: &mut Met) -> bool {
    let Some(outcome) = outcomes.get(met.outcome) else {
        return false;
    };
    met.times = met.times.saturating_add(1);
    is_said(machine, outcome) && has(machine, &outcome.then)
}

/// Whether a call that is refused ends in one of the ways, in their order.
fn ends(machine: &mut Machine, outcomes: &[Outcome], met: &mut Met) -> bool {
    let stays = match outcomes.get(met.outcome) {
        Some(outcome) => fits(machine, outcome, met),
        None => false,
    };
    (stays || next(outcomes, met)) && is_met(machine, outcomes, met)
}

/// Does the action on a disk of which a call is refused. Whether it ends as it must.
fn refuses(machine: &mut Machine, row: &Refusals, fault: Fault, met: &mut Met) -> bool {
    let stands = machine.goes(row.before) && machine.stops(0xC7, fault);
    machine.does(row.action, row.script);
    stands && ends(machine, row.outcomes, met)
}

/// Refuses each call in turn, until the last outcome is met.
fn refuses_each(alloc: Global, row: &Refusals, profile: u8) -> Result<(), Fail> {
    let mut met = Met {
        outcome: 0,
        times: 0,
        opening: 0,
    };
    for calls_before in 0..100 {
        let fault = Fault {
            calls_before,
            write_reaches: row.write_reaches,
            stops: false,
        };
        let mut machine = Machine::new(alloc, profile);
        if !refuses(&mut machine, row, fault, &mut met) {
            return Err(machine.failure(row.name, calls_before));
        }
        if met.outcome.saturating_add(1) == row.outcomes.len() {
            return Ok(());
        }
    }
    Err(Fail::new(row.name))
}

/// In each profile.
fn goes(alloc: Global, row: &Refusals) -> Result<(), Fail> {
    for profile in row.profiles.all() {
        refuses_each(alloc, row, *profile)?;
    }
    Ok(())
}

/// Each row must go.
pub fn each_refusal_goes(alloc: Global, rows: &[Refusals]) -> Result<(), Fail> {
    for row in rows {
        goes(alloc, row)?;
    }
    Ok(())
}
