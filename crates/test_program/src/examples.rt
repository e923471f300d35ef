//! Examples as tables: each has a name, and steps.
use crate::machine::{Machine, Profiles};
use crate::steps::Step;
use std::alloc::Global;
use std::test::Fail;

/// Four commits of one key: a value, another, none, and a third.
pub const FOUR_COMMITS: &str = "begin a | snapshot 0
put a 1 7 61 | ok
submit a 1 100 | queued
flush | idle
redeem a | done 100
begin b | snapshot 100
put b 1 7 62 | ok
submit b 2 110 | queued
flush | idle
redeem b | done 110
begin c | snapshot 110
del c 1 7 | ok
submit c 3 120 | queued
flush | idle
redeem c | done 120
begin d | snapshot 120
put d 1 7 63 | ok
submit d 4 130 | queued
flush | idle
redeem d | done 130
";

/// One commit, at 100, of the key.
pub const ONE_COMMIT: &str = "begin t | snapshot 0
put t 1 7 61 | ok
submit t 9 100 | queued
flush | idle
";

/// A new store of 16 slots.
pub const NEW: &[Step] = &[Step::New(16)];

/// What a store answers of 100 once the commit is made, and before.
pub const MADE: &[Step] = &[Step::At("100", "value 61")];

pub const NOT_MADE: &[Step] = &[Step::At("100", "refused: not yet 0")];

/// Steps that are taken on a disk which is empty at first, in each of the profiles.
pub struct Example {
    pub name: &'static str,
    pub profiles: Profiles,
    pub steps: &'static [Step],
}

/// An example in a profile.
fn goes_in(alloc: Global, example: &Example, profile: u8) -> Result<(), Fail> {
    let mut machine = Machine::new(alloc, profile);
    if machine.goes(example.steps) {
        return Ok(());
    }
    Err(machine.failure(example.name, 0))
}

/// An example in each of its profiles.
fn goes(alloc: Global, example: &Example) -> Result<(), Fail> {
    for profile in example.profiles.all() {
        goes_in(alloc, example, *profile)?;
    }
    Ok(())
}

/// Each example must go.
pub fn each_goes(alloc: Global, examples: &[Example]) -> Result<(), Fail> {
    for example in examples {
        goes(alloc, example)?;
    }
    Ok(())
}
