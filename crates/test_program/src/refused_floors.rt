//! Floors of which a call of the disk is refused: each is raised whole or not at all.
use crate::examples::FOUR_COMMITS;
use crate::machine::Profiles::Older;
use crate::steps::Step;
use crate::steps::Step::{At, New, Says};
use crate::sweeps::{Sweep, each_sweep_goes};
use std::test::Fail;

/// A floor of the four commits, step by step. Its four calls are all that the disk is asked for.
const ONE_FLOOR: &str = "floor 120 | started
job | body written
job | body synced
job | gate written
job | job done
floor 120 | refused: nothing to do
at 1 7 119 | refused: before kept 120
at 1 7 130 | value 63
";

/// What is said of it where a step is refused, from there on.
const FAILED: &str = "refused: failed\nrefused: failed\nvalue 62\nvalue 63\n";

/// What a floor bars, and what stood before it was raised.
const BARRED: &[Step] = &[At("119", "refused: before kept 120"), At("130", "value 63")];

const NOT_BARRED: &[Step] = &[At("119", "value 62"), At("130", "value 63")];

/// Each of the four calls is refused: the store fails and reads on. The floor bars what stood at 119 once
/// its slot is open, and, while the gate is written and not synced, where its byte is that of an open one.
const SWEEPS: &[Sweep] = &[Sweep {
    name: "a_floor_is_raised_whole_or_not_at_all",
    profiles: Older,
    before: &[New(16), Says(FOUR_COMMITS)],
    parts: &[(ONE_FLOOR, 1)],
    calls: 4,
    stops: false,
    failed: FAILED,
    gate: Some("job | gate written"),
    fronts: &[NOT_BARRED, BARRED],
}];

#[test]
fn a_floor_is_raised_whole_or_not_at_all(rt: HostRuntime) -> Result<(), Fail> {
    each_sweep_goes(rt.alloc(), SWEEPS, false)
}

#[test]
fn a_floor_whose_refused_write_was_made_is_raised_or_not(rt: HostRuntime) -> Result<(), Fail> {
    each_sweep_goes(rt.alloc(), SWEEPS, true)
}
