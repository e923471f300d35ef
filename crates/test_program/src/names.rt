//! Names of a script.
use crate::examples::{Example, each_goes};
use crate::machine::Profiles::Every;
use crate::steps::Step::{New, Parts, Says};
use std::test::Fail;

/// Scripts of names.
const EXAMPLES: &[Example] = &[
    Example {
        name: "sixty_four_names_are_in_use",
        profiles: Every,
        steps: &[
            New(16),
            Parts(&[
                ("begin n# | snapshot 0\n", 64),
                (
                    "begin late | refused: name
put n63 1 7 61 | ok
submit n63 1 100 | queued
begin late | refused: name
flush | idle
redeem n63 | done 100
begin late | snapshot 100
begin later | refused: name
abort n0 | ok
begin later | snapshot 100
reopen | last 100 floors 0
begin n1 | snapshot 100
",
                    1,
                ),
            ]),
        ],
    },
    Example {
        name: "a_name_stands_for_one_thing",
        profiles: Every,
        steps: &[
            New(16),
            Says(
                "put t 1 7 61 | refused: name
del t 1 7 | refused: name
get t 1 7 | refused: name
submit t 1 100 | refused: name
abort t | refused: name
redeem t | refused: name
begin t | snapshot 0
begin t | refused: name
redeem t | refused: name
put t 1 7 61 | ok
submit t 1 100 | queued
begin t | refused: name
put t 1 7 62 | refused: name
del t 1 7 | refused: name
get t 1 7 | refused: name
submit t 1 100 | refused: name
abort t | refused: name
redeem t | waiting
flush | idle
redeem t | done 100
redeem t | refused: name
begin t | snapshot 100
abort t | ok
abort t | refused: name
begin t | snapshot 100
reopen | last 100 floors 0
get t 1 7 | refused: name
",
            ),
        ],
    },
];

#[test]
fn names_are_answered(rt: HostRuntime) -> Result<(), Fail> {
    each_goes(rt.alloc(), EXAMPLES)
}
