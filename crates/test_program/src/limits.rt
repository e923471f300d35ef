//! The limits of values and of write sets, in scripts of more than a thousand lines, and with lines and
//! answers of more than 4,096 bytes.
use crate::examples::{Example, each_goes};
use crate::machine::Profiles::Each;
use crate::steps::Step::{Extents, New, Parts, Says};
use std::test::Fail;

/// Dialogues that come to a limit, and the extents that they leave.
const EXAMPLES: &[Example] = &[
    Example {
        name: "a_value_has_its_limits",
        profiles: Each,
        steps: &[
            New(16),
            Says(
                "begin t | snapshot 0
put t 1 7A | ok
put t 1 8A | ok
put t 1 9 | refused: bad value
put t 1 9B | refused: bad value
put t 1 9C | refused: bad value
get t 1 7 | valueA
submit t 1 100 | queued
pump | wrote extent
pump | wrote extent
flush | idle
at 1 8 100 | valueA
at 1 9 100 | none
reopen | last 100 floors 0
at 1 8 100 | valueA
",
            ),
            Extents(&[
                "01000000 02000000 0c100000 00000000",
                "02000000 00000000 0c100000 00000000",
            ]),
        ],
    },
    Example {
        name: "a_write_set_has_its_limit",
        profiles: Each,
        steps: &[
            New(16),
            Parts(&[
                ("begin t | snapshot 0\n", 1),
                ("put t 1 # 61 | ok\n", 1024),
                (
                    "put t 1 1024 61 | refused: too many keys
put t 1 5 61 | ok
submit t 1 100 | queued
pump | wrote extent
pump | wrote extent
pump | heap synced
pump | body written
pump | body synced
pump | gate written
pump | published 1
pump | idle
reopen | last 100 floors 0
at 1 0 100 | value 61
at 1 1023 100 | value 61
at 1 1024 100 | none
",
                    1,
                ),
            ]),
            Extents(&[
                "01000000 02000000 f01f0000 00000000",
                "02000000 00000000 10180000 00000000",
            ]),
        ],
    },
];

#[test]
fn limits_are_kept(rt: HostRuntime) -> Result<(), Fail> {
    each_goes(rt.alloc(), EXAMPLES)
}
