//! The example script on a disk that refuses one of its calls: each read, write, sync and length in
//! turn.
use crate::examples::NEW;
use crate::machine::Profiles::Each;
use crate::machine::SCRIPT;
use crate::refusals::Then::{Made, NotMade, Nothing};
use crate::refusals::{Calls, Outcome, Refusals, each_refusal_goes};
use crate::refused_calls::UNOPENED_AND_EMPTY;
use std::test::Fail;

const EXAMPLE: &str = "begin t
put t 1 7 61
get t 1 7
submit t 9 100
redeem t
flush
redeem t
at 1 7 99
at 1 7 100
at 1 7 101
between 1 7 0 101
times 9
archive 100
finish
reclaim
finish
reopen
at 1 7 100
";

/// What is said up to the reopening where nothing is refused.
const FINISHED: &str = "snapshot 0
ok
value 61
queued
waiting
idle
done 100
none
value 61
refused: not yet 100
100 101 61
rows 1
times 100
started
idle
started
idle
";

/// What is said behind it, where the commit is kept and where it is not.
const KEPT: &str = "last 100 floors 0\nvalue 61\n";

const NOT_KEPT: &str = "last 0 floors 0\nrefused: not yet 0\n";

/// What is said up to the reopening where a step of the commit is refused.
const COMMIT_FAILED: &str = "snapshot 0
ok
value 61
queued
waiting
refused: failed
in doubt
refused: not yet 0
refused: not yet 0
refused: not yet 0
refused: not yet 0
times
refused: failed
refused: failed
refused: failed
refused: failed
";

/// Where a step of the archive is, whose run is empty.
const ARCHIVE_FAILED: &str = "snapshot 0
ok
value 61
queued
waiting
idle
done 100
none
value 61
refused: not yet 100
100 101 61
rows 1
times 100
started
refused: failed
refused: failed
refused: failed
";

/// Where a step of the reclaim is, which has one extent.
const RECLAIM_FAILED: &str = "snapshot 0
ok
value 61
queued
waiting
idle
done 100
none
value 61
refused: not yet 100
100 101 61
rows 1
times 100
started
idle
started
refused: failed
";

/// The five calls of an archive whose run is empty.
const ARCHIVE: Outcome = Outcome {
    calls: Calls::Just(5),
    said: (ARCHIVE_FAILED, KEPT),
    more: false,
    status: 0,
    then: Made,
};

/// The six of the reclaim.
const RECLAIM: Outcome = Outcome {
    calls: Calls::Just(6),
    said: (RECLAIM_FAILED, KEPT),
    more: false,
    status: 0,
    then: Made,
};

/// Those of the reopening, which are more than those of the opening.
const REOPENING: Outcome = Outcome {
    calls: Calls::OverOpening,
    said: (FINISHED, "refused: device\n"),
    more: false,
    status: 1,
    then: Made,
};

/// Nothing is refused.
const ALL: Outcome = Outcome {
    calls: Calls::Just(1),
    said: (FINISHED, KEPT),
    more: false,
    status: 0,
    then: Nothing,
};

/// Each call of the script is refused in turn. The commit has six steps; the fifth writes its gate.
const REFUSED: &[Refusals] = &[
    Refusals {
        name: "the_example_says_which_call_was_refused",
        profiles: Each,
        before: NEW,
        action: SCRIPT,
        script: EXAMPLE,
        write_reaches: false,
        outcomes: &[
            UNOPENED_AND_EMPTY,
            Outcome {
                calls: Calls::Just(5),
                said: (COMMIT_FAILED, NOT_KEPT),
                more: false,
                status: 0,
                then: NotMade,
            },
            Outcome {
                calls: Calls::Just(1),
                said: (COMMIT_FAILED, KEPT),
                more: false,
                status: 0,
                then: Made,
            },
            ARCHIVE,
            RECLAIM,
            REOPENING,
            ALL,
        ],
    },
    Refusals {
        name: "the_example_whose_refused_write_was_made",
        profiles: Each,
        before: NEW,
        action: SCRIPT,
        script: EXAMPLE,
        write_reaches: true,
        outcomes: &[
            UNOPENED_AND_EMPTY,
            Outcome {
                calls: Calls::Just(4),
                said: (COMMIT_FAILED, NOT_KEPT),
                more: false,
                status: 0,
                then: NotMade,
            },
            Outcome {
                calls: Calls::Just(2),
                said: (COMMIT_FAILED, KEPT),
                more: false,
                status: 0,
                then: Made,
            },
            ARCHIVE,
            RECLAIM,
            REOPENING,
            ALL,
        ],
    },
];

#[test]
fn the_example_says_which_call_was_refused(rt: HostRuntime) -> Result<(), Fail> {
    each_refusal_goes(rt.alloc(), REFUSED)
}
