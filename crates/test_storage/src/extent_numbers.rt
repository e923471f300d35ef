//! Extents that are taken, given back, kept, retired and claimed.
use extents::{Extents, LiveFault, Usage, laws};
use std::alloc::Global;
use std::test::Fail;

/// The number of the extent that is taken, and then kept or given back; 0 where none is free.
fn taken(extents: &mut Extents, is_kept: bool) -> u32 {
    let Ok(extent) = extents.take() else {
        return 0;
    };
    let number = extent.number();
    if is_kept {
        extents.keep(extent);
    } else {
        extents.give_back(extent);
    }
    number
}

/// The first extent that is not claimed, where all are claimed in order; 0 where there is none.
fn first_unclaimed(extents: &mut Extents) -> u32 {
    for number in 1..65_537 {
        if extents.claim(number).is_err() {
            return number;
        }
    }
    0
}

/// What is done with extents, or asked of them.
#[derive(Clone, Copy)]
enum Step {
    /// The number of the extent that is taken and kept, 0 where none is free.
    Keep,
    /// The same, given back.
    GiveBack,
    /// 0.
    Retire(u32),
    /// 1 where the extent of this number is claimed, 0 where it is not free.
    Claim(u32),
    /// All are claimed in order: the first that is not, 0 where there is none.
    ClaimAll,
    /// 1 where the extent of this number has this usage, 0 where not.
    Has(u32, Usage),
    /// How many are used.
    Used,
    /// How many are free.
    FreeCount,
}

fn answer(extents: &mut Extents, step: Step) -> u32 {
    match step {
        Step::Keep => taken(extents, true),
        Step::GiveBack => taken(extents, false),
        Step::Retire(number) => {
            extents.retire(number);
            0
        }
        Step::Claim(number) => u32::from(extents.claim(number).is_ok()),
        Step::ClaimAll => first_unclaimed(extents),
        Step::Has(number, usage) => u32::from(extents.has(number, usage)),
        Step::Used => extents.used(),
        Step::FreeCount => extents.free_count(),
    }
}

/// Steps in turn, each with its answer: of new extents, or of those of which these are live.
#[derive(Clone, Copy)]
struct Case {
    what: &'static str,
    live: Option<&'static [u32]>,
    steps: &'static [(Step, u32)],
}

const CASES: &[Case] = &[
    Case {
        what: "the least free extent is taken",
        live: None,
        steps: &[
            (Step::FreeCount, 65_536),
            (Step::Keep, 1),
            (Step::Keep, 2),
            (Step::GiveBack, 3),
            (Step::Used, 2),
            (Step::FreeCount, 65_534),
            (Step::Retire(1), 0),
            (Step::Has(1, Usage::Free), 1),
            (Step::Has(2, Usage::Kept), 1),
            (Step::Keep, 1),
            (Step::Keep, 3),
        ],
    },
    Case {
        what: "free extents alone are claimed",
        live: None,
        steps: &[
            (Step::Claim(2), 1),
            (Step::Claim(2), 0),
            (Step::Claim(0), 0),
            (Step::Claim(65_537), 0),
            (Step::Keep, 1),
            (Step::Keep, 3),
        ],
    },
    Case {
        what: "a full heap gives no extent",
        live: None,
        steps: &[
            (Step::ClaimAll, 0),
            (Step::FreeCount, 0),
            (Step::Keep, 0),
            (Step::Retire(40_000), 0),
            (Step::Keep, 40_000),
        ],
    },
    Case {
        what: "live extents are kept",
        live: Some(&[65_536, 1, 3]),
        steps: &[
            (Step::FreeCount, 65_533),
            (Step::Has(1, Usage::Kept), 1),
            (Step::Has(2, Usage::Free), 1),
            (Step::Has(3, Usage::Kept), 1),
            (Step::Has(65_535, Usage::Free), 1),
            (Step::Has(65_536, Usage::Kept), 1),
            (Step::Keep, 2),
            (Step::Keep, 4),
        ],
    },
    Case {
        what: "none is live",
        live: Some(&[]),
        steps: &[(Step::Used, 0)],
    },
];

/// The extents of a case before its steps.
fn begun(alloc: Global, case: &Case) -> Result<Extents, Fail> {
    match case.live {
        Some(live) => Ok(Extents::of_live(alloc, live)?),
        None => Ok(Extents::new(alloc)?),
    }
}

/// The place of the first step that is not answered as it should be, and its answer.
fn first_wrong(alloc: Global, case: &Case) -> Result<Option<(usize, u32)>, Fail> {
    let mut extents = begun(alloc, case)?;
    for (place, (step, want)) in case.steps.iter().enumerate() {
        let found = answer(&mut extents, *step);
        if found != *want {
            return Ok(Some((place, found)));
        }
    }
    Ok(None)
}

#[test]
fn extents_are_answered_step_by_step(rt: HostRuntime) -> Result<(), Fail> {
    laws::list_taken();
    laws::list_given_back();
    laws::list_kept();
    for case in CASES {
        assert_eq!(rt; first_wrong(rt.alloc(), case)?, None, "{}", case.what);
    }
    Ok(())
}

/// Numbers of extents, and why they can't be the live ones.
#[derive(Clone, Copy)]
struct Live {
    what: &'static str,
    numbers: &'static [u32],
    want: Option<LiveFault>,
}

const LIVE: &[Live] = &[
    Live {
        what: "in any order",
        numbers: &[2, 1],
        want: None,
    },
    Live {
        what: "2 twice, before 0",
        numbers: &[2, 1, 2, 0],
        want: Some(LiveFault::NotFree(2)),
    },
    Live {
        what: "0 before 2 twice",
        numbers: &[2, 0, 2],
        want: Some(LiveFault::NotFree(0)),
    },
    Live {
        what: "past the last",
        numbers: &[65_537],
        want: Some(LiveFault::NotFree(65_537)),
    },
];

/// Why these can't be the live extents.
fn fault_of(alloc: Global, numbers: &[u32]) -> Option<LiveFault> {
    Extents::of_live(alloc, numbers).err()
}

#[test]
fn the_first_that_is_not_free_is_told(rt: HostRuntime) {
    for row in LIVE {
        assert!(rt;
            fault_of(rt.alloc(), row.numbers) == row.want,
            "{}",
            row.what
        );
    }
}
