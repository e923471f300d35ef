//! The steps of a shared store, each with the calls of the device that it makes.
use crate::written::begun;
use any_store::{Did, JobDid, PumpFault, StartFault};
use disk::Disk;
use shared::{Observer, Opening, SharedStore, Vacuumed};
use std::process::Abort;
use std::sync::Wait;
use std::sync::atomic::{AtomicU64, Ordering};

/// What a step answered.
#[derive(Clone, Copy, Debug, PartialEq, Eq)]
pub enum Step {
    Start(Result<(), StartFault>),
    Job(Result<JobDid, PumpFault>),
    Group(Result<Did, PumpFault>),
}

/// How many writes and syncs of the device a step makes.
fn device_calls(step: Step) -> u64 {
    match step {
        Step::Start(_) => 0,
        Step::Job(Ok(JobDid::Idle) | Err(_)) => 0,
        Step::Group(Ok(Did::Idle) | Err(_)) => 0,
        _ => 1,
    }
}

/// The step that a vacuum's answer tells of.
pub fn step_of(answer: &Vacuumed) -> Step {
    match *answer {
        Vacuumed::Start(started) => Step::Start(started),
        Vacuumed::Job(did) => Step::Job(did),
    }
}

/// Asks for the step that is wanted.
fn asked<D: Disk, L: Opening, R: Wait>(
    rt: &R,
    store: &SharedStore<D, L>,
    me: &mut Observer<L>,
    wanted: Step,
) -> Step {
    match wanted {
        Step::Start(_) => Step::Start(store.archive_start(rt, 120, me)),
        Step::Job(_) => Step::Job(store.job_pump(rt, me)),
        Step::Group(_) => Step::Group(store.pump(rt, me)),
    }
}

/// Takes these steps in turn. Each is as wanted, and makes one call of the device or none.
pub fn take_all<D: Disk, L: Opening, R: Wait + Abort>(
    rt: &R,
    store: &SharedStore<D, L>,
    calls: &AtomicU64,
    me: &mut Observer<L>,
    wanted: &[Step],
) {
    for step in wanted {
        let before = calls.load(Ordering::SeqCst);
        assert_eq!(rt; asked(rt, store, me, *step), *step);
        let made = calls.load(Ordering::SeqCst).wrapping_sub(before);
        assert_eq!(rt; made, device_calls(*step), "{step:?}");
    }
}

/// The steps that a loop is to make, each with the last published time after it, and how far the loop has come.
#[derive(Drop)]
pub struct Notes<'a> {
    wanted: &'a [(Step, u64)],
    next: usize,
    calls: u64,
}

impl<'a> Notes<'a> {
    pub fn new(wanted: &'a [(Step, u64)], calls: &AtomicU64) -> Notes<'a> {
        Notes {
            wanted,
            next: 0,
            calls: calls.load(Ordering::SeqCst),
        }
    }

    /// How many steps were made.
    pub fn count(&self) -> usize {
        self.next
    }

    /// The next step is this one.
    fn compare(&mut self, rt: &impl Abort, calls: &AtomicU64, step: Step) -> u64 {
        assert!(rt; self.next < self.wanted.len(), "{step:?}");
        let (wanted, last) = self.wanted[self.next];
        assert_eq!(rt; step, wanted);
        let now = calls.load(Ordering::SeqCst);
        assert_eq!(rt;
            now.wrapping_sub(self.calls),
            device_calls(step),
            "{step:?}"
        );
        self.calls = now;
        self.next += 1;
        last
    }
}

/// A loop made this step, which is as wanted. The lock is free: a transaction begins, on what is published by now.
pub fn note<D: Disk, L: Opening, R: Wait + Abort>(
    rt: &R,
    store: &SharedStore<D, L>,
    calls: &AtomicU64,
    me: &mut Observer<L>,
    notes: &mut Notes<'_>,
    step: Step,
) {
    let last = notes.compare(rt, calls, step);
    let txn = begun(rt, store, me);
    let snapshot = txn.snapshot();
    store.abort(rt, txn, me);
    assert_eq!(rt; snapshot, last);
}
