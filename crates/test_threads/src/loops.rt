//! What the tests of loops share. A loop counts what it has done in a number that another thread looks at, so often at most.
use crate::noted::Step;
use std::process::Abort;
use std::sync::atomic::{AtomicU64, Ordering};
use std::thread;

/// So often a thread looks whether another has gone on, before it calls it asleep for good.
const LOOKS: u32 = 20_000_000;

/// So often it lets others run, where a loop that has nothing to do is to fall asleep.
const TURNS: u32 = 2_000;

/// Lets a loop that has nothing to do fall asleep.
fn rest() {
    for _ in 0..TURNS {
        thread::yield_now();
    }
}

/// Whether so much is counted, now or at one of the next looks.
fn comes(count: &AtomicU64, wanted: u64) -> bool {
    for _ in 0..LOOKS {
        if wanted <= count.load(Ordering::SeqCst) {
            return true;
        }
        thread::yield_now();
    }
    false
}

/// Waits until so much was counted, and then until whoever counts sleeps.
pub fn await_count(rt: &impl Abort, count: &AtomicU64, wanted: u64) {
    assert!(rt;
        comes(count, wanted),
        "{wanted}: a loop has ended, or was not woken"
    );
    rest();
}

/// Counts one more.
pub fn count_one(count: &AtomicU64) {
    count.fetch_add(1, Ordering::SeqCst);
}

/// Whether this is the step of a loop that is to come next.
fn is_next(steps: &AtomicU64, wanted: &[Step], step: Step) -> bool {
    match wanted.get(steps.load(Ordering::SeqCst) as usize) {
        Some(next) => *next == step,
        None => false,
    }
}

/// A loop made this step, which is the next of those that it is to make. It is counted.
pub fn note_step(rt: &impl Abort, steps: &AtomicU64, wanted: &[Step], step: Step) {
    assert!(rt; is_next(steps, wanted, step), "{step:?}");
    count_one(steps);
}
