//! Many threads at once over a new store in memory.
ghost use Rattle.std.specs.Prelude.{◌≡◌, ◌*◌, ◌+◌, ◌<◌, ◌-◌, ◌^◌, [], true, length, Ok, Some, IfOk, IfSome, IsTrue};
ghost use Rattle.any_store.specs.Values.{commits_of};
ghost use Rattle.history.specs.Machine.{Machine};
ghost use Rattle.law_image.specs.Values.{Value};
ghost use Rattle.law_any_store.specs.Formatted.{header_of};
ghost use Rattle.law_any_store.specs.Standing.{Stands, opened_as};
ghost use Rattle.shared.specs.Counts.{told_count, unredeemed};
ghost use Rattle.shared.specs.Reached.{Reached};
ghost use Rattle.workload.specs.Reading.{HasCommitted, HasLastRound, HasLastRounds, value_of};

use crate::workers::{Plan, field_of, key_of, run_workers};
use any_store::{Layout, QueryFault, SharedValue, Store};
use disk::{Disk, MemDisk};
use shared::{Opened, fresh_store};
use std::alloc::{AllocError, Global};
use std::marker::Brand;
use std::sync::Wait;
use std::thread::Threads;

/// The layout of a stress's store whose log is slots.
pub const SLOTS: Layout = Layout::Slots(32_768);

/// The store mark of a stress's store.
const MARK: u64 = 1;

/// Writers commit their own keys, and readers read them, in threads of their own over a new store of this
/// layout in memory, with a committer and a vacuum. Gives how many commits there were, and the time of the
/// last, in microseconds since 1970. None where a caller was refused, memory ran out, or a writer's key has
/// not the value of its last round.
pub fn stress<R: Threads + Wait + Sync>(
    rt: &R,
    alloc: Global,
    layout: Layout,
    plan: Plan,
) -> Option<(u64, u64)>
    ensures counted { IfSome result (λ done. done.0 ≡ plan.writers * plan.rounds) }
    ensures last { IfSome result (λ done. HasCommitted layout plan.writers plan.rounds done.0 done.1) }
{
    let store = match fresh_store(alloc, MemDisk::new(alloc), layout, MARK) {
        Ok(store) => store,
        Err(_disk) => return None,
    };
    match stress_on(rt, alloc, store, plan) {
        Ok((store, done)) => count_all(store, done, layout, plan),
        Err((AllocError, store)) => {
            let _disk = store.close();
            None
        }
    }
}

// Ends the store in which so many commits were counted. Gives them and the time of the last commit,
// where they are all that the plan makes and each writer's key has the value of its last round.
fn count_all(
    store: Store<MemDisk>,
    done: Option<u64>,
    layout: Layout,
    plan: Plan,
) -> Option<(u64, u64)>
    requires { (m : Machine Value) × Stands true store m × Reached (opened_as (header_of layout) [] (λ relation. 0)) m
        × IfSome done (λ count. length m.published ≡ count + unredeemed store) }
    ensures counted { IfSome result (λ done. done.0 ≡ plan.writers * plan.rounds) }
    ensures last { IfSome result (λ done. HasCommitted layout plan.writers plan.rounds done.0 done.1) }
{
    let _ = layout;
    let mut store = store;
    let last = store.last();
    let holds = holds_last_rounds(&mut store, plan);
    let _disk = store.close();
    let owed = u64::from(plan.writers) * u64::from(plan.rounds);
    match done {
        Some(done) if holds && done == owed => Some((done, last)),
        _ => None,
    }
}

/// The plan's threads over a store that was just opened. Gives the store back, and how many commits
/// the writers count together, as `run_workers` does.
pub fn stress_on<D: Disk + Send, R: Threads + Wait + Sync>(
    rt: &R,
    alloc: Global,
    store: Store<D>,
    plan: Plan,
) -> Result<(Store<D>, Option<u64>), (AllocError, Store<D>)>
    ghost start: { Machine Value }
    requires stands { Stands D.tells store start }
    requires fresh { told_count (commits_of store).heads ≡ length (commits_of store).heads }
    requires queue { start.queue ≡ [] }
    ensures counted { IfOk result (λ ended. (m : Machine Value) × Stands D.tells ended.0 m × Reached start m
        × IfSome ended.1 (λ done. length m.published ≡ length start.published + done + unredeemed ended.0)) }
{
    match Opened::new(rt, alloc, u64::from(plan.writers) + 1, store) {
        Ok(opened) => Ok(run_workers::<D, Brand, R>(rt, alloc, opened, plan)),
        Err(refused) => Err(refused),
    }
}

/// Whether each writer's key has the value of its last round at the time of the last commit. No where memory ran out.
pub fn holds_last_rounds<D: Disk>(store: &mut Store<D>, plan: Plan) -> bool
    ensures { IsTrue result → IsTrue D.tells → (m : Machine Value) → Stands D.tells store.old m → HasLastRounds m plan.writers plan.rounds }
{
    for number in 0..u64::from(plan.writers) {
        if !holds_last_round(store, number, plan.rounds) {
            return false;
        }
    }
    true
}

// Whether the key of the writer of this number, from 0 on, has the value of its last round then.
fn holds_last_round<D: Disk>(store: &mut Store<D>, number: u64, rounds: u16) -> bool
    requires { number < 2 ^ 64 - 1 }
    ensures stands { (m : Machine Value) → Stands D.tells store.old m → Stands D.tells store.new m }
    ensures holds { IsTrue result → IsTrue D.tells → (m : Machine Value) → Stands D.tells store.old m → HasLastRound m rounds number }
{
    let last = store.last();
    let view = match store.view() {
        Ok(view) => view,
        Err(AllocError) => return false,
    };
    let answer = store.at(&view, key_of(number + 1), last);
    store.end(view);
    is_of_round(&answer, u32::from(rounds))
}

// Whether the answer is the value of a writer's round.
fn is_of_round(answer: &Result<Option<SharedValue>, QueryFault>, round: u32) -> bool
    ensures { IsTrue result → answer.now ≡ Ok (Some (value_of round)) }
{
    match answer {
        Ok(found) => match found {
            Some(found) => has_round(found, round),
            None => false,
        },
        Err(_) => false,
    }
}

// Whether the value is that of a writer's round.
fn has_round(found: &SharedValue, round: u32) -> bool
    ensures { IsTrue result → found.now ≡ value_of round }
{
    let value = found.value();
    match value.field(0) {
        Some(field) => value.len() == 1 && field == field_of(round).as_slice(),
        None => false,
    }
}
