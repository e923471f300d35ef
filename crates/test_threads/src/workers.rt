//! Many writers and readers at once, and how many commits they made.
use any_store::{Layout, Store};
use disk::MemDisk;
use shared::fresh_store;
use std::alloc::{AllocError, Global};
use std::process::Abort;
use std::sync::Wait;
use std::thread::Threads;
use workload::{Plan, SLOTS, holds_last_rounds, stress, stress_on};

#[test]
fn a_stress_counts_each_round_of_each_writer(rt: HostRuntime) {
    for (writers, readers, rounds, commits) in [(4, 2, 25, 100), (1, 0, 1, 1)] {
        let plan = Plan {
            writers,
            readers,
            rounds,
        };
        assert_eq!(rt;
            stress(&rt, rt.alloc(), SLOTS, plan),
            Some((commits, commits))
        );
    }
}

/// The same over a store whose log lies in the heap, of 4,096 extents.
#[test]
fn a_stress_counts_each_round_where_the_log_lies_in_the_heap(rt: HostRuntime) {
    for (writers, readers, rounds, commits) in [(4, 2, 25, 100), (1, 0, 1, 1)] {
        let plan = Plan {
            writers,
            readers,
            rounds,
        };
        let done = stress(&rt, rt.alloc(), Layout::Log(4_096), plan);
        assert_eq!(rt; done, Some((commits, commits)));
    }
}

/// Each writer's label has a commit for each of its rounds.
fn has_all_rounds(rt: &impl Abort, store: &mut Store<MemDisk>, plan: Plan) {
    for writer in 0..u64::from(plan.writers) {
        match store.times_of(writer + 1) {
            Ok(times) => assert_eq!(rt; times.len(), usize::from(plan.rounds), "{writer}"),
            Err(why) => panic!(rt; "{why:?}"),
        }
    }
}

/// The plan's threads over a new store. Gives the store back, and how many commits the writers count.
fn run_plan<R: Threads + Wait + Sync>(
    rt: &R,
    alloc: Global,
    plan: Plan,
) -> Option<(Store<MemDisk>, Option<u64>)> {
    let store = match fresh_store(alloc, MemDisk::new(alloc), Layout::Slots(1_024), 1) {
        Ok(store) => store,
        Err(_disk) => return None,
    };
    match stress_on(rt, alloc, store, plan) {
        Ok(ended) => Some(ended),
        Err((AllocError, store)) => {
            let _disk = store.close();
            None
        }
    }
}

/// A few writers beside readers, and more writers than a group has commits.
#[test]
fn workers_count_what_the_store_has(rt: HostRuntime) {
    for (writers, readers, rounds, commits) in [(3, 2, 20, 60), (24, 0, 4, 96)] {
        let plan = Plan {
            writers,
            readers,
            rounds,
        };
        let Some((mut store, done)) = run_plan(&rt, rt.alloc(), plan) else {
            panic!(rt; "no store");
        };
        assert_eq!(rt; done, Some(commits));
        assert_eq!(rt; store.last(), commits);
        has_all_rounds(&rt, &mut store, plan);
        assert!(rt; holds_last_rounds(&mut store, plan));
        assert!(rt; !holds_last_rounds(&mut store, one_round_more(plan)));
        assert!(rt; !holds_last_rounds(&mut store, one_writer_more(plan)));
        let _disk = store.close();
    }
}

/// A plan whose last rounds the store has not.
fn one_round_more(plan: Plan) -> Plan {
    Plan {
        writers: plan.writers,
        readers: plan.readers,
        rounds: plan.rounds.wrapping_add(1),
    }
}

/// A plan of whose writers one has written nothing.
fn one_writer_more(plan: Plan) -> Plan {
    Plan {
        writers: plan.writers.wrapping_add(1),
        readers: plan.readers,
        rounds: plan.rounds,
    }
}
