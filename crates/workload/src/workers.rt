//! Threads that commit and read, with a committer and a vacuum.
ghost use Rattle.std.specs.Prelude.{◌≡◌, ◌+◌, ◌≤◌, ◌<◌, ◌^◌, [], true, length, vec_len, IfOk, IfSome, if◌then◌else◌};
ghost use Rattle.std.specs.Int.{w32, to_le_bytes};
ghost use Rattle.crossbeam_utils.specs.Seq.{cell_view};
ghost use Rattle.history.specs.Machine.{Machine};
ghost use Rattle.law_image.specs.Values.{Value};
ghost use Rattle.law_any_store.specs.Standing.{Stands};
ghost use Rattle.shared.specs.Naming.{IsFresh};
ghost use Rattle.shared.specs.Counts.{told_count, unredeemed};
ghost use Rattle.shared.specs.Reached.{Reached};
ghost use Rattle.workload.specs.Reading.{ReadSays, key_of};
ghost use Rattle.shared.specs.Seen.{IsLater, seen_of};

use any_store::{QueryFault, SharedValue, Store};
use disk::Disk;
use history::Key;
use shared::{Change, Committed, Observer, Opened, Opening, SharedStore};
use std::alloc::{AllocError, Global};
use std::sync::Wait;
use std::sync::ledger::Share;
use std::thread;
use std::thread::{Threads, join, map_vec};

/// The relation of the keys that the writers commit.
const RELATION: u16 = 1;

/// How many threads write and read, and how often each of them does.
#[derive(Clone, Copy, Debug, PartialEq, Eq)]
pub struct Plan {
    pub writers: u8,
    pub readers: u8,
    pub rounds: u16,
}

/// What a writer begins with: its number, from 1 on, one part of the ledger, and what it has seen.
#[derive(Drop)]
pub struct Badge<L: Opening> {
    number: u64,
    share: Share<L>,
    me: Observer<L>,
    ghost one_part: { share.parts ≡ 1 },
    ghost nothing: { share.amount ≡ 0 },
}

/// What a writer hands back: its part of the ledger, and how many of its commits were published.
#[derive(Drop)]
pub struct Worked<L: Opening> {
    share: Share<L>,
    done: u32,
    ghost counted: { share.amount ≡ done },
    ghost one_part: { share.parts ≡ 1 },
    ghost few: { done < 2 ^ 16 },
}

/// The key of a writer.
pub(crate) fn key_of(number: u64) -> Key
    ensures { result ≡ key_of number }
{
    Key {
        relation: RELATION,
        record: number,
    }
}

/// The field that a writer commits in a round.
pub(crate) fn field_of(round: u32) -> [u8; 4]
    ensures { result ≡ to_le_bytes w32 round }
{
    round.to_le_bytes()
}

fn make_badge<L: Opening>(number: u64, share: Share<L>, me: Observer<L>) -> Badge<L>
    requires { (share.parts ≡ 1) × (share.amount ≡ 0) }
{
    Badge { number, share, me }
}

// The badges of this many writers, with a part of the ledger each.
fn badges_for<D: Disk, L: Opening>(
    alloc: Global,
    store: &SharedStore<D, L>,
    all: &mut Share<L>,
    me: &mut Observer<L>,
    writers: u8,
) -> Result<Vec<Badge<L>>, AllocError>
    requires parts { all.old.parts ≡ writers + 1 }
    requires amount { all.old.amount ≡ 0 }
    ensures len { IfOk result (λ badges. vec_len badges ≡ writers) }
    ensures parts { IfOk result (λ badges. all.new.parts ≡ 1) }
    ensures amount { all.new.amount ≡ 0 }
{
    let mut badges = Vec::new(alloc);
    for number in 0..writers {
        let share = all.split_off(1, 0);
        let badge = make_badge(u64::from(number) + 1, share, store.another(me));
        badges.push(badge)?;
    }
    Ok(badges)
}

// An observer for each of this many readers.
fn observers_for<D: Disk, L: Opening>(
    alloc: Global,
    store: &SharedStore<D, L>,
    me: &mut Observer<L>,
    readers: u8,
) -> Result<Vec<Observer<L>>, AllocError> {
    let mut observers = Vec::new(alloc);
    for _ in 0..readers {
        observers.push(store.another(me))?;
    }
    Ok(observers)
}

// Commits the writer's key with a round as its value. Whether the commit was published.
fn write_round<D: Disk, L: Opening, R: Wait>(
    rt: &R,
    store: &SharedStore<D, L>,
    number: u64,
    round: u32,
    share: &mut Share<L>,
    me: &mut Observer<L>,
) -> bool
    requires { 0 < share.old.parts }
    ensures parts { share.new.parts ≡ share.old.parts }
    ensures amount { share.new.amount ≡ share.old.amount + (if result then 1 else 0) }
{
    let field = field_of(round);
    let fields = [field.as_slice()];
    let changes = [Change::Put {
        key: key_of(number),
        fields: &fields,
    }];
    match store.commit(rt, &changes, number, 0, share, me) {
        Ok(Committed::Done(_)) => true,
        Ok(Committed::ReadOnly(_)) => false,
        Err(_) => false,
    }
}

// Commits each round in turn, up to the first that is not published.
fn write_rounds<D: Disk, L: Opening, R: Wait>(
    rt: &R,
    store: &SharedStore<D, L>,
    badge: Badge<L>,
    rounds: u16,
) -> Worked<L> {
    let Badge {
        number,
        mut share,
        mut me,
    } = badge;
    let mut done = 0;
    for round in 0..u32::from(rounds) {
        if !write_round(rt, store, number, round + 1, &mut share, &mut me) {
            break;
        }
        done += 1;
    }
    count_worked(share, done)
}

fn count_worked<L: Opening>(share: Share<L>, done: u32) -> Worked<L>
    requires { (share.parts ≡ 1) × (share.amount ≡ done) × (done < 2 ^ 16) }
{
    Worked { share, done }
}

// Asks for the writers' keys in turn, each by a view of its own. Whether all were answered.
fn read_rounds<D: Disk, L: Opening, R: Wait>(
    rt: &R,
    store: &SharedStore<D, L>,
    me: Observer<L>,
    plan: Plan,
) -> bool {
    let mut me = me;
    let writers = u64::from(plan.writers.max(1));
    for round in 0..u64::from(plan.rounds) {
        let last = store.last_published(rt, &mut me);
        let key = key_of(round % writers + 1);
        if read(rt, store, &mut me, key, last).is_err() {
            return false;
        }
    }
    true
}

/// The value of a key at a time, by a view of its own: it is that of a history which steps of the
/// machine lead to, and which begins with all that the caller saw before.
pub fn read<D: Disk, L: Opening, R: Wait>(
    rt: &R,
    store: &SharedStore<D, L>,
    me: &mut Observer<L>,
    key: Key,
    time: u64,
) -> Result<Option<SharedValue>, QueryFault>
    ensures says { ReadSays D.tells L.start key time result me.new }
    ensures later { IsLater me.old me.new }
{
    let mut view = match store.view(rt, me) {
        Ok(view) => view,
        Err(_) => return Err(QueryFault::NoMemory),
    };
    let answer = store.at(rt, &mut view, key, time);
    store.end(view);
    answer
}

// Each writer in a thread of its own.
fn write_all<D: Disk + Send, L: Opening + Send + Sync, R: Threads + Wait + Sync>(
    rt: &R,
    store: &SharedStore<D, L>,
    badges: Vec<Badge<L>>,
    rounds: u16,
) -> Result<Vec<Worked<L>>, AllocError>
    ensures { IfOk result (λ worked. vec_len worked ≡ vec_len badges) }
{
    map_vec(rt, badges, &|badge| write_rounds(rt, store, badge, rounds))
}

// Each reader in a thread of its own. Whether all were answered.
fn read_all<D: Disk + Send, L: Opening + Send + Sync, R: Threads + Wait + Sync>(
    rt: &R,
    store: &SharedStore<D, L>,
    readers: Vec<Observer<L>>,
    plan: Plan,
) -> bool {
    match map_vec(rt, readers, &|me| read_rounds(rt, store, me, plan)) {
        Ok(answered) => answered.iter().all(|all| *all),
        Err(_) => false,
    }
}

// Writers and readers, until all have ended. Then both loops are told to end. None where memory ran
// out or a reader was refused.
fn call_all<D: Disk + Send, L: Opening + Send + Sync, R: Threads + Wait + Sync>(
    rt: &R,
    store: &SharedStore<D, L>,
    badges: Vec<Badge<L>>,
    readers: Vec<Observer<L>>,
    plan: Plan,
) -> Option<Vec<Worked<L>>>
    ensures { IfSome result (λ worked. vec_len worked ≡ vec_len badges) }
{
    let (worked, answered) = join(
        rt,
        move || write_all(rt, store, badges, plan.rounds),
        move || read_all(rt, store, readers, plan),
    );
    store.stop(rt);
    match worked {
        Ok(worked) if answered => Some(worked),
        _ => None,
    }
}

// Publishes, archives and reclaims, until told to end.
fn keep_up<D: Disk + Send, L: Opening + Send + Sync, R: Threads + Wait + Sync>(
    rt: &R,
    store: &SharedStore<D, L>,
    me: Observer<L>,
) {
    let mut me = me;
    let other = store.another(&mut me);
    join(
        rt,
        move || commit_on(rt, store, me),
        move || vacuum_on(rt, store, other),
    );
}

fn commit_on<D: Disk, L: Opening, R: Wait>(rt: &R, store: &SharedStore<D, L>, me: Observer<L>) {
    let mut me = me;
    let _last = store.run_committer(rt, &mut me, |_, _| thread::yield_now());
}

fn vacuum_on<D: Disk, L: Opening, R: Wait>(rt: &R, store: &SharedStore<D, L>, me: Observer<L>) {
    let mut me = me;
    let _end = store.run_vacuum(rt, &mut me, |_, _| thread::yield_now());
}

// The writers' commits together.
fn gather<L: Opening>(worked: Vec<Worked<L>>, all: &mut Share<L>) -> u64
    requires few { vec_len worked ≤ 255 }
    requires nothing { all.old.amount ≡ 0 }
    ensures parts { all.new.parts ≡ all.old.parts + vec_len worked }
    ensures counted { result ≡ all.new.amount }
{
    let mut left = worked.into_iter();
    let mut done = 0;
    while let Some(one) = left.next() {
        done += u64::from(one.done);
        all.merge(one.share);
    }
    done
}

/// Writers and readers in threads of their own over a store that was just opened, with a committer
/// and a vacuum. Gives the store back, and how many commits the writers count together: none where a
/// caller was refused or memory ran out. These and the ones for which nobody was answered Done are
/// the commits since opening.
pub fn run_workers<D: Disk + Send, L: Opening + Send + Sync, R: Threads + Wait + Sync>(
    rt: &R,
    alloc: Global,
    opened: Opened<D>,
    plan: Plan,
) -> (Store<D>, Option<u64>)
    requires name { (opened.blank.name ≡ L.name) × (opened.blank.parts ≡ L.parts) × (opened.cell.table.shared.table_id ≡ L.table) }
    requires parts { L.parts ≡ plan.writers + 1 }
    requires fresh { IsFresh D.tells L.start L.kind L.mark opened.store (cell_view opened.writer) }
    ensures counted { (m : Machine Value) × Stands D.tells result.0 m × Reached L.start m
        × IfSome result.1 (λ done. length m.published ≡ length L.start.published + done + unredeemed result.0) }
{
    let (store, mut all, mut me) = opened.named::<L>();
    let badges = badges_for(alloc, &store, &mut all, &mut me, plan.writers);
    let readers = observers_for(alloc, &store, &mut me, plan.readers);
    let done = match (badges, readers) {
        (Ok(badges), Ok(readers)) => {
            let shared = &store;
            let (worked, ()) = join(
                rt,
                move || call_all(rt, shared, badges, readers, plan),
                move || keep_up(rt, shared, me),
            );
            match worked {
                Some(worked) => Some(gather(worked, &mut all)),
                None => None,
            }
        }
        _ => None,
    };
    (store.into_store(&mut all), done)
}
