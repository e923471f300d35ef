//! The store that threads share.
ghost use Rattle.std.specs.Prelude.{◌≡◌, ◌≤◌, ◌+◌, ◌<◌, length, IfOk};
ghost use Rattle.history.specs.Histories.{last};
ghost use Rattle.history.specs.Machine.{Machine};
ghost use Rattle.law_image.specs.Values.{Value};
ghost use Rattle.law_any_store.specs.Standing.{Stands};
ghost use Rattle.shared.specs.Counts.{unredeemed};
ghost use Rattle.shared.specs.Moments.{begun_txn};
ghost use Rattle.shared.specs.Reached.{Reached};
ghost use Rattle.shared.specs.Seen.{IsLater};
ghost use Rattle.shared.specs.Shared.{BeginHappens, AbortHappens, SubmitHappens, SeenReached, PumpHappens, RedeemSays, done_in};

use crate::cell::PublishedCell;
use crate::latest::Latest;
use crate::locked::Locked;
use crate::naming::Opening;
use crate::observer::Observer;
use crate::posts::Posts;
use crate::shared_txn::SharedTxn;
use crate::shared_view::SharedView;
use crate::signals::Signals;
use any_store::{BeginFault, Did, PumpFault, Redeemed, Store, SubmitFault, Submitted, Ticket};
use crossbeam_utils::sync::EventCount;
use disk::Disk;
use std::alloc::{AllocError, Global};
use std::sync::atomic::AtomicBool;
use std::sync::ledger::Share;
use std::sync::{Condvar, Mutex, Wait};

/// A store under a lock, and the cell of its published time, which needs none. One holding of the lock is
/// to make at most one call that changes the store (no clause says so). The posts of those who call
/// `commit` have a lock of their own, and so has the view that readers share; a flag says whether one of
/// them asked since it was taken.
pub struct SharedStore<D: Disk, L: Opening> {
    pub(crate) alloc: Global,
    pub(crate) locked: Mutex<Locked<D, L>>,
    pub(crate) posts: Mutex<Posts<L>>,
    pub(crate) latest: Mutex<Latest<L>>,
    pub(crate) is_asked: AtomicBool,
    // The committer sleeps on the first, callers of `commit` on the second until they are answered, on the
    // third one whose ticket still waits, and the vacuum on the last.
    pub(crate) queued: EventCount,
    pub(crate) answered: Condvar,
    pub(crate) settled: Condvar,
    pub(crate) moved: Condvar,
    pub(crate) cell: PublishedCell,
    ghost named: { cell.table.shared.table_id ≡ L.table },
}

impl<D: Disk, L: Opening> SharedStore<D, L> {
    pub(crate) fn of(alloc: Global, locked: Locked<D, L>, cell: PublishedCell) -> SharedStore<D, L>
        requires { cell.table.shared.table_id ≡ L.table }
    {
        SharedStore {
            alloc,
            locked: Mutex::new(locked),
            posts: Mutex::new(Posts::new(alloc)),
            latest: Mutex::new(Latest::new()),
            is_asked: AtomicBool::new(false),
            queued: EventCount::new(),
            answered: Condvar::new(),
            settled: Condvar::new(),
            moved: Condvar::new(),
            cell,
        }
    }

    /// An observer for another thread, which has seen as much.
    pub fn another(&self, me: &mut Observer<L>) -> Observer<L>
        ensures given { result ≡ me.old }
        ensures kept { me.new ≡ me.old }
    {
        me.another(&self.cell)
    }

    /// The time of the last published commit, or of one that was last a moment ago. It takes no lock.
    pub fn last_published<R: Wait>(&self, rt: &R, me: &mut Observer<L>) -> u64
        ensures later { IsLater me.old me.new }
        ensures last { result ≡ last me.new.published }
        ensures no_less { last me.old.published ≤ result }
    {
        me.load(rt, &self.cell)
    }

    /// A view of all that is published. Its own reads take no lock.
    pub fn view<R: Wait>(&self, rt: &R, me: &mut Observer<L>) -> Result<SharedView<L>, AllocError>
        ensures moment { IfOk result (λ v. v.seen ≡ me.new) }
        ensures later { IsLater me.old me.new }
    {
        self.locked.lock(rt).view(rt, &self.cell, me)
    }

    /// A transaction on all that is published. Its own reads and writes take no lock.
    pub fn begin<R: Wait>(&self, rt: &R, me: &mut Observer<L>) -> Result<SharedTxn<L>, BeginFault>
        ensures happens { BeginHappens L.start L.mark (begun_txn result) me.new }
        ensures moment { IfOk result (λ t. t.seen ≡ me.new) }
        ensures later { IsLater me.old me.new }
    {
        self.locked.lock(rt).begin(rt, &self.cell, me)
    }

    /// Gives the transaction's snapshot up.
    pub fn abort<R: Wait>(&self, rt: &R, txn: SharedTxn<L>, me: &mut Observer<L>)
        ensures happens { AbortHappens L.start txn.txn.snapshot me.new }
        ensures later { IsLater me.old me.new }
    {
        self.locked.lock(rt).abort(rt, &self.cell, txn, me);
        self.moved.notify_all();
    }

    /// Ends a transaction: its writes are queued as a commit, or it is refused.
    pub fn submit<R: Wait>(
        &self,
        rt: &R,
        txn: SharedTxn<L>,
        label: u64,
        now: u64,
        me: &mut Observer<L>,
    ) -> Result<Submitted, SubmitFault>
        ensures happens { SubmitHappens L.start L.mark txn.txn label now result me.new }
        ensures later { IsLater me.old me.new }
    {
        let submitted = self
            .locked
            .lock(rt)
            .submit(rt, &self.cell, txn, label, now, me);
        self.tell_moved();
        submitted
    }

    // A transaction ended, or a job was done: the vacuum may go on, and the committer.
    pub(crate) fn tell_moved(&self) {
        self.moved.notify_all();
        self.queued.notify_all();
    }

    // Commits are published, or the store has failed: those who wait for it may go on.
    pub(crate) fn tell_settled<R: Wait>(&self, rt: &R, after: Signals) {
        let answered = self.posts.lock(rt).settle(after);
        if answered {
            self.answered.notify_all();
        }
        self.settled.notify_all();
    }

    /// One step of the group that is written. A step that publishes writes the published time before
    /// the lock is given up.
    pub fn pump<R: Wait>(&self, rt: &R, me: &mut Observer<L>) -> Result<Did, PumpFault>
        ensures happens { PumpHappens L.start L.kind result me.new }
        ensures later { IsLater me.old me.new }
    {
        let mut after = Signals::new();
        self.step(rt, &mut after, me)
    }

    // One step of the group, and what the signals are then.
    pub(crate) fn step<R: Wait>(
        &self,
        rt: &R,
        after: &mut Signals,
        me: &mut Observer<L>,
    ) -> Result<Did, PumpFault>
        ensures happens { PumpHappens L.start L.kind result me.new }
        ensures later { IsLater me.old me.new }
    {
        let mut locked = self.locked.lock(rt);
        let did = locked.pump(rt, &self.cell, me);
        *after = locked.signals();
        drop(locked);
        if is_publication(&did) {
            self.show(rt);
        }
        if is_move(&did) {
            self.tell_settled(rt, *after);
            self.tell_moved();
        }
        did
    }

    /// Asks for a ticket. Done counts once in the caller's share, and the caller has then seen the
    /// commit published.
    pub fn redeem<R: Wait>(
        &self,
        rt: &R,
        ticket: Ticket,
        share: &mut Share<L>,
        me: &mut Observer<L>,
    ) -> Redeemed
        requires { 0 < share.old.parts }
        ensures says { RedeemSays L.mark ticket result me.new }
        ensures reached { SeenReached L.start me.new }
        ensures parts { share.new.parts ≡ share.old.parts }
        ensures amount { share.new.amount ≡ share.old.amount + done_in result }
        ensures later { IsLater me.old me.new }
    {
        self.locked
            .lock(rt)
            .redeem(rt, &self.cell, ticket, share, me)
    }

    /// Ends a view. It is given no runtime and so takes no lock: the store has nothing of its views.
    pub fn end(&self, view: SharedView<L>) {
        view.spend().spend();
    }

    // The moves so far, and whether the loops are to end.
    pub(crate) fn signals<R: Wait>(&self, rt: &R) -> (u64, bool) {
        let signals = self.locked.lock(rt).signals();
        (signals.moves(), signals.is_ending())
    }

    // Sleeps until something else than these moves happened.
    pub(crate) fn wait_past<R: Wait>(&self, rt: &R, moves: u64) {
        self.moved.wait_while(rt, self.locked.lock(rt), |locked| {
            locked.signals().moves() == moves
        });
    }

    /// Tells both loops to end.
    pub fn stop<R: Wait>(&self, rt: &R) {
        self.locked.lock(rt).end_loops();
        self.queued.notify_all();
        self.moved.notify_all();
    }

    /// The store, which represents a state that steps of the machine lead to. Where the share has every
    /// part, the commits published since opening are its amount and those for which Done was not
    /// answered.
    pub fn into_store(self, all: &mut Share<L>) -> Store<D>
        ensures reached { (m : Machine Value) × Stands D.tells result m × Reached L.start m
            × (all.old.parts ≡ L.parts → length m.published ≡ length L.start.published + all.old.amount + unredeemed result) }
        ensures share { (all.new.parts ≡ all.old.parts) × (all.new.amount ≡ all.old.amount) }
    {
        let SharedStore {
            alloc: _,
            locked,
            posts: _,
            latest: _,
            is_asked: _,
            queued: _,
            answered: _,
            settled: _,
            moved: _,
            cell: _,
        } = self;
        locked.into_inner().into_store(all)
    }
}

// Whether commits were published.
fn is_publication(did: &Result<Did, PumpFault>) -> bool {
    matches!(did, Ok(Did::Published(_)))
}

// Whether some ticket may now have another answer.
fn is_move(did: &Result<Did, PumpFault>) -> bool {
    matches!(did, Ok(Did::Published(_)) | Err(PumpFault::Failed))
}
