//! The value under the lock.
ghost use Rattle.std.specs.Prelude.{◌≡◌, ◌+◌, ◌<◌, [], true, length, List, Option, IfOk};
ghost use Rattle.crossbeam_utils.specs.Seq.{cell_view};
ghost use Rattle.history.specs.declared.key.KeyWrite.{KeyWrite};
ghost use Rattle.history.specs.Answers as answers;
ghost use Rattle.history.specs.Floors.{Raising};
ghost use Rattle.history.specs.Machine.{Machine};
ghost use Rattle.law_image.specs.Values.{Value};
ghost use Rattle.law_refinement.specs.Homes.{IsSure};
ghost use Rattle.law_refinement.specs.Laws.{SaysAt, SaysScanAt, SaysBetween, SaysScanBetween};
ghost use Rattle.any_store.specs.Calls.{Begins, Aborts, Submits, Redeems, Pumps};
ghost use Rattle.any_store.specs.Jobs.{StartsArchive, StartsReclaim, StartsFloor, StartsGrowth, PumpsJob};
ghost use Rattle.any_store.specs.Queries.{AnswersAtView, AnswersScanAt, AnswersRows, AnswersScanRows, AnswersTimes};
ghost use Rattle.any_store.specs.Values.{commits_of};
ghost use Rattle.law_log_queries.specs.Names.{SaysTimes};
ghost use Rattle.law_any_store.specs.Standing.{Stands};
ghost use Rattle.shared.specs.Archives.{no_archive};
ghost use Rattle.shared.specs.Counts.{told_count, unredeemed};
ghost use Rattle.shared.specs.Kinds.{kind_of};
ghost use Rattle.shared.specs.Moments.{OfSeen, GoesWith, begun_txn};
ghost use Rattle.shared.specs.Reached.{Reached};
ghost use Rattle.shared.specs.Seen.{IsLater, seen_of};
ghost use Rattle.shared.specs.Tokens.{no_tokens};
ghost use Rattle.shared.specs.Shared.{BeginHappens, AbortHappens, SubmitHappens, SeenReached, PumpHappens, JobHappens, FloorHappens, ArchiveHappens};
ghost use Rattle.shared.specs.Shared.{ReclaimHappens, GrowthHappens, RedeemSays, done_in, raising_in};

use crate::cell::{PublishedCell, WriterPass};
use crate::latest::KeptView;
use crate::moment::Moment;
use crate::naming::Opening;
use crate::noting::{
    count_done, has_failed, note_archive, note_failed, note_job, note_published, note_queued,
};
use crate::observer::Observer;
use crate::shared_txn::SharedTxn;
use crate::shared_view::{SharedView, taken_at};
use crate::signals::Signals;
use crate::txn_pass::TxnPass;
use any_store::{
    BeginFault, Did, JobDid, PumpFault, QueryFault, Redeemed, SharedValue, StartFault, Store,
    SubmitFault, Submitted, Ticket, Txn,
};
use disk::Disk;
use history::{Key, Version};
use std::alloc::AllocError;
use std::marker::Model;
use std::sync::Wait;
use std::sync::ledger::{Book, Share};

/// A store that represents a state that steps of the machine lead to from the opening one, the book of
/// the commits that callers were told of, and the pass that writes the published time. To a contract it
/// is the store. Each method makes at most one call that changes the store, and its first clause says
/// that no more than that changes.
pub struct Locked<D: Disk, L: Opening> {
    store: Store<D>,
    book: Book<L>,
    writer: WriterPass,
    signals: Signals,
}

impl<D: Disk, L: Opening> Model for Locked<D, L> {
    ghost use Rattle.crossbeam_utils.specs.Seq.{cell_view};
    ghost use Rattle.any_store.specs.Values.{StoreValue};
    ghost use Rattle.shared.specs.Shared.{IsShared};

    ghost Value = { StoreValue };

    ghost view = { λ s. s.store };

    ghost invariant = { λ s. IsShared D.tells L.start L.kind L.mark L.table s.store s.book.total s.writer.table_id (cell_view s.writer) };
}

impl<D: Disk, L: Opening> Locked<D, L> {
    /// A store as it was opened, with an empty book.
    pub(crate) fn new(store: Store<D>, book: Book<L>, writer: WriterPass) -> Locked<D, L>
        requires stands { Stands D.tells store L.start }
        requires layout { kind_of store ≡ L.kind }
        requires mark { (commits_of store).mark ≡ L.mark }
        requires fresh { told_count (commits_of store).heads ≡ length (commits_of store).heads }
        requires queue { L.start.queue ≡ [] }
        requires book { book.total ≡ 0 }
        requires cell { writer.table_id ≡ L.table }
        requires writer { ((cell_view writer).seen ≡ seen_of L.start) × ((cell_view writer).archive ≡ no_archive) × ((cell_view writer).writes ≡ true)
            × ((cell_view writer).tokens ≡ no_tokens) }
        ensures { result ≡ store }
    {
        Locked {
            store,
            book,
            writer,
            signals: Signals::new(),
        }
    }

    pub(crate) fn view<R: Wait>(
        &mut self,
        rt: &R,
        cell: &PublishedCell,
        me: &mut Observer<L>,
    ) -> Result<SharedView<L>, AllocError>
        requires { cell.now.table.shared.table_id ≡ L.table }
        ensures same { self.new ≡ self.old }
        ensures moment { IfOk result (λ v. v.seen ≡ me.new) }
        ensures later { IsLater me.old me.new }
    {
        me.meet(rt, cell, &mut self.writer);
        note_archive(rt, cell, &mut self.writer, &self.store);
        let moment = Moment::told_by(cell, &mut self.writer);
        taken_at(self.store.view(), moment)
    }

    /// A view of all that is published, for readers to share without the lock, unless memory is
    /// refused.
    pub(crate) fn kept_view<R: Wait>(&mut self, rt: &R, cell: &PublishedCell) -> Option<KeptView<L>>
        requires { cell.now.table.shared.table_id ≡ L.table }
        ensures { self.new ≡ self.old }
    {
        let mut seen = Observer::told_by(cell, &mut self.writer);
        match self.view(rt, cell, &mut seen) {
            Ok(view) => Some(KeptView::of(view, seen)),
            Err(AllocError) => None,
        }
    }

    pub(crate) fn begin<R: Wait>(
        &mut self,
        rt: &R,
        cell: &PublishedCell,
        me: &mut Observer<L>,
    ) -> Result<SharedTxn<L>, BeginFault>
        requires { cell.now.table.shared.table_id ≡ L.table }
        ensures is { Begins self.old (begun_txn result) self.new }
        ensures happens { BeginHappens L.start L.mark (begun_txn result) me.new }
        ensures moment { IfOk result (λ t. t.seen ≡ me.new) }
        ensures later { IsLater me.old me.new }
    {
        me.meet(rt, cell, &mut self.writer);
        match self.store.begin() {
            Ok(txn) => {
                let (number, snapshot) = (txn.number(), txn.snapshot());
                let pass = TxnPass::given_by(rt, cell, &mut self.writer, number, snapshot);
                Ok(SharedTxn::of(txn, pass))
            }
            Err(fault) => Err(fault),
        }
    }

    pub(crate) fn abort<R: Wait>(
        &mut self,
        rt: &R,
        cell: &PublishedCell,
        txn: SharedTxn<L>,
        me: &mut Observer<L>,
    )
        requires { cell.now.table.shared.table_id ≡ L.table }
        ensures is { Aborts self.old txn.txn self.new }
        ensures happens { AbortHappens L.start txn.txn.snapshot me.new }
        ensures later { IsLater me.old me.new }
    {
        let (txn, pass) = txn.spend();
        // A transaction's writes are in range.
        let _count = txn.writes().len();
        pass.give_back(rt, cell, &mut self.writer);
        self.store.abort(txn);
        me.meet(rt, cell, &mut self.writer);
        self.signals.note_move();
    }

    pub(crate) fn submit<R: Wait>(
        &mut self,
        rt: &R,
        cell: &PublishedCell,
        txn: SharedTxn<L>,
        label: u64,
        now: u64,
        me: &mut Observer<L>,
    ) -> Result<Submitted, SubmitFault>
        requires { cell.now.table.shared.table_id ≡ L.table }
        ensures is { Submits self.old txn.txn label now result self.new }
        ensures happens { SubmitHappens L.start L.mark txn.txn label now result me.new }
        ensures later { IsLater me.old me.new }
    {
        let (txn, pass) = txn.spend();
        let submitted = self.submit_writes(rt, cell, txn, pass, label, now, me);
        self.signals.note_submitted(&submitted);
        submitted
    }

    /// One step of the group that is written. Where it publishes, the cell is told before the lock
    /// is given up.
    pub(crate) fn pump<R: Wait>(
        &mut self,
        rt: &R,
        cell: &PublishedCell,
        me: &mut Observer<L>,
    ) -> Result<Did, PumpFault>
        requires { cell.now.table.shared.table_id ≡ L.table }
        ensures is { Pumps D.tells self.old result self.new }
        ensures happens { PumpHappens L.start L.kind result me.new }
        ensures later { IsLater me.old me.new }
    {
        let did = self.store.pump();
        let last = self.store.last();
        note_published(rt, cell, &mut self.writer, &did, last);
        note_failed(rt, cell, &mut self.writer, has_failed(&did));
        me.meet(rt, cell, &mut self.writer);
        self.signals.note_pumped(&did, last);
        did
    }

    pub(crate) fn archive_start<R: Wait>(
        &mut self,
        rt: &R,
        cell: &PublishedCell,
        upto: u64,
        me: &mut Observer<L>,
    ) -> Result<(), StartFault>
        requires { cell.now.table.shared.table_id ≡ L.table }
        ensures is { StartsArchive self.old upto result self.new }
        ensures happens { ArchiveHappens L.start L.kind upto result me.new }
        ensures later { IsLater me.old me.new }
    {
        me.meet(rt, cell, &mut self.writer);
        self.store.archive_start(upto)
    }

    pub(crate) fn reclaim_start<R: Wait>(
        &mut self,
        rt: &R,
        cell: &PublishedCell,
        me: &mut Observer<L>,
    ) -> Result<(), StartFault>
        requires { cell.now.table.shared.table_id ≡ L.table }
        ensures is { StartsReclaim self.old result self.new }
        ensures happens { ReclaimHappens L.start L.kind result me.new }
        ensures later { IsLater me.old me.new }
    {
        me.meet(rt, cell, &mut self.writer);
        self.store.reclaim_start()
    }

    pub(crate) fn start_floor<R: Wait>(
        &mut self,
        rt: &R,
        cell: &PublishedCell,
        scope: Option<u16>,
        floor: u64,
        me: &mut Observer<L>,
    ) -> Result<(), StartFault>
        requires { cell.now.table.shared.table_id ≡ L.table }
        ensures is { StartsFloor self.old scope floor result self.new }
        ensures happens { FloorHappens L.start L.kind scope floor result me.new }
        ensures later { IsLater me.old me.new }
    {
        me.meet(rt, cell, &mut self.writer);
        self.store.start_floor(scope, floor)
    }

    pub(crate) fn grow_start<R: Wait>(
        &mut self,
        rt: &R,
        cell: &PublishedCell,
        me: &mut Observer<L>,
    ) -> Result<(), StartFault>
        requires { cell.now.table.shared.table_id ≡ L.table }
        ensures is { StartsGrowth self.old result self.new }
        ensures happens { GrowthHappens L.start result me.new }
        ensures later { IsLater me.old me.new }
    {
        me.meet(rt, cell, &mut self.writer);
        self.store.grow_start()
    }

    /// One step of the job that runs. Where it raises a floor, the writer's pass has seen it before
    /// the lock is given up.
    pub(crate) fn job_pump<R: Wait>(
        &mut self,
        rt: &R,
        cell: &PublishedCell,
        me: &mut Observer<L>,
    ) -> Result<JobDid, PumpFault>
        requires { cell.now.table.shared.table_id ≡ L.table }
        ensures is { PumpsJob D.tells self.old result self.new }
        ensures happens { JobHappens L.start L.kind result me.new }
        ensures later { IsLater me.old me.new }
    {
        let did = self.job_step(rt, cell, me);
        self.signals.note_job_pumped(&did);
        did
    }

    /// Asks for a ticket. Done counts once in the caller's share, and the caller has then seen the
    /// commit published.
    pub(crate) fn redeem<R: Wait>(
        &mut self,
        rt: &R,
        cell: &PublishedCell,
        ticket: Ticket,
        share: &mut Share<L>,
        me: &mut Observer<L>,
    ) -> Redeemed
        requires cell { cell.now.table.shared.table_id ≡ L.table }
        requires part { 0 < share.old.parts }
        ensures is { Redeems self.old ticket result self.new }
        ensures says { RedeemSays L.mark ticket result me.new }
        ensures reached { SeenReached L.start me.new }
        ensures parts { share.new.parts ≡ share.old.parts }
        ensures amount { share.new.amount ≡ share.old.amount + done_in result }
        ensures later { IsLater me.old me.new }
    {
        me.meet(rt, cell, &mut self.writer);
        let redeemed = self.store.redeem(ticket);
        self.book.add(share, count_done(&redeemed));
        redeemed
    }

    pub(crate) fn at<R: Wait>(
        &mut self,
        rt: &R,
        cell: &PublishedCell,
        view: &mut SharedView<L>,
        key: Key,
        time: u64,
    ) -> Result<Option<SharedValue>, QueryFault>
        requires { cell.now.table.shared.table_id ≡ L.table }
        ensures is { AnswersAtView D.tells self.old view.old.shown key time result self.new }
        ensures says { OfSeen L.start view.old.seen
            (λ m. SaysAt (IsSure D.tells view.old.shown.reclaimed time) (answers.at_answer m.published m.floors key time) result) }
        ensures kept { view.new ≡ view.old }
    {
        view.compare(rt, cell, &mut self.writer);
        self.store.at(view.shown(), key, time)
    }

    pub(crate) fn scan_at<R: Wait>(
        &mut self,
        rt: &R,
        cell: &PublishedCell,
        view: &mut SharedView<L>,
        relation: u16,
        time: u64,
    ) -> Result<Vec<(u64, SharedValue)>, QueryFault>
        requires { cell.now.table.shared.table_id ≡ L.table }
        ensures is { AnswersScanAt D.tells self.old view.old.shown relation time result self.new }
        ensures says { OfSeen L.start view.old.seen (λ m. SaysScanAt (IsSure D.tells view.old.shown.reclaimed time) m.published m.floors relation time result) }
        ensures kept { view.new ≡ view.old }
    {
        view.compare(rt, cell, &mut self.writer);
        self.store.scan_at(view.shown(), relation, time)
    }

    pub(crate) fn between<R: Wait>(
        &mut self,
        rt: &R,
        cell: &PublishedCell,
        view: &mut SharedView<L>,
        key: Key,
        a: u64,
        b: u64,
    ) -> Result<Vec<Version<SharedValue>>, QueryFault>
        requires { cell.now.table.shared.table_id ≡ L.table }
        ensures is { AnswersRows D.tells self.old view.old.shown key a b result self.new }
        ensures says { OfSeen L.start view.old.seen (λ m. SaysBetween (IsSure D.tells view.old.shown.reclaimed a) m.published m.floors key a b result) }
        ensures kept { view.new ≡ view.old }
    {
        view.compare(rt, cell, &mut self.writer);
        self.store.between(view.shown(), key, a, b)
    }

    pub(crate) fn scan_between<R: Wait>(
        &mut self,
        rt: &R,
        cell: &PublishedCell,
        view: &mut SharedView<L>,
        relation: u16,
        a: u64,
        b: u64,
    ) -> Result<Vec<(u64, Version<SharedValue>)>, QueryFault>
        requires { cell.now.table.shared.table_id ≡ L.table }
        ensures is { AnswersScanRows D.tells self.old view.old.shown relation a b result self.new }
        ensures says { OfSeen L.start view.old.seen
            (λ m. SaysScanBetween (IsSure D.tells view.old.shown.reclaimed a) m.published m.floors relation a b result) }
        ensures kept { view.new ≡ view.old }
    {
        view.compare(rt, cell, &mut self.writer);
        self.store.scan_between(view.shown(), relation, a, b)
    }

    pub(crate) fn times_of<R: Wait>(
        &mut self,
        rt: &R,
        cell: &PublishedCell,
        label: u64,
        me: &mut Observer<L>,
    ) -> Result<Vec<u64>, QueryFault>
        requires { cell.now.table.shared.table_id ≡ L.table }
        ensures is { AnswersTimes D.tells self.old label result self.new }
        ensures says { OfSeen L.start me.new (λ m. SaysTimes D.tells L.kind.in_heap L.kind.names_from (answers.times_of m.published label) result) }
        ensures later { IsLater me.old me.new }
    {
        me.meet(rt, cell, &mut self.writer);
        self.store.times_of(label)
    }

    /// The store. With every part of the ledger in one share, all its commits since opening are
    /// counted.
    pub(crate) fn into_store(self, all: &mut Share<L>) -> Store<D>
        ensures reached { (m : Machine Value) × Stands D.tells result m × Reached L.start m
            × (all.old.parts ≡ L.parts → length m.published ≡ length L.start.published + all.old.amount + unredeemed result) }
        ensures share { (all.new.parts ≡ all.old.parts) × (all.new.amount ≡ all.old.amount) }
    {
        let Locked {
            store,
            mut book,
            writer: _,
            signals: _,
        } = self;
        book.audit(all);
        store
    }

    /// What happened so far.
    pub(crate) fn signals(&self) -> Signals {
        self.signals
    }

    /// Tells the loops to end. Nothing of the store changes.
    pub(crate) fn end_loops(&mut self)
        ensures { self.new ≡ self.old }
    {
        self.signals.note_end();
    }

    // The floor in the making stays known once the job is done.
    fn job_step<R: Wait>(
        &mut self,
        rt: &R,
        cell: &PublishedCell,
        me: &mut Observer<L>,
    ) -> Result<JobDid, PumpFault>
        ghost raising: { Option Raising }
        requires cell { cell.now.table.shared.table_id ≡ L.table }
        requires raising { raising_in self.old ≡ raising }
        ensures is { PumpsJob D.tells self.old result self.new }
        ensures happens { JobHappens L.start L.kind result me.new }
        ensures later { IsLater me.old me.new }
    {
        let did = self.store.job_pump();
        note_job(rt, cell, &mut self.writer, &did);
        note_failed(rt, cell, &mut self.writer, has_failed(&did));
        me.meet(rt, cell, &mut self.writer);
        did
    }

    // The writes stay known once the transaction is over.
    fn submit_writes<R: Wait>(
        &mut self,
        rt: &R,
        cell: &PublishedCell,
        txn: Txn,
        pass: TxnPass<L>,
        label: u64,
        now: u64,
        me: &mut Observer<L>,
    ) -> Result<Submitted, SubmitFault>
        ghost writes: { List (KeyWrite Value) }
        requires cell { cell.now.table.shared.table_id ≡ L.table }
        requires writes { txn.writes ≡ writes }
        requires goes { GoesWith L.start L.mark txn pass }
        ensures is { Submits self.old txn label now result self.new }
        ensures happens { SubmitHappens L.start L.mark txn label now result me.new }
        ensures later { IsLater me.old me.new }
    {
        // A transaction's writes are in range.
        let _count = txn.writes().len();
        pass.give_back(rt, cell, &mut self.writer);
        let submitted = self.store.submit(txn, label, now);
        note_queued(rt, cell, &mut self.writer, &submitted, label);
        me.meet(rt, cell, &mut self.writer);
        submitted
    }
}
