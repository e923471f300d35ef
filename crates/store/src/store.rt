//! The store, and its calls that ask nothing of the disk.
ghost use Rattle.std.specs.Prelude.{◌≡◌, IfOk};
ghost use Rattle.store.specs.Calls.{Begins, Aborts, Submits, Redeems, IsViewOf, IsTimesOf, last, floors};

use crate::giving_up::GiveUp;
use crate::job::Job;
use crate::store_archive::Archived;
use disk::Disk;
use floors::Floors;
use group::{BeginFault, Redeemed, SubmitFault, Submitted, Ticket, Transactions};
use snapshot::Txn;
use status::{SlotTurn, StatusLog};
use std::alloc::{AllocError, Global};
use std::marker::Model;
use timequery::View;
use wire::Profile;

/// A store over a disk of three areas. Each call but opening makes at most one write or sync of the
/// disk. After a refused one the store is failed: it writes nothing more, and reading goes on.
pub struct Store<D: Disk> {
    pub(crate) alloc: Global,
    pub(crate) transactions: Transactions,
    pub(crate) log: StatusLog,
    pub(crate) turn: Option<SlotTurn>,
    pub(crate) job: Option<Job>,
    pub(crate) archived: Archived,
    pub(crate) disk: D,
}

impl<D: Disk> Model for Store<D> {
    ghost use Rattle.store.specs.Values.{StoreValue, IsInStep};
    ghost use Rattle.store.specs.Parts.{parts_of, IsInRange};

    ghost Value = { StoreValue };

    ghost view = { λ s. parts_of s.transactions s.log s.turn s.job s.archived.upto s.archived.runs_end s.archived.archive (D.state s.disk) };

    ghost invariant = { λ s. IsInStep (parts_of s.transactions s.log s.turn s.job s.archived.upto s.archived.runs_end s.archived.archive (D.state s.disk))
        × IsInRange (parts_of s.transactions s.log s.turn s.job s.archived.upto s.archived.runs_end s.archived.archive (D.state s.disk)) };
}

impl<D: Disk> Store<D> {
    /// Ends the store and hands its disk back. What waits is not published.
    pub fn close(self) -> D
        ensures { D.state result ≡ self.disk }
    {
        let Store {
            alloc: _,
            transactions,
            log: _,
            turn,
            job,
            archived: _,
            disk,
        } = self;
        transactions.spend();
        if let Some(turn) = turn {
            turn.give_up();
        }
        if let Some(job) = job {
            job.give_up();
        }
        disk
    }

    /// The time of the last published commit in microseconds since 1970, 0 for none.
    pub fn last(&self) -> u64
        ensures { result ≡ last self.now }
    {
        self.transactions.last()
    }

    /// For each relation the time before which nothing is promised.
    pub fn floors(&self) -> &Floors
        ensures { result.now ≡ floors self.now }
    {
        self.transactions.floors()
    }

    /// The profile of its layout.
    pub fn profile(&self) -> Profile
        ensures { result ≡ self.now.log.profile }
    {
        self.log.profile()
    }

    /// A transaction on what is published now.
    pub fn begin(&mut self) -> Result<Txn, BeginFault>
        ensures { Begins self.old result self.new }
    {
        self.transactions.begin(self.alloc)
    }

    /// Gives the transaction's snapshot up. A stranger is only spent.
    pub fn abort(&mut self, txn: Txn)
        ensures { Aborts self.old txn self.new }
    {
        self.transactions.abort(txn);
    }

    /// Queues the transaction's writes as a commit with this label, at the time `now` (microseconds
    /// since 1970) or just after the last commit, whichever is later. The transaction is over in any
    /// case. A transaction without writes is read-only, and over at once.
    pub fn submit(&mut self, txn: Txn, label: u64, now: u64) -> Result<Submitted, SubmitFault>
        ensures { Submits self.old txn label now result self.new }
    {
        self.transactions.submit(self.alloc, txn, label, now)
    }

    /// Whether the ticket's commit is published. Only `Waiting` gives the ticket back.
    pub fn redeem(&mut self, ticket: Ticket) -> Redeemed
        ensures { Redeems self.old ticket result self.new }
    {
        self.transactions.redeem(ticket)
    }

    /// The times of the published commits with a label, rising, in microseconds since 1970.
    pub fn times_of(&self, label: u64) -> Result<Vec<u64>, AllocError>
        ensures { IfOk result (λ times. IsTimesOf self.now label times.items) }
    {
        self.transactions.times_of(self.alloc, label)
    }

    /// A view of what is published now, which later commits do not change, and no job: it shares the
    /// versions in memory and the runs of the log, and its floors are those of now.
    pub fn view(&self) -> Result<View, AllocError>
        ensures { IfOk result (IsViewOf self.now) }
    {
        let runs = self.archived.archive.share_runs()?;
        let view = self.transactions.view()?;
        Ok(view.with_archive(self.transactions.reclaimed(), runs))
    }

    /// Ends a view.
    pub fn end(&mut self, view: View)
        ensures { self.new ≡ self.old }
    {
        view.spend();
    }
}
