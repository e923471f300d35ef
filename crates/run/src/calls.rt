//! Calls, and what they answer.
use any_store::{
    BeginFault, Did, JobDid, PumpFault, QueryFault, SharedValue, StartFault, SubmitFault, TxnFault,
};
use history::{Key, Version};
use std::alloc::AllocError;

/// A call of a store, or of a transaction, a ticket or a view that it gave out. Such a value is
/// named by the place in the list of the call that gave it. Times are in microseconds since 1970.
#[derive(Clone, Copy, Debug)]
pub enum Call<'a> {
    /// Its place holds the transaction.
    Begin,
    Put {
        transaction: usize,
        key: Key,
        fields: &'a [&'a [u8]],
    },
    Delete {
        transaction: usize,
        key: Key,
    },
    Get {
        transaction: usize,
        key: Key,
    },
    Scan {
        transaction: usize,
        relation: u16,
    },
    /// Its place holds the ticket, where the commit is queued.
    Submit {
        transaction: usize,
        label: u64,
        now: u64,
    },
    Abort {
        transaction: usize,
    },
    Pump,
    Redeem {
        ticket: usize,
    },
    GiveUp {
        ticket: usize,
    },
    /// Its place holds the view.
    View,
    At {
        view: usize,
        key: Key,
        time: u64,
    },
    ScanAt {
        view: usize,
        relation: u16,
        time: u64,
    },
    /// From `a` up to `b`, itself no longer in the interval.
    Between {
        view: usize,
        key: Key,
        a: u64,
        b: u64,
    },
    ScanBetween {
        view: usize,
        relation: u16,
        a: u64,
        b: u64,
    },
    /// As `At`, from memory alone: no device is asked.
    Recent {
        view: usize,
        key: Key,
        time: u64,
    },
    End {
        view: usize,
    },
    TimesOf {
        label: u64,
    },
    /// Begins an archive of the versions that ended by `upto`.
    Archive {
        upto: u64,
    },
    /// Begins a reclaim: the heap and memory are to give up what ended by the archive mark.
    Reclaim,
    /// Begins to raise the floor of one relation, or of every relation, to this time, in microseconds since 1970: what ended by it need not be
    /// answered.
    Floor {
        scope: Option<u16>,
        floor: u64,
    },
    /// Begins to make 256 slots more.
    Grow,
    /// The next step of the job that runs.
    JobPump,
}

/// What a submit answers where it isn't refused. A ticket is in the place of its call.
#[derive(Clone, Copy, Debug, PartialEq, Eq)]
pub enum SubmitOutcome {
    /// Nothing was written. The number is the time of the snapshot, in microseconds since 1970.
    ReadOnly(u64),
    /// The commit waits.
    Queued,
}

/// What becomes of a ticket that is shown.
#[derive(Clone, Copy, Debug, PartialEq, Eq)]
pub enum RedeemOutcome {
    /// The commit is published, with this time in microseconds since 1970.
    Done(u64),
    /// The commit waits, and so does its ticket in its place.
    Waiting,
    /// The device failed before the commit was published: it may be found after a reopening, or not.
    InDoubt,
    /// The ticket is not one of this store's.
    Stranger,
}

/// The answer to a call.
#[derive(Drop)]
pub enum Answer {
    /// The place that the call names gave no such value, or the value is spent. Nothing changed.
    Unknown,
    Begin(Result<(), BeginFault>),
    Put(Result<(), TxnFault>),
    Delete(Result<(), TxnFault>),
    Get(Result<Option<SharedValue>, AllocError>),
    Scan(Result<Vec<(u64, SharedValue)>, AllocError>),
    Submit(Result<SubmitOutcome, SubmitFault>),
    Abort,
    Pump(Result<Did, PumpFault>),
    Redeem(RedeemOutcome),
    GiveUp,
    View(Result<(), AllocError>),
    At(Result<Option<SharedValue>, QueryFault>),
    ScanAt(Result<Vec<(u64, SharedValue)>, QueryFault>),
    Between(Result<Vec<Version<SharedValue>>, QueryFault>),
    ScanBetween(Result<Vec<(u64, Version<SharedValue>)>, QueryFault>),
    Recent(Result<Option<SharedValue>, QueryFault>),
    End,
    TimesOf(Result<Vec<u64>, QueryFault>),
    Archive(Result<(), StartFault>),
    Reclaim(Result<(), StartFault>),
    Floor(Result<(), StartFault>),
    Grow(Result<(), StartFault>),
    JobPump(Result<JobDid, PumpFault>),
}
