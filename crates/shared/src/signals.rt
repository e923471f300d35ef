//! What happened under the lock.
use any_store::{Did, JobDid, PumpFault, SubmitFault, Submitted};

/// What happened under the lock, for those who sleep until it does. The counts wrap.
#[derive(Clone, Copy, Debug)]
pub(crate) struct Signals {
    // How often a commit was queued, a transaction ended, commits were published, a job was done, the
    // store failed or its loops were told to end.
    moves: u64,
    // How often tickets may have got another answer: commits were published, or the store failed.
    settled: u64,
    // The commits that are queued and not published.
    queued: u64,
    // The time of the last published commit, in microseconds since 1970.
    last: u64,
    // Whether a group has begun that is not published.
    grouped: bool,
    failed: bool,
    ending: bool,
}

impl Signals {
    pub(crate) fn new() -> Signals {
        Signals {
            moves: 0,
            settled: 0,
            queued: 0,
            last: 0,
            grouped: false,
            failed: false,
            ending: false,
        }
    }

    pub(crate) fn moves(&self) -> u64 {
        self.moves
    }

    pub(crate) fn settled(&self) -> u64 {
        self.settled
    }

    /// The commits that are queued and not published.
    pub(crate) fn queued(&self) -> u64 {
        self.queued
    }

    /// The time of the last published commit, in microseconds since 1970, as far as it was noted.
    pub(crate) fn last(&self) -> u64 {
        self.last
    }

    pub(crate) fn has_failed(&self) -> bool {
        self.failed
    }

    pub(crate) fn is_ending(&self) -> bool {
        self.ending
    }

    /// Whether a step of a group is to be made whoever is on the way: a group has begun, the store has
    /// failed, or the loops are to end.
    pub(crate) fn is_urgent(&self) -> bool {
        self.grouped || self.failed || self.ending
    }

    /// A transaction ended, or something else happened that a loop may wait for.
    pub(crate) fn note_move(&mut self) {
        self.moves = self.moves.wrapping_add(1);
    }

    pub(crate) fn note_end(&mut self) {
        self.ending = true;
        self.note_move();
    }

    /// A transaction was answered so at its end.
    pub(crate) fn note_submitted(&mut self, submitted: &Result<Submitted, SubmitFault>) {
        if let Ok(Submitted::Queued(_)) = submitted {
            self.queued = self.queued.wrapping_add(1);
        }
        self.note_move();
    }

    /// A step of a group was answered so, and the last published commit is of this time.
    pub(crate) fn note_pumped(&mut self, did: &Result<Did, PumpFault>, last: u64) {
        self.last = last;
        match did {
            Ok(Did::Published(count)) => {
                self.grouped = false;
                self.queued = self.queued.wrapping_sub(u64::from(*count));
                self.note_settled();
            }
            Err(PumpFault::Failed) => self.note_failed(),
            Ok(Did::Idle) => self.grouped = false,
            Ok(_) | Err(_) => self.grouped = true,
        }
    }

    /// A step of a job was answered so.
    pub(crate) fn note_job_pumped(&mut self, did: &Result<JobDid, PumpFault>) {
        match did {
            Ok(JobDid::JobDone) => self.note_move(),
            Err(PumpFault::Failed) => self.note_failed(),
            Ok(_) | Err(_) => {}
        }
    }

    fn note_failed(&mut self) {
        self.grouped = false;
        self.failed = true;
        self.note_settled();
    }

    fn note_settled(&mut self) {
        self.settled = self.settled.wrapping_add(1);
        self.note_move();
    }
}
