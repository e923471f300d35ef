//! The room in the log.
ghost use Rattle.std.specs.Prelude.{◌≡◌, ◌<◌, ◌≤◌, ◌+◌};
ghost use Rattle.group.specs.Values.{spare, with_slot_lent, with_slot_used, with_more_slots};

use crate::stage::GroupStage;
use crate::transactions::Transactions;

impl Transactions {
    /// The slots that are left, less one for each commit that waits for one.
    pub fn spare(&self) -> u32
        ensures { result ≡ spare self.now }
    {
        let waiting = self.queue.len() as u32;
        let claimed = match self.stage {
            GroupStage::Turning => 1 + (waiting - self.group as u32),
            _ => waiting,
        };
        self.slots - self.used - claimed
    }

    /// Lends a slot that is spare to a job: commits can't take it.
    pub fn lend_slot(&mut self)
        requires { 0 < spare self.old }
        ensures { self.new ≡ with_slot_lent self.old }
    {
        self.slots -= 1;
    }

    /// The slot that was lent comes back as one that the log has.
    pub fn slot_used(&mut self)
        requires { self.old.slots < 65536 }
        ensures { self.new ≡ with_slot_used self.old }
    {
        self.slots += 1;
        self.used += 1;
    }

    /// The log has so many slots more.
    pub fn add_slots(&mut self, count: u32)
        requires { self.old.slots + count ≤ 65536 }
        ensures { self.new ≡ with_more_slots count self.old }
    {
        self.slots += count;
    }
}
