//! Which slots are used, and whether one is in the writing.
ghost use Rattle.std.specs.Prelude.{◌≡◌, ◌↔◌, ◌≤◌, ◌<◌, length, min, true, false, IsTrue, IfOk, OnOk, OnErr};
ghost use Rattle.disk.specs.Calls.{Counts};
ghost use Rattle.wire.specs.Spelling.{spelling, InRange, IsSpelled};
ghost use Rattle.status.specs.Header.{total};
ghost use Rattle.status.specs.SlotCalls.{Begun, IsSlotCall, answer_of};
ghost use Rattle.status.specs.Turn.{IsStepOf, moved};
ghost use Rattle.status.specs.Growth.{next_piece, IsGrowthCall, growth_after, grew_at, grown_by};

use crate::growth::{Grew, Growth, advance_growth};
use crate::header::Header;
use crate::sizes::{MOST_PIECES, MOST_SLOTS, MOST_TOTAL, PIECE_SLOTS};
use crate::turn::{SlotTurn, Step, advance};
use disk::{DeviceFault, Disk};
use std::marker::Model;
use wire::{Body, Profile, Slot, encode_slot};

/// Why no slot is begun.
#[derive(Clone, Copy, Debug, PartialEq, Eq)]
pub enum SlotFault {
    /// A slot is in the writing.
    Busy = 1,
    /// Every slot is used.
    StatusFull = 2,
}

/// The slots of a store, of which the first ones are used. One slot is in the writing at a time;
/// a refused device call leaves it there for ever.
#[derive(Drop)]
pub struct StatusLog {
    profile: Profile,
    slots: u32,
    // The pieces that are open, whose slots are among these.
    pieces: u32,
    used: u32,
    is_writing: bool,
}

impl Model for StatusLog {
    ghost use Rattle.std.specs.Prelude.{◌≤◌, ◌*◌};
    ghost use Rattle.status.specs.TurnState.{LogState};

    ghost Value = { LogState };

    ghost view = { λ l. record { profile = l.profile; slots = l.slots; pieces = l.pieces; used = l.used; writing = l.is_writing } };

    ghost invariant = { λ l. (l.slots ≤ 65536) × (256 * l.pieces ≤ l.slots) };
}

impl StatusLog {
    /// The log of an area with this header, of which so many slots are used; it has at most 65,536, and
    /// at most 256 pieces.
    pub fn new(header: &Header, used: u32) -> StatusLog
        ensures { result ≡ record {
          profile = header.now.profile;
          slots = min (total header.now) 65536;
          pieces = min header.now.pieces 256;
          used = used;
          writing = false;
        } }
    {
        StatusLog {
            profile: header.profile,
            slots: header.total().min(MOST_TOTAL) as u32,
            pieces: header.pieces.min(MOST_PIECES),
            used,
            is_writing: false,
        }
    }

    /// The profile of the store's layout.
    pub fn profile(&self) -> Profile
        ensures { result ≡ self.now.profile }
    {
        self.profile
    }

    /// How many slots the store has, used or not.
    pub fn slots(&self) -> u32
        ensures { result ≡ self.now.slots }
    {
        self.slots
    }

    /// How many of the slots are used, the first ones.
    pub fn used(&self) -> u32
        ensures { result ≡ self.now.used }
    {
        self.used
    }

    /// Whether a slot is in the writing.
    pub fn is_writing(&self) -> bool
        ensures { result ≡ self.now.writing }
    {
        self.is_writing
    }

    /// Begins to write the slot that comes next.
    pub fn begin_slot(&mut self, body: Body) -> Result<SlotTurn, SlotFault>
        ensures stage { IfOk result (λ turn. turn.stage ≡ Begun) }
        ensures number { IfOk result (λ turn. turn.number ≡ self.old.used) }
        ensures bytes { IfOk result (λ turn. turn.body ≡ spelling self.old.profile (record { number = self.old.used; body = body })) }
        ensures long { IfOk result (λ turn. length turn.body ≡ 511) }
        ensures spelled { InRange self.old.profile body → IfOk result (λ turn.
            IsSpelled self.old.profile self.old.used turn.body (record { number = self.old.used; body = body })) }
        ensures room { OnOk result (self.old.used < self.old.slots) }
        ensures writing { OnOk result (self.new ≡ record self.old { writing = true }) }
        ensures busy { (result ≡ Err SlotFault.Busy) ↔ (self.old.writing ≡ true) }
        ensures full { (result ≡ Err SlotFault.StatusFull) ↔ ((self.old.writing ≡ false) × (self.old.slots ≤ self.old.used)) }
        ensures err { OnErr result (self.new ≡ self.old) }
    {
        if self.is_writing {
            return Err(SlotFault::Busy);
        }
        if self.slots <= self.used {
            return Err(SlotFault::StatusFull);
        }
        self.is_writing = true;
        let slot = Slot {
            number: self.used,
            body,
        };
        Ok(SlotTurn::begin(self.used, encode_slot(self.profile, &slot)))
    }

    /// The next device call of the slot in the writing.
    pub fn advance<D: Disk>(&mut self, turn: SlotTurn, disk: &mut D) -> Result<Step, DeviceFault>
        ensures call { IsTrue D.tells → IsSlotCall turn.number turn.body turn.stage (answer_of result) (D.state disk.old).areas (D.state disk.new).areas }
        ensures counts { Counts result (D.state disk.old) (D.state disk.new) }
        ensures steps { IfOk result (IsStepOf turn) }
        ensures moves { IfOk result (λ step. self.new ≡ moved step self.old) }
        ensures err { OnErr result (self.new ≡ self.old) }
    {
        match advance(turn, disk)? {
            Step::More(next) => Ok(Step::More(next)),
            Step::Open(number) => {
                self.used = number + 1;
                self.is_writing = false;
                Ok(Step::Open(number))
            }
        }
    }

    /// Begins to make a piece of 256 slots more, with no device call. None where the profile has no
    /// pieces, or where the store would have more than 65,536 slots.
    pub fn next_piece(&self) -> Option<Growth>
        ensures { result ≡ next_piece self.now }
    {
        if !self.profile.has_pieces() || MOST_SLOTS < self.slots + PIECE_SLOTS {
            None
        } else {
            Some(Growth::begin(self.slots, self.pieces))
        }
    }

    /// The next device call of a piece, which has passed it whatever the device answers. Once the
    /// piece is open its slots are the log's.
    pub fn grow<D: Disk>(&mut self, growth: &mut Growth, disk: &mut D) -> Result<Grew, DeviceFault>
        ensures call { IsTrue D.tells → IsGrowthCall growth.old.stage growth.old.slots growth.old.piece (answer_of result) (D.state disk.old).areas
            (D.state disk.new).areas }
        ensures counts { Counts result (D.state disk.old) (D.state disk.new) }
        ensures moves { growth.new ≡ growth_after growth.old }
        ensures did { IfOk result (λ did. did ≡ grew_at growth.old.stage) }
        ensures log { IfOk result (λ did. self.new ≡ grown_by did growth.old self.old) }
        ensures err { OnErr result (self.new ≡ self.old) }
    {
        let did = advance_growth(growth, disk)?;
        match did {
            Grew::WroteZeros | Grew::ZerosSynced | Grew::GateWritten => {}
            Grew::Grown => {
                *self = StatusLog {
                    slots: growth.slots + PIECE_SLOTS,
                    pieces: growth.piece + 1,
                    ..*self
                };
            }
        }
        Ok(did)
    }
}
