//! The writing of a slot, in four device calls.
ghost use Rattle.std.specs.Prelude.{◌≡◌, ◌+◌, [], ◌∷◌, length, IsTrue, IfOk};
ghost use Rattle.disk.specs.Calls.{Counts, Writes, Syncs};
ghost use Rattle.disk.specs.declared.area.Area.TheVariants.{Status};
ghost use Rattle.status.specs.Log.{slot_start};
ghost use Rattle.status.specs.SlotCalls.{IsSlotCall, answer_of};
ghost use Rattle.status.specs.Turn.{IsStepOf};

use crate::sizes::{FRONT_LEN, SLOT_LEN};
use disk::{Area, DeviceFault, Disk};
use std::marker::Model;
use wire::SLOT_BODY_LEN;

/// The gate of a slot or of a piece that is open: its one byte.
pub const OPEN: u8 = 0xC7;

/// What is done of a slot in the writing: which of its four device calls were made.
#[derive(Clone, Copy, Debug, PartialEq, Eq)]
pub enum Stage {
    Begun,
    BodyWritten,
    BodySynced,
    GateWritten,
}

/// A slot in the writing. It is spent by its last call, or by one that the device refuses.
pub struct SlotTurn {
    number: u32,
    body: [u8; SLOT_BODY_LEN],
    stage: Stage,
}

impl Model for SlotTurn {
    ghost use Rattle.std.specs.Prelude.{◌<◌, ◌^◌, ◌-◌};
    ghost use Rattle.status.specs.TurnState.{TurnState};

    ghost Value = { TurnState };

    ghost use Rattle.status.specs.TurnStage.{stage_of};

    ghost view = { λ t. record { number = t.number; body = t.body; stage = stage_of t.stage } };

    ghost invariant = { λ t. t.number < 2 ^ 32 - 1 };
}

/// What a device call has led to.
pub enum Step {
    More(SlotTurn),
    /// The slot of this number is open, and will stay so.
    Open(u32),
}

impl SlotTurn {
    ghost use Rattle.std.specs.Prelude.{◌<◌, ◌^◌, ◌-◌};
    ghost use Rattle.status.specs.SlotCalls.{Begun};

    pub(crate) fn begin(number: u32, body: [u8; SLOT_BODY_LEN]) -> SlotTurn
        requires { number < 2 ^ 32 - 1 }
        ensures { result ≡ record { number = number; body = body; stage = Begun } }
    {
        SlotTurn {
            number,
            body,
            stage: Stage::Begun,
        }
    }
}

impl SlotTurn {
    ghost use Rattle.std.specs.Prelude.{◌≡◌};
    ghost use Rattle.status.specs.TurnStage.{stage_of};

    /// What is done of the slot.
    pub fn stage(&self) -> Stage
        ensures { stage_of result ≡ self.now.stage }
    {
        self.stage
    }

    /// Lets the slot be, with no device call: it stays in the writing.
    pub fn give_up(self) {
        let SlotTurn {
            number: _,
            body: _,
            stage: _,
        } = self;
    }
}

/// The byte of the status area at which the slot of this number begins, with its gate.
pub fn slot_place(number: u32) -> u64
    ensures { result ≡ slot_start number }
{
    FRONT_LEN + SLOT_LEN * number as u64
}

fn write_body<D: Disk>(
    disk: &mut D,
    number: u32,
    body: &[u8; SLOT_BODY_LEN],
) -> Result<(), DeviceFault>
    ensures call { IsTrue D.tells → Writes Status (slot_start number + 1) body.now result (D.state disk.old).areas (D.state disk.new).areas }
    ensures counts { Counts result (D.state disk.old) (D.state disk.new) }
{
    disk.write_at(Area::Status, slot_place(number) + 1, body)
}

fn sync_body<D: Disk>(disk: &mut D) -> Result<(), DeviceFault>
    ensures call { IsTrue D.tells → Syncs Status result (D.state disk.old).areas (D.state disk.new).areas }
    ensures counts { Counts result (D.state disk.old) (D.state disk.new) }
{
    disk.sync(Area::Status)
}

fn write_gate<D: Disk>(disk: &mut D, number: u32) -> Result<(), DeviceFault>
    ensures call { IsTrue D.tells → Writes Status (slot_start number) (0xC7 ∷ []) result (D.state disk.old).areas (D.state disk.new).areas }
    ensures counts { Counts result (D.state disk.old) (D.state disk.new) }
{
    disk.write_at(Area::Status, slot_place(number), &[OPEN])
}

fn sync_gate<D: Disk>(disk: &mut D) -> Result<(), DeviceFault>
    ensures call { IsTrue D.tells → Syncs Status result (D.state disk.old).areas (D.state disk.new).areas }
    ensures counts { Counts result (D.state disk.old) (D.state disk.new) }
{
    disk.sync(Area::Status)
}

/// The next device call of a turn.
pub fn advance<D: Disk>(turn: SlotTurn, disk: &mut D) -> Result<Step, DeviceFault>
    ensures call { IsTrue D.tells → IsSlotCall turn.number turn.body turn.stage (answer_of result) (D.state disk.old).areas (D.state disk.new).areas }
    ensures counts { Counts result (D.state disk.old) (D.state disk.new) }
    ensures steps { IfOk result (IsStepOf turn) }
{
    let SlotTurn {
        number,
        body,
        stage,
    } = turn;
    let stage = match stage {
        Stage::Begun => {
            write_body(disk, number, &body)?;
            Stage::BodyWritten
        }
        Stage::BodyWritten => {
            sync_body(disk)?;
            Stage::BodySynced
        }
        Stage::BodySynced => {
            write_gate(disk, number)?;
            Stage::GateWritten
        }
        Stage::GateWritten => {
            sync_gate(disk)?;
            return Ok(Step::Open(number));
        }
    };
    Ok(Step::More(SlotTurn {
        number,
        body,
        stage,
    }))
}
