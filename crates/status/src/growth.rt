//! The making of a piece of 256 slots more, in 19 device calls.
ghost use Rattle.std.specs.Prelude.{◌≡◌, ◌+◌, ◌*◌, ◌<◌, ◌≤◌, [], ◌∷◌, replicate, IsTrue, IfOk};
ghost use Rattle.disk.specs.Calls.{Counts, Writes, Syncs};
ghost use Rattle.disk.specs.declared.area.Area.TheVariants.{Status};
ghost use Rattle.status.specs.SlotCalls.{answer_of};
ghost use Rattle.status.specs.Growth.{WritesZeros, IsGrowthCall, grew_at, growth_after};

use crate::sizes::SLOT_BYTES;
use crate::turn::{OPEN, slot_place};
use disk::{Area, DeviceFault, Disk};
use std::marker::Model;

/// The calls that write a piece's zeros.
const PARTS: u32 = 16;

/// The slots whose zeros one of them writes.
const PART_SLOTS: usize = 16;

/// The bytes of these zeros.
const PART_LEN: usize = PART_SLOTS * SLOT_BYTES;

const PART_BYTES: u64 = PART_LEN as u64;

/// The byte of the header at which the gates of the pieces begin.
const GATES: u64 = 16;

/// What is done of a piece.
#[derive(Clone, Copy, Debug, PartialEq, Eq)]
pub enum GrowthStage {
    /// So many of the 16 parts of its zeros are written.
    Zeroing(u32),
    ZerosSynced,
    /// Its gate is written, and may be open.
    GateWritten,
}

/// What a device call did of a piece.
#[derive(Clone, Copy, Debug, PartialEq, Eq)]
pub enum Grew {
    WroteZeros,
    ZerosSynced,
    GateWritten,
    /// The piece is open, and will stay so.
    Grown,
}

/// A piece of 256 slots in the making: the slots before it, its number and what is done of it. It takes
/// no slot.
#[derive(Drop)]
pub struct Growth {
    pub(crate) slots: u32,
    pub(crate) piece: u32,
    stage: GrowthStage,
}

impl Model for Growth {
    ghost use Rattle.std.specs.Prelude.{◌+◌, ◌*◌, ◌≤◌};
    ghost use Rattle.status.specs.GrowthState.{GrowthState};

    ghost Value = { GrowthState };

    ghost view = { λ g. record { slots = g.slots; piece = g.piece; stage = g.stage } };

    ghost invariant = { λ g. (g.slots + 256 ≤ 65536) × (256 * g.piece ≤ g.slots) };
}

impl Growth {
    ghost use Rattle.status.specs.declared.growth.GrowthStage.TheVariants.{Zeroing};

    pub(crate) fn begin(slots: u32, piece: u32) -> Growth
        requires room { slots + 256 ≤ 65536 }
        requires among { 256 * piece ≤ slots }
        ensures { result ≡ record { slots = slots; piece = piece; stage = Zeroing 0 } }
    {
        Growth {
            slots,
            piece,
            stage: GrowthStage::Zeroing(0),
        }
    }

    /// What is done of the piece.
    pub fn stage(&self) -> GrowthStage
        ensures { result ≡ self.now.stage }
    {
        self.stage
    }
}

fn write_zeros<D: Disk>(disk: &mut D, slots: u32, parts: u32) -> Result<(), DeviceFault>
    requires { parts < 16 }
    ensures call { IsTrue D.tells → WritesZeros slots parts result (D.state disk.old).areas (D.state disk.new).areas }
    ensures counts { Counts result (D.state disk.old) (D.state disk.new) }
{
    let zeros = [0; PART_LEN];
    disk.write_at(
        Area::Status,
        slot_place(slots) + PART_BYTES * u64::from(parts),
        &zeros,
    )
}

fn sync_zeros<D: Disk>(disk: &mut D) -> Result<(), DeviceFault>
    ensures call { IsTrue D.tells → Syncs Status result (D.state disk.old).areas (D.state disk.new).areas }
    ensures counts { Counts result (D.state disk.old) (D.state disk.new) }
{
    disk.sync(Area::Status)
}

fn write_piece_gate<D: Disk>(disk: &mut D, piece: u32) -> Result<(), DeviceFault>
    ensures call { IsTrue D.tells → Writes Status (16 + piece) (0xC7 ∷ []) result (D.state disk.old).areas (D.state disk.new).areas }
    ensures counts { Counts result (D.state disk.old) (D.state disk.new) }
{
    disk.write_at(Area::Status, GATES + u64::from(piece), &[OPEN])
}

fn sync_piece_gate<D: Disk>(disk: &mut D) -> Result<(), DeviceFault>
    ensures call { IsTrue D.tells → Syncs Status result (D.state disk.old).areas (D.state disk.new).areas }
    ensures counts { Counts result (D.state disk.old) (D.state disk.new) }
{
    disk.sync(Area::Status)
}

/// The next device call of a piece. The piece has passed it, whatever the device answers.
pub(crate) fn advance_growth<D: Disk>(
    growth: &mut Growth,
    disk: &mut D,
) -> Result<Grew, DeviceFault>
    ensures call { IsTrue D.tells → IsGrowthCall growth.old.stage growth.old.slots growth.old.piece (answer_of result) (D.state disk.old).areas
        (D.state disk.new).areas }
    ensures counts { Counts result (D.state disk.old) (D.state disk.new) }
    ensures moves { growth.new ≡ growth_after growth.old }
    ensures did { IfOk result (λ did. did ≡ grew_at growth.old.stage) }
{
    match growth.stage {
        GrowthStage::Zeroing(parts) => {
            if parts < PARTS {
                growth.stage = GrowthStage::Zeroing(parts + 1);
                write_zeros(disk, growth.slots, parts)?;
                Ok(Grew::WroteZeros)
            } else {
                growth.stage = GrowthStage::ZerosSynced;
                sync_zeros(disk)?;
                Ok(Grew::ZerosSynced)
            }
        }
        GrowthStage::ZerosSynced => {
            growth.stage = GrowthStage::GateWritten;
            write_piece_gate(disk, growth.piece)?;
            Ok(Grew::GateWritten)
        }
        GrowthStage::GateWritten => {
            sync_piece_gate(disk)?;
            Ok(Grew::Grown)
        }
    }
}
