//! The next device call of a slot in the writing, a group's or a job's.
ghost use Rattle.std.specs.Prelude.{◌≡◌, IfOk, IfErr};
ghost use Rattle.status.specs.SlotCalls.{IsSlotCall};
ghost use Rattle.group.specs.Steps.{broken};
ghost use Rattle.store.specs.Pumps.{Calls};
ghost use Rattle.store.specs.SlotCalls.{IsCalled, call_before};

use disk::{DeviceFault, Disk};
use group::{PumpFault, Transactions};
use status::{SlotTurn, Stage, StatusLog, Step};

/// A device call of a slot that is to go on.
#[derive(Clone, Copy)]
pub(crate) enum SlotCall {
    BodyWritten,
    BodySynced,
    GateWritten,
}

/// What a device call of a slot has led to.
pub(crate) enum SlotStep {
    /// This call is made, and the slot is to go on.
    More(SlotCall, SlotTurn),
    /// The slot is open.
    Opened,
}

/// The next device call of a slot. A refused one spends the turn, and the store has failed.
pub(crate) fn advance_slot<D: Disk>(
    transactions: &mut Transactions,
    log: &mut StatusLog,
    disk: &mut D,
    turn: SlotTurn,
) -> Result<SlotStep, PumpFault>
    ensures call { Calls D.tells (IsSlotCall turn.number turn.body turn.stage) result (D.state disk.old) (D.state disk.new) }
    ensures ok { IfOk result (λ step. (transactions.new ≡ transactions.old) × IsCalled turn.stage turn log.old step log.new) }
    ensures err { IfErr result (λ why. (why ≡ PumpFault.Failed) × (transactions.new ≡ broken transactions.old) × (log.new ≡ log.old)) }
{
    match log.advance(turn, disk) {
        Err(DeviceFault) => {
            transactions.fail();
            Err(PumpFault::Failed)
        }
        Ok(Step::Open(_)) => Ok(SlotStep::Opened),
        Ok(Step::More(next)) => {
            let call = call_before(&next);
            Ok(SlotStep::More(call, next))
        }
    }
}

// The call that led to this turn.
fn call_before(turn: &SlotTurn) -> SlotCall
    ensures { result ≡ call_before turn.now.stage }
{
    match turn.stage() {
        Stage::Begun | Stage::BodyWritten => SlotCall::BodyWritten,
        Stage::BodySynced => SlotCall::BodySynced,
        Stage::GateWritten => SlotCall::GateWritten,
    }
}
