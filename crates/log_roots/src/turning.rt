//! The way from one root to the other, one device call at a time.
ghost use Rattle.std.specs.Prelude.{◌≡◌, IsTrue, IfOk, OnErr};
ghost use Rattle.byteorder.specs.Endian.{little_bytes};
ghost use Rattle.disk.specs.Calls.{Counts};
ghost use Rattle.status.specs.SlotCalls.{answer_of};
ghost use Rattle.log_roots.specs.Turning.{IsCallOf, stage_after, turn_of, with_stage, stage_of, did, IsOnItsWay, other, turn_byte, is_turning, is_settling};

use crate::encoding::OPEN;
use crate::roots::{Roots, TURN_PLACE};
use byteorder::{ByteOrder, LittleEndian};
use disk::{Area, DeviceFault, Disk};
use std::marker::Model;

/// What is done of a turn.
#[derive(Clone, Copy)]
pub(crate) enum Step {
    Writing,
    Syncing,
    Turning,
    Settling,
    Done,
}

/// What a device call did of a turn.
#[derive(Clone, Copy, Debug, PartialEq, Eq)]
pub enum RootWrote {
    /// The root that does not count yet.
    Root,
    RootSynced,
    /// The turn gate.
    Turn,
    /// The other root counts, and will do so.
    Settled,
}

/// A turn on its way: the roots as they were before it, and the number that the other root gets.
#[derive(Drop)]
pub struct RootWriter {
    roots: Roots,
    root: u32,
    step: Step,
}

impl Model for RootWriter {
    ghost use Rattle.log_roots.specs.Turning.{RootTurnState, stage_of};

    ghost Value = { RootTurnState };

    ghost view = { λ w. record { roots = w.roots; root = w.root; stage = stage_of w.step } };
}

// The four bytes of a root.
fn root_bytes(root: u32) -> [u8; 4]
    ensures { result ≡ little_bytes 4 root }
{
    let mut bytes = [0; 4];
    LittleEndian::write_u32(&mut bytes, root);
    bytes
}

// The turn gate of the other root.
fn gate_of_other(turned: bool) -> u8
    ensures { result ≡ turn_byte (other turned) }
{
    if turned { 0 } else { OPEN }
}

impl RootWriter {
    /// A turn from the root of these that counts to the other one, which gets this number. Nothing is written of it yet.
    pub fn new(roots: Roots, root: u32) -> RootWriter
        ensures { result ≡ turn_of roots root }
    {
        RootWriter {
            roots,
            root,
            step: Step::Writing,
        }
    }

    // The next device call of the turn, and where it leads.
    fn make_call<D: Disk>(&self, disk: &mut D) -> Result<(Step, RootWrote), DeviceFault>
        requires { IsOnItsWay self.now.stage }
        ensures call { IsTrue D.tells → IsCallOf self.now.roots.turned (little_bytes 4 self.now.root) self.now.stage (answer_of result)
            (D.state disk.old).areas (D.state disk.new).areas }
        ensures counts { Counts result (D.state disk.old) (D.state disk.new) }
        ensures leads { IfOk result (λ r. (stage_of r.0 ≡ stage_after self.now.stage) × (r.1 ≡ did self.now.stage)) }
    {
        match self.step {
            Step::Writing => {
                let bytes = root_bytes(self.root);
                disk.write_at(Area::Status, self.roots.other_place(), &bytes)?;
                Ok((Step::Syncing, RootWrote::Root))
            }
            Step::Syncing => {
                disk.sync(Area::Status)?;
                Ok((Step::Turning, RootWrote::RootSynced))
            }
            Step::Turning => {
                let gate = gate_of_other(self.roots.turned);
                disk.write_at(Area::Status, TURN_PLACE, &[gate])?;
                Ok((Step::Settling, RootWrote::Turn))
            }
            Step::Settling => {
                disk.sync(Area::Status)?;
                Ok((Step::Done, RootWrote::Settled))
            }
            Step::Done => unreachable!(),
        }
    }

    /// The next device call of the turn. A refused one changes nothing here.
    pub fn advance<D: Disk>(&mut self, disk: &mut D) -> Result<RootWrote, DeviceFault>
        requires { IsOnItsWay self.old.stage }
        ensures call { IsTrue D.tells → IsCallOf self.old.roots.turned (little_bytes 4 self.old.root) self.old.stage (answer_of result)
            (D.state disk.old).areas (D.state disk.new).areas }
        ensures counts { Counts result (D.state disk.old) (D.state disk.new) }
        ensures ok { IfOk result (λ what. (what ≡ did self.old.stage) × (self.new ≡ with_stage self.old (stage_after self.old.stage))) }
        ensures err { OnErr result (self.new ≡ self.old) }
    {
        let (step, what) = self.make_call(disk)?;
        self.step = step;
        Ok(what)
    }

    /// Whether the next call turns the gate.
    pub fn is_turning(&self) -> bool
        ensures { result ≡ is_turning self.now.stage }
    {
        matches!(self.step, Step::Turning)
    }

    /// Whether the gate is turned, and the next call syncs that.
    pub fn is_settling(&self) -> bool
        ensures { result ≡ is_settling self.now.stage }
    {
        matches!(self.step, Step::Settling)
    }
}
