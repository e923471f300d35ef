//! What a reclaim is, and its device calls.
ghost use Rattle.std.specs.Prelude.{◌≡◌, ◌++◌, ◌<◌, length, IsTrue, IfOk, OnErr};
ghost use Rattle.disk.specs.Calls.{Counts};
ghost use Rattle.status.specs.SlotCalls.{answer_of};
ghost use Rattle.log_store.specs.declared.reclaim.ReclaimStage.TheVariants as stages;
ghost use Rattle.log_store.specs.Gates.{is_turning, is_turned};
ghost use Rattle.log_store.specs.Values.{IsStageOnWay};
ghost use Rattle.log_store.specs.Reclaiming.{CallsExtents, CallsRoll, CallsAt, did_extents, did_roll, did_of_root, did_at, one_written, piece_written};
ghost use Rattle.log_store.specs.Reclaiming.{stage_behind, begins_turn, begins_roll, reclaim_behind};

use crate::job::JobDid;
use crate::named::Named;
use disk::{Area, DeviceFault, Disk};
use log_base::RollWriter;
use log_entries::Base;
use log_roots::{RootWriter, RootWrote, Roots};
use log_writer::ExtentsWriter;
use std::marker::Model;

/// How far a reclaim is.
#[derive(Drop)]
pub enum ReclaimStage {
    /// The extents of its anchors, and then those of its base, are in the writing. Once all are written they are synced.
    Writing {
        anchors: ExtentsWriter,
        base: ExtentsWriter,
    },
    /// Its roll is in the writing, and once all of it is written it is synced.
    Rolling(RollWriter),
    /// The status area is on its way to the root that names the base.
    Turning(RootWriter),
}

/// A base that takes the place of the log's first chains.
#[derive(Drop)]
pub struct Reclaim {
    // How many chains of the log it takes the place of.
    pub(crate) front: usize,
    // What it says, and its extents.
    pub(crate) base: Base,
    pub(crate) numbers: Vec<u32>,
    // The extents of the anchors that it names. It makes them, or they stand already.
    pub(crate) anchors: Vec<u32>,
    pub(crate) makes: bool,
    // What the log then names in the archive.
    pub(crate) named: Named,
    // The roll that it adds, if it adds one, until that is in the writing.
    pub(crate) roll: Option<RollWriter>,
    pub(crate) stage: ReclaimStage,
}

impl Model for Reclaim {
    ghost use Rattle.log_store.specs.Values.{ReclaimValue};

    ghost Value = { ReclaimValue };

    ghost view = { λ r. record {
      front = r.front;
      base = r.base;
      numbers = r.numbers.items;
      anchors = r.anchors.items;
      makes = r.makes;
      named = r.named;
      roll = r.roll;
      stage = r.stage;
    } };
}

// The next extent of the anchors is written, or else of the base, or all are synced.
fn write_extent<D: Disk>(
    anchors: &mut ExtentsWriter,
    base: &mut ExtentsWriter,
    disk: &mut D,
) -> Result<JobDid, DeviceFault>
    ensures call { IsTrue D.tells
        → CallsExtents (anchors.old.left ++ base.old.left) (answer_of result) (D.state disk.old).areas (D.state disk.new).areas }
    ensures counts { Counts result (D.state disk.old) (D.state disk.new) }
    ensures ok { IfOk result (λ did. (did ≡ did_extents (anchors.old.left ++ base.old.left))
        × (stages.Writing anchors.new base.new ≡ one_written anchors.old base.old anchors.old.left base.old.left)) }
    ensures err { OnErr result ((anchors.new ≡ anchors.old) × (base.new ≡ base.old)) }
{
    if !anchors.is_written() {
        anchors.write_next(disk)?;
        return Ok(JobDid::WroteExtent);
    }
    if !base.is_written() {
        base.write_next(disk)?;
        return Ok(JobDid::WroteExtent);
    }
    disk.sync(Area::Heap)?;
    Ok(JobDid::HeapSynced)
}

// The next piece of the roll is written, or all of it is synced.
fn write_roll<D: Disk>(roll: &mut RollWriter, disk: &mut D) -> Result<JobDid, DeviceFault>
    ensures call { IsTrue D.tells → CallsRoll roll.old.left roll.old (answer_of result) (D.state disk.old).areas (D.state disk.new).areas }
    ensures counts { Counts result (D.state disk.old) (D.state disk.new) }
    ensures ok { IfOk result (λ did. (did ≡ did_roll roll.old.left) × (stages.Rolling roll.new ≡ piece_written roll.old roll.old.left)) }
    ensures err { OnErr result (roll.new ≡ roll.old) }
{
    if roll.left() > 0 {
        roll.write_piece(disk)?;
        return Ok(JobDid::WroteRoll);
    }
    disk.sync(Area::Archive)?;
    Ok(JobDid::RollSynced)
}

// What a call of the status area did.
fn did_of_root(what: RootWrote) -> JobDid
    ensures { result ≡ did_of_root what }
{
    match what {
        RootWrote::Root => JobDid::RootWritten,
        RootWrote::RootSynced => JobDid::RootSynced,
        RootWrote::Turn => JobDid::TurnWritten,
        RootWrote::Settled => JobDid::JobDone,
    }
}

impl ReclaimStage {
    // The next device call. A refused one changes nothing here.
    fn make_call<D: Disk>(&mut self, disk: &mut D) -> Result<JobDid, DeviceFault>
        requires { IsStageOnWay self.old }
        ensures call { IsTrue D.tells → CallsAt self.old (answer_of result) (D.state disk.old).areas (D.state disk.new).areas }
        ensures counts { Counts result (D.state disk.old) (D.state disk.new) }
        ensures ok { IfOk result (λ did. (did ≡ did_at self.old) × (self.new ≡ stage_behind self.old)) }
        ensures err { OnErr result (self.new ≡ self.old) }
    {
        match self {
            ReclaimStage::Writing { anchors, base } => write_extent(anchors, base, disk),
            ReclaimStage::Rolling(roll) => write_roll(roll, disk),
            ReclaimStage::Turning(turn) => {
                let what = turn.advance(disk)?;
                Ok(did_of_root(what))
            }
        }
    }
}

impl Reclaim {
    /// Whether the next call turns the gate.
    pub(crate) fn is_turning(&self) -> bool
        ensures { result ≡ is_turning self.now.stage }
    {
        match &self.stage {
            ReclaimStage::Writing { .. } | ReclaimStage::Rolling(_) => false,
            ReclaimStage::Turning(turn) => turn.is_turning(),
        }
    }

    /// Whether the gate is turned, and the next call syncs that.
    pub(crate) fn is_turned(&self) -> bool
        ensures { result ≡ is_turned self.now.stage }
    {
        match &self.stage {
            ReclaimStage::Writing { .. } | ReclaimStage::Rolling(_) => false,
            ReclaimStage::Turning(turn) => turn.is_settling(),
        }
    }

    // The status area is to name the base.
    fn begin_turn(&mut self, roots: Roots)
        requires { 0 < length self.old.numbers }
        ensures { self.new ≡ begins_turn roots self.old }
    {
        let root = self.numbers[0];
        self.stage = ReclaimStage::Turning(RootWriter::new(roots, root));
    }

    // The roll is to be written, if there is one, and else the status area turns.
    fn begin_roll(&mut self, roots: Roots)
        requires { 0 < length self.old.numbers }
        ensures { self.new ≡ begins_roll roots self.old self.old.roll }
    {
        match self.roll.take() {
            None => self.begin_turn(roots),
            Some(roll) => self.stage = ReclaimStage::Rolling(roll),
        }
    }

    /// The next device call, by which the status area turns from these roots. A refused one changes nothing here.
    pub(crate) fn advance<D: Disk>(
        &mut self,
        roots: Roots,
        disk: &mut D,
    ) -> Result<JobDid, DeviceFault>
        requires on_its_way { IsStageOnWay self.old.stage }
        requires some { 0 < length self.old.numbers }
        ensures call { IsTrue D.tells → CallsAt self.old.stage (answer_of result) (D.state disk.old).areas (D.state disk.new).areas }
        ensures counts { Counts result (D.state disk.old) (D.state disk.new) }
        ensures ok { IfOk result (λ did. (did ≡ did_at self.old.stage) × (self.new ≡ reclaim_behind roots self.old self.old.stage)) }
        ensures err { OnErr result (self.new ≡ self.old) }
    {
        let did = self.stage.make_call(disk)?;
        match did {
            JobDid::HeapSynced => self.begin_roll(roots),
            JobDid::RollSynced => self.begin_turn(roots),
            _ => {}
        }
        Ok(did)
    }
}
