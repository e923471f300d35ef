//! Scripts of which a call of the disk is refused, or at which the machine stops: what came of one, and how
//! many gates stand open in what is left.
use crate::machine::{Machine, SCRIPT};
use crate::text::{are_answers, behind_answers, repeated, script_of};
use disk::{Area, Disk, Fault};
use std::alloc::{AllocError, Global};

/// The byte of an open gate.
pub const OPEN: u8 = 0xC7;

/// What torn places may hold, and how many such bytes behind the end.
const TORN: &[(u8, usize)] = &[
    (0x00, 0),
    (0x00, 700),
    (OPEN, 0),
    (OPEN, 700),
    (0xFF, 0),
    (0xFF, 700),
];

/// The one filling of a disk of which nothing is torn: no stop changes it.
const SETTLED: &[(u8, usize)] = &[(OPEN, 0)];

/// What a refused step says, and so do the writing steps behind it.
const REFUSED: &str = "refused: failed\n";

/// A dialogue as text, and its script.
#[derive(Drop)]
pub struct Dialogue {
    pub lines: String,
    script: String,
}

/// A dialogue of parts, as `repeated` has them.
pub fn dialogue_of(alloc: Global, parts: &[(&str, u32)]) -> Result<Dialogue, AllocError> {
    let lines = repeated(alloc, parts)?;
    let script = script_of(alloc, lines.as_str(), usize::MAX)?;
    Ok(Dialogue { lines, script })
}

/// How many gates stand open.
#[derive(Clone, Copy)]
pub struct Gates {
    /// Those that are synced.
    synced: usize,
    /// Those that are written.
    pub written: usize,
}

impl Gates {
    /// Those that a stop leaves open which has this byte in each torn place.
    pub fn left_open(self, fill: u8) -> usize {
        if fill == OPEN {
            self.written
        } else {
            self.synced
        }
    }
}

/// Whether a line's step writes a gate that is counted: where it ends so.
fn is_gate(line: &str, gate: Option<&str>) -> bool {
    match gate {
        Some(ending) => line.ends_with(ending),
        None => false,
    }
}

/// Whether a line's step makes a call of the disk.
pub fn is_call(line: &str) -> bool {
    let is_step = line.starts_with("pump | ") || line.starts_with("job | ");
    is_step && !line.ends_with(" busy") && !line.ends_with(" idle")
}

/// Whether this line's step syncs the log.
fn is_log_sync(line: &str) -> bool {
    let is_step = line.ends_with("body synced") || line.ends_with("zeros synced");
    is_step || line.ends_with("job done") || line.contains("| published ")
}

/// The gates behind so many lines of a dialogue. Of more lines the steps have begun.
pub fn gates_behind(dialogue: &str, (lines, begun): (usize, usize), gate: Option<&str>) -> Gates {
    let (mut synced, mut written): (usize, usize) = (0, 0);
    for (number, line) in dialogue.lines().take(begun).enumerate() {
        if is_gate(line, gate) {
            written = written.saturating_add(1);
        }
        if number < lines && is_log_sync(line) {
            synced = written;
        }
    }
    Gates { synced, written }
}

/// How many lines were answered before a step was refused.
fn answered(said: &str) -> usize {
    match said.split_once(REFUSED) {
        Some((before, _)) => before.lines().count(),
        None => said.lines().count(),
    }
}

/// The gates where a step of the dialogue was refused, or behind all of it.
pub fn gates_of(machine: &Machine, dialogue: &Dialogue, gate: Option<&str>) -> Gates {
    let lines = answered(machine.said());
    gates_behind(
        dialogue.lines.as_str(),
        (lines, lines.saturating_add(1)),
        gate,
    )
}

/// How many bytes a stop may leave, with so many behind each end that is torn.
fn size_left(machine: &Machine, tail: usize) -> Option<u64> {
    let mut left = machine.left((OPEN, tail))?;
    let status = left.disk.len(Area::Status).ok()?;
    let heap = left.disk.len(Area::Heap).ok()?;
    let archive = left.disk.len(Area::Archive).ok()?;
    Some(status.saturating_add(heap).saturating_add(archive))
}

/// Each filling of what is torn. Where all is synced nothing is.
pub fn fillings(machine: &Machine) -> &'static [(u8, usize)] {
    if size_left(machine, 0) == size_left(machine, 1) {
        SETTLED
    } else {
        TORN
    }
}

/// What came of a script of which a call is refused.
#[derive(Clone, Copy)]
pub enum Came {
    /// The store was not opened.
    Unopened,
    /// A step was refused.
    Failed,
    /// No call was refused.
    Whole,
    /// Something did not come as it must.
    Wrong,
}

/// Whether the script is answered as the dialogue says, and from the refused step on with what a failed
/// store says, in as many lines. Where that is nothing, a stop says it no one.
fn is_failed(machine: &Machine, dialogue: &str, failed: &str) -> bool {
    let said = machine.said();
    let is_long = failed == "" || said.lines().count() == dialogue.lines().count();
    match behind_answers(said, dialogue, answered(said), machine.profile) {
        Some(rest) => is_long && rest.starts_with(REFUSED) && rest.ends_with(failed),
        None => false,
    }
}

/// What came of it, by what was said.
fn what_came(machine: &Machine, dialogue: &str, failed: &str) -> Came {
    if machine.said() == "refused: device\n" {
        Came::Unopened
    } else if are_answers(machine.said(), dialogue, machine.profile) {
        Came::Whole
    } else if is_failed(machine, dialogue, failed) {
        Came::Failed
    } else {
        Came::Wrong
    }
}

/// Runs the script of a dialogue on the disk, of which a call is refused. From there on a failed store ends
/// with these lines.
pub fn refuses(machine: &mut Machine, dialogue: &Dialogue, failed: &str, fault: Fault) -> Came {
    if !machine.stops(OPEN, fault) {
        return Came::Wrong;
    }
    machine.does(SCRIPT, dialogue.script.as_str());
    if machine.disk.ran_short() {
        Came::Wrong
    } else {
        what_came(machine, dialogue.lines.as_str(), failed)
    }
}
