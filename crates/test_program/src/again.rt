//! What goes on behind a stop, and is stopped again at each device call.
use crate::bytes::has_bytes;
use crate::machine::Machine;
use crate::stopped::{Gates, OPEN, dialogue_of, fillings, gates_behind, is_call};
use crate::text::script_of;
use crate::write_sets::Written;
use disk::Area;

/// A dialogue behind a stop.
#[derive(Clone, Copy)]
pub struct Again {
    /// The dialogue's parts, as `repeated` has them.
    pub parts: &'static [(&'static str, u32)],
    /// The records that are asked for.
    pub records: &'static [u32],
    /// What is published once so many gates of the dialogue stand open.
    pub fronts: &'static [&'static [Written]],
    /// The place and the bytes of its last slot.
    pub slot: (usize, &'static str),
}

/// What of the commits beside an archive is published at a stop.
#[derive(Clone, Copy)]
pub enum Reached {
    Nothing,
    One,
    Two,
    Three,
    /// Three, and the archive.
    Archive,
    Four,
    All,
}

/// How a line ends whose step writes a gate.
const GATE: Option<&str> = Some("| gate written");

/// Whether what a stop leaves, with each filling of what is torn, answers by its gates. Where it does not,
/// what was said there was said last; so it is of those below.
fn each_left_has(machine: &mut Machine, again: &Again, gates: Gates) -> bool {
    for torn in fillings(machine) {
        let has = match again.fronts.get(gates.left_open(torn.0)) {
            Some(writes) => machine.left_has(*torn, again.records, writes),
            None => false,
        };
        if !has {
            return false;
        }
    }
    true
}

/// A stop behind so many lines of the dialogue. Behind a write it leaves what it leaves within it: any
/// bytes in the place that was written.
fn stops_behind(machine: &mut Machine, again: &Again, dialogue: &str, lines: usize) -> bool {
    let Ok(script) = script_of(machine.alloc, dialogue, lines) else {
        return false;
    };
    let Some(mut next) = machine.left((OPEN, 0)) else {
        return false;
    };
    let gates = gates_behind(dialogue, (lines, lines), GATE);
    let goes = next.ends(script.as_str()) && each_left_has(&mut next, again, gates);
    if !goes {
        *machine = next;
    }
    goes
}

/// Whether the whole dialogue is answered and leaves its last slot.
fn ends_whole(machine: &mut Machine, again: &Again) -> bool {
    let Some(mut whole) = machine.left((OPEN, 0)) else {
        return false;
    };
    let (place, bytes) = again.slot;
    let slot = (Area::Status, place, bytes);
    let ends = whole.converses(again.parts)
        && has_bytes(machine.alloc, &mut whole.disk, slot, machine.profile);
    if !ends {
        *machine = whole;
    }
    ends
}

/// Whether a stop at each call of the dialogue, on this disk, leaves what it must.
pub fn stops_at_each(machine: &mut Machine, again: &Again) -> bool {
    let Ok(dialogue) = dialogue_of(machine.alloc, again.parts) else {
        return false;
    };
    let lines = dialogue.lines.as_str();
    for (number, line) in lines.lines().enumerate() {
        if is_call(line) && !stops_behind(machine, again, lines, number.saturating_add(1)) {
            return false;
        }
    }
    ends_whole(machine, again)
}
