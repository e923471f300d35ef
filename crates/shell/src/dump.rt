//! The log of a store as text.
ghost use Rattle.std.specs.Prelude.{OnOk};
ghost use Rattle.std.specs.Io.KnownBytes.{Appends};
ghost use Rattle.session.specs.Texts.{Text};
ghost use Rattle.shell.specs.Dump.{Each, IsDump, IsMemberLine, IsSlotText, header_line};

use log_dump::{DumpFault, write_instant};
use status::Header;
use std::alloc::Global;
use std::io;
use std::io::Write;
use wire::{Body, Member, Slot};

/// Writes the line of a member of a commit's slot.
fn write_member<W: Write>(alloc: Global, output: &mut W, member: &Member) -> Result<(), DumpFault>
    ensures { OnOk result ((text : Text) × IsMemberLine member.now text × Appends (W.contents output.old) (W.contents output.new) text) }
{
    let Member {
        label,
        time,
        first,
        extents,
        records,
    } = *member;
    write!(output, "member {label} {time} {first} {extents} {records} ")?;
    write_instant(alloc, output, time)?;
    writeln!(output)?;
    Ok(())
}

fn write_members<W: Write>(
    alloc: Global,
    output: &mut W,
    members: &[Member],
) -> Result<(), DumpFault>
    ensures { OnOk result ((text : Text) × Each IsMemberLine members.now text × Appends (W.contents output.old) (W.contents output.new) text) }
{
    for member in members {
        write_member(alloc, output, member)?;
    }
    Ok(())
}

/// Writes the lines of a slot.
fn write_slot<W: Write>(alloc: Global, output: &mut W, slot: &Slot) -> Result<(), DumpFault>
    ensures { OnOk result ((text : Text) × IsSlotText slot.now text × Appends (W.contents output.old) (W.contents output.new) text) }
{
    let number = slot.number;
    match &slot.body {
        Body::Commit(members) => {
            writeln!(output, "slot {number} commit")?;
            write_members(alloc, output, members.as_slice())?;
        }
        Body::Archived(run) => writeln!(
            output,
            "slot {number} archived {} {} {} {}",
            run.upto, run.start, run.len, run.records
        )?,
        Body::Reclaimed(anchors) => writeln!(
            output,
            "slot {number} reclaimed {} {} {} {}",
            anchors.upto, anchors.first, anchors.extents, anchors.records
        )?,
        Body::Floor {
            relation: None,
            floor,
        } => writeln!(output, "slot {number} floor {floor}")?,
        Body::Floor {
            relation: Some(relation),
            floor,
        } => writeln!(output, "slot {number} floor {floor} relation {relation}")?,
    }
    Ok(())
}

fn write_slots<W: Write>(alloc: Global, output: &mut W, slots: &[Slot]) -> Result<(), DumpFault>
    ensures { OnOk result ((text : Text) × Each IsSlotText slots.now text × Appends (W.contents output.old) (W.contents output.new) text) }
{
    for slot in slots {
        write_slot(alloc, output, slot)?;
    }
    Ok(())
}

/// Writes how many slots the header names, and how many pieces of more are open where its profile has
/// pieces.
fn write_header<W: Write>(output: &mut W, header: &Header) -> io::Result<()>
    ensures { OnOk result (Appends (W.contents output.old) (W.contents output.new) (header_line header.now)) }
{
    if header.profile.has_pieces() {
        writeln!(output, "header {} pieces {}", header.slots, header.pieces)
    } else {
        writeln!(output, "header {}", header.slots)
    }
}

/// Writes what a log says: its header, each slot that is used, and how many are of how many.
pub fn write_dump<W: Write>(
    alloc: Global,
    output: &mut W,
    header: &Header,
    slots: &[Slot],
) -> Result<(), DumpFault>
    ensures { OnOk result ((text : Text) × IsDump header.now slots.now text × Appends (W.contents output.old) (W.contents output.new) text) }
{
    let all = header.total();
    write_header(output, header)?;
    write_slots(alloc, output, slots)?;
    writeln!(output, "used {} of {all}", slots.len())?;
    Ok(())
}
