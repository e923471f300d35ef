//! Lines of a dump.
ghost use Rattle.std.specs.Prelude.{OnOk};
ghost use Rattle.std.specs.Io.KnownBytes.{Appends};
ghost use Rattle.log_dump.specs.Dump.{Text, Each, IsInstant, IsCommitLine, IsItemText};

use clock::show_instant;
use log_shown::LogItem;
use std::alloc::{AllocError, Global};
use std::io;
use std::io::Write;

/// Why a log is not written as text. Some of it may have been written.
#[derive(Debug, Drop)]
pub enum DumpFault {
    /// The writer refused.
    OutputRefused,
    /// There was no memory for the text of an instant.
    NoMemory,
}

impl From<io::Error> for DumpFault {
    fn from(_: io::Error) -> Self {
        DumpFault::OutputRefused
    }
}

impl From<AllocError> for DumpFault {
    fn from(_: AllocError) -> Self {
        DumpFault::NoMemory
    }
}

/// Writes the instant of a time in microseconds since 1970, or `-` after the year 9999.
pub fn write_instant<W: Write>(alloc: Global, output: &mut W, time: u64) -> Result<(), DumpFault>
    ensures { OnOk result ((text : Text) × IsInstant time text × Appends (W.contents output.old) (W.contents output.new) text) }
{
    match show_instant(alloc, time)? {
        Some(text) => output.write_all(text.as_bytes())?,
        None => output.write_all(b"-")?,
    }
    Ok(())
}

// Writes the line of a commit of a group.
fn write_commit<W: Write>(
    alloc: Global,
    output: &mut W,
    label: u64,
    time: u64,
    records: usize,
) -> Result<(), DumpFault>
    ensures { OnOk result ((text : Text) × IsCommitLine label time records text × Appends (W.contents output.old) (W.contents output.new) text) }
{
    write!(output, "member {label} {time} {records} ")?;
    write_instant(alloc, output, time)?;
    writeln!(output)?;
    Ok(())
}

// Writes the line of one thing that a log says.
fn write_item<W: Write>(alloc: Global, output: &mut W, item: &LogItem) -> Result<(), DumpFault>
    ensures { OnOk result ((text : Text) × IsItemText item.now text × Appends (W.contents output.old) (W.contents output.new) text) }
{
    match *item {
        LogItem::Base {
            head,
            upto,
            anchors,
        } => writeln!(
            output,
            "chain {head} base {upto} {} {} {}",
            anchors.first, anchors.extents, anchors.records
        )?,
        LogItem::BaseRoll(roll) => writeln!(output, "roll {} {}", roll.start, roll.len)?,
        LogItem::BaseRun(run) => writeln!(
            output,
            "archived {} {} {} {} 0",
            run.upto, run.start, run.len, run.records
        )?,
        LogItem::BaseFloor(floor) => {
            writeln!(output, "floor {} relation {}", floor.floor, floor.relation)?
        }
        LogItem::Group { head, extents } => {
            writeln!(output, "chain {head} commits extents {extents}")?
        }
        LogItem::Commit {
            label,
            time,
            records,
        } => write_commit(alloc, output, label, time, records)?,
        LogItem::Run { head, run } => writeln!(
            output,
            "chain {head} archived {} {} {} {} {}",
            run.upto, run.start, run.len, run.records, run.runs
        )?,
        LogItem::Floor { head, floor } => writeln!(
            output,
            "chain {head} floor {} relation {}",
            floor.floor, floor.relation
        )?,
    }
    Ok(())
}

/// Writes a line for each thing that a log says.
pub(crate) fn write_items<W: Write>(
    alloc: Global,
    output: &mut W,
    items: &[LogItem],
) -> Result<(), DumpFault>
    ensures { OnOk result ((text : Text) × Each IsItemText items.now text × Appends (W.contents output.old) (W.contents output.new) text) }
{
    for item in items {
        write_item(alloc, output, item)?;
    }
    Ok(())
}
