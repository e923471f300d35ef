//! The text of a log.
ghost use Rattle.std.specs.Prelude.{◌≡◌, IsTrue, IfOk, IfErr, OnOk};
ghost use Rattle.std.specs.Io.KnownBytes.{Appends};
ghost use Rattle.recovery.specs.Answers.{after_reads};
ghost use Rattle.log_shown.specs.Shown.{IsShownFault};
ghost use Rattle.log_dump.specs.Dump.{Text, IsDumpText, end_text, fault_of};
ghost use Rattle.log_dump.specs.Dumped.{IsDumpOf};

use crate::lines::{DumpFault, write_items};
use disk::{Area, Disk};
use log_shown::{LogShown, ShownEnd, read_shown};
use recovery::OpenFault;
use std::alloc::Global;
use std::io;
use std::io::Write;

/// The log of a store as text.
#[derive(Drop)]
pub struct Dump {
    /// A line for the header and each thing that the log says, up to the first check of opening that fails; if none
    /// does, where the log goes on, and how many extents are in use.
    pub text: Vec<u8>,
    /// The check that fails.
    pub fault: Option<OpenFault>,
}

// Writes where a log goes on, and how many extents are in use of so many. Of one that fails a check it writes nothing.
fn write_end<W: Write>(output: &mut W, most: u32, end: &ShownEnd) -> io::Result<()>
    ensures { OnOk result (Appends (W.contents output.old) (W.contents output.new) (end_text most end.now)) }
{
    match *end {
        ShownEnd::Right(extents) => {
            writeln!(output, "next {}", extents.next)?;
            writeln!(output, "used {} of {most}", extents.used)?;
        }
        ShownEnd::Damaged(_) => {}
    }
    Ok(())
}

/// Writes what is shown of a log: its header, what it says, and where it goes on if all is right.
pub fn write_dump<W: Write>(
    alloc: Global,
    output: &mut W,
    shown: &LogShown,
) -> Result<(), DumpFault>
    ensures { OnOk result ((text : Text) × IsDumpText shown.now text × Appends (W.contents output.old) (W.contents output.new) text) }
{
    let most = shown.roots.extents;
    let root = shown.roots.root();
    writeln!(output, "header extents {most} root {root}")?;
    write_items(alloc, output, shown.items.as_slice())?;
    write_end(output, most, &shown.end)?;
    Ok(())
}

// The text of what is shown of a log.
fn dump_text(alloc: Global, shown: &LogShown) -> Result<Vec<u8>, DumpFault>
    ensures { IfOk result (λ text. IsDumpText shown.now text.items) }
{
    let mut text = Vec::new(alloc);
    write_dump(alloc, &mut text, shown)?;
    Ok(text)
}

// The check that fails.
fn fault_of(end: &ShownEnd) -> Option<OpenFault>
    ensures { result ≡ fault_of end.now }
{
    match *end {
        ShownEnd::Right(_) => None,
        ShownEnd::Damaged(place) => Some(OpenFault::Damaged(Area::Heap, place)),
    }
}

/// The text of the log of a store, which is not opened: it only reads the header and the heap.
///
/// # Errors
///
/// `NotAStore` where there is no header of a store whose log lies in the heap; `Device` where the disk refused a read;
/// `NoMemory`.
pub fn read_dump<D: Disk>(alloc: Global, disk: &mut D) -> Result<Dump, OpenFault>
    ensures dump { IfOk result (IsDumpOf D.tells (D.state disk.old).areas.status.bytes (D.state disk.old).areas.heap.bytes) }
    ensures fault { IsTrue D.tells → IfErr result (IsShownFault (D.state disk.old).areas.status.bytes) }
    ensures reads { D.state disk.new ≡ after_reads result (D.state disk.old) }
{
    let shown = match read_shown(alloc, disk) {
        Ok(shown) => shown,
        Err(fault) => return Err(fault),
    };
    match dump_text(alloc, &shown) {
        Ok(text) => Ok(Dump {
            text,
            fault: fault_of(&shown.end),
        }),
        Err(_) => Err(OpenFault::NoMemory),
    }
}
