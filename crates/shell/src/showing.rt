//! What is shown of a store that is not opened for it: what its log tells, and the log itself.
ghost use Rattle.std.specs.Prelude.{◌++◌, ◌⊎◌, IfOk};
ghost use Rattle.session.specs.Streams.{Says, is_output_refused, text_said};
ghost use Rattle.session.specs.Texts.{open_line};
ghost use Rattle.shell.specs.Acts.{Dumps, DumpsHeap, HasNoDump, DumpsByLayout, IsRefused, SaysDump, Tells, TellsHeap, HasNoInfo, TellsByLayout, told};
ghost use Rattle.shell.specs.Dump.{IsDump};

use crate::actions::{REFUSED, refuse, refuse_log, status_of};
use crate::dump::write_dump;
use any_store::OpenFault;
use disk::Disk;
use log_dump::{Dump, DumpFault, read_dump};
use log_facts::{info_text, read_heap_info};
use log_store::has_log_header;
use session::{Answers, Fault, Refused, Reply, write_reply};
use status::{Header, read_header, read_log};
use std::alloc::Global;
use std::io::Write;
use wire::Slot;

/// Says what the slots of a store tell, which is not opened for it.
fn info<D: Disk, W: Write>(alloc: Global, disk: D, json: bool, output: &mut Answers<W>) -> (u8, D)
    ensures { Tells D.tells (D.state disk) json (told W.contents result.0 output.old output.new) (D.state result.1) }
{
    let mut disk = disk;
    let header = match read_header(&mut disk) {
        Ok(header) => header,
        Err(fault) => return (refuse_log(output, fault), disk),
    };
    let slots = match read_log(alloc, &mut disk, &header) {
        Ok(slots) => slots,
        Err(fault) => return (refuse_log(output, fault), disk),
    };
    match info_text(alloc, json, &header, slots.as_slice()) {
        Ok(text) => (status_of(output.say(text.as_slice())), disk),
        Err(_) => (refuse(output, Fault::NoMemory), disk),
    }
}

/// Says what the log of a store tells that lies in the heap. The store is not opened for it.
fn info_of_heap<D: Disk, W: Write>(
    alloc: Global,
    disk: D,
    json: bool,
    output: &mut Answers<W>,
) -> (u8, D)
    ensures { TellsHeap D.tells (D.state disk) json (told W.contents result.0 output.old output.new) (D.state result.1)
        ⊎ HasNoInfo D.tells (D.state disk) (told W.contents result.0 output.old output.new) (D.state result.1) }
{
    let mut disk = disk;
    match read_heap_info(alloc, &mut disk, json) {
        Ok(text) => (status_of(output.say(text.as_slice())), disk),
        Err(fault) => (refuse(output, Fault::Open(fault)), disk),
    }
}

/// Says what the log of a store tells.
pub(crate) fn info_by_layout<D: Disk, W: Write>(
    alloc: Global,
    disk: D,
    json: bool,
    output: &mut Answers<W>,
) -> (u8, D)
    ensures { TellsByLayout D.tells (D.state disk) json (told W.contents result.0 output.old output.new) (D.state result.1) }
{
    let mut disk = disk;
    match has_log_header(&mut disk) {
        Ok(false) => info(alloc, disk, json, output),
        Ok(true) => info_of_heap(alloc, disk, json, output),
        Err(_) => (refuse(output, Fault::Open(OpenFault::Device)), disk),
    }
}

/// The text of a log. It is made whole before any of it is said, so that no refusal follows a part of it.
fn dump_text(alloc: Global, header: &Header, slots: &[Slot]) -> Result<Vec<u8>, DumpFault>
    ensures { IfOk result (λ text. IsDump header.now slots.now text.items) }
{
    let mut text = Vec::new(alloc);
    write_dump(alloc, &mut text, header, slots)?;
    Ok(text)
}

/// Writes the slots of a store, which is not opened for it.
fn dump<D: Disk, W: Write>(alloc: Global, disk: D, output: &mut Answers<W>) -> (u8, D)
    ensures { Dumps D.tells (D.state disk) (told W.contents result.0 output.old output.new) (D.state result.1) }
{
    let mut disk = disk;
    let header = match read_header(&mut disk) {
        Ok(header) => header,
        Err(fault) => return (refuse_log(output, fault), disk),
    };
    let slots = match read_log(alloc, &mut disk, &header) {
        Ok(slots) => slots,
        Err(fault) => return (refuse_log(output, fault), disk),
    };
    match dump_text(alloc, &header, slots.as_slice()) {
        Ok(text) => (status_of(output.say(text.as_slice())), disk),
        Err(_) => (refuse(output, Fault::NoMemory), disk),
    }
}

/// Says a text, and after it why no more of it is said.
fn say_cut_off<W: Write>(
    output: &mut Answers<W>,
    text: &[u8],
    fault: OpenFault,
) -> Result<(), Refused>
    ensures { Says (text_said W.contents output.old) (text.now ++ open_line fault) result (text_said W.contents output.new) (is_output_refused output.new) }
{
    match output.say(text) {
        Ok(()) => write_reply(output, &Reply::Refused(Fault::Open(fault))),
        Err(refused) => Err(refused),
    }
}

/// As much of it as the output takes. The program's status is 1.
fn refuse_behind<W: Write>(output: &mut Answers<W>, text: &[u8], fault: OpenFault) -> u8
    ensures { IsRefused (told W.contents result output.old output.new) (text.now ++ open_line fault) }
{
    let _ = say_cut_off(output, text, fault);
    REFUSED
}

/// Says what is shown of a log, and after it the check that fails.
fn tell_dump<W: Write>(output: &mut Answers<W>, dump: &Dump) -> u8
    ensures { SaysDump dump.now (told W.contents result output.old output.new) }
{
    match dump.fault {
        None => status_of(output.say(dump.text.as_slice())),
        Some(fault) => refuse_behind(output, dump.text.as_slice(), fault),
    }
}

/// Writes what is shown of the log of a store that lies in the heap. The store is not opened for it.
fn dump_of_heap<D: Disk, W: Write>(alloc: Global, disk: D, output: &mut Answers<W>) -> (u8, D)
    ensures { DumpsHeap D.tells (D.state disk) (told W.contents result.0 output.old output.new) (D.state result.1)
        ⊎ HasNoDump D.tells (D.state disk) (told W.contents result.0 output.old output.new) (D.state result.1) }
{
    let mut disk = disk;
    match read_dump(alloc, &mut disk) {
        Ok(dump) => (tell_dump(output, &dump), disk),
        Err(fault) => (refuse(output, Fault::Open(fault)), disk),
    }
}

/// Writes the log of a store.
pub(crate) fn dump_by_layout<D: Disk, W: Write>(
    alloc: Global,
    disk: D,
    output: &mut Answers<W>,
) -> (u8, D)
    ensures { DumpsByLayout D.tells (D.state disk) (told W.contents result.0 output.old output.new) (D.state result.1) }
{
    let mut disk = disk;
    match has_log_header(&mut disk) {
        Ok(false) => dump(alloc, disk, output),
        Ok(true) => dump_of_heap(alloc, disk, output),
        Err(_) => (refuse(output, Fault::Open(OpenFault::Device)), disk),
    }
}
