//! The texts of answers.
ghost use Rattle.std.specs.Prelude.{◌≡◌, ◌++◌, codes, Some, OnOk};
ghost use Rattle.std.specs.Io.KnownBytes.{Appends};
ghost use Rattle.std.specs.Fmt.{decimal};
ghost use Rattle.session.specs.Texts as told;

use crate::digits::spell_hex;
use crate::fault::Fault;
use any_store::{
    BeginFault, Did, FormatFault, JobDid, OpenFault, PumpFault, QueryFault, SharedValue,
    StartFault, SubmitFault, TxnFault,
};
use disk::Area;
use history::Version;
use itoa::Buffer;
use std::alloc::AllocError;
use std::io;
use std::io::Write;

/// Spells a field: its bytes in hexadecimal, the empty field as `-`.
fn spell_field(text: &mut Vec<u8>, field: &[u8]) -> Result<(), AllocError>
    ensures { OnOk result (Appends (Some text.old.items) (Some text.new.items) (told.field_text field.now)) }
{
    if field.is_empty() {
        text.push(b'-')?;
        return Ok(());
    }
    spell_hex(text, field)
}

/// Spells a value's fields, each after a space.
fn spell_fields(text: &mut Vec<u8>, value: &SharedValue) -> Result<(), AllocError>
    ensures { OnOk result (Appends (Some text.old.items) (Some text.new.items) (told.fields_text value.now)) }
{
    let mut left = value.value().iter();
    while let Some(field) = left.take_field() {
        text.push(b' ')?;
        spell_field(text, field)?;
    }
    Ok(())
}

/// Spells the line of a value.
pub fn spell_value(text: &mut Vec<u8>, value: &SharedValue) -> Result<(), AllocError>
    ensures { OnOk result (Appends (Some text.old.items) (Some text.new.items) (told.value_text value.now)) }
{
    text.extend_from_slice(b"value")?;
    spell_fields(text, value)?;
    text.push(b'\n')?;
    Ok(())
}

/// Spells a number in decimal.
fn spell_number(text: &mut Vec<u8>, number: u64) -> Result<(), AllocError>
    ensures { OnOk result (Appends (Some text.old.items) (Some text.new.items) (decimal number)) }
{
    text.extend_from_slice(Buffer::new().format(number).as_bytes())
}

/// Spells numbers, each after a space.
fn spell_numbers(text: &mut Vec<u8>, numbers: &[u64]) -> Result<(), AllocError>
    ensures { OnOk result (Appends (Some text.old.items) (Some text.new.items) (told.numbers_text numbers.now)) }
{
    for number in numbers {
        text.push(b' ')?;
        spell_number(text, *number)?;
    }
    Ok(())
}

/// Spells the line of times.
pub fn spell_times(text: &mut Vec<u8>, times: &[u64]) -> Result<(), AllocError>
    ensures { OnOk result (Appends (Some text.old.items) (Some text.new.items) (told.times_text times.now)) }
{
    text.extend_from_slice(b"times")?;
    spell_numbers(text, times)?;
    text.push(b'\n')?;
    Ok(())
}

/// Spells a row's line: from when on and up to when the value was valid, and its fields.
pub fn spell_row(text: &mut Vec<u8>, row: &Version<SharedValue>) -> Result<(), AllocError>
    ensures { OnOk result (Appends (Some text.old.items) (Some text.new.items) (told.row_text row.now)) }
{
    spell_number(text, row.from)?;
    text.push(b' ')?;
    spell_number(text, row.to)?;
    spell_fields(text, &row.value)?;
    text.push(b'\n')?;
    Ok(())
}

/// Spells the line of a record and its value.
pub fn spell_record(text: &mut Vec<u8>, found: &(u64, SharedValue)) -> Result<(), AllocError>
    ensures { OnOk result (Appends (Some text.old.items) (Some text.new.items) (told.record_text found.now)) }
{
    spell_number(text, found.0)?;
    spell_fields(text, &found.1)?;
    text.push(b'\n')?;
    Ok(())
}

/// Spells how many lines came before.
pub fn spell_count(text: &mut Vec<u8>, count: usize) -> Result<(), AllocError>
    ensures { OnOk result (Appends (Some text.old.items) (Some text.new.items) (told.rows_line count)) }
{
    text.extend_from_slice(b"rows ")?;
    spell_number(text, count as u64)?;
    text.push(b'\n')?;
    Ok(())
}

/// Spells a line that ends with a number.
pub fn spell_numbered(text: &mut Vec<u8>, words: &str, number: u64) -> Result<(), AllocError>
    ensures { OnOk result (Appends (Some text.old.items) (Some text.new.items) (words.now ++ (decimal number ++ codes "\n"))) }
{
    text.extend_from_slice(words.as_bytes())?;
    spell_number(text, number)?;
    text.push(b'\n')?;
    Ok(())
}

/// Spells the line that says that a line of a script has no form.
pub fn spell_bad_line(text: &mut Vec<u8>, number: u64) -> Result<(), AllocError>
    ensures { OnOk result (Appends (Some text.old.items) (Some text.new.items) (told.bad_line number)) }
{
    text.extend_from_slice(b"line ")?;
    spell_number(text, number)?;
    text.extend_from_slice(b": bad\n")
}

/// Writes words and the end of their line.
pub fn write_words<W: Write>(output: &mut W, words: &str) -> io::Result<()>
    ensures { OnOk result (Appends (W.contents output.old) (W.contents output.new) (words.now ++ codes "\n")) }
{
    writeln!(output, "{words}")
}

/// Writes the line of a step.
pub fn write_step<W: Write>(output: &mut W, step: Did) -> io::Result<()>
    ensures { OnOk result (Appends (W.contents output.old) (W.contents output.new) (told.step_text step)) }
{
    match step {
        Did::Idle => write_words(output, "idle"),
        Did::WroteExtent => write_words(output, "wrote extent"),
        Did::GateClosed => write_words(output, "gate closed"),
        Did::HeapSynced => write_words(output, "heap synced"),
        Did::BodyWritten => write_words(output, "body written"),
        Did::BodySynced => write_words(output, "body synced"),
        Did::GateWritten => write_words(output, "gate written"),
        Did::Published(count) => writeln!(output, "published {count}"),
    }
}

fn job_step_words(step: JobDid) -> &'static str
    ensures { told.job_step_text step ≡ result.now ++ codes "\n" }
{
    match step {
        JobDid::Idle => "idle",
        JobDid::WroteRun => "wrote run",
        JobDid::RunSynced => "run synced",
        JobDid::WroteExtent => "wrote extent",
        JobDid::HeapSynced => "heap synced",
        JobDid::WroteZeros => "wrote zeros",
        JobDid::ZerosSynced => "zeros synced",
        JobDid::BodyWritten => "body written",
        JobDid::BodySynced => "body synced",
        JobDid::WroteEntry => "wrote entry",
        JobDid::GateClosed => "gate closed",
        JobDid::WroteRoll => "wrote roll",
        JobDid::RollSynced => "roll synced",
        JobDid::RootWritten => "root written",
        JobDid::RootSynced => "root synced",
        JobDid::TurnWritten => "turn written",
        JobDid::GateWritten => "gate written",
        JobDid::JobDone => "job done",
    }
}

/// Writes the line of a step of a job.
pub fn write_job_step<W: Write>(output: &mut W, step: JobDid) -> io::Result<()>
    ensures { OnOk result (Appends (W.contents output.old) (W.contents output.new) (told.job_step_text step)) }
{
    write_words(output, job_step_words(step))
}

fn begin_text(fault: BeginFault) -> &'static str
    ensures { result.now ≡ told.begin_text fault }
{
    match fault {
        BeginFault::NoMemory => "no memory",
        BeginFault::Failed => "failed",
    }
}

fn txn_text(fault: TxnFault) -> &'static str
    ensures { result.now ≡ told.txn_text fault }
{
    match fault {
        TxnFault::Missing => "missing",
        TxnFault::TooManyKeys => "too many keys",
        TxnFault::BadValue => "bad value",
        TxnFault::NoMemory => "no memory",
    }
}

fn pump_text(fault: PumpFault) -> &'static str
    ensures { result.now ≡ told.pump_text fault }
{
    match fault {
        PumpFault::Busy => "busy",
        PumpFault::NoMemory => "no memory",
        PumpFault::Failed => "failed",
    }
}

fn format_text(fault: FormatFault) -> &'static str
    ensures { result.now ≡ told.format_text fault }
{
    match fault {
        FormatFault::BadSlots => "bad slots",
        FormatFault::Occupied => "occupied",
        FormatFault::Device => "device",
        FormatFault::NoMemory => "no memory",
    }
}

/// Writes the line of a refusal by its words.
fn write_refused<W: Write>(output: &mut W, words: &str) -> io::Result<()>
    ensures { OnOk result (Appends (W.contents output.old) (W.contents output.new) (told.refused words.now)) }
{
    writeln!(output, "refused: {words}")
}

/// Writes the line of a refusal by its words and a number.
fn write_refused_number<W: Write>(output: &mut W, words: &str, number: u64) -> io::Result<()>
    ensures { OnOk result (Appends (W.contents output.old) (W.contents output.new)
        (codes "refused: " ++ (words.now ++ (codes " " ++ (decimal number ++ codes "\n"))))) }
{
    writeln!(output, "refused: {words} {number}")
}

fn write_damage<W: Write>(output: &mut W, area: Area, place: u64) -> io::Result<()>
    ensures { OnOk result (Appends (W.contents output.old) (W.contents output.new) (told.damage_line area place)) }
{
    match area {
        Area::Status => write_refused_number(output, "damaged status", place),
        Area::Heap => write_refused_number(output, "damaged heap", place),
        Area::Archive => write_refused_number(output, "damaged archive", place),
    }
}

fn write_submit_fault<W: Write>(output: &mut W, fault: SubmitFault) -> io::Result<()>
    ensures { OnOk result (Appends (W.contents output.old) (W.contents output.new) (told.submit_line fault)) }
{
    match fault {
        SubmitFault::Conflict(key) => {
            writeln!(output, "refused: conflict {} {}", key.relation, key.record)
        }
        SubmitFault::HeapFull => write_refused(output, "heap full"),
        SubmitFault::StatusFull => write_refused(output, "status full"),
        SubmitFault::ClockEnd => write_refused(output, "clock end"),
        SubmitFault::NoMemory => write_refused(output, "no memory"),
        SubmitFault::Failed => write_refused(output, "failed"),
        SubmitFault::Stranger => write_refused(output, "stranger"),
    }
}

fn write_start_fault<W: Write>(output: &mut W, fault: StartFault) -> io::Result<()>
    ensures { OnOk result (Appends (W.contents output.old) (W.contents output.new) (told.start_line fault)) }
{
    match fault {
        StartFault::Failed => write_refused(output, "failed"),
        StartFault::WrongProfile => write_refused(output, "wrong profile"),
        StartFault::JobBusy => write_refused(output, "job busy"),
        StartFault::NothingToDo => write_refused(output, "nothing to do"),
        StartFault::NotYet(last) => write_refused_number(output, "not yet", last),
        StartFault::InUse(oldest) => write_refused_number(output, "in use", oldest),
        StartFault::StatusFull => write_refused(output, "status full"),
        StartFault::HeapFull => write_refused(output, "heap full"),
        StartFault::ArchiveFull => write_refused(output, "archive full"),
        StartFault::NoMemory => write_refused(output, "no memory"),
        StartFault::NotGrowable => write_refused(output, "not growable"),
    }
}

fn write_query_fault<W: Write>(output: &mut W, fault: QueryFault) -> io::Result<()>
    ensures { OnOk result (Appends (W.contents output.old) (W.contents output.new) (told.query_line fault)) }
{
    match fault {
        QueryFault::BeforeKept(floor) => write_refused_number(output, "before kept", floor),
        QueryFault::NotYet(last) => write_refused_number(output, "not yet", last),
        QueryFault::EmptyInterval => write_refused(output, "empty interval"),
        QueryFault::Device => write_refused(output, "device"),
        QueryFault::NoMemory => write_refused(output, "no memory"),
        QueryFault::Damaged(start) => write_refused_number(output, "damaged archive", start),
        QueryFault::NeedsDisk => write_refused(output, "needs disk"),
        QueryFault::Stranger => write_refused(output, "stranger"),
    }
}

fn write_open_fault<W: Write>(output: &mut W, fault: OpenFault) -> io::Result<()>
    ensures { OnOk result (Appends (W.contents output.old) (W.contents output.new) (told.open_line fault)) }
{
    match fault {
        OpenFault::NotAStore => write_refused(output, "not a store"),
        OpenFault::Damaged(area, place) => write_damage(output, area, place),
        OpenFault::Device => write_refused(output, "device"),
        OpenFault::NoMemory => write_refused(output, "no memory"),
    }
}

/// Writes the line of a refusal.
pub fn write_refusal<W: Write>(output: &mut W, fault: Fault) -> io::Result<()>
    ensures { OnOk result (Appends (W.contents output.old) (W.contents output.new) (told.refusal_line fault)) }
{
    match fault {
        Fault::Name => write_refused(output, "name"),
        Fault::Time => write_refused(output, "bad time"),
        Fault::NoMemory => write_refused(output, "no memory"),
        Fault::Stranger => write_refused(output, "stranger"),
        Fault::Begin(fault) => write_refused(output, begin_text(fault)),
        Fault::Txn(fault) => write_refused(output, txn_text(fault)),
        Fault::Submit(fault) => write_submit_fault(output, fault),
        Fault::Pump(fault) => write_refused(output, pump_text(fault)),
        Fault::Start(fault) => write_start_fault(output, fault),
        Fault::Query(fault) => write_query_fault(output, fault),
        Fault::Open(fault) => write_open_fault(output, fault),
        Fault::Format(fault) => write_refused(output, format_text(fault)),
    }
}
