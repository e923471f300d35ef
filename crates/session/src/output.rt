//! Where the answers go.
ghost use Rattle.std.specs.Prelude.{◌≡◌, false, true, OnErr, OnOk, MatchResult, ◌++◌, codes};
ghost use Rattle.std.specs.Io.KnownBytes.{Appends, Keeps};
ghost use Rattle.std.specs.Fmt.{decimal};
ghost use Rattle.std.specs.List.{flat_map};
ghost use Rattle.session.specs.Streams.{AppendsFront, Says, Writes, is_output_refused, text_said, text_spelled};
ghost use Rattle.session.specs.Texts as told;

use crate::refused::Refused;
use crate::reply::{Reply, spell_line};
use crate::text::{spell_bad_line, spell_count, spell_numbered, spell_record, spell_row};
use any_store::SharedValue;
use history::Version;
use std::alloc::Global;
use std::io::{ErrorKind, Write};

/// Writes a first part of a text, and says what is left of it. Of none where the writer was
/// interrupted.
fn write_front<'a, W: Write>(writer: &mut W, text: &'a [u8]) -> Result<&'a [u8], Refused>
    ensures { MatchResult result (λ left. Writes (W.contents writer.old) (W.contents writer.new) text.entry.now left.now)
        (λ _. AppendsFront (W.contents writer.old) (W.contents writer.new) text.entry.now) }
{
    match writer.write(text) {
        Ok(0) => Err(Refused),
        Ok(count) => Ok(&text[count..]),
        Err(error) => {
            if error.kind() == ErrorKind::Interrupted {
                return Ok(text);
            }
            Err(Refused)
        }
    }
}

/// Writes a text. Where the writer refuses, it may have taken a first part of it.
fn write_text<W: Write>(writer: &mut W, text: &[u8]) -> Result<(), Refused>
    ensures { MatchResult result (λ _. Appends (W.contents writer.old) (W.contents writer.new) text.now)
        (λ _. AppendsFront (W.contents writer.old) (W.contents writer.new) text.now) }
{
    let mut rest = text;
    for _ in 0..u64::MAX {
        if rest.is_empty() {
            return Ok(());
        }
        match write_front(writer, rest) {
            Ok(left) => rest = left,
            Err(refused) => return Err(refused),
        }
    }
    Err(Refused)
}

/// The answers of a script: where they are written, and whether one was refused.
#[derive(Drop)]
pub struct Answers<W> {
    writer: W,
    text: Vec<u8>,
    refused: bool,
}

impl<W: Write> Answers<W> {
    /// Answers that go to a writer.
    pub fn new(alloc: Global, writer: W) -> Answers<W>
        ensures said { text_said W.contents result ≡ W.contents writer }
        ensures refused { is_output_refused result ≡ false }
    {
        Answers {
            writer,
            text: Vec::new(alloc),
            refused: false,
        }
    }

    /// The writer.
    pub fn into_writer(self) -> W
        ensures { W.contents result ≡ text_said W.contents self }
    {
        let Answers {
            writer,
            text: _,
            refused: _,
        } = self;
        writer
    }

    /// Writes a text.
    ///
    /// # Errors
    ///
    /// Where the writer refuses; it may have taken a first part of the text.
    pub fn say(&mut self, text: &[u8]) -> Result<(), Refused>
        ensures { Says (text_said W.contents self.old) text.now result (text_said W.contents self.new) (is_output_refused self.new) }
    {
        match write_text(&mut self.writer, text) {
            Ok(()) => Ok(()),
            Err(_) => Err(self.refuse()),
        }
    }

    /// Gives out what was written.
    ///
    /// # Errors
    ///
    /// Where the writer refuses.
    pub fn give_out(&mut self) -> Result<(), Refused>
        ensures kept { Keeps (text_said W.contents self.old) (text_said W.contents self.new) }
        ensures given { OnOk result (is_output_refused self.new ≡ is_output_refused self.old) }
        ensures refused { OnErr result (is_output_refused self.new ≡ true) }
    {
        match self.writer.flush() {
            Ok(()) => Ok(()),
            Err(_) => Err(self.refuse()),
        }
    }

    /// That the writer refused, or that there was no memory.
    fn refuse(&mut self) -> Refused
        ensures said { text_said W.contents self.new ≡ text_said W.contents self.old }
        ensures refused { is_output_refused self.new ≡ true }
    {
        self.refused = true;
        Refused
    }

    /// Writes the text that was spelled.
    fn say_spelled(&mut self) -> Result<(), Refused>
        ensures { Says (text_said W.contents self.old) (text_spelled self.old) result (text_said W.contents self.new) (is_output_refused self.new) }
    {
        match write_text(&mut self.writer, self.text.as_slice()) {
            Ok(()) => Ok(()),
            Err(_) => Err(self.refuse()),
        }
    }
}

/// Writes a row's line.
fn say_row<W: Write>(output: &mut Answers<W>, row: &Version<SharedValue>) -> Result<(), Refused>
    ensures { Says (text_said W.contents output.old) (told.row_text row.now) result (text_said W.contents output.new) (is_output_refused output.new) }
{
    output.text.clear();
    match spell_row(&mut output.text, row) {
        Ok(()) => output.say_spelled(),
        Err(_) => Err(output.refuse()),
    }
}

fn say_row_lines<W: Write>(
    output: &mut Answers<W>,
    rows: &[Version<SharedValue>],
) -> Result<(), Refused>
    ensures { Says (text_said W.contents output.old) (flat_map told.row_text rows.now) result (text_said W.contents output.new) (is_output_refused output.new) }
{
    for row in rows {
        if let Err(refused) = say_row(output, row) {
            return Err(refused);
        }
    }
    Ok(())
}

/// Writes the line of a record and its value.
fn say_record<W: Write>(output: &mut Answers<W>, found: &(u64, SharedValue)) -> Result<(), Refused>
    ensures { Says (text_said W.contents output.old) (told.record_text found.now) result (text_said W.contents output.new) (is_output_refused output.new) }
{
    output.text.clear();
    match spell_record(&mut output.text, found) {
        Ok(()) => output.say_spelled(),
        Err(_) => Err(output.refuse()),
    }
}

fn say_record_lines<W: Write>(
    output: &mut Answers<W>,
    found: &[(u64, SharedValue)],
) -> Result<(), Refused>
    ensures { Says (text_said W.contents output.old) (flat_map told.record_text found.now) result (text_said W.contents output.new)
        (is_output_refused output.new) }
{
    for pair in found {
        if let Err(refused) = say_record(output, pair) {
            return Err(refused);
        }
    }
    Ok(())
}

/// Writes how many lines came before.
fn say_count<W: Write>(output: &mut Answers<W>, count: usize) -> Result<(), Refused>
    ensures { Says (text_said W.contents output.old) (told.rows_line count) result (text_said W.contents output.new) (is_output_refused output.new) }
{
    output.text.clear();
    match spell_count(&mut output.text, count) {
        Ok(()) => output.say_spelled(),
        Err(_) => Err(output.refuse()),
    }
}

/// Writes the lines of rows, and how many there are.
fn say_rows<W: Write>(output: &mut Answers<W>, rows: &[Version<SharedValue>]) -> Result<(), Refused>
    ensures { Says (text_said W.contents output.old) (told.rows_text rows.now) result (text_said W.contents output.new) (is_output_refused output.new) }
{
    say_row_lines(output, rows)?;
    say_count(output, rows.len())
}

/// Writes the lines of records, and how many there are.
fn say_records<W: Write>(
    output: &mut Answers<W>,
    found: &[(u64, SharedValue)],
) -> Result<(), Refused>
    ensures { Says (text_said W.contents output.old) (told.records_text found.now) result (text_said W.contents output.new) (is_output_refused output.new) }
{
    say_record_lines(output, found)?;
    say_count(output, found.len())
}

/// Writes an answer of one line.
fn say_line<W: Write>(output: &mut Answers<W>, reply: &Reply) -> Result<(), Refused>
    ensures { Says (text_said W.contents output.old) (told.line_text reply.now) result (text_said W.contents output.new) (is_output_refused output.new) }
{
    output.text.clear();
    match spell_line(&mut output.text, reply) {
        Ok(()) => output.say_spelled(),
        Err(_) => Err(output.refuse()),
    }
}

/// Writes an answer.
///
/// # Errors
///
/// Where the writer refuses, or there is no memory for a line; some of the answer may have been
/// written.
pub fn write_reply<W: Write>(output: &mut Answers<W>, reply: &Reply) -> Result<(), Refused>
    ensures { Says (text_said W.contents output.old) (told.text_of reply.now) result (text_said W.contents output.new) (is_output_refused output.new) }
{
    match reply {
        Reply::Rows(rows) => say_rows(output, rows),
        Reply::Records(found) => say_records(output, found),
        _ => say_line(output, reply),
    }
}

/// Writes a line that ends with a number.
///
/// # Errors
///
/// Where the writer refuses, or there is no memory for the line; some of it may have been written.
pub fn write_numbered<W: Write>(
    output: &mut Answers<W>,
    words: &str,
    number: u64,
) -> Result<(), Refused>
    ensures { Says (text_said W.contents output.old) (words.now ++ (decimal number ++ codes "\n")) result (text_said W.contents output.new)
        (is_output_refused output.new) }
{
    output.text.clear();
    match spell_numbered(&mut output.text, words, number) {
        Ok(()) => output.say_spelled(),
        Err(_) => Err(output.refuse()),
    }
}

/// Says that a line has no form.
pub(crate) fn say_bad_line<W: Write>(output: &mut Answers<W>, number: u64) -> Result<(), Refused>
    ensures { Says (text_said W.contents output.old) (told.bad_line number) result (text_said W.contents output.new) (is_output_refused output.new) }
{
    output.text.clear();
    match spell_bad_line(&mut output.text, number) {
        Ok(()) => output.say_spelled(),
        Err(_) => Err(output.refuse()),
    }
}
