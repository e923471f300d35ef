//! The lines of a script that write one record.
ghost use Rattle.std.specs.Prelude.{◌≡◌, IfOk, OnOk, Some, map, true};
ghost use Rattle.std.specs.Io.KnownBytes.{Appends};
ghost use Rattle.session.specs.Session.{Step};
ghost use Rattle.session.specs.declared.reply.Reply.TheVariants as reply;
ghost use Rattle.shell.specs.Writing as told;

use crate::vacuuming::is_refusal;
use any_store::TxnFault;
use command_line::RecordWrite;
use disk::Disk;
use forms::{field_of, spell_hex_field};
use session::{Fault, Reply, Session};
use std::alloc::{AllocError, Global};
use std::io;
use std::io::Write;

/// The two lines of a write that are not the same for every write.
#[derive(Drop)]
pub struct WriteLines {
    change: Vec<u8>,
    submit: Vec<u8>,
}

/// Spells the field that a text means, or the text where it means none.
fn spell_meant(alloc: Global, text: &mut Vec<u8>, word: &str) -> Result<(), AllocError>
    ensures { OnOk result (Appends (Some text.old.items) (Some text.new.items) (told.field_word true word.now)) }
{
    match field_of(alloc, word)? {
        Some(field) => spell_hex_field(alloc, text, field.as_slice()),
        None => text.extend_from_slice(word.as_bytes()),
    }
}

/// Spells a field as a line has it.
fn spell_field(
    alloc: Global,
    text: &mut Vec<u8>,
    is_text: bool,
    word: &str,
) -> Result<(), AllocError>
    ensures { OnOk result (Appends (Some text.old.items) (Some text.new.items) (told.field_word is_text word.now)) }
{
    if is_text {
        return spell_meant(alloc, text, word);
    }
    text.extend_from_slice(word.as_bytes())
}

/// Spells the words, each after a space.
fn spell_words(
    alloc: Global,
    text: &mut Vec<u8>,
    is_text: bool,
    words: &[&str],
) -> Result<(), AllocError>
    ensures { OnOk result (Appends (Some text.old.items) (Some text.new.items) (told.words_text is_text words.now)) }
{
    for word in words {
        text.push(b' ')?;
        spell_field(alloc, text, is_text, word)?;
    }
    Ok(())
}

/// Spells the line that writes.
fn spell_change(alloc: Global, text: &mut Vec<u8>, write: &RecordWrite<'_>) -> io::Result<()>
    ensures { OnOk result (Appends (Some text.old.items) (Some text.new.items)
        (told.change_line write.entry.now.key write.entry.now.is_text write.entry.now.fields)) }
{
    let key = write.key;
    match write.fields {
        Some(words) => {
            write!(text, "put t {} {}", key.relation, key.record)?;
            Ok(spell_words(alloc, text, write.is_text, words)?)
        }
        None => write!(text, "del t {} {}", key.relation, key.record),
    }
}

/// The lines of a write.
pub fn lines_of(alloc: Global, write: &RecordWrite<'_>) -> io::Result<WriteLines>
    ensures { IfOk result (told.AreLinesOf write.entry.now) }
{
    let mut change = Vec::new(alloc);
    spell_change(alloc, &mut change, write)?;
    let mut submit = Vec::new(alloc);
    write!(&mut submit, "submit t {} {}", write.label, write.now)?;
    Ok(WriteLines { change, submit })
}

/// The answer to a line of no form: its fields are none.
fn no_form() -> Reply
    ensures { result ≡ told.no_form }
{
    Reply::Refused(Fault::Txn(TxnFault::BadValue))
}

/// Answers a line, if it has a form.
fn answer_text<D: Disk>(session: &mut Session<D>, alloc: Global, text: &[u8]) -> Reply
    ensures { told.AnswersText (Step D.tells) text.now session.old result session.new }
{
    match script::parse(text) {
        Some(line) => match session.answer(alloc, line) {
            Some(reply) => reply,
            None => no_form(),
        },
        None => no_form(),
    }
}

/// Answers lines up to the first that is refused, and gives the last answer.
fn answer_in_turn<D: Disk>(session: &mut Session<D>, alloc: Global, lines: &[&[u8]]) -> Reply
    ensures { told.AnswersInTurn (Step D.tells) reply.Ok (map (λ l. l.now) lines.now) session.old result session.new }
{
    let mut last = Reply::Ok;
    let mut rest = lines;
    while let [line, more @ ..] = rest {
        last = answer_text(session, alloc, line);
        if is_refusal(&last) {
            return last;
        }
        rest = more;
    }
    last
}

/// Answers the lines of a write.
pub fn answer_write<D: Disk>(session: &mut Session<D>, alloc: Global, lines: &WriteLines) -> Reply
    ensures { told.AnswersInTurn (Step D.tells) reply.Ok (told.all_lines lines.now) session.old result session.new }
{
    let all = [
        b"begin t".as_slice(),
        lines.change.as_slice(),
        lines.submit.as_slice(),
        b"flush".as_slice(),
        b"redeem t".as_slice(),
    ];
    answer_in_turn(session, alloc, &all)
}
