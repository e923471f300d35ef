//! The script engine of `run`.
ghost use Rattle.std.specs.Prelude.{◌≡◌, ◌≢◌, ◌+◌, true, List, IfOk, IfErr, OnErr, MatchResult, Ok, Err, if◌then◌else◌};
ghost use Rattle.std.specs.Io.KnownBytes.{Appends, Keeps};
ghost use Rattle.script.specs.declared.line.Line.TheVariants.{Reopen};
ghost use Rattle.session.specs.Lines.{AreLines, Reads};
ghost use Rattle.session.specs.Streams.{text_left, last_line, lines_read, IsToldOf, text_said, is_output_refused};
ghost use Rattle.session.specs.Texts.{Text};
ghost use Rattle.session.specs.Run as told;

use crate::ending::Ending;
use crate::fault::Fault;
use crate::input::{LineInput, Lines};
use crate::output::{Answers, say_bad_line, write_reply};
use crate::refused::Refused;
use crate::reply::Reply;
use crate::session::Session;
use disk::Disk;
use std::alloc::Global;
use std::io::Write;

/// Opens the session's store again, and says so. Where the script ends with it, how it ended and
/// the disk come back.
fn reopen<D: Disk, W: Write>(
    session: Session<D>,
    alloc: Global,
    output: &mut Answers<W>,
) -> Result<Session<D>, (Ending, D)>
    ensures turned { MatchResult result
        (λ new. (out : Text) × told.Answers D.tells session Reopen out (Ok new)
        × Appends (text_said W.contents output.old) (text_said W.contents output.new) out)
        (λ e. (out : Text) × told.Answers D.tells session Reopen out (Err (e.0, D.state e.1))
        × Appends (text_said W.contents output.old) (text_said W.contents output.new) out) }
    ensures refused { IfErr result (λ e. e.0 ≡ Ending.OutputRefused → is_output_refused output.new ≡ true) }
{
    match session.reopen(alloc) {
        Ok(session) => {
            let opened = session.opened_reply();
            match write_reply(output, &opened) {
                Ok(()) => Ok(session),
                Err(_) => Err((Ending::OutputRefused, session.close())),
            }
        }
        Err((fault, disk)) => match write_reply(output, &Reply::Refused(Fault::Open(fault))) {
            Ok(()) => Err((Ending::NotOpened, disk)),
            Err(_) => Err((Ending::OutputRefused, disk)),
        },
    }
}

/// Answers one line, and says whether it was answered: a `reopen` is not, and nothing happens.
///
/// # Errors
///
/// How the script ends with the line; the session is to be closed.
fn turn<D: Disk, W: Write>(
    session: &mut Session<D>,
    alloc: Global,
    number: u64,
    line: &[u8],
    output: &mut Answers<W>,
) -> Result<bool, Ending>
    ensures turned { MatchResult result (λ some. told.Answered D.tells some number session.old line.now session.new (text_said W.contents output.old)
        (text_said W.contents output.new))
        (λ ending. told.Ended D.tells number session.old line.now ending session.new (text_said W.contents output.old) (text_said W.contents output.new)) }
    ensures refused { IfErr result (λ ending. ending ≡ Ending.OutputRefused → is_output_refused output.new ≡ true) }
    ensures read { IfErr result (λ ending. ending ≢ Ending.InputRefused) }
{
    let Some(found) = script::parse(line) else {
        return match say_bad_line(output, number) {
            Ok(()) => Err(Ending::BadLine),
            Err(_) => Err(Ending::OutputRefused),
        };
    };
    match session.answer(alloc, found) {
        Some(reply) => match write_reply(output, &reply) {
            Ok(()) => Ok(true),
            Err(_) => Err(Ending::OutputRefused),
        },
        None => Ok(false),
    }
}

/// Gives out what was written, where the input may wait for it.
fn give_out<R: LineInput, W: Write>(
    input: &Lines<R>,
    output: &mut Answers<W>,
) -> Result<(), Refused>
    ensures kept { Keeps (text_said W.contents output.old) (text_said W.contents output.new) }
    ensures refused { OnErr result (is_output_refused output.new ≡ true) }
{
    if input.may_wait() {
        output.give_out()
    } else {
        Ok(())
    }
}

/// Reads the next line as `Lines::next_line` does, once whoever may give it has the answers so far.
fn next_line<R: LineInput, W: Write>(
    input: &mut Lines<R>,
    output: &mut Answers<W>,
) -> Result<bool, Ending>
    ensures read { IfOk result (λ some. Reads (text_left R.remaining input.old) (text_left R.remaining input.new) some (last_line input.new)) }
    ensures count { IfOk result (λ some. lines_read input.new ≡ (if some then lines_read input.old + 1 else lines_read input.old)) }
    ensures cut { IfErr result (λ ending. told.IsCut ending) }
    ensures refused { IfErr result (λ ending. IsToldOf ending input.new output.new) }
    ensures kept { Keeps (text_said W.contents output.old) (text_said W.contents output.new) }
{
    match give_out(input, output) {
        Ok(()) => match input.next_line() {
            Ok(some) => Ok(some),
            Err(_) => Err(Ending::InputRefused),
        },
        Err(_) => Err(Ending::OutputRefused),
    }
}

/// Answers the lines of a script, one after another, and gives the store's disk back. Where the input may wait, the
/// answers so far are given out first; the last ones may still be in the writer at the end.
///
/// It ends before its last line only at a line of no form, at a `reopen` that the store refuses, and
/// where the input or the output is refused, of which each says so.
pub fn answer_lines<D: Disk, R: LineInput, W: Write>(
    session: Session<D>,
    alloc: Global,
    input: &mut Lines<R>,
    output: &mut Answers<W>,
) -> (Ending, D)
    ensures ran { (lines : List Text) × (out : Text) × AreLines (text_left R.remaining input.old) lines
        × told.Run D.tells (lines_read input.old + 1) session lines out (result.0, D.state result.1)
        × Appends (text_said W.contents output.old) (text_said W.contents output.new) out }
    ensures refused { IsToldOf result.0 input.new output.new }
{
    let mut session = session;
    loop {
        match next_line(input, output) {
            Ok(true) => {}
            Ok(false) => return (Ending::Whole, session.close()),
            Err(ending) => return (ending, session.close()),
        }
        match turn(&mut session, alloc, input.count(), input.line(), output) {
            Ok(true) => continue,
            Ok(false) => {}
            Err(ending) => return (ending, session.close()),
        }
        match reopen(session, alloc, output) {
            Ok(opened) => session = opened,
            Err(end) => return end,
        }
    }
}
