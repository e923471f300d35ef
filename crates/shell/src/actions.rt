//! What an action does.
ghost use Rattle.std.specs.Prelude.{◌++◌, ◌≡◌, ◌≢◌, ◌≤◌, ◌⊎◌, Option, IsTrue, MatchOption, MatchResult};
ghost use Rattle.script.specs.declared.line.Line.TheVariants.{At, Between, Grow};
ghost use Rattle.session.specs.Streams.{Says, is_output_refused, text_said};
ghost use Rattle.session.specs.Texts.{Text, open_line, refusal_line, text_of};
ghost use Rattle.session.specs.declared.ending.Ending.TheVariants.{Whole};
ghost use Rattle.shell.specs.Acts.{Acts, Asks, GivesOut, Grows, IsRefused, IsTold, Makes, RefusesTime, RunsNew, RunsScript, SaysArchived};
ghost use Rattle.shell.specs.Acts.{SaysBoth, SaysGrown, SaysSlots, SaysVacuum, Vacuums, given, told};
ghost use Rattle.forms.specs.Styles.{plain};
ghost use Rattle.shell.specs.Acts.{IsSaid, IsToldAs, IsToldIn, Raises, RefusesProfile, SaysRaised, Writes};
ghost use Rattle.shell.specs.Asking.{line_asked};
ghost use Rattle.shell.specs.Keeps.{KeepsPromise};
ghost use Rattle.shell.specs.Layouts.{formatted_line, size_of, store_layout};
ghost use Rattle.shell.specs.Vacuums.{archived_line, open_fault_of, reclaimed_line};

use crate::asking::line_asked;
use crate::job_records::{JobRecords, job_records, open_fault};
use crate::showing::{dump_by_layout, info_by_layout};
use crate::styled::{found_lines, record_lines, row_lines, time_lines};
use crate::vacuuming::{Vacuumed, answer, do_job, do_jobs, is_refusal};
use crate::writing::{answer_write, lines_of};
use any_store::{OpenFault, StartFault, Store, format};
use command_line::{Action, Layout, Question, RecordWrite, Style, When};
use disk::Disk;
use history::Key;
use script::Line;
use session::{
    Answers, Ending, Fault, LineInput, Lines, MARK, Refused, Reply, Session, answer_lines,
    write_numbered, write_reply,
};
use status::{LogFault, read_header};
use std::alloc::{AllocError, Global};
use std::io::Write;

/// The status of what was done and said in full.
const DONE: u8 = 0;

/// The status of what was refused, or could not be said.
pub(crate) const REFUSED: u8 = 1;

/// The layout of the store in memory.
const EXAMPLE: any_store::Layout = any_store::Layout::Slots(16);

/// The status of what was done, where it was said.
pub(crate) fn status_of(said: Result<(), Refused>) -> u8
    ensures { MatchResult said (λ _. result ≡ 0) (λ _. result ≡ 1) }
{
    match said {
        Ok(()) => DONE,
        Err(_) => REFUSED,
    }
}

/// Says a refusal.
pub(crate) fn refuse<W: Write>(output: &mut Answers<W>, fault: Fault) -> u8
    ensures { IsRefused (told W.contents result output.old output.new) (refusal_line fault) }
{
    let _ = write_reply(output, &Reply::Refused(fault));
    REFUSED
}

/// Says that what is asked for is not of this profile.
fn refuse_profile<W: Write>(output: &mut Answers<W>) -> u8
    ensures { IsRefused (told W.contents result output.old output.new) (refusal_line (Fault.Start StartFault.WrongProfile)) }
{
    refuse(output, Fault::Start(StartFault::WrongProfile))
}

/// The status of a script that ended so.
fn status_of_ending(ending: Ending) -> u8
    ensures { ((result ≡ 0) × (ending ≡ Whole)) ⊎ ((result ≡ 1) × (ending ≢ Whole)) }
{
    match ending {
        Ending::Whole => DONE,
        _ => REFUSED,
    }
}

/// Opens the store and runs the script on it.
fn run_script<D: Disk, R: LineInput, W: Write>(
    alloc: Global,
    disk: D,
    input: &mut Lines<R>,
    output: &mut Answers<W>,
) -> (u8, D)
    ensures { RunsScript D.tells (D.state disk) (given R.remaining input.old input.new) (told W.contents result.0 output.old output.new) (D.state result.1) }
{
    let store = match Store::open(alloc, disk, MARK) {
        Ok(store) => store,
        Err((fault, disk)) => return (refuse(output, Fault::Open(fault)), disk),
    };
    let session = match Session::new(alloc, store) {
        Ok(session) => session,
        Err(store) => return (refuse(output, Fault::NoMemory), store.close()),
    };
    let (ending, disk) = answer_lines(session, alloc, input, output);
    (status_of_ending(ending), disk)
}

/// The layout in the words of the store.
fn store_layout(layout: Layout) -> any_store::Layout
    ensures { result ≡ store_layout layout }
{
    match layout {
        Layout::Slots(slots) => any_store::Layout::Slots(slots),
        Layout::Extents(extents) => any_store::Layout::Log(extents),
    }
}

/// How many slots or extents there are.
fn size_of(layout: Layout) -> u32
    ensures { result ≡ size_of layout }
{
    match layout {
        Layout::Slots(slots) => slots,
        Layout::Extents(extents) => extents,
    }
}

/// Says that an empty store of this size was made.
fn say_formatted<W: Write>(output: &mut Answers<W>, size: u32) -> Result<(), Refused>
    ensures { Says (text_said W.contents output.old) (formatted_line size) result (text_said W.contents output.new) (is_output_refused output.new) }
{
    write_numbered(output, "formatted ", u64::from(size))
}

/// Makes an empty store.
fn make<D: Disk, W: Write>(
    alloc: Global,
    disk: D,
    layout: Layout,
    output: &mut Answers<W>,
) -> (u8, D)
    ensures { Makes D.tells (D.state disk) layout (told W.contents result.0 output.old output.new) (D.state result.1) }
{
    let mut disk = disk;
    match format(alloc, &mut disk, store_layout(layout)) {
        Ok(()) => {
            let said = say_formatted(output, size_of(layout));
            (status_of(said), disk)
        }
        Err(fault) => (refuse(output, Fault::Format(fault)), disk),
    }
}

/// Makes an empty store, if the words say a size of its profile.
fn make_if<D: Disk, W: Write>(
    alloc: Global,
    disk: D,
    layout: Option<Layout>,
    output: &mut Answers<W>,
) -> (u8, D)
    ensures { MatchOption layout (RefusesProfile (D.state disk) (told W.contents result.0 output.old output.new) (D.state result.1))
        (λ l. Makes D.tells (D.state disk) l (told W.contents result.0 output.old output.new) (D.state result.1)) }
{
    match layout {
        Some(layout) => make(alloc, disk, layout, output),
        None => (refuse_profile(output), disk),
    }
}

/// Makes a small store and runs the script on it.
fn run_example<D: Disk, R: LineInput, W: Write>(
    alloc: Global,
    disk: D,
    input: &mut Lines<R>,
    output: &mut Answers<W>,
) -> (u8, D)
    ensures { RunsNew D.tells (D.state disk) (given R.remaining input.old input.new) (told W.contents result.0 output.old output.new) (D.state result.1) }
{
    let mut disk = disk;
    match format(alloc, &mut disk, EXAMPLE) {
        Ok(()) => run_script(alloc, disk, input, output),
        Err(fault) => (refuse(output, Fault::Format(fault)), disk),
    }
}

/// Says the one reply of a command.
fn tell<W: Write>(output: &mut Answers<W>, reply: &Reply) -> u8
    ensures { IsTold (told W.contents result output.old output.new) reply.now }
{
    let said = write_reply(output, reply);
    if is_refusal(reply) {
        return REFUSED;
    }
    status_of(said)
}

/// Says a text, if there was memory for it.
fn tell_text<W: Write>(output: &mut Answers<W>, spelled: Result<Vec<u8>, AllocError>) -> u8
    ensures { MatchResult spelled (λ text. IsSaid (told W.contents result output.old output.new) text.items)
        (λ _. IsRefused (told W.contents result output.old output.new) (refusal_line Fault.NoMemory)) }
{
    match spelled {
        Ok(text) => status_of(output.say(text.as_slice())),
        Err(_) => refuse(output, Fault::NoMemory),
    }
}

/// Says a reply in a style that is not that of scripts.
fn tell_as<W: Write>(alloc: Global, output: &mut Answers<W>, style: Style, reply: &Reply) -> u8
    ensures { IsToldAs style (told W.contents result output.old output.new) reply.now }
{
    match reply {
        Reply::Found(value) => tell_text(output, found_lines(alloc, style.form, value)),
        Reply::Rows(rows) => tell_text(output, row_lines(alloc, style, rows)),
        Reply::Records(found) => tell_text(output, record_lines(alloc, style.form, found)),
        Reply::Times(times) => tell_text(output, time_lines(alloc, style, times)),
        _ => tell(output, reply),
    }
}

/// Says a reply in a style.
fn tell_in<W: Write>(alloc: Global, output: &mut Answers<W>, style: Style, reply: &Reply) -> u8
    ensures { IsToldIn style (told W.contents result output.old output.new) reply.now }
{
    if style.is_plain() {
        return tell(output, reply);
    }
    tell_as(alloc, output, style, reply)
}

/// Asks a question of a store opened for it.
fn ask<D: Disk, W: Write>(
    alloc: Global,
    disk: D,
    question: Question,
    style: Style,
    output: &mut Answers<W>,
) -> (u8, D)
    ensures { Asks D.tells style (D.state disk) (line_asked question) (told W.contents result.0 output.old output.new) (D.state result.1) }
{
    let store = match Store::open(alloc, disk, MARK) {
        Ok(store) => store,
        Err((fault, disk)) => return (refuse(output, Fault::Open(fault)), disk),
    };
    let line = line_asked(question, &store);
    let mut session = match Session::new(alloc, store) {
        Ok(session) => session,
        Err(store) => return (refuse(output, Fault::NoMemory), store.close()),
    };
    let reply = answer(&mut session, alloc, line);
    (tell_in(alloc, output, style, &reply), session.close())
}

/// Asks a question, if the words spelled its times.
fn ask_if<D: Disk, W: Write>(
    alloc: Global,
    disk: D,
    question: Option<Question>,
    style: Style,
    output: &mut Answers<W>,
) -> (u8, D)
    ensures { MatchOption question (RefusesTime (D.state disk) (told W.contents result.0 output.old output.new) (D.state result.1))
        (λ q. Asks D.tells style (D.state disk) (line_asked q) (told W.contents result.0 output.old output.new) (D.state result.1)) }
{
    match question {
        Some(question) => ask(alloc, disk, question, style, output),
        None => (refuse(output, Fault::Time), disk),
    }
}

/// Writes a record in a commit of its own, in a store opened for it.
fn write<D: Disk, W: Write>(
    alloc: Global,
    disk: D,
    write: &RecordWrite<'_>,
    output: &mut Answers<W>,
) -> (u8, D)
    ensures { Writes D.tells (D.state disk) write.entry.now (told W.contents result.0 output.old output.new) (D.state result.1) }
{
    let Ok(lines) = lines_of(alloc, write) else {
        return (refuse(output, Fault::NoMemory), disk);
    };
    let store = match Store::open(alloc, disk, MARK) {
        Ok(store) => store,
        Err((fault, disk)) => return (refuse(output, Fault::Open(fault)), disk),
    };
    let mut session = match Session::new(alloc, store) {
        Ok(session) => session,
        Err(store) => return (refuse(output, Fault::NoMemory), store.close()),
    };
    let reply = answer_write(&mut session, alloc, &lines);
    (tell(output, &reply), session.close())
}

/// Asks for the value of a key at a time, if the words spelled one.
fn ask_at<D: Disk, W: Write>(
    alloc: Global,
    disk: D,
    key: Key,
    time: Option<u64>,
    output: &mut Answers<W>,
) -> (u8, D)
    ensures { MatchOption time (RefusesTime (D.state disk) (told W.contents result.0 output.old output.new) (D.state result.1))
        (λ t. Asks D.tells plain (D.state disk) (λ _. At key t) (told W.contents result.0 output.old output.new) (D.state result.1)) }
{
    match time {
        Some(time) => {
            let question = Question::Value(key, When::At(time));
            ask(alloc, disk, question, Style::plain(), output)
        }
        None => (refuse(output, Fault::Time), disk),
    }
}

/// Asks for the rows of a key from one time up to another, if the words spelled both.
fn ask_between<D: Disk, W: Write>(
    alloc: Global,
    disk: D,
    key: Key,
    from: Option<u64>,
    to: Option<u64>,
    output: &mut Answers<W>,
) -> (u8, D)
    ensures { MatchOption from (RefusesTime (D.state disk) (told W.contents result.0 output.old output.new) (D.state result.1))
        (λ a. MatchOption to (RefusesTime (D.state disk) (told W.contents result.0 output.old output.new) (D.state result.1))
        (λ b. Asks D.tells plain (D.state disk) (λ _. Between key a b) (told W.contents result.0 output.old output.new) (D.state result.1))) }
{
    match (from, to) {
        (Some(a), Some(b)) => {
            let question = Question::Rows(key, When::At(a), When::At(b));
            ask(alloc, disk, question, Style::plain(), output)
        }
        _ => (refuse(output, Fault::Time), disk),
    }
}

/// Says the records that were archived.
fn say_archived<W: Write>(output: &mut Answers<W>, counts: JobRecords) -> Result<(), Refused>
    ensures { Says (text_said W.contents output.old) (archived_line counts) result (text_said W.contents output.new) (is_output_refused output.new) }
{
    write_numbered(output, "archived ", counts.archived)
}

/// Says the records that were archived, and those that were written anew.
fn say_both<W: Write>(output: &mut Answers<W>, counts: JobRecords) -> Result<(), Refused>
    ensures { Says (text_said W.contents output.old) (archived_line counts ++ reclaimed_line counts) result (text_said W.contents output.new)
        (is_output_refused output.new) }
{
    match say_archived(output, counts) {
        Ok(()) => write_numbered(output, "reclaimed ", counts.reclaimed),
        Err(refused) => Err(refused),
    }
}

/// Says the records that were archived, and what was refused then.
fn say_refused_after<W: Write>(
    output: &mut Answers<W>,
    counts: JobRecords,
    refusal: &Reply,
) -> Result<(), Refused>
    ensures { Says (text_said W.contents output.old) (archived_line counts ++ text_of refusal.now) result (text_said W.contents output.new)
        (is_output_refused output.new) }
{
    match say_archived(output, counts) {
        Ok(()) => write_reply(output, refusal),
        Err(refused) => Err(refused),
    }
}

/// As much of it as the output takes. The program's status is 1.
fn refuse_after<W: Write>(output: &mut Answers<W>, counts: JobRecords, refusal: &Reply) -> u8
    ensures { IsRefused (told W.contents result output.old output.new) (archived_line counts ++ text_of refusal.now) }
{
    let _ = say_refused_after(output, counts, refusal);
    REFUSED
}

/// Says a reply that refuses. The program's status is 1.
fn refuse_reply<W: Write>(output: &mut Answers<W>, refusal: &Reply) -> u8
    ensures { IsRefused (told W.contents result output.old output.new) (text_of refusal.now) }
{
    let _ = write_reply(output, refusal);
    REFUSED
}

/// Says what was archived, and then that the reclaim was refused: both are true. Where the log can't be
/// read, the refusal alone.
fn tell_archived<D: Disk, W: Write>(
    alloc: Global,
    disk: &mut D,
    upto: u64,
    refusal: &Reply,
    output: &mut Answers<W>,
) -> u8
    ensures { SaysArchived D.tells upto (D.state disk.old) refusal.now (told W.contents result output.old output.new) (D.state disk.new) }
{
    match job_records(alloc, disk, upto) {
        Ok(counts) => refuse_after(output, counts, refusal),
        Err(_) => refuse_reply(output, refusal),
    }
}

/// Says what was archived and reclaimed.
fn tell_both<D: Disk, W: Write>(
    alloc: Global,
    disk: &mut D,
    upto: u64,
    output: &mut Answers<W>,
) -> u8
    ensures { SaysBoth D.tells upto (D.state disk.old) (told W.contents result output.old output.new) (D.state disk.new) }
{
    match job_records(alloc, disk, upto) {
        Ok(counts) => status_of(say_both(output, counts)),
        Err(fault) => refuse(output, Fault::Open(fault)),
    }
}

/// Says what a vacuum did, by the log of the store that was closed after it. A time that the archive has
/// reached is refused as nothing to do, even where the reclaim of before is due.
fn tell_vacuum<D: Disk, W: Write>(
    alloc: Global,
    disk: &mut D,
    upto: u64,
    done: &Vacuumed,
    output: &mut Answers<W>,
) -> u8
    ensures { SaysVacuum D.tells upto (D.state disk.old) done.now (told W.contents result output.old output.new) (D.state disk.new) }
{
    match done {
        Vacuumed::Nothing(refusal) => refuse_reply(output, refusal),
        Vacuumed::Archived(refusal) => tell_archived(alloc, disk, upto, refusal, output),
        Vacuumed::Both => tell_both(alloc, disk, upto, output),
    }
}

/// Archives what ended by a time and reclaims its space, in a store opened for it.
fn vacuum<D: Disk, W: Write>(alloc: Global, disk: D, upto: u64, output: &mut Answers<W>) -> (u8, D)
    ensures { Vacuums D.tells (D.state disk) upto (told W.contents result.0 output.old output.new) (D.state result.1) }
{
    let store = match Store::open(alloc, disk, MARK) {
        Ok(store) => store,
        Err((fault, disk)) => return (refuse(output, Fault::Open(fault)), disk),
    };
    let mut session = match Session::new(alloc, store) {
        Ok(session) => session,
        Err(store) => return (refuse(output, Fault::NoMemory), store.close()),
    };
    let done = do_jobs(&mut session, alloc, upto);
    let mut disk = session.close();
    let status = tell_vacuum(alloc, &mut disk, upto, &done, output);
    (status, disk)
}

/// Vacuums up to a time, if the words spelled one.
fn vacuum_upto<D: Disk, W: Write>(
    alloc: Global,
    disk: D,
    time: Option<u64>,
    output: &mut Answers<W>,
) -> (u8, D)
    ensures { MatchOption time (RefusesTime (D.state disk) (told W.contents result.0 output.old output.new) (D.state result.1))
        (λ t. Vacuums D.tells (D.state disk) t (told W.contents result.0 output.old output.new) (D.state result.1)) }
{
    match time {
        Some(upto) => vacuum(alloc, disk, upto, output),
        None => (refuse(output, Fault::Time), disk),
    }
}

/// Says that a log is not to be had.
pub(crate) fn refuse_log<W: Write>(output: &mut Answers<W>, fault: LogFault) -> u8
    ensures { IsRefused (told W.contents result output.old output.new) (open_line (open_fault_of fault)) }
{
    refuse(output, Fault::Open(open_fault(fault)))
}

/// Says how many slots a store has, by the header on its disk.
fn tell_slots<D: Disk, W: Write>(disk: &mut D, output: &mut Answers<W>) -> u8
    ensures { SaysSlots D.tells (D.state disk.old) (told W.contents result output.old output.new) (D.state disk.new) }
{
    match read_header(disk) {
        Ok(header) => status_of(write_numbered(output, "slots ", header.total())),
        Err(fault) => refuse_log(output, fault),
    }
}

/// Says what a growth did, of the store that was closed after it.
fn tell_grown<D: Disk, W: Write>(
    disk: &mut D,
    refused: &Option<Reply>,
    output: &mut Answers<W>,
) -> u8
    ensures { SaysGrown D.tells (D.state disk.old) refused.now (told W.contents result output.old output.new) (D.state disk.new) }
{
    match refused {
        Some(refusal) => refuse_reply(output, refusal),
        None => tell_slots(disk, output),
    }
}

/// Makes 256 slots more, in a store opened for it.
fn grow<D: Disk, W: Write>(alloc: Global, disk: D, output: &mut Answers<W>) -> (u8, D)
    ensures { Grows D.tells (D.state disk) (told W.contents result.0 output.old output.new) (D.state result.1) }
{
    let store = match Store::open(alloc, disk, MARK) {
        Ok(store) => store,
        Err((fault, disk)) => return (refuse(output, Fault::Open(fault)), disk),
    };
    let mut session = match Session::new(alloc, store) {
        Ok(session) => session,
        Err(store) => return (refuse(output, Fault::NoMemory), store.close()),
    };
    let refused = do_job(&mut session, alloc, Line::Grow);
    let mut disk = session.close();
    let status = tell_grown(&mut disk, &refused, output);
    (status, disk)
}

/// Says that a floor was raised to a time, or what was refused.
fn tell_raised<W: Write>(time: u64, refused: &Option<Reply>, output: &mut Answers<W>) -> u8
    ensures { SaysRaised time refused.now (told W.contents result output.old output.new) }
{
    match refused {
        Some(refusal) => refuse_reply(output, refusal),
        None => status_of(write_numbered(output, "floor ", time)),
    }
}

/// Lets the history of a relation before a time go, in a store opened for it.
fn raise<D: Disk, W: Write>(
    alloc: Global,
    disk: D,
    relation: u16,
    time: u64,
    output: &mut Answers<W>,
) -> (u8, D)
    ensures { Raises D.tells (D.state disk) relation time (told W.contents result.0 output.old output.new) (D.state result.1) }
{
    let store = match Store::open(alloc, disk, MARK) {
        Ok(store) => store,
        Err((fault, disk)) => return (refuse(output, Fault::Open(fault)), disk),
    };
    let mut session = match Session::new(alloc, store) {
        Ok(session) => session,
        Err(store) => return (refuse(output, Fault::NoMemory), store.close()),
    };
    let refused = do_job(&mut session, alloc, Line::Floor(Some(relation), time));
    (tell_raised(time, &refused, output), session.close())
}

/// Lets the history of a relation before a time go, if the words spelled one.
fn raise_upto<D: Disk, W: Write>(
    alloc: Global,
    disk: D,
    relation: u16,
    time: Option<u64>,
    output: &mut Answers<W>,
) -> (u8, D)
    ensures { MatchOption time (RefusesTime (D.state disk) (told W.contents result.0 output.old output.new) (D.state result.1))
        (λ t. Raises D.tells (D.state disk) relation t (told W.contents result.0 output.old output.new) (D.state result.1)) }
{
    match time {
        Some(time) => raise(alloc, disk, relation, time, output),
        None => (refuse(output, Fault::Time), disk),
    }
}

/// Does what the words asked for. What was said may still be in the writer.
fn perform<D: Disk, R: LineInput, W: Write>(
    alloc: Global,
    action: Action<'_>,
    disk: D,
    input: &mut Lines<R>,
    output: &mut Answers<W>,
) -> (u8, D)
    ensures { Acts D.tells action.entry (D.state disk) (given R.remaining input.old input.new) (told W.contents result.0 output.old output.new)
        (D.state result.1) }
{
    match action {
        Action::Example => run_example(alloc, disk, input, output),
        Action::Format { dir: _, layout } => make_if(alloc, disk, layout, output),
        Action::Run { dir: _ } => run_script(alloc, disk, input, output),
        Action::At { dir: _, key, time } => ask_at(alloc, disk, key, time, output),
        Action::Between {
            dir: _,
            key,
            from,
            to,
        } => ask_between(alloc, disk, key, from, to, output),
        Action::Ask {
            dir: _,
            question,
            style,
        } => ask_if(alloc, disk, question, style, output),
        Action::Write {
            dir: _,
            write: asked,
        } => write(alloc, disk, &asked, output),
        Action::Vacuum { dir: _, time } => vacuum_upto(alloc, disk, time, output),
        Action::Grow { dir: _ } => grow(alloc, disk, output),
        Action::Floor {
            dir: _,
            relation,
            time,
        } => raise_upto(alloc, disk, relation, time, output),
        Action::Info { dir: _, json } => info_by_layout(alloc, disk, json, output),
        Action::Dump { dir: _ } => dump_by_layout(alloc, disk, output),
        // It is of no disk: the program runs it in threads of its own.
        Action::Stress {
            writers: _,
            readers: _,
            rounds: _,
        } => (REFUSED, disk),
    }
}

/// Gives out what was said. What was not given out was not said.
fn give_out<W: Write>(output: &mut Answers<W>, status: u8) -> u8
    ensures { (before : Option Text) → GivesOut (record {
      status = status;
      before = before;
      after = text_said W.contents output.old;
      refused =
          is_output_refused output.old;
    }) (record {
      status = result;
      before = before;
      after = text_said W.contents output.new;
      refused =
          is_output_refused output.new;
    }) }
{
    match output.give_out() {
        Ok(()) => status,
        Err(_) => REFUSED,
    }
}

/// Does what the words asked for, on a disk, and gives the disk back with the status of the program:
/// 0, or 1 where something was refused, the store, the input or the output. A writer that gathers
/// what is written has given it out.
pub fn act<D: Disk, R: LineInput, W: Write>(
    alloc: Global,
    action: Action<'_>,
    disk: D,
    input: &mut Lines<R>,
    output: &mut Answers<W>,
) -> (u8, D)
    ensures acts { Acts D.tells action.entry (D.state disk) (given R.remaining input.old input.new) (told W.contents result.0 output.old output.new)
        (D.state result.1) }
    // Of every action, on a disk that tells its bytes and whatever the status is. Of a script, and of the lines of a
    // vacuum, of a growth, of a floor, of a write and of a question: at every moment of its run whatever a stop may leave survives, with every
    // commit of which a line `done` was written, and what is written is what a run of the machine answers. What is
    // written of a question is what the write sets of the history say, or the refusal that they say, or that memory or
    // the device gave out. An empty store that was made is kept as the empty history, with the slots that were asked
    // for; a dump leaves the areas as they were.
    ensures promise { IsTrue D.tells → KeepsPromise D.tells action.entry (D.state disk) (given R.remaining input.old input.new)
        (told W.contents result.0 output.old output.new) (D.state result.1) }
    ensures status { result.0 ≤ 1 }
{
    let (status, disk) = perform(alloc, action, disk, input, output);
    (give_out(output, status), disk)
}

/// Says that a folder's store is not opened. The program's status is 1.
pub fn refuse_folder<W: Write>(output: &mut Answers<W>, fault: OpenFault) -> u8
    ensures { IsRefused (told W.contents result output.old output.new) (open_line fault) }
{
    let status = refuse(output, Fault::Open(fault));
    give_out(output, status)
}
