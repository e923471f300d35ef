//! From words to an action.
ghost use Rattle.std.specs.Prelude.{◌≡◌, ℕ, List, IfSome, IfNone, Some, None};
ghost use Rattle.std.specs.Borrow.{Bor};
ghost use Rattle.clap.specs.Words.{first_of, found_of, rows_of, subcommand_rows_of};
ghost use Rattle.history.specs.declared.key.Key.{Key as AnyKey};
ghost use Rattle.script.specs.Lines.{time_in};
ghost use Rattle.command_line.specs.declared.action.Action.{Action as Asked};
ghost use Rattle.command_line.specs.Asked.{HasKey, HasNumber, Asks, AsksFormat, AsksNothing, AsksRun, AsksAt, AsksBetween, AsksVacuum, AsksGrow, AsksDump};
ghost use Rattle.command_line.specs.Asked.{AsksCommand, AsksStress, AsksGet, AsksScan, AsksHistory, AsksTimes};
ghost use Rattle.command_line.specs.Asked.{AsksPut, AsksDelete, AsksFloor, AsksInfo, AsksOfRecord, AsksOfStore, HasFields};
ghost use Rattle.command_line.specs.Questions.{form_by, is_set, records_of, rows_of_key, style_of, value_of, when_in, when_of};

use crate::action::Action;
use crate::layout::layout_of;
use crate::moment::moment;
use crate::question::{Question, RecordWrite, When};
use clap::ArgMatches;
use forms::{Form, Style};
use history::Key;
use script::read_time;

/// The text of an argument.
fn text<'m>(matches: &'m ArgMatches<'_>, name: &str) -> Option<&'m str>
    ensures some { IfSome result (λ s. first_of name.now (rows_of (found_of matches.now)) ≡ Some s.now) }
    ensures none { IfNone result (first_of name.now (rows_of (found_of matches.now)) ≡ None) }
{
    matches.get_str(name)
}

/// The time that a text spells.
fn time_of(text: &str) -> Option<u64>
    ensures { result ≡ time_in text.now }
{
    read_time(text.as_bytes())
}

/// The time that a word spells, or that of the last commit.
fn when_in(word: &str) -> Option<When>
    ensures { result ≡ when_in word.now }
{
    if word == "now" {
        return Some(When::Now);
    }
    match moment(word) {
        Some(time) => Some(When::At(time)),
        None => None,
    }
}

/// The time of an argument that may be left out.
fn when_of(matches: &ArgMatches<'_>, name: &str, absent: When) -> Option<When>
    ensures { result ≡ when_of absent (first_of name.now (rows_of (found_of matches.now))) }
{
    match text(matches, name) {
        Some(word) => when_in(word),
        None => Some(absent),
    }
}

/// Whether a flag is set.
fn is_set(matches: &ArgMatches<'_>, name: &str) -> bool
    ensures { result ≡ is_set name.now (rows_of (found_of matches.now)) }
{
    match text(matches, name) {
        Some(word) => word == "true",
        None => false,
    }
}

/// The form of an answer. Of several flags that of JSON counts, and then that of CSV.
fn form_by(is_text: bool, is_json: bool, is_csv: bool) -> Form
    ensures { result ≡ form_by is_text is_json is_csv }
{
    if is_json {
        return Form::Json;
    }
    if is_csv {
        return Form::Csv;
    }
    if is_text { Form::Text } else { Form::Hex }
}

/// How an answer is to be spelled.
fn style(matches: &ArgMatches<'_>) -> Style
    ensures { result ≡ style_of (rows_of (found_of matches.now)) }
{
    Style {
        form: form_by(
            is_set(matches, "text"),
            is_set(matches, "json"),
            is_set(matches, "csv"),
        ),
        instants: is_set(matches, "instants"),
    }
}

fn u8_of(matches: &ArgMatches<'_>, name: &str) -> Option<u8>
    ensures some { IfSome result (HasNumber 8 name.now (rows_of (found_of matches.now))) }
    ensures none { IfNone result ((n : ℕ) → HasNumber 8 name.now (rows_of (found_of matches.now)) n → ⊥) }
{
    matches.get_one::<u8>(name)
}

fn u16_of(matches: &ArgMatches<'_>, name: &str) -> Option<u16>
    ensures some { IfSome result (HasNumber 16 name.now (rows_of (found_of matches.now))) }
    ensures none { IfNone result ((n : ℕ) → HasNumber 16 name.now (rows_of (found_of matches.now)) n → ⊥) }
{
    matches.get_one::<u16>(name)
}

fn u32_of(matches: &ArgMatches<'_>, name: &str) -> Option<u32>
    ensures some { IfSome result (HasNumber 32 name.now (rows_of (found_of matches.now))) }
    ensures none { IfNone result ((n : ℕ) → HasNumber 32 name.now (rows_of (found_of matches.now)) n → ⊥) }
{
    matches.get_one::<u32>(name)
}

fn u64_of(matches: &ArgMatches<'_>, name: &str) -> Option<u64>
    ensures some { IfSome result (HasNumber 64 name.now (rows_of (found_of matches.now))) }
    ensures none { IfNone result ((n : ℕ) → HasNumber 64 name.now (rows_of (found_of matches.now)) n → ⊥) }
{
    matches.get_one::<u64>(name)
}

fn format<'m>(matches: &'m ArgMatches<'_>) -> Option<Action<'m>>
    ensures some { IfSome result (AsksFormat (rows_of (found_of matches.now))) }
    ensures none { IfNone result ((a : Asked) → AsksFormat (rows_of (found_of matches.now)) a → ⊥) }
{
    let profile = u8_of(matches, "profile")?;
    let slots = u32_of(matches, "slots");
    let extents = u32_of(matches, "extents");
    Some(Action::Format {
        dir: text(matches, "DIR")?,
        layout: layout_of(profile, slots, extents),
    })
}

fn run<'m>(matches: &'m ArgMatches<'_>) -> Option<Action<'m>>
    ensures some { IfSome result (AsksRun (rows_of (found_of matches.now))) }
    ensures none { IfNone result ((a : Asked) → AsksRun (rows_of (found_of matches.now)) a → ⊥) }
{
    Some(Action::Run {
        dir: text(matches, "DIR")?,
    })
}

/// The key of a record, from its relation and its number.
fn key(matches: &ArgMatches<'_>) -> Option<Key>
    ensures some { IfSome result (HasKey (rows_of (found_of matches.now))) }
    ensures none { IfNone result ((k : AnyKey) → HasKey (rows_of (found_of matches.now)) k → ⊥) }
{
    Some(Key {
        relation: u16_of(matches, "REL")?,
        record: u64_of(matches, "REC")?,
    })
}

fn at<'m>(matches: &'m ArgMatches<'_>) -> Option<Action<'m>>
    ensures some { IfSome result (AsksAt (rows_of (found_of matches.now))) }
    ensures none { IfNone result ((a : Asked) → AsksAt (rows_of (found_of matches.now)) a → ⊥) }
{
    Some(Action::At {
        dir: text(matches, "DIR")?,
        key: key(matches)?,
        time: time_of(text(matches, "TIME")?),
    })
}

fn between<'m>(matches: &'m ArgMatches<'_>) -> Option<Action<'m>>
    ensures some { IfSome result (AsksBetween (rows_of (found_of matches.now))) }
    ensures none { IfNone result ((a : Asked) → AsksBetween (rows_of (found_of matches.now)) a → ⊥) }
{
    Some(Action::Between {
        dir: text(matches, "DIR")?,
        key: key(matches)?,
        from: time_of(text(matches, "FROM")?),
        to: time_of(text(matches, "TO")?),
    })
}

/// The question for a key's value, if there is a time.
fn value_of(key: Key, time: Option<When>) -> Option<Question>
    ensures { result ≡ value_of key time }
{
    Some(Question::Value(key, time?))
}

/// The question for a relation's records, if there is a time.
fn records_of(relation: u16, time: Option<When>) -> Option<Question>
    ensures { result ≡ records_of relation time }
{
    Some(Question::Records(relation, time?))
}

/// The question for a key's rows, if there are both times.
fn rows_asked(key: Key, from: Option<When>, to: Option<When>) -> Option<Question>
    ensures { result ≡ rows_of_key key from to }
{
    Some(Question::Rows(key, from?, to?))
}

fn get<'m>(matches: &'m ArgMatches<'_>) -> Option<Action<'m>>
    ensures some { IfSome result (AsksGet (rows_of (found_of matches.now))) }
    ensures none { IfNone result ((a : Asked) → AsksGet (rows_of (found_of matches.now)) a → ⊥) }
{
    let key = key(matches)?;
    Some(Action::Ask {
        dir: text(matches, "DIR")?,
        question: value_of(key, when_of(matches, "TIME", When::Now)),
        style: style(matches),
    })
}

fn scan<'m>(matches: &'m ArgMatches<'_>) -> Option<Action<'m>>
    ensures some { IfSome result (AsksScan (rows_of (found_of matches.now))) }
    ensures none { IfNone result ((a : Asked) → AsksScan (rows_of (found_of matches.now)) a → ⊥) }
{
    let relation = u16_of(matches, "REL")?;
    Some(Action::Ask {
        dir: text(matches, "DIR")?,
        question: records_of(relation, when_of(matches, "TIME", When::Now)),
        style: style(matches),
    })
}

fn history<'m>(matches: &'m ArgMatches<'_>) -> Option<Action<'m>>
    ensures some { IfSome result (AsksHistory (rows_of (found_of matches.now))) }
    ensures none { IfNone result ((a : Asked) → AsksHistory (rows_of (found_of matches.now)) a → ⊥) }
{
    let key = key(matches)?;
    let from = when_of(matches, "FROM", When::First);
    let to = when_of(matches, "TO", When::Now);
    Some(Action::Ask {
        dir: text(matches, "DIR")?,
        question: rows_asked(key, from, to),
        style: style(matches),
    })
}

fn times<'m>(matches: &'m ArgMatches<'_>) -> Option<Action<'m>>
    ensures some { IfSome result (AsksTimes (rows_of (found_of matches.now))) }
    ensures none { IfNone result ((a : Asked) → AsksTimes (rows_of (found_of matches.now)) a → ⊥) }
{
    let label = u64_of(matches, "LABEL")?;
    Some(Action::Ask {
        dir: text(matches, "DIR")?,
        question: Some(Question::Times(label)),
        style: style(matches),
    })
}

/// The words of the fields.
fn fields<'m>(matches: &'m ArgMatches<'_>) -> Option<&'m [&'m str]>
    ensures some { IfSome result (HasFields (rows_of (found_of matches.now))) }
    ensures none { IfNone result ((f : Bor (List (Bor (List ℕ)))) → HasFields (rows_of (found_of matches.now)) f → ⊥) }
{
    matches.get_raw("FIELD")
}

fn put<'m>(matches: &'m ArgMatches<'_>, now: u64) -> Option<Action<'m>>
    ensures some { IfSome result (AsksPut now (rows_of (found_of matches.now))) }
    ensures none { IfNone result ((a : Asked) → AsksPut now (rows_of (found_of matches.now)) a → ⊥) }
{
    let write = RecordWrite {
        key: key(matches)?,
        fields: Some(fields(matches)?),
        is_text: is_set(matches, "text"),
        label: u64_of(matches, "label")?,
        now,
    };
    Some(Action::Write {
        dir: text(matches, "DIR")?,
        write,
    })
}

fn del<'m>(matches: &'m ArgMatches<'_>, now: u64) -> Option<Action<'m>>
    ensures some { IfSome result (AsksDelete now (rows_of (found_of matches.now))) }
    ensures none { IfNone result ((a : Asked) → AsksDelete now (rows_of (found_of matches.now)) a → ⊥) }
{
    let write = RecordWrite {
        key: key(matches)?,
        fields: None,
        is_text: false,
        label: u64_of(matches, "label")?,
        now,
    };
    Some(Action::Write {
        dir: text(matches, "DIR")?,
        write,
    })
}

fn vacuum<'m>(matches: &'m ArgMatches<'_>) -> Option<Action<'m>>
    ensures some { IfSome result (AsksVacuum (rows_of (found_of matches.now))) }
    ensures none { IfNone result ((a : Asked) → AsksVacuum (rows_of (found_of matches.now)) a → ⊥) }
{
    let time = time_of(text(matches, "TIME")?);
    Some(Action::Vacuum {
        dir: text(matches, "DIR")?,
        time,
    })
}

fn grow<'m>(matches: &'m ArgMatches<'_>) -> Option<Action<'m>>
    ensures some { IfSome result (AsksGrow (rows_of (found_of matches.now))) }
    ensures none { IfNone result ((a : Asked) → AsksGrow (rows_of (found_of matches.now)) a → ⊥) }
{
    Some(Action::Grow {
        dir: text(matches, "DIR")?,
    })
}

fn floor<'m>(matches: &'m ArgMatches<'_>) -> Option<Action<'m>>
    ensures some { IfSome result (AsksFloor (rows_of (found_of matches.now))) }
    ensures none { IfNone result ((a : Asked) → AsksFloor (rows_of (found_of matches.now)) a → ⊥) }
{
    let relation = u16_of(matches, "REL")?;
    let time = moment(text(matches, "TIME")?);
    Some(Action::Floor {
        dir: text(matches, "DIR")?,
        relation,
        time,
    })
}

fn info<'m>(matches: &'m ArgMatches<'_>) -> Option<Action<'m>>
    ensures some { IfSome result (AsksInfo (rows_of (found_of matches.now))) }
    ensures none { IfNone result ((a : Asked) → AsksInfo (rows_of (found_of matches.now)) a → ⊥) }
{
    Some(Action::Info {
        dir: text(matches, "DIR")?,
        json: is_set(matches, "json"),
    })
}

fn dump<'m>(matches: &'m ArgMatches<'_>) -> Option<Action<'m>>
    ensures some { IfSome result (AsksDump (rows_of (found_of matches.now))) }
    ensures none { IfNone result ((a : Asked) → AsksDump (rows_of (found_of matches.now)) a → ⊥) }
{
    Some(Action::Dump {
        dir: text(matches, "DIR")?,
    })
}

fn stress<'m>(matches: &'m ArgMatches<'_>) -> Option<Action<'m>>
    ensures some { IfSome result (AsksStress (rows_of (found_of matches.now))) }
    ensures none { IfNone result ((a : Asked) → AsksStress (rows_of (found_of matches.now)) a → ⊥) }
{
    Some(Action::Stress {
        writers: u8_of(matches, "WRITERS")?,
        readers: u8_of(matches, "READERS")?,
        rounds: u16_of(matches, "ROUNDS")?,
    })
}

/// What the matches of a command that tells of a store or raises a floor ask for.
fn of_store<'m>(name: &str, matches: &'m ArgMatches<'_>) -> Option<Action<'m>>
    ensures some { IfSome result (AsksOfStore name.now (rows_of (found_of matches.now))) }
    ensures none { IfNone result ((a : Asked) → AsksOfStore name.now (rows_of (found_of matches.now)) a → ⊥) }
{
    if name == "floor" {
        floor(matches)
    } else if name == "info" {
        info(matches)
    } else {
        None
    }
}

/// What the matches of a command on one record or relation ask for.
fn of_record<'m>(name: &str, matches: &'m ArgMatches<'_>, now: u64) -> Option<Action<'m>>
    ensures some { IfSome result (AsksOfRecord now name.now (rows_of (found_of matches.now))) }
    ensures none { IfNone result ((a : Asked) → AsksOfRecord now name.now (rows_of (found_of matches.now)) a → ⊥) }
{
    if name == "get" {
        get(matches)
    } else if name == "scan" {
        scan(matches)
    } else if name == "history" {
        history(matches)
    } else if name == "times" {
        times(matches)
    } else if name == "put" {
        put(matches, now)
    } else if name == "del" {
        del(matches, now)
    } else {
        of_store(name, matches)
    }
}

/// What the matches of a command ask for.
fn command_of<'m>(name: &str, matches: &'m ArgMatches<'_>, now: u64) -> Option<Action<'m>>
    ensures some { IfSome result (AsksCommand now name.now (rows_of (found_of matches.now))) }
    ensures none { IfNone result ((a : Asked) → AsksCommand now name.now (rows_of (found_of matches.now)) a → ⊥) }
{
    if name == "format" {
        format(matches)
    } else if name == "run" {
        run(matches)
    } else if name == "at" {
        at(matches)
    } else if name == "between" {
        between(matches)
    } else if name == "vacuum" {
        vacuum(matches)
    } else if name == "grow" {
        grow(matches)
    } else if name == "dump" {
        dump(matches)
    } else if name == "stress" {
        stress(matches)
    } else {
        of_record(name, matches, now)
    }
}

/// The action that the matches of the words ask for, if they ask for one. A commit is to have the time that
/// the clock says now, in microseconds since 1970.
pub fn action_of<'m>(matches: &'m ArgMatches<'_>, now: u64) -> Option<Action<'m>>
    ensures some { IfSome result (Asks now (subcommand_rows_of matches.now)) }
    ensures none { IfNone result (AsksNothing now (subcommand_rows_of matches.now)) }
{
    match matches.subcommand() {
        Some((name, inner)) => command_of(name, inner, now),
        None => Some(Action::Example),
    }
}
