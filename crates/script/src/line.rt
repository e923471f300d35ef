//! What a line of the script asks for.
ghost use Rattle.std.specs.Prelude.{◌≡◌, ◌∷◌};
ghost use Rattle.std.specs.Str.{bytes_eq};
ghost use Rattle.script.specs.Lines as told;

use crate::fields::Fields;
use crate::name::Name;
use crate::numbers::{number, relation_number};
use crate::times::read_time;
use crate::words::Words;
use history::Key;

/// A line that has a form. Times are microseconds since 1970.
#[derive(Drop)]
pub enum Line<'a> {
    /// Begins a transaction under a name.
    Begin(Name),
    /// Puts a value, its fields, under a key.
    Put(Name, Key, Fields<'a>),
    /// Deletes the value of a key.
    Delete(Name, Key),
    /// Asks for a key's value in the transaction's own view.
    Get(Name, Key),
    /// Submits a transaction with a label at a time.
    Submit(Name, u64, u64),
    /// Aborts a transaction.
    Abort(Name),
    /// Asks whether a ticket's commit is published.
    Redeem(Name),
    /// Takes one step of the commits that are queued.
    Pump,
    /// Takes steps until nothing is left to do, or one is refused.
    Flush,
    /// Asks for a key's value at a time.
    At(Key, u64),
    /// Asks for the rows of a key from one time up to another.
    Between(Key, u64, u64),
    /// Asks for the records of a relation that have a value at a time.
    Scan(u16, u64),
    /// Asks for the times of the commits with a label.
    Times(u64),
    /// Begins an archive of what ended by a time.
    Archive(u64),
    /// Begins a reclaim of what is archived.
    Reclaim,
    /// Begins to raise the floor of one relation, or of every relation, to a time: what was valid before it
    /// need not be answered.
    Floor(Option<u16>, u64),
    /// Begins to make 256 slots more.
    Grow,
    /// Takes one step of the archive, the reclaim, the floor or the slots that are being made.
    Job,
    /// Takes steps of it until nothing is left to do, or one is refused.
    Finish,
    /// Closes the store and opens it again.
    Reopen,
}

fn is(word: &[u8], text: &str) -> bool
    ensures { result ≡ bytes_eq word.now text.now }
{
    word == text.as_bytes()
}

/// The key of a relation and a record.
fn key(relation: &[u8], record: &[u8]) -> Option<Key>
    ensures { result ≡ told.key_in relation.now «record».now }
{
    Some(Key {
        relation: relation_number(relation)?,
        record: number(record)?,
    })
}

/// The name of a line with a name alone.
fn only_name(mut words: Words<'_>) -> Option<Name>
    ensures { result ≡ told.only_name words.entry }
{
    let name = words.next()?;
    if !words.is_empty() {
        return None;
    }
    Name::new(name)
}

/// The name and the key of a line with these alone.
fn name_and_key(mut words: Words<'_>) -> Option<(Name, Key)>
    ensures { result ≡ told.name_and_key words.entry }
{
    let name = words.next()?;
    let relation = words.next()?;
    let record = words.next()?;
    if !words.is_empty() {
        return None;
    }
    Some((Name::new(name)?, key(relation, record)?))
}

fn put<'a>(mut words: Words<'a>) -> Option<Line<'a>>
    ensures { result ≡ told.put_of words.entry }
{
    let name = words.next()?;
    let relation = words.next()?;
    let record = words.next()?;
    Some(Line::Put(
        Name::new(name)?,
        key(relation, record)?,
        Fields::new(words)?,
    ))
}

fn submit<'a>(mut words: Words<'a>) -> Option<Line<'a>>
    ensures { result ≡ told.submit_of words.entry }
{
    let name = words.next()?;
    let label = words.next()?;
    let now = words.next()?;
    if !words.is_empty() {
        return None;
    }
    Some(Line::Submit(Name::new(name)?, number(label)?, read_time(now)?))
}

fn at<'a>(mut words: Words<'a>) -> Option<Line<'a>>
    ensures { result ≡ told.at_of words.entry }
{
    let relation = words.next()?;
    let record = words.next()?;
    let at = words.next()?;
    if !words.is_empty() {
        return None;
    }
    Some(Line::At(key(relation, record)?, read_time(at)?))
}

fn between<'a>(mut words: Words<'a>) -> Option<Line<'a>>
    ensures { result ≡ told.between_of words.entry }
{
    let relation = words.next()?;
    let record = words.next()?;
    let from = words.next()?;
    let to = words.next()?;
    if !words.is_empty() {
        return None;
    }
    Some(Line::Between(key(relation, record)?, read_time(from)?, read_time(to)?))
}

fn scan<'a>(mut words: Words<'a>) -> Option<Line<'a>>
    ensures { result ≡ told.scan_of words.entry }
{
    let relation = words.next()?;
    let at = words.next()?;
    if !words.is_empty() {
        return None;
    }
    Some(Line::Scan(relation_number(relation)?, read_time(at)?))
}

fn times<'a>(mut words: Words<'a>) -> Option<Line<'a>>
    ensures { result ≡ told.times_of words.entry }
{
    let label = words.next()?;
    if !words.is_empty() {
        return None;
    }
    Some(Line::Times(number(label)?))
}

fn archive<'a>(mut words: Words<'a>) -> Option<Line<'a>>
    ensures { result ≡ told.archive_of words.entry }
{
    let upto = words.next()?;
    if !words.is_empty() {
        return None;
    }
    Some(Line::Archive(read_time(upto)?))
}

fn floor<'a>(mut words: Words<'a>) -> Option<Line<'a>>
    ensures { result ≡ told.floor_of words.entry }
{
    let floor = words.next()?;
    if !words.is_empty() {
        return None;
    }
    Some(Line::Floor(None, read_time(floor)?))
}

fn floor_of<'a>(mut words: Words<'a>) -> Option<Line<'a>>
    ensures { result ≡ told.floorof_of words.entry }
{
    let relation = words.next()?;
    let floor = words.next()?;
    if !words.is_empty() {
        return None;
    }
    let relation = relation_number(relation)?;
    Some(Line::Floor(Some(relation), read_time(floor)?))
}

/// A line of its command alone.
fn alone<'a>(found: Line<'a>, words: Words<'_>) -> Option<Line<'a>>
    ensures { result ≡ told.alone found.entry words.entry }
{
    if words.is_empty() { Some(found) } else { None }
}

/// What a line's words after a command ask for.
fn read<'a>(command: &[u8], words: Words<'a>) -> Option<Line<'a>>
    ensures { result ≡ told.line_of (command.now ∷ words.entry) }
{
    if is(command, "begin") {
        Some(Line::Begin(only_name(words)?))
    } else if is(command, "put") {
        put(words)
    } else if is(command, "del") {
        let (name, key) = name_and_key(words)?;
        Some(Line::Delete(name, key))
    } else if is(command, "get") {
        let (name, key) = name_and_key(words)?;
        Some(Line::Get(name, key))
    } else if is(command, "submit") {
        submit(words)
    } else if is(command, "abort") {
        Some(Line::Abort(only_name(words)?))
    } else if is(command, "redeem") {
        Some(Line::Redeem(only_name(words)?))
    } else {
        read_of_store(command, words)
    }
}

/// What a line's words ask for that names no transaction and no ticket.
fn read_of_store<'a>(command: &[u8], words: Words<'a>) -> Option<Line<'a>>
    ensures { result ≡ told.store_line_of command.now words.entry }
{
    if is(command, "pump") {
        alone(Line::Pump, words)
    } else if is(command, "flush") {
        alone(Line::Flush, words)
    } else if is(command, "at") {
        at(words)
    } else if is(command, "between") {
        between(words)
    } else if is(command, "scan") {
        scan(words)
    } else if is(command, "times") {
        times(words)
    } else if is(command, "archive") {
        archive(words)
    } else if is(command, "reclaim") {
        alone(Line::Reclaim, words)
    } else if is(command, "floor") {
        floor(words)
    } else if is(command, "floorof") {
        floor_of(words)
    } else if is(command, "grow") {
        alone(Line::Grow, words)
    } else if is(command, "job") {
        alone(Line::Job, words)
    } else if is(command, "finish") {
        alone(Line::Finish, words)
    } else if is(command, "reopen") {
        alone(Line::Reopen, words)
    } else {
        None
    }
}

/// What a line asks for, if it has a form. It takes no memory.
pub fn parse(line: &[u8]) -> Option<Line<'_>>
    ensures { result ≡ told.said line.entry.now }
{
    let mut words = Words::new(line);
    let command = words.next()?;
    read(command, words)
}
