//! What to do about words that no store can answer.
ghost use Rattle.std.specs.Prelude.{◌≡◌, option_map};
ghost use Rattle.shell.specs.Advice as told;

use crate::needs::is_size;
use command_line::{Action, Layout, RecordWrite};

/// How `at`, `between` and `vacuum` take a time.
const SCRIPT_TIME: &str = "a TIME is microseconds since 1970, or YYYY-MM-DDTHH:MM:SSZ";

/// How `floor` takes a time.
const MOMENT: &str =
    "a TIME is microseconds since 1970, YYYY-MM-DD, or YYYY-MM-DDTHH:MM:SS with Z or an offset as +01:00";

/// How a question takes a time.
const WHEN: &str =
    "a TIME is `now`, microseconds since 1970, YYYY-MM-DD, or YYYY-MM-DDTHH:MM:SS with Z or an offset as +01:00";

/// How a field is taken.
const FIELD: &str =
    "a FIELD is in lower-case hexadecimal, two digits a byte, `-` if empty; with --text it is text";

/// Which profile has which size.
const PROFILE: &str = "--slots is of profile 3, and --extents of --profile 4";

/// The sizes of stores.
const SIZE: &str = "--slots is 16 to 65536, and --extents a multiple of 16 from 64 to 1048576";

/// The advice where something is so.
fn advice_if(is_so: bool, advice: &'static str) -> Option<&'static str>
    ensures { option_map (λ s. s.now) result ≡ told.advice_if is_so advice.entry.now }
{
    if is_so { Some(advice) } else { None }
}

/// Of a store that is to be made.
fn layout_advice(layout: Option<Layout>) -> Option<&'static str>
    ensures { option_map (λ s. s.now) result ≡ told.layout_advice layout }
{
    match layout {
        Some(layout) => advice_if(!is_size(layout), SIZE),
        None => Some(PROFILE),
    }
}

/// Whether a byte is a lower-case hexadecimal digit.
fn is_digit(byte: u8) -> bool
    ensures { result ≡ told.is_digit byte }
{
    (byte >= b'0' && byte <= b'9') || (byte >= b'a' && byte <= b'f')
}

/// Whether bytes are such digits.
fn are_digits(bytes: &[u8]) -> bool
    ensures { result ≡ told.are_digits bytes.now }
{
    bytes.iter().all(|byte| is_digit(*byte))
}

/// Whether a word is a field in hexadecimal.
fn is_field(word: &str) -> bool
    ensures { result ≡ told.is_field word.now }
{
    word == "-" || (word.len() > 0 && word.len() % 2 == 0 && are_digits(word.as_bytes()))
}

/// Whether each word is one.
fn are_fields(words: &[&str]) -> bool
    ensures { result ≡ told.are_fields words.now }
{
    words.iter().all(|word| is_field(word))
}

/// Of a record that is to be written.
fn write_advice(write: &RecordWrite<'_>) -> Option<&'static str>
    ensures { option_map (λ s. s.now) result ≡ told.write_advice write.entry.now }
{
    match write.fields {
        Some(words) => advice_if(!write.is_text && !are_fields(words), FIELD),
        None => None,
    }
}

/// What to do about words that no store can answer, if these are such words.
pub fn advice(action: &Action<'_>) -> Option<&'static str>
    ensures { option_map (λ s. s.now) result ≡ told.advice action.entry.now }
{
    match *action {
        Action::Format { dir: _, layout } => layout_advice(layout),
        Action::At {
            dir: _,
            key: _,
            time,
        } => advice_if(time.is_none(), SCRIPT_TIME),
        Action::Between {
            dir: _,
            key: _,
            from,
            to,
        } => advice_if(from.is_none() || to.is_none(), SCRIPT_TIME),
        Action::Ask {
            dir: _,
            question,
            style: _,
        } => advice_if(question.is_none(), WHEN),
        Action::Write { dir: _, write } => write_advice(&write),
        Action::Vacuum { dir: _, time } => advice_if(time.is_none(), SCRIPT_TIME),
        Action::Floor {
            dir: _,
            relation: _,
            time,
        } => advice_if(time.is_none(), MOMENT),
        _ => None,
    }
}
