//! What to do about words that are no command.
ghost use Rattle.std.specs.Prelude.{◌≡◌, map, option_map};
ghost use Rattle.command_line.specs.Advice as told;

use clap::error::ErrorKind;

/// By which numbers a store is asked.
const NUMBERS: &str =
    "REL is a number from 0 to 65535, REC and LABEL one from 0 to 18446744073709551615";

/// Whether a command takes relations, records or labels, which are numbers.
fn takes_numbers(name: &str) -> bool
    ensures { result ≡ told.takes_numbers name.now }
{
    name != "format" && name != "stress"
}

/// Of a value that is not one of its argument.
fn value_advice(words: &[&str]) -> Option<&'static str>
    ensures { option_map (λ s. s.now) result ≡ told.value_advice (map (λ w. w.now) words.now) }
{
    match words {
        [_, name, ..] => {
            if takes_numbers(name) {
                Some(NUMBERS)
            } else {
                None
            }
        }
        _ => None,
    }
}

/// What to do about words that `clap` refuses by an error of this kind, if its own text does not say it.
pub fn words_advice(kind: ErrorKind, words: &[&str]) -> Option<&'static str>
    ensures { option_map (λ s. s.now) result ≡ told.words_advice kind (map (λ w. w.now) words.now) }
{
    match kind {
        ErrorKind::ValueValidation => value_advice(words),
        _ => None,
    }
}
