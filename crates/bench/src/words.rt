//! What the words ask for.

use crate::{many_callers, one_caller};

/// Where the files of a measurement are, and how much of it is done.
#[derive(Clone, Copy)]
pub(crate) struct Request<'a> {
    pub(crate) folder: &'a str,
    /// How often it is done, or of how many versions.
    pub(crate) count: u64,
    /// How many versions each key has, in how many runs, or where the numbers of a soak come from; none where
    /// no number is given.
    pub(crate) number: Option<u64>,
}

pub(crate) enum Asked<'a> {
    /// There were no words.
    Usage,
    /// The words are none that the program knows.
    Nothing,
    /// A store with one caller.
    OneCaller(one_caller::Verb, Request<'a>),
    /// A store that threads share.
    ManyCallers(many_callers::Verb, Request<'a>),
}

/// The measurement of this name, if there is one; the count is that of the name, where none is given.
fn named<'a>(name: &str, folder: &'a str, count: Option<u64>, number: Option<u64>) -> Asked<'a> {
    if let Some((verb, often)) = one_caller::known(name) {
        let count = count.unwrap_or(often);
        return Asked::OneCaller(
            verb,
            Request {
                folder,
                count,
                number,
            },
        );
    }
    let Some((verb, often)) = many_callers::known(name) else {
        return Asked::Nothing;
    };
    let count = count.unwrap_or(often);
    Asked::ManyCallers(
        verb,
        Request {
            folder,
            count,
            number,
        },
    )
}

/// What the words ask for; the first is the program's name.
pub(crate) fn read<'a>(words: &[&'a str]) -> Asked<'a> {
    match words {
        [] | [_] => Asked::Usage,
        [_, name, folder] => named(name, folder, None, None),
        [_, name, folder, count] => match count.parse::<u64>() {
            Ok(count) => named(name, folder, Some(count), None),
            Err(_) => Asked::Nothing,
        },
        [_, name, folder, count, number] => match (count.parse::<u64>(), number.parse::<u64>()) {
            (Ok(count), Ok(number)) => named(name, folder, Some(count), Some(number)),
            _ => Asked::Nothing,
        },
        _ => Asked::Nothing,
    }
}
