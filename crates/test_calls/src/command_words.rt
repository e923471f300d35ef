//! Words of the command line: what they ask for, and the texts of help and usage faults.
use clap::{ArgMatches, Error};
use command_line::{
    Action, Form, Layout, Question, RecordWrite, Style, When, action_of, read_words, words_advice,
};
use history::Key;
use std::alloc::Global;
use std::test::Fail;

const LAST: Key = Key {
    relation: u16::MAX,
    record: u64::MAX,
};

const SEVEN: Key = Key {
    relation: 1,
    record: 7,
};

/// What the clock says.
const NOW: u64 = 1_795_424_400_000_000;

/// Styles of answers: that of scripts, and others.
const PLAIN: Style = Style {
    form: Form::Hex,
    instants: false,
};

const JSON: Style = Style {
    form: Form::Json,
    instants: false,
};

const CSV: Style = Style {
    form: Form::Csv,
    instants: false,
};

const TEXT_MOMENTS: Style = Style {
    form: Form::Text,
    instants: true,
};

/// Words, and what they ask for.
const ASKED: &[(&[&str], Action<'static>)] = &[
    (&["timestore"], Action::Example),
    (
        &["timestore", "format", "d"],
        Action::Format {
            dir: "d",
            layout: Some(Layout::Slots(1024)),
        },
    ),
    (
        &["timestore", "format", "d", "--slots", "16"],
        Action::Format {
            dir: "d",
            layout: Some(Layout::Slots(16)),
        },
    ),
    (
        &["timestore", "format", "--slots=4294967295", "d"],
        Action::Format {
            dir: "d",
            layout: Some(Layout::Slots(u32::MAX)),
        },
    ),
    (
        &["timestore", "format", "d", "--profile", "3"],
        Action::Format {
            dir: "d",
            layout: Some(Layout::Slots(1024)),
        },
    ),
    (
        &["timestore", "format", "d", "--profile", "4"],
        Action::Format {
            dir: "d",
            layout: Some(Layout::Extents(262_144)),
        },
    ),
    (
        &[
            "timestore",
            "format",
            "d",
            "--extents",
            "64",
            "--profile",
            "4",
        ],
        Action::Format {
            dir: "d",
            layout: Some(Layout::Extents(64)),
        },
    ),
    (
        &["timestore", "format", "d", "--extents", "64"],
        Action::Format {
            dir: "d",
            layout: None,
        },
    ),
    (
        &["timestore", "format", "d", "--profile=4", "--slots=64"],
        Action::Format {
            dir: "d",
            layout: None,
        },
    ),
    (
        &["timestore", "run", "some/folder"],
        Action::Run { dir: "some/folder" },
    ),
    (
        &[
            "timestore",
            "at",
            "d",
            "65535",
            "18446744073709551615",
            "2001-09-09T01:46:40Z",
        ],
        Action::At {
            dir: "d",
            key: LAST,
            time: Some(1_000_000_000_000_000),
        },
    ),
    (
        &["timestore", "between", "d", "1", "7", "0", "later"],
        Action::Between {
            dir: "d",
            key: SEVEN,
            from: Some(0),
            to: None,
        },
    ),
    (
        &["timestore", "get", "d", "1", "7"],
        Action::Ask {
            dir: "d",
            question: Some(Question::Value(SEVEN, When::Now)),
            style: PLAIN,
        },
    ),
    (
        &["timestore", "get", "d", "1", "7", "120"],
        Action::Ask {
            dir: "d",
            question: Some(Question::Value(SEVEN, When::At(120))),
            style: PLAIN,
        },
    ),
    (
        &["timestore", "get", "d", "1", "7", "2001-09-09"],
        Action::Ask {
            dir: "d",
            question: Some(Question::Value(SEVEN, When::At(999_993_600_000_000))),
            style: PLAIN,
        },
    ),
    (
        &[
            "timestore",
            "get",
            "d",
            "1",
            "7",
            "2001-09-09T03:46:40.000001+02:00",
        ],
        Action::Ask {
            dir: "d",
            question: Some(Question::Value(SEVEN, When::At(1_000_000_000_000_001))),
            style: PLAIN,
        },
    ),
    (
        &[
            "timestore",
            "get",
            "d",
            "1",
            "7",
            "1969-12-31T23:59:59+00:00",
        ],
        Action::Ask {
            dir: "d",
            question: None,
            style: PLAIN,
        },
    ),
    (
        &["timestore", "get", "d", "1", "7", "soon"],
        Action::Ask {
            dir: "d",
            question: None,
            style: PLAIN,
        },
    ),
    (
        &["timestore", "scan", "d", "1", "now"],
        Action::Ask {
            dir: "d",
            question: Some(Question::Records(1, When::Now)),
            style: PLAIN,
        },
    ),
    (
        &["timestore", "history", "d", "1", "7"],
        Action::Ask {
            dir: "d",
            question: Some(Question::Rows(SEVEN, When::First, When::Now)),
            style: PLAIN,
        },
    ),
    (
        &["timestore", "history", "d", "1", "7", "5", "now"],
        Action::Ask {
            dir: "d",
            question: Some(Question::Rows(SEVEN, When::At(5), When::Now)),
            style: PLAIN,
        },
    ),
    (
        &["timestore", "times", "d", "18446744073709551615"],
        Action::Ask {
            dir: "d",
            question: Some(Question::Times(u64::MAX)),
            style: PLAIN,
        },
    ),
    (
        &["timestore", "put", "d", "1", "7", "61", "-"],
        Action::Write {
            dir: "d",
            write: RecordWrite {
                key: SEVEN,
                fields: Some(&["61", "-"]),
                is_text: false,
                label: 0,
                now: NOW,
            },
        },
    ),
    (
        &["timestore", "put", "--label", "3", "d", "1", "7", "61"],
        Action::Write {
            dir: "d",
            write: RecordWrite {
                key: SEVEN,
                fields: Some(&["61"]),
                is_text: false,
                label: 3,
                now: NOW,
            },
        },
    ),
    (
        &["timestore", "del", "d", "1", "7", "--label=3"],
        Action::Write {
            dir: "d",
            write: RecordWrite {
                key: SEVEN,
                fields: None,
                is_text: false,
                label: 3,
                now: NOW,
            },
        },
    ),
    (
        &["timestore", "get", "d", "--json", "1", "7"],
        Action::Ask {
            dir: "d",
            question: Some(Question::Value(SEVEN, When::Now)),
            style: JSON,
        },
    ),
    (
        &["timestore", "scan", "d", "1", "--text", "--json"],
        Action::Ask {
            dir: "d",
            question: Some(Question::Records(1, When::Now)),
            style: JSON,
        },
    ),
    (
        &["timestore", "scan", "d", "1", "--text", "--csv"],
        Action::Ask {
            dir: "d",
            question: Some(Question::Records(1, When::Now)),
            style: CSV,
        },
    ),
    (
        &["timestore", "times", "d", "3", "--csv", "--json"],
        Action::Ask {
            dir: "d",
            question: Some(Question::Times(3)),
            style: JSON,
        },
    ),
    (
        &[
            "timestore",
            "history",
            "d",
            "1",
            "7",
            "--text",
            "--instants",
        ],
        Action::Ask {
            dir: "d",
            question: Some(Question::Rows(SEVEN, When::First, When::Now)),
            style: TEXT_MOMENTS,
        },
    ),
    (
        &["timestore", "put", "d", "1", "7", "Ada", "--text"],
        Action::Write {
            dir: "d",
            write: RecordWrite {
                key: SEVEN,
                fields: Some(&["Ada"]),
                is_text: true,
                label: 0,
                now: NOW,
            },
        },
    ),
    (
        &["timestore", "floor", "d", "1", "120"],
        Action::Floor {
            dir: "d",
            relation: 1,
            time: Some(120),
        },
    ),
    (
        &["timestore", "info", "d"],
        Action::Info {
            dir: "d",
            json: false,
        },
    ),
    (
        &["timestore", "info", "--json", "d"],
        Action::Info {
            dir: "d",
            json: true,
        },
    ),
    (
        &["timestore", "vacuum", "d", "120"],
        Action::Vacuum {
            dir: "d",
            time: Some(120),
        },
    ),
    (
        &["timestore", "grow", "some/folder"],
        Action::Grow { dir: "some/folder" },
    ),
    (
        &["timestore", "dump", "some/folder"],
        Action::Dump { dir: "some/folder" },
    ),
];

/// Whether the matches of words ask for this action.
fn is_meant(matches: &ArgMatches<'_>, action: &Action<'_>) -> bool {
    match action_of(matches, NOW) {
        Some(asked) => asked == *action,
        None => false,
    }
}

fn is_asked(alloc: Global, words: &[&str], action: &Action<'_>) -> bool {
    match read_words(alloc, words) {
        Ok(matches) => is_meant(&matches, action),
        Err(_) => false,
    }
}

#[test]
fn words_ask_for_actions(rt: HostRuntime) {
    for (words, action) in ASKED {
        assert!(rt; is_asked(rt.alloc(), words, action), "{action:?}");
    }
}

fn usage<'a>(alloc: Global, words: &'a [&'a str]) -> Result<Error, Fail> {
    match read_words(alloc, words) {
        Err(error) => Ok(error),
        Ok(_) => Err(Fail::from("the words are taken")),
    }
}

/// What is no command.
const FAULTS: &[(&str, &[&str])] = &[
    ("format without a folder", &["timestore", "format"]),
    (
        "too many slots",
        &["timestore", "format", "d", "--slots", "4294967296"],
    ),
    (
        "slots that are no number",
        &["timestore", "format", "d", "--slots", "many"],
    ),
    (
        "extents that are no number",
        &["timestore", "format", "d", "--extents", "many"],
    ),
    (
        "a profile that is not made",
        &["timestore", "format", "d", "--profile", "2"],
    ),
    (
        "no such profile",
        &["timestore", "format", "d", "--profile", "5"],
    ),
    ("two folders", &["timestore", "format", "d", "e"]),
    ("run without a folder", &["timestore", "run"]),
    ("at without a time", &["timestore", "at", "d", "1", "7"]),
    (
        "no such relation",
        &["timestore", "at", "d", "65536", "7", "1"],
    ),
    (
        "no such record",
        &["timestore", "at", "d", "1", "18446744073709551616", "1"],
    ),
    (
        "a record below zero",
        &["timestore", "at", "d", "1", "-7", "1"],
    ),
    (
        "between with one time",
        &["timestore", "between", "d", "1", "7", "0"],
    ),
    ("vacuum without a time", &["timestore", "vacuum", "d"]),
    (
        "vacuum with two times",
        &["timestore", "vacuum", "d", "1", "2"],
    ),
    (
        "instants where there is no time",
        &["timestore", "get", "d", "1", "7", "--instants"],
    ),
    (
        "a flag twice",
        &["timestore", "info", "d", "--json", "--json"],
    ),
    ("floor without a time", &["timestore", "floor", "d", "1"]),
    ("put without a field", &["timestore", "put", "d", "1", "7"]),
    (
        "put with 17 fields",
        &[
            "timestore",
            "put",
            "d",
            "1",
            "7",
            "-",
            "-",
            "-",
            "-",
            "-",
            "-",
            "-",
            "-",
            "-",
            "-",
            "-",
            "-",
            "-",
            "-",
            "-",
            "-",
            "-",
        ],
    ),
    (
        "a label that is no number",
        &["timestore", "del", "d", "1", "7", "--label", "x"],
    ),
    ("times without a label", &["timestore", "times", "d"]),
    (
        "scan of two times",
        &["timestore", "scan", "d", "1", "2", "3"],
    ),
    ("no such command", &["timestore", "forget", "d"]),
    ("slots without a command", &["timestore", "--slots", "16"]),
];

/// Whether words are refused with an exit status of 2, on standard error.
fn is_refused(alloc: Global, words: &[&str]) -> bool {
    match read_words(alloc, words) {
        Err(error) => error.exit_code() == 2 && error.use_stderr(),
        Ok(_) => false,
    }
}

#[test]
fn what_is_no_command_is_a_usage_fault(rt: HostRuntime) {
    for (what, words) in FAULTS {
        assert!(rt; is_refused(rt.alloc(), words), "{what}");
    }
}

fn first_missing<'a>(text: &str, named: &'a [&'a str]) -> Option<&'a str> {
    for part in named {
        if !text.contains(*part) {
            return Some(*part);
        }
    }
    None
}

/// The first of these that the text of help, which is no fault, does not name.
fn missing<'a>(
    alloc: Global,
    words: &[&str],
    named: &'a [&'a str],
) -> Result<Option<&'a str>, Fail> {
    let error = usage(alloc, words)?;
    if error.exit_code() != 0 || error.use_stderr() {
        return Err("no help".into());
    }
    let text = format!(in alloc; "{error}")?;
    Ok(first_missing(text.as_str(), named))
}

/// What help names: each command, and the limits of a store.
const NAMED: &[&str] = &[
    "\nWhat to do:\n",
    "timestore put DIR 1 7 Ada London --text",
    "\n  format ",
    "\n  run ",
    "\n  at ",
    "\n  between ",
    "\n  vacuum ",
    "\n  grow ",
    "\n  dump ",
    "\n  get ",
    "\n  scan ",
    "\n  history ",
    "\n  times ",
    "\n  put ",
    "\n  del ",
    "\n  floor ",
    "\n  info ",
    "16 to 65536",
    "1 to 16\n             commits",
    "65536 extents of 8 KiB",
    "1 to 1024 keys",
    "0 to 18446744073709551615",
    "1 to 16 fields of 0 to 255 bytes",
    "1 to 9223372036854775807",
    "YYYY-MM-DDTHH:MM:SSZ",
    "status full",
    "heap full",
    "Exit status: 0 done, 1 refused, 2 words that are no command.",
];

/// The words that ask for help.
const HELPS: &[&[&str]] = &[
    &["timestore", "--help"],
    &["timestore", "-h"],
    &["timestore", "help"],
];

#[test]
fn help_names_the_commands_and_the_limits(rt: HostRuntime) -> Result<(), Fail> {
    for words in HELPS {
        assert_eq!(rt; missing(rt.alloc(), words, NAMED)?, None);
    }
    Ok(())
}

/// What the help of each command says of it: its arguments, and each line of a script.
const HELP: &[(&str, &[&str])] = &[
    (
        "format",
        &[
            "<DIR>",
            "--profile <P>",
            "[default: 3]",
            "--slots <N>",
            "16 to 65536",
            "--extents <E>",
            "64 to 1048576",
            "wrong profile",
        ],
    ),
    (
        "run",
        &[
            "<DIR>",
            "begin NAME",
            "put NAME REL REC F..",
            "del NAME REL REC",
            "get NAME REL REC",
            "submit NAME LABEL TIME",
            "abort NAME",
            "pump",
            "flush",
            "redeem NAME",
            "at REL REC TIME",
            "between REL REC TIME TIME",
            "scan REL TIME",
            "times LABEL",
            "archive TIME",
            "reclaim",
            "floor TIME",
            "floorof REL TIME",
            "job",
            "finish",
            "reopen",
            "at most 64",
            "refused: ",
        ],
    ),
    (
        "at",
        &[
            "<DIR>",
            "<REL>",
            "<REC>",
            "<TIME>",
            "microseconds since 1970",
        ],
    ),
    (
        "between",
        &[
            "<DIR>",
            "<REL>",
            "<REC>",
            "<FROM>",
            "<TO>",
            "microseconds since 1970",
        ],
    ),
    (
        "vacuum",
        &[
            "<DIR>",
            "<TIME>",
            "archived N",
            "reclaimed N",
            "first refusal",
            "heap full",
        ],
    ),
    (
        "get",
        &[
            "<DIR>", "<REL>", "<REC>", "[TIME]", "`now`", "--text", "--json", "--csv",
        ],
    ),
    (
        "scan",
        &[
            "<DIR>", "<REL>", "[TIME]", "`now`", "--text", "--json", "--csv",
        ],
    ),
    (
        "history",
        &[
            "<DIR>",
            "<REL>",
            "<REC>",
            "[FROM]",
            "[TO]",
            "--text",
            "--json",
            "--csv",
            "--instants",
        ],
    ),
    (
        "times",
        &[
            "<DIR>",
            "<LABEL>",
            "--text",
            "--json",
            "--csv",
            "--instants",
        ],
    ),
    (
        "put",
        &[
            "<DIR>",
            "<REL>",
            "<REC>",
            "<FIELD>...",
            "--label <N>",
            "--text",
            "[default: 0]",
            "done T",
            "bad value",
        ],
    ),
    (
        "del",
        &["<DIR>", "<REL>", "<REC>", "--label <N>", "missing"],
    ),
    ("grow", &["<DIR>", "slots N", "not growable"]),
    (
        "floor",
        &["<DIR>", "<REL>", "<TIME>", "floor T", "wrong profile"],
    ),
    (
        "info",
        &[
            "<DIR>",
            "--json",
            "\n  profile ",
            "\n  slots, used ",
            "\n  extents ",
            "\n  commits ",
            "\n  first, last ",
            "\n  archived ",
            "\n  archive ",
            "\n  reclaimed ",
            "\n  days ",
            "\n  floor REL T ",
        ],
    ),
    (
        "dump",
        &[
            "<DIR>",
            "header SLOTS pieces N",
            "member LABEL TIME EXTENT EXTENTS RECORDS INSTANT",
            "slot N floor TIME",
            "slot N floor TIME relation REL",
        ],
    ),
];

#[test]
fn help_of_a_command_names_what_it_takes(rt: HostRuntime) -> Result<(), Fail> {
    for (command, named) in HELP {
        let words = ["timestore", *command, "--help"];
        assert_eq!(rt; missing(rt.alloc(), &words, named)?, None, "{command}");
    }
    Ok(())
}

/// What is said of a relation out of range.
const NAMES_THE_RANGE: &str = "error: invalid value '65536' for '<REL>': 65536 is not in 0..=65535

For more information, try '--help'.
";

#[test]
fn a_number_out_of_range_is_named(rt: HostRuntime) -> Result<(), Fail> {
    let words = ["timestore", "at", "d", "65536", "7", "1"];
    let error = usage(rt.alloc(), &words)?;
    let text = format!(in rt.alloc(); "{error}")?;
    assert!(rt; text.as_str() == NAMES_THE_RANGE);
    Ok(())
}

/// What is said of numbers.
const NUMBERS: Option<&str> = Some(
    "REL is a number from 0 to 65535, REC and LABEL one from 0 to 18446744073709551615",
);

/// Words that are refused, and what is to be done.
const ADVICE: &[(&[&str], Option<&str>)] = &[
    (&["timestore", "get", "d", "users", "7"], NUMBERS),
    (&["timestore", "put", "d", "1", "Ada", "61"], NUMBERS),
    (&["timestore", "scan", "d", "65536"], NUMBERS),
    (&["timestore", "times", "d", "many"], NUMBERS),
    (&["timestore", "format", "d", "--slots", "many"], None),
    (&["timestore", "stress", "9", "1", "1"], None),
    (&["timestore", "get", "d", "1"], None),
    (&["timestore", "forget", "users"], None),
    (&["timestore", "--help"], None),
];

#[test]
fn a_number_that_is_none_is_advised(rt: HostRuntime) -> Result<(), Fail> {
    for (words, advice) in ADVICE {
        let error = usage(rt.alloc(), words)?;
        assert_eq!(rt; words_advice(error.kind(), words), *advice);
    }
    Ok(())
}
