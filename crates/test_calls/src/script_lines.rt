//! Lines of a script: what each asks for, and which have no form.
use crate::published::SEVEN;
use history::Key;
use script::{Line, parse, read_time};
use std::alloc::Global;

fn line(text: &str) -> Option<Line<'_>> {
    parse(text.as_bytes())
}

/// Puts of `SEVEN`, their names and their fields.
const PUTS: &[(&str, &str, &[&[u8]])] = &[
    (
        "put t1 1 7 610aff - 00",
        "t1",
        &[b"\x61\x0a\xff", b"", b"\0"],
    ),
    ("put t 1 7", "t", &[]),
];

fn are_fields(found: &[Vec<u8>], fields: &[&[u8]]) -> bool {
    for (place, one) in found.iter().enumerate() {
        let Some(field) = fields.get(place) else {
            return false;
        };
        if one.as_slice() != *field {
            return false;
        }
    }
    found.len() == fields.len()
}

/// Whether a line puts these fields under a name.
fn is_put(alloc: Global, text: &str, name: &str, fields: &[&[u8]]) -> bool {
    let Some(Line::Put(found, SEVEN, encoded)) = line(text) else {
        return false;
    };
    match encoded.decode(alloc) {
        Ok(all) => found.as_bytes() == name.as_bytes() && are_fields(&all, fields),
        Err(_) => false,
    }
}

#[test]
fn a_put_has_a_name_a_key_and_fields(rt: HostRuntime) {
    for (text, name, fields) in PUTS {
        assert!(rt; is_put(rt.alloc(), text, name, fields), "{text}");
    }
}

/// What a line asks for.
#[derive(Clone, Copy)]
enum Want {
    Nothing,
    Begin,
    Delete,
    Get(Key),
    Submit(u64, u64),
    Abort,
    Redeem,
    Pump,
    Flush,
    /// Of `SEVEN` at a time.
    At(u64),
    /// Of `SEVEN` from one time up to another.
    Between(u64, u64),
    Scan(u16, u64),
    Times(u64),
    Archive(u64),
    Reclaim,
    Floor(Option<u16>, u64),
    Grow,
    Job,
    Finish,
    Reopen,
}

const LAST: Key = Key {
    relation: u16::MAX,
    record: 0,
};

/// Lines, and what each asks for. Numbers reach the ends of their ranges, and a time may be an instant.
const LINES: &[(&str, Want)] = &[
    ("begin abcdefghijklmn09", Want::Begin),
    ("del t 1 7", Want::Delete),
    ("get t 1 7", Want::Get(SEVEN)),
    ("submit t 9 100", Want::Submit(9, 100)),
    ("abort t", Want::Abort),
    ("redeem t", Want::Redeem),
    ("pump", Want::Pump),
    ("flush", Want::Flush),
    ("at 1 7 101", Want::At(101)),
    ("times 9", Want::Times(9)),
    ("reopen", Want::Reopen),
    ("get t 65535 0", Want::Get(LAST)),
    ("get t 65536 0", Want::Nothing),
    ("at 1 7 1970-01-01T00:00:01Z", Want::At(1_000_000)),
    ("times 1970-01-01T00:00:01Z", Want::Nothing),
    (
        "between 1 7 0 1970-01-01T00:00:01Z",
        Want::Between(0, 1_000_000),
    ),
    ("scan 1 115", Want::Scan(1, 115)),
    ("archive 120", Want::Archive(120)),
    ("archive 1970-01-01T00:00:01Z", Want::Archive(1_000_000)),
    ("archive 18446744073709551615", Want::Archive(u64::MAX)),
    ("reclaim", Want::Reclaim),
    ("grow", Want::Grow),
    ("job", Want::Job),
    ("finish", Want::Finish),
    ("floor 120", Want::Floor(None, 120)),
    ("floor 1970-01-01T00:00:01Z", Want::Floor(None, 1_000_000)),
    ("floor 18446744073709551615", Want::Floor(None, u64::MAX)),
    ("floorof 1 120", Want::Floor(Some(1), 120)),
    (
        "floorof 0 1970-01-01T00:00:01Z",
        Want::Floor(Some(0), 1_000_000),
    ),
    (
        "floorof 65535 18446744073709551615",
        Want::Floor(Some(65_535), u64::MAX),
    ),
];

/// Whether a line of times asks for that.
fn is_timed(line: &Line<'_>, want: &Want) -> bool {
    match *want {
        Want::Submit(label, now) =>
            matches!(line, Line::Submit(_, l, n) if *l == label && *n == now),
        Want::At(time) => matches!(line, Line::At(SEVEN, t) if *t == time),
        Want::Between(a, b) => matches!(line, Line::Between(SEVEN, c, d) if *c == a && *d == b),
        Want::Scan(relation, time) => {
            matches!(line, Line::Scan(r, t) if *r == relation && *t == time)
        }
        Want::Times(label) => matches!(line, Line::Times(found) if *found == label),
        Want::Archive(upto) => matches!(line, Line::Archive(time) if *time == upto),
        Want::Floor(scope, floor) => {
            matches!(line, Line::Floor(of, time) if *of == scope && *time == floor)
        }
        _ => false,
    }
}

fn is_line(line: &Line<'_>, want: &Want) -> bool {
    match *want {
        Want::Nothing => false,
        Want::Begin => matches!(line, Line::Begin(_)),
        Want::Delete => matches!(line, Line::Delete(_, SEVEN)),
        Want::Get(key) => matches!(line, Line::Get(_, found) if *found == key),
        Want::Abort => matches!(line, Line::Abort(_)),
        Want::Redeem => matches!(line, Line::Redeem(_)),
        Want::Pump => matches!(line, Line::Pump),
        Want::Flush => matches!(line, Line::Flush),
        Want::Reclaim => matches!(line, Line::Reclaim),
        Want::Grow => matches!(line, Line::Grow),
        Want::Job => matches!(line, Line::Job),
        Want::Finish => matches!(line, Line::Finish),
        Want::Reopen => matches!(line, Line::Reopen),
        _ => is_timed(line, want),
    }
}

/// Whether a text is a line that asks for that, or is none.
fn asks(text: &str, want: &Want) -> bool {
    match line(text) {
        Some(line) => is_line(&line, want),
        None => matches!(want, Want::Nothing),
    }
}

#[test]
fn each_command_has_its_form(rt: HostRuntime) {
    for (text, want) in LINES {
        assert!(rt; asks(text, want), "{text}");
    }
}

/// Words, and the times that they spell: numbers of at most 20 digits, and instants.
const TIMES: &[(&str, Option<u64>)] = &[
    ("18446744073709551615", Some(u64::MAX)),
    ("18446744073709551616", None),
    ("00000000000000000007", Some(7)),
    ("000000000000000000007", None),
    ("2001-09-09T01:46:40Z", Some(1_000_000_000_000_000)),
    ("2001-02-29T00:00:00Z", None),
    ("2001-09-09T01:46:40z", None),
];

#[test]
fn a_word_may_be_a_time(rt: HostRuntime) {
    for (word, time) in TIMES {
        assert!(rt; read_time(word.as_bytes()) == *time, "{word}");
    }
}

/// Lines of no form: of no command, of too few words or too many, with a space or a letter that is none of theirs, or
/// with a number out of its range.
const NO_FORM: &[&str] = &[
    "",
    " ",
    "begin",
    "begin ",
    " begin t",
    "begin  t",
    "begin t ",
    "begin t\r",
    "begin T",
    "begin t_",
    "begin abcdefghijklmnopq",
    "begin t u",
    "BEGIN t",
    "put t 1",
    "put t 1 7 ",
    "put t 1 7 6",
    "put t 1 7 6g",
    "put t 1 7 AA",
    "put t 1 7 --",
    "put t 1 7 61  62",
    "put t 65536 7 61",
    "put t 1 18446744073709551616 61",
    "get t 1",
    "get t 1 7 8",
    "del t 1 x",
    "submit t 9",
    "submit t +9 100",
    "submit t -9 100",
    "at 1 7",
    "at 1 7 ",
    "pump 1",
    "flush t",
    "times",
    "reopen now",
    "between 1 7 0",
    "between 1 7 0 101 102",
    "between 1 7 0 x",
    "scan 1",
    "scan 65536 100",
    "scan 1 100 7",
    "archive",
    "archive ",
    "archive soon",
    "archive 18446744073709551616",
    "archive 100 7",
    "reclaim 100",
    "grow 256",
    "ARCHIVE 100",
    "job 1",
    "finish 100",
    "floor",
    "floor ",
    "floor soon",
    "floor 18446744073709551616",
    "floor 100 7",
    "FLOOR 100",
    "floorof",
    "floorof 1",
    "floorof 1 ",
    "floorof 1 soon",
    "floorof x 100",
    "floorof 65536 100",
    "floorof 1 18446744073709551616",
    "floorof 1 100 7",
    "FLOOROF 1 100",
];

#[test]
fn a_line_of_no_form_asks_for_nothing(rt: HostRuntime) {
    for text in NO_FORM {
        assert!(rt; line(text).is_none(), "{text}");
    }
}
