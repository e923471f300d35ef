//! What to do about words that no store can answer.
use history::Key;
use shell::{Action, Layout, Question, RecordWrite, Style, When, advice};
use std::test::Fail;

const KEY: Key = Key {
    relation: 1,
    record: 7,
};

const PLAIN: Style = Style {
    form: shell::Form::Hex,
    instants: false,
};

/// Commands whose time is none.
const AT: Action<'static> = Action::At {
    dir: "",
    key: KEY,
    time: None,
};

const VACUUM: Action<'static> = Action::Vacuum {
    dir: "",
    time: None,
};

const FLOOR: Action<'static> = Action::Floor {
    dir: "",
    relation: 1,
    time: None,
};

/// What is said of a time that a script takes, of a question's and of a floor's.
const SCRIPT: Option<&str> = Some("a TIME is microseconds since 1970, or YYYY-MM-DDTHH:MM:SSZ");

const WHEN: Option<&str> = Some(
    "a TIME is `now`, microseconds since 1970, YYYY-MM-DD, or YYYY-MM-DDTHH:MM:SS with Z or an offset as +01:00",
);

const MOMENT: Option<&str> = Some(
    "a TIME is microseconds since 1970, YYYY-MM-DD, or YYYY-MM-DDTHH:MM:SS with Z or an offset as +01:00",
);

/// Of sizes, and of a field.
const SIZE: Option<&str> = Some(
    "--slots is 16 to 65536, and --extents a multiple of 16 from 64 to 1048576",
);

const PROFILE: Option<&str> = Some("--slots is of profile 3, and --extents of --profile 4");

const FIELD: Option<&str> = Some(
    "a FIELD is in lower-case hexadecimal, two digits a byte, `-` if empty; with --text it is text",
);

/// A question, or one whose times are none.
fn ask(question: Option<Question>) -> Action<'static> {
    Action::Ask {
        dir: "",
        question,
        style: PLAIN,
    }
}

/// A store that is to be made.
fn format(layout: Option<Layout>) -> Action<'static> {
    Action::Format { dir: "", layout }
}

/// A record that is to be written.
fn write(fields: Option<&'static [&'static str]>, is_text: bool) -> Action<'static> {
    Action::Write {
        dir: "",
        write: RecordWrite {
            key: KEY,
            fields,
            is_text,
            label: 0,
            now: 1,
        },
    }
}

/// Times up to which is asked.
fn between(from: Option<u64>, to: Option<u64>) -> Action<'static> {
    Action::Between {
        dir: "",
        key: KEY,
        from,
        to,
    }
}

#[test]
fn a_time_that_is_none_is_advised(rt: HostRuntime) -> Result<(), Fail> {
    let value = Question::Value(KEY, When::Now);
    assert_eq!(rt; advice(&ask(Some(value))), None);
    assert_eq!(rt; advice(&ask(None)), WHEN);
    assert_eq!(rt; advice(&between(Some(1), Some(2))), None);
    assert_eq!(rt; advice(&between(None, Some(2))), SCRIPT);
    assert_eq!(rt; advice(&between(Some(1), None)), SCRIPT);
    assert_eq!(rt; advice(&AT), SCRIPT);
    assert_eq!(rt; advice(&VACUUM), SCRIPT);
    assert_eq!(rt; advice(&FLOOR), MOMENT);
    Ok(())
}

#[test]
fn a_size_that_no_store_has_is_advised(rt: HostRuntime) -> Result<(), Fail> {
    assert_eq!(rt; advice(&format(None)), PROFILE);
    assert_eq!(rt; advice(&format(Some(Layout::Slots(15)))), SIZE);
    assert_eq!(rt; advice(&format(Some(Layout::Extents(72)))), SIZE);
    assert_eq!(rt; advice(&format(Some(Layout::Slots(16)))), None);
    assert_eq!(rt; advice(&Action::Example), None);
    Ok(())
}

/// Fields, and whether they are taken for text.
const TAKEN: &[(&[&str], bool)] = &[(&["61", "-", "0af9"], false), (&["Ada", "\\q"], true)];

const REFUSED: &[&[&str]] = &[&["61", "Ada!"], &["6A"], &["616"], &[""], &["é"]];

#[test]
fn a_field_in_no_hexadecimal_is_advised(rt: HostRuntime) -> Result<(), Fail> {
    assert_eq!(rt; advice(&write(None, false)), None);
    for (fields, is_text) in TAKEN {
        assert_eq!(rt; advice(&write(Some(fields), *is_text)), None);
    }
    for fields in REFUSED {
        assert_eq!(rt; advice(&write(Some(fields), false)), FIELD);
    }
    Ok(())
}
