//! Commands that ask one question or write one record.
use crate::examples::{Example, each_goes};
use crate::machine::KEY;
use crate::machine::Profiles::{Each, Newest};
use crate::steps::Step;
use crate::steps::Step::{Asks, AsksIn, Does, New, Runs, Says, Texts, Vacuums, Writes};
use history::Key;
use shell::{Action, Form, Question, Style, When};
use std::test::Fail;

/// A record beside the example's.
const BESIDE: Key = Key {
    relation: 1,
    record: 8,
};

/// The value that stands now, all rows that are kept, and the records that stand now.
const GET: Question = Question::Value(KEY, When::Now);

const HISTORY: Question = Question::Rows(KEY, When::First, When::Now);

const SCAN: Question = Question::Records(1, When::Now);

/// The floor of the example's relation raised to these times, and to none.
const FLOOR_105: Action<'static> = Action::Floor {
    dir: "",
    relation: 1,
    time: Some(105),
};

const FLOOR_107: Action<'static> = Action::Floor {
    dir: "",
    relation: 1,
    time: Some(107),
};

const FLOOR_111: Action<'static> = Action::Floor {
    dir: "",
    relation: 1,
    time: Some(111),
};

const FLOOR_NONE: Action<'static> = Action::Floor {
    dir: "",
    relation: 1,
    time: None,
};

/// What the log tells, in lines and in JSON.
const LINES: Action<'static> = Action::Info {
    dir: "",
    json: false,
};

const OBJECT: Action<'static> = Action::Info {
    dir: "",
    json: true,
};

/// Fields as text, and in JSON; with instants too.
const TEXT: Style = Style {
    form: Form::Text,
    instants: false,
};

const JSON: Style = Style {
    form: Form::Json,
    instants: false,
};

const CSV: Style = Style {
    form: Form::Csv,
    instants: false,
};

const MOMENTS: Style = Style {
    form: Form::Hex,
    instants: true,
};

const TEXT_MOMENTS: Style = Style {
    form: Form::Text,
    instants: true,
};

const JSON_MOMENTS: Style = Style {
    form: Form::Json,
    instants: true,
};

const CSV_MOMENTS: Style = Style {
    form: Form::Csv,
    instants: true,
};

/// Two texts, one of two lines; and bytes that are no text.
const FORMS: &[Step] = &[
    New(16),
    AsksIn(TEXT, GET, "none\n", 0),
    AsksIn(JSON, GET, "{\"value\":null}\n", 0),
    Texts(
        KEY,
        &["Ada \\\\ \"x\"", "one\\ntwo\\t", ""],
        (1, 1_000_000_000_000_000),
        "done 1000000000000000\n",
        0,
    ),
    Asks(GET, "value 416461205c20227822 6f6e650a74776f09 -\n", 0),
    AsksIn(TEXT, GET, "value\tAda \\\\ \"x\"\tone\\ntwo\\t\t\n", 0),
    AsksIn(
        JSON,
        GET,
        "{\"value\":[\"Ada \\\\ \\\"x\\\"\",\"one\\ntwo\\t\",\"\"]}\n",
        0,
    ),
    Texts(
        BESIDE,
        &["\\xff00", "caf\u{e9}"],
        (1, 1_000_000_000_000_001),
        "done 1000000000000001\n",
        0,
    ),
    AsksIn(
        TEXT,
        SCAN,
        "7\tAda \\\\ \"x\"\tone\\ntwo\\t\t\n8\t\\xff00\tcaf\u{e9}\nrows\t2\n",
        0,
    ),
    AsksIn(
        JSON,
        Question::Value(BESIDE, When::Now),
        "{\"value\":[{\"hex\":\"ff00\"},\"caf\u{e9}\"]}\n",
        0,
    ),
    AsksIn(
        JSON,
        SCAN,
        "{\"record\":7,\"value\":[\"Ada \\\\ \\\"x\\\"\",\"one\\ntwo\\t\",\"\"]}\n\
         {\"record\":8,\"value\":[{\"hex\":\"ff00\"},\"caf\u{e9}\"]}\n",
        0,
    ),
    AsksIn(
        JSON,
        Question::Value(KEY, When::At(1_000_000_000_000_002)),
        "refused: not yet 1000000000000001\n",
        1,
    ),
    Texts(KEY, &["\\q"], (1, 1), "refused: bad value\n", 1),
    Texts(KEY, &["x\\"], (1, 1), "refused: bad value\n", 1),
    Texts(KEY, &["\\xf"], (1, 1), "refused: bad value\n", 1),
];

/// Rows of CSV: cells in quotes, fewer fields than columns, and bytes that are no text.
const TABLES: &[Step] = &[
    New(16),
    AsksIn(CSV, GET, "fields\r\n", 0),
    AsksIn(CSV, SCAN, "record,fields\r\n", 0),
    AsksIn(CSV, Question::Times(1), "time\r\n", 0),
    Texts(
        KEY,
        &["Ada, \"x\"", "one\\ntwo", "", "a\\\\b"],
        (1, 1_000_000_000_000_000),
        "done 1000000000000000\n",
        0,
    ),
    AsksIn(
        CSV,
        GET,
        "fields,field1,field2,field3,field4\r\n4,\"Ada, \"\"x\"\"\",\"one\ntwo\",,a\\b\r\n",
        0,
    ),
    Texts(
        BESIDE,
        &["\\xff00", "\\\\x61"],
        (1, 1_000_000_000_000_001),
        "done 1000000000000001\n",
        0,
    ),
    AsksIn(
        CSV,
        SCAN,
        "record,fields,field1,field2,field3,field4\r\n7,4,\"Ada, \"\"x\"\"\",\"one\ntwo\",,a\\b\r\n\
         8,2,\\xff00,\\x5c783631,,\r\n",
        0,
    ),
    Texts(
        KEY,
        &[""],
        (1, 1_000_000_000_000_002),
        "done 1000000000000002\n",
        0,
    ),
    AsksIn(
        CSV,
        Question::Rows(KEY, When::At(1_000_000_000_000_001), When::Now),
        "from,to,fields,field1,field2,field3,field4\r\n\
         1000000000000001,1000000000000002,4,\"Ada, \"\"x\"\"\",\"one\ntwo\",,a\\b\r\n\
         1000000000000002,1000000000000003,1,,,,\r\n",
        0,
    ),
    AsksIn(
        CSV_MOMENTS,
        Question::Rows(KEY, When::Now, When::Now),
        "from,to,fields,field1\r\n2001-09-09T01:46:40.000002Z,2001-09-09T01:46:40.000003Z,1,\r\n",
        0,
    ),
    AsksIn(
        CSV,
        Question::Times(1),
        "time\r\n1000000000000000\r\n1000000000000001\r\n1000000000000002\r\n",
        0,
    ),
    AsksIn(
        CSV,
        Question::Value(KEY, When::At(1_000_000_000_000_009)),
        "refused: not yet 1000000000000002\n",
        1,
    ),
];

/// Times as instants: of a whole second, with microseconds, and after the year 9999.
const INSTANTS: &[Step] = &[
    New(16),
    Writes(
        KEY,
        Some(&["61"]),
        (1, 1_000_000_000_000_000),
        "done 1000000000000000\n",
        0,
    ),
    Writes(
        KEY,
        Some(&["62"]),
        (1, 1_000_000_000_000_001),
        "done 1000000000000001\n",
        0,
    ),
    Writes(
        KEY,
        Some(&["63"]),
        (1, 253_402_300_800_000_000),
        "done 253402300800000000\n",
        0,
    ),
    AsksIn(
        MOMENTS,
        Question::Rows(KEY, When::First, When::At(1_000_000_000_000_002)),
        "2001-09-09T01:46:40Z 2001-09-09T01:46:40.000001Z 61\n\
         2001-09-09T01:46:40.000001Z 2001-09-09T01:46:40.000002Z 62\nrows 2\n",
        0,
    ),
    AsksIn(
        TEXT_MOMENTS,
        Question::Rows(KEY, When::Now, When::Now),
        "253402300800000000\t253402300800000001\tc\nrows\t1\n",
        0,
    ),
    AsksIn(
        JSON_MOMENTS,
        Question::Rows(
            KEY,
            When::At(1_000_000_000_000_001),
            When::At(1_000_000_000_100_000),
        ),
        "{\"from\":\"2001-09-09T01:46:40.000001Z\",\"to\":\"2001-09-09T01:46:40.100000Z\",\"value\":[\"b\"]}\n",
        0,
    ),
    AsksIn(
        JSON,
        Question::Rows(KEY, When::First, When::At(1_000_000_000_000_001)),
        "{\"from\":1000000000000000,\"to\":1000000000000001,\"value\":[\"a\"]}\n",
        0,
    ),
    AsksIn(
        MOMENTS,
        Question::Times(1),
        "times 2001-09-09T01:46:40Z 2001-09-09T01:46:40.000001Z 253402300800000000\n",
        0,
    ),
    AsksIn(
        TEXT,
        Question::Times(1),
        "times\t1000000000000000\t1000000000000001\t253402300800000000\n",
        0,
    ),
    AsksIn(
        JSON_MOMENTS,
        Question::Times(1),
        "{\"time\":\"2001-09-09T01:46:40Z\"}\n{\"time\":\"2001-09-09T01:46:40.000001Z\"}\n{\"time\":253402300800000000}\n",
        0,
    ),
    AsksIn(JSON, Question::Times(2), "", 0),
];

/// A relation's floor is raised.
const RAISED: &[Step] = &[
    New(16),
    Writes(KEY, Some(&["61"]), (1, 100), "done 100\n", 0),
    Writes(KEY, Some(&["62"]), (1, 110), "done 110\n", 0),
    Does(FLOOR_105, "", "floor 105\n", 0),
    Asks(HISTORY, "105 110 61\n110 111 62\nrows 2\n", 0),
    Does(FLOOR_105, "", "refused: nothing to do\n", 1),
    Does(FLOOR_111, "", "refused: not yet 110\n", 1),
    Does(FLOOR_NONE, "", "refused: bad time\n", 1),
];

/// What the log tells.
const TOLD: &[Step] = &[
    New(16),
    Does(
        LINES,
        "",
        "profile 3\nslots 16\nused 0\nextents 0\ncommits 0\nfirst 0\nlast 0\narchived 0\narchive 0\nreclaimed 0\n",
        0,
    ),
    Writes(KEY, Some(&["61"]), (1, 100), "done 100\n", 0),
    Writes(KEY, Some(&["62"]), (1, 110), "done 110\n", 0),
    Does(
        LINES,
        "",
        "profile 3\nslots 16\nused 2\nextents 2\ncommits 2\nfirst 100\nlast 110\narchived 0\narchive 0\nreclaimed 0\ndays 210\n",
        0,
    ),
    Vacuums("105", "archived 0\nreclaimed 1\n", 0),
    Does(FLOOR_105, "", "floor 105\n", 0),
    Does(FLOOR_107, "", "floor 107\n", 0),
    Does(
        OBJECT,
        "",
        "{\"profile\":3,\"slots\":16,\"used\":6,\"extents\":2,\"commits\":2,\"first\":100,\"last\":110,\"archived\":105,\
         \"archive\":0,\"reclaimed\":105,\"days\":150,\"floors\":[{\"relation\":1,\"floor\":107}]}\n",
        0,
    ),
    Does(
        LINES,
        "",
        "profile 3\nslots 16\nused 6\nextents 2\ncommits 2\nfirst 100\nlast 110\narchived 105\narchive 0\nreclaimed 105\ndays 150\n\
         floor 1 107\n",
        0,
    ),
];

/// A value, another and none, each in a commit of its own.
const WRITTEN: &[Step] = &[
    New(16),
    Writes(KEY, Some(&["61"]), (1, 100), "done 100\n", 0),
    Asks(GET, "value 61\n", 0),
    Writes(KEY, Some(&["62", "-"]), (2, 110), "done 110\n", 0),
    Asks(GET, "value 62 -\n", 0),
    Writes(KEY, None, (3, 120), "done 120\n", 0),
    Asks(GET, "none\n", 0),
    Says("at 1 7 100 | value 61\nat 1 7 110 | value 62 -\ntimes 3 | times 120\n"),
];

/// The last commit comes before the clock; the clock says nothing, and the commit comes just after the last.
const LATER: &[Step] = &[
    New(16),
    Writes(KEY, Some(&["61"]), (1, 100), "done 100\n", 0),
    Writes(KEY, Some(&["62"]), (1, 0), "done 101\n", 0),
    Asks(Question::Times(1), "times 100 101\n", 0),
];

/// What is asked of now, of a time, and of all that is kept.
const ASKED: &[Step] = &[
    New(16),
    Asks(GET, "none\n", 0),
    Asks(HISTORY, "rows 0\n", 0),
    Asks(SCAN, "rows 0\n", 0),
    Asks(Question::Times(1), "times\n", 0),
    Writes(KEY, Some(&["61"]), (1, 100), "done 100\n", 0),
    Writes(BESIDE, Some(&["62"]), (1, 110), "done 110\n", 0),
    Writes(KEY, Some(&["63"]), (2, 120), "done 120\n", 0),
    Asks(HISTORY, "100 120 61\n120 121 63\nrows 2\n", 0),
    Asks(SCAN, "7 63\n8 62\nrows 2\n", 0),
    Asks(Question::Times(1), "times 100 110\n", 0),
    Asks(Question::Value(KEY, When::At(119)), "value 61\n", 0),
    Asks(
        Question::Value(KEY, When::At(121)),
        "refused: not yet 120\n",
        1,
    ),
    Asks(Question::Records(1, When::At(100)), "7 61\nrows 1\n", 0),
    Asks(
        Question::Rows(KEY, When::At(110), When::Now),
        "110 120 61\n120 121 63\nrows 2\n",
        0,
    ),
    Asks(
        Question::Rows(KEY, When::First, When::At(110)),
        "100 110 61\nrows 1\n",
        0,
    ),
    Asks(
        Question::Rows(KEY, When::Now, When::Now),
        "120 121 63\nrows 1\n",
        0,
    ),
];

/// What is kept begins at the relation's floor.
const FLOORED: &[Step] = &[
    New(16),
    Writes(KEY, Some(&["61"]), (1, 100), "done 100\n", 0),
    Writes(KEY, Some(&["62"]), (1, 110), "done 110\n", 0),
    Runs("floorof 1 105\nfinish\n", "started\nidle\n", 0),
    Asks(HISTORY, "105 110 61\n110 111 62\nrows 2\n", 0),
    Asks(Question::Value(KEY, When::First), "value 61\n", 0),
    Asks(
        Question::Rows(KEY, When::At(104), When::Now),
        "refused: before kept 105\n",
        1,
    ),
];

/// What is refused changes nothing.
const REFUSED: &[Step] = &[
    New(16),
    Writes(KEY, None, (1, 100), "refused: missing\n", 1),
    Writes(KEY, Some(&["6"]), (1, 100), "refused: bad value\n", 1),
    Writes(KEY, Some(&["61"]), (1, 100), "done 100\n", 0),
    Writes(KEY, Some(&["61\n"]), (1, 100), "refused: bad value\n", 1),
    Writes(KEY, Some(&[]), (1, 100), "refused: bad value\n", 1),
    Does(
        Action::Ask {
            dir: "",
            question: None,
            style: TEXT,
        },
        "",
        "refused: bad time\n",
        1,
    ),
    Asks(Question::Times(1), "times 100\n", 0),
    Asks(GET, "value 61\n", 0),
];

/// Each example, by its name.
const EXAMPLES: &[Example] = &[
    Example {
        name: "a_write_is_a_commit",
        profiles: Each,
        steps: WRITTEN,
    },
    Example {
        name: "a_write_comes_after_the_last",
        profiles: Each,
        steps: LATER,
    },
    Example {
        name: "a_question_is_of_now_unless_it_says_a_time",
        profiles: Each,
        steps: ASKED,
    },
    Example {
        name: "what_is_kept_begins_at_the_floor",
        profiles: Newest,
        steps: FLOORED,
    },
    Example {
        name: "an_answer_has_forms",
        profiles: Each,
        steps: FORMS,
    },
    Example {
        name: "an_answer_is_a_table",
        profiles: Each,
        steps: TABLES,
    },
    Example {
        name: "times_are_instants",
        profiles: Each,
        steps: INSTANTS,
    },
    Example {
        name: "a_floor_is_raised",
        profiles: Newest,
        steps: RAISED,
    },
    Example {
        name: "the_log_tells",
        profiles: Newest,
        steps: TOLD,
    },
    Example {
        name: "what_is_refused_changes_nothing",
        profiles: Each,
        steps: REFUSED,
    },
];

#[test]
fn one_command_asks_or_writes(rt: HostRuntime) -> Result<(), Fail> {
    each_goes(rt.alloc(), EXAMPLES)
}
