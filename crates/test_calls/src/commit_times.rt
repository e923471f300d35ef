//! Commit times, and the texts of instants.
use clock::{
    BadInstant, ClockEnd, CommitClock, LAST_TIME, laws, read_instant, read_instant_bytes,
    show_instant,
};
use std::alloc::Global;

const READ: &[(&str, Result<u64, BadInstant>)] = &[
    ("2001-09-09T01:46:40Z", Ok(1_000_000_000_000_000)),
    ("1970-01-01T00:00:00Z", Ok(0)),
    ("9999-12-31T23:59:59Z", Ok(253_402_300_799_000_000)),
    ("2001-02-29T00:00:00Z", Err(BadInstant)),
    ("2001-09-09T01:46:60Z", Err(BadInstant)),
    ("2001-09-09T01:46:40z", Err(BadInstant)),
    ("1969-12-31T23:59:59Z", Err(BadInstant)),
    ("2001-09-09T01:46:40Z ", Err(BadInstant)),
];

#[test]
fn a_text_is_an_instant_or_none(rt: HostRuntime) {
    for (text, instant) in READ {
        assert!(rt; read_instant(text) == *instant, "{text}");
    }
    assert!(rt; read_instant_bytes(b"1970-01-01T00:00:01Z") == Ok(1_000_000));
}

/// Times, and the texts of their seconds; none after the year 9999.
const SHOWN: &[(u64, Option<&str>)] = &[
    (1_000_000_999_999, Some("1970-01-12T13:46:40Z")),
    (253_402_300_799_999_999, Some("9999-12-31T23:59:59Z")),
    (253_402_300_800_000_000, None),
];

fn is_shown(alloc: Global, time: u64, want: Option<&str>) -> bool {
    match show_instant(alloc, time) {
        Ok(Some(text)) => want == Some(text.as_str()),
        Ok(None) => want.is_none(),
        Err(_) => false,
    }
}

#[test]
fn an_instant_is_shown_as_its_second_up_to_the_year_9999(rt: HostRuntime) {
    for (time, text) in SHOWN {
        assert!(rt; is_shown(rt.alloc(), *time, *text), "{time}");
    }
}

/// Whether the text of an instant is read and shown again.
fn is_shown_again(alloc: Global, text: &str) -> bool {
    match laws::show_read(alloc, text) {
        Ok(Some(shown)) => shown.as_str() == text,
        _ => false,
    }
}

#[test]
fn what_is_read_is_shown_again(rt: HostRuntime) {
    laws::texts_are_instants();
    assert!(rt; is_shown_again(rt.alloc(), "2000-02-29T23:59:59Z"));
    assert!(rt; matches!(laws::read_shown(rt.alloc(), 1_999_999), Ok(Some(1_000_000))));
}

/// The time now, the next commit's time, and the last one then.
const TIMES: &[(u64, Result<u64, ClockEnd>, u64)] = &[
    (100, Ok(100), 100),
    (100, Ok(101), 101),
    (50, Ok(102), 102),
    (1 << 63, Err(ClockEnd), 102),
    (LAST_TIME, Ok(LAST_TIME), LAST_TIME),
    (0, Err(ClockEnd), LAST_TIME),
];

#[test]
fn commit_times_rise_to_the_last_one(rt: HostRuntime) {
    laws::times_rise();
    let mut clock = CommitClock::new(0);
    for (now, time, last) in TIMES {
        assert!(rt;
            clock.next(*now) == *time && clock.last() == *last,
            "at {now}"
        );
    }
}
