//! The calls of a session, each by itself.
use crate::calls::opened;
use crate::machine::{NEWEST, PROFILES};
use disk::FaultDisk;
use script::parse;
use session::{Answers, MARK, Reply, Session, write_reply};
use std::alloc::Global;
use std::test::Fail;

/// Whether a reply is written so.
fn is_reply(alloc: Global, reply: &Reply, text: &str) -> bool {
    let mut answers = Answers::new(alloc, Vec::new(alloc));
    let is_written = write_reply(&mut answers, reply).is_ok();
    is_written && answers.into_writer().as_slice() == text.as_bytes()
}

/// Whether a session answers a line with this text, and goes on.
fn is_answered(
    alloc: Global,
    session: &mut Session<FaultDisk>,
    (line, text): (&str, &str),
) -> bool {
    let Some(found) = parse(line.as_bytes()) else {
        return false;
    };
    match session.answer(alloc, found) {
        Some(reply) => is_reply(alloc, &reply, text),
        None => false,
    }
}

/// Lines of a commit, and of an archive of nothing behind it.
const LINES: &[(&str, &str)] = &[
    ("begin t", "snapshot 0\n"),
    ("put t 1 7 61", "ok\n"),
    ("submit t 9 100", "queued\n"),
    ("flush", "idle\n"),
    ("archive 100", "started\n"),
    ("job", "run synced\n"),
    ("finish", "idle\n"),
];

/// Whether the session answers each of the lines with its text.
fn answers_all(alloc: Global, session: &mut Session<FaultDisk>) -> bool {
    for line in LINES {
        if !is_answered(alloc, session, *line) {
            return false;
        }
    }
    true
}

/// Whether a session tells its last time, and that there is no floor, as a store of this profile does.
fn tells_opening(session: &Session<FaultDisk>, profile: u8) -> bool {
    match session.opened_reply() {
        Reply::OpenedByRelation(100, 0) => profile == NEWEST,
        Reply::Opened(100, 0) => profile < NEWEST,
        _ => false,
    }
}

/// A session on an empty store of this profile answers each line.
fn session_answers(alloc: Global, profile: u8) -> bool {
    let Some(store) = opened(alloc, MARK, profile) else {
        return false;
    };
    let mut session = match Session::new(alloc, store) {
        Ok(session) => session,
        Err(store) => {
            let _disk = store.close();
            return false;
        }
    };
    let is_answered = answers_all(alloc, &mut session) && tells_opening(&session, profile);
    let _disk = session.close();
    is_answered
}

#[test]
fn a_session_answers_line_by_line(rt: HostRuntime) -> Result<(), Fail> {
    for profile in PROFILES {
        if !session_answers(rt.alloc(), *profile) {
            return Err(Fail::new(format_args!("in profile {profile}")));
        }
    }
    Ok(())
}
