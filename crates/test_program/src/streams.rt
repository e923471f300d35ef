//! Inputs that wait for answers, and inputs and outputs that refuse.
use crate::dumps::{FIRST_PROFILE, ONE_MEMBER};
use crate::examples::{MADE, NEW, NOT_MADE, ONE_COMMIT};
use crate::machine::{KEY, Machine, NEWEST, PROFILES, SCRIPT};
use crate::steps::Step;
use crate::steps::Step::{New, Says};
use session::{Answers, Lines};
use shell::{Action, act, write_stress_answer};
use std::alloc::{AllocError, Global};
use std::cell::Cell;
use std::io;
use std::io::{BufReader, BufWriter, Read, Write};
use std::test::Fail;

/// What is fed at a time, and what it is answered with.
type Talk = [(&'static str, &'static str); 10];

/// The third line is fed in two parts. The last one lacks its line feed: it is answered once the input
/// has ended, for which no bytes stand.
const TALK: Talk = [
    ("begin t\n", "snapshot 0\n"),
    ("put t 1 7 61\n", "ok\n"),
    ("get t", ""),
    (" 1 7\n", "value 61\n"),
    ("submit t 9 100\nredeem t\n", "queued\nwaiting\n"),
    ("flush\nredeem t\n", "idle\ndone 100\n"),
    (
        "at 1 7 100\nat 1 7 101\n",
        "value 61\nrefused: not yet 100\n",
    ),
    ("between 1 7 0 101\n", "100 101 61\nrows 1\n"),
    ("reopen\nscan 1 100", "last 100 floors 0\n"),
    ("", "7 61\nrows 1\n"),
];

/// The same on a store of this profile, which may have one floor for all relations.
fn talk_of(profile: u8) -> Talk {
    let mut talk = TALK;
    if profile != NEWEST {
        talk[8].1 = "last 100 floor 0\n";
    }
    talk
}

/// How many parts are fed before the commit is asked for that the next one makes.
const BEFORE_COMMIT: usize = 5;

/// What a reader does once all parts are fed.
#[derive(Clone, Copy)]
enum Then {
    Ends,
    Refuses,
}

/// A reader who feeds each part only once the answers to those before it are shown, and gives up
/// where they are not.
#[derive(Drop)]
struct Asker<'a> {
    shown: &'a Cell<usize>,
    parts: &'a [(&'a str, &'a str)],
    fed: usize,
    owed: usize,
    then: Then,
}

impl Read for Asker<'_> {
    fn read(&mut self, buf: &mut [u8]) -> io::Result<usize> {
        if self.shown.get() != self.owed {
            return Err(io::Error::from(io::ErrorKind::TimedOut));
        }
        let Some((part, answer)) = self.parts.get(self.fed) else {
            return match self.then {
                Then::Ends => Ok(0),
                Then::Refuses => Err(io::Error::from(io::ErrorKind::BrokenPipe)),
            };
        };
        let Some(place) = buf.get_mut(..part.len()) else {
            return Err(io::Error::from(io::ErrorKind::InvalidInput));
        };
        place.copy_from_slice(part.as_bytes());
        self.owed = self.owed.saturating_add(answer.len());
        self.fed = self.fed.saturating_add(1);
        Ok(part.len())
    }
}

/// A screen that tells how many bytes it shows, and refuses those for which it has no room.
#[derive(Drop)]
struct Screen<'a> {
    shown: &'a Cell<usize>,
    text: Vec<u8>,
    room: usize,
}

impl Write for Screen<'_> {
    fn write(&mut self, buf: &[u8]) -> io::Result<usize> {
        let room = self.room.saturating_sub(self.text.len());
        if room == 0 && !buf.is_empty() {
            return Err(io::Error::from(io::ErrorKind::StorageFull));
        }
        let taken = buf.get(..room).unwrap_or(buf);
        self.text.extend_from_slice(taken)?;
        self.shown.set(self.text.len());
        Ok(taken.len())
    }

    fn flush(&mut self) -> io::Result<()> {
        Ok(())
    }
}

/// All answers to these parts.
fn answers_to(alloc: Global, parts: &[(&str, &str)]) -> Result<String, AllocError> {
    let mut text = String::new(alloc);
    for (_, answer) in parts {
        text.push_str(answer)?;
    }
    Ok(text)
}

/// Does an action with an input of these parts and a screen of so much room, through a writer that
/// gathers: what the screen shows is said. Whether there was memory.
fn shows(
    machine: &mut Machine,
    action: Action<'_>,
    (parts, then): (&[(&str, &str)], Then),
    room: usize,
) -> bool {
    let alloc = machine.alloc;
    let shown = Cell::new(0);
    let asker = Asker {
        shown: &shown,
        parts,
        fed: 0,
        owed: 0,
        then,
    };
    let screen = Screen {
        shown: &shown,
        text: Vec::new(alloc),
        room,
    };
    let Ok(reader) = BufReader::new(alloc, asker) else {
        return false;
    };
    let Ok(writer) = BufWriter::with_capacity(alloc, 65_536, screen) else {
        return false;
    };
    let (mut input, mut output) = (Lines::new(alloc, reader), Answers::new(alloc, writer));
    let (status, disk) = act(alloc, action, machine.taken(), &mut input, &mut output);
    let (screen, _unwritten) = output.into_writer().into_parts();
    machine.said = screen.text;
    machine.status = status;
    machine.disk = disk;
    true
}

/// Whether an action shows of a text what its screen has room for, with status 0 where that is all.
fn is_shown(
    machine: &mut Machine,
    action: Action<'_>,
    (parts, then): (&[(&str, &str)], Then),
    (text, room): (&str, usize),
) -> bool {
    let ends = matches!(then, Then::Ends) && text.len() <= room;
    shows(machine, action, (parts, then), room)
        && machine.said() == text.get(..room).unwrap_or(text)
        && machine.status == u8::from(!ends)
}

/// Whether a talk of so many parts on a new store is answered on a screen of so much room.
fn talks(machine: &mut Machine, (count, then): (usize, Then), room: usize) -> bool {
    let talk = talk_of(machine.profile);
    let parts = talk.get(..count).unwrap_or(&talk);
    let before = parts.get(..BEFORE_COMMIT).unwrap_or(parts);
    let (Ok(text), Ok(before)) = (
        answers_to(machine.alloc, parts),
        answers_to(machine.alloc, before),
    ) else {
        return false;
    };
    let is_made = count > BEFORE_COMMIT && before.len() <= room;
    machine.goes(NEW)
        && is_shown(machine, SCRIPT, (parts, then), (text.as_str(), room))
        && machine.goes(if is_made { MADE } else { NOT_MADE })
}

/// More room than any answer here needs.
const MOST_ROOM: usize = 140;

/// What the input does behind so many parts, with all that is fed answered.
const INPUTS: &[(usize, Then)] = &[
    (0, Then::Refuses),
    (1, Then::Refuses),
    (2, Then::Refuses),
    (3, Then::Refuses),
    (4, Then::Refuses),
    (5, Then::Refuses),
    (6, Then::Refuses),
    (7, Then::Refuses),
    (8, Then::Refuses),
    (9, Then::Refuses),
    (10, Then::Ends),
];

/// Answers are shown before input is waited for, and an input that refuses is status 1.
fn feeds_each(alloc: Global, profile: u8) -> Result<(), Fail> {
    for input in INPUTS {
        let mut machine = Machine::new(alloc, profile);
        if !talks(&mut machine, *input, MOST_ROOM) {
            return Err(machine.failure("an input", input.0 as u64));
        }
    }
    Ok(())
}

#[test]
fn answers_are_shown_before_input_is_waited_for(rt: HostRuntime) -> Result<(), Fail> {
    for profile in PROFILES {
        feeds_each(rt.alloc(), *profile)?;
    }
    Ok(())
}

/// The output refuses behind each byte in turn.
fn refuses_each_byte(alloc: Global, profile: u8) -> Result<(), Fail> {
    for room in 0..MOST_ROOM {
        let mut machine = Machine::new(alloc, profile);
        if !talks(&mut machine, (TALK.len(), Then::Ends), room) {
            return Err(machine.failure("a screen", room as u64));
        }
    }
    Ok(())
}

#[test]
fn a_refused_output_is_status_1(rt: HostRuntime) -> Result<(), Fail> {
    for profile in PROFILES {
        refuses_each_byte(rt.alloc(), *profile)?;
    }
    Ok(())
}

/// A command, and what it says of a store with one commit at 100 in these profiles.
struct Said {
    profiles: &'static [u8],
    action: Action<'static>,
    text: &'static str,
}

const SAID: &[Said] = &[
    Said {
        profiles: PROFILES,
        action: Action::At {
            dir: "",
            key: KEY,
            time: Some(100),
        },
        text: "value 61\n",
    },
    Said {
        profiles: PROFILES,
        action: Action::At {
            dir: "",
            key: KEY,
            time: Some(99),
        },
        text: "none\n",
    },
    Said {
        profiles: PROFILES,
        action: Action::Between {
            dir: "",
            key: KEY,
            from: Some(0),
            to: Some(101),
        },
        text: "100 101 61\nrows 1\n",
    },
    Said {
        profiles: &[2, NEWEST],
        action: Action::Dump { dir: "" },
        text: ONE_MEMBER,
    },
    Said {
        profiles: &[1],
        action: Action::Dump { dir: "" },
        text: FIRST_PROFILE,
    },
];

/// A store with one commit at 100.
const STORE: &[Step] = &[New(16), Says(ONE_COMMIT)];

/// The command on screens of less room than its answer, one byte more each time, and of as much and more.
fn is_said_on_each(alloc: Global, said: &Said, profile: u8) -> Result<(), Fail> {
    for room in 0..MOST_ROOM {
        let mut machine = Machine::new(alloc, profile);
        let screen = (said.text, room);
        if !(machine.goes(STORE)
            && is_shown(&mut machine, said.action, (&[], Then::Ends), screen))
        {
            return Err(machine.failure(said.text, room as u64));
        }
    }
    Ok(())
}

/// The command in each of its profiles.
fn is_said(alloc: Global, said: &Said) -> Result<(), Fail> {
    for profile in said.profiles {
        is_said_on_each(alloc, said, *profile)?;
    }
    Ok(())
}

#[test]
fn a_command_whose_answer_is_refused_is_status_1(rt: HostRuntime) -> Result<(), Fail> {
    for said in SAID {
        is_said(rt.alloc(), said)?;
    }
    Ok(())
}

/// What `stress` says of 100 commits, the last of them at 120.
const STRESS: &str = "commits 100 last 120\n";

/// Whether a screen of so much room shows of that what it has room for, and what is left is refused.
fn is_stress_answered(alloc: Global, room: usize) -> bool {
    let shown = Cell::new(0);
    let mut screen = Screen {
        shown: &shown,
        text: Vec::new(alloc),
        room,
    };
    let is_written = write_stress_answer(&mut screen, 100, 120).is_ok();
    let front = STRESS.get(..room).unwrap_or(STRESS);
    is_written == (STRESS.len() <= room) && screen.text.as_slice() == front.as_bytes()
}

#[test]
fn what_stress_answers_is_shown_or_refused(rt: HostRuntime) -> Result<(), Fail> {
    for room in 0..30 {
        if !is_stress_answered(rt.alloc(), room) {
            return Err(Fail::new("a screen of stress"));
        }
    }
    Ok(())
}
