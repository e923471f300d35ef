//! Steps: what is done to a disk, and what must come of it.
use crate::again::{Reached, stops_at_each};
use crate::bytes::{bytes_of, change, has_bytes, has_extents, has_parts, is_long, put};
use crate::machine::{ENDLESS, KEY, Machine, NEWEST, NO_FAULT, SCRIPT};
use crate::second_stops::again_behind;
use crate::write_sets::Written;
use disk::{Area, Disk, Fault, FaultDisk, MemDisk};
use history::Key;
use script::read_time;
use shell::{Action, Form, Layout, Question, RecordWrite, Style};
use std::alloc::{AllocError, Global};

/// What is done to a disk, and what must come of it. Lines and bytes are those of the newest profile.
pub enum Step {
    /// A new store of this many slots takes its place, of the profile in which the steps are taken, as
    /// `format` made it when that was the newest. Where its log lies in the heap, one of 64 extents.
    New(u32),
    /// A script whose lines are answered as the dialogue says.
    Says(&'static str),
    /// The same of a dialogue's parts, as `repeated` has them.
    Parts(&'static [(&'static str, u32)]),
    /// A script, its answers, and its status.
    Runs(&'static str, &'static str, u8),
    /// Lines, each of which ends a script on a new store: it is refused by its number, and what was
    /// committed before it stays.
    BadLines(&'static str),
    /// A script that ends with status 0.
    Ends(&'static str),
    /// An action, its input, what it says, and its status.
    Does(Action<'static>, &'static str, &'static str, u8),
    /// An action, whatever it says.
    Tries(Action<'static>),
    /// A format to this many slots: what it says, and its status.
    Formats(u32, &'static str, u8),
    /// A vacuum up to a time: what it says, and its status.
    Vacuums(&'static str, &'static str, u8),
    /// The rows of the key from one time up to another, and the status.
    Rows(&'static str, &'static str, &'static str, u8),
    /// A script and a question are refused with this text.
    Refuses(&'static str),
    /// A question, what is answered, and the status.
    Asks(Question, &'static str, u8),
    /// The same in a style.
    AsksIn(Style, Question, &'static str, u8),
    /// A record's fields, or none where it is deleted, with the label and the clock's time: what is answered,
    /// and the status.
    Writes(Key, Option<&'static [&'static str]>, (u64, u64), &'static str, u8),
    /// The same of fields that are text.
    Texts(Key, &'static [&'static str], (u64, u64), &'static str, u8),
    /// The log's text, with the status; nothing is written.
    Dumps(&'static str, u8),
    /// The key's value at a time, as `at` answers; a refusal has status 1.
    At(&'static str, &'static str),
    /// The bytes from a place on.
    Spells(Area, usize, &'static str),
    /// The bytes with which an area begins, as the parts of a text spell them, repeated as `repeated` says.
    SpellsParts(Area, &'static [(&'static str, u32)]),
    /// How many bytes an area has.
    Long(Area, u64),
    /// The bytes with which each of the heap's extents begins, and no more extents.
    Extents(&'static [&'static str]),
    /// Bytes that are put from a place on.
    Puts(Area, u32, &'static str),
    /// A byte that is changed.
    Changes(Area, u32, u8),
    /// An area of which only so many bytes are kept.
    Cuts(Area, usize),
    /// A byte that was this one and becomes that: opening is refused with this text, until it is as it was.
    Spoils(Area, u32, u8, u8, &'static str),
    /// The disk as it stands, all of it synced, is marked, and comes back.
    Mark,
    Back,
    /// A stop of the machine, which leaves this byte in each torn place.
    Stops(u8),
    /// The store answers by a plain list of writes, of these records.
    Has(&'static [u32], &'static [Written]),
    /// In the newest profile, a dialogue that is stopped at each device call; the disk stays as it is.
    StopsAtEach(Reached),
}

/// The question for the example's key at the time that a text spells.
fn at(time: &str) -> Action<'static> {
    Action::At {
        dir: "",
        key: KEY,
        time: read_time(time.as_bytes()),
    }
}

/// The question for the rows of the example's key from one time up to another, as texts spell them.
fn rows(from: &str, to: &str) -> Action<'static> {
    Action::Between {
        dir: "",
        key: KEY,
        from: read_time(from.as_bytes()),
        to: read_time(to.as_bytes()),
    }
}

/// The style of scripts.
const PLAIN: Style = Style {
    form: Form::Hex,
    instants: false,
};

/// A question in a style.
fn asks(question: Question, style: Style) -> Action<'static> {
    Action::Ask {
        dir: "",
        question: Some(question),
        style,
    }
}

/// A write of a record with a label, when the clock says so.
fn writes(
    key: Key,
    fields: Option<&'static [&'static str]>,
    is_text: bool,
    (label, now): (u64, u64),
) -> Action<'static> {
    let write = RecordWrite {
        key,
        fields,
        is_text,
        label,
        now,
    };
    Action::Write { dir: "", write }
}

/// A vacuum up to the time that a text spells.
fn vacuum(time: &str) -> Action<'static> {
    Action::Vacuum {
        dir: "",
        time: read_time(time.as_bytes()),
    }
}

/// A script whose seventh line is this one.
fn with_line(alloc: Global, line: &str) -> Result<String, AllocError> {
    let mut script = String::new(alloc);
    for piece in [
        "begin t\nput t 1 7 61\nsubmit t 9 100\nflush\nbegin u\nput u 1 7 62\n",
        line,
        "\nsubmit u 9 110\nflush\n",
    ] {
        script.push_str(piece)?;
    }
    Ok(script)
}

/// What is said of it where that line is of no form.
const BAD_LINE: &str = "snapshot 0\nok\nqueued\nidle\nsnapshot 100\nok\nline 7: bad\n";

/// The status of an answer of one line.
fn status_of(line: &str) -> u8 {
    u8::from(line.starts_with("refused: "))
}

/// The first bytes of an area, and all of the others.
fn kept(machine: &mut Machine, area: Area, len: usize) -> Option<MemDisk> {
    let (alloc, disk) = (machine.alloc, &mut machine.disk);
    let mut status = bytes_of(alloc, disk, Area::Status)?;
    let mut heap = bytes_of(alloc, disk, Area::Heap)?;
    let mut archive = bytes_of(alloc, disk, Area::Archive)?;
    match area {
        Area::Status => status.truncate(len),
        Area::Heap => heap.truncate(len),
        Area::Archive => archive.truncate(len),
    }
    Some(MemDisk::with_bytes(status, heap, archive))
}

/// The layout of a new store of a profile.
fn layout_of(profile: u8, slots: u32) -> Layout {
    if profile == ENDLESS {
        Layout::Extents(64)
    } else {
        Layout::Slots(slots)
    }
}

impl Machine {
    /// A disk takes the place of the machine's, and has this fault. Whether there is one.
    fn gets(&mut self, disk: Option<MemDisk>, fault: Fault) -> bool {
        match disk {
            Some(disk) => {
                self.disk = FaultDisk::new(disk, fault);
                true
            }
            None => false,
        }
    }

    /// What a stop leaves takes the place of the disk, with this fault.
    pub fn stops(&mut self, fill: u8, fault: Fault) -> bool {
        let left = self.disk.left(self.alloc, fill, b"").ok();
        self.gets(left, fault)
    }

    /// An area is cut.
    fn cuts(&mut self, area: Area, len: usize) -> bool {
        let kept = kept(self, area, len);
        self.gets(kept, NO_FAULT)
    }

    /// A new store takes the place of the disk.
    fn starts(&mut self, slots: u32) -> bool {
        self.gets(Some(MemDisk::new(self.alloc)), NO_FAULT);
        let layout = Some(layout_of(self.profile, slots));
        self.does(Action::Format { dir: "", layout }, "");
        let is_made = self.profile >= NEWEST;
        self.status == 0 && (is_made || change(&mut self.disk, Area::Status, 8, self.profile))
    }

    /// The log is this text, and nothing is written meanwhile, or synced.
    fn dumps(&mut self, text: &str, status: u8) -> bool {
        let made = self.disk.made();
        self.says(Action::Dump { dir: "" }, "", text, status) && self.disk.made() == made
    }

    /// The key's value at a time is this one.
    fn shows(&mut self, time: &str, line: &str) -> bool {
        self.says(at(time), "", line, status_of(line))
    }

    /// A line of no form ends a script on a new store, and what was committed before it stays.
    fn is_bad(&mut self, line: &str) -> bool {
        let Ok(script) = with_line(self.alloc, line) else {
            return false;
        };
        self.starts(16)
            && self.says(SCRIPT, script.as_str(), BAD_LINE, 1)
            && self.shows("100", "value 61")
            && self.shows("101", "refused: not yet 100")
    }

    /// So does each of the lines.
    fn are_bad(&mut self, lines: &str) -> bool {
        for line in lines.split('\n') {
            if !self.is_bad(line) {
                return false;
            }
        }
        true
    }

    /// Opening is refused with this text, by a script and by a question.
    fn refuses(&mut self, text: &str) -> bool {
        self.says(SCRIPT, "at 1 7 100\n", text, 1) && self.says(at("100"), "", text, 1)
    }

    /// A byte that is changed has opening refused with this text. Put back, it has not.
    fn is_spoilt(&mut self, (area, place): (Area, u32), (was, byte): (u8, u8), text: &str) -> bool {
        change(&mut self.disk, area, place, byte)
            && self.refuses(text)
            && change(&mut self.disk, area, place, was)
            && self.shows("100", "value 61")
    }

    /// Marks the disk as it stands.
    fn marks(&mut self) -> bool {
        match self.disk.left(self.alloc, 0xC7, b"") {
            Ok(disk) => {
                self.marked = FaultDisk::new(disk, NO_FAULT);
                true
            }
            Err(AllocError) => false,
        }
    }

    /// The disk is as it was at the mark.
    fn comes_back(&mut self) -> bool {
        let disk = self.marked.left(self.alloc, 0xC7, b"").ok();
        self.gets(disk, NO_FAULT)
    }

    /// Looks at the disk, or changes its bytes.
    fn touches(&mut self, step: &Step) -> bool {
        let (alloc, profile, disk) = (self.alloc, self.profile, &mut self.disk);
        match *step {
            Step::Spells(area, place, text) => has_bytes(alloc, disk, (area, place, text), profile),
            Step::SpellsParts(area, parts) => has_parts(alloc, disk, area, parts, profile),
            Step::Long(area, len) => is_long(disk, area, len),
            Step::Extents(extents) => has_extents(alloc, disk, extents, profile),
            Step::Puts(area, place, text) => put(alloc, disk, (area, place, text), profile),
            Step::Changes(area, place, byte) => change(disk, area, place, byte),
            Step::Cuts(area, len) => self.cuts(area, len),
            Step::Stops(fill) => self.stops(fill, NO_FAULT),
            Step::Mark => self.marks(),
            Step::Back => self.comes_back(),
            _ => false,
        }
    }

    /// Does what a command asks for.
    fn commands(&mut self, step: &Step) -> bool {
        let dir = "";
        match *step {
            Step::Does(action, input, lines, status) => self.says(action, input, lines, status),
            Step::Formats(slots, line, status) => {
                let layout = Some(Layout::Slots(slots));
                self.says(Action::Format { dir, layout }, "", line, status)
            }
            Step::Vacuums(time, lines, status) => self.says(vacuum(time), "", lines, status),
            Step::Rows(from, to, lines, status) => self.says(rows(from, to), "", lines, status),
            Step::Asks(question, lines, status) => {
                self.says(asks(question, PLAIN), "", lines, status)
            }
            Step::AsksIn(style, question, text, status) if matches!(style.form, Form::Csv) => {
                self.prints(asks(question, style), text, status)
            }
            Step::AsksIn(style, question, lines, status) => {
                self.says(asks(question, style), "", lines, status)
            }
            Step::Writes(key, fields, times, lines, status) => {
                self.says(writes(key, fields, false, times), "", lines, status)
            }
            Step::Texts(key, fields, times, lines, status) => {
                self.says(writes(key, Some(fields), true, times), "", lines, status)
            }
            Step::Dumps(text, status) => self.dumps(text, status),
            Step::At(time, line) => self.shows(time, line),
            _ => self.touches(step),
        }
    }

    /// Takes a step. Whether all came as it must.
    fn takes(&mut self, step: &Step) -> bool {
        match *step {
            Step::New(slots) => self.starts(slots),
            Step::Says(dialogue) => self.converses(&[(dialogue, 1)]),
            Step::Parts(parts) => self.converses(parts),
            Step::Runs(script, lines, status) => self.says(SCRIPT, script, lines, status),
            Step::BadLines(lines) => self.are_bad(lines),
            Step::Spoils(area, place, was, byte, text) => {
                self.is_spoilt((area, place), (was, byte), text)
            }
            Step::Ends(script) => self.ends(script),
            Step::Tries(action) => {
                self.does(action, "");
                true
            }
            Step::Refuses(text) => self.refuses(text),
            Step::Has(records, writes) => self.has(records, writes),
            Step::StopsAtEach(reached) => self.profile != NEWEST
                || stops_at_each(self, &again_behind(reached)),
            _ => self.commands(step),
        }
    }

    /// Takes steps. Whether all came as it must.
    pub fn goes(&mut self, steps: &[Step]) -> bool {
        for step in steps {
            self.steps = self.steps.saturating_add(1);
            if !self.takes(step) {
                return false;
            }
        }
        true
    }

    /// Whether what a stop may leave, as `left` says, answers by a plain list of writes. Where it does not,
    /// what was said there was said last.
    pub fn left_has(&mut self, torn: (u8, usize), records: &[u32], writes: &[Written]) -> bool {
        let Some(mut left) = self.left(torn) else {
            return false;
        };
        let has = left.has(records, writes);
        if !has {
            *self = left;
        }
        has
    }

    /// Takes steps on a machine with what a stop may leave, as `left` says. Where it does not come as it
    /// must, what was said there was said last.
    pub fn goes_left(&mut self, torn: (u8, usize), steps: &[Step]) -> bool {
        let Some(mut left) = self.left(torn) else {
            return false;
        };
        let goes = left.goes(steps);
        if !goes {
            *self = left;
        }
        goes
    }
}
