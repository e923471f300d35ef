//! A machine with a disk in memory, on which examples go on.
use crate::text::{are_answers, repeated, script_of};
use crate::write_sets::{Written, questions};
use disk::{Disk, Fault, FaultDisk, MemDisk};
use history::Key;
use session::{Answers, Lines};
use shell::{Action, act};
use std::alloc::{AllocError, Global};
use std::test::Fail;
use std::{mem, str};

/// The key of most examples.
pub const KEY: Key = Key {
    relation: 1,
    record: 7,
};

/// The script of the input, on the store of a folder.
pub const SCRIPT: Action<'static> = Action::Run { dir: "" };

/// The profiles of stores whose log is slots, byte 8 of their headers: the newest, which `format` makes, and all.
pub const NEWEST: u8 = 3;

pub const PROFILES: &[u8] = &[1, 2, 3];

/// The profile whose log lies in the heap, which is still being built.
pub const ENDLESS: u8 = 4;

/// Of which profiles the stores of an example are.
#[derive(Clone, Copy)]
pub enum Profiles {
    /// Of each whose log is slots.
    Each,
    /// Of these and of that whose log lies in the heap.
    Every,
    Endless,
    /// Their stores have one floor for all relations.
    Older,
    First,
    /// Their stores grow.
    Growing,
    Newest,
}

impl Profiles {
    /// All of them.
    pub fn all(self) -> &'static [u8] {
        match self {
            Profiles::Each => PROFILES,
            Profiles::Every => &[1, 2, NEWEST, ENDLESS],
            Profiles::Endless => &[ENDLESS],
            Profiles::Older => &[1, 2],
            Profiles::First => &[1],
            Profiles::Growing => &[2, NEWEST],
            Profiles::Newest => &[NEWEST],
        }
    }
}

/// No call of a disk is refused.
pub const NO_FAULT: Fault = Fault {
    calls_before: u64::MAX,
    write_reaches: false,
    stops: false,
};

/// A disk in memory with a store of a profile, and what was said of it.
#[derive(Drop)]
pub struct Machine {
    pub alloc: Global,
    pub profile: u8,
    pub disk: FaultDisk,
    /// The disk as it was at a mark.
    pub marked: FaultDisk,
    /// What the last action said, and its status.
    pub said: Vec<u8>,
    pub status: u8,
    /// How many steps were taken.
    pub steps: u32,
}

/// Does an action on a disk: what it said, its status, and the disk.
pub fn told<D: Disk>(alloc: Global, action: Action<'_>, disk: D, script: &str) -> (Vec<u8>, u8, D) {
    let mut input = Lines::new(alloc, script.as_bytes());
    let mut output = Answers::new(alloc, Vec::new(alloc));
    let (status, disk) = act(alloc, action, disk, &mut input, &mut output);
    (output.into_writer(), status, disk)
}

/// What was said, as a text.
pub fn text_of(said: &[u8]) -> &str {
    str::from_utf8(said).unwrap_or("no text")
}

/// A disk of which no call is refused.
fn whole(disk: MemDisk) -> FaultDisk {
    FaultDisk::new(disk, NO_FAULT)
}

impl Machine {
    /// A machine with an empty disk.
    pub fn new(alloc: Global, profile: u8) -> Machine {
        Machine {
            alloc,
            profile,
            disk: whole(MemDisk::new(alloc)),
            marked: whole(MemDisk::new(alloc)),
            said: Vec::new(alloc),
            status: 0,
            steps: 0,
        }
    }

    /// What the last action said.
    pub fn said(&self) -> &str {
        text_of(self.said.as_slice())
    }

    /// The disk, in whose place comes an empty one.
    pub fn taken(&mut self) -> FaultDisk {
        mem::replace(&mut self.disk, whole(MemDisk::new(self.alloc)))
    }

    /// Does an action on the disk.
    pub fn does(&mut self, action: Action<'_>, script: &str) {
        let disk = self.taken();
        let (said, status, disk) = told(self.alloc, action, disk, script);
        self.said = said;
        self.status = status;
        self.disk = disk;
    }

    /// Whether an action says these lines, which are those of the newest profile, and ends with this
    /// status.
    pub fn says(&mut self, action: Action<'_>, script: &str, lines: &str, status: u8) -> bool {
        self.does(action, script);
        self.status == status && are_answers(self.said(), lines, self.profile)
    }

    /// Whether an action writes this text, byte for byte, and ends with this status.
    pub fn prints(&mut self, action: Action<'_>, text: &str, status: u8) -> bool {
        self.does(action, "");
        self.status == status && self.said() == text
    }

    /// Whether a script ends with status 0.
    pub fn ends(&mut self, script: &str) -> bool {
        self.does(SCRIPT, script);
        self.status == 0
    }

    /// Whether a script is answered as its dialogue says.
    fn answers(&mut self, dialogue: &str) -> bool {
        match script_of(self.alloc, dialogue, usize::MAX) {
            Ok(script) => self.says(SCRIPT, script.as_str(), dialogue, 0),
            Err(AllocError) => false,
        }
    }

    /// Whether a script of repeated parts is answered as its dialogue says.
    pub fn converses(&mut self, parts: &[(&str, u32)]) -> bool {
        match repeated(self.alloc, parts) {
            Ok(dialogue) => self.answers(dialogue.as_str()),
            Err(AllocError) => false,
        }
    }

    /// Whether the store answers by a plain list of writes, of these records.
    pub fn has(&mut self, records: &[u32], writes: &[Written]) -> bool {
        match questions(self.alloc, records, writes) {
            Ok(dialogue) => self.answers(dialogue.as_str()),
            Err(AllocError) => false,
        }
    }

    /// A machine with what a stop may leave of the disk: each torn place has this byte, and so many such
    /// bytes stand behind the end.
    pub fn left(&self, (fill, tail): (u8, usize)) -> Option<Machine> {
        let tail = vec![in self.alloc; fill; tail].ok()?;
        let disk = self.disk.left(self.alloc, fill, tail.as_slice()).ok()?;
        let mut left = Machine::new(self.alloc, self.profile);
        left.disk = whole(disk);
        Some(left)
    }

    /// The failure of an example, which tells what was last said.
    pub fn failure(&self, name: &str, row: u64) -> Fail {
        let (profile, steps, said) = (self.profile, self.steps, self.said());
        Fail::new(format_args!("{name}, row {row} in profile {profile}, step {steps}: {said}"))
    }
}
