//! Stores in the files of a folder: which file has which bytes, which of them opening makes, and who
//! is kept out meanwhile.
use crate::deeds::Call::{Has, Reads, Syncs, Told, Writes};
use crate::deeds::Deed::{
    Anew, Beside, Calls, Does, EmptyGoes, File, FileComes, FileGoes, Goes, Nothing, Opening,
};
use crate::deeds::Outcome::{InUse, Misses, Opens, Refused};
use crate::deeds::{Call, Deed, Example, each_goes};
use crate::machine::{KEY, NEWEST};
use disk::Area;
use disk_file::Access::{Change, Make, Read};
use shell::{Action, Layout};
use std::test::Fail;

/// What is written in each area, and synced.
const WRITTEN: &[Call] = &[
    Writes(Area::Status, 0, b"the log", true),
    Writes(Area::Heap, 3, b"records of a heap", true),
    Writes(Area::Archive, 1, b"run", true),
    Writes(Area::Status, 4, b"header", true),
    Syncs(Area::Status),
    Syncs(Area::Heap),
    Syncs(Area::Archive),
    Told(7, 0, None),
];

/// What each area has then.
const READ: &[Call] = &[
    Has(Area::Status, b"the header"),
    Has(Area::Heap, b"\0\0\0records of a heap"),
    Has(Area::Archive, b"\0run"),
];

/// Each area is a file of its own.
const OWN_FILES: &[Deed] = &[
    Anew,
    Calls(Make, WRITTEN),
    Calls(Change, READ),
    Calls(Read, READ),
    Calls(Make, READ),
    File("own_files/status", b"the header"),
    File("own_files/heap", b"\0\0\0records of a heap"),
    File("own_files/archive", b"\0run"),
    Goes,
];

/// Only making makes files. In an empty folder the first is missed, and so is the folder once it is gone:
/// it is still empty, or it would not go.
const NO_FILES: &[Deed] = &[
    Anew,
    Opening(Change, Misses("no_files/status")),
    Opening(Read, Misses("no_files/status")),
    EmptyGoes,
    Opening(Change, Refused),
    Nothing("no_files"),
    Opening(Read, Refused),
    Nothing("no_files"),
    Opening(Make, Refused),
    Nothing("no_files"),
    Anew,
    Opening(Make, Opens),
    File("no_files/status", b""),
    FileGoes("no_files/status"),
    Opening(Change, Misses("no_files/status")),
    Nothing("no_files/status"),
    FileComes("no_files/status"),
    File("no_files/heap", b""),
    FileGoes("no_files/heap"),
    Opening(Change, Misses("no_files/heap")),
    Nothing("no_files/heap"),
    FileComes("no_files/heap"),
    File("no_files/archive", b""),
    FileGoes("no_files/archive"),
    Opening(Change, Misses("no_files/archive")),
    Nothing("no_files/archive"),
    FileComes("no_files/archive"),
    Goes,
];

/// Who comes second is kept out, unless both only read, until the files are given up.
const ONE_WRITER: &[Deed] = &[
    Anew,
    Opening(Make, Opens),
    Beside(Make, Make, InUse),
    Opening(Make, Opens),
    Beside(Make, Change, InUse),
    Opening(Change, Opens),
    Beside(Make, Read, InUse),
    Opening(Read, Opens),
    Beside(Change, Make, InUse),
    Opening(Make, Opens),
    Beside(Change, Change, InUse),
    Opening(Change, Opens),
    Beside(Change, Read, InUse),
    Opening(Read, Opens),
    Beside(Read, Make, InUse),
    Opening(Make, Opens),
    Beside(Read, Change, InUse),
    Opening(Change, Opens),
    Beside(Read, Read, Opens),
    Opening(Read, Opens),
    Goes,
];

/// What is written reads up to the end, and no further, not even no bytes. The first refused call is told.
const PAST_THE_END: &[Call] = &[
    Writes(Area::Status, 0, b"the log", true),
    Writes(Area::Heap, 3, b"records of a heap", true),
    Writes(Area::Archive, 1, b"run", true),
    Writes(Area::Status, 4, b"header", true),
    Syncs(Area::Status),
    Syncs(Area::Heap),
    Syncs(Area::Archive),
    Told(7, 0, None),
    Reads(Area::Status, 10, 0, true),
    Told(7, 0, None),
    Reads(Area::Heap, 19, 2, false),
    Reads(Area::Status, 10, 1, false),
    Reads(Area::Status, 11, 0, false),
    Reads(Area::Archive, 5, 0, false),
    Told(7, 4, Some(Area::Heap)),
];

/// Files that are opened to be read are not written.
const READ_ONLY: &[Deed] = &[
    Anew,
    Calls(Make, WRITTEN),
    Calls(
        Read,
        &[
            Writes(Area::Archive, 0, b"x", false),
            Writes(Area::Status, 0, b"x", false),
            Told(2, 2, Some(Area::Archive)),
        ],
    ),
    File("read_only/status", b"the header"),
    File("read_only/heap", b"\0\0\0records of a heap"),
    File("read_only/archive", b"\0run"),
    Goes,
];

/// What is done to a store of files, each time with the files opened once more.
const FORMAT: Deed = Does(
    Make,
    Action::Format {
        dir: "",
        layout: Some(Layout::Slots(16)),
    },
    "",
    "formatted 16\n",
);

/// The store becomes one of an older profile.
const FIRST: Deed = Calls(
    Change,
    &[Writes(Area::Status, 8, &[1], true), Syncs(Area::Status)],
);

const SECOND: Deed = Calls(
    Change,
    &[Writes(Area::Status, 8, &[2], true), Syncs(Area::Status)],
);

/// Two commits, and an archive up to the second.
const COMMITTED: Deed = Does(
    Change,
    Action::Run { dir: "" },
    "begin a\nput a 1 7 61\nsubmit a 1 100\nflush\nredeem a\nbegin b\nput b 1 7 62\nsubmit b 2 110\nflush\narchive 110\nfinish\n",
    "snapshot 0\nok\nqueued\nidle\ndone 100\nsnapshot 100\nok\nqueued\nidle\nstarted\nidle\n",
);

/// What stood at a time, and that the archive is done.
const ASKED: Deed = Does(
    Change,
    Action::Run { dir: "" },
    "at 1 7 100\nat 1 7 110\nat 1 7 111\narchive 110\n",
    "value 61\nvalue 62\nrefused: not yet 110\nrefused: nothing to do\n",
);

/// The rows of the key.
const ROWS: Deed = Does(
    Change,
    Action::Between {
        dir: "",
        key: KEY,
        from: Some(0),
        to: Some(111),
    },
    "",
    "100 110 61\n110 111 62\nrows 2\n",
);

/// The log.
const DUMPED: Deed = Does(
    Read,
    Action::Dump { dir: "" },
    "",
    "header 16 pieces 0
slot 0 commit
member 1 100 1 1 1 1970-01-01T00:00:00Z
slot 1 commit
member 2 110 2 1 1 1970-01-01T00:00:00Z
slot 2 archived 110 0 37 1
used 3 of 16
",
);

/// Each example, in a folder of its own.
const EXAMPLES: &[Example] = &[
    Example {
        folder: "own_files",
        profile: NEWEST,
        deeds: OWN_FILES,
    },
    Example {
        folder: "no_files",
        profile: NEWEST,
        deeds: NO_FILES,
    },
    Example {
        folder: "one_writer",
        profile: NEWEST,
        deeds: ONE_WRITER,
    },
    Example {
        folder: "past_the_end",
        profile: NEWEST,
        deeds: &[Anew, Calls(Make, PAST_THE_END), Goes],
    },
    Example {
        folder: "read_only",
        profile: NEWEST,
        deeds: READ_ONLY,
    },
    Example {
        folder: "first_store",
        profile: 1,
        deeds: &[Anew, FORMAT, FIRST, COMMITTED, ASKED, ROWS, DUMPED, Goes],
    },
    Example {
        folder: "second_store",
        profile: 2,
        deeds: &[Anew, FORMAT, SECOND, COMMITTED, ASKED, ROWS, DUMPED, Goes],
    },
    Example {
        folder: "a_store",
        profile: NEWEST,
        deeds: &[Anew, FORMAT, COMMITTED, ASKED, ROWS, DUMPED, Goes],
    },
];

#[test]
fn stores_of_files_are_opened_again(rt: HostRuntime) -> Result<(), Fail> {
    each_goes(&rt, EXAMPLES)
}
