//! The program `timestore`.
#![tactic(auto)]

ghost use Rattle.std.specs.Prelude.{◌≡◌, ◌↔◌, IsTrue, option_map};
ghost use Rattle.std.specs.IoError.{error_kind};
ghost use Rattle.std.specs.declared.io.ErrorKind.TheVariants.{NotFound};
ghost use Rattle.timestore.specs.Folders.{IsAdvised, LacksFile};

mod stress;

use crate::stress::run_stress;
use clap::{ArgMatches, Error};
use disk::MemDisk;
use disk_file::{Access, FileDisk, FolderFault};
use log_store::has_log_header;
use session::{Answers, LineInput, Lines};
use shell::{
    Action, Layout, Need, OpenFault, act, action_of, advice, folder_need, read_words,
    refuse_folder, words_advice,
};
use status::{LogFault, read_header};
use std::alloc::{AllocError, Global};
use std::env::Args;
use std::fs::File;
use std::io;
use std::io::{BufReader, BufWriter, Write};
use std::process::ExitCode;
use std::rt::{Clock, Files, Runtime};
use std::sync::Wait;
use std::thread::Threads;
use std::time::SystemTime;
use workload::Plan;

/// The bytes of the script that are read ahead, and those of answers that are gathered.
const BUFFER: usize = 65_536;

/// Where no store was made in a folder.
const NO_STORE: &str = "no store was made in this folder; `timestore format DIR` makes one";

/// Where there is no folder.
const NO_FOLDER: &str =
    "there is no such folder; `mkdir DIR` makes one, and `timestore format DIR` a store in it";

/// Says on standard error what to do. Nothing depends on whether this can be written.
fn advise(rt: &impl Eprint, advice: Option<&str>) {
    if let Some(text) = advice {
        let _ = eprintln!(rt; "timestore: {text}");
    }
}

/// Prints what `clap` has to say: help with status 0, a fault on standard error with status 2, and what to
/// do about it.
fn print_usage(rt: &(impl Print + Eprint), error: &Error, words: &[&str]) -> io::Result<ExitCode> {
    error.print(rt)?;
    advise(rt, words_advice(error.kind(), words));
    Ok(if error.exit_code() == 0 {
        ExitCode::from(0)
    } else {
        ExitCode::from(2)
    })
}

/// What the refusal of a folder is called: a folder without the files of a store is no store, and one that
/// is in use is refused as a device is.
fn open_fault(fault: &FolderFault) -> OpenFault
    ensures { (result ≡ OpenFault.NotAStore) ↔ LacksFile fault.now }
{
    match fault {
        FolderFault::Missing { path: _, cause: _ } => OpenFault::NotAStore,
        FolderFault::InUse { path: _ } => OpenFault::Device,
        FolderFault::System { path: _, cause: _ } => OpenFault::Device,
        FolderFault::NoMemory => OpenFault::NoMemory,
    }
}

/// Whether a call was refused because what it names is not there.
fn is_absent(cause: &io::Error) -> bool
    ensures { IsTrue result ↔ (error_kind cause.now ≡ NotFound) }
{
    cause.kind() == io::ErrorKind::NotFound
}

/// What to do about a folder that is not opened, if it is known.
fn folder_advice(fault: &FolderFault) -> Option<&'static str>
    ensures { IsAdvised (option_map (λ s. s.now) result) fault.now }
{
    match fault {
        FolderFault::Missing { path: _, cause: _ } => Some(NO_STORE),
        FolderFault::System { path: _, cause } => {
            if is_absent(cause) {
                Some(NO_FOLDER)
            } else {
                None
            }
        }
        FolderFault::InUse { path: _ } => None,
        FolderFault::NoMemory => None,
    }
}

/// Whether the disk has the header of no store.
fn is_no_store(disk: &mut FileDisk) -> bool {
    matches!(read_header(disk), Err(LogFault::NotAStore))
        && matches!(has_log_header(disk), Ok(false))
}

/// Says on standard error what the answers say too little of: which call the system refused, and
/// that a file is no store's. Nothing depends on whether this can be written.
fn explain(rt: &impl Eprint, dir: &str, disk: &mut FileDisk, status: u8) {
    if let Some(trouble) = disk.trouble() {
        let _ = eprintln!(rt; "timestore: {dir}/{trouble}");
        return;
    }
    if status != 0 && is_no_store(disk) {
        let _ = eprintln!(rt; "timestore: {dir}/status: not the log of a store, or a part of one");
    }
}

/// Says on standard error of a new store of profile 4 what it is not yet to be used for.
fn warn(rt: &impl Eprint, action: &Action<'_>, status: u8) {
    if status != 0 {
        return;
    }
    if let Action::Format {
        dir: _,
        layout: Some(Layout::Extents(_)),
    } = action
    {
        let _ = eprintln!(rt;
            "timestore: profile 4 is still being built: its bytes may change, and no later version need read them"
        );
    }
}

/// Does an action on the store of a folder, and gives the program's status.
fn act_in<R: Files<File = File> + AllocGlobal + Eprint, I: LineInput, W: Write>(
    rt: &R,
    action: Action<'_>,
    dir: &str,
    access: Access,
    input: &mut Lines<I>,
    output: &mut Answers<W>,
) -> u8 {
    match FileDisk::open(rt, dir, access) {
        Ok(disk) => {
            let (status, mut disk) = act(rt.alloc(), action, disk, input, output);
            explain(rt, dir, &mut disk, status);
            warn(rt, &action, status);
            status
        }
        Err(fault) => {
            let _ = eprintln!(rt; "timestore: {fault}");
            advise(rt, folder_advice(&fault));
            refuse_folder(output, open_fault(&fault))
        }
    }
}

/// The program's words. Want of memory for any of them is answered, where `collect` would go on.
fn words_of(alloc: Global, args: Args) -> Result<Vec<String>, AllocError> {
    let mut words = Vec::with_capacity(alloc, args.len())?;
    for word in args {
        words.push(word)?;
    }
    Ok(words)
}

/// The texts of words.
fn texts_of(alloc: Global, words: &[String]) -> Result<Vec<&str>, AllocError> {
    let mut texts = Vec::with_capacity(alloc, words.len())?;
    for word in words {
        texts.push(word.as_str())?;
    }
    Ok(texts)
}

/// What the clock says, in microseconds since 1970. Where it says nothing, 0: a commit then comes just after
/// the last.
fn clock_time(rt: &impl Clock) -> u64 {
    let Ok(now) = SystemTime::now(rt) else {
        return 0;
    };
    match now.duration_since(SystemTime::UNIX_EPOCH) {
        Ok(time) => u64::try_from(time.as_micros()).unwrap_or(0),
        Err(_) => 0,
    }
}

/// Does what the matches of the words ask for.
fn answer<R: Runtime + Files<File = File> + AllocGlobal + Threads + Wait + Sync>(
    rt: &R,
    alloc: Global,
    matches: &ArgMatches<'_>,
) -> io::Result<ExitCode> {
    let Some(action) = action_of(matches, clock_time(rt)) else {
        return Ok(ExitCode::from(2));
    };
    let mut writer = BufWriter::with_capacity(alloc, BUFFER, io::writer(rt))?;
    if let Action::Stress {
        writers,
        readers,
        rounds,
    } = action
    {
        let plan = Plan {
            writers,
            readers,
            rounds,
        };
        return Ok(ExitCode::from(run_stress(rt, alloc, plan, &mut writer)));
    }
    let mut input = Lines::new(alloc, BufReader::with_capacity(alloc, BUFFER, rt.reader())?);
    let mut output = Answers::new(alloc, writer);
    let status = match folder_need(&action) {
        Need::Nothing => act(alloc, action, MemDisk::new(alloc), &mut input, &mut output).0,
        Need::Make(dir) => act_in(rt, action, dir, Access::Make, &mut input, &mut output),
        Need::Change(dir) => act_in(rt, action, dir, Access::Change, &mut input, &mut output),
        Need::Read(dir) => act_in(rt, action, dir, Access::Read, &mut input, &mut output),
    };
    if status != 0 {
        advise(rt, advice(&action));
    }
    Ok(ExitCode::from(status))
}

fn main(rt: HostRuntime) -> io::Result<ExitCode> {
    let alloc = rt.alloc();
    let words = words_of(alloc, std::env::args(&rt)?)?;
    let texts = texts_of(alloc, &words)?;
    match read_words(alloc, texts.as_slice()) {
        Ok(matches) => answer(&rt, alloc, &matches),
        Err(error) => print_usage(&rt, &error, texts.as_slice()),
    }
}
