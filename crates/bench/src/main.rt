//! Measures the store, compared with what the files and the memory can do themselves, and soaks
//! one.
//!
//! `bench VERB FOLDER [COUNT [NUMBER]]` makes its stores in FOLDER, which is there and empty, and prints one
//! line of JSON, of a soak a line for each answer. Without words it prints how it is called.
#![tactic(auto)]

mod fault;
mod many_callers;
mod numbers;
mod one_caller;
mod raw;
mod records;
mod stores;
mod words;

use fault::Fault;
use std::io;
use std::process::ExitCode;
use words::Asked;

/// How the program is called.
const USAGE: &str = "usage: bench VERB FOLDER [COUNT [NUMBER]]
FOLDER is there and empty; COUNT says how often
w1   commits a second of one record each, one at a time
w2g  commits a second of one record each, 16 under one gate
w3   records a second, in commits of 1,024
e1   commits a second of one record each, one at a time, of a store whose log lies in the heap; e16, e64, e1024: so many under one gate
w4   values a second, each of a key as of a random time; for w4 to w6 and w8 each key has NUMBER versions
w5   rows a second, of all versions of a key
w5w  the same, walked over in a loan
w6   scans a second of 1,000 records as of a random time
w7   milliseconds of opening after COUNT commits, with a first answer
w8   bytes on disk a version
v0   milliseconds of making a store that v1 to v6 then take from FOLDER: COUNT ended versions of 1,000 keys
v0k  the same with one ended version of each of COUNT keys, for v1, v2, v5 and v6
v1   milliseconds of archiving the COUNT ended versions, in NUMBER runs
v2   milliseconds of reclaiming them
v3   values a second, each of a key as of a random time before the last commit
v4   scans a second of 1,000 records as of such a time
v5   milliseconds of opening with a first answer, the median of COUNT
v6   bytes of memory that the opened store holds, for each of COUNT versions
c1   commits a second of one record each, COUNT by one writer; c2, c4, c8, c16, c32: by so many together
ec1  the same of a store whose log lies in the heap; ec2, ec4, ec8, ec16, ec32
r1   views a second, COUNT by one reader beside a writer; r2, r3, r4: by so many, COUNT each
q1   values a second by one view, COUNT by one reader beside a writer; q2, q3, q4: by so many, COUNT each
h    microseconds that the lock is held, over COUNT groups of 16 commits and a vacuum
soak a line for each thing that a thread was told: 8 writers in COUNT rounds of 40 ms, 8 readers, \
a committer and a vacuum, with numbers that begin with NUMBER; rush: with no pause
";

/// The status of words that ask for nothing.
const MISUSED: u8 = 2;

/// The program's status. Where nothing was measured it says why.
fn status_of<R: Eprint>(rt: &R, measured: Result<(), Fault>) -> io::Result<ExitCode> {
    match measured {
        Ok(()) => Ok(ExitCode::from(0)),
        Err(fault) => {
            eprintln!(rt; "bench: {fault}")?;
            Ok(ExitCode::from(1))
        }
    }
}

fn main(rt: HostRuntime) -> io::Result<ExitCode> {
    let alloc = rt.alloc();
    let words: Vec<String> = std::env::args(&rt)?.collect(alloc)?;
    let texts: Vec<&str> = words.iter().map(|word| word.as_str()).collect(alloc)?;
    match words::read(&texts) {
        Asked::Usage => {
            print!(rt; "{USAGE}")?;
            Ok(ExitCode::from(0))
        }
        Asked::Nothing => {
            eprint!(rt; "{USAGE}")?;
            Ok(ExitCode::from(MISUSED))
        }
        Asked::OneCaller(verb, request) => {
            status_of(&rt, one_caller::measure(&rt, alloc, verb, &request))
        }
        Asked::ManyCallers(verb, request) => {
            status_of(&rt, many_callers::measure(&rt, alloc, verb, &request))
        }
    }
}
