//! What a line is answered with.
ghost use Rattle.std.specs.Prelude.{Some, OnOk};
ghost use Rattle.std.specs.Io.KnownBytes.{Appends};
ghost use Rattle.session.specs.Texts as told;

use crate::fault::Fault;
use crate::text::{
    spell_times, spell_value, write_job_step, write_refusal, write_step, write_words,
};
use any_store::{Did, JobDid, SharedValue};
use history::Version;
use std::io;
use std::io::Write;

/// The answer to a line. Times are microseconds since 1970.
#[derive(Drop)]
pub enum Reply {
    /// A transaction began; it reads what was published at this time.
    Snapshot(u64),
    Ok,
    /// The value of a key, if it has one.
    Found(Option<SharedValue>),
    Queued,
    /// Nothing was written; the time of the snapshot.
    ReadOnly(u64),
    /// The commit is published, with this time.
    Done(u64),
    Waiting,
    InDoubt,
    /// What a step of the commits that are queued did.
    Did(Did),
    /// An archive, a reclaim, a floor or a growth began.
    Started,
    /// What a step of it did.
    JobDid(JobDid),
    /// The times of the commits with a label.
    Times(Vec<u64>),
    /// The rows of a key: each value with the times from which and up to which it was valid.
    Rows(Vec<Version<SharedValue>>),
    /// Records with their values.
    Records(Vec<(u64, SharedValue)>),
    /// The store was closed and opened: the time of its last commit, and its floor.
    Opened(u64, u64),
    /// The same of a store with floors by relation: the time, and how many relations have one.
    OpenedByRelation(u64, usize),
    Refused(Fault),
}

/// Spells the line of an answer that has one. Rows and records have several: none of theirs is
/// spelled.
pub fn spell_line(text: &mut Vec<u8>, reply: &Reply) -> io::Result<()>
    ensures { OnOk result (Appends (Some text.old.items) (Some text.new.items) (told.line_text reply.now)) }
{
    match reply {
        Reply::Snapshot(time) => writeln!(text, "snapshot {time}"),
        Reply::Ok => write_words(text, "ok"),
        Reply::Found(None) => write_words(text, "none"),
        Reply::Found(Some(value)) => Ok(spell_value(text, value)?),
        Reply::Queued => write_words(text, "queued"),
        Reply::ReadOnly(time) => writeln!(text, "readonly {time}"),
        Reply::Done(time) => writeln!(text, "done {time}"),
        Reply::Waiting => write_words(text, "waiting"),
        Reply::InDoubt => write_words(text, "in doubt"),
        Reply::Did(step) => write_step(text, *step),
        Reply::Started => write_words(text, "started"),
        Reply::JobDid(step) => write_job_step(text, *step),
        Reply::Times(times) => Ok(spell_times(text, times)?),
        Reply::Rows(_) => Ok(()),
        Reply::Records(_) => Ok(()),
        Reply::Opened(last, floor) => writeln!(text, "last {last} floor {floor}"),
        Reply::OpenedByRelation(last, many) => writeln!(text, "last {last} floors {many}"),
        Reply::Refused(fault) => write_refusal(text, *fault),
    }
}
