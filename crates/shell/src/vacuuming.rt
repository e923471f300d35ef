//! The jobs of a vacuum, and what slots say of them.
ghost use Rattle.std.specs.Prelude.{◌≡◌, ◌≢◌, IfOk, IfErr, Some, None, if◌then◌else◌};
ghost use Rattle.script.specs.declared.line.Line.TheVariants.{Reopen};
ghost use Rattle.session.specs.Session.{Step};
ghost use Rattle.shell.specs.Vacuums.{DoesJob, DoesVacuum, HasLog, LacksLog};
ghost use Rattle.shell.specs.Vacuums as told;

use disk::Disk;
use script::Line;
use session::{Reply, Session};
use status::{LogFault, read_header, read_log};
use std::alloc::Global;
use wire::{Body, Slot};

/// How far the two jobs of a vacuum got.
#[derive(Drop)]
pub enum Vacuumed {
    /// The archive was refused so.
    Nothing(Reply),
    /// The archive is done, and the reclaim was refused so.
    Archived(Reply),
    /// Both are done.
    Both,
}

/// Whether a reply refuses what was asked.
pub fn is_refusal(reply: &Reply) -> bool
    ensures { result ≡ told.is_refusal reply.now }
{
    matches!(reply, Reply::Refused(_))
}

/// Answers a line that opens nothing again.
pub fn answer<D: Disk>(session: &mut Session<D>, alloc: Global, line: Line<'_>) -> Reply
    requires { line ≢ Reopen }
    ensures { Step D.tells session.old line.entry result session.new }
{
    match session.answer(alloc, line) {
        Some(reply) => reply,
        None => unreachable!(),
    }
}

/// Does the job that a line begins, to its end. The refusal, where the line or a step was refused.
pub fn do_job<D: Disk>(session: &mut Session<D>, alloc: Global, line: Line<'_>) -> Option<Reply>
    requires { line ≢ Reopen }
    ensures { DoesJob (Step D.tells) line.entry session.old result session.new }
{
    let begun = answer(session, alloc, line);
    if is_refusal(&begun) {
        return Some(begun);
    }
    let finished = answer(session, alloc, Line::Finish);
    if is_refusal(&finished) {
        return Some(finished);
    }
    None
}

/// Archives what ended by a time and reclaims its space, up to the first refusal.
pub fn do_jobs<D: Disk>(session: &mut Session<D>, alloc: Global, upto: u64) -> Vacuumed
    ensures { DoesVacuum (Step D.tells) upto session.old result session.new }
{
    if let Some(refusal) = do_job(session, alloc, Line::Archive(upto)) {
        return Vacuumed::Nothing(refusal);
    }
    match do_job(session, alloc, Line::Reclaim) {
        Some(refusal) => Vacuumed::Archived(refusal),
        None => Vacuumed::Both,
    }
}

/// The slots of a store that is closed. It changes nothing.
pub fn log_of<D: Disk>(alloc: Global, disk: &mut D) -> Result<Vec<Slot>, LogFault>
    ensures log { IfOk result (λ slots. HasLog D.tells (D.state disk.old) slots.items (D.state disk.new)) }
    ensures fault { IfErr result (λ why. LacksLog D.tells (D.state disk.old) why (D.state disk.new)) }
{
    let header = match read_header(disk) {
        Ok(header) => header,
        Err(fault) => return Err(fault),
    };
    match read_log(alloc, disk, &header) {
        Ok(slots) => Ok(slots),
        Err(fault) => Err(fault),
    }
}

/// The two kinds of jobs.
#[derive(Clone, Copy, Debug, PartialEq, Eq)]
pub enum Job {
    Archive,
    Reclaim,
}

pub(crate) fn records_if(is_of_job: bool, records: u64) -> Option<u64>
    ensures { result ≡ (if is_of_job then Some records else None) }
{
    if is_of_job { Some(records) } else { None }
}

/// The records that a slot's body names, where it is that of a job up to a time.
fn records_of(job: Job, upto: u64, body: &Body) -> Option<u64>
    ensures { result ≡ told.records_of job upto body.now }
{
    match job {
        Job::Archive => match body {
            Body::Archived(run) => records_if(run.upto == upto, run.records),
            _ => None,
        },
        Job::Reclaim => match body {
            Body::Reclaimed(anchors) => {
                records_if(anchors.upto == upto, u64::from(anchors.records))
            }
            _ => None,
        },
    }
}

/// The records that a log names for a job up to a time. Times of slots of one kind rise, so it has one
/// such slot at most. It is 0 where it has none.
pub fn records_in(job: Job, upto: u64, slots: &[Slot]) -> u64
    ensures { result ≡ told.records_in job upto slots.now }
{
    let mut rest = slots;
    while let [slot, more @ ..] = rest {
        if let Some(records) = records_of(job, upto, &slot.body) {
            return records;
        }
        rest = more;
    }
    0
}
