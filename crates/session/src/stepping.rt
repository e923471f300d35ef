//! The answers to the lines that take steps, of the commits that are queued or of the job that runs.
ghost use Rattle.session.specs.Session as told;

use crate::fault::Fault;
use crate::reply::Reply;
use crate::session::Session;
use any_store::{Did, JobDid, Store};
use disk::Disk;

/// What a store takes steps of.
#[derive(Clone, Copy)]
enum Work {
    /// The commits that are queued.
    Commits,
    /// The job that runs.
    Job,
}

/// Takes a step, and tells whether it was the last: it found nothing to do, or was refused.
fn take_step<D: Disk>(store: &mut Store<D>, work: Work) -> (Reply, bool)
    ensures { told.StepsWork D.tells work store.old result.0 result.1 store.new }
{
    match work {
        Work::Commits => match store.pump() {
            Ok(step) => (Reply::Did(step), matches!(step, Did::Idle)),
            Err(fault) => (Reply::Refused(Fault::Pump(fault)), true),
        },
        Work::Job => match store.job_pump() {
            Ok(step) => (Reply::JobDid(step), matches!(step, JobDid::Idle)),
            Err(fault) => (Reply::Refused(Fault::Pump(fault)), true),
        },
    }
}

/// Takes steps until the last, which alone is answered.
fn take_steps<D: Disk>(store: &mut Store<D>, work: Work) -> Reply
    ensures { told.EndsWork D.tells work store.old result store.new }
{
    loop {
        let (reply, is_last) = take_step(store, work);
        if is_last {
            return reply;
        }
    }
}

impl<D: Disk> Session<D> {
    pub(crate) fn pump(&mut self) -> Reply
        ensures steps { told.PumpStep D.tells self.old.store result self.new.store }
        ensures names { told.KeepsNames self.old self.new }
    {
        take_step(&mut self.store, Work::Commits).0
    }

    pub(crate) fn flush(&mut self) -> Reply
        ensures steps { told.Flushes D.tells self.old.store result self.new.store }
        ensures names { told.KeepsNames self.old self.new }
    {
        take_steps(&mut self.store, Work::Commits)
    }

    pub(crate) fn job(&mut self) -> Reply
        ensures steps { told.JobStep D.tells self.old.store result self.new.store }
        ensures names { told.KeepsNames self.old self.new }
    {
        take_step(&mut self.store, Work::Job).0
    }

    pub(crate) fn finish(&mut self) -> Reply
        ensures steps { told.Finishes D.tells self.old.store result self.new.store }
        ensures names { told.KeepsNames self.old self.new }
    {
        take_steps(&mut self.store, Work::Job)
    }
}
