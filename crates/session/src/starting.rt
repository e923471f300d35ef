//! The answers to the lines that begin a job.
ghost use Rattle.session.specs.Session as told;

use crate::fault::Fault;
use crate::reply::Reply;
use crate::session::Session;
use disk::Disk;

impl<D: Disk> Session<D> {
    pub(crate) fn archive(&mut self, upto: u64) -> Reply
        ensures steps { told.ArchiveStep self.old.store upto result self.new.store }
        ensures names { told.KeepsNames self.old self.new }
    {
        match self.store.archive_start(upto) {
            Ok(()) => Reply::Started,
            Err(fault) => Reply::Refused(Fault::Start(fault)),
        }
    }

    pub(crate) fn reclaim(&mut self) -> Reply
        ensures steps { told.ReclaimStep self.old.store result self.new.store }
        ensures names { told.KeepsNames self.old self.new }
    {
        match self.store.reclaim_start() {
            Ok(()) => Reply::Started,
            Err(fault) => Reply::Refused(Fault::Start(fault)),
        }
    }

    pub(crate) fn raise_floor(&mut self, scope: Option<u16>, floor: u64) -> Reply
        ensures steps { told.FloorStep self.old.store scope floor result self.new.store }
        ensures names { told.KeepsNames self.old self.new }
    {
        match self.store.start_floor(scope, floor) {
            Ok(()) => Reply::Started,
            Err(fault) => Reply::Refused(Fault::Start(fault)),
        }
    }

    pub(crate) fn grow(&mut self) -> Reply
        ensures steps { told.GrowStep self.old.store result self.new.store }
        ensures names { told.KeepsNames self.old self.new }
    {
        match self.store.grow_start() {
            Ok(()) => Reply::Started,
            Err(fault) => Reply::Refused(Fault::Start(fault)),
        }
    }
}
