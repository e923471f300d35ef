//! A store over another disk.
ghost use Rattle.std.specs.Prelude.{◌≡◌};

use crate::store::LogStore;
use disk::Disk;

impl<D: Disk> LogStore<D> {
    /// The disk, to be looked at.
    pub fn disk(&self) -> &D
        ensures { D.state result.now ≡ self.now.disk }
    {
        &self.disk
    }

    /// The store over another disk, and the disk that it had. Nothing else changes: what the other disk holds is the caller's to see to.
    pub fn over<E: Disk>(self, disk: E) -> (LogStore<E>, D)
        ensures store { result.0 ≡ record self { disk = E.state disk } }
        ensures before { D.state result.1 ≡ self.disk }
    {
        let LogStore {
            alloc,
            roots,
            commits,
            contents,
            room,
            live,
            turn,
            job,
            reclaim,
            named,
            archive,
            disk: before,
        } = self;
        let store = LogStore {
            alloc,
            roots,
            commits,
            contents,
            room,
            live,
            turn,
            job,
            reclaim,
            named,
            archive,
            disk,
        };
        (store, before)
    }
}
