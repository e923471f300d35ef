//! A store over another disk.
ghost use Rattle.std.specs.Prelude.{◌≡◌};
ghost use Rattle.any_store.specs.Values.{disk_of, with_disk};

use crate::any::Store;
use crate::engine::Engine;
use disk::Disk;

impl<D: Disk> Store<D> {
    /// The disk, to be looked at.
    pub fn disk(&self) -> &D
        ensures { D.state result.now ≡ disk_of self.now }
    {
        match &self.engine {
            Engine::Slots(store) => store.disk(),
            Engine::Log(store) => store.disk(),
        }
    }

    /// The store over another disk, and the disk that it had. Nothing else changes: what the other disk
    /// holds is the caller's to see to.
    pub fn over<E: Disk>(self, disk: E) -> (Store<E>, D)
        ensures store { result.0 ≡ with_disk self (E.state disk) }
        ensures before { D.state result.1 ≡ disk_of self }
    {
        let Store { engine } = self;
        match engine {
            Engine::Slots(store) => {
                let (store, before) = store.over(disk);
                (
                    Store {
                        engine: Engine::Slots(store),
                    },
                    before,
                )
            }
            Engine::Log(store) => {
                let (store, before) = store.over(disk);
                (
                    Store {
                        engine: Engine::Log(store),
                    },
                    before,
                )
            }
        }
    }
}
