//! What the areas of a disk are, told to the prover alone.
ghost use Rattle.std.specs.Prelude.{◌≡◌, []};
ghost use base.Fml.{ftrue};
ghost use Rattle.disk.specs.Areas.{Areas, settled_on};
ghost use Rattle.c_engine.specs.RelayCodes.{areas_code};

use disk::Area;
use std::marker::Model;

// The areas of a disk. It takes no memory.
#[derive(Drop)]
pub(crate) struct Shadow {
    pub ghost areas: { Areas } by { areas_code },
}

impl Model for Shadow {
    ghost also_owns = { λ _. ftrue };
}

// What comes to pass of the areas.
#[derive(Clone, Copy, Drop)]
pub(crate) enum Note<'a> {
    // They hold these bytes, of the status area, the heap and the archive, all synced.
    Holds(&'a [u8], &'a [u8], &'a [u8]),
    Writes(Area, u64, &'a [u8]),
    Syncs(Area),
}

impl Shadow {
    ghost use Rattle.c_engine.specs.RelayNoted.{empty_areas, areas_after};

    pub(crate) fn new() -> Shadow
        ensures { result.areas ≡ empty_areas }
    {
        Shadow {}
    }

    pub(crate) fn then(&self, _note: &Note<'_>) -> Shadow
        ensures { result.areas ≡ areas_after self.now.areas _note.now }
    {
        Shadow {}
    }
}
