//! What a base takes of the heap.
ghost use Rattle.std.specs.Prelude.{◌≡◌};
ghost use Rattle.log_room.specs.Bases.{base_len, base_extents, floored_extents};

/// How many rolls, archives and floors a log names.
#[derive(Clone, Copy, Debug, PartialEq, Eq)]
pub struct BaseParts {
    pub rolls: usize,
    pub archives: usize,
    pub floors: usize,
}

/// The bytes of a base without its parts, and of each of these.
const MARK_LEN: u128 = 21;

const ROLL_LEN: u128 = 17;

const ARCHIVE_LEN: u128 = 35;

const FLOOR_LEN: u128 = 11;

/// A base is counted with so many rolls and so many archives more than the log names.
const MORE: u128 = 2;

/// The bytes of a chain that one extent holds.
const BODY_LEN: u128 = 8168;

impl BaseParts {
    // The bytes of a base.
    fn len(self) -> u128
        ensures { result ≡ base_len self }
    {
        let rolls = ROLL_LEN * (self.rolls as u128 + MORE);
        let archives = ARCHIVE_LEN * (self.archives as u128 + MORE);
        let floors = FLOOR_LEN * self.floors as u128;
        MARK_LEN + rolls + archives + floors
    }

    // How many extents a base takes.
    pub(crate) fn extents(self) -> u128
        ensures { result ≡ base_extents self }
    {
        (self.len() + BODY_LEN - 1) / BODY_LEN
    }

    // How many it takes with one floor more.
    pub(crate) fn floored_extents(self) -> u128
        ensures { result ≡ floored_extents self }
    {
        (self.len() + FLOOR_LEN + BODY_LEN - 1) / BODY_LEN
    }
}
