//! What the first 512 bytes of a status area say.
ghost use Rattle.std.specs.Prelude.{◌≡◌};

use crate::sizes::PIECE_TOTAL;
use wire::Profile;

/// The layout's profile, the slots that the store was made with, and how many pieces of 256
/// slots more are open.
#[derive(Clone, Copy, Debug, PartialEq, Eq)]
pub struct Header {
    pub profile: Profile,
    pub slots: u32,
    pub pieces: u32,
}

impl Header {
    ghost use Rattle.status.specs.Header.{total};

    /// The slots that the store has.
    pub fn total(&self) -> u64
        ensures { result ≡ total self.now }
    {
        self.slots as u64 + PIECE_TOTAL * self.pieces as u64
    }
}
