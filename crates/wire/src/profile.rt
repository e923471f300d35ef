//! The profiles of a store's files, and what differs by them.

ghost use Rattle.std.specs.Prelude.{◌≡◌, ◌≢◌, ◌↔◌, MatchOption, IsTrue, false};
ghost use Rattle.wire.specs.Profiles.{IsProfile};

use std::marker::Model;

// The profiles, each with its number.
#[derive(Clone, Copy, Debug, PartialEq, Eq)]
enum Rules {
    // A store keeps the slots that it was made with, and has one floor for all relations.
    FixedSlots = 1,
    // It may get more slots.
    MoreSlots = 2,
    // It may, and each relation has a floor of its own.
    OwnFloors = 3,
}

/// By which rules the files of a store are read and written. In contracts it is its number, 1 to 3.
#[derive(Clone, Copy, Debug, PartialEq, Eq)]
pub struct Profile {
    rules: Rules,
}

impl Model for Profile {
    ghost use Rattle.std.specs.Prelude.{ℕ};

    ghost Value = { ℕ };

    ghost use Rattle.wire.specs.ProfileNumbers.{number_of, rules_of, rules_again};

    ghost view = { λ p. number_of p.rules };

    ghost inverse = { λ number. record { rules = rules_of number } };

    ghost inverse_ok = { λ p _. rules_again p };
}

impl Profile {
    /// The profile of this number; none where it is no profile's.
    pub fn of(number: u32) -> Option<Profile>
        ensures { MatchOption result (¬ IsProfile number) (λ profile. IsProfile number × (profile ≡ number)) }
    {
        let rules = match number {
            1 => Rules::FixedSlots,
            2 => Rules::MoreSlots,
            3 => Rules::OwnFloors,
            _ => return None,
        };
        Some(Profile { rules })
    }

    /// The profile of a new store.
    pub fn newest() -> Profile
        ensures { result ≡ 3 }
    {
        Profile {
            rules: Rules::OwnFloors,
        }
    }

    /// Its number: 1 to 3.
    pub fn number(self) -> u32
        ensures is { result ≡ self }
        ensures known { IsProfile self }
    {
        self.rules as u32
    }

    /// Whether a store may get more slots than it was made with, in pieces of 256.
    pub fn has_pieces(self) -> bool
        ensures some { IsTrue result ↔ (self ≢ 1) }
        ensures none { (result ≡ false) ↔ (self ≡ 1) }
        ensures known { IsProfile self }
    {
        match self.rules {
            Rules::FixedSlots => false,
            Rules::MoreSlots => true,
            Rules::OwnFloors => true,
        }
    }

    /// Whether each relation has a floor of its own. Else there is one floor for all relations.
    pub fn has_own_floors(self) -> bool
        ensures own { IsTrue result ↔ (self ≡ 3) }
        ensures one { (result ≡ false) ↔ (self ≢ 3) }
    {
        match self.rules {
            Rules::FixedSlots => false,
            Rules::MoreSlots => false,
            Rules::OwnFloors => true,
        }
    }
}
