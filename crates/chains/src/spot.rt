//! Where the value of some time lies.
ghost use Rattle.std.specs.Prelude.{◌≡◌, ◌<◌};
ghost use Rattle.std.specs.Option.{option_copied};
ghost use Rattle.history.specs.Time.{value_at, IsRisingAfter};

use crate::full_chunk::FullChunk;
use crate::shared_value::SharedValue;
use std::marker::Model;

/// Where a key's value at a time lies, if it has one then. A full chunk that it is in was not looked at yet: who
/// wants the values of several keys finds all of these places first.
#[derive(Drop)]
pub(crate) struct Spot<'a> {
    time: u64,
    inside: SpotInside<'a>,
}

#[derive(Drop)]
enum SpotInside<'a> {
    Nothing,
    Value(&'a SharedValue),
    /// In this chunk, where there is a value; the search for it begins at a place.
    Full { full: &'a FullChunk, place: usize },
}

impl<'a> Model for Spot<'a> {
    ghost use Rattle.std.specs.Prelude.{ℕ, List, Option};

    ghost Value = { Option (List (List ℕ)) };

    ghost use Rattle.chains.specs.Spots.{value_there, IsSpot};

    ghost view = { λ s. value_there s.time s.inside };

    ghost invariant = { λ s. IsSpot s.inside };
}

impl<'a> Spot<'a> {
    /// Where a value at a time lies that was found.
    #[inline]
    pub(crate) fn of(time: u64, value: Option<&'a SharedValue>) -> Self
        ensures { result ≡ option_copied value.entry }
    {
        let inside = match value {
            None => SpotInside::Nothing,
            Some(value) => SpotInside::Value(value),
        };
        Spot { time, inside }
    }

    /// In a full chunk; the search for it begins at a place.
    #[inline]
    pub(crate) fn full(time: u64, full: &'a FullChunk, place: usize) -> Self
        requires rising { IsRisingAfter 0 full.now }
        requires within { place < 32 }
        ensures { result ≡ value_at full.now time }
    {
        let inside = SpotInside::Full { full, place };
        Spot { time, inside }
    }

    /// Whether there is something where the value may lie: there always is. It looks there, so that a processor fetches
    /// it; who comes to the value next has it near.
    #[inline]
    pub(crate) fn is_near(&self) -> bool {
        match &self.inside {
            SpotInside::Full { full, place } => full.is_near(*place),
            _ => true,
        }
    }

    /// The value.
    #[inline]
    pub(crate) fn value(&self) -> Option<&'a SharedValue>
        ensures { option_copied result ≡ self.now }
    {
        match &self.inside {
            SpotInside::Nothing => None,
            SpotInside::Value(value) => Some(value),
            SpotInside::Full { full, place } => full.at(*place, self.time),
        }
    }
}
