//! The layout of a store that is to be made.
ghost use Rattle.std.specs.Prelude.{◌≡◌};
ghost use Rattle.command_line.specs.Layouts as told;

/// The slots of a store whose words say no number.
const SLOTS: u32 = 1024;

/// The extents of a store whose words say no number.
const EXTENTS: u32 = 262_144;

/// The layout of a store, with its size.
#[derive(Clone, Copy, Debug, PartialEq, Eq)]
pub enum Layout {
    /// Profile 3: a log of so many slots.
    Slots(u32),
    /// Profile 4, the endless one: a log in the heap, which has so many extents.
    Extents(u32),
}

/// The layout of profile 3, which has no number of extents.
fn of_slots(slots: Option<u32>, extents: Option<u32>) -> Option<Layout>
    ensures { result ≡ told.of_slots slots extents }
{
    match extents {
        Some(_) => None,
        None => Some(Layout::Slots(slots.unwrap_or(SLOTS))),
    }
}

/// The layout of profile 4, which has no number of slots.
fn of_extents(slots: Option<u32>, extents: Option<u32>) -> Option<Layout>
    ensures { result ≡ told.of_extents slots extents }
{
    match slots {
        Some(_) => None,
        None => Some(Layout::Extents(extents.unwrap_or(EXTENTS))),
    }
}

/// The layout of a profile. None where a size is said that it does not have.
pub fn layout_of(profile: u8, slots: Option<u32>, extents: Option<u32>) -> Option<Layout>
    ensures { result ≡ told.layout_of profile slots extents }
{
    if profile == 4 {
        of_extents(slots, extents)
    } else {
        of_slots(slots, extents)
    }
}
