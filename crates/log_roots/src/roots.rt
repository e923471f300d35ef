//! What the header of such a store says.
ghost use Rattle.std.specs.Prelude.{◌≡◌, ◌<◌, ◌≤◌, ◌↔◌, IsTrue};
ghost use Rattle.log_roots.specs.Roots.{IsHeapSize, root_of, other_of, other_place, IsRoots};
ghost use Rattle.log_roots.specs.Turning.{turned_to};

use status::FRONT_LEN;

/// The profile of a store whose log lies in the heap.
pub const PROFILE: u32 = 4;

/// How many bytes the header has.
pub const HEADER_LEN: usize = FRONT_LEN as usize;

/// The place of the turn gate in the status area, one byte.
pub const TURN_PLACE: u64 = 16;

/// The place of root 0 in the status area, four bytes.
pub const ROOT_0_PLACE: u64 = 20;

/// The place of root 1 in the status area, four bytes.
pub const ROOT_1_PLACE: u64 = 24;

/// The fewest extents that a heap is made with.
pub const LEAST_EXTENTS: u32 = 64;

/// The most extents that a heap is made with.
pub const MOST_EXTENTS: u32 = 1_048_576;

/// How many extents a heap has, and the two roots, of which one counts: the number of the extent
/// where the log begins. The other one may be anything.
#[derive(Clone, Copy, Debug, PartialEq, Eq)]
pub struct Roots {
    pub extents: u32,
    /// Whether the turn gate is open, so that root 1 counts.
    pub turned: bool,
    pub root_0: u32,
    pub root_1: u32,
}

/// Whether a heap may have so many extents: a multiple of 16 from 64 to 1,048,576.
pub fn is_heap_size(extents: u32) -> bool
    ensures { IsTrue result ↔ IsHeapSize extents }
{
    LEAST_EXTENTS <= extents && extents <= MOST_EXTENTS && extents % 16 == 0
}

impl Roots {
    /// The root that counts: root 1 where the turn gate is open, else root 0.
    pub fn root(&self) -> u32
        ensures { result ≡ root_of self.now }
    {
        if self.turned {
            self.root_1
        } else {
            self.root_0
        }
    }

    /// The other root.
    pub fn other(&self) -> u32
        ensures { result ≡ other_of self.now }
    {
        if self.turned {
            self.root_0
        } else {
            self.root_1
        }
    }

    /// The place of the other root in the status area.
    pub fn other_place(&self) -> u64
        ensures { result ≡ other_place self.now }
    {
        if self.turned {
            ROOT_0_PLACE
        } else {
            ROOT_1_PLACE
        }
    }

    /// The roots once the other one, which is this number, counts.
    pub fn turned_to(&self, root: u32) -> Roots
        ensures is { result ≡ turned_to self.now root }
        ensures counts { root_of result ≡ root }
        ensures other { other_of result ≡ root_of self.now }
        ensures in_range { IsRoots self.now → 0 < root → root ≤ self.now.extents → IsRoots result }
    {
        if self.turned {
            Roots {
                turned: false,
                root_0: root,
                ..*self
            }
        } else {
            Roots {
                turned: true,
                root_1: root,
                ..*self
            }
        }
    }

    /// Whether the heap has a size that it may have, and the root that counts is one of its extents.
    pub fn is_in_range(&self) -> bool
        ensures { IsTrue result ↔ IsRoots self.now }
    {
        // Any number may be the other root.
        let _root_0 = self.root_0;
        let _root_1 = self.root_1;
        let root = self.root();
        is_heap_size(self.extents) && 1 <= root && root <= self.extents
    }
}
