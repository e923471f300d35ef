//! The engines, by how their log lies on the disk.

/// What a store is by its layout.
pub enum Engine<S, L> {
    /// Its log is slots of the status area (profiles 1 to 3).
    Slots(S),
    /// Its log lies in the heap, as chains of extents (profile 4).
    Log(L),
}
