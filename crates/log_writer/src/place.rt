//! Where an extent lies.
ghost use Rattle.std.specs.Prelude.{◌≡◌, ◌<◌};
ghost use Rattle.deltas.specs.Extents.{extent_start};

use deltas::EXTENT_LEN;

/// The place of an extent in the heap, in bytes, and so of its gate.
pub(crate) fn extent_place(number: u32) -> u64
    requires { 0 < number }
    ensures { result ≡ extent_start number }
{
    EXTENT_LEN as u64 * u64::from(number - 1)
}
