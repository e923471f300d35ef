//! The header of the status area.

ghost use Rattle.std.specs.Prelude.{◌≡◌, IsTrue, IfOk, IfErr};
ghost use Rattle.log_roots.specs.Roots.{IsRoots};
ghost use Rattle.recovery.specs.Answers.{after_reads};
ghost use Rattle.log_recovery.specs.Opening.{ReadsRoots, IsRootsFault};

use disk::{Area, Disk};
use log_roots::{HEADER_LEN, Roots, decode};
use recovery::OpenFault;

/// The roots that the status area names.
///
/// # Errors
///
/// `NotAStore` where there is no header of a store whose log lies in the heap; `Device` where the disk
/// refused a call.
pub fn read_roots<D: Disk>(disk: &mut D) -> Result<Roots, OpenFault>
    ensures found { IsTrue D.tells → IfOk result (ReadsRoots (D.state disk.old).areas.status.bytes) }
    ensures in_range { IfOk result IsRoots }
    ensures fault { IsTrue D.tells → IfErr result (IsRootsFault (D.state disk.old).areas.status.bytes) }
    ensures reads { D.state disk.new ≡ after_reads result (D.state disk.old) }
{
    if disk.len(Area::Status)? < HEADER_LEN as u64 {
        return Err(OpenFault::NotAStore);
    }
    let mut header = [0; HEADER_LEN];
    disk.read(Area::Status, 0, &mut header)?;
    match decode(&header) {
        Some(roots) => Ok(roots),
        None => Err(OpenFault::NotAStore),
    }
}
