//! Formatting, opening and closing, with what they mean.
ghost use Rattle.std.specs.Prelude.{ℕ, ◌≡◌, ◌↔◌, [], IsTrue, IfOk, IfErr, OnOk, MatchResult, Err};
ghost use Rattle.disk.specs.Areas.{Image, LeavesImage, LeavesNoMore, image_of};
ghost use Rattle.history.specs.Fronts.{OnFront};
ghost use Rattle.history.specs.Histories.{History};
ghost use Rattle.history.specs.Machine.{Machine};
ghost use Rattle.law_image.specs.Values.{Value};
ghost use Rattle.recovery.specs.Faults.{IsReadFault};
ghost use Rattle.recovery.specs.Format.{IsTakenAnswer};
ghost use Rattle.recovery.specs.Settling.{Settles, CountsMore, CountsAtMost};
ghost use Rattle.any_store.specs.Formats.{IsSize, HasStore, IsOccupied, FormatRefuses};
ghost use Rattle.any_store.specs.Values.{disk_of};
ghost use Rattle.any_store.specs.Opens.{Opens, OpenRefuses};
ghost use Rattle.law_any_store.specs.Formatted.{header_of};
ghost use Rattle.law_any_store.specs.Standing.{Stands, AnyHeader, IsImageOf, opened_in};
ghost use Rattle.law_any_store.specs.Opened.{LeavesFronts};
ghost use Rattle.run.specs.Promise.{Promise};

use any_store::{FormatFault, Layout, OpenFault, Store};
use disk::Disk;
use std::alloc::Global;

/// Makes the disk that of a new store of this layout, where there is no store of either layout.
///
/// # Errors
///
/// Those of `any_store::format`. Where there is a store, nothing changes.
pub fn format<D: Disk>(alloc: Global, disk: &mut D, layout: Layout) -> Result<(), FormatFault>
    // Whatever a stop may leave of a formatted disk is an image of the empty history.
    ensures stands { IsTrue D.tells → OnOk result ((image : Image) → LeavesImage (D.state disk.new).areas image
        → IsImageOf (header_of layout) image [] (λ relation. 0)) }
    // So is what is read of it, which is what `open` speaks of.
    ensures reads { IsTrue D.tells → OnOk result (IsImageOf (header_of layout) (image_of (D.state disk.new).areas) [] (λ relation. 0)) }
    ensures bad_size { (result ≡ Err FormatFault.BadSlots) ↔ ¬ IsSize layout }
    ensures occupied { IsTrue D.tells → result ≡ Err FormatFault.Occupied → IsOccupied layout (D.state disk.old).areas.status.bytes }
    // A store that stands there, in either layout, is kept as it is.
    ensures free { IsTrue D.tells → HasStore (D.state disk.old).areas.status.bytes
        → IsTakenAnswer result × ((D.state disk.new).areas ≡ (D.state disk.old).areas) }
    // Before its first write a refused format has changed nothing; later, a next call goes by what the status area holds.
    ensures refuses { IfErr result (λ fault. FormatRefuses D.tells layout (D.state disk.old) fault (D.state disk.new)) }
{
    any_store::format(alloc, disk, layout)
}

/// Opens the store that the disk holds, with a store mark of the caller's.
///
/// # Errors
///
/// Those of `Store::open`, with the disk.
pub fn open<D: Disk>(alloc: Global, disk: D, mark: u64) -> Result<Store<D>, (OpenFault, D)>
    ensures ok { IfOk result (λ s. Opens D.tells (D.state disk) mark s) }
    ensures err { IfErr result (λ e. OpenRefuses D.tells (D.state disk) e.0 (D.state e.1)) }
    // On an image that stands for a history the store stands for it. Nothing but the device or memory refuses it, and then the disk still holds the image.
    ensures stands { (header : AnyHeader) (h : History Value) (floors : ℕ → ℕ) → IsTrue D.tells → IsImageOf header (image_of (D.state disk).areas) h floors
        → MatchResult result (λ s. Stands D.tells s (opened_in s h floors))
        (λ e. IsReadFault e.0 × (image_of (D.state e.1).areas ≡ image_of (D.state disk).areas)) }
    // It makes three syncs and no write, or, where it is refused, at most three.
    ensures made { MatchResult result (λ s. CountsMore 3 (D.state disk) (disk_of s)) (λ e. CountsAtMost 3 (D.state disk) (D.state e.1)) }
    // A stop while it opens, refused or not, leaves nothing that it might not have left before.
    ensures stops { IsTrue D.tells → MatchResult result (λ s. LeavesNoMore (D.state disk).areas (disk_of s).areas)
        (λ e. LeavesNoMore (D.state disk).areas (D.state e.1).areas) }
    // So it does at each moment of it.
    ensures moments { MatchResult result (λ s. Settles D.tells (D.state disk) (disk_of s)) (λ e. Settles D.tells (D.state disk) (D.state e.1)) }
{
    Store::open(alloc, disk, mark)
}

/// Ends the store and hands its disk back. What waits is not published.
pub fn close<D: Disk>(store: Store<D>) -> D
    ensures state { D.state result ≡ disk_of store }
    // Whatever a stop may leave of the disk is an image of a front of the commit order.
    ensures stands { (m : Machine Value) → Stands D.tells store m → IsTrue D.tells → LeavesFronts store (D.state result).areas m }
    // What is read of the disk, of which `open` speaks, is among it.
    ensures reads { IsTrue D.tells → LeavesImage (D.state result).areas (image_of (D.state result).areas) }
{
    store.close()
}

/// The promise of the whole store: for every list of calls, by any number of callers in turn, on a
/// store opened on an image that represents some history, whatever a stop may leave then represents
/// a prefix of the commit order that has every acknowledged commit; it opens, and every query over
/// kept times that is answered there is answered as the prefix's write sets alone say.
pub fn whatever_a_stop_leaves()
    ensures { Promise }
{}
