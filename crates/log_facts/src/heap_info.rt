//! The text of what a log tells that lies in the heap.
ghost use Rattle.std.specs.Prelude.{◌≡◌, IsTrue, IfOk, IfErr, map};
ghost use Rattle.recovery.specs.Answers.{after_reads};
ghost use Rattle.log_facts.specs.Names.{named_as};
ghost use Rattle.log_facts.specs.HeapTexts as told;
ghost use Rattle.log_facts.specs.HeapTexts.{IsInfoOf, IsInfoFault};

use crate::heap_facts::{archive, archived, commits, last_time, log_free, reclaimed};
use crate::heap_floors::heap_floors;
use crate::info::{named, text_by};
use crate::lines::Named;
use disk::{Area, Disk};
use log_roots::{PROFILE, Roots};
use log_shown::{LogExtents, LogItem, ShownEnd, read_shown};
use recovery::OpenFault;
use std::alloc::Global;
use std::io;

/// The numbers in their order.
fn numbers(roots: &Roots, items: &[LogItem], extents: &LogExtents) -> [Named<'static>; 10]
    ensures { map named_as result ≡ told.numbers roots.now items.now extents.now }
{
    [
        named("profile", u64::from(PROFILE)),
        named("heap", u64::from(roots.extents)),
        named("extents", u64::from(extents.used)),
        named("log", u64::from(extents.log)),
        named("free", log_free(roots.extents, extents)),
        named("commits", commits(items)),
        named("last", last_time(items)),
        named("archived", archived(items)),
        named("archive", archive(items)),
        named("reclaimed", reclaimed(items)),
    ]
}

/// The text of what a log tells that lies in the heap: how many extents it has and may still take, the commits, the
/// time of the last one, the marks and the floors; in JSON or as lines.
///
/// # Errors
///
/// Where there is no memory for it.
pub fn heap_info_text(
    alloc: Global,
    json: bool,
    roots: &Roots,
    items: &[LogItem],
    extents: &LogExtents,
) -> io::Result<Vec<u8>>
    ensures { IfOk result (λ text. text.items ≡ told.heap_info_text json roots.now items.now extents.now) }
{
    let numbers = numbers(roots, items, extents);
    let floors = heap_floors(alloc, items)?;
    text_by(alloc, json, &numbers, floors.as_slice())
}

/// Reads what the log of a store tells that lies in the heap, without opening the store.
///
/// # Errors
///
/// `NotAStore` where there is no header of such a store; `Damaged` with an extent of the heap where a check of
/// opening fails; `Device` where the disk refused a read; `NoMemory`.
pub fn read_heap_info<D: Disk>(
    alloc: Global,
    disk: &mut D,
    json: bool,
) -> Result<Vec<u8>, OpenFault>
    ensures info { IfOk result (λ text. IsInfoOf D.tells json (D.state disk.old).areas.status.bytes (D.state disk.old).areas.heap.bytes text.items) }
    ensures fault { IsTrue D.tells → IfErr result (IsInfoFault (D.state disk.old).areas.status.bytes (D.state disk.old).areas.heap.bytes) }
    ensures reads { D.state disk.new ≡ after_reads result (D.state disk.old) }
{
    let shown = match read_shown(alloc, disk) {
        Ok(shown) => shown,
        Err(fault) => return Err(fault),
    };
    let extents = match shown.end {
        ShownEnd::Right(extents) => extents,
        ShownEnd::Damaged(place) => return Err(OpenFault::Damaged(Area::Heap, place)),
    };
    match heap_info_text(alloc, json, &shown.roots, shown.items.as_slice(), &extents) {
        Ok(text) => Ok(text),
        Err(_) => Err(OpenFault::NoMemory),
    }
}
