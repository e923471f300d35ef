//! How many records the jobs of a vacuum wrote, by the log of the store.
ghost use Rattle.std.specs.Prelude.{◌≡◌, IfErr, IfOk};
ghost use Rattle.shell.specs.Vacuums.{HeapNames, LacksHeap, LacksSlots, LogNames, LogNamesNone, SlotsName, open_fault_of};
ghost use Rattle.shell.specs.Vacuums as told;

use crate::vacuuming::{Job, log_of, records_if, records_in};
use any_store::OpenFault;
use disk::{Area, Disk};
use log_shown::{LogItem, ShownEnd, read_shown};
use log_store::has_log_header;
use status::LogFault;
use std::alloc::Global;

/// How many records the log of a store names for each job of a vacuum up to a time, 0 where it names none.
#[derive(Clone, Copy, Debug, PartialEq, Eq)]
pub struct JobRecords {
    /// Those of the run.
    pub archived: u64,
    /// Those of the anchors.
    pub reclaimed: u64,
}

/// What a fault of the log is called where a store is opened.
pub(crate) fn open_fault(fault: LogFault) -> OpenFault
    ensures { result ≡ open_fault_of fault }
{
    match fault {
        LogFault::NotAStore => OpenFault::NotAStore,
        LogFault::Damaged(slot) => OpenFault::Damaged(Area::Status, u64::from(slot)),
        LogFault::Device => OpenFault::Device,
        LogFault::NoMemory => OpenFault::NoMemory,
    }
}

/// The records that one thing names that a log in the heap says, where it is of a job up to a time.
fn records_said(job: Job, upto: u64, item: &LogItem) -> Option<u64>
    ensures { result ≡ told.records_said job upto item.now }
{
    match job {
        Job::Archive => match item {
            LogItem::BaseRun(run) => records_if(run.upto == upto, run.records),
            LogItem::Run { run, .. } => records_if(run.upto == upto, run.records),
            _ => None,
        },
        Job::Reclaim => match item {
            LogItem::Base {
                upto: mark,
                anchors,
                ..
            } => records_if(*mark == upto, u64::from(anchors.records)),
            _ => None,
        },
    }
}

/// The records that a log in the heap names for a job up to a time, in the one thing that it may say of it. It is 0 where it says none.
fn records_among(job: Job, upto: u64, items: &[LogItem]) -> u64
    ensures { result ≡ told.records_among job upto items.now }
{
    let mut rest = items;
    while let [item, more @ ..] = rest {
        if let Some(records) = records_said(job, upto, item) {
            return records;
        }
        rest = more;
    }
    0
}

/// What the slots of a store name that is closed. It changes nothing.
fn slot_records<D: Disk>(alloc: Global, disk: &mut D, upto: u64) -> Result<JobRecords, OpenFault>
    ensures names { IfOk result (λ counts. SlotsName D.tells upto (D.state disk.old) counts (D.state disk.new)) }
    ensures fault { IfErr result (λ why. LacksSlots D.tells (D.state disk.old) why (D.state disk.new)) }
{
    match log_of(alloc, disk) {
        Ok(slots) => Ok(JobRecords {
            archived: records_in(Job::Archive, upto, slots.as_slice()),
            reclaimed: records_in(Job::Reclaim, upto, slots.as_slice()),
        }),
        Err(fault) => Err(open_fault(fault)),
    }
}

/// What the log of a store names that lies in the heap; the store is closed. It changes nothing.
fn heap_records<D: Disk>(alloc: Global, disk: &mut D, upto: u64) -> Result<JobRecords, OpenFault>
    ensures names { IfOk result (λ counts. HeapNames D.tells upto (D.state disk.old) counts (D.state disk.new)) }
    ensures fault { IfErr result (λ why. LacksHeap D.tells (D.state disk.old) why (D.state disk.new)) }
{
    let shown = match read_shown(alloc, disk) {
        Ok(shown) => shown,
        Err(fault) => return Err(fault),
    };
    match shown.end {
        ShownEnd::Right(_) => Ok(JobRecords {
            archived: records_among(Job::Archive, upto, shown.items.as_slice()),
            reclaimed: records_among(Job::Reclaim, upto, shown.items.as_slice()),
        }),
        ShownEnd::Damaged(place) => Err(OpenFault::Damaged(Area::Heap, place)),
    }
}

/// How many records the log of a closed store names for each job of a vacuum up to a time. It changes nothing.
///
/// # Errors
///
/// Why the log is not read, as opening tells it.
pub fn job_records<D: Disk>(alloc: Global, disk: &mut D, upto: u64) -> Result<JobRecords, OpenFault>
    ensures names { IfOk result (λ counts. LogNames D.tells upto (D.state disk.old) counts (D.state disk.new)) }
    ensures fault { IfErr result (λ why. LogNamesNone D.tells (D.state disk.old) why (D.state disk.new)) }
{
    match has_log_header(disk) {
        Ok(false) => slot_records(alloc, disk, upto),
        Ok(true) => heap_records(alloc, disk, upto),
        Err(_) => Err(OpenFault::Device),
    }
}
