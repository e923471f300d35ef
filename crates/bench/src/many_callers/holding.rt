//! How long the lock of a shared store is held: the time of each of its calls, with nobody else there.
ghost use Rattle.std.specs.Prelude.{◌≡◌, ◌<◌, [], true, false, length};
ghost use Rattle.crossbeam_utils.specs.Seq.{cell_view};
ghost use Rattle.any_store.specs.Values.{commits_of};
ghost use Rattle.history.specs.Machine.{Machine};
ghost use Rattle.law_image.specs.Values.{Value};
ghost use Rattle.law_any_store.specs.Standing.{Stands};
ghost use Rattle.shared.specs.Naming.{IsFresh};
ghost use Rattle.shared.specs.Counts.{told_count};

use crate::fault::Fault;
use crate::many_callers::sharing::{MOST_SLOTS, fresh};
use crate::numbers::{Times, microseconds, nanoseconds};
use crate::records;
use crate::records::KEYS;
use any_store::{Did, JobDid, Layout, Redeemed, Store, Submitted, Ticket};
use disk::Disk;
use disk_file::FileDisk;
use shared::{Observer, Opened, Opening, SharedStore};
use std::alloc::{AllocError, Global};
use std::fs::File;
use std::marker::Brand;
use std::rt::Files;
use std::sync::Wait;
use std::sync::ledger::Share;
use std::time::{Clock, Instant};

/// The commits of a round, which are one group.
const MEMBERS: u64 = 16;

/// The times of each kind of call, in nanoseconds.
#[derive(Drop)]
struct Held {
    begin: Times,
    submit: Times,
    write: Times,
    sync: Times,
    redeem: Times,
    view: Times,
    start: Times,
    job: Times,
}

impl Held {
    fn new(alloc: Global) -> Held {
        Held {
            begin: Times::new(alloc),
            submit: Times::new(alloc),
            write: Times::new(alloc),
            sync: Times::new(alloc),
            redeem: Times::new(alloc),
            view: Times::new(alloc),
            start: Times::new(alloc),
            job: Times::new(alloc),
        }
    }
}

/// A commit of one record is queued.
fn queue<D: Disk, L: Opening, R: Wait + Clock>(
    rt: &R,
    alloc: Global,
    store: &SharedStore<D, L>,
    me: &mut Observer<L>,
    held: &mut Held,
    member: u64,
    version: u64,
) -> Result<Ticket, Fault> {
    let record = member.wrapping_mul(KEYS).wrapping_add(version % KEYS);
    let [first, second, third, fourth] = records::fields(record, version);
    let start = Instant::now(rt)?;
    let mut txn = store.begin(rt, me)?;
    let began = nanoseconds(rt, &start);
    let put = txn.put(
        alloc,
        records::key(record),
        &[&first, &second, &third, &fourth],
    );
    if let Err(fault) = put {
        store.abort(rt, txn, me);
        return Err(Fault::Txn(fault));
    }
    let start = Instant::now(rt);
    let submitted = store.submit(rt, txn, version, 0, me)?;
    match submitted {
        Submitted::Queued(ticket) => match note_queued(rt, held, began, start) {
            Ok(()) => Ok(ticket),
            Err(fault) => {
                ticket.give_up();
                Err(fault)
            }
        },
        Submitted::ReadOnly(_) => Err(Fault::Wrong("nothing was written")),
    }
}

fn note_queued<R: Clock>(
    rt: &R,
    held: &mut Held,
    began: std::io::Result<u64>,
    start: std::io::Result<Instant>,
) -> Result<(), Fault> {
    held.submit.push(nanoseconds(rt, &start?)?)?;
    held.begin.push(began?)?;
    Ok(())
}

/// Steps of the group until it is published.
fn publish<D: Disk, L: Opening, R: Wait + Clock>(
    rt: &R,
    store: &SharedStore<D, L>,
    me: &mut Observer<L>,
    held: &mut Held,
) -> Result<(), Fault> {
    for _ in 0..u64::MAX {
        let start = Instant::now(rt)?;
        let did = store.pump(rt, me)?;
        let time = nanoseconds(rt, &start)?;
        match did {
            Did::Idle => return Ok(()),
            Did::WroteExtent | Did::GateClosed | Did::BodyWritten | Did::GateWritten => {
                held.write.push(time)?
            }
            Did::HeapSynced | Did::BodySynced | Did::Published(_) => held.sync.push(time)?,
        }
    }
    Ok(())
}

/// Shows a ticket, and takes and ends a view.
fn look<D: Disk, L: Opening, R: Wait + Clock>(
    rt: &R,
    store: &SharedStore<D, L>,
    share: &mut Share<L>,
    me: &mut Observer<L>,
    held: &mut Held,
    ticket: Ticket,
) -> Result<(), Fault>
    requires { 0 < share.old.parts }
    ensures { share.new.parts ≡ share.old.parts }
{
    let start = Instant::now(rt);
    match store.redeem(rt, ticket, share, me) {
        Redeemed::Done(_) => {}
        Redeemed::Waiting(ticket) => {
            ticket.give_up();
            return Err(Fault::Wrong("the commit waits"));
        }
        Redeemed::InDoubt | Redeemed::Stranger => {
            return Err(Fault::Wrong("the commit is lost"));
        }
    }
    held.redeem.push(nanoseconds(rt, &start?)?)?;
    let start = Instant::now(rt)?;
    let view = store.view(rt, me)?;
    let time = nanoseconds(rt, &start);
    store.end(view);
    held.view.push(time?)?;
    Ok(())
}

/// One group of commits.
fn round<D: Disk, L: Opening, R: Wait + Clock>(
    rt: &R,
    alloc: Global,
    store: &SharedStore<D, L>,
    share: &mut Share<L>,
    me: &mut Observer<L>,
    held: &mut Held,
    version: u64,
) -> Result<(), Fault>
    requires { 0 < share.old.parts }
    ensures { share.new.parts ≡ share.old.parts }
{
    for member in 1..MEMBERS {
        queue(rt, alloc, store, me, held, member, version)?.give_up();
    }
    let last = queue(rt, alloc, store, me, held, 0, version)?;
    match publish(rt, store, me, held) {
        Ok(()) => look(rt, store, share, me, held, last),
        Err(fault) => {
            last.give_up();
            Err(fault)
        }
    }
}

/// Steps of the job until it is done.
fn finish<D: Disk, L: Opening, R: Wait + Clock>(
    rt: &R,
    store: &SharedStore<D, L>,
    me: &mut Observer<L>,
    held: &mut Held,
) -> Result<(), Fault> {
    for _ in 0..u64::MAX {
        let start = Instant::now(rt)?;
        let did = store.job_pump(rt, me)?;
        held.job.push(nanoseconds(rt, &start)?)?;
        if did == JobDid::JobDone {
            break;
        }
    }
    Ok(())
}

/// A vacuum of all that ended.
fn vacuum<D: Disk, L: Opening, R: Wait + Clock>(
    rt: &R,
    store: &SharedStore<D, L>,
    me: &mut Observer<L>,
    held: &mut Held,
) -> Result<(), Fault> {
    let last = store.last_published(rt, me);
    let start = Instant::now(rt)?;
    store.archive_start(rt, last, me)?;
    held.start.push(nanoseconds(rt, &start)?)?;
    finish(rt, store, me, held)?;
    let start = Instant::now(rt)?;
    store.reclaim_start(rt, me)?;
    held.start.push(nanoseconds(rt, &start)?)?;
    finish(rt, store, me, held)
}

fn all_rounds<D: Disk, L: Opening, R: Wait + Clock>(
    rt: &R,
    alloc: Global,
    store: &SharedStore<D, L>,
    share: &mut Share<L>,
    me: &mut Observer<L>,
    count: u64,
) -> Result<Held, Fault>
    requires { 0 < share.old.parts }
{
    let mut held = Held::new(alloc);
    for version in 0..count {
        round(rt, alloc, store, share, me, &mut held, version)?;
    }
    vacuum(rt, store, me, &mut held)?;
    Ok(held)
}

// The rounds on a store that was just opened, which is given back.
fn run<D: Disk, L: Opening, R: Wait + Clock>(
    rt: &R,
    alloc: Global,
    opened: Opened<D>,
    count: u64,
) -> (Store<D>, Result<Held, Fault>)
    requires name { (opened.blank.name ≡ L.name) × (opened.blank.parts ≡ L.parts) × (opened.cell.table.shared.table_id ≡ L.table) }
    requires parts { L.parts ≡ 1 }
    requires fresh { IsFresh D.tells L.start L.kind L.mark opened.store (cell_view opened.writer) }
{
    let (store, mut share, mut me) = opened.named::<L>();
    let held = all_rounds(rt, alloc, &store, &mut share, &mut me, count);
    (store.into_store(&mut share), held)
}

fn run_over<R: Wait + Clock>(
    rt: &R,
    alloc: Global,
    store: Store<FileDisk>,
    count: u64,
) -> Result<Held, Fault>
    ghost start: { Machine Value }
    requires stands { Stands false store start }
    requires fresh { told_count (commits_of store).heads ≡ length (commits_of store).heads }
    requires queue { start.queue ≡ [] }
{
    match Opened::new(rt, alloc, 1, store) {
        Ok(opened) => {
            let (store, held) = run::<FileDisk, Brand, R>(rt, alloc, opened, count);
            let _disk = store.close();
            held
        }
        Err((AllocError, store)) => {
            let _disk = store.close();
            Err(Fault::Memory(AllocError))
        }
    }
}

fn print_kind<R: Print>(rt: &R, name: &str, times: &mut Times) -> Result<(), Fault> {
    let median = microseconds(times.median()?);
    let most = microseconds(times.most());
    print!(rt; ", \"{name}_us\": {median}, \"{name}_most_us\": {most}")?;
    Ok(())
}

fn print<R: Print>(rt: &R, held: Held) -> Result<(), Fault> {
    let mut held = held;
    print!(rt; "{{\"value\": {}", microseconds(held.sync.median()?))?;
    print_kind(rt, "begin", &mut held.begin)?;
    print_kind(rt, "submit", &mut held.submit)?;
    print_kind(rt, "write", &mut held.write)?;
    print_kind(rt, "sync", &mut held.sync)?;
    print_kind(rt, "redeem", &mut held.redeem)?;
    print_kind(rt, "view", &mut held.view)?;
    print_kind(rt, "start", &mut held.start)?;
    print_kind(rt, "job", &mut held.job)?;
    println!(rt; "}}")?;
    Ok(())
}

/// Prints of each kind of call the median and the greatest time in microseconds, over so many groups of 16
/// commits and a vacuum.
pub(crate) fn measure<R: Files<File = File> + AllocGlobal + Print + Clock + Wait>(
    rt: &R,
    alloc: Global,
    folder: &str,
    count: u64,
) -> Result<(), Fault> {
    let store = fresh(rt, alloc, folder, Layout::Slots(MOST_SLOTS))?;
    print(rt, run_over(rt, alloc, store, count)?)
}
