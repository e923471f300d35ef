//! A store for C, as functions over a handle. The header `timestore.h` says what a caller must uphold.
#![tactic(auto)]

ghost use Rattle.std.specs.Prelude.{◌≡◌, Some};
ghost use Rattle.history.specs.Key.{key_of};
ghost use Rattle.any_store.specs.declared.formatting.Layout.TheVariants.{Slots, Log};
ghost use Rattle.c_engine.specs.Codes.{code_number, AnswersOn};
ghost use Rattle.c_engine.specs.Engines.{OnHandle, StaysSame, HasCalled, OpensHandle, ClosesHandle, BeginsEngine, Writes, SubmitsEngine, AbortsEngine};
ghost use Rattle.c_engine.specs.Engines.{RedeemsEngine, GivesUp, GivesView, EndsView, PumpsEngine, PumpsJobOf, ArchivesEngine, ReclaimsEngine, RaisesEngine};
ghost use Rattle.c_engine.specs.Engines.{RaisesFloorOf, GrowsEngine, TellsTimes, TellsCall, TellsLabels};
ghost use Rattle.c_engine.specs.Formats.{AnswersFormat};
ghost use Rattle.c_engine.specs.Queries.{Sees, SeesScan, AsksRecent, AsksAt, AsksScanAt, AsksRows, AsksScanRows};
ghost use Rattle.c_engine.specs.Writes.{Puts, Deletes};

use any_store::Layout;
use c_engine::{Call, Code, Engine, Handle, Info, Row};
use history::Key;
use std::alloc::Global;

// The engine goes back into its handle.
fn put_back(handle: &mut Handle, engine: Box<Engine>, code: Code) -> i32
    ensures engine { handle.new.engine ≡ Some engine.value }
    ensures code { result ≡ code_number code }
{
    handle.put(engine);
    code.number()
}

/// The bytes of the status area of a new store of so many slots.
#[unsafe(no_mangle)]
pub extern "C" fn ts_format(alloc: Global, slots: u32, out: &mut [u8], info: &mut Info) -> i32
    ensures { AnswersFormat (Slots slots) result info.new out.new }
{
    c_engine::format(alloc, Layout::Slots(slots), out, info).number()
}

/// The same of a new store whose log lies in a heap of so many extents, and how many zeros that begins with.
#[unsafe(no_mangle)]
pub extern "C" fn ts_format_endless(
    alloc: Global,
    extents: u32,
    out: &mut [u8],
    info: &mut Info,
) -> i32
    ensures { AnswersFormat (Log extents) result info.new out.new }
{
    c_engine::format(alloc, Layout::Log(extents), out, info).number()
}

/// Opens the store of these bytes.
#[unsafe(no_mangle)]
#[allow(clippy::too_many_arguments)]
pub extern "C" fn ts_open(
    alloc: Global,
    handle: &mut Handle,
    status: &[u8],
    heap: &[u8],
    archive: &[u8],
    mark: u64,
    info: &mut Info,
) -> i32
    ensures { OpensHandle status.now heap.now archive.now mark handle.old.engine result info.new handle.new.engine }
{
    if let Some(engine) = handle.take(alloc) {
        return put_back(handle, engine, Code::Busy);
    }
    match c_engine::open(alloc, status, heap, archive, mark, info) {
        Ok(engine) => put_back(handle, engine, Code::Ok),
        Err(code) => code.number(),
    }
}

/// Ends the store of a handle.
#[unsafe(no_mangle)]
pub extern "C" fn ts_close(alloc: Global, handle: &mut Handle) -> i32
    ensures { ClosesHandle handle.old.engine result handle.new.engine }
{
    match handle.take(alloc) {
        None => Code::Closed.number(),
        Some(_engine) => Code::Ok.number(),
    }
}

/// The time of the last commit, and the floor of all relations.
#[unsafe(no_mangle)]
pub extern "C" fn ts_last(alloc: Global, handle: &mut Handle, info: &mut Info) -> i32
    ensures same { StaysSame handle.old.engine handle.new.engine }
    ensures answers { AnswersOn (λ e said. TellsTimes e.state e said info.new) handle.old.engine result }
{
    let Some(engine) = handle.take(alloc) else {
        return Code::Closed.number();
    };
    let code = engine.last(info);
    put_back(handle, engine, code)
}

/// The device call that the host is to make, and the bytes of a write.
#[unsafe(no_mangle)]
pub extern "C" fn ts_call(
    alloc: Global,
    handle: &mut Handle,
    call: &mut Call,
    out: &mut [u8],
) -> i32
    ensures same { StaysSame handle.old.engine handle.new.engine }
    ensures answers { AnswersOn (λ e said. TellsCall e said call.new out.new) handle.old.engine result }
{
    let Some(engine) = handle.take(alloc) else {
        return Code::Closed.number();
    };
    let code = engine.call(call, out);
    put_back(handle, engine, code)
}

/// The device call was made, and what its step did is told; or it was refused.
#[unsafe(no_mangle)]
pub extern "C" fn ts_called(alloc: Global, handle: &mut Handle, made: bool, info: &mut Info) -> i32
    ensures { OnHandle (λ old said new. HasCalled made old said info.new new) handle.old.engine result handle.new.engine }
{
    let Some(mut engine) = handle.take(alloc) else {
        return Code::Closed.number();
    };
    let code = engine.called(made, info);
    put_back(handle, engine, code)
}

/// A transaction on what is published now.
#[unsafe(no_mangle)]
pub extern "C" fn ts_begin(alloc: Global, handle: &mut Handle, info: &mut Info) -> i32
    ensures { OnHandle (λ old said new. BeginsEngine old said info.new new) handle.old.engine result handle.new.engine }
{
    let Some(mut engine) = handle.take(alloc) else {
        return Code::Closed.number();
    };
    let code = engine.begin(info);
    put_back(handle, engine, code)
}

/// Writes a value in a transaction.
#[unsafe(no_mangle)]
pub extern "C" fn ts_put(
    alloc: Global,
    handle: &mut Handle,
    transaction: u64,
    relation: u16,
    record: u64,
    value: &[u8],
) -> i32
    ensures { OnHandle (Writes transaction (Puts (key_of relation «record») value.now)) handle.old.engine result handle.new.engine }
{
    let Some(mut engine) = handle.take(alloc) else {
        return Code::Closed.number();
    };
    let code = engine.put(transaction, Key { relation, record }, value);
    put_back(handle, engine, code)
}

/// Deletes in a transaction.
#[unsafe(no_mangle)]
pub extern "C" fn ts_delete(
    alloc: Global,
    handle: &mut Handle,
    transaction: u64,
    relation: u16,
    record: u64,
) -> i32
    ensures { OnHandle (Writes transaction (Deletes (key_of relation «record»))) handle.old.engine result handle.new.engine }
{
    let Some(mut engine) = handle.take(alloc) else {
        return Code::Closed.number();
    };
    let code = engine.delete(transaction, Key { relation, record });
    put_back(handle, engine, code)
}

/// The value that a transaction sees.
#[unsafe(no_mangle)]
pub extern "C" fn ts_get(
    alloc: Global,
    handle: &mut Handle,
    transaction: u64,
    relation: u16,
    record: u64,
    out: &mut [u8],
    info: &mut Info,
) -> i32
    ensures same { StaysSame handle.old.engine handle.new.engine }
    ensures answers { AnswersOn (λ e said. Sees transaction (key_of relation «record») e said info.new out.new) handle.old.engine result }
{
    let Some(engine) = handle.take(alloc) else {
        return Code::Closed.number();
    };
    let code = engine.get(transaction, Key { relation, record }, out, info);
    put_back(handle, engine, code)
}

/// The records of a relation that a transaction sees.
#[unsafe(no_mangle)]
pub extern "C" fn ts_scan(
    alloc: Global,
    handle: &mut Handle,
    transaction: u64,
    relation: u16,
    rows: &mut [Row],
    out: &mut [u8],
    info: &mut Info,
) -> i32
    ensures same { StaysSame handle.old.engine handle.new.engine }
    ensures answers { AnswersOn (λ e said. SeesScan transaction relation e said info.new rows.new out.new) handle.old.engine result }
{
    let Some(engine) = handle.take(alloc) else {
        return Code::Closed.number();
    };
    let code = engine.scan(transaction, relation, rows, out, info);
    put_back(handle, engine, code)
}

/// Queues the writes of a transaction.
#[unsafe(no_mangle)]
pub extern "C" fn ts_submit(
    alloc: Global,
    handle: &mut Handle,
    transaction: u64,
    label: u64,
    now: u64,
    info: &mut Info,
) -> i32
    ensures { OnHandle (λ old said new. SubmitsEngine transaction label now old said info.new new) handle.old.engine result handle.new.engine }
{
    let Some(mut engine) = handle.take(alloc) else {
        return Code::Closed.number();
    };
    let code = engine.submit(transaction, label, now, info);
    put_back(handle, engine, code)
}

/// Gives a transaction up.
#[unsafe(no_mangle)]
pub extern "C" fn ts_abort(alloc: Global, handle: &mut Handle, transaction: u64) -> i32
    ensures { OnHandle (AbortsEngine transaction) handle.old.engine result handle.new.engine }
{
    let Some(mut engine) = handle.take(alloc) else {
        return Code::Closed.number();
    };
    let code = engine.abort(transaction);
    put_back(handle, engine, code)
}

/// The next step of the group that is being written.
#[unsafe(no_mangle)]
pub extern "C" fn ts_pump(alloc: Global, handle: &mut Handle, info: &mut Info) -> i32
    ensures { OnHandle (λ old said new. PumpsEngine old said info.new new) handle.old.engine result handle.new.engine }
{
    let Some(mut engine) = handle.take(alloc) else {
        return Code::Closed.number();
    };
    let code = engine.pump(info);
    put_back(handle, engine, code)
}

/// What became of a ticket.
#[unsafe(no_mangle)]
pub extern "C" fn ts_redeem(alloc: Global, handle: &mut Handle, ticket: u64, info: &mut Info) -> i32
    ensures { OnHandle (λ old said new. RedeemsEngine ticket old said info.new new) handle.old.engine result handle.new.engine }
{
    let Some(mut engine) = handle.take(alloc) else {
        return Code::Closed.number();
    };
    let code = engine.redeem(ticket, info);
    put_back(handle, engine, code)
}

/// Gives a ticket up.
#[unsafe(no_mangle)]
pub extern "C" fn ts_give_up(alloc: Global, handle: &mut Handle, ticket: u64) -> i32
    ensures { OnHandle (GivesUp ticket) handle.old.engine result handle.new.engine }
{
    let Some(mut engine) = handle.take(alloc) else {
        return Code::Closed.number();
    };
    let code = engine.give_up(ticket);
    put_back(handle, engine, code)
}

/// A view of what is published now.
#[unsafe(no_mangle)]
pub extern "C" fn ts_view(alloc: Global, handle: &mut Handle, info: &mut Info) -> i32
    ensures { OnHandle (λ old said new. GivesView old said info.new new) handle.old.engine result handle.new.engine }
{
    let Some(mut engine) = handle.take(alloc) else {
        return Code::Closed.number();
    };
    let code = engine.view(info);
    put_back(handle, engine, code)
}

/// Ends a view.
#[unsafe(no_mangle)]
pub extern "C" fn ts_end(alloc: Global, handle: &mut Handle, view: u64) -> i32
    ensures { OnHandle (EndsView view) handle.old.engine result handle.new.engine }
{
    let Some(mut engine) = handle.take(alloc) else {
        return Code::Closed.number();
    };
    let code = engine.end(view);
    put_back(handle, engine, code)
}

/// The value of a key at a time, from memory alone.
#[unsafe(no_mangle)]
#[allow(clippy::too_many_arguments)]
pub extern "C" fn ts_recent(
    alloc: Global,
    handle: &mut Handle,
    view: u64,
    relation: u16,
    record: u64,
    time: u64,
    out: &mut [u8],
    info: &mut Info,
) -> i32
    ensures same { StaysSame handle.old.engine handle.new.engine }
    ensures answers { AnswersOn (λ e said. AsksRecent view (key_of relation «record») time e said info.new out.new) handle.old.engine result }
{
    let Some(engine) = handle.take(alloc) else {
        return Code::Closed.number();
    };
    let code = engine.recent(view, Key { relation, record }, time, out, info);
    put_back(handle, engine, code)
}

/// The value of a key at a time. The archive is lent.
#[unsafe(no_mangle)]
#[allow(clippy::too_many_arguments)]
pub extern "C" fn ts_at(
    alloc: Global,
    handle: &mut Handle,
    view: u64,
    relation: u16,
    record: u64,
    time: u64,
    archive: &[u8],
    out: &mut [u8],
    info: &mut Info,
) -> i32
    ensures same { StaysSame handle.old.engine handle.new.engine }
    ensures answers { AnswersOn (λ e said. AsksAt archive.now view (key_of relation «record») time e said info.new out.new) handle.old.engine result }
{
    let Some(engine) = handle.take(alloc) else {
        return Code::Closed.number();
    };
    let code = engine.at(view, Key { relation, record }, time, archive, out, info);
    put_back(handle, engine, code)
}

/// The records of a relation that have a value at a time.
#[unsafe(no_mangle)]
#[allow(clippy::too_many_arguments)]
pub extern "C" fn ts_scan_at(
    alloc: Global,
    handle: &mut Handle,
    view: u64,
    relation: u16,
    time: u64,
    archive: &[u8],
    rows: &mut [Row],
    out: &mut [u8],
    info: &mut Info,
) -> i32
    ensures same { StaysSame handle.old.engine handle.new.engine }
    ensures answers { AnswersOn (λ e said. AsksScanAt archive.now view relation time e said info.new rows.new out.new) handle.old.engine result }
{
    let Some(engine) = handle.take(alloc) else {
        return Code::Closed.number();
    };
    let code = engine.scan_at(view, relation, time, archive, rows, out, info);
    put_back(handle, engine, code)
}

/// The rows of a key from one time up to another.
#[unsafe(no_mangle)]
#[allow(clippy::too_many_arguments)]
pub extern "C" fn ts_between(
    alloc: Global,
    handle: &mut Handle,
    view: u64,
    relation: u16,
    record: u64,
    from: u64,
    upto: u64,
    archive: &[u8],
    rows: &mut [Row],
    out: &mut [u8],
    info: &mut Info,
) -> i32
    ensures same { StaysSame handle.old.engine handle.new.engine }
    ensures answers { AnswersOn (λ e said. AsksRows archive.now view (key_of relation «record») from upto e said info.new rows.new out.new) handle.old.engine
        result }
{
    let Some(engine) = handle.take(alloc) else {
        return Code::Closed.number();
    };
    let code = engine.between(
        view,
        Key { relation, record },
        from,
        upto,
        archive,
        rows,
        out,
        info,
    );
    put_back(handle, engine, code)
}

/// The rows of a relation's records from one time up to another.
#[unsafe(no_mangle)]
#[allow(clippy::too_many_arguments)]
pub extern "C" fn ts_scan_between(
    alloc: Global,
    handle: &mut Handle,
    view: u64,
    relation: u16,
    from: u64,
    upto: u64,
    archive: &[u8],
    rows: &mut [Row],
    out: &mut [u8],
    info: &mut Info,
) -> i32
    ensures same { StaysSame handle.old.engine handle.new.engine }
    ensures answers { AnswersOn (λ e said. AsksScanRows archive.now view relation from upto e said info.new rows.new out.new) handle.old.engine result }
{
    let Some(engine) = handle.take(alloc) else {
        return Code::Closed.number();
    };
    let code = engine.scan_between(view, relation, from, upto, archive, rows, out, info);
    put_back(handle, engine, code)
}

/// The times of the commits with a label. The archive is lent.
#[unsafe(no_mangle)]
pub extern "C" fn ts_times_of(
    alloc: Global,
    handle: &mut Handle,
    label: u64,
    archive: &[u8],
    times: &mut [u64],
    info: &mut Info,
) -> i32
    ensures same { StaysSame handle.old.engine handle.new.engine }
    ensures answers { AnswersOn (λ e said. TellsLabels archive.now label e said info.new times.new) handle.old.engine result }
{
    let Some(engine) = handle.take(alloc) else {
        return Code::Closed.number();
    };
    let code = engine.times_of(label, archive, times, info);
    put_back(handle, engine, code)
}

/// Begins an archive of what ended by a time.
#[unsafe(no_mangle)]
pub extern "C" fn ts_archive(alloc: Global, handle: &mut Handle, upto: u64, info: &mut Info) -> i32
    ensures { OnHandle (λ old said new. ArchivesEngine upto old said info.new new) handle.old.engine result handle.new.engine }
{
    let Some(mut engine) = handle.take(alloc) else {
        return Code::Closed.number();
    };
    let code = engine.archive(upto, info);
    put_back(handle, engine, code)
}

/// Begins a reclaim of what is archived.
#[unsafe(no_mangle)]
pub extern "C" fn ts_reclaim(alloc: Global, handle: &mut Handle, info: &mut Info) -> i32
    ensures { OnHandle (λ old said new. ReclaimsEngine old said info.new new) handle.old.engine result handle.new.engine }
{
    let Some(mut engine) = handle.take(alloc) else {
        return Code::Closed.number();
    };
    let code = engine.reclaim(info);
    put_back(handle, engine, code)
}

/// Begins to raise the floor of all relations to a time.
#[unsafe(no_mangle)]
pub extern "C" fn ts_floor(alloc: Global, handle: &mut Handle, time: u64, info: &mut Info) -> i32
    ensures { OnHandle (λ old said new. RaisesEngine time old said info.new new) handle.old.engine result handle.new.engine }
{
    let Some(mut engine) = handle.take(alloc) else {
        return Code::Closed.number();
    };
    let code = engine.floor(time, info);
    put_back(handle, engine, code)
}

/// Begins to raise the floor of one relation to a time.
#[unsafe(no_mangle)]
pub extern "C" fn ts_floor_of(
    alloc: Global,
    handle: &mut Handle,
    relation: u16,
    time: u64,
    info: &mut Info,
) -> i32
    ensures { OnHandle (λ old said new. RaisesFloorOf relation time old said info.new new) handle.old.engine result handle.new.engine }
{
    let Some(mut engine) = handle.take(alloc) else {
        return Code::Closed.number();
    };
    let code = engine.floor_of_start(relation, time, info);
    put_back(handle, engine, code)
}

/// Begins to make 256 slots more.
#[unsafe(no_mangle)]
pub extern "C" fn ts_grow(alloc: Global, handle: &mut Handle, info: &mut Info) -> i32
    ensures { OnHandle (λ old said new. GrowsEngine old said info.new new) handle.old.engine result handle.new.engine }
{
    let Some(mut engine) = handle.take(alloc) else {
        return Code::Closed.number();
    };
    let code = engine.grow(info);
    put_back(handle, engine, code)
}

/// The next step of the job that runs.
#[unsafe(no_mangle)]
pub extern "C" fn ts_job_pump(alloc: Global, handle: &mut Handle, info: &mut Info) -> i32
    ensures { OnHandle (λ old said new. PumpsJobOf old said info.new new) handle.old.engine result handle.new.engine }
{
    let Some(mut engine) = handle.take(alloc) else {
        return Code::Closed.number();
    };
    let code = engine.job_pump(info);
    put_back(handle, engine, code)
}
