//! Views and queries.
ghost use Rattle.std.specs.Prelude.{◌≡◌, option_copied};
ghost use Rattle.timequery.specs.Archives.{ArchiveValue};
ghost use Rattle.c_engine.specs.Engines.{AreTimesTold};
ghost use Rattle.c_engine.specs.Held.{view_of};
ghost use Rattle.c_engine.specs.Queries.{is_none, lacks_rolls, takes_bytes, TellsRecent, TellsAt, LentScanAt, LentRows, LentScanRows, LentTimes};

use crate::asking::{self, Kept, Lent};
use crate::code::{Code, Info, Row};
use crate::codes::query_code;
use crate::engine::{Engine, EngineState, Published};
use crate::places::{Held, Places};
use crate::rows::{records_out, rows_out, scan_out, value_out};
use any_store::{QueryFault, SharedValue, View};
use archive::RunEntry;
use history::{Key, Version};
use std::alloc::Global;

// The view of a number; the last one names that of what was published before a device call.
fn view_of<'a>(places: &'a Places, before: &'a Option<Published>, number: u64) -> Option<&'a View>
    ensures { option_copied result ≡ view_of places.now before.now number }
{
    if number != places.last_number() {
        return places.view(number);
    }
    match before {
        None => None,
        Some(published) => Some(&published.view),
    }
}

// Whether no byte is lent of an archive that has some.
fn is_none(archive: &[u8], view: &View) -> bool
    ensures { result ≡ is_none archive.now view.now }
{
    archive.is_empty() && takes_bytes(view.runs().last())
}

// Whether runs up to this one take bytes.
fn takes_bytes(run: Option<&RunEntry>) -> bool
    ensures { result ≡ takes_bytes (option_copied run.entry) }
{
    match run {
        None => false,
        Some(run) => run.slot.start > 0 || run.slot.len > 0,
    }
}

// What memory alone answers, copied out.
fn recent_out(view: &View, key: Key, time: u64, out: &mut [u8], info: &mut Info) -> Code
    ensures { TellsRecent view.now key time result info.new out.new }
{
    match view.recent(key, time) {
        Err(fault) => query_code(fault, info),
        Ok(found) => value_out(found, out, info),
    }
}

// What is answered over the archive that is lent, copied out.
fn lent_out(
    lent: &mut Lent<'_>,
    view: &View,
    key: Key,
    time: u64,
    out: &mut [u8],
    info: &mut Info,
) -> Code
    ensures { (runs : ArchiveValue) → TellsAt lent.old lent.new runs view.now key time result info.new out.new }
{
    match lent.at(view, key, time) {
        Err(fault) => query_code(fault, info),
        Ok(found) => value_out(found.as_ref(), out, info),
    }
}

// The queries of several rows, over the archive that is lent or, where none is, from memory alone.
fn scan_at(
    alloc: Global,
    archive: &[u8],
    view: &View,
    relation: u16,
    time: u64,
) -> Result<Vec<(u64, SharedValue)>, QueryFault>
    ensures { (runs : ArchiveValue) → LentScanAt archive.now runs view.now relation time result }
{
    if is_none(archive, view) {
        return view.recent_scan(alloc, relation, time);
    }
    let mut lent = Lent::new(alloc, archive);
    lent.scan_at(view, relation, time)
}

fn between(
    alloc: Global,
    archive: &[u8],
    view: &View,
    key: Key,
    a: u64,
    b: u64,
) -> Result<Vec<Version<SharedValue>>, QueryFault>
    ensures { (runs : ArchiveValue) → LentRows archive.now runs view.now key a b result }
{
    if is_none(archive, view) {
        return view.recent_between(alloc, key, a, b);
    }
    let mut lent = Lent::new(alloc, archive);
    lent.between(view, key, a, b)
}

fn scan_between(
    alloc: Global,
    archive: &[u8],
    view: &View,
    relation: u16,
    a: u64,
    b: u64,
) -> Result<Vec<(u64, Version<SharedValue>)>, QueryFault>
    ensures { (runs : ArchiveValue) → LentScanRows archive.now runs view.now relation a b result }
{
    if is_none(archive, view) {
        return view.recent_scan_between(alloc, relation, a, b);
    }
    let mut lent = Lent::new(alloc, archive);
    lent.scan_between(view, relation, a, b)
}

// Whether no byte is lent, though names of commits lie in the archive.
fn lacks_rolls(archive: &[u8], store: &Kept) -> bool
    ensures { result ≡ lacks_rolls archive.now store.now }
{
    archive.is_empty() && store.has_rolls()
}

// The times of a label, over the archive that is lent; where none is, it may be needed.
fn times_of(alloc: Global, archive: &[u8], store: &Kept, label: u64) -> Result<Vec<u64>, QueryFault>
    ensures { LentTimes archive.now store.now label result }
{
    if lacks_rolls(archive, store) {
        return Err(QueryFault::NeedsDisk);
    }
    let mut lent = Lent::new(alloc, archive);
    lent.times_of(store, label)
}

// How many times there are is told, and they are copied out where there is room.
fn times_out(found: &[u64], times: &mut [u64], info: &mut Info) -> Code
    ensures { AreTimesTold found.now result info.new times.new }
{
    info.a = found.len() as u64;
    if times.len() < found.len() {
        return Code::Small;
    }
    times[..found.len()].copy_from_slice(found);
    Code::Ok
}

impl Engine {
    ghost use Rattle.c_engine.specs.Engines.{GivesView, TakesView, EndsView, TellsLabels, published_of};
    ghost use Rattle.c_engine.specs.Queries.{AsksRecent, AsksAt, AsksScanAt, AsksRows, AsksScanRows};

    /// A view of what is published now, or was before a call was refused; its number is told.
    pub fn view(&mut self, info: &mut Info) -> Code
        ensures { GivesView self.old result info.new self.new }
    {
        match self.state {
            EngineState::Asks(_) => Code::Pending,
            EngineState::Failed => {
                info.a = self.places.last_number();
                Code::Ok
            }
            EngineState::Settled => self.new_view(info),
        }
    }

    // One of what is published now.
    fn new_view(&mut self, info: &mut Info) -> Code
        ensures { TakesView self.old result info.new self.new }
    {
        if !self.places.make_free() {
            return Code::NoMemory;
        }
        match asking::view(&self.store) {
            Err(_) => Code::NoMemory,
            Ok(view) => {
                info.a = self.places.keep_free(Held::View(view));
                Code::Ok
            }
        }
    }

    /// Ends a view.
    pub fn end(&mut self, view: u64) -> Code
        ensures { EndsView view self.old result self.new }
    {
        if view == self.places.last_number() && self.has_failed() {
            return Code::Ok;
        }
        match self.places.take_view(view) {
            None => Code::Unknown,
            Some(view) => {
                view.spend();
                Code::Ok
            }
        }
    }

    /// The value of a key at a time, and its length, from memory alone.
    pub fn recent(&self, view: u64, key: Key, time: u64, out: &mut [u8], info: &mut Info) -> Code
        ensures { AsksRecent view key time self.now result info.new out.new }
    {
        let Some(view) = view_of(&self.places, &self.before, view) else {
            return Code::Unknown;
        };
        recent_out(view, key, time, out, info)
    }

    /// The value of a key at a time, and its length. Below the reclaim mark the archive is read, which is
    /// lent; where none is, memory alone answers.
    #[allow(clippy::too_many_arguments)]
    pub fn at(
        &self,
        view: u64,
        key: Key,
        time: u64,
        archive: &[u8],
        out: &mut [u8],
        info: &mut Info,
    ) -> Code
        ensures { AsksAt archive.now view key time self.now result info.new out.new }
    {
        let Some(view) = view_of(&self.places, &self.before, view) else {
            return Code::Unknown;
        };
        if is_none(archive, view) {
            return recent_out(view, key, time, out, info);
        }
        let mut lent = Lent::new(self.alloc, archive);
        lent_out(&mut lent, view, key, time, out, info)
    }

    /// The records of a relation that have a value at a time, with their values.
    #[allow(clippy::too_many_arguments)]
    pub fn scan_at(
        &self,
        view: u64,
        relation: u16,
        time: u64,
        archive: &[u8],
        rows: &mut [Row],
        out: &mut [u8],
        info: &mut Info,
    ) -> Code
        ensures { AsksScanAt archive.now view relation time self.now result info.new rows.new out.new }
    {
        let Some(view) = view_of(&self.places, &self.before, view) else {
            return Code::Unknown;
        };
        match scan_at(self.alloc, archive, view, relation, time) {
            Err(fault) => query_code(fault, info),
            Ok(found) => records_out(&found, rows, out, info),
        }
    }

    /// The rows of a key from one time up to another.
    #[allow(clippy::too_many_arguments)]
    pub fn between(
        &self,
        view: u64,
        key: Key,
        a: u64,
        b: u64,
        archive: &[u8],
        rows: &mut [Row],
        out: &mut [u8],
        info: &mut Info,
    ) -> Code
        ensures { AsksRows archive.now view key a b self.now result info.new rows.new out.new }
    {
        let Some(view) = view_of(&self.places, &self.before, view) else {
            return Code::Unknown;
        };
        match between(self.alloc, archive, view, key, a, b) {
            Err(fault) => query_code(fault, info),
            Ok(found) => rows_out(key.record, &found, rows, out, info),
        }
    }

    /// The rows of a relation's records from one time up to another, each with its record.
    #[allow(clippy::too_many_arguments)]
    pub fn scan_between(
        &self,
        view: u64,
        relation: u16,
        a: u64,
        b: u64,
        archive: &[u8],
        rows: &mut [Row],
        out: &mut [u8],
        info: &mut Info,
    ) -> Code
        ensures { AsksScanRows archive.now view relation a b self.now result info.new rows.new out.new }
    {
        let Some(view) = view_of(&self.places, &self.before, view) else {
            return Code::Unknown;
        };
        match scan_between(self.alloc, archive, view, relation, a, b) {
            Err(fault) => query_code(fault, info),
            Ok(found) => scan_out(&found, rows, out, info),
        }
    }

    // Keeps of these times those that were published, also where a call was refused since. It takes no memory.
    fn keep_published(&self, times: &mut Vec<u64>)
        ensures { times.new.items ≡ published_of self.now.state self.now.before times.old.items }
    {
        if !self.has_failed() {
            return;
        }
        match &self.before {
            None => times.clear(),
            Some(published) => {
                let last = published.last;
                times.retain(|time| *time <= last);
            }
        }
    }

    /// The times of the commits with a label, rising, and how many there are. Where the log lies in the heap those
    /// up to its reclaim mark are read in the archive, which is lent.
    pub fn times_of(&self, label: u64, archive: &[u8], times: &mut [u64], info: &mut Info) -> Code
        ensures { TellsLabels archive.now label self.now result info.new times.new }
    {
        if self.asks() {
            return Code::Pending;
        }
        match times_of(self.alloc, archive, &self.store, label) {
            Err(fault) => query_code(fault, info),
            Ok(mut found) => {
                self.keep_published(&mut found);
                times_out(&found, times, info)
            }
        }
    }
}
