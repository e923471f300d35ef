//! Values and rows, copied out.
ghost use Rattle.std.specs.Prelude.{◌≡◌, ◌↔◌, ◌++◌, ◌<◌, ◌^◌, ℕ, List, [], ◌∷◌, length, map, option_copied, IsTrue};
ghost use Rattle.c_engine.specs.declared.code.Row.{Row};
ghost use Rattle.wire.specs.Values.{value_bytes};
ghost use Rattle.c_engine.specs.Bytes.{AreBytesTold};
ghost use Rattle.c_engine.specs.Queries.{IsValueTold};
ghost use Rattle.c_engine.specs.Rows.{Shown, shown_record, shown_version, shown_entry, shown_as, HasRoomAt, IsPlaced, AreTold, AreLaid};

use crate::code::{Code, Info, Row};
use crate::values::{copy_out, length_of};
use any_store::SharedValue;
use history::Version;
use wire::Value;

/// Copies a value out; none has its own code.
pub fn value_out(found: Option<&SharedValue>, out: &mut [u8], info: &mut Info) -> Code
    ensures { IsValueTold (option_copied found.entry) result info.new out.new }
{
    match found {
        None => Code::None,
        Some(value) => copied(value, out, info),
    }
}

/// Copies a value out; its length is told.
fn copied(value: &SharedValue, out: &mut [u8], info: &mut Info) -> Code
    ensures { AreBytesTold (value_bytes value.now) result info.new out.new }
{
    info.a = length_of(value.value()) as u64;
    match copy_out(value.value(), out) {
        None => Code::Small,
        Some(_) => Code::Ok,
    }
}

/// What was copied out so far of a list of rows.
#[derive(Drop)]
struct Copying {
    rows: usize,
    bytes: usize,
    fits: bool,
}

impl Copying {
    fn new() -> Copying
        ensures { (rows : List Row) (out : List ℕ) → AreLaid [] result rows out }
    {
        Copying {
            rows: 0,
            bytes: 0,
            fits: true,
        }
    }

    // Copies one row behind those before it; whether it fits.
    fn place(&self, row: Row, value: &Value, rows: &mut [Row], out: &mut [u8]) -> bool
        ensures room { IsTrue result ↔ HasRoomAt self.now value.now rows.old out.old }
        ensures placed { IsTrue result → IsPlaced self.now (shown_as row value.now) rows.old out.old rows.new out.new }
    {
        if !self.fits || self.rows >= rows.len() || self.bytes > out.len() {
            return false;
        }
        match copy_out(value, &mut out[self.bytes..]) {
            None => false,
            Some(len) => {
                rows[self.rows] = Row {
                    at: self.bytes as u64,
                    len: len as u64,
                    ..row
                };
                true
            }
        }
    }

    // Copies one row; where one does not fit, none behind it is copied.
    fn copy(&mut self, row: Row, value: &Value, rows: &mut [Row], out: &mut [u8])
        ensures { (shown : List Shown) → length shown < 2 ^ 63 → AreLaid shown self.old rows.old out.old
            → AreLaid (shown ++ shown_as row value.now ∷ []) self.new rows.new out.new }
    {
        self.fits = self.place(row, value, rows, out);
        self.rows = self.rows.saturating_add(1);
        self.bytes = self.bytes.saturating_add(length_of(value));
    }

    // How many rows there are and how many bytes they take are told.
    fn end(self, info: &mut Info) -> Code
        ensures { (shown : List Shown) (rows : List Row) (out : List ℕ) → AreLaid shown self rows out → AreTold shown result info.new rows out }
    {
        info.a = self.rows as u64;
        info.b = self.bytes as u64;
        if self.fits { Code::Ok } else { Code::Small }
    }
}

fn row(record: u64, from: u64, upto: u64) -> Row
    ensures { result ≡ record { «record» = «record»; from = from; upto = upto; at = 0; len = 0 } }
{
    Row {
        record,
        from,
        upto,
        at: 0,
        len: 0,
    }
}

/// Copies records with their values.
pub fn records_out(
    found: &[(u64, SharedValue)],
    rows: &mut [Row],
    out: &mut [u8],
    info: &mut Info,
) -> Code
    ensures { AreTold (map shown_record found.now) result info.new rows.new out.new }
{
    let mut copying = Copying::new();
    for entry in found {
        copying.copy(row(entry.0, 0, 0), entry.1.value(), rows, out);
    }
    copying.end(info)
}

/// Copies the rows of one record.
pub fn rows_out(
    record: u64,
    found: &[Version<SharedValue>],
    rows: &mut [Row],
    out: &mut [u8],
    info: &mut Info,
) -> Code
    ensures { AreTold (map (shown_version «record») found.now) result info.new rows.new out.new }
{
    let mut copying = Copying::new();
    for version in found {
        let row = row(record, version.from, version.to);
        copying.copy(row, version.value.value(), rows, out);
    }
    copying.end(info)
}

/// Copies the rows of several records.
pub fn scan_out(
    found: &[(u64, Version<SharedValue>)],
    rows: &mut [Row],
    out: &mut [u8],
    info: &mut Info,
) -> Code
    ensures { AreTold (map shown_entry found.now) result info.new rows.new out.new }
{
    let mut copying = Copying::new();
    for entry in found {
        let row = row(entry.0, entry.1.from, entry.1.to);
        copying.copy(row, entry.1.value.value(), rows, out);
    }
    copying.end(info)
}
