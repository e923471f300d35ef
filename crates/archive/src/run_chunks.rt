//! A run as chunks: each record of a walk, and then, by a second walk, each entry of the index.
ghost use Rattle.std.specs.Prelude.{◌≡◌, ◌+◌, ◌*◌, ◌≤◌, ◌<◌, ◌^◌, ◌∷◌, [], None, Some, drop, length, map, take, MatchOption, IfSome, IfNone};
ghost use Rattle.std.specs.Option.{ForSome};
ghost use Rattle.archive.specs.Pieces.{size_of, chunks_left, run_chunks, index_chunks};
ghost use Rattle.archive.specs.Records.{record_bytes};

use crate::encode::{encode_place, encode_record, record_len};
use crate::{Chunks, RecordWalk};
use wire::LAST_PLACE;

/// How many records a run has, and how many bytes.
#[derive(Clone, Copy, Debug, PartialEq, Eq)]
pub(crate) struct Sizes {
    pub(crate) records: u64,
    pub(crate) len: u64,
}

/// Counts the records that are left and the bytes of their run; none where there are 2^63 or more.
pub(crate) fn measure<W: RecordWalk>(walk: &mut W) -> Option<Sizes>
    ensures all { W.all walk.new ≡ W.all walk.old }
    ensures none { IfNone result (2 ^ 63 ≤ size_of (W.left walk.old)) }
    ensures records { IfSome result (λ sizes. sizes.records ≡ length (W.left walk.old)) }
    ensures len { IfSome result (λ sizes. sizes.len ≡ size_of (W.left walk.old)) }
    ensures short { IfSome result (λ sizes. sizes.len < 2 ^ 63) }
    ensures least { IfSome result (λ sizes. 36 * sizes.records ≤ sizes.len) }
    ensures most { IfSome result (λ sizes. sizes.len ≤ 4131 * sizes.records) }
{
    let mut records = 0;
    let mut len = 0;
    while let Some((head, value)) = walk.peek() {
        len += record_len(value) as u64 + 8;
        if len > LAST_PLACE {
            return None;
        }
        records += 1;
        walk.advance(&head);
    }
    Some(Sizes { records, len })
}

/// The records of a run as a walk gives them, and then the entries of the index.
#[derive(Drop)]
pub(crate) struct RunChunks<W: RecordWalk> {
    walk: W,
    /// The place of the record whose entry of the index is next; none while the records are written.
    place: Option<u64>,
    ghost short: { size_of (W.all walk) < 2 ^ 63 },
    ghost placed: { ForSome place (λ at. at + size_of (W.left walk) ≤ size_of (W.all walk)) },
}

impl<W: RecordWalk> RunChunks<W> {
    /// All records of the walk.
    pub(crate) fn new(walk: W) -> Self
        requires short { size_of (W.all walk) < 2 ^ 63 }
        requires all { W.left walk ≡ W.all walk }
        ensures { chunks_left result.place (W.all result.walk) (W.left result.walk) ≡ run_chunks (W.all walk) }
    {
        RunChunks { walk, place: None }
    }

    /// The next record's entry of the index.
    fn next_place(&mut self, at: u64, out: &mut [u8], room: usize) -> Option<usize>
        requires place { self.old.place ≡ Some at }
        requires size { 4123 ≤ length out.old }
        ensures some { IfSome result (λ n. index_chunks at (W.left self.old.walk) ≡ take n out.new ∷ drop 1 (index_chunks at (W.left self.old.walk))) }
        ensures passed { IfSome result (λ n. n ≤ room → chunks_left self.new.place (W.all self.new.walk) (W.left self.new.walk)
            ≡ drop 1 (index_chunks at (W.left self.old.walk))) }
        ensures kept { IfSome result (λ n. room < n → self.new ≡ self.old) }
        ensures short { IfSome result (λ n. n ≤ 4123) }
        ensures none { IfNone result (W.left self.old.walk ≡ []) }
        ensures last { IfNone result (self.new ≡ self.old) }
    {
        let Some((head, value)) = self.walk.peek() else {
            return None;
        };
        let behind = at + record_len(value) as u64;
        let len = encode_place(at, out);
        if len <= room {
            self.walk.advance(&head);
            self.place = Some(behind);
        }
        Some(len)
    }

    /// The next record itself.
    fn next_record(&mut self, out: &mut [u8], room: usize) -> Option<usize>
        requires place { self.old.place ≡ None }
        requires size { 4123 ≤ length out.old }
        ensures some { IfSome result (λ n. map record_bytes (W.left self.old.walk) ≡ take n out.new ∷ drop 1 (map record_bytes (W.left self.old.walk))) }
        ensures passed { IfSome result (λ n. n ≤ room → map record_bytes (W.left self.new.walk) ≡ drop 1 (map record_bytes (W.left self.old.walk))) }
        ensures kept { IfSome result (λ n. room < n → self.new ≡ self.old) }
        ensures short { IfSome result (λ n. n ≤ 4123) }
        ensures none { IfNone result (W.left self.old.walk ≡ []) }
        ensures all { W.all self.new.walk ≡ W.all self.old.walk }
        ensures place { self.new.place ≡ None }
    {
        let Some((head, value)) = self.walk.peek() else {
            return None;
        };
        let len = encode_record(&head, value, out);
        if len <= room {
            self.walk.advance(&head);
        }
        Some(len)
    }
}

impl<W: RecordWalk> Chunks for RunChunks<W> {
    ghost left = { λ c. chunks_left c.place (W.all c.walk) (W.left c.walk) };

    fn next(&mut self, out: &mut [u8], room: usize) -> Option<usize> {
        if let Some(at) = self.place {
            return self.next_place(at, out, room);
        }
        if let Some(len) = self.next_record(out, room) {
            return Some(len);
        }
        self.walk.restart();
        self.place = Some(0);
        self.next_place(0, out, room)
    }
}
