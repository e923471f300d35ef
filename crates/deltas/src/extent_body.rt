//! The records of one extent, in the memory of its bytes.

ghost use Rattle.std.specs.Prelude.{◌≡◌, ◌++◌, ◌+◌, ◌≤◌, [], length, IfOk};
ghost use Rattle.deltas.specs.Records.{spelling};
ghost use Rattle.deltas.specs.Loans.{record_of_loan};
ghost use Rattle.deltas.specs.Extents.{extent_bytes};

use crate::extent_image::{EXTENT_LEN, Image};
use crate::record_ref::RecordRef;
use crate::slice_writer::{put_header, put_record};
use std::alloc::{AllocError, Global};
use std::marker::Model;

/// The bytes of the records that go into one extent: at most 8,176. They lie where the extent's
/// bytes have them, so that `seal` copies none.
#[derive(Drop)]
pub struct ExtentBody {
    // All bytes of the extent: room for its header, the records, zeros.
    image: Vec<u8>,
    // How many bytes the records have.
    used: usize,
}

impl Model for ExtentBody {
    ghost use Rattle.std.specs.Prelude.{ℕ, List};
    ghost use Rattle.deltas.specs.Images.{IsBegun, records_in};

    ghost Value = { List ℕ };

    ghost view = { λ b. records_in b.image.items b.used };

    ghost invariant = { λ b. IsBegun b.image.items b.used };
}

impl ExtentBody {
    /// No record yet.
    pub(crate) fn new(alloc: Global) -> Result<ExtentBody, AllocError>
        ensures { IfOk result (λ body. body ≡ []) }
    {
        let mut image = Vec::with_capacity(alloc, EXTENT_LEN)?;
        image.resize(EXTENT_LEN, 0)?;
        Ok(ExtentBody { image, used: 0 })
    }

    /// How many bytes the records have.
    pub(crate) fn len(&self) -> usize
        ensures is { result ≡ length self.now }
        ensures fits { result ≤ 8176 }
    {
        self.used
    }

    /// One more record, which fits there.
    pub(crate) fn push(&mut self, one: RecordRef)
        requires { length self.old + length (spelling (record_of_loan one)) ≤ 8176 }
        ensures { self.new ≡ self.old ++ spelling (record_of_loan one.entry) }
    {
        self.used = put_record(&mut self.image[16..], self.used, one);
    }

    /// The records' bytes, one record after the other.
    pub fn bytes(&self) -> &[u8]
        ensures is { result.now ≡ self.now }
        ensures fits { length self.now ≤ 8176 }
    {
        &self.image[16..16 + self.used]
    }
}

/// The extent of this number, before the extent `next` of its chain or the last where that is 0:
/// its header, the records' bytes, zeros.
pub fn seal(number: u32, next: u32, body: ExtentBody) -> Image
    ensures { result ≡ extent_bytes (record { number = number; next = next; body = body }) }
{
    let ExtentBody { mut image, used } = body;
    put_header(&mut image, number, next, used as u32);
    Image::of_all(image)
}
