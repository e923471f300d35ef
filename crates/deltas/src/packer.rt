//! Records packed into extents.

ghost use Rattle.std.specs.Prelude.{◌≡◌, ◌++◌, ◌+◌, ◌≤◌, ◌<◌, ℕ, [], ◌∷◌, length, map, IfOk};
ghost use Rattle.deltas.specs.Records.{spelling};
ghost use Rattle.deltas.specs.Loans.{record_of_loan};
ghost use Rattle.deltas.specs.Packing.{bodies, bodies_from};

use crate::extent_body::ExtentBody;
use crate::extent_image::BODY_LEN;
use crate::record::Record;
use crate::record_list::RecordList;
use crate::record_ref::RecordRef;
use crate::record_source::RecordSource;
use crate::slice_writer::loan_len;
use std::alloc::{AllocError, Global};

/// The bytes of each extent's records: a record that no longer fits begins the next extent. There
/// are as many as the records need extents.
pub fn pack(alloc: Global, records: &[Record]) -> Result<Vec<ExtentBody>, AllocError>
    ensures { IfOk result (λ packed. packed.items ≡ bodies (map spelling records.now)) }
{
    pack_all(alloc, &mut RecordList::new(records))
}

/// The same of all records that are left. None is left then.
pub fn pack_all<S: RecordSource>(
    alloc: Global,
    source: &mut S,
) -> Result<Vec<ExtentBody>, AllocError>
    ensures packed { IfOk result (λ packed. packed.items ≡ bodies (map spelling (S.left source.old))) }
    ensures none { IfOk result (λ _. S.left source.new ≡ []) }
{
    let mut packed = Vec::new(alloc);
    let Some(first) = source.peek() else {
        return Ok(packed);
    };
    let mut body = begun(alloc, first)?;
    source.advance();
    while let Some(record) = source.peek() {
        if body.len() + loan_len(record) > BODY_LEN {
            packed.push(body)?;
            body = begun(alloc, record)?;
        } else {
            body.push(record);
        }
        source.advance();
    }
    packed.push(body)?;
    Ok(packed)
}

// An extent that this record begins.
fn begun(alloc: Global, first: RecordRef) -> Result<ExtentBody, AllocError>
    ensures { IfOk result (λ body. body ≡ spelling (record_of_loan first.entry)) }
{
    let _len = loan_len(first);
    let mut body = ExtentBody::new(alloc)?;
    body.push(first);
    Ok(body)
}
