//! The names of commits, as a roll of the archive has them.

ghost use Rattle.std.specs.Prelude.{◌≡◌, ◌++◌, [], IfOk, OnOk, map, flat_map};
ghost use Rattle.law_log_layout.specs.HeapLog.{name_bytes};
ghost use Rattle.group.specs.CommitOrder.{IsRisingAfter};
ghost use Rattle.log_base.specs.Names.{head_of, name_of, named_between, AreNamesBetween, AreBytesBetween};

use byteorder::{ByteOrder, LittleEndian};
use group::CommitHead;
use std::alloc::{AllocError, Global};

/// How many bytes a name has.
const NAME_LEN: usize = 16;

/// The name of a commit: by its label, and then by its time in microseconds since 1970.
#[derive(Clone, Copy, Debug, PartialEq, Eq, PartialOrd, Ord)]
pub(crate) struct Name {
    pub(crate) label: u64,
    pub(crate) time: u64,
}

// The names of the commits later than one time and no later than another, in their order.
fn picked(
    alloc: Global,
    heads: &[CommitHead],
    after: u64,
    upto: u64,
) -> Result<Vec<Name>, AllocError>
    ensures { IfOk result (λ names. map head_of names.items ≡ map name_of (named_between after upto heads.now)) }
{
    let mut names = Vec::new(alloc);
    let mut rest = heads;
    while let [head, behind @ ..] = rest {
        if after < head.time && head.time <= upto {
            names.push(Name {
                label: head.label,
                time: head.time,
            })?;
        }
        rest = behind;
    }
    Ok(names)
}

// The same in the order of a roll.
fn sorted(
    alloc: Global,
    heads: &[CommitHead],
    after: u64,
    upto: u64,
) -> Result<Vec<Name>, AllocError>
    requires { IsRisingAfter 0 heads.now }
    ensures { IfOk result (λ names. AreNamesBetween after upto heads.now (map head_of names.items)) }
{
    let mut names = picked(alloc, heads, after, upto)?;
    names.sort_unstable();
    Ok(names)
}

#[tactic(auto, unfolding(wire::specs::Numbers::u64_bytes))]
fn name_array(name: &Name) -> [u8; NAME_LEN]
    ensures { result ≡ name_bytes (head_of name.now) }
{
    let mut bytes = [0; NAME_LEN];
    LittleEndian::write_u64(&mut bytes, name.label);
    LittleEndian::write_u64(&mut bytes[8..], name.time);
    bytes
}

// These names as bytes.
fn spelled(alloc: Global, names: &[Name]) -> Result<Vec<u8>, AllocError>
    ensures { IfOk result (λ bytes. bytes.items ≡ flat_map name_bytes (map head_of names.now)) }
{
    let mut bytes = Vec::new(alloc);
    let mut rest = names;
    while let [name, after @ ..] = rest {
        bytes.extend_from_slice(&name_array(name))?;
        rest = after;
    }
    Ok(bytes)
}

/// The bytes of a roll with the names of the commits that are later than one time and no later than another. Times
/// are microseconds since 1970.
pub fn names_of(
    alloc: Global,
    heads: &[CommitHead],
    after: u64,
    upto: u64,
) -> Result<Vec<u8>, AllocError>
    requires { IsRisingAfter 0 heads.now }
    ensures { IfOk result (λ bytes. AreBytesBetween after upto heads.now bytes.items) }
{
    let names = sorted(alloc, heads, after, upto)?;
    spelled(alloc, names.as_slice())
}
