//! The bytes of commits that wait, and of a group of them.
ghost use Rattle.std.specs.Prelude.{◌≡◌, ◌≤◌, ◌++◌, IfOk, length, take, drop};
ghost use Rattle.std.specs.List.{flat_map};
ghost use Rattle.deltas.specs.Records.{spelling};
ghost use Rattle.log_room.specs.Contents.{content_over, extents_over, joined, extents_of};

use chains::{Frozen, SharedValue};
use deltas::RecordSource;
use group::WriteRecords;
use history::KeyWrite;
use log_entries::{commit_len, push_commit, push_write};
use log_extents::count_extents;
use std::alloc::{AllocError, Global};
use std::collections::VecDeque;
use std::marker::Model;

/// The bytes of a commit that waits.
#[derive(Drop)]
pub struct Content {
    bytes: Vec<u8>,
}

impl Model for Content {
    ghost use Rattle.std.specs.Prelude.{ℕ, List};

    ghost Value = { List ℕ };

    ghost view = { λ c. c.bytes.items };
}

impl Content {
    /// Its bytes.
    pub fn bytes(&self) -> &[u8]
        ensures { result.now ≡ self.now }
    {
        &self.bytes
    }
}

/// How many extents a commit of these writes takes alone, over these versions. It takes no memory.
pub fn count_for(versions: &Frozen, writes: &[KeyWrite<SharedValue>]) -> usize
    requires { length writes.now ≤ 1024 }
    ensures { result ≡ extents_over versions.now writes.now }
{
    count_extents(commit_len(&mut WriteRecords::new(versions, writes)))
}

// Appends the records that are left.
fn push_all<S: RecordSource>(out: &mut Vec<u8>, source: &mut S) -> Result<(), AllocError>
    ensures { IfOk result (λ done. out.new.items ≡ out.old.items ++ flat_map spelling (S.left source.old)) }
{
    while let Some(record) = source.peek() {
        push_write(out, record)?;
        source.advance();
    }
    Ok(())
}

/// The bytes of a commit with this label, at this time in microseconds since 1970: its COMMIT, and each write as the one record that it is
/// stored as over these versions.
pub fn spell(
    alloc: Global,
    label: u64,
    time: u64,
    versions: &Frozen,
    writes: &[KeyWrite<SharedValue>],
) -> Result<Content, AllocError>
    requires { length writes.now ≤ 1024 }
    ensures { IfOk result (λ content. content ≡ content_over versions.now label time writes.now) }
{
    let mut bytes = Vec::with_capacity(
        alloc,
        commit_len(&mut WriteRecords::new(versions, writes)),
    )?;
    push_commit(&mut bytes, label, time, writes.len() as u16)?;
    push_all(&mut bytes, &mut WriteRecords::new(versions, writes))?;
    Ok(Content { bytes })
}

/// The bytes of the commits of a group, joined, and how many extents they take, each alone.
#[derive(Drop)]
pub struct Joined {
    pub bytes: Vec<u8>,
    pub count: usize,
}

/// The first of these contents, joined.
pub fn join(alloc: Global, contents: &VecDeque<Content>, count: usize) -> Result<Joined, AllocError>
    requires within { count ≤ length contents.now.items }
    requires few { extents_of contents.now.items ≤ 1048576 }
    ensures bytes { IfOk result (λ all. all.bytes.items ≡ joined (take count contents.now.items)) }
    ensures count { IfOk result (λ all. all.count ≡ extents_of (take count contents.now.items)) }
{
    let mut bytes = Vec::new(alloc);
    let mut extents = 0;
    for place in 0..count {
        match contents.get(place) {
            None => unreachable!(),
            Some(content) => {
                bytes.extend_from_slice(&content.bytes)?;
                extents += count_extents(content.bytes.len());
            }
        }
    }
    Ok(Joined {
        bytes,
        count: extents,
    })
}

/// The first of these contents are dropped.
pub fn drop_first(contents: &mut VecDeque<Content>, count: usize)
    requires { count ≤ length contents.old.items }
    ensures { contents.new.items ≡ drop count contents.old.items }
{
    for _ in 0..count {
        let _first = contents.pop_front();
    }
}
