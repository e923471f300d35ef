ghost use Rattle.std.specs.Prelude.{◌≡◌, ◌+◌, ◌≤◌, ◌<◌, IsTrue, IfOk, IfErr, MatchResult, ⊤, [], length, take, slice_range};
ghost use Rattle.disk.specs.Calls.{looked};
ghost use Rattle.archive.specs.Parts.{IsRight, Keeps};
ghost use Rattle.archive.specs.Runs.{run_end};
ghost use Rattle.archive.specs.Searches.{archive_of, after_query, Answers, IsFaultOf};

use crate::{ArchiveFault, BlockCache, RunEntry};
use disk::{Area, DeviceFault, Disk};
use std::alloc::{AllocError, Global};

/// The bytes of a block, but for the last one of a run.
const BLOCK_LEN: usize = 4096;

const BLOCK_BYTES: u64 = BLOCK_LEN as u64;

/// Reads parts of runs by blocks of 4,096 bytes, counted from the run's start.
#[derive(Drop)]
pub(crate) struct BlockReader {
    cache: BlockCache,
}

impl BlockReader {
    ghost use Rattle.archive.specs.Parts.{parts_in};

    /// A cache of up to 64 blocks.
    pub fn new(alloc: Global) -> Result<Self, AllocError>
        ensures { IfOk result (λ r. parts_in r.cache.blocks ≡ []) }
    {
        Ok(BlockReader {
            cache: BlockCache::new(alloc)?,
        })
    }

    /// No cache.
    pub fn without_cache(alloc: Global) -> Self
        ensures { parts_in result.cache.blocks ≡ [] }
    {
        BlockReader {
            cache: BlockCache::none(alloc),
        }
    }

    /// The bytes of a part of one block of the archive; false where the archive ends before the block does.
    fn read_block<D: Disk>(
        &mut self,
        disk: &mut D,
        start: u64,
        len: usize,
        skip: usize,
        out: &mut [u8],
    ) -> Result<bool, DeviceFault>
        requires small { len ≤ 4096 }
        requires part { skip + length out.old ≤ len }
        ensures disk { D.state disk.new ≡ looked result (D.state disk.old) }
        ensures kept { Keeps (start + len) D.tells (archive_of (D.state disk.old)) (parts_in self.old.cache.blocks) (parts_in self.new.cache.blocks) }
        ensures bytes { IsTrue D.tells → IsRight (parts_in self.old.cache.blocks) (archive_of (D.state disk.old))
            → IfOk result (λ there. IsTrue there → out.new ≡ slice_range (archive_of (D.state disk.old)) (start + skip) (start + skip + length out.old)) }
        ensures there { IsTrue D.tells → start + len ≤ length (archive_of (D.state disk.old)) → IfOk result (λ there. IsTrue there) }
    {
        if self.cache.copy(start, len, skip, out) {
            return Ok(true);
        }
        let there = self.read_missing(disk, start, len, skip, out)?;
        Ok(there)
    }

    /// The same of a block that is not in the cache. It is a call of its own: its array is cleared,
    /// which would take longer than to copy from a block of the cache.
    #[inline(never)]
    fn read_missing<D: Disk>(
        &mut self,
        disk: &mut D,
        start: u64,
        len: usize,
        skip: usize,
        out: &mut [u8],
    ) -> Result<bool, DeviceFault>
        requires small { len ≤ 4096 }
        requires part { skip + length out.old ≤ len }
        ensures disk { D.state disk.new ≡ looked result (D.state disk.old) }
        ensures kept { Keeps (start + len) D.tells (archive_of (D.state disk.old)) (parts_in self.old.cache.blocks) (parts_in self.new.cache.blocks) }
        ensures bytes { IsTrue D.tells
            → IfOk result (λ there. IsTrue there → out.new ≡ slice_range (archive_of (D.state disk.old)) (start + skip) (start + skip + length out.old)) }
        ensures there { IsTrue D.tells → start + len ≤ length (archive_of (D.state disk.old)) → IfOk result (λ there. IsTrue there) }
    {
        let mut bytes = [0; BLOCK_LEN];
        let there = self.fetch_block(disk, start, skip, &mut bytes[..len], out)?;
        Ok(there)
    }

    /// The same from the disk. The block goes to the cache, if there is memory for it.
    fn fetch_block<D: Disk>(
        &mut self,
        disk: &mut D,
        start: u64,
        skip: usize,
        block: &mut [u8],
        out: &mut [u8],
    ) -> Result<bool, DeviceFault>
        requires part { skip + length out.old ≤ length block.old }
        ensures disk { D.state disk.new ≡ looked result (D.state disk.old) }
        ensures kept { Keeps (start + length block.old) D.tells (archive_of (D.state disk.old)) (parts_in self.old.cache.blocks)
            (parts_in self.new.cache.blocks) }
        ensures bytes { IsTrue D.tells
            → IfOk result (λ there. IsTrue there → out.new ≡ slice_range (archive_of (D.state disk.old)) (start + skip) (start + skip + length out.old)) }
        ensures there { IsTrue D.tells → start + length block.old ≤ length (archive_of (D.state disk.old)) → IfOk result (λ there. IsTrue there) }
    {
        let end = disk.len(Area::Archive)?;
        if end < start || end - start < block.len() as u64 {
            return Ok(false);
        }
        disk.read(Area::Archive, start, block)?;
        out.copy_from_slice(&block[skip..skip + out.len()]);
        self.cache.keep(start, block);
        Ok(true)
    }

    /// The bytes from a place in the run on, as far as one block has them.
    fn read_front<D: Disk>(
        &mut self,
        disk: &mut D,
        run: &RunEntry,
        at: u64,
        out: &mut [u8],
    ) -> Result<usize, ArchiveFault>
        requires some { 0 < length out.old }
        requires inside { at + length out.old ≤ run.now.slot.len }
        ensures disk { D.state disk.new ≡ after_query result (D.state disk.old) }
        ensures kept { Keeps (run_end run.now) D.tells (archive_of (D.state disk.old)) (parts_in self.old.cache.blocks) (parts_in self.new.cache.blocks) }
        ensures damaged { IfErr result (IsFaultOf run.now) }
        ensures some { IfOk result (λ n. 0 < n) }
        ensures most { IfOk result (λ n. n ≤ length out.old) }
        ensures bytes { IsTrue D.tells → IsRight (parts_in self.old.cache.blocks) (archive_of (D.state disk.old))
            → IfOk result (λ n. take n out.new ≡ slice_range (archive_of (D.state disk.old)) (run.now.slot.start + at) (run.now.slot.start + at + n)) }
        ensures answers { IsTrue D.tells → run_end run.now ≤ length (archive_of (D.state disk.old)) → Answers result (λ n. ⊤) }
    {
        let skip = at % BLOCK_BYTES;
        let len = (run.slot.len - (at - skip)).min(BLOCK_BYTES) as usize;
        let skip = skip as usize;
        let n = out.len().min(len - skip);
        let start = run.slot.start + at - skip as u64;
        if !self.read_block(disk, start, len, skip, &mut out[..n])? {
            return Err(ArchiveFault::Damaged(run.slot.start));
        }
        Ok(n)
    }

    /// The bytes of a part of the run. Damaged, with the run's start, where the archive ends before
    /// a block of them does.
    pub fn read<D: Disk>(
        &mut self,
        disk: &mut D,
        run: &RunEntry,
        at: u64,
        buf: &mut [u8],
    ) -> Result<(), ArchiveFault>
        requires inside { at + length buf.old ≤ run.now.slot.len }
        ensures disk { D.state disk.new ≡ after_query result (D.state disk.old) }
        ensures kept { Keeps (run_end run.now) D.tells (archive_of (D.state disk.old)) (parts_in self.old.cache.blocks) (parts_in self.new.cache.blocks) }
        ensures damaged { IfErr result (IsFaultOf run.now) }
        ensures bytes { IsTrue D.tells → IsRight (parts_in self.old.cache.blocks) (archive_of (D.state disk.old))
            → IfOk result (λ _. buf.new ≡ slice_range (archive_of (D.state disk.old)) (run.now.slot.start + at) (run.now.slot.start + at + length buf.old)) }
        ensures answers { IsTrue D.tells → run_end run.now ≤ length (archive_of (D.state disk.old)) → Answers result (λ _. ⊤) }
    {
        let mut done = 0;
        while done < buf.len() {
            done += self.read_front(disk, run, at + done as u64, &mut buf[done..])?;
        }
        Ok(())
    }
}
