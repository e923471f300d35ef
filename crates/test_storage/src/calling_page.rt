//! The example of the page `CALLING.md` of `archive`.
use crate::list_walk::ListWalk;
use crate::worked_bytes::KEY;
use archive::{ArchiveReader, Head, RunEntry, RunWriter};
use disk::{Area, Disk, MemDisk};
use floors::Floors;
use std::alloc::Global;
use std::process::Abort;
use std::test::Fail;
use wire::{Run, Value};

// The example of archive.
#[test]
fn a_run_is_written_and_searched(rt: HostRuntime) -> Result<(), Fail> {
    let mut disk = MemDisk::new(rt.alloc());
    write(&rt, rt.alloc(), &mut disk)?;
    let mut reader = ArchiveReader::new(rt.alloc())?;
    search(&rt, &mut reader, &mut disk)
}

/// Writes a run of one version: red from 100 up to 110.
fn write(rt: &impl Abort, alloc: Global, disk: &mut MemDisk) -> Result<(), Fail> {
    let head = Head {
        key: KEY,
        from: 100,
        to: 110,
    };
    let records = [(head, Value::new(alloc, &[b"red"])?)];
    let mut writer = RunWriter::new(ListWalk::new(&records), 0).ok_or("too long")?;
    assert!(rt; writer.left() == 39 && writer.records() == 1);
    writer.write_piece(disk)?;
    assert!(rt; writer.left() == 0);
    disk.sync(Area::Archive)?;
    Ok(())
}

/// Searches the run, as a slot of the log names it.
fn search(rt: &impl Abort, reader: &mut ArchiveReader, disk: &mut MemDisk) -> Result<(), Fail> {
    let run = RunEntry {
        slot: Run {
            upto: 110,
            start: 0,
            len: 39,
            records: 1,
        },
        mark: 0,
        floors: Floors::none(),
    };
    let runs = [run];
    let found = reader.find(disk, &runs, &KEY, 109)?.ok_or("no value")?;
    assert!(rt; found.field(0) == Some(b"red"));
    // It ended at 110, and no run that ended by then is read.
    let heads = reader.heads();
    assert!(rt; reader.find(disk, &runs, &KEY, 110)?.is_none() && reader.heads() == heads);
    Ok(())
}
