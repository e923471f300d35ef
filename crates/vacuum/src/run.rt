//! The run that an archive makes.
ghost use Rattle.std.specs.Prelude.{◌≡◌, ◌+◌, ◌<◌, ◌≤◌, ◌^◌, IfSome, MatchOption, length};
ghost use Rattle.archive.specs.Runs.{run_bytes};
ghost use Rattle.wire.specs.Spelling.{IsRun};
ghost use Rattle.vacuum.specs.Archives.{AreInMemory, records_of, run_of, unwritten};

use crate::archive_walk::{ArchiveWalk, Since};
use archive::RunWriter;
use chains::Frozen;
use wire::Run;

/// The run of the versions that ended after the archive mark and the floor of their relation and by
/// `upto`, all in microseconds since 1970, from the place `start` of the archive on: what its slot names,
/// and what writes it. The records are walked once to count their bytes, so that the slot can name the run
/// before its first byte is written. None where it would end past 2^63 - 1.
pub fn archive_run(
    frozen: Frozen,
    since: Since,
    upto: u64,
    start: u64,
) -> Option<(Run, RunWriter<ArchiveWalk>)>
    ensures is { let records = records_of since upto frozen in
        MatchOption result (2 ^ 63 ≤ start + length (run_bytes records))
        (λ made. (made.0 ≡ run_of upto start records) × (made.1 ≡ unwritten start records)) }
    ensures versions { AreInMemory frozen }
    ensures in_range { 0 < upto → upto < 2 ^ 63 → IfSome result (λ made. IsRun made.0) }
{
    let walk = ArchiveWalk::new(frozen, since, upto);
    let Some(writer) = RunWriter::new(walk, start) else {
        return None;
    };
    let run = Run {
        upto,
        start,
        len: writer.left(),
        records: writer.records(),
    };
    Some((run, writer))
}
