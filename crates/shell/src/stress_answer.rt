//! What the command `stress` answers.
ghost use Rattle.std.specs.Prelude.{◌++◌, OnOk, codes};
ghost use Rattle.std.specs.Fmt.{decimal};
ghost use Rattle.std.specs.Io.KnownBytes.{Appends};

use std::io;
use std::io::Write;

/// Writes the answer of `stress`, how many commits there were and the time of the last in microseconds
/// since 1970, and gives it out.
///
/// # Errors
///
/// That of the output, of which a first part of the answer may have been written.
pub fn write_stress_answer<W: Write>(output: &mut W, commits: u64, last: u64) -> io::Result<()>
    ensures { OnOk result (Appends (W.contents output.old) (W.contents output.new)
        (codes "commits " ++ (decimal commits ++ (codes " last " ++ (decimal last ++ codes "\n"))))) }
{
    writeln!(output, "commits {commits} last {last}")?;
    output.flush()
}
