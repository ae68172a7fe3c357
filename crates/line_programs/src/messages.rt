//! Messages about lines.
ghost use Rattle.std.specs.Prelude.{IfSome, OnOk};
ghost use Rattle.std.specs.Io.KnownBytes.{Appends};
ghost use Rattle.line_programs.specs.Messages.{message, quoted};

use std::fmt::Display;
use std::io;
use std::io::Write;

/// Where a line is: in what a program reads.
#[derive(Clone, Copy)]
pub struct Place<'a> {
    /// The name of the program.
    pub program: &'a str,
    /// The name of the file, or what else has the line.
    pub source: &'a str,
}

/// Writes that something is wrong with the line of a number. A line that is empty is not quoted.
pub fn write_message<W: Write, D: Display + Drop>(
    output: &mut W,
    place: Place<'_>,
    number: u64,
    fault: D,
    line: &[u8],
) -> io::Result<()>
    ensures { OnOk result (IfSome (D.output fault) (λ fault.
        Appends (W.contents output.old) (W.contents output.new) (message place.entry number fault line.now))) }
{
    write!(
        output,
        "{}: {}:{number}: {fault}",
        place.program, place.source
    )?;
    write_quoted(output, line)?;
    output.write_all(b"\n")
}

// Writes a line in quotes, unless it is empty.
fn write_quoted<W: Write>(output: &mut W, line: &[u8]) -> io::Result<()>
    ensures { OnOk result (Appends (W.contents output.old) (W.contents output.new) (quoted line.now)) }
{
    if line.is_empty() {
        return Ok(());
    }
    output.write_all(b": '")?;
    output.write_all(line)?;
    output.write_all(b"'")
}
