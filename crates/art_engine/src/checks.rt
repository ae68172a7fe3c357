//! The text of a check.
ghost use Rattle.std.specs.Prelude.{◌++◌, IfSome, OnOk, codes};
ghost use Rattle.std.specs.Io.KnownBytes.{Appends};
ghost use Rattle.art_engine.specs.Texts.{check_text};

use crate::replies::write_no_memory;
use art_checking::well_formed::{MalformedTreeError, WellFormedTreeStats};
use std::io;
use std::io::Write;

/// Writes what a check has found, as a line.
pub fn write_check<W: Write>(
    output: &mut W,
    checked: &Result<WellFormedTreeStats, MalformedTreeError>,
) -> io::Result<()>
    ensures { OnOk result (IfSome (check_text checked.now) (λ text.
        Appends (W.contents output.old) (W.contents output.new) (text ++ codes "\n"))) }
{
    match checked {
        Ok(stats) => {
            let WellFormedTreeStats {
                num_leaf,
                num_inner,
            } = stats;
            writeln!(output, "ok {num_leaf} leaves {num_inner} inner")
        }
        Err(MalformedTreeError::OutOfMemory) => write_no_memory(output),
        Err(fault) => writeln!(output, "fault: {fault}"),
    }
}
