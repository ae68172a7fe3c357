//! Reads a table from the lines of a text, or from other pieces of it.
ghost use Rattle.std.specs.Prelude.{◌≡◌, IfErr, IfOk, IfSome, OnErr, OnOk, ℕ, List, [], ◌∷◌, ◌++◌};
ghost use Rattle.text_lines.specs.Lines.{pieces};
ghost use Rattle.line_programs.specs.Entries.{entries};
ghost use Rattle.line_programs.specs.LineTables.{IsFaultOf, IsRefusedFor};

use crate::line_tables::LineTable;
use std::alloc::Global;
use std::io;
use std::io::{BufRead, ErrorKind};
use text_lines::lines::{End, next_piece};

/// Why there is no table.
#[derive(Debug, Drop)]
pub enum ReadError<F> {
    /// The entry of the line of this number can't be added, or an allocation failed. The text is the line, or empty if the
    /// fault came to light after later lines were read.
    Line(u64, Vec<u8>, F),
    /// The input can't be read.
    Input(io::Error),
}

/// Reads a table to the end of its text: an entry of each line, or of each piece with another end.
pub fn read<T: LineTable + Drop, R: BufRead>(
    alloc: Global,
    end: End,
    input: &mut R,
) -> Result<T, ReadError<T::Fault>>
    ensures table { IfOk result (λ table. IfSome (R.remaining input.old) (λ text.
        T.IsRead table (entries T.entry_of 1 (pieces end text)))) }
    ensures refused { IfErr result (λ error. IfSome (R.remaining input.old) (λ text.
        IsRefusedFor T.IsFaultAfter T.IsOutOfMemory (entries T.entry_of 1 (pieces end text)) error)) }
{
    let mut table = T::start(alloc);
    let mut line = Vec::new(alloc);
    for number in 1..u64::MAX {
        match next_piece(input, end, &mut line) {
            Ok(true) => {}
            Ok(false) => return finished(alloc, table),
            Err(error) => return Err(ReadError::Input(error)),
        }
        match add_line(&mut table, alloc, &line, number) {
            Ok(()) => {}
            Err(fault) => return Err(ReadError::Line(number, line, fault)),
        }
    }
    Err(ReadError::Input(io::Error::from(ErrorKind::FileTooLarge)))
}

// Adds the entry of the line of a number, if it has one.
fn add_line<T: LineTable>(
    table: &mut T,
    alloc: Global,
    line: &[u8],
    number: u64,
) -> Result<(), T::Fault>
    ensures added { OnOk result ((before : List (ℕ × List ℕ)) → T.HasLines table.old before →
        T.HasLines table.new (before ++ entries T.entry_of number (line.now ∷ []))) }
    ensures fault { IfErr result (λ fault. (before : List (ℕ × List ℕ)) → T.HasLines table.old before →
        IsFaultOf T.IsFaultAfter before (T.entry_of line.now) fault) }
    ensures kept { OnErr result ((before : List (ℕ × List ℕ)) →
        T.HasLines table.old before → T.HasLines table.new before) }
{
    match T::entry(line) {
        Some(entry) => table.add(alloc, entry, number),
        None => Ok(()),
    }
}

// Returns the table once it is ready to answer lines.
fn finished<T: LineTable + Drop>(alloc: Global, mut table: T) -> Result<T, ReadError<T::Fault>>
    ensures table { IfOk result (λ finished. (added : List (ℕ × List ℕ)) →
        T.HasLines table added → T.IsRead finished added) }
    ensures refused { IfErr result (λ error. (added : List (ℕ × List ℕ)) →
        T.HasLines table added → IsRefusedFor T.IsFaultAfter T.IsOutOfMemory added error) }
{
    match table.finish(alloc) {
        Ok(()) => Ok(table),
        Err((number, fault)) => Err(ReadError::Line(number, Vec::new(alloc), fault)),
    }
}
