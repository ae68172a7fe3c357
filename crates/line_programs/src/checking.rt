//! Checks the lines of a table.
ghost use Rattle.std.specs.Prelude.{◌≡◌, ◌∷◌, [], false, true, IfOk, IfSome, OnOk, ℕ, List};
ghost use Rattle.std.specs.Io.KnownBytes.{Appends};
ghost use Rattle.text_lines.specs.Lines.{lines};
ghost use Rattle.line_programs.specs.Checked.{AreChecked, AreTexts, IsEnded, TableIsChecked};
ghost use Rattle.line_programs.specs.Entries.{entries};
ghost use Rattle.line_programs.specs.Messages.{message};

use crate::line_tables::LineTable;
use crate::messages::{Place, write_message};
use crate::serving::ServeError;
use std::alloc::{AllocError, Global};
use std::fmt::Display;
use std::io;
use std::io::{BufRead, ErrorKind, Write};
use text_lines::lines::next_line;

/// Reads a table to the end of its text, and writes a message about each entry that can't be added. Returns whether there
/// is none. An entry is judged beside those before it that were added.
pub fn check<T: LineTable + Drop, R: BufRead, E: Write>(
    alloc: Global,
    place: Place<'_>,
    input: &mut R,
    errors: &mut E,
) -> Result<bool, ServeError>
where
    T::Fault: Display + Drop,
    ensures { IfOk result (λ is_whole. IfSome (R.remaining input.old) (λ text.
        TableIsChecked T.IsFaultAfter T.IsOutOfMemory T.Fault.output place.entry
        (λ added. (table : T) × T.IsRead table added) (entries T.entry_of 1 (lines text)) is_whole
        (E.contents errors.old) (E.contents errors.new))) }
{
    let mut table = T::start(alloc);
    let mut line = Vec::new(alloc);
    let mut is_whole = true;
    for number in 1..u64::MAX {
        match next_line(input, &mut line) {
            Ok(true) => {}
            Ok(false) => {
                let is_read = check_end(&mut table, alloc, place, errors)?;
                return Ok(is_whole & is_read);
            }
            Err(error) => return Err(ServeError::Read(error)),
        }
        let is_added = check_line(&mut table, alloc, place, &line, number, errors)?;
        is_whole &= is_added;
    }
    Err(ServeError::Read(io::Error::from(ErrorKind::FileTooLarge)))
}

// Adds the entry of the line of a number, if it has one, or writes a message about it. Returns whether it wrote none.
fn check_line<T: LineTable, E: Write>(
    table: &mut T,
    alloc: Global,
    place: Place<'_>,
    line: &[u8],
    number: u64,
    errors: &mut E,
) -> Result<bool, ServeError>
where
    T::Fault: Display + Drop,
    ensures { IfOk result (λ is_added. (before : List (ℕ × List ℕ)) → T.HasLines table.old before →
        AreChecked T.IsFaultAfter T.Fault.output place.entry (T.HasLines table.new) before
        (entries T.entry_of number (line.now ∷ [])) is_added (E.contents errors.old) (E.contents errors.new)) }
{
    let Some(entry) = T::entry(line) else {
        return Ok(true);
    };
    match table.add(alloc, entry, number) {
        Ok(()) => Ok(true),
        Err(fault) => {
            write_fault::<T, E>(errors, place, number, fault, entry)?;
            Ok(false)
        }
    }
}

// Ends a table, or writes a message about the entry that is at fault. Returns whether it wrote none.
fn check_end<T: LineTable, E: Write>(
    table: &mut T,
    alloc: Global,
    place: Place<'_>,
    errors: &mut E,
) -> Result<bool, ServeError>
where
    T::Fault: Display + Drop,
    ensures { IfOk result (λ is_read. (added : List (ℕ × List ℕ)) → T.HasLines table.old added →
        IsEnded T.IsFaultAfter T.IsOutOfMemory T.Fault.output place.entry (T.IsRead table.new) added is_read
        (E.contents errors.old) (E.contents errors.new)) }
{
    match table.finish(alloc) {
        Ok(()) => Ok(true),
        Err((number, fault)) => {
            write_fault::<T, E>(errors, place, number, fault, b"")?;
            Ok(false)
        }
    }
}

// Writes a message about a fault. Fails without a message if the fault is that an allocation failed.
fn write_fault<T: LineTable, E: Write>(
    errors: &mut E,
    place: Place<'_>,
    number: u64,
    fault: T::Fault,
    line: &[u8],
) -> Result<(), ServeError>
where
    T::Fault: Display + Drop,
    ensures { OnOk result (IfSome (T.Fault.output fault) (λ fault.
        Appends (E.contents errors.old) (E.contents errors.new) (message place.entry number fault line.now))) }
{
    if !T::is_of_line(&fault) {
        return Err(ServeError::Read(io::Error::from(AllocError)));
    }
    write_message(errors, place, number, fault, line)?;
    Ok(())
}
