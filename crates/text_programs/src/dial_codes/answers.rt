//! What a table of codes has of a text, and how it answers numbers.
ghost use Rattle.std.specs.Prelude.{◌≡◌, IfOk, OnOk, Some, false, true};
ghost use Rattle.std.specs.Io.KnownBytes.{Appends};
ghost use Rattle.line_programs.specs.Entries.{trimmed_entry};
ghost use Rattle.text_programs.specs.declared.dial_codes.table.LineError.TheVariants.{NoMemory};
ghost use Rattle.text_programs.specs.CodeReplies.{reply_of, reply_with, FindsCode, IsCodeReply, IsNoNumber};
ghost use Rattle.text_programs.specs.Entries.{entries_of, code_of};
ghost use Rattle.art_model.specs.Texts.{TextsRise};
ghost use Rattle.text_programs.specs.CodeRows.{rows_of};
ghost use Rattle.text_programs.specs.CodeTables.{IsCodeFault, IsFilledBy, IsTableOf};

use crate::dial_codes::entry::is_code;
use crate::dial_codes::table::{LineError, Table, add_line, find};
use art_operations::tree_map::TreeMap;
use line_programs::entries::trimmed_entry;
use line_programs::line_tables::{LineTable, Outcome};
use std::alloc::Global;
use std::io;
use std::io::Write;

/// A table of codes that is read from lines.
#[derive(Drop)]
pub struct CodeTable {
    pub codes: Table,
}

/// A line of the table that is neither blank nor a comment is that of an entry, and no two have equal codes. A line that is a number gets the entry with the
/// longest code that it starts with, or `none`.
impl LineTable for CodeTable {
    type Fault = LineError;

    ghost entry_of = { trimmed_entry };

    ghost HasLines = { λ table ls. IsFilledBy (rows_of table.codes) ls };

    ghost IsRead = { λ table ls.
        IsTableOf ls (entries_of table.codes) × TextsRise code_of (entries_of table.codes) };

    ghost IsFaultAfter = { IsCodeFault };

    ghost IsOutOfMemory = { λ fault. fault ≡ NoMemory };

    ghost IsReplyTo = { λ table. IsCodeReply (entries_of table.codes) };

    ghost Finds = { λ table. FindsCode (entries_of table.codes) };

    ghost AsksForNothing = { IsNoNumber };

    fn entry(line: &[u8]) -> Option<&[u8]> {
        trimmed_entry(line)
    }

    fn start(alloc: Global) -> Self {
        CodeTable {
            codes: TreeMap::new(alloc),
        }
    }

    fn add(&mut self, alloc: Global, line: &[u8], number: u64) -> Result<(), LineError> {
        add_line(&mut self.codes, alloc, line, number)
    }

    fn finish(&mut self, _alloc: Global) -> Result<(), (u64, LineError)> {
        // `rises` says that the codes rise.
        self.codes.rises();
        Ok(())
    }

    fn answer<W: Write>(&self, line: &[u8], output: &mut W) -> io::Result<Outcome> {
        if !is_code(line) {
            return Ok(Outcome::Invalid);
        }
        if answer_number(&self.codes, line, output)? {
            Ok(Outcome::Found)
        } else {
            Ok(Outcome::NotFound)
        }
    }

    fn is_of_line(fault: &LineError) -> bool {
        match fault {
            LineError::NoEntry | LineError::Repeated(_) => true,
            LineError::NoMemory => false,
        }
    }
}

// Writes the entry with the longest code that the number starts with, or `none`, as a line. Returns whether there is one.
fn answer_number<W: Write>(table: &Table, number: &[u8], output: &mut W) -> io::Result<bool>
    ensures written { OnOk result (Appends (W.contents output.old) (W.contents output.new)
        (reply_of (entries_of table.now) number.now)) }
    ensures found { IfOk result (λ found. found ≡ true → FindsCode (entries_of table.now) number.now) }
    ensures none { IfOk result (λ found. found ≡ false → ¬ FindsCode (entries_of table.now) number.now) }
{
    match find(table, number) {
        Some((code, name)) => {
            write_entry(output, code, name)?;
            Ok(true)
        }
        None => {
            output.write_all(b"none\n")?;
            Ok(false)
        }
    }
}

// Writes a code and its name, as a line.
fn write_entry<W: Write>(output: &mut W, code: &[u8], name: &[u8]) -> io::Result<()>
    ensures { OnOk result (Appends (W.contents output.old) (W.contents output.new)
        (reply_with (Some (code.now, name.now)))) }
{
    output.write_all(code)?;
    output.write_all(b" ")?;
    output.write_all(name)?;
    output.write_all(b"\n")
}
