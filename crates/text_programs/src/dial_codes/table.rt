//! A table of codes with names.
ghost use Rattle.std.specs.Prelude.{◌≡◌, IfErr, IfSome, List, OnErr, OnOk, ℕ};
ghost use Rattle.std.specs.Option.{option_map};
ghost use Rattle.art_model.specs.Footprints.{IsIn};
ghost use Rattle.art_parts.specs.Keys.{IsFront};
ghost use Rattle.art_model.specs.Pairs.{last_of, match_of};
ghost use Rattle.text_programs.specs.Entries.{IsNoLonger, code_of, entries_of, entry_of};
ghost use Rattle.text_programs.specs.CodeRows.{HasLine, IsFaultBeside, rows_of};

use crate::dial_codes::entry::parse_entry;
use art_operations::keys::Terminated;
use art_operations::tree_map::TreeMap;
use std::alloc::Global;
use thiserror::Error;

/// The name of a code, and the number of the line that has it.
#[derive(Debug, Drop)]
pub struct Named {
    pub name: Vec<u8>,
    pub line: u64,
}

/// Names under codes. A code may be a prefix of another.
pub type Table = TreeMap<Terminated, Named, 16>;

/// Why a line was not added to a table.
#[derive(Clone, Copy, PartialEq, Eq, Debug, Drop, Error)]
pub enum LineError {
    #[error("not a code and a name")]
    NoEntry,
    #[error("the code is that of line {0}")]
    Repeated(u64),
    #[error("no memory")]
    NoMemory,
}

/// Adds the entry of the line of a number.
pub fn add_line(table: &mut Table, alloc: Global, line: &[u8], number: u64) -> Result<(), LineError>
    ensures added { OnOk result (HasLine line.now number (rows_of table.old) (rows_of table.new)) }
    ensures fault { IfErr result (IsFaultBeside line.now (rows_of table.old)) }
    ensures kept { OnErr result (table.new ≡ table.old) }
{
    let Some((code, name)) = parse_entry(line) else {
        return Err(LineError::NoEntry);
    };
    if let Some(named) = table.get_text(code) {
        return Err(LineError::Repeated(named.line));
    }
    let Ok(Some(key)) = Terminated::encode(alloc, code) else {
        return Err(LineError::NoMemory);
    };
    let Ok(name) = Vec::from_slice(alloc, name) else {
        return Err(LineError::NoMemory);
    };
    match table.insert(key, Named { name, line: number }) {
        Ok(_) => Ok(()),
        Err(_) => Err(LineError::NoMemory),
    }
}

/// Returns the entry with the longest code that the number starts with.
pub fn find<'a>(table: &'a Table, number: &[u8]) -> Option<(&'a [u8], &'a [u8])>
    ensures found { IfSome result (λ entry.
        IsIn (entry.0.now, entry.1.now) (entries_of table.now) × IsFront entry.0.now number.now) }
    ensures longest { (entry : List ℕ × List ℕ) → IsIn entry (entries_of table.now) →
        IsFront (code_of entry) number.now → IsNoLonger entry (option_map entry_of result) }
    ensures last { option_map entry_of result ≡
        last_of (match_of code_of number.now (entries_of table.now)) }
{
    table.rises();
    match table.longest_match(number) {
        Some((code, named)) => Some((code.as_bytes_without_end(), named.name.as_slice())),
        None => None,
    }
}
