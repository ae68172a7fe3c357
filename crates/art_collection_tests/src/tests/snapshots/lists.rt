//! Lists of entries, written and read.
use snapshot_format::{OwnedEntry, ReadError, read_snapshot};
use std::alloc::Global;
use std::io::Read;

/// A key with its value.
pub type Row = (&'static [u8], &'static [u8]);

// Returns the entry of a row.
fn entry_of(alloc: Global, row: &Row) -> Option<OwnedEntry> {
    let key = Vec::from_slice(alloc, row.0).ok()?;
    let value = Vec::from_slice(alloc, row.1).ok()?;
    Some(OwnedEntry { key, value })
}

/// Returns the entries of a table, without those for which an allocation failed.
pub fn entries_of(alloc: Global, rows: &[Row]) -> Vec<OwnedEntry> {
    let mut entries = Vec::new(alloc);
    for row in rows {
        if let Some(entry) = entry_of(alloc, row) {
            let _ = entries.push(entry);
        }
    }
    entries
}

/// Returns whether these entries are read, and no others.
pub fn reads<R: Read + Drop>(alloc: Global, input: R, rows: &[Row]) -> bool {
    let mut entries = Vec::new(alloc);
    let is_ok = read_snapshot(alloc, input, &mut entries).is_ok();
    is_ok && entries.as_slice() == entries_of(alloc, rows).as_slice()
}

/// Returns why the bytes are not read, if they are not.
pub fn error_of<R: Read + Drop>(alloc: Global, input: R) -> Option<ReadError> {
    let mut entries: Vec<OwnedEntry> = Vec::new(alloc);
    read_snapshot(alloc, input, &mut entries).err()
}
