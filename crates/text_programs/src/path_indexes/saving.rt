//! Snapshots of an index.
ghost use Rattle.std.specs.Prelude.{◌≡◌, IfErr, IfOk, IfSome, List, MatchResult, OnOk, Some, ℕ};
ghost use Rattle.art_operations.specs.Ended.{HasNoZero, ended};
ghost use Rattle.art_operations.specs.MapItems.{keys_of};
ghost use Rattle.art_snapshots.specs.MapEntries.{IsKeyEntry, key_entries};
ghost use Rattle.line_programs.specs.SavedTables.{IsWritten};
ghost use Rattle.snapshot_format.specs.Faults.{IfMalformed, IsExplained};
ghost use Rattle.snapshot_format.specs.Reading.{IsOutside as IsNotOfBytes};
ghost use Rattle.snapshot_format.specs.Snapshots.{snapshot_of};
ghost use Rattle.text_programs.specs.Paths.{lines_of};
ghost use Rattle.text_programs.specs.PathSnapshots.{IsSavedIndex, IsSnapshotOf};

use crate::path_indexes::answers::PathIndex;
use crate::path_indexes::index::Index;
use art_snapshots::{read_map, write_map};
use line_programs::saved_tables::SavedTable;
use snapshot_format::ReadError;
use std::alloc::Global;
use std::io;
use std::io::{Read, Write};

/// Writes the snapshot of an index: its paths, each with the zero byte at its end, as the keys of a map without values.
pub fn save_index<W: Write>(index: &Index, alloc: Global, output: &mut W) -> io::Result<()>
    ensures { OnOk result (IsWritten (IsSnapshotOf (keys_of index.now)) (W.contents output.old) (W.contents output.new)) }
{
    // No effect at run time. The proof reads from this call that no path has a zero byte.
    let _ = index.as_byte_map();
    write_map(alloc, index, output)?;
    Ok(())
}

/// Reads the index of a snapshot, to the end of the reader.
pub fn load_index<R: Read + Drop>(alloc: Global, input: R) -> Result<Index, ReadError>
    // What was read is the snapshot of the paths of the index.
    ensures read { IfOk result (λ index. IfSome (R.remaining input) (λ bytes.
        bytes ≡ snapshot_of (key_entries ended (keys_of index)))) }

    // The index has the paths of the one that was saved.
    ensures reads_back { (paths : List (List ℕ)) (bytes : List ℕ) → IsSnapshotOf paths bytes →
        R.remaining input ≡ Some bytes → MatchResult result (λ index. keys_of index ≡ paths) IsNotOfBytes }

    // A fault is one of the bytes that were read, whose number the error has.
    ensures fault { IfErr result (λ error. IfMalformed error (λ malformed.
        IfSome (R.remaining input) (λ bytes. IsExplained (IsKeyEntry ended HasNoZero) bytes malformed))) }
{
    read_map(alloc, input)
}

/// An index that is loaded has the paths of the one that was saved, so it replies alike.
impl SavedTable for PathIndex {
    type LoadFault = ReadError;

    ghost IsSavedOf = { λ added. IsSavedIndex (lines_of added) };

    ghost IsOutside = { IsNotOfBytes };

    fn save<W: Write>(&self, alloc: Global, output: &mut W) -> io::Result<()> {
        save_index(&self.paths, alloc, output)
    }

    fn load<R: Read + Drop>(alloc: Global, input: R) -> Result<Self, ReadError> {
        match load_index(alloc, input) {
            Ok(paths) => Ok(PathIndex { paths }),
            Err(fault) => Err(fault),
        }
    }
}
