//! Tables that are saved as bytes, and loaded from them.
ghost use Rattle.std.specs.Prelude.{◌≡◌, List, MatchResult, OnOk, Some, ℕ};
ghost use Rattle.line_programs.specs.SavedTables.{IsWritten};

use crate::line_tables::LineTable;
use std::alloc::Global;
use std::io;
use std::io::{Read, Write};

/// A table that is saved as bytes. What is loaded from them has read the same entries.
pub trait SavedTable: LineTable {
    /// Why no table was loaded.
    type LoadFault;

    /// The bytes are what is saved of a table that has these entries.
    ghost IsSavedOf: { List (ℕ × List ℕ) → List ℕ → Type 0 };

    /// The fault is not one of the bytes: reading failed, or an allocation.
    ghost IsOutside: { Self.LoadFault → Type 0 };

    /// Writes a table that was read.
    fn save<W: Write>(&self, alloc: Global, output: &mut W) -> io::Result<()>
        ensures { OnOk result ((added : List (ℕ × List ℕ)) → Self.IsRead self.now added →
            IsWritten (IsSavedOf added) (W.contents output.old) (W.contents output.new)) };

    /// Reads a table that was saved, to the end of the reader.
    fn load<R: Read + Drop>(alloc: Global, input: R) -> Result<Self, Self::LoadFault>
        ensures { (added : List (ℕ × List ℕ)) (bytes : List ℕ) → IsSavedOf added bytes →
            R.remaining input ≡ Some bytes →
            MatchResult result (λ table. Self.IsRead table added) IsOutside };
}
