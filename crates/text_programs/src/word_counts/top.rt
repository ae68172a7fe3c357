//! The most frequent words.
ghost use Rattle.std.specs.Prelude.{◌≡◌, IfOk, OnOk, flat_map, map, take};
ghost use Rattle.std.specs.Io.KnownBytes.{Appends};
ghost use Rattle.text_programs.specs.WordCounts.{line_of};
ghost use Rattle.text_programs.specs.Frequency.{by_frequency};

use crate::word_counts::counts::{Counts, write_count};
use std::alloc::{AllocError, Global};
use std::cmp::Reverse;
use std::io;
use std::io::Write;

/// How often a word occurs, and the word. They are ordered by frequency.
pub type Row<'a> = (Reverse<u64>, &'a [u8]);

/// Writes the most frequent words with their counts, a line each: at most so many, the most frequent word first, and words
/// that occur as often in the order of bytes.
pub fn write_most_frequent<W: Write>(
    output: &mut W,
    alloc: Global,
    counts: &Counts,
    most: usize,
) -> io::Result<()>
    ensures { OnOk result (Appends (W.contents output.old) (W.contents output.new)
        (flat_map line_of (take most (by_frequency counts.now)))) }
{
    let mut rows = rows_of(alloc, counts)?;
    sort_rows(&mut rows)?;
    rows.truncate(most);
    write_rows(output, &rows)
}

// Returns the counts in the order of bytes.
fn rows_of<'a>(alloc: Global, counts: &'a Counts) -> Result<Vec<Row<'a>>, AllocError>
    ensures { IfOk result (λ rows. map (λ row. (row.1.now, row.0.0)) rows.items ≡ counts.now) }
{
    let mut rows = Vec::new(alloc);
    for (word, count) in counts.iter() {
        rows.push((Reverse(*count), word.as_bytes_without_end()))?;
    }
    Ok(rows)
}

// Sorts counts by frequency.
fn sort_rows(rows: &mut Vec<Row<'_>>) -> Result<(), AllocError>
    ensures { OnOk result (map (λ row. (row.1.now, row.0.0)) rows.new.items
        ≡ by_frequency (map (λ row. (row.1.now, row.0.0)) rows.old.items)) }
{
    rows.sort()
}

// Writes counts, a line each.
fn write_rows<W: Write>(output: &mut W, rows: &[Row<'_>]) -> io::Result<()>
    ensures { OnOk result (Appends (W.contents output.old) (W.contents output.new)
        (flat_map line_of (map (λ row. (row.1.now, row.0.0)) rows.now))) }
{
    for row in rows {
        write_count(output, row.1, row.0.0)?;
    }
    Ok(())
}
