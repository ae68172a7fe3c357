//! Adds up counts that were written.
ghost use Rattle.std.specs.Prelude.{◌≡◌, ◌++◌, ◌∷◌, ◌<◌, [], ℕ, List, IfErr, IfSome, OnErr, OnOk};
ghost use Rattle.art_operations.specs.Ended.{HasNoZero};
ghost use Rattle.text_lines.specs.Lines.{lines};
ghost use Rattle.text_programs.specs.Merged.{AreAdded, IsRefused};
ghost use Rattle.text_programs.specs.Sums.{HasSums};

use crate::word_counts::counts::Counts;
use crate::word_counts::rows::parse_count;
use std::alloc::{AllocError, Global};
use std::io;
use std::io::{BufRead, ErrorKind};
use text_lines::lines::next_line;

/// Why not all counts were added.
#[derive(Debug, Drop)]
pub enum MergeError {
    /// The line of this number, which is here too, is that of no count.
    Line(u64, Vec<u8>),
    /// The input can't be read, or an allocation failed.
    Input(io::Error),
}

/// Adds the counts of a text's lines, as they are written; it is read to its end. If it fails, the counts before are added.
pub fn add_counts<R: BufRead>(
    counts: &mut Counts,
    alloc: Global,
    input: &mut R,
) -> Result<(), MergeError>
    ensures added { OnOk result (IfSome (R.remaining input.old) (λ text.
        AreAdded counts.old counts.new (lines text))) }
    ensures refused { IfErr result (λ error. IfSome (R.remaining input.old) (λ text.
        IsRefused (lines text) error)) }
{
    let mut line = Vec::new(alloc);
    for number in 1..u64::MAX {
        match next_line(input, &mut line) {
            Ok(true) => {}
            Ok(false) => return Ok(()),
            Err(error) => return Err(MergeError::Input(error)),
        }
        let Some((word, count)) = parse_count(&line) else {
            return Err(MergeError::Line(number, line));
        };
        match add_count(counts, alloc, word, count) {
            Ok(()) => {}
            Err(error) => return Err(MergeError::Input(io::Error::from(error))),
        }
    }
    Err(MergeError::Input(io::Error::from(ErrorKind::FileTooLarge)))
}

// Adds to the count of a word. Only a new word allocates.
fn add_count(counts: &mut Counts, alloc: Global, word: &[u8], number: u64) -> Result<(), AllocError>
    requires word { HasNoZero word.now }
    requires some { 0 < number }
    ensures added { OnOk result ((before : List (List ℕ × ℕ)) → HasSums before counts.old →
        HasSums (before ++ (word.now, number) ∷ []) counts.new) }
    ensures kept { OnErr result (counts.new ≡ counts.old) }
{
    let Ok(count) = counts.get_text_or_insert(alloc, word, 0) else {
        return Err(AllocError);
    };
    *count = count.saturating_add(number);
    Ok(())
}
