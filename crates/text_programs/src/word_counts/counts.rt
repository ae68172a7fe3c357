//! Counts words in a map, line by line, and writes them in the order of bytes.
ghost use Rattle.std.specs.Prelude.{◌≡◌, ℕ, ◌++◌, ◌∷◌, [], List, IfOk, IfSome, OnOk, OnErr, flat_map};
ghost use Rattle.std.specs.Io.Buffered.{writer_buffer, writer_contents};
ghost use Rattle.std.specs.Io.KnownBytes.{Appends};
ghost use Rattle.art_operations.specs.Ended.{HasNoZero};
ghost use Rattle.text_programs.specs.WordCounts.{AppendsCounts, HasTimes, IsCountOf, line_of};
ghost use Rattle.text_programs.specs.Words.{is_gap, words};

use art_operations::keys::Terminated;
use art_operations::tree_map::TreeMap;
use std::alloc::{AllocError, Global};
use std::io::{self, BufRead, BufWriter, ErrorKind, Write};
use text_lines::lines::next_line;

/// Words with their counts. A word may be a prefix of another.
pub type Counts = TreeMap<Terminated, u64, 16>;

/// Reads a text to its end, writes each of its words with how often it occurs, a line each, in the order of bytes, and
/// flushes the output.
pub fn report<R: BufRead, W: Write + Drop>(
    alloc: Global,
    input: &mut R,
    output: &mut BufWriter<W>,
) -> io::Result<()>
    ensures counts { OnOk result (IfSome (R.remaining input.old) (λ text.
        AppendsCounts (words text) (writer_contents W.contents output.old)
        (writer_contents W.contents output.new))) }
    ensures flushed { OnOk result (writer_buffer output.new ≡ []) }
{
    let counts = count_words(alloc, input)?;
    write_counts(output, &counts)?;
    output.flush()
}

/// Returns what is written of a text that is in memory.
pub fn report_of(alloc: Global, text: &[u8]) -> io::Result<Vec<u8>>
    ensures { IfOk result (λ lines. (counts : List (List ℕ × ℕ)) ×
        IsCountOf (words text.now) counts × (lines.items ≡ flat_map line_of counts)) }
{
    let mut input = text;
    let counts = count_words(alloc, &mut input)?;
    let mut output = Vec::new(alloc);
    write_counts(&mut output, &counts)?;
    Ok(output)
}

/// Counts the words of a text that is read to its end.
pub fn count_words<R: BufRead>(alloc: Global, input: &mut R) -> io::Result<Counts>
    ensures { IfOk result (λ counts. IfSome (R.remaining input.old) (λ text.
        IsCountOf (words text) counts)) }
{
    let mut counts = TreeMap::new(alloc);
    count_text(&mut counts, alloc, input)?;
    // `rises` says that the words rise.
    counts.rises();
    Ok(counts)
}

/// Counts each word of a text, which is read to its end, once more. If it fails, the words before are counted.
pub fn count_text<R: BufRead>(counts: &mut Counts, alloc: Global, input: &mut R) -> io::Result<()>
    ensures { OnOk result (IfSome (R.remaining input.old) (λ text.
        (before : List (List ℕ)) → HasTimes before counts.old →
        HasTimes (before ++ words text) counts.new)) }
{
    let mut line = Vec::new(alloc);
    for _number in 1..u64::MAX {
        if !next_line(input, &mut line)? {
            return Ok(());
        }
        count_line(counts, alloc, &line)?;
    }
    Err(io::Error::from(ErrorKind::FileTooLarge))
}

/// Counts each word of a line once more. Fails only if an allocation fails.
pub fn count_line(counts: &mut Counts, alloc: Global, line: &[u8]) -> Result<(), AllocError>
    ensures { OnOk result ((before : List (List ℕ)) → HasTimes before counts.old →
        HasTimes (before ++ words line.now) counts.new) }
{
    for word in line.split(is_gap) {
        if !word.is_empty() {
            count_word(counts, alloc, word)?;
        }
    }
    Ok(())
}

// Counts a word once more. Only a new word allocates.
fn count_word(counts: &mut Counts, alloc: Global, word: &[u8]) -> Result<(), AllocError>
    requires { HasNoZero word.now }
    ensures counted { OnOk result ((before : List (List ℕ)) → HasTimes before counts.old →
        HasTimes (before ++ word.now ∷ []) counts.new) }
    ensures kept { OnErr result (counts.new ≡ counts.old) }
{
    let Ok(count) = counts.get_text_or_insert(alloc, word, 0) else {
        return Err(AllocError);
    };
    *count = count.saturating_add(1);
    Ok(())
}

/// Returns whether a byte stands in no word: white space, or a zero byte.
pub fn is_gap(byte: &u8) -> bool
    ensures { result ≡ is_gap byte.now }
{
    *byte == 0 || byte.is_ascii_whitespace()
}

/// Writes each word with its count, a line each, in the order of bytes.
pub fn write_counts<W: Write>(output: &mut W, counts: &Counts) -> io::Result<()>
    ensures { OnOk result (Appends (W.contents output.old) (W.contents output.new)
        (flat_map line_of counts.now)) }
{
    for (word, count) in counts.iter() {
        write_count(output, word.as_bytes_without_end(), *count)?;
    }
    Ok(())
}

/// Writes a word with its count.
pub fn write_count<W: Write>(output: &mut W, word: &[u8], count: u64) -> io::Result<()>
    ensures { OnOk result (Appends (W.contents output.old) (W.contents output.new)
        (line_of (word.now, count))) }
{
    write!(output, "{count} ")?;
    output.write_all(word)?;
    output.write_all(b"\n")
}
