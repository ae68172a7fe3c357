//! Reads a text line by line.
ghost use Rattle.std.specs.Prelude.{◌≡◌, ◌≢◌, ◌-◌, ◌<◌, ◌↔◌, ◌∷◌, ◌++◌, All, IfNone, IfOk, IfSome, IsTrue, List, Some, length, slice_get, ℕ};
ghost use Rattle.std.specs.Io.KnownBytes.{Keeps};
ghost use Rattle.text_lines.specs.Lines.{EndsWith, IsLineRead, IsPartRead, ended_by, lines, pieces, without_return};

use std::io;
use std::io::{BufRead, BufReader, Read, Write};

/// What ends each piece of a text.
#[derive(Clone, Copy)]
pub enum End {
    /// A line feed, or a carriage return and a line feed: the pieces are lines.
    LineFeed,
    /// A zero byte, as `find -print0` writes.
    Zero,
}

/// Reads the next line, without the line feed that ends it or the carriage return and the line feed. Returns whether there
/// was one.
pub fn next_line<R: BufRead>(input: &mut R, line: &mut Vec<u8>) -> io::Result<bool>
    ensures { IfOk result (λ more. IfSome (R.remaining input.old) (λ text.
        IsLineRead more text line.new.items (R.remaining input.new))) }
{
    line.clear();
    if input.read_until(b'\n', line)? == 0 {
        return Ok(false);
    }
    if ends_with(line, b'\n') {
        line.pop();
        drop_return(line);
    }
    Ok(true)
}

/// Reads the next piece, without the byte that ends it. Returns whether there was one.
pub fn next_ended<R: BufRead>(input: &mut R, end: u8, piece: &mut Vec<u8>) -> io::Result<bool>
    ensures { IfOk result (λ more. IfSome (R.remaining input.old) (λ text.
        IsPartRead (ended_by end) more text piece.new.items (R.remaining input.new))) }
{
    piece.clear();
    if input.read_until(end, piece)? == 0 {
        return Ok(false);
    }
    if ends_with(piece, end) {
        piece.pop();
    }
    Ok(true)
}

/// Reads the next piece, without its end. Returns whether there was one.
pub fn next_piece<R: BufRead>(input: &mut R, end: End, piece: &mut Vec<u8>) -> io::Result<bool>
    ensures { IfOk result (λ more. IfSome (R.remaining input.old) (λ text.
        IsPartRead (pieces end) more text piece.new.items (R.remaining input.new))) }
{
    match end {
        End::LineFeed => next_line(input, piece),
        End::Zero => next_ended(input, 0, piece),
    }
}

// Drops a carriage return from the end of a line.
#[tactic(auto, using(crate::proofs::LineParts::return_absent))]
fn drop_return(line: &mut Vec<u8>)
    ensures { line.new.items ≡ without_return line.old.items }
{
    if ends_with(line, b'\r') {
        line.pop();
    }
}

// Returns whether a byte ends the line.
fn ends_with(line: &[u8], end: u8) -> bool
    ensures { IsTrue result ↔ (slice_get line.now (length line.now - 1) ≡ Some end) }
{
    match line.last() {
        Some(byte) => *byte == end,
        None => false,
    }
}

/// Returns what is before the first line feed, and what is after it; `None` if there is none.
pub fn split_at_feed(text: &[u8]) -> Option<(&[u8], &[u8])>
    ensures parts { IfSome result (λ parts. text.now ≡ parts.0.now ++ 10 ∷ parts.1.now) }
    ensures first { IfSome result (λ parts. All (λ byte. byte ≢ 10) parts.0.now) }
    ensures none { IfNone result (All (λ byte. byte ≢ 10) text.now) }
{
    let at = text.iter().position(|&byte| byte == b'\n')?;
    let (line, rest) = text.split_at(at);
    Some((line, &rest[1..]))
}

/// Returns the first line of a text, without its end, and what is after that; `None` if no line feed ends it. The text may
/// have more, which is not there yet.
pub fn first_line(text: &[u8]) -> Option<(&[u8], &[u8])>
    ensures line { IfSome result (λ parts. (more : List ℕ) →
        lines (text.now ++ more) ≡ parts.0.now ∷ lines (parts.1.now ++ more)) }
    ensures rest { IfSome result (λ parts. EndsWith text.now parts.1.now) }
    ensures shorter { IfSome result (λ parts. length parts.1.now < length text.now) }
{
    let (line, rest) = split_at_feed(text)?;
    Some((trim_return(line), rest))
}

// Returns a line without a carriage return at its end.
fn trim_return(line: &[u8]) -> &[u8]
    ensures { result.now ≡ without_return line.now }
{
    if ends_with(line, b'\r') {
        return &line[..line.len() - 1];
    }
    line
}

/// Writes out what the output has collected, unless the next line of the input is already available: so a program that
/// calls it after each line has replied to all of them before it waits.
pub fn write_out<R: Read, W: Write>(input: &BufReader<R>, output: &mut W) -> io::Result<()>
    ensures { Keeps (W.contents output.old) (W.contents output.new) }
{
    if input.buffer().contains(&b'\n') {
        return Ok(());
    }
    output.flush()
}
