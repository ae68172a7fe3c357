//! Replies to the lines that an input has collected. All are looked up, then they are gathered in a buffer, and that is
//! written: so the processor reads the memory of several replies at once.
ghost use Rattle.std.specs.Prelude.{◌≡◌, ◌^◌, ◌-◌, ◌<◌, ◌≤◌, ◌++◌, IfOk, IfSome, List, OnOk, Some, codes, drop, ℕ};
ghost use Rattle.std.specs.Io.Buffered.{reader_remaining};
ghost use Rattle.text_lines.specs.Lines.{EndsWith};
ghost use Rattle.line_programs.specs.declared.line_tables.Reply.{Reply};
ghost use Rattle.line_programs.specs.declared.line_tables.Outcome.TheVariants.{Found};
ghost use Rattle.line_programs.specs.declared.serving.Format.TheVariants.{Plain};
ghost use Rattle.line_programs.specs.Gathered.{AreGathered, AreLinesBefore, reply_line};
ghost use Rattle.line_programs.specs.Served.{AreFirstAnswered};

use crate::line_tables::{LineTable, Outcome, Reply};
use crate::serving::Format;
use std::alloc::{AllocError, Global};
use std::io;
use std::io::{BufRead, BufReader, Read, Write};
use text_lines::lines::{first_line, write_out};

// At most so many replies are gathered.
const MOST_REPLIES: u64 = 1 << 16;

// Once the gathered replies have so many bytes, no other is added.
const MOST_BYTES: usize = 1 << 20;

/// The first lines of a text, once they are answered.
#[derive(Clone, Copy)]
pub(crate) struct Ahead {
    /// How many bytes they have, with their ends.
    pub(crate) used: usize,
    /// The number of the line after them.
    pub(crate) next: u64,
    /// The worst of their outcomes.
    pub(crate) worst: Outcome,
}

/// Answers the lines that the input has collected, as far as replies can be looked up; none if they are written as JSON.
/// Then writes out what the output has collected, unless a further line of the input is already available. The buffer may
/// have any bytes.
pub(crate) fn answer_collected<T: LineTable, R: Read, W: Write>(
    alloc: Global,
    table: &T,
    format: Format,
    number: u64,
    input: &mut BufReader<R>,
    buffer: &mut Vec<u8>,
    output: &mut W,
) -> io::Result<Ahead>
    ensures answered { IfOk result (λ ahead. IfSome (reader_remaining R.remaining input.old) (λ text.
        AreFirstAnswered (T.IsReplyTo table.now) (T.Finds table.now) T.AsksForNothing format
        text (reader_remaining R.remaining input.new) number ahead.next ahead.worst
        (W.contents output.old) (W.contents output.new))) }
    ensures upwards { IfOk result (λ ahead. number ≤ ahead.next) }
    ensures few { IfOk result (λ ahead. number < 2 ^ 64 - 1 → ahead.next < 2 ^ 64 - 1) }
{
    let ahead = answer_first(alloc, table, format, number, input.buffer(), buffer, output)?;
    input.consume(ahead.used);
    write_out(input, output)?;
    Ok(ahead)
}

// Answers the first lines of a text, as far as replies can be looked up; none if they are written as JSON. The text goes on
// with bytes that are not read yet.
fn answer_first<T: LineTable, W: Write>(
    alloc: Global,
    table: &T,
    format: Format,
    number: u64,
    text: &[u8],
    buffer: &mut Vec<u8>,
    output: &mut W,
) -> io::Result<Ahead>
    ensures answered { IfOk result (λ ahead. (more : List ℕ) →
        AreFirstAnswered (T.IsReplyTo table.now) (T.Finds table.now) T.AsksForNothing format
        (text.now ++ more) (Some (drop ahead.used text.now ++ more)) number ahead.next ahead.worst
        (W.contents output.old) (W.contents output.new)) }
    ensures upwards { IfOk result (λ ahead. number ≤ ahead.next) }
    ensures few { IfOk result (λ ahead. number < 2 ^ 64 - 1 → ahead.next < 2 ^ 64 - 1) }
{
    match format {
        Format::Plain if number < 1 << 63 => {
            answer_plainly(alloc, table, number, text, buffer, output)
        }
        Format::Plain | Format::Json => Ok(none_answered(number)),
    }
}

// What was answered of a text whose first line has this number, before any line was.
fn none_answered(number: u64) -> Ahead
    ensures used { result.used ≡ 0 }
    ensures next { result.next ≡ number }
    ensures worst { result.worst ≡ Found }
{
    Ahead {
        used: 0,
        next: number,
        worst: Outcome::Found,
    }
}

// Answers the first lines of a text, as far as replies can be looked up.
fn answer_plainly<T: LineTable, W: Write>(
    alloc: Global,
    table: &T,
    number: u64,
    text: &[u8],
    buffer: &mut Vec<u8>,
    output: &mut W,
) -> io::Result<Ahead>
    requires { number < 2 ^ 63 }
    ensures answered { IfOk result (λ ahead. (more : List ℕ) →
        AreFirstAnswered (T.IsReplyTo table.now) (T.Finds table.now) T.AsksForNothing Plain
        (text.now ++ more) (Some (drop ahead.used text.now ++ more)) number ahead.next ahead.worst
        (W.contents output.old) (W.contents output.new)) }
    ensures upwards { IfOk result (λ ahead. number ≤ ahead.next) }
    ensures few { IfOk result (λ ahead. ahead.next < 2 ^ 64 - 1) }
{
    let replies = table.look_up(alloc, text);
    let Some(gathered) = gather(&replies, buffer) else {
        return Ok(none_answered(number));
    };
    let Some(left) = after_lines(text, gathered.count) else {
        return Ok(none_answered(number));
    };
    output.write_all(buffer)?;
    Ok(Ahead {
        used: text.len() - left.len(),
        next: number + gathered.count,
        worst: gathered.worst,
    })
}

/// Replies that are gathered.
#[derive(Clone, Copy)]
struct Gathered {
    /// How many there are.
    count: u64,
    /// The worst of their outcomes.
    worst: Outcome,
}

// Writes the first replies to a buffer, in the place of what it has; `None` if an allocation fails.
fn gather(replies: &[Reply<'_>], buffer: &mut Vec<u8>) -> Option<Gathered>
    ensures gathered { IfSome result (λ gathered. (others : List Reply) ×
        AreGathered replies.now others gathered.count gathered.worst buffer.new.items) }
    ensures few { IfSome result (λ gathered. gathered.count ≤ 2 ^ 16) }
{
    buffer.clear();
    let mut count = 0;
    let mut worst = Outcome::Found;
    for reply in replies {
        if count == MOST_REPLIES || buffer.len() >= MOST_BYTES {
            break;
        }
        let Ok(()) = append(*reply, buffer) else {
            return None;
        };
        worst = worst.worse(reply.outcome());
        count += 1;
    }
    Some(Gathered { count, worst })
}

// Appends a reply with its line feed.
fn append(reply: Reply<'_>, buffer: &mut Vec<u8>) -> Result<(), AllocError>
    ensures { OnOk result (buffer.new.items ≡ buffer.old.items ++ reply_line reply.entry) }
{
    buffer.extend_from_slice(reply.text)?;
    buffer.push(b'\n')?;
    Ok(())
}

// Returns what is after the first lines of a text, so many as asked for; `None` if a line feed ends fewer.
fn after_lines(text: &[u8], count: u64) -> Option<&[u8]>
    ensures lines { IfSome result (λ left. (more : List ℕ) →
        AreLinesBefore count (text.now ++ more) (left.now ++ more)) }
    ensures ends { IfSome result (λ left. EndsWith text.now left.now) }
{
    let mut left = text;
    let mut passed = 0;
    while passed < count {
        let (_line, rest) = first_line(left)?;
        left = rest;
        passed += 1;
    }
    Some(left)
}
