//! Answers the lines of an input from a table.
ghost use Rattle.std.specs.Prelude.{◌≡◌, ◌≢◌, [], IfOk, IfSome, OnOk, map, true, false};
ghost use Rattle.std.specs.Io.Buffered.{reader_remaining, writer_buffer, writer_contents};
ghost use Rattle.text_lines.specs.Lines.{lines};
ghost use Rattle.line_programs.specs.declared.line_tables.Outcome.TheVariants.{Invalid};
ghost use Rattle.line_programs.specs.declared.serving.Format.TheVariants.{Json};
ghost use Rattle.line_programs.specs.Served.{AreAnswered, IsAnsweredFor, IsRepliedFor};

use crate::ahead::answer_collected;
use crate::json;
use crate::line_tables::{LineTable, Outcome};
use crate::messages::{Place, write_message};
use std::alloc::Global;
use std::io;
use std::io::{BufReader, BufWriter, ErrorKind, Read, Write};
use text_lines::lines::next_line;
use thiserror::Error;

/// How a reply is written.
#[derive(Clone, Copy)]
pub enum Format {
    /// As the table writes it.
    Plain,
    /// As a JSON object, a line each.
    Json,
}

/// How replies are written, and what is done about a line that asks for nothing.
#[derive(Clone, Copy)]
pub struct Rules<'a> {
    /// How a reply is written.
    pub format: Format,
    /// Where the lines are.
    pub place: Place<'a>,
    /// What is wrong with the line.
    pub fault: &'a str,
    /// Whether no line is read after it.
    pub is_strict: bool,
}

impl Rules<'_> {
    // Returns whether no line is read after one with this outcome.
    fn end_at(self, outcome: Outcome) -> bool
        ensures strict { result ≡ true → self.entry.is_strict ≡ true }
        ensures invalid { result ≡ true → outcome ≡ Invalid }
        ensures goes_on { result ≡ false → self.entry.is_strict ≡ true → outcome ≢ Invalid }
    {
        match outcome {
            Outcome::Invalid => self.is_strict,
            Outcome::Found | Outcome::NotFound => false,
        }
    }
}

// A line with its number.
#[derive(Clone, Copy)]
struct Query<'a> {
    number: u64,
    line: &'a [u8],
}

/// Why not all lines were answered.
#[derive(Debug, Drop, Error)]
pub enum ServeError {
    /// The input can't be read.
    #[error("{0}")]
    Read(io::Error),
    /// A reply or a message can't be written.
    #[error("write error: {0}")]
    Write(#[from] io::Error),
}

/// Answers each line of the input, and writes a message about each that asks for nothing. Returns the worst outcome.
///
/// Replies are written out before it waits for a line, and before a message. While the next line is already available
/// they are collected in the output, which has a buffer for that.
pub fn answer_lines<T: LineTable, R: Read, W: Write, E: Write>(
    alloc: Global,
    table: &T,
    rules: Rules<'_>,
    input: &mut BufReader<R>,
    output: &mut W,
    errors: &mut E,
) -> Result<Outcome, ServeError>
    ensures { IfOk result (λ worst. IfSome (reader_remaining R.remaining input.old) (λ text.
        AreAnswered (T.IsReplyTo table.now) (T.Finds table.now) T.AsksForNothing rules.entry (lines text) worst
        (W.contents output.old) (W.contents output.new) (E.contents errors.old) (E.contents errors.new))) }
{
    let mut line = Vec::new(alloc);
    let mut reply = Vec::new(alloc);
    let mut worst = Outcome::Found;
    let mut number = 1;
    while number < u64::MAX {
        let ahead = answer_collected(
            alloc,
            table,
            rules.format,
            number,
            input,
            &mut reply,
            output,
        )?;
        worst = worst.worse(ahead.worst);
        number = ahead.next;
        match next_line(input, &mut line) {
            Ok(true) => {}
            Ok(false) => return Ok(worst),
            Err(error) => return Err(ServeError::Read(error)),
        }
        let query = Query {
            number,
            line: &line,
        };
        let outcome = answer_line(table, rules, query, &mut reply, output, errors)?;
        worst = worst.worse(outcome);
        if rules.end_at(outcome) {
            return Ok(worst);
        }
        number += 1;
    }
    Err(ServeError::Read(io::Error::from(ErrorKind::FileTooLarge)))
}

/// Answers each word as a line, and writes a message about each that asks for nothing. Returns the worst outcome.
pub fn answer_words<T: LineTable, W: Write, E: Write>(
    alloc: Global,
    table: &T,
    rules: Rules<'_>,
    words: &[&str],
    output: &mut W,
    errors: &mut E,
) -> Result<Outcome, ServeError>
    ensures { IfOk result (λ worst. AreAnswered (T.IsReplyTo table.now) (T.Finds table.now) T.AsksForNothing
        rules.entry (map (λ word. word.now) words.now) worst
        (W.contents output.old) (W.contents output.new) (E.contents errors.old) (E.contents errors.new)) }
{
    let mut reply = Vec::new(alloc);
    let mut worst = Outcome::Found;
    for (index, word) in words.iter().enumerate() {
        let query = Query {
            number: index as u64 + 1,
            line: word.as_bytes(),
        };
        let outcome = answer_line(table, rules, query, &mut reply, output, errors)?;
        worst = worst.worse(outcome);
        if rules.end_at(outcome) {
            return Ok(worst);
        }
    }
    Ok(worst)
}

// Answers a line, or writes a message about it. The buffer may have any bytes.
fn answer_line<T: LineTable, W: Write, E: Write>(
    table: &T,
    rules: Rules<'_>,
    query: Query<'_>,
    buffer: &mut Vec<u8>,
    output: &mut W,
    errors: &mut E,
) -> io::Result<Outcome>
    ensures { IfOk result (λ outcome.
        IsAnsweredFor (T.IsReplyTo table.now) (T.Finds table.now) T.AsksForNothing
        rules.entry query.entry.number query.entry.line.now outcome
        (W.contents output.old) (W.contents output.new) (E.contents errors.old) (E.contents errors.new)) }
{
    let outcome = write_reply(table, rules.format, query.line, buffer, output)?;
    if outcome == Outcome::Invalid {
        output.flush()?;
        write_message(errors, rules.place, query.number, rules.fault, query.line)?;
        errors.flush()?;
    }
    Ok(outcome)
}

// Writes the reply to a line. The buffer may have any bytes.
fn write_reply<T: LineTable, W: Write>(
    table: &T,
    format: Format,
    line: &[u8],
    buffer: &mut Vec<u8>,
    output: &mut W,
) -> io::Result<Outcome>
    ensures { IfOk result (λ outcome.
        IsRepliedFor (T.IsReplyTo table.now) (T.Finds table.now) T.AsksForNothing format line.now outcome
        (W.contents output.old) (W.contents output.new)) }
{
    match format {
        Format::Plain => table.answer(line, output),
        Format::Json => write_json(table, line, buffer, output),
    }
}

// Writes the reply to a line as a JSON object. The buffer may have any bytes.
fn write_json<T: LineTable, W: Write>(
    table: &T,
    line: &[u8],
    buffer: &mut Vec<u8>,
    output: &mut W,
) -> io::Result<Outcome>
    ensures { IfOk result (λ outcome.
        IsRepliedFor (T.IsReplyTo table.now) (T.Finds table.now) T.AsksForNothing Json line.now outcome
        (W.contents output.old) (W.contents output.new)) }
{
    buffer.clear();
    let outcome = table.answer(line, buffer)?;
    json::write_reply(output, line, outcome, buffer)?;
    Ok(outcome)
}

/// Does what `answer_lines` does, and flushes both outputs.
pub fn serve<T: LineTable, R: Read, W: Write + Drop, E: Write + Drop>(
    alloc: Global,
    table: &T,
    rules: Rules<'_>,
    input: &mut BufReader<R>,
    output: &mut BufWriter<W>,
    errors: &mut BufWriter<E>,
) -> Result<Outcome, ServeError>
    ensures answered { IfOk result (λ worst. IfSome (reader_remaining R.remaining input.old) (λ text.
        AreAnswered (T.IsReplyTo table.now) (T.Finds table.now) T.AsksForNothing rules.entry (lines text) worst
        (writer_contents W.contents output.old) (writer_contents W.contents output.new)
        (writer_contents E.contents errors.old) (writer_contents E.contents errors.new))) }
    ensures flushed { OnOk result (writer_buffer output.new ≡ []) }
    ensures told { OnOk result (writer_buffer errors.new ≡ []) }
{
    let worst = answer_lines(alloc, table, rules, input, output, errors)?;
    output.flush()?;
    errors.flush()?;
    Ok(worst)
}

/// Does what `answer_words` does, and flushes both outputs.
pub fn serve_words<T: LineTable, W: Write + Drop, E: Write + Drop>(
    alloc: Global,
    table: &T,
    rules: Rules<'_>,
    words: &[&str],
    output: &mut BufWriter<W>,
    errors: &mut BufWriter<E>,
) -> Result<Outcome, ServeError>
    ensures answered { IfOk result (λ worst. AreAnswered (T.IsReplyTo table.now) (T.Finds table.now) T.AsksForNothing
        rules.entry (map (λ word. word.now) words.now) worst
        (writer_contents W.contents output.old) (writer_contents W.contents output.new)
        (writer_contents E.contents errors.old) (writer_contents E.contents errors.new)) }
    ensures flushed { OnOk result (writer_buffer output.new ≡ []) }
    ensures told { OnOk result (writer_buffer errors.new ≡ []) }
{
    let worst = answer_words(alloc, table, rules, words, output, errors)?;
    output.flush()?;
    errors.flush()?;
    Ok(worst)
}
