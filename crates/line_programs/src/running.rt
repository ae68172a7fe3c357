//! Runs a program that reads a table from a file, and answers the words of its command line or the lines of standard
//! input.

mod forms;

use crate::checking::check;
use crate::line_tables::{LineTable, Outcome};
use crate::messages::{Place, write_message};
use crate::progress;
use crate::reading::{ReadError, read};
use crate::serving::{Format, Rules, ServeError, serve, serve_words};
use clap::{Arg, ArgAction, ArgMatches, Command};
pub use forms::run_with_forms;
use std::alloc::{AllocError, Global};
use std::fmt::Display;
use std::io::{BufReader, BufWriter, ErrorKind, Read, Stderr, Write};
use std::process::ExitCode;
use std::{env, io};
use text_lines::lines::End;

/// The version of the programs.
pub const VERSION: &str = "0.2.0";

/// The exit status of a program that can't read, write or allocate, or has an invalid command line or line.
pub const ERROR: u8 = 2;

// The exit status of a program whose output was closed, as a shell has it of one that SIGPIPE ended.
const CLOSED: u8 = 141;

/// The end of the help of a program that looks nothing up.
pub const STATUS_OF_ERRORS: &str = "Exit status:
  0  all was read and written
  2  an error: an invalid line, command line or file";

const STATUSES: &str = "Exit status:
  0  something was found for each line
  1  nothing was found for a line
  2  an error: an invalid line, command line or file";

/// What a program says of itself.
#[derive(Clone, Copy)]
pub struct Texts<'a> {
    /// The name of the program.
    pub name: &'a str,
    /// What it does, in a line.
    pub about: &'a str,
    /// What it does in full: its lines, and an example.
    pub details: &'a str,
    /// How the usage calls the file of the table, and what is in it.
    pub table: &'a str,
    pub table_help: &'a str,
    /// How the usage calls what is asked for, and what it is.
    pub query: &'a str,
    pub query_help: &'a str,
    /// What is wrong with a line that asks for nothing.
    pub fault: &'a str,
}

/// Reads the table that the command line names, and answers the words behind it, or else the lines of standard input.
/// Returns the exit status.
pub fn run<T>(rt: &HostRuntime, texts: Texts<'_>) -> ExitCode
where
    T: LineTable + Drop,
    T::Fault: Display + Drop,
{
    let status = match words(rt) {
        Ok(words) => status_of_words::<T>(rt, texts, words.as_slice()),
        Err(error) => report(rt, texts.name, "the command line", error),
    };
    ExitCode::from(status)
}

/// Returns the words of the command line.
pub fn words(rt: &HostRuntime) -> io::Result<Vec<String>> {
    let words = env::args(rt)?.collect(rt.alloc())?;
    Ok(words)
}

fn status_of_words<'a, T>(rt: &HostRuntime, texts: Texts<'a>, words: &'a [String]) -> u8
where
    T: LineTable + Drop,
    T::Fault: Display + Drop,
{
    let Ok(command) = command(rt.alloc(), texts) else {
        return report(rt, texts.name, "the command line", AllocError);
    };
    match command.try_get_matches_from(words) {
        Ok(matches) => status_of::<T>(rt, texts, &matches),
        Err(error) => print_usage(rt, texts.name, error),
    }
}

fn command(alloc: Global, texts: Texts<'_>) -> Result<Command<'_>, AllocError> {
    let command = with(described(alloc, texts), Ok(table(alloc, texts)));
    let command = with(command, Ok(queries(alloc, texts)));
    let command = with(command, Ok(strict(alloc)));
    let command = with(command, Ok(json(alloc)));
    let command = with(command, check_option(alloc));
    with(command, Ok(progress::option(alloc)))
}

fn described(alloc: Global, texts: Texts<'_>) -> Result<Command<'_>, AllocError> {
    Command::new(alloc, texts.name)
        .version(VERSION)
        .about(texts.about)
        .long_about(texts.details)
        .after_help(STATUSES)
        .bin_name(texts.name)
}

// Adds an argument, where both could be made.
fn with<'a>(
    command: Result<Command<'a>, AllocError>,
    arg: Result<Arg<'a>, AllocError>,
) -> Result<Command<'a>, AllocError> {
    command?.arg(arg?)
}

fn table(alloc: Global, texts: Texts<'_>) -> Arg<'_> {
    Arg::new(alloc, "table")
        .required(true)
        .value_name(texts.table)
        .help(texts.table_help)
}

fn queries(alloc: Global, texts: Texts<'_>) -> Arg<'_> {
    Arg::new(alloc, "queries")
        .num_args(0..)
        .value_name(texts.query)
        .help(texts.query_help)
}

fn strict<'a>(alloc: Global) -> Arg<'a> {
    flag(
        alloc,
        "strict",
        "Stop at the first line that asks for nothing",
    )
}

fn json<'a>(alloc: Global) -> Arg<'a> {
    flag(
        alloc,
        "json",
        "Print each reply as a line of JSON: 'query', 'found' and 'lines'",
    )
}

fn check_option<'a>(alloc: Global) -> Result<Arg<'a>, AllocError> {
    let others: &'a [&'a str] = &["queries", "strict", "json"];
    flag(
        alloc,
        "check",
        "Report each invalid line of the table, and answer nothing",
    )
    .conflicts_with_all(others)
}

// Returns an option without a value.
pub(crate) fn flag<'a>(alloc: Global, name: &'a str, help: &'a str) -> Arg<'a> {
    Arg::new(alloc, name)
        .long(name)
        .action(ArgAction::SetTrue)
        .help(help)
}

/// Prints what is wrong with a command line, or its help or version. Returns the exit status.
pub fn print_usage(rt: &HostRuntime, program: &str, error: clap::Error) -> u8 {
    match error.print(rt) {
        Ok(()) if error.use_stderr() => ERROR,
        Ok(()) => 0,
        Err(error) => report_unwritten(rt, program, error),
    }
}

fn status_of<T>(rt: &HostRuntime, texts: Texts<'_>, matches: &ArgMatches<'_>) -> u8
where
    T: LineTable + Drop,
    T::Fault: Display + Drop,
{
    let path = matches.get_str("table").unwrap_or("-");
    let is_shown = matches.get_flag("progress");
    if matches.get_flag("check") {
        return check_table::<T>(rt, texts.name, path, is_shown);
    }
    if are_both_input(rt, texts, matches, path) {
        return ERROR;
    }
    match read_table::<T>(rt, texts.name, End::LineFeed, path, is_shown) {
        Ok(table) => answer_all(rt, texts, matches, &table),
        Err(status) => status,
    }
}

// Returns whether the table and the lines would both be standard input, and prints that they can't.
fn are_both_input(
    rt: &HostRuntime,
    texts: Texts<'_>,
    matches: &ArgMatches<'_>,
    path: &str,
) -> bool {
    let are_both = path == "-" && matches.get_strs("queries").is_none();
    if are_both {
        let _ = eprintln!(rt;
            "{}: {} and the lines can't both be standard input",
            texts.name, texts.table
        );
    }
    are_both
}

// Answers what the command line asks, and prints what went wrong. Returns the exit status.
fn answer_all<T: LineTable>(
    rt: &HostRuntime,
    texts: Texts<'_>,
    matches: &ArgMatches<'_>,
    table: &T,
) -> u8 {
    let queries = matches.get_strs("queries");
    match answer(rt, texts, matches, queries, table) {
        Ok(worst) => worst.status(),
        Err(ServeError::Read(error)) => report(rt, texts.name, "standard input", error),
        Err(ServeError::Write(error)) => report_unwritten(rt, texts.name, error),
    }
}

// Checks the table of a file, or of standard input if that is `-`.
fn check_table<T>(rt: &HostRuntime, program: &str, path: &str, is_shown: bool) -> u8
where
    T: LineTable + Drop,
    T::Fault: Display + Drop,
{
    let source = source_of(path);
    match check_file::<T>(rt, Place { program, source }, path, is_shown) {
        Ok(true) => 0,
        Ok(false) => ERROR,
        Err(ServeError::Read(error)) => report(rt, program, source, error),
        Err(ServeError::Write(error)) => report_unwritten(rt, program, error),
    }
}

fn check_file<T>(
    rt: &HostRuntime,
    place: Place<'_>,
    path: &str,
    is_shown: bool,
) -> Result<bool, ServeError>
where
    T: LineTable + Drop,
    T::Fault: Display + Drop,
{
    let alloc = rt.alloc();
    if path == "-" {
        return check_opened::<T, _>(rt, place, BufReader::new(alloc, rt.reader()));
    }
    check_opened::<T, _>(rt, place, progress::open(rt, place, is_shown))
}

fn check_opened<T, R>(
    rt: &HostRuntime,
    place: Place<'_>,
    opened: io::Result<BufReader<R>>,
) -> Result<bool, ServeError>
where
    T: LineTable + Drop,
    T::Fault: Display + Drop,
    R: Read + Drop,
{
    let alloc = rt.alloc();
    let mut input = match opened {
        Ok(input) => input,
        Err(error) => return Err(ServeError::Read(error)),
    };
    let mut errors = BufWriter::new(alloc, rt.stderr())?;
    let is_whole = check::<T, BufReader<R>, BufWriter<Stderr>>(
        alloc,
        place,
        &mut input,
        &mut errors,
    )?;
    errors.flush()?;
    Ok(is_whole)
}

// Reads the table of a file, or of standard input if that is `-`.
fn read_table<T>(
    rt: &HostRuntime,
    program: &str,
    end: End,
    path: &str,
    is_shown: bool,
) -> Result<T, u8>
where
    T: LineTable + Drop,
    T::Fault: Display + Drop,
{
    let source = source_of(path);
    match read_file::<T>(rt, end, Place { program, source }, path, is_shown) {
        Ok(table) => Ok(table),
        Err(error) => Err(report_unread::<T>(rt, program, source, error)),
    }
}

/// Returns how messages call a file.
pub fn source_of(path: &str) -> &str {
    if path == "-" { "standard input" } else { path }
}

fn read_file<T>(
    rt: &HostRuntime,
    end: End,
    place: Place<'_>,
    path: &str,
    is_shown: bool,
) -> Result<T, ReadError<T::Fault>>
where
    T: LineTable + Drop,
    T::Fault: Drop,
{
    let alloc = rt.alloc();
    if path == "-" {
        return read_opened(alloc, end, BufReader::new(alloc, rt.reader()));
    }
    read_opened(alloc, end, progress::open(rt, place, is_shown))
}

fn read_opened<T, R>(
    alloc: Global,
    end: End,
    opened: io::Result<BufReader<R>>,
) -> Result<T, ReadError<T::Fault>>
where
    T: LineTable + Drop,
    T::Fault: Drop,
    R: Read + Drop,
{
    match opened {
        Ok(mut input) => read(alloc, end, &mut input),
        Err(error) => Err(ReadError::Input(error)),
    }
}

fn report_unread<T>(rt: &HostRuntime, program: &str, source: &str, error: ReadError<T::Fault>) -> u8
where
    T: LineTable,
    T::Fault: Display + Drop,
{
    let (number, line, fault) = match error {
        ReadError::Input(error) => return report(rt, program, source, error),
        ReadError::Line(number, line, fault) => (number, line, fault),
    };
    if !T::is_of_line(&fault) {
        return report(rt, program, source, fault);
    }
    let place = Place { program, source };
    let _ = write_message(&mut rt.stderr(), place, number, fault, line.trim_ascii());
    ERROR
}

// Answers words, or the lines of standard input if there are none.
fn answer<T: LineTable>(
    rt: &HostRuntime,
    texts: Texts<'_>,
    matches: &ArgMatches<'_>,
    queries: Option<&[&str]>,
    table: &T,
) -> Result<Outcome, ServeError> {
    let alloc = rt.alloc();
    let source = if queries.is_some() {
        "argument"
    } else {
        "standard input"
    };
    let rules = Rules {
        format: if matches.get_flag("json") {
            Format::Json
        } else {
            Format::Plain
        },
        place: Place {
            program: texts.name,
            source,
        },
        fault: texts.fault,
        is_strict: matches.get_flag("strict"),
    };
    let mut output = BufWriter::new(alloc, io::writer(rt))?;
    let mut errors = BufWriter::new(alloc, rt.stderr())?;
    match queries {
        Some(words) => serve_words(alloc, table, rules, words, &mut output, &mut errors),
        None => {
            let mut input = BufReader::new(alloc, rt.reader())?;
            serve(alloc, table, rules, &mut input, &mut output, &mut errors)
        }
    }
}

/// Prints what is wrong with a file or another source. Returns the exit status.
pub fn report<D: Display + Drop>(rt: &HostRuntime, program: &str, source: &str, fault: D) -> u8 {
    let _ = eprintln!(rt; "{program}: {source}: {fault}");
    ERROR
}

/// Prints that the output can't be written, unless it was closed. Returns the exit status.
pub fn report_unwritten(rt: &HostRuntime, program: &str, error: io::Error) -> u8 {
    if error.kind() == ErrorKind::BrokenPipe {
        return CLOSED;
    }
    report(rt, program, "write error", error)
}
