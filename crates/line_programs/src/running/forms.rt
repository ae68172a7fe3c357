//! Runs a program whose table is read from lines, from other pieces or from a snapshot, and saved in one.

use super::{
    ERROR, Texts, answer_all, are_both_input, check_table, command, flag, print_usage, read_table,
    report, report_unwritten, source_of, with, words,
};
use crate::messages::Place;
use crate::progress;
use crate::saved_tables::SavedTable;
use clap::{Arg, ArgMatches, Command};
use std::alloc::{AllocError, Global};
use std::fmt::Display;
use std::io::{BufReader, BufWriter, Write};
use std::process::ExitCode;
use std::{fs, io};
use text_lines::lines::End;

/// Does what `run` does, and has options for a table whose entries end with zero bytes, and for snapshots of tables.
pub fn run_with_forms<T>(rt: &HostRuntime, texts: Texts<'_>) -> ExitCode
where
    T: SavedTable + Drop,
    T::Fault: Display + Drop,
    T::LoadFault: From<io::Error> + Display + Drop,
{
    let status = match words(rt) {
        Ok(words) => status_of_words::<T>(rt, texts, words.as_slice()),
        Err(error) => report(rt, texts.name, "the command line", error),
    };
    ExitCode::from(status)
}

fn status_of_words<'a, T>(rt: &HostRuntime, texts: Texts<'a>, words: &'a [String]) -> u8
where
    T: SavedTable + Drop,
    T::Fault: Display + Drop,
    T::LoadFault: From<io::Error> + Display + Drop,
{
    let Ok(command) = command_with_forms(rt.alloc(), texts) else {
        return report(rt, texts.name, "the command line", AllocError);
    };
    match command.try_get_matches_from(words) {
        Ok(matches) => status_of::<T>(rt, texts, &matches),
        Err(error) => print_usage(rt, texts.name, error),
    }
}

fn command_with_forms(alloc: Global, texts: Texts<'_>) -> Result<Command<'_>, AllocError> {
    let command = with(command(alloc, texts), zero(alloc));
    with(with(command, save(alloc)), load(alloc))
}

fn zero<'a>(alloc: Global) -> Result<Arg<'a>, AllocError> {
    flag(
        alloc,
        "zero",
        "Read entries that end with a zero byte, as find -print0 writes them, in place of lines",
    )
    .conflicts_with("check")
}

fn save<'a>(alloc: Global) -> Result<Arg<'a>, AllocError> {
    let others: &'a [&'a str] = &["queries", "strict", "json", "check"];
    Arg::new(alloc, "save")
        .long("save")
        .value_name("SNAPSHOT")
        .help(
            "Write a snapshot of the table to a file, or to standard output if that is '-', and answer nothing",
        )
        .conflicts_with_all(others)
}

fn load<'a>(alloc: Global) -> Result<Arg<'a>, AllocError> {
    let others: &'a [&'a str] = &["zero", "check"];
    flag(
        alloc,
        "load",
        "Read a snapshot that --save wrote, in place of lines",
    )
    .conflicts_with_all(others)
}

fn status_of<T>(rt: &HostRuntime, texts: Texts<'_>, matches: &ArgMatches<'_>) -> u8
where
    T: SavedTable + Drop,
    T::Fault: Display + Drop,
    T::LoadFault: From<io::Error> + Display + Drop,
{
    let path = matches.get_str("table").unwrap_or("-");
    let snapshot = matches.get_str("save");
    if matches.get_flag("check") {
        return check_table::<T>(rt, texts.name, path, matches.get_flag("progress"));
    }
    if snapshot.is_none() && are_both_input(rt, texts, matches, path) {
        return ERROR;
    }
    let table = match read_form::<T>(rt, texts.name, matches, path) {
        Ok(table) => table,
        Err(status) => return status,
    };
    match snapshot {
        Some(snapshot) => save_table(rt, texts.name, &table, snapshot),
        None => answer_all(rt, texts, matches, &table),
    }
}

// Reads the table of a file in the form that the command line says.
fn read_form<T>(
    rt: &HostRuntime,
    program: &str,
    matches: &ArgMatches<'_>,
    path: &str,
) -> Result<T, u8>
where
    T: SavedTable + Drop,
    T::Fault: Display + Drop,
    T::LoadFault: From<io::Error> + Display + Drop,
{
    let is_shown = matches.get_flag("progress");
    if matches.get_flag("load") {
        let source = source_of(path);
        return match load_file::<T>(rt, Place { program, source }, path, is_shown) {
            Ok(table) => Ok(table),
            Err(fault) => Err(report(rt, program, source, fault)),
        };
    }
    let end = if matches.get_flag("zero") {
        End::Zero
    } else {
        End::LineFeed
    };
    read_table::<T>(rt, program, end, path, is_shown)
}

// Loads the table of a file, or of standard input if that is `-`.
fn load_file<T>(
    rt: &HostRuntime,
    place: Place<'_>,
    path: &str,
    is_shown: bool,
) -> Result<T, T::LoadFault>
where
    T: SavedTable + Drop,
    T::LoadFault: From<io::Error> + Drop,
{
    let alloc = rt.alloc();
    if path == "-" {
        let input = BufReader::new(alloc, rt.reader())?;
        return T::load(alloc, input);
    }
    T::load(alloc, progress::open(rt, place, is_shown)?)
}

// Saves a table in a file, or writes it to standard output if that is `-`. Returns the exit status.
fn save_table<T: SavedTable>(rt: &HostRuntime, program: &str, table: &T, path: &str) -> u8 {
    let alloc = rt.alloc();
    if path == "-" {
        return match save_opened(alloc, table, BufWriter::new(alloc, io::writer(rt))) {
            Ok(()) => 0,
            Err(error) => report_unwritten(rt, program, error),
        };
    }
    let opened = fs::create(rt, path).and_then(|file| BufWriter::new(alloc, file));
    match save_opened(alloc, table, opened) {
        Ok(()) => 0,
        Err(error) => report(rt, program, path, error),
    }
}

fn save_opened<T: SavedTable, W: Write + Drop>(
    alloc: Global,
    table: &T,
    opened: io::Result<BufWriter<W>>,
) -> io::Result<()> {
    let mut output = opened?;
    table.save(alloc, &mut output)?;
    output.flush()
}
