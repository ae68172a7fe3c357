//! `artrun`: an adaptive radix tree that the lines of a file or of standard input build.
#![tactic(auto)]

use art_engine::engine::serve;
use clap::error::ErrorKind;
use clap::{Arg, ArgMatches, Command};
use line_programs::running::{
    ERROR, VERSION, print_usage, report, report_unwritten, source_of, words,
};
use line_programs::watching::Watched;
use std::alloc::{AllocError, Global};
use std::io::{BufReader, BufWriter, Read};
use std::process::ExitCode;
use std::{fs, io};

const NAME: &str = "artrun";

// The exit status if something can't be read or written, or an allocation fails.
const FAILED: u8 = 1;

const DETAILS: &str =
    "artrun carries out each line of FILE on an adaptive radix tree, and prints the reply before it waits for the next line.
Without FILE, or where it is '-', it reads standard input.

A line is one of these. A KEY is '-', the empty key, or its bytes in decimal joined by dots. A VALUE is a number up to
4294967295. One space stands between two words.

  insert KEY VALUE  inserts a pair; an equal key stays, with this value
  prefix KEY VALUE  the pair replaces those with keys that are prefixes of KEY or start with it
  delete KEY        removes a pair
  first, last       removes the pair with the least key, or the greatest
  clone             replaces the tree by a clone
  find KEY          whether the key is stored
  longest KEY       the length of the stored key that is a prefix of KEY
  walk, back        all pairs from the least key, or from the greatest
  check             checks the tree, and prints the numbers of leaves and inner nodes
  nodes             a line for each node

The reply to any other line is 'line N: refused', and artrun reads no further.

Example:
  $ printf 'insert 7.1 5\\nlongest 7.1.9\\n' | artrun
  inserted
  match 2";

const STATUSES: &str = "Exit status:
  0  each line was carried out
  1  the input can't be read, the output can't be written, or an allocation failed
  2  an invalid line or command line
  141  the output was closed";

fn main(rt: HostRuntime) -> ExitCode {
    let status = match words(&rt) {
        Ok(words) => status_of_words(&rt, words.as_slice()),
        Err(error) => failed(report(&rt, NAME, "the command line", error)),
    };
    ExitCode::from(status)
}

// The status of a failure that is reported with this status.
fn failed(status: u8) -> u8 {
    if status == ERROR { FAILED } else { status }
}

fn status_of_words(rt: &HostRuntime, words: &[String]) -> u8 {
    let Ok(command) = command(rt.alloc()) else {
        return failed(report(rt, NAME, "the command line", AllocError));
    };
    match command.try_get_matches_from(words) {
        Ok(matches) => status_of(rt, &matches),
        Err(error) => print_other(rt, error),
    }
}

fn command<'a>(alloc: Global) -> Result<Command<'a>, AllocError> {
    let file = Arg::new(alloc, "file").value_name("FILE").help(
        "The file with the lines; '-' is standard input, which is read if there is no FILE",
    );
    Command::new(alloc, NAME)
        .bin_name(NAME)?
        .version(VERSION)
        .about("Builds an adaptive radix tree by commands")
        .long_about(DETAILS)
        .after_help(STATUSES)
        .arg(file)
}

// Prints what is wrong with a command line, or its help or version. Returns the exit status.
fn print_other(rt: &HostRuntime, error: clap::Error) -> u8 {
    let is_invalid = error.use_stderr() && error.kind() != ErrorKind::OutOfMemory;
    let status = print_usage(rt, NAME, error);
    if is_invalid { status } else { failed(status) }
}

// Carries out the lines of the file that the command line names, or of standard input.
fn status_of(rt: &HostRuntime, matches: &ArgMatches<'_>) -> u8 {
    let alloc = rt.alloc();
    let path = matches.get_str("file").unwrap_or("-");
    if path == "-" {
        return serve_opened(rt, path, BufReader::new(alloc, rt.reader()));
    }
    let opened = fs::open(rt, path).and_then(|file| BufReader::new(alloc, file));
    serve_opened(rt, path, opened)
}

fn serve_opened<R: Read + Drop>(
    rt: &HostRuntime,
    path: &str,
    opened: io::Result<BufReader<R>>,
) -> u8 {
    let mut input = match opened {
        Ok(input) => input,
        Err(error) => return failed(report(rt, NAME, source_of(path), error)),
    };
    let mut output = match BufWriter::new(rt.alloc(), Watched::new(io::writer(rt))) {
        Ok(output) => output,
        Err(error) => return failed(report_unwritten(rt, NAME, error)),
    };
    match serve(rt.alloc(), &mut input, &mut output) {
        Ok(ending) => ending.status(),
        Err(error) if output.get_ref().has_failed() => failed(report_unwritten(rt, NAME, error)),
        Err(error) => failed(report(rt, NAME, source_of(path), error)),
    }
}
