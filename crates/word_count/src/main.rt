//! Prints each word of some texts with how often it occurs.
#![tactic(auto)]

use clap::{Arg, ArgAction, ArgMatches, Command, value_parser};
use line_programs::messages::{Place, write_message};
use line_programs::progress;
use line_programs::running::{
    ERROR, STATUS_OF_ERRORS, VERSION, print_usage, report, report_unwritten, source_of, words,
};
use std::alloc::{AllocError, Global};
use std::io;
use std::io::{BufReader, BufWriter, Read, Write};
use std::process::ExitCode;
use text_programs::word_counts::counts::{Counts, count_text, write_counts};
use text_programs::word_counts::merging::{MergeError, add_counts};
use text_programs::word_counts::top::write_most_frequent;

const NAME: &str = "word_count";

const DETAILS: &str =
    "word_count prints each word of all FILEs together with how often it occurs, a line each, in the order of bytes.

Words are separated by white space and zero bytes. With --merge each FILE is what word_count printed, and the numbers of
a word are added up. So counts of parts of a text become that of the text.

Example:
  $ word_count /etc/hosts
  1 127.0.0.1
  1 localhost";

fn main(rt: HostRuntime) -> ExitCode {
    let status = match words(&rt) {
        Ok(words) => status_of_words(&rt, words.as_slice()),
        Err(error) => report(&rt, NAME, "the command line", error),
    };
    ExitCode::from(status)
}

fn status_of_words(rt: &HostRuntime, words: &[String]) -> u8 {
    let Ok(command) = command(rt.alloc()) else {
        return report(rt, NAME, "the command line", AllocError);
    };
    match command.try_get_matches_from(words) {
        Ok(matches) => status_of(rt, &matches),
        Err(error) => print_usage(rt, NAME, error),
    }
}

fn command<'a>(alloc: Global) -> Result<Command<'a>, AllocError> {
    Command::new(alloc, NAME)
        .bin_name(NAME)?
        .version(VERSION)
        .about("Counts the words of texts")
        .long_about(DETAILS)
        .after_help(STATUS_OF_ERRORS)
        .arg(files(alloc))?
        .arg(top(alloc))?
        .arg(merge(alloc))?
        .arg(progress::option(alloc))
}

fn files<'a>(alloc: Global) -> Arg<'a> {
    Arg::new(alloc, "files")
        .num_args(0..)
        .value_name("FILE")
        .help("A text to count; '-' is standard input, which is counted if there is no FILE")
}

fn top<'a>(alloc: Global) -> Arg<'a> {
    Arg::new(alloc, "top")
        .long("top")
        .value_name("N")
        .value_parser(value_parser!(usize))
        .help("Print the N most frequent words, the most frequent first")
}

fn merge<'a>(alloc: Global) -> Arg<'a> {
    Arg::new(alloc, "merge")
        .long("merge")
        .action(ArgAction::SetTrue)
        .help("Add up counts that word_count printed")
}

// How files are read.
#[derive(Clone, Copy)]
struct How {
    is_merge: bool,
    is_shown: bool,
}

// Counts the words of all files, or adds up their counts, and prints the counts if all could be read.
fn status_of(rt: &HostRuntime, matches: &ArgMatches<'_>) -> u8 {
    let mut counts = Counts::new(rt.alloc());
    let how = How {
        is_merge: matches.get_flag("merge"),
        is_shown: matches.get_flag("progress"),
    };
    for path in matches.get_strs("files").unwrap_or(["-"].as_slice()) {
        if let Err(error) = read_file(rt, &mut counts, how, path) {
            return report_unread(rt, source_of(path), error);
        }
    }
    match print_counts(rt, &counts, matches.get_one("top")) {
        Ok(()) => 0,
        Err(error) => report_unwritten(rt, NAME, error),
    }
}

fn read_file(
    rt: &HostRuntime,
    counts: &mut Counts,
    how: How,
    path: &str,
) -> Result<(), MergeError> {
    let alloc = rt.alloc();
    if path == "-" {
        return read_opened(
            alloc,
            counts,
            how.is_merge,
            BufReader::new(alloc, rt.reader()),
        );
    }
    let opened = progress::open(rt, place_of(path), how.is_shown);
    read_opened(alloc, counts, how.is_merge, opened)
}

fn read_opened<R: Read + Drop>(
    alloc: Global,
    counts: &mut Counts,
    is_merge: bool,
    opened: io::Result<BufReader<R>>,
) -> Result<(), MergeError> {
    let mut input = opened.map_err(MergeError::Input)?;
    if is_merge {
        return add_counts(counts, alloc, &mut input);
    }
    count_text(counts, alloc, &mut input).map_err(MergeError::Input)
}

fn place_of(source: &str) -> Place<'_> {
    Place {
        program: NAME,
        source,
    }
}

// Prints why a file was not read to its end.
fn report_unread(rt: &HostRuntime, source: &str, error: MergeError) -> u8 {
    let (number, line) = match error {
        MergeError::Input(error) => return report(rt, NAME, source, error),
        MergeError::Line(number, line) => (number, line),
    };
    let fault = "not a count and a word";
    let _ = write_message(
        &mut rt.stderr(),
        place_of(source),
        number,
        fault,
        line.as_slice(),
    );
    ERROR
}

fn print_counts(rt: &HostRuntime, counts: &Counts, most: Option<usize>) -> io::Result<()> {
    let mut output = BufWriter::new(rt.alloc(), io::writer(rt))?;
    match most {
        Some(most) => write_most_frequent(&mut output, rt.alloc(), counts, most)?,
        None => write_counts(&mut output, counts)?,
    }
    output.flush()
}
