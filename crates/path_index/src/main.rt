//! Answers requests about the paths that a file has, a line each.
#![tactic(auto)]

use line_programs::running::{Texts, run_with_forms};
use std::process::ExitCode;
use text_programs::path_indexes::answers::PathIndex;

const DETAILS: &str =
    "For each request path_index prints what it asks for of the paths of FILE, in the order of their bytes.

A line of FILE is a path, with the spaces that are on it. A carriage return before the line feed is not part of the path.
With --zero a path ends with a zero byte, and may have line feeds and carriage returns.

A snapshot has the paths once each and in order, without the bytes that each shares with the one before it, and a checksum.

Requests:
  under PREFIX    the paths that start with PREFIX
  count PREFIX    how many these are
  at PATH         'yes' if PATH is one of the paths, or else 'no'
  between A B     the paths from A up to but without B; A has no space
  first, last     the first, the last path; nothing if there is none

Example:
  $ find /etc | path_index - 'under /etc/ssh/'
  /etc/ssh/ssh_config
  /etc/ssh/sshd_config
  $ find /etc -print0 | path_index --zero --save etc.paths -
  $ path_index --load etc.paths 'at /etc/ssh/ssh_config'
  yes";

fn main(rt: HostRuntime) -> ExitCode {
    let texts = Texts {
        name: "path_index",
        about: "Answers requests about a list of paths",
        details: DETAILS,
        table: "FILE",
        table_help: "The paths, a line each; '-' is standard input",
        query: "REQUEST",
        query_help: "A request, in place of the lines of standard input",
        fault: "not a request",
    };
    run_with_forms::<PathIndex>(&rt, texts)
}
