//! Finds for each number the longest code that it starts with, in a table that a file has.
#![tactic(auto)]

use line_programs::running::{Texts, run};
use std::process::ExitCode;
use text_programs::dial_codes::answers::CodeTable;

const DETAILS: &str =
    "For each number dial_plan prints the line of TABLE with the longest code that the number starts with, or 'none'.

A line of TABLE is a code of decimal digits, a space and a name, as '44 United Kingdom'. No two lines have the same code.
Blank lines and lines that start with '#' are passed over.

Example:
  $ dial_plan codes 441481 999
  44 United Kingdom
  none";

fn main(rt: HostRuntime) -> ExitCode {
    let texts = Texts {
        name: "dial_plan",
        about: "Prints for each number the longest code that it starts with",
        details: DETAILS,
        table: "TABLE",
        table_help: "The codes, a line each; '-' is standard input",
        query: "NUMBER",
        query_help: "A number to look up, in place of the lines of standard input",
        fault: "not a number",
    };
    run::<CodeTable>(&rt, texts)
}
