//! Finds for each address the longest route of a file that covers it.
#![tactic(auto)]

use ip_routes::answers::Table;
use line_programs::running::{Texts, run};
use std::process::ExitCode;

const DETAILS: &str =
    "For each address route_table prints the line of the longest route of FILE that covers it.

A line of FILE is a network, and perhaps a space and a name, as '10.1.0.0/16 office' or
'2001:db8::/32 lab'. An address without a length is a network that has only this address. Lines that
are blank or start with '#' have no route. Not taken are lengths with a leading zero ('10.0.0.0/08'),
masks ('10.0.0.0/255.0.0.0'), scopes ('fe80::1%lo'), bits after the prefix ('10.0.0.1/8'), and a
network that an earlier line has.

Where no route covers an address it prints 'none'. '::ffff:192.0.2.1' is an address of version 6, which
no route of version 4 covers.

Example:
  $ route_table routes 10.1.2.3
  10.1.0.0/16 office";

fn main(rt: HostRuntime) -> ExitCode {
    let texts = Texts {
        name: "route_table",
        about: "Prints for each address the longest route that covers it",
        details: DETAILS,
        table: "FILE",
        table_help: "The routes, a line each; '-' is standard input",
        query: "ADDRESS",
        query_help: "An address to look up, in place of the lines of standard input",
        fault: "not an address",
    };
    run::<Table>(&rt, texts)
}
