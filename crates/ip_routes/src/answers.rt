//! What a table of routes has of a text, and how it answers addresses.
ghost use Rattle.std.specs.Prelude.{◌≡◌, ◌++◌, All, IfNone, IfSome, List, codes, false, ℕ};
ghost use Rattle.std.specs.Net.Grammar.{IsIpText};
ghost use Rattle.text_lines.specs.Lines.{lines};
ghost use Rattle.line_programs.specs.Entries.{trimmed_entry};
ghost use Rattle.line_programs.specs.LineTables.{AreLookedUp, AreOf, IsLookedUp};
ghost use Rattle.ip_routes.specs.Faults.{IsOutOfMemory};
ghost use Rattle.ip_routes.specs.Replies.{HasAnswer, IsNoAddress, IsRouteReply};
ghost use Rattle.ip_routes.specs.LookUps.{HasLineAt, IsPlaceIn};
ghost use Rattle.ip_routes.specs.RouteTables.{AreRoutesOf, IsRouteFault, IsRouteTable};

use crate::lines::{LineError, Lines, Place, line_at};
use crate::routes::Routes;
use line_programs::entries::trimmed_entry;
use line_programs::line_tables::{LineTable, Outcome, Reply};
use std::alloc::Global;
use std::io::Write;
use std::net::IpAddr;
use std::{io, mem};
use text_lines::lines::first_line;

/// A table of routes: the lines that were added so far, and once they are complete the routes of all of them.
#[derive(Drop)]
pub struct Table {
    pub(crate) lines: Lines,
    pub(crate) routes: Routes,
}

/// A line of the table is that of a route, and no two have the same network; blank lines and comments have none. A line
/// that is an address gets the line of the longest route that covers it, or `none`.
impl LineTable for Table {
    type Fault = LineError;

    ghost entry_of = { trimmed_entry };

    ghost HasLines = { λ table entries. AreRoutesOf entries table.lines };

    ghost IsRead = { λ table entries. IsRouteTable entries table.routes };

    ghost IsFaultAfter = { IsRouteFault };

    ghost IsOutOfMemory = { IsOutOfMemory };

    ghost IsReplyTo = { λ table. IsRouteReply table.routes };

    ghost Finds = { λ table. HasAnswer table.routes };

    ghost AsksForNothing = { IsNoAddress };

    fn entry(line: &[u8]) -> Option<&[u8]> {
        trimmed_entry(line)
    }

    fn start(alloc: Global) -> Self {
        Table {
            lines: Lines::new(alloc),
            routes: Routes::new(alloc),
        }
    }

    fn add(&mut self, _alloc: Global, line: &[u8], number: u64) -> Result<(), LineError> {
        self.lines.add(line, number)
    }

    fn finish(&mut self, alloc: Global) -> Result<(), (u64, LineError)> {
        let lines = mem::replace(&mut self.lines, Lines::new(alloc));
        match lines.into_routes(alloc) {
            Ok(routes) => {
                self.routes = routes;
                Ok(())
            }
            Err(refused) => Err(refused),
        }
    }

    fn answer<W: Write>(&self, line: &[u8], output: &mut W) -> io::Result<Outcome> {
        match find_reply(&self.routes, line) {
            Some(reply) => reply.write(output),
            None => Ok(Outcome::Invalid),
        }
    }

    fn look_up(&self, alloc: Global, text: &[u8]) -> Vec<Reply<'_>> {
        let addresses = first_addresses(alloc, text);
        replies_to(alloc, &self.routes, &addresses)
    }

    fn is_of_line(fault: &LineError) -> bool {
        match fault {
            LineError::Route(_) | LineError::Twice(_) | LineError::TooLong => true,
            LineError::NoMemory => false,
        }
    }
}

// Returns the line of the longest route that covers the address of a line, or `none`; `None` if the line is no address.
fn find_reply<'a>(routes: &'a Routes, line: &[u8]) -> Option<Reply<'a>>
    ensures reply { IfSome result (IsLookedUp (IsRouteReply routes.now) (HasAnswer routes.now) line.now) }
    ensures none { IfNone result (IsNoAddress line.now) }
{
    let Ok(address) = IpAddr::parse_ascii(line) else {
        return None;
    };
    Some(reply_to(routes, &address))
}

// Returns the line of the longest route that covers an address, or `none`.
fn reply_to<'a>(routes: &'a Routes, address: &IpAddr) -> Reply<'a>
    ensures { (line : List ℕ) → IsIpText line address.now →
        IsLookedUp (IsRouteReply routes.now) (HasAnswer routes.now) line result }
{
    match routes.find(address) {
        Some(text) => Reply {
            text,
            is_found: true,
        },
        None => no_route(),
    }
}

// Returns the reply to an address that no route covers.
fn no_route() -> Reply<'static>
    ensures text { result.text.now ≡ codes "none" }
    ensures found { result.is_found ≡ false }
{
    Reply {
        text: b"none",
        is_found: false,
    }
}

// Returns the addresses of the first lines of a text, up to a line that is none or that no line feed ends, or a failed
// allocation. The text goes on with bytes that are not read yet.
fn first_addresses(alloc: Global, text: &[u8]) -> Vec<IpAddr>
    ensures { (more : List ℕ) → AreOf IsIpText result.items (lines (text.now ++ more)) }
{
    let mut addresses = Vec::new(alloc);
    let mut left = text;
    while let Some((line, others)) = first_line(left) {
        let Ok(address) = IpAddr::parse_ascii(line) else {
            return addresses;
        };
        let Ok(()) = addresses.push(address) else {
            return addresses;
        };
        left = others;
    }
    addresses
}

// Returns the replies to lines by their addresses, up to a failed allocation. All are searched before the place of a line is
// read, and those are read one after another, so that the processor reads the memory of several at once.
fn replies_to<'a>(alloc: Global, routes: &'a Routes, addresses: &[IpAddr]) -> Vec<Reply<'a>>
    ensures { (asked : List (List ℕ)) → AreOf IsIpText addresses.now asked →
        AreLookedUp (IsRouteReply routes.now) (HasAnswer routes.now) result.items asked }
{
    let Ok(places) = routes.networks.longest_values(alloc, addresses) else {
        return Vec::new(alloc);
    };
    replies_at(alloc, &routes.text, &places)
}

// Returns the replies with the lines at these places, up to a failed allocation.
fn replies_at<'a>(alloc: Global, text: &'a [u8], places: &[Option<&Place>]) -> Vec<Reply<'a>>
    requires { All (IsPlaceIn text.now) places.now }
    ensures { AreOf (HasLineAt text.now) result.items places.now }
{
    let Ok(mut replies) = Vec::with_capacity(alloc, places.len()) else {
        return Vec::new(alloc);
    };
    for place in places {
        let Ok(()) = replies.push(reply_at(text, *place)) else {
            return replies;
        };
    }
    replies
}

// Returns the reply with the line at a place, or `none`.
fn reply_at<'a>(text: &'a [u8], place: Option<&Place>) -> Reply<'a>
    requires { IsPlaceIn text.now place }
    ensures { HasLineAt text.now place.entry result }
{
    match place {
        Some(place) => Reply {
            text: line_at(text, *place),
            is_found: true,
        },
        None => no_route(),
    }
}
