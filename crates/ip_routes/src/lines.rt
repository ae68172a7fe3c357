//! The lines of a table, and the networks that they write.
ghost use Rattle.std.specs.Prelude.{◌≡◌, ◌+◌, ◌^◌, ◌<◌, ◌≤◌, [], length, map, All, AllPairs, IfErr, IfOk, OnErr, OnOk};
ghost use Rattle.std.specs.Bool.{OnFalse, OnTrue};
ghost use Rattle.std.specs.List.Sorted.{IsPermutation};
ghost use Rattle.prefix_table.specs.Networks.{IsNetwork, Precedes};
ghost use Rattle.prefix_table.specs.Entries.{IsBuildFault};
ghost use Rattle.ip_routes.specs.Routes.{AreAnswersOf};
ghost use Rattle.ip_routes.specs.Faults.{Adds, IsFaultBeside, IsRefusal};
ghost use Rattle.ip_routes.specs.Sources.{HasRoom, IsPlace, entry_of, line_at, network_of, place_of, refusal_of};

use crate::route::{RouteError, parse_route};
use crate::routes::Routes;
use prefix_table::network::Network;
use prefix_table::table::{BuildFault, PrefixTable};
use std::alloc::{AllocError, Global};
use std::marker::Model;
use thiserror::Error;

/// Why a line was not added, or why lines are no table.
#[derive(Clone, Copy, PartialEq, Eq, Debug, Drop, Error)]
pub enum LineError {
    #[error("{0}")]
    Route(RouteError),
    #[error("the same network as in line {0}")]
    Twice(u64),
    #[error("the lines up to this one are 2^32 or more, or have 2^32 bytes or more")]
    TooLong,
    #[error("out of memory")]
    NoMemory,
}

/// Where a line is in the text of all lines.
#[derive(Clone, Copy)]
pub struct Place {
    pub from: u32,
    pub to: u32,
}

/// Returns the line at a place.
pub fn line_at(text: &[u8], place: Place) -> &[u8]
    requires { IsPlace text.now place }
    ensures { result.now ≡ line_at text.now place }
{
    &text[place.from as usize..place.to as usize]
}

/// What is known of a line: the network that it writes, its number, and where it is.
#[derive(Clone, Copy)]
pub struct Source {
    pub network: Network,
    pub number: u64,
    pub place: Place,
}

/// Lines that write networks. Contracts see the list of their routes. The lines stand in one block of memory.
#[derive(Drop)]
pub struct Lines {
    text: Vec<u8>,
    sources: Vec<Source>,
}

impl Model for Lines {
    ghost use Rattle.std.specs.Prelude.{List};
    ghost use Rattle.ip_routes.specs.Routes.{Route};
    ghost use Rattle.ip_routes.specs.Sources.{AreSources, routes_of};

    ghost Value = { List Route };

    ghost view = { λ t. routes_of t.text.items t.sources.items };

    ghost invariant = { λ t. AreSources t.text.items t.sources.items };
}

impl Lines {
    /// Returns no line, without an allocation.
    pub fn new(alloc: Global) -> Self
        ensures { result ≡ [] }
    {
        Lines {
            text: Vec::new(alloc),
            sources: Vec::new(alloc),
        }
    }

    /// Adds the line of a number. On an error nothing is added.
    pub fn add(&mut self, line: &[u8], number: u64) -> Result<(), LineError>
        ensures added { OnOk result (Adds line.now number self.old self.new) }
        ensures fault { IfErr result (IsFaultBeside self.old line.now) }
        ensures kept { OnErr result (self.new ≡ self.old) }
    {
        let network = match parse_route(line) {
            Ok(network) => network,
            Err(error) => return Err(LineError::Route(error)),
        };
        if !has_room(&self.text, &self.sources, line) {
            return Err(LineError::TooLong);
        }
        let Ok(()) = self.sources.reserve(1) else {
            return Err(LineError::NoMemory);
        };
        let from = self.text.len() as u32;
        let Ok(()) = self.text.extend_from_slice(line) else {
            return Err(LineError::NoMemory);
        };
        let to = self.text.len() as u32;
        self.sources.push_reserved(Source {
            network,
            number,
            place: Place { from, to },
        });
        Ok(())
    }

    /// Returns the table of all routes. An error has the number of the first line whose network an earlier line has.
    pub fn into_routes(self, alloc: Global) -> Result<Routes, (u64, LineError)>
        ensures routes { IfOk result (AreAnswersOf self) }
        ensures fault { IfErr result (λ refused. IsRefusal self refused.0 refused.1) }
    {
        let Lines { mut text, sources } = self;
        text.shrink_to_fit();
        let networks = match build(alloc, &sources) {
            Ok(networks) => networks,
            Err(fault) => return Err(refusal(&sources, fault)),
        };
        Ok(Routes { text, networks })
    }
}

// Returns whether places have room for another line.
fn has_room(text: &[u8], sources: &[Source], line: &[u8]) -> bool
    ensures yes { OnTrue result (HasRoom text.now sources.now line.now) }
    ensures no { OnFalse result (¬ HasRoom text.now sources.now line.now) }
{
    let most = u32::MAX as usize;
    sources.len() < most && text.len() <= most && line.len() <= most - text.len()
}

// Returns the table of the networks with the places of their lines.
fn build(alloc: Global, sources: &[Source]) -> Result<PrefixTable<Place>, BuildFault>
    requires { All (λ source. IsNetwork source.network) sources.now }
    ensures entries { IfOk result (λ table. IsPermutation (map entry_of sources.now) table) }
    ensures order { IfOk result (AllPairs (λ a b. Precedes a.0 b.0)) }
    ensures fault { IfErr result (IsBuildFault (map network_of sources.now)) }
{
    let Ok(networks) = networks_of(alloc, sources) else {
        return Err(BuildFault::NoMemory);
    };
    let Ok(places) = places_of(alloc, sources) else {
        return Err(BuildFault::NoMemory);
    };
    match PrefixTable::build(alloc, &networks, places) {
        Ok(table) => Ok(table),
        Err(error) => Err(error.fault),
    }
}

fn networks_of(alloc: Global, sources: &[Source]) -> Result<Vec<Network>, AllocError>
    ensures { IfOk result (λ networks. networks.items ≡ map network_of sources.now) }
{
    sources.iter().map(|source| source.network).collect(alloc)
}

fn places_of(alloc: Global, sources: &[Source]) -> Result<Vec<Place>, AllocError>
    ensures { IfOk result (λ places. places.items ≡ map place_of sources.now) }
{
    sources.iter().map(|source| source.place).collect(alloc)
}

// Returns which line is at fault, and why.
fn refusal(sources: &[Source], fault: BuildFault) -> (u64, LineError)
    requires { IsBuildFault (map network_of sources.now) fault }
    ensures { result ≡ refusal_of sources.now fault }
{
    match fault {
        BuildFault::Twice(first, second) => {
            let earlier = sources[first].number;
            (sources[second].number, LineError::Twice(earlier))
        }
        BuildFault::TooMany | BuildFault::NoMemory => (0, LineError::NoMemory),
    }
}
