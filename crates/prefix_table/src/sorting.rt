//! Networks in order, and the first one that occurs twice.
ghost use Rattle.std.specs.Prelude.{◌≡◌, ◌^◌, ◌<◌, length, map, IfOk};
ghost use Rattle.std.specs.List.Sorted.{IsPermutation};
ghost use Rattle.prefix_table.specs.Sorting.{AreSorted, IsFirstPairOf, nearer, numbered, place_of};

use crate::network::Network;
use crate::rows::{Row, network_of};
use std::alloc::{AllocError, Global};

/// Returns networks in order, each with its place in the list.
pub fn sorted_rows(alloc: Global, networks: &[Network]) -> Result<Vec<Row>, AllocError>
    requires { length networks.now < 2 ^ 32 }
    ensures same { IfOk result (λ rows. IsPermutation (numbered 0 networks.now) rows.items) }
    ensures order { IfOk result (λ rows. AreSorted rows.items) }
{
    let mut rows = numbered_rows(alloc, networks)?;
    sort(&mut rows);
    Ok(rows)
}

// Returns networks with their places.
#[tactic(auto, using(crate::proofs::SortingLemmas::next_numbered))]
fn numbered_rows(alloc: Global, networks: &[Network]) -> Result<Vec<Row>, AllocError>
    requires { length networks.now < 2 ^ 32 }
    ensures { IfOk result (λ rows. rows.items ≡ numbered 0 networks.now) }
{
    let mut rows = Vec::with_capacity(alloc, networks.len())?;
    for (place, network) in networks.iter().enumerate() {
        rows.push(Row {
            number: network.number,
            place: place as u32,
            version: network.version,
            length: network.length,
        })?;
    }
    Ok(rows)
}

// Sorts rows by their networks, and those of one network by place.
fn sort(rows: &mut [Row])
    ensures same { IsPermutation rows.old rows.new }
    ensures order { AreSorted rows.new }
{
    rows.sort_unstable_by_key(|row| (row.version, row.number, row.length, row.place));
}

/// Returns the places of rows.
pub fn places_of(alloc: Global, rows: &[Row]) -> Result<Vec<u32>, AllocError>
    ensures { IfOk result (λ places. places.items ≡ map place_of rows.now) }
{
    rows.iter().map(|row| row.place).collect(alloc)
}

/// Returns the places of a network that occurs twice, the first of which that follows an equal one.
pub fn first_pair(rows: &[Row]) -> Option<(u32, u32)>
    ensures { IsFirstPairOf rows.now (length rows.now) result }
{
    let mut found: Option<(u32, u32)> = None;
    for at in 0..rows.len().saturating_sub(1) {
        let (earlier, later) = (rows[at], rows[at + 1]);
        if network_of(earlier) == network_of(later) {
            found = nearer(found, earlier.place, later.place);
        }
    }
    found
}

// Returns these places, unless the pair has an earlier second one.
fn nearer(pair: Option<(u32, u32)>, first: u32, second: u32) -> Option<(u32, u32)>
    ensures { result ≡ nearer pair first second }
{
    match pair {
        Some(found) if found.1 <= second => pair,
        _ => Some((first, second)),
    }
}
