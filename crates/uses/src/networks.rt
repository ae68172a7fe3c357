//! Where addresses lead: by networks that stay, in a table that is built once, and by routes that come and go.
ghost use Rattle.std.specs.Prelude.{◌≡◌, ◌++◌, ℕ, List, All, map, None, OnErr, OnOk, Some, IfNone, IfOk, IfSome};
ghost use Rattle.std.specs.declared.net.ip_addr.IpAddr.{IpAddr};
ghost use Rattle.std.specs.List.Sorted.{IsPermutation};
ghost use Rattle.std.specs.Option.{option_map};
ghost use Rattle.prefix_table.specs.declared.network.Network.{Network};
ghost use Rattle.prefix_table.specs.Entries.{IsLongestMatch, shown};
ghost use Rattle.prefix_table.specs.Networks.{IsNetwork};
ghost use Rattle.route_map.specs.Routes.{KeepsOthers, value_of};

use prefix_table::network::Network;
use prefix_table::table::PrefixTable;
use route_map::map::RouteMap;
use std::alloc::{AllocError, Global};
use std::net::IpAddr;

/// A network, and where it leads.
pub type Route = (Network, u32);

/// Builds a table of networks that stay. Returns `None` if one comes twice or an allocation fails.
pub fn build(alloc: Global, routes: &[Route]) -> Option<PrefixTable<u32>>
    requires { All (λ route. IsNetwork route.0) routes.now }
    ensures { IfSome result (IsPermutation routes.now) }
{
    let Ok(networks) = networks_of(alloc, routes) else {
        return None;
    };
    let Ok(targets) = targets_of(alloc, routes) else {
        return None;
    };
    match PrefixTable::build(alloc, &networks, targets) {
        Ok(table) => Some(table),
        Err(_error) => None,
    }
}

fn networks_of(alloc: Global, routes: &[Route]) -> Result<Vec<Network>, AllocError>
    ensures { IfOk result (λ made. made.items ≡ map (λ route. route.0) routes.now) }
{
    routes.iter().map(|route| route.0).collect(alloc)
}

fn targets_of(alloc: Global, routes: &[Route]) -> Result<Vec<u32>, AllocError>
    ensures { IfOk result (λ made. made.items ≡ map (λ route. route.1) routes.now) }
{
    routes.iter().map(|route| route.1).collect(alloc)
}

/// Inserts a route, or changes where it leads. Fails only if an allocation fails; then the routes are unchanged.
pub fn announce(routes: &mut RouteMap<u32>, network: Network, to: u32) -> Result<(), AllocError>
    requires { IsNetwork network }
    ensures announced { OnOk result (value_of network routes.new ≡ Some to) }
    ensures others { OnOk result (KeepsOthers network routes.old routes.new) }
    ensures kept { OnErr result (routes.new ≡ routes.old) }
{
    routes.insert(network, to)?;
    Ok(())
}

/// Removes the longest route that covers an address, and returns it, or `None` if none does.
pub fn withdraw(routes: &mut RouteMap<u32>, address: &IpAddr) -> Option<Route>
    ensures longest { IsLongestMatch routes.old address.now result }
    ensures gone { IfSome result (λ route. value_of route.0 routes.new ≡ None) }
    ensures others { IfSome result (λ route. KeepsOthers route.0 routes.old routes.new) }
    ensures none { IfNone result (routes.new ≡ routes.old) }
{
    let (network, to) = routes.longest_match(address)?;
    let to = *to;
    routes.remove(network);
    Some((network, to))
}

/// Returns the longest network of both that covers an address, and where it leads, or `None` if none does.
pub fn target(routes: &RouteMap<u32>, table: &PrefixTable<u32>, address: &IpAddr) -> Option<Route>
    ensures { IsLongestMatch (routes.now ++ table.now) address.now result }
{
    let route = routes.longest_match(address);
    let other = table.longest_match(address);
    longer(route_of(route), route_of(other))
}

// Returns what was found, with where it leads as a value.
fn route_of(found: Option<(Network, &u32)>) -> Option<Route>
    ensures { result ≡ option_map shown found.entry }
{
    let (network, to) = found?;
    Some((network, *to))
}

// Returns the longer one of the routes that were found in two lists.
fn longer(a: Option<Route>, b: Option<Route>) -> Option<Route>
    ensures { (before after : List (Network × ℕ)) (address : IpAddr) → IsLongestMatch before address a →
        IsLongestMatch after address b → IsLongestMatch (before ++ after) address result }
{
    match (a, b) {
        (None, _) => b,
        (_, None) => a,
        (Some(first), Some(second)) => {
            if first.0.length < second.0.length {
                b
            } else {
                a
            }
        }
    }
}
