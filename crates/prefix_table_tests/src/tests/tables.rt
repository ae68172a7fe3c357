//! Tables that tests build.
ghost use Rattle.std.specs.Prelude.{◌≡◌, All, IfSome, length, vec_len};
ghost use Rattle.prefix_table.specs.Networks.{IsNetwork};

use prefix_table::network::Network;
use prefix_table::table::PrefixTable;
use std::alloc::Global;
use std::net::IpAddr;

/// A network as an address and a length.
pub type Written = (&'static str, u8);

/// Returns the networks of these texts, or `None` if one is not a network.
pub fn networks_of(alloc: Global, texts: &[Written]) -> Option<Vec<Network>>
    ensures { IfSome result (λ networks. All IsNetwork networks.items) }
{
    let mut networks = Vec::new(alloc);
    for text in texts {
        networks.push(network_of(*text)?).ok()?;
    }
    Some(networks)
}

/// Returns the network of a text.
pub fn network_of(text: Written) -> Option<Network>
    ensures { IfSome result IsNetwork }
{
    let Ok(address) = text.0.parse::<IpAddr>() else {
        return None;
    };
    Network::new(&address, text.1)
}

/// Returns the numbers from 0 up to `count`.
pub fn places(alloc: Global, count: usize) -> Option<Vec<usize>>
    ensures { IfSome result (λ places. vec_len places ≡ count) }
{
    let mut places = Vec::new(alloc);
    for place in 0..count {
        places.push(place).ok()?;
    }
    Some(places)
}

/// Returns a table of networks, each with its place in the list.
pub fn table_of(alloc: Global, texts: &[Written]) -> Option<PrefixTable<usize>> {
    let networks = networks_of(alloc, texts)?;
    let places = places(alloc, networks.len())?;
    PrefixTable::build(alloc, &networks, places).ok()
}
