//! A map of networks with values, which changes.
ghost use Rattle.std.specs.Prelude.{◌≡◌, ◌≢◌, [], Err, IfErr, IfOk, IfSome, None, Ok, OnErr, OnOk, Some, option_copied};
ghost use Rattle.std.specs.Option.{option_map};
ghost use Rattle.prefix_table.specs.Entries.{IsLongestMatch, shown};
ghost use Rattle.prefix_table.specs.Networks.{IsNetwork};
ghost use Rattle.route_map.specs.Routes.{IsLastUpTo, KeepsOthers, value_of};

use crate::keys::{FourKey, SixKey, four_key, network_of_four, network_of_six, six_key};
use art_keyed::map::{PairRefused, TreeMap};
use prefix_table::network::{Network, address_of, covers, width};
use prefix_table::steps::{cut, next_length};
use std::alloc::Global;
use std::marker::Model;
use std::net::IpAddr;
use std::ops::Bound;

/// A map of networks with values. Contracts see the list of the networks in order, each with its value: by version, then
/// by number, then by length.
#[derive(Drop)]
pub struct RouteMap<V> {
    four: TreeMap<FourKey, V, 4>,
    six: TreeMap<SixKey, V, 4>,
}

impl<V> Model for RouteMap<V> {
    ghost use Rattle.std.specs.Prelude.{List};
    ghost use Rattle.prefix_table.specs.declared.network.Network.{Network};
    ghost use Rattle.route_map.specs.Routes.{AreNetworks, entries_of};

    ghost Value = { List (Network × V) };

    ghost view = { λ m. entries_of m.four m.six };

    ghost invariant = { λ m. AreNetworks m.four m.six };
}

impl<V: Drop> RouteMap<V> {
    /// Returns an empty map, without an allocation.
    pub fn new(alloc: Global) -> Self
        ensures { result ≡ [] }
    {
        RouteMap {
            four: TreeMap::new(alloc),
            six: TreeMap::new(alloc),
        }
    }

    /// Returns the value of a network, or `None` if the map doesn't have it, with a single descent.
    pub fn get(&self, network: Network) -> Option<&V>
        requires { IsNetwork network }
        ensures { option_copied result ≡ value_of network self.now }
    {
        if network.version == 4 {
            self.four.get(&four_key(network))
        } else {
            self.six.get(&six_key(network))
        }
    }

    /// Gives a network a value, and returns the one that it had. Fails only if an allocation fails: the error returns the
    /// pair, and the map is unchanged.
    pub fn insert(
        &mut self,
        network: Network,
        value: V,
    ) -> Result<Option<V>, PairRefused<Network, V>>
        requires { IsNetwork network }
        ensures found { OnOk result (value_of network self.new ≡ Some value) }
        ensures others { OnOk result (KeepsOthers network self.old self.new) }
        ensures replaced { IfOk result (λ replaced. replaced ≡ value_of network self.old) }
        ensures handed_back { IfErr result (λ refused.
            (refused.key ≡ network) × (refused.value ≡ value)) }
        ensures kept { OnErr result (self.new ≡ self.old) }
    {
        if network.version == 4 {
            of_network(network, self.four.insert(four_key(network), value))
        } else {
            of_network(network, self.six.insert(six_key(network), value))
        }
    }

    /// Removes a network, and returns its value, or `None` if the map doesn't have it. It allocates nothing and never
    /// fails.
    pub fn remove(&mut self, network: Network) -> Option<V>
        requires { IsNetwork network }
        ensures removed { result ≡ value_of network self.old }
        ensures gone { value_of network self.new ≡ None }
        ensures others { KeepsOthers network self.old self.new }
    {
        if network.version == 4 {
            value_alone(self.four.remove(&four_key(network)))
        } else {
            value_alone(self.six.remove(&six_key(network)))
        }
    }

    /// Returns the longest network that covers an address, and its value, or `None` if none does. It allocates nothing.
    ///
    /// It looks for the last network up to all bits of the address, and where that doesn't cover it, up to those bits that
    /// both share: one descent for each, and mostly there are one to three.
    pub fn longest_match(&self, address: &IpAddr) -> Option<(Network, &V)>
        ensures longest { IsLongestMatch self.now address.now (option_map shown result) }
        ensures network { IfSome result (λ found. IsNetwork found.0) }
    {
        let _four = &self.four;
        let address = address_of(address);
        let mut length = width(address.version);
        'outwards: loop {
            let (found, value) = self.last_up_to(cut(address, length))?;
            if covers(found, address) {
                return Some((found, value));
            }
            let shorter = next_length(found, address, length)?;
            length = shorter;
        }
    }

    // Returns the last network up to another one of its version.
    fn last_up_to(&self, network: Network) -> Option<(Network, &V)>
        requires { IsNetwork network }
        ensures { IsLastUpTo self.now network (option_map shown result) }
    {
        if network.version == 4 {
            self.last_four(network)
        } else {
            self.last_six(network)
        }
    }

    // The same where the version is 4.
    fn last_four(&self, network: Network) -> Option<(Network, &V)>
        requires network { IsNetwork network }
        requires version { network.version ≡ 4 }
        ensures { IsLastUpTo self.now network (option_map shown result) }
    {
        let _six = &self.six;
        self.four.rises();
        let key = four_key(network);
        let (found, value) = self.four.last_up_to(Bound::Included(&key))?;
        Some((network_of_four(found), value))
    }

    // The same where the version is 6.
    fn last_six(&self, network: Network) -> Option<(Network, &V)>
        requires network { IsNetwork network }
        requires version { network.version ≡ 6 }
        ensures { IsLastUpTo self.now network (option_map shown result) }
    {
        let _four = &self.four;
        self.six.rises();
        let key = six_key(network);
        let (found, value) = self.six.last_up_to(Bound::Included(&key))?;
        Some((network_of_six(found), value))
    }
}

// Returns the value of a pair.
fn value_alone<K: Drop, V>(pair: Option<(K, V)>) -> Option<V>
    ensures { result ≡ option_map (λ pair. pair.1) pair }
{
    let (_key, value) = pair?;
    Some(value)
}

// Returns what an insertion returned, with the network in the place of its key.
fn of_network<K: Drop, V>(
    network: Network,
    inserted: Result<Option<(K, V)>, PairRefused<K, V>>,
) -> Result<Option<V>, PairRefused<Network, V>>
    ensures replaced { IfOk inserted (λ pair. result ≡ Ok (option_map (λ pair. pair.1) pair)) }
    ensures refused { IfErr inserted (λ refused.
        result ≡ Err (record { key = network; value = refused.value })) }
{
    match inserted {
        Ok(replaced) => Ok(value_alone(replaced)),
        Err(refused) => Err(PairRefused {
            key: network,
            value: refused.value,
        }),
    }
}
