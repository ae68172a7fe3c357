//! Addresses as numbers, and the networks that cover them.
ghost use Rattle.std.specs.Prelude.{◌≡◌, ◌≤◌, ◌<◌, ◌^◌, ◌↔◌, ◌-◌, MatchOption};
ghost use Rattle.std.specs.Bool.{OnFalse, OnTrue};
ghost use Rattle.prefix_table.specs.Networks.{IsAddress, IsNetwork, Precedes, address_of, cleared, covers, covers_at, last_of, network_with, start_of, version_of, width};

use std::net::IpAddr;

/// An address as a number, with its version, which is 4 or 6.
#[derive(Clone, Copy, PartialEq, Eq, Debug)]
pub struct Address {
    pub number: u128,
    pub version: u8,
}

/// The addresses of a version that have the first `length` bits of a number.
#[derive(Clone, Copy, PartialEq, Eq, Debug)]
pub struct Network {
    pub number: u128,
    pub version: u8,
    pub length: u8,
}

impl Network {
    /// Returns the network of an address and a length, or `None` if the length is too great or a bit after it is set.
    pub fn new(address: &IpAddr, length: u8) -> Option<Network>
        ensures { let network = network_with (address_of address.now) length in
            MatchOption result (¬ IsNetwork network) (λ made. (made ≡ network) × IsNetwork made) }
    {
        let address = address_of(address);
        let width = width(address.version);
        if length > width || cleared(address.number, width - length) != address.number {
            return None;
        }
        Some(Network {
            number: address.number,
            version: address.version,
            length,
        })
    }
}

/// Returns the version of an address, which is 4 or 6.
pub fn version_of(address: &IpAddr) -> u8
    ensures { result ≡ version_of address.now }
{
    match address {
        IpAddr::V4(_) => 4,
        IpAddr::V6(_) => 6,
    }
}

/// Returns an address as a number.
pub fn address_of(address: &IpAddr) -> Address
    ensures address { result ≡ address_of address.now }
    ensures fits { IsAddress result }
{
    match address {
        IpAddr::V4(ip) => Address {
            number: u128::from(ip.to_bits()),
            version: 4,
        },
        IpAddr::V6(ip) => Address {
            number: ip.to_bits(),
            version: 6,
        },
    }
}

/// Returns how many bits an address of a version has: 32 in version 4, and 128 in version 6.
pub fn width(version: u8) -> u8
    ensures width { result ≡ width version }
    ensures fits { result ≤ 128 }
{
    if version == 4 { 32 } else { 128 }
}

/// Returns a number with its last bits zero.
pub fn cleared(number: u128, count: u8) -> u128
    requires { count ≤ 128 }
    ensures { result ≡ cleared count number }
{
    if count == 128 {
        return 0;
    }
    number >> count << count
}

/// Returns whether a network covers an address.
pub fn covers(network: Network, address: Address) -> bool
    requires { network.length ≤ width network.version }
    ensures { result ≡ covers_at network address }
{
    network.version == address.version
        && network.number == cleared(address.number, width(network.version) - network.length)
}

/// Returns the first address of a network.
pub fn start_of(network: Network) -> Address
    ensures { result ≡ start_of network }
{
    Address {
        number: network.number,
        version: network.version,
    }
}

/// Returns the last address of a network.
pub fn last_of(network: Network) -> Address
    requires { IsNetwork network }
    ensures last { result ≡ last_of network }
    ensures fits { IsAddress result }
{
    let open = width(network.version) - network.length;
    Address {
        number: network.number + ones(open),
        version: network.version,
    }
}

// Returns the number of so many bits, all set.
fn ones(count: u8) -> u128
    requires { count ≤ 128 }
    ensures { result ≡ 2 ^ count - 1 }
{
    if count == 128 {
        return u128::MAX;
    }
    (1 << count) - 1
}

/// Returns whether a network is before another one: by version, then by number, then by length.
pub fn precedes(a: Network, b: Network) -> bool
    ensures yes { OnTrue result (Precedes a b) }
    ensures no { OnFalse result (¬ Precedes a b) }
{
    if a.version != b.version {
        return a.version < b.version;
    }
    if a.number != b.number {
        return a.number < b.number;
    }
    a.length < b.length
}
