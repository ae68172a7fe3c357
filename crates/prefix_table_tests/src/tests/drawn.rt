//! Networks that are drawn by chance, beside a scan of all of them.
ghost use Rattle.std.specs.Prelude.{◌≡◌, ◌≤◌, All, IfSome, vec_len};
ghost use Rattle.prefix_table.specs.Networks.{IsNetwork};

use super::tables::places;
use prefix_table::network::Network;
use prefix_table::table::PrefixTable;
use std::alloc::Global;
use std::net::{IpAddr, Ipv4Addr, Ipv6Addr};
use std::test::Fail;

// Numbers that look random.
fn next(state: u64) -> u64 {
    let mut x = state ^ (state << 13);
    x ^= x >> 7;
    x ^ (x << 17)
}

// An address of few bits that vary, at the front and at the end, so that networks nest.
fn address_of(number: u64) -> IpAddr {
    let (front, end) = ((number >> 8 & 0x83) as u8, (number & 0xc7) as u8);
    if number >> 40 & 1 == 0 {
        IpAddr::V4(Ipv4Addr::new(front, 0, 0, end))
    } else {
        IpAddr::V6(Ipv6Addr::new(u16::from(front) << 8, 0, 0, 0, 0, 0, 0, u16::from(end)))
    }
}

// The bits of an address at the front, and how many there are.
fn bits_of(address: &IpAddr) -> (u128, u32)
    ensures { result.1 ≤ 128 }
{
    match address {
        IpAddr::V4(ip) => (u128::from(ip.to_bits()) << 96, 32),
        IpAddr::V6(ip) => (ip.to_bits(), 128),
    }
}

/// Returns the first bits of a number.
pub fn first_bits(bits: u128, length: u32) -> u128 {
    bits.checked_shr(128u32.saturating_sub(length)).unwrap_or(0)
}

/// A network: how many bits its addresses have, its length and its bits.
pub type Drawn = (u32, u32, u128);

fn draw(number: u64) -> Drawn {
    let (bits, width) = bits_of(&address_of(number));
    let length = (number >> 16 & 0xff) as u32 % (width + 1);
    (width, length, first_bits(bits, length))
}

// The network of what was drawn.
fn network_of(drawn: &Drawn) -> Option<Network>
    ensures { IfSome result IsNetwork }
{
    let (width, length, prefix) = *drawn;
    let bits = prefix
        .checked_shl(128u32.saturating_sub(length))
        .unwrap_or(0);
    Network::new(&address_with(width, bits), u8::try_from(length).ok()?)
}

/// Returns the address with these bits at the front.
pub fn address_with(width: u32, bits: u128) -> IpAddr {
    if width == 32 {
        IpAddr::V4(Ipv4Addr::from_bits((bits >> 96) as u32))
    } else {
        IpAddr::V6(Ipv6Addr::from_bits(bits))
    }
}

// Different networks that are drawn.
fn draw_all(alloc: Global, count: usize, seed: u64) -> Option<Vec<Drawn>> {
    let (mut all, mut state) = (Vec::new(alloc), seed);
    for _ in 0..count {
        state = next(state);
        let drawn = draw(state);
        if !all.contains(&drawn) {
            all.push(drawn).ok()?;
        }
    }
    Some(all)
}

fn networks_of(alloc: Global, all: &[Drawn]) -> Option<Vec<Network>>
    ensures { IfSome result (λ networks. All IsNetwork networks.items) }
{
    let mut networks = Vec::new(alloc);
    for drawn in all {
        networks.push(network_of(drawn)?).ok()?;
    }
    Some(networks)
}

/// Returns the table of these networks, each with its place.
pub fn table_of(alloc: Global, all: &[Drawn]) -> Option<PrefixTable<usize>> {
    let networks = networks_of(alloc, all)?;
    let places = places(alloc, networks.len())?;
    PrefixTable::build(alloc, &networks, places).ok()
}

// The place of the longest network that covers an address, by a scan of all.
fn scan(all: &[Drawn], address: &IpAddr) -> Option<usize> {
    let (bits, width) = bits_of(address);
    let mut best: Option<(usize, u32)> = None;
    for (place, drawn) in all.iter().enumerate() {
        let covers = drawn.0 == width && first_bits(bits, drawn.1) == drawn.2;
        if covers && is_longer(drawn.1, best) {
            best = Some((place, drawn.1));
        }
    }
    best.map(|found| found.0)
}

fn is_longer(length: u32, best: Option<(usize, u32)>) -> bool {
    match best {
        Some((_, other)) => other < length,
        None => true,
    }
}

// How many of so many addresses get the network that the scan finds.
fn right(all: &[Drawn], table: &PrefixTable<usize>, count: usize, seed: u64) -> usize {
    let (mut right, mut state) = (0usize, seed);
    for _ in 0..count {
        state = next(state);
        let address = address_of(state);
        if table.longest_match(&address).map(|entry| *entry.1) == scan(all, &address) {
            right = right.saturating_add(1);
        }
    }
    right
}

// The same where all addresses are looked up by one call.
fn right_together(
    alloc: Global,
    all: &[Drawn],
    table: &PrefixTable<usize>,
    count: usize,
    seed: u64,
) -> Option<usize> {
    let (mut addresses, mut state) = (Vec::new(alloc), seed);
    for _ in 0..count {
        state = next(state);
        addresses.push(address_of(state)).ok()?;
    }
    let found = table.longest_values(alloc, &addresses).ok()?;
    let pairs = addresses.iter().zip(&found);
    Some(
        pairs
            .filter(|pair| pair.1.map(|place| *place) == scan(all, pair.0))
            .count(),
    )
}

// The same for a table of networks that are drawn.
fn compared(alloc: Global, networks: usize, addresses: usize, seed: u64) -> Option<usize> {
    let all = draw_all(alloc, networks, seed)?;
    let table = table_of(alloc, &all)?;
    let one_by_one = right(&all, &table, addresses, seed ^ 0x9e37_79b9);
    let together = right_together(alloc, &all, &table, addresses, seed ^ 0x517c_c1b7)?;
    Some(one_by_one.min(together))
}

#[test]
fn addresses_get_what_a_scan_finds(rt: HostRuntime) -> Result<(), Fail> {
    assert_eq!(rt; compared(rt.alloc(), 3, 500, 67), Some(500));
    assert_eq!(rt; compared(rt.alloc(), 60, 2_000, 91), Some(2_000));
    assert_eq!(rt; compared(rt.alloc(), 900, 2_000, 12_345), Some(2_000));
    Ok(())
}
