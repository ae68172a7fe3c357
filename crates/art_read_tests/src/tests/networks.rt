//! Networks that come and go, beside a scan of a list of them.
ghost use Rattle.std.specs.Prelude.{IfSome};
ghost use Rattle.prefix_table.specs.Networks.{IsNetwork};

use art_test_support::expected::same;
use art_test_support::numbers::Numbers;
use prefix_table::network::Network;
use route_map::map::RouteMap;
use std::mem;
use std::net::{IpAddr, Ipv4Addr, Ipv6Addr};
use std::test::Fail;

// A network of the list: how many bits its addresses have, its length, these bits with zeros after them, and its value
// while it is in the map.
#[derive(Clone, Copy, PartialEq)]
struct Known {
    width: u32,
    length: u32,
    bits: u128,
    value: Option<usize>,
}

// No network.
const NONE: Known = Known {
    width: 0,
    length: 0,
    bits: 0,
    value: None,
};

fn address_with(width: u32, bits: u128) -> IpAddr {
    if width == 32 {
        IpAddr::V4(Ipv4Addr::from_bits((bits >> 96) as u32))
    } else {
        IpAddr::V6(Ipv6Addr::from_bits(bits))
    }
}

// The first bits of an address, with zeros after them.
fn cut(bits: u128, length: u32) -> u128 {
    bits & !u128::MAX.checked_shr(length).unwrap_or(0)
}

fn network_of(known: Known) -> Option<Network>
    ensures { IfSome result IsNetwork }
{
    let length = u8::try_from(known.length).ok()?;
    if known.width == 0 {
        return None;
    }
    Network::new(&address_with(known.width, known.bits), length)
}

// An address of few bits that vary, at the front and at the end, so that networks nest: how many bits it has, and these.
fn draw_address(numbers: &mut Numbers) -> (u32, u128) {
    let width = if numbers.is_heads() { 32 } else { 128 };
    let end = (numbers.below(16) as u128)
        .checked_shl(128u32.saturating_sub(width))
        .unwrap_or(0);
    (width, (numbers.below(4) as u128) << 126 | end)
}

fn draw(numbers: &mut Numbers) -> Known {
    let (width, bits) = draw_address(numbers);
    let length = numbers.below(33) as u32;
    // In version 6 the lengths are up to 16 and from 112 on.
    let length = if width == 128 && length > 16 {
        length.saturating_add(96)
    } else {
        length
    };
    Known {
        width,
        length,
        bits: cut(bits, length),
        value: None,
    }
}

// Different networks, in some of the places.
fn draw_all(numbers: &mut Numbers) -> [Known; 120] {
    let mut all = [NONE; 120];
    for at in 0..120usize {
        let drawn = draw(numbers);
        if !all.contains(&drawn) {
            all[at] = drawn;
        }
    }
    all
}

// The length and the value of the longest network that covers an address, by a scan of all.
fn scan(all: &[Known], width: u32, bits: u128) -> Option<(u32, usize)> {
    let mut longest = None;
    for known in all {
        if known.width == width && cut(bits, known.length) == known.bits {
            longest = longer(longest, *known);
        }
    }
    longest
}

// The longer one of what was found and a network that may be in the map.
fn longer(found: Option<(u32, usize)>, known: Known) -> Option<(u32, usize)> {
    let Some(value) = known.value else {
        return found;
    };
    match found {
        Some((length, _)) if length > known.length => found,
        _ => Some((known.length, value)),
    }
}

// What the map finds for an address.
fn longest(map: &RouteMap<usize>, width: u32, bits: u128) -> Option<(u32, usize)> {
    let (network, value) = map.longest_match(&address_with(width, bits))?;
    Some((u32::from(network.length), *value))
}

// A call with a network that is drawn, and whether it returns what the list has.
fn agree_on_call(
    map: &mut RouteMap<usize>,
    all: &mut [Known],
    numbers: &mut Numbers,
    value: usize,
) -> bool {
    let Some(at) = numbers.place_in(all.len()) else {
        return false;
    };
    let Some(network) = network_of(all[at]) else {
        return true;
    };
    match numbers.below(5) {
        0..=1 => map.insert(network, value).ok()
            == Some(mem::replace(&mut all[at].value, Some(value))),
        2 => map.remove(network) == mem::replace(&mut all[at].value, None),
        _ => map.get(network).copied() == all[at].value,
    }
}

// The number of the first call after which they differ, if they do.
fn differ_at(map: &mut RouteMap<usize>, calls: usize) -> Option<usize> {
    let mut numbers = Numbers::new(91);
    let mut all = draw_all(&mut numbers);
    for call in 0..calls {
        let agree = agree_on_call(map, &mut all, &mut numbers, call);
        let (width, bits) = draw_address(&mut numbers);
        if !agree || longest(map, width, bits) != scan(&all, width, bits) {
            return Some(call);
        }
    }
    None
}

#[test]
fn drawn_calls_of_a_route_map_return_what_a_scan_does(rt: HostRuntime) -> Result<(), Fail> {
    let mut map = RouteMap::new(rt.alloc());
    same(differ_at(&mut map, 6_000), None)
}

// The bits of two addresses at the front.
const FOUR: u128 = 0xc0a8_a581 << 96;

const SIX: u128 = 0x2001_0db8_5a3c_ffff_0000_a5a5_8001_7fff;

// The network of the first bits of an address.
fn around(width: u32, bits: u128, length: u32) -> Option<Network>
    ensures { IfSome result IsNetwork }
{
    network_of(Known {
        width,
        length,
        bits: cut(bits, length),
        value: None,
    })
}

// Inserts the networks of all lengths around an address, and returns how many were inserted.
fn insert_all(map: &mut RouteMap<usize>, width: u32, bits: u128) -> u32 {
    let mut count = 0u32;
    for length in 0..=width {
        if let Some(network) = around(width, bits, length) {
            let is_new = map.insert(network, length as usize).ok() == Some(None);
            count = count.saturating_add(is_new as u32);
        }
    }
    count
}

// Removes those of odd lengths, and returns how many were removed.
fn remove_odd(map: &mut RouteMap<usize>, width: u32, bits: u128) -> u32 {
    let mut count = 0u32;
    for length in 0..=width {
        if let Some(network) = around(width, bits, length | 1) {
            count = count.saturating_add(map.remove(network).is_some() as u32);
        }
    }
    count
}

// For how many numbers of first bits an address that shares just so many gets the network of that length, where these
// bits of the length are ignored.
fn right(map: &RouteMap<usize>, width: u32, bits: u128, ignored: u32) -> u32 {
    let mut count = 0u32;
    for shared in 0..=width {
        let other = (1u128 << 127).checked_shr(shared).unwrap_or(0);
        let length = shared & !ignored;
        let is_right = longest(map, width, bits ^ other) == Some((length, length as usize));
        count = count.saturating_add(is_right as u32);
    }
    count
}

fn nested(map: &mut RouteMap<usize>, width: u32, bits: u128) -> [u32; 4] {
    [
        insert_all(map, width, bits),
        right(map, width, bits, 0),
        remove_odd(map, width, bits),
        right(map, width, bits, 1),
    ]
}

#[test]
fn nested_networks_come_and_go(rt: HostRuntime) -> Result<(), Fail> {
    let mut map = RouteMap::new(rt.alloc());
    let four = nested(&mut map, 32, FOUR);
    let six = nested(&mut map, 128, SIX);
    same((four, six), ([33, 33, 16, 33], [129, 129, 64, 129]))
}
