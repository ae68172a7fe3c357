//! What a table has for addresses and networks, beside what Python's `ipaddress` says.
use super::tables::{Written, network_of, table_of};
use prefix_table::table::PrefixTable;
use std::alloc::Global;
use std::net::IpAddr;
use std::test::Fail;

static NETWORKS: [Written; 14] = [
    ("0.0.0.0", 0),
    ("10.0.0.0", 8),
    ("10.1.0.0", 16),
    ("10.1.2.0", 24),
    ("10.1.2.128", 25),
    ("10.1.2.129", 32),
    ("192.168.0.0", 16),
    ("255.255.255.255", 32),
    ("::", 0),
    ("2001:db8::", 32),
    ("2001:db8:1::", 48),
    ("2001:db8:1::1", 128),
    ("ffff:ffff:ffff:ffff:ffff:ffff:ffff:ffff", 128),
    ("::a01:200", 120),
];

// Addresses, and the places of the networks that cover them, from the longest to the shortest.
static ADDRESSES: [(&str, &[usize]); 18] = [
    ("10.1.2.129", &[5, 4, 3, 2, 1, 0]),
    ("10.1.2.128", &[4, 3, 2, 1, 0]),
    ("10.1.2.127", &[3, 2, 1, 0]),
    ("10.1.3.0", &[2, 1, 0]),
    ("10.2.0.0", &[1, 0]),
    ("9.255.255.255", &[0]),
    ("11.0.0.0", &[0]),
    ("192.168.255.255", &[6, 0]),
    ("255.255.255.255", &[7, 0]),
    ("255.255.255.254", &[0]),
    ("0.0.0.0", &[0]),
    ("2001:db8:1::1", &[11, 10, 9, 8]),
    ("2001:db8:1::2", &[10, 9, 8]),
    ("2001:db8:2::", &[9, 8]),
    ("2001:db9::", &[8]),
    ("::", &[8]),
    ("ffff:ffff:ffff:ffff:ffff:ffff:ffff:ffff", &[12, 8]),
    ("::a01:280", &[13, 8]),
];

// Networks, and the places of those inside them, in order.
static PARTS: [(Written, &[usize]); 7] = [
    (("10.1.0.0", 16), &[2, 3, 4, 5]),
    (("10.1.2.128", 25), &[4, 5]),
    (("0.0.0.0", 0), &[0, 1, 2, 3, 4, 5, 6, 7]),
    (("2001:db8::", 32), &[9, 10, 11]),
    (("10.1.2.0", 23), &[3, 4, 5]),
    (("::", 0), &[8, 13, 9, 10, 11, 12]),
    (("128.0.0.0", 1), &[6, 7]),
];

static IN_ORDER: [usize; 14] = [0, 1, 2, 3, 4, 5, 6, 7, 8, 13, 9, 10, 11, 12];

// Networks that are not in the table, though their addresses or their lengths are.
static OTHERS: [Written; 6] = [
    ("10.1.2.128", 26),
    ("10.1.2.0", 25),
    ("10.0.0.0", 7),
    ("0.0.0.0", 32),
    ("::", 128),
    ("255.255.255.254", 32),
];

// How many addresses get just these networks, the first of which is the longest match.
fn right_addresses(table: &PrefixTable<usize>) -> usize {
    let mut right = 0usize;
    for (text, expected) in &ADDRESSES {
        if has_matches(table, text, expected) {
            right = right.saturating_add(1);
        }
    }
    right
}

fn has_matches(table: &PrefixTable<usize>, text: &str, expected: &[usize]) -> bool {
    let Ok(address) = text.parse::<IpAddr>() else {
        return false;
    };
    let longest = table.longest_match(&address).map(|entry| *entry.1);
    longest == expected.first().copied()
        && table
            .matches(&address)
            .map(|entry| *entry.1)
            .eq(expected.iter().copied())
}

#[test]
fn addresses_get_the_networks_that_cover_them(rt: HostRuntime) -> Result<(), Fail> {
    let right = table_of(rt.alloc(), &NETWORKS).map(|table| right_addresses(&table));
    assert_eq!(rt; right, Some(ADDRESSES.len()));
    Ok(())
}

fn right_parts(table: &PrefixTable<usize>) -> usize {
    let mut right = 0usize;
    for (text, expected) in &PARTS {
        if has_part(table, *text, expected) {
            right = right.saturating_add(1);
        }
    }
    right
}

fn has_part(table: &PrefixTable<usize>, text: Written, expected: &[usize]) -> bool {
    let Some(network) = network_of(text) else {
        return false;
    };
    table
        .within(network)
        .map(|entry| *entry.1)
        .eq(expected.iter().copied())
}

#[test]
fn networks_inside_one_come_in_order(rt: HostRuntime) -> Result<(), Fail> {
    let right = table_of(rt.alloc(), &NETWORKS).map(|table| right_parts(&table));
    assert_eq!(rt; right, Some(PARTS.len()));
    Ok(())
}

// How many networks are found with their places, and how many others are not there.
fn found(table: &PrefixTable<usize>) -> (usize, usize) {
    let (mut right, mut absent) = (0usize, 0usize);
    for (place, text) in NETWORKS.iter().enumerate() {
        if value_of(table, *text) == Some(place) {
            right = right.saturating_add(1);
        }
    }
    for text in &OTHERS {
        if value_of(table, *text).is_none() {
            absent = absent.saturating_add(1);
        }
    }
    (right, absent)
}

fn value_of(table: &PrefixTable<usize>, text: Written) -> Option<usize> {
    let network = network_of(text)?;
    table.get(network).copied()
}

#[test]
fn a_network_has_its_value(rt: HostRuntime) -> Result<(), Fail> {
    let found = table_of(rt.alloc(), &NETWORKS).map(|table| found(&table));
    assert_eq!(rt; found, Some((14, 6)));
    Ok(())
}

// Whether the networks come in order, and how many there are.
fn order(alloc: Global) -> Option<(bool, usize, bool)> {
    let table = table_of(alloc, &NETWORKS)?;
    let is_in_order = table
        .iter()
        .map(|entry| *entry.1)
        .eq(IN_ORDER.iter().copied());
    Some((is_in_order, table.len(), table.is_empty()))
}

#[test]
fn networks_come_in_order(rt: HostRuntime) -> Result<(), Fail> {
    assert_eq!(rt; order(rt.alloc()), Some((true, 14, false)));
    Ok(())
}

// What an empty table has.
fn nothing(table: &PrefixTable<usize>) -> Option<(bool, bool, bool, bool)> {
    let Ok(address) = "10.0.0.1".parse::<IpAddr>() else {
        return None;
    };
    Some((
        table.is_empty(),
        table.longest_match(&address).is_none(),
        table.matches(&address).next().is_none(),
        table.iter().next().is_none(),
    ))
}

#[test]
fn an_empty_table_has_nothing(rt: HostRuntime) -> Result<(), Fail> {
    let built = table_of(rt.alloc(), &[]).ok_or("no table")?;
    let seen = (nothing(&built), nothing(&PrefixTable::new(rt.alloc())));
    assert_eq!(rt;
        seen,
        (
            Some((true, true, true, true)),
            Some((true, true, true, true))
        )
    );
    Ok(())
}

// How many networks are looked at for an address that the last one to start covers, for one that only the outermost of
// six networks around that covers, and for one after the network of all addresses alone. Two show that the address is in
// the first half of the numbers of version 4, two or three are those of a binary search among the six networks there, and
// one, six and one are those around the last one that was found.
fn looked(alloc: Global) -> Option<[usize; 3]> {
    let table = table_of(alloc, &NETWORKS)?;
    Some([
        looked_for(&table, "10.1.2.129"),
        looked_for(&table, "11.0.0.0"),
        looked_for(&table, "9.255.255.255"),
    ])
}

fn looked_for(table: &PrefixTable<usize>, text: &str) -> usize {
    match text.parse::<IpAddr>() {
        Ok(address) => table.longest_match_counted(&address).1,
        Err(_) => 0,
    }
}

#[test]
fn a_lookup_looks_at_few_networks(rt: HostRuntime) -> Result<(), Fail> {
    assert_eq!(rt; looked(rt.alloc()), Some([5, 10, 6]));
    Ok(())
}
