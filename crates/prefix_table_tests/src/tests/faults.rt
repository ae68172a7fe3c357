//! Tables that can't be built.
use super::tables::{Written, networks_of, places};
use prefix_table::network::Network;
use prefix_table::table::{BuildFault, PrefixTable};
use std::alloc::Global;
use std::net::IpAddr;
use std::test::Fail;

// Lists of networks, and the places of the first one that comes twice.
static TWICE: [(&[Written], usize, usize); 4] = [
    (&[("10.0.0.0", 8), ("10.0.0.0", 8)], 0, 1),
    (
        &[
            ("::", 0),
            ("0.0.0.0", 0),
            ("10.0.0.0", 8),
            ("0.0.0.0", 0),
            ("::", 0),
        ],
        1,
        3,
    ),
    (
        &[
            ("10.0.0.0", 8),
            ("10.0.0.0", 9),
            ("10.0.0.0", 8),
            ("10.0.0.0", 8),
            ("10.0.0.0", 9),
        ],
        0,
        2,
    ),
    (
        &[
            ("2001:db8::", 32),
            ("2001:db8::", 33),
            ("2001:db8::", 33),
            ("2001:db8::", 32),
        ],
        1,
        2,
    ),
];

// The places of a list that are named, and how many values are returned.
fn twice(alloc: Global, texts: &[Written]) -> Option<(BuildFault, usize)> {
    let networks = networks_of(alloc, texts)?;
    let places = places(alloc, networks.len())?;
    match PrefixTable::build(alloc, &networks, places) {
        Ok(_) => None,
        Err(error) => Some((error.fault, error.values.len())),
    }
}

fn right_faults(alloc: Global) -> usize {
    let mut right = 0usize;
    for (texts, first, second) in &TWICE {
        if twice(alloc, texts) == Some((BuildFault::Twice(*first, *second), texts.len())) {
            right = right.saturating_add(1);
        }
    }
    right
}

#[test]
fn the_first_network_that_comes_twice_is_named(rt: HostRuntime) -> Result<(), Fail> {
    assert_eq!(rt; right_faults(rt.alloc()), TWICE.len());
    Ok(())
}

// Texts that are no network: a bit after the prefix is set, or the prefix is too long.
static NO_NETWORKS: [Written; 6] = [
    ("10.0.0.1", 8),
    ("10.0.0.0", 33),
    ("0.0.0.1", 31),
    ("128.0.0.0", 0),
    ("::", 129),
    ("2001:db8::1", 127),
];

fn refused() -> usize {
    let mut count = 0usize;
    for (text, length) in &NO_NETWORKS {
        let Ok(address) = text.parse::<IpAddr>() else {
            return 0;
        };
        if Network::new(&address, *length).is_none() {
            count = count.saturating_add(1);
        }
    }
    count
}

#[test]
fn host_bits_and_long_prefixes_are_refused(rt: HostRuntime) -> Result<(), Fail> {
    assert_eq!(rt; refused(), NO_NETWORKS.len());
    Ok(())
}

static THREE: [Written; 3] = [("10.0.0.0", 8), ("::", 0), ("10.0.0.0", 7)];

// Whether a table could not be built, and how many values came back or are in it.
fn built(alloc: Global) -> Option<(bool, usize)> {
    let networks = networks_of(alloc, &THREE)?;
    let places = places(alloc, networks.len())?;
    match PrefixTable::build(alloc, &networks, places) {
        Ok(table) => Some((false, table.len())),
        Err(error) => Some((error.fault == BuildFault::NoMemory, error.values.len())),
    }
}

#[test]
fn refused_building_returns_the_values(rt: HostRuntime) -> Result<(), Fail> {
    match built(rt.alloc()) {
        Some((is_refused, count)) => {
            assert_eq!(rt; count, 3);
            if is_refused {
                println!(rt; "asserted")?;
            }
        }
        None => {}
    }
    Ok(())
}
