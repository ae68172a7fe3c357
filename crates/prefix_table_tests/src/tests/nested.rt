//! Networks of all lengths around an address of each version, 33 and 129 deep.
use super::drawn::{Drawn, address_with, first_bits, table_of};
use prefix_table::table::PrefixTable;
use std::alloc::Global;
use std::test::Fail;

// The bits of the addresses at the front.
const FOUR: u128 = 0xc0a8_a581 << 96;

const SIX: u128 = 0x2001_0db8_5a3c_ffff_0000_a5a5_8001_7fff;

fn nested(alloc: Global) -> Option<Vec<Drawn>> {
    let mut all = Vec::new(alloc);
    for length in 0..129u32 {
        all.push((128, length, first_bits(SIX, length))).ok()?;
    }
    for length in 0..33u32 {
        all.push((32, length, first_bits(FOUR, length))).ok()?;
    }
    Some(all)
}

// How many numbers of first bits there are such that an address that shares just so many is covered by the networks up
// to this length, the longest one first.
fn right(table: &PrefixTable<usize>, width: u32, bits: u128) -> u32 {
    let mut right = 0u32;
    for shared in 0..=width {
        let other = (1u128 << 127).checked_shr(shared).unwrap_or(0);
        let address = address_with(width, bits ^ other);
        let longest = table
            .longest_match(&address)
            .map(|entry| u32::from(entry.0.length));
        let lengths = table
            .matches(&address)
            .map(|entry| u32::from(entry.0.length));
        if longest == Some(shared) && lengths.eq((0..=shared).rev()) {
            right = right.saturating_add(1);
        }
    }
    right
}

#[test]
fn nested_networks_are_found(rt: HostRuntime) -> Result<(), Fail> {
    let all = nested(rt.alloc()).ok_or("no networks")?;
    let right = table_of(rt.alloc(), &all).map(|table| (
        right(&table, 32, FOUR),
        right(&table, 128, SIX),
    ));
    assert_eq!(rt; right, Some((33, 129)));
    Ok(())
}
