//! The values of many addresses. Each step is done for all addresses before the next one, so that the processor reads the
//! memory of several at once.
ghost use Rattle.std.specs.Prelude.{◌≡◌, IfOk, length};
ghost use Rattle.std.specs.List.{AllZip};
ghost use Rattle.prefix_table.specs.Entries.{IsLongestValue};
ghost use Rattle.prefix_table.specs.Rows.{IsCountFor};
ghost use Rattle.prefix_table.specs.Tables.{IsOrderedTable, entries_of};

use crate::network::address_of;
use crate::rows::Rows;
use std::alloc::{AllocError, Global};
use std::net::IpAddr;

/// Returns for each address the value of the longest network that covers it, or `None` where none does.
pub fn longest_values<'a, V>(
    alloc: Global,
    rows: &Rows,
    values: &'a [V],
    addresses: &[IpAddr],
) -> Result<Vec<Option<&'a V>>, AllocError>
    requires { IsOrderedTable rows.now values.now }
    ensures { IfOk result (λ found.
        AllZip (IsLongestValue (entries_of rows.now values.now)) addresses.now found.items) }
{
    let parts = parts_for(alloc, rows, addresses)?;
    let counts = counts_for(alloc, rows, addresses, &parts)?;
    values_for(alloc, rows, values, addresses, &counts)
}

// Returns for each address a part of the rows in which it is searched.
fn parts_for(
    alloc: Global,
    rows: &Rows,
    addresses: &[IpAddr],
) -> Result<Vec<(usize, usize)>, AllocError>
    ensures { IfOk result (λ parts. length parts.items ≡ length addresses.now) }
{
    let mut parts = Vec::with_capacity(alloc, addresses.len())?;
    for address in addresses {
        parts.push(rows.part_for(address_of(address)))?;
    }
    Ok(parts)
}

// Returns for each address how many rows start at it or before it. Any parts may be passed.
fn counts_for(
    alloc: Global,
    rows: &Rows,
    addresses: &[IpAddr],
    parts: &[(usize, usize)],
) -> Result<Vec<usize>, AllocError>
    requires { length parts.now ≡ length addresses.now }
    ensures { IfOk result (λ counts. AllZip (IsCountFor rows.now) addresses.now counts.items) }
{
    let mut counts = Vec::with_capacity(alloc, addresses.len())?;
    for (index, address) in addresses.iter().enumerate() {
        counts.push(rows.count_near(parts[index], address_of(address)).count)?;
    }
    Ok(counts)
}

// Returns for each address the value of the last one of so many rows that covers it, or `None` where none does.
fn values_for<'a, V>(
    alloc: Global,
    rows: &Rows,
    values: &'a [V],
    addresses: &[IpAddr],
    counts: &[usize],
) -> Result<Vec<Option<&'a V>>, AllocError>
    requires table { IsOrderedTable rows.now values.now }
    requires counts { AllZip (IsCountFor rows.now) addresses.now counts.now }
    ensures { IfOk result (λ found.
        AllZip (IsLongestValue (entries_of rows.now values.now)) addresses.now found.items) }
{
    let mut found = Vec::with_capacity(alloc, addresses.len())?;
    for (index, address) in addresses.iter().enumerate() {
        found.push(value_for(rows, values, address, counts[index]))?;
    }
    Ok(found)
}

// Returns the value of the last one of so many rows that covers an address, or `None` if none does.
fn value_for<'a, V>(rows: &Rows, values: &'a [V], address: &IpAddr, count: usize) -> Option<&'a V>
    requires table { IsOrderedTable rows.now values.now }
    requires count { IsCountFor rows.now address.now count }
    ensures { IsLongestValue (entries_of rows.now values.now) address.now result }
{
    let found = rows.last_covering(count, address_of(address)).upto;
    if found == 0 {
        return None;
    }
    Some(&values[found - 1])
}
