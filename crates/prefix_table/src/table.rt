//! A table of networks with values, which is built once.
ghost use Rattle.std.specs.Prelude.{◌≡◌, [], ℕ, ◌+◌, ◌^◌, ◌<◌, ◌≤◌, ◌==◌, length, vec_len, All, AllPairs, Contains, IfErr, IfNone, IfOk, IfSome, OnErr, OnOk, filter, map, reverse, slice_index_or, ◌≢◌};
ghost use Rattle.std.specs.List.{AllZip, zip};
ghost use Rattle.std.specs.List.Sorted.{IsPermutation};
ghost use Rattle.std.specs.Option.{option_map};
ghost use Rattle.prefix_table.specs.Networks.{IsAddress, IsNetwork, IsUpTo, Precedes, covers, start_of};
ghost use Rattle.prefix_table.specs.Rows.{AreInOrder};
ghost use Rattle.prefix_table.specs.Arranging.{AreArranged, AreIndexes};
ghost use Rattle.prefix_table.specs.Sorting.{in_order, numbered, place_of};
ghost use Rattle.prefix_table.specs.Parts.{AreStarted, IsLastEntry, IsPositionIn, is_inside, network_in};
ghost use Rattle.prefix_table.specs.Entries.{IsBuildFault, IsLongestMatch, IsLongestValue, nesting, shown};

use crate::arranging::arrange;
use crate::iteration::{Entries, Matches};
use crate::network::{Address, Network, address_of, last_of};
use crate::rows::{Row, Rows, network_of, position};
use crate::sorting::{first_pair, places_of, sorted_rows};
use crate::values::longest_values;
use std::alloc::{AllocError, Global};
use std::marker::Model;
use std::net::IpAddr;
use thiserror::Error;

/// Why there is no table.
#[derive(Clone, Copy, PartialEq, Eq, Debug, Drop, Error)]
pub enum BuildFault {
    /// The networks at these places of the list are equal. Before the second one no two are.
    #[error("the networks at {0} and {1} are equal")]
    Twice(usize, usize),
    /// There are 2^32 networks or more.
    #[error("too many networks")]
    TooMany,
    /// An allocation failed.
    #[error("out of memory")]
    NoMemory,
}

/// Why there is no table, and the values that it was to have.
#[derive(Drop)]
pub struct BuildError<V> {
    pub fault: BuildFault,
    pub values: Vec<V>,
}

/// A table of networks with values, built once. Contracts see the list of the networks in order, each with its value:
/// by version, then by number, then by length.
#[derive(Drop)]
pub struct PrefixTable<V> {
    pub(crate) rows: Rows,
    pub(crate) values: Vec<V>,
}

impl<V> Model for PrefixTable<V> {
    ghost use Rattle.std.specs.Prelude.{List};
    ghost use Rattle.prefix_table.specs.declared.network.Network.{Network};
    ghost use Rattle.prefix_table.specs.Tables.{IsOrderedTable, entries_of};

    ghost Value = { List (Network × V) };

    ghost view = { λ t. entries_of t.rows t.values.items };

    ghost invariant = { λ t. IsOrderedTable t.rows t.values.items };
}

impl<V> PrefixTable<V> {
    /// Returns a table without a network, without an allocation.
    pub fn new(alloc: Global) -> Self
        ensures { result ≡ [] }
    {
        PrefixTable {
            rows: Rows::new(alloc),
            values: Vec::new(alloc),
        }
    }

    /// Builds the table of these networks, in any order, each with the value at its place. An error returns the values.
    #[tactic(auto, using(crate::proofs::OrderLemmas::length_rows, crate::proofs::OrderLemmas::places_are))]
    pub fn build(
        alloc: Global,
        networks: &[Network],
        mut values: Vec<V>,
    ) -> Result<Self, BuildError<V>>
        requires networks { All IsNetwork networks.now }
        requires values { vec_len values ≡ length networks.now }
        // It has each network with its value, in order.
        ensures entries { IfOk result (λ table. IsPermutation (zip networks.now values.items) table) }
        ensures order { IfOk result (AllPairs (λ a b. Precedes a.0 b.0)) }
        // On failure no value is lost.
        ensures fault { IfErr result (λ error. IsBuildFault networks.now error.fault) }
        ensures kept { IfErr result (λ error. error.values.items ≡ values.items) }
    {
        let sorted = match ordered_rows(alloc, networks) {
            Ok(sorted) => sorted,
            Err(fault) => return Err(BuildError { fault, values }),
        };
        match arranged_rows(alloc, &sorted, &mut values) {
            Ok(rows) => Ok(PrefixTable { rows, values }),
            Err(AllocError) => Err(BuildError {
                fault: BuildFault::NoMemory,
                values,
            }),
        }
    }

    /// Returns how many networks there are.
    pub fn len(&self) -> usize
        ensures { result ≡ length self.now }
    {
        let _values = &self.values;
        self.rows.len()
    }

    /// Returns whether there is no network.
    pub fn is_empty(&self) -> bool
        ensures { result ≡ (length self.now == 0) }
    {
        self.len() == 0
    }

    // Returns the network at an index, and its value.
    #[tactic(auto, using(crate::proofs::NetworkTables::entry_facts))]
    pub(crate) fn entry(&self, index: usize) -> (Network, &V)
        requires { index < length self.now }
        ensures { shown result ≡ slice_index_or self.now index (shown result) }
    {
        let row = self.rows.get(index);
        (network_of(row), &self.values[index])
    }

    // Returns how many entries start at an address or before it.
    fn count_up_to(&self, address: Address) -> usize
        requires { IsAddress address }
        ensures started { AreStarted self.now address result }
        ensures others { (k : ℕ) → result ≤ k → k < length self.now →
            ¬ IsUpTo (start_of (network_in self.now k)) address }
        ensures order { AllPairs (λ a b. Precedes a.0 b.0) self.now }
    {
        let _values = &self.values;
        self.rows.count_up_to(address).count
    }

    // Returns how many entries reach to the last one of the first `upto` that covers an address, 0 if none does.
    pub(crate) fn last_covering(&self, upto: usize, address: Address) -> usize
        requires { AreStarted self.now address upto }
        ensures { IsLastEntry self.now address upto result }
    {
        let _values = &self.values;
        self.rows.last_covering(upto, address).upto
    }

    // Returns how many entries are before a network in order.
    fn position(&self, network: Network) -> usize
        requires { IsNetwork network }
        ensures position { IsPositionIn self.now network result }
        ensures order { AllPairs (λ a b. Precedes a.0 b.0) self.now }
        ensures networks { All (λ entry. IsNetwork entry.0) self.now }
    {
        let _values = &self.values;
        position(&self.rows, network)
    }

    /// Returns the value of a network, or `None` if the table doesn't have it.
    pub fn get(&self, network: Network) -> Option<&V>
        requires { IsNetwork network }
        ensures found { IfSome result (λ value. Contains self.now (network, value.now)) }
        ensures none { IfNone result (All (λ entry. entry.0 ≢ network) self.now) }
    {
        let at = self.position(network);
        if at == self.len() {
            return None;
        }
        let (found, value) = self.entry(at);
        if found == network { Some(value) } else { None }
    }

    /// Returns all networks that cover an address, from the longest to the shortest.
    pub fn matches(&self, address: &IpAddr) -> Matches<'_, V>
        ensures all { result ≡ reverse (filter (λ entry. covers entry.0 address.now) self.now) }
        ensures longest_first { AllPairs (λ a b. b.0.length < a.0.length) result }
    {
        let address = address_of(address);
        Matches::new(self, address, self.count_up_to(address))
    }

    /// Returns all networks in order, with their values.
    pub fn iter(&self) -> Entries<'_, V>
        ensures { result ≡ self.now }
    {
        Entries::new(self, 0, self.len())
    }

    /// Returns the networks inside a network, itself included, in order.
    pub fn within(&self, network: Network) -> Entries<'_, V>
        requires { IsNetwork network }
        ensures { result ≡ filter (λ entry. is_inside network entry.0) self.now }
    {
        let from = self.position(network);
        let to = self.count_up_to(last_of(network));
        Entries::new(self, from, to)
    }

    /// Returns the longest network that covers an address, and its value, or `None` if none does. It allocates nothing.
    pub fn longest_match(&self, address: &IpAddr) -> Option<(Network, &V)>
        ensures { IsLongestMatch self.now address.now (option_map shown result) }
    {
        self.longest_match_counted(address).0
    }

    /// Returns for each address the value of the longest network that covers it, or `None` where none does. Fails if an
    /// allocation fails.
    pub fn longest_values(
        &self,
        alloc: Global,
        addresses: &[IpAddr],
    ) -> Result<Vec<Option<&V>>, AllocError>
        ensures { IfOk result (λ found. AllZip (IsLongestValue self.now) addresses.now found.items) }
    {
        longest_values(alloc, &self.rows, &self.values, addresses)
    }

    /// Does what `longest_match` does, and returns how many networks it looked at: no more than the binary logarithm of
    /// how many there are, rounded up, two, and as many as lie around one network, itself included.
    pub fn longest_match_counted(&self, address: &IpAddr) -> (Option<(Network, &V)>, usize)
        ensures found { IsLongestMatch self.now address.now (option_map shown result.0) }
        ensures looked { (k : ℕ) → length self.now < 2 ^ k → result.1 ≤ k + 2 + nesting self.now }
    {
        let address = address_of(address);
        let started = self.rows.count_up_to(address);
        let found = self.rows.last_covering(started.count, address);
        let looked = started.looked + found.looked;
        if found.upto == 0 {
            return (None, looked);
        }
        let index = found.upto - 1;
        let row = self.rows.get(index);
        (Some((network_of(row), &self.values[index])), looked)
    }
}

// Returns networks in order, with their places.
#[tactic(auto, using(crate::proofs::OrderLemmas::ordered_rows_facts))]
fn ordered_rows(alloc: Global, networks: &[Network]) -> Result<Vec<Row>, BuildFault>
    requires { All IsNetwork networks.now }
    ensures rows { IfOk result (λ rows. IsPermutation (numbered 0 networks.now) rows.items) }
    ensures order { IfOk result (λ rows. AreInOrder rows.items) }
    ensures few { IfOk result (λ rows. length rows.items < 2 ^ 32) }
    ensures fault { IfErr result (IsBuildFault networks.now) }
{
    if networks.len() > u32::MAX as usize {
        return Err(BuildFault::TooMany);
    }
    let Ok(rows) = sorted_rows(alloc, networks) else {
        return Err(BuildFault::NoMemory);
    };
    if let Some((first, second)) = first_pair(&rows) {
        return Err(BuildFault::Twice(first as usize, second as usize));
    }
    Ok(rows)
}

// Returns the columns of rows, and moves the values into their order. On an error the values stay where they are.
fn arranged_rows<V>(alloc: Global, rows: &[Row], values: &mut [V]) -> Result<Rows, AllocError>
    requires order { AreInOrder rows.now }
    requires places { AreIndexes (map place_of rows.now) }
    requires values { length values.old ≡ length rows.now }
    requires few { length rows.now < 2 ^ 32 }
    ensures rows { IfOk result (λ made. made ≡ in_order rows.now) }
    ensures arranged { OnOk result (AreArranged (map place_of rows.now) values.old values.new) }
    ensures kept { OnErr result (values.new ≡ values.old) }
{
    let columns = Rows::from_slice(alloc, rows)?;
    let places = places_of(alloc, rows)?;
    arrange(alloc, &places, values)?;
    Ok(columns)
}
