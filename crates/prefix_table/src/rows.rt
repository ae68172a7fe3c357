//! Networks in order, in columns, each with the network around it.
ghost use Rattle.std.specs.Prelude.{◌≡◌, ℕ, ◌+◌, ◌^◌, ◌<◌, ◌≤◌, length, IfOk, ◌++◌, ◌∷◌, [], true};
ghost use Rattle.prefix_table.specs.Networks.{IsAddress, IsNetwork, IsUpTo, Precedes, start_of};
ghost use Rattle.prefix_table.specs.Rows.{AreInOrder, IsLast, IsNestedIn, IsPosition, IsRowCount, network_of, row_at};
ghost use Rattle.prefix_table.specs.Sorting.{in_order};
ghost use Rattle.prefix_table.specs.Columns.{AreRows, IsLastOf, IsNested, network_at, rest_at, rows_of};
ghost use Rattle.prefix_table.specs.Starts.{start_at};

use crate::network::{Address, Network, covers, precedes, start_of};
use crate::rests::{Rest, Rests};
use crate::starts::{Counted, Starts};
use std::alloc::{AllocError, Global};
use std::marker::Model;

/// A network, and the place of its value.
#[derive(Clone, Copy)]
pub struct Row {
    pub number: u128,
    pub place: u32,
    pub version: u8,
    pub length: u8,
}

/// Returns the network of a row.
pub fn network_of(row: Row) -> Network
    ensures { result ≡ network_of row }
{
    Network {
        number: row.number,
        version: row.version,
        length: row.length,
    }
}

/// Networks in order. Contracts see the list of the rows, each with its index as its place.
#[derive(Drop)]
pub struct Rows {
    starts: Starts,
    rests: Rests,
}

impl Model for Rows {
    ghost use Rattle.std.specs.Prelude.{List};
    ghost use Rattle.prefix_table.specs.declared.rows.Row.{Row};

    ghost Value = { List Row };

    ghost use Rattle.prefix_table.specs.Sorting.{in_order};
    ghost use Rattle.prefix_table.specs.Columns.{AreRows, rows_of};

    ghost view = { λ r. rows_of r.starts r.rests };

    ghost invariant = { λ r. AreRows r.starts r.rests };
}

impl Rows {
    /// Returns no row, without an allocation.
    pub fn new(alloc: Global) -> Self
        ensures { result ≡ [] }
    {
        Rows {
            starts: Starts::new(alloc),
            rests: Rests::new(alloc),
        }
    }

    /// Returns these rows, each with its index as its place.
    #[tactic(auto, using(crate::proofs::OrderLemmas::from_slice_facts))]
    pub fn from_slice(alloc: Global, rows: &[Row]) -> Result<Self, AllocError>
        requires few { length rows.now < 2 ^ 32 }
        requires order { AreInOrder rows.now }
        ensures { IfOk result (λ made. made ≡ in_order rows.now) }
    {
        let four = rows.partition_point(|row| row.version == 4);
        let mut starts = Starts::with_capacity(alloc, four, rows.len() - four)?;
        let mut rests = Rests::with_capacity(alloc, rows.len())?;
        for row in rows {
            let network = network_of(*row);
            let start = start_of(network);
            let found = last_covering(&starts, &rests, rests.len(), start);
            starts.push(start)?;
            rests.push(Rest {
                around: found.upto as u32,
                length: row.length,
            })?;
        }
        starts.guess(alloc)?;
        Ok(Rows { starts, rests })
    }

    /// Returns how many rows there are.
    #[tactic(auto, using(crate::proofs::RowLemmas::count_up_to_facts))]
    pub fn len(&self) -> usize
        ensures { result ≡ length self.now }
    {
        let _starts = &self.starts;
        self.rests.len()
    }

    /// Returns the row at an index.
    #[tactic(auto, using(crate::proofs::RowLemmas::get_facts))]
    pub fn get(&self, index: usize) -> Row
        requires { index < length self.now }
        ensures { result ≡ row_at self.now index }
    {
        let start = self.starts.get(index);
        Row {
            number: start.number,
            place: index as u32,
            version: start.version,
            length: self.rests.length(index),
        }
    }

    /// Returns a guess of the part in which an address is searched, for `count_near`. Contracts say nothing of it.
    pub fn guess_for(&self, address: Address) -> (usize, usize)
        requires { IsAddress address }
    {
        self.starts.guess_for(address)
    }

    /// Does what `guess_for` does, and tests the guess, which reads the part. Contracts say nothing of it.
    pub fn part_for(&self, address: Address) -> (usize, usize)
        requires { IsAddress address }
    {
        self.starts.part_for(address)
    }

    /// Returns how many rows start at an address or before it. Any guess may be passed.
    #[tactic(auto, using(crate::proofs::RowLemmas::count_up_to_facts))]
    pub fn count_near(&self, guess: (usize, usize), address: Address) -> Counted
        requires { IsAddress address }
        ensures count { IsRowCount self.now address result.count }
        ensures looked { (k : ℕ) → length self.now < 2 ^ k → result.looked ≤ k + 2 }
        ensures few { length self.now < 2 ^ 32 }
    {
        let _rests = &self.rests;
        self.starts.count_near(guess, address)
    }

    /// Returns how many rows start at an address or before it.
    pub fn count_up_to(&self, address: Address) -> Counted
        requires { IsAddress address }
        ensures count { IsRowCount self.now address result.count }
        ensures looked { (k : ℕ) → length self.now < 2 ^ k → result.looked ≤ k + 2 }
        ensures few { length self.now < 2 ^ 32 }
    {
        self.count_near(self.guess_for(address), address)
    }

    /// Finds the last one of the first `upto` rows that covers an address.
    pub fn last_covering(&self, upto: usize, address: Address) -> Found
        requires within { upto ≤ length self.now }
        requires started { (k : ℕ) → k < upto → IsUpTo (start_of (network_of (row_at self.now k))) address }
        ensures last { IsLast self.now address upto result.upto }
        ensures nested { IsNestedIn self.now upto result.looked }
    {
        last_covering(&self.starts, &self.rests, upto, address)
    }
}

/// Returns how many rows are before a network in order.
pub fn position(rows: &Rows, network: Network) -> usize
    requires order { AreInOrder rows.now }
    requires network { IsAddress (start_of network) }
    ensures { IsPosition rows.now network result }
{
    let mut at = rows.count_up_to(start_of(network)).count;
    while at > 0 {
        if precedes(network_of(rows.get(at - 1)), network) {
            return at;
        }
        at -= 1;
    }
    0
}

// Returns the network at an index of both columns.
fn network_at(starts: &Starts, rests: &Rests, index: usize) -> Network
    requires starts { index < length starts.now }
    requires rests { index < length rests.now }
    ensures { result ≡ network_at starts.now rests.now index }
{
    let start = starts.get(index);
    Network {
        number: start.number,
        version: start.version,
        length: rests.length(index),
    }
}

/// What a step outwards from row to row has found.
#[derive(Clone, Copy)]
pub struct Found {
    /// How many rows reach to the last one that covers the address, 0 if none does.
    pub upto: usize,
    /// How many rows were looked at.
    pub looked: usize,
}

// Finds the last one of the first `upto` rows that covers an address.
fn last_covering(starts: &Starts, rests: &Rests, upto: usize, address: Address) -> Found
    requires rows { AreRows starts.now rests.now }
    requires within { upto ≤ length rests.now }
    requires started { (k : ℕ) → k < upto → IsUpTo (start_at starts.now k) address }
    ensures last { IsLastOf starts.now rests.now address upto result.upto }
    ensures nested { IsNested starts.now rests.now upto result.looked }
{
    let mut found = upto;
    let mut looked = 0;
    while found > 0 {
        looked += 1;
        if covers(network_at(starts, rests, found - 1), address) {
            return Found {
                upto: found,
                looked,
            };
        }
        found = rests.around(found - 1) as usize;
    }
    Found { upto: 0, looked }
}
