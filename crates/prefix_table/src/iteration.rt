//! Iteration over the entries of a table.
ghost use Rattle.std.specs.Prelude.{◌≡◌, ℕ, ◌≤◌, ◌<◌, ◌-◌, length, drop, take, reverse, filter, IfSome, IsSome, ⊤};
ghost use Rattle.std.specs.Iterator.{UpTo, at_most};
ghost use Rattle.std.specs.Iterator.SizeHint.{IsWithinCount};
ghost use Rattle.prefix_table.specs.Networks.{IsUpTo, covers_at, start_of};
ghost use Rattle.prefix_table.specs.Entries.{ShowsFirst};
ghost use Rattle.prefix_table.specs.Parts.{AreStarted, covering};

use crate::network::{Address, Network};
use crate::table::PrefixTable;
use std::alloc::AllocError;
use std::iter::FusedIterator;
use std::marker::Model;

/// An iterator over adjacent entries of a table, in order. Contracts see the list of those that are left.
#[derive(Drop)]
pub struct Entries<'a, V> {
    table: &'a PrefixTable<V>,
    from: usize,
    to: usize,
}

impl<'a, V> Model for Entries<'a, V> {
    ghost use Rattle.std.specs.Prelude.{◌≤◌, List, drop, length, take};
    ghost use Rattle.prefix_table.specs.declared.network.Network.{Network};

    ghost Value = { List (Network × V) };

    ghost view = { λ m. drop m.from (take m.to m.table.now) };

    ghost invariant = { λ m. (m.from ≤ m.to) × (m.to ≤ length m.table.now) };
}

impl<'a, V> Entries<'a, V> {
    pub(crate) fn new(table: &'a PrefixTable<V>, from: usize, to: usize) -> Self
        requires order { from ≤ to }
        requires within { to ≤ length table.now }
        ensures { result ≡ drop from (take to table.now) }
    {
        Entries { table, from, to }
    }
}

impl<'a, V> Clone for Entries<'a, V> {
    ghost is_clone = { λ iterator copy. copy ≡ iterator };

    ghost is_infallible = { λ iterator. ⊤ };

    fn clone(&self) -> Result<Self, AllocError> {
        Ok(Entries {
            table: self.table,
            from: self.from,
            to: self.to,
        })
    }
}

impl<'a, V> Iterator for Entries<'a, V> {
    type Item = (Network, &'a V);

    ghost next_gives = { ShowsFirst };

    ghost remaining = { λ s. at_most (length s) };

    fn next(&mut self) -> Option<(Network, &'a V)> {
        if self.from == self.to {
            return None;
        }
        let entry = self.table.entry(self.from);
        self.from += 1;
        Some(entry)
    }

    fn size_hint(&self) -> (usize, Option<usize>)
        ensures lower { IsWithinCount result.0 (at_most (length self.now)) }
        ensures upper { IfSome result.1 (UpTo (at_most (length self.now))) }
        ensures bounded { IsSome result.1 }
    {
        let many = self.to - self.from;
        (many, Some(many))
    }
}

impl<'a, V> FusedIterator for Entries<'a, V> {}

/// An iterator over the entries of a table whose networks cover an address, from the longest to the shortest. Contracts
/// see the list of those that are left.
#[derive(Drop)]
pub struct Matches<'a, V> {
    table: &'a PrefixTable<V>,
    address: Address,
    upto: usize,
}

impl<'a, V> Model for Matches<'a, V> {
    ghost use Rattle.std.specs.Prelude.{◌≤◌, List, length, take};
    ghost use Rattle.prefix_table.specs.declared.network.Network.{Network};
    ghost use Rattle.prefix_table.specs.Parts.{AreStarted, covering};

    ghost Value = { List (Network × V) };

    ghost view = { λ m. covering m.address (take m.upto m.table.now) };

    ghost invariant = { λ m. AreStarted m.table.now m.address m.upto };
}

impl<'a, V> Matches<'a, V> {
    pub(crate) fn new(table: &'a PrefixTable<V>, address: Address, upto: usize) -> Self
        requires { AreStarted table.now address upto }
        ensures { result ≡ covering address (take upto table.now) }
    {
        Matches {
            table,
            address,
            upto,
        }
    }
}

impl<'a, V> Clone for Matches<'a, V> {
    ghost is_clone = { λ iterator copy. copy ≡ iterator };

    ghost is_infallible = { λ iterator. ⊤ };

    fn clone(&self) -> Result<Self, AllocError> {
        Ok(Matches {
            table: self.table,
            address: self.address,
            upto: self.upto,
        })
    }
}

impl<'a, V> Iterator for Matches<'a, V> {
    type Item = (Network, &'a V);

    ghost next_gives = { ShowsFirst };

    ghost remaining = { λ s. at_most (length s) };

    fn next(&mut self) -> Option<(Network, &'a V)> {
        let found = self.table.last_covering(self.upto, self.address);
        if found == 0 {
            self.upto = 0;
            return None;
        }
        self.upto = found - 1;
        Some(self.table.entry(found - 1))
    }

    fn size_hint(&self) -> (usize, Option<usize>)
        ensures lower { IsWithinCount result.0 (at_most (length self.now)) }
        ensures upper { IfSome result.1 (UpTo (at_most (length self.now))) }
        ensures bounded { IsSome result.1 }
    {
        (0, Some(self.upto))
    }
}

impl<'a, V> FusedIterator for Matches<'a, V> {}
