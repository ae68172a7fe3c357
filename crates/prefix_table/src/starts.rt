//! The addresses at which networks start, with numbers of their own width.
ghost use Rattle.std.specs.Prelude.{◌≡◌, ℕ, ◌+◌, ◌^◌, ◌<◌, ◌≤◌, [], ◌∷◌, ◌++◌, length, IfOk, OnOk};
ghost use Rattle.std.specs.List.Sorted.{IsNonDecreasing, IsPartitionPoint};
ghost use Rattle.prefix_table.specs.Networks.{IsAddress, IsUpTo};
ghost use Rattle.prefix_table.specs.Starts.{AreUpwards, IsCount, IsPartFor, start_at};
ghost use Rattle.std.specs.Bool.{OnTrue};

use crate::guesses::Guesses;
use crate::network::Address;
use std::alloc::{AllocError, Global};
use std::marker::Model;

/// Addresses in order: numbers of 4 bytes for version 4, and of 16 for version 6. Contracts see the list of them.
#[derive(Drop)]
pub struct Starts {
    four: Vec<u32>,
    six: Vec<u128>,
    guesses_four: Guesses,
    guesses_six: Guesses,
}

impl Model for Starts {
    ghost use Rattle.std.specs.Prelude.{List};
    ghost use Rattle.prefix_table.specs.declared.network.Address.{Address};
    ghost use Rattle.prefix_table.specs.Starts.{starts_of};

    ghost Value = { List Address };

    ghost view = { λ s. starts_of s.four.items s.six.items };
}

impl Starts {
    /// Returns no address, without an allocation.
    pub fn new(alloc: Global) -> Self
        ensures { result ≡ [] }
    {
        Starts {
            four: Vec::new(alloc),
            six: Vec::new(alloc),
            guesses_four: Guesses::none(alloc),
            guesses_six: Guesses::none(alloc),
        }
    }

    /// Returns no address, with room for so many of both versions.
    pub fn with_capacity(alloc: Global, four: usize, six: usize) -> Result<Self, AllocError>
        ensures { IfOk result (λ starts. starts ≡ []) }
    {
        Ok(Starts {
            four: Vec::with_capacity(alloc, four)?,
            six: Vec::with_capacity(alloc, six)?,
            guesses_four: Guesses::none(alloc),
            guesses_six: Guesses::none(alloc),
        })
    }

    /// Returns the address at an index.
    pub fn get(&self, index: usize) -> Address
        requires { index < length self.now }
        ensures { result ≡ start_at self.now index }
    {
        let four = self.four.len();
        if index < four {
            Address {
                number: u128::from(self.four[index]),
                version: 4,
            }
        } else {
            Address {
                number: self.six[index - four],
                version: 6,
            }
        }
    }

    /// Adds an address that is not before the last one.
    pub fn push(&mut self, address: Address) -> Result<(), AllocError>
        requires address { IsAddress address }
        requires order { (k : ℕ) → k < length self.old → IsUpTo (start_at self.old k) address }
        ensures { OnOk result (self.new ≡ self.old ++ address ∷ []) }
    {
        if address.version == 4 {
            self.four.push(address.number as u32)?;
        } else {
            self.six.push(address.number)?;
        }
        Ok(())
    }

    /// Makes `count_near` fast for the addresses that are there now.
    pub fn guess(&mut self, alloc: Global) -> Result<(), AllocError>
        ensures { self.new ≡ self.old }
    {
        self.guesses_four = Guesses::of_four(alloc, &self.four)?;
        self.guesses_six = Guesses::of_six(alloc, &self.six)?;
        Ok(())
    }

    /// Returns a guess of the part in which an address is searched, for `count_near`. Contracts say nothing of it.
    pub fn guess_for(&self, address: Address) -> (usize, usize)
        requires { IsAddress address }
    {
        if address.version == 4 {
            self.guesses_four.around_four(address.number as u32)
        } else {
            self.guesses_six.around_six(address.number)
        }
    }

    /// Does what `guess_for` does, and tests the guess, which reads the part. Contracts say nothing of it.
    pub fn part_for(&self, address: Address) -> (usize, usize)
        requires { IsAddress address }
    {
        let guess = self.guess_for(address);
        if address.version == 4 {
            part_four(&self.four, guess, address.number as u32)
        } else {
            part_six(&self.six, guess, address.number)
        }
    }

    /// Returns how many addresses are not after this one. Any guess may be passed: a wrong one costs a search in all.
    pub fn count_near(&self, guess: (usize, usize), address: Address) -> Counted
        requires few { length self.now < 2 ^ 64 }
        requires address { IsAddress address }
        requires order { AreUpwards self.now }
        ensures count { IsCount self.now address result.count }
        ensures looked { (k : ℕ) → length self.now < 2 ^ k → result.looked ≤ k + 2 }
    {
        if address.version == 4 {
            return count_four(&self.four, guess, address.number as u32);
        }
        let found = count_six(&self.six, guess, address.number);
        Counted {
            count: self.four.len() + found.count,
            looked: found.looked,
        }
    }
}

/// What a binary search has found.
#[derive(Clone, Copy)]
pub struct Counted {
    /// How many are not after what was searched.
    pub count: usize,
    /// How many were looked at.
    pub looked: usize,
}

// Returns how many of sorted numbers are at most this one: a search in the part that is guessed. Two numbers show whether
// the guess is right.
fn count_four(numbers: &[u32], guess: (usize, usize), most: u32) -> Counted
    requires { IsNonDecreasing numbers.now }
    ensures parts { IsPartitionPoint (λ n. n ≤ most) (λ n. most < n) numbers.now result.count }
    ensures bounded { result.count ≤ length numbers.now }
    ensures looked { (k : ℕ) → length numbers.now < 2 ^ k → result.looked ≤ k + 2 }
{
    let (from, to) = part_four(numbers, guess, most);
    let found = search_four(numbers, from, to, most);
    Counted {
        count: found.count,
        looked: found.looked + 2,
    }
}

// Returns the part that is guessed, if that is right, else all.
fn part_four(numbers: &[u32], guess: (usize, usize), most: u32) -> (usize, usize)
    ensures { IsPartFor numbers.now result.0 result.1 most }
{
    let (from, to) = guess;
    if is_part_four(numbers, from, to, most) {
        guess
    } else {
        (0, numbers.len())
    }
}

fn is_part_four(numbers: &[u32], from: usize, to: usize, most: u32) -> bool
    ensures { OnTrue result (IsPartFor numbers.now from to most) }
{
    from <= to
        && to <= numbers.len()
        && (from == 0 || numbers[from - 1] <= most)
        && (to == numbers.len() || most < numbers[to])
}

// Returns how many of sorted numbers are at most this one, by a binary search in a part.
fn search_four(numbers: &[u32], mut from: usize, to: usize, most: u32) -> Counted
    requires sorted { IsNonDecreasing numbers.now }
    requires part { IsPartFor numbers.now from to most }
    ensures parts { IsPartitionPoint (λ n. n ≤ most) (λ n. most < n) numbers.now result.count }
    ensures bounded { result.count ≤ length numbers.now }
    ensures looked { (k : ℕ) → length numbers.now < 2 ^ k → result.looked ≤ k }
    ensures small { result.looked ≤ 64 }
{
    let mut size = to - from;
    let mut looked = 0;
    while size > 0 {
        let half = size / 2;
        looked += 1;
        if numbers[from + half] <= most {
            from += half + 1;
            size -= half + 1;
        } else {
            size = half;
        }
    }
    Counted {
        count: from,
        looked,
    }
}

// The same of numbers of 128 bits.
fn count_six(numbers: &[u128], guess: (usize, usize), most: u128) -> Counted
    requires { IsNonDecreasing numbers.now }
    ensures parts { IsPartitionPoint (λ n. n ≤ most) (λ n. most < n) numbers.now result.count }
    ensures bounded { result.count ≤ length numbers.now }
    ensures looked { (k : ℕ) → length numbers.now < 2 ^ k → result.looked ≤ k + 2 }
{
    let (from, to) = part_six(numbers, guess, most);
    let found = search_six(numbers, from, to, most);
    Counted {
        count: found.count,
        looked: found.looked + 2,
    }
}

// Returns the part that is guessed, if that is right, else all.
fn part_six(numbers: &[u128], guess: (usize, usize), most: u128) -> (usize, usize)
    ensures { IsPartFor numbers.now result.0 result.1 most }
{
    let (from, to) = guess;
    if is_part_six(numbers, from, to, most) {
        guess
    } else {
        (0, numbers.len())
    }
}

fn is_part_six(numbers: &[u128], from: usize, to: usize, most: u128) -> bool
    ensures { OnTrue result (IsPartFor numbers.now from to most) }
{
    from <= to
        && to <= numbers.len()
        && (from == 0 || numbers[from - 1] <= most)
        && (to == numbers.len() || most < numbers[to])
}

#[tactic(auto, using(crate::proofs::StartLemmas::search_six_facts))]
fn search_six(numbers: &[u128], mut from: usize, to: usize, most: u128) -> Counted
    requires sorted { IsNonDecreasing numbers.now }
    requires part { IsPartFor numbers.now from to most }
    ensures parts { IsPartitionPoint (λ n. n ≤ most) (λ n. most < n) numbers.now result.count }
    ensures bounded { result.count ≤ length numbers.now }
    ensures looked { (k : ℕ) → length numbers.now < 2 ^ k → result.looked ≤ k }
    ensures small { result.looked ≤ 64 }
{
    let mut size = to - from;
    let mut looked = 0;
    while size > 0 {
        let middle = size / 2;
        looked += 1;
        if numbers[from + middle] <= most {
            from += middle + 1;
            size -= middle + 1;
        } else {
            size = middle;
        }
    }
    Counted {
        count: from,
        looked,
    }
}
