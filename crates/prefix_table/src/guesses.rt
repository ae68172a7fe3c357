//! Guesses of where a number is among sorted ones, by its first bits.
ghost use Rattle.std.specs.Prelude.{◌≤◌};

use std::alloc::{AllocError, Global};

/// For each value of the first bits by which numbers differ from the least one how many are before those. A caller tests a
/// guess before it uses it, so that contracts say nothing of guesses.
#[derive(Drop)]
pub struct Guesses {
    counts: Vec<u32>,
    least: u128,
    shift: u32,
}

impl Guesses {
    /// Returns no guesses, without an allocation.
    pub fn none(alloc: Global) -> Self {
        Guesses {
            counts: Vec::new(alloc),
            least: 0,
            shift: 0,
        }
    }

    /// Returns guesses for sorted numbers of 32 bits: none for a few, else by up to 16 bits.
    pub fn of_four(alloc: Global, numbers: &[u32]) -> Result<Self, AllocError> {
        let bits = bits_for(numbers.len());
        if bits == 0 {
            return Ok(Guesses::none(alloc));
        }
        let mut counts = Vec::new(alloc);
        for first in 0..1u32 << bits {
            let start = first << (32 - u32::from(bits));
            counts.push(small(numbers.partition_point(|number| *number < start)))?;
        }
        counts.push(small(numbers.len()))?;
        Ok(Guesses {
            counts,
            least: 0,
            shift: 32 - u32::from(bits),
        })
    }

    /// Returns guesses for sorted numbers of 128 bits: none for a few, else by up to 16 bits. Addresses of version 6 mostly
    /// have the same bits at their start, by which nothing is guessed.
    pub fn of_six(alloc: Global, numbers: &[u128]) -> Result<Self, AllocError> {
        let bits = bits_for(numbers.len());
        let (Some(least), Some(most)) = (numbers.first(), numbers.last()) else {
            return Ok(Guesses::none(alloc));
        };
        if bits == 0 {
            return Ok(Guesses::none(alloc));
        }
        let (least, most) = (*least, *most);
        let width = 128u32.saturating_sub(most.saturating_sub(least).leading_zeros());
        let shift = width.saturating_sub(u32::from(bits));
        let mut counts = Vec::new(alloc);
        for first in 0..1u32 << bits {
            let above = u128::from(first).checked_shl(shift).unwrap_or(0);
            let start = least.saturating_add(above);
            counts.push(small(numbers.partition_point(|number| *number < start)))?;
        }
        counts.push(small(numbers.len()))?;
        Ok(Guesses {
            counts,
            least,
            shift,
        })
    }

    /// Returns how many numbers are before those that start as this one of 32 bits, and how many are up to them.
    pub fn around_four(&self, number: u32) -> (usize, usize) {
        let first = u64::from(number).checked_shr(self.shift).unwrap_or(0);
        self.at((first & 0xffff) as u16)
    }

    /// Returns the same for a number of 128 bits.
    pub fn around_six(&self, number: u128) -> (usize, usize) {
        let above = number.saturating_sub(self.least);
        let first = above.checked_shr(self.shift).unwrap_or(0);
        self.at((first & 0xffff) as u16)
    }

    fn at(&self, first: u16) -> (usize, usize) {
        let first = usize::from(first);
        match (self.counts.get(first), self.counts.get(first + 1)) {
            (Some(from), Some(to)) => (*from as usize, *to as usize),
            _ => (1, 0),
        }
    }
}

// By how many bits so many numbers are guessed: four numbers or more for each guess, and at most 16 bits.
fn bits_for(count: usize) -> u8
    ensures { result ≤ 16 }
{
    let bits = count.checked_ilog2().unwrap_or(0).saturating_sub(2);
    if bits < 16 { bits as u8 } else { 16 }
}

// A count that is too great for a guess is the greatest.
fn small(count: usize) -> u32 {
    u32::try_from(count).unwrap_or(u32::MAX)
}
