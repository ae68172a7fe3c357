//! Values in the order of networks.
ghost use Rattle.std.specs.Prelude.{◌≡◌, ◌^◌, ◌<◌, length, IfOk, OnErr, OnOk};
ghost use Rattle.prefix_table.specs.Arranging.{AreArranged, AreCounted, AreIndexes};

use std::alloc::{AllocError, Global};

/// Moves to each index the value at its place. On an error the values stay where they are.
pub fn arrange<V>(alloc: Global, places: &[u32], values: &mut [V]) -> Result<(), AllocError>
    requires places { AreIndexes places.now }
    requires values { length values.old ≡ length places.now }
    requires few { length places.now < 2 ^ 32 }
    ensures arranged { OnOk result (AreArranged places.now values.old values.new) }
    ensures kept { OnErr result (values.new ≡ values.old) }
{
    // At each index, the place that its value comes from; at each place, the index where its value is.
    let mut origins = counted(alloc, places.len())?;
    let mut indexes = counted(alloc, places.len())?;
    for at in 0..places.len() {
        let place = places[at] as usize;
        let index = indexes[place] as usize;
        let moved = origins[at] as usize;
        values.swap(at, index);
        origins.swap(at, index);
        indexes.swap(place, moved);
    }
    Ok(())
}

// Returns the numbers from 0 up to `count`.
fn counted(alloc: Global, count: usize) -> Result<Vec<u32>, AllocError>
    requires { count < 2 ^ 32 }
    ensures { IfOk result (λ numbers. AreCounted count numbers.items) }
{
    let mut numbers = Vec::with_capacity(alloc, count)?;
    for number in 0..count {
        numbers.push(number as u32)?;
    }
    Ok(numbers)
}
