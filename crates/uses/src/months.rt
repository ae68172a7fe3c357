//! A map as a caller uses it. Its contracts speak of lists of pairs, so each result is known.
ghost use Rattle.std.specs.Prelude.{◌≡◌, ◌∷◌, [], Some, IfSome};
ghost use Rattle.std.specs.Option.{option_map};
ghost use Rattle.art_model.specs.Pairs.{first_of};

use art_operations::map::ByteMap;
use std::alloc::Global;

/// Inserts three pairs, the last one with the key of the first, and empties the map. Returns the pair that was
/// replaced, the value of the key 1, the value with which an iteration starts, and the last pair. Returns `None` if an
/// allocation fails.
pub fn build_and_empty(
    alloc: Global,
) -> Option<
    (
        Option<([u8; 1], u32)>,
        Option<u32>,
        Option<u32>,
        Option<([u8; 1], u32)>,
    ),
>
    ensures { IfSome result (λ told.
        told ≡ (Some (2 ∷ [], 28), Some 31, Some 31, Some (2 ∷ [], 29))) }
{
    let mut map: ByteMap<[u8; 1], u32, 4> = ByteMap::new(alloc);
    let Ok(_) = map.insert([2], 28) else {
        return None;
    };
    let Ok(_) = map.insert([1], 31) else {
        return None;
    };
    let Ok(replaced) = map.insert([2], 29) else {
        return None;
    };
    let found = map.get(&[1]).copied();
    let first = first_value(&map);
    let last = map.pop_last().unwrap();
    map.clear();
    Some((replaced, found, first, last))
}

// Returns the value with which an iteration starts.
fn first_value(map: &ByteMap<[u8; 1], u32, 4>) -> Option<u32>
    ensures { result ≡ option_map (λ pair. pair.1) (first_of map.now) }
{
    match map.iter().next() {
        Some(pair) => Some(*pair.1),
        None => None,
    }
}
