//! Parts of a map, as a caller uses them. Each result is known.
ghost use Rattle.std.specs.Prelude.{◌≡◌, ◌≤◌, ◌∷◌, [], length, Some, IfSome};
ghost use Rattle.std.specs.Option.{option_map};
ghost use Rattle.art_model.specs.Pairs.{first_of, last_of, of_key};
ghost use Rattle.art_model.specs.Parts.{below};

use art_nodes::node::AsBytes;
use art_operations::map::{ByteMap, Range};
use std::alloc::Global;

type Map = ByteMap<[u8; 2], u32, 4>;

/// Returns the last value with the prefix 1, and the first and the last value of a range of keys. Returns `None` if an
/// allocation fails.
pub fn build_and_ask(alloc: Global) -> Option<(Option<u32>, Option<u32>, Option<u32>)>
    ensures { IfSome result (λ told. told ≡ (Some 12, Some 12, Some 21)) }
{
    let map = build(alloc)?;
    let below = last_value(map.prefix(&[1]));
    let (from, to): (&[u8], &[u8]) = (&[1, 2], &[3]);
    Some((
        below,
        first_value(map.range(from..to)),
        last_value(map.range(from..to)),
    ))
}

/// Removes the pairs with the prefix 1, and returns how many there were and the first value that is left. Returns
/// `None` if an allocation fails.
pub fn build_and_remove(alloc: Global) -> Option<(usize, Option<u32>)>
    ensures { IfSome result (λ told. told ≡ (2, Some 21)) }
{
    let mut map = build(alloc)?;
    let removed = map.remove_prefix(&[1]);
    Some((removed, first_value(map.prefix(&[]))))
}

/// Counts the pairs with a prefix in any map. The count does not overflow: a `usize` can count all pairs of a map.
pub fn count_below<K: AsBytes + Drop, V: Drop, const P: usize>(
    map: &ByteMap<K, V, P>,
    prefix: &[u8],
) -> usize
    ensures { result ≡ length (below (of_key K.bytes) prefix.now map.now) }
{
    map.prefix(prefix).count()
}

// Returns a map of four pairs, or `None` if an allocation fails.
fn build(alloc: Global) -> Option<Map>
    ensures { IfSome result (λ map. map ≡
        (1 ∷ 1 ∷ [], 11) ∷ (1 ∷ 2 ∷ [], 12) ∷ (2 ∷ 1 ∷ [], 21) ∷ (3 ∷ 1 ∷ [], 31) ∷ []) }
{
    let mut map: Map = ByteMap::new(alloc);
    let Ok(_) = map.insert([1, 1], 11) else {
        return None;
    };
    let Ok(_) = map.insert([1, 2], 12) else {
        return None;
    };
    let Ok(_) = map.insert([2, 1], 21) else {
        return None;
    };
    let Ok(_) = map.insert([3, 1], 31) else {
        return None;
    };
    Some(map)
}

// Returns the first value of a part.
fn first_value(mut part: Range<'_, [u8; 2], u32, 4>) -> Option<u32>
    ensures { result ≡ option_map (λ pair. pair.1) (first_of part.entry) }
{
    match part.next() {
        Some(pair) => Some(*pair.1),
        None => None,
    }
}

// Returns the last value of a part.
fn last_value(mut part: Range<'_, [u8; 2], u32, 4>) -> Option<u32>
    ensures { result ≡ option_map (λ pair. pair.1) (last_of part.entry) }
{
    match part.next_back() {
        Some(pair) => Some(*pair.1),
        None => None,
    }
}
