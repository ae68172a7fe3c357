//! A map whose values are changed in place. The contracts state the pairs that result.
ghost use Rattle.std.specs.Prelude.{◌≡◌, ◌+◌, ◌∷◌, [], Some, IfSome, IsTrue, IsFalse, is_some};
ghost use Rattle.art_model.specs.Pairs.{of_key, put};
ghost use Rattle.art_operations.specs.MapAnswers.{value_at, with_value_at};

use art_operations::map::ByteMap;
use std::alloc::Global;

/// Inserts two pairs, adds 2 to the value of the first key and 1 to that of a new one, and removes and returns the
/// first and the last pair. Returns `None` if an allocation fails.
pub fn count_twice(alloc: Global) -> Option<(Option<([u8; 1], u32)>, Option<([u8; 1], u32)>)>
    ensures { IfSome result (λ told. told ≡ (Some (1 ∷ [], 9), Some (3 ∷ [], 1))) }
{
    let mut counts: ByteMap<[u8; 1], u32, 4> = ByteMap::new(alloc);
    let Ok(_) = counts.insert([2], 5) else {
        return None;
    };
    let Ok(_) = counts.insert([1], 7) else {
        return None;
    };
    if let Some(count) = counts.get_mut(&[1]) {
        *count += 2;
    }
    let Ok(count) = counts.get_or_insert([3], 0) else {
        return None;
    };
    *count += 1;
    let first = counts.pop_first().unwrap();
    let last = counts.pop_last().unwrap();
    Some((first, last))
}

/// Writes the value of a key, if the key is stored, and returns whether it is.
pub fn write_value(map: &mut ByteMap<[u8; 1], u32, 4>, key: &[u8], value: u32) -> bool
    ensures written { IsTrue result →
        map.new ≡ with_value_at (λ key. key) key.now value map.old }
    ensures kept { IsFalse result → map.new ≡ map.old }
    ensures found { result ≡ is_some (value_at (λ key. key) key.now map.old) }
{
    let Some(old) = map.get_mut(key) else {
        return false;
    };
    *old = value;
    true
}

/// Inserts a pair by the entry of its key. Returns false if the insertion fails; then the map is unchanged.
pub fn put_by_entry(map: &mut ByteMap<[u8; 1], u32, 4>, key: [u8; 1], value: u32) -> bool
    ensures put { IsTrue result →
        map.new ≡ put (of_key (λ key. key)) (key, value) map.old }
    ensures kept { IsFalse result → map.new ≡ map.old }
{
    let Ok(stored) = map.entry(key).or_insert(0) else {
        return false;
    };
    *stored = value;
    true
}

/// Returns the first key of a map of one pair, and how many pairs are left once the map is cleared. Returns `None` if
/// an allocation fails.
pub fn first_key(alloc: Global) -> Option<(Option<[u8; 1]>, usize)>
    ensures { IfSome result (λ told. told ≡ (Some (4 ∷ []), 0)) }
{
    let mut map: ByteMap<[u8; 1], u32, 4> = ByteMap::new(alloc);
    let Ok(_) = map.insert([4], 2) else {
        return None;
    };
    let first = match map.keys().next() {
        Some(key) => Some(*key),
        None => None,
    };
    map.clear();
    Some((first, map.len()))
}
