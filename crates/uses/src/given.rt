//! A map that is consumed, and a set.
ghost use Rattle.std.specs.Prelude.{◌≡◌, ◌∷◌, [], Some, None, IfSome, false, true};
ghost use Rattle.art_model.specs.Pairs.{first_of};
ghost use Rattle.art_operations.specs.MapItems.{keys_of};

use art_operations::map::ByteMap;
use art_operations::set::ByteSet;
use std::alloc::Global;

/// Consumes a map, and returns its first pair, if any. The others are dropped.
pub fn first_by_value(map: ByteMap<[u8; 1], u32, 4>) -> Option<([u8; 1], u32)>
    ensures { result ≡ first_of map }
{
    map.into_iter().next()
}

/// Consumes a map, and returns its first key, if any.
pub fn first_key_by_value(map: ByteMap<[u8; 1], u32, 4>) -> Option<[u8; 1]>
    ensures { result ≡ first_of (keys_of map) }
{
    map.into_keys().next()
}

/// Inserts a key, and then another one twice. Returns whether the other one was new each time, and the first key.
/// Returns `None` if an allocation fails.
pub fn which_are_new(alloc: Global) -> Option<(bool, bool, Option<[u8; 1]>)>
    ensures { IfSome result (λ told. told ≡ (true, false, Some (2 ∷ []))) }
{
    let mut set: ByteSet<[u8; 1], 4> = ByteSet::new(alloc);
    let Ok(_) = set.insert([3]) else {
        return None;
    };
    let Ok(second) = set.insert([2]) else {
        return None;
    };
    let Ok(again) = set.insert([2]) else {
        return None;
    };
    Some((second, again, set.pop_first()))
}
