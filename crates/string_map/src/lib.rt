//! A map of byte strings to numbers whose calls take plain bytes and numbers and return a code, as programs in other
//! languages need it. The crate `art_c` exports these calls.
#![tactic(auto)]

use art_keyed::map::TreeMap;
use art_keys::escaped::Escaped;
use std::alloc::Global;
use std::marker::Model;

pub mod building;
pub mod calls;
pub mod codes;
pub mod frozen;
pub mod pairs;
pub mod prefixes;
pub mod threads;

/// A map of byte strings to numbers, until it is freed. Any string of bytes is a key, also the empty one.
#[derive(Drop)]
pub struct StringMap {
    pairs: Option<TreeMap<Escaped, u64, 16>>,
    alloc: Global,
}

/// In contracts a map is its pairs in the order of their keys, or `None` once it was freed.
impl Model for StringMap {
    ghost use Rattle.std.specs.Prelude.{List, Option, ℕ};

    ghost Value = { Option (List (List ℕ × ℕ)) };

    ghost view = { λ m. m.pairs };
}
