//! A law of keys that never conflict: a function that does nothing, with the law as its contract.
ghost use Rattle.art_keyed.specs.KeyedPairs.{IsNeverInConflict};

use art_keys::laws::NoPrefixesBytes;

/// No key of the type conflicts with a map of keys of the type.
pub fn keys_are_never_in_conflict<K: NoPrefixesBytes, V>()
    ensures { IsNeverInConflict V K.is_key K.bytes }
{}
