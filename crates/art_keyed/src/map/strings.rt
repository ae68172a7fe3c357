//! Maps whose keys represent strings of bytes.
ghost use Rattle.std.specs.Prelude.{◌≡◌, ◌<◌, ◌^◌, length, IfSome, None, Some};
ghost use Rattle.std.specs.Option.{option_map};
ghost use Rattle.art_model.specs.Pairs.{IsMap, first_of, last_of, of_key};
ghost use Rattle.art_model.specs.Parts.{without_below};
ghost use Rattle.art_iterating.specs.MapItems.{deref_pair};
ghost use Rattle.art_keyed.specs.KeyedValues.{CountsRemoved, KeepsOtherKeys, value_of};
ghost use Rattle.art_keyed.specs.KeyedPairs.{strings_below, strings_in_front, strings_not_below};

use super::TreeMap;
use art_keys::laws::StringBytes;
use art_map::map::Range;

impl<K: StringBytes + Drop, V: Drop, const P: usize> TreeMap<K, V, P> {
    /// Returns an iterator over the pairs whose strings start with that of a key, in the order of their keys. It costs
    /// what `prefix` of a `ByteMap` does, and allocates nothing.
    pub fn prefix(&self, prefix: &K) -> Range<'_, K, V, P>
        ensures pairs { result ≡ strings_below K.text (K.text prefix.now) self.now }
        ensures sorted { IsMap (of_key K.bytes) self.now }
        ensures fits { length result < 2 ^ 64 }
    {
        self.map.prefix(prefix.beginning())
    }

    /// Removes all pairs whose strings start with that of a key at once, and returns how many there were. It allocates
    /// nothing and never fails.
    pub fn remove_prefix(&mut self, prefix: &K) -> usize
        ensures pairs { self.new ≡ strings_not_below K.text (K.text prefix.now) self.old }
        ensures removed { result ≡ length (strings_below K.text (K.text prefix.now) self.old) }
    {
        self.map.remove_prefix(prefix.beginning())
    }

    /// Removes the first of the pairs whose strings start with that of a key, and returns it, or `None` if there is
    /// none. It allocates nothing and never fails.
    pub fn pop_first_below(&mut self, prefix: &K) -> Option<(K, V)>
        // What is left, and what is returned.
        ensures pairs { self.new ≡ without_below (of_key K.text) (K.text prefix.now) 1 self.old }
        ensures removed { result ≡ first_of (strings_below K.text (K.text prefix.now) self.old) }
        // Of single keys: the one that went, and the others.
        ensures key { IfSome result (λ pair. K.is_key pair.0) }
        ensures stored { IfSome result (λ pair.
            value_of K.bytes pair.0 self.old ≡ Some pair.1) }
        ensures gone { IfSome result (λ pair. value_of K.bytes pair.0 self.new ≡ None) }
        ensures other_keys { IfSome result (λ pair.
            KeepsOtherKeys K.is_key K.bytes pair.0 self.old self.new) }
        ensures len { CountsRemoved result self.old self.new }
    {
        self.map.pop_first_below(prefix.beginning())
    }
}

impl<K: StringBytes + Drop, V: Drop, const P: usize> TreeMap<K, V, P> {
    /// Returns the pair with the longest string that is a prefix of a key's string, or equal to it, or `None` if there
    /// is none.
    ///
    /// It descends along the key's string. If the string that it finds is not a prefix of that string, it descends once
    /// more, along what both share. It allocates nothing.
    pub fn longest_match_key(&self, query: &K) -> Option<(&K, &V)>
        ensures pair { option_map deref_pair result ≡
            last_of (strings_in_front K.text (K.text query.now) self.now) }
        ensures sorted { IsMap (of_key K.bytes) self.now }
    {
        self.map.longest_text(query.beginning(), 0)
    }
}
