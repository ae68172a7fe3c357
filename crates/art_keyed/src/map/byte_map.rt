//! A `TreeMap` as a `ByteMap`, and back.
ghost use Rattle.std.specs.Prelude.{◌≡◌};
ghost use Rattle.art_keyed.specs.KeyedPairs.{HaveKeys};

use super::TreeMap;
use art_keys::laws::NoPrefixesBytes;
use art_map::map::ByteMap;

impl<K: NoPrefixesBytes + Drop, V: Drop, const P: usize> TreeMap<K, V, P> {
    /// Returns a map that has only keys of the type as a `TreeMap`, in constant time.
    pub fn from_byte_map(map: ByteMap<K, V, P>) -> Self
        requires { HaveKeys K.is_key map }
        ensures { result ≡ map }
    {
        TreeMap { map }
    }

    /// Returns the map as a `ByteMap`, in constant time.
    pub fn into_byte_map(self) -> ByteMap<K, V, P>
        ensures pairs { result ≡ self }
        ensures keys { HaveKeys K.is_key self }
    {
        self.map
    }
}
