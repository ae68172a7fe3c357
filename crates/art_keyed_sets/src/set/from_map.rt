//! A set of the keys of a map without values.
ghost use Rattle.std.specs.Prelude.{◌≡◌};
ghost use Rattle.art_iterating.specs.MapItems.{keys_of};

use super::TreeSet;
use art_keyed::map::TreeMap;
use art_keys::laws::NoPrefixesBytes;
use art_sets::set::ByteSet;

impl<K: NoPrefixesBytes + Drop, const P: usize> TreeSet<K, P> {
    /// Returns the set of the keys of a map, in constant time.
    pub fn from_map(map: TreeMap<K, (), P>) -> Self
        ensures { result ≡ keys_of map }
    {
        TreeSet {
            set: ByteSet::from_map(map.into_byte_map()),
        }
    }
}
