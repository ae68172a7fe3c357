//! A set of the keys of a map without values.
ghost use Rattle.std.specs.Prelude.{◌≡◌};
ghost use Rattle.art_iterating.specs.MapItems.{keys_of};

use super::ByteSet;
use art_map::map::ByteMap;
use art_nodes::node::AsBytes;

impl<K: AsBytes + Drop, const P: usize> ByteSet<K, P> {
    /// Returns the set of the keys of a map, in constant time.
    pub fn from_map(map: ByteMap<K, (), P>) -> Self
        ensures { result ≡ keys_of map }
    {
        ByteSet { map }
    }
}
