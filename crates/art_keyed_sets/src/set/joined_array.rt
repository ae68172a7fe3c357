//! Sets whose keys are two keys of fixed lengths joined into one, in an array.
ghost use Rattle.std.specs.Prelude.{◌≡◌, ◌<◌, ◌^◌, length};
ghost use Rattle.art_model.specs.Pairs.{IsMap};
ghost use Rattle.art_keys.specs.Joins.{joined_bytes};
ghost use Rattle.art_keyed.specs.KeyedPairs.{set_with_first};

use super::TreeSet;
use art_keys::joined_array::JoinedArray;
use art_keys::laws::FixedBytes;
use art_sets::set::KeyRange;

impl<A: FixedBytes, B: FixedBytes, const N: usize, const P: usize> TreeSet<
    JoinedArray<A, B, N>,
    P,
> {
    /// Returns an iterator over the keys that have this first key, in the order of the bytes of the second keys. It
    /// costs what `with_first` of the map does.
    pub fn with_first(&self, first: &A) -> KeyRange<'_, JoinedArray<A, B, N>, P>
        ensures keys { result ≡ set_with_first A.bytes (A.bytes first.now) self.now }
        ensures sorted { IsMap (joined_bytes A.bytes B.bytes) self.now }
        ensures fits { length result < 2 ^ 64 }
    {
        first.as_key();
        self.set.prefix(first.as_bytes())
    }
}
