//! Calls that first read a leaf which may have the key, as those of a `ByteMap` do: the name of a leaf is a hint.
ghost use Rattle.std.specs.Prelude.{◌≡◌, ◌≢◌, List, IfErr, IfOk, OnErr, OnOk, Some, false, ℕ};
ghost use Rattle.std.specs.Borrow.{sem};
ghost use Rattle.std.specs.Option.{option_copied_mut, unwrap_or};
ghost use Rattle.art_model.specs.Pairs.{IsMap, has_key, of_key, put, put_reply};
ghost use Rattle.art_changing.specs.MapAnswers.{value_at};
ghost use Rattle.art_keyed.specs.KeyedLends.{lends_put, lends_value};
ghost use Rattle.art_keyed.specs.KeyedValues.{CountsPut, KeepsOtherKeys};

use super::{PairRefused, TreeMap};
use art_keys::laws::NoPrefixesBytes;
use art_map::map::MapInsertError;
use art_nodes::node::LeafPtr;
use art_reading::lookup::KeyQuery;

impl<K: NoPrefixesBytes + Drop, V: Drop, const P: usize> TreeMap<K, V, P> {
    /// Returns a mutable reference to the value of the key that is asked for, or `None` if it is not stored. The leaf of
    /// this name, if there is one, is read first: if it has the key, there is no descent.
    #[inline(always)]
    pub fn get_mut_near<Q: KeyQuery>(&mut self, near: Option<LeafPtr>, query: Q) -> Option<&mut V>
        ensures* writes_back { sem 𝓛 (lends_value K.row V.row P.row K.NoPrefixesBytes
            self.entry (Q.key query) result) }
        ensures value { option_copied_mut result ≡ value_at K.bytes (Q.key query) self.old }
    {
        self.map.get_mut_near(near, query)
    }

    /// Inserts a pair as `insert` does. The leaf of this name, if there is one, is read first: if it has the key, there
    /// is no descent. If it succeeds, the name is then that of the key's leaf, or `None` for the first pair of a map.
    pub fn insert_near(
        &mut self,
        near: &mut Option<LeafPtr>,
        key: K,
        value: V,
    ) -> Result<Option<(K, V)>, PairRefused<K, V>>
        // If it succeeds.
        ensures pairs { OnOk result (self.new ≡ put (of_key K.bytes) (key, value) self.old) }
        ensures replaced { IfOk result (λ replaced.
            replaced ≡ put_reply (of_key K.bytes) (key, value) self.old) }
        ensures found { OnOk result
            (value_at K.bytes (K.bytes key) self.new ≡ Some value) }
        ensures others { OnOk result ((other : List ℕ) → other ≢ K.bytes key →
            value_at K.bytes other self.new ≡ value_at K.bytes other self.old) }
        ensures other_keys { OnOk result
            (KeepsOtherKeys K.is_key K.bytes key self.old self.new) }
        ensures len { IfOk result (λ replaced. CountsPut replaced self.old self.new) }
        // In any case.
        ensures sorted { IsMap (of_key K.bytes) self.new }

        // If it fails.
        ensures handed_back { IfErr result (λ refused.
            (refused.key ≡ key) × (refused.value ≡ value)) }
        ensures refused { OnErr result
            (has_key (of_key K.bytes) (K.bytes key) self.old ≡ false) }
        ensures kept { OnErr result (self.new ≡ self.old) }
    {
        key.as_key();
        match self.map.insert_near(near, key, value) {
            Ok(replaced) => Ok(replaced),
            Err(MapInsertError::Conflict { .. }) => unreachable!(),
            Err(MapInsertError::Memory { key, value }) => Err(PairRefused { key, value }),
        }
    }

    /// Returns what `get_or_insert` does. The leaf of this name, if there is one, is read first: if it has the key, there
    /// is no descent.
    pub fn get_or_insert_near(
        &mut self,
        near: Option<LeafPtr>,
        key: K,
        value: V,
    ) -> Result<&mut V, PairRefused<K, V>>
        ensures* writes_back { sem 𝓛 (lends_put K.row V.row P.row K.NoPrefixesBytes
            self.entry key result) }
        ensures value { IfOk result (λ lent.
            lent.now ≡ unwrap_or (value_at K.bytes (K.bytes key) self.old) value) }
        ensures handed_back { IfErr result (λ refused.
            (refused.key ≡ key) × (refused.value ≡ value)) }
        ensures refused { OnErr result
            (has_key (of_key K.bytes) (K.bytes key) self.old ≡ false) }
    {
        key.as_key();
        match self.map.get_or_insert_near(near, key, value) {
            Ok(lent) => Ok(lent),
            Err(error) => Err(error.into_pair()),
        }
    }
}
