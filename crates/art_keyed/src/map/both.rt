//! Insertion of a pair into each of two maps, or into neither.
ghost use Rattle.std.specs.Prelude.{◌≡◌, Some, IfErr, IfOk, OnErr, OnOk};
ghost use Rattle.art_model.specs.Pairs.{of_key, put, put_reply};
ghost use Rattle.art_changing.specs.MapAnswers.{refused_pair};
ghost use Rattle.art_keyed.specs.KeyedRefusals.{AreHandedBack, IsOneNew};
ghost use Rattle.art_keyed.specs.KeyedValues.{KeepsOtherKeys, value_of};

use super::TreeMap;
use art_keys::laws::NoPrefixesBytes;
use art_map::map::{BothInsertError, MapInsertError};
use thiserror::Error;

/// Two pairs that were not inserted, since an allocation failed.
#[derive(Debug, Drop, Error)]
#[error("memory allocation failed")]
pub struct BothRefused<K, V, L, W> {
    pub pair: (K, V),
    pub other: (L, W),
}

impl<K: NoPrefixesBytes + Drop, V: Drop, const P: usize> TreeMap<K, V, P> {
    /// Inserts a pair here and another one into another map, or neither. Each is inserted as by `insert`: if an equal
    /// key is stored, the key that was passed is returned with the old value. Fails only if an allocation fails: then
    /// both pairs are returned, and both maps are unchanged.
    ///
    /// It costs what two insertions do.
    pub fn insert_both<L: NoPrefixesBytes + Drop, W: Drop, const Q: usize>(
        &mut self,
        pair: (K, V),
        other: &mut TreeMap<L, W, Q>,
        other_pair: (L, W),
    ) -> Result<(Option<(K, V)>, Option<(L, W)>), BothRefused<K, V, L, W>>
        // If it succeeds: this map, and then the other one.
        ensures pairs { OnOk result (self.new ≡ put (of_key K.bytes) pair self.old) }
        ensures replaced { IfOk result (λ replaced.
            replaced.0 ≡ put_reply (of_key K.bytes) pair self.old) }
        ensures found { OnOk result (value_of K.bytes pair.0 self.new ≡ Some pair.1) }
        ensures other_keys { OnOk result
            (KeepsOtherKeys K.is_key K.bytes pair.0 self.old self.new) }
        ensures second_pairs { OnOk result
            (other.new ≡ put (of_key L.bytes) other_pair other.old) }
        ensures second_replaced { IfOk result (λ replaced.
            replaced.1 ≡ put_reply (of_key L.bytes) other_pair other.old) }
        ensures second_found { OnOk result
            (value_of L.bytes other_pair.0 other.new ≡ Some other_pair.1) }
        ensures second_other_keys { OnOk result
            (KeepsOtherKeys L.is_key L.bytes other_pair.0 other.old other.new) }

        // If it fails.
        ensures handed_back { IfErr result (λ refused.
            (refused.pair ≡ pair) × (refused.other ≡ other_pair)) }
        ensures refused { OnErr result
            (IsOneNew K.bytes pair.0 self.old L.bytes other_pair.0 other.old) }
        ensures kept { OnErr result (self.new ≡ self.old) }
        ensures second_kept { OnErr result (other.new ≡ other.old) }
    {
        pair.0.as_key();
        other_pair.0.as_key();
        match self.map.insert_both(pair, &mut other.map, other_pair) {
            Ok(replaced) => Ok(replaced),
            Err(error) => Err(without_conflict(error)),
        }
    }
}

// Returns the pairs of an error, which is always that an allocation failed.
fn without_conflict<K, V, L, W>(error: BothInsertError<K, V, L, W>) -> BothRefused<K, V, L, W>
    ensures { AreHandedBack error result }
{
    match error {
        BothInsertError::First { error, pair } => BothRefused {
            pair: pair_of(error),
            other: pair,
        },
        BothInsertError::Second { pair, error } => BothRefused {
            pair,
            other: pair_of(error),
        },
    }
}

// Returns the pair of an error.
fn pair_of<K, V>(error: MapInsertError<K, V>) -> (K, V)
    ensures { result ≡ refused_pair error }
{
    let refused = error.into_pair();
    (refused.key, refused.value)
}
