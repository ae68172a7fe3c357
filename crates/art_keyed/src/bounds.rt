//! Bounds of keys and of texts, as those of the bytes that a tree compares.
ghost use Rattle.std.specs.Prelude.{◌≡◌, [], ◌∷◌, ◌++◌};
ghost use Rattle.std.specs.Range.Bound.{bound_map};
ghost use Rattle.art_keys.specs.Ended.{ended};
ghost use Rattle.art_keyed.specs.KeyedPairs.{OnBound};

use art_keys::laws::OrderedBytes;
use art_reading::lookup::EndedQuery;
use std::ops::Bound;

/// Returns the bound at the bytes of its key.
pub fn bytes_of<'k, K: OrderedBytes>(bound: Bound<&'k K>) -> Bound<&'k [u8]>
    ensures bytes { bound_map (λ b. b.now) result ≡
        bound_map (λ b. K.bytes b.now) bound.entry }
    ensures key { OnBound K.is_key (bound_map (λ b. b.now) bound.entry) }
{
    match bound {
        Bound::Included(key) => {
            key.as_key();
            Bound::Included(key.as_bytes())
        }
        Bound::Excluded(key) => {
            key.as_key();
            Bound::Excluded(key.as_bytes())
        }
        Bound::Unbounded => Bound::Unbounded,
    }
}

/// Returns the bound at the key of a text that is ended by a zero. The key is not built.
#[inline(always)]
pub fn bound_of(bound: Bound<&[u8]>) -> Bound<EndedQuery<'_>>
    ensures { bound_map (λ query. query.text.now ++ query.end ∷ []) result ≡
        bound_map (λ text. ended text.now) bound.entry }
{
    match bound {
        Bound::Included(text) => Bound::Included(EndedQuery { text, end: 0 }),
        Bound::Excluded(text) => Bound::Excluded(EndedQuery { text, end: 0 }),
        Bound::Unbounded => Bound::Unbounded,
    }
}
