//! A law of sets: a function that does nothing, with the law as its contract.
ghost use Rattle.std.specs.Prelude.{◌≡◌, ℕ, cond, not, ◌&&◌, ◌||◌, List};
ghost use Rattle.art_model.specs.Pairs.{IsMap, has_key};
ghost use Rattle.art_sets.specs.SetAlgebra.{difference, intersection, symmetric_difference, union};

use art_nodes::node::AsBytes;

/// The union of two sets has the keys of either, the intersection those of both, the difference those of the first that
/// the second lacks, and the symmetric difference those of exactly one.
pub fn keys_of_two_sets<K: AsBytes>()
    ensures union { (keys others : List K) (key : List ℕ) →
        has_key K.bytes key (union K.bytes keys others) ≡
        (has_key K.bytes key keys || has_key K.bytes key others) }
    ensures intersection { (keys others : List K) (key : List ℕ) →
        has_key K.bytes key (intersection K.bytes keys others) ≡
        (has_key K.bytes key keys && has_key K.bytes key others) }
    ensures difference { (keys others : List K) (key : List ℕ) →
        has_key K.bytes key (difference K.bytes keys others) ≡
        (has_key K.bytes key keys && not (has_key K.bytes key others)) }
    ensures symmetric_difference { (keys others : List K) →
        IsMap K.bytes keys → IsMap K.bytes others → (key : List ℕ) →
        has_key K.bytes key (symmetric_difference K.bytes keys others) ≡
        cond (has_key K.bytes key keys) (not (has_key K.bytes key others))
        (has_key K.bytes key others) }
{}
