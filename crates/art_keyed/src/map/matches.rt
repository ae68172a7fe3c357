//! Matches: the strings of a map that are prefixes of a query.
ghost use Rattle.std.specs.Prelude.{◌≡◌, ◌+◌, ◌-◌, ◌<◌, ◌≤◌, List, length, take, IfSome, None, Some, ⊤};
ghost use Rattle.std.specs.Iterator.{UpTo, at_most};
ghost use Rattle.std.specs.Iterator.SizeHint.{IsWithinCount};
ghost use Rattle.std.specs.Option.{option_map};
ghost use Rattle.art_model.specs.Pairs.{first_of};
ghost use Rattle.art_iterating.specs.MapItems.{TakesFirst, TakesLast, deref_pair};
ghost use Rattle.art_keyed.specs.KeyedPairs.{strings_in_front};
ghost use Rattle.art_keyed.specs.Matches.{matches_left};

use super::TreeMap;
use art_keys::laws::StringBytes;
use art_keys::terminated::Terminated;
use art_nodes::node::AsBytes;
use std::alloc::AllocError;
use std::iter::FusedIterator;
use std::marker::Model;

/// A map in which matches are looked up: the strings that are prefixes of a query.
pub trait Nested<K: AsBytes, V> {
    ghost pairs: { Self → List (K × V) };

    /// Returns the pair with the shortest string of the matches that are left, or `None` if none is left. The longer
    /// ones are left.
    fn next_match<'q>(&self, left: &mut Option<&'q [u8]>, at_least: &mut usize) -> Option<(&K, &V)>
        ensures { TakesFirst
            (matches_left K.bytes (option_map (λ b. b.now) left.old) at_least.old
            (pairs self.now)) result
            (matches_left K.bytes (option_map (λ b. b.now) left.new) at_least.new
            (pairs self.now)) };

    /// Returns the pair with the longest string of the matches that are left, or `None` if none is left. The shorter
    /// ones are left.
    fn next_back_match<'q>(&self, left: &mut Option<&'q [u8]>, at_least: usize) -> Option<(&K, &V)>
        ensures { TakesLast
            (matches_left K.bytes (option_map (λ b. b.now) left.old) at_least
            (pairs self.now)) result
            (matches_left K.bytes (option_map (λ b. b.now) left.new) at_least (pairs self.now)) };
}

impl<K: StringBytes + Drop, V: Drop, const P: usize> Nested<K, V> for TreeMap<K, V, P> {
    ghost pairs = { λ pairs. pairs };

    fn next_match<'q>(
        &self,
        left: &mut Option<&'q [u8]>,
        at_least: &mut usize,
    ) -> Option<(&K, &V)> {
        let query = (*left)?;
        let pair = self.as_byte_map().shortest_text(query, 0, *at_least)?;
        *at_least = pair.0.as_bytes().len();
        Some(pair)
    }

    fn next_back_match<'q>(
        &self,
        left: &mut Option<&'q [u8]>,
        at_least: usize,
    ) -> Option<(&K, &V)> {
        let query = (*left)?;
        let pair = self.as_byte_map().longest_text(query, 0)?;
        if pair.0.as_bytes().len() <= at_least {
            return None;
        }
        *left = shorter(query, pair.0.as_bytes());
        Some(pair)
    }
}

// Returns the query cut to one byte less than the text of a key has: its prefixes are those of the query that are
// shorter than the text. `None` if the text is empty.
fn shorter<'q>(query: &'q [u8], key: &[u8]) -> Option<&'q [u8]>
    requires { length key.now ≤ length query.now + 1 }
    ensures empty { length key.now ≤ 1 → option_map (λ b. b.now) result ≡ None }
    ensures cut { 1 < length key.now →
        option_map (λ b. b.now) result ≡ Some (take (length key.now - 2) query.now) }
{
    if key.len() <= 1 {
        return None;
    }
    Some(&query[..key.len() - 2])
}

/// An iterator over the pairs of a map whose strings are prefixes of a query, the shortest first. In contracts it is
/// the list of the pairs not returned yet.
///
/// A step from the front is one descent from the root, and a step from the back costs what `longest_match` does.
/// Neither allocates.
#[derive(Drop)]
pub struct MatchesOf<'a, 'q, K: AsBytes, V, M: Nested<K, V>> {
    map: &'a M,
    left: Option<&'q [u8]>,
    at_least: usize,
    // Always `None`: it names the lifetime of what is borrowed.
    nothing: Option<(&'a K, &'a V)>,
}

/// The matches of a `TreeMap`.
pub type Matches<'a, 'q, K, V, const P: usize> = MatchesOf<'a, 'q, K, V, TreeMap<K, V, P>>;

impl<'a, 'q, K: AsBytes, V, M: Nested<K, V>> Model for MatchesOf<'a, 'q, K, V, M> {
    ghost use Rattle.std.specs.Prelude.{List};
    ghost use Rattle.std.specs.Coded.{coded×, coded_list};
    ghost use Rattle.std.specs.Option.{option_map};
    ghost use Rattle.art_keyed.specs.Matches.{matches_left};

    ghost Value = { List (K × V) };

    ghost coded = { coded_list (coded× K.code V.code) };

    ghost view = { λ m.
        matches_left K.bytes (option_map (λ b. b.now) m.left) m.at_least (M.pairs m.map.now) };
}

impl<'a, 'q, K: AsBytes, V, M: Nested<K, V>> Clone for MatchesOf<'a, 'q, K, V, M> {
    ghost is_clone = { λ iterator copy. copy ≡ iterator };

    ghost is_infallible = { λ iterator. ⊤ };

    fn clone(&self) -> Result<Self, AllocError> {
        Ok(MatchesOf {
            map: self.map,
            left: self.left,
            at_least: self.at_least,
            nothing: None,
        })
    }
}

impl<'a, 'q, K: AsBytes, V, M: Nested<K, V>> Iterator for MatchesOf<'a, 'q, K, V, M> {
    type Item = (&'a K, &'a V);

    ghost next_gives = { TakesFirst };

    ghost remaining = { λ s. at_most (length s) };

    fn next(&mut self) -> Option<(&'a K, &'a V)> {
        self.map.next_match(&mut self.left, &mut self.at_least)
    }

    fn size_hint(&self) -> (usize, Option<usize>)
        ensures lower { IsWithinCount result.0 (at_most (length self.now)) }
        ensures upper { IfSome result.1 (UpTo (at_most (length self.now))) }
    {
        (0, None)
    }
}

impl<'a, 'q, K: AsBytes, V, M: Nested<K, V>> DoubleEndedIterator for MatchesOf<'a, 'q, K, V, M> {
    ghost next_back_gives = { TakesLast };

    fn next_back(&mut self) -> Option<(&'a K, &'a V)> {
        self.map.next_back_match(&mut self.left, self.at_least)
    }
}

impl<'a, 'q, K: AsBytes, V, M: Nested<K, V>> FusedIterator for MatchesOf<'a, 'q, K, V, M> {}

impl<K: StringBytes + Drop, V: Drop, const P: usize> TreeMap<K, V, P> {
    /// Returns a double-ended iterator over the pairs whose strings are prefixes of a key's string, or equal to it, the
    /// shortest first. It allocates nothing.
    pub fn matches_key<'a, 'q>(&'a self, query: &'q K) -> Matches<'a, 'q, K, V, P>
        ensures { result ≡ strings_in_front K.text (K.text query.now) self.now }
    {
        self.as_byte_map();
        MatchesOf {
            map: self,
            left: Some(query.beginning()),
            at_least: 0,
            nothing: None,
        }
    }

    /// Returns the pair with the shortest string that is a prefix of a key's string, or equal to it, or `None` if there
    /// is none. It is a single descent along the key's string, and allocates nothing.
    pub fn shortest_match_key(&self, query: &K) -> Option<(&K, &V)>
        ensures { option_map deref_pair result ≡
            first_of (strings_in_front K.text (K.text query.now) self.now) }
    {
        self.map.shortest_text(query.beginning(), 0, 0)
    }
}

impl<V: Drop, const P: usize> TreeMap<Terminated, V, P> {
    /// Returns a double-ended iterator over the pairs whose strings are prefixes of a text, or equal to it, the
    /// shortest first. It allocates nothing.
    pub fn matches<'a, 'q>(&'a self, text: &'q [u8]) -> Matches<'a, 'q, Terminated, V, P>
        ensures { result ≡ strings_in_front (λ string. string) text.now self.now }
    {
        self.as_byte_map();
        MatchesOf {
            map: self,
            left: Some(text),
            at_least: 0,
            nothing: None,
        }
    }

    /// Returns the pair with the shortest string that is a prefix of a text, or equal to it, or `None` if there is
    /// none. It is a single descent along the text, and allocates nothing.
    pub fn shortest_match(&self, text: &[u8]) -> Option<(&Terminated, &V)>
        ensures { option_map deref_pair result ≡
            first_of (strings_in_front (λ string. string) text.now self.now) }
    {
        self.map.shortest_text(text, 0, 0)
    }
}
