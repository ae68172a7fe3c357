//! Calls of maps of escaped strings by a text, for which no key is made.
ghost use Rattle.std.specs.Prelude.{◌≡◌, ◌++◌, ◌∷◌, [], false, IfErr, IfOk, IfSome, OnErr, option_copied};
ghost use Rattle.std.specs.Borrow.{sem};
ghost use Rattle.std.specs.Option.{option_copied_mut, option_map, unwrap_or};
ghost use Rattle.art_keys.specs.Escapes.{escape};
ghost use Rattle.art_model.specs.Pairs.{first_of, has_key, of_key, remove_key, remove_reply, with_key};
ghost use Rattle.art_changing.specs.MapAnswers.{value_at};
ghost use Rattle.art_iterating.specs.MapItems.{deref_pair};
ghost use Rattle.art_hinted.specs.HintedTexts.{lends_escaped, lends_escaped_put};

use super::HintedMap;
use crate::hints::Hints;
use art_keyed::map::TreeMap;
use art_keys::escaped::Escaped;
use art_nodes::node::LeafPtr;
use art_reading::lookup::EndedQuery;
use std::alloc::{AllocFailed, Global};

/// Calls by a text, for which no key is made. For a text with a byte 0 or 1 no hint is used: it is escaped as it is read,
/// and a call costs what that of a `TreeMap` does. Only `get_text_or_insert` allocates or fails.
impl<V: Drop, const P: usize> HintedMap<Escaped, V, P> {
    /// Returns the value of a text's key, or `None` if it is not stored.
    #[inline]
    pub fn get_text(&self, text: &[u8]) -> Option<&V>
        ensures { option_copied result ≡ value_at escape (escape text.now) self.now }
    {
        let (_, value) = self.get_key_value_text(text)?;
        Some(value)
    }

    /// Returns whether a text's key is stored.
    #[inline]
    pub fn contains_text(&self, text: &[u8]) -> bool
        ensures { result ≡ has_key (of_key escape) (escape text.now) self.now }
    {
        self.get_key_value_text(text).is_some()
    }

    /// Returns the pair of a text's key, or `None` if it is not stored.
    #[inline]
    pub fn get_key_value_text(&self, text: &[u8]) -> Option<(&Escaped, &V)>
        ensures { option_map deref_pair result ≡
            first_of (with_key (of_key escape) (escape text.now) self.now) }
    {
        let Some(query) = plain_query(text) else {
            return self.map.get_key_value_text(text);
        };
        let near = self.hints.leaf_at(self.hints.hash_of(query));
        self.map.as_byte_map().get_key_value_near(near, query)
    }

    /// Returns a mutable reference to the value of a text's key, or `None` if it is not stored.
    #[inline]
    pub fn get_text_mut(&mut self, text: &[u8]) -> Option<&mut V>
        ensures* writes_back { sem 𝓛 (lends_escaped V.row P.row self.entry text.now result) }
        ensures value { option_copied_mut result ≡ value_at escape (escape text.now) self.old }
    {
        let Some(query) = plain_query(text) else {
            return self.map.get_text_mut(text);
        };
        let near = self.hints.leaf_at(self.hints.hash_of(query));
        self.map.get_mut_near(near, query)
    }

    /// Returns a mutable reference to the value of a text's key. If no equal key is stored, the text's key is inserted
    /// with this value first; a key that is stored stays, with its value.
    ///
    /// Fails only if the text is new and an allocation fails. The error returns the value, and the map is unchanged.
    pub fn get_text_or_insert(
        &mut self,
        alloc: Global,
        text: &[u8],
        value: V,
    ) -> Result<&mut V, AllocFailed<V>>
        ensures* writes_back { sem 𝓛 (lends_escaped_put V.row P.row self.entry text.now result) }
        ensures value { IfOk result (λ lent.
            lent.now ≡ unwrap_or (value_at escape (escape text.now) self.old) value) }
        ensures returned { IfErr result (λ refused. refused.value ≡ value) }
        ensures refused { OnErr result
            (has_key (of_key escape) (escape text.now) self.old ≡ false) }
    {
        let near = foresee_plain(&mut self.hints, &self.map, text);
        match self.map.get_text_or_insert_near(near, alloc, text, value) {
            Ok(lent) => Ok(lent),
            Err(refused) => Err(refused),
        }
    }

    /// Removes the pair of a text's key, and returns it, or `None` if it is not stored.
    pub fn remove_text(&mut self, text: &[u8]) -> Option<(Escaped, V)>
        ensures pairs { self.new ≡ remove_key (of_key escape) (escape text.now) self.old }
        ensures removed { result ≡ remove_reply (of_key escape) (escape text.now) self.old }
    {
        if let Some(query) = plain_query(text) {
            let hash = self.hints.hash_of(query);
            self.hints.forget(hash);
        }
        self.map.remove_text(text)
    }
}

// The key of a text in which no byte is escaped: the text and a zero.
#[inline]
fn plain_query(text: &[u8]) -> Option<EndedQuery<'_>>
    ensures { IfSome result (λ query. query.text.now ++ query.end ∷ [] ≡ escape text.now) }
{
    if Escaped::is_plain(text) {
        return Some(EndedQuery { text, end: 0 });
    }
    None
}

// The name that a hint has of a text's leaf, if no byte of the text is escaped.
#[inline]
fn foresee_plain<V: Drop, const P: usize>(
    hints: &mut Hints,
    map: &TreeMap<Escaped, V, P>,
    text: &[u8],
) -> Option<LeafPtr> {
    let query = plain_query(text)?;
    hints.foresee(map, query)
}
