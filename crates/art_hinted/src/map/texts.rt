//! Calls of maps of strings by a text, for which no key is made.
ghost use Rattle.std.specs.Prelude.{◌≡◌, false, IfErr, IfOk, OnErr, option_copied};
ghost use Rattle.std.specs.Borrow.{sem};
ghost use Rattle.std.specs.Option.{option_copied_mut, option_map, unwrap_or};
ghost use Rattle.art_keys.specs.Ended.{ended};
ghost use Rattle.art_model.specs.Pairs.{first_of, has_key, of_key, remove_key, remove_reply, with_key};
ghost use Rattle.art_changing.specs.MapAnswers.{value_at};
ghost use Rattle.art_iterating.specs.MapItems.{deref_pair};
ghost use Rattle.art_keyed.specs.TextCalls.{IsTextRefusal};
ghost use Rattle.art_hinted.specs.HintedTexts.{lends_text, lends_text_put};

use super::HintedMap;
use art_keyed::map::TextRefused;
use art_keys::terminated::Terminated;
use art_reading::lookup::EndedQuery;
use std::alloc::Global;

/// Calls by a text, for which no key is made. Only `get_text_or_insert` allocates or fails.
impl<V: Drop, const P: usize> HintedMap<Terminated, V, P> {
    /// Returns the value of a text's key, or `None` if it is not stored.
    #[inline]
    pub fn get_text(&self, text: &[u8]) -> Option<&V>
        ensures { option_copied result ≡ value_at ended (ended text.now) self.now }
    {
        let (_, value) = self.get_key_value_text(text)?;
        Some(value)
    }

    /// Returns whether a text's key is stored.
    #[inline]
    pub fn contains_text(&self, text: &[u8]) -> bool
        ensures { result ≡ has_key (of_key ended) (ended text.now) self.now }
    {
        self.get_key_value_text(text).is_some()
    }

    /// Returns the pair of a text's key, or `None` if it is not stored.
    #[inline]
    pub fn get_key_value_text(&self, text: &[u8]) -> Option<(&Terminated, &V)>
        ensures { option_map deref_pair result ≡
            first_of (with_key (of_key ended) (ended text.now) self.now) }
    {
        let query = EndedQuery { text, end: 0 };
        let near = self.hints.leaf_at(self.hints.hash_of(query));
        self.map.as_byte_map().get_key_value_near(near, query)
    }

    /// Returns a mutable reference to the value of a text's key, or `None` if it is not stored.
    #[inline]
    pub fn get_text_mut(&mut self, text: &[u8]) -> Option<&mut V>
        ensures* writes_back { sem 𝓛 (lends_text V.row P.row self.entry text.now result) }
        ensures value { option_copied_mut result ≡ value_at ended (ended text.now) self.old }
    {
        let query = EndedQuery { text, end: 0 };
        let near = self.hints.leaf_at(self.hints.hash_of(query));
        self.map.get_mut_near(near, query)
    }

    /// Returns a mutable reference to the value of a text's key. If no equal key is stored, a copy of the text is
    /// inserted with this value first; a key that is stored stays, with its value.
    ///
    /// Fails with `InnerZero` if there is a zero in the text, and with `Memory` if an allocation fails. Both return the
    /// value, and the map is unchanged.
    pub fn get_text_or_insert(
        &mut self,
        alloc: Global,
        text: &[u8],
        value: V,
    ) -> Result<&mut V, TextRefused<V>>
        ensures* writes_back { sem 𝓛 (lends_text_put V.row P.row self.entry text.now result) }
        ensures value { IfOk result (λ lent.
            lent.now ≡ unwrap_or (value_at ended (ended text.now) self.old) value) }
        ensures returned { IfErr result (IsTextRefusal text.now value) }
        ensures refused { OnErr result (has_key (of_key ended) (ended text.now) self.old ≡ false) }
    {
        let near = self.hints.foresee(&self.map, EndedQuery { text, end: 0 });
        match self.map.get_text_or_insert_near(near, alloc, text, value) {
            Ok(lent) => Ok(lent),
            Err(refused) => Err(refused),
        }
    }

    /// Removes the pair of a text's key, and returns it, or `None` if it is not stored.
    pub fn remove_text(&mut self, text: &[u8]) -> Option<(Terminated, V)>
        ensures pairs { self.new ≡ remove_key (of_key ended) (ended text.now) self.old }
        ensures removed { result ≡ remove_reply (of_key ended) (ended text.now) self.old }
    {
        let hash = self.hints.hash_of(EndedQuery { text, end: 0 });
        self.hints.forget(hash);
        self.map.remove_text(text)
    }
}
