//! Calls of maps of strings by a text, for which no key is made.
ghost use Rattle.std.specs.Prelude.{◌≡◌, ◌<◌, ◌^◌, length, false, IfErr, IfOk, OnErr, option_copied};
ghost use Rattle.std.specs.Borrow.{sem};
ghost use Rattle.std.specs.Option.{option_copied_mut, option_map, unwrap_or};
ghost use Rattle.art_keys.specs.Ended.{ended};
ghost use Rattle.art_keys.specs.Escapes.{escape};
ghost use Rattle.art_model.specs.Pairs.{IsMap, first_of, has_key, last_of, of_key, remove_key, remove_reply, with_key};
ghost use Rattle.art_changing.specs.MapAnswers.{value_at};
ghost use Rattle.art_iterating.specs.MapItems.{deref_pair};
ghost use Rattle.art_keyed.specs.KeyedPairs.{strings_below, strings_in_front, strings_not_below};
ghost use Rattle.art_keyed.specs.TextCalls.{IsTextRefusal, text_refused, without_longest};
ghost use Rattle.art_keyed.specs.TextLends.{lends_escaped, lends_escaped_put, lends_longest, lends_text, lends_text_put};

use super::TreeMap;
use crate::escaped_bytes::EscapedBytes;
use crate::escaped_front::EscapedFront;
use crate::terminated_text::TerminatedText;
use art_keys::escaped::Escaped;
use art_keys::terminated::{Terminated, has_zero};
use art_map::map::{MapSourceError, Range};
use art_nodes::node::{AsBytes, LeafPtr};
use art_reading::lookup::EndedQuery;
use std::alloc::{AllocFailed, Global};
use std::ops::Bound;
use thiserror::Error;

/// A value that was not inserted by a text. The error returns it.
#[derive(Debug, Drop, Error)]
pub enum TextRefused<V> {
    /// There is a zero in the text, which no key of the type has.
    #[error("a zero byte stands among the bytes of the text")]
    InnerZero { value: V },
    /// An allocation failed.
    #[error("memory allocation failed")]
    Memory { value: V },
}

/// Drops the key, if it was made, and returns the value.
impl<K: Drop, V> From<MapSourceError<K, V>> for TextRefused<V> {
    ghost from_gives = { λ error refused. refused ≡ text_refused error };

    fn from(error: MapSourceError<K, V>) -> Self {
        match error {
            MapSourceError::NoKey { value } => TextRefused::InnerZero { value },
            MapSourceError::Memory { value } => TextRefused::Memory { value },
            MapSourceError::Insert(error) => TextRefused::Memory {
                value: error.into_pair().value,
            },
        }
    }
}

/// Calls by a text, for which no key is made. They cost what the calls by key do. Only `get_text_or_insert` allocates
/// or fails.
impl<V: Drop, const P: usize> TreeMap<Terminated, V, P> {
    /// Returns the value of a text's key, or `None` if it is not stored.
    pub fn get_text(&self, text: &[u8]) -> Option<&V>
        ensures { option_copied result ≡ value_at ended (ended text.now) self.now }
    {
        self.map.get_by(EndedQuery { text, end: 0 })
    }

    /// Returns whether a text's key is stored.
    pub fn contains_text(&self, text: &[u8]) -> bool
        ensures { result ≡ has_key (of_key ended) (ended text.now) self.now }
    {
        self.map.contains_key_by(EndedQuery { text, end: 0 })
    }

    /// Removes the pair of a text's key, and returns it, or `None` if it is not stored.
    pub fn remove_text(&mut self, text: &[u8]) -> Option<(Terminated, V)>
        ensures pairs { self.new ≡ remove_key (of_key ended) (ended text.now) self.old }
        ensures removed { result ≡ remove_reply (of_key ended) (ended text.now) self.old }
    {
        self.map.remove_by(EndedQuery { text, end: 0 })
    }

    /// Returns the pair with the longest string that is a prefix of a text, or equal to it, or `None` if there is none.
    /// It costs what `longest_match_key` does.
    pub fn longest_match(&self, text: &[u8]) -> Option<(&Terminated, &V)>
        ensures { option_map deref_pair result ≡
            last_of (strings_in_front (λ text. text) text.now self.now) }
    {
        self.map.longest_text(text, 0)
    }

    /// Returns the pair of a text's key, or `None` if it is not stored.
    pub fn get_key_value_text(&self, text: &[u8]) -> Option<(&Terminated, &V)>
        ensures { option_map deref_pair result ≡
            first_of (with_key (of_key ended) (ended text.now) self.now) }
    {
        self.map.get_key_value_by(EndedQuery { text, end: 0 })
    }

    /// Returns a mutable reference to the value of a text's key, or `None` if it is not stored.
    pub fn get_text_mut(&mut self, text: &[u8]) -> Option<&mut V>
        ensures* writes_back { sem 𝓛 (lends_text V.row P.row self.entry text.now result) }
        ensures value { option_copied_mut result ≡ value_at ended (ended text.now) self.old }
    {
        self.map.get_mut_by(EndedQuery { text, end: 0 })
    }

    /// Returns a mutable reference to the value of a text's key. If no equal key is stored, a copy of the text is
    /// inserted with this value first; a key that is stored stays, with its value. It is a single descent, and costs
    /// what `insert` does; the text is copied only if it is new.
    ///
    /// Fails with `InnerZero` if there is a zero in the text, and with `Memory` if an allocation fails. Both return the
    /// value, and the map is unchanged.
    pub fn get_text_or_insert(
        &mut self,
        alloc: Global,
        text: &[u8],
        value: V,
    ) -> Result<&mut V, TextRefused<V>>
        ensures* writes_back { sem 𝓛 (lends_text_put V.row P.row self.entry text.now result) }
        ensures value { IfOk result (λ lent.
            lent.now ≡ unwrap_or (value_at ended (ended text.now) self.old) value) }
        ensures returned { IfErr result (IsTextRefusal text.now value) }
        ensures refused { OnErr result (has_key (of_key ended) (ended text.now) self.old ≡ false) }
    {
        self.get_text_or_insert_near(None, alloc, text, value)
    }

    /// Returns what `get_text_or_insert` does. The leaf of this name, if there is one, is read first: if it has the text,
    /// there is no descent.
    pub fn get_text_or_insert_near(
        &mut self,
        near: Option<LeafPtr>,
        alloc: Global,
        text: &[u8],
        value: V,
    ) -> Result<&mut V, TextRefused<V>>
        ensures* writes_back { sem 𝓛 (lends_text_put V.row P.row self.entry text.now result) }
        ensures value { IfOk result (λ lent.
            lent.now ≡ unwrap_or (value_at ended (ended text.now) self.old) value) }
        ensures returned { IfErr result (IsTextRefusal text.now value) }
        ensures refused { OnErr result (has_key (of_key ended) (ended text.now) self.old ≡ false) }
    {
        let source = TerminatedText { text };
        Ok(
            self.map
                .get_or_insert_from_near(near, alloc, &source, value)?,
        )
    }

    /// Returns a mutable reference to the value of the longest string that is a prefix of a text, or equal to it, or
    /// `None` if there is none. It costs what `longest_match` and `get_text_mut` do together.
    pub fn longest_match_mut(&mut self, text: &[u8]) -> Option<&mut V>
        ensures* writes_back { sem 𝓛 (lends_longest V.row P.row self.entry text.now result) }
        ensures value { option_copied_mut result ≡
            option_map (λ pair. pair.1) (last_of
            (strings_in_front (λ string. string) text.now self.old)) }
    {
        self.len();
        let (key, _) = self.longest_match(text)?;
        let len = key.as_bytes_without_end().len();
        Some(self.get_text_mut(&text[..len]).unwrap())
    }

    /// Removes the pair with the longest string that is a prefix of a text, or equal to it, and returns it, or `None`
    /// if there is none. It never fails, and costs what `longest_match` and `remove_text` do together.
    pub fn remove_longest_match(&mut self, text: &[u8]) -> Option<(Terminated, V)>
        ensures pairs { self.new ≡ without_longest ended (λ string. string) text.now self.old }
        ensures removed { result ≡
            last_of (strings_in_front (λ string. string) text.now self.old) }
    {
        self.len();
        let (key, _) = self.longest_match(text)?;
        let len = key.as_bytes_without_end().len();
        self.remove_text(&text[..len])
    }

    /// Returns an iterator over the pairs whose strings start with a text, in the order of their keys. It costs what
    /// `prefix` does.
    pub fn prefix_text(&self, text: &[u8]) -> Range<'_, Terminated, V, P>
        ensures pairs { result ≡ strings_below (λ string. string) text.now self.now }
        ensures sorted { IsMap (of_key ended) self.now }
        ensures fits { length result < 2 ^ 64 }
    {
        if has_zero(text) {
            return self
                .map
                .range((Bound::Included(text), Bound::Excluded(text)));
        }
        self.map.prefix(text)
    }

    /// Removes all pairs whose strings start with a text at once, and returns how many there were. It costs what
    /// `remove_prefix` does.
    pub fn remove_prefix_text(&mut self, text: &[u8]) -> usize
        ensures pairs { self.new ≡ strings_not_below (λ string. string) text.now self.old }
        ensures removed { result ≡ length (strings_below (λ string. string) text.now self.old) }
    {
        self.as_byte_map();
        if has_zero(text) {
            return 0;
        }
        self.map.remove_prefix(text)
    }
}

/// Calls by a text, for which no key is made: a text with a byte 0 or 1 is escaped as it is read. They cost what the
/// calls by key do. Only `get_text_or_insert` allocates or fails.
impl<V: Drop, const P: usize> TreeMap<Escaped, V, P> {
    /// Returns the value of a text's key, or `None` if it is not stored.
    pub fn get_text(&self, text: &[u8]) -> Option<&V>
        ensures { option_copied result ≡ value_at escape (escape text.now) self.now }
    {
        let (_, value) = self.get_key_value_text(text)?;
        Some(value)
    }

    /// Returns whether a text's key is stored.
    pub fn contains_text(&self, text: &[u8]) -> bool
        ensures { result ≡ has_key (of_key escape) (escape text.now) self.now }
    {
        self.get_key_value_text(text).is_some()
    }

    /// Returns the pair of a text's key, or `None` if it is not stored.
    pub fn get_key_value_text(&self, text: &[u8]) -> Option<(&Escaped, &V)>
        ensures { option_map deref_pair result ≡
            first_of (with_key (of_key escape) (escape text.now) self.now) }
    {
        let mut bytes = EscapedBytes::new(text);
        match bytes.plain() {
            Some(query) => self.map.get_key_value_by(query),
            None => self.map.get_key_value_by_bytes(&mut bytes),
        }
    }

    /// Returns the pair with the longest string that is a prefix of a text, or equal to it, or `None` if there is none.
    /// It costs what `longest_match_key` does.
    pub fn longest_match(&self, text: &[u8]) -> Option<(&Escaped, &V)>
        ensures { option_map deref_pair result ≡
            last_of (strings_in_front (λ text. text) text.now self.now) }
    {
        if Escaped::is_plain(text) {
            return self.map.longest_text(text, 0);
        }
        self.map.longest_text_by(&mut EscapedFront::new(text), 0)
    }

    /// Returns an iterator over the pairs whose strings start with a text, in the order of their keys. It costs what
    /// `prefix` does.
    pub fn prefix_text(&self, text: &[u8]) -> Range<'_, Escaped, V, P>
        ensures pairs { result ≡ strings_below (λ string. string) text.now self.now }
        ensures sorted { IsMap (of_key escape) self.now }
        ensures fits { length result < 2 ^ 64 }
    {
        self.map.prefix_by(EscapedFront::new(text))
    }

    /// Returns a mutable reference to the value of a text's key, or `None` if it is not stored.
    pub fn get_text_mut(&mut self, text: &[u8]) -> Option<&mut V>
        ensures* writes_back { sem 𝓛 (lends_escaped V.row P.row self.entry text.now result) }
        ensures value { option_copied_mut result ≡ value_at escape (escape text.now) self.old }
    {
        self.map.get_mut_by_bytes(&mut EscapedBytes::new(text))
    }

    /// Returns a mutable reference to the value of a text's key. If no equal key is stored, the text's key is inserted
    /// with this value first; a key that is stored stays, with its value. It is a single descent, and costs what
    /// `insert` does; the key is made only if the text is new.
    ///
    /// Fails only if the text is new and an allocation fails. The error returns the value, and the map is unchanged.
    pub fn get_text_or_insert(
        &mut self,
        alloc: Global,
        text: &[u8],
        value: V,
    ) -> Result<&mut V, AllocFailed<V>>
        ensures* writes_back { sem 𝓛 (lends_escaped_put V.row P.row self.entry text.now result) }
        ensures value { IfOk result (λ lent.
            lent.now ≡ unwrap_or (value_at escape (escape text.now) self.old) value) }
        ensures returned { IfErr result (λ refused. refused.value ≡ value) }
        ensures refused { OnErr result
            (has_key (of_key escape) (escape text.now) self.old ≡ false) }
    {
        self.get_text_or_insert_near(None, alloc, text, value)
    }

    /// Returns what `get_text_or_insert` does. The leaf of this name, if there is one, is read first: if it has the text,
    /// there is no descent.
    pub fn get_text_or_insert_near(
        &mut self,
        near: Option<LeafPtr>,
        alloc: Global,
        text: &[u8],
        value: V,
    ) -> Result<&mut V, AllocFailed<V>>
        ensures* writes_back { sem 𝓛 (lends_escaped_put V.row P.row self.entry text.now result) }
        ensures value { IfOk result (λ lent.
            lent.now ≡ unwrap_or (value_at escape (escape text.now) self.old) value) }
        ensures returned { IfErr result (λ refused. refused.value ≡ value) }
        ensures refused { OnErr result
            (has_key (of_key escape) (escape text.now) self.old ≡ false) }
    {
        let source = EscapedBytes::new(text);
        Ok(
            self.map
                .get_or_insert_from_near(near, alloc, &source, value)?,
        )
    }

    /// Removes the pair of a text's key, and returns it, or `None` if it is not stored.
    pub fn remove_text(&mut self, text: &[u8]) -> Option<(Escaped, V)>
        ensures pairs { self.new ≡ remove_key (of_key escape) (escape text.now) self.old }
        ensures removed { result ≡ remove_reply (of_key escape) (escape text.now) self.old }
    {
        let mut bytes = EscapedBytes::new(text);
        match bytes.plain() {
            Some(query) => self.map.remove_by(query),
            None => self.map.remove_by_bytes(&mut bytes),
        }
    }

    /// Removes all pairs whose strings start with a text at once, and returns how many there were. It costs what
    /// `remove_prefix` does.
    pub fn remove_prefix_text(&mut self, text: &[u8]) -> usize
        ensures pairs { self.new ≡ strings_not_below (λ string. string) text.now self.old }
        ensures removed { result ≡ length (strings_below (λ string. string) text.now self.old) }
    {
        self.map.remove_prefix_by(EscapedFront::new(text))
    }
}
