//! Calls of sets of strings by a text, for which no key is made.
ghost use Rattle.std.specs.Prelude.{◌≡◌, ◌<◌, ◌^◌, length, option_copied};
ghost use Rattle.std.specs.Cmp.Lexicographic.{slice_cmp};
ghost use Rattle.std.specs.Ordering.{nat_cmp};
ghost use Rattle.std.specs.Range.Bound.{bound_map};
ghost use Rattle.art_model.specs.Pairs.{IsMap, first_of, has_key, last_of, match_of, remove_key};
ghost use Rattle.art_keys.specs.Ended.{ended};
ghost use Rattle.art_keyed.specs.KeyedPairs.{set_between};

use super::TreeSet;
use art_keyed::bounds::bound_of;
use art_keys::terminated::Terminated;
use art_reading::lookup::EndedQuery;
use art_sets::set::KeyRange;
use std::ops::Bound;

impl<const P: usize> TreeSet<Terminated, P> {
    /// Returns whether a text's key is stored. It costs what `contains` does.
    pub fn contains_text(&self, text: &[u8]) -> bool
        ensures { result ≡ has_key ended (ended text.now) self.now }
    {
        self.set.contains_by(EndedQuery { text, end: 0 })
    }

    /// Removes a text's key, and returns whether it was stored. It never fails, and costs what `remove` does.
    pub fn remove_text(&mut self, text: &[u8]) -> bool
        ensures keys { self.new ≡ remove_key ended (ended text.now) self.old }
        ensures removed { result ≡ has_key ended (ended text.now) self.old }
    {
        self.set.remove_by(EndedQuery { text, end: 0 })
    }

    /// Returns the longest string that is a prefix of a text, or equal to it, or `None` if there is none. It costs what
    /// `longest_match` of the map does.
    pub fn longest_match(&self, text: &[u8]) -> Option<&Terminated>
        ensures { option_copied result ≡ last_of (match_of (λ string. string) text.now self.now) }
    {
        self.set.longest_text(text, 0)
    }

    /// Returns the shortest string that is a prefix of a text, or equal to it, or `None` if there is none. It costs
    /// what `shortest_match` of the map does.
    pub fn shortest_match(&self, text: &[u8]) -> Option<&Terminated>
        ensures { option_copied result ≡ first_of (match_of (λ string. string) text.now self.now) }
    {
        self.set.shortest_text(text, 0, 0)
    }

    /// Returns an iterator over the strings between two texts, in ascending order; it is empty if the first bound is
    /// after the second. It costs what `range_text` of the map does.
    pub fn range_text(&self, from: Bound<&[u8]>, to: Bound<&[u8]>) -> KeyRange<'_, Terminated, P>
        ensures keys { result ≡ set_between (slice_cmp nat_cmp)
            (bound_map (λ b. b.now) from.entry) (bound_map (λ b. b.now) to.entry) self.now }
        ensures sorted { IsMap ended self.now }
        ensures fits { length result < 2 ^ 64 }
    {
        self.set.range_by(bound_of(from), bound_of(to))
    }
}
