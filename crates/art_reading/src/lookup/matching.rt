//! The comparison of keys and prefixes on a descent.
ghost use Rattle.std.specs.Prelude.{◌≡◌, ◌+◌, ◌<◌, ◌≤◌, ◌↔◌, ◌==◌, if◌then◌else◌, [], ◌∷◌, ◌++◌, length, take, drop, is_ok, false, IsSome, IsTrue, List, ℕ};
ghost use Rattle.art_parts.specs.Keys.{IsFront};
ghost use Rattle.art_reading.specs.Matching.{shared_len, HasRest, LeadsTo, LeafKeyIsPrefix, MatchesLeafKey, behavior_after, child_below, parts_from, prefix_match, compared_from};
ghost use Rattle.art_reading.specs.declared.lookup.matching.PrefixMatchBehavior.TheVariants.{Optimistic, Pessimistic};
ghost use Rattle.art_reading.specs.declared.lookup.matching.Step.TheVariants.{AtEnd, Nowhere};
ghost use Rattle.std.specs.Option.{option_map};
ghost use Rattle.art_inner.specs.Views.{ref_view};
ghost use Rattle.art_reading.specs.Descents.{IsAskedFor};

use crate::path::{AttemptOptimisticPrefixMatch, PessimisticMismatch};
use art_nodes::node::{AsBytes, InnerNode, InnerRef, LeafNode, OpaqueNodePtr};
use std::simd::prelude::*;

/// What a lookup requires of a stored key.
#[derive(Clone, Copy)]
pub enum Asked {
    /// It is equal to the query.
    Same,
    /// It is a prefix of the query, or equal to it.
    Front,
}

/// How a lookup compares the bytes of prefixes on its descent.
///
/// A node stores the bytes of its prefix only up to a limit. A lookup skips the others, and compares the whole key at
/// the leaf instead.
#[derive(Clone, Copy, PartialEq, Eq, Debug, Default)]
pub enum PrefixMatchBehavior {
    /// All bytes so far were compared, so the rest of the key is left to compare.
    #[default]
    Pessimistic,
    /// Bytes were skipped: from now on only lengths are compared, and at the leaf the whole key.
    Optimistic,
}

// Where the first bytes of a key lead below an inner node.
#[derive(Clone, Copy)]
pub(crate) enum Step {
    // To a child, under the byte at this place.
    Down(usize, OpaqueNodePtr),
    // They end with the node's prefix: the byte after them decides.
    AtEnd,
    // To no child.
    Nowhere,
}

impl PrefixMatchBehavior {
    /// Compares the prefix of an inner node with the rest of the key, from the node's depth on. Returns the prefix's
    /// length if the key continues with it, as far as its bytes were compared, and else where the two differ. Once
    /// bytes were skipped the behavior is `Optimistic`.
    pub fn match_prefix<N: InnerNode<P>, const P: usize>(
        &mut self,
        node: &N,
        rest_of_key: &[u8],
    ) -> Result<AttemptOptimisticPrefixMatch, PessimisticMismatch>
        ensures outcome { result ≡
            prefix_match self.old (N.view_of node.now).prefix rest_of_key.now }
        ensures behavior { self.new ≡
            behavior_after self.old (N.view_of node.now).prefix rest_of_key.now }
    {
        let (prefix_len, stored) = (node.prefix_len(), node.read_prefix());
        if self.goes_on(prefix_len, stored, rest_of_key) {
            return Ok(AttemptOptimisticPrefixMatch {
                matched_bytes: prefix_len,
                any_implicit_bytes: *self == PrefixMatchBehavior::Optimistic,
            });
        }
        if *self == PrefixMatchBehavior::Optimistic {
            return Err(PessimisticMismatch {
                matched_bytes: rest_of_key.len(),
                prefix_byte: None,
            });
        }
        let matched_bytes = shared_len(stored, rest_of_key);
        Err(PessimisticMismatch {
            matched_bytes,
            prefix_byte: stored.get(matched_bytes).copied(),
        })
    }

    // Whether the rest of the key continues with a prefix of this length, as far as it is compared with the stored
    // bytes.
    #[inline(always)]
    fn goes_on(&mut self, prefix_len: usize, stored: &[u8], rest_of_key: &[u8]) -> bool
        ensures outcome { result ≡ is_ok (prefix_match self.old
            (record { len = prefix_len; stored = stored.now }) rest_of_key.now) }
        ensures behavior { self.new ≡ behavior_after self.old
            (record { len = prefix_len; stored = stored.now }) rest_of_key.now }
        ensures within { IsTrue result → prefix_len ≤ length rest_of_key.now }
    {
        if self.parts_from(stored, rest_of_key) {
            return false;
        }
        let is_within = prefix_len <= rest_of_key.len();
        if stored.len() < prefix_len || !is_within {
            *self = PrefixMatchBehavior::Optimistic;
        }
        is_within
    }

    // Whether the rest of the key differs from the stored bytes of a prefix.
    #[inline(always)]
    fn parts_from(self, stored: &[u8], rest_of_key: &[u8]) -> bool
        ensures compared { self ≡ Pessimistic → result ≡ parts_from rest_of_key.now stored.now }
        ensures passed_over { self ≡ Optimistic → result ≡ false }
    {
        match self {
            PrefixMatchBehavior::Pessimistic => !begins_with(rest_of_key, stored),
            PrefixMatchBehavior::Optimistic => false,
        }
    }

    // Where a key leads below an inner node, of which all bytes but perhaps the last one are given. Where these end with
    // the prefix of the node nothing is compared yet.
    #[inline(always)]
    pub(crate) fn step<const P: usize>(
        &mut self,
        node: InnerRef<'_, P>,
        front: &[u8],
        depth: usize,
    ) -> Step
        requires depth { depth ≤ length front.now }
        requires stored { length (ref_view node).prefix.stored ≤ (ref_view node).prefix.len }
        ensures { (key : List ℕ) → HasRest key front.now →
            LeadsTo self.old self.new (ref_view node.entry) key front.now depth result }
    {
        let (prefix_len, left) = (node.prefix_len(), front.len() - depth);
        if prefix_len >= left {
            return ended(prefix_len, left);
        }
        if !self.passes(node, &front[depth..]) {
            return Step::Nowhere;
        }
        let place = depth + prefix_len;
        match node.lookup_child(front[place]) {
            Some(child) => Step::Down(place, child),
            None => Step::Nowhere,
        }
    }

    // Whether the rest of the key continues with the prefix of a node, as far as it is compared. An empty
    // prefix is not compared.
    #[inline(always)]
    fn passes<const P: usize>(&mut self, node: InnerRef<'_, P>, rest: &[u8]) -> bool
        requires { length (ref_view node).prefix.stored ≤ (ref_view node).prefix.len }
        ensures outcome { result ≡
            is_ok (prefix_match self.old (ref_view node.entry).prefix rest.now) }
        ensures behavior { IsTrue result → self.new ≡
            behavior_after self.old (ref_view node.entry).prefix rest.now }
    {
        let prefix_len = node.prefix_len();
        prefix_len == 0 || self.goes_on(prefix_len, node.read_prefix(), rest)
    }

    // The child under the last byte of a key, where the bytes before it end with the prefix of the node.
    pub(crate) fn last_step<const P: usize>(
        &mut self,
        node: InnerRef<'_, P>,
        front: &[u8],
        last: u8,
        depth: usize,
    ) -> Option<OpaqueNodePtr>
        requires depth { depth + (ref_view node).prefix.len ≡ length front.now }
        requires stored { length (ref_view node).prefix.stored ≤ (ref_view node).prefix.len }
        ensures child { option_map (λ child. (length front.now, child)) result ≡
            child_below self.old (ref_view node.entry) (front.now ++ last ∷ []) depth }
        ensures behavior { IsSome result → self.new ≡ behavior_after self.old
            (ref_view node.entry).prefix (drop depth (front.now ++ last ∷ [])) }
    {
        if !self.goes_on(node.prefix_len(), node.read_prefix(), &front[depth..]) {
            return None;
        }
        node.lookup_child(last)
    }

    /// Returns whether the key is the leaf's, as far as it is still to be compared from a depth on.
    #[inline(always)]
    pub fn matches_leaf_key<K: AsBytes, V>(
        self,
        leaf: &LeafNode<K, V>,
        key_bytes: &[u8],
        depth: usize,
    ) -> bool
        ensures { IsTrue result ↔ MatchesLeafKey self depth (K.bytes leaf.now.key) key_bytes.now }
    {
        let leaf_bytes = leaf.key.as_bytes();
        if leaf_bytes.len() != key_bytes.len() {
            return false;
        }
        let from = self.compared_from(leaf_bytes, key_bytes, depth);
        are_equal(&leaf_bytes[from..], &key_bytes[from..])
    }

    /// Returns whether the leaf's key is a prefix of the key, as far as they are still to be compared from a depth on.
    pub fn leaf_key_is_prefix<K: AsBytes, V>(
        self,
        leaf: &LeafNode<K, V>,
        key_bytes: &[u8],
        depth: usize,
    ) -> bool
        ensures { IsTrue result ↔ LeafKeyIsPrefix self depth (K.bytes leaf.now.key) key_bytes.now }
    {
        let leaf_bytes = leaf.key.as_bytes();
        let from = self.compared_from(leaf_bytes, key_bytes, depth);
        begins_with(&key_bytes[from..], &leaf_bytes[from..])
    }

    // Whether the leaf's key is asked for, as far as it is still to be compared from a depth on.
    #[inline(always)]
    pub(crate) fn finds<K: AsBytes, V>(
        self,
        asked: Asked,
        leaf: &LeafNode<K, V>,
        key_bytes: &[u8],
        depth: usize,
    ) -> bool
        ensures { IsTrue result ↔ IsAskedFor asked self depth (K.bytes leaf.now.key) key_bytes.now }
    {
        match asked {
            Asked::Same => self.matches_leaf_key(leaf, key_bytes, depth),
            Asked::Front => self.leaf_key_is_prefix(leaf, key_bytes, depth),
        }
    }

    // Where the comparison of a leaf's key with the key begins.
    #[inline(always)]
    fn compared_from(self, leaf_bytes: &[u8], key_bytes: &[u8], depth: usize) -> usize
        ensures value { result ≡ compared_from self depth leaf_bytes.now key_bytes.now }
        ensures in_leaf { result ≤ length leaf_bytes.now }
        ensures in_key { result ≤ length key_bytes.now }
    {
        match self {
            PrefixMatchBehavior::Pessimistic => depth.min(leaf_bytes.len()).min(key_bytes.len()),
            PrefixMatchBehavior::Optimistic => 0,
        }
    }
}

// Where the first bytes of a key lead that are no longer than the prefix of a node.
#[inline(always)]
fn ended(prefix_len: usize, left: usize) -> Step
    ensures { result ≡ if prefix_len == left then AtEnd else Nowhere }
{
    if prefix_len == left {
        Step::AtEnd
    } else {
        Step::Nowhere
    }
}

/// Returns the length of the longest common prefix.
pub fn shared_len(a: &[u8], b: &[u8]) -> usize
    ensures { result ≡ shared_len a.now b.now }
{
    let end = a.len().min(b.len());
    for i in same_blocks(a, b, end)..end {
        if a[i] != b[i] {
            return i;
        }
    }
    end
}

// How many of the first bytes are seen to be the same by comparing eight at a time.
#[inline(always)]
fn same_blocks(a: &[u8], b: &[u8], end: usize) -> usize
    requires in_a { end ≤ length a.now }
    requires in_b { end ≤ length b.now }
    ensures within { result ≤ end }
    ensures same { take result a.now ≡ take result b.now }
{
    let mut at = 0;
    while end - at >= 8 && are_same(a, b, at) {
        at += 8;
    }
    at
}

// Whether the eight bytes from a place on are the same in both.
#[inline(always)]
fn are_same(a: &[u8], b: &[u8], at: usize) -> bool
    requires in_a { at + 8 ≤ length a.now }
    requires in_b { at + 8 ≤ length b.now }
    ensures { IsTrue result ↔ (take 8 (drop at a.now) ≡ take 8 (drop at b.now)) }
{
    let (x, y) = (u8x8::from_slice(&a[at..]), u8x8::from_slice(&b[at..]));
    x.simd_ne(y).to_bitmask() == 0
}

// Whether the four bytes from a place on are the same in both.
#[inline(always)]
fn are_four_same(a: &[u8], b: &[u8], at: usize) -> bool
    requires in_a { at + 4 ≤ length a.now }
    requires in_b { at + 4 ≤ length b.now }
    ensures { IsTrue result ↔ (take 4 (drop at a.now) ≡ take 4 (drop at b.now)) }
{
    let (x, y) = (u8x4::from_slice(&a[at..]), u8x4::from_slice(&b[at..]));
    x.simd_ne(y).to_bitmask() == 0
}

// Whether both are the same.
#[inline(always)]
pub(crate) fn are_equal(a: &[u8], b: &[u8]) -> bool
    ensures { IsTrue result ↔ (a.now ≡ b.now) }
{
    a.len() == b.len() && have_same_front(a, b, a.len())
}

/// Returns whether `bytes` starts with `front`.
#[inline(always)]
pub fn begins_with(bytes: &[u8], front: &[u8]) -> bool
    ensures { IsTrue result ↔ IsFront front.now bytes.now }
{
    front.len() <= bytes.len() && have_same_front(front, bytes, front.len())
}

// Whether the first so many bytes are the same. It is inlined into its callers, where a call of a comparison of slices
// costs more than the comparison itself.
#[inline(always)]
fn have_same_front(a: &[u8], b: &[u8], len: usize) -> bool
    requires in_a { len ≤ length a.now }
    requires in_b { len ≤ length b.now }
    ensures { IsTrue result ↔ (take len a.now ≡ take len b.now) }
{
    if len >= 8 {
        return are_blocks_same(a, b, len - 8);
    }
    if len >= 4 {
        return are_four_same(a, b, 0) && are_four_same(a, b, len - 4);
    }
    for i in 0..len {
        if a[i] != b[i] {
            return false;
        }
    }
    true
}

// Whether all bytes up to the end of a last block of eight are the same. That block may begin within
// the one before it.
#[inline(always)]
fn are_blocks_same(a: &[u8], b: &[u8], last: usize) -> bool
    requires in_a { last + 8 ≤ length a.now }
    requires in_b { last + 8 ≤ length b.now }
    ensures { IsTrue result ↔ (take (last + 8) a.now ≡ take (last + 8) b.now) }
{
    let mut at = 0;
    while at < last {
        if !are_same(a, b, at) {
            return false;
        }
        at += 8;
    }
    are_same(a, b, last)
}
