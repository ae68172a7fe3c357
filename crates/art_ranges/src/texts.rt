//! Searches for the longest or the shortest text that is a prefix of a query, among keys each of which is a text and the
//! byte that ends it. A text may be a prefix of another.
ghost use Rattle.std.specs.Prelude.{◌≡◌, ◌+◌, ◌*◌, ◌<◌, ◌≤◌, ◌↔◌, length, take, IsSome, IsTrue};
ghost use Rattle.art_inner.specs.Inner.{child_at};
ghost use Rattle.art_inner.specs.Views.{ref_view};
ghost use Rattle.art_parts.specs.Keys.{IsFront};
ghost use Rattle.art_model.specs.Pairs.{of_key, without_last};
ghost use Rattle.art_model.specs.Roots.{ForTree, IsCanonicalRoot};
ghost use Rattle.art_model.specs.Texts.{AreEnded, texts_in_front};
ghost use Rattle.art_ranges.specs.FoundTexts.{HasFoundFirst, HasFoundLast};
ghost use Rattle.art_ranges.specs.PartReadings.{CountsToText};
ghost use Rattle.art_ranges.specs.ShortTexts.{texts_from};
ghost use Rattle.art_ranges.specs.TextWays.{EndsAt, IsLeafOr, IsTextStep, bytes_along, leaf_of_end};
ghost use Rattle.art_reading.specs.declared.lookup.descent.End.TheVariants.{First};

use art_nodes::node::{
    AsBytes, InnerNode, InnerRef, LeafPtr, NodePtr, OpaqueNodePtr, OptionalLeafPtr,
};
use art_nodes::store::NodeStore;
use art_reading::guide::find_guide;
use art_reading::lookup::descent::{End, Visits};
use art_reading::lookup::matching::{begins_with, shared_len};
use art_reading::lookup::query::KeyBytes;

/// Returns the leaf of the longest text that is a prefix of the query, or `None` if no text is one.
///
/// It descends along the query, and compares no prefix on its way. Where the text that it finds is not a
/// prefix of the query, it descends once more, along the bytes that both share.
pub fn longest_text_unchecked<K: AsBytes + Drop, V: Drop, const P: usize>(
    store: &NodeStore<K, V, P>,
    root: OpaqueNodePtr,
    query: &[u8],
    end: u8,
) -> OptionalLeafPtr
    requires root { IsCanonicalRoot (of_key K.bytes) P store.now root }
    requires ended { ForTree (of_key K.bytes) P store.now root (λ pairs _.
        AreEnded (of_key K.bytes) end pairs) }
    ensures { HasFoundLast (of_key K.bytes) P store.now root
        (texts_in_front (of_key K.bytes) query.now) result }
{
    longest_text_visiting(store, root, query, end, &mut Visits::new())
}

/// Returns what `longest_text_unchecked` does, for a query whose bytes need not stand in a slice.
///
/// It descends by the bytes to a leaf, and then along what its key and the query share.
pub fn longest_text_by<B: KeyBytes, K: AsBytes + Drop, V: Drop, const P: usize>(
    store: &NodeStore<K, V, P>,
    root: OpaqueNodePtr,
    query: &mut B,
    end: u8,
) -> OptionalLeafPtr
    requires root { IsCanonicalRoot (of_key K.bytes) P store.now root }
    requires ended { ForTree (of_key K.bytes) P store.now root (λ pairs _.
        AreEnded (of_key K.bytes) end pairs) }
    ensures leaf { HasFoundLast (of_key K.bytes) P store.now root
        (texts_in_front (of_key K.bytes) (B.key query.old)) result }
    ensures same { B.key query.new ≡ B.key query.old }
{
    let (guide, _) = find_guide(store, root, query, root, 0);
    let key = store.leaf_at(guide).key.as_bytes();
    let shared = query.shared_after(0, key);
    longest_text_unchecked(store, root, &key[..shared], end)
}

/// Returns what `longest_text_unchecked` does, and counts each reading of a node: at least the nodes whose place is a
/// prefix of the query, and at most two for each byte of the query, and two more. A full counter stays full.
#[inline(always)]
pub fn longest_text_visiting<K: AsBytes + Drop, V: Drop, const P: usize>(
    store: &NodeStore<K, V, P>,
    root: OpaqueNodePtr,
    query: &[u8],
    end: u8,
    visits: &mut Visits,
) -> OptionalLeafPtr
    requires root { IsCanonicalRoot (of_key K.bytes) P store.now root }
    requires ended { ForTree (of_key K.bytes) P store.now root (λ pairs _.
        AreEnded (of_key K.bytes) end pairs) }
    ensures found { HasFoundLast (of_key K.bytes) P store.now root
        (texts_in_front (of_key K.bytes) query.now) result }
    ensures visits { CountsToText (of_key K.bytes) P store.now root query.now
        (2 * length query.now + 2) visits.old visits.new }
{
    let leaf = match walk_to_text(store, root, query, end, 0, End::Last, visits) {
        TextEnd::Whole(leaf) => return Some(leaf),
        TextEnd::Passed(Some(leaf)) => leaf,
        TextEnd::Passed(None) => return None,
    };
    let node = store.leaf_at(leaf);
    visits.count_one();
    let text = text_of(node.key.as_bytes());
    let shared = shared_len(text, query);
    if shared == text.len() {
        return Some(leaf);
    }
    walk_to_text(store, root, &query[..shared], end, 0, End::Last, visits).leaf()
}

/// Returns the leaf of the shortest text that is a prefix of the query and has at least so many bytes, or `None` if
/// there is none.
///
/// It is a single descent along the query. It compares no prefix on the way, and one text with the query at the end.
pub fn shortest_text_unchecked<K: AsBytes + Drop, V: Drop, const P: usize>(
    store: &NodeStore<K, V, P>,
    root: OpaqueNodePtr,
    query: &[u8],
    end: u8,
    at_least: usize,
) -> OptionalLeafPtr
    requires root { IsCanonicalRoot (of_key K.bytes) P store.now root }
    requires ended { ForTree (of_key K.bytes) P store.now root (λ pairs _.
        AreEnded (of_key K.bytes) end pairs) }
    ensures { HasFoundFirst (of_key K.bytes) P store.now root
        (texts_from (of_key K.bytes) query.now at_least) result }
{
    shortest_text_visiting(store, root, query, end, at_least, &mut Visits::new())
}

/// Returns what `shortest_text_unchecked` does, and counts each reading of a node: at least the nodes whose place is a
/// prefix of the query's first `at_least` bytes, and at most one for each byte of the query, and two more. A full
/// counter stays full.
#[inline(always)]
pub fn shortest_text_visiting<K: AsBytes + Drop, V: Drop, const P: usize>(
    store: &NodeStore<K, V, P>,
    root: OpaqueNodePtr,
    query: &[u8],
    end: u8,
    at_least: usize,
    visits: &mut Visits,
) -> OptionalLeafPtr
    requires root { IsCanonicalRoot (of_key K.bytes) P store.now root }
    requires ended { ForTree (of_key K.bytes) P store.now root (λ pairs _.
        AreEnded (of_key K.bytes) end pairs) }
    ensures found { HasFoundFirst (of_key K.bytes) P store.now root
        (texts_from (of_key K.bytes) query.now at_least) result }
    ensures visits { CountsToText (of_key K.bytes) P store.now root
        (take at_least query.now) (length query.now + 2) visits.old visits.new }
{
    let leaf = match walk_to_text(store, root, query, end, at_least, End::First, visits) {
        TextEnd::Whole(leaf) => return Some(leaf),
        TextEnd::Passed(Some(leaf)) => leaf,
        TextEnd::Passed(None) => return None,
    };
    let node = store.leaf_at(leaf);
    visits.count_one();
    if begins_with(query, text_of(node.key.as_bytes())) {
        return Some(leaf);
    }
    None
}

// Where a descent along a query ends.
#[derive(Clone, Copy)]
enum TextEnd {
    // At a leaf whose text is a prefix of the query.
    Whole(LeafPtr),
    // Not at such a leaf. This one was passed under an end byte, and is kept.
    Passed(OptionalLeafPtr),
}

impl TextEnd {
    // The leaf at the end, or the one that was passed.
    #[inline(always)]
    fn leaf(self) -> OptionalLeafPtr
        ensures { result ≡ leaf_of_end self }
    {
        match self {
            TextEnd::Whole(leaf) => Some(leaf),
            TextEnd::Passed(passed) => passed,
        }
    }
}

// Descends along the query to the leaf of the first or the last text that may be the one, among those of at least so many
// bytes: each of them that is a prefix of the query starts with the first, and the last starts with it. If the query is a
// prefix of a stored key, the leaf's own text is a prefix of the query.
#[inline(always)]
fn walk_to_text<K: AsBytes + Drop, V: Drop, const P: usize>(
    store: &NodeStore<K, V, P>,
    root: OpaqueNodePtr,
    query: &[u8],
    end: u8,
    at_least: usize,
    kept: End,
    visits: &mut Visits,
) -> TextEnd
    requires root { IsCanonicalRoot (of_key K.bytes) P store.now root }
    requires ended { ForTree (of_key K.bytes) P store.now root (λ pairs _.
        AreEnded (of_key K.bytes) end pairs) }
    ensures ends { ForTree (of_key K.bytes) P store.now root (λ pairs layout.
        EndsAt (of_key K.bytes) query.now at_least kept pairs layout result) }
    ensures visits { CountsToText (of_key K.bytes) P store.now root
        (bytes_along kept at_least query.now) (length query.now + 1) visits.old visits.new }
{
    let mut passed = None;
    let mut name = root;
    let mut depth = 0;
    'down: loop {
        visits.count_one();
        let inner = match name.split() {
            NodePtr::Inner(inner) => inner,
            NodePtr::Leaf(leaf) => {
                let node = store.leaf_at(leaf);
                if is_sought(text_of(node.key.as_bytes()), query, at_least) {
                    return TextEnd::Whole(leaf);
                }
                return TextEnd::Passed(passed);
            }
        };
        let node = store.inner_at(inner);
        let Some((child, below)) = step_at(node, query, end, at_least, depth, &mut passed) else {
            return TextEnd::Passed(passed);
        };
        if is_kept(kept, passed) {
            return TextEnd::Passed(passed);
        }
        name = child;
        depth = below;
    }
}

// Whether a text is a prefix of the query and has at least so many bytes.
#[inline(always)]
fn is_sought(text: &[u8], query: &[u8], at_least: usize) -> bool
    ensures { IsTrue result ↔ (IsFront text.now query.now × (at_least ≤ length text.now)) }
{
    at_least <= text.len() && begins_with(query, text)
}

// Whether a leaf was passed and none after it is kept.
#[inline(always)]
fn is_kept(kept: End, passed: OptionalLeafPtr) -> bool
    ensures { IsTrue result ↔ ((kept ≡ First) × IsSome passed) }
{
    match kept {
        End::First => passed.is_some(),
        End::Last => false,
    }
}

// Where a query leads below an inner node: the child, and how many of the query's bytes lead to it. The leaf under the end
// byte, if there is one and at least so many bytes lead to it, is the last that was passed. All that is read of the node is
// behind one test of its kind.
#[inline(always)]
fn step_at<const P: usize>(
    node: InnerRef<'_, P>,
    query: &[u8],
    end: u8,
    at_least: usize,
    depth: usize,
    passed: &mut OptionalLeafPtr,
) -> Option<(OpaqueNodePtr, usize)>
    requires { depth ≤ length query.now }
    ensures { IsTextStep (ref_view node.entry) query.now end at_least depth
        passed.old passed.new result }
{
    match node {
        InnerRef::Node4(node) => step(node, query, end, at_least, depth, passed),
        InnerRef::Node16(node) => step(node, query, end, at_least, depth, passed),
        InnerRef::Node48(node) => step(node, query, end, at_least, depth, passed),
        InnerRef::Node256(node) => step(node, query, end, at_least, depth, passed),
    }
}

// The same at a node of one kind. The child comes first, and each arm has its own look at the end byte, so that machine
// code reads the bytes of a node once and keeps no option.
#[inline(always)]
fn step<N: InnerNode<P>, const P: usize>(
    node: &N,
    query: &[u8],
    end: u8,
    at_least: usize,
    depth: usize,
    passed: &mut OptionalLeafPtr,
) -> Option<(OpaqueNodePtr, usize)>
    requires { depth ≤ length query.now }
    ensures { IsTextStep (N.view_of node.now) query.now end at_least depth
        passed.old passed.new result }
{
    let prefix_len = node.prefix_len();
    if prefix_len > query.len() - depth {
        return None;
    }
    let place = depth + prefix_len;
    if place < query.len() {
        if let Some(child) = node.lookup_child(query[place]) {
            *passed = leaf_under(node, end, at_least, place, *passed);
            return Some((child, place + 1));
        }
    }
    *passed = leaf_under(node, end, at_least, place, *passed);
    None
}

// The leaf under a byte, if there is one and at least so many bytes lead to it, or else another one.
#[inline(always)]
fn leaf_under<N: InnerNode<P>, const P: usize>(
    node: &N,
    byte: u8,
    at_least: usize,
    place: usize,
    other: OptionalLeafPtr,
) -> OptionalLeafPtr
    ensures early { place < at_least → result ≡ other }
    ensures there { at_least ≤ place →
        IsLeafOr (child_at (N.view_of node.now).children byte) other result }
{
    if place < at_least {
        return other;
    }
    leaf_or(node.lookup_least(byte), other)
}

// The leaf that a name is of, or else another one.
#[inline(always)]
fn leaf_or(name: Option<OpaqueNodePtr>, other: OptionalLeafPtr) -> OptionalLeafPtr
    ensures { IsLeafOr name other result }
{
    let Some(name) = name else {
        return other;
    };
    match name.as_leaf() {
        Some(leaf) => Some(leaf),
        None => other,
    }
}

// The text of a key: its bytes before the last.
#[inline(always)]
fn text_of(key: &[u8]) -> &[u8]
    ensures { result.now ≡ without_last key.now }
{
    match key.split_last() {
        Some((_, text)) => text,
        None => key,
    }
}
