//! Parts of a tree: the leaves whose keys start with a prefix, and those between two bounds.
ghost use Rattle.std.specs.Prelude.{◌≡◌, ◌≢◌, ◌+◌, ◌*◌, ◌≤◌, ◌↔◌, drop, length, Some, IsSome, IfSome, IsTrue};
ghost use Rattle.std.specs.FinMap as map;
ghost use Rattle.std.specs.Cmp.Lexicographic.{slice_cmp};
ghost use Rattle.std.specs.Option.{option_map};
ghost use Rattle.std.specs.Ordering.{nat_cmp};
ghost use Rattle.std.specs.Range.Bound.{bound_map};
ghost use Rattle.std.specs.declared.ops.Bound.TheVariants.{Included};
ghost use Rattle.art_inner.specs.Views.{ref_view};
ghost use Rattle.art_parts.specs.Names.{inner_name, leaf_name};
ghost use Rattle.art_parts.specs.declared.names.NodeType.TheVariants.{Leaf};
ghost use Rattle.art_parts.specs.declared.names.OpaqueNodePtr.{OpaqueNodePtr};
ghost use Rattle.art_parts.specs.Keys.{IsFront, is_front};
ghost use Rattle.art_model.specs.Lookups.{nodes_on_way};
ghost use Rattle.art_model.specs.Pairs.{first_of, last_of, of_key};
ghost use Rattle.art_model.specs.Parts.{is_between, is_from, is_up_to, leaves_where};
ghost use Rattle.art_model.specs.Places.{prefix_of};
ghost use Rattle.art_model.specs.Roots.{ForTree, IsCanonicalRoot};
ghost use Rattle.art_reading.specs.EndNodes.{IsAt};
ghost use Rattle.art_reading.specs.Guides.{MayGuide};
ghost use Rattle.art_reading.specs.Iterators.{IsIteratorOf};
ghost use Rattle.art_ranges.specs.Cuts.{IsLeafAtCut, StandsBeside, is_before_cut};
ghost use Rattle.art_ranges.specs.PartReadings.{CountsBelow, CountsToBound, CountsToBounds};
ghost use Rattle.art_reading.specs.Readings.{CountsReadings, guide_cost, levels};
ghost use Rattle.art_reading.specs.declared.path.TreePath.{TreePath};

use art_nodes::node::{AsBytes, InnerPtr, InnerRef, NodePtr, OpaqueNodePtr, OptionalLeafPtr};
use art_nodes::store::NodeStore;
use art_reading::guide::guide_from;
use art_reading::iterator::RawIterator;
use art_reading::lookup::descent::{End, Visits, walk_below_visiting, walk_to_end_visiting};
use art_reading::lookup::query::{KeyBytes, starts_with};
use std::cmp::Ordering;
use std::ops::Bound;

/// Returns an iterator over the leaves whose keys start with a prefix, in order.
///
/// It allocates nothing. It descends to the node below which these leaves are, by at most one inner node for each byte
/// of the prefix, then to the first and the last of them, and reads one key.
pub fn prefix_unchecked<B: KeyBytes + Drop, K: AsBytes + Drop, V: Drop, const P: usize>(
    store: &NodeStore<K, V, P>,
    root: OpaqueNodePtr,
    prefix: B,
) -> RawIterator
    requires { IsCanonicalRoot (of_key K.bytes) P store.now root }
    ensures { ForTree (of_key K.bytes) P store.now root (λ pairs layout.
        IsIteratorOf store.now result
        (leaves_where (λ x. is_front (B.key prefix) (K.bytes x.0)) layout)) }
{
    prefix_visiting(store, root, prefix, &mut Visits::new())
}

/// Returns what `prefix_unchecked` does, and counts each reading of a node: at least the nodes whose place is a prefix
/// of these bytes, and at most two for each level of the tree, the leaves being a level. A full counter stays full.
#[inline(always)]
pub fn prefix_visiting<B: KeyBytes + Drop, K: AsBytes + Drop, V: Drop, const P: usize>(
    store: &NodeStore<K, V, P>,
    root: OpaqueNodePtr,
    prefix: B,
    visits: &mut Visits,
) -> RawIterator
    requires { IsCanonicalRoot (of_key K.bytes) P store.now root }
    ensures leaves { ForTree (of_key K.bytes) P store.now root (λ pairs layout.
        IsIteratorOf store.now result
        (leaves_where (λ x. is_front (B.key prefix) (K.bytes x.0)) layout)) }
    ensures visits { CountsBelow (of_key K.bytes) P store.now root (B.key prefix)
        visits.old visits.new }
{
    let mut bytes = prefix;
    let Some(end) = walk_below_visiting(store, root, &mut bytes, visits) else {
        return RawIterator::empty();
    };
    let (_, first) = walk_to_end_visiting(store, end.name, End::First, visits);
    let leaf = store.leaf_at(first);
    visits.count_one();
    if !starts_with(leaf.key.as_bytes(), &mut bytes) {
        return RawIterator::empty();
    }
    let (_, last) = walk_to_end_visiting(store, end.name, End::Last, visits);
    RawIterator::new(store, first, last)
}

/// Returns an iterator over the leaves whose keys are between two bounds, in order: over none if the first bound is
/// after the second.
///
/// It allocates nothing, and costs at most what `first_from_unchecked` and `last_up_to_unchecked` do together.
pub fn range_unchecked<B: KeyBytes + Drop, K: AsBytes + Drop, V: Drop, const P: usize>(
    store: &NodeStore<K, V, P>,
    root: OpaqueNodePtr,
    from: Bound<B>,
    to: Bound<B>,
) -> RawIterator
    requires { IsCanonicalRoot (of_key K.bytes) P store.now root }
    ensures { ForTree (of_key K.bytes) P store.now root (λ pairs layout.
        IsIteratorOf store.now result (leaves_where (λ x.
        is_between (bound_map B.key from) (bound_map B.key to) (K.bytes x.0))
        layout)) }
{
    range_visiting(store, root, from, to, &mut Visits::new())
}

/// Returns what `range_unchecked` does, and counts each reading of a node: at least the nodes whose place is a prefix
/// of the first bound's key, the first leaf from there on, and, if a leaf is in the range, the nodes whose place is a
/// prefix of the second bound's key; at most twice the most that `first_from_visiting` counts, and one. A full counter
/// stays full.
#[inline(always)]
pub fn range_visiting<B: KeyBytes + Drop, K: AsBytes + Drop, V: Drop, const P: usize>(
    store: &NodeStore<K, V, P>,
    root: OpaqueNodePtr,
    from: Bound<B>,
    to: Bound<B>,
    visits: &mut Visits,
) -> RawIterator
    requires { IsCanonicalRoot (of_key K.bytes) P store.now root }
    ensures leaves { ForTree (of_key K.bytes) P store.now root (λ pairs layout.
        IsIteratorOf store.now result (leaves_where (λ x.
        is_between (bound_map B.key from) (bound_map B.key to) (K.bytes x.0))
        layout)) }
    ensures visits { CountsToBounds (of_key K.bytes) P store.now root
        (bound_map B.key from) (bound_map B.key to) visits.old visits.new }
{
    let Some(first) = first_from_visiting(store, root, from, visits) else {
        return RawIterator::empty();
    };
    let leaf = store.leaf_at(first);
    visits.count_one();
    if !ends_after(&to, leaf.key.as_bytes()) {
        return RawIterator::empty();
    }
    let last = last_up_to_visiting(store, root, to, visits).unwrap();
    RawIterator::new(store, first, last)
}

/// Returns the first leaf whose key is after a bound, or at it if that is included.
///
/// It allocates nothing. It descends by the bytes of the bound, and from where this ends to the first and the last leaf
/// below. Prefixes that are not stored whole are all read from the same leaf, which takes a further descent.
/// `first_from_visiting` counts what it reads.
pub fn first_from_unchecked<B: KeyBytes + Drop, K: AsBytes + Drop, V: Drop, const P: usize>(
    store: &NodeStore<K, V, P>,
    root: OpaqueNodePtr,
    from: Bound<B>,
) -> OptionalLeafPtr
    requires { IsCanonicalRoot (of_key K.bytes) P store.now root }
    ensures leaf { ForTree (of_key K.bytes) P store.now root (λ pairs layout.
        option_map leaf_name result ≡ first_of
        (leaves_where (λ x. is_from (bound_map B.key from) (K.bytes x.0)) layout)) }
    ensures there { IfSome result (λ leaf. IsSome (map.get store.now.leaves leaf)) }
{
    first_from_visiting(store, root, from, &mut Visits::new())
}

/// Returns what `first_from_unchecked` does, and counts each reading of a node: at least the nodes whose place is a
/// prefix of the bound's key, and at most three for each level of the tree, the leaves being a level, and two. A full
/// counter stays full.
#[inline(always)]
pub fn first_from_visiting<B: KeyBytes + Drop, K: AsBytes + Drop, V: Drop, const P: usize>(
    store: &NodeStore<K, V, P>,
    root: OpaqueNodePtr,
    from: Bound<B>,
    visits: &mut Visits,
) -> OptionalLeafPtr
    requires { IsCanonicalRoot (of_key K.bytes) P store.now root }
    ensures leaf { ForTree (of_key K.bytes) P store.now root (λ pairs layout.
        option_map leaf_name result ≡ first_of
        (leaves_where (λ x. is_from (bound_map B.key from) (K.bytes x.0)) layout)) }
    ensures there { IfSome result (λ leaf. IsSome (map.get store.now.leaves leaf)) }
    ensures visits { CountsToBound (of_key K.bytes) P store.now root
        (bound_map B.key from) visits.old visits.new }
{
    match from {
        Bound::Included(bytes) => {
            leaf_at_cut(store, root, Cut::Before, bytes, End::First, visits)
        }
        Bound::Excluded(bytes) => {
            leaf_at_cut(store, root, Cut::After, bytes, End::First, visits)
        }
        Bound::Unbounded => Some(walk_to_end_visiting(store, root, End::First, visits).1),
    }
}

/// Returns the last leaf whose key is before a bound, or at it if that is included. It costs what
/// `first_from_unchecked` does.
pub fn last_up_to_unchecked<B: KeyBytes + Drop, K: AsBytes + Drop, V: Drop, const P: usize>(
    store: &NodeStore<K, V, P>,
    root: OpaqueNodePtr,
    to: Bound<B>,
) -> OptionalLeafPtr
    requires { IsCanonicalRoot (of_key K.bytes) P store.now root }
    ensures leaf { ForTree (of_key K.bytes) P store.now root (λ pairs layout.
        option_map leaf_name result ≡ last_of
        (leaves_where (λ x. is_up_to (bound_map B.key to) (K.bytes x.0)) layout)) }
    ensures there { IfSome result (λ leaf. IsSome (map.get store.now.leaves leaf)) }
{
    last_up_to_visiting(store, root, to, &mut Visits::new())
}

/// Returns what `last_up_to_unchecked` does, and counts as `first_from_visiting` does.
#[inline(always)]
pub fn last_up_to_visiting<B: KeyBytes + Drop, K: AsBytes + Drop, V: Drop, const P: usize>(
    store: &NodeStore<K, V, P>,
    root: OpaqueNodePtr,
    to: Bound<B>,
    visits: &mut Visits,
) -> OptionalLeafPtr
    requires { IsCanonicalRoot (of_key K.bytes) P store.now root }
    ensures leaf { ForTree (of_key K.bytes) P store.now root (λ pairs layout.
        option_map leaf_name result ≡ last_of
        (leaves_where (λ x. is_up_to (bound_map B.key to) (K.bytes x.0)) layout)) }
    ensures there { IfSome result (λ leaf. IsSome (map.get store.now.leaves leaf)) }
    ensures visits { CountsToBound (of_key K.bytes) P store.now root
        (bound_map B.key to) visits.old visits.new }
{
    match to {
        Bound::Included(bytes) => { leaf_at_cut(store, root, Cut::After, bytes, End::Last, visits) }
        Bound::Excluded(bytes) => {
            leaf_at_cut(store, root, Cut::Before, bytes, End::Last, visits)
        }
        Bound::Unbounded => Some(walk_to_end_visiting(store, root, End::Last, visits).1),
    }
}

// Returns whether a key is before an upper bound, or at it if that is included.
fn ends_after<B: KeyBytes + Drop>(to: &Bound<B>, key_bytes: &[u8]) -> bool
    ensures { result ≡ is_up_to (bound_map B.key to.now) key_bytes.now }
{
    match to {
        Bound::Included(bytes) => Cut::After.is_after(&mut bytes.again(), key_bytes),
        Bound::Excluded(bytes) => Cut::Before.is_after(&mut bytes.again(), key_bytes),
        Bound::Unbounded => true,
    }
}

/// A cut between keys, at a key.
#[derive(Clone, Copy)]
enum Cut {
    /// Right before the key: an equal one is after the cut.
    Before,
    /// Right after it: an equal one is before the cut.
    After,
}

impl Cut {
    // Returns whether the cut at a key is after another one.
    fn is_after<B: KeyBytes>(self, bytes: &mut B, other: &[u8]) -> bool
        ensures { result ≡ is_before_cut self (B.key bytes.old) other.now }
    {
        let order = compare(other, bytes);
        match self {
            Cut::Before => order.is_lt(),
            Cut::After => order.is_le(),
        }
    }
}

// Compares a slice with a key.
#[inline(always)]
fn compare<B: KeyBytes>(slice: &[u8], bytes: &mut B) -> Ordering
    ensures { result ≡ slice_cmp nat_cmp slice.now (B.key bytes.old) }
{
    let shared = bytes.shared_after(0, slice);
    match (slice.get(shared), bytes.byte_after(shared, 0)) {
        (None, None) => Ordering::Equal,
        (None, Some(_)) => Ordering::Less,
        (Some(_), None) => Ordering::Greater,
        (Some(byte), Some(other)) => byte.cmp(&other),
    }
}

// Returns the first leaf after a cut, or the last one before it.
#[inline(always)]
fn leaf_at_cut<B: KeyBytes + Drop, K: AsBytes + Drop, V: Drop, const P: usize>(
    store: &NodeStore<K, V, P>,
    root: OpaqueNodePtr,
    cut: Cut,
    bytes: B,
    end: End,
    visits: &mut Visits,
) -> OptionalLeafPtr
    requires { IsCanonicalRoot (of_key K.bytes) P store.now root }
    ensures leaf { ForTree (of_key K.bytes) P store.now root (λ pairs layout.
        IsLeafAtCut (of_key K.bytes) cut (B.key bytes) layout end result) }
    ensures visits { CountsToBound (of_key K.bytes) P store.now root
        (Included (B.key bytes)) visits.old visits.new }
{
    let mut bytes = bytes;
    let name = walk_beside(store, root, &mut bytes, visits);
    let (_, first) = walk_to_end_visiting(store, name, End::First, visits);
    let leaf = store.leaf_at(first);
    visits.count_one();
    if !cut.is_after(&mut bytes, leaf.key.as_bytes()) {
        return end.of((Some(first), leaf.previous));
    }
    let (_, last) = walk_to_end_visiting(store, name, End::Last, visits);
    let leaf = store.leaf_at(last);
    visits.count_one();
    end.of((leaf.next, Some(last)))
}

// Returns a node next to a key: what is before the node is before the key, what is after it is after the key, and all
// keys below it are on one side.
#[inline(always)]
fn walk_beside<B: KeyBytes + Drop, K: AsBytes + Drop, V: Drop, const P: usize>(
    store: &NodeStore<K, V, P>,
    root: OpaqueNodePtr,
    bytes: &mut B,
    visits: &mut Visits,
) -> OpaqueNodePtr
    requires { IsCanonicalRoot (of_key K.bytes) P store.now root }
    ensures beside { ForTree (of_key K.bytes) P store.now root (λ pairs layout.
        StandsBeside (of_key K.bytes) (B.key bytes.old) layout result) }
    ensures visits { CountsReadings visits.old visits.new (λ number.
        (number + 2 * levels store.now result ≤ 3 * (levels store.now root + 1)) ×
        ForTree (of_key K.bytes) P store.now root (λ pairs layout.
        length (nodes_on_way (of_key K.bytes) (B.key bytes.old) layout) ≤ number + 1)) }
    ensures same { B.key bytes.new ≡ B.key bytes.old }
{
    let mut name = root;
    let mut depth = 0;
    let mut guide = None;
    'down: loop {
        let NodePtr::Inner(inner) = name.split() else {
            return name;
        };
        let node = store.inner_at(inner);
        visits.count_one();
        if !has_prefix(store, root, bytes, inner, node, depth, &mut guide, visits) {
            return name;
        }
        let prefix_len = node.prefix_len();
        let Some(byte) = bytes.byte_after(depth, prefix_len) else {
            return name;
        };
        let Some(child) = node.lookup_child(byte) else {
            return node.beside(byte).1;
        };
        name = child;
        depth = depth + prefix_len + 1;
    }
}

// Returns whether the key goes on with the whole prefix of a node on its path. A prefix that is not stored whole is
// read from the guide leaf.
#[inline(always)]
fn has_prefix<B: KeyBytes + Drop, K: AsBytes + Drop, V: Drop, const P: usize>(
    store: &NodeStore<K, V, P>,
    root: OpaqueNodePtr,
    bytes: &mut B,
    name: InnerPtr,
    node: InnerRef<'_, P>,
    depth: usize,
    guide: &mut OptionalLeafPtr,
    visits: &mut Visits,
) -> bool
    requires root { IsCanonicalRoot (of_key K.bytes) P store.now root }
    requires proper { name.kind ≢ Leaf }
    requires node { Some (ref_view node) ≡ map.get store.now.inners name }
    requires at { ForTree (of_key K.bytes) P store.now root (λ pairs layout.
        (path : TreePath) ×
        IsAt (of_key K.bytes) P (B.key bytes.old) layout path (inner_name name) depth) }
    requires guide { ForTree (of_key K.bytes) P store.now root (λ pairs layout.
        MayGuide (of_key K.bytes) (B.key bytes.old) layout guide.old) }
    ensures guide { ForTree (of_key K.bytes) P store.now root (λ pairs layout.
        MayGuide (of_key K.bytes) (B.key bytes.old) layout guide.new) }
    ensures visits { CountsReadings visits.old visits.new (λ number.
        number + guide_cost store.now root guide.old ≤ 1 + guide_cost store.now root guide.new) }
    ensures goes { ForTree (of_key K.bytes) P store.now root (λ pairs layout.
        (path : TreePath) → (at : IsAt (of_key K.bytes) P (B.key bytes.old) layout
        path (inner_name name) depth) → IsTrue result ↔
        IsFront (prefix_of (of_key K.bytes) depth at.node) (drop depth (B.key bytes.old))) }
    ensures same { B.key bytes.new ≡ B.key bytes.old }
{
    let len = node.prefix_len();
    if len <= P {
        return bytes.shared_after(depth, node.read_prefix()) == len;
    }
    let mut again = bytes.again();
    let opaque = name.to_opaque();
    let read_from = guide_from(store, root, &mut again, opaque, depth, *guide, visits);
    *guide = Some(read_from);
    let leaf = store.leaf_at(read_from);
    visits.count_one();
    bytes.shared_after(depth, &leaf.key.as_bytes()[depth..depth + len]) == len
}
