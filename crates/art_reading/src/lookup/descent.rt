//! Descents of a tree: with a key to the leaf that may have it, with a prefix to the node below which its keys are, and
//! to the leaf at an end. Each reads one inner node for each level.
ghost use Rattle.std.specs.Prelude.{◌≡◌, ◌+◌, ◌-◌, ◌<◌, ◌≤◌, ◌^◌, [], ◌∷◌, ◌++◌, drop, length, min, IsSome, Some};
ghost use Rattle.std.specs.FinMap as map;
ghost use Rattle.std.specs.Option.{option_map};
ghost use Rattle.art_inner.specs.Inner.{Inner};
ghost use Rattle.art_inner.specs.Views.{ref_view};
ghost use Rattle.art_parts.specs.declared.names.OpaqueNodePtr.{OpaqueNodePtr};
ghost use Rattle.art_model.specs.Pairs.{of_key};
ghost use Rattle.art_model.specs.Roots.{ForTree, IsCanonicalRoot, IsFullTree};
ghost use Rattle.art_model.specs.Trees.{Tree};
ghost use Rattle.art_reading.specs.Matching.{behavior_after, child_below};
ghost use Rattle.art_reading.specs.Readings.{CountsReadings, ReadsBelow, levels};
ghost use Rattle.art_reading.specs.PartEnds.{EndsBelow};
ghost use Rattle.art_reading.specs.Descents.{CountsVisitsFrom, IsEndChild, IsKeysLeaf, LeadsToEnd, WalkEnds, asked_of, of_two};

use crate::lookup::matching::{Asked, PrefixMatchBehavior, Step};
use crate::lookup::query::{KeyBytes, KeyQuery};
use crate::path::{LastSteps, TreePath};
use art_nodes::node::{AsBytes, InnerPtr, InnerRef, LeafNode, LeafPtr, NodePtr, OpaqueNodePtr};
use art_nodes::store::NodeStore;
use std::marker::Model;

/// How many nodes visiting calls have read.
#[derive(Clone, Copy, PartialEq, Eq, Debug, Default)]
pub struct Visits {
    count: usize,
}

impl Model for Visits {
    ghost use Rattle.std.specs.Prelude.{ℕ};

    ghost Value = { ℕ };

    ghost view = { λ visits. visits.count };

    ghost inverse = { λ n. record { count = n } };
}

impl Visits {
    /// Returns a counter with value 0.
    pub fn new() -> Self
        ensures { result ≡ 0 }
    {
        Visits { count: 0 }
    }

    /// Returns how many nodes have been read.
    pub fn count(&self) -> usize
        ensures { result ≡ self.now }
    {
        self.count
    }

    // Counts so many further readings. The counter stops at the greatest number that it can hold.
    #[inline(always)]
    pub(crate) fn add(&mut self, more: Visits)
        ensures { self.new ≡ self.old + min more (2 ^ 64 - 1 - self.old) }
    {
        self.count = self.count.saturating_add(more.count);
    }

    /// Counts the reading of a node. The counter stops at the greatest number that it can hold.
    #[inline(always)]
    pub fn count_one(&mut self)
        ensures { self.new ≡ self.old + min 1 (2 ^ 64 - 1 - self.old) }
    {
        self.add(Visits { count: 1 });
    }

    // Counts the reading of a node, if the counter has room for it.
    fn add_one(&mut self)
        requires { self.old + 1 < 2 ^ 64 }
        ensures { self.new ≡ self.old + 1 }
    {
        self.count += 1;
    }
}

/// The leaf of a key.
#[derive(Clone, Copy)]
pub struct FoundLeaf<'a, K, V> {
    /// The nodes right above the leaf.
    pub path: TreePath,
    pub name: LeafPtr,
    pub node: &'a LeafNode<K, V>,
}

// The leaf at which a descent ends, how many bytes of the key lead to it, and how the others are to be compared there.
#[derive(Clone, Copy)]
struct LastLeaf<'a, K, V> {
    leaf: FoundLeaf<'a, K, V>,
    depth: usize,
    behavior: PrefixMatchBehavior,
}

/// Descends with a key to the leaf that is asked for, or to `None` if there is none.
///
/// The descent starts with the behavior `start`: `Pessimistic` compares the stored bytes of prefixes, `Optimistic` only
/// their lengths, and then the whole key at the leaf. If the leaf exists both read the same nodes; if not, an
/// optimistic descent may read more.
#[inline(always)]
pub fn walk_to_key<'a, Q: KeyQuery, K: AsBytes + Drop, V: Drop, const P: usize>(
    store: &'a NodeStore<K, V, P>,
    root: OpaqueNodePtr,
    query: Q,
    asked: Asked,
    start: PrefixMatchBehavior,
    visits: &mut Visits,
) -> Option<FoundLeaf<'a, K, V>>
    requires root { IsCanonicalRoot (of_key K.bytes) P store.now root }
    requires room { visits.old + length (Q.key query) + 1 < 2 ^ 64 }
    ensures leaf { ForTree (of_key K.bytes) P store.now root (λ pairs layout.
        IsKeysLeaf (asked_of asked (of_key K.bytes) (Q.key query) pairs) layout result) }
    ensures visits { CountsVisitsFrom start (of_key K.bytes) P store.now root
        (Q.key query) visits.old visits.new (IsSome result) }
{
    let last = walk(store, root, query, start, visits)?;
    if query.finds(last.behavior, asked, last.leaf.node, last.depth) {
        Some(last.leaf)
    } else {
        None
    }
}

// Descends with a key to the only leaf whose key can be a prefix of it, and counts each node that it reads.
#[inline(always)]
fn walk<'a, Q: KeyQuery, K: AsBytes + Drop, V: Drop, const P: usize>(
    store: &'a NodeStore<K, V, P>,
    root: OpaqueNodePtr,
    query: Q,
    start: PrefixMatchBehavior,
    visits: &mut Visits,
) -> Option<LastLeaf<'a, K, V>>
    requires root { IsCanonicalRoot (of_key K.bytes) P store.now root }
    requires room { visits.old + length (Q.key query) + 1 < 2 ^ 64 }
    ensures ends { ForTree (of_key K.bytes) P store.now root (λ pairs layout.
        WalkEnds (of_key K.bytes) P start (Q.key query) pairs layout
        visits.old visits.new result) }
    ensures at_most { visits.new ≤ visits.old + length (Q.key query) + 1 }
{
    let mut steps = LastSteps::new();
    let mut name = root;
    let mut depth = 0;
    let mut behavior = start;
    let (front, last) = query.parts();
    'down: loop {
        visits.add_one();
        // Inner nodes come first, so that the kinds of name and node are one test in machine code.
        let inner = InnerPtr {
            kind: name.kind,
            slot: name.slot,
        };
        let Some(node) = store.inner(inner) else {
            let Some(name) = name.as_leaf() else {
                unreachable!()
            };
            let node = store.leaf_at(name);
            let path = steps.path();
            return Some(LastLeaf {
                leaf: FoundLeaf { path, name, node },
                depth,
                behavior,
            });
        };
        match behavior.step(node, front, depth) {
            Step::Down(place, child) => {
                steps.step_down(inner, front[place]);
                name = child;
                depth = place + 1;
            }
            Step::AtEnd => {
                let last = last?;
                let child = last_child(store, inner, &mut behavior, front, last, depth)?;
                visits.add_one();
                let name = child.as_leaf()?;
                let node = store.leaf_at(name);
                steps.step_down(inner, last);
                return Some(LastLeaf {
                    leaf: FoundLeaf {
                        path: steps.path(),
                        name,
                        node,
                    },
                    depth: front.len() + 1,
                    behavior,
                });
            }
            Step::Nowhere => return None,
        }
    }
}

// The child of an inner node under the last byte of a key, where the bytes before it end with the node's prefix. It
// looks the node up once more, so that the loop of a descent need not keep its address.
#[inline(never)]
fn last_child<K: AsBytes + Drop, V: Drop, const P: usize>(
    store: &NodeStore<K, V, P>,
    inner: InnerPtr,
    behavior: &mut PrefixMatchBehavior,
    front: &[u8],
    last: u8,
    depth: usize,
) -> Option<OpaqueNodePtr>
    requires there { IsSome (map.get store.now.inners inner) }
    requires passed { (node : Inner) → Some node ≡ map.get store.now.inners inner →
        (depth + node.prefix.len ≡ length front.now)
        × (length node.prefix.stored ≤ node.prefix.len) }
    ensures child { (node : Inner) → Some node ≡ map.get store.now.inners inner →
        option_map (λ child. (length front.now, child)) result ≡
        child_below behavior.old node (front.now ++ last ∷ []) depth }
    ensures behavior { (node : Inner) → Some node ≡ map.get store.now.inners inner →
        IsSome result → behavior.new ≡
        behavior_after behavior.old node.prefix (drop depth (front.now ++ last ∷ [])) }
{
    let node = store.inner_at(inner);
    behavior.last_step(node, front, last, depth)
}

/// An end of a tree's leaves.
#[derive(Clone, Copy)]
pub enum End {
    First,
    Last,
}

impl End {
    /// Returns the first of two, or the last.
    #[inline(always)]
    pub fn of<T: Copy>(self, two: (T, T)) -> T
        ensures { result ≡ of_two self two }
    {
        match self {
            End::First => two.0,
            End::Last => two.1,
        }
    }
}

/// Descends to the leaf at an end of the tree rooted at a name, and returns the path to it too.
#[inline(always)]
pub fn walk_to_end<K: AsBytes + Drop, V: Drop, const P: usize>(
    store: &NodeStore<K, V, P>,
    root: OpaqueNodePtr,
    end: End,
) -> (TreePath, LeafPtr)
    requires { (layout : Tree OpaqueNodePtr (K × V)) × IsFullTree store.now root layout }
    ensures { (layout : Tree OpaqueNodePtr (K × V)) →
        IsFullTree store.now root layout → LeadsToEnd layout end result.0 result.1 }
{
    walk_to_end_visiting(store, root, end, &mut Visits::new())
}

/// Returns what `walk_to_end` does, and counts each inner node that it reads.
#[inline(always)]
pub fn walk_to_end_visiting<K: AsBytes + Drop, V: Drop, const P: usize>(
    store: &NodeStore<K, V, P>,
    root: OpaqueNodePtr,
    end: End,
    visits: &mut Visits,
) -> (TreePath, LeafPtr)
    requires { (layout : Tree OpaqueNodePtr (K × V)) × IsFullTree store.now root layout }
    ensures leads { (layout : Tree OpaqueNodePtr (K × V)) →
        IsFullTree store.now root layout → LeadsToEnd layout end result.0 result.1 }
    ensures visits { CountsReadings visits.old visits.new (λ number.
        number ≤ levels store.now root) }
{
    let mut steps = LastSteps::new();
    let mut name = root;
    'down: loop {
        let inner = match name.split() {
            NodePtr::Inner(inner) => inner,
            NodePtr::Leaf(leaf) => return (steps.path(), leaf),
        };
        let node = store.inner_at(inner);
        visits.count_one();
        let (byte, child) = child_at_end(node, end);
        steps.step_down(inner, byte);
        name = child;
    }
}

// The child at an end of a node, with its byte.
fn child_at_end<const P: usize>(node: InnerRef<'_, P>, end: End) -> (u8, OpaqueNodePtr)
    requires { 0 < length (ref_view node).children }
    ensures { IsEndChild end (ref_view node.entry).children result }
{
    match end {
        End::First => node.min(),
        End::Last => node.max(),
    }
}

/// The node at which a descent ends.
#[derive(Clone, Copy)]
pub struct LastNode {
    /// The nodes right above the node.
    pub path: TreePath,
    pub name: OpaqueNodePtr,
}

/// Descends to the node below which all keys with a prefix are, or to `None` only if no key has it. Either all keys
/// below the node have the prefix, or none has: the prefixes of nodes are skipped, and not compared.
#[inline(always)]
pub fn walk_below<B: KeyBytes, K: AsBytes + Drop, V: Drop, const P: usize>(
    store: &NodeStore<K, V, P>,
    root: OpaqueNodePtr,
    prefix: &mut B,
) -> Option<LastNode>
    requires { IsCanonicalRoot (of_key K.bytes) P store.now root }
    ensures end { ForTree (of_key K.bytes) P store.now root (λ pairs layout.
        EndsBelow (of_key K.bytes) (B.key prefix.old) layout result) }
    ensures same { B.key prefix.new ≡ B.key prefix.old }
{
    walk_below_visiting(store, root, prefix, &mut Visits::new())
}

/// Returns what `walk_below` does, and counts each inner node that it reads.
#[inline(always)]
pub fn walk_below_visiting<B: KeyBytes, K: AsBytes + Drop, V: Drop, const P: usize>(
    store: &NodeStore<K, V, P>,
    root: OpaqueNodePtr,
    prefix: &mut B,
    visits: &mut Visits,
) -> Option<LastNode>
    requires { IsCanonicalRoot (of_key K.bytes) P store.now root }
    ensures end { ForTree (of_key K.bytes) P store.now root (λ pairs layout.
        EndsBelow (of_key K.bytes) (B.key prefix.old) layout result) }
    ensures visits { CountsReadings visits.old visits.new (λ number.
        ForTree (of_key K.bytes) P store.now root (λ pairs layout.
        ReadsBelow (of_key K.bytes) store.now root (B.key prefix.old) layout result number)) }
    ensures same { B.key prefix.new ≡ B.key prefix.old }
{
    let mut steps = LastSteps::new();
    let mut name = root;
    let mut depth = 0;
    'down: loop {
        let NodePtr::Inner(inner) = name.split() else {
            return Some(LastNode {
                path: steps.path(),
                name,
            });
        };
        let node = store.inner_at(inner);
        visits.count_one();
        let prefix_len = node.prefix_len();
        let Some(byte) = prefix.byte_after(depth, prefix_len) else {
            return Some(LastNode {
                path: steps.path(),
                name,
            });
        };
        let child = node.lookup_child(byte)?;
        steps.step_down(inner, byte);
        name = child;
        depth = depth + prefix_len + 1;
    }
}
