//! The descent with a key to its end node: the node with the longest place that is a prefix of the key.
ghost use Rattle.std.specs.Prelude.{◌≡◌, ◌≢◌, ◌+◌, ◌-◌, ◌<◌, ◌≤◌, drop, get_or, length, Some, None, slice_get, IfOk, IfErr};
ghost use Rattle.std.specs.FinMap as map;
ghost use Rattle.art_parts.specs.Names.{inner_name};
ghost use Rattle.art_parts.specs.declared.names.NodeType.TheVariants.{Leaf};
ghost use Rattle.art_parts.specs.declared.names.OpaqueNodePtr.{OpaqueNodePtr};
ghost use Rattle.art_inner.specs.Inner.{child_at};
ghost use Rattle.art_inner.specs.Views.{ref_view};
ghost use Rattle.art_parts.specs.Keys.{IsFront};
ghost use Rattle.art_model.specs.Pairs.{of_key};
ghost use Rattle.art_model.specs.Roots.{ForTree, IsCanonicalRoot};
ghost use Rattle.art_reading.specs.Matching.{shared_len};
ghost use Rattle.art_reading.specs.EndNodes.{IsAt, IsCompared, IsEndFor, IsKindFor, IsStepFrom};
ghost use Rattle.art_reading.specs.Guides.{MayGuide};
ghost use Rattle.art_reading.specs.Readings.{CountsReadings, CountsToEnd, IsPrefixCost, StepReads};
ghost use Rattle.art_reading.specs.declared.end_node.InsertKind.TheVariants as kinds;
ghost use Rattle.art_reading.specs.declared.end_node.SearchStep.TheVariants as steps;
ghost use Rattle.art_reading.specs.declared.path.TreePath.{TreePath};

use crate::guide::guide_from;
use crate::lookup::descent::Visits;
use crate::lookup::query::KeyBytes;
use crate::minmax::first_below_visiting;
use crate::path::{ExplicitMismatch, LastSteps, PrefixMatch, TreePath};
use art_nodes::node::{
    AsBytes, InnerPtr, InnerRef, LeafNode, LeafPtr, NodePtr, OpaqueNodePtr, OptionalLeafPtr,
};
use art_nodes::store::NodeStore;

/// The end node of a key, and what is to be done there.
#[derive(Clone, Copy)]
pub struct EndNode {
    /// The nodes right above the end node.
    pub path: TreePath,
    pub name: OpaqueNodePtr,
    /// What is to be done there; `None` if an unequal stored key is related to the key (one is a prefix of the other).
    pub insert_kind: Option<InsertKind>,
    /// The length of the end node's place; for `IntoExisting` with the node's prefix added. If the key ends with the
    /// prefix, one less than the key's length, if that is not 0.
    pub key_bytes_used: usize,
}

/// What is to be done at the end node of a key.
#[derive(Clone, Copy, PartialEq, Eq, Debug)]
pub enum InsertKind {
    /// The key differs from the prefix of an inner node, which gets a new parent.
    MismatchPrefix {
        mismatch: ExplicitMismatch,
        mismatched_inner_node_ptr: InnerPtr,
    },
    /// The key differs from a leaf's key, and the leaf gets a new parent.
    SplitLeaf {
        leaf_node_ptr: LeafPtr,
        /// The length of the longest prefix that both keys have.
        new_key_bytes_used: usize,
    },
    /// The leaf of the key itself: its value is replaced.
    Exact {
        leaf_node_ptr: LeafPtr,
    },
    /// An inner node gets a further child.
    IntoExisting {
        inner_node_ptr: InnerPtr,
    },
}

/// Descends with a key to its end node in the tree of a canonical root.
///
/// A prefix that its node does not store whole is read from a leaf: all such prefixes from the same one, which takes a
/// further descent. Where the key differs from such a prefix, another descent finds the least leaf below.
#[inline(always)]
pub fn walk_to_end_node<B: KeyBytes + Drop, K: AsBytes + Drop, V: Drop, const P: usize>(
    store: &NodeStore<K, V, P>,
    root: OpaqueNodePtr,
    key: &mut B,
) -> EndNode
    requires { IsCanonicalRoot (of_key K.bytes) P store.now root }
    ensures end { ForTree (of_key K.bytes) P store.now root (λ pairs layout.
        IsEndFor (of_key K.bytes) P (B.key key.old) pairs layout result) }
    ensures same { B.key key.new ≡ B.key key.old }
{
    walk_to_end_node_visiting(store, root, key, &mut Visits::new())
}

/// Does what `walk_to_end_node` does, and counts each reading of a node: at least the nodes whose place is a prefix of
/// the key, exactly these if each prefix is stored whole, and at most three for each level of the tree, the leaves
/// being a level. A full counter stays full.
#[inline(always)]
pub fn walk_to_end_node_visiting<B: KeyBytes + Drop, K: AsBytes + Drop, V: Drop, const P: usize>(
    store: &NodeStore<K, V, P>,
    root: OpaqueNodePtr,
    key: &mut B,
    visits: &mut Visits,
) -> EndNode
    requires { IsCanonicalRoot (of_key K.bytes) P store.now root }
    ensures end { ForTree (of_key K.bytes) P store.now root (λ pairs layout.
        IsEndFor (of_key K.bytes) P (B.key key.old) pairs layout result) }
    ensures visits { CountsToEnd (of_key K.bytes) P store.now root (B.key key.old)
        visits.old visits.new }
    ensures same { B.key key.new ≡ B.key key.old }
{
    let mut steps = LastSteps::new();
    let mut name = root;
    let mut depth = 0;
    let mut guide = None;
    'down: loop {
        match next_step(store, root, key, name, depth, &mut guide, visits) {
            SearchStep::End {
                insert_kind,
                key_bytes_used,
            } => {
                return EndNode {
                    path: steps.path(),
                    name,
                    insert_kind,
                    key_bytes_used,
                };
            }
            SearchStep::Down {
                inner,
                byte,
                child,
                child_depth,
            } => {
                steps.step_down(inner, byte);
                name = child;
                depth = child_depth;
            }
        }
    }
}

// Where a step of a descent with a key leads.
#[derive(Clone, Copy)]
enum SearchStep {
    /// The node is the key's end node, with what is to be done there.
    End {
        insert_kind: Option<InsertKind>,
        key_bytes_used: usize,
    },
    /// The key continues with a child.
    Down {
        inner: InnerPtr,
        /// The byte under which the node has the child.
        byte: u8,
        child: OpaqueNodePtr,
        /// How many bytes lead to the child.
        child_depth: usize,
    },
}

// The step from the node of this name, to which so many bytes of the key lead.
#[inline(always)]
fn next_step<B: KeyBytes + Drop, K: AsBytes + Drop, V: Drop, const P: usize>(
    store: &NodeStore<K, V, P>,
    root: OpaqueNodePtr,
    key: &mut B,
    name: OpaqueNodePtr,
    depth: usize,
    guide: &mut OptionalLeafPtr,
    visits: &mut Visits,
) -> SearchStep
    requires root { IsCanonicalRoot (of_key K.bytes) P store.now root }
    requires at { (path : TreePath) × ForTree (of_key K.bytes) P store.now root
        (λ pairs layout. IsAt (of_key K.bytes) P (B.key key.old) layout path name depth) }
    requires guide { ForTree (of_key K.bytes) P store.now root (λ pairs layout.
        MayGuide (of_key K.bytes) (B.key key.old) layout guide.old) }
    ensures guide { ForTree (of_key K.bytes) P store.now root (λ pairs layout.
        MayGuide (of_key K.bytes) (B.key key.old) layout guide.new) }
    ensures visits { CountsReadings visits.old visits.new (λ number.
        StepReads (of_key K.bytes) P store.now root name
        guide.old guide.new result number) }
    ensures step { (path : TreePath) → ForTree (of_key K.bytes) P store.now root
        (λ pairs layout.
        (at : IsAt (of_key K.bytes) P (B.key key.old) layout path name depth) →
        IsStepFrom (of_key K.bytes) P (B.key key.old) pairs layout
        path name depth at result) }
    ensures same { B.key key.new ≡ B.key key.old }
{
    match name.split() {
        NodePtr::Inner(inner) => step_at_inner(store, root, key, inner, depth, guide, visits),
        NodePtr::Leaf(leaf_node_ptr) => {
            let leaf = store.leaf_at(leaf_node_ptr);
            visits.count_one();
            SearchStep::End {
                insert_kind: kind_at_leaf(leaf_node_ptr, leaf, key),
                key_bytes_used: depth,
            }
        }
    }
}

// The same at an inner node.
#[inline(always)]
fn step_at_inner<B: KeyBytes + Drop, K: AsBytes + Drop, V: Drop, const P: usize>(
    store: &NodeStore<K, V, P>,
    root: OpaqueNodePtr,
    key: &mut B,
    inner: InnerPtr,
    depth: usize,
    guide: &mut OptionalLeafPtr,
    visits: &mut Visits,
) -> SearchStep
    requires root { IsCanonicalRoot (of_key K.bytes) P store.now root }
    requires inner { inner.kind ≢ Leaf }
    requires at { (path : TreePath) × ForTree (of_key K.bytes) P store.now root
        (λ pairs layout. IsAt (of_key K.bytes) P (B.key key.old) layout
        path (inner_name inner) depth) }
    requires guide { ForTree (of_key K.bytes) P store.now root (λ pairs layout.
        MayGuide (of_key K.bytes) (B.key key.old) layout guide.old) }
    ensures guide { ForTree (of_key K.bytes) P store.now root (λ pairs layout.
        MayGuide (of_key K.bytes) (B.key key.old) layout guide.new) }
    ensures visits { CountsReadings visits.old visits.new (λ number.
        StepReads (of_key K.bytes) P store.now root (inner_name inner)
        guide.old guide.new result number) }
    ensures step { (path : TreePath) → ForTree (of_key K.bytes) P store.now root
        (λ pairs layout. (at : IsAt (of_key K.bytes) P (B.key key.old) layout
        path (inner_name inner) depth) →
        IsStepFrom (of_key K.bytes) P (B.key key.old) pairs layout
        path (inner_name inner) depth at result) }
    ensures same { B.key key.new ≡ B.key key.old }
{
    let node = store.inner_at(inner);
    visits.count_one();
    match match_full_prefix(store, root, inner, node, key, depth, guide, visits) {
        Ok(matched) => step_past_prefix(key, inner, node, depth, matched.matched_bytes),
        Err(mismatch) => end_in_prefix(key, inner, mismatch, depth),
    }
}

// The end at an inner node whose prefix the key differs from or ends in.
#[inline(always)]
fn end_in_prefix<B: KeyBytes>(
    key: &mut B,
    inner: InnerPtr,
    mismatch: ExplicitMismatch,
    depth: usize,
) -> SearchStep
    requires { depth ≤ length (B.key key.old) }
    ensures ends { length (B.key key.old) ≤ depth + mismatch.matched_bytes →
        result ≡ steps.End None depth }
    ensures parts { depth + mismatch.matched_bytes < length (B.key key.old) →
        result ≡ steps.End (Some (kinds.MismatchPrefix mismatch inner)) depth }
    ensures same { B.key key.new ≡ B.key key.old }
{
    let insert_kind = match key.byte_after(depth, mismatch.matched_bytes) {
        None => None,
        Some(_) => Some(InsertKind::MismatchPrefix {
            mismatch,
            mismatched_inner_node_ptr: inner,
        }),
    };
    SearchStep::End {
        insert_kind,
        key_bytes_used: depth,
    }
}

// The step from an inner node with whose prefix, of this length, the key goes on from a depth on.
#[inline(always)]
fn step_past_prefix<B: KeyBytes, const P: usize>(
    key: &mut B,
    inner: InnerPtr,
    node: InnerRef<'_, P>,
    depth: usize,
    prefix_len: usize,
) -> SearchStep
    requires { depth + prefix_len ≤ length (B.key key.old) }
    ensures ends { length (B.key key.old) ≤ depth + prefix_len →
        result ≡ steps.End None (depth + prefix_len - 1) }
    ensures into { depth + prefix_len < length (B.key key.old) →
        child_at (ref_view node.entry).children
        (get_or (B.key key.old) (depth + prefix_len) 0) ≡ None →
        result ≡ steps.End (Some (kinds.IntoExisting inner)) (depth + prefix_len) }
    ensures down { depth + prefix_len < length (B.key key.old) → (child : OpaqueNodePtr) →
        child_at (ref_view node.entry).children
        (get_or (B.key key.old) (depth + prefix_len) 0) ≡ Some child →
        result ≡ steps.Down inner (get_or (B.key key.old) (depth + prefix_len) 0) child
        (depth + prefix_len + 1) }
    ensures same { B.key key.new ≡ B.key key.old }
{
    // The place is within the key, so the sum did not wrap.
    let place = depth.wrapping_add(prefix_len);
    let Some(byte) = key.byte_after(place, 0) else {
        return SearchStep::End {
            insert_kind: None,
            key_bytes_used: place.saturating_sub(1),
        };
    };
    match node.lookup_child(byte) {
        None => SearchStep::End {
            insert_kind: Some(InsertKind::IntoExisting {
                inner_node_ptr: inner,
            }),
            key_bytes_used: place,
        },
        Some(child) => SearchStep::Down {
            inner,
            byte,
            child,
            child_depth: place + 1,
        },
    }
}

// What is to be done at a leaf, or `None` where its key and the key are related but not equal.
#[inline(always)]
fn kind_at_leaf<B: KeyBytes, K: AsBytes, V>(
    leaf_node_ptr: LeafPtr,
    leaf: &LeafNode<K, V>,
    key: &mut B,
) -> Option<InsertKind>
    ensures kind { IsKindFor (B.key key.old) leaf_node_ptr (K.bytes leaf.now.key) result }
    ensures same { B.key key.new ≡ B.key key.old }
{
    let leaf_bytes = leaf.key.as_bytes();
    let shared = key.shared_after(0, leaf_bytes);
    match (key.byte_after(shared, 0), shared < leaf_bytes.len()) {
        (Some(_), true) => Some(InsertKind::SplitLeaf {
            leaf_node_ptr,
            new_key_bytes_used: shared,
        }),
        (None, false) => Some(InsertKind::Exact { leaf_node_ptr }),
        (_, _) => None,
    }
}

// Compares the whole prefix of an inner node with the key from this depth on.
#[inline(always)]
fn match_full_prefix<B: KeyBytes + Drop, K: AsBytes + Drop, V: Drop, const P: usize>(
    store: &NodeStore<K, V, P>,
    root: OpaqueNodePtr,
    name: InnerPtr,
    node: InnerRef<'_, P>,
    key: &mut B,
    depth: usize,
    guide: &mut OptionalLeafPtr,
    visits: &mut Visits,
) -> Result<PrefixMatch, ExplicitMismatch>
    requires root { IsCanonicalRoot (of_key K.bytes) P store.now root }
    requires inner { name.kind ≢ Leaf }
    requires node { Some (ref_view node) ≡ map.get store.now.inners name }
    requires at { (path : TreePath) × ForTree (of_key K.bytes) P store.now root
        (λ pairs layout. IsAt (of_key K.bytes) P (B.key key.old) layout
        path (inner_name name) depth) }
    requires guide { ForTree (of_key K.bytes) P store.now root (λ pairs layout.
        MayGuide (of_key K.bytes) (B.key key.old) layout guide.old) }
    ensures guide { ForTree (of_key K.bytes) P store.now root (λ pairs layout.
        MayGuide (of_key K.bytes) (B.key key.old) layout guide.new) }
    ensures visits { CountsReadings visits.old visits.new (λ number.
        IsPrefixCost store.now root (inner_name name) guide.old guide.new result number
        × ((ref_view node.entry).prefix.len ≤ P → number ≡ 0)) }
    ensures compared { (path : TreePath) → ForTree (of_key K.bytes) P store.now root
        (λ pairs layout. (at : IsAt (of_key K.bytes) P (B.key key.old) layout
        path (inner_name name) depth) →
        IsCompared (of_key K.bytes) P (B.key key.old) at.node depth result) }
    ensures same { B.key key.new ≡ B.key key.old }
{
    let len = node.prefix_len();
    if len == 0 {
        return Ok(PrefixMatch { matched_bytes: 0 });
    }
    if len <= P {
        return match_prefix(node.read_prefix(), key, depth, None);
    }
    let again = key.again();
    let (result, more) = match_long_prefix(store, root, name, node, again, depth, guide);
    visits.add(more);
    result
}

// The same for a prefix that is not stored whole, with the number of readings. It is read from the guide leaf, which is
// searched for if there is none yet. This is a call, so that the loops into which `match_full_prefix` is inlined stay
// small.
#[inline(never)]
fn match_long_prefix<B: KeyBytes + Drop, K: AsBytes + Drop, V: Drop, const P: usize>(
    store: &NodeStore<K, V, P>,
    root: OpaqueNodePtr,
    name: InnerPtr,
    node: InnerRef<'_, P>,
    key: B,
    depth: usize,
    guide: &mut OptionalLeafPtr,
) -> (Result<PrefixMatch, ExplicitMismatch>, Visits)
    requires root { IsCanonicalRoot (of_key K.bytes) P store.now root }
    requires inner { name.kind ≢ Leaf }
    requires node { Some (ref_view node) ≡ map.get store.now.inners name }
    requires long { P < (ref_view node).prefix.len }
    requires at { (path : TreePath) × ForTree (of_key K.bytes) P store.now root
        (λ pairs layout. IsAt (of_key K.bytes) P (B.key key) layout
        path (inner_name name) depth) }
    requires guide { ForTree (of_key K.bytes) P store.now root (λ pairs layout.
        MayGuide (of_key K.bytes) (B.key key) layout guide.old) }
    ensures guide { ForTree (of_key K.bytes) P store.now root (λ pairs layout.
        MayGuide (of_key K.bytes) (B.key key) layout guide.new) }
    ensures visits { IsPrefixCost store.now root (inner_name name) guide.old guide.new
        result.0 result.1 }
    ensures compared { (path : TreePath) → ForTree (of_key K.bytes) P store.now root
        (λ pairs layout. (at : IsAt (of_key K.bytes) P (B.key key) layout
        path (inner_name name) depth) →
        IsCompared (of_key K.bytes) P (B.key key) at.node depth result.0) }
{
    let mut key = key;
    let len = node.prefix_len();
    let opaque = name.to_opaque();
    let mut visits = Visits::new();
    let read_from = guide_from(store, root, &mut key, opaque, depth, *guide, &mut visits);
    *guide = Some(read_from);
    let leaf = store.leaf_at(read_from);
    visits.count_one();
    let prefix = &leaf.key.as_bytes()[depth..depth + len];
    match match_prefix(prefix, &mut key, depth, None) {
        Ok(matched) => (Ok(matched), visits),
        Err(mismatch) => {
            let (least, more) = first_below_visiting(store, opaque);
            visits.add(more);
            let leaf_ptr = Some(least);
            (
                Err(ExplicitMismatch {
                    leaf_ptr,
                    ..mismatch
                }),
                visits,
            )
        }
    }
}

// Compares a prefix with the bytes of the key from this depth on.
#[inline(always)]
fn match_prefix<B: KeyBytes>(
    prefix: &[u8],
    key: &mut B,
    depth: usize,
    leaf_ptr: OptionalLeafPtr,
) -> Result<PrefixMatch, ExplicitMismatch>
    requires { depth ≤ length (B.key key.old) }
    ensures len { IfOk result (λ matched. matched.matched_bytes ≡ length prefix.now) }
    ensures front { IfOk result (λ matched. IsFront prefix.now (drop depth (B.key key.old))) }
    ensures shared { IfErr result (λ mismatch.
        mismatch.matched_bytes ≡ shared_len prefix.now (drop depth (B.key key.old))) }
    ensures byte { IfErr result (λ mismatch. slice_get prefix.now mismatch.matched_bytes ≡
        Some mismatch.prefix_byte) }
    ensures leaf { IfErr result (λ mismatch. mismatch.leaf_ptr ≡ leaf_ptr) }
    ensures same { B.key key.new ≡ B.key key.old }
{
    let matched_bytes = key.shared_after(depth, prefix);
    match prefix.get(matched_bytes) {
        None => Ok(PrefixMatch { matched_bytes }),
        Some(&prefix_byte) => Err(ExplicitMismatch {
            matched_bytes,
            prefix_byte,
            leaf_ptr,
        }),
    }
}
