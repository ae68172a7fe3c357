//! The guide leaf of a search, from which it reads each prefix that is not stored whole.
ghost use Rattle.std.specs.Prelude.{◌≡◌, ◌+◌, ◌≤◌};
ghost use Rattle.art_parts.specs.declared.names.OpaqueNodePtr.{OpaqueNodePtr};
ghost use Rattle.art_model.specs.Pairs.{of_key};
ghost use Rattle.art_model.specs.Roots.{ForTree, IsCanonicalRoot};
ghost use Rattle.art_reading.specs.EndNodes.{IsAt};
ghost use Rattle.art_reading.specs.Guides.{AllGuide, IsGuide, MayGuide};
ghost use Rattle.art_reading.specs.Readings.{CountsReadings, guide_cost, levels};
ghost use Rattle.art_reading.specs.declared.path.TreePath.{TreePath};

use crate::lookup::descent::Visits;
use crate::lookup::query::KeyBytes;
use crate::minmax::first_below_visiting;
use art_nodes::node::{AsBytes, LeafPtr, NodePtr, OpaqueNodePtr, OptionalLeafPtr};
use art_nodes::store::NodeStore;

/// Returns a leaf whose key starts with the place of each node on the key's path: the known one, or if there is none
/// yet, one below this node, which is on that path.
///
/// A descent finds it, without comparing a prefix. The leaf serves for the whole path, so that a search makes this
/// descent once.
#[inline(always)]
pub fn guide_from<B: KeyBytes, K: AsBytes + Drop, V: Drop, const P: usize>(
    store: &NodeStore<K, V, P>,
    root: OpaqueNodePtr,
    key_bytes: &mut B,
    name: OpaqueNodePtr,
    depth: usize,
    known: OptionalLeafPtr,
    visits: &mut Visits,
) -> LeafPtr
    requires root { IsCanonicalRoot (of_key K.bytes) P store.now root }
    requires at { ForTree (of_key K.bytes) P store.now root (λ pairs layout.
        (path : TreePath) × IsAt (of_key K.bytes) P (B.key key_bytes.old) layout path name depth) }
    requires known { ForTree (of_key K.bytes) P store.now root (λ pairs layout.
        MayGuide (of_key K.bytes) (B.key key_bytes.old) layout known) }
    ensures guide { ForTree (of_key K.bytes) P store.now root (λ pairs layout.
        IsGuide (of_key K.bytes) (B.key key_bytes.old) layout result) }
    ensures visits { CountsReadings visits.old visits.new (λ number.
        number + guide_cost store.now root known ≤ levels store.now root + 1) }
    ensures same { B.key key_bytes.new ≡ B.key key_bytes.old }
{
    match known {
        Some(leaf) => leaf,
        None => {
            let (leaf, more) = find_guide(store, root, key_bytes, name, depth);
            visits.add(more);
            leaf
        }
    }
}

/// Returns such a leaf, below a node on the key's path, and how many nodes were read. This is a call, so that the loops
/// into which `guide_from` is inlined stay small.
#[inline(never)]
pub fn find_guide<B: KeyBytes, K: AsBytes + Drop, V: Drop, const P: usize>(
    store: &NodeStore<K, V, P>,
    root: OpaqueNodePtr,
    key_bytes: &mut B,
    name: OpaqueNodePtr,
    depth: usize,
) -> (LeafPtr, Visits)
    requires root { IsCanonicalRoot (of_key K.bytes) P store.now root }
    requires at { ForTree (of_key K.bytes) P store.now root (λ pairs layout.
        (path : TreePath) × IsAt (of_key K.bytes) P (B.key key_bytes.old) layout path name depth) }
    ensures guide { ForTree (of_key K.bytes) P store.now root (λ pairs layout.
        IsGuide (of_key K.bytes) (B.key key_bytes.old) layout result.0) }
    ensures same { B.key key_bytes.new ≡ B.key key_bytes.old }
    ensures visits { result.1 ≤ levels store.now root + 1 }
{
    let mut visits = Visits::new();
    let last = walk_by_places(store, root, key_bytes, name, depth, &mut visits);
    let (leaf, more) = first_below_visiting(store, last);
    visits.add(more);
    (leaf, visits)
}

// Descends from a node on the key's path by the key's bytes, whatever the bytes of the prefixes are, to a node below
// which no further node is on the path.
#[inline(always)]
fn walk_by_places<B: KeyBytes, K: AsBytes + Drop, V: Drop, const P: usize>(
    store: &NodeStore<K, V, P>,
    root: OpaqueNodePtr,
    key_bytes: &mut B,
    start: OpaqueNodePtr,
    start_depth: usize,
    visits: &mut Visits,
) -> OpaqueNodePtr
    requires root { IsCanonicalRoot (of_key K.bytes) P store.now root }
    requires at { ForTree (of_key K.bytes) P store.now root (λ pairs layout.
        (path : TreePath) ×
        IsAt (of_key K.bytes) P (B.key key_bytes.old) layout path start start_depth) }
    ensures visits { visits.new + levels store.now result ≤ visits.old + levels store.now root + 1 }
    ensures all { ForTree (of_key K.bytes) P store.now root (λ pairs layout.
        AllGuide (of_key K.bytes) (B.key key_bytes.old) layout result) }
    ensures same { B.key key_bytes.new ≡ B.key key_bytes.old }
{
    let mut name = start;
    let mut depth = start_depth;
    'down: loop {
        let NodePtr::Inner(inner) = name.split() else {
            return name;
        };
        let node = store.inner_at(inner);
        visits.count_one();
        let prefix_len = node.prefix_len();
        let Some(byte) = key_bytes.byte_after(depth, prefix_len) else {
            return name;
        };
        let Some(child) = node.lookup_child(byte) else {
            return name;
        };
        name = child;
        depth = depth + prefix_len + 1;
    }
}
