//! The points of keys that start with a prefix: that of all, that of the first, and that of an equal one.
ghost use Rattle.std.specs.Prelude.{◌≡◌, IfSome, Some};
ghost use Rattle.art_model.specs.Pairs.{first_of, of_key};
ghost use Rattle.art_model.specs.Parts.{below};
ghost use Rattle.art_model.specs.Roots.{ForTree, IsCanonicalRoot};
ghost use Rattle.art_writing.specs.Deleted.{HasDeletePoint, HasKeyPoint};
ghost use Rattle.art_writing.specs.SubtreePoints.{ArePointsBelow, IsPrefixPoint, IsSubtreePointIn, joined};

use super::DeletePoint;
use super::subtree::SubtreeDeletePoint;
use art_nodes::node::{AsBytes, OpaqueNodePtr};
use art_nodes::store::NodeStore;
use art_reading::lookup::descent::{End, walk_below, walk_to_end};
use art_reading::lookup::{KeyBytes, starts_with};
use art_reading::path::TreePath;

/// Returns the point of all keys that start with a prefix, or `None` where no key does.
///
/// It allocates nothing. It descends to the node below which these keys are, by at most one inner node for each byte of
/// the prefix, then to the first leaf, and reads its key.
pub fn search_for_prefix_delete_point<
    B: KeyBytes + Drop,
    K: AsBytes + Drop,
    V: Drop,
    const P: usize,
>(store: &NodeStore<K, V, P>, root: OpaqueNodePtr, prefix: B) -> Option<SubtreeDeletePoint>
    requires { IsCanonicalRoot (of_key K.bytes) P store.now root }
    ensures point { ForTree (of_key K.bytes) P store.now root (λ pairs layout.
        IsPrefixPoint (of_key K.bytes) (B.key prefix) layout result) }
    ensures applies { IfSome result (IsSubtreePointIn (of_key K.bytes) P store.now root) }
{
    let (all, _) = points_below(store, root, prefix)?;
    Some(all)
}

/// Returns the point of the first key that starts with a prefix, or `None` where no key does.
///
/// It descends as `search_for_prefix_delete_point` does, at the same cost.
pub fn search_for_first_delete_point_below<
    B: KeyBytes + Drop,
    K: AsBytes + Drop,
    V: Drop,
    const P: usize,
>(store: &NodeStore<K, V, P>, root: OpaqueNodePtr, prefix: B) -> Option<DeletePoint>
    requires { IsCanonicalRoot (of_key K.bytes) P store.now root }
    ensures { HasDeletePoint (of_key K.bytes) P store.now root
        (λ pairs. first_of (below (of_key K.bytes) (B.key prefix) pairs)) result }
{
    let (_, first) = points_below(store, root, prefix)?;
    Some(first)
}

/// Returns the point of a key whose bytes need not stand in a slice, or `None` where no stored key is equal to it.
///
/// On its descent it skips prefixes by their lengths, without a comparison; at the leaf it compares the whole key. The
/// bytes are the same afterwards.
pub fn search_for_delete_point_by<B: KeyBytes + Drop, K: AsBytes + Drop, V: Drop, const P: usize>(
    store: &NodeStore<K, V, P>,
    root: OpaqueNodePtr,
    key: &mut B,
) -> Option<DeletePoint>
    requires { IsCanonicalRoot (of_key K.bytes) P store.now root }
    ensures point { HasKeyPoint (of_key K.bytes) P store.now root (B.key key.old) result }
    ensures same { B.key key.new ≡ B.key key.old }
{
    let point = search_for_first_delete_point_below(store, root, key.again())?;
    let bytes = store.leaf_at(point.leaf_node_ptr).key.as_bytes();
    if key.shared_after(0, bytes) < bytes.len() {
        return None;
    }
    Some(point)
}

// Returns the point of all keys that start with a prefix and that of the first of them, by a descent to the node below
// which they are, and on to the first leaf.
#[inline(always)]
fn points_below<B: KeyBytes + Drop, K: AsBytes + Drop, V: Drop, const P: usize>(
    store: &NodeStore<K, V, P>,
    root: OpaqueNodePtr,
    prefix: B,
) -> Option<(SubtreeDeletePoint, DeletePoint)>
    requires { IsCanonicalRoot (of_key K.bytes) P store.now root }
    ensures { ForTree (of_key K.bytes) P store.now root (λ _ layout.
        ArePointsBelow (of_key K.bytes) (B.key prefix) layout result) }
{
    let mut bytes = prefix;
    let end = walk_below(store, root, &mut bytes)?;
    let (path, first) = walk_to_end(store, end.name, End::First);
    let leaf = store.leaf_at(first);
    if !starts_with(leaf.key.as_bytes(), &mut bytes) {
        return None;
    }
    let all = SubtreeDeletePoint {
        path: end.path,
        node: end.name,
    };
    let point = DeletePoint {
        path: joined(end.path, path),
        leaf_node_ptr: first,
    };
    Some((all, point))
}

// The path to a node below another one: that to the other one, and then that from there.
#[inline(always)]
fn joined(above: TreePath, below: TreePath) -> TreePath
    ensures { result ≡ joined above below }
{
    match below {
        TreePath::Root => above,
        TreePath::ChildOfRoot {
            parent,
            child_key_byte,
        } => above.step_down(parent, child_key_byte),
        TreePath::Normal { .. } => below,
    }
}
