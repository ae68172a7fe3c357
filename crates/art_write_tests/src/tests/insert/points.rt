//! The fields of points of insertion, and of what their insertions return.
ghost use Rattle.art_model.specs.Pairs.{of_key};
ghost use Rattle.art_model.specs.Roots.{IsCanonicalRoot};

use super::effect::Told;
use art_nodes::node::{NodeType, OpaqueNodePtr};
use art_nodes::store::NodeStore;
use art_test_support::expected::same;
use art_test_support::points::{Put, Way, put};
use art_test_support::trees::{Key, planted_all, value_of};
use art_writing::insert::{
    InsertKind, InsertParentNodeChange, InsertPoint, PrefixInsertPoint, search_for_insert_point,
    search_for_prefix_insert_point,
};
use std::alloc::Global;
use std::test::Fail;

// What is done at the end node of a key.
#[derive(Clone, Copy, PartialEq, Eq, Debug)]
enum AtEnd {
    Exact,
    // With how many bytes both keys share.
    SplitLeaf(usize),
    IntoExisting,
    // With how many bytes agree, the prefix's byte after them, and the value of the leaf that is named.
    MismatchPrefix(usize, u8, Option<u32>),
    Overwrite,
}

// The byte under which the new leaf's parent has it, and whether that parent is the new root, if one is reported.
type Parent = Option<(u8, bool)>;

// A point with how many bytes it uses; what the insertion reports of the leaf's parent, the kind of the new root and
// whether it is the old one, and of other pairs.
type Seen = ((AtEnd, usize), (Parent, (NodeType, bool), Told));

// How many bytes of a prefix are stored, how a key is inserted, the keys of a tree, each with its place as its value,
// the key, and what is seen.
type Row = (usize, Way, &'static [&'static [u8]], &'static [u8], Seen);

static ROWS: [Row; 11] = [
    // In a prefix that is longer than what is stored, and in one that is not.
    (
        2,
        Way::Apart,
        &[&[7, 1, 1, 1, 1, 5], &[7, 1, 1, 1, 1, 6]],
        &[7, 1, 1, 9],
        (
            (AtEnd::MismatchPrefix(3, 1, Some(0)), 0),
            (Some((9, true)), (NodeType::Node4, false), (None, 0)),
        ),
    ),
    (
        16,
        Way::Apart,
        &[&[0], &[1, 1, 1, 5], &[1, 1, 1, 6], &[2]],
        &[1, 1, 9],
        (
            (AtEnd::MismatchPrefix(1, 1, None), 1),
            (Some((9, false)), (NodeType::Node4, true), (None, 0)),
        ),
    ),
    // With the empty prefix of a node, within a prefix, with one, and before all.
    (
        16,
        Way::Over,
        &[&[1, 2], &[1, 3], &[2]],
        &[1],
        (
            (AtEnd::Overwrite, 0),
            (None, (NodeType::Node4, true), (None, 2)),
        ),
    ),
    (
        16,
        Way::Over,
        &[&[4, 1, 2, 3, 7], &[4, 1, 2, 3, 8], &[5]],
        &[4, 1, 2],
        (
            (AtEnd::Overwrite, 1),
            (None, (NodeType::Node4, true), (None, 2)),
        ),
    ),
    (
        16,
        Way::Over,
        &[&[4, 1, 2, 3, 7], &[4, 1, 2, 3, 8], &[5]],
        &[4, 1, 2, 3],
        (
            (AtEnd::Overwrite, 3),
            (None, (NodeType::Node4, true), (None, 2)),
        ),
    ),
    (
        16,
        Way::Over,
        // All keys of three bytes, less than 4, 3 and 2.
        &[
            &[0, 0, 0],
            &[0, 0, 1],
            &[0, 1, 0],
            &[0, 1, 1],
            &[0, 2, 0],
            &[0, 2, 1],
            &[1, 0, 0],
            &[1, 0, 1],
            &[1, 1, 0],
            &[1, 1, 1],
            &[1, 2, 0],
            &[1, 2, 1],
            &[2, 0, 0],
            &[2, 0, 1],
            &[2, 1, 0],
            &[2, 1, 1],
            &[2, 2, 0],
            &[2, 2, 1],
            &[3, 0, 0],
            &[3, 0, 1],
            &[3, 1, 0],
            &[3, 1, 1],
            &[3, 2, 0],
            &[3, 2, 1],
        ],
        &[],
        (
            (AtEnd::Overwrite, 0),
            (None, (NodeType::Leaf, false), (None, 24)),
        ),
    ),
    // At the leaf of the empty key.
    (
        16,
        Way::Apart,
        &[&[]],
        &[],
        (
            (AtEnd::Exact, 0),
            (None, (NodeType::Leaf, true), (Some(0), 0)),
        ),
    ),
    (
        16,
        Way::Over,
        &[&[]],
        &[1],
        (
            (AtEnd::Overwrite, 0),
            (None, (NodeType::Leaf, true), (Some(0), 0)),
        ),
    ),
    // At a node that has room, and at a full one.
    (
        16,
        Way::Apart,
        &[&[1], &[2]],
        &[3],
        (
            (AtEnd::IntoExisting, 0),
            (Some((3, true)), (NodeType::Node4, true), (None, 0)),
        ),
    ),
    (
        16,
        Way::Apart,
        &[&[1], &[2], &[3], &[4]],
        &[5],
        (
            (AtEnd::IntoExisting, 0),
            (Some((5, true)), (NodeType::Node16, false), (None, 0)),
        ),
    ),
    // At a leaf.
    (
        16,
        Way::Apart,
        &[&[1, 2, 3, 4]],
        &[1, 2, 9],
        (
            (AtEnd::SplitLeaf(2), 0),
            (Some((9, true)), (NodeType::Node4, false), (None, 0)),
        ),
    ),
];

// An insert point.
fn insert_point_seen<const P: usize>(
    store: &NodeStore<Key, u32, P>,
    point: InsertPoint,
) -> (AtEnd, usize) {
    let at_end = match point.insert_kind {
        InsertKind::Exact { .. } => AtEnd::Exact,
        InsertKind::IntoExisting { .. } => AtEnd::IntoExisting,
        InsertKind::SplitLeaf {
            new_key_bytes_used,
            ..
        } => AtEnd::SplitLeaf(new_key_bytes_used),
        InsertKind::MismatchPrefix { mismatch, .. } => AtEnd::MismatchPrefix(
            mismatch.matched_bytes,
            mismatch.prefix_byte,
            mismatch.leaf_ptr.and_then(|leaf| value_of(store, leaf)),
        ),
    };
    (at_end, point.key_bytes_used)
}

// The point of a key, if it has one.
fn point_seen<const P: usize>(
    store: &NodeStore<Key, u32, P>,
    root: OpaqueNodePtr,
    way: Way,
    key: &[u8],
) -> Option<(AtEnd, usize)>
    requires { IsCanonicalRoot (of_key (λ key. key.items)) P store.now root }
{
    match way {
        Way::Apart => {
            let point = search_for_insert_point(store, root, key).ok()?;
            Some(insert_point_seen(store, point))
        }
        Way::Over => match search_for_prefix_insert_point(store, root, key) {
            PrefixInsertPoint::InsertPoint(point) => Some(insert_point_seen(store, point)),
            PrefixInsertPoint::OverwritePoint(point) => {
                Some((AtEnd::Overwrite, point.key_bytes_used))
            }
        },
    }
}

// What is reported of the parent of a leaf under this root.
fn parent_seen(change: InsertParentNodeChange, root: OpaqueNodePtr) -> Parent {
    match change {
        InsertParentNodeChange::NewParent {
            new_parent_node,
            leaf_node_key_byte,
        } => Some((leaf_node_key_byte, new_parent_node.to_opaque() == root)),
        InsertParentNodeChange::NoChange => None,
    }
}

// What an insertion reports, where this was the root.
fn reported(answer: Put<Key>, old: OpaqueNodePtr) -> Option<(Parent, (NodeType, bool), Told)> {
    match answer {
        Ok(done) => {
            let result = done.insert_result;
            let root = result.new_root;
            Some((
                parent_seen(result.parent_node_change, root),
                (root.node_type(), root == old),
                (
                    result.existing_leaf.map(|leaf| leaf.value),
                    done.leafs_removed,
                ),
            ))
        }
        Err(_) => None,
    }
}

// The point of a key in the tree of these, and what its insertion reports.
fn seen_in<const P: usize>(
    store: &mut NodeStore<Key, u32, P>,
    way: Way,
    slices: &[&[u8]],
    key: &[u8],
) -> Option<Seen> {
    let root = planted_all(store, slices).ok()??;
    let point = point_seen(store, root, way, key)?;
    let copy = key.to_vec(store.alloc()).ok()?;
    let made = reported(put(way, store, root, copy, 9).1, root)?;
    Some((point, made))
}

// The same with so many stored bytes.
fn seen_with(alloc: Global, stored: usize, way: Way, slices: &[&[u8]], key: &[u8]) -> Option<Seen> {
    match stored {
        2 => seen_in::<2>(&mut NodeStore::new(alloc), way, slices, key),
        _ => seen_in::<16>(&mut NodeStore::new(alloc), way, slices, key),
    }
}

#[test]
fn points_and_results_have_their_fields(rt: HostRuntime) -> Result<(), Fail> {
    for (stored, way, slices, key, seen) in &ROWS {
        let found = seen_with(rt.alloc(), *stored, *way, slices, key);
        same((*key, found), (*key, Some(*seen)))?;
    }
    Ok(())
}
