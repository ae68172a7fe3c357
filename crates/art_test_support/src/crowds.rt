//! Nodes outside a tree, which take the room that its store has.

ghost use Rattle.art_parts.specs.declared.names.NodeType.TheVariants.{Leaf};
ghost use Rattle.art_model.specs.Pairs.{of_key};
ghost use Rattle.art_model.specs.Roots.{IsCanonicalRoot};

use crate::trees::Key;
use art_nodes::node::{AnyInner, Header, LeafNode, NodeType, OpaqueNodePtr};
use art_nodes::store::NodeStore;

// A store with a leaf has room for so many leaves before it asks for more, and one with an inner node for so many inner
// nodes, of whatever kind: each takes a slot among those of the smallest kind, or keeps one free there.
const ROOM: usize = 16;

/// All kinds of nodes.
pub static KINDS: [NodeType; 5] = [
    NodeType::Node4,
    NodeType::Node16,
    NodeType::Node48,
    NodeType::Node256,
    NodeType::Leaf,
];

// Places a node of a kind: a leaf of the empty key, or an inner node without children. Returns whether no allocation
// failed.
fn place_one<const P: usize>(
    store: &mut NodeStore<Key, u32, P>,
    root: OpaqueNodePtr,
    kind: NodeType,
) -> bool
    requires { IsCanonicalRoot (of_key (λ key. key.items)) P store.old root }
    ensures { IsCanonicalRoot (of_key (λ key. key.items)) P store.new root }
{
    if kind == NodeType::Leaf {
        let leaf = LeafNode::with_no_siblings(Vec::new(store.alloc()), 0);
        return store.place_leaf(leaf).is_ok();
    }
    let node = AnyInner::from_header(kind, Header::new(&[], 0));
    store.place_inner(node).is_ok()
}

/// Places so many nodes of a kind outside a tree. Returns whether no allocation failed.
pub fn place_beside<const P: usize>(
    store: &mut NodeStore<Key, u32, P>,
    root: OpaqueNodePtr,
    kind: NodeType,
    count: usize,
) -> bool
    requires { IsCanonicalRoot (of_key (λ key. key.items)) P store.old root }
    ensures { IsCanonicalRoot (of_key (λ key. key.items)) P store.new root }
{
    for _ in 0..count {
        if !place_one(store, root, kind) {
            return false;
        }
    }
    true
}

/// Places nodes of the smallest kind and leaves outside a tree, until there is room for no more node of any kind.
/// Returns whether no allocation failed.
pub fn fill<const P: usize>(store: &mut NodeStore<Key, u32, P>, root: OpaqueNodePtr) -> bool
    requires { IsCanonicalRoot (of_key (λ key. key.items)) P store.old root }
    ensures { IsCanonicalRoot (of_key (λ key. key.items)) P store.new root }
{
    let mut inners = 0usize;
    for kind in KINDS {
        inners = inners.saturating_add(store.inner_count(kind));
    }
    let leaves = store.leaf_count();
    place_beside(store, root, NodeType::Node4, ROOM.saturating_sub(inners))
        && place_beside(store, root, NodeType::Leaf, ROOM.saturating_sub(leaves))
}
