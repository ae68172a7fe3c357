//! Visitors, which fold a tree.
ghost use Rattle.art_inner.specs.Inner.{Inner};
ghost use Rattle.art_inner.specs.Views.{ref_kind, ref_view};
ghost use Rattle.art_parts.specs.declared.leaf.LeafNode.{LeafNode};
ghost use Rattle.art_parts.specs.declared.names.NodeType.{NodeType};
ghost use Rattle.art_parts.specs.declared.names.OpaqueNodePtr.{OpaqueNodePtr};
ghost use Rattle.art_model.specs.Pairs.{of_key};
ghost use Rattle.art_model.specs.Roots.{ForTree, IsCanonicalRoot, IsFullTree};
ghost use Rattle.art_model.specs.Trees.{Tree};
ghost use Rattle.art_checking.specs.Folds.{Folds};

use art_nodes::node::{AsBytes, InnerRef, LeafNode, NodePtr, OpaqueNodePtr};
use art_nodes::store::NodeStore;

/// A fold of a tree: a hook for leaves, one for inner nodes, and a function that combines the outputs of children.
/// Hooks have no preconditions: each may be called in any state.
pub trait Visitor<K, V, const P: usize> {
    type Output;

    /// What `default_output` may return.
    ghost is_default: { Self → Self.Output → Type 0 };

    /// What `combine_output` may return.
    ghost combines: { Self → Self.Output → Self.Output → Self.Output → Type 0 };

    /// What `visit_inner_node` may return, by the node's kind and value and by the output of its children, and the
    /// visitor afterwards.
    ghost of_inner: { Self → NodeType → Inner → Self.Output → Self.Output → Self → Type 0 };

    /// What `visit_leaf` may return, and the visitor afterwards.
    ghost of_leaf: { Self → LeafNode K V → Self.Output → Self → Type 0 };

    /// Returns the output of an empty fold. `visit_with` never calls it, since an inner node of a canonical tree has at
    /// least two children, and the fold over them begins with the first one's output.
    fn default_output(&self) -> Self::Output
        ensures { is_default self.now result };

    /// Returns the output so far, combined with that of a further child.
    fn combine_output(&self, o1: Self::Output, o2: Self::Output) -> Self::Output
        ensures { combines self.now o1 o2 result };

    /// Returns the output of an inner node. It is called after the node's children were visited, with their output.
    fn visit_inner_node(&mut self, node: InnerRef<'_, P>, children: Self::Output) -> Self::Output
        ensures { of_inner self.old (ref_kind node.entry) (ref_view node.entry)
            children result self.new };

    /// Returns the output of a leaf. It is called once for each leaf, in key order.
    fn visit_leaf(&mut self, leaf: &LeafNode<K, V>) -> Self::Output
        ensures { of_leaf self.old leaf.now result self.new };
}

/// Folds the tree of a canonical root: a leaf is passed to `visit_leaf`. An inner node's children are visited in the
/// order of their bytes, their outputs are combined, beginning with the first one's, and then the node is passed to
/// `visit_inner_node`. The recursion is as deep as the tree.
pub fn visit_with<K: AsBytes + Drop, V: Drop, T: Visitor<K, V, P>, const P: usize>(
    store: &NodeStore<K, V, P>,
    root: OpaqueNodePtr,
    visitor: &mut T,
) -> T::Output
    requires { IsCanonicalRoot (of_key K.bytes) P store.now root }
    ensures { ForTree (of_key K.bytes) P store.now root (λ pairs layout.
        Folds T.of_leaf T.of_inner T.combines store.now layout visitor.old result visitor.new) }
{
    visit(store, root, visitor)
}

// Folds the tree at a name.
fn visit<K: AsBytes + Drop, V: Drop, T: Visitor<K, V, P>, const P: usize>(
    store: &NodeStore<K, V, P>,
    name: OpaqueNodePtr,
    visitor: &mut T,
) -> T::Output
    requires { (layout : Tree OpaqueNodePtr (K × V)) × IsFullTree store.now name layout }
    ensures { (layout : Tree OpaqueNodePtr (K × V)) → IsFullTree store.now name layout →
        Folds T.of_leaf T.of_inner T.combines store.now layout visitor.old result visitor.new }
{
    let inner = match name.split() {
        NodePtr::Inner(inner) => inner,
        NodePtr::Leaf(leaf) => {
            let node = store.leaf_at(leaf);
            return visitor.visit_leaf(node);
        }
    };
    let node = store.inner_at(inner);
    let mut children = node.iter();
    let Some((_, first)) = children.next() else {
        unreachable!()
    };
    let mut joined = visit(store, first, visitor);
    for (_, child) in children {
        let output = visit(store, child, visitor);
        joined = visitor.combine_output(joined, output);
    }
    visitor.visit_inner_node(node, joined)
}
