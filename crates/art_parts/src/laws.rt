//! A law of the names of nodes: a function that does nothing, with the law as its contract.
ghost use Rattle.std.specs.Prelude.{◌≡◌};
ghost use Rattle.art_parts.specs.Names.{inner_cmp, kind_cmp, leaf_cmp, name_cmp, split_cmp};

use crate::names::{InnerPtr, LeafPtr, NodePtr, NodeType, OpaqueNodePtr};

/// Names are ordered by their kinds, and those of one kind by their slots. The kinds are ordered by their room, and the
/// kind of leaves is the last; but in the order of `NodePtr` leaves come first.
pub fn names_are_in_order()
    ensures kinds { (a b : NodeType) → ⟦<NodeType as Ord>⟧.cmp a b ≡ kind_cmp a b }
    ensures leaves { (a b : LeafPtr) → ⟦<LeafPtr as Ord>⟧.cmp a b ≡ leaf_cmp a b }
    ensures inners { (a b : InnerPtr) → ⟦<InnerPtr as Ord>⟧.cmp a b ≡ inner_cmp a b }
    ensures nodes { (a b : OpaqueNodePtr) → ⟦<OpaqueNodePtr as Ord>⟧.cmp a b ≡ name_cmp a b }
    ensures split { (a b : NodePtr) → ⟦<NodePtr as Ord>⟧.cmp a b ≡ split_cmp a b }
{}
