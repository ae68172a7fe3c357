//! The tree of a map.

ghost use Rattle.std.specs.Prelude.{ℕ, List};
ghost use Rattle.art_model.specs.TreeLaws.{PartIsShared, PartIsLongest, IsBuiltByGrouping, HasTree, IsTreeOfItsPairs, IsOneTree, HaveTwoChildren, HasFewInnerNodes};

/// An inner node's prefix is the longest part that the keys share.
pub fn the_shared_part_is_the_longest<A>()
    ensures shared { (bytes : A → List ℕ) → PartIsShared bytes }
    ensures longest { (bytes : A → List ℕ) → PartIsLongest bytes }
{}

/// The tree of a map is built from the trees of its groups, whatever the bound of the recursion.
pub fn a_tree_is_built_by_grouping<A>()
    ensures { (bytes : A → List ℕ) (P : ℕ) → IsBuiltByGrouping bytes P }
{}

/// A map has one tree, and a tree with the properties of a radix tree is the tree of its own pairs.
pub fn the_tree_of_a_map_is_one<A>()
    ensures there { (bytes : A → List ℕ) (P : ℕ) → HasTree bytes P }
    ensures its_own { (bytes : A → List ℕ) (P : ℕ) → IsTreeOfItsPairs bytes P }
    ensures one { (bytes : A → List ℕ) (P : ℕ) → IsOneTree bytes P }
{}

/// A tree has fewer inner nodes than leaves.
pub fn inner_nodes_are_few<N, A>()
    ensures two { HaveTwoChildren N A }
    ensures few { HasFewInnerNodes N A }
{}
