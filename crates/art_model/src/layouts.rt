//! Names that stand for trees, and canonical roots.

ghost use Rattle.art_model.specs.StoreLaws.{CasesHaveLayout, LayoutsHaveCases, HasOneLayout, HasShape, HasRadixLayout, HasChildren, HasOneMap, HaveSameTree};

/// That a name stands for a tree can be stated by cases on the tree, or by a layout: both state the same.
pub fn both_forms_say_the_same<N, A>()
    ensures layouts { CasesHaveLayout N A }
    ensures cases { LayoutsHaveCases N A }
{}

/// What a store holds decides the layout below a name.
pub fn a_name_has_one_layout<N, A>()
    ensures { HasOneLayout N A }
{}

/// A tree can be read without its leaves: it has the same shape and the same names.
pub fn a_tree_has_a_shape<K, V>()
    ensures { HasShape K V }
{}

/// A canonical root meets the weaker precondition of calls that require a layout whose inner nodes all have children.
pub fn a_canonical_root_has_children<K, V>()
    ensures { HasChildren K V }
{}

/// What a call states of all pairs for which a root is canonical it states of one list.
pub fn a_root_is_canonical_for_one_map<K, V>()
    ensures { HasOneMap K V }
{}

/// The pairs determine the tree below a canonical root: its shape, its prefixes and its leaves.
pub fn the_pairs_decide_the_tree<K, V>()
    ensures radix { HasRadixLayout K V }
    ensures same { HaveSameTree K V }
{}
