//! A tree that is kept from call to call.
#![tactic(auto)]

use art_engine::keeping::tree::KeptTree;
use std::alloc::Global;
use std::marker::Model;

pub mod calls;

/// A tree, and the allocator of its calls.
#[derive(Drop)]
pub struct PageTree {
    kept: KeptTree,
    alloc: Global,
}

/// In contracts it is the tree alone.
impl Model for PageTree {
    ghost use Rattle.art_engine.specs.KeptTrees.{IsKept};
    ghost use Rattle.art_engine.specs.declared.keeping.tree.KeptTree.{KeptTree};
    ghost use Rattle.art_engine.specs.contracts.keeping.tree.KeptTree.{the_row as TreeRow};

    ghost Value = { KeptTree };

    ghost coded = { TreeRow.coded };

    ghost view = { λ s. s.kept };

    ghost invariant = { λ s. IsKept s.kept };
}
