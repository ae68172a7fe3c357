//! A law of runs: a function that does nothing, with the law as its contract.
ghost use Rattle.art_parts.specs.LeafClones.{IsPairClone};
ghost use Rattle.art_running.specs.Runs.{SamePairsLeaveSameTree};

use art_nodes::node::AsBytes;

/// Two runs that leave the same pairs leave the same tree, up to names, whatever their commands and wherever they
/// began.
pub fn the_same_pairs_leave_the_same_tree<
    K: AsBytes + Clone + Drop,
    V: Clone + Drop,
    const P: usize,
>()
    ensures { SamePairsLeaveSameTree K.bytes P (IsPairClone K.is_clone V.is_clone) }
{}
