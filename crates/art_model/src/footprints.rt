//! What a call did to the nodes of a store.

ghost use Rattle.art_model.specs.StoreLaws.{OthersStayFree, OthersWereFree};

/// The names that a footprint lists are all that were placed and freed.
pub fn a_footprint_leaves_no_name_out<K, V>()
    ensures placed { OthersStayFree K V }
    ensures freed { OthersWereFree K V }
{}
