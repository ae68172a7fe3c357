//! Places of nodes, and the end nodes of keys.

ghost use Rattle.art_model.specs.PlaceLaws.{PlacesAreReadOff, PrefixesAreReadOff, PlacesRise, HasEndNode, HasOneEnd};

/// The place and the whole prefix of a node are determined by the least key below it, however few bytes are stored.
pub fn places_are_read_off<N, A>()
    ensures place { PlacesAreReadOff N A }
    ensures prefix { PrefixesAreReadOff N A }
{}

/// No two nodes of a tree have the same place.
pub fn nodes_have_places_of_their_own<N, A>()
    ensures { PlacesRise N A }
{}

/// Each key has one end node.
pub fn a_key_has_one_end_node<N, A>()
    ensures there { HasEndNode N A }
    ensures one { HasOneEnd N A }
{}
