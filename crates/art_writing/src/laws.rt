//! A law of the ends of a tree: a function that does nothing, with the law as its contract.
ghost use Rattle.art_writing.specs.EndLaws.{FirstLeafHasFirstPoint, LastLeafHasLastPoint};

/// The leaf that `minimum_unchecked` returns for a canonical root is that of the point that `find_minimum_to_delete`
/// returns, and the leaf that `maximum_unchecked` returns is that of the point of `find_maximum_to_delete`. So a whole
/// iteration starts and ends at the leaves that these removals remove.
pub fn end_leaves_have_end_points<K, V>()
    ensures first { FirstLeafHasFirstPoint K V }
    ensures last { LastLeafHasLastPoint K V }
{}
