//! Copies of a map and of a part of a set, by the traits of std.
ghost use Rattle.std.specs.Prelude.{◌≡◌, IfOk};
ghost use Rattle.std.specs.Int.{bytes_high_first};
ghost use Rattle.art_model.specs.Clones.{AreClones};
ghost use Rattle.art_operations.specs.SetAlgebra.{difference};
ghost use Rattle.art_operations.specs.SetClones.{AreAddedClones};

use art_operations::keys::{CloneBytes, U16Key};
use art_operations::tree_map::TreeMap;
use art_operations::tree_set::TreeSet;
use std::alloc::AllocError;

/// Returns two maps, the given one and a clone of it. It fails only if an allocation fails.
pub fn snapshot<K: CloneBytes + Drop, const P: usize>(
    map: TreeMap<K, u32, P>,
) -> Result<(TreeMap<K, u32, P>, TreeMap<K, u32, P>), AllocError>
    ensures { IfOk result (λ maps. (maps.0 ≡ map) ×
        AreClones K.is_clone (λ value copy. copy ≡ value) map maps.1) }
{
    let copy = map.clone()?;
    Ok((map, copy))
}

/// Returns the numbers of the first set that the second one lacks. It fails only if an allocation fails.
pub fn missing(
    wanted: &TreeSet<U16Key, 4>,
    there: &TreeSet<U16Key, 4>,
) -> Result<TreeSet<U16Key, 4>, AllocError>
    ensures { IfOk result (AreAddedClones (bytes_high_first 2) (λ key copy. copy ≡ key)
        (difference (bytes_high_first 2) wanted.now there.now)) }
{
    wanted - there
}
