//! Union, intersection and differences of two sets as a new set, by std's operators. Each inserts clones of the keys
//! one by one, in ascending order, and fails only if an allocation fails.
ghost use Rattle.std.specs.Prelude.{List, map, IfOk};
ghost use Rattle.std.specs.Borrow.{Bor};
ghost use Rattle.std.specs.Iterator.{Drains, IsFinite};
ghost use Rattle.art_keyed_sets.specs.SetClones.{AreAddedClones};
ghost use Rattle.art_sets.specs.SetAlgebra.{union, intersection, difference, symmetric_difference};

use super::TreeSet;
use art_keys::laws::CloneBytes;
use std::alloc::{AllocError, Global};
use std::ops::{BitAnd, BitOr, BitXor, Sub};

/// `&a | &b`: returns a set of clones of the keys of either set; of two equal keys it clones the first set's.
impl<'a, 'b, K: CloneBytes + Drop, const P: usize> BitOr<&'b TreeSet<K, P>> for &'a TreeSet<K, P> {
    type Output = Result<TreeSet<K, P>, AllocError>;

    ghost bitor_gives = { λ a b result.
        IfOk result (AreAddedClones K.bytes K.is_clone (union K.bytes a.now b.now)) };

    fn bitor(self, other: &'b TreeSet<K, P>) -> Result<TreeSet<K, P>, AllocError> {
        clones_of(self.set.allocator(), self.union(other))
    }
}

/// `&a & &b`: returns a set of clones of the keys of the first set that the second one has too.
impl<'a, 'b, K: CloneBytes + Drop, const P: usize> BitAnd<&'b TreeSet<K, P>> for &'a TreeSet<K, P> {
    type Output = Result<TreeSet<K, P>, AllocError>;

    ghost bitand_gives = { λ a b result.
        IfOk result (AreAddedClones K.bytes K.is_clone (intersection K.bytes a.now b.now)) };

    fn bitand(self, other: &'b TreeSet<K, P>) -> Result<TreeSet<K, P>, AllocError> {
        clones_of(self.set.allocator(), self.intersection(other))
    }
}

/// `&a - &b`: returns a set of clones of the keys of the first set that the second one lacks.
impl<'a, 'b, K: CloneBytes + Drop, const P: usize> Sub<&'b TreeSet<K, P>> for &'a TreeSet<K, P> {
    type Output = Result<TreeSet<K, P>, AllocError>;

    ghost sub_gives = { λ a b result.
        IfOk result (AreAddedClones K.bytes K.is_clone (difference K.bytes a.now b.now)) };

    fn sub(self, other: &'b TreeSet<K, P>) -> Result<TreeSet<K, P>, AllocError> {
        clones_of(self.set.allocator(), self.difference(other))
    }
}

/// `&a ^ &b`: returns a set of clones of the keys that exactly one of the sets has.
impl<'a, 'b, K: CloneBytes + Drop, const P: usize> BitXor<&'b TreeSet<K, P>> for &'a TreeSet<K, P> {
    type Output = Result<TreeSet<K, P>, AllocError>;

    ghost bitxor_gives = { λ a b result.
        IfOk result (AreAddedClones K.bytes K.is_clone
        (symmetric_difference K.bytes a.now b.now)) };

    fn bitxor(self, other: &'b TreeSet<K, P>) -> Result<TreeSet<K, P>, AllocError> {
        clones_of(self.set.allocator(), self.symmetric_difference(other))
    }
}

// Returns a set of clones of the keys of an iterator. Fails only if an allocation fails.
fn clones_of<'a, K: CloneBytes + Drop + 'a, I: Iterator<Item = &'a K>, const P: usize>(
    alloc: Global,
    keys: I,
) -> Result<TreeSet<K, P>, AllocError>
    requires can { I.can_next keys }
    requires ends { IsFinite (I.remaining keys) }
    ensures { IfOk result (λ set. (came : List (Bor K)) × Drains I.next_gives keys came ×
        AreAddedClones K.bytes K.is_clone (map (λ key. key.now) came) set) }
{
    let mut set = TreeSet::new(alloc);
    for key in keys {
        set.insert(key.clone()?)?;
    }
    Ok(set)
}
