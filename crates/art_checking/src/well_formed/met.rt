//! Names with their places, in a list.
ghost use Rattle.std.specs.Prelude.{◌≡◌, ◌++◌, ◌∷◌, [], length, slice_get, OnOk};
ghost use Rattle.std.specs.Option.{option_map};
ghost use Rattle.art_checking.specs.Marks.{place_under};

use art_nodes::node::OpaqueNodePtr;
use std::alloc::{AllocError, Global};
use std::marker::Model;

// Names, each with its place, in the order in which they were added, seen as the list of them. The bytes of all places
// are in one list, one place after the other.
#[derive(Drop)]
pub(super) struct Met {
    marks: Vec<Mark>,
    bytes: Vec<u8>,
}

// A name, and where its place begins and ends.
#[derive(Clone, Copy)]
struct Mark {
    name: OpaqueNodePtr,
    from: usize,
    to: usize,
}

impl Model for Met {
    ghost use Rattle.std.specs.Prelude.{List, ℕ};
    ghost use Rattle.art_parts.specs.declared.names.OpaqueNodePtr.{OpaqueNodePtr};
    ghost use Rattle.art_checking.specs.Marks.{AreWithin, marked};

    ghost Value = { List (OpaqueNodePtr × List ℕ) };

    ghost view = { λ m. marked m.bytes.items m.marks.items };

    ghost invariant = { λ m. AreWithin m.bytes.items m.marks.items };
}

impl Met {
    pub(super) fn new(alloc: Global) -> Self
        ensures { result ≡ [] }
    {
        Met {
            marks: Vec::new(alloc),
            bytes: Vec::new(alloc),
        }
    }

    pub(super) fn len(&self) -> usize
        ensures { result ≡ length self.now }
    {
        self.marks.len()
    }

    // The place of the entry at an index, if it has this name.
    #[inline(always)]
    pub(super) fn place_under(&self, number: usize, name: OpaqueNodePtr) -> Option<&[u8]>
        ensures { option_map (λ place. place.now) result ≡
            place_under name (slice_get self.now number) }
    {
        let mark = self.marks.get(number)?;
        if mark.name == name {
            return Some(&self.bytes[mark.from..mark.to]);
        }
        None
    }

    // Adds a name with its place.
    #[inline(always)]
    pub(super) fn push(&mut self, name: OpaqueNodePtr, place: &[u8]) -> Result<(), AllocError>
        ensures { OnOk result (self.new ≡ self.old ++ (name, place.now) ∷ []) }
    {
        let from = self.bytes.len();
        self.bytes.extend_from_slice(place)?;
        let to = self.bytes.len();
        self.marks.push(Mark { name, from, to })?;
        Ok(())
    }
}
