//! What networks have beside where they start, in columns.
ghost use Rattle.std.specs.Prelude.{◌≡◌, ◌<◌, [], ◌∷◌, ◌++◌, length, IfOk, OnOk};
ghost use Rattle.prefix_table.specs.Columns.{rest_at};

use std::alloc::{AllocError, Global};
use std::marker::Model;

/// What a network has beside where it starts.
#[derive(Clone, Copy)]
pub struct Rest {
    /// How many networks there are up to the next longer one around this one, 0 if there is none.
    pub around: u32,
    /// The length of the network.
    pub length: u8,
}

/// Lists of these. Contracts see the list. A lookup reads a length more often than what is around a network, so that
/// the lengths stand close together.
#[derive(Drop)]
pub struct Rests {
    lengths: Vec<u8>,
    arounds: Vec<u32>,
}

impl Model for Rests {
    ghost use Rattle.std.specs.Prelude.{◌≡◌, List, length};
    ghost use Rattle.prefix_table.specs.declared.rests.Rest.{Rest};
    ghost use Rattle.prefix_table.specs.Rests.{rests_of};

    ghost Value = { List Rest };

    ghost view = { λ r. rests_of r.lengths.items r.arounds.items };

    ghost invariant = { λ r. length r.lengths.items ≡ length r.arounds.items };
}

impl Rests {
    /// Returns nothing, without an allocation.
    pub fn new(alloc: Global) -> Self
        ensures { result ≡ [] }
    {
        Rests {
            lengths: Vec::new(alloc),
            arounds: Vec::new(alloc),
        }
    }

    /// Returns nothing, with room for so many.
    pub fn with_capacity(alloc: Global, count: usize) -> Result<Self, AllocError>
        ensures { IfOk result (λ rests. rests ≡ []) }
    {
        Ok(Rests {
            lengths: Vec::with_capacity(alloc, count)?,
            arounds: Vec::with_capacity(alloc, count)?,
        })
    }

    /// Returns how many there are.
    #[tactic(auto, using(crate::proofs::RestLemmas::len_facts))]
    pub fn len(&self) -> usize
        ensures { result ≡ length self.now }
    {
        let _arounds = &self.arounds;
        self.lengths.len()
    }

    /// Returns the length of the network at an index.
    #[tactic(auto, using(crate::proofs::RestLemmas::around_facts))]
    pub fn length(&self, index: usize) -> u8
        requires { index < length self.now }
        ensures { result ≡ (rest_at self.now index).length }
    {
        let _arounds = &self.arounds;
        self.lengths[index]
    }

    /// Returns how many networks there are up to that around the one at an index.
    #[tactic(auto, using(crate::proofs::RestLemmas::around_facts))]
    pub fn around(&self, index: usize) -> u32
        requires { index < length self.now }
        ensures { result ≡ (rest_at self.now index).around }
    {
        let _lengths = &self.lengths;
        self.arounds[index]
    }

    /// Adds what one more network has.
    #[tactic(auto, using(crate::proofs::RestLemmas::push_facts))]
    pub fn push(&mut self, rest: Rest) -> Result<(), AllocError>
        ensures { OnOk result (self.new ≡ self.old ++ rest ∷ []) }
    {
        self.lengths.reserve(1)?;
        self.arounds.push(rest.around)?;
        self.lengths.push_reserved(rest.length);
        Ok(())
    }
}
