//! The tree that the lines so far have left, and its stores.
ghost use Rattle.std.specs.Prelude.{◌≡◌, ◌∷◌, [], None, IfOk, IfErr, IfSome, IsOkAnd, OnErr};
ghost use Rattle.art_parts.specs.LeafClones.{IsPairClone};
ghost use Rattle.art_model.specs.Faults.{out_of_memory};
ghost use Rattle.art_model.specs.Pairs.{of_key};
ghost use Rattle.art_checking.specs.Checks.{IsWellFormed, fault_of};
ghost use Rattle.art_running.specs.Runs.{IsRun};
ghost use Rattle.art_running.specs.declared.run.Side.{Side};
ghost use Rattle.art_engine.specs.KeptKeys.{IsLinkedTreeIn, IsTreeIn, key_bytes};
ghost use Rattle.art_engine.specs.KeptTrees.{IsKept, state_of, state_before};

use art_checking::well_formed::{MalformedTreeError, WellFormedChecker, WellFormedTreeStats};
use art_nodes::node::OpaqueNodePtr;
use art_nodes::store::NodeStore;
use art_running::run::{Command, Reply, Side, run};
use std::alloc::{AllocError, Global};
use std::mem;

/// How many bytes of its prefix an inner node stores.
pub const PREFIX_LEN: usize = 4;

/// The tree that the commands so far have left.
#[derive(Drop)]
pub struct KeptTree {
    first: NodeStore<Vec<u8>, u32, PREFIX_LEN>,
    second: NodeStore<Vec<u8>, u32, PREFIX_LEN>,
    root: Option<OpaqueNodePtr>,
}

impl KeptTree {
    /// Returns no tree.
    pub fn new(alloc: Global) -> Self
        ensures kept { IsKept result }
        ensures root { (state_of result).root ≡ None }
    {
        KeptTree {
            first: NodeStore::new(alloc),
            second: NodeStore::new(alloc),
            root: None,
        }
    }

    /// Returns the store of the tree, and its root.
    pub fn tree(&self) -> (&NodeStore<Vec<u8>, u32, PREFIX_LEN>, Option<OpaqueNodePtr>)
        requires { IsKept self.now }
        ensures store { result.0.now ≡ (state_of self.now).first }
        ensures root { result.1 ≡ (state_of self.now).root }
        ensures nodes { IfSome result.1 (IsTreeIn result.0.now) }
        ensures linked { IfSome result.1 (IsLinkedTreeIn result.0.now) }
    {
        (&self.first, self.root)
    }

    /// Counts the leaves and the inner nodes of the tree, which has no fault.
    pub fn check(&self) -> Result<WellFormedTreeStats, MalformedTreeError>
        requires { IsKept self.now }
        ensures empty { (state_of self.now).root ≡ None → IsOkAnd result (λ stats.
            (stats.num_leaf ≡ 0) × (stats.num_inner ≡ 0)) }
        ensures counts { IfSome (state_of self.now).root (λ name. IfOk result
            (IsWellFormed (of_key key_bytes) 4 (state_of self.now).first name)) }
        ensures fault { IfErr result (λ error. fault_of error ≡ out_of_memory) }
    {
        WellFormedChecker::check(&self.first, self.root, 0)
    }

    /// Carries a further command out, by a run of it alone, and returns the reply. If it fails the tree is unchanged.
    pub fn answer(
        &mut self,
        command: Command<Vec<u8>, u32>,
    ) -> Result<Reply<Vec<u8>, u32>, AllocError>
        requires { IsKept self.old }
        ensures kept { IsKept self.new }
        ensures run { IfOk result (λ reply. (side : Side) ×
            IsRun key_bytes 4 (IsPairClone ⟦<Vec<u8> as Clone>⟧.is_clone ⟦<u32 as Clone>⟧.is_clone)
            (state_of self.old) (command ∷ []) (reply ∷ []) (state_before side self.new)) }
        ensures refused { OnErr result (state_of self.new ≡ state_of self.old) }
    {
        let mut commands = Vec::with_capacity(self.first.alloc(), 1)?;
        commands.push_reserved(command);
        match run(&mut self.first, &mut self.second, self.root, commands) {
            Ok(done) => {
                self.root = done.root;
                match done.side {
                    Side::First => {}
                    Side::Second => mem::swap(&mut self.first, &mut self.second),
                }
                let mut replies = done.replies;
                Ok(replies.pop().unwrap())
            }
            Err((_, error)) => Err(error),
        }
    }
}
