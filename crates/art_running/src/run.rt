//! Commands that are carried out in order, each by a change of the tree in place.

ghost use Rattle.std.specs.Prelude.{◌≡◌, ◌<◌, List, length, map, Some, None, IsOk, IfOk, IfErr, OnOk, OnErr};
ghost use Rattle.std.specs.Option.{option_to_list};
ghost use Rattle.art_running.specs.Made.{IsDeletionAt, MakesStep, StepsAlone};
ghost use Rattle.art_parts.specs.LeafClones.{IsPairClone};
ghost use Rattle.art_parts.specs.Names.{leaf_name};
ghost use Rattle.art_parts.specs.declared.names.LeafPtr.{LeafPtr};
ghost use Rattle.art_model.specs.Canonical.{IsCanonical};
ghost use Rattle.art_parts.specs.Keys.{KeepBytes};
ghost use Rattle.art_model.specs.Pairs.{match_of, of_key};
ghost use Rattle.art_model.specs.Roots.{ForTree, IsCanonicalRoot};
ghost use Rattle.art_writing.specs.Deleted.{IsDeletePointIn};
ghost use Rattle.art_running.specs.Runs.{IsRun, from_side, of_side, on};
ghost use Rattle.art_running.specs.Steps.{opposite};
ghost use Rattle.art_writing.specs.ParentWrites.{IsPlanted};
ghost use Rattle.art_running.specs.declared.run.Command.TheVariants as commands;
ghost use Rattle.art_running.specs.declared.run.Command.{Command};
ghost use Rattle.art_running.specs.declared.run.Side.TheVariants.{First};

use art_copying::clone::clone_unchecked;
use art_copying::deallocate::deallocate_tree;
use art_nodes::node::{AsBytes, OpaqueNodePtr};
use art_nodes::store::NodeStore;
use art_reading::lookup::{prefix_search_unchecked, search_unchecked};
use art_writing::delete::{
    DeletePoint, find_maximum_to_delete, find_minimum_to_delete, search_for_delete_point,
};
use art_writing::insert::{
    InsertPrefixError, InsertSearchError, plant, search_for_insert_point,
    search_for_prefix_insert_point,
};
use std::alloc::AllocError;

/// A command on a tree.
#[derive(Debug, Drop)]
pub enum Command<K, V> {
    /// Inserts a pair. An equal stored key stays, and gets the value.
    Insert(K, V),
    /// Inserts a pair and removes all with related keys: those whose keys are a prefix of its own, or start with it.
    /// But an equal stored key stays, and gets the value.
    InsertPrefix(K, V),
    /// Removes the pair of the key with these bytes.
    Delete(Vec<u8>),
    /// Removes the first pair.
    DeleteMin,
    /// Removes the last pair.
    DeleteMax,
    /// Moves the tree to the other store, as clones of its pairs.
    Clone,
    /// Asks whether the key with these bytes is stored.
    Contains(Vec<u8>),
    /// Asks for the length of the stored key that is a prefix of these bytes or equal to them.
    LongestMatch(Vec<u8>),
}

/// The reply to a command.
#[derive(Debug, Drop)]
pub enum Reply<K, V> {
    /// The pair was inserted; with the key that was passed and the old value, if an equal key was stored.
    Inserted(Option<(K, V)>),
    /// The pair was not inserted, since an unequal stored key conflicts with its key.
    Conflict(K, V, InsertPrefixError),
    /// The pair was inserted; with the pair that it replaced, if there was exactly one, or with the number of those if
    /// there were more. If an equal key was stored, with the key that was passed and the old value.
    Overwrote(Option<(K, V)>, usize),
    /// The removed pair, if there was one.
    Deleted(Option<(K, V)>),
    /// The tree, if there was one, was cloned into the other store and freed in this one.
    Cloned,
    /// Whether the key is stored.
    Found(bool),
    /// The length of the stored key that was asked for, if there is one.
    MatchLen(Option<usize>),
    /// An allocation failed, and the tree is unchanged; with the pair of an insertion.
    NoMemory(Option<(K, V)>),
}

/// The store that a tree is in.
#[derive(Clone, Copy, PartialEq, Eq, Debug)]
pub enum Side {
    First,
    Second,
}

/// The result of a run.
#[derive(Debug, Drop)]
pub struct RunResult<K, V> {
    /// The root of the tree, if it has any pair.
    pub root: Option<OpaqueNodePtr>,
    /// The store that the tree is in.
    pub side: Side,
    /// One reply for each command, in order.
    pub replies: Vec<Reply<K, V>>,
}

/// Carries commands out in order, each by a change of the tree in place, from no tree or from that of a canonical root
/// in `first`. Returns the root, the store that it is in, and a reply for each command.
///
/// Fails only if the allocation of the replies fails, before the first command; the error returns the commands. Later
/// an allocation failure concerns one command: its reply is `NoMemory`, and the tree is unchanged.
pub fn run<K: AsBytes + Clone + Drop, V: Clone + Drop, const P: usize>(
    first: &mut NodeStore<K, V, P>,
    second: &mut NodeStore<K, V, P>,
    root: Option<OpaqueNodePtr>,
    commands: Vec<Command<K, V>>,
) -> Result<RunResult<K, V>, (Vec<Command<K, V>>, AllocError)>
    requires canonical { (pairs : List (K × V)) ×
        IsCanonical (of_key K.bytes) P first.old root pairs }
    requires clones { KeepBytes K.bytes K.is_clone }
    ensures run { IfOk result (λ done. IsRun K.bytes P (IsPairClone K.is_clone V.is_clone)
        (on First first.old second.old root) commands.items
        done.replies.items (on done.side first.new second.new done.root)) }
    ensures canonical { IfOk result (λ done. (pairs : List (K × V)) ×
        IsCanonical (of_key K.bytes) P (of_side done.side first.new second.new)
        done.root pairs) }

    ensures refused { IfErr result (λ refused. refused.0 ≡ commands) }
    ensures first { OnErr result (first.new ≡ first.old) }
    ensures second { OnErr result (second.new ≡ second.old) }
{
    let mut replies = match Vec::with_capacity(first.alloc(), commands.len()) {
        Ok(replies) => replies,
        Err(error) => return Err((commands, error)),
    };
    let mut root = root;
    let mut side = Side::First;
    for command in commands {
        let reply = answer_next(first, second, &mut side, &mut root, command);
        replies.push_reserved(reply);
    }
    Ok(RunResult {
        root,
        side,
        replies,
    })
}

impl Side {
    fn opposite(self) -> Self
        ensures { result ≡ opposite self }
    {
        match self {
            Side::First => Side::Second,
            Side::Second => Side::First,
        }
    }
}

// Carries a command out on the tree of a side, and returns the side and the root of the tree.
fn answer_next<K: AsBytes + Clone + Drop, V: Clone + Drop, const P: usize>(
    first: &mut NodeStore<K, V, P>,
    second: &mut NodeStore<K, V, P>,
    side: &mut Side,
    root: &mut Option<OpaqueNodePtr>,
    command: Command<K, V>,
) -> Reply<K, V>
    requires canonical { (pairs : List (K × V)) ×
        IsCanonical (of_key K.bytes) P (of_side side.old first.old second.old) root.old pairs }
    requires clones { KeepBytes K.bytes K.is_clone }
    ensures { MakesStep K.bytes P (IsPairClone K.is_clone V.is_clone)
        (on side.old first.old second.old root.old) command
        result (on side.new first.new second.new root.new) }
{
    match *side {
        Side::First => answer(first, second, side, root, command),
        Side::Second => answer(second, first, side, root, command),
    }
}

// Carries a command out in the store that the tree is in, on either side.
fn answer<K: AsBytes + Clone + Drop, V: Clone + Drop, const P: usize>(
    present: &mut NodeStore<K, V, P>,
    other: &mut NodeStore<K, V, P>,
    side: &mut Side,
    root: &mut Option<OpaqueNodePtr>,
    command: Command<K, V>,
) -> Reply<K, V>
    requires canonical { (pairs : List (K × V)) ×
        IsCanonical (of_key K.bytes) P present.old root.old pairs }
    requires clones { KeepBytes K.bytes K.is_clone }
    ensures { MakesStep K.bytes P (IsPairClone K.is_clone V.is_clone)
        (from_side side.old present.old other.old root.old) command
        result (record (from_side side.old present.new other.new root.new) { side = side.new }) }
{
    let Some(name) = *root else {
        return answer_without_tree(present, root, command);
    };
    match command {
        Command::Insert(key, value) => insert(present, root, name, key, value),
        Command::InsertPrefix(key, value) => insert_prefix(present, root, name, key, value),
        Command::Delete(key) => match search_for_delete_point(present, name, &key) {
            Some(point) => delete(present, root, name, point),
            None => Reply::Deleted(None),
        },
        Command::DeleteMin => {
            let point = find_minimum_to_delete(present, name);
            delete(present, root, name, point)
        }
        Command::DeleteMax => {
            let point = find_maximum_to_delete(present, name);
            delete(present, root, name, point)
        }
        Command::Clone => clone_over(present, other, side, root, name),
        Command::Contains(key) => Reply::Found(search_unchecked(present, name, &key).is_some()),
        Command::LongestMatch(key) => Reply::MatchLen(longest_match(present, name, &key)),
    }
}

// Carries a command out where there is no tree.
fn answer_without_tree<K: AsBytes + Clone + Drop, V: Clone + Drop, const P: usize>(
    store: &mut NodeStore<K, V, P>,
    root: &mut Option<OpaqueNodePtr>,
    command: Command<K, V>,
) -> Reply<K, V>
    requires { root.old ≡ None }
    ensures { StepsAlone K.bytes P (IsPairClone K.is_clone V.is_clone)
        store.old None command result store.new root.new }
{
    match command {
        Command::Insert(key, value) => match begin(store, root, key, value) {
            Ok(()) => Reply::Inserted(None),
            Err(pair) => Reply::NoMemory(Some(pair)),
        },
        Command::InsertPrefix(key, value) => match begin(store, root, key, value) {
            Ok(()) => Reply::Overwrote(None, 0),
            Err(pair) => Reply::NoMemory(Some(pair)),
        },
        Command::Delete(_) | Command::DeleteMin | Command::DeleteMax => Reply::Deleted(None),
        Command::Clone => Reply::Cloned,
        Command::Contains(_) => Reply::Found(false),
        Command::LongestMatch(_) => Reply::MatchLen(None),
    }
}

// Begins the tree with a pair, or returns the pair if an allocation fails.
fn begin<K: AsBytes + Drop, V: Drop, const P: usize>(
    store: &mut NodeStore<K, V, P>,
    root: &mut Option<OpaqueNodePtr>,
    key: K,
    value: V,
) -> Result<(), (K, V)>
    ensures planted { OnOk result ((leaf : LeafPtr) ×
        (root.new ≡ Some (leaf_name leaf)) × IsPlanted store.old store.new leaf (key, value)) }

    ensures handed_back { IfErr result (λ pair. pair ≡ (key, value)) }
    ensures refused { OnErr result ((root.new ≡ root.old) × (store.new ≡ store.old)) }
    ensures succeeds { 0 < store.old.promise.leaves → IsOk result }
{
    match plant(store, key, value) {
        Ok(leaf) => {
            *root = Some(leaf.to_opaque());
            Ok(())
        }
        Err(refused) => Err((refused.key, refused.value)),
    }
}

// Inserts a pair into the tree.
fn insert<K: AsBytes + Clone + Drop, V: Clone + Drop, const P: usize>(
    store: &mut NodeStore<K, V, P>,
    root: &mut Option<OpaqueNodePtr>,
    name: OpaqueNodePtr,
    key: K,
    value: V,
) -> Reply<K, V>
    requires canonical { IsCanonicalRoot (of_key K.bytes) P store.old name }
    requires root { root.old ≡ Some name }
    ensures { StepsAlone K.bytes P (IsPairClone K.is_clone V.is_clone)
        store.old (Some name) (commands.Insert key value) result store.new root.new }
{
    let point = match search_for_insert_point(store, name, key.as_bytes()) {
        Ok(point) => point,
        Err(InsertSearchError::Prefix(error)) => return Reply::Conflict(key, value, error),
        Err(InsertSearchError::Memory(_)) => return Reply::NoMemory(Some((key, value))),
    };
    match point.apply(store, key, value) {
        Ok(done) => {
            *root = Some(done.new_root);
            Reply::Inserted(done.existing_leaf.map(|leaf| (leaf.key, leaf.value)))
        }
        Err(refused) => Reply::NoMemory(Some((refused.key, refused.value))),
    }
}

// Inserts a pair into the tree, and removes all with related keys.
fn insert_prefix<K: AsBytes + Clone + Drop, V: Clone + Drop, const P: usize>(
    store: &mut NodeStore<K, V, P>,
    root: &mut Option<OpaqueNodePtr>,
    name: OpaqueNodePtr,
    key: K,
    value: V,
) -> Reply<K, V>
    requires canonical { IsCanonicalRoot (of_key K.bytes) P store.old name }
    requires root { root.old ≡ Some name }
    ensures { StepsAlone K.bytes P (IsPairClone K.is_clone V.is_clone)
        store.old (Some name) (commands.InsertPrefix key value) result store.new root.new }
{
    let at = search_for_prefix_insert_point(store, name, key.as_bytes());
    match at.apply(store, key, value) {
        Ok(done) => {
            let insert_result = done.insert_result;
            *root = Some(insert_result.new_root);
            let existing = insert_result.existing_leaf;
            Reply::Overwrote(
                existing.map(|leaf| (leaf.key, leaf.value)),
                done.leafs_removed,
            )
        }
        Err(refused) => Reply::NoMemory(Some((refused.key, refused.value))),
    }
}

// Removes the pair of a point, for any command whose reply it is.
fn delete<K: AsBytes + Clone + Drop, V: Clone + Drop, const P: usize>(
    store: &mut NodeStore<K, V, P>,
    root: &mut Option<OpaqueNodePtr>,
    name: OpaqueNodePtr,
    point: DeletePoint,
) -> Reply<K, V>
    requires point { IsDeletePointIn (of_key K.bytes) P store.old name point }
    requires root { root.old ≡ Some name }
    ensures { (command : Command K V) →
        IsDeletionAt K.bytes P (IsPairClone K.is_clone V.is_clone) store.old name point command →
        StepsAlone K.bytes P (IsPairClone K.is_clone V.is_clone)
        store.old (Some name) command result store.new root.new }
{
    let done = point.apply(store, name).unwrap();
    *root = done.new_root;
    Reply::Deleted(Some((done.deleted_leaf.key, done.deleted_leaf.value)))
}

// Moves the tree to the other store, as clones of its pairs.
fn clone_over<K: AsBytes + Clone + Drop, V: Clone + Drop, const P: usize>(
    present: &mut NodeStore<K, V, P>,
    other: &mut NodeStore<K, V, P>,
    side: &mut Side,
    root: &mut Option<OpaqueNodePtr>,
    name: OpaqueNodePtr,
) -> Reply<K, V>
    requires canonical { IsCanonicalRoot (of_key K.bytes) P present.old name }
    requires root { root.old ≡ Some name }
    requires clones { KeepBytes K.bytes K.is_clone }
    ensures { MakesStep K.bytes P (IsPairClone K.is_clone V.is_clone)
        (from_side side.old present.old other.old (Some name)) commands.Clone
        result (record (from_side side.old present.new other.new root.new) { side = side.new }) }
{
    match clone_unchecked(present, name, other) {
        Ok(copy) => {
            deallocate_tree(name, present);
            *root = Some(copy.root);
            *side = side.opposite();
            Reply::Cloned
        }
        Err(_) => Reply::NoMemory(None),
    }
}

// The length of the stored key that is a prefix of these bytes or equal to them.
fn longest_match<K: AsBytes + Drop, V: Drop, const P: usize>(
    store: &NodeStore<K, V, P>,
    root: OpaqueNodePtr,
    key_bytes: &[u8],
) -> Option<usize>
    requires { IsCanonicalRoot (of_key K.bytes) P store.now root }
    ensures { ForTree (of_key K.bytes) P store.now root (λ pairs layout.
        option_to_list result ≡
        map (λ x. length (K.bytes x.0)) (match_of (of_key K.bytes) key_bytes.now pairs)) }
{
    let leaf = prefix_search_unchecked(store, root, key_bytes)?;
    let leaf = store.leaf_at(leaf);
    Some(leaf.key.as_bytes().len())
}
