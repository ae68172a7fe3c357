//! Building a `ByteMap`.
ghost use Rattle.std.specs.Prelude.{◌≡◌, ◌+◌, ◌<◌, ◌↔◌, ◌++◌, ◌∷◌, [], Some, IfErr, IfOk, IsTrue, OnErr, OnOk, length};
ghost use Rattle.std.specs.FinMap as map;
ghost use Rattle.std.specs.Iterator.{IsFinite};
ghost use Rattle.art_building.specs.Built.{HasAppended, HoldsEdge, edge_in, root_of};
ghost use Rattle.art_building.specs.Pushes.{BuildsAll, BuildsUntil, IsPushError};
ghost use Rattle.art_changing.specs.MapPairs.{pairs_at};
ghost use Rattle.art_model.specs.Pairs.{IsMap, of_key};

use art_loading::append::{Edge, append, begin};
pub use art_loading::append::{AppendError, AppendReason};
use art_map::map::{ByteMap, PairRefused};
use art_nodes::node::AsBytes;
use art_nodes::store::NodeStore;
use std::alloc::Global;
use std::marker::Model;

/// A `ByteMap` that is being built from pairs in ascending order of their keys.
///
/// A pair is compared with the last one alone, so building a map of sorted pairs takes less time than inserting them.
#[derive(Drop)]
pub struct MapBuilder<K: AsBytes, V, const P: usize> {
    store: NodeStore<K, V, P>,
    // In a box, so that a builder is no larger than its map: a function that may name the map may make one.
    edge: Option<Box<Edge>>,
    len: usize,
}

impl<K: AsBytes, V, const P: usize> Model for MapBuilder<K, V, P> {
    ghost use Rattle.std.specs.Prelude.{List};
    ghost use Rattle.std.specs.Coded.{coded×, coded_list};

    ghost Value = { List (K × V) };

    ghost coded = { coded_list (coded× K.code V.code) };

    ghost use Rattle.art_model.specs.Pairs.{of_key};
    ghost use Rattle.art_building.specs.Built.{HoldsEdge, edge_in, root_of};
    ghost use Rattle.art_changing.specs.MapPairs.{pairs_at};

    ghost view = { λ m. pairs_at m.store (root_of (edge_in m.edge)) };

    ghost invariant = { λ m. HoldsEdge (of_key K.bytes) P m.store (edge_in m.edge) m.len
        (pairs_at m.store (root_of (edge_in m.edge))) };
}

impl<K: AsBytes + Drop, V: Drop, const P: usize> MapBuilder<K, V, P> {
    /// Returns a builder with no pairs, without an allocation.
    pub fn new(alloc: Global) -> Self
        ensures { result ≡ [] }
    {
        MapBuilder {
            store: NodeStore::new(alloc),
            edge: None,
            len: 0,
        }
    }

    /// Returns the number of pairs, in constant time.
    pub fn len(&self) -> usize
        ensures len { result ≡ length self.now }
        ensures sorted { IsMap (of_key K.bytes) self.now }
    {
        self.len
    }

    /// Returns whether there are no pairs.
    pub fn is_empty(&self) -> bool
        ensures { IsTrue result ↔ (self.now ≡ []) }
    {
        self.len == 0
    }

    /// Adds a pair whose key is after all others.
    ///
    /// An error returns the pair, and the builder is unchanged: the key is less than the last one, equal to it, or
    /// conflicts with it, or an allocation failed. It compares the key with the last one, and makes a constant number
    /// of writes.
    #[inline(always)]
    pub fn push(&mut self, key: K, value: V) -> Result<(), AppendError<K, V>>
        ensures pushed { OnOk result (self.new ≡ self.old ++ (key, value) ∷ []) }
        ensures error { IfErr result (IsPushError K.bytes self.old key value) }
        ensures kept { OnErr result (self.new ≡ self.old) }
    {
        append_in(&mut self.store, &mut self.edge, &mut self.len, key, value)
    }

    /// Adds the pairs of an iterator, one after another, as `push` does.
    ///
    /// It stops at the first pair that can't be added, which the error returns: the pairs before it stay in the builder,
    /// and the others stay in the iterator.
    pub fn extend<I: Iterator<Item = (K, V)>>(
        &mut self,
        pairs: &mut I,
    ) -> Result<(), AppendError<K, V>>
        requires can { I.can_next pairs.old }
        requires ends { IsFinite (I.remaining pairs.old) }
        ensures all { OnOk result
            (BuildsAll I.next_gives pairs.old self.old pairs.new self.new) }
        ensures error { IfErr result (λ error.
            BuildsUntil I.next_gives K.bytes pairs.old self.old error pairs.new self.new) }
    {
        while let Some((key, value)) = pairs.next() {
            match self.push(key, value) {
                Ok(()) => {}
                Err(error) => return Err(error),
            }
        }
        Ok(())
    }

    /// Returns the map of the pairs, in constant time.
    pub fn finish(self) -> ByteMap<K, V, P>
        ensures { result ≡ self }
    {
        let root = root_in(&self.edge);
        ByteMap::from_tree(self.store, root, self.len)
    }

    /// Adds the pairs of an iterator, and returns the map of all pairs. The error returns the first pair that can't be
    /// added: the pairs before it are dropped, and the others stay in the iterator.
    pub fn build<I: Iterator<Item = (K, V)>>(
        self,
        pairs: &mut I,
    ) -> Result<ByteMap<K, V, P>, AppendError<K, V>>
        requires can { I.can_next pairs.old }
        requires ends { IsFinite (I.remaining pairs.old) }
        ensures all { IfOk result (λ map.
            BuildsAll I.next_gives pairs.old self pairs.new map) }
        ensures error { IfErr result (λ error. (before : List (K × V)) ×
            BuildsUntil I.next_gives K.bytes pairs.old self error pairs.new before) }
    {
        let mut builder = self;
        match builder.extend(pairs) {
            Ok(()) => Ok(builder.finish()),
            Err(error) => Err(error),
        }
    }
}

ghost use Rattle.std.specs.Prelude.{List};
ghost use Rattle.art_parts.specs.declared.names.OpaqueNodePtr.{OpaqueNodePtr};

use art_nodes::node::{LeafPtr, OpaqueNodePtr};

// The root of the tree with this edge, if there is one.
fn root_in(edge: &Option<Box<Edge>>) -> Option<OpaqueNodePtr>
    ensures { result ≡ root_of (edge_in edge.now) }
{
    match edge {
        Some(edge) => Some(edge.root),
        None => None,
    }
}

// Adds a pair to the tree with this edge, or begins one.
#[inline(always)]
fn append_in<K: AsBytes + Drop, V: Drop, const P: usize>(
    store: &mut NodeStore<K, V, P>,
    edge: &mut Option<Box<Edge>>,
    len: &mut usize,
    key: K,
    value: V,
) -> Result<(), AppendError<K, V>>
    requires { HoldsEdge (of_key K.bytes) P store.old (edge_in edge.old) len.old
        (pairs_at store.old (root_of (edge_in edge.old))) }
    ensures { HasAppended K.bytes P (pairs_at store.old (root_of (edge_in edge.old))) key value result
        store.new (edge_in edge.new) len.new }
{
    let Some(right) = edge else {
        return match begin_in_box(store, key, value) {
            Ok(begun) => {
                *edge = Some(begun);
                *len = 1;
                Ok(())
            }
            Err(refused) => Err(without_memory(refused)),
        };
    };
    match append(store, right, key, value) {
        Ok(()) => {
            *len = one_more(store, *len);
            Ok(())
        }
        Err(error) => Err(error),
    }
}

ghost use Rattle.art_loading.specs.Edges.{IsEdge};
ghost use Rattle.art_parts.specs.Names.{leaf_name};
ghost use Rattle.art_writing.specs.ParentWrites.{IsPlanted};

// Begins a tree with a pair. The box is allocated first, so that an error leaves the store unchanged.
fn begin_in_box<K: AsBytes + Drop, V: Drop, const P: usize>(
    store: &mut NodeStore<K, V, P>,
    key: K,
    value: V,
) -> Result<Box<Edge>, PairRefused<K, V>>
    ensures begun { IfOk result (λ edge. IsEdge (of_key K.bytes) P store.new
        edge.value.root edge.value.steps.items edge.value.leaf ((key, value) ∷ [])) }
    ensures root { IfOk result (λ edge. edge.value.root ≡ leaf_name edge.value.leaf) }
    ensures planted { IfOk result (λ edge.
        IsPlanted store.old store.new edge.value.leaf (key, value)) }
    ensures handed_back { IfErr result (λ refused.
        (refused.key ≡ key) × (refused.value ≡ value)) }
    ensures same { OnErr result (store.new ≡ store.old) }
{
    let alloc = store.alloc();
    let leaf = LeafPtr { slot: 0 };
    let no_edge = Edge {
        root: leaf.to_opaque(),
        steps: Vec::new(alloc),
        leaf,
    };
    let Ok(mut edge) = Box::new(alloc, no_edge) else {
        return Err(PairRefused { key, value });
    };
    *edge = begin(store, key, value)?;
    Ok(edge)
}

ghost use Rattle.art_loading.specs.declared.append.AppendReason.TheVariants.{Memory};

// The error with the pair for which an allocation failed.
fn without_memory<K, V>(refused: PairRefused<K, V>) -> AppendError<K, V>
    ensures { result ≡ record { key = refused.key; value = refused.value; reason = Memory } }
{
    AppendError {
        key: refused.key,
        value: refused.value,
        reason: AppendReason::Memory,
    }
}

// One more than a number that is less than that of the leaves.
fn one_more<K: AsBytes + Drop, V: Drop, const P: usize>(
    store: &NodeStore<K, V, P>,
    len: usize,
) -> usize
    requires { len < map.len store.now.leaves }
    ensures { result ≡ len + 1 }
{
    // Its contract states that the leaves are fewer than a `usize` can count.
    let _count = store.leaf_count();
    len + 1
}
