//! Trees that runs of drawn commands leave, each compared with the tree that is built from the pairs at once.
ghost use Rattle.std.specs.Prelude.{ℕ, ◌<◌, List};
ghost use Rattle.art_model.specs.Canonical.{IsCanonical};
ghost use Rattle.art_parts.specs.Keys.{KeepBytes};
ghost use Rattle.art_model.specs.Pairs.{of_key};

use super::build::build;
use super::by_list::answer;
use super::drawn::{Drawer, Drawn, KeyShape};
use art_nodes::node::{AsBytes, NodeType, OpaqueNodePtr};
use art_nodes::store::NodeStore;
use art_running::run::{Command, Reply, Side, run};
use art_test_support::commands::first_apart;
use art_test_support::expected::same;
use art_test_support::side_by_side::kind_if_same;
use art_test_support::tagged::Tagged;
use std::alloc::{AllocError, Global};
use std::mem;
use std::test::Fail;

fn copy_of(command: &Command<Tagged, u32>) -> Result<Command<Tagged, u32>, AllocError> {
    Ok(match command {
        Command::Insert(key, value) => Command::Insert(key.clone()?, *value),
        Command::InsertPrefix(key, value) => Command::InsertPrefix(key.clone()?, *value),
        Command::Delete(key) => Command::Delete(key.clone()?),
        Command::DeleteMin => Command::DeleteMin,
        Command::DeleteMax => Command::DeleteMax,
        Command::Clone => Command::Clone,
        Command::Contains(key) => Command::Contains(key.clone()?),
        Command::LongestMatch(key) => Command::LongestMatch(key.clone()?),
    })
}

/// A hundred commands, and the replies to them.
#[derive(Drop)]
struct Hundred {
    commands: Vec<Command<Tagged, u32>>,
    replies: Vec<Reply<Tagged, u32>>,
}

impl Hundred {
    /// Draws one further command, and carries it out on a list.
    fn draw(
        &mut self,
        drawer: &mut Drawer,
        drawn: &mut Drawn,
        pairs: &mut Vec<(Tagged, u32)>,
        is_growing: bool,
    ) -> Result<(), AllocError> {
        let command = drawer.command(pairs, is_growing)?;
        drawn.count(&command);
        self.commands.push(copy_of(&command)?)?;
        self.replies.push(answer(drawer.alloc(), pairs, command)?)?;
        Ok(())
    }
}

/// Draws a hundred commands, and carries them out on a list.
fn draw_hundred(
    drawer: &mut Drawer,
    drawn: &mut Drawn,
    pairs: &mut Vec<(Tagged, u32)>,
    is_growing: bool,
) -> Result<Hundred, AllocError> {
    let alloc = drawer.alloc();
    let mut hundred = Hundred {
        commands: Vec::new(alloc),
        replies: Vec::new(alloc),
    };
    for _ in 0..100 {
        hundred.draw(drawer, drawn, pairs, is_growing)?;
    }
    Ok(hundred)
}

/// The replies to commands on a tree. The store that it is in at the end becomes the first.
fn run_all<K: AsBytes + Clone + Drop, const P: usize>(
    first: &mut NodeStore<K, u32, P>,
    second: &mut NodeStore<K, u32, P>,
    root: &mut Option<OpaqueNodePtr>,
    commands: Vec<Command<K, u32>>,
) -> Result<Vec<Reply<K, u32>>, AllocError>
    requires canonical { (pairs : List (K × ℕ)) ×
        IsCanonical (of_key K.bytes) P first.old root.old pairs }
    requires clones { KeepBytes K.bytes K.is_clone }
    ensures { (pairs : List (K × ℕ)) × IsCanonical (of_key K.bytes) P first.new root.new pairs }
{
    match run(first, second, *root, commands) {
        Ok(done) => {
            *root = done.root;
            match done.side {
                Side::First => {}
                Side::Second => mem::swap(first, second),
            }
            Ok(done.replies)
        }
        Err((_, error)) => Err(error),
    }
}

/// Whether two replies report the same, including the tags of keys.
fn are_alike(one: &Reply<Tagged, u32>, other: &Reply<Tagged, u32>) -> bool {
    match (one, other) {
        (Reply::Inserted(old), Reply::Inserted(want)) => old == want,
        (Reply::Conflict(key, value, error), Reply::Conflict(want, its, refusal)) => {
            key == want && value == its && error == refusal
        }
        (Reply::Overwrote(old, count), Reply::Overwrote(want, number)) => {
            old == want && count == number
        }
        (Reply::Deleted(pair), Reply::Deleted(want)) => pair == want,
        (Reply::Cloned, Reply::Cloned) => true,
        (Reply::Found(is_found), Reply::Found(want)) => is_found == want,
        (Reply::MatchLen(len), Reply::MatchLen(want)) => len == want,
        _ => false,
    }
}

/// Compares a tree with the one that is built from these pairs. Returns the greatest kind of node, or None if they are
/// not the same.
fn compare<const P: usize>(
    store: &NodeStore<Tagged, u32, P>,
    root: Option<OpaqueNodePtr>,
    pairs: &[(Tagged, u32)],
) -> Result<Option<NodeType>, AllocError> {
    let alloc = store.alloc();
    let mut built = NodeStore::new(alloc);
    let built_root = build(&mut built, pairs.to_vec(alloc)?)?;
    kind_if_same((store, root), (&built, built_root), pairs)
}

/// Carries commands out on a tree. Returns the place of the first reply that is not the list's, and the greatest kind
/// of node, or None if the tree is not the one that is built from the list's pairs.
fn carry_out<const P: usize>(
    first: &mut NodeStore<Tagged, u32, P>,
    second: &mut NodeStore<Tagged, u32, P>,
    root: &mut Option<OpaqueNodePtr>,
    hundred: Hundred,
    pairs: &[(Tagged, u32)],
) -> Result<(Option<usize>, Option<NodeType>), AllocError>
    requires { (stored : List (Tagged × ℕ)) ×
        IsCanonical (of_key ⟦<Tagged as AsBytes>⟧.bytes) P first.old root.old stored }
    ensures { (stored : List (Tagged × ℕ)) ×
        IsCanonical (of_key ⟦<Tagged as AsBytes>⟧.bytes) P first.new root.new stored }
{
    let replies = run_all(first, second, root, hundred.commands)?;
    let other = first_apart(&replies, &hundred.replies, are_alike);
    Ok((other, compare(first, *root, pairs)?))
}

/// What one trial met.
#[derive(Clone, Copy)]
struct Met {
    drawn: Drawn,
    most_pairs: usize,
    greatest_kind: NodeType,
    /// Whether no pair was left at one of the comparisons.
    was_empty: bool,
}

impl Met {
    /// Whether commands of each kind were drawn, and trees became large, became empty, and had a node of this kind but
    /// of no greater one.
    fn is_wide(self, greatest_kind: NodeType) -> bool {
        self.drawn.is_each()
            && self.most_pairs > 80
            && self.greatest_kind == greatest_kind
            && self.was_empty
    }
}

/// Carries 10,000 commands out, with a comparison after each hundred. The pairs grow for 1,300 commands and then shrink
/// for 700.
fn check<const P: usize>(
    first: &mut NodeStore<Tagged, u32, P>,
    second: &mut NodeStore<Tagged, u32, P>,
    shape: KeyShape,
) -> Result<Met, Fail> {
    let alloc = first.alloc();
    let mut drawer = Drawer::new(alloc, shape, P as u64);
    let mut pairs = Vec::new(alloc);
    let mut root = None;
    let mut met = Met {
        drawn: Drawn::new(),
        most_pairs: 0,
        greatest_kind: NodeType::Node4,
        was_empty: false,
    };
    for turn in 0..100 {
        let is_growing = turn % 20 < 13;
        let hundred = draw_hundred(&mut drawer, &mut met.drawn, &mut pairs, is_growing)?;
        let (other, kind) = carry_out(first, second, &mut root, hundred, &pairs)?;
        same(other, None)?;
        met.most_pairs = met.most_pairs.max(pairs.len());
        met.greatest_kind = met.greatest_kind.max(kind.ok_or("another tree")?);
        met.was_empty |= root.is_none();
    }
    Ok(met)
}

/// Whether a trial in stores of its own is wide.
fn is_wide<const P: usize>(
    alloc: Global,
    shape: KeyShape,
    greatest_kind: NodeType,
) -> Result<bool, Fail>
    requires { P < 256 }
{
    let met = check::<P>(
        &mut NodeStore::new(alloc),
        &mut NodeStore::new(alloc),
        shape,
    )?;
    Ok(met.is_wide(greatest_kind))
}

/// Whether a trial for each number of stored bytes is wide.
fn are_wide(alloc: Global, shape: KeyShape, greatest_kind: NodeType) -> Result<[bool; 4], Fail> {
    Ok([
        is_wide::<0>(alloc, shape, greatest_kind)?,
        is_wide::<2>(alloc, shape, greatest_kind)?,
        is_wide::<4>(alloc, shape, greatest_kind)?,
        is_wide::<16>(alloc, shape, greatest_kind)?,
    ])
}

/// Shapes of keys, each with the greatest kind of node that its trees have.
static SHAPES: [(KeyShape, NodeType); 4] = [
    (KeyShape::OneByte, NodeType::Node256),
    (KeyShape::TwoBytes, NodeType::Node48),
    (KeyShape::Related, NodeType::Node16),
    (KeyShape::LongFronts, NodeType::Node16),
];

#[test]
fn trees_of_drawn_keys_are_those_built(rt: HostRuntime) -> Result<(), Fail> {
    for (shape, greatest_kind) in &SHAPES {
        let wide = are_wide(rt.alloc(), *shape, *greatest_kind)?;
        same((*shape, wide), (*shape, [true; 4]))?;
    }
    Ok(())
}
