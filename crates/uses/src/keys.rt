//! Maps of keys that never conflict, as a caller uses them.
ghost use Rattle.std.specs.Prelude.{◌≡◌, Some, IfSome, OnErr, OnOk};
ghost use Rattle.std.specs.Iterator.Adapters.{take_count, take_source};
ghost use Rattle.std.specs.Cmp.Lexicographic.{slice_cmp};
ghost use Rattle.std.specs.Ordering.{nat_cmp};
ghost use Rattle.art_model.specs.Pairs.{of_key, put};
ghost use Rattle.art_operations.specs.Ended.{ended};
ghost use Rattle.art_operations.specs.Escapes.{escape};
ghost use Rattle.art_operations.specs.KeyedPairs.{RiseBy, strings_below};
ghost use Rattle.art_operations.specs.MapAnswers.{value_at};

use art_operations::keys::{Escaped, Terminated, U16Key};
use art_operations::map::Range;
use art_operations::tree_map::TreeMap;
use std::alloc::{AllocError, Global};
use std::iter::Take;

/// Words with their numbers. A word may be a prefix of another one.
pub type Words = TreeMap<Escaped, u64, 16>;

/// Inserts a word. Fails only if an allocation fails; then the words are unchanged.
pub fn put_word(
    words: &mut Words,
    alloc: Global,
    word: &[u8],
    number: u64,
) -> Result<(), AllocError>
    ensures pairs { OnOk result (words.new ≡ put (of_key escape) (word.now, number) words.old) }
    ensures kept { OnErr result (words.new ≡ words.old) }
{
    let key = Escaped::encode(alloc, word)?;
    words.insert(key, number)?;
    Ok(())
}

/// Does nothing; its contract states that the words are in ascending order of their own bytes, and not only of their
/// escapes.
pub fn words_rise(words: &Words)
    ensures { RiseBy (slice_cmp nat_cmp) words.now }
{
    words.rises();
}

/// Returns the number of a name, or `None` if the name is not stored. It allocates nothing.
pub fn number_of_name(names: &TreeMap<Terminated, u64, 16>, name: &str) -> Option<u64>
    ensures { result ≡ value_at ended (ended name.now) names.now }
{
    names.get_text(name.as_bytes()).copied()
}

/// Returns the first ten names that start with a text, with their numbers, in ascending order. It allocates nothing.
pub fn completions<'a>(
    names: &'a TreeMap<Terminated, u64, 16>,
    text: &[u8],
) -> Take<Range<'a, Terminated, u64, 16>>
    ensures names { take_source result ≡ strings_below (λ name. name) text.now names.now }
    ensures at_most_ten { take_count result ≡ 10 }
{
    names.prefix_text(text).take(10)
}

/// Inserts three days by their temperatures and returns the coldest, or `None` if an allocation fails.
pub fn coldest(alloc: Global) -> Option<Option<(U16Key, u32)>>
    ensures { IfSome result (λ told. told ≡ Some (272, 2)) }
{
    let mut days: TreeMap<U16Key, u32, 4> = TreeMap::new(alloc);
    let Ok(_) = days.insert(U16Key::from(281), 1) else {
        return None;
    };
    let Ok(_) = days.insert(U16Key::from(272), 2) else {
        return None;
    };
    let Ok(_) = days.insert(U16Key::from(290), 3) else {
        return None;
    };
    Some(days.pop_first())
}
