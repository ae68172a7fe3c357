//! Splits a line.
ghost use Rattle.std.specs.Prelude.{◌≡◌, ◌≢◌, ◌++◌, ◌∷◌, All, List, IfNone, IfSome, ℕ};

/// Returns what is after a prefix, or `None` if the line doesn't start with it.
pub fn strip<'a>(line: &'a [u8], front: &[u8]) -> Option<&'a [u8]>
    ensures rest { IfSome result (λ rest. line.now ≡ front.now ++ rest.now) }
    ensures none { IfNone result ((rest : List ℕ) → line.now ≢ front.now ++ rest) }
{
    line.strip_prefix(front)
}

/// Returns what is before the first space, and what is after it; `None` if there is none.
pub fn split_word(words: &[u8]) -> Option<(&[u8], &[u8])>
    ensures parts { IfSome result (λ parts. words.now ≡ parts.0.now ++ 32 ∷ parts.1.now) }
    ensures word { IfSome result (λ parts. All (λ c. c ≢ 32) parts.0.now) }
    ensures none { IfNone result (All (λ c. c ≢ 32) words.now) }
{
    let space = words.iter().position(|&character| character == b' ')?;
    let (word, rest) = words.split_at(space);
    Some((word, &rest[1..]))
}
