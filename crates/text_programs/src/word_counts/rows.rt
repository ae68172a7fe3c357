//! Lines of counts, as they are written.
ghost use Rattle.std.specs.Prelude.{◌≡◌, ◌≢◌, ℕ, List, IfNone, IfSome, ◌<◌, ◌^◌, not};
ghost use Rattle.std.specs.Fmt.{decimal};
ghost use Rattle.std.specs.List.{list_all};
ghost use Rattle.text_programs.specs.Rows.{IsCount, is_word, row_of};
ghost use Rattle.text_programs.specs.Words.{is_gap};

use crate::word_counts::counts::is_gap;
use std::str;
use text_lines::words::split_word;

/// Returns the word and the number of a line of counts; `None` if the line is none: a number from 1 on, without a sign
/// and without leading zeros, a space, and a word.
pub fn parse_count(line: &[u8]) -> Option<(&[u8], u64)>
    ensures count { IfSome result (λ count. IsCount (count.0.now, count.1)) }
    ensures row { IfSome result (λ count. line.now ≡ row_of (count.0.now, count.1)) }
    ensures none { IfNone result ((count : List ℕ × ℕ) → IsCount count → line.now ≢ row_of count) }
{
    let (digits, word) = split_word(line)?;
    let number = parse_number(digits)?;
    if number > 0 && is_word(word) {
        Some((word, number))
    } else {
        None
    }
}

// Returns whether the bytes are a word.
fn is_word(bytes: &[u8]) -> bool
    ensures { result ≡ is_word bytes.now }
{
    !bytes.is_empty() && have_no_gap(bytes)
}

fn have_no_gap(bytes: &[u8]) -> bool
    ensures { result ≡ list_all (λ byte. not (is_gap byte)) bytes.now }
{
    bytes.iter().all(|byte| !is_gap(byte))
}

// A number in decimal, without a sign and without leading zeros.
#[tactic(auto, using(crate::proofs::RowNumbers::decimal_begins, crate::proofs::RowNumbers::decimal_unsigned, crate::proofs::RowNumbers::decimal_unpadded, crate::proofs::RowNumbers::decimal_is_utf8))]
fn parse_number(digits: &[u8]) -> Option<u64>
    ensures value { IfSome result (λ n. digits.now ≡ decimal n) }
    ensures none { IfNone result ((n : ℕ) → n < 2 ^ 64 → digits.now ≢ decimal n) }
{
    let first = *digits.first()?;
    if first == b'+' || (first == b'0' && digits.len() > 1) {
        return None;
    }
    let Ok(text) = str::from_utf8(digits) else {
        return None;
    };
    text.parse().ok()
}
