//! The lines of a table.
ghost use Rattle.std.specs.Prelude.{◌≡◌, ◌≢◌, ℕ, List, IfNone, IfSome, true};
ghost use Rattle.std.specs.Char.{is_ascii_digit};
ghost use Rattle.std.specs.List.{list_all};
ghost use Rattle.text_programs.specs.Entries.{is_code, line_of};

use text_lines::words::split_word;

/// Returns whether these are one digit or more.
pub fn is_code(bytes: &[u8]) -> bool
    ensures { result ≡ is_code bytes.now }
{
    !bytes.is_empty() && are_digits(bytes)
}

fn are_digits(bytes: &[u8]) -> bool
    ensures { result ≡ list_all is_ascii_digit bytes.now }
{
    bytes.iter().all(|byte| byte.is_ascii_digit())
}

/// Returns the code and the name of a line: one digit or more, a space, and the name.
pub fn parse_entry(line: &[u8]) -> Option<(&[u8], &[u8])>
    ensures entry { IfSome result (λ entry. line.now ≡ line_of (entry.0.now, entry.1.now)) }
    ensures code { IfSome result (λ entry. is_code entry.0.now ≡ true) }
    ensures none { IfNone result ((code name : List ℕ) → is_code code ≡ true →
        line.now ≢ line_of (code, name)) }
{
    let (code, name) = split_word(line)?;
    if is_code(code) {
        Some((code, name))
    } else {
        None
    }
}
