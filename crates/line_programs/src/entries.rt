//! The entries of a table's lines.
ghost use Rattle.std.specs.Prelude.{◌≡◌};
ghost use Rattle.std.specs.Option.{option_map};
ghost use Rattle.line_programs.specs.Entries.{trimmed_entry};

/// Returns a line without the white space around it; `None` if nothing is left, or if what is left starts with `#`.
pub fn trimmed_entry(line: &[u8]) -> Option<&[u8]>
    ensures { option_map (λ entry. entry.now) result ≡ trimmed_entry line.now }
{
    let entry = line.trim_ascii();
    let Some(first) = entry.first() else {
        return None;
    };
    if *first == b'#' {
        return None;
    }
    Some(entry)
}
