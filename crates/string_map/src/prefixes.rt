//! The strings that start with a prefix are a range.
ghost use Rattle.std.specs.Prelude.{◌≤◌, length};
ghost use Rattle.string_map.specs.PrefixEnds.{IsPrefixEnd};

/// Turns a prefix into the end of the range of the strings that start with it, and returns the length of that end.
/// Returns 0 if the range has no end: all strings from the prefix on start with it.
pub fn prefix_end(prefix: &mut [u8]) -> usize
    ensures end { IsPrefixEnd prefix.old result prefix.new }
    ensures within { result ≤ length prefix.new }
{
    let mut len = prefix.len();
    while len > 0 && prefix[len - 1] == 255 {
        len -= 1;
    }
    if len == 0 {
        return 0;
    }
    prefix[len - 1] += 1;
    len
}
