//! Counts the words of standard input, and prints the longest of them that a text starts with.
#![tactic(auto)]

use art_operations::keys::Escaped;
use art_operations::tree_map::TreeMap;
use std::io;

fn main(rt: HostRuntime) -> io::Result<()> {
    let alloc = rt.alloc();
    let mut counts: TreeMap<Escaped, u64, 16> = TreeMap::new(alloc);
    for line in rt.lines(alloc) {
        for word in line?.split_whitespace() {
            let count = counts.get_text_or_insert(alloc, word.as_bytes(), 0)?;
            *count = count.saturating_add(1);
        }
    }
    for (word, count) in counts.iter() {
        println!(rt; "{word} {count}")?;
    }
    if let Some((word, _)) = counts.longest_match(b"teapots") {
        println!(rt; "teapots starts with {word}")?;
    }
    Ok(())
}
