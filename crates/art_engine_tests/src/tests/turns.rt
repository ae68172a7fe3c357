//! Lines with their replies.
use std::alloc::{AllocError, Global};

/// A line, and the lines of the reply to it.
pub type Turn = (&'static str, &'static [&'static str]);

/// The text of the lines, a line feed after each.
pub fn input_of(alloc: Global, turns: &[Turn]) -> Result<Vec<u8>, AllocError> {
    let mut text = Vec::new(alloc);
    for (line, _) in turns {
        push_line(&mut text, line)?;
    }
    Ok(text)
}

/// The text of the replies.
pub fn replies_of(alloc: Global, turns: &[Turn]) -> Result<Vec<u8>, AllocError> {
    let mut text = Vec::new(alloc);
    for (_, reply) in turns {
        for line in *reply {
            push_line(&mut text, line)?;
        }
    }
    Ok(text)
}

fn push_line(text: &mut Vec<u8>, line: &str) -> Result<(), AllocError> {
    text.extend_from_slice(line.as_bytes())?;
    text.push(b'\n')?;
    Ok(())
}
