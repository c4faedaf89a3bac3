// The lines of a body.
use std::alloc::{AllocError, Global};

/// A line without its line feed.
pub fn without_line_feed(line: &[u8]) -> &[u8] {
    match line {
        [front @ .., b'\n'] => front,
        _ => line,
    }
}

/// The lines of a body, in order, without their line feeds. What stands behind the last line feed is one, unless it is
/// nothing.
pub fn lines_of(alloc: Global, body: &[u8]) -> Result<Vec<&[u8]>, AllocError> {
    let mut lines = Vec::new(alloc);
    for line in body.split_inclusive(|byte| *byte == b'\n') {
        lines.push(without_line_feed(line))?;
    }
    Ok(lines)
}
