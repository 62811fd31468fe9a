//! A file of rows, cut into the lines of each.

use std::alloc::{AllocError, Global};

/// The lines of a row.
#[derive(Drop)]
pub struct Block<'t> {
    /// The number of its first line in the file, from 1.
    pub place: usize,
    pub lines: Vec<&'t str>,
    /// Whether an empty line stands before the next row.
    pub apart: bool,
}

/// The rows of a file, in order. Its first line that begins with `@` begins the first one; a row has a line of words behind its
/// first line, and goes on up to the next line that begins so. Between two of them an empty line belongs to neither.
pub fn blocks<'t>(alloc: Global, text: &'t str) -> Result<Vec<Block<'t>>, AllocError> {
    let mut blocks: Vec<Block<'t>> = Vec::new(alloc);
    let whole = text.strip_suffix('\n').unwrap_or(text);
    for (index, line) in whole.split('\n').enumerate() {
        if begins(blocks.last(), line) {
            part(blocks.last_mut());
            blocks.push(Block {
                place: index.saturating_add(1),
                lines: Vec::new(alloc),
                apart: true,
            })?;
        }
        if let Some(block) = blocks.last_mut() {
            block.lines.push(line)?;
        }
    }
    Ok(blocks)
}

// Whether the line begins a row.
fn begins(last: Option<&Block<'_>>, line: &str) -> bool {
    match last {
        None => line.starts_with('@'),
        Some(block) => line.starts_with("@ ") && block.lines.len() >= 2,
    }
}

// Takes the empty line off a row that is followed by another.
fn part(last: Option<&mut Block<'_>>) {
    if let Some(block) = last {
        block.apart = block.lines.pop() == Some("");
    }
}
