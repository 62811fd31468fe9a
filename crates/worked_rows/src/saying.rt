//! What is printed of rows.

use crate::cutting::{Block, blocks};
use crate::judging::{Wrong, judge};
use crate::reading::row_of;
use std::rt::Files;
use std::{fs, io};

/// How many rows there are, and how many of them differ.
#[derive(Default, Drop)]
pub struct Tally {
    pub rows: u64,
    pub differing: u64,
}

/// Plays the rows of a file, counts them, and says which differ. A file that can't be read, and one without rows, is a row that
/// differs.
pub fn say_file(
    rt: &(impl Files + Print + AllocGlobal),
    name: &str,
    tally: &mut Tally,
) -> io::Result<()> {
    let Ok(text) = fs::read_to_string(rt, name) else {
        return say_misread(rt, name, 1, "it can't be read", tally);
    };
    let blocks = blocks(rt.alloc(), &text)?;
    if blocks.is_empty() {
        return say_misread(rt, name, 1, "it has no row", tally);
    }
    for block in &blocks {
        say_row(rt, name, block, tally)?;
    }
    Ok(())
}

// Plays a row, and says where it differs.
fn say_row(
    rt: &(impl Print + AllocGlobal),
    name: &str,
    block: &Block<'_>,
    tally: &mut Tally,
) -> io::Result<()> {
    let alloc = rt.alloc();
    let row = match row_of(alloc, block) {
        Ok(row) => row,
        Err(misread) => {
            let why = format!(in alloc; "{misread}")?;
            return say_misread(rt, name, block.place, &why, tally);
        }
    };
    match judge(alloc, &row) {
        Ok(()) => {
            tally.rows = tally.rows.saturating_add(1);
            Ok(())
        }
        Err(Wrong::Plain(why)) => say_misread(rt, name, block.place, why, tally),
        Err(Wrong::Memory) => say_misread(rt, name, block.place, "no memory was given", tally),
        Err(Wrong::Told(run, told)) => {
            say_misread(rt, name, block.place, &row.shows, tally)?;
            say_bytes(rt, "wanted", row.status, &row.wanted)?;
            say_bytes(
                rt,
                &format!(in alloc; "written {run}")?,
                told.status,
                &told.written,
            )
        }
    }
}

// Says what is wrong at a place, and counts it as a row that differs.
fn say_misread(
    rt: &impl Print,
    name: &str,
    place: usize,
    why: &str,
    tally: &mut Tally,
) -> io::Result<()> {
    tally.rows = tally.rows.saturating_add(1);
    tally.differing = tally.differing.saturating_add(1);
    println!(rt; "{name}:{place}: {why}")
}

fn say_bytes(rt: &impl Print, what: &str, status: u8, bytes: &[u8]) -> io::Result<()> {
    println!(rt; "{what}, {} bytes with status {status}:", bytes.len())?;
    let text = str::from_utf8(bytes).unwrap_or("no text");
    println!(rt; "{}", text.strip_suffix('\n').unwrap_or(text))
}
