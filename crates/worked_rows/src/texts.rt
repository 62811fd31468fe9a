//! The bytes that a line of text stands for.

use crate::misread::Misread;
use std::alloc::Global;

/// What stands at the end of a line that has no line feed.
const END: &str = "@end";

/// Adds what the line stands for: itself with its line feed, copies, blanks, or bytes.
pub fn add_line(alloc: Global, text: &mut Vec<u8>, line: &str) -> Result<(), Misread> {
    match line.split_once(' ') {
        Some(("@times", rest)) => add_copies(alloc, text, rest),
        Some(("@blanks", count)) => add_blanks(text, count),
        Some(("@bytes", bytes)) => add_bytes(text, bytes),
        _ => add_itself(text, line),
    }
}

fn add_itself(text: &mut Vec<u8>, line: &str) -> Result<(), Misread> {
    match line.strip_suffix(END) {
        Some(front) => text.extend_from_slice(front.as_bytes())?,
        None => {
            text.extend_from_slice(line.as_bytes())?;
            text.push(b'\n')?;
        }
    }
    Ok(())
}

// `A..B LINE`: the line for each number from the first up to the second, which is left out.
fn add_copies(alloc: Global, text: &mut Vec<u8>, copies: &str) -> Result<(), Misread> {
    let (range, line) = copies.split_once(' ').ok_or(Misread::Mark)?;
    let (first, end) = range.split_once("..").ok_or(Misread::Mark)?;
    for number in number_of(first)?..number_of(end)? {
        add_itself(text, &numbered(alloc, line, number)?)?;
    }
    Ok(())
}

// The line with the number before this one in place of each `#-`, and this one in place of each other `#`.
fn numbered(alloc: Global, line: &str, number: u64) -> Result<String, Misread> {
    let before = format!(in alloc; "{}", number.saturating_sub(1))?;
    let itself = format!(in alloc; "{number}")?;
    let line = line.replace(alloc, "#-", &before)?;
    Ok(line.replace(alloc, "#", &itself)?)
}

fn add_blanks(text: &mut Vec<u8>, count: &str) -> Result<(), Misread> {
    for _ in 0..number_of(count)? {
        text.push(b' ')?;
    }
    Ok(())
}

// Two hexadecimal digits a byte, with a blank between bytes.
fn add_bytes(text: &mut Vec<u8>, bytes: &str) -> Result<(), Misread> {
    for digits in bytes.split(' ') {
        match u8::from_str_radix(digits, 16) {
            Ok(byte) if digits.len() == 2 => text.push(byte)?,
            _ => return Err(Misread::Number),
        }
    }
    Ok(())
}

fn number_of(digits: &str) -> Result<u64, Misread> {
    digits.parse::<u64>().ok().ok_or(Misread::Number)
}
