//! What a line of a row is.

use crate::misread::Misread;
use crate::row::{Device, Each};

/// What a line of a row is.
pub enum Mark<'l> {
    /// A line of text.
    Text,
    /// A file of this name follows.
    File(&'l str),
    /// The input follows.
    In,
    /// What is written follows.
    Out,
    /// The call of that number fails.
    Fails(Device, u64),
    /// Each call fails in turn, or each budget is tried.
    Each(Each),
    /// The input comes so many bytes at a time.
    Pieces(usize),
    /// The output takes so many bytes at a time.
    Takes(usize),
    /// Each front of the main file is tried.
    Fronts,
    /// The talk is held over rows and over diagrams.
    Both,
}

/// What the line is. `Mark`: it begins as a mark does, and is none.
pub fn mark_of(line: &str) -> Result<Mark<'_>, Misread> {
    if !line.starts_with('@') {
        return Ok(Mark::Text);
    }
    let (word, rest) = line.split_once(' ').unwrap_or((line, ""));
    match (word, rest) {
        ("@times" | "@blanks" | "@bytes", _) | ("@end", "") => Ok(Mark::Text),
        ("@file", name) => Ok(Mark::File(name)),
        ("@in", "") => Ok(Mark::In),
        ("@out", "") => Ok(Mark::Out),
        ("@fails", plan) => failing(plan),
        ("@pieces", count) => Ok(Mark::Pieces(piece_of(count)?)),
        ("@takes", count) => Ok(Mark::Takes(piece_of(count)?)),
        ("@fronts", "") => Ok(Mark::Fronts),
        ("@both", "") => Ok(Mark::Both),
        _ => Err(Misread::Mark),
    }
}

// Which call fails, or of which device each does.
fn failing(plan: &str) -> Result<Mark<'static>, Misread> {
    let (first, second) = plan.split_once(' ').ok_or(Misread::Mark)?;
    if first == "each" {
        return Ok(Mark::Each(each_of(second)?));
    }
    let call = second.parse::<u64>().ok().ok_or(Misread::Number)?;
    Ok(Mark::Fails(device_of(first)?, call))
}

fn each_of(word: &str) -> Result<Each, Misread> {
    if word == "budget" {
        return Ok(Each::Budget);
    }
    Ok(Each::Call(device_of(word)?))
}

fn device_of(word: &str) -> Result<Device, Misread> {
    match word {
        "file" => Ok(Device::File),
        "read" => Ok(Device::Read),
        "write" => Ok(Device::Write),
        _ => Err(Misread::Mark),
    }
}

// The length of a piece: at least one byte.
fn piece_of(count: &str) -> Result<usize, Misread> {
    match count.parse::<usize>() {
        Ok(bytes) if bytes > 0 => Ok(bytes),
        _ => Err(Misread::Number),
    }
}
