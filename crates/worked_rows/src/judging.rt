//! Whether a row is as it says.

use crate::both::judge_both;
use crate::playing::{Run, Told};
use crate::row::{Device, Each, Row};
use std::alloc::{AllocError, AllocFailed, Global};

/// More calls than any run of a row makes.
const CALLS: u64 = 100_000;

/// More nodes than any row that tries budgets wants.
const BUDGETS: u64 = 4_096;

const ENDLESS: &str = "no run of it goes through";

const INPUT_FAULT: &[u8] = b"input fault\n";

/// Why a row isn't as it says.
#[derive(Drop)]
pub enum Wrong {
    /// In the run of this name something else is told.
    Told(String, Told),
    /// This is wrong.
    Plain(&'static str),
    /// No memory was given.
    Memory,
}

impl From<AllocError> for Wrong {
    fn from(_: AllocError) -> Wrong {
        Wrong::Memory
    }
}

impl<T: Drop> From<AllocFailed<T>> for Wrong {
    fn from(_: AllocFailed<T>) -> Wrong {
        Wrong::Memory
    }
}

/// Plays the row in each way that it asks for.
pub fn judge(alloc: Global, row: &Row) -> Result<(), Wrong> {
    match row.trial.each {
        Some(Each::Call(device)) => judge_calls(alloc, row, device),
        Some(Each::Budget) => judge_budgets(alloc, row),
        None => judge_alone(alloc, row),
    }
}

// Plays the row as it stands, and in the other ways that it asks for.
fn judge_alone(alloc: Global, row: &Row) -> Result<(), Wrong> {
    let told = Run::planned(row).told(alloc)?;
    let agrees = is_wanted(row, row.status, &told);
    hold(alloc, agrees, "as it stands", told)?;
    if let (Some(most), Some(answers)) = (row.trial.pieces, answers_of(row)) {
        judge_answers(alloc, row, most, answers)?;
    }
    if row.trial.fronts {
        judge_fronts(alloc, row)?;
    }
    if row.trial.both {
        judge_both(alloc, row)?;
    }
    Ok(())
}

// An error, with the run's name, where it doesn't agree.
fn hold(alloc: Global, agrees: bool, run: &str, told: Told) -> Result<(), Wrong> {
    if agrees {
        return Ok(());
    }
    Err(Wrong::Told(String::from_str(alloc, run)?, told))
}

// Whether what the row has is written, with this status.
fn is_wanted(row: &Row, status: u8, told: &Told) -> bool {
    told.status == status && told.written == row.wanted
}

// Each call of the device fails in turn, up to a run in which none does: it ends with status 0.
fn judge_calls(alloc: Global, row: &Row, device: Device) -> Result<(), Wrong> {
    for call in 1..CALLS {
        let told = Run::failing(row, device, &[call]).told(alloc)?;
        let name = format!(in alloc; "where call {call} fails")?;
        if !told.failed {
            let agrees = call > 1 && is_wanted(row, 0, &told);
            return hold(alloc, agrees, &name, told);
        }
        let agrees = told.status == row.status && is_cut(row, device, &told);
        hold(alloc, agrees, &name, told)?;
    }
    Err(Wrong::Plain(ENDLESS))
}

// Each budget of nodes in turn is reached, up to one that suffices: that run ends with status 0.
fn judge_budgets(alloc: Global, row: &Row) -> Result<(), Wrong> {
    for nodes in 2..BUDGETS {
        let words = budgeted(alloc, row, nodes)?;
        let told = Run::planned(row).told_by(alloc, &words)?;
        let name = format!(in alloc; "by {nodes} nodes")?;
        if told.status != row.status {
            let agrees = nodes > 2 && is_wanted(row, 0, &told);
            return hold(alloc, agrees, &name, told);
        }
        let line = format!(in alloc; "node budget {nodes} reached\n")?;
        let agrees = told.written.as_slice() == line.as_bytes();
        hold(alloc, agrees, &name, told)?;
    }
    Err(Wrong::Plain(ENDLESS))
}

// The row's words with a budget of nodes behind them.
fn budgeted(alloc: Global, row: &Row, nodes: u64) -> Result<Vec<String>, AllocError> {
    let mut words = row.words.clone()?;
    words.push(String::from_str(alloc, "--nodes")?)?;
    words.push(format!(in alloc; "{nodes}")?)?;
    Ok(words)
}

// Whether a run that fails writes this: whole lines of what is due, and behind those for the lines taken a fault of the input; or
// the fault of a file.
fn is_cut(row: &Row, device: Device, told: &Told) -> bool {
    let written = told.written.as_slice();
    match device {
        Device::Write => is_front(row, written),
        Device::Read => match written.strip_suffix(INPUT_FAULT) {
            Some(front) => is_front(row, front) && lines_in(front) == lines_due(row, told.taken),
            None => false,
        },
        Device::File => names_a_file(row, written),
    }
}

// How many lines are due before a read fails behind so many bytes: what answers the lines in them, and as many that stand before
// the first one is read. An audit writes none before its end.
fn lines_due(row: &Row, taken: usize) -> u64 {
    let Some(answers) = answers_of(row) else {
        return 0;
    };
    let front = row.input.get(..taken).unwrap_or(row.input.as_slice());
    lines_in(front).saturating_add(1).saturating_mul(answers)
}

fn lines_in(text: &[u8]) -> u64 {
    let mut lines = 0u64;
    for byte in text {
        if *byte == b'\n' {
            lines = lines.saturating_add(1);
        }
    }
    lines
}

fn is_front(row: &Row, front: &[u8]) -> bool {
    row.wanted.starts_with(front) && (front.is_empty() || front.ends_with(b"\n"))
}

// Whether this is the fault of one of the row's files.
fn names_a_file(row: &Row, written: &[u8]) -> bool {
    let named = match written.strip_prefix(b"file fault: ") {
        Some(rest) => rest.strip_suffix(b"\n"),
        None => None,
    };
    match named {
        Some(name) => row.files.iter().any(|file| file.name.as_bytes() == name),
        None => false,
    }
}

// How many writes answer a line of the input, where the row is of a talk in which no call is to fail.
fn answers_of(row: &Row) -> Option<u64> {
    let fails = &row.trial.fails;
    if !(fails.file.is_empty() && fails.read.is_empty() && fails.write.is_empty()) {
        return None;
    }
    match row.words.get(1)?.as_str() {
        "run" | "many" => Some(1),
        "counter" => Some(2),
        _ => None,
    }
}

// Each write fails in turn. By then just the lines are taken that are answered, and what comes in one piece with their end: of
// the lines that a talk writes, as many as answer one of the input stand before the first one is read.
fn judge_answers(alloc: Global, row: &Row, most: usize, answers: u64) -> Result<(), Wrong> {
    for call in 1..CALLS {
        let told = Run::failing(row, Device::Write, &[call]).told(alloc)?;
        if !told.failed {
            return Ok(());
        }
        let due = length_of_lines(&row.input, (call - 1).checked_div(answers).unwrap_or(0));
        let agrees = due <= told.taken && told.taken - due < most && is_front(row, &told.written);
        let name = format!(in alloc; "where write {call} fails, by {} bytes", told.taken)?;
        hold(alloc, agrees, &name, told)?;
    }
    Err(Wrong::Plain(ENDLESS))
}

// How many bytes so many lines have.
fn length_of_lines(input: &[u8], count: u64) -> usize {
    let mut lines = 0u64;
    for (place, byte) in input.iter().enumerate() {
        if lines == count {
            return place;
        }
        if *byte == b'\n' {
            lines = lines.saturating_add(1);
        }
    }
    input.len()
}

// Each front of the main file is read, and has a verdict or a fault of its own.
fn judge_fronts(alloc: Global, row: &Row) -> Result<(), Wrong> {
    let Some(main) = row.files.first() else {
        return Ok(());
    };
    for front in 0..=main.text.len() {
        let run = Run {
            front,
            ..Run::planned(row)
        };
        let told = run.told(alloc)?;
        let agrees = match told.status {
            0 => told.written.starts_with(b"realizable K="),
            1 => told.written.starts_with(b"unrealizable N="),
            3 => begins_at(&main.name, &told.written),
            _ => false,
        };
        let name = format!(in alloc; "for the first {front} bytes")?;
        hold(alloc, agrees, &name, told)?;
    }
    Ok(())
}

// Whether this begins with a place of the file.
fn begins_at(name: &str, written: &[u8]) -> bool {
    match written.strip_prefix(name.as_bytes()) {
        Some(rest) => rest.starts_with(b":"),
        None => false,
    }
}
