//! The lines that may be written last, each with its status: one function a row.

ghost use Rattle.std.specs.Prelude.{◌≡◌, ◌++◌, [], ◌∷◌, IfOk, codes, map, string_bytes};
ghost use Rattle.std.specs.Fmt.{decimal};
ghost use Rattle.spec_model.specs.Views.{variable_data};
ghost use Rattle.spectra_talks.specs.Endings.{line_of, nodes_text, order_text, usage, no_file, shelf_fault, refused, realizable, unrealizable, realizable_instead, with_core, separated, not_separated, node_budget, no_better_order, better_order, verified_system, verified_environment, not_verified, exported, table_refused, size_limit, input_fault, arbiter_line as arbiter_line_lem};
ghost use Rattle.spectra_talks.specs.Orders.{name_at, names_by};
ghost use Rattle.spectra_talks.specs.Streams.{Writes, Ends};
ghost use Rattle.spectra_talks.specs.Offered.{IsSaid, OverOutput};

use crate::status::Status;
use sp_outside::{OutOfMemory, Sink, write_line};
use spec_model::value::Var;
use spectra_trees::faults::fault_text;
use std::alloc::Global;

// Writes a line, and says with which status. It takes no memory.
fn say<O: Sink>(output: &mut O, line: &[u8], status: Status) -> Status
    ensures { OverOutput O.written O.faults output.old output.new (λ before after. Writes line.now status before after result) }
{
    match write_line(output, line) {
        Ok(()) => status,
        Err(_) => Status::OutputFault,
    }
}

// ---- what is refused

/// Says how the program is used. It takes no memory.
pub fn say_usage<O: Sink>(output: &mut O) -> Status
    ensures { OverOutput O.written O.faults output.old output.new (λ before after. Ends usage before after result) }
{
    say(
        output,
        b"usage: spectra COMMAND FILE [--nodes N]\n",
        Status::Words,
    )
}

/// Says that there is no file of this name.
pub fn say_no_file<O: Sink>(alloc: Global, name: &str, output: &mut O) -> Status
    ensures { IsSaid O.written O.faults (no_file name.now) output.old output.new result }
{
    match format!(in alloc; "no such file: {name}\n") {
        Ok(line) => say(output, line.as_bytes(), Status::NoFile),
        Err(_) => Status::Memory,
    }
}

/// Says that the shelf failed at the file of this name.
pub fn say_shelf_fault<O: Sink>(alloc: Global, name: &str, output: &mut O) -> Status
    ensures { IsSaid O.written O.faults (shelf_fault name.now) output.old output.new result }
{
    match format!(in alloc; "file fault: {name}\n") {
        Ok(line) => say(output, line.as_bytes(), Status::ShelfFault),
        Err(_) => Status::Memory,
    }
}

/// Says that the text of this file has the fault of this number at a line and a column.
pub fn say_fault<O: Sink>(
    alloc: Global,
    name: &str,
    line: u32,
    column: u32,
    number: u8,
    output: &mut O,
) -> Status
    ensures { IsSaid O.written O.faults (refused name.now line column number) output.old output.new result }
{
    let fault = fault_text(number);
    match format!(in alloc; "{name}:{line}:{column}: fault {fault}\n") {
        Ok(line) => say(output, line.as_bytes(), Status::Refused),
        Err(_) => Status::Memory,
    }
}

/// Says that the nodes ran out, of which there are so many.
pub fn say_node_budget<O: Sink>(alloc: Global, nodes: u32, output: &mut O) -> Status
    ensures { IsSaid O.written O.faults (node_budget nodes) output.old output.new result }
{
    match format!(in alloc; "node budget {nodes} reached\n") {
        Ok(line) => say(output, line.as_bytes(), Status::Budget),
        Err(_) => Status::Memory,
    }
}

// ---- verdicts

/// The line above the verdict on an arbiter of so many clients.
pub fn arbiter_line(alloc: Global, clients: u32) -> Result<String, OutOfMemory>
    ensures { IfOk result (λ line. string_bytes line ≡ arbiter_line_lem clients) }
{
    format!(in alloc; "arbiter {clients}\n")
}

/// The line of a specification that the system wins with K.
pub fn realizable_line(alloc: Global, k: u64) -> Result<String, OutOfMemory>
    ensures { IfOk result (λ line. string_bytes line ≡ line_of (realizable k)) }
{
    format!(in alloc; "realizable K={k}\n")
}

/// Says that the system wins with K.
pub fn say_realizable<O: Sink>(alloc: Global, k: u64, output: &mut O) -> Status
    ensures { IsSaid O.written O.faults (realizable k) output.old output.new result }
{
    match realizable_line(alloc, k) {
        Ok(line) => say(output, line.as_bytes(), Status::Done),
        Err(_) => Status::Memory,
    }
}

/// The line of a specification that the environment wins with N and M.
pub fn unrealizable_line(alloc: Global, n: u64, m: u64) -> Result<String, OutOfMemory>
    ensures { IfOk result (λ line. string_bytes line ≡ line_of (unrealizable n m)) }
{
    format!(in alloc; "unrealizable N={n} M={m}\n")
}

/// Says that the environment wins with N and M.
pub fn say_unrealizable<O: Sink>(alloc: Global, n: u64, m: u64, output: &mut O) -> Status
    ensures { IsSaid O.written O.faults (unrealizable n m) output.old output.new result }
{
    match unrealizable_line(alloc, n, m) {
        Ok(line) => say(output, line.as_bytes(), Status::Other),
        Err(_) => Status::Memory,
    }
}

/// Says that the system wins with K, where the other verdict is asked for.
pub fn say_realizable_instead<O: Sink>(alloc: Global, k: u64, output: &mut O) -> Status
    ensures { IsSaid O.written O.faults (realizable_instead k) output.old output.new result }
{
    match realizable_line(alloc, k) {
        Ok(line) => say(output, line.as_bytes(), Status::Other),
        Err(_) => Status::Memory,
    }
}

// ---- cores

// How many lines a core has.
fn core_line(alloc: Global, count: usize) -> Result<String, OutOfMemory>
    ensures { IfOk result (λ line. string_bytes line ≡ codes "core " ++ (decimal count ++ 10 ∷ [])) }
{
    format!(in alloc; "core {count}\n")
}

// The number of a line.
fn number_line(alloc: Global, number: u32) -> Result<String, OutOfMemory>
    ensures { IfOk result (λ line. string_bytes line ≡ 35 ∷ (decimal number ++ 10 ∷ [])) }
{
    format!(in alloc; "#{number}\n")
}

// The verdict, how many lines a core has, and their numbers.
fn core_lines(alloc: Global, n: u64, m: u64, core: &[u32]) -> Result<String, OutOfMemory>
    ensures { IfOk result (λ text. string_bytes text ≡ line_of (with_core n m core.now)) }
{
    let mut text = unrealizable_line(alloc, n, m)?;
    let count = core_line(alloc, core.len())?;
    text.push_str(&count)?;
    for &number in core {
        let line = number_line(alloc, number)?;
        text.push_str(&line)?;
    }
    Ok(text)
}

/// Says that the environment wins with N and M, and because of which lines.
pub fn say_core<O: Sink>(alloc: Global, n: u64, m: u64, core: &[u32], output: &mut O) -> Status
    ensures { IsSaid O.written O.faults (with_core n m core.now) output.old output.new result }
{
    match core_lines(alloc, n, m, core) {
        Ok(text) => say(output, text.as_bytes(), Status::Done),
        Err(_) => Status::Memory,
    }
}

/// Says that the environment beats the system by the assumptions alone, with N and M.
pub fn say_separated<O: Sink>(alloc: Global, n: u64, m: u64, output: &mut O) -> Status
    ensures { IsSaid O.written O.faults (separated n m) output.old output.new result }
{
    match format!(in alloc; "separated N={n} M={m}\n") {
        Ok(line) => say(output, line.as_bytes(), Status::Done),
        Err(_) => Status::Memory,
    }
}

/// Says that the system may force the environment from its assumptions, with K.
pub fn say_not_separated<O: Sink>(alloc: Global, k: u64, output: &mut O) -> Status
    ensures { IsSaid O.written O.faults (not_separated k) output.old output.new result }
{
    match format!(in alloc; "not separated K={k}\n") {
        Ok(line) => say(output, line.as_bytes(), Status::Other),
        Err(_) => Status::Memory,
    }
}

// ---- orders of the variables

// How many parts there are.
fn nodes_line(alloc: Global, nodes: u32) -> Result<String, OutOfMemory>
    ensures { IfOk result (λ line. string_bytes line ≡ nodes_text nodes) }
{
    format!(in alloc; "nodes {nodes}\n")
}

// The name of the variable of this number.
fn name_of(vars: &[Var], number: u32) -> &str
    ensures { result.now ≡ name_at (map variable_data vars.now) number }
{
    match vars.get(number as usize) {
        Some(var) => &var.name,
        None => "",
    }
}

// The names of the variables in this order.
fn order_line(alloc: Global, vars: &[Var], order: &[u32]) -> Result<String, OutOfMemory>
    ensures { IfOk result (λ line. string_bytes line ≡ order_text (names_by (map variable_data vars.now) order.now)) }
{
    let mut line = String::from_str(alloc, "order")?;
    for &number in order {
        line.push_str(" ")?;
        line.push_str(name_of(vars, number))?;
    }
    line.push_str("\n")?;
    Ok(line)
}

// How many parts there are, a better order, and how many there are under it.
fn order_lines(
    alloc: Global,
    vars: &[Var],
    nodes: u32,
    order: &[u32],
    fewer: u32,
) -> Result<String, OutOfMemory>
    ensures { IfOk result (λ text. string_bytes text ≡ line_of (better_order nodes (names_by (map variable_data vars.now) order.now) fewer)) }
{
    let mut text = nodes_line(alloc, nodes)?;
    let names = order_line(alloc, vars, order)?;
    text.push_str(&names)?;
    let last = nodes_line(alloc, fewer)?;
    text.push_str(&last)?;
    Ok(text)
}

/// Says how many parts there are, and that no better order is found.
pub fn say_no_better_order<O: Sink>(alloc: Global, nodes: u32, output: &mut O) -> Status
    ensures { IsSaid O.written O.faults (no_better_order nodes) output.old output.new result }
{
    match format!(in alloc; "nodes {nodes}\nno better order\n") {
        Ok(lines) => say(output, lines.as_bytes(), Status::Done),
        Err(_) => Status::Memory,
    }
}

/// Says how many parts there are, in which order of the variables, given by their numbers, there are fewer, and how many.
pub fn say_better_order<O: Sink>(
    alloc: Global,
    vars: &[Var],
    nodes: u32,
    order: &[u32],
    fewer: u32,
    output: &mut O,
) -> Status
    ensures { IsSaid O.written O.faults (better_order nodes (names_by (map variable_data vars.now) order.now) fewer) output.old output.new result }
{
    match order_lines(alloc, vars, nodes, order, fewer) {
        Ok(lines) => say(output, lines.as_bytes(), Status::Done),
        Err(_) => Status::Memory,
    }
}

// ---- tables

/// Writes the text of a table and a line feed.
pub fn say_exported<O: Sink>(text: String, output: &mut O) -> Status
    ensures { IsSaid O.written O.faults (exported (string_bytes text)) output.old output.new result }
{
    let mut line = text;
    match line.push('\n') {
        Ok(()) => say(output, line.as_bytes(), Status::Done),
        Err(_) => Status::Memory,
    }
}

/// Says that a system's table wins with K.
pub fn say_verified_system<O: Sink>(alloc: Global, k: u64, output: &mut O) -> Status
    ensures { IsSaid O.written O.faults (verified_system k) output.old output.new result }
{
    match format!(in alloc; "verified K={k}\n") {
        Ok(line) => say(output, line.as_bytes(), Status::Done),
        Err(_) => Status::Memory,
    }
}

/// Says that an environment's table wins with N and M.
pub fn say_verified_environment<O: Sink>(alloc: Global, n: u64, m: u64, output: &mut O) -> Status
    ensures { IsSaid O.written O.faults (verified_environment n m) output.old output.new result }
{
    match format!(in alloc; "verified N={n} M={m}\n") {
        Ok(line) => say(output, line.as_bytes(), Status::Done),
        Err(_) => Status::Memory,
    }
}

/// Says which rule a table fails, and at which node.
pub fn say_not_verified<O: Sink>(alloc: Global, rule: u8, node: u32, output: &mut O) -> Status
    ensures { IsSaid O.written O.faults (not_verified rule node) output.old output.new result }
{
    match format!(in alloc; "not verified rule {rule} node {node}\n") {
        Ok(line) => say(output, line.as_bytes(), Status::Other),
        Err(_) => Status::Memory,
    }
}

/// Says that the input is no table of the specification. It takes no memory.
pub fn say_table_refused<O: Sink>(output: &mut O) -> Status
    ensures { IsSaid O.written O.faults table_refused output.old output.new result }
{
    say(output, b"table refused\n", Status::TableRefused)
}

/// Says that a limit on tables is passed. It takes no memory.
pub fn say_size_limit<O: Sink>(output: &mut O) -> Status
    ensures { IsSaid O.written O.faults size_limit output.old output.new result }
{
    say(output, b"size limit reached\n", Status::SizeLimit)
}

/// Says that the input failed. It takes no memory.
pub fn say_input_fault<O: Sink>(output: &mut O) -> Status
    ensures { IsSaid O.written O.faults input_fault output.old output.new result }
{
    say(output, b"input fault\n", Status::InputFault)
}
