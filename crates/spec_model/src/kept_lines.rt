//! The lines of a specification that stay where some of its guarantees are kept.

ghost use Rattle.std.specs.Prelude.{◌≡◌, ℕ, List, nat_eq, nat_le, not, map, filter, fold, max, IfOk, IsTrue};
ghost use Rattle.std.specs.List.{list_all};
ghost use Rattle.std.specs.HashSet.{contains};
ghost use Rattle.spec_model.specs.Views.{line_data};
ghost use Rattle.spec_model.specs.Moves.{is_guarantee};
ghost use Rattle.spec_model.specs.Cores.{is_in, stays, forced_line as forced_line_lem, forced_lines};

use crate::copy_lines::copy_line;
use crate::expr::Expr;
use crate::spec::{Body, Line, Role};
use crate::value::Value;
use std::alloc::{AllocError, Global};
use std::collections::HashSet;

// The numbers of a list as a set, so that a line's number is found at once in any list.
fn set_of(alloc: Global, numbers: &[u32]) -> Result<HashSet<u32>, AllocError>
    ensures { IfOk result (λ set. (n : ℕ) → contains nat_eq set n ≡ is_in numbers.now n) }
{
    let mut set = HashSet::new(alloc);
    for n in numbers {
        set.insert(*n)?;
    }
    Ok(set)
}

// Whether a line stays where these guarantees alone are kept.
fn line_stays(kept: &HashSet<u32>, line: &Line) -> bool
    ensures { (numbers : List ℕ) → ((n : ℕ) → contains nat_eq kept.now n ≡ is_in numbers n) → result ≡ stays numbers (line_data line.now) }
{
    match line.role {
        Role::Guarantee => kept.contains(&line.number),
        Role::Assumption | Role::Monitor => true,
    }
}

/// Copies of the lines that stay where the guarantees with these numbers alone are kept. The numbers may stand in any order.
pub fn copy_kept_lines(alloc: Global, lines: &[Line], kept: &[u32]) -> Result<Vec<Line>, AllocError>
    ensures { IfOk result (λ copies. map line_data copies.items ≡ filter (stays kept.now) (map line_data lines.now)) }
{
    let set = set_of(alloc, kept)?;
    let mut copies = Vec::new(alloc);
    for line in lines {
        if line_stays(&set, line) {
            copies.push(copy_line(alloc, line)?)?;
        }
    }
    Ok(copies)
}

// The greatest number of a line, or 0.
fn greatest_number(lines: &[Line]) -> u32
    ensures { result ≡ fold max 0 (map (λ l. l.number) (map line_data lines.now)) }
{
    let mut greatest = 0u32;
    for line in lines {
        greatest = greatest.max(line.number);
    }
    greatest
}

// Copies of the lines that are no guarantees.
fn copy_other_lines(alloc: Global, lines: &[Line]) -> Result<Vec<Line>, AllocError>
    ensures { IfOk result (λ copies. map line_data copies.items ≡ filter (λ l. not (is_guarantee l.role)) (map line_data lines.now)) }
{
    let mut copies = Vec::new(alloc);
    for line in lines {
        match line.role {
            Role::Guarantee => {}
            Role::Assumption | Role::Monitor => copies.push(copy_line(alloc, line)?)?,
        }
    }
    Ok(copies)
}

// A guarantee that can never be met, with the number after the greatest.
fn forced_line(lines: &[Line]) -> Line
    requires room { IsTrue (list_all (λ l. nat_le l.number 4096) (map line_data lines.now)) }
    ensures { line_data result ≡ forced_line_lem (map line_data lines.now) }
{
    Line {
        number: 1 + greatest_number(lines),
        name: None,
        role: Role::Guarantee,
        body: Body::Recurring(Expr::Const(Value::Bool(false))),
    }
}

/// Copies of the lines that are no guarantees, and one guarantee that can never be met, with the number after the greatest.
pub fn copy_forced_lines(alloc: Global, lines: &[Line]) -> Result<Vec<Line>, AllocError>
    requires room { IsTrue (list_all (λ l. nat_le l.number 4096) (map line_data lines.now)) }
    ensures { IfOk result (λ copies. map line_data copies.items ≡ forced_lines (map line_data lines.now)) }
{
    let mut copies = copy_other_lines(alloc, lines)?;
    copies.push(forced_line(lines))?;
    Ok(copies)
}
