//! Whether the tabulated moves lead into a row.

ghost use Rattle.std.specs.Prelude.{◌≡◌, map, option_map, IfOk};
ghost use Rattle.std.specs.List.{list_all, list_any};
ghost use Rattle.region_rows.specs.Rows.{bit_of, Shows};
ghost use Rattle.region_rows.specs.Into.{leads, stays, system_into, environment_into};

use crate::row::{self, Row};
use std::alloc::{AllocError, Global};

pub fn leads_into(answer: Option<usize>, t: &Row) -> bool
    ensures { result ≡ leads (bit_of t.now) answer }
{
    match answer {
        None => false,
        Some(k) => t.has(k),
    }
}

fn stays_in(answer: Option<usize>, t: &Row) -> bool
    ensures { result ≡ stays (bit_of t.now) answer }
{
    match answer {
        None => true,
        Some(k) => t.has(k),
    }
}

fn some_leads(answers: &[Option<usize>], t: &Row) -> bool
    ensures { result ≡ list_any (leads (bit_of t.now)) answers.now }
{
    for k in 0..answers.len() {
        if leads_into(answers[k], t) {
            return true;
        }
    }
    false
}

pub fn all_stay(answers: &[Option<usize>], t: &Row) -> bool
    ensures { result ≡ list_all (stays (bit_of t.now)) answers.now }
{
    for k in 0..answers.len() {
        if !stays_in(answers[k], t) {
            return false;
        }
    }
    true
}

/// Whether every legal input has a legal output into the row.
pub fn system_forces(moves: &[Option<Vec<Option<usize>>>], t: &Row) -> bool
    ensures { result ≡ list_all (system_into (bit_of t.now)) (map (option_map (λ a. a.items)) moves.now) }
{
    for answers in moves {
        if let Some(answers) = answers {
            if !some_leads(answers, t) {
                return false;
            }
        }
    }
    true
}

/// Whether some legal input has all its legal outputs in the row.
pub fn environment_forces(moves: &[Option<Vec<Option<usize>>>], t: &Row) -> bool
    ensures { result ≡ list_any (environment_into (bit_of t.now)) (map (option_map (λ a. a.items)) moves.now) }
{
    for answers in moves {
        if let Some(answers) = answers {
            if all_stay(answers, t) {
                return true;
            }
        }
    }
    false
}

/// The states from which the system forces the row.
pub fn system_row(
    alloc: Global,
    later: &[Vec<Option<Vec<Option<usize>>>>],
    t: &Row,
) -> Result<Row, AllocError>
    ensures { IfOk result (λ row. Shows row (map (list_all (system_into (bit_of t.now))) (map (λ v. map (option_map (λ a. a.items)) v.items) later.now))) }
{
    let bits = system_bits(alloc, later, t)?;
    row::packed(alloc, &bits)
}

fn system_bits(
    alloc: Global,
    later: &[Vec<Option<Vec<Option<usize>>>>],
    t: &Row,
) -> Result<Vec<bool>, AllocError>
    ensures { IfOk result (λ bits. bits.items ≡ map (list_all (system_into (bit_of t.now))) (map (λ v. map (option_map (λ a. a.items)) v.items) later.now)) }
{
    let mut bits = Vec::new(alloc);
    for moves in later {
        bits.push(system_forces(moves, t))?;
    }
    Ok(bits)
}

/// The states from which the environment forces the row.
pub fn environment_row(
    alloc: Global,
    later: &[Vec<Option<Vec<Option<usize>>>>],
    t: &Row,
) -> Result<Row, AllocError>
    ensures { IfOk result (λ row. Shows row (map (list_any (environment_into (bit_of t.now))) (map (λ v. map (option_map (λ a. a.items)) v.items) later.now))) }
{
    let bits = environment_bits(alloc, later, t)?;
    row::packed(alloc, &bits)
}

fn environment_bits(
    alloc: Global,
    later: &[Vec<Option<Vec<Option<usize>>>>],
    t: &Row,
) -> Result<Vec<bool>, AllocError>
    ensures { IfOk result (λ bits. bits.items ≡ map (list_any (environment_into (bit_of t.now))) (map (λ v. map (option_map (λ a. a.items)) v.items) later.now)) }
{
    let mut bits = Vec::new(alloc);
    for moves in later {
        bits.push(environment_forces(moves, t))?;
    }
    Ok(bits)
}
