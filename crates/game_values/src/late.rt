//! When lines are judged: which read a next value, and which assumptions wait for the output.

ghost use Rattle.std.specs.Prelude.{◌≡◌, ◌*◌, ◌<◌, ◌&&◌, ◌||◌, map, get_or, false, true, [], IfOk};
ghost use Rattle.std.specs.List.{list_any};
ghost use Rattle.spec_model.specs.Views.{formula, variable_data};
ghost use Rattle.spec_model.specs.GameViews.{hidden_data};
ghost use Rattle.spec_model.specs.Moves.{has_next, some_has_next};
ghost use Rattle.spec_model.specs.Steps.{is_output_variable, reads_output, some_reads_output, varies, reads_letter, tables_reading_output};
ghost use Rattle.game_values.specs.Safety.{formulas_in};
ghost use Rattle.game_values.specs.Whole.{IsWhole, AreWhole};

use crate::cells::{bit_in, letters};
use spec_model::expr::Expr;
use spec_model::game::Hidden;
use spec_model::value::{Owner, Var};
use std::alloc::{AllocError, Global};

/// Whether an expression reads a next value.
#[cycle(nexts)]
pub fn reads_next(e: &Expr) -> bool
    ensures { result ≡ has_next (formula e.now) }
{
    match e {
        Expr::Const(_) | Expr::Var(_) | Expr::Table(_, _) => false,
        Expr::Next(_) => true,
        Expr::Not(a) => reads_next(a),
        Expr::Mod(a, _) => reads_next(a),
        Expr::And(es) => some_reads_next(es),
        Expr::Or(es) => some_reads_next(es),
        Expr::Past(_, es) => some_reads_next(es),
        Expr::Implies(a, b) => reads_next(a) || reads_next(b),
        Expr::Iff(a, b) => reads_next(a) || reads_next(b),
        Expr::Cmp(_, a, b) => reads_next(a) || reads_next(b),
        Expr::Add(a, b) => reads_next(a) || reads_next(b),
        Expr::Sub(a, b) => reads_next(a) || reads_next(b),
        Expr::Mul(a, b) => reads_next(a) || reads_next(b),
    }
}

#[cycle(nexts)]
fn some_reads_next(es: &[Expr]) -> bool
    ensures { result ≡ some_has_next (formulas_in es.now) }
{
    for e in es {
        if reads_next(e) {
            return true;
        }
    }
    false
}

fn is_output(vars: &[Var], k: usize) -> bool
    ensures { result ≡ is_output_variable (map variable_data vars.now) k }
{
    k < vars.len() && vars[k].owner == Owner::Sys
}

fn flag(flags: &[bool], k: usize) -> bool
    ensures { result ≡ get_or flags.now k false }
{
    k < flags.len() && flags[k]
}

/// Whether an expression reads an output at present, where these tables do.
#[cycle(outputs)]
fn reads_out(e: &Expr, vars: &[Var], tables: &[bool]) -> bool
    ensures { result ≡ reads_output (map variable_data vars.now) tables.now (formula e.now) }
{
    match e {
        Expr::Const(_) | Expr::Next(_) => false,
        Expr::Var(k) => is_output(vars, *k as usize),
        Expr::Table(h, _) => flag(tables, *h as usize),
        Expr::Not(a) => reads_out(a, vars, tables),
        Expr::Mod(a, _) => reads_out(a, vars, tables),
        Expr::And(es) => some_reads_out(es, vars, tables),
        Expr::Or(es) => some_reads_out(es, vars, tables),
        Expr::Past(_, es) => some_reads_out(es, vars, tables),
        Expr::Implies(a, b) => reads_out(a, vars, tables) || reads_out(b, vars, tables),
        Expr::Iff(a, b) => reads_out(a, vars, tables) || reads_out(b, vars, tables),
        Expr::Cmp(_, a, b) => reads_out(a, vars, tables) || reads_out(b, vars, tables),
        Expr::Add(a, b) => reads_out(a, vars, tables) || reads_out(b, vars, tables),
        Expr::Sub(a, b) => reads_out(a, vars, tables) || reads_out(b, vars, tables),
        Expr::Mul(a, b) => reads_out(a, vars, tables) || reads_out(b, vars, tables),
    }
}

#[cycle(outputs)]
fn some_reads_out(es: &[Expr], vars: &[Var], tables: &[bool]) -> bool
    ensures { result ≡ some_reads_output (map variable_data vars.now) tables.now (formulas_in es.now) }
{
    for e in es {
        if reads_out(e, vars, tables) {
            return true;
        }
    }
    false
}

/// Whether some of several atoms reads an output at present.
fn some_atom_reads_out(es: &[Expr], vars: &[Var], tables: &[bool]) -> bool
    ensures { result ≡ list_any (reads_output (map variable_data vars.now) tables.now) (map formula es.now) }
{
    for e in es {
        if reads_out(e, vars, tables) {
            return true;
        }
    }
    false
}

/// Whether some entry differs from the one of letter 0 at the same value.
fn table_varies(letters: usize, table: &[bool]) -> bool
    requires { 0 < letters }
    ensures { result ≡ varies letters table.now }
{
    for cell in 0..table.len() {
        if bit_in(table, cell) != bit_in(table, cell - cell % letters) {
            return true;
        }
    }
    false
}

fn some_table_varies(letters: usize, tables: &[Vec<bool>]) -> bool
    requires { 0 < letters }
    ensures { result ≡ list_any (varies letters) (map (λ t. t.items) tables.now) }
{
    for table in tables {
        if table_varies(letters, table) {
            return true;
        }
    }
    false
}

/// Whether a table's entries depend on its letter.
fn depends_on_letter(h: &Hidden) -> bool
    requires { IsWhole h.now }
    ensures { result ≡ reads_letter (hidden_data h.now) }
{
    some_table_varies(letters(h), &h.tables)
}

/// Which tables read an output at present, in order.
fn tables_out(alloc: Global, vars: &[Var], hidden: &[Hidden]) -> Result<Vec<bool>, AllocError>
    requires { AreWhole hidden.now }
    ensures { IfOk result (λ flags. flags.items ≡ tables_reading_output (map variable_data vars.now) [] (map hidden_data hidden.now)) }
{
    let mut flags = Vec::new(alloc);
    for h in hidden {
        let reads = depends_on_letter(h) && some_atom_reads_out(&h.atoms, vars, &flags);
        flags.push(reads)?;
    }
    Ok(flags)
}

/// Which safety assumptions wait for the output.
pub fn waits(
    alloc: Global,
    lines: &[(u32, Expr)],
    vars: &[Var],
    hidden: &[Hidden],
) -> Result<Vec<bool>, AllocError>
    requires { AreWhole hidden.now }
    ensures { IfOk result (λ flags. flags.items ≡ map (λ l. has_next (formula l.1) || reads_output (map variable_data vars.now) (tables_reading_output (map variable_data vars.now) [] (map hidden_data hidden.now)) (formula l.1)) lines.now) }
{
    let tables = tables_out(alloc, vars, hidden)?;
    let mut flags = Vec::new(alloc);
    for line in lines {
        flags.push(reads_next(&line.1) || reads_out(&line.1, vars, &tables))?;
    }
    Ok(flags)
}

/// Which lines read a next value.
pub fn nexts(alloc: Global, lines: &[(u32, Expr)]) -> Result<Vec<bool>, AllocError>
    ensures { IfOk result (λ flags. flags.items ≡ map (λ l. has_next (formula l.1)) lines.now) }
{
    let mut flags = Vec::new(alloc);
    for line in lines {
        flags.push(reads_next(&line.1))?;
    }
    Ok(flags)
}
