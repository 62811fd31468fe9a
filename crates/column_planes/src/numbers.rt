//! The values of expressions at up to 64 positions, worked out by the operations on columns.

ghost use Rattle.std.specs.Prelude.{◌≡◌, ℕ, pos, ◌+◌, ◌*◌, ◌≤◌, ◌<◌, ◌<ℤ◌, true, false, length, get_or, IfSome};
ghost use Rattle.std.specs.Int.{int_rem_euclid};
ghost use Rattle.spec_model.specs.Values.{number_of};
ghost use Rattle.spec_model.specs.Syntax.{Variable, NextOf, Remainder};
ghost use Rattle.spec_model.specs.Views.{formula, domain_data};
ghost use Rattle.game_values.specs.Times.{time_of};
ghost use Rattle.column_planes.specs.Columns.{AreValuesOf, column_data, value_of_code};
ghost use Rattle.column_planes.specs.Numbers.{computed, computation};

use crate::coding::value_of;
use crate::columns::{Columns, first_place};
use game_values::seen::At;
use game_values::values::{number, value_or};
use spec_model::expr::Expr;
use spec_model::value::{Domain, Value};

/// An operation on two whole numbers.
#[derive(Clone, Copy)]
pub enum Operation {
    Sum,
    Difference,
    Product,
}

/// What an operation gives, if it is a number of the program.
fn computed_of(operation: Operation, a: i64, b: i64) -> Option<i64>
    ensures { IfSome result (λ z. z ≡ computed operation a b) }
{
    match operation {
        Operation::Sum => a.checked_add(b),
        Operation::Difference => a.checked_sub(b),
        Operation::Product => a.checked_mul(b),
    }
}

/// What an operation gives of the numbers of two values.
fn computed_value(operation: Operation, a: Value, b: Value) -> Option<Value>
    ensures { IfSome result (λ v. v ≡ Value.Int (computed operation (number_of a) (number_of b))) }
{
    let z = computed_of(operation, number(a), number(b))?;
    Some(Value::Int(z))
}

/// Writes one value everywhere.
fn write_same(value: Value, out: &mut [Value])
    ensures values { (i : ℕ) → i < length out.old → get_or out.new i (Value.Bool false) ≡ value }
    ensures lengths { length out.new ≡ length out.old }
{
    for i in 0..out.len() {
        out[i] = value;
    }
}

/// Writes the values that codes stand for.
fn write_values(domain: &Domain, codes: &[u16], out: &mut [Value]) -> bool
    requires lengths { length out.old ≡ length codes.now }
    ensures values { result ≡ true → (i : ℕ) → i < length out.old → get_or out.new i (Value.Bool false) ≡ value_of_code (domain_data domain.now) (get_or codes.now i 0) }
    ensures lengths { length out.new ≡ length out.old }
{
    for i in 0..codes.len() {
        let Some(value) = value_of(domain, codes[i]) else {
            return false;
        };
        out[i] = value;
    }
    true
}

/// Writes, in place of the values of a column, what an operation gives of their numbers and those of another column.
fn write_computed(operation: Operation, b: &[Value], out: &mut [Value]) -> bool
    ensures values { result ≡ true → (i : ℕ) → i < length out.old → get_or out.new i (Value.Bool false) ≡ Value.Int (computed operation (number_of (get_or out.old i (Value.Bool false))) (number_of (get_or b.now i (Value.Bool false)))) }
    ensures lengths { length out.new ≡ length out.old }
{
    for i in 0..out.len() {
        let Some(value) = computed_value(operation, value_or(out, i), value_or(b, i)) else {
            return false;
        };
        out[i] = value;
    }
    true
}

/// Writes the remainders of the numbers of a column in place of its values.
fn write_remainders(n: i64, out: &mut [Value])
    requires { pos 0 <ℤ n }
    ensures values { (i : ℕ) → i < length out.old → get_or out.new i (Value.Bool false) ≡ Value.Int (int_rem_euclid (number_of (get_or out.old i (Value.Bool false))) n) }
    ensures lengths { length out.new ≡ length out.old }
{
    for i in 0..out.len() {
        out[i] = Value::Int(number(value_or(out, i)).rem_euclid(n));
    }
}

/// The values of a variable, if it has a column.
fn variable_values(k: u32, at: At, c: Columns, from: usize, out: &mut [Value]) -> bool
    requires within { from + length out.old ≤ 4095 }
    ensures values { result ≡ true → AreValuesOf (column_data c.entry) (time_of at) from (Variable k) out.new }
    ensures lengths { length out.new ≡ length out.old }
{
    let start = 4_096 * (k as usize);
    if c.vars.len() <= k as usize || c.codes.len() < start + 4_096 {
        return false;
    }
    let first = start + from + first_place(at);
    let domain = &c.vars[k as usize].domain;
    write_values(domain, &c.codes[first..first + out.len()], out)
}

/// Writes the values of an expression at the positions from one on. False where they aren't worked out, as of an expression
/// that is deeper than so many levels; then what is written says nothing.
#[cycle(numbers)]
pub fn values(e: &Expr, at: At, c: Columns, from: usize, levels: usize, out: &mut [Value]) -> bool
    requires few { length out.old ≤ 64 }
    requires within { from + length out.old ≤ 4095 }
    ensures values { result ≡ true → AreValuesOf (column_data c.entry) (time_of at) from (formula e.now) out.new }
    ensures lengths { length out.new ≡ length out.old }
{
    if levels == 0 {
        return false;
    }
    match e {
        Expr::Const(v) => {
            write_same(*v, out);
            true
        }
        Expr::Var(k) => variable_values(*k, at, c, from, out),
        Expr::Next(a) => next_values(a, at, c, from, levels - 1, out),
        Expr::Add(a, b) => both_values(Operation::Sum, a, b, at, c, from, levels - 1, out),
        Expr::Sub(a, b) => both_values(Operation::Difference, a, b, at, c, from, levels - 1, out),
        Expr::Mul(a, b) => both_values(Operation::Product, a, b, at, c, from, levels - 1, out),
        Expr::Mod(a, n) => remainders(a, *n, at, c, from, levels - 1, out),
        Expr::Not(_)
        | Expr::And(_)
        | Expr::Or(_)
        | Expr::Implies(_, _)
        | Expr::Iff(_, _)
        | Expr::Cmp(_, _, _)
        | Expr::Past(_, _)
        | Expr::Table(_, _) => false,
    }
}

#[cycle(numbers)]
fn next_values(e: &Expr, at: At, c: Columns, from: usize, levels: usize, out: &mut [Value]) -> bool
    requires few { length out.old ≤ 64 }
    requires within { from + length out.old ≤ 4095 }
    ensures values { result ≡ true → AreValuesOf (column_data c.entry) (time_of at) from (NextOf (formula e.now)) out.new }
    ensures lengths { length out.new ≡ length out.old }
{
    match at {
        At::Now => values(e, At::Next, c, from, levels, out),
        At::Next => false,
    }
}

#[cycle(numbers)]
fn both_values(
    operation: Operation,
    a: &Expr,
    b: &Expr,
    at: At,
    c: Columns,
    from: usize,
    levels: usize,
    out: &mut [Value],
) -> bool
    requires few { length out.old ≤ 64 }
    requires within { from + length out.old ≤ 4095 }
    ensures values { result ≡ true → AreValuesOf (column_data c.entry) (time_of at) from (computation operation (formula a.now) (formula b.now)) out.new }
    ensures lengths { length out.new ≡ length out.old }
{
    let mut other = [Value::Bool(false); 64];
    let (second, _) = other.split_at_mut(out.len());
    if !values(a, at, c, from, levels, out) || !values(b, at, c, from, levels, second) {
        return false;
    }
    write_computed(operation, second, out)
}

#[cycle(numbers)]
fn remainders(
    e: &Expr,
    n: i64,
    at: At,
    c: Columns,
    from: usize,
    levels: usize,
    out: &mut [Value],
) -> bool
    requires few { length out.old ≤ 64 }
    requires within { from + length out.old ≤ 4095 }
    ensures values { result ≡ true → AreValuesOf (column_data c.entry) (time_of at) from (Remainder (formula e.now) n) out.new }
    ensures lengths { length out.new ≡ length out.old }
{
    if n <= 0 || !values(e, at, c, from, levels, out) {
        return false;
    }
    write_remainders(n, out);
    true
}
