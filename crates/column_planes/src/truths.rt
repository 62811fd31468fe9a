//! Where expressions hold, worked out on planes: bit j is for the move from position j to the next one.

ghost use Rattle.std.specs.Prelude.{◌≡◌, Bool, ◌==◌, ℕ, ◌*◌, ◌+◌, ◌<◌, ◌||◌, true, length};
ghost use Rattle.std.specs.Int.{bit_at};
ghost use Rattle.std.specs.List.{list_all, list_any};
ghost use Rattle.spec_model.specs.Syntax.{Variable, NextOf, Negation, Implication, Equivalence};
ghost use Rattle.spec_model.specs.Views.{formula};
ghost use Rattle.spec_model.specs.Meaning.{truths_at};
ghost use Rattle.game_values.specs.Safety.{formulas_in};
ghost use Rattle.game_values.specs.Times.{time_of};
ghost use Rattle.column_planes.specs.Planes.{bit_in};
ghost use Rattle.column_planes.specs.Columns.{AreWords, HasBits, IsPlaneOf, column_data, value_of_code, domain_in};

use crate::codes::equal_codes;
use crate::coding::is_truth;
use crate::columns::{Columns, first_place};
use crate::compared::comparison;
use crate::entries::entry_plane;
use crate::planes::{and_planes, not_plane, or_planes};
use game_values::seen::At;
use game_values::values::truth;
use spec_model::expr::Expr;
use spec_model::value::Value;

/// The word of one bit.
fn word_of(b: bool) -> u64
    ensures { (i : ℕ) → i < 64 → (bit_at result i == 1) ≡ b }
{
    if b { u64::MAX } else { 0 }
}

/// Writes a plane of one bit.
pub fn write_all(b: bool, out: &mut [u64])
    ensures bits { (j : ℕ) → j < 64 * length out.old → bit_in out.new j ≡ b }
    ensures lengths { length out.new ≡ length out.old }
{
    let word = word_of(b);
    for k in 0..out.len() {
        out[k] = word;
    }
}

/// Writes where a variable has a code, if it has a column.
pub fn code_plane(k: u32, code: u16, at: At, c: Columns, out: &mut [u64]) -> bool
    requires words { AreWords c.bits (length out.old) }
    ensures plane { result ≡ true → (P : Value → Bool) → ((n : ℕ) → (n == code) ≡ P (value_of_code (domain_in (column_data c.entry).variables k) n)) →
        HasBits (column_data c.entry) c.entry.bits (time_of at) (λ r t. P (r.variable k t)) out.new }
    ensures lengths { length out.new ≡ length out.old }
{
    let start = 4_096 * (k as usize);
    let from = start + first_place(at);
    if c.vars.len() <= k as usize || c.codes.len() < start + 4_096 || 4_095 < c.bits {
        return false;
    }
    equal_codes(&c.codes[from..from + c.bits], code, out);
    true
}

/// The plane of a variable, if it has truth values and a column.
fn variable_plane(k: u32, at: At, c: Columns, out: &mut [u64]) -> bool
    requires words { AreWords c.bits (length out.old) }
    ensures plane { result ≡ true → IsPlaneOf (column_data c.entry) c.entry.bits (time_of at) (Variable k) out.new }
    ensures lengths { length out.new ≡ length out.old }
{
    if !is_truth(c.vars, k as usize) {
        return false;
    }
    code_plane(k, 1, at, c, out)
}

/// Writes the plane of an expression. False where it isn't read by planes; then what is written says nothing.
#[cycle(truths)]
pub fn plane(e: &Expr, at: At, c: Columns, room: &mut [u64], out: &mut [u64]) -> bool
    requires words { AreWords c.bits (length out.old) }
    ensures plane { result ≡ true → IsPlaneOf (column_data c.entry) c.entry.bits (time_of at) (formula e.now) out.new }
    ensures lengths { length out.new ≡ length out.old }
    ensures room { length room.new ≡ length room.old }
{
    match e {
        Expr::Const(v) => {
            write_all(truth(*v), out);
            true
        }
        Expr::Var(k) => variable_plane(*k, at, c, out),
        Expr::Next(a) => next_plane(a, at, c, room, out),
        Expr::Not(a) => negation(a, at, c, room, out),
        Expr::And(es) => all_hold(es, at, c, room, out),
        Expr::Or(es) => some_hold(es, at, c, room, out),
        Expr::Implies(a, b) => implication(a, b, at, c, room, out),
        Expr::Iff(a, b) => equivalence(a, b, at, c, room, out),
        Expr::Cmp(how, a, b) => comparison(*how, a, b, at, c, room, out),
        Expr::Add(_, _) | Expr::Sub(_, _) | Expr::Mul(_, _) | Expr::Mod(_, _) | Expr::Past(_, _) =>
            false,
        Expr::Table(table, part) => entry_plane(*table, *part, at, c, out),
    }
}

#[cycle(truths)]
fn next_plane(e: &Expr, at: At, c: Columns, room: &mut [u64], out: &mut [u64]) -> bool
    requires words { AreWords c.bits (length out.old) }
    ensures plane { result ≡ true → IsPlaneOf (column_data c.entry) c.entry.bits (time_of at) (NextOf (formula e.now)) out.new }
    ensures lengths { length out.new ≡ length out.old }
    ensures room { length room.new ≡ length room.old }
{
    match at {
        At::Now => plane(e, At::Next, c, room, out),
        At::Next => false,
    }
}

#[cycle(truths)]
fn negation(e: &Expr, at: At, c: Columns, room: &mut [u64], out: &mut [u64]) -> bool
    requires words { AreWords c.bits (length out.old) }
    ensures plane { result ≡ true → IsPlaneOf (column_data c.entry) c.entry.bits (time_of at) (Negation (formula e.now)) out.new }
    ensures lengths { length out.new ≡ length out.old }
    ensures room { length room.new ≡ length room.old }
{
    if room.len() < out.len() {
        return false;
    }
    let (one, rest) = room.split_at_mut(out.len());
    if !plane(e, at, c, rest, one) {
        return false;
    }
    not_plane(one, out);
    true
}

#[cycle(truths)]
fn implication(a: &Expr, b: &Expr, at: At, c: Columns, room: &mut [u64], out: &mut [u64]) -> bool
    requires words { AreWords c.bits (length out.old) }
    ensures plane { result ≡ true → IsPlaneOf (column_data c.entry) c.entry.bits (time_of at) (Implication (formula a.now) (formula b.now)) out.new }
    ensures lengths { length out.new ≡ length out.old }
    ensures room { length room.new ≡ length room.old }
{
    if room.len() < out.len() || room.len() - out.len() < out.len() {
        return false;
    }
    let (one, rest) = room.split_at_mut(out.len());
    let (two, rest) = rest.split_at_mut(out.len());
    if !plane(a, at, c, rest, one) || !plane(b, at, c, rest, two) {
        return false;
    }
    not_plane(one, out);
    or_planes(out, two, one);
    out.copy_from_slice(one);
    true
}

#[cycle(truths)]
fn equivalence(a: &Expr, b: &Expr, at: At, c: Columns, room: &mut [u64], out: &mut [u64]) -> bool
    requires words { AreWords c.bits (length out.old) }
    ensures plane { result ≡ true → IsPlaneOf (column_data c.entry) c.entry.bits (time_of at) (Equivalence (formula a.now) (formula b.now)) out.new }
    ensures lengths { length out.new ≡ length out.old }
    ensures room { length room.new ≡ length room.old }
{
    if room.len() < out.len() || room.len() - out.len() < out.len() {
        return false;
    }
    let (one, rest) = room.split_at_mut(out.len());
    let (two, rest) = rest.split_at_mut(out.len());
    if rest.len() < out.len() {
        return false;
    }
    let (both, rest) = rest.split_at_mut(out.len());
    if !plane(a, at, c, rest, one) || !plane(b, at, c, rest, two) {
        return false;
    }
    and_planes(one, two, both);
    or_planes(one, two, out);
    not_plane(out, one);
    or_planes(both, one, out);
    true
}

#[cycle(truths)]
fn all_hold(es: &[Expr], at: At, c: Columns, room: &mut [u64], out: &mut [u64]) -> bool
    requires words { AreWords c.bits (length out.old) }
    ensures plane { result ≡ true → HasBits (column_data c.entry) c.entry.bits (time_of at) (λ r t. list_all (λ a. a t) (truths_at r (formulas_in es.now))) out.new }
    ensures lengths { length out.new ≡ length out.old }
    ensures room { length room.new ≡ length room.old }
{
    if room.len() < out.len() || room.len() - out.len() < out.len() {
        return false;
    }
    let (one, rest) = room.split_at_mut(out.len());
    let (both, rest) = rest.split_at_mut(out.len());
    write_all(true, out);
    for e in es {
        if !plane(e, at, c, rest, one) {
            return false;
        }
        and_planes(out, one, both);
        out.copy_from_slice(both);
    }
    true
}

#[cycle(truths)]
fn some_hold(es: &[Expr], at: At, c: Columns, room: &mut [u64], out: &mut [u64]) -> bool
    requires words { AreWords c.bits (length out.old) }
    ensures plane { result ≡ true → HasBits (column_data c.entry) c.entry.bits (time_of at) (λ r t. list_any (λ a. a t) (truths_at r (formulas_in es.now))) out.new }
    ensures lengths { length out.new ≡ length out.old }
    ensures room { length room.new ≡ length room.old }
{
    if room.len() < out.len() || room.len() - out.len() < out.len() {
        return false;
    }
    let (one, rest) = room.split_at_mut(out.len());
    let (both, rest) = rest.split_at_mut(out.len());
    write_all(false, out);
    for e in es {
        if !plane(e, at, c, rest, one) {
            return false;
        }
        or_planes(out, one, both);
        out.copy_from_slice(both);
    }
    true
}
