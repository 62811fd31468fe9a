//! The planes of comparisons. A variable is compared with a value by its codes; other comparisons are worked out by the values of
//! both sides, 64 positions at a time.

ghost use Rattle.std.specs.Prelude.{◌≡◌, ℕ, ◌<◌, ◌≤◌, ◌+◌, ◌*◌, Bool, true, false, List, length, get_or, IfSome, if◌then◌else◌, min, ◌-◌};
ghost use Rattle.spec_model.specs.declared.value.Value.{Value};
ghost use Rattle.spec_model.specs.Syntax.{Variable, Constant, Comparison};
ghost use Rattle.spec_model.specs.Views.{formula};
ghost use Rattle.spec_model.specs.Meaning.{compare_values, value_at};
ghost use Rattle.game_values.specs.Times.{time_of};
ghost use Rattle.column_planes.specs.Columns.{ColumnData, AreWords, AreTruthsOf, HasBits, IsPlaneOf, column_data};

use crate::codes::equal_codes;
use crate::coding::only_code_of;
use crate::columns::Columns;
use crate::numbers::values;
use crate::planes::not_plane;
use crate::truths::code_plane;
use game_values::seen::At;
use game_values::values::{compares, value_or};
use spec_model::expr::{Compare, Expr};
use spec_model::value::Value;

/// The variable that an expression is, if it is one.
fn variable_of(e: &Expr) -> Option<u32>
    ensures { IfSome result (λ k. formula e.now ≡ Variable k) }
{
    match e {
        Expr::Var(k) => Some(*k),
        _ => None,
    }
}

/// The value that an expression is, if it is one.
fn constant_of(e: &Expr) -> Option<Value>
    ensures { IfSome result (λ v. formula e.now ≡ Constant v) }
{
    match e {
        Expr::Const(v) => Some(*v),
        _ => None,
    }
}

/// A variable, and at which of both moments it is read.
#[derive(Clone, Copy)]
struct Read {
    k: u32,
    at: At,
}

/// The variable under `next`, if it is one.
fn next_read(e: &Expr, at: At) -> Option<Read>
    ensures { IfSome result (λ s. (at ≡ At.Now) × (formula e.now ≡ Variable s.k) × (s.at ≡ At.Next)) }
{
    match at {
        At::Now => {
            let k = variable_of(e)?;
            Some(Read { k, at: At::Next })
        }
        At::Next => None,
    }
}

/// What an expression reads, if it is a variable or one under `next`.
fn read_of(e: &Expr, at: At) -> Option<Read>
    ensures { IfSome result (λ s. (cs : ColumnData) (bits : ℕ) (P : Value → Bool) (plane : List ℕ) →
        HasBits cs bits (time_of s.at) (λ r t. P (r.variable s.k t)) plane → HasBits cs bits (time_of at) (λ r t. P (value_at r (formula e.now) t)) plane) }
{
    match e {
        Expr::Var(k) => Some(Read { k: *k, at }),
        Expr::Next(a) => next_read(a, at),
        _ => None,
    }
}

/// Writes where a variable has a value, by its codes.
fn equal_plane(a: &Expr, b: &Expr, at: At, c: Columns, out: &mut [u64]) -> bool
    requires words { AreWords c.bits (length out.old) }
    ensures plane { result ≡ true → IsPlaneOf (column_data c.entry) c.entry.bits (time_of at) (Comparison Compare.Eq (formula a.now) (formula b.now)) out.new }
    ensures lengths { length out.new ≡ length out.old }
{
    let Some(read) = read_of(a, at) else {
        return false;
    };
    let Some(value) = constant_of(b) else {
        return false;
    };
    let Some(code) = only_code_of(c.vars, read.k as usize, value) else {
        return false;
    };
    code_plane(read.k, code, read.at, c, out)
}

/// Writes where a variable has another value, by its codes.
fn different_plane(
    a: &Expr,
    b: &Expr,
    at: At,
    c: Columns,
    room: &mut [u64],
    out: &mut [u64],
) -> bool
    requires words { AreWords c.bits (length out.old) }
    ensures plane { result ≡ true → IsPlaneOf (column_data c.entry) c.entry.bits (time_of at) (Comparison Compare.Ne (formula a.now) (formula b.now)) out.new }
    ensures lengths { length out.new ≡ length out.old }
    ensures room { length room.new ≡ length room.old }
{
    if room.len() < out.len() {
        return false;
    }
    let (one, _) = room.split_at_mut(out.len());
    if !equal_plane(a, b, at, c, one) {
        return false;
    }
    not_plane(one, out);
    true
}

/// Writes 1 where two values compare so, from a position on.
fn write_compared(how: Compare, a: &[Value], b: &[Value], from: usize, codes: &mut [u16])
    requires room { from + length a.now ≤ length codes.old }
    ensures before { (j : ℕ) → j < from → get_or codes.new j 0 ≡ get_or codes.old j 0 }
    ensures there { (i : ℕ) → i < length a.now → get_or codes.new (from + i) 0 ≡ (if compare_values how (get_or a.now i (Value.Bool false)) (get_or b.now i (Value.Bool false)) then 1 else 0) }
    ensures lengths { length codes.new ≡ length codes.old }
{
    for i in 0..a.len() {
        codes[from + i] = u16::from(compares(how, value_or(a, i), value_or(b, i)));
    }
}

// How deep an expression may be whose values are worked out by columns: each level takes a column of the stack.
const LEVELS: usize = 64;

/// Writes where a comparison holds at the next 64 positions, or those that are left.
fn compare_more(
    how: Compare,
    a: &Expr,
    b: &Expr,
    at: At,
    c: Columns,
    from: usize,
    codes: &mut [u16],
) -> bool
    requires within { (from ≤ length codes.old) × (length codes.old ≤ 4095) }
    requires before { AreTruthsOf (column_data c) (time_of at) from (Comparison how (formula a.now) (formula b.now)) codes.old }
    ensures more { result ≡ true → AreTruthsOf (column_data c.entry) (time_of at) (min (from + 64) (length codes.old)) (Comparison how (formula a.now) (formula b.now)) codes.new }
    ensures lengths { length codes.new ≡ length codes.old }
{
    let n = (codes.len() - from).min(64);
    let mut one = [Value::Bool(false); 64];
    let mut two = [Value::Bool(false); 64];
    let (first, _) = one.split_at_mut(n);
    let (second, _) = two.split_at_mut(n);
    if !values(a, at, c, from, LEVELS, first) || !values(b, at, c, from, LEVELS, second) {
        return false;
    }
    write_compared(how, first, second, from, codes);
    true
}

/// Writes where a comparison holds.
fn compare_all(how: Compare, a: &Expr, b: &Expr, at: At, c: Columns, codes: &mut [u16]) -> bool
    requires within { length codes.old ≤ 4095 }
    ensures truths { result ≡ true → AreTruthsOf (column_data c.entry) (time_of at) (length codes.old) (Comparison how (formula a.now) (formula b.now)) codes.new }
    ensures lengths { length codes.new ≡ length codes.old }
{
    let blocks = codes.len() / 64 + 1;
    for k in 0..blocks {
        if !compare_more(how, a, b, at, c, (64 * k).min(codes.len()), codes) {
            return false;
        }
    }
    true
}

/// Writes the plane of a comparison by the values of both sides.
fn plane_by_values(how: Compare, a: &Expr, b: &Expr, at: At, c: Columns, out: &mut [u64]) -> bool
    requires words { AreWords c.bits (length out.old) }
    ensures plane { result ≡ true → IsPlaneOf (column_data c.entry) c.entry.bits (time_of at) (Comparison how (formula a.now) (formula b.now)) out.new }
    ensures lengths { length out.new ≡ length out.old }
{
    if 4_095 < c.bits {
        return false;
    }
    let mut truths = [0_u16; 4_096];
    let (codes, _) = truths.split_at_mut(c.bits);
    if !compare_all(how, a, b, at, c, codes) {
        return false;
    }
    equal_codes(codes, 1, out);
    true
}

/// Writes the plane of a comparison of a variable with a value, by its codes.
fn plane_by_codes(
    how: Compare,
    a: &Expr,
    b: &Expr,
    at: At,
    c: Columns,
    room: &mut [u64],
    out: &mut [u64],
) -> bool
    requires words { AreWords c.bits (length out.old) }
    ensures plane { result ≡ true → IsPlaneOf (column_data c.entry) c.entry.bits (time_of at) (Comparison how (formula a.now) (formula b.now)) out.new }
    ensures lengths { length out.new ≡ length out.old }
    ensures room { length room.new ≡ length room.old }
{
    match how {
        Compare::Eq => equal_plane(a, b, at, c, out),
        Compare::Ne => different_plane(a, b, at, c, room, out),
        Compare::Lt | Compare::Le | Compare::Gt | Compare::Ge => false,
    }
}

/// Writes the plane of a comparison. False where it isn't read by planes; then what is written says nothing.
pub fn comparison(
    how: Compare,
    a: &Expr,
    b: &Expr,
    at: At,
    c: Columns,
    room: &mut [u64],
    out: &mut [u64],
) -> bool
    requires words { AreWords c.bits (length out.old) }
    ensures plane { result ≡ true → IsPlaneOf (column_data c.entry) c.entry.bits (time_of at) (Comparison how (formula a.now) (formula b.now)) out.new }
    ensures lengths { length out.new ≡ length out.old }
    ensures room { length room.new ≡ length room.old }
{
    if plane_by_codes(how, a, b, at, c, room, out) {
        return true;
    }
    plane_by_values(how, a, b, at, c, out)
}
