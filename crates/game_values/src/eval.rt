//! The value of an expression, as what is seen has its variables and entries.

ghost use Rattle.std.specs.Prelude.{◌≡◌, ◌^◌, ◌<◌, length, map, false};
ghost use Rattle.std.specs.List.{list_all, list_any};
ghost use Rattle.spec_model.specs.Syntax.{NextOf};
ghost use Rattle.spec_model.specs.Views.{formula};
ghost use Rattle.spec_model.specs.Values.{number_of};
ghost use Rattle.spec_model.specs.Meaning.{value_at, holds_at, truths_at};
ghost use Rattle.spec_model.specs.Games.{letter_of};
ghost use Rattle.game_values.specs.Times.{time_of};
ghost use Rattle.game_values.specs.Safety.{IsSafe, AreSafe, formulas_in};
ghost use Rattle.game_values.specs.Found.{CanRead, cell_at};

use crate::cells::{bit, entry_in, letters};
use crate::seen::{At, Found, Seen};
use crate::values::{compares, number, truth};
use spec_model::expr::Expr;
use spec_model::game::Hidden;
use spec_model::value::Value;

/// The value of an expression.
#[cycle(eval)]
pub fn value<S: Seen>(e: &Expr, s: &S, at: At) -> Value
    requires { IsSafe (S.reading s.now) (formula e.now) (time_of at) }
    ensures { result ≡ value_at (S.reading s.now) (formula e.now) (time_of at) }
{
    match e {
        Expr::Const(v) => *v,
        Expr::Var(k) => s.variable(at, *k as usize),
        Expr::Next(a) => next_value(a, s, at),
        Expr::Not(a) => Value::Bool(!holds(a, s, at)),
        Expr::And(es) => Value::Bool(all_hold(es, s, at)),
        Expr::Or(es) => Value::Bool(some_hold(es, s, at)),
        Expr::Implies(a, b) => Value::Bool(!holds(a, s, at) || holds(b, s, at)),
        Expr::Iff(a, b) => Value::Bool(holds(a, s, at) == holds(b, s, at)),
        Expr::Cmp(c, a, b) => Value::Bool(compares(*c, value(a, s, at), value(b, s, at))),
        Expr::Add(a, b) => Value::Int(whole(a, s, at) + whole(b, s, at)),
        Expr::Sub(a, b) => Value::Int(whole(a, s, at) - whole(b, s, at)),
        Expr::Mul(a, b) => Value::Int(whole(a, s, at) * whole(b, s, at)),
        Expr::Mod(a, n) => Value::Int(whole(a, s, at).rem_euclid(*n)),
        Expr::Past(_, _) => unreachable!(),
        Expr::Table(h, n) => Value::Bool(entry(s, at, *h as usize, *n as usize)),
    }
}

#[cycle(eval)]
fn next_value<S: Seen>(e: &Expr, s: &S, at: At) -> Value
    requires { IsSafe (S.reading s.now) (NextOf (formula e.now)) (time_of at) }
    ensures { result ≡ value_at (S.reading s.now) (NextOf (formula e.now)) (time_of at) }
{
    match at {
        At::Now => value(e, s, At::Next),
        At::Next => unreachable!(),
    }
}

#[cycle(eval)]
fn whole<S: Seen>(e: &Expr, s: &S, at: At) -> i64
    requires { IsSafe (S.reading s.now) (formula e.now) (time_of at) }
    ensures { result ≡ number_of (value_at (S.reading s.now) (formula e.now) (time_of at)) }
{
    number(value(e, s, at))
}

/// Whether an expression holds.
#[cycle(eval)]
pub fn holds<S: Seen>(e: &Expr, s: &S, at: At) -> bool
    requires { IsSafe (S.reading s.now) (formula e.now) (time_of at) }
    ensures { result ≡ holds_at (S.reading s.now) (formula e.now) (time_of at) }
{
    truth(value(e, s, at))
}

#[cycle(eval)]
fn all_hold<S: Seen>(es: &[Expr], s: &S, at: At) -> bool
    requires { AreSafe (S.reading s.now) (formulas_in es.now) (time_of at) }
    ensures { result ≡ list_all (λ a. a (time_of at)) (truths_at (S.reading s.now) (formulas_in es.now)) }
{
    for e in es {
        if !holds(e, s, at) {
            return false;
        }
    }
    true
}

#[cycle(eval)]
fn some_hold<S: Seen>(es: &[Expr], s: &S, at: At) -> bool
    requires { AreSafe (S.reading s.now) (formulas_in es.now) (time_of at) }
    ensures { result ≡ list_any (λ a. a (time_of at)) (truths_at (S.reading s.now) (formulas_in es.now)) }
{
    for e in es {
        if holds(e, s, at) {
            return true;
        }
    }
    false
}

/// An entry of a hidden table. Tables that entries are found in become fewer, so no entry is asked for without end.
#[cycle(eval)]
fn entry<S: Seen>(s: &S, at: At, table: usize, part: usize) -> bool
    ensures { result ≡ (S.reading s.now).entry table part (time_of at) }
{
    match s.entry(at, table, part) {
        Found::Known(b) => b,
        Found::In(h, value, before) => entry_in(&h.tables, part, cell(h, value, &before)),
    }
}

/// The cell of a table at a value and at the letter of what is seen.
#[cycle(eval)]
pub fn cell<S: Seen>(h: &Hidden, value: u16, s: &S) -> usize
    requires { CanRead (S.reading s.now) h.now value }
    ensures value { result ≡ cell_at (S.reading s.now) h.now value }
    ensures within { result < length h.now.next.items }
{
    let letters = letters(h);
    value as usize * letters + letter(&h.atoms, s)
}

/// The number whose bit k is 1 where the k-th atom is true.
#[cycle(eval)]
fn letter<S: Seen>(atoms: &[Expr], s: &S) -> usize
    requires few { 2 ^ length atoms.now < 2 ^ 64 }
    requires safe { AreSafe (S.reading s.now) (formulas_in atoms.now) 0 }
    ensures value { result ≡ letter_of (map (λ e. holds_at (S.reading s.now) e 0) (map formula atoms.now)) }
    ensures below { result < 2 ^ length atoms.now }
{
    let mut letter = 0;
    let mut k = atoms.len();
    while k > 0 {
        k -= 1;
        letter = bit(holds(&atoms[k], s, At::Now)) + 2 * letter;
    }
    letter
}
