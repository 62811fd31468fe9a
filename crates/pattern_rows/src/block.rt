//! What lines have at up to 64 letters at once.

ghost use Rattle.std.specs.Prelude.{◌≡◌, ℕ, ◌<◌, length, IfSome};
ghost use Rattle.spec_model.specs.Syntax.{Variable, NextOf, Negation, Conjunction, Disjunction, Implication, Equivalence, Comparison, Sum, Difference, Product, Remainder};
ghost use Rattle.spec_model.specs.Views.{formula};
ghost use Rattle.spec_model.specs.Meaning.{holds_at};
ghost use Rattle.game_values.specs.Safety.{formulas_in};
ghost use Rattle.game_values.specs.Times.{time_of};
ghost use Rattle.pattern_rows.specs.Wides.{bit};
ghost use Rattle.pattern_rows.specs.Blocks.{IsBlock, AreValuesOf, letters_in, reading_at};

use crate::wide::{
    Wide, both, compared, difference, either, equal, negation, product, remainder, sum, word_of,
};
use game_values::seen::At;
use game_values::values::value_or;
use spec_model::expr::{Compare, Expr};
use spec_model::value::Value;

/// Up to 64 letters, a word for each parameter, whose bit l is its value at letter l, and the values of the own variables at a
/// position and at the next one.
#[derive(Clone, Copy)]
pub struct Block<'a> {
    pub letters: &'a [Vec<Value>],
    pub words: &'a [u64],
    pub own: &'a [Value],
    pub next: &'a [Value],
}

fn variable(b: &Block<'_>, k: usize, at: At) -> Wide
    requires { IsBlock b.now }
    ensures { AreValuesOf b.now (Variable k) (time_of at) result }
{
    if k < b.words.len() {
        return Wide::Truths(b.words[k]);
    }
    match at {
        At::Now => Wide::Same(value_or(b.own, k - b.words.len())),
        At::Next => Wide::Same(value_or(b.next, k - b.words.len())),
    }
}

/// The values of an expression. None where they aren't worked out for many letters at once.
#[cycle(block)]
pub fn values(e: &Expr, b: &Block<'_>, at: At) -> Option<Wide>
    requires { IsBlock b.now }
    ensures { IfSome result (λ w. AreValuesOf b.now (formula e.now) (time_of at) w) }
{
    match e {
        Expr::Const(v) => Some(Wide::Same(*v)),
        Expr::Var(k) => Some(variable(b, *k as usize, at)),
        Expr::Next(a) => next_values(a, b, at),
        Expr::Not(a) => not_values(a, b, at),
        Expr::And(es) => all_hold(es, b, at),
        Expr::Or(es) => some_hold(es, b, at),
        Expr::Implies(x, y) => implied(x, y, b, at),
        Expr::Iff(x, y) => equivalent(x, y, b, at),
        Expr::Cmp(c, x, y) => comparison(*c, x, y, b, at),
        Expr::Add(x, y) => sums(x, y, b, at),
        Expr::Sub(x, y) => differences(x, y, b, at),
        Expr::Mul(x, y) => products(x, y, b, at),
        Expr::Mod(x, n) => remainders(x, *n, b, at),
        Expr::Past(_, _) | Expr::Table(_, _) => None,
    }
}

#[cycle(block)]
fn next_values(e: &Expr, b: &Block<'_>, at: At) -> Option<Wide>
    requires { IsBlock b.now }
    ensures { IfSome result (λ w. AreValuesOf b.now (NextOf (formula e.now)) (time_of at) w) }
{
    match at {
        At::Now => values(e, b, At::Next),
        At::Next => None,
    }
}

#[cycle(block)]
#[inline(never)]
fn not_values(e: &Expr, b: &Block<'_>, at: At) -> Option<Wide>
    requires { IsBlock b.now }
    ensures { IfSome result (λ w. AreValuesOf b.now (Negation (formula e.now)) (time_of at) w) }
{
    let holds = word(e, b, at)?;
    Some(Wide::Truths(negation(holds)))
}

#[cycle(block)]
#[inline(never)]
fn implied(x: &Expr, y: &Expr, b: &Block<'_>, at: At) -> Option<Wide>
    requires { IsBlock b.now }
    ensures { IfSome result (λ w. AreValuesOf b.now (Implication (formula x.now) (formula y.now)) (time_of at) w) }
{
    let first = word(x, b, at)?;
    let second = word(y, b, at)?;
    Some(Wide::Truths(either(negation(first), second)))
}

#[cycle(block)]
#[inline(never)]
fn equivalent(x: &Expr, y: &Expr, b: &Block<'_>, at: At) -> Option<Wide>
    requires { IsBlock b.now }
    ensures { IfSome result (λ w. AreValuesOf b.now (Equivalence (formula x.now) (formula y.now)) (time_of at) w) }
{
    let first = word(x, b, at)?;
    let second = word(y, b, at)?;
    Some(Wide::Truths(equal(first, second)))
}

#[cycle(block)]
#[inline(never)]
fn comparison(c: Compare, x: &Expr, y: &Expr, b: &Block<'_>, at: At) -> Option<Wide>
    requires { IsBlock b.now }
    ensures { IfSome result (λ w. AreValuesOf b.now (Comparison c (formula x.now) (formula y.now)) (time_of at) w) }
{
    let first = values(x, b, at)?;
    let second = values(y, b, at)?;
    compared(c, first, second)
}

#[cycle(block)]
#[inline(never)]
fn sums(x: &Expr, y: &Expr, b: &Block<'_>, at: At) -> Option<Wide>
    requires { IsBlock b.now }
    ensures { IfSome result (λ w. AreValuesOf b.now (Sum (formula x.now) (formula y.now)) (time_of at) w) }
{
    let first = values(x, b, at)?;
    let second = values(y, b, at)?;
    sum(first, second)
}

#[cycle(block)]
#[inline(never)]
fn differences(x: &Expr, y: &Expr, b: &Block<'_>, at: At) -> Option<Wide>
    requires { IsBlock b.now }
    ensures { IfSome result (λ w. AreValuesOf b.now (Difference (formula x.now) (formula y.now)) (time_of at) w) }
{
    let first = values(x, b, at)?;
    let second = values(y, b, at)?;
    difference(first, second)
}

#[cycle(block)]
#[inline(never)]
fn products(x: &Expr, y: &Expr, b: &Block<'_>, at: At) -> Option<Wide>
    requires { IsBlock b.now }
    ensures { IfSome result (λ w. AreValuesOf b.now (Product (formula x.now) (formula y.now)) (time_of at) w) }
{
    let first = values(x, b, at)?;
    let second = values(y, b, at)?;
    product(first, second)
}

#[cycle(block)]
#[inline(never)]
fn remainders(e: &Expr, n: i64, b: &Block<'_>, at: At) -> Option<Wide>
    requires { IsBlock b.now }
    ensures { IfSome result (λ w. AreValuesOf b.now (Remainder (formula e.now) n) (time_of at) w) }
{
    let first = values(e, b, at)?;
    remainder(first, n)
}

/// Where an expression holds.
#[cycle(block)]
pub fn word(e: &Expr, b: &Block<'_>, at: At) -> Option<u64>
    requires { IsBlock b.now }
    ensures { IfSome result (λ x. (l : ℕ) → l < length (letters_in b.now) → bit x l ≡ holds_at (reading_at b.now l) (formula e.now) (time_of at)) }
{
    let w = values(e, b, at)?;
    Some(word_of(w))
}

/// Where all of several expressions hold.
#[cycle(block)]
#[inline(never)]
pub fn all_hold(es: &[Expr], b: &Block<'_>, at: At) -> Option<Wide>
    requires { IsBlock b.now }
    ensures { IfSome result (λ w. AreValuesOf b.now (Conjunction (formulas_in es.now)) (time_of at) w) }
{
    let mut all = u64::MAX;
    for e in es {
        if all == 0 {
            return Some(Wide::Truths(all));
        }
        let one = word(e, b, at)?;
        all = both(all, one);
    }
    Some(Wide::Truths(all))
}

/// Where one of several expressions holds.
#[cycle(block)]
#[inline(never)]
fn some_hold(es: &[Expr], b: &Block<'_>, at: At) -> Option<Wide>
    requires { IsBlock b.now }
    ensures { IfSome result (λ w. AreValuesOf b.now (Disjunction (formulas_in es.now)) (time_of at) w) }
{
    let mut some = 0;
    for e in es {
        let one = word(e, b, at)?;
        some = either(some, one);
    }
    Some(Wide::Truths(some))
}
