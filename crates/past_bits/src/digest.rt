//! A number that is most often another one for another tree.

ghost use Rattle.std.specs.Prelude.{◌≡◌};
ghost use Rattle.spec_model.specs.Syntax.{PastOf};
ghost use Rattle.spec_model.specs.Views.{formula};
ghost use Rattle.game_values.specs.Safety.{formulas_in};
ghost use Rattle.past_bits.specs.Digests.{mixed as mixed_lem, value_digest, digest_from, digest_from_each, digest_of as digest_of_lem};

use crate::same::number_of_past;
use spec_model::expr::{Expr, Past};
use spec_model::value::Value;

#[tactic(auto, unfolding(crate::specs::Digests::mixed))]
fn mixed(sum: u64, part: u64) -> u64
    ensures { result ≡ mixed_lem sum part }
{
    (sum ^ part)
        .wrapping_mul(0x0000_0100_0000_01b3)
        .rotate_left(23)
}

#[tactic(auto, unfolding(crate::specs::Digests::value_digest))]
fn digest_of_value(v: Value) -> u64
    ensures { result ≡ value_digest v }
{
    match v {
        Value::Bool(b) => u64::from(b),
        Value::Int(z) => z.cast_unsigned().wrapping_add(7),
        Value::Name(n) => u64::from(n).wrapping_add(11),
    }
}

#[cycle(digests)]
fn digest_of(sum: u64, e: &Expr) -> u64
    ensures { result ≡ digest_from sum (formula e.now) }
{
    match e {
        Expr::Const(v) => mixed(mixed(sum, 1), digest_of_value(*v)),
        Expr::Var(k) => mixed(mixed(sum, 2), u64::from(*k)),
        Expr::Next(a) => digest_of(mixed(sum, 3), a),
        Expr::Not(a) => digest_of(mixed(sum, 4), a),
        Expr::And(es) => digest_of_each(mixed(sum, 5), es),
        Expr::Or(es) => digest_of_each(mixed(sum, 6), es),
        Expr::Implies(a, b) => digest_of(digest_of(mixed(sum, 7), a), b),
        Expr::Iff(a, b) => digest_of(digest_of(mixed(sum, 8), a), b),
        Expr::Cmp(_, a, b) => digest_of(digest_of(mixed(sum, 9), a), b),
        Expr::Add(a, b) => digest_of(digest_of(mixed(sum, 10), a), b),
        Expr::Sub(a, b) => digest_of(digest_of(mixed(sum, 11), a), b),
        Expr::Mul(a, b) => digest_of(digest_of(mixed(sum, 12), a), b),
        Expr::Mod(a, n) => digest_of(mixed(mixed(sum, 13), n.cast_unsigned()), a),
        Expr::Past(op, es) => digest_of_past(sum, *op, es),
        Expr::Table(h, n) => mixed(mixed(mixed(sum, 15), u64::from(*h)), u64::from(*n)),
    }
}

#[cycle(digests)]
fn digest_of_past(sum: u64, op: Past, es: &[Expr]) -> u64
    ensures { result ≡ digest_from sum (PastOf op (formulas_in es.now)) }
{
    digest_of_each(mixed(mixed(sum, 14), u64::from(number_of_past(op))), es)
}

#[cycle(digests)]
fn digest_of_each(sum: u64, es: &[Expr]) -> u64
    ensures { result ≡ digest_from_each sum (formulas_in es.now) }
{
    let mut digest = sum;
    for e in es {
        digest = digest_of(digest, e);
    }
    mixed(digest, 16)
}

#[tactic(auto, unfolding(crate::specs::Digests::digest_of))]
/// The digest of a past operator.
pub fn digest(op: Past, operands: &[Expr]) -> u64
    ensures { result ≡ digest_of_lem (PastOf op (formulas_in operands.now)) }
{
    digest_of_past(0, op, operands)
}
