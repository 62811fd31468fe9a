//! Whether two expressions are one tree.

ghost use Rattle.std.specs.Prelude.{◌≡◌, map};
ghost use Rattle.spec_model.specs.Views.{formula};
ghost use Rattle.spec_model.specs.Sizes.{same_formula, same_formulas, compare_number, past_number};
ghost use Rattle.spec_model.specs.Syntax.{formulas};
ghost use Rattle.spec_model.specs.Values.{same_value};

use spec_model::expr::{Compare, Expr, Past};
use spec_model::value::Value;

fn number_of_compare(c: Compare) -> u8
    ensures { result ≡ compare_number c }
{
    match c {
        Compare::Eq => 0,
        Compare::Ne => 1,
        Compare::Lt => 2,
        Compare::Le => 3,
        Compare::Gt => 4,
        Compare::Ge => 5,
    }
}

fn number_of_past(op: Past) -> u8
    ensures { result ≡ past_number op }
{
    match op {
        Past::Prev => 0,
        Past::Once => 1,
        Past::Historically => 2,
        Past::Since => 3,
        Past::Triggered => 4,
    }
}

fn is_same(a: Value, b: Value) -> bool
    ensures { result ≡ same_value a b }
{
    match (a, b) {
        (Value::Bool(x), Value::Bool(y)) => x == y,
        (Value::Int(x), Value::Int(y)) => x == y,
        (Value::Name(x), Value::Name(y)) => x == y,
        _ => false,
    }
}

/// Whether two expressions are one tree.
#[cycle(same)]
pub fn is_same_tree(a: &Expr, b: &Expr) -> bool
    ensures { result ≡ same_formula (formula a.now) (formula b.now) }
{
    match (a, b) {
        (Expr::Const(v), Expr::Const(w)) => is_same(*v, *w),
        (Expr::Var(k), Expr::Var(l)) => k == l,
        (Expr::Next(x), Expr::Next(y)) => is_same_tree(x, y),
        (Expr::Not(x), Expr::Not(y)) => is_same_tree(x, y),
        (Expr::And(xs), Expr::And(ys)) => are_same_trees(xs, ys),
        (Expr::Or(xs), Expr::Or(ys)) => are_same_trees(xs, ys),
        (Expr::Implies(x, u), Expr::Implies(y, v)) => is_same_tree(x, y) && is_same_tree(u, v),
        (Expr::Iff(x, u), Expr::Iff(y, v)) => is_same_tree(x, y) && is_same_tree(u, v),
        (Expr::Cmp(c, x, u), Expr::Cmp(d, y, v)) => {
            number_of_compare(*c) == number_of_compare(*d)
                && is_same_tree(x, y)
                && is_same_tree(u, v)
        }
        (Expr::Add(x, u), Expr::Add(y, v)) => is_same_tree(x, y) && is_same_tree(u, v),
        (Expr::Sub(x, u), Expr::Sub(y, v)) => is_same_tree(x, y) && is_same_tree(u, v),
        (Expr::Mul(x, u), Expr::Mul(y, v)) => is_same_tree(x, y) && is_same_tree(u, v),
        (Expr::Mod(x, m), Expr::Mod(y, n)) => is_same_tree(x, y) && m == n,
        (Expr::Past(o, xs), Expr::Past(p, ys)) => {
            number_of_past(*o) == number_of_past(*p) && are_same_trees(xs, ys)
        }
        (Expr::Table(h, m), Expr::Table(i, n)) => h == i && m == n,
        _ => false,
    }
}

// Whether the expressions of two lists are the same trees, one by one.
#[tactic(auto, using(crate::proofs::Alike::lengths_differ))]
#[cycle(same)]
fn are_same_trees(xs: &[Expr], ys: &[Expr]) -> bool
    ensures { result ≡ same_formulas (formulas (map formula xs.now)) (formulas (map formula ys.now)) }
{
    if xs.len() != ys.len() {
        return false;
    }
    for k in 0..xs.len() {
        if !is_same_tree(&xs[k], &ys[k]) {
            return false;
        }
    }
    true
}
