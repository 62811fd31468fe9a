//! Values at up to 64 letters at once: one value at all of them, or a word of truth values, whose bit l is for letter l.

ghost use Rattle.std.specs.Prelude.{◌≡◌, ℕ, pos, ◌<◌, ◌<ℤ◌, ◌+ℤ◌, ◌-ℤ◌, ◌*ℤ◌, not, ◌&&◌, ◌||◌, IfSome};
ghost use Rattle.std.specs.Int.{int_rem_euclid};
ghost use Rattle.std.specs.Bool.{beq};
ghost use Rattle.spec_model.specs.Values.{truth_of, number_of};
ghost use Rattle.spec_model.specs.Meaning.{compare_values};
ghost use Rattle.pattern_rows.specs.Wides.{bit, value_in};

use game_values::values::{compares, number, truth};
use spec_model::expr::Compare;
use spec_model::value::Value;

/// What is at each letter.
#[derive(Clone, Copy)]
pub enum Wide {
    /// One value at all of them.
    Same(Value),
    /// A truth value at each.
    Truths(u64),
}

fn all_or_none(b: bool) -> u64
    ensures { (l : ℕ) → l < 64 → bit result l ≡ b }
{
    if b { u64::MAX } else { 0 }
}

pub fn negation(x: u64) -> u64
    ensures { (l : ℕ) → l < 64 → bit result l ≡ not (bit x l) }
{
    !x
}

pub fn both(x: u64, y: u64) -> u64
    ensures { (l : ℕ) → bit result l ≡ (bit x l && bit y l) }
{
    x & y
}

pub fn either(x: u64, y: u64) -> u64
    ensures { (l : ℕ) → bit result l ≡ (bit x l || bit y l) }
{
    x | y
}

pub fn equal(x: u64, y: u64) -> u64
    ensures { (l : ℕ) → l < 64 → bit result l ≡ beq (bit x l) (bit y l) }
{
    either(both(x, y), negation(either(x, y)))
}

/// Where it is the truth value true.
pub fn word_of(w: Wide) -> u64
    ensures { (l : ℕ) → l < 64 → bit result l ≡ truth_of (value_in w l) }
{
    match w {
        Wide::Same(v) => all_or_none(truth(v)),
        Wide::Truths(x) => x,
    }
}

/// The truth value at each letter, if it is one at each.
fn truths_of(w: Wide) -> Option<u64>
    ensures { IfSome result (λ x. (l : ℕ) → l < 64 → value_in w l ≡ Value.Bool (bit x l)) }
{
    match w {
        Wide::Same(Value::Bool(b)) => Some(all_or_none(b)),
        Wide::Same(_) => None,
        Wide::Truths(x) => Some(x),
    }
}

/// The number at all letters, if there is one value at all.
fn number_in(w: Wide) -> Option<i64>
    ensures { IfSome result (λ z. (l : ℕ) → number_of (value_in w l) ≡ z) }
{
    match w {
        Wide::Same(v) => Some(number(v)),
        Wide::Truths(_) => None,
    }
}

fn compared_words(c: Compare, x: u64, y: u64) -> u64
    ensures { (l : ℕ) → l < 64 → bit result l ≡ compare_values c (Value.Bool (bit x l)) (Value.Bool (bit y l)) }
{
    match c {
        Compare::Eq => equal(x, y),
        Compare::Ne => negation(equal(x, y)),
        Compare::Lt | Compare::Gt => all_or_none(false),
        Compare::Le | Compare::Ge => all_or_none(true),
    }
}

fn compared_truths(c: Compare, a: Wide, b: Wide) -> Option<Wide>
    ensures { IfSome result (λ w. (l : ℕ) → l < 64 → value_in w l ≡ Value.Bool (compare_values c (value_in a l) (value_in b l))) }
{
    let x = truths_of(a)?;
    let y = truths_of(b)?;
    Some(Wide::Truths(compared_words(c, x, y)))
}

/// Whether a comparison holds at each letter.
pub fn compared(c: Compare, a: Wide, b: Wide) -> Option<Wide>
    ensures { IfSome result (λ w. (l : ℕ) → l < 64 → value_in w l ≡ Value.Bool (compare_values c (value_in a l) (value_in b l))) }
{
    match (a, b) {
        (Wide::Same(x), Wide::Same(y)) => Some(Wide::Same(Value::Bool(compares(c, x, y)))),
        _ => compared_truths(c, a, b),
    }
}

pub fn sum(a: Wide, b: Wide) -> Option<Wide>
    ensures { IfSome result (λ w. (l : ℕ) → value_in w l ≡ Value.Int (number_of (value_in a l) +ℤ number_of (value_in b l))) }
{
    let x = number_in(a)?;
    let y = number_in(b)?;
    let z = x.checked_add(y)?;
    Some(Wide::Same(Value::Int(z)))
}

pub fn difference(a: Wide, b: Wide) -> Option<Wide>
    ensures { IfSome result (λ w. (l : ℕ) → value_in w l ≡ Value.Int (number_of (value_in a l) -ℤ number_of (value_in b l))) }
{
    let x = number_in(a)?;
    let y = number_in(b)?;
    let z = x.checked_sub(y)?;
    Some(Wide::Same(Value::Int(z)))
}

pub fn product(a: Wide, b: Wide) -> Option<Wide>
    ensures { IfSome result (λ w. (l : ℕ) → value_in w l ≡ Value.Int (number_of (value_in a l) *ℤ number_of (value_in b l))) }
{
    let x = number_in(a)?;
    let y = number_in(b)?;
    let z = x.checked_mul(y)?;
    Some(Wide::Same(Value::Int(z)))
}

pub fn remainder(a: Wide, n: i64) -> Option<Wide>
    ensures { IfSome result (λ w. (l : ℕ) → value_in w l ≡ Value.Int (int_rem_euclid (number_of (value_in a l)) n)) }
{
    let x = number_in(a)?;
    if n <= 0 {
        return None;
    }
    Some(Wide::Same(Value::Int(x.rem_euclid(n))))
}
