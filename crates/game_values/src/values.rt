//! Values as truth values and as numbers, and comparisons of them.

ghost use Rattle.std.specs.Prelude.{◌≡◌, get_or, false};
ghost use Rattle.spec_model.specs.Values.{truth_of, number_of, same_value};
ghost use Rattle.spec_model.specs.Meaning.{compare_values};

use spec_model::expr::Compare;
use spec_model::value::Value;

/// The truth value that a value is; of another kind, false.
pub fn truth(value: Value) -> bool
    ensures { result ≡ truth_of value }
{
    match value {
        Value::Bool(b) => b,
        _ => false,
    }
}

/// The whole number that a value is; of another kind, 0.
pub fn number(value: Value) -> i64
    ensures { result ≡ number_of value }
{
    match value {
        Value::Int(z) => z,
        _ => 0,
    }
}

/// Whether two values are one.
pub fn is_same(a: Value, b: Value) -> bool
    ensures { result ≡ same_value a b }
{
    match (a, b) {
        (Value::Bool(x), Value::Bool(y)) => x == y,
        (Value::Int(x), Value::Int(y)) => x == y,
        (Value::Name(x), Value::Name(y)) => x == y,
        _ => false,
    }
}

/// Whether a comparison holds.
pub fn compares(c: Compare, a: Value, b: Value) -> bool
    ensures { result ≡ compare_values c a b }
{
    match c {
        Compare::Eq => is_same(a, b),
        Compare::Ne => !is_same(a, b),
        Compare::Lt => number(a) < number(b),
        Compare::Le => number(a) <= number(b),
        Compare::Gt => number(b) < number(a),
        Compare::Ge => number(b) <= number(a),
    }
}

/// The value at a place, or false where there is none.
pub fn value_or(values: &[Value], place: usize) -> Value
    ensures { result ≡ get_or values.now place (Value.Bool false) }
{
    if place < values.len() {
        values[place]
    } else {
        Value::Bool(false)
    }
}
