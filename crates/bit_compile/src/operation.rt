//! Operations on whole numbers.

ghost use Rattle.std.specs.Prelude.{◌≡◌, SomeIff, FitsSigned};
ghost use Rattle.std.specs.Int.{w64};
ghost use Rattle.bit_compile.specs.Compiled.{combined as combined_lem, gives as gives_lem};

use game_values::values::number;
use spec_model::value::Value;

/// An operation on two whole numbers.
#[derive(Clone, Copy, PartialEq, Eq)]
pub enum Operation {
    Add,
    Sub,
    Mul,
    /// The number from 0 on, below the second, that differs from the first by a multiple of it; where the second isn't
    /// above 0, it is 0.
    Mod,
}

/// What the operation gives, where that fits.
fn combined(op: Operation, x: i64, y: i64) -> Option<i64>
    ensures { SomeIff result (FitsSigned w64 (combined_lem op x y)) (combined_lem op x y) }
{
    match op {
        Operation::Add => x.checked_add(y),
        Operation::Sub => x.checked_sub(y),
        Operation::Mul => x.checked_mul(y),
        Operation::Mod if 0 < y => Some(x.rem_euclid(y)),
        Operation::Mod => Some(0),
    }
}

/// Whether the operation on two numbers gives this value.
pub fn gives(op: Operation, v: Value, x: Value, y: Value) -> bool
    ensures { result ≡ gives_lem op v x y }
{
    match v {
        Value::Int(z) => match combined(op, number(x), number(y)) {
            Some(c) => c == z,
            None => false,
        },
        Value::Bool(_) | Value::Name(_) => false,
    }
}
