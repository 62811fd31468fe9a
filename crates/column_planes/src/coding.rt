//! Codes of values: a number for each value of a domain.

ghost use Rattle.std.specs.Prelude.{◌≡◌, ◌≢◌, ◌==◌, ℕ, ◌<◌, ◌^◌, pos, ◌+ℤ◌, map, IfSome, None, true};
ghost use Rattle.spec_model.specs.Values.{TruthValues, same_value};
ghost use Rattle.spec_model.specs.Views.{domain_data, variable_data};
ghost use Rattle.column_planes.specs.Columns.{value_of_code, HasNoCode, domain_in};

use spec_model::value::{Domain, Value, Var};

/// How far a whole number is above the least of its domain, as far as codes go.
fn steps_from(lo: i64, z: i64) -> Option<u16>
    ensures steps { IfSome result (λ c. lo +ℤ pos c ≡ z) }
    ensures none { result ≡ None → (c : ℕ) → c < 2 ^ 16 → lo +ℤ pos c ≢ z }
{
    let steps = z.checked_sub(lo)?;
    if steps < 0 || 65_535 < steps {
        return None;
    }
    Some(steps as u16)
}

/// The code of a value in a domain, if it has one.
pub fn code_in(domain: &Domain, value: Value) -> Option<u16>
    ensures code { IfSome result (λ c. value_of_code (domain_data domain.now) c ≡ value) }
    ensures none { result ≡ None → HasNoCode (domain_data domain.now) value }
{
    match (domain, value) {
        (Domain::Boolean, Value::Bool(b)) => Some(u16::from(b)),
        (Domain::Range { lo, hi: _ }, Value::Int(z)) => steps_from(*lo, z),
        (Domain::Names(_), Value::Name(n)) => Some(n),
        _ => None,
    }
}

/// The value that a code stands for in a domain. None where it is no number of the program.
pub fn value_of(domain: &Domain, code: u16) -> Option<Value>
    ensures { IfSome result (λ v. v ≡ value_of_code (domain_data domain.now) code) }
{
    match domain {
        Domain::Boolean => Some(Value::Bool(code == 1)),
        Domain::Range { lo, hi: _ } => {
            let z = lo.checked_add(i64::from(code))?;
            Some(Value::Int(z))
        }
        Domain::Names(_) => Some(Value::Name(code)),
    }
}

/// The one code that stands for a value in a domain of numbers or names, if there is one.
fn only_code(domain: &Domain, value: Value) -> Option<u16>
    ensures { IfSome result (λ code. (c : ℕ) → (c == code) ≡ same_value (value_of_code (domain_data domain.now) c) value) }
{
    match domain {
        Domain::Boolean => None,
        Domain::Range { lo: _, hi: _ } => code_in(domain, value),
        Domain::Names(_) => code_in(domain, value),
    }
}

/// The one code that stands for a value of a variable, if there is one.
pub fn only_code_of(vars: &[Var], k: usize, value: Value) -> Option<u16>
    ensures { IfSome result (λ code. (c : ℕ) → (c == code) ≡ same_value (value_of_code (domain_in (map variable_data vars.now) k) c) value) }
{
    if vars.len() <= k {
        return None;
    }
    only_code(&vars[k].domain, value)
}

/// Whether a variable has truth values.
pub fn is_truth(vars: &[Var], k: usize) -> bool
    ensures { result ≡ true → domain_in (map variable_data vars.now) k ≡ TruthValues }
{
    if vars.len() <= k {
        return false;
    }
    match &vars[k].domain {
        Domain::Boolean => true,
        Domain::Range { lo: _, hi: _ } => false,
        Domain::Names(_) => false,
    }
}
