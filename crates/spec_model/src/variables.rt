//! How many variables are whose, and which values a domain has.

ghost use Rattle.std.specs.Prelude.{◌≡◌, ◌==◌, not, map, count_by};
ghost use Rattle.std.specs.List.{list_any};
ghost use Rattle.spec_model.specs.Views.{variable_data, domain_data};
ghost use Rattle.spec_model.specs.Values.{WholeNumbers, values_of, same_value};
ghost use Rattle.spec_model.specs.Moves.{is_env};

use crate::value::{Domain, Owner, Value, Var};

/// How many of the variables are the environment's.
pub fn count_inputs(vars: &[Var]) -> usize
    ensures { result ≡ count_by (λ v. is_env v.owner) (map variable_data vars.now) }
{
    vars.iter().filter(|v| v.owner == Owner::Env).count()
}

/// How many are the system's.
pub fn count_outputs(vars: &[Var]) -> usize
    ensures { result ≡ count_by (λ v. not (is_env v.owner)) (map variable_data vars.now) }
{
    vars.iter().filter(|v| v.owner == Owner::Sys).count()
}

/// Whether a whole number is one of a range's.
fn is_within(z: i64, lo: i64, hi: i64) -> bool
    ensures { result ≡ list_any (same_value (Value.Int z)) (values_of (WholeNumbers lo hi)) }
{
    lo <= z && z <= hi
}

/// Whether a name is in a list of names.
fn has_name(names: &[u16], n: u16) -> bool
    ensures { result ≡ list_any (λ m. n == m) names.now }
{
    names.iter().any(|m| n == *m)
}

/// Whether a value is one of the domain's.
pub fn has_value(domain: &Domain, value: Value) -> bool
    ensures { result ≡ list_any (same_value value) (values_of (domain_data domain.now)) }
{
    match domain {
        Domain::Boolean => match value {
            Value::Bool(_) => true,
            Value::Int(_) | Value::Name(_) => false,
        },
        Domain::Range { lo, hi } => match value {
            Value::Int(z) => is_within(z, *lo, *hi),
            Value::Bool(_) | Value::Name(_) => false,
        },
        Domain::Names(names) => match value {
            Value::Name(n) => has_name(names, n),
            Value::Bool(_) | Value::Int(_) => false,
        },
    }
}
