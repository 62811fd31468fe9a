//! Values and their texts.

ghost use Rattle.std.specs.Prelude.{◌≡◌, [], List, ℕ, map, string_bytes, slice_index_or, IfSome, IfNone};
ghost use Rattle.spec_model.specs.declared.value.Value.{Value};
ghost use Rattle.spec_model.specs.Values.{TruthValues, WholeNumbers, Enumeration, is_assignment};
ghost use Rattle.spec_model.specs.Views.{domain_data, variable_data};
ghost use Rattle.session_lines.specs.Reading.{IsWritten};
ghost use Rattle.session_lines.specs.Room.{domains};

use crate::number::number_in;
use spec_model::value::{Domain, Value, Var};
use spec_model::variables::has_value;

/// The text of an enum name; of one that isn't there, the empty text.
pub fn name_text(names: &[String], n: u16) -> &[u8]
    ensures { result.now ≡ slice_index_or (map string_bytes names.now) n [] }
{
    match names.get(n as usize) {
        Some(name) => name.as_bytes(),
        None => b"",
    }
}

// The truth value that is written so.
fn truth_in(text: &[u8]) -> Option<Value>
    ensures some { IfSome result (λ x. (names : List (List ℕ)) → IsWritten names TruthValues text.now x) }
    ensures none { IfNone result ((names : List (List ℕ)) (x : Value) → IsWritten names TruthValues text.now x → ⊥) }
{
    if text == b"true".as_slice() {
        return Some(Value::Bool(true));
    }
    if text == b"false".as_slice() {
        return Some(Value::Bool(false));
    }
    None
}

// The whole number of a range that is written so.
fn whole_in(lo: i64, hi: i64, text: &[u8]) -> Option<Value>
    ensures some { IfSome result (λ x. (names : List (List ℕ)) → IsWritten names (WholeNumbers lo hi) text.now x) }
    ensures none { IfNone result ((names : List (List ℕ)) (x : Value) → IsWritten names (WholeNumbers lo hi) text.now x → ⊥) }
{
    let value = Value::Int(number_in(text)?);
    if has_value(&Domain::Range { lo, hi }, value) {
        Some(value)
    } else {
        None
    }
}

// The name of an enumeration that is written so.
fn name_in(names: &[String], domain: &[u16], text: &[u8]) -> Option<Value>
    ensures some { IfSome result (λ x. IsWritten (map string_bytes names.now) (Enumeration domain.now) text.now x) }
    ensures none { IfNone result ((x : Value) → IsWritten (map string_bytes names.now) (Enumeration domain.now) text.now x → ⊥) }
{
    for &n in domain {
        if name_text(names, n) == text {
            return Some(Value::Name(n));
        }
    }
    None
}

/// The value of a domain that is written so.
pub fn value_in(names: &[String], domain: &Domain, text: &[u8]) -> Option<Value>
    ensures some { IfSome result (λ x. IsWritten (map string_bytes names.now) (domain_data domain.now) text.now x) }
    ensures none { IfNone result ((x : Value) → IsWritten (map string_bytes names.now) (domain_data domain.now) text.now x → ⊥) }
{
    match domain {
        Domain::Boolean => truth_in(text),
        Domain::Range { lo, hi } => whole_in(*lo, *hi, text),
        Domain::Names(domain) => name_in(names, domain, text),
    }
}

/// Whether these are values of the variables, one for each.
pub fn are_values(vars: &[Var], values: &[Value]) -> bool
    ensures { result ≡ is_assignment (domains (map variable_data vars.now)) values.now }
{
    if vars.len() != values.len() {
        return false;
    }
    for (i, var) in vars.iter().enumerate() {
        if !has_value(&var.domain, values[i]) {
            return false;
        }
    }
    true
}
