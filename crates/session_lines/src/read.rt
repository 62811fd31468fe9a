//! Reading the assignment of a line.

ghost use Rattle.std.specs.Prelude.{◌≡◌, [], length, map, string_bytes, IfSome, IfNone};
ghost use Rattle.std.specs.Bool.{OnTrue, OnFalse};
ghost use Rattle.spec_model.specs.declared.value.Value.{Value};
ghost use Rattle.spec_model.specs.Values.{Assignment};
ghost use Rattle.spec_model.specs.Views.{variable_data};
ghost use Rattle.session_lines.specs.Plain.{are_plain};
ghost use Rattle.session_lines.specs.Reading.{words, IsGiven, Reads};
ghost use Rattle.session_lines.specs.Beginning.{BeginsWith};

use crate::value::value_in;
use crate::word::{all_known, first_item, one_text};
use spec_model::value::{Value, Var};

// The value that a line gives a variable.
fn value_given(names: &[String], var: &Var, line: &[u8]) -> Option<Value>
    ensures some { IfSome result (λ x. IsGiven (map string_bytes names.now) (words line.now) (variable_data var.now) x) }
    ensures none { IfNone result ((x : Value) → IsGiven (map string_bytes names.now) (words line.now) (variable_data var.now) x → ⊥) }
{
    match one_text(var, line) {
        Some(text) => value_in(names, &var.domain, text),
        None => None,
    }
}

// Reads a line that has the items of the variables in their order, as lines are printed. It looks at each word once.
fn read_in_order(names: &[String], vars: &[Var], line: &[u8], values: &mut [Value]) -> bool
    requires { length values.old ≡ length vars.now }
    ensures items { OnTrue result (BeginsWith (map string_bytes names.now) (map variable_data vars.now) values.new line.now []) }
    ensures places { length values.new ≡ length values.old }
{
    let mut rest = line;
    for (i, var) in vars.iter().enumerate() {
        let Some((text, after)) = first_item(var, rest) else {
            return false;
        };
        let Some(value) = value_in(names, &var.domain, text) else {
            return false;
        };
        values[i] = value;
        rest = after;
    }
    rest.is_empty()
}

// Reads a line that has the items of the variables in any order.
fn read_in_any_order(names: &[String], vars: &[Var], line: &[u8], values: &mut [Value]) -> bool
    requires { length values.old ≡ length vars.now }
    ensures read { OnTrue result (Reads (map string_bytes names.now) (map variable_data vars.now) line.now values.new) }
    ensures refused { OnFalse result ((xs : Assignment) → Reads (map string_bytes names.now) (map variable_data vars.now) line.now xs → ⊥) }
{
    if !all_known(vars, line) {
        return false;
    }
    for (i, var) in vars.iter().enumerate() {
        match value_given(names, var, line) {
            Some(value) => values[i] = value,
            None => return false,
        }
    }
    true
}

/// Reads a line as an assignment of the variables, and says whether it reads as one. `plain` tells that no word can be an item
/// of two of them. It takes no memory.
pub fn read_line(
    names: &[String],
    vars: &[Var],
    plain: bool,
    line: &[u8],
    values: &mut [Value],
) -> bool
    requires places { length values.old ≡ length vars.now }
    requires plainly { plain ≡ are_plain (map (λ v. v.name) (map variable_data vars.now)) }
    ensures read { OnTrue result (Reads (map string_bytes names.now) (map variable_data vars.now) line.now values.new) }
    ensures refused { OnFalse result ((xs : Assignment) → Reads (map string_bytes names.now) (map variable_data vars.now) line.now xs → ⊥) }
{
    if !plain {
        return read_in_any_order(names, vars, line, values);
    }
    if read_in_order(names, vars, line, values) {
        return true;
    }
    read_in_any_order(names, vars, line, values)
}
