//! The places of hidden values, which are given as numbers.

ghost use Rattle.std.specs.Prelude.{◌≡◌, map, pos, IfOk};
ghost use Rattle.spec_model.specs.GameViews.{hidden_data};
ghost use Rattle.spec_model.specs.Values.{same_value};
ghost use Rattle.game_states.specs.Numbers.{place_in, same_values, as_values};

use spec_model::game::Hidden;
use spec_model::value::Value;
use std::alloc::{AllocError, Global};

fn is_number(value: Value, number: u16) -> bool
    ensures { result ≡ same_value value (Value.Int (pos number)) }
{
    match value {
        Value::Int(z) => z == i64::from(number),
        _ => false,
    }
}

fn are_numbers(values: &[Value], numbers: &[u16]) -> bool
    ensures { result ≡ same_values values.now (as_values numbers.now) }
{
    if values.len() != numbers.len() {
        return false;
    }
    for i in 0..values.len() {
        if !is_number(values[i], numbers[i]) {
            return false;
        }
    }
    true
}

/// The place of hidden values, or the number of all where they aren't among them.
pub fn place_of_numbers(all: &[Vec<Value>], numbers: &[u16]) -> usize
    ensures { result ≡ place_in (map (λ c. c.items) all.now) (as_values numbers.now) }
{
    for i in 0..all.len() {
        if are_numbers(&all[i], numbers) {
            return i;
        }
    }
    all.len()
}

/// The first value of each hidden table.
pub fn firsts(alloc: Global, hidden: &[Hidden]) -> Result<Vec<u16>, AllocError>
    ensures { IfOk result (λ all. all.items ≡ map (λ h. h.first) (map hidden_data hidden.now)) }
{
    let mut all = Vec::new(alloc);
    for h in hidden {
        all.push(h.first)?;
    }
    Ok(all)
}
