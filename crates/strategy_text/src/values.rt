//! JSON as values of domains.

ghost use Rattle.std.specs.Prelude.{◌≡◌, [], map, string_bytes};
ghost use Rattle.serde_json.specs.View.{view};
ghost use Rattle.spec_model.specs.Values.{WholeNumbers};
ghost use Rattle.spec_model.specs.Views.{domain_data};
ghost use Rattle.strategy_text.specs.Reading.{named as named_lem, value_of};

use crate::names::name_text;
use serde_json::Value as Json;
use spec_model::value::{Domain, Value};

// The whole number of a range.
fn whole(lo: i64, hi: i64, json: &Json) -> Option<Value>
    ensures { result ≡ value_of [] (WholeNumbers lo hi) (view json.now) }
{
    let z = json.as_i64()?;
    if lo <= z && z <= hi {
        Some(Value::Int(z))
    } else {
        None
    }
}

// The name of an enumeration that has the text.
fn named(names: &[String], domain: &[u16], text: &str) -> Option<Value>
    ensures { result ≡ named_lem (map string_bytes names.now) domain.now text.now }
{
    for &n in domain {
        if name_text(names, n) == text {
            return Some(Value::Name(n));
        }
    }
    None
}

/// The value of a domain.
pub fn value_in(names: &[String], domain: &Domain, json: &Json) -> Option<Value>
    ensures { result ≡ value_of (map string_bytes names.now) (domain_data domain.now) (view json.now) }
{
    match domain {
        Domain::Boolean => Some(Value::Bool(json.as_bool()?)),
        Domain::Range { lo, hi } => whole(*lo, *hi, json),
        Domain::Names(domain) => named(names, domain, json.as_str()?),
    }
}
