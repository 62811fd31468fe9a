//! Which names are such that no word is an item of two variables.

ghost use Rattle.std.specs.Prelude.{◌≡◌, ◌||◌, ◌==◌, map};
ghost use Rattle.std.specs.List.{list_any};
ghost use Rattle.std.specs.Str.{bytes_eq};
ghost use Rattle.spec_model.specs.Views.{variable_data};
ghost use Rattle.session_lines.specs.Plain.{are_plain as are_plain_test};
ghost use Rattle.session_lines.specs.Reading.{is_blank as blank_test};

use crate::word::is_blank;
use spec_model::value::Var;

// Whether a byte ends a word or a name.
fn is_mark(byte: u8) -> bool
    ensures { result ≡ (blank_test byte || byte == 61) }
{
    is_blank(byte) || byte == b'='
}

// Whether a name has a blank or an equals sign.
fn is_marked(name: &[u8]) -> bool
    ensures { result ≡ list_any (λ c. blank_test c || c == 61) name.now }
{
    for &byte in name {
        if is_mark(byte) {
            return true;
        }
    }
    false
}

// Whether one of the variables has the name.
fn is_named(name: &str, vars: &[Var]) -> bool
    ensures { result ≡ list_any (bytes_eq name.now) (map (λ v. v.name) (map variable_data vars.now)) }
{
    for var in vars {
        if name.as_bytes() == var.name.as_bytes() {
            return true;
        }
    }
    false
}

/// Whether each name is plain, and none stands twice.
pub fn are_plain(vars: &[Var]) -> bool
    ensures { result ≡ are_plain_test (map (λ v. v.name) (map variable_data vars.now)) }
{
    let mut rest = vars;
    while let Some((var, others)) = rest.split_first() {
        if is_marked(var.name.as_bytes()) || is_named(&var.name, others) {
            return false;
        }
        rest = others;
    }
    true
}
