//! Printing an assignment into a buffer that has room for it.

ghost use Rattle.std.specs.Prelude.{◌≡◌, ◌+◌, ◌<◌, ◌≤◌, ◌++◌, ◌∷◌, [], length, map, string_bytes, vec_len, vec_capacity};
ghost use Rattle.std.specs.Fmt.{decimal};
ghost use Rattle.spec_model.specs.Views.{variable_data};
ghost use Rattle.session_lines.specs.Shown.{text_of, item_of, show};

use crate::number::{MOST_DIGITS, put_count, put_number};
use crate::value::name_text;
use spec_model::value::{Value, Var};

/// The room for a line with up to two numbers, and up to 40 bytes besides them, its line feed included.
pub const NUMBERED: usize = 80;

/// The room for what stands before an assignment on its line.
pub const HEAD: usize = 64;

/// Adds bytes to what is printed. It takes no memory.
pub fn push_bytes(out: &mut Vec<u8>, bytes: &[u8])
    requires room { vec_len out.old + length bytes.now ≤ vec_capacity out.old }
    ensures items { out.new.items ≡ out.old.items ++ bytes.now }
    ensures capacity { vec_capacity out.old ≤ vec_capacity out.new }
{
    out.extend_from_slice(bytes).unwrap();
}

/// Adds a count in decimal. It takes no memory.
pub fn push_count(out: &mut Vec<u8>, n: u64)
    requires room { vec_len out.old + MOST_DIGITS ≤ vec_capacity out.old }
    ensures items { out.new.items ≡ out.old.items ++ decimal n }
    ensures short { vec_len out.new ≤ vec_len out.old + MOST_DIGITS }
    ensures capacity { vec_capacity out.old ≤ vec_capacity out.new }
{
    let mut buffer = [0; MOST_DIGITS];
    let count = put_count(&mut buffer, n);
    push_bytes(out, &buffer[..count]);
}

// Adds the text of a value.
fn push_value(out: &mut Vec<u8>, names: &[String], value: Value)
    requires room { vec_len out.old + length (text_of (map string_bytes names.now) value) ≤ vec_capacity out.old }
    ensures items { out.new.items ≡ out.old.items ++ text_of (map string_bytes names.now) value }
    ensures capacity { vec_capacity out.old ≤ vec_capacity out.new }
{
    match value {
        Value::Bool(true) => push_bytes(out, b"true"),
        Value::Bool(false) => push_bytes(out, b"false"),
        Value::Int(z) => {
            let mut buffer = [0; MOST_DIGITS];
            let count = put_number(&mut buffer, z);
            push_bytes(out, &buffer[..count]);
        }
        Value::Name(n) => push_bytes(out, name_text(names, n)),
    }
}

// Adds `name=value`.
fn push_item(out: &mut Vec<u8>, names: &[String], var: &Var, value: Value)
    requires room { vec_len out.old + length (item_of (map string_bytes names.now) (variable_data var.now) value) ≤ vec_capacity out.old }
    ensures items { out.new.items ≡ out.old.items ++ item_of (map string_bytes names.now) (variable_data var.now) value }
    ensures capacity { vec_capacity out.old ≤ vec_capacity out.new }
{
    push_bytes(out, var.name.as_bytes());
    push_bytes(out, b"=");
    push_value(out, names, value);
}

/// Adds the line of an assignment, without a line feed. It takes no memory.
pub fn push_line(out: &mut Vec<u8>, names: &[String], vars: &[Var], values: &[Value])
    requires places { length values.now ≡ length vars.now }
    requires room { vec_len out.old + length (show (map string_bytes names.now) (map variable_data vars.now) values.now) ≤ vec_capacity out.old }
    ensures items { out.new.items ≡ out.old.items ++ show (map string_bytes names.now) (map variable_data vars.now) values.now }
    ensures capacity { vec_capacity out.old ≤ vec_capacity out.new }
{
    let mut separator = b"".as_slice();
    for (i, var) in vars.iter().enumerate() {
        push_bytes(out, separator);
        push_item(out, names, var, values[i]);
        separator = b" ".as_slice();
    }
}

/// Prints a line anew: what stands before an assignment, the assignment, and a line feed. It takes no memory.
pub fn print_row(
    printed: &mut Vec<u8>,
    head: &[u8],
    names: &[String],
    vars: &[Var],
    values: &[Value],
)
    requires places { length values.now ≡ length vars.now }
    requires room { length head.now + length (show (map string_bytes names.now) (map variable_data vars.now) values.now) < vec_capacity printed.old }
    ensures items { printed.new.items ≡ head.now ++ (show (map string_bytes names.now) (map variable_data vars.now) values.now ++ 10 ∷ []) }
    ensures capacity { vec_capacity printed.old ≤ vec_capacity printed.new }
{
    printed.clear();
    push_bytes(printed, head);
    push_line(printed, names, vars, values);
    push_bytes(printed, b"\n");
}
