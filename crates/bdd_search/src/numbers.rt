//! Numbers from bits, and values from numbers.

ghost use Rattle.std.specs.Prelude.{◌≡◌, ◌+◌, ◌<◌, ◌≤◌, ◌^◌, ◌≤ℤ◌, ◌-ℤ◌, ◌+ℤ◌, pos, true, false, length, slice_index_or};
ghost use Rattle.spec_model.specs.Views.{domain_data};
ghost use Rattle.spec_model.specs.Values.{values_of};
ghost use Rattle.spec_model.specs.DiagramReads.{bits_of};
ghost use Rattle.bit_compile.specs.Codes.{has_number};
ghost use Rattle.bit_compile.specs.Laid.{IsCountable};

use bit_compile::{power, size};
use spec_model::value::{Domain, Value};

/// The number whose digits stand from a level on.
pub fn digits(bits: &[bool], level: usize, width: u32) -> usize
    requires narrow { width ≤ 64 }
    requires within { level + width ≤ length bits.now }
    ensures small { result < 2 ^ width }
    ensures digits { has_number level width result (bits_of bits.now) ≡ true }
{
    if width == 0 {
        return 0;
    }
    let rest = digits(bits, level + 1, width - 1);
    if bits[level] {
        power(width - 1) + rest
    } else {
        rest
    }
}

/// The whole number of an interval with this code.
fn whole(lo: i64, hi: i64, n: usize) -> i64
    requires low { (pos 0 -ℤ pos (10 ^ 12)) ≤ℤ lo }
    requires high { hi ≤ℤ pos (10 ^ 12) }
    requires within { (lo +ℤ pos n) ≤ℤ hi }
    ensures { result ≡ lo +ℤ pos n }
{
    lo + n as i64
}

/// The value of a domain with this code, if it has one.
pub fn value_of(domain: &Domain, n: usize) -> Value
    requires { IsCountable (domain_data domain.now) }
    ensures { let values = values_of (domain_data domain.now) in
        n < length values → result ≡ slice_index_or values n (Value.Bool false) }
{
    if n >= size(domain) {
        return Value::Bool(false);
    }
    match domain {
        Domain::Boolean => Value::Bool(n == 1),
        Domain::Range { lo, hi } => Value::Int(whole(*lo, *hi, n)),
        Domain::Names(names) => Value::Name(names[n]),
    }
}
