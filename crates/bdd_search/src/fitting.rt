//! Whether values are those of slots.

ghost use Rattle.std.specs.Prelude.{◌≤◌, ◌↔◌, length, IsTrue};
ghost use Rattle.bdd_search.specs.Parts.{ArePart};

use bit_compile::Codes;
use spec_model::value::Value;
use spec_model::variables::has_value;

/// Whether the values are those of the slots from slot `from` up to slot `end`, one for each.
pub fn fit(codes: &Codes, from: usize, end: usize, values: &[Value]) -> bool
    requires rising { from ≤ end }
    requires known { end ≤ length codes.now }
    ensures { IsTrue result ↔ ArePart codes.now from end values.now }
{
    if values.len() != end - from {
        return false;
    }
    for k in 0..values.len() {
        if !has_value(codes.domain(from + k), values[k]) {
            return false;
        }
    }
    true
}
