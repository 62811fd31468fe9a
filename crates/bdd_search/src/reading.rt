//! Reading values from their bits.

ghost use Rattle.std.specs.Prelude.{◌≡◌, ◌+◌, ◌<◌, ◌≤◌, length, List};
ghost use Rattle.spec_model.specs.declared.value.Value.{Value};
ghost use Rattle.spec_model.specs.DiagramReads.{bits_of};
ghost use Rattle.bit_compile.specs.Domains.{level_count};
ghost use Rattle.bdd_search.specs.Parts.{AreOf, HaveValues, ShowsValue};

use crate::numbers::{digits, value_of};
use bit_compile::Codes;
use game_values::seen::At;
use spec_model::value::Value;

/// The value of a slot whose bits stand there, if they are those of one.
fn read_value(codes: &Codes, at: At, k: usize, bits: &[bool]) -> Value
    requires known { k < length codes.now }
    requires room { length bits.now ≡ level_count codes.now }
    ensures { (v : Value) → ShowsValue codes.now at k v (bits_of bits.now) → result ≡ v }
{
    let n = digits(bits, codes.level(at, k) as usize, codes.width(k));
    value_of(codes.domain(k), n)
}

/// Reads the values whose present or next bits stand there, of the slots from slot `from` up to slot `end`. Where they are
/// the bits of no values, what is read means nothing.
pub fn read(codes: &Codes, at: At, from: usize, end: usize, bits: &[bool], values: &mut [Value])
    requires part { from + length values.old ≡ end }
    requires known { end ≤ length codes.now }
    requires room { length bits.now ≡ level_count codes.now }
    ensures { (vs : List Value) → length vs ≡ length values.old → AreOf codes.now from vs →
        HaveValues codes.now at from vs (bits_of bits.now) → values.new ≡ vs }
{
    for k in 0..end - from {
        values[k] = read_value(codes, at, from + k, bits);
    }
}
