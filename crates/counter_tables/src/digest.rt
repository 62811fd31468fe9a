//! A number that is most often another one for another state or spot.

use counterstrategy::EnvSpot;
use spec_model::value::Value;

fn mixed(sum: u64, part: u64) -> u64 {
    (sum ^ part)
        .wrapping_mul(0x0000_0100_0000_01b3)
        .rotate_left(23)
}

fn digest_of_value(v: Value) -> u64 {
    match v {
        Value::Bool(b) => u64::from(b),
        Value::Int(z) => z.cast_unsigned().wrapping_add(7),
        Value::Name(n) => u64::from(n).wrapping_add(11),
    }
}

/// The digest of a state with its spot.
pub fn digest(state: &[Value], spot: EnvSpot) -> u64 {
    let mut sum = mixed(u64::from(spot.goal), u64::from(spot.asm));
    sum = mixed(mixed(sum, spot.layer), spot.rank);
    for v in state {
        sum = mixed(sum, digest_of_value(*v));
    }
    sum
}
