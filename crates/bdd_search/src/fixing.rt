//! Fixing the bits of values.

ghost use Rattle.std.specs.Prelude.{◌≡◌, ◌+◌, ◌<◌, ◌≤◌, ◌⊎◌, ℕ, true, length};
ghost use Rattle.std.specs.List.{list_any};
ghost use Rattle.spec_model.specs.declared.value.Value.{Value};
ghost use Rattle.spec_model.specs.Values.{same_value, values_of};
ghost use Rattle.spec_model.specs.Diagrams.{Bits};
ghost use Rattle.game_values.specs.declared.seen.At.{At};
ghost use Rattle.bdd_ops.specs.Paths.{fixed_at, Agrees};
ghost use Rattle.bit_compile.specs.Domains.{level_count};
ghost use Rattle.bit_compile.specs.Codes.{has_number, domain_in};
ghost use Rattle.bit_compile.specs.Laid.{IsOutside};
ghost use Rattle.bdd_search.specs.Parts.{ArePart, AgreesWithin, IsFixedTo, IsValueFixed, AllowsValue, AreFixed, AllowsValues, KeepsOtherBits};

use bit_compile::{Codes, code, power};
use game_values::seen::At;
use spec_model::value::Value;

/// Fixes no bit any more.
pub fn loosen(fixed: &mut [Option<bool>])
    ensures { (s : Bits) → Agrees fixed.new 0 s }
{
    for level in 0..fixed.len() {
        fixed[level] = None;
    }
}

/// Fixes a number's digits from a level on.
fn fix_number(fixed: &mut [Option<bool>], level: usize, width: u32, n: usize)
    requires narrow { width ≤ 64 }
    requires within { level + width ≤ length fixed.old }
    ensures fixes { IsFixedTo fixed.new level width n }
    ensures allows { (s : Bits) → has_number level width n s ≡ true →
        AgreesWithin fixed.new level width s }
    ensures others { (m : ℕ) → (m < level) ⊎ (level + width ≤ m) →
        fixed_at fixed.new m ≡ fixed_at fixed.old m }
{
    if width == 0 {
        return;
    }
    let half = power(width - 1);
    let high = half <= n;
    let rest = if high { n - half } else { n };
    fixed[level] = Some(high);
    fix_number(fixed, level + 1, width - 1, rest);
}

/// Fixes the bits of one value of a state.
fn fix_value(codes: &Codes, at: At, k: usize, value: Value, fixed: &mut [Option<bool>])
    requires known { k < length codes.now }
    requires among { list_any (same_value value) (values_of (domain_in codes.now k)) ≡ true }
    requires room { length fixed.old ≡ level_count codes.now }
    ensures fixes { IsValueFixed codes.now at k value fixed.new }
    ensures allows { AllowsValue codes.now at k value fixed.new }
    ensures others { (m : ℕ) → IsOutside codes.now at k m →
        fixed_at fixed.new m ≡ fixed_at fixed.old m }
{
    let n = code(codes.domain(k), value, 0);
    fix_number(fixed, codes.level(at, k) as usize, codes.width(k), n);
}

/// Fixes the present or the next bits of the values of the slots from slot `from` up to slot `end`.
pub fn fix(
    codes: &Codes,
    at: At,
    from: usize,
    end: usize,
    values: &[Value],
    fixed: &mut [Option<bool>],
)
    requires part { ArePart codes.now from end values.now }
    requires known { end ≤ length codes.now }
    requires room { length fixed.old ≡ level_count codes.now }
    ensures fixes { AreFixed codes.now at from values.now fixed.new }
    ensures allows { AllowsValues codes.now at from values.now fixed.old fixed.new }
    ensures keeps { KeepsOtherBits codes.now at fixed.old fixed.new }
{
    for k in 0..end - from {
        fix_value(codes, at, from + k, values[k], fixed);
    }
}
