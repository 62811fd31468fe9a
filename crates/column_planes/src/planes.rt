//! Boolean operations on planes, eight words at a time.

ghost use Rattle.std.specs.Prelude.{◌≡◌, ℕ, ◌+◌, ◌*◌, ◌≤◌, ◌<◌, ◌&&◌, ◌||◌, not, map, length, bit_and, bit_or};
ghost use Rattle.std.specs.Int.{bit_not, w64};
ghost use Rattle.std.specs.Simd.Lanes.{zip2};
ghost use Rattle.column_planes.specs.Planes.{bit_in, IsWrittenTo};

use std::simd::prelude::*;

/// Eight words of a conjunction.
fn and_eight(a: &[u64], b: &[u64], at: usize, out: &mut [u64])
    requires lengths { (length b.now ≡ length a.now) × (length out.old ≡ length a.now) }
    requires room { at + 8 ≤ length a.now }
    requires written { IsWrittenTo at (zip2 bit_and a.now b.now) out.old }
    ensures written { IsWrittenTo (at + 8) (zip2 bit_and a.now b.now) out.new }
    ensures lengths { length out.new ≡ length a.now }
{
    let both = u64x8::from_slice(&a[at..]) & u64x8::from_slice(&b[at..]);
    both.copy_to_slice(&mut out[at..]);
}

/// The last words of a conjunction.
fn and_rest(a: &[u64], b: &[u64], from: usize, out: &mut [u64])
    requires lengths { (length b.now ≡ length a.now) × (length out.old ≡ length a.now) }
    requires within { from ≤ length a.now }
    requires written { IsWrittenTo from (zip2 bit_and a.now b.now) out.old }
    ensures { out.new ≡ zip2 bit_and a.now b.now }
{
    for k in from..a.len() {
        out[k] = a[k] & b[k];
    }
}

/// Writes where both bits are 1.
pub fn and_planes(a: &[u64], b: &[u64], out: &mut [u64])
    requires lengths { (length b.now ≡ length a.now) × (length out.old ≡ length a.now) }
    ensures words { out.new ≡ zip2 bit_and a.now b.now }
    ensures bits { (i : ℕ) → bit_in out.new i ≡ (bit_in a.now i && bit_in b.now i) }
{
    let eights = a.len() / 8;
    for k in 0..eights {
        and_eight(a, b, 8 * k, out);
    }
    and_rest(a, b, 8 * eights, out);
}

/// Eight words of a disjunction.
fn or_eight(a: &[u64], b: &[u64], at: usize, out: &mut [u64])
    requires lengths { (length b.now ≡ length a.now) × (length out.old ≡ length a.now) }
    requires room { at + 8 ≤ length a.now }
    requires written { IsWrittenTo at (zip2 bit_or a.now b.now) out.old }
    ensures written { IsWrittenTo (at + 8) (zip2 bit_or a.now b.now) out.new }
    ensures lengths { length out.new ≡ length a.now }
{
    let either = u64x8::from_slice(&a[at..]) | u64x8::from_slice(&b[at..]);
    either.copy_to_slice(&mut out[at..]);
}

/// The last words of a disjunction.
fn or_rest(a: &[u64], b: &[u64], from: usize, out: &mut [u64])
    requires lengths { (length b.now ≡ length a.now) × (length out.old ≡ length a.now) }
    requires within { from ≤ length a.now }
    requires written { IsWrittenTo from (zip2 bit_or a.now b.now) out.old }
    ensures { out.new ≡ zip2 bit_or a.now b.now }
{
    for k in from..a.len() {
        out[k] = a[k] | b[k];
    }
}

/// Writes where a bit of the two is 1.
pub fn or_planes(a: &[u64], b: &[u64], out: &mut [u64])
    requires lengths { (length b.now ≡ length a.now) × (length out.old ≡ length a.now) }
    ensures words { out.new ≡ zip2 bit_or a.now b.now }
    ensures bits { (i : ℕ) → bit_in out.new i ≡ (bit_in a.now i || bit_in b.now i) }
{
    let eights = a.len() / 8;
    for k in 0..eights {
        or_eight(a, b, 8 * k, out);
    }
    or_rest(a, b, 8 * eights, out);
}

/// Eight words of a negation.
fn not_eight(a: &[u64], at: usize, out: &mut [u64])
    requires lengths { length out.old ≡ length a.now }
    requires room { at + 8 ≤ length a.now }
    requires written { IsWrittenTo at (map (bit_not w64) a.now) out.old }
    ensures written { IsWrittenTo (at + 8) (map (bit_not w64) a.now) out.new }
    ensures lengths { length out.new ≡ length a.now }
{
    let turned = !u64x8::from_slice(&a[at..]);
    turned.copy_to_slice(&mut out[at..]);
}

/// The last words of a negation.
fn not_rest(a: &[u64], from: usize, out: &mut [u64])
    requires lengths { length out.old ≡ length a.now }
    requires within { from ≤ length a.now }
    requires written { IsWrittenTo from (map (bit_not w64) a.now) out.old }
    ensures { out.new ≡ map (bit_not w64) a.now }
{
    for k in from..a.len() {
        out[k] = !a[k];
    }
}

/// Writes where the bit is 0.
pub fn not_plane(a: &[u64], out: &mut [u64])
    requires lengths { length out.old ≡ length a.now }
    ensures words { out.new ≡ map (bit_not w64) a.now }
    ensures bits { (i : ℕ) → i < 64 * length a.now → bit_in out.new i ≡ not (bit_in a.now i) }
{
    let eights = a.len() / 8;
    for k in 0..eights {
        not_eight(a, 8 * k, out);
    }
    not_rest(a, 8 * eights, out);
}
