//! Where codes are equal to a value.

ghost use Rattle.std.specs.Prelude.{◌≡◌, ◌==◌, ℕ, ◌+◌, ◌*◌, ◌≤◌, ◌<◌, false, map, length, take, drop, get_or};
ghost use Rattle.std.specs.Simd.Lanes.{mask_l};
ghost use Rattle.column_planes.specs.Planes.{bit_in};

use std::simd::prelude::*;

/// The word of the first 64 codes.
fn word_of_64(codes: &[u16], value: u16) -> u64
    requires { 64 ≤ length codes.now }
    ensures { result ≡ mask_l (map (λ c. c == value) (take 64 codes.now)) }
{
    u16x64::from_slice(codes)
        .simd_eq(u16x64::splat(value))
        .to_bitmask()
}

/// The word of fewer than 64 codes.
fn word_of(codes: &[u16], value: u16) -> u64
    requires { length codes.now < 64 }
    ensures { result ≡ mask_l (map (λ c. c == value) codes.now) }
{
    let mut word = 0;
    for i in 0..codes.len() {
        let code = codes[codes.len() - 1 - i];
        word = 2 * word + u64::from(code == value);
    }
    word
}

/// The word of the last codes, fewer than 64.
fn last_word(codes: &[u16], value: u16, from: usize) -> u64
    requires within { from ≤ length codes.now }
    requires few { length codes.now < from + 64 }
    ensures { result ≡ mask_l (map (λ c. c == value) (drop from codes.now)) }
{
    word_of(&codes[from..], value)
}

/// Writes bit i as 1 exactly where code i is the value. There is a word for each 64 codes that are begun.
pub fn equal_codes(codes: &[u16], value: u16, out: &mut [u64])
    requires enough { length codes.now ≤ 64 * length out.old }
    requires begun { 64 * length out.old < length codes.now + 64 }
    ensures bits { (i : ℕ) → bit_in out.new i ≡ get_or (map (λ c. c == value) codes.now) i false }
    ensures lengths { length out.new ≡ length out.old }
{
    let whole = codes.len() / 64;
    for k in 0..whole {
        out[k] = word_of_64(&codes[64 * k..], value);
    }
    if whole < out.len() {
        out[whole] = last_word(codes, value, 64 * whole);
    }
}
