//! The first 0 of a plane.

ghost use Rattle.std.specs.Prelude.{◌≡◌, ◌==◌, ◌+◌, ◌*◌, ◌≤◌, ◌<◌, not, length, slice_index};
ghost use Rattle.std.specs.List.{prefix_len};
ghost use Rattle.std.specs.Simd.Lanes.{chunk};
ghost use Rattle.column_planes.specs.Planes.{IsFirstZero, IsFullUpTo, has_zero};

use std::simd::prelude::*;

/// How many of eight words come before the first that has a 0.
fn full_of_eight(a: &[u64], at: usize) -> usize
    requires { at + 8 ≤ length a.now }
    ensures { result ≡ prefix_len (λ w. not (has_zero w)) (chunk at 8 a.now) }
{
    let open = u64x8::from_slice(&a[at..])
        .simd_ne(u64x8::splat(u64::MAX))
        .to_bitmask();
    if open == 0 {
        8
    } else {
        open.trailing_zeros() as usize
    }
}

/// The first word from one on that has a 0, or the number of words.
fn full_rest(a: &[u64], from: usize) -> usize
    requires { IsFullUpTo a.now from }
    ensures within { from ≤ result }
    ensures full { IsFullUpTo a.now result }
    ensures stops { result < length a.now → slice_index a.now result < 18446744073709551615 }
{
    for k in from..a.len() {
        if a[k] != u64::MAX {
            return k;
        }
    }
    a.len()
}

/// The first word that has a 0, or the number of words.
fn first_open(a: &[u64]) -> usize
    ensures full { IsFullUpTo a.now result }
    ensures stops { result < length a.now → slice_index a.now result < 18446744073709551615 }
{
    let eights = a.len() / 8;
    for k in 0..eights {
        let full = full_of_eight(a, 8 * k);
        if full < 8 {
            return 8 * k + full;
        }
    }
    full_rest(a, 8 * eights)
}

/// How many words are begun by so many bits.
pub fn words_for(bits: usize) -> usize
    ensures enough { bits ≤ 64 * result }
    ensures begun { 64 * result < bits + 64 }
{
    if bits % 64 == 0 {
        bits / 64
    } else {
        bits / 64 + 1
    }
}

/// The least number below `bits` whose bit is 0.
pub fn first_zero(a: &[u64], bits: usize) -> Option<usize>
    requires { bits ≤ 64 * length a.now }
    ensures { IsFirstZero a.now bits result }
{
    let words = words_for(bits);
    let k = first_open(&a[..words]);
    if k == words {
        return None;
    }
    let i = 64 * k + a[k].trailing_ones() as usize;
    if i < bits { Some(i) } else { None }
}
