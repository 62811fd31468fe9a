//! Numbers as bits, the most significant first.

ghost use Rattle.std.specs.Prelude.{◌≡◌, ℕ, ◌+◌, ◌<◌, ◌≤◌, ◌^◌, ◌⊎◌, length, true, false, slice_index_or};
ghost use Rattle.spec_model.specs.DiagramReads.{bits_of};
ghost use Rattle.spec_model.specs.Needs.{bits_for};
ghost use Rattle.bit_compile.specs.Codes.{has_number};

/// 2 to a power.
pub fn power(k: u32) -> usize
    requires { k < 64 }
    ensures { result ≡ 2 ^ k }
{
    1usize << k
}

/// The least number of bits that gives so many codes.
pub fn width_for(count: usize) -> u32
    ensures width { result ≡ bits_for count }
    ensures narrow { result ≤ 64 }
{
    let mut width = 0;
    while width < 64 && power(width) < count {
        width += 1;
    }
    width
}

/// Writes a number's digits from a level on.
pub fn write_number(bits: &mut [bool], level: usize, width: u32, n: usize)
    requires narrow { width ≤ 64 }
    requires within { level + width ≤ length bits.old }
    ensures written { has_number level width n (bits_of bits.new) ≡ true }
    ensures others { (m : ℕ) → (m < level) ⊎ (level + width ≤ m) → slice_index_or bits.new m false ≡ slice_index_or bits.old m false }
{
    if width == 0 {
        return;
    }
    let half = power(width - 1);
    let high = half <= n;
    let rest = if high { n - half } else { n };
    bits[level] = high;
    write_number(bits, level + 1, width - 1, rest);
}
