//! Bits, and what is fixed of them, written at their levels and back.

ghost use Rattle.std.specs.Prelude.{◌≡◌, ◌<◌, ◌++◌, ℕ, Option, None, false, OnOk, length, map, slice_index_or};
ghost use Rattle.bdd_bits.specs.Orders.{bit_of, level_of};

use crate::OutOfMemory;
use crate::moves::put;
use crate::order::Order;

/// Writes what is fixed at each level: what is fixed of its bit.
pub(crate) fn write_fixed(order: &Order, fixed: &[Option<bool>], by_level: &mut [Option<bool>])
    requires each { length order.now.names ≡ length fixed.now }
    requires as_long { length by_level.old ≡ length fixed.now }
    ensures { (level : ℕ) → level < length fixed.now → slice_index_or by_level.new level None ≡ slice_index_or fixed.now (bit_of order.now level) None }
{
    for level in 0..order.len() {
        by_level[level as usize] = fixed[order.bit(level) as usize];
    }
}

/// Writes at each level its bit.
pub(crate) fn write_by_level(order: &Order, bits: &[bool], by_level: &mut [bool])
    requires each { length order.now.names ≡ length bits.now }
    requires as_long { length by_level.old ≡ length bits.now }
    ensures { (level : ℕ) → level < length bits.now → slice_index_or by_level.new level false ≡ slice_index_or bits.now (bit_of order.now level) false }
{
    for level in 0..order.len() {
        by_level[level as usize] = bits[order.bit(level) as usize];
    }
}

/// Writes for each bit what stands at its level.
pub(crate) fn write_bits(order: &Order, by_level: &[bool], bits: &mut [bool])
    requires each { length order.now.names ≡ length by_level.now }
    requires as_long { length bits.old ≡ length by_level.now }
    ensures { (bit : ℕ) → bit < length by_level.now → slice_index_or bits.new bit false ≡ slice_index_or by_level.now (level_of order.now bit) false }
{
    for bit in 0..order.len() {
        bits[bit as usize] = by_level[order.level(bit) as usize];
    }
}

/// Adds for each of these levels the bit that stands there.
pub(crate) fn add_bits(
    order: &Order,
    levels: &[u32],
    bits: &mut Vec<u32>,
) -> Result<(), OutOfMemory>
    ensures { OnOk result (bits.new.items ≡ bits.old.items ++ map (bit_of order.now) levels.now) }
{
    for &level in levels {
        put(bits, order.bit(level))?;
    }
    Ok(())
}
