//! The levels of slots under an order.

ghost use Rattle.std.specs.Prelude.{◌≡◌, ◌+◌, ◌<◌, ◌^◌, ◌++◌, ℕ, IfOk, OnOk, length};
ghost use Rattle.std.specs.List.{All, range_with_len};
ghost use Rattle.variable_order.specs.Levels.{total, start_in, levels_under as levels_under_lem, IsOrder};

use bdd_ops::OutOfMemory;
use std::alloc::Global;

/// How many levels the slots before this one have.
fn start(widths: &[u32], order: &[usize], slot: usize) -> u32
    requires known { All (λ before. before < length widths.now) order.now }
    requires few { total widths.now order.now < 2 ^ 32 }
    ensures { result ≡ start_in widths.now order.now slot }
{
    let mut levels = 0;
    for &before in order {
        if before == slot {
            return levels;
        }
        levels += widths[before];
    }
    levels
}

/// Adds as many levels, from the first one on.
fn push_levels(levels: &mut Vec<u32>, first: u32, width: u32) -> Result<(), OutOfMemory>
    requires { first + width < 2 ^ 32 }
    ensures { OnOk result (levels.new.items ≡ levels.old.items ++ range_with_len first width) }
{
    for k in 0..width {
        levels.push(first + k)?;
    }
    Ok(())
}

/// The level under an order of each level that there is where the slots stand as they are numbered.
pub fn levels_under(alloc: Global, widths: &[u32], order: &[usize]) -> Result<Vec<u32>, OutOfMemory>
    requires order { IsOrder widths.now order.now }
    requires few { total widths.now order.now < 2 ^ 32 }
    ensures { IfOk result (λ levels. levels.items ≡ levels_under_lem widths.now order.now) }
{
    let mut levels = Vec::new(alloc);
    for slot in 0..widths.len() {
        push_levels(&mut levels, start(widths, order, slot), widths[slot])?;
    }
    Ok(levels)
}
