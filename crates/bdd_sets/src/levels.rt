//! The levels of the next bits of a game's states.

ghost use Rattle.std.specs.Prelude.{◌≡◌, ◌+◌, ◌<◌, ◌^◌, ◌++◌, length, IfOk};
ghost use Rattle.spec_model.specs.GameViews.{game_data};
ghost use Rattle.spec_model.specs.WellMade.{WellMade};
ghost use Rattle.bit_compile.specs.Domains.{state_domains};
ghost use Rattle.bit_compile.specs.Proper.{levels_from};
ghost use Rattle.bdd_sets.specs.Levels.{HasNextBits, LeadsOn, is_elsewhere as is_elsewhere_lem};
ghost use Rattle.bdd_sets.specs.Forcing.{AreLevelsOf};

use crate::moves::NextLevels;
use bit_compile::{Codes, OutOfMemory};
use game_values::seen::At;
use spec_model::game::Game;
use spec_model::variables::count_inputs;
use std::alloc::Global;

/// The list, with so many levels more from this one on.
fn with_levels(mut list: Vec<u32>, first: u32, count: u32) -> Result<Vec<u32>, OutOfMemory>
    requires { first + count < 2 ^ 32 }
    ensures { IfOk result (λ levels. levels.items ≡ list.items ++ levels_from first count) }
{
    for level in first..first + count {
        list.push(level)?;
    }
    Ok(list)
}

/// Whether a slot is none of those from `first` up to `past`.
fn is_elsewhere(first: usize, past: usize, k: usize) -> bool
    ensures { result ≡ is_elsewhere_lem first past k }
{
    !(first <= k && k < past)
}

/// The list with the levels of one slot's next bits more, unless the slot is one of those from `first` up to `past`.
fn with_slot(
    levels: Vec<u32>,
    codes: &Codes,
    first: usize,
    past: usize,
    k: usize,
) -> Result<Vec<u32>, OutOfMemory>
    requires { k < length codes.now }
    ensures { HasNextBits codes.now (is_elsewhere_lem first past) k levels.items → IfOk result (λ more. HasNextBits codes.now (is_elsewhere_lem first past) (k + 1) more.items) }
{
    if is_elsewhere(first, past, k) {
        with_levels(levels, codes.level(At::Next, k), codes.width(k))
    } else {
        Ok(levels)
    }
}

/// The levels of the next bits of each slot, but for those from `first` up to `past`.
fn next_bits(
    alloc: Global,
    codes: &Codes,
    first: usize,
    past: usize,
) -> Result<Vec<u32>, OutOfMemory>
    ensures { IfOk result (λ levels. HasNextBits codes.now (is_elsewhere_lem first past) (length codes.now) levels.items) }
{
    let mut levels = Vec::new(alloc);
    for k in 0..codes.count() {
        levels = with_slot(levels, codes, first, past, k)?;
    }
    Ok(levels)
}

/// For each level, the next one of the same bit. A slot has its present bits first; its next ones lead to themselves.
fn next_ones(alloc: Global, codes: &Codes) -> Result<Vec<u32>, OutOfMemory>
    ensures { IfOk result (λ to. LeadsOn codes.now (length codes.now) to.items) }
{
    let mut to = Vec::new(alloc);
    for k in 0..codes.count() {
        let level = codes.level(At::Next, k);
        let present = with_levels(to, level, codes.width(k))?;
        to = with_levels(present, level, codes.width(k))?;
    }
    Ok(to)
}

/// The levels of a game's next bits: all of them, those of hidden tables and outputs, and where each level leads.
pub fn next_levels(alloc: Global, codes: &Codes, game: &Game) -> Result<NextLevels, OutOfMemory>
    requires made { WellMade (game_data game.now) }
    requires codes { codes.now ≡ state_domains (game_data game.now) }
    ensures { IfOk result (λ lists. AreLevelsOf (game_data game.now) lists) }
{
    let first = game.hidden.len();
    let past = first + count_inputs(&game.vars);
    let all = next_bits(alloc, codes, 0, 0)?;
    let reply = next_bits(alloc, codes, first, past)?;
    let to = next_ones(alloc, codes)?;
    Ok(NextLevels { all, reply, to })
}
