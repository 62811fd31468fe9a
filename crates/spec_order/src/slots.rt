//! The slots of variables, how many levels each has, and the variables of slots.

ghost use Rattle.std.specs.Prelude.{◌≡◌, ◌<◌, ◌≤◌, ◌*◌, length, map, slice_index, IfOk};
ghost use Rattle.std.specs.List.{All, Contains, range_with_len};
ghost use Rattle.spec_model.specs.GameViews.{game_data};
ghost use Rattle.spec_model.specs.WellMade.{WellMade};
ghost use Rattle.bit_compile.specs.Domains.{width_of};
ghost use Rattle.bit_compile.specs.Compiled.{place_of};
ghost use Rattle.spec_order.specs.Orders.{declared, slots_for};
ghost use Rattle.spec_order.specs.Scenes.{AreAt};

use bit_compile::{Codes, OutOfMemory};
use spec_model::game::Game;
use spec_model::value::Owner;
use spec_model::variables::{count_inputs, count_outputs};
use std::alloc::Global;

/// How many levels each slot has: its present bits and its next ones.
pub fn widths(alloc: Global, codes: &Codes) -> Result<Vec<u32>, OutOfMemory>
    ensures { IfOk result (λ widths. widths.items ≡ map (λ d. 2 * width_of d) codes.now) }
{
    let mut widths = Vec::new(alloc);
    for k in 0..codes.count() {
        widths.push(2 * codes.width(k))?;
    }
    Ok(widths)
}

/// The slot of a variable: its place among the values of a state.
fn slot_of(game: &Game, k: usize) -> usize
    requires made { WellMade (game_data game.now) }
    requires known { k < length (game_data game.now).variables }
    ensures { result ≡ place_of (game_data game.now) k }
{
    let vars = &game.vars;
    let tables = game.hidden.len();
    match vars[k].owner {
        Owner::Env => tables + count_inputs(&vars[..k]),
        Owner::Sys => tables + count_inputs(vars) + count_outputs(&vars[..k]),
    }
}

/// The slots of the hidden tables.
fn table_slots(alloc: Global, game: &Game) -> Result<Vec<usize>, OutOfMemory>
    ensures { IfOk result (λ slots. slots.items ≡ range_with_len 0 (length (game_data game.now).hidden)) }
{
    let mut slots = Vec::new(alloc);
    for table in 0..game.hidden.len() {
        slots.push(table)?;
    }
    Ok(slots)
}

/// The slots under the declared order.
pub fn declared_slots(alloc: Global, game: &Game) -> Result<Vec<usize>, OutOfMemory>
    requires { WellMade (game_data game.now) }
    ensures { let g = game_data game.now in IfOk result (λ slots. slots.items ≡ slots_for g (declared g)) }
{
    let mut slots = table_slots(alloc, game)?;
    for k in 0..game.vars.len() {
        slots.push(slot_of(game, k))?;
    }
    Ok(slots)
}

/// A place of the slot, which is in the list.
fn place_in(list: &[usize], slot: usize) -> u32
    requires there { Contains list.now slot }
    requires few { length list.now ≤ 32 }
    ensures within { result < length list.now }
    ensures there { slice_index list.now result ≡ slot }
{
    for k in 0..list.len() {
        if list[k] == slot {
            return k as u32;
        }
    }
    unreachable!()
}

/// A place of each slot, all of which are in the list.
pub fn places_in(alloc: Global, list: &[usize], slots: &[usize]) -> Result<Vec<u32>, OutOfMemory>
    requires there { All (Contains list.now) slots.now }
    requires few { length list.now ≤ 32 }
    ensures { IfOk result (λ places. AreAt list.now places.items slots.now) }
{
    let mut places = Vec::new(alloc);
    for &slot in slots {
        places.push(place_in(list, slot))?;
    }
    Ok(places)
}
