//! The order of the bits: as they are declared, or slots near those that lines tie them to.

ghost use Rattle.std.specs.Prelude.{◌≡◌, false, length, IfOk, IfSome};
ghost use Rattle.spec_model.specs.GameViews.{game_data};
ghost use Rattle.bit_compile.specs.Domains.{state_domains, level_count};
ghost use Rattle.bdd_bits.specs.Orders.{IsDeclared};
ghost use Rattle.bdd_sets.specs.MoveBits.{LeadsToNext};
ghost use Rattle.bdd_sets.specs.NextOrders.{KeepsNext};

use bdd_bits::{Order, OutOfMemory};
use bit_compile::Codes;
use game_values::seen::At;
use near_order::near_slots;
use spec_model::game::Game;
use std::alloc::Global;

/// Adds the bits of a slot, each present one before its next one.
fn add_bits(bits: &mut Vec<u32>, codes: &Codes, slot: usize) -> Result<(), OutOfMemory> {
    if slot >= codes.count() {
        return Ok(());
    }
    let (now, next) = (codes.level(At::Now, slot), codes.level(At::Next, slot));
    for k in 0..codes.width(slot) {
        bits.push(now.wrapping_add(k))?;
        bits.push(next.wrapping_add(k))?;
    }
    Ok(())
}

/// The order in which slots stand near those that lines tie them to, if it is one of all bits under which next bits stand as
/// the present ones do.
fn near_order(
    alloc: Global,
    game: &Game,
    codes: &Codes,
    to: &[u32],
) -> Result<Option<Order>, OutOfMemory>
    requires codes { codes.now ≡ state_domains (game_data game.now) }
    requires to { LeadsToNext (game_data game.now) to.now }
    ensures { let g = game_data game.now in
        IfOk result (λ found. IfSome found (λ o. (length o.names ≡ level_count (state_domains g)) × KeepsNext g o to.now)) }
{
    let slots = near_slots(alloc, game, codes.count())?;
    let mut bits = Vec::new(alloc);
    for slot in slots.iter() {
        add_bits(&mut bits, codes, *slot)?;
    }
    if bits.len() != codes.levels() as usize {
        return Ok(None);
    }
    match Order::of(alloc, bits)? {
        Some(order) if order.keeps(to) => Ok(Some(order)),
        _ => Ok(None),
    }
}

/// The order of the bits of a game's states.
pub fn order_of(
    alloc: Global,
    game: &Game,
    codes: &Codes,
    to: &[u32],
    near: bool,
) -> Result<Order, OutOfMemory>
    requires codes { codes.now ≡ state_domains (game_data game.now) }
    requires to { LeadsToNext (game_data game.now) to.now }
    ensures bits { let g = game_data game.now in
        IfOk result (λ o. (length o.names ≡ level_count (state_domains g)) × KeepsNext g o to.now) }
    ensures declared { near ≡ false → IfOk result IsDeclared }
{
    if near {
        if let Some(order) = near_order(alloc, game, codes, to)? {
            return Ok(order);
        }
    }
    Order::declared(alloc, codes.levels())
}

/// Whether some bit stands at another level than that of its number.
pub fn is_moved(order: &Order) -> bool
    ensures { IsDeclared order.now → result ≡ false }
{
    for level in 0..order.len() {
        if order.bit(level) != level {
            return true;
        }
    }
    false
}
