//! All moves of one slot from an order, tried one after the other.

ghost use Rattle.std.specs.Prelude.{◌≡◌, ◌<◌, ◌≤◌, ◌+◌, IfOk, Err, length};
ghost use Rattle.bdd_reorder.specs.Keeping.{AreRoots};
ghost use Rattle.bdd_reorder.specs.Making.{functions_at, diagrams_at};
ghost use Rattle.variable_order.specs.Levels.{IsOrder};
ghost use Rattle.variable_order.specs.Stores.{FitsSlots, Stays};
ghost use Rattle.variable_order.specs.Climbing.{moved as moved_lem, IsBest, IsKnown, KnowsBest};
ghost use Rattle.variable_order.specs.CrowdedClimbs.{IsCrowdedByMove};

use crate::sizes::nodes_under;
use bdd_ops::{Diagrams, Root, StoreFault};
use std::alloc::Global;

/// The fewest parts so far, and the first move that makes them, if it makes fewer than there are.
#[derive(Clone, Copy)]
pub struct Best {
    pub nodes: u32,
    pub slot: Option<(usize, usize)>,
}

/// The order with one slot taken out at a place and put in so that it stands at another.
pub fn moved(alloc: Global, order: &[usize], i: usize, j: usize) -> Result<Vec<usize>, StoreFault>
    requires places { (i < length order.now) × (j < length order.now) }
    ensures moved { IfOk result (λ after. after.items ≡ moved_lem order.now i j) }
    ensures memory { result ≡ Err StoreFault.Full → ⊥ }
{
    let mut after = Vec::from_slice(alloc, order)?;
    let slot = after.remove(i);
    match after.insert(j, slot) {
        Ok(()) => Ok(after),
        Err(_) => Err(StoreFault::Memory),
    }
}

/// What is known after one more move.
fn try_move(
    alloc: Global,
    from: &mut Diagrams,
    roots: &[Root],
    to: &mut Diagrams,
    widths: &[u32],
    order: &[usize],
    fixed: usize,
    nodes: u32,
    i: usize,
    j: usize,
    best: Best,
) -> Result<Best, StoreFault>
    requires ready { AreRoots from.old.state roots.now × FitsSlots from.old to.old widths.now × IsOrder widths.now order.now }
    requires places { (fixed ≤ i) × (i < length order.now) × (fixed ≤ j) × (j < length order.now) }
    requires known { KnowsBest fixed widths.now (functions_at from.old roots.now) order.now nodes i j best.nodes best.slot }
    ensures known { IfOk result (λ b. KnowsBest fixed widths.now (functions_at from.old roots.now) order.now nodes i (j + 1) b.nodes b.slot) }
    ensures full { result ≡ Err StoreFault.Full → IsCrowdedByMove to.old.state to.new.state.table fixed widths.now (diagrams_at from.old roots.now) order.now }
    ensures stays { Stays from.old from.new × Stays to.old to.new }
{
    if i == j {
        return Ok(best);
    }
    let after = moved(alloc, order, i, j)?;
    let parts = nodes_under(alloc, from, roots, to, widths, &after)?;
    if parts < best.nodes {
        Ok(Best {
            nodes: parts,
            slot: Some((i, j)),
        })
    } else {
        Ok(best)
    }
}

/// What is known after all moves of the slot at one place.
fn try_places(
    alloc: Global,
    from: &mut Diagrams,
    roots: &[Root],
    to: &mut Diagrams,
    widths: &[u32],
    order: &[usize],
    fixed: usize,
    nodes: u32,
    i: usize,
    best: Best,
) -> Result<Best, StoreFault>
    requires ready { AreRoots from.old.state roots.now × FitsSlots from.old to.old widths.now × IsOrder widths.now order.now }
    requires place { (fixed ≤ i) × (i < length order.now) }
    requires known { KnowsBest fixed widths.now (functions_at from.old roots.now) order.now nodes i fixed best.nodes best.slot }
    ensures known { IfOk result (λ b. KnowsBest fixed widths.now (functions_at from.old roots.now) order.now nodes (i + 1) fixed b.nodes b.slot) }
    ensures full { result ≡ Err StoreFault.Full → IsCrowdedByMove to.old.state to.new.state.table fixed widths.now (diagrams_at from.old roots.now) order.now }
    ensures stays { Stays from.old from.new × Stays to.old to.new }
{
    let mut best = best;
    for j in fixed..order.len() {
        best = try_move(
            alloc, from, roots, to, widths, order, fixed, nodes, i, j, best,
        )?;
    }
    Ok(best)
}

/// The fewest parts after one move, and the first move that makes them, if they are fewer than under the order, which has so many.
/// The first slots of the order stay.
pub fn best_move(
    alloc: Global,
    from: &mut Diagrams,
    roots: &[Root],
    to: &mut Diagrams,
    widths: &[u32],
    order: &[usize],
    fixed: usize,
    nodes: u32,
) -> Result<Best, StoreFault>
    requires ready { AreRoots from.old.state roots.now × FitsSlots from.old to.old widths.now × IsOrder widths.now order.now }
    requires fixed { fixed ≤ length order.now }
    ensures best { IfOk result (λ b. IsBest fixed widths.now (functions_at from.old roots.now) order.now b.nodes) }
    ensures known { IfOk result (λ b. IsKnown fixed widths.now (functions_at from.old roots.now) order.now nodes b.nodes b.slot) }
    ensures full { result ≡ Err StoreFault.Full → IsCrowdedByMove to.old.state to.new.state.table fixed widths.now (diagrams_at from.old roots.now) order.now }
    ensures stays { Stays from.old from.new × Stays to.old to.new }
{
    let mut best = Best { nodes, slot: None };
    for i in fixed..order.len() {
        best = try_places(alloc, from, roots, to, widths, order, fixed, nodes, i, best)?;
    }
    Ok(best)
}
