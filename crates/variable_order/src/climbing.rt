//! One best move after the other, until none makes fewer parts.

ghost use Rattle.std.specs.Prelude.{◌≡◌, ◌≤◌, IfOk, Err, length};
ghost use Rattle.bdd_reorder.specs.Keeping.{AreRoots};
ghost use Rattle.bdd_reorder.specs.Making.{functions_at, diagrams_at};
ghost use Rattle.variable_order.specs.Levels.{IsOrder};
ghost use Rattle.variable_order.specs.Stores.{FitsSlots, Stays};
ghost use Rattle.variable_order.specs.Climbing.{IsClimb};
ghost use Rattle.variable_order.specs.CrowdedClimbs.{IsCrowdedByClimb};

use crate::rounds::{best_move, moved};
use bdd_ops::{Diagrams, Root, StoreFault};
use std::alloc::Global;

/// An order, and how many parts there are under it.
#[derive(Drop)]
pub struct Found {
    pub order: Vec<usize>,
    pub nodes: u32,
}

/// The order that is reached from one with so many parts by the best moves, until none makes fewer. The first slots of the
/// order stay. `Full`: copying under an order that was tried fills the budget.
pub fn climb(
    alloc: Global,
    from: &mut Diagrams,
    roots: &[Root],
    to: &mut Diagrams,
    widths: &[u32],
    start: Found,
    fixed: usize,
) -> Result<Found, StoreFault>
    requires ready { AreRoots from.old.state roots.now × FitsSlots from.old to.old widths.now × IsOrder widths.now start.order.items }
    requires fixed { fixed ≤ length start.order.items }
    ensures climbed { IfOk result (λ found. IsClimb fixed widths.now (functions_at from.old roots.now) start.order.items start.nodes found.order.items found.nodes) }
    ensures full { result ≡ Err StoreFault.Full → IsCrowdedByClimb to.old.state to.new.state.table fixed widths.now (functions_at from.old roots.now) (diagrams_at from.old roots.now) start.order.items start.nodes }
    ensures stays { Stays from.old from.new × Stays to.old to.new }
{
    let Found {
        mut order,
        mut nodes,
    } = start;
    loop {
        let best = best_move(alloc, from, roots, to, widths, &order, fixed, nodes)?;
        let Some((i, j)) = best.slot else {
            return Ok(Found { order, nodes });
        };
        order = moved(alloc, &order, i, j)?;
        nodes = best.nodes;
    }
}
