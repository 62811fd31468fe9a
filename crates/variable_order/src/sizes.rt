//! How many parts diagrams have under an order.

ghost use Rattle.std.specs.Prelude.{◌≡◌, IfOk, Err};
ghost use Rattle.bdd_reorder.specs.Keeping.{AreRoots};
ghost use Rattle.bdd_reorder.specs.Making.{functions_at, diagrams_at};
ghost use Rattle.bdd_reorder.specs.Crowding.{IsCrowdedByCopy};
ghost use Rattle.variable_order.specs.Levels.{levels_under, IsOrder};
ghost use Rattle.variable_order.specs.Sizes.{HasNodes};
ghost use Rattle.variable_order.specs.Stores.{FitsSlots, Stays};

use crate::levels::levels_under;
use bdd_ops::{Diagrams, Root, StoreFault};
use bdd_reorder::{copy, count, release_all};
use std::alloc::Global;

/// How many different parts the diagrams have together under an order of the slots, both constants always counted. `from` has
/// them where the slots stand as they are numbered; the copies in `to` are given back.
pub fn nodes_under(
    alloc: Global,
    from: &mut Diagrams,
    roots: &[Root],
    to: &mut Diagrams,
    widths: &[u32],
    order: &[usize],
) -> Result<u32, StoreFault>
    requires ready { AreRoots from.old.state roots.now × FitsSlots from.old to.old widths.now }
    requires order { IsOrder widths.now order.now }
    ensures counted { IfOk result (λ n. HasNodes widths.now (functions_at from.old roots.now) order.now n) }
    ensures full { result ≡ Err StoreFault.Full → IsCrowdedByCopy to.old.state to.new.state.table (levels_under widths.now order.now) (diagrams_at from.old roots.now) }
    ensures from_stays { Stays from.old from.new }
    ensures to_stays { Stays to.old to.new }
{
    let levels = levels_under(alloc, widths, order)?;
    let copies = copy(alloc, from, roots, to, &levels)?;
    let parts = count(alloc, to, &copies);
    release_all(to, copies);
    match parts {
        Ok(parts) => Ok(parts),
        Err(_) => Err(StoreFault::Memory),
    }
}
