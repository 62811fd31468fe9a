//! The definitions in the order in which they are put in, and which of them are used in their own bodies.

ghost use Rattle.std.specs.Prelude.{length, map, IfOk};
ghost use Rattle.spectra_uses.specs.Cycles.{AreOnCycle};
ghost use Rattle.spectra_uses.specs.Orders.{IsOrderOf};
ghost use Rattle.spectra_resolved.specs.TextViews.{definition_data};
ghost use Rattle.spectra_uses.specs.Uses.{all_uses as all_uses_lem};

use crate::cycles::cycles;
use crate::placing::order_of as order_by;
use crate::uses::all_uses;
use spectra_resolved::text::Definition;
use std::alloc::{AllocError, Global};

/// The definitions' numbers in an order in which each stands behind those that it uses, and for each number whether that
/// definition is used in its own body, directly or through others. Of two such the order says nothing.
#[derive(Drop)]
pub struct Order {
    pub numbers: Vec<usize>,
    pub on_cycle: Vec<bool>,
}

/// The order of a text's defines and predicates. The error is that memory is short.
pub fn order_of(alloc: Global, definitions: &[Definition<'_>]) -> Result<Order, AllocError>
    ensures order { IfOk result (λ order. IsOrderOf (all_uses_lem (map definition_data definitions.now)) (length definitions.now) order.numbers.items) }
    ensures on_cycle { IfOk result (λ order. AreOnCycle (all_uses_lem (map definition_data definitions.now)) (length definitions.now) order.on_cycle.items) }
{
    let uses = all_uses(alloc, definitions)?;
    let numbers = order_by(alloc, &uses)?;
    let on_cycle = cycles(alloc, &uses, &numbers)?;
    Ok(Order { numbers, on_cycle })
}
