//! What a climb from the declared order tells.

ghost use Rattle.std.specs.Prelude.{◌≡◌, ◌≤◌, length, IfOk, IfErr};
ghost use Rattle.spec_model.specs.GameViews.{game_data};
ghost use Rattle.spec_order.specs.Orders.{declared, slots_for, HasNodesUnder};
ghost use Rattle.spec_order.specs.Reports.{IsReportOn};
ghost use Rattle.spec_order.specs.Scenes.{IsClimbOf};

use crate::report::{Better, OrderReport};
use crate::slots::places_in;
use bit_compile::OutOfMemory;
use spec_model::game::Game;
use std::alloc::Global;
use variable_order::Found;

/// The report, by the slots under the declared order, their nodes, and what climbing from them found.
pub fn report(
    alloc: Global,
    game: &Game,
    slots: &[usize],
    nodes: u32,
    found: &Found,
) -> Result<OrderReport, OutOfMemory>
    requires few { length (game_data game.now).variables ≤ 32 }
    requires slots { let g = game_data game.now in slots.now ≡ slots_for g (declared g) }
    requires nodes { let g = game_data game.now in HasNodesUnder g (declared g) nodes }
    requires climbed { IsClimbOf (game_data game.now) nodes found.now.order.items found.now.nodes }
    ensures { IfOk result (IsReportOn (game_data game.now)) }
{
    if nodes <= found.nodes {
        return Ok(OrderReport {
            nodes,
            better: None,
        });
    }
    let tables = game.hidden.len();
    let order = places_in(alloc, &slots[tables..], &found.order[tables..])?;
    Ok(OrderReport {
        nodes,
        better: Some(Better {
            nodes: found.nodes,
            order,
        }),
    })
}
