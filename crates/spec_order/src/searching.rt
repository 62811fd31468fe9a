//! The search for a better order, over two stores.

ghost use Rattle.std.specs.Prelude.{IfOk, IfErr};
ghost use Rattle.spec_model.specs.GameViews.{game_data};
ghost use Rattle.bdd_store.specs.State.{IsNewStore, SameRoots};
ghost use Rattle.bit_compile.specs.Domains.{level_count};
ghost use Rattle.spec_order.specs.Reports.{IsReportOn};
ghost use Rattle.spec_order.specs.Scenes.{IsScene, HasLines, MayHalt};

use crate::fault::OrderFault;
use crate::report::OrderReport;
use crate::reporting::report;
use crate::slots::{declared_slots, widths};
use bdd_ops::{Diagrams, Root};
use bit_compile::Codes;
use spec_model::game::Game;
use std::alloc::Global;
use variable_order::{Found, climb, nodes_under};

/// A report on a game, whose lines' functions the first store has. They are copied into the second one, which is new.
pub fn searched(
    alloc: Global,
    game: &Game,
    codes: &Codes,
    from: &mut Diagrams,
    roots: &[Root],
    to: &mut Diagrams,
) -> Result<OrderReport, OrderFault>
    requires scene { IsScene (game_data game.now) codes.now }
    requires lines { HasLines (game_data game.now) from.old roots.now }
    requires to { IsNewStore to.old.state (level_count codes.now) to.old.state.table.budget }
    ensures report { IfOk result (IsReportOn (game_data game.now)) }
    ensures refused { IfErr result (MayHalt (game_data game.now) to.old.state.table.budget) }
    ensures roots { SameRoots from.old.state from.new.state }
{
    let widths = widths(alloc, codes)?;
    let slots = declared_slots(alloc, game)?;
    let nodes = nodes_under(alloc, from, roots, to, &widths, &slots)?;
    let order = Vec::from_slice(alloc, &slots)?;
    let start = Found { order, nodes };
    let tables = game.hidden.len();
    let found = climb(alloc, from, roots, to, &widths, start, tables)?;
    let told = report(alloc, game, &slots, nodes, &found)?;
    Ok(told)
}
