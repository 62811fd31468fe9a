//! The nodes of a specification under its declared order, and a better order.

ghost use Rattle.std.specs.Prelude.{◌≡◌, ◌↔◌, ◌<◌, ◌≤◌, length, Err, IfOk, IfErr};
ghost use Rattle.spec_model.specs.Views.{spec_data};
ghost use Rattle.spec_model.specs.GameViews.{game_data};
ghost use Rattle.spec_model.specs.WellTyped.{WellTyped};
ghost use Rattle.spec_model.specs.Needs.{need_of};
ghost use Rattle.bdd_store.specs.State.{IsNewStore};
ghost use Rattle.bdd_bits.specs.Contents.{IsDeclared};
ghost use Rattle.bit_compile.specs.Domains.{level_count};
ghost use Rattle.hidden_game.specs.GameOf.{game_of};
ghost use Rattle.spec_order.specs.Reports.{IsReport, IsReportOn};
ghost use Rattle.spec_order.specs.Crowded.{CrowdedOrder};
ghost use Rattle.spec_order.specs.Scenes.{IsScene, MayHalt};

use crate::fault::OrderFault;
use crate::report::OrderReport;
use crate::searching::searched;
use bdd_bits::Diagrams;
use bdd_ops::Diagrams as Levels;
use bdd_reorder::release_all;
use bit_compile::Codes;
use hidden_game::expand;
use line_functions::line_functions;
use spec_model::game::Game;
use spec_model::spec::Spec;
use std::alloc::Global;

/// How many declared variables there may be.
const MOST_VARIABLES: usize = 32;

/// A report on a game, whose lines' functions are made in one new store, each bit at the level of its number, and copied into
/// another, both of one budget.
fn report_on(
    alloc: Global,
    game: &Game,
    codes: &Codes,
    mut bits: Diagrams,
    to: &mut Levels,
) -> Result<OrderReport, OrderFault>
    requires scene { IsScene (game_data game.now) codes.now }
    requires bits { IsNewStore bits.state (level_count codes.now) to.old.state.table.budget }
    requires declared { IsDeclared bits }
    requires to { IsNewStore to.old.state (level_count codes.now) to.old.state.table.budget }
    ensures report { IfOk result (IsReportOn (game_data game.now)) }
    ensures refused { IfErr result (MayHalt (game_data game.now) to.old.state.table.budget) }
{
    let roots = line_functions(&mut bits, codes, game)?;
    let mut from = bits.into_levels();
    let report = searched(alloc, game, codes, &mut from, &roots, to);
    release_all(&mut from, roots);
    report
}

/// A report on the game of a specification with few variables, or a refusal that isn't for want of room.
fn report_of(alloc: Global, spec: &Spec, budget: u32) -> Result<OrderReport, OrderFault>
    requires typed { WellTyped (spec_data spec.now) }
    requires few { length (spec_data spec.now).variables ≤ 32 }
    requires budget { 2 ≤ budget }
    ensures report { IfOk result (IsReport (spec_data spec.now)) }
    ensures refused { IfErr result (MayHalt (game_of (spec_data spec.now)) budget) }
{
    let game = expand(alloc, spec)?;
    let codes = Codes::make(alloc, &game)?;
    let levels = codes.levels();
    let bits = Diagrams::declared(alloc, levels, budget)?;
    let mut to = Levels::make(alloc, levels, budget)?;
    report_on(alloc, &game, &codes, bits, &mut to)
}

/// How many different parts the diagrams of the specification's lines have under the declared order of its variables, and the
/// order that is reached by moving one variable at a time to where it helps most, if that has fewer; two stores of at most
/// `budget` nodes each are used. `Limit`: there are more than 32 declared variables. `Budget`: the nodes ran out. `Memory`: none
/// was given.
pub fn order_of(alloc: Global, spec: &Spec, budget: u32) -> Result<OrderReport, OrderFault>
    requires typed { WellTyped (spec_data spec.now) }
    requires budget { 2 ≤ budget }
    ensures found { IfOk result (IsReport (spec_data spec.now)) }
    ensures limit { (result ≡ Err OrderFault.Limit) ↔ (32 < length (spec_data spec.now).variables) }
    ensures budget { let s = spec_data spec.now in
        result ≡ Err OrderFault.Budget → (budget < need_of s) × CrowdedOrder s budget }
{
    if spec.vars.len() > MOST_VARIABLES {
        return Err(OrderFault::Limit);
    }
    report_of(alloc, spec, budget)
}
