//! The table of the system's strategy.

ghost use Rattle.std.specs.Prelude.{◌≡◌, map, IfOk, IfErr};
ghost use Rattle.spec_model.specs.Views.{spec_data};
ghost use Rattle.spec_model.specs.GameViews.{game_data};
ghost use Rattle.spec_model.specs.WellTyped.{WellTyped};
ghost use Rattle.hidden_game.specs.GameOf.{game_of};
ghost use Rattle.controller.specs.Objects.{Stands, InEachPlay, HoldsTheSame};
ghost use Rattle.strategy_tables.specs.Tables.{SystemTable};
ghost use Rattle.strategy_tables.specs.Games.{OfSystem};
ghost use Rattle.strategy_tables.specs.Views.{table_data};
ghost use Rattle.strategy_check.specs.Walks.{AreTooMany};
ghost use Rattle.strategy_check.specs.Systems.{IsPlayOf, IsPlayIn, IsSystemTable, IsTooLarge};

use crate::nodes::nodes;
use crate::walk::Walk;
use controller::Controller;
use game_states::{all_inputs, count_all_inputs};
use hidden_game::expand;
use regions::Regions;
use spec_model::game::Game;
use spec_model::spec::Spec;
use spec_model::value::Value;
use std::alloc::Global;
use strategy_tables::{Table, TableFault};

/// How many inputs are listed at most.
const MOST_INPUTS: usize = 1024;

/// The table of the strategy in its game, whose inputs are given.
fn table_in<G: Regions>(
    alloc: Global,
    game: &Game,
    inputs: &[Vec<Value>],
    k: u64,
    play: &mut Controller<G>,
) -> Result<Table, TableFault>
    requires play { IsPlayIn G.kept (game_data game.now) (map (λ x. x.items) inputs.now) k play.old }
    ensures table { IfOk result (λ t. (made : SystemTable) × (table_data t ≡ OfSystem made) × IsSystemTable G.kept (game_data game.now) k play.old made) }
    ensures limit { IfErr result (λ f. f ≡ TableFault.Limit → InEachPlay G.kept play.old (λ z l h b m. AreTooMany (game_data game.now) l)) }
    ensures stands { Stands G.kept play.new }
    ensures keeps { HoldsTheSame G.kept play.old play.new }
{
    let mut walk = Walk::make(alloc, game)?;
    let first = walk.row(play, inputs, None)?;
    let rows = walk.rows(play, inputs)?;
    let nodes = nodes(alloc, game, &walk.seats.met, &rows)?;
    Ok(Table::System { k, first, nodes })
}

/// The table of the system's strategy for a specification, with its number of rounds. `Limit`: there are more than 1,024
/// assignments of the inputs, or plays end at more than 1,024 states and spots. `Memory`: none was given.
pub fn system_table<G: Regions>(
    alloc: Global,
    spec: &Spec,
    k: u64,
    play: &mut Controller<G>,
) -> Result<Table, TableFault>
    requires typed { WellTyped (spec_data spec.now) }
    requires play { IsPlayOf G.kept (spec_data spec.now) k play.old }
    ensures table { IfOk result (λ t. (made : SystemTable) × (table_data t ≡ OfSystem made) × IsSystemTable G.kept (game_of (spec_data spec.now)) k play.old made) }
    ensures limit { IfErr result (λ f. f ≡ TableFault.Limit → IsTooLarge G.kept (game_of (spec_data spec.now)) play.old) }
    ensures stands { Stands G.kept play.new }
    ensures keeps { HoldsTheSame G.kept play.old play.new }
{
    let game = expand(alloc, spec)?;
    if count_all_inputs(&game) > MOST_INPUTS {
        return Err(TableFault::Limit);
    }
    let inputs = all_inputs(alloc, &game)?;
    table_in(alloc, &game, &inputs, k, play)
}
