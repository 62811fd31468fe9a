//! The table of the environment's strategy.

ghost use Rattle.std.specs.Prelude.{◌≡◌, map, IfOk, IfErr};
ghost use Rattle.spec_model.specs.Views.{spec_data};
ghost use Rattle.spec_model.specs.GameViews.{game_data};
ghost use Rattle.spec_model.specs.WellTyped.{WellTyped};
ghost use Rattle.hidden_game.specs.GameOf.{game_of};
ghost use Rattle.counterstrategy.specs.Objects.{Stands, InEachPlay, HoldsTheSame};
ghost use Rattle.strategy_tables.specs.Tables.{EnvironmentTable};
ghost use Rattle.strategy_tables.specs.Games.{OfEnvironment};
ghost use Rattle.strategy_tables.specs.Views.{table_data};
ghost use Rattle.counter_tables.specs.Walks.{AreTooMany};
ghost use Rattle.counter_tables.specs.Environments.{IsCounterplayOf, IsCounterplayIn, IsEnvironmentTable, IsTooLarge};

use crate::moving::begin;
use crate::nodes::nodes;
use crate::seats::MOST;
use crate::walk::Walk;
use counterstrategy::Counterstrategy;
use game_states::{all_outputs, count_all_outputs};
use hidden_game::expand;
use regions::Regions;
use spec_model::game::Game;
use spec_model::spec::Spec;
use spec_model::value::Value;
use std::alloc::Global;
use strategy_tables::{Table, TableFault};

/// The table of the strategy in its game, whose outputs are given.
fn table_in<G: Regions>(
    alloc: Global,
    game: &Game,
    outputs: &[Vec<Value>],
    n: u64,
    m: u64,
    play: &mut Counterstrategy<G>,
) -> Result<Table, TableFault>
    requires play { IsCounterplayIn G.kept (game_data game.now) (map (λ y. y.items) outputs.now) n m play.old }
    ensures table { IfOk result (λ t. (made : EnvironmentTable) × (table_data t ≡ OfEnvironment made) × IsEnvironmentTable G.kept (game_data game.now) n m play.old made) }
    ensures limit { IfErr result (λ f. f ≡ TableFault.Limit → InEachPlay G.kept play.old (λ e h notes b k. AreTooMany (game_data game.now) e)) }
    ensures stands { Stands G.kept play.new }
    ensures keeps { HoldsTheSame G.kept play.old play.new }
{
    let mut walk = Walk::make(alloc, game)?;
    begin(play, &mut walk.room.input);
    let reply = walk.room.input.to_vec(alloc)?;
    let first = walk.row(play, outputs, None)?;
    let rows = walk.rows(play, outputs)?;
    let nodes = nodes(alloc, game, &walk.seats.met, &rows)?;
    Ok(Table::Environment {
        n,
        m,
        reply,
        first,
        nodes,
    })
}

/// The table of the environment's strategy for a specification, with its numbers of shifts and of denials in a row. `Limit`:
/// there are more than 1,024 assignments of the outputs, or plays end at more than 1,024 states and spots. `Memory`: none was
/// given.
pub fn environment_table<G: Regions>(
    alloc: Global,
    spec: &Spec,
    n: u64,
    m: u64,
    play: &mut Counterstrategy<G>,
) -> Result<Table, TableFault>
    requires typed { WellTyped (spec_data spec.now) }
    requires play { IsCounterplayOf G.kept (spec_data spec.now) n m play.old }
    ensures table { IfOk result (λ t. (made : EnvironmentTable) × (table_data t ≡ OfEnvironment made) × IsEnvironmentTable G.kept (game_of (spec_data spec.now)) n m play.old made) }
    ensures limit { IfErr result (λ f. f ≡ TableFault.Limit → IsTooLarge G.kept (game_of (spec_data spec.now)) play.old) }
    ensures stands { Stands G.kept play.new }
    ensures keeps { HoldsTheSame G.kept play.old play.new }
{
    let game = expand(alloc, spec)?;
    let count = count_all_outputs(&game);
    if count > MOST {
        return Err(TableFault::Limit);
    }
    let outputs = all_outputs(alloc, &game)?;
    table_in(alloc, &game, &outputs, n, m, play)
}
