//! The slots of variables among the values of a state.

ghost use Rattle.std.specs.Prelude.{◌≡◌, ◌<◌, length, IfOk};
ghost use Rattle.spec_model.specs.GameViews.{game_data};
ghost use Rattle.spec_model.specs.WellMade.{WellMade};
ghost use Rattle.bit_compile.specs.Compiled.{place_of};
ghost use Rattle.line_functions.specs.Asking.{ArePlaces};

use spec_model::game::Game;
use spec_model::value::Owner;
use spec_model::variables::{count_inputs, count_outputs};
use std::alloc::{AllocError, Global};

/// The slot of a variable: hidden tables come first, and then inputs and outputs.
fn place(game: &Game, x: usize) -> usize
    requires made { WellMade (game_data game.now) }
    requires known { x < length (game_data game.now).variables }
    ensures { result ≡ place_of (game_data game.now) x }
{
    let vars = &game.vars;
    let tables = game.hidden.len();
    match vars[x].owner {
        Owner::Env => tables + count_inputs(&vars[..x]),
        Owner::Sys => tables + count_inputs(vars) + count_outputs(&vars[..x]),
    }
}

/// The slot of each variable, in declared order.
pub fn places(alloc: Global, game: &Game) -> Result<Vec<usize>, AllocError>
    requires { WellMade (game_data game.now) }
    ensures { IfOk result (λ places. ArePlaces (game_data game.now) places.items) }
{
    let mut places = Vec::new(alloc);
    for x in 0..game.vars.len() {
        places.push(place(game, x))?;
    }
    Ok(places)
}
