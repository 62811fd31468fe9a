//! All inputs and all outputs of a game, in the order of assignments, and how many there are.

ghost use Rattle.std.specs.Prelude.{◌≡◌, min, map, length, IfOk};
ghost use Rattle.spec_model.specs.GameViews.{game_data};
ghost use Rattle.spec_model.specs.Games.{inputs_of, outputs_of};
ghost use Rattle.spec_model.specs.WellMade.{WellMade};

use crate::choices::choices_of;
use crate::options::{count_owned, options_of};
use spec_model::game::Game;
use spec_model::value::{Owner, Value};
use std::alloc::{AllocError, Global};

/// How many inputs there are, or 1,025 where there are more.
pub fn count_all_inputs(game: &Game) -> usize
    requires { WellMade (game_data game.now) }
    ensures { result ≡ min 1025 (length (inputs_of (game_data game.now))) }
{
    count_owned(&game.vars, Owner::Env, 1)
}

/// How many outputs there are, or 1,025 where there are more.
pub fn count_all_outputs(game: &Game) -> usize
    requires { WellMade (game_data game.now) }
    ensures { result ≡ min 1025 (length (outputs_of (game_data game.now))) }
{
    count_owned(&game.vars, Owner::Sys, 1)
}

/// All inputs. `AllocError`: no memory was given.
pub fn all_inputs(alloc: Global, game: &Game) -> Result<Vec<Vec<Value>>, AllocError>
    requires { WellMade (game_data game.now) }
    ensures { IfOk result (λ all. map (λ c. c.items) all.items ≡ inputs_of (game_data game.now)) }
{
    let options = options_of(alloc, &game.vars, Owner::Env)?;
    choices_of(alloc, &options)
}

/// All outputs. `AllocError`: no memory was given.
pub fn all_outputs(alloc: Global, game: &Game) -> Result<Vec<Vec<Value>>, AllocError>
    requires { WellMade (game_data game.now) }
    ensures { IfOk result (λ all. map (λ c. c.items) all.items ≡ outputs_of (game_data game.now)) }
{
    let options = options_of(alloc, &game.vars, Owner::Sys)?;
    choices_of(alloc, &options)
}
