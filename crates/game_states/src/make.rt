//! Numbers the states of a game, where there are few.

ghost use Rattle.std.specs.Prelude.{◌≡◌, min, map, length, IfOk};
ghost use Rattle.spec_model.specs.GameViews.{game_data};
ghost use Rattle.spec_model.specs.Moves.{has_next};
ghost use Rattle.spec_model.specs.Steps.{states_of, hidden_values, waits_for_output};
ghost use Rattle.spec_model.specs.WellMade.{WellMade};
ghost use Rattle.game_states.specs.Numbers.{hidden_choices};

use crate::choices::choices_of;
use crate::moves::{all_inputs, all_outputs};
use crate::numbered::Numbered;
use crate::options::{count_hidden, count_owned, hidden_numbers, hidden_options};
use crate::states::read_all;
use game_values::late::{nexts, waits};
use spec_model::game::Game;
use spec_model::value::{Owner, Value};
use std::alloc::{AllocError, Global};

/// The number of states, or 1,025 where there are more.
pub fn state_count(game: &Game) -> usize
    requires { WellMade (game_data game.now) }
    ensures { result ≡ min 1025 (length (states_of (game_data game.now))) }
{
    let outputs = count_owned(&game.vars, Owner::Sys, 1);
    let moves = count_owned(&game.vars, Owner::Env, outputs);
    count_hidden(&game.hidden, moves)
}

fn all_hidden(alloc: Global, game: &Game) -> Result<Vec<Vec<Value>>, AllocError>
    ensures { IfOk result (λ all. map (λ c. c.items) all.items ≡ hidden_choices (game_data game.now)) }
{
    let options = hidden_options(alloc, &game.hidden)?;
    choices_of(alloc, &options)
}

fn all_numbers(alloc: Global, game: &Game) -> Result<Vec<Vec<u16>>, AllocError>
    ensures { IfOk result (λ all. map (λ c. c.items) all.items ≡ hidden_values (game_data game.now).hidden) }
{
    let options = hidden_numbers(alloc, &game.hidden)?;
    choices_of(alloc, &options)
}

fn waiting(alloc: Global, game: &Game) -> Result<Vec<bool>, AllocError>
    requires { WellMade (game_data game.now) }
    ensures { IfOk result (λ flags. flags.items ≡ map (λ l. waits_for_output (game_data game.now) l.1) (game_data game.now).safe_asm) }
{
    waits(alloc, &game.safe_asm, &game.vars, &game.hidden)
}

fn late(alloc: Global, game: &Game) -> Result<Vec<bool>, AllocError>
    ensures { IfOk result (λ flags. flags.items ≡ map (λ l. has_next l.1) (game_data game.now).safe_gar) }
{
    nexts(alloc, &game.safe_gar)
}

/// Numbers the states.
pub fn number(alloc: Global, game: Game) -> Result<Numbered, AllocError>
    requires { WellMade (game_data game) }
    ensures { IfOk result (λ n. game_data n.game ≡ game_data game) }
{
    let hidden = all_hidden(alloc, &game)?;
    let numbers = all_numbers(alloc, &game)?;
    let inputs = all_inputs(alloc, &game)?;
    let outputs = all_outputs(alloc, &game)?;
    let seen = read_all(alloc, &game, &numbers, &inputs, &outputs)?;
    let waits = waiting(alloc, &game)?;
    let nexts = late(alloc, &game)?;
    Ok(Numbered {
        game,
        hidden,
        inputs,
        outputs,
        seen,
        waits,
        nexts,
    })
}
