//! What each state gives to expressions, in the order of the states' numbers.

ghost use Rattle.std.specs.Prelude.{◌≡◌, ◌++◌, map, true, OnOk, IfOk};
ghost use Rattle.std.specs.List.{flat_map};
ghost use Rattle.spec_model.specs.GameViews.{game_data};
ghost use Rattle.spec_model.specs.Games.{inputs_of, outputs_of};
ghost use Rattle.spec_model.specs.Steps.{are_hidden_values, is_input, hidden_values, states_of};
ghost use Rattle.spec_model.specs.WellMade.{WellMade};
ghost use Rattle.game_states.specs.Seen.{seen, seen_at, state_with};

use game_values::read::{Readout, read};
use spec_model::game::Game;
use spec_model::value::Value;
use std::alloc::{AllocError, Global};

fn add_outputs(
    alloc: Global,
    game: &Game,
    numbers: &[u16],
    input: &[Value],
    outputs: &[Vec<Value>],
    out: &mut Vec<Readout>,
) -> Result<(), AllocError>
    requires made { WellMade (game_data game.now) }
    requires numbers { are_hidden_values (game_data game.now).hidden numbers.now ≡ true }
    requires input { is_input (game_data game.now) input.now ≡ true }
    requires outputs { map (λ y. y.items) outputs.now ≡ outputs_of (game_data game.now) }
    ensures { OnOk result (map seen out.new.items ≡ map seen out.old.items ++ map (λ y. seen_at (game_data game.now) (state_with numbers.now input.now y)) (map (λ y. y.items) outputs.now)) }
{
    for k in 0..outputs.len() {
        let output = &outputs[k];
        out.push(read(alloc, &game.vars, &game.hidden, numbers, input, output)?)?;
    }
    Ok(())
}

fn add_inputs(
    alloc: Global,
    game: &Game,
    numbers: &[u16],
    inputs: &[Vec<Value>],
    outputs: &[Vec<Value>],
    out: &mut Vec<Readout>,
) -> Result<(), AllocError>
    requires made { WellMade (game_data game.now) }
    requires numbers { are_hidden_values (game_data game.now).hidden numbers.now ≡ true }
    requires inputs { map (λ x. x.items) inputs.now ≡ inputs_of (game_data game.now) }
    requires outputs { map (λ y. y.items) outputs.now ≡ outputs_of (game_data game.now) }
    ensures { OnOk result (map seen out.new.items ≡ map seen out.old.items ++ flat_map (λ x. map (λ y. seen_at (game_data game.now) (state_with numbers.now x y)) (outputs_of (game_data game.now))) (map (λ x. x.items) inputs.now)) }
{
    for k in 0..inputs.len() {
        let input = &inputs[k];
        add_outputs(alloc, game, numbers, input, outputs, out)?;
    }
    Ok(())
}

/// Reads every state, in order.
pub fn read_all(
    alloc: Global,
    game: &Game,
    numbers: &[Vec<u16>],
    inputs: &[Vec<Value>],
    outputs: &[Vec<Value>],
) -> Result<Vec<Readout>, AllocError>
    requires made { WellMade (game_data game.now) }
    requires numbers { map (λ n. n.items) numbers.now ≡ hidden_values (game_data game.now).hidden }
    requires inputs { map (λ x. x.items) inputs.now ≡ inputs_of (game_data game.now) }
    requires outputs { map (λ y. y.items) outputs.now ≡ outputs_of (game_data game.now) }
    ensures { IfOk result (λ all. map seen all.items ≡ map (seen_at (game_data game.now)) (states_of (game_data game.now))) }
{
    let mut all = Vec::new(alloc);
    for k in 0..numbers.len() {
        add_inputs(alloc, game, &numbers[k], inputs, outputs, &mut all)?;
    }
    Ok(all)
}
