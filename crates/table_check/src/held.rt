//! Where goals and assumptions hold: at each node its own goal, and its own assumption.

ghost use Rattle.std.specs.Prelude.{◌≡◌, ◌-◌, true, map, length, get_or, IfOk, IsTrue};
ghost use Rattle.std.specs.List.{list_all};
ghost use Rattle.spec_model.specs.GameViews.{game_data, goal_data};
ghost use Rattle.spec_model.specs.Games.{State, listed};
ghost use Rattle.spec_model.specs.Sets.{holding, no_states};
ghost use Rattle.spec_model.specs.Steps.{is_state};
ghost use Rattle.spec_model.specs.WellMade.{WellMade, is_state_formula, scope_of};
ghost use Rattle.gr1_law.specs.Layers.{or_all_states, goal_sets, assumption_sets};
ghost use Rattle.strategy_tables.specs.Sound.{HasStates};
ghost use Rattle.strategy_tables.specs.Views.{node_data};
ghost use Rattle.table_check.specs.Nodes.{held_at};

use crate::room::write_state;
use game_play::holds_at_state;
use spec_model::game::{Game, Goal};
use spec_model::value::Value;
use std::alloc::{AllocError, Global};
use strategy_tables::Node;

/// Whether a node's own goal holds in its state, and its own assumption.
#[derive(Clone, Copy)]
pub struct Held {
    pub goal: bool,
    pub asm: bool,
}

/// How many goals the game has.
pub fn goal_count(game: &Game) -> usize
    ensures { result ≡ length (goal_sets (game_data game.now)) }
{
    game.goals.len().max(1)
}

/// How many assumptions it has.
pub fn asm_count(game: &Game) -> usize
    ensures { result ≡ length (assumption_sets (game_data game.now)) }
{
    game.assume.len().max(1)
}

/// Whether the goal of a number holds at a state. Numbers count from 1; 0 stands for the first.
fn holds_by_number(game: &Game, goals: &[Goal], number: u32, state: &[Value]) -> bool
    requires made { WellMade (game_data game.now) }
    requires goals { list_all (λ goal. is_state_formula (scope_of (game_data game.now)) goal.holds) (map goal_data goals.now) ≡ true }
    requires state { (s : State) × IsTrue (is_state (game_data game.now) s) × (listed s ≡ state.now) }
    ensures { (s : State) → IsTrue (is_state (game_data game.now) s) → listed s ≡ state.now →
        result ≡ get_or (or_all_states (game_data game.now) (map (λ goal. holding (game_data game.now) goal.holds) (map goal_data goals.now))) (number - 1) no_states s }
{
    let place = (number as usize).saturating_sub(1);
    if place < goals.len() {
        holds_at_state(game, state, &goals[place])
    } else {
        goals.is_empty() && place == 0
    }
}

/// What holds at a node, whose state's values are given.
fn held_in(game: &Game, v: &Node, state: &[Value]) -> Held
    requires made { WellMade (game_data game.now) }
    requires inside { IsTrue (is_state (game_data game.now) (node_data v.now).state) }
    requires state { listed (node_data v.now).state ≡ state.now }
    ensures { result ≡ held_at (game_data game.now) (node_data v.now) }
{
    Held {
        goal: holds_by_number(game, &game.goals, v.goal, state),
        asm: holds_by_number(game, &game.assume, v.asm, state),
    }
}

/// What holds at each node. `AllocError`: no memory was given.
pub fn held_at_each(alloc: Global, game: &Game, nodes: &[Node]) -> Result<Vec<Held>, AllocError>
    requires made { WellMade (game_data game.now) }
    requires states { HasStates (game_data game.now) (map node_data nodes.now) }
    ensures { IfOk result (λ all. all.items ≡ map (held_at (game_data game.now)) (map node_data nodes.now)) }
{
    let mut state = Vec::new(alloc);
    let mut all = Vec::new(alloc);
    for v in nodes {
        write_state(&mut state, v)?;
        all.push(held_in(game, v, &state))?;
    }
    Ok(all)
}
