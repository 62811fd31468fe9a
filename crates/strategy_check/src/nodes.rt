//! The nodes of a table, made of the seats that were met and their rows.

ghost use Rattle.std.specs.Prelude.{◌≡◌, length, map, IfOk, IsTrue};
ghost use Rattle.spec_model.specs.Games.{State, listed};
ghost use Rattle.spec_model.specs.GameViews.{game_data};
ghost use Rattle.spec_model.specs.Steps.{is_state};
ghost use Rattle.game_play.specs.Sights.{IsSplit};
ghost use Rattle.strategy_tables.specs.Views.{node_data};
ghost use Rattle.strategy_check.specs.Seats.{seat_data};
ghost use Rattle.strategy_check.specs.Nodes.{IsInGame, AreInGame, IsNodeOfSeat, AreNodesOf};

use crate::seats::Seat;
use spec_model::game::Game;
use spec_model::value::Value;
use spec_model::variables::count_inputs;
use std::alloc::{AllocError, Global};
use strategy_tables::Node;

/// The hidden values, the input and the output of a state.
fn parts<'a>(game: &Game, state: &'a [Value]) -> (&'a [Value], &'a [Value], &'a [Value])
    requires { IsInGame (game_data game.now) state.now }
    ensures { (s : State) → IsTrue (is_state (game_data game.now) s) → listed s ≡ state.now → IsSplit s result.0.now result.1.now result.2.now }
{
    let (numbers, moves) = state.split_at(game.hidden.len());
    let (input, output) = moves.split_at(count_inputs(&game.vars));
    (numbers, input, output)
}

/// The node of a seat, with its row. `AllocError`: no memory was given.
fn node(alloc: Global, game: &Game, seat: &Seat, row: &[u32]) -> Result<Node, AllocError>
    requires { IsInGame (game_data game.now) seat.now.state.items }
    ensures { IfOk result (λ v. IsNodeOfSeat (game_data game.now) (node_data v) (seat_data seat.now) row.now) }
{
    let (hidden, input, output) = parts(game, &seat.state);
    Ok(Node {
        hidden: hidden.to_vec(alloc)?,
        input: input.to_vec(alloc)?,
        output: output.to_vec(alloc)?,
        asm: seat.spot.index,
        goal: seat.spot.goal,
        rank: seat.spot.rank,
        layer: 0,
        reply: Vec::new(alloc),
        next: row.to_vec(alloc)?,
    })
}

/// The nodes of all seats, with their rows. `AllocError`: no memory was given.
pub fn nodes(
    alloc: Global,
    game: &Game,
    seats: &[Seat],
    rows: &[Vec<u32>],
) -> Result<Vec<Node>, AllocError>
    requires counted { length rows.now ≡ length seats.now }
    requires inside { AreInGame (game_data game.now) (map seat_data seats.now) }
    ensures { IfOk result (λ all. AreNodesOf (game_data game.now) (map node_data all.items) (map seat_data seats.now) (map (λ row. row.items) rows.now)) }
{
    let mut all = Vec::new(alloc);
    for i in 0..seats.len() {
        let node = node(alloc, game, &seats[i], &rows[i])?;
        all.push(node)?;
    }
    Ok(all)
}
