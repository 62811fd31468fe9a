//! Rows: the numbers of the nodes that come next, one for each legal move in order.

ghost use Rattle.std.specs.Prelude.{◌≡◌, ◌≤◌, Some, None, length, map, filter, drop, slice_get, IsTrue};
ghost use Rattle.std.specs.List.{AllByRecursion};
ghost use Rattle.spec_model.specs.Games.{inputs_of, outputs_of};
ghost use Rattle.spec_model.specs.Steps.{is_state, is_input};
ghost use Rattle.strategy_tables.specs.Tables.{names, some_passes, system_row, environment_row};
ghost use Rattle.strategy_tables.specs.Views.{node_data};
ghost use Rattle.table_check.specs.Turns.{IsTurn, IsMove, before_of, given_of, game_at, nodes_at, is_listed as is_listed_lem, fits as fits_lem, first_passes, place_after as place_after_lem};

use crate::same::are_same;
use crate::turn::Turn;
use spec_model::value::Value;
use strategy_tables::Node;

/// Whether a row has a node for a move: an input, or where the input is given an output.
fn is_listed(turn: &Turn, given: Option<&[Value]>, m: &[Value]) -> bool
    requires turn { IsTurn turn.now }
    requires of_game { IsMove (game_at turn.now) (given_of given) m.now }
    ensures { result ≡ is_listed_lem (game_at turn.now) (before_of turn.now.before) (given_of given.entry) m.now }
{
    match given {
        None => turn.allows_input(m),
        Some(x) => turn.allows_output(x, m),
    }
}

/// Whether a node fits a move.
fn fits(turn: &Turn, given: Option<&[Value]>, m: &[Value], v: &Node) -> bool
    requires turn { IsTurn turn.now }
    requires of_game { IsMove (game_at turn.now) (given_of given) m.now }
    requires node { IsTrue (is_state (game_at turn.now) (node_data v.now).state) }
    ensures { result ≡ fits_lem (game_at turn.now) (before_of turn.now.before) (given_of given.entry) m.now (node_data v.now) }
{
    match given {
        None => turn.reaches(m, v) && turn.allows_output(m, &v.output),
        Some(x) => turn.reaches(x, v) && are_same(&v.output, m),
    }
}

/// Whether a number names a node that fits.
fn names_fitting(turn: &Turn, given: Option<&[Value]>, m: &[Value], number: u32) -> bool
    requires turn { IsTurn turn.now }
    requires of_game { IsMove (game_at turn.now) (given_of given) m.now }
    ensures { result ≡ some_passes (fits_lem (game_at turn.now) (before_of turn.now.before) (given_of given.entry) m.now) (slice_get (nodes_at turn.now) number) }
{
    let number = number as usize;
    number < turn.nodes.len() && fits(turn, given, m, &turn.nodes[number])
}

/// Whether the row goes on at a place with a node that fits.
fn goes_on(turn: &Turn, given: Option<&[Value]>, m: &[Value], row: &[u32], place: usize) -> bool
    requires turn { IsTurn turn.now }
    requires of_game { IsMove (game_at turn.now) (given_of given) m.now }
    ensures { result ≡ first_passes (nodes_at turn.now) (fits_lem (game_at turn.now) (before_of turn.now.before) (given_of given.entry) m.now) (drop place row.now) }
{
    place < row.len() && names_fitting(turn, given, m, row[place])
}

/// The place in the row after a move, if the row has a node for it where it is to have one.
fn place_after(
    turn: &Turn,
    given: Option<&[Value]>,
    m: &[Value],
    row: &[u32],
    place: usize,
) -> Option<usize>
    requires turn { IsTurn turn.now }
    requires of_game { IsMove (game_at turn.now) (given_of given) m.now }
    requires within { place ≤ length row.now }
    ensures { let g = game_at turn.now in let b = before_of turn.now.before in
        result ≡ place_after_lem (nodes_at turn.now) (fits_lem g b (given_of given.entry) m.now) (is_listed_lem g b (given_of given.entry) m.now) row.now place }
{
    if !is_listed(turn, given, m) {
        return Some(place);
    }
    if goes_on(turn, given, m, row, place) {
        Some(place + 1)
    } else {
        None
    }
}

/// Whether the row has a node for each move that it lists, and no more.
fn names_each(turn: &Turn, given: Option<&[Value]>, moves: &[Vec<Value>], row: &[u32]) -> bool
    requires turn { IsTurn turn.now }
    requires moves { AllByRecursion (IsMove (game_at turn.now) (given_of given)) (map (λ m. m.items) moves.now) }
    ensures { let g = game_at turn.now in let b = before_of turn.now.before in
        result ≡ names (nodes_at turn.now) (fits_lem g b (given_of given.entry)) (filter (is_listed_lem g b (given_of given.entry)) (map (λ m. m.items) moves.now)) row.now }
{
    let mut place = 0;
    for m in moves {
        match place_after(turn, given, m, row, place) {
            Some(next) => place = next,
            None => return false,
        }
    }
    place == row.len()
}

/// Whether the row has a node for each legal input, by a legal output. All inputs are given.
pub fn is_system_row(turn: &Turn, inputs: &[Vec<Value>], row: &[u32]) -> bool
    requires turn { IsTurn turn.now }
    requires inputs { map (λ x. x.items) inputs.now ≡ inputs_of (game_at turn.now) }
    ensures { result ≡ system_row (game_at turn.now) (nodes_at turn.now) (before_of turn.now.before) row.now }
{
    names_each(turn, None, inputs, row)
}

/// Whether the environment's input is legal and the row has a node for each legal output after it. All outputs are given.
pub fn is_environment_row(turn: &Turn, reply: &[Value], outputs: &[Vec<Value>], row: &[u32]) -> bool
    requires turn { IsTurn turn.now }
    requires reply { IsTrue (is_input (game_at turn.now) reply.now) }
    requires outputs { map (λ y. y.items) outputs.now ≡ outputs_of (game_at turn.now) }
    ensures { result ≡ environment_row (game_at turn.now) (nodes_at turn.now) (before_of turn.now.before) reply.now row.now }
{
    turn.allows_input(reply) && names_each(turn, Some(reply), outputs, row)
}
