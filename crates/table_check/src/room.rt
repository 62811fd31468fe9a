//! Room for what is read of a node's state: it is taken once, and written anew for each node.

ghost use Rattle.std.specs.Prelude.{◌≡◌, ◌++◌, Some, None, length, map, pos, IfOk, OnOk, IsTrue};
ghost use Rattle.spec_model.specs.GameViews.{game_data};
ghost use Rattle.spec_model.specs.Games.{State, listed, first_hidden as first_hidden_lem, next_hidden as next_hidden_lem};
ghost use Rattle.spec_model.specs.Steps.{is_state};
ghost use Rattle.spec_model.specs.WellMade.{WellMade};
ghost use Rattle.game_play.specs.Sights.{cell_in as cell_in_lem, as_values, AreCells};
ghost use Rattle.strategy_tables.specs.Views.{node_data};
ghost use Rattle.table_check.specs.Turns.{HasRoom, IsReadBefore};

use game_play::{first_hidden, next_hidden};
use spec_model::game::Game;
use spec_model::value::Value;
use std::alloc::{AllocError, Global};
use strategy_tables::Node;

/// The values of a state, the cells of the hidden tables there, and the hidden values of the next one. Before the first move
/// the hidden values alone say something.
#[derive(Drop)]
pub struct Room {
    pub state: Vec<Value>,
    pub cells: Vec<Value>,
    pub numbers: Vec<Value>,
}

/// The number of a hidden value, as a value.
fn numbered(value: Value) -> Value
    ensures { result ≡ Value.Int (pos (cell_in_lem value)) }
{
    match value {
        Value::Int(z) => { if z < 0 { Value::Int(0) } else { Value::Int(z) } }
        _ => Value::Int(0),
    }
}

/// Adds hidden values.
fn add_numbers(out: &mut Vec<Value>, values: &[Value]) -> Result<(), AllocError>
    ensures { OnOk result (out.new.items ≡ out.old.items ++ as_values (map cell_in_lem values.now)) }
{
    for value in values {
        out.push(numbered(*value))?;
    }
    Ok(())
}

/// Writes the values of a node's state over others.
pub fn write_state(out: &mut Vec<Value>, v: &Node) -> Result<(), AllocError>
    ensures { OnOk result (out.new.items ≡ listed (node_data v.now).state) }
{
    out.clear();
    add_numbers(out, &v.hidden)?;
    out.extend_from_slice(&v.input)?;
    out.extend_from_slice(&v.output)
}

/// Writes the hidden values of the first position.
fn write_first(game: &Game, numbers: &mut Vec<Value>)
    requires { length numbers.old.items ≡ length (game_data game.now).hidden }
    ensures { numbers.new.items ≡ as_values (first_hidden_lem (game_data game.now)) }
{
    first_hidden(game, numbers);
}

/// Writes the cells of the hidden tables at a state, and the hidden values of the position after it.
fn write_next(game: &Game, state: &[Value], cells: &mut Vec<Value>, numbers: &mut Vec<Value>)
    requires made { WellMade (game_data game.now) }
    requires cells { length cells.old.items ≡ length (game_data game.now).hidden }
    requires room { length numbers.old.items ≡ length (game_data game.now).hidden }
    requires state { (s : State) × IsTrue (is_state (game_data game.now) s) × (listed s ≡ state.now) }
    ensures cells { (s : State) → IsTrue (is_state (game_data game.now) s) → listed s ≡ state.now → AreCells (game_data game.now) s cells.new.items }
    ensures value { (s : State) → IsTrue (is_state (game_data game.now) s) → listed s ≡ state.now → numbers.new.items ≡ as_values (next_hidden_lem (game_data game.now) s) }
    ensures tables { length cells.new.items ≡ length (game_data game.now).hidden }
    ensures room { length numbers.new.items ≡ length (game_data game.now).hidden }
{
    next_hidden(game, state, cells, numbers);
}

impl Room {
    /// Before the first move. `AllocError`: no memory was given.
    pub fn make(alloc: Global, game: &Game) -> Result<Room, AllocError>
        ensures room { IfOk result (λ r. HasRoom (game_data game.now) r) }
        ensures first { IfOk result (λ r. IsReadBefore (game_data game.now) None r) }
    {
        let tables = game.hidden.len();
        let mut numbers = vec![in alloc; Value::Bool(false); tables]?;
        write_first(game, &mut numbers);
        Ok(Room {
            state: Vec::new(alloc),
            cells: vec![in alloc; Value::Bool(false); tables]?,
            numbers,
        })
    }

    /// Reads the state of a node. `AllocError`: no memory was given.
    pub fn read(&mut self, game: &Game, v: &Node) -> Result<(), AllocError>
        requires made { WellMade (game_data game.now) }
        requires room { HasRoom (game_data game.now) self.old }
        requires state { IsTrue (is_state (game_data game.now) (node_data v.now).state) }
        ensures room { OnOk result (HasRoom (game_data game.now) self.new) }
        ensures read { OnOk result (IsReadBefore (game_data game.now) (Some (node_data v.now).state) self.new) }
    {
        write_state(&mut self.state, v)?;
        write_next(game, &self.state, &mut self.cells, &mut self.numbers);
        Ok(())
    }
}
