//! Where a play is: its last state, in memory that is taken once.

ghost use Rattle.std.specs.Prelude.{◌≡◌, ◌++◌, ◌+◌, None, Some, length, map, pos, IfOk, IsTrue};
ghost use Rattle.spec_model.specs.GameViews.{game_data};
ghost use Rattle.spec_model.specs.Steps.{Before, is_state, reached};
ghost use Rattle.spec_model.specs.Games.{State, listed, first_hidden as first_hidden_lem, next_hidden as next_hidden_lem};
ghost use Rattle.spec_model.specs.WellMade.{WellMade};
ghost use Rattle.game_play.specs.Sights.{AreCells};
ghost use Rattle.strategy_parts.specs.Positions.{IsAfter, IsClosedAt, values_at};

use game_play::{first_hidden, next_hidden};
use spec_model::game::Game;
use spec_model::value::Value;
use spec_model::variables::{count_inputs, count_outputs};
use std::alloc::{AllocError, Global};

/// The last state of a play, the cells of the hidden tables there, and the hidden values of the next state.
#[derive(Drop)]
pub struct Position {
    pub started: bool,
    /// The values of the last state; before the first they say nothing.
    pub state: Vec<Value>,
    /// The cells of the hidden tables at the last state; before the first they say nothing.
    pub cells: Vec<Value>,
    /// The hidden values of the next state.
    pub next: Vec<Value>,
}

/// Writes three lists over another, one behind the other.
fn write_all(values: &mut [Value], hidden: &[Value], input: &[Value], output: &[Value])
    requires { length values.old ≡ length hidden.now + (length input.now + length output.now) }
    ensures { values.new ≡ hidden.now ++ (input.now ++ output.now) }
{
    let (first, others) = values.split_at_mut(hidden.len());
    first.copy_from_slice(hidden);
    let (second, third) = others.split_at_mut(input.len());
    second.copy_from_slice(input);
    third.copy_from_slice(output);
}

/// Writes the values of a state.
fn write_state(state: &mut Vec<Value>, hidden: &[Value], input: &[Value], output: &[Value])
    requires { length state.old.items ≡ length hidden.now + (length input.now + length output.now) }
    ensures { state.new.items ≡ hidden.now ++ (input.now ++ output.now) }
{
    write_all(state, hidden, input, output);
}

/// Writes the values of a state that is listed.
fn write_listed(state: &mut Vec<Value>, values: &[Value])
    requires { length state.old.items ≡ length values.now }
    ensures { state.new.items ≡ values.now }
{
    state.copy_from_slice(values);
}

/// Writes the hidden values of the first position.
fn write_first(game: &Game, next: &mut Vec<Value>)
    requires { length next.old.items ≡ length (game_data game.now).hidden }
    ensures value { next.new.items ≡ map (λ v. Value.Int (pos v)) (first_hidden_lem (game_data game.now)) }
    ensures room { length next.new.items ≡ length (game_data game.now).hidden }
{
    first_hidden(game, next);
}

/// Writes the cells of the hidden tables at a state, and the hidden values of the position after it.
fn write_next(game: &Game, state: &[Value], cells: &mut Vec<Value>, next: &mut Vec<Value>)
    requires made { WellMade (game_data game.now) }
    requires cells { length cells.old.items ≡ length (game_data game.now).hidden }
    requires room { length next.old.items ≡ length (game_data game.now).hidden }
    requires state { (s : State) × IsTrue (is_state (game_data game.now) s) × (listed s ≡ state.now) }
    ensures cells { (s : State) → IsTrue (is_state (game_data game.now) s) → listed s ≡ state.now → AreCells (game_data game.now) s cells.new.items }
    ensures value { (s : State) → IsTrue (is_state (game_data game.now) s) → listed s ≡ state.now → next.new.items ≡ map (λ v. Value.Int (pos v)) (next_hidden_lem (game_data game.now) s) }
    ensures tables { length cells.new.items ≡ length (game_data game.now).hidden }
    ensures room { length next.new.items ≡ length (game_data game.now).hidden }
{
    next_hidden(game, state, cells, next);
}

impl Position {
    /// Before the first position. `AllocError`: no memory was given.
    pub fn make(alloc: Global, game: &Game) -> Result<Position, AllocError>
        requires { WellMade (game_data game.now) }
        ensures { IfOk result (λ p. IsAfter (game_data game.now) p None) }
    {
        let hidden = game.hidden.len();
        let size = hidden + count_inputs(&game.vars) + count_outputs(&game.vars);
        let mut next = vec![in alloc; Value::Bool(false); hidden]?;
        write_first(game, &mut next);
        Ok(Position {
            started: false,
            state: vec![in alloc; Value::Bool(false); size]?,
            cells: vec![in alloc; Value::Bool(false); hidden]?,
            next,
        })
    }

    /// The values of the last state. There are none before the first.
    pub fn values(&self) -> &[Value]
        ensures { result.now ≡ values_at self.now }
    {
        if self.started { &self.state } else { &[] }
    }

    /// Stands before the first position again.
    pub fn start_anew(&mut self, game: &Game)
        requires { (b : Before) × IsAfter (game_data game.now) self.old b }
        ensures { IsAfter (game_data game.now) self.new None }
    {
        write_first(game, &mut self.next);
        self.started = false;
    }

    /// Stands after a state of the game, whose values are given in order.
    pub fn go_to(&mut self, game: &Game, state: &[Value])
        requires made { WellMade (game_data game.now) }
        requires here { (b : Before) × IsAfter (game_data game.now) self.old b }
        requires state { (s : State) × IsTrue (is_state (game_data game.now) s) × (listed s ≡ state.now) }
        ensures { (s : State) → IsTrue (is_state (game_data game.now) s) → listed s ≡ state.now → IsAfter (game_data game.now) self.new (Some s) }
    {
        write_listed(&mut self.state, state);
        self.arrive(game);
    }

    /// Goes on to the state that an input and an output lead to.
    pub fn go_on(&mut self, game: &Game, input: &[Value], output: &[Value])
        requires made { WellMade (game_data game.now) }
        requires here { (b : Before) × IsAfter (game_data game.now) self.old b × IsClosedAt (game_data game.now) b input.now output.now }
        ensures { (b : Before) → IsAfter (game_data game.now) self.old b → IsClosedAt (game_data game.now) b input.now output.now →
            IsAfter (game_data game.now) self.new (Some (reached (game_data game.now) b input.now output.now)) }
    {
        write_state(&mut self.state, &self.next, input, output);
        self.arrive(game);
    }

    /// Stands after the state whose values are written.
    fn arrive(&mut self, game: &Game)
        requires made { WellMade (game_data game.now) }
        requires cells { length self.old.cells.items ≡ length (game_data game.now).hidden }
        requires room { length self.old.next.items ≡ length (game_data game.now).hidden }
        requires state { (s : State) × IsTrue (is_state (game_data game.now) s) × (listed s ≡ self.old.state.items) }
        ensures { (s : State) → IsTrue (is_state (game_data game.now) s) → listed s ≡ self.old.state.items → IsAfter (game_data game.now) self.new (Some s) }
    {
        write_next(game, &self.state, &mut self.cells, &mut self.next);
        self.started = true;
    }
}
