//! The moves after a node, or the first ones: which are legal, and which nodes they lead to.

ghost use Rattle.std.specs.Prelude.{◌≡◌, is_none, IsTrue};
ghost use Rattle.spec_model.specs.Steps.{is_input, is_output, legal_input, legal_output};
ghost use Rattle.strategy_tables.specs.Tables.{is_reached};
ghost use Rattle.strategy_tables.specs.Views.{node_data};
ghost use Rattle.table_check.specs.Turns.{IsTurn, before_of, game_at};

use crate::judges::Judges;
use crate::room::Room;
use crate::same::{are_same, are_same_numbers};
use spec_model::game::Label;
use spec_model::value::Value;
use strategy_tables::Node;

/// What the moves are judged by, and the nodes that rows name.
#[derive(Drop)]
pub struct Turn<'a, 'v, 'r> {
    pub judges: &'a Judges,
    pub nodes: &'a [Node],
    /// The node before the moves; before the first ones there is none.
    pub before: Option<&'v Node>,
    /// What is read of its state.
    pub room: &'r Room,
}

impl<'a, 'v, 'r> Turn<'a, 'v, 'r> {
    /// The first assumption that an input breaks.
    fn broken_by_input(&self, input: &[Value]) -> Option<Label>
        requires turn { IsTurn self.now }
        requires input { IsTrue (is_input (game_at self.now) input.now) }
        ensures { is_none result ≡ legal_input (game_at self.now) (before_of self.now.before) input.now }
    {
        let game = &self.judges.game;
        let judge = &self.judges.inputs;
        let room = self.room;
        match self.before {
            None => judge.first_broken_at_start(game, &room.numbers, input),
            Some(_) => {
                judge.first_broken_after(game, &room.state, &room.cells, &room.numbers, input)
            }
        }
    }

    /// The first guarantee or monitor's line that an output breaks after an input.
    fn broken_by_output(&self, input: &[Value], output: &[Value]) -> Option<Label>
        requires turn { IsTurn self.now }
        requires input { IsTrue (is_input (game_at self.now) input.now) }
        requires output { IsTrue (is_output (game_at self.now) output.now) }
        ensures { is_none result ≡ legal_output (game_at self.now) (before_of self.now.before) input.now output.now }
    {
        let game = &self.judges.game;
        let judge = &self.judges.outputs;
        let room = self.room;
        match self.before {
            None => judge.first_broken_at_start(game, &room.numbers, input, output),
            Some(_) => judge.first_broken_after(
                game,
                &room.state,
                &room.cells,
                &room.numbers,
                input,
                output,
            ),
        }
    }

    /// Whether an input is legal.
    pub fn allows_input(&self, input: &[Value]) -> bool
        requires turn { IsTurn self.now }
        requires input { IsTrue (is_input (game_at self.now) input.now) }
        ensures { result ≡ legal_input (game_at self.now) (before_of self.now.before) input.now }
    {
        self.broken_by_input(input).is_none()
    }

    /// Whether an output is legal after an input.
    pub fn allows_output(&self, input: &[Value], output: &[Value]) -> bool
        requires turn { IsTurn self.now }
        requires input { IsTrue (is_input (game_at self.now) input.now) }
        requires output { IsTrue (is_output (game_at self.now) output.now) }
        ensures { result ≡ legal_output (game_at self.now) (before_of self.now.before) input.now output.now }
    {
        self.broken_by_output(input, output).is_none()
    }

    /// Whether a node's state is the one that an input and the node's own output lead to.
    pub fn reaches(&self, input: &[Value], v: &Node) -> bool
        requires { IsTurn self.now }
        ensures { result ≡ is_reached (game_at self.now) (before_of self.now.before) input.now (node_data v.now) }
    {
        are_same_numbers(&v.hidden, &self.room.numbers) && are_same(&v.input, input)
    }
}
