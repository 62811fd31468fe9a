//! What is seen of a state and the next one, where its hidden tables were read in order, each to its cell.

ghost use Rattle.std.specs.Prelude.{◌≡◌, map, get_or, false, []};
ghost use Rattle.spec_model.specs.GameViews.{hidden_data};
ghost use Rattle.game_play.specs.Sights.{cell_in as cell_in_lem, entries_at, reading_in};

use game_values::cells::entry_in;
use game_values::read::variable;
use game_values::seen::{At, Found, Seen};
use game_values::values::value_or;
use spec_model::game::Hidden;
use spec_model::value::{Value, Var};

/// What is seen of a state and the next one: the moves of both, and the cells of the tables that are read so far.
#[derive(Clone, Copy)]
pub struct Sight<'a> {
    pub vars: &'a [Var],
    pub hidden: &'a [Hidden],
    pub input: &'a [Value],
    pub output: &'a [Value],
    pub next_input: &'a [Value],
    pub next_output: &'a [Value],
    pub cells: &'a [Value],
}

/// The cell that a value stands for.
pub fn cell_in(value: Value) -> usize
    ensures { result ≡ cell_in_lem value }
{
    match value {
        Value::Int(z) => { if z < 0 { 0 } else { z as usize } }
        _ => 0,
    }
}

fn entry(hidden: &[Hidden], cells: &[Value], table: usize, part: usize) -> bool
    ensures { result ≡ get_or (get_or (entries_at (map hidden_data hidden.now) cells.now) table []) part false }
{
    if table < hidden.len() && table < cells.len() {
        entry_in(&hidden[table].tables, part, cell_in(value_or(cells, table)))
    } else {
        false
    }
}

impl<'a> Seen for Sight<'a> {
    ghost reading = { reading_in };

    ghost unread = { λ s. 0 };

    fn variable(&self, at: At, k: usize) -> Value {
        match at {
            At::Now => variable(self.vars, self.input, self.output, k),
            At::Next => variable(self.vars, self.next_input, self.next_output, k),
        }
    }

    fn entry(&self, _at: At, table: usize, part: usize) -> Found<'_, Self> {
        Found::Known(entry(self.hidden, self.cells, table, part))
    }
}
