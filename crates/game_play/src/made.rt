//! What is seen of a position that has just been made: its hidden tables are read where they are asked for.

ghost use Rattle.std.specs.Prelude.{◌≡◌, ◌<◌, map, not, true, []};
ghost use Rattle.spec_model.specs.Views.{variable_data};
ghost use Rattle.spec_model.specs.GameViews.{hidden_data};
ghost use Rattle.spec_model.specs.Values.{is_assignment};
ghost use Rattle.spec_model.specs.Moves.{is_env, domains_of};
ghost use Rattle.spec_model.specs.Steps.{are_hidden_values};
ghost use Rattle.spec_model.specs.WellMade.{are_tables};
ghost use Rattle.game_play.specs.Sights.{cell_in as cell_in_lem, reading_at, nodes_of_atoms};

use crate::sight::cell_in;
use game_values::read::variable;
use game_values::seen::{At, Found, Seen};
use spec_model::game::Hidden;
use spec_model::value::{Value, Var};

/// A position and its hidden values. No table is read before it is asked for: an entry is found by the letter of the atoms
/// of its table, which read only the tables before it.
#[derive(Clone, Copy)]
pub struct Made<'a> {
    pub vars: &'a [Var],
    pub hidden: &'a [Hidden],
    pub numbers: &'a [Value],
    pub input: &'a [Value],
    pub output: &'a [Value],
    pub ghost tables: { are_tables (record { domains = map (λ v. v.domain) (map variable_data vars.now); tables = [] }) (map hidden_data hidden.now) ≡ true },
    pub ghost valued: { are_hidden_values (map hidden_data hidden.now) (map cell_in_lem numbers.now) ≡ true },
    pub ghost moved: { is_assignment (domains_of is_env (map variable_data vars.now)) input.now ≡ true },
    pub ghost answered: { is_assignment (domains_of (λ o. not (is_env o)) (map variable_data vars.now)) output.now ≡ true },
}

/// The hidden value of a table.
pub fn number_of(h: &Hidden, value: Value) -> u16
    requires { cell_in_lem value < h.now.values }
    ensures value { result ≡ cell_in_lem value }
    ensures below { result < h.now.values }
{
    let _values = h.values;
    cell_in(value) as u16
}

impl<'a> Seen for Made<'a> {
    ghost reading = { λ s. reading_at (map variable_data s.vars.now) (map hidden_data s.hidden.now) s.numbers.now (record { input = s.input.now; output = s.output.now }) };

    ghost unread = { λ s. nodes_of_atoms s.hidden.now };

    fn variable(&self, _at: At, k: usize) -> Value {
        variable(self.vars, self.input, self.output, k)
    }

    fn entry(&self, _at: At, table: usize, _part: usize) -> Found<'_, Self> {
        if table >= self.hidden.len() {
            return Found::Known(false);
        }
        let h = &self.hidden[table];
        let before = Made {
            vars: self.vars,
            hidden: &self.hidden[..table],
            numbers: &self.numbers[..table],
            input: self.input,
            output: self.output,
        };
        Found::In(h, number_of(h, self.numbers[table]), before)
    }
}
