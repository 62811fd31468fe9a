//! Whether a goal holds at a state that is given by its values. It takes no memory.

ghost use Rattle.std.specs.Prelude.{◌≡◌, true, IsTrue};
ghost use Rattle.spec_model.specs.Views.{formula};
ghost use Rattle.spec_model.specs.GameViews.{game_data};
ghost use Rattle.spec_model.specs.Games.{State, listed};
ghost use Rattle.spec_model.specs.Sets.{holding};
ghost use Rattle.spec_model.specs.Steps.{is_state};
ghost use Rattle.spec_model.specs.WellMade.{WellMade, is_state_formula, scope_of};

use crate::judging::made_position;
use crate::reading::parts;
use game_values::eval::holds;
use game_values::seen::At;
use spec_model::game::{Game, Goal};
use spec_model::value::Value;

/// Whether a recurring assumption or guarantee holds at a state.
pub fn holds_at_state(game: &Game, state: &[Value], goal: &Goal) -> bool
    requires made { WellMade (game_data game.now) }
    requires state { (s : State) × IsTrue (is_state (game_data game.now) s) × (listed s ≡ state.now) }
    requires goal { is_state_formula (scope_of (game_data game.now)) (formula goal.now.holds) ≡ true }
    ensures { (s : State) → IsTrue (is_state (game_data game.now) s) → listed s ≡ state.now → result ≡ holding (game_data game.now) (formula goal.now.holds) s }
{
    let (numbers, input, output) = parts(game, state);
    let made = made_position(game, numbers, input, output);
    holds(&goal.holds, &made, At::Now)
}
