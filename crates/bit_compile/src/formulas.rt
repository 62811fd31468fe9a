//! The diagram of a game's formula.

ghost use Rattle.std.specs.Prelude.{◌≡◌, ◌≤◌, true, IfOk};
ghost use Rattle.spec_model.specs.Views.{formula};
ghost use Rattle.spec_model.specs.GameViews.{game_data};
ghost use Rattle.spec_model.specs.WellMade.{WellMade, scope_of, is_step_formula};
ghost use Rattle.bdd_bits.specs.Contents.{function_at};
ghost use Rattle.bit_compile.specs.Domains.{state_domains, level_count};
ghost use Rattle.bit_compile.specs.Compiled.{compiled as compiled_lem};
ghost use Rattle.bit_compile.specs.CompileLaws.{IsFormulaOf};
ghost use Rattle.bit_compile.specs.Crowding.{MakesNamed};
ghost use Rattle.bit_compile.specs.Named.{IsNamedOf};

use crate::codes::Codes;
use crate::compiling::truth_root;
use crate::scenes::Scene;
use bdd_bits::{Diagrams, Root};
use game_values::seen::At;
use regions::Halt;
use spec_model::expr::Expr;
use spec_model::game::Game;

/// The diagram of a formula over a state and the next one. `Budget`: the store held its budget of nodes, and an
/// operation needed each of them. `Memory`: none was given. Neither changes a kept root.
pub fn compile(diagrams: &mut Diagrams, codes: &Codes, game: &Game, e: &Expr) -> Result<Root, Halt>
    requires made { WellMade (game_data game.now) }
    requires codes { codes.now ≡ state_domains (game_data game.now) }
    requires levels { level_count codes.now ≤ diagrams.old.state.table.levels }
    requires formula { is_step_formula (scope_of (game_data game.now)) (formula e.now) ≡ true }
    ensures meaning { IfOk result (λ r. IsFormulaOf (game_data game.now) (formula e.now) (function_at diagrams.new r)) }
    ensures compiled { let g = game_data game.now in
        MakesNamed diagrams.old diagrams.new result (compiled_lem g (formula e.now)) (IsNamedOf g (formula e.now)) }
{
    let scene = Scene {
        codes,
        game,
        hidden: &game.hidden,
    };
    truth_root(diagrams, &scene, At::Now, e)
}
