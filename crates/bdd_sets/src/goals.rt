//! Where recurring goals hold.

ghost use Rattle.std.specs.Prelude.{◌≡◌, ◌≤◌, true, map, IfOk};
ghost use Rattle.std.specs.List.{list_all};
ghost use Rattle.spec_model.specs.GameViews.{game_data, goal_data};
ghost use Rattle.spec_model.specs.WellMade.{WellMade, scope_of, is_state_formula};
ghost use Rattle.bit_compile.specs.Domains.{state_domains, level_count};
ghost use Rattle.bit_compile.specs.Compiled.{compiled};
ghost use Rattle.bdd_sets.specs.Members.{functions_at};
ghost use Rattle.bdd_sets.specs.Lists.{MakesList};
ghost use Rattle.bit_compile.specs.Crowding.{HasCause};
ghost use Rattle.bdd_sets.specs.Goals.{TellGoals, IsOfGoals};

use crate::lists::push_made;
use bdd_bits::{Diagrams, Root};
use bit_compile::{Codes, compile};
use regions::Halt;
use spec_model::game::{Game, Goal};

/// The diagrams of goals of a game, at the present bits. `Budget`: the store held its budget of nodes, and an
/// operation needed each of them. `Memory`: none was given. Neither changes what is kept.
pub fn goal_roots(
    diagrams: &mut Diagrams,
    codes: &Codes,
    game: &Game,
    goals: &[Goal],
) -> Result<Vec<Root>, Halt>
    requires made { WellMade (game_data game.now) }
    requires codes { codes.now ≡ state_domains (game_data game.now) }
    requires levels { level_count codes.now ≤ diagrams.old.state.table.levels }
    requires formulas { list_all (λ goal. is_state_formula (scope_of (game_data game.now)) goal.holds) (map goal_data goals.now) ≡ true }
    ensures tell { IfOk result (λ roots. TellGoals (game_data game.now) (map goal_data goals.now) (functions_at diagrams.new roots.items)) }
    ensures made { MakesList diagrams.old diagrams.new result (map (λ goal. compiled (game_data game.now) goal.holds) (map goal_data goals.now)) }
    ensures cause { HasCause diagrams.old diagrams.new result (IsOfGoals (game_data game.now) (map goal_data goals.now)) }
{
    let mut roots = Vec::new(codes.alloc());
    for goal in goals {
        let made = compile(diagrams, codes, game, &goal.holds);
        roots = push_made(diagrams, roots, made)?;
    }
    Ok(roots)
}
