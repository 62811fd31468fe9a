//! The update of the hidden tables: for each of them the diagram of where its next value is the one that follows.

ghost use Rattle.std.specs.Prelude.{◌≡◌, ◌<◌, ◌≤◌, length, get_or, IfOk};
ghost use Rattle.spec_model.specs.GameViews.{game_data};
ghost use Rattle.spec_model.specs.WellMade.{WellMade};
ghost use Rattle.bit_compile.specs.Domains.{state_domains, level_count};
ghost use Rattle.bit_compile.specs.Compiled.{never};
ghost use Rattle.bit_compile.specs.Making.{Makes};
ghost use Rattle.bdd_sets.specs.Members.{all_true, functions_at};
ghost use Rattle.bdd_sets.specs.ToldMoves.{TellsMoves, follows};
ghost use Rattle.bdd_sets.specs.Lists.{MakesList};
ghost use Rattle.bdd_sets.specs.Updates.{update_functions};
ghost use Rattle.bit_compile.specs.Crowding.{HasCause};
ghost use Rattle.bdd_sets.specs.NamedGame.{IsOfGame};

use crate::lists::push_made;
use bdd_bits::{Diagrams, Root};
use bit_compile::{Codes, update};
use game_values::seen::At;
use regions::{Halt, When};
use spec_model::game::Game;

/// Where the next value of a hidden table is the one that follows.
fn update_member(
    diagrams: &mut Diagrams,
    codes: &Codes,
    game: &Game,
    when: When,
    k: usize,
) -> Result<Root, Halt>
    requires made { WellMade (game_data game.now) }
    requires codes { codes.now ≡ state_domains (game_data game.now) }
    requires levels { level_count codes.now ≤ diagrams.old.state.table.levels }
    requires known { k < length (game_data game.now).hidden }
    ensures made { Makes diagrams.old diagrams.new result (get_or (update_functions (game_data game.now) when) k never) }
    ensures cause { HasCause diagrams.old diagrams.new result (IsOfGame (game_data game.now)) }
{
    match when {
        When::First => codes.has_code(diagrams, At::Next, k, game.hidden[k].first as usize),
        When::Later => update(diagrams, codes, game, k),
    }
}

/// For each hidden table, the diagram of where its next value is the one that follows: at the first move its first value,
/// later what its table gives at the state before. `Budget`: the store held its budget of nodes, and an operation
/// needed each of them. `Memory`: none was given. Neither leaves a root.
pub fn update_members(
    diagrams: &mut Diagrams,
    codes: &Codes,
    game: &Game,
    when: When,
) -> Result<Vec<Root>, Halt>
    requires made { WellMade (game_data game.now) }
    requires codes { codes.now ≡ state_domains (game_data game.now) }
    requires levels { level_count codes.now ≤ diagrams.old.state.table.levels }
    ensures made { MakesList diagrams.old diagrams.new result (update_functions (game_data game.now) when) }
    ensures cause { HasCause diagrams.old diagrams.new result (IsOfGame (game_data game.now)) }
    ensures told { IfOk result (λ roots. TellsMoves (game_data game.now) when (all_true (functions_at diagrams.new roots.items)) (follows (game_data game.now))) }
{
    let mut roots = Vec::new(codes.alloc());
    for k in 0..game.hidden.len() {
        let made = update_member(diagrams, codes, game, when, k);
        roots = push_made(diagrams, roots, made)?;
    }
    Ok(roots)
}
