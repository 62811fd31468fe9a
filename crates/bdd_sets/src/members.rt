//! The members of a game's moves: the diagrams of its lines, of the next states, and of what the hidden tables become.

ghost use Rattle.std.specs.Prelude.{◌≡◌, ◌++◌, List, Ok, Err};
ghost use Rattle.spec_model.specs.Diagrams.{Function};
ghost use Rattle.spec_model.specs.GameViews.{game_data};
ghost use Rattle.spec_model.specs.WellMade.{WellMade};
ghost use Rattle.bdd_bits.specs.Contents.{Contents};
ghost use Rattle.bit_compile.specs.Domains.{state_domains};
ghost use Rattle.bdd_sets.specs.NextOrders.{FitsNext};
ghost use Rattle.bdd_sets.specs.ToldMoves.{TellsMoves, follows};
ghost use Rattle.bdd_sets.specs.Members.{AreRoots, all_true, functions_at};
ghost use Rattle.bdd_sets.specs.Forcing.{AreLevelsOf};
ghost use Rattle.bdd_sets.specs.Lists.{MakesList};
ghost use Rattle.bdd_sets.specs.Lines.{side_functions};
ghost use Rattle.bdd_sets.specs.LineScenes.{IsLineScene, game_seen, FitsScene, IsMade};
ghost use Rattle.bdd_sets.specs.Updates.{update_functions};
ghost use Rattle.bit_compile.specs.Crowding.{HasCause};
ghost use Rattle.bdd_sets.specs.NamedGame.{IsOfGame};
ghost use Rattle.bdd_sets.specs.MadeMembers.{MakesMembers};

use crate::lines::{LineScene, Side, line_roots};
use crate::lists::{push_made, release_list};
use crate::moves::{Members, NextLevels};
use crate::updates::update_members;
use bdd_bits::{Diagrams, Root};
use bit_compile::Codes;
use bit_compile::proper::proper;
use bit_compile::steps::keep;
use game_values::seen::At;
use regions::{Halt, When};
use spec_model::game::Game;

/// The diagrams of a side's lines, and of the next states.
fn side_roots(
    diagrams: &mut Diagrams,
    scene: &LineScene,
    when: When,
    side: Side,
) -> Result<Vec<Root>, Halt>
    requires scene { IsLineScene scene.now }
    requires fits { FitsScene diagrams.old scene.now }
    ensures made { let g = game_seen scene.now in
        MakesList diagrams.old diagrams.new result (side_functions g scene.now.to.now side when) }
    ensures cause { HasCause diagrams.old diagrams.new result (IsOfGame (game_seen scene.now)) }
{
    let lines = line_roots(diagrams, scene, when, side)?;
    let next = proper(diagrams, scene.codes, At::Next);
    push_made(diagrams, lines, next)
}

/// The list with a second root of each of several diagrams, which were kept before the list was begun.
pub fn with_kept(
    diagrams: &mut Diagrams,
    so_far: Vec<Root>,
    roots: &[Root],
) -> Result<Vec<Root>, Halt>
    requires { (base : Contents) × (fs : List Function) ×
        MakesList base diagrams.old (Ok so_far) fs × AreRoots base roots.now }
    ensures made { (base : Contents) (fs : List Function) →
        MakesList base diagrams.old (Ok so_far) fs → AreRoots base roots.now →
        MakesList base diagrams.new result (fs ++ functions_at base roots.now) }
    ensures never { result ≡ Err Halt.Budget → ⊥ }
{
    let mut list = so_far;
    for root in roots {
        let again = keep(diagrams, root);
        list = push_made(diagrams, list, again)?;
    }
    Ok(list)
}

/// The diagrams of the assumptions, of the next states, and of the update again: a line that is judged when inputs come
/// may read a hidden value.
fn input_roots(
    diagrams: &mut Diagrams,
    scene: &LineScene,
    when: When,
    update: &[Root],
) -> Result<Vec<Root>, Halt>
    requires scene { IsLineScene scene.now }
    requires fits { FitsScene diagrams.old scene.now }
    requires update { AreRoots diagrams.old update.now }
    ensures made { let g = game_seen scene.now in
        MakesList diagrams.old diagrams.new result
        (side_functions g scene.now.to.now Side.Assumptions when ++ functions_at diagrams.old update.now) }
    ensures cause { HasCause diagrams.old diagrams.new result (IsOfGame (game_seen scene.now)) }
{
    let lines = side_roots(diagrams, scene, when, Side::Assumptions)?;
    with_kept(diagrams, lines, update)
}

/// The members with an update and outputs that were made.
fn with_inputs(
    diagrams: &mut Diagrams,
    scene: &LineScene,
    when: When,
    update: Vec<Root>,
    outputs: Vec<Root>,
) -> Result<Members, Halt>
    requires scene { IsLineScene scene.now }
    requires fits { FitsScene diagrams.old scene.now }
    requires lists { (base mid : Contents) × (us os : List Function) ×
        MakesList base mid (Ok update) us × MakesList mid diagrams.old (Ok outputs) os }
    ensures { let g = game_seen scene.now in
        (base mid : Contents) → MakesList base mid (Ok update) (update_functions g when) →
        MakesList mid diagrams.old (Ok outputs) (side_functions g scene.now.to.now Side.Guarantees when) →
        TellsMoves g when (all_true (update_functions g when)) (follows g) → MakesMembers g scene.now.to.now when base diagrams.new result }
{
    match input_roots(diagrams, scene, when, &update) {
        Ok(inputs) => Ok(Members {
            inputs,
            outputs,
            update,
        }),
        Err(halt) => {
            release_list(diagrams, outputs);
            release_list(diagrams, update);
            Err(halt)
        }
    }
}

/// The members with an update that was made: the lines and the next states come to it.
fn with_lines_of(
    diagrams: &mut Diagrams,
    scene: &LineScene,
    when: When,
    update: Vec<Root>,
) -> Result<Members, Halt>
    requires scene { IsLineScene scene.now }
    requires fits { FitsScene diagrams.old scene.now }
    requires list { IsMade diagrams.old update }
    ensures { let g = game_seen scene.now in
        (base : Contents) → MakesList base diagrams.old (Ok update) (update_functions g when) →
        TellsMoves g when (all_true (update_functions g when)) (follows g) → MakesMembers g scene.now.to.now when base diagrams.new result }
{
    match side_roots(diagrams, scene, when, Side::Guarantees) {
        Ok(outputs) => with_inputs(diagrams, scene, when, update, outputs),
        Err(halt) => {
            release_list(diagrams, update);
            Err(halt)
        }
    }
}

/// The members of the first moves, or of later ones.
fn members_at(
    diagrams: &mut Diagrams,
    codes: &Codes,
    game: &Game,
    levels: &NextLevels,
    when: When,
) -> Result<Members, Halt>
    requires made { WellMade (game_data game.now) }
    requires codes { codes.now ≡ state_domains (game_data game.now) }
    requires fits { FitsNext (game_data game.now) levels.now.to.items diagrams.old }
    requires lists { AreLevelsOf (game_data game.now) levels.now }
    ensures { MakesMembers (game_data game.now) levels.now.to.items when diagrams.old diagrams.new result }
{
    let update = update_members(diagrams, codes, game, when)?;
    let scene = LineScene {
        codes,
        game,
        to: &levels.to,
    };
    with_lines_of(diagrams, &scene, when, update)
}

/// The lines of the first moves: a late line is not judged there. Refusals are those of `bit_compile::compile`.
pub fn first_members(
    diagrams: &mut Diagrams,
    codes: &Codes,
    game: &Game,
    levels: &NextLevels,
) -> Result<Members, Halt>
    requires made { WellMade (game_data game.now) }
    requires codes { codes.now ≡ state_domains (game_data game.now) }
    requires fits { FitsNext (game_data game.now) levels.now.to.items diagrams.old }
    requires lists { AreLevelsOf (game_data game.now) levels.now }
    ensures { MakesMembers (game_data game.now) levels.now.to.items When.First diagrams.old diagrams.new result }
{
    members_at(diagrams, codes, game, levels, When::First)
}

/// The lines of later moves. Refusals are those of `bit_compile::compile`.
pub fn later_members(
    diagrams: &mut Diagrams,
    codes: &Codes,
    game: &Game,
    levels: &NextLevels,
) -> Result<Members, Halt>
    requires made { WellMade (game_data game.now) }
    requires codes { codes.now ≡ state_domains (game_data game.now) }
    requires fits { FitsNext (game_data game.now) levels.now.to.items diagrams.old }
    requires lists { AreLevelsOf (game_data game.now) levels.now }
    ensures { MakesMembers (game_data game.now) levels.now.to.items When.Later diagrams.old diagrams.new result }
{
    members_at(diagrams, codes, game, levels, When::Later)
}
