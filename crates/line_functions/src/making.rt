//! The diagrams of the functions of lines.

ghost use Rattle.std.specs.Prelude.{◌≡◌, ◌≤◌, map, true};
ghost use Rattle.std.specs.List.{list_all};
ghost use Rattle.spec_model.specs.Views.{formula};
ghost use Rattle.spec_model.specs.GameViews.{game_data};
ghost use Rattle.spec_model.specs.WellMade.{WellMade, scope_of, is_step_formula};
ghost use Rattle.bit_compile.specs.Domains.{state_domains, level_count};
ghost use Rattle.bit_compile.specs.Making.{Makes};
ghost use Rattle.bit_compile.specs.Crowding.{HasCause};
ghost use Rattle.bdd_sets.specs.Lists.{MakesList};
ghost use Rattle.line_functions.specs.Names.{named_in};
ghost use Rattle.line_functions.specs.Functions.{line_function, functions_of, IsOfLine, IsOfOne, IsOfLines};
ghost use Rattle.line_functions.specs.Asking.{IsScene, game_seen, formulas_seen};

use crate::formulas::formulas_of;
use crate::slots::{Marks, TimedSlot};
use bdd_bits::{Diagrams, Root};
use bdd_sets::lists::push_made;
use bit_compile::proper::and_some_value;
use bit_compile::{Codes, compile};
use regions::Halt;
use spec_model::expr::Expr;
use spec_model::game::Game;

/// What lines are compiled in: a game, the bits of its states, and what tells the slots that formulas name.
#[derive(Clone, Copy)]
pub struct Scene<'a> {
    pub codes: &'a Codes,
    pub game: &'a Game,
    pub marks: &'a Marks,
}

/// The diagram of the function of a line that names these slots.
fn product_root(
    diagrams: &mut Diagrams,
    scene: &Scene,
    e: &Expr,
    named: &[TimedSlot],
) -> Result<Root, Halt>
    requires scene { IsScene scene.now }
    requires levels { level_count scene.now.codes.now ≤ diagrams.old.state.table.levels }
    requires formula { is_step_formula (scope_of (game_seen scene.now)) (formula e.now) ≡ true }
    requires named { named.now ≡ named_in (game_seen scene.now) (formula e.now) }
    ensures made { Makes diagrams.old diagrams.new result (line_function (game_seen scene.now) (formula e.now)) }
    ensures cause { HasCause diagrams.old diagrams.new result (IsOfLine (game_seen scene.now) (formula e.now)) }
{
    let mut product = compile(diagrams, scene.codes, scene.game, e)?;
    for one in named {
        let more = and_some_value(diagrams, &product, scene.codes, one.at, one.slot);
        diagrams.release(product);
        let next = more?;
        product = next;
    }
    Ok(product)
}

/// The diagram of the function of a line. Refusals are those of `compile`, and leave what was kept.
fn line_root(diagrams: &mut Diagrams, scene: &Scene, e: &Expr) -> Result<Root, Halt>
    requires scene { IsScene scene.now }
    requires levels { level_count scene.now.codes.now ≤ diagrams.old.state.table.levels }
    requires formula { is_step_formula (scope_of (game_seen scene.now)) (formula e.now) ≡ true }
    ensures made { Makes diagrams.old diagrams.new result (line_function (game_seen scene.now) (formula e.now)) }
    ensures cause { HasCause diagrams.old diagrams.new result (IsOfLine (game_seen scene.now) (formula e.now)) }
{
    let Ok(named) = scene.marks.named_in(scene.codes.alloc(), scene.game, e) else {
        return Err(Halt::Memory);
    };
    product_root(diagrams, scene, e, &named)
}

/// The diagrams of the functions of several lines.
fn roots_of(diagrams: &mut Diagrams, scene: &Scene, lines: &[&Expr]) -> Result<Vec<Root>, Halt>
    requires scene { IsScene scene.now }
    requires levels { level_count scene.now.codes.now ≤ diagrams.old.state.table.levels }
    requires formulas { list_all (is_step_formula (scope_of (game_seen scene.now))) (formulas_seen lines.now) ≡ true }
    ensures made { MakesList diagrams.old diagrams.new result (map (line_function (game_seen scene.now)) (formulas_seen lines.now)) }
    ensures cause { HasCause diagrams.old diagrams.new result (IsOfOne (game_seen scene.now) (formulas_seen lines.now)) }
{
    let mut roots = Vec::new(scene.codes.alloc());
    for e in lines {
        let made = line_root(diagrams, scene, e);
        roots = push_made(diagrams, roots, made)?;
    }
    Ok(roots)
}

/// The diagrams of the functions of a game's lines and goals: those of the initial lines, of the lines that are judged at each
/// position, monitors' lines among them, and of the recurring goals. They stand at the levels of a state's order. `Budget`: the
/// store held its budget of nodes, and an operation needed each of them. `Memory`: none was given. Either gives all back.
pub fn line_functions(
    diagrams: &mut Diagrams,
    codes: &Codes,
    game: &Game,
) -> Result<Vec<Root>, Halt>
    requires made { WellMade (game_data game.now) }
    requires codes { codes.now ≡ state_domains (game_data game.now) }
    requires levels { level_count codes.now ≤ diagrams.old.state.table.levels }
    ensures made { MakesList diagrams.old diagrams.new result (functions_of (game_data game.now)) }
    ensures cause { HasCause diagrams.old diagrams.new result (IsOfLines (game_data game.now)) }
{
    let Ok(marks) = Marks::make(codes.alloc(), game, codes.count()) else {
        return Err(Halt::Memory);
    };
    let Ok(lines) = formulas_of(codes.alloc(), game) else {
        return Err(Halt::Memory);
    };
    let scene = Scene {
        codes,
        game,
        marks: &marks,
    };
    roots_of(diagrams, &scene, &lines)
}
