//! The lines of a game as diagrams of its moves, those of the first moves and those of later ones.
//!
//! A late line is a formula over the state before and the next one, and its diagram is that of the formula. Any other
//! line is a formula over the next state alone: its diagram reads the next bits where the formula's reads present ones.

ghost use Rattle.std.specs.Prelude.{◌≡◌, ◌⊎◌, ◌++◌, List, Ok, map, true, false, IfOk};
ghost use Rattle.std.specs.List.{Contains};
ghost use Rattle.spec_model.specs.Diagrams.{Function};
ghost use Rattle.bdd_bits.specs.Contents.{Contents};
ghost use Rattle.bit_compile.specs.Crowding.{HasCause};
ghost use Rattle.bit_compile.specs.Named.{IsNamedOf};
ghost use Rattle.bdd_sets.specs.NamedGame.{IsOfGame};
ghost use Rattle.bdd_sets.specs.MadeMembers.{IsOfLines};
ghost use Rattle.spec_model.specs.Moves.{has_next};
ghost use Rattle.spec_model.specs.Views.{formula};
ghost use Rattle.spec_model.specs.GameViews.{game_data};
ghost use Rattle.spec_model.specs.WellMade.{WellMade, scope_of, is_step_formula};
ghost use Rattle.bit_compile.specs.Making.{Makes};
ghost use Rattle.bdd_sets.specs.Lists.{MakesList};
ghost use Rattle.bdd_sets.specs.Lines.{first_lines, safety_lines, is_late, is_judged_at};
ghost use Rattle.bdd_sets.specs.LineScenes.{IsLineScene, game_seen, FitsScene, line_data, AreStepLines, IsMade, Appends};
ghost use Rattle.bdd_sets.specs.Lines.{line_function, line_functions, functions_of, first_functions, functions_judged};

use crate::lists::{push_made, release_list};
use crate::spent::shift_spent;
use bdd_bits::{Diagrams, Root};
use bit_compile::{Codes, OutOfMemory, compile};
use game_values::late::{nexts, waits};
use regions::{Halt, When};
use spec_model::expr::Expr;
use spec_model::game::Game;
use std::alloc::Global;

/// Whose lines they are.
#[derive(Clone, Copy, PartialEq, Eq)]
pub enum Side {
    Assumptions,
    Guarantees,
}

/// What lines are compiled in: a game, its bits, and for each level the next one of the same bit.
#[derive(Clone, Copy)]
pub struct LineScene<'a> {
    pub codes: &'a Codes,
    pub game: &'a Game,
    pub to: &'a [u32],
}

impl<'a> LineScene<'a> {
    /// The allocator.
    pub fn alloc(&self) -> Global {
        *self.game.vars.allocator()
    }
}

/// The diagram of one line. Refusals are those of `compile`.
fn line_root(diagrams: &mut Diagrams, scene: &LineScene, late: bool, e: &Expr) -> Result<Root, Halt>
    requires scene { IsLineScene scene.now }
    requires fits { FitsScene diagrams.old scene.now }
    requires formula { is_step_formula (scope_of (game_seen scene.now)) (formula e.now) ≡ true }
    requires late { late ≡ false → has_next (formula e.now) ≡ false }
    ensures made { let g = game_seen scene.now in
        Makes diagrams.old diagrams.new result (line_function g scene.now.to.now late (formula e.now)) }
    ensures cause { HasCause diagrams.old diagrams.new result (IsNamedOf (game_seen scene.now) (formula e.now)) }
{
    let whole = compile(diagrams, scene.codes, scene.game, e)?;
    if late {
        Ok(whole)
    } else {
        shift_spent(diagrams, whole, scene.to)
    }
}

/// Whether a line is judged at these moves.
fn is_judged(when: When, late: bool) -> bool
    ensures { result ≡ is_judged_at when late }
{
    match when {
        When::First => !late,
        When::Later => true,
    }
}

/// The list with the diagram of one line more, if the line is judged at these moves. A refusal gives all back.
fn with_line(
    diagrams: &mut Diagrams,
    scene: &LineScene,
    when: When,
    late: bool,
    e: &Expr,
    so_far: Vec<Root>,
) -> Result<Vec<Root>, Halt>
    requires scene { IsLineScene scene.now }
    requires fits { FitsScene diagrams.old scene.now }
    requires formula { is_step_formula (scope_of (game_seen scene.now)) (formula e.now) ≡ true }
    requires late { late ≡ false → has_next (formula e.now) ≡ false }
    requires so_far { IsMade diagrams.old so_far }
    ensures made { let g = game_seen scene.now in
        Appends diagrams.old diagrams.new so_far result
        (line_functions g scene.now.to.now when late (formula e.now)) }
    ensures cause { (base : Contents) (fs : List Function) → MakesList base diagrams.old (Ok so_far) fs →
        HasCause base diagrams.new result (λ f. Contains fs f ⊎ IsNamedOf (game_seen scene.now) (formula e.now) f) }
{
    if !is_judged(when, late) {
        return Ok(so_far);
    }
    let made = line_root(diagrams, scene, late, e);
    push_made(diagrams, so_far, made)
}

/// Which of a side's lines are late.
fn marks(game: &Game, side: Side, lines: &[(u32, Expr)]) -> Result<Vec<bool>, OutOfMemory>
    requires { WellMade (game_data game.now) }
    ensures { let g = game_data game.now in
        IfOk result (λ late. late.items ≡ map (λ l. is_late g side l.1) (line_data lines.now)) }
{
    let alloc = *game.vars.allocator();
    match side {
        Side::Assumptions => waits(alloc, lines, &game.vars, &game.hidden),
        Side::Guarantees => nexts(alloc, lines),
    }
}

/// The list with the diagrams of several lines of a side.
fn with_lines(
    diagrams: &mut Diagrams,
    scene: &LineScene,
    when: When,
    side: Side,
    lines: &[(u32, Expr)],
    so_far: Vec<Root>,
) -> Result<Vec<Root>, Halt>
    requires scene { IsLineScene scene.now }
    requires fits { FitsScene diagrams.old scene.now }
    requires formulas { AreStepLines (game_seen scene.now) (line_data lines.now) }
    requires so_far { IsMade diagrams.old so_far }
    ensures made { let g = game_seen scene.now in
        Appends diagrams.old diagrams.new so_far result
        (functions_of g scene.now.to.now when (is_late g side) (line_data lines.now)) }
    ensures cause { let g = game_seen scene.now in
        (base : Contents) (fs : List Function) → MakesList base diagrams.old (Ok so_far) fs →
        HasCause base diagrams.new result (IsOfLines g (fs ++ functions_of g scene.now.to.now when (is_late g side) (line_data lines.now)) (line_data lines.now)) }
{
    let Ok(late) = marks(scene.game, side, lines) else {
        release_list(diagrams, so_far);
        return Err(Halt::Memory);
    };
    let mut roots = so_far;
    for k in 0..lines.len() {
        roots = with_line(diagrams, scene, when, late[k], &lines[k].1, roots)?;
    }
    Ok(roots)
}

/// A side's lines that are judged at the first move alone.
fn first_of(game: &Game, side: Side) -> &[(u32, Expr)]
    ensures { line_data result.now ≡ first_lines (game_data game.now) side }
{
    match side {
        Side::Assumptions => &game.initial_asm,
        Side::Guarantees => &game.initial_gar,
    }
}

/// A side's lines that are judged at each move.
fn safety_of(game: &Game, side: Side) -> &[(u32, Expr)]
    ensures { line_data result.now ≡ safety_lines (game_data game.now) side }
{
    match side {
        Side::Assumptions => &game.safe_asm,
        Side::Guarantees => &game.safe_gar,
    }
}

/// The diagrams of a side's lines of the first move alone, where it is the first move.
fn first_roots(
    diagrams: &mut Diagrams,
    scene: &LineScene,
    when: When,
    side: Side,
) -> Result<Vec<Root>, Halt>
    requires scene { IsLineScene scene.now }
    requires fits { FitsScene diagrams.old scene.now }
    ensures made { let g = game_seen scene.now in
        MakesList diagrams.old diagrams.new result (first_functions g scene.now.to.now side when) }
    ensures cause { HasCause diagrams.old diagrams.new result (IsOfGame (game_seen scene.now)) }
{
    let none = Vec::new(scene.alloc());
    match when {
        When::First => {
            let lines = first_of(scene.game, side);
            with_lines(diagrams, scene, when, side, lines, none)
        }
        When::Later => Ok(none),
    }
}

/// The diagrams of a side's lines that are judged at the first move, or at a later one. Refusals are those of
/// `compile`.
pub fn line_roots(
    diagrams: &mut Diagrams,
    scene: &LineScene,
    when: When,
    side: Side,
) -> Result<Vec<Root>, Halt>
    requires scene { IsLineScene scene.now }
    requires fits { FitsScene diagrams.old scene.now }
    ensures made { let g = game_seen scene.now in
        MakesList diagrams.old diagrams.new result (functions_judged g scene.now.to.now side when) }
    ensures cause { HasCause diagrams.old diagrams.new result (IsOfGame (game_seen scene.now)) }
{
    let first = first_roots(diagrams, scene, when, side)?;
    let lines = safety_of(scene.game, side);
    with_lines(diagrams, scene, when, side, lines, first)
}
