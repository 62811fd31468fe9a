//! The formulas of a game's lines and goals, in order.

ghost use Rattle.std.specs.Prelude.{◌≡◌, ◌++◌, map, IfOk, OnOk};
ghost use Rattle.spec_model.specs.GameViews.{game_data, goal_data};
ghost use Rattle.bdd_sets.specs.LineScenes.{line_data};
ghost use Rattle.bdd_sets.specs.NamedGame.{formulas_of as formulas_of_lem};
ghost use Rattle.line_functions.specs.Asking.{formulas_seen};

use spec_model::expr::Expr;
use spec_model::game::{Game, Goal};
use std::alloc::{AllocError, Global};

fn add_lines<'g>(all: &mut Vec<&'g Expr>, lines: &'g [(u32, Expr)]) -> Result<(), AllocError>
    ensures { OnOk result (formulas_seen all.new.items ≡ formulas_seen all.old.items ++ map (λ l. l.1) (line_data lines.now)) }
{
    for line in lines {
        all.push(&line.1)?;
    }
    Ok(())
}

fn add_goals<'g>(all: &mut Vec<&'g Expr>, goals: &'g [Goal]) -> Result<(), AllocError>
    ensures { OnOk result (formulas_seen all.new.items ≡ formulas_seen all.old.items ++ map (λ goal. goal.holds) (map goal_data goals.now)) }
{
    for goal in goals {
        all.push(&goal.holds)?;
    }
    Ok(())
}

/// Those of initial lines, of lines that are judged at each position, and of goals.
pub fn formulas_of<'g>(alloc: Global, game: &'g Game) -> Result<Vec<&'g Expr>, AllocError>
    ensures { IfOk result (λ all. formulas_seen all.items ≡ formulas_of_lem (game_data game.now)) }
{
    let mut all = Vec::new(alloc);
    add_lines(&mut all, &game.initial_asm)?;
    add_lines(&mut all, &game.initial_gar)?;
    add_lines(&mut all, &game.safe_asm)?;
    add_lines(&mut all, &game.safe_gar)?;
    add_goals(&mut all, &game.assume)?;
    add_goals(&mut all, &game.goals)?;
    Ok(all)
}
