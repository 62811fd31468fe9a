//! The diagrams of variables.

ghost use Rattle.std.specs.Prelude.{◌≡◌, ◌≤◌, ◌<◌, ◌∷◌, [], length, IfSome};
ghost use Rattle.spec_model.specs.declared.expr.Compare.TheVariants.{Eq};
ghost use Rattle.spec_model.specs.Meaning.{compare_values};
ghost use Rattle.spec_model.specs.Syntax.{Constant, Variable, Comparison};
ghost use Rattle.spec_model.specs.Views.{formula};
ghost use Rattle.bit_compile.specs.Domains.{level_count, state_domains};
ghost use Rattle.bit_compile.specs.Compiled.{place_of, variable_domain, is_code, coded, only, some_pair};
ghost use Rattle.bit_compile.specs.CaseRoots.{MakesCases};
ghost use Rattle.bit_compile.specs.Scenes.{IsScene, game_seen, codes_seen, truth_seen};
ghost use Rattle.bit_compile.specs.Crowding.{MakesNamed};
ghost use Rattle.bit_compile.specs.Named.{IsOfVariable};
ghost use Rattle.bit_compile.specs.Known.{IsKnown};
ghost use Rattle.bit_compile.specs.Equations.{Decides};

use crate::cases::CaseRoot;
use crate::domains::code;
use crate::scenes::Scene;
use crate::spans::coded_cases;
use bdd_bits::{Diagrams, Root};
use game_values::seen::At;
use regions::Halt;
use spec_model::expr::{Compare, Expr};
use spec_model::value::Value;
use spec_model::variables::has_value;

/// Where a Boolean variable is true.
#[inline(never)]
pub fn variable_root(diagrams: &mut Diagrams, scene: &Scene, at: At, k: usize) -> Result<Root, Halt>
    requires scene { IsScene scene.now }
    requires levels { level_count (codes_seen scene.now) ≤ diagrams.old.state.table.levels }
    requires known { k < length (game_seen scene.now).variables }
    ensures { let g = game_seen scene.now in MakesNamed diagrams.old diagrams.new result (is_code (state_domains g) at (place_of g k) 1) (IsOfVariable g at k) }
{
    scene.codes.has_code(diagrams, at, scene.place(k), 1)
}

/// Each value of a variable, with where it has it.
#[inline(never)]
pub fn variable_cases(
    diagrams: &mut Diagrams,
    scene: &Scene,
    at: At,
    k: usize,
) -> Result<Vec<CaseRoot>, Halt>
    requires scene { IsScene scene.now }
    requires levels { level_count (codes_seen scene.now) ≤ diagrams.old.state.table.levels }
    requires known { k < length (game_seen scene.now).variables }
    ensures { let g = game_seen scene.now in MakesCases diagrams.old diagrams.new result (coded (state_domains g) at (place_of g k) (variable_domain g k)) (IsOfVariable g at k) }
{
    let domain = &scene.game.vars[k].domain;
    coded_cases(
        diagrams,
        scene.codes,
        at,
        scene.place(k),
        domain,
        scene.alloc(),
    )
}

/// A code of the slot at a place of a state, at one move.
#[derive(Clone, Copy)]
pub struct Equation {
    pub at: At,
    pub place: usize,
    pub code: usize,
}

/// The number of a variable that an expression is.
fn variable_of(e: &Expr) -> Option<usize>
    ensures { IfSome result (λ k. formula e.now ≡ Variable k) }
{
    match e {
        Expr::Var(k) => Some(*k as usize),
        _ => None,
    }
}

/// A value that an expression is.
fn value_of(e: &Expr) -> Option<Value>
    ensures { IfSome result (λ v. formula e.now ≡ Constant v) }
{
    match e {
        Expr::Const(v) => Some(*v),
        _ => None,
    }
}

/// That a variable has this value, where it is one of its domain.
fn decided_where(scene: &Scene, at: At, k: usize, value: Value) -> Option<Equation>
    requires scene { IsScene scene.now }
    requires known { k < length (game_seen scene.now).variables }
    ensures { let g = game_seen scene.now in
        IfSome result (λ q. Decides scene.now q (some_pair (compare_values Eq) (coded (state_domains g) at (place_of g k) (variable_domain g k)) (only value))) }
{
    let domain = &scene.game.vars[k].domain;
    if !has_value(domain, value) {
        return None;
    }
    let code = code(domain, value, 0);
    Some(Equation {
        at,
        place: scene.place(k),
        code,
    })
}

/// The code that decides a comparison, where that is the equation of a variable with a value of its domain. No other case of
/// the variable is looked at then.
pub fn decided_by(scene: &Scene, at: At, c: Compare, a: &Expr, b: &Expr) -> Option<Equation>
    requires scene { IsScene scene.now }
    requires known { IsKnown (game_seen scene.now) (formula a.now) }
    ensures { IfSome result (λ q. Decides scene.now q (truth_seen scene.now at (Comparison c (formula a.now) (formula b.now)))) }
{
    let value = value_of(b)?;
    match c {
        Compare::Eq => match a {
            Expr::Next(inner) => decided_where(scene, At::Next, variable_of(inner)?, value),
            _ => decided_where(scene, at, variable_of(a)?, value),
        },
        _ => None,
    }
}
