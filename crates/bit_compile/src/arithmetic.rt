//! The cases of operations on formulas.

ghost use Rattle.std.specs.Prelude.{◌≤◌, map};
ghost use Rattle.spec_model.specs.Syntax.{Remainder};
ghost use Rattle.spec_model.specs.Views.{formula};
ghost use Rattle.spec_model.specs.Values.{values_of};
ghost use Rattle.bit_compile.specs.Domains.{level_count};
ghost use Rattle.bit_compile.specs.Laid.{IsCountable};
ghost use Rattle.bit_compile.specs.Compiled.{results, values_in, span_of};
ghost use Rattle.bit_compile.specs.CaseRoots.{AreKept, MakesCases, cases_at};
ghost use Rattle.bit_compile.specs.Scenes.{IsScene, cases_seen, codes_seen, entries_seen, game_seen};
ghost use Rattle.bit_compile.specs.Known.{IsKnown, operated_cases};
ghost use Rattle.bit_compile.specs.Named.{IsOfResults};
ghost use Rattle.bit_compile.specs.NamedScenes.{IsNamedIn, IsNamedOr, IsOfOperated};

use crate::cases::{CaseRoot, release_all};
use crate::compiling::cases_of;
use crate::operation::Operation;
use crate::scenes::Scene;
use crate::spans::{operation_cases, remainder_cases};
use bdd_bits::Diagrams;
use game_values::seen::At;
use regions::Halt;
use spec_model::expr::Expr;

/// Each number that an operation gives, with where it is had.
#[cycle(compile)]
pub fn operated(
    diagrams: &mut Diagrams,
    scene: &Scene,
    at: At,
    op: Operation,
    a: &Expr,
    b: &Expr,
) -> Result<Vec<CaseRoot>, Halt>
    requires scene { IsScene scene.now }
    requires levels { level_count (codes_seen scene.now) ≤ diagrams.old.state.table.levels }
    requires a_known { IsKnown (game_seen scene.now) (formula a.now) }
    requires b_known { IsKnown (game_seen scene.now) (formula b.now) }
    requires span { IsCountable (span_of op (values_in (game_seen scene.now) (formula a.now)) (values_in (game_seen scene.now) (formula b.now))) }
    ensures { let s = scene.now in
        MakesCases diagrams.old diagrams.new result (operated_cases (game_seen s) (entries_seen s) at op (formula a.now) (formula b.now)) (IsOfOperated s at op (formula a.now) (formula b.now)) }
{
    let xs = cases_of(diagrams, scene, at, a)?;
    let cases = operated_with(diagrams, scene, at, op, &xs, b);
    release_all(diagrams, xs);
    cases
}

/// Each number that an operation gives on these values and on those of a formula, with where it is had.
#[cycle(compile)]
fn operated_with(
    diagrams: &mut Diagrams,
    scene: &Scene,
    at: At,
    op: Operation,
    xs: &[CaseRoot],
    b: &Expr,
) -> Result<Vec<CaseRoot>, Halt>
    requires scene { IsScene scene.now }
    requires levels { level_count (codes_seen scene.now) ≤ diagrams.old.state.table.levels }
    requires known { IsKnown (game_seen scene.now) (formula b.now) }
    requires span { IsCountable (span_of op (map (λ x. x.value) xs.now) (values_in (game_seen scene.now) (formula b.now))) }
    requires kept { AreKept diagrams.old.state xs.now }
    ensures { let c = diagrams.old in let s = scene.now in let had = cases_at c xs.now in let ys = cases_seen s at (formula b.now) in let vs = values_of (span_of op (map (λ x. x.value) xs.now) (values_in (game_seen s) (formula b.now))) in
        MakesCases c diagrams.new result (results op had ys vs) (IsNamedOr s at (formula b.now) (IsOfResults op had ys vs)) }
{
    let ys = cases_of(diagrams, scene, at, b)?;
    let cases = operation_cases(diagrams, scene.alloc(), op, xs, &ys);
    release_all(diagrams, ys);
    cases
}

/// Each remainder of a formula's number, with where it is had.
#[cycle(compile)]
pub fn remainders(
    diagrams: &mut Diagrams,
    scene: &Scene,
    at: At,
    a: &Expr,
    n: i64,
) -> Result<Vec<CaseRoot>, Halt>
    requires scene { IsScene scene.now }
    requires levels { level_count (codes_seen scene.now) ≤ diagrams.old.state.table.levels }
    requires known { IsKnown (game_seen scene.now) (Remainder (formula a.now) n) }
    ensures { MakesCases diagrams.old diagrams.new result (cases_seen scene.now at (Remainder (formula a.now) n)) (IsNamedIn scene.now at (Remainder (formula a.now) n)) }
{
    let xs = cases_of(diagrams, scene, at, a)?;
    let cases = remainder_cases(diagrams, scene.alloc(), &xs, n);
    release_all(diagrams, xs);
    cases
}
