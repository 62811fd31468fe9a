//! The diagram of a formula, by cases on the expression.

ghost use Rattle.std.specs.Prelude.{◌≤◌, ◌||◌, ◌⊎◌};
ghost use Rattle.spec_model.specs.Syntax.{Comparison, Implication, Equivalence};
ghost use Rattle.spec_model.specs.Views.{formula};
ghost use Rattle.game_values.specs.Safety.{formulas_in};
ghost use Rattle.bdd_store.specs.State.{IsRoot};
ghost use Rattle.bdd_bits.specs.Contents.{function_at};
ghost use Rattle.bit_compile.specs.Domains.{level_count};
ghost use Rattle.bit_compile.specs.Compiled.{truths_in, entry_of, is_not, implied, same_truth, both_truths, some_pair};
ghost use Rattle.bit_compile.specs.CaseRoots.{AreKept, MakesCases, cases_at, folded as folded_lem, passes, true_cases};
ghost use Rattle.bit_compile.specs.Scenes.{IsScene, cases_seen, codes_seen, entries_seen, game_seen, truth_seen};
ghost use Rattle.bit_compile.specs.Known.{IsKnown, AreKnown};
ghost use Rattle.bit_compile.specs.Crowding.{MakesNamed};
ghost use Rattle.bit_compile.specs.Named.{IsOfSame, IsFirstOf, IsOfPairs};
ghost use Rattle.bit_compile.specs.NamedScenes.{IsNamedIn, IsNamedOr, AreNamedIn, IsOfTablesIn};

use crate::arithmetic::{operated, remainders};
use crate::blocks::pair_root;
use crate::cases::{CaseRoot, Source, cases_from, cases_of_truth, release_all};
use crate::folds::{Fold, folded};
use crate::operation::Operation;
use crate::pairs::Test;
use crate::reading::{decided_by, variable_cases, variable_root};
use crate::scenes::Scene;
use crate::spans::{same_root, table_root};
use crate::steps::{constant, not, or};
use bdd_bits::{Diagrams, Root};
use game_values::seen::At;
use game_values::values::truth;
use regions::Halt;
use spec_model::expr::{Compare, Expr};
use spec_model::value::Value;

/// Where a formula is true.
#[cycle(compile)]
pub fn truth_root(diagrams: &mut Diagrams, scene: &Scene, at: At, e: &Expr) -> Result<Root, Halt>
    requires scene { IsScene scene.now }
    requires levels { level_count (codes_seen scene.now) ≤ diagrams.old.state.table.levels }
    requires known { IsKnown (game_seen scene.now) (formula e.now) }
    ensures { MakesNamed diagrams.old diagrams.new result (truth_seen scene.now at (formula e.now)) (IsNamedIn scene.now at (formula e.now)) }
{
    match e {
        Expr::Const(v) => constant(diagrams, truth(*v)),
        Expr::Var(k) => variable_root(diagrams, scene, at, *k as usize),
        Expr::Next(a) => truth_root(diagrams, scene, At::Next, a),
        Expr::Not(a) => negated_root(diagrams, scene, at, a),
        Expr::And(es) => joined_root(diagrams, scene, at, Fold::All, es),
        Expr::Or(es) => joined_root(diagrams, scene, at, Fold::Some, es),
        Expr::Implies(a, b) => implied_root(diagrams, scene, at, a, b),
        Expr::Iff(a, b) => equivalent_root(diagrams, scene, at, a, b),
        Expr::Cmp(c, a, b) => compared_root(diagrams, scene, at, *c, a, b),
        Expr::Table(h, n) => entry_root(diagrams, scene, *h as usize, *n as usize),
        Expr::Add(_, _) => constant(diagrams, false),
        Expr::Sub(_, _) => constant(diagrams, false),
        Expr::Mul(_, _) => constant(diagrams, false),
        Expr::Mod(_, _) => constant(diagrams, false),
        Expr::Past(_, _) => constant(diagrams, false),
    }
}

/// Where a formula is false.
#[cycle(compile)]
fn negated_root(diagrams: &mut Diagrams, scene: &Scene, at: At, e: &Expr) -> Result<Root, Halt>
    requires scene { IsScene scene.now }
    requires levels { level_count (codes_seen scene.now) ≤ diagrams.old.state.table.levels }
    requires known { IsKnown (game_seen scene.now) (formula e.now) }
    ensures { MakesNamed diagrams.old diagrams.new result (is_not (truth_seen scene.now at (formula e.now))) (IsNamedIn scene.now at (formula e.now)) }
{
    let root = truth_root(diagrams, scene, at, e)?;
    let other = not(diagrams, &root);
    diagrams.release(root);
    other
}

/// Where a formula is false, or another is true.
#[cycle(compile)]
fn implied_root(
    diagrams: &mut Diagrams,
    scene: &Scene,
    at: At,
    a: &Expr,
    b: &Expr,
) -> Result<Root, Halt>
    requires scene { IsScene scene.now }
    requires levels { level_count (codes_seen scene.now) ≤ diagrams.old.state.table.levels }
    requires a_known { IsKnown (game_seen scene.now) (formula a.now) }
    requires b_known { IsKnown (game_seen scene.now) (formula b.now) }
    ensures { MakesNamed diagrams.old diagrams.new result (implied (truth_seen scene.now at (formula a.now)) (truth_seen scene.now at (formula b.now))) (IsNamedIn scene.now at (Implication (formula a.now) (formula b.now))) }
{
    let root = negated_root(diagrams, scene, at, a)?;
    let whole = or_truth(diagrams, scene, at, &root, b);
    diagrams.release(root);
    whole
}

/// Where a root is true, or a formula is.
#[cycle(compile)]
fn or_truth(
    diagrams: &mut Diagrams,
    scene: &Scene,
    at: At,
    first: &Root,
    e: &Expr,
) -> Result<Root, Halt>
    requires scene { IsScene scene.now }
    requires levels { level_count (codes_seen scene.now) ≤ diagrams.old.state.table.levels }
    requires known { IsKnown (game_seen scene.now) (formula e.now) }
    requires kept { IsRoot diagrams.old.state first.now }
    ensures { MakesNamed diagrams.old diagrams.new result (λ s. function_at diagrams.old first.now s || truth_seen scene.now at (formula e.now) s) (IsNamedIn scene.now at (formula e.now)) }
{
    let root = truth_root(diagrams, scene, at, e)?;
    let whole = or(diagrams, first, &root);
    diagrams.release(root);
    whole
}

/// Where two formulas are both true, or neither is.
#[cycle(compile)]
fn equivalent_root(
    diagrams: &mut Diagrams,
    scene: &Scene,
    at: At,
    a: &Expr,
    b: &Expr,
) -> Result<Root, Halt>
    requires scene { IsScene scene.now }
    requires levels { level_count (codes_seen scene.now) ≤ diagrams.old.state.table.levels }
    requires a_known { IsKnown (game_seen scene.now) (formula a.now) }
    requires b_known { IsKnown (game_seen scene.now) (formula b.now) }
    ensures { MakesNamed diagrams.old diagrams.new result (same_truth (truth_seen scene.now at (formula a.now)) (truth_seen scene.now at (formula b.now))) (IsNamedIn scene.now at (Equivalence (formula a.now) (formula b.now))) }
{
    let root = truth_root(diagrams, scene, at, a)?;
    let whole = same_as_truth(diagrams, scene, at, &root, b);
    diagrams.release(root);
    whole
}

/// Where a root and a formula are both true, or neither is.
#[cycle(compile)]
fn same_as_truth(
    diagrams: &mut Diagrams,
    scene: &Scene,
    at: At,
    first: &Root,
    e: &Expr,
) -> Result<Root, Halt>
    requires scene { IsScene scene.now }
    requires levels { level_count (codes_seen scene.now) ≤ diagrams.old.state.table.levels }
    requires known { IsKnown (game_seen scene.now) (formula e.now) }
    requires kept { IsRoot diagrams.old.state first.now }
    ensures { MakesNamed diagrams.old diagrams.new result (same_truth (function_at diagrams.old first.now) (truth_seen scene.now at (formula e.now))) (IsNamedOr scene.now at (formula e.now) (IsOfSame (function_at diagrams.old first.now) (truth_seen scene.now at (formula e.now)))) }
{
    let root = truth_root(diagrams, scene, at, e)?;
    let whole = same_root(diagrams, scene.alloc(), first, &root);
    diagrams.release(root);
    whole
}

/// Where each of several formulas is true.
#[cycle(compile)]
pub fn truth_cases(
    diagrams: &mut Diagrams,
    scene: &Scene,
    at: At,
    es: &[Expr],
) -> Result<Vec<CaseRoot>, Halt>
    requires scene { IsScene scene.now }
    requires levels { level_count (codes_seen scene.now) ≤ diagrams.old.state.table.levels }
    requires known { AreKnown (game_seen scene.now) (formulas_in es.now) }
    ensures { MakesCases diagrams.old diagrams.new result (true_cases (truths_in (game_seen scene.now) (entries_seen scene.now) at (formulas_in es.now))) (AreNamedIn scene.now at (formulas_in es.now)) }
{
    let Ok(mut cases) = Vec::with_capacity(scene.alloc(), es.len()) else {
        return Err(Halt::Memory);
    };
    for e in es {
        match truth_root(diagrams, scene, at, e) {
            Ok(root) => cases.push_reserved(CaseRoot {
                value: Value::Bool(true),
                root,
            }),
            Err(halt) => {
                release_all(diagrams, cases);
                return Err(halt);
            }
        }
    }
    Ok(cases)
}

/// Where all of several formulas are true, or some are.
#[cycle(compile)]
fn joined_root(
    diagrams: &mut Diagrams,
    scene: &Scene,
    at: At,
    fold: Fold,
    es: &[Expr],
) -> Result<Root, Halt>
    requires scene { IsScene scene.now }
    requires levels { level_count (codes_seen scene.now) ≤ diagrams.old.state.table.levels }
    requires known { AreKnown (game_seen scene.now) (formulas_in es.now) }
    ensures { let s = scene.now in
        MakesNamed diagrams.old diagrams.new result (folded_lem fold (truths_in (game_seen s) (entries_seen s) at (formulas_in es.now))) (λ f. AreNamedIn s at (formulas_in es.now) f ⊎ IsFirstOf fold (truths_in (game_seen s) (entries_seen s) at (formulas_in es.now)) f) }
{
    let cases = truth_cases(diagrams, scene, at, es)?;
    let root = folded(diagrams, fold, &cases);
    release_all(diagrams, cases);
    root
}

/// Where a comparison holds. Where one code decides it and making that is refused, all that was made is given back, and each
/// case of both sides is made: that refusal is answered.
#[cycle(compile)]
fn compared_root(
    diagrams: &mut Diagrams,
    scene: &Scene,
    at: At,
    c: Compare,
    a: &Expr,
    b: &Expr,
) -> Result<Root, Halt>
    requires scene { IsScene scene.now }
    requires levels { level_count (codes_seen scene.now) ≤ diagrams.old.state.table.levels }
    requires a_known { IsKnown (game_seen scene.now) (formula a.now) }
    requires b_known { IsKnown (game_seen scene.now) (formula b.now) }
    ensures { MakesNamed diagrams.old diagrams.new result (truth_seen scene.now at (Comparison c (formula a.now) (formula b.now))) (IsNamedIn scene.now at (Comparison c (formula a.now) (formula b.now))) }
{
    let Some(told) = decided_by(scene, at, c, a, b) else {
        return compared_by_cases(diagrams, scene, at, c, a, b);
    };
    match scene
        .codes
        .has_code(diagrams, told.at, told.place, told.code)
    {
        Ok(root) => Ok(root),
        Err(_) => compared_by_cases(diagrams, scene, at, c, a, b),
    }
}

/// Where a comparison holds, by each case of both sides.
#[cycle(compile)]
fn compared_by_cases(
    diagrams: &mut Diagrams,
    scene: &Scene,
    at: At,
    c: Compare,
    a: &Expr,
    b: &Expr,
) -> Result<Root, Halt>
    requires scene { IsScene scene.now }
    requires levels { level_count (codes_seen scene.now) ≤ diagrams.old.state.table.levels }
    requires a_known { IsKnown (game_seen scene.now) (formula a.now) }
    requires b_known { IsKnown (game_seen scene.now) (formula b.now) }
    ensures { MakesNamed diagrams.old diagrams.new result (truth_seen scene.now at (Comparison c (formula a.now) (formula b.now))) (IsNamedIn scene.now at (Comparison c (formula a.now) (formula b.now))) }
{
    let xs = cases_of(diagrams, scene, at, a)?;
    let root = compared_with(diagrams, scene, at, c, &xs, b);
    release_all(diagrams, xs);
    root
}

/// Where some of these values compares with the value of a formula.
#[cycle(compile)]
fn compared_with(
    diagrams: &mut Diagrams,
    scene: &Scene,
    at: At,
    c: Compare,
    xs: &[CaseRoot],
    b: &Expr,
) -> Result<Root, Halt>
    requires scene { IsScene scene.now }
    requires levels { level_count (codes_seen scene.now) ≤ diagrams.old.state.table.levels }
    requires known { IsKnown (game_seen scene.now) (formula b.now) }
    requires kept { AreKept diagrams.old.state xs.now }
    ensures { let s = scene.now in
        MakesNamed diagrams.old diagrams.new result (some_pair (passes (Test.Compared c)) (cases_at diagrams.old xs.now) (cases_seen s at (formula b.now))) (IsNamedOr s at (formula b.now) (IsOfPairs (passes (Test.Compared c)) (cases_at diagrams.old xs.now) (cases_seen s at (formula b.now)))) }
{
    let ys = cases_of(diagrams, scene, at, b)?;
    let root = pair_root(diagrams, &Test::Compared(c), xs, &ys);
    release_all(diagrams, ys);
    root
}

/// Where an entry of a hidden table is true.
#[cycle(compile)]
fn entry_root(diagrams: &mut Diagrams, scene: &Scene, h: usize, n: usize) -> Result<Root, Halt>
    requires scene { IsScene scene.now }
    requires levels { level_count (codes_seen scene.now) ≤ diagrams.old.state.table.levels }
    ensures { MakesNamed diagrams.old diagrams.new result (entry_of (entries_seen scene.now) h n) (IsOfTablesIn scene.now) }
{
    if h >= scene.hidden.len() {
        return constant(diagrams, false);
    }
    let table = &scene.hidden[h];
    if n >= table.tables.len() {
        return constant(diagrams, false);
    }
    let atoms = truth_cases(diagrams, &scene.before(h), At::Now, &table.atoms)?;
    let root = table_root(
        diagrams,
        scene.codes,
        h,
        table,
        &table.tables[n],
        &atoms,
        scene.alloc(),
    );
    release_all(diagrams, atoms);
    root
}

/// Each value that a formula may have, with where it has it.
#[cycle(compile)]
pub fn cases_of(
    diagrams: &mut Diagrams,
    scene: &Scene,
    at: At,
    e: &Expr,
) -> Result<Vec<CaseRoot>, Halt>
    requires scene { IsScene scene.now }
    requires levels { level_count (codes_seen scene.now) ≤ diagrams.old.state.table.levels }
    requires known { IsKnown (game_seen scene.now) (formula e.now) }
    ensures { MakesCases diagrams.old diagrams.new result (cases_seen scene.now at (formula e.now)) (IsNamedIn scene.now at (formula e.now)) }
{
    match e {
        Expr::Const(v) => cases_from(diagrams, scene.alloc(), &Source::Everywhere, &[*v]),
        Expr::Var(k) => variable_cases(diagrams, scene, at, *k as usize),
        Expr::Next(a) => cases_of(diagrams, scene, At::Next, a),
        Expr::Add(a, b) => operated(diagrams, scene, at, Operation::Add, a, b),
        Expr::Sub(a, b) => operated(diagrams, scene, at, Operation::Sub, a, b),
        Expr::Mul(a, b) => operated(diagrams, scene, at, Operation::Mul, a, b),
        Expr::Mod(a, n) => remainders(diagrams, scene, at, a, *n),
        Expr::Not(_) => both_cases(diagrams, scene, at, e),
        Expr::And(_) => both_cases(diagrams, scene, at, e),
        Expr::Or(_) => both_cases(diagrams, scene, at, e),
        Expr::Implies(_, _) => both_cases(diagrams, scene, at, e),
        Expr::Iff(_, _) => both_cases(diagrams, scene, at, e),
        Expr::Cmp(_, _, _) => both_cases(diagrams, scene, at, e),
        Expr::Past(_, _) => both_cases(diagrams, scene, at, e),
        Expr::Table(_, _) => both_cases(diagrams, scene, at, e),
    }
}

/// False and true, with where a formula is either.
#[cycle(compile)]
fn both_cases(
    diagrams: &mut Diagrams,
    scene: &Scene,
    at: At,
    e: &Expr,
) -> Result<Vec<CaseRoot>, Halt>
    requires scene { IsScene scene.now }
    requires levels { level_count (codes_seen scene.now) ≤ diagrams.old.state.table.levels }
    requires known { IsKnown (game_seen scene.now) (formula e.now) }
    ensures { MakesCases diagrams.old diagrams.new result (both_truths (truth_seen scene.now at (formula e.now))) (IsNamedIn scene.now at (formula e.now)) }
{
    let root = truth_root(diagrams, scene, at, e)?;
    let cases = cases_of_truth(diagrams, scene.alloc(), &root);
    diagrams.release(root);
    cases
}
