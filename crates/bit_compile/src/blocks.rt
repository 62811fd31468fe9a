//! Where some value of one list and some of another pass a test, by blocks: what all pairs of a block have in common is found
//! at once, and else the block is halved. Lists in order have few blocks: of n numbers compared with n others, about 4n.

ghost use Rattle.std.specs.Prelude.{◌≡◌, ◌||◌, ◌&&◌, map};
ghost use Rattle.std.specs.List.{list_all};
ghost use Rattle.std.specs.Bool.{beq};
ghost use Rattle.bdd_store.specs.State.{IsRoot};
ghost use Rattle.bdd_bits.specs.Contents.{function_at};
ghost use Rattle.bit_compile.specs.Making.{Makes};
ghost use Rattle.bit_compile.specs.Compiled.{some_of, some_pair};
ghost use Rattle.bit_compile.specs.CaseRoots.{AreKept, cases_at, passes as passes_lem};
ghost use Rattle.bit_compile.specs.Crowding.{MakesNamed};
ghost use Rattle.bit_compile.specs.Named.{IsOfPairs};

use crate::cases::CaseRoot;
use crate::folds::{Fold, and_some, folded};
use crate::pairs::{Test, pair_by_pair, passes};
use crate::steps::{constant, or};
use bdd_bits::{Diagrams, Root};
use regions::Halt;
use spec_model::value::Value;

/// Whether a value passes with each of several, or with none.
fn row_is(test: &Test, x: Value, ys: &[CaseRoot], passing: bool) -> bool
    ensures { result ≡ list_all (λ y. beq (passes_lem test.now x y.value) passing) ys.now }
{
    ys.iter().all(|y| passes(test, x, y.value) == passing)
}

/// Whether each pair of a block passes, or none does.
fn each_is(test: &Test, xs: &[CaseRoot], ys: &[CaseRoot], passing: bool) -> bool
    ensures { result ≡ list_all (λ x. list_all (λ y. beq (passes_lem test.now x.value y.value) passing) ys.now) xs.now }
{
    xs.iter().all(|x| row_is(test, x.value, ys, passing))
}

/// Where some value of each list is had.
fn both_some(diagrams: &mut Diagrams, xs: &[CaseRoot], ys: &[CaseRoot]) -> Result<Root, Halt>
    requires xs_kept { AreKept diagrams.old.state xs.now }
    requires ys_kept { AreKept diagrams.old.state ys.now }
    ensures { let c = diagrams.old in
        Makes c diagrams.new result (λ s. some_of (map (λ x. function_at c x.root) xs.now) s && some_of (map (λ y. function_at c y.root) ys.now) s) }
{
    let first = folded(diagrams, Fold::Some, xs)?;
    let whole = and_some(diagrams, &first, ys);
    diagrams.release(first);
    whole
}

/// Where a root is true, or some pair of a block is had and passes.
#[cycle(blocks)]
fn or_block(
    diagrams: &mut Diagrams,
    first: &Root,
    test: &Test,
    xs: &[CaseRoot],
    ys: &[CaseRoot],
) -> Result<Root, Halt>
    requires first_kept { IsRoot diagrams.old.state first.now }
    requires xs_kept { AreKept diagrams.old.state xs.now }
    requires ys_kept { AreKept diagrams.old.state ys.now }
    ensures { Makes diagrams.old diagrams.new result (λ s. function_at diagrams.old first.now s || some_pair (passes_lem test.now) (cases_at diagrams.old xs.now) (cases_at diagrams.old ys.now) s) }
{
    let second = block(diagrams, test, xs, ys)?;
    let whole = or(diagrams, first, &second);
    diagrams.release(second);
    whole
}

/// Where some pair of one block or of the other is had and passes.
#[cycle(blocks)]
fn either_block(
    diagrams: &mut Diagrams,
    test: &Test,
    one: (&[CaseRoot], &[CaseRoot]),
    other: (&[CaseRoot], &[CaseRoot]),
) -> Result<Root, Halt>
    requires one_kept { AreKept diagrams.old.state one.0.now × AreKept diagrams.old.state one.1.now }
    requires other_kept { AreKept diagrams.old.state other.0.now × AreKept diagrams.old.state other.1.now }
    ensures { let c = diagrams.old in
        Makes c diagrams.new result (λ s. some_pair (passes_lem test.now) (cases_at c one.entry.0.now) (cases_at c one.entry.1.now) s || some_pair (passes_lem test.now) (cases_at c other.entry.0.now) (cases_at c other.entry.1.now) s) }
{
    let first = block(diagrams, test, one.0, one.1)?;
    let whole = or_block(diagrams, &first, test, other.0, other.1);
    diagrams.release(first);
    whole
}

/// Where some pair of a block is had and passes.
#[cycle(blocks)]
fn block(
    diagrams: &mut Diagrams,
    test: &Test,
    xs: &[CaseRoot],
    ys: &[CaseRoot],
) -> Result<Root, Halt>
    requires xs_kept { AreKept diagrams.old.state xs.now }
    requires ys_kept { AreKept diagrams.old.state ys.now }
    ensures { Makes diagrams.old diagrams.new result (some_pair (passes_lem test.now) (cases_at diagrams.old xs.now) (cases_at diagrams.old ys.now)) }
{
    let none = each_is(test, xs, ys, false);
    if none {
        return constant(diagrams, false);
    }
    let all = each_is(test, xs, ys, true);
    if all {
        return both_some(diagrams, xs, ys);
    }
    let wide = xs.len() < ys.len();
    if wide {
        let (low, high) = ys.split_at(ys.len() / 2);
        either_block(diagrams, test, (xs, low), (xs, high))
    } else {
        let (left, right) = xs.split_at(xs.len() / 2);
        either_block(diagrams, test, (left, ys), (right, ys))
    }
}

/// Where some value of the first list is had and some of the second, and the two pass. Where going by blocks is refused, all
/// that it made is given back, and the pairs are joined one by one: that refusal is answered.
#[inline(never)]
pub fn pair_root(
    diagrams: &mut Diagrams,
    test: &Test,
    xs: &[CaseRoot],
    ys: &[CaseRoot],
) -> Result<Root, Halt>
    requires xs_kept { AreKept diagrams.old.state xs.now }
    requires ys_kept { AreKept diagrams.old.state ys.now }
    ensures { let c = diagrams.old in
        MakesNamed c diagrams.new result (some_pair (passes_lem test.now) (cases_at c xs.now) (cases_at c ys.now)) (IsOfPairs (passes_lem test.now) (cases_at c xs.now) (cases_at c ys.now)) }
{
    match block(diagrams, test, xs, ys) {
        Ok(root) => Ok(root),
        Err(_) => pair_by_pair(diagrams, test, xs, ys),
    }
}
