//! Several functions joined.

ghost use Rattle.std.specs.Prelude.{◌≡◌, ◌&&◌, map};
ghost use Rattle.bdd_store.specs.State.{IsRoot};
ghost use Rattle.bdd_bits.specs.Contents.{function_at};
ghost use Rattle.bdd_ops.specs.Functions.{joined, join_of};
ghost use Rattle.bit_compile.specs.Making.{Makes};
ghost use Rattle.bit_compile.specs.Compiled.{some_of};
ghost use Rattle.bit_compile.specs.CaseRoots.{AreKept, folded as folded_lem, is_all};
ghost use Rattle.bit_compile.specs.Crowding.{HasCause};
ghost use Rattle.bit_compile.specs.NamedCodes.{NoFunction};
ghost use Rattle.bit_compile.specs.Named.{IsFirstOf};

use crate::cases::CaseRoot;
use crate::steps::{and, constant, or};
use bdd_bits::{Diagrams, Root};
use regions::Halt;

/// How functions are joined.
#[derive(Clone, Copy, PartialEq, Eq)]
pub enum Fold {
    /// Where all are true.
    All,
    /// Where some are.
    Some,
}

/// What no function at all is joined to.
fn starts_true(fold: Fold) -> bool
    ensures { result ≡ is_all fold }
{
    match fold {
        Fold::All => true,
        Fold::Some => false,
    }
}

/// Where both are true, or one of them is.
pub fn join_root(diagrams: &mut Diagrams, fold: Fold, a: &Root, b: &Root) -> Result<Root, Halt>
    requires a_kept { IsRoot diagrams.old.state a.now }
    requires b_kept { IsRoot diagrams.old.state b.now }
    ensures made { Makes diagrams.old diagrams.new result (joined (join_of (is_all fold)) (function_at diagrams.old a.now) (function_at diagrams.old b.now)) }
    ensures cause { HasCause diagrams.old diagrams.new result NoFunction }
{
    match fold {
        Fold::All => and(diagrams, a, b),
        Fold::Some => or(diagrams, a, b),
    }
}

/// Where all are true, or some are, joined from the last one on. Where the later ones read lower levels, as where they are
/// written in the order of the variables, each step only adds nodes above what is there.
fn joined_back(diagrams: &mut Diagrams, fold: Fold, cases: &[CaseRoot]) -> Result<Root, Halt>
    requires { AreKept diagrams.old.state cases.now }
    ensures { Makes diagrams.old diagrams.new result (folded_lem fold (map (λ x. function_at diagrams.old x.root) cases.now)) }
{
    let start = starts_true(fold);
    let mut whole = constant(diagrams, start)?;
    let mut last = cases.len();
    while last > 0 {
        let case = &cases[last - 1];
        let more = join_root(diagrams, fold, &case.root, &whole);
        diagrams.release(whole);
        let next = more?;
        whole = next;
        last -= 1;
    }
    Ok(whole)
}

/// Where all are true, or some are, joined from the first one on: each set on the way is that of the first several.
fn joined_forth(diagrams: &mut Diagrams, fold: Fold, cases: &[CaseRoot]) -> Result<Root, Halt>
    requires { AreKept diagrams.old.state cases.now }
    ensures made { Makes diagrams.old diagrams.new result (folded_lem fold (map (λ x. function_at diagrams.old x.root) cases.now)) }
    ensures cause { HasCause diagrams.old diagrams.new result (IsFirstOf fold (map (λ x. function_at diagrams.old x.root) cases.now)) }
{
    let start = starts_true(fold);
    let mut whole = constant(diagrams, start)?;
    for case in cases {
        let more = join_root(diagrams, fold, &whole, &case.root);
        diagrams.release(whole);
        let next = more?;
        whole = next;
    }
    Ok(whole)
}

/// Where all are true, or some are. Where joining from the last one on is refused, all that it made is given back, and they
/// are joined from the first one on: that refusal is answered.
#[inline(never)]
pub fn folded(diagrams: &mut Diagrams, fold: Fold, cases: &[CaseRoot]) -> Result<Root, Halt>
    requires { AreKept diagrams.old.state cases.now }
    ensures made { Makes diagrams.old diagrams.new result (folded_lem fold (map (λ x. function_at diagrams.old x.root) cases.now)) }
    ensures cause { HasCause diagrams.old diagrams.new result (IsFirstOf fold (map (λ x. function_at diagrams.old x.root) cases.now)) }
{
    match joined_back(diagrams, fold, cases) {
        Ok(root) => Ok(root),
        Err(_) => joined_forth(diagrams, fold, cases),
    }
}

/// Where a root is true, and some value is had.
pub fn and_some(diagrams: &mut Diagrams, first: &Root, cases: &[CaseRoot]) -> Result<Root, Halt>
    requires first_kept { IsRoot diagrams.old.state first.now }
    requires kept { AreKept diagrams.old.state cases.now }
    ensures made { let c = diagrams.old in
        Makes c diagrams.new result (λ s. function_at c first.now s && some_of (map (λ x. function_at c x.root) cases.now) s) }
    ensures cause { HasCause diagrams.old diagrams.new result (IsFirstOf Fold.Some (map (λ x. function_at diagrams.old x.root) cases.now)) }
{
    let second = folded(diagrams, Fold::Some, cases)?;
    let whole = and(diagrams, first, &second);
    diagrams.release(second);
    whole
}
