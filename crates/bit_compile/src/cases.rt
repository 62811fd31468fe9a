//! Roots for the values that a formula may have: each value, and where it is had.

ghost use Rattle.std.specs.Prelude.{◌≡◌, ℕ, ◌+◌};
ghost use Rattle.std.specs.List.{AllByRecursion};
ghost use Rattle.bdd_store.specs.State.{IsRoot, roots_at};
ghost use Rattle.bdd_bits.specs.Contents.{function_at};
ghost use Rattle.bdd_bits.specs.Calls.{SameNodes};
ghost use Rattle.bit_compile.specs.Making.{Makes};
ghost use Rattle.bit_compile.specs.Compiled.{both_truths};
ghost use Rattle.bit_compile.specs.CaseRoots.{HasTogether, MakesCases, IsReady, had_by, truth_had, cases_by, roots_in};
ghost use Rattle.bit_compile.specs.Crowding.{HasCause};
ghost use Rattle.bit_compile.specs.NamedCodes.{NoFunction};
ghost use Rattle.bit_compile.specs.Named.{IsOfEach, IsTruth};
ghost use Rattle.bit_compile.specs.NamedScenes.{IsOfSource};

use crate::blocks::pair_root;
use crate::codes::Codes;
use crate::domains::code;
use crate::letters::letter_root;
use crate::operation::Operation;
use crate::pairs::Test;
use crate::steps::{constant, keep, not};
use bdd_bits::{Diagrams, Root};
use game_values::seen::At;
use game_values::values::{number, truth};
use regions::Halt;
use spec_model::value::{Domain, Value};
use std::alloc::Global;

/// A value, and a root that is true where it is had. It has to be given back.
pub struct CaseRoot {
    pub value: Value,
    pub root: Root,
}

/// What tells where a value is had.
#[derive(Clone, Copy)]
pub enum Source<'a> {
    /// It is had everywhere.
    Everywhere,
    /// The root is the truth value.
    Truth(&'a Root),
    /// The bits of this place of a state are its code.
    Coded(&'a Codes, At, usize, &'a Domain),
    /// The operation on a value of the first and one of the second gives it.
    Pairs(Operation, &'a [CaseRoot], &'a [CaseRoot]),
    /// The hidden table with these next values and so many letters leads to it from a value of the first by a letter of
    /// the second.
    Leads(&'a [u16], usize, &'a [CaseRoot], &'a [CaseRoot]),
    /// These atoms have this letter.
    Letters(&'a [CaseRoot]),
}

/// Gives all roots back.
#[inline(never)]
pub fn release_all(diagrams: &mut Diagrams, mut cases: Vec<CaseRoot>)
    requires { HasTogether diagrams.old.state cases.items }
    ensures released { (n : ℕ) → roots_at diagrams.old.state n ≡ roots_at diagrams.new.state n + roots_in cases.items n }
    ensures nodes { SameNodes diagrams.old diagrams.new }
{
    while let Some(case) = cases.pop() {
        let CaseRoot { value: _, root } = case;
        diagrams.release(root);
    }
    cases.destroy_empty();
}

/// Where a truth value is had.
fn truth_root(diagrams: &mut Diagrams, root: &Root, value: Value) -> Result<Root, Halt>
    requires { IsRoot diagrams.old.state root.now }
    ensures made { Makes diagrams.old diagrams.new result (truth_had (function_at diagrams.old root.now) value) }
    ensures cause { HasCause diagrams.old diagrams.new result NoFunction }
{
    if truth(value) {
        keep(diagrams, root)
    } else {
        not(diagrams, root)
    }
}

/// Where a value is had, which stands at the place `near` of its domain, if it is listed with all of that.
fn case_root(
    diagrams: &mut Diagrams,
    source: &Source,
    value: Value,
    near: usize,
) -> Result<Root, Halt>
    requires { IsReady diagrams.old source.now value }
    ensures made { Makes diagrams.old diagrams.new result (had_by diagrams.old source.now value) }
    ensures cause { HasCause diagrams.old diagrams.new result (IsOfSource diagrams.old source.now value) }
{
    match source {
        Source::Everywhere => constant(diagrams, true),
        Source::Truth(root) => truth_root(diagrams, root, value),
        Source::Coded(codes, at, k, domain) => {
            codes.has_code(diagrams, *at, *k, code(domain, value, near))
        }
        Source::Pairs(op, xs, ys) => pair_root(diagrams, &Test::Gives(*op, value), xs, ys),
        Source::Leads(next, letters, values, had) => {
            pair_root(diagrams, &Test::Leads(next, *letters, value), values, had)
        }
        Source::Letters(atoms) => letter_root(diagrams, atoms, number(value).unsigned_abs()),
    }
}

/// Each value, with where it is had.
#[inline(never)]
pub fn cases_from(
    diagrams: &mut Diagrams,
    alloc: Global,
    source: &Source,
    values: &[Value],
) -> Result<Vec<CaseRoot>, Halt>
    requires { AllByRecursion (IsReady diagrams.old source.now) values.now }
    ensures { MakesCases diagrams.old diagrams.new result (cases_by diagrams.old source.now values.now) (IsOfEach values.now (had_by diagrams.old source.now) (IsOfSource diagrams.old source.now)) }
{
    let Ok(mut cases) = Vec::with_capacity(alloc, values.len()) else {
        return Err(Halt::Memory);
    };
    for value in values {
        match case_root(diagrams, source, *value, cases.len()) {
            Ok(root) => cases.push_reserved(CaseRoot {
                value: *value,
                root,
            }),
            Err(halt) => {
                release_all(diagrams, cases);
                return Err(halt);
            }
        }
    }
    Ok(cases)
}

/// False and true, with where a root is either.
#[inline(never)]
pub fn cases_of_truth(
    diagrams: &mut Diagrams,
    alloc: Global,
    root: &Root,
) -> Result<Vec<CaseRoot>, Halt>
    requires { IsRoot diagrams.old.state root.now }
    ensures { MakesCases diagrams.old diagrams.new result (both_truths (function_at diagrams.old root.now)) (IsTruth (function_at diagrams.old root.now)) }
{
    let values = [Value::Bool(false), Value::Bool(true)];
    cases_from(diagrams, alloc, &Source::Truth(root), &values)
}
