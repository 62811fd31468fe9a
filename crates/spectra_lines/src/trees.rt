//! The expressions of a line, and where they stand.

ghost use Rattle.std.specs.Prelude.{◌≡◌, ◌++◌, ◌∷◌, [], map, IfOk, OnOk};
ghost use Rattle.spec_model.specs.Moves.{is_assumption as is_assumption_lem};
ghost use Rattle.spectra_resolved.specs.Chained.{regexes};
ghost use Rattle.spectra_resolved.specs.Views.{resolved_data, regex_data};
ghost use Rattle.spectra_resolved.specs.TextViews.{body_data};
ghost use Rattle.spectra_lines.specs.Contents.{brackets_in, brackets_of_each, trees_in, initial_stand as initial_stand_lem, safety_stand as safety_stand_lem, stand_in as stand_in_lem};
ghost use Rattle.spectra_lines.specs.Views.{trees_data};

use spec_model::spec::Role;
use spectra_resolved::stand::Stand;
use spectra_resolved::text::Body;
use spectra_resolved::tree::{Regex, Resolved};
use std::alloc::{AllocError, Global};

// ---- expressions

// Puts an expression behind others.
fn add_tree<'t>(trees: &mut Vec<&'t Resolved>, t: &'t Resolved) -> Result<(), AllocError>
    ensures { OnOk result (trees_data trees.new.items ≡ trees_data trees.old.items ++ resolved_data t.now ∷ []) }
{
    trees.push(t)?;
    Ok(())
}

#[tactic(auto, using(std::proofs::Common::append_assoc))]
// Puts the brackets of a regular expression behind others.
#[cycle(bracketing)]
fn add_brackets<'t>(trees: &mut Vec<&'t Resolved>, r: &'t Regex) -> Result<(), AllocError>
    ensures { OnOk result (trees_data trees.new.items ≡ trees_data trees.old.items ++ brackets_in (regex_data r.now)) }
{
    match r {
        Regex::Atom(t) => add_tree(trees, t),
        Regex::Cat(rs) => add_each_brackets(trees, rs),
        Regex::Alt(rs) => add_each_brackets(trees, rs),
        Regex::Repeat(part, _) => add_brackets(trees, part),
    }
}

#[tactic(auto, using(std::proofs::Common::append_assoc))]
#[cycle(bracketing)]
fn add_each_brackets<'t>(trees: &mut Vec<&'t Resolved>, rs: &'t [Regex]) -> Result<(), AllocError>
    ensures { OnOk result (trees_data trees.new.items ≡ trees_data trees.old.items ++ brackets_of_each (regexes (map regex_data rs.now))) }
{
    for r in rs {
        add_brackets(trees, r)?;
    }
    Ok(())
}

// Puts expressions behind others.
fn add_trees<'t>(trees: &mut Vec<&'t Resolved>, ts: &'t [Resolved]) -> Result<(), AllocError>
    ensures { OnOk result (trees_data trees.new.items ≡ trees_data trees.old.items ++ map resolved_data ts.now) }
{
    for t in ts {
        add_tree(trees, t)?;
    }
    Ok(())
}

#[tactic(auto, using(std::proofs::Common::append_assoc))]
/// The expressions of a line, in text order. The error is that memory is short.
pub fn trees_of<'t>(alloc: Global, body: &'t Body) -> Result<Vec<&'t Resolved>, AllocError>
    ensures { IfOk result (λ ts. trees_data ts.items ≡ trees_in (body_data body.now)) }
{
    let mut trees = Vec::new(alloc);
    match body {
        Body::Initial(t) => add_tree(&mut trees, t)?,
        Body::Safety(t) => add_tree(&mut trees, t)?,
        Body::Recurring(t) => add_tree(&mut trees, t)?,
        Body::Trigger(_, cause, effect) => {
            add_brackets(&mut trees, cause)?;
            add_brackets(&mut trees, effect)?;
        }
        Body::Pattern(_, _, arguments) => add_trees(&mut trees, arguments)?,
    }
    Ok(trees)
}

// ---- where they stand

/// Whether a line binds the environment.
pub fn is_assumption(role: Role) -> bool
    ensures { result ≡ is_assumption_lem role }
{
    match role {
        Role::Assumption => true,
        Role::Guarantee => false,
        Role::Monitor => false,
    }
}

/// Where an expression of the first position stands.
pub fn initial_stand(asm: bool) -> Stand
    ensures { result ≡ initial_stand_lem asm }
{
    if asm {
        Stand::InitialAssumption
    } else {
        Stand::InitialGuarantee
    }
}

/// Where an expression of every position stands.
pub fn safety_stand(asm: bool) -> Stand
    ensures { result ≡ safety_stand_lem asm }
{
    if asm {
        Stand::SafetyAssumption
    } else {
        Stand::SafetyGuarantee
    }
}

/// Where the expressions of a line stand.
pub fn stand_in(asm: bool, body: &Body) -> Stand
    ensures { result ≡ stand_in_lem asm (body_data body.now) }
{
    match body {
        Body::Initial(_) => initial_stand(asm),
        Body::Safety(_) => safety_stand(asm),
        Body::Recurring(_) => Stand::Recurring,
        Body::Trigger(_, _, _) => Stand::Atom,
        Body::Pattern(_, _, _) => Stand::Argument,
    }
}
