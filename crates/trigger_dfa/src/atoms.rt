//! The atoms of a trigger: the different formulas of its brackets.

ghost use Rattle.std.specs.Prelude.{◌≡◌, ◌≤◌, ◌<◌, ◌∷◌, [], length, map, vec_len, IfOk, OnOk, IsErrOf};
ghost use Rattle.spec_model.specs.Syntax.{regulars};
ghost use Rattle.spec_model.specs.Views.{formula, regular, trigger_data};
ghost use Rattle.spec_model.specs.Sizes.{same_formula, atoms_of, atoms_of_all};
ghost use Rattle.spec_model.specs.TriggerStates.{trigger_atoms as trigger_atoms_lem};
ghost use Rattle.std.specs.List.{list_any};
ghost use Rattle.trigger_dfa.specs.Atoms.{with_atoms};

use crate::fault::DfaFault;
use crate::same::is_same_tree;
use spec_model::copy::copy_expr;
use spec_model::expr::{Expr, Regex};
use spec_model::spec::Trigger;
use std::alloc::{AllocError, Global};

/// The most atoms of a trigger.
const MAX_ATOMS: usize = 8;

// Whether the formula is among the atoms.
fn is_among(atoms: &[Expr], e: &Expr) -> bool
    ensures { result ≡ list_any (λ a. same_formula a (formula e.now)) (map formula atoms.now) }
{
    for atom in atoms {
        if is_same_tree(atom, e) {
            return true;
        }
    }
    false
}

// Adds a formula, unless it is there.
fn add(alloc: Global, atoms: &mut Vec<Expr>, e: &Expr) -> Result<(), DfaFault>
    ensures added { OnOk result (map formula atoms.new.items ≡ with_atoms (map formula atoms.old.items) (formula e.now ∷ [])) }
    ensures within { OnOk result (vec_len atoms.old ≤ 8 → vec_len atoms.new ≤ 8) }
    ensures wide { IsErrOf result DfaFault.Wide → 8 < length (with_atoms (map formula atoms.old.items) (formula e.now ∷ [])) }
{
    if is_among(atoms, e) {
        return Ok(());
    }
    if atoms.len() >= MAX_ATOMS {
        return Err(DfaFault::Wide);
    }
    atoms.push(copy_expr(alloc, e)?).map_err(AllocError::from)?;
    Ok(())
}

// Adds the formulas of an expression's brackets, as far as they are new. Repeats around one another are a loop.
#[cycle(collecting)]
fn collect(alloc: Global, r: &Regex, atoms: &mut Vec<Expr>) -> Result<(), DfaFault>
    ensures added { OnOk result (map formula atoms.new.items ≡ with_atoms (map formula atoms.old.items) (atoms_of (regular r.now))) }
    ensures within { OnOk result (vec_len atoms.old ≤ 8 → vec_len atoms.new ≤ 8) }
    ensures wide { IsErrOf result DfaFault.Wide → 8 < length (with_atoms (map formula atoms.old.items) (atoms_of (regular r.now))) }
{
    let mut part = r;
    'repeats: loop {
        match part {
            Regex::Atom(e) => return add(alloc, atoms, e),
            Regex::Cat(rs) => return collect_each(alloc, rs, atoms),
            Regex::Alt(rs) => return collect_each(alloc, rs, atoms),
            Regex::Repeat(inner, _, _) => part = inner,
        }
    }
}

#[cycle(collecting)]
fn collect_each(alloc: Global, rs: &[Regex], atoms: &mut Vec<Expr>) -> Result<(), DfaFault>
    ensures added { OnOk result (map formula atoms.new.items ≡ with_atoms (map formula atoms.old.items) (atoms_of_all (regulars (map regular rs.now)))) }
    ensures within { OnOk result (vec_len atoms.old ≤ 8 → vec_len atoms.new ≤ 8) }
    ensures wide { IsErrOf result DfaFault.Wide → 8 < length (with_atoms (map formula atoms.old.items) (atoms_of_all (regulars (map regular rs.now)))) }
{
    for r in rs {
        collect(alloc, r, atoms)?;
    }
    Ok(())
}

/// The atoms of a trigger, by first meeting, the cause's first. `Wide` past 8 of them.
pub fn trigger_atoms(alloc: Global, trigger: &Trigger) -> Result<Vec<Expr>, DfaFault>
    ensures atoms { IfOk result (λ v. map formula v.items ≡ trigger_atoms_lem (trigger_data trigger.now)) }
    ensures within { IfOk result (λ v. vec_len v ≤ 8) }
    ensures wide { IsErrOf result DfaFault.Wide → 8 < length (trigger_atoms_lem (trigger_data trigger.now)) }
{
    let mut atoms = Vec::new(alloc);
    collect(alloc, &trigger.cause, &mut atoms)?;
    collect(alloc, &trigger.effect, &mut atoms)?;
    Ok(atoms)
}
