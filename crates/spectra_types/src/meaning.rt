//! The names and the variables of the specification that a text means.

ghost use Rattle.std.specs.Prelude.{◌≡◌, ℕ, ◌+◌, ◌<◌, ◌++◌, true, length, map, flat_map, Some, slice_get, string_bytes, All, IfOk, OnOk};
ghost use Rattle.spec_model.specs.Views.{variable_data};
ghost use Rattle.spectra_resolved.specs.TextViews.{text_data, variable_data as resolved_variable};
ghost use Rattle.spectra_judge.specs.KindViews.{kind_data};
ghost use Rattle.spectra_patterns.specs.Patterns.{domain_of as domain_of_lem};
ghost use Rattle.spectra_patterns.specs.SoundPatterns.{is_type_kind};
ghost use Rattle.spectra_notes.specs.TypeKinds.{kind_in, type_kinds as type_kinds_lem};
ghost use Rattle.spectra_notes.specs.NoteViews.{type_kinds_data};
ghost use Rattle.spectra_types.specs.Meanings.{element_name, variables_in};

use spec_model::value::Var;
use spectra_judge::kind::Kind;
use spectra_patterns::domains::domain_of;
use spectra_resolved::text::{Text, Variable};
use std::alloc::{AllocError, Global};

#[tactic(auto, using(spectra_resolved::proofs::Mapped::pushed))]
/// Copies of names. The error is that memory is short.
pub fn names_of(alloc: Global, names: &[&str]) -> Result<Vec<String>, AllocError>
    ensures { IfOk result (λ made. map string_bytes made.items ≡ map (λ name. name.now) names.now) }
{
    let mut made = Vec::new(alloc);
    for name in names {
        made.push(String::from_str(alloc, name)?)?;
    }
    Ok(made)
}

// The name of a variable, or of an array's numbered element.
fn name_of(alloc: Global, declared: &Variable<'_>, number: usize) -> Result<String, AllocError>
    ensures { IfOk result (λ name. string_bytes name ≡ element_name (resolved_variable declared.now) number) }
{
    let text = declared.name.text;
    if declared.array {
        Ok(format!(in alloc; "{text}[{number}]")?)
    } else {
        String::from_str(alloc, text)
    }
}

// A variable, or an array's numbered element, whose type stands for this kind.
fn variable(
    alloc: Global,
    kind: Kind<'_>,
    declared: &Variable<'_>,
    number: usize,
) -> Result<Var, AllocError>
    requires room { is_type_kind 65_536 (kind_data kind) ≡ true }
    ensures { IfOk result (λ made. variable_data made ≡ record { name = element_name (resolved_variable declared.now) number; owner = (resolved_variable declared.now).owner; domain = domain_of_lem (kind_data kind.entry) }) }
{
    Ok(Var {
        name: name_of(alloc, declared, number)?,
        owner: declared.owner,
        domain: domain_of(alloc, kind)?,
    })
}

// Puts a variable, or each element of an array, behind others.
fn add_variables(
    alloc: Global,
    all: &mut Vec<Var>,
    kinds: &[Kind<'_>],
    text: &Text<'_>,
    declared: &Variable<'_>,
) -> Result<(), AllocError>
    requires kinds { (i : ℕ) → i < declared.now.count → slice_get (map kind_data kinds.now) (length all.old.items + i) ≡ Some (kind_in (text_data text.now) (resolved_variable declared.now).domain) }
    requires room { All (λ k. is_type_kind 65_536 (kind_data k) ≡ true) kinds.now }
    ensures { OnOk result (map variable_data all.new.items ≡ map variable_data all.old.items ++ variables_in (text_data text.now) (resolved_variable declared.now)) }
{
    for number in 0..declared.count {
        let kind = kinds[all.len()];
        all.push(variable(alloc, kind, declared, number)?)?;
    }
    Ok(())
}

/// The variables of a text, an array's elements one after another, whose types stand for these kinds. The error is that memory
/// is short.
pub fn variables_of(
    alloc: Global,
    kinds: &[Kind<'_>],
    text: &Text<'_>,
) -> Result<Vec<Var>, AllocError>
    requires kinds { map kind_data kinds.now ≡ (type_kinds_lem (text_data text.now)).variables }
    requires room { All (λ k. is_type_kind 65_536 (kind_data k) ≡ true) kinds.now }
    ensures { IfOk result (λ made. map variable_data made.items ≡ flat_map (variables_in (text_data text.now)) (text_data text.now).variables) }
{
    let mut all = Vec::new(alloc);
    for declared in &text.variables {
        add_variables(alloc, &mut all, kinds, text, declared)?;
    }
    Ok(all)
}
