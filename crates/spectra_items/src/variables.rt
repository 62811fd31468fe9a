//! The variables, monitors and named types of several files.

ghost use Rattle.std.specs.Prelude.{◌≡◌, ◌++◌, option_map, IfOk, OnOk};
ghost use Rattle.spectra_trees.specs.Views.{name_data, type_data, length_data};
ghost use Rattle.spectra_resolved.specs.TextViews.{variable_data, alias_data};
ghost use Rattle.spectra_items.specs.Types.{type_faults};
ghost use Rattle.spectra_items.specs.Lengths.{length_faults};
ghost use Rattle.spectra_items.specs.Meanings.{owner_of as owner_of_lem, variable_of, alias_of};
ghost use Rattle.spectra_items.specs.Steps.{names_by, look_by, Finds};

use crate::lengths::{count_of, report_length};
use crate::types::type_use;
use spec_model::value::Owner;
use spectra_resolved::findings::Findings;
use spectra_resolved::resolving::Resolver;
use spectra_resolved::spot::mentioned;
use spectra_resolved::text::{Alias, Variable};
use spectra_trees::tree::{Length, Name, OwnerWord, TypeTree};
use std::alloc::AllocError;

/// Who sets a variable.
pub fn owner_of(word: OwnerWord) -> Owner
    ensures { result ≡ owner_of_lem word }
{
    match word {
        OwnerWord::Env => Owner::Env,
        OwnerWord::Sys | OwnerWord::Aux => Owner::Sys,
    }
}

#[tactic(auto, using(spectra_resolved::proofs::First::with_faults_append))]
/// A variable, an array where it has a length, or a monitor. What means nothing in its type is reported, and a faulty length
/// (26).
pub fn variable<'t>(
    resolver: &Resolver<'_, '_>,
    findings: &mut Findings,
    name: &'t Name,
    owner: Owner,
    domain: &TypeTree,
    length: &Option<Length>,
) -> Result<Variable<'t>, AllocError>
    ensures variable { IfOk result (λ v. variable_data v ≡ variable_of (names_by resolver.now)
        (look_by resolver.now) resolver.now.file (name_data name.now) owner (type_data domain.now) (option_map length_data length.now)) }
    ensures found { OnOk result (Finds findings.old findings.new
        (type_faults (names_by resolver.now) (look_by resolver.now) resolver.now.file (type_data domain.now)
        ++ length_faults resolver.now.file (option_map length_data length.now))) }
{
    let domain = type_use(resolver, findings, domain)?;
    report_length(findings, resolver.file, length);
    Ok(Variable {
        name: mentioned(resolver.file, name),
        owner,
        domain,
        array: length.is_some(),
        count: count_of(length),
    })
}

/// A name for a type. What means nothing in the type is reported.
pub fn alias<'t>(
    resolver: &Resolver<'_, '_>,
    findings: &mut Findings,
    name: &'t Name,
    body: &TypeTree,
) -> Result<Alias<'t>, AllocError>
    ensures alias { IfOk result (λ a. alias_data a ≡ alias_of (names_by resolver.now)
        (look_by resolver.now) resolver.now.file (name_data name.now) (type_data body.now)) }
    ensures found { OnOk result (Finds findings.old findings.new
        (type_faults (names_by resolver.now) (look_by resolver.now) resolver.now.file (type_data body.now))) }
{
    let body = type_use(resolver, findings, body)?;
    Ok(Alias {
        name: mentioned(resolver.file, name),
        body,
    })
}
