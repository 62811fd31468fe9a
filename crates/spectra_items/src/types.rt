//! What types stand for.

ghost use Rattle.std.specs.Prelude.{◌≡◌, map, IfOk, OnOk};
ghost use Rattle.std.specs.List.{list_all};
ghost use Rattle.spectra_trees.specs.Data.{NameData};
ghost use Rattle.spectra_trees.specs.Views.{name_data, type_data as tree_type};
ghost use Rattle.spectra_resolved.specs.Spots.{spot_of as spot_of_lem};
ghost use Rattle.spectra_resolved.specs.Spaces.{clashes};
ghost use Rattle.spectra_resolved.specs.LookViews.{scope_data};
ghost use Rattle.spectra_items.specs.Types.{plain_entries as plain_entries_lem, is_enum as is_enum_lem, enum_number, enum_type, named_type, named_faults, type_of, type_faults};
ghost use Rattle.spectra_items.specs.ItemViews.{entry_data};
ghost use Rattle.spectra_items.specs.Steps.{names_by, look_by, Finds};
ghost use Rattle.spectra_resolved.specs.TextViews.{type_data};

use crate::spaces::{is_doubled, space_of};
use spectra_resolved::findings::Findings;
use spectra_resolved::look::Scope;
use spectra_resolved::resolving::{Resolver, tree};
use spectra_resolved::spot::{Mention, mentioned, spot_at, spot_of};
use spectra_resolved::table::Named;
use spectra_resolved::text::TypeUse;
use spectra_resolved::tree::Leaf;
use spectra_trees::faults::UNKNOWN;
use spectra_trees::tree::{Name, TypeForm, TypeTree};
use std::alloc::{AllocError, Global};

// Whether a name is first declared by an enum.
fn is_enum(named: Option<Named>) -> bool
    ensures { result ≡ is_enum_lem named }
{
    match named {
        Some(Named::Leaf(Leaf::EnumName(_))) => true,
        _ => false,
    }
}

// The names of an enum, of which each may stand once.
fn plain_entries<'t>(
    alloc: Global,
    file: usize,
    names: &'t [Name],
) -> Result<Vec<(Mention<'t>, Named)>, AllocError>
    ensures { IfOk result (λ entries. map entry_data entries.items
        ≡ plain_entries_lem file (map name_data names.now)) }
{
    let mut entries = Vec::with_capacity(alloc, names.len())?;
    for name in names {
        entries.push((mentioned(file, name), Named::Plain))?;
    }
    Ok(entries)
}

// Whether each of several names is first declared by an enum.
fn are_enums(scope: &Scope<'_>, names: &[Name]) -> bool
    ensures { result ≡ list_all (λ (n : NameData). is_enum_lem ((scope_data scope.now).values n.text))
        (map name_data names.now) }
{
    for name in names {
        if !is_enum(scope.values.get(name.text.as_str())) {
            return false;
        }
    }
    true
}

// The numbers of an enum's names.
fn numbers(alloc: Global, scope: &Scope<'_>, names: &[Name]) -> Result<Vec<usize>, AllocError>
    ensures { IfOk result (λ numbers. numbers.items
        ≡ map (enum_number (scope_data scope.now)) (map name_data names.now)) }
{
    let mut numbers = Vec::with_capacity(alloc, names.len())?;
    for name in names {
        numbers.push(scope.names.number(name.text.as_str()).unwrap_or(0))?;
    }
    Ok(numbers)
}

// What an enum stands for.
fn enum_use(
    resolver: &Resolver<'_, '_>,
    findings: &mut Findings,
    names: &[Name],
) -> Result<TypeUse, AllocError>
    ensures domain { IfOk result (λ t. type_data t
        ≡ enum_type (names_by resolver.now) resolver.now.file (map name_data names.now)) }
    ensures found { OnOk result (Finds findings.old findings.new
        (clashes (plain_entries_lem resolver.now.file (map name_data names.now)))) }
{
    let entries = plain_entries(resolver.alloc, resolver.file, names)?;
    let _space = space_of(resolver.alloc, findings, &entries)?;
    let doubled = is_doubled(resolver.alloc, &entries)?;
    if !doubled && are_enums(resolver.look.scope, names) {
        let numbers = numbers(resolver.alloc, resolver.look.scope, names)?;
        Ok(TypeUse::Names(numbers))
    } else {
        Ok(TypeUse::Hole)
    }
}

// What a name for a type stands for.
fn named_use(resolver: &Resolver<'_, '_>, findings: &mut Findings, name: &Name) -> TypeUse
    ensures domain { type_data result ≡ named_type ((names_by resolver.now).types (name_data name.now).text) }
    ensures found { Finds findings.old findings.new
        (named_faults ((names_by resolver.now).types (name_data name.now).text)
        (spot_of_lem resolver.now.file (name_data name.now))) }
{
    match resolver.look.scope.types.get(name.text.as_str()) {
        Some(Named::Type(number)) => TypeUse::Named(number),
        _ => {
            findings.report(UNKNOWN, spot_of(resolver.file, name));
            TypeUse::Hole
        }
    }
}

#[tactic(auto, using(spectra_resolved::proofs::First::with_faults_append))]
/// What a type stands for. A misused name in a bound, a name twice in an enum (8) and an unknown type (7) are reported.
pub fn type_use(
    resolver: &Resolver<'_, '_>,
    findings: &mut Findings,
    domain: &TypeTree,
) -> Result<TypeUse, AllocError>
    ensures domain { IfOk result (λ t. type_data t
        ≡ type_of (names_by resolver.now) (look_by resolver.now) resolver.now.file (tree_type domain.now)) }
    ensures found { OnOk result (Finds findings.old findings.new
        (type_faults (names_by resolver.now) (look_by resolver.now) resolver.now.file (tree_type domain.now))) }
{
    match &domain.form {
        TypeForm::Boolean => Ok(TypeUse::Boolean),
        TypeForm::Range(low, high) => {
            let low = Box::new(resolver.alloc, tree(resolver, findings, low)?)?;
            let high = Box::new(resolver.alloc, tree(resolver, findings, high)?)?;
            let at = spot_at(resolver.file, domain.at);
            Ok(TypeUse::Range(at, low, high))
        }
        TypeForm::Names(names) => enum_use(resolver, findings, names),
        TypeForm::Named(name) => Ok(named_use(resolver, findings, name)),
    }
}
