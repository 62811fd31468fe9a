//! The defines and predicates of several files.

ghost use Rattle.std.specs.Prelude.{◌≡◌, map, flat_map, IfOk, OnOk};
ghost use Rattle.spectra_trees.specs.Data.{TypeData, NameData};
ghost use Rattle.spectra_trees.specs.Views.{expr_data};
ghost use Rattle.spectra_resolved.specs.Findings.{with_faults};
ghost use Rattle.spectra_resolved.specs.Reports.{found_in};
ghost use Rattle.spectra_resolved.specs.Spaces.{clashes};
ghost use Rattle.spectra_resolved.specs.Resolving.{misuses, resolved};
ghost use Rattle.spectra_resolved.specs.Views.{resolved_data};
ghost use Rattle.spectra_resolved.specs.TextViews.{type_data, definition_data};
ghost use Rattle.spectra_items.specs.Types.{type_of, type_faults};
ghost use Rattle.spectra_items.specs.Meanings.{parameter_entries, in_predicate, define_of, define_faults, predicate_of, predicate_faults};
ghost use Rattle.spectra_items.specs.ItemViews.{define_data, parameters_data, predicate_data, entry_data};
ghost use Rattle.spectra_items.specs.Steps.{names_by, look_by, Adds, Finds};

use crate::spaces::{is_doubled, resolver_inside, space_of};
use crate::types::type_use;
use spectra_resolved::findings::Findings;
use spectra_resolved::look::Sight;
use spectra_resolved::resolving::{Resolver, tree};
use spectra_resolved::spot::{Mention, mentioned};
use spectra_resolved::table::Named;
use spectra_resolved::text::{Definition, DefinitionWord, TypeUse};
use spectra_resolved::tree::{Leaf, Resolved};
use spectra_trees::tree::{ExprTree, Name, PredicateItem, TypeTree};
use std::alloc::{AllocError, Global};

// ---- defines

// A define. Each misused name in it is reported.
fn define<'t>(
    resolver: &Resolver<'_, '_>,
    findings: &mut Findings,
    define: &'t (Name, ExprTree),
) -> Result<Definition<'t>, AllocError>
    ensures define { IfOk result (λ d. definition_data d
        ≡ define_of (look_by resolver.now) resolver.now.file (define_data define.now)) }
    ensures found { OnOk result (Finds findings.old findings.new
        (define_faults (look_by resolver.now) resolver.now.file (define_data define.now))) }
{
    let body = tree(resolver, findings, &define.1)?;
    Ok(Definition {
        name: mentioned(resolver.file, &define.0),
        word: DefinitionWord::Define,
        params: Vec::new(resolver.alloc),
        doubled: false,
        body,
    })
}

/// Puts the defines behind one word behind others. Each misused name in them is reported.
pub fn add_defines<'t>(
    all: &mut Vec<Definition<'t>>,
    resolver: &Resolver<'_, '_>,
    findings: &mut Findings,
    defines: &'t [(Name, ExprTree)],
) -> Result<(), AllocError>
    ensures added { OnOk result (Adds definition_data all.old.items all.new.items
        (map (define_of (look_by resolver.now) resolver.now.file) (map define_data defines.now))) }
    ensures found { OnOk result (Finds findings.old findings.new
        (flat_map (define_faults (look_by resolver.now) resolver.now.file) (map define_data defines.now))) }
{
    for written in defines {
        all.push(define(resolver, findings, written)?)?;
    }
    Ok(())
}

// ---- predicates

// A predicate's parameters, each by its place.
fn parameters<'t>(
    alloc: Global,
    file: usize,
    params: &'t [(TypeTree, Name)],
) -> Result<Vec<(Mention<'t>, Named)>, AllocError>
    ensures { IfOk result (λ entries. map entry_data entries.items
        ≡ parameter_entries file (parameters_data params.now)) }
{
    let mut entries = Vec::with_capacity(alloc, params.len())?;
    for (place, param) in params.iter().enumerate() {
        let parameter = Named::Leaf(Leaf::Parameter(place));
        entries.push((mentioned(file, &param.1), parameter))?;
    }
    Ok(entries)
}

// What the types of parameters stand for.
fn parameter_types(
    resolver: &Resolver<'_, '_>,
    findings: &mut Findings,
    params: &[(TypeTree, Name)],
) -> Result<Vec<TypeUse>, AllocError>
    ensures types { IfOk result (λ all. map type_data all.items
        ≡ map (λ (a : TypeData × NameData). type_of (names_by resolver.now) (look_by resolver.now)
        resolver.now.file a.0) (parameters_data params.now)) }
    ensures found { OnOk result (Finds findings.old findings.new
        (flat_map (λ (a : TypeData × NameData). type_faults (names_by resolver.now)
        (look_by resolver.now) resolver.now.file a.0) (parameters_data params.now))) }
{
    let mut all = Vec::with_capacity(resolver.alloc, params.len())?;
    for param in params {
        all.push(type_use(resolver, findings, &param.0)?)?;
    }
    Ok(all)
}

// The body of a predicate, in which its parameters hide what is outside. Each second one of a name is reported.
fn predicate_body<'t>(
    resolver: &Resolver<'_, 't>,
    findings: &mut Findings,
    item: &'t PredicateItem,
    parameters: &[(Mention<'t>, Named)],
) -> Result<Resolved, AllocError>
    requires parameters { map entry_data parameters.now
        ≡ parameter_entries resolver.now.file (predicate_data item.now).params }
    ensures body { IfOk result (λ t. resolved_data t ≡ resolved (in_predicate (names_by resolver.now)
        resolver.now.file (predicate_data item.now)) resolver.now.file (expr_data item.now.body)) }
    ensures found { OnOk result (found_in findings.new ≡ with_faults (with_faults (found_in findings.old)
        (clashes (parameter_entries resolver.now.file (predicate_data item.now).params)))
        (misuses (resolved (in_predicate (names_by resolver.now) resolver.now.file
        (predicate_data item.now)) resolver.now.file (expr_data item.now.body)))) }
{
    let table = space_of(resolver.alloc, findings, parameters)?;
    let alloc = resolver.alloc;
    let file = resolver.file;
    let scope = resolver.look.scope;
    let inside = resolver_inside(alloc, scope, &table, Sight::Values, file);
    let body = tree(&inside, findings, &item.body)?;
    Ok(body)
}

/// A predicate. What means nothing in it, and each second parameter of a name, is reported.
pub fn predicate<'t>(
    resolver: &Resolver<'_, 't>,
    findings: &mut Findings,
    item: &'t PredicateItem,
) -> Result<Definition<'t>, AllocError>
    ensures predicate { IfOk result (λ d. definition_data d ≡ predicate_of (names_by resolver.now)
        (look_by resolver.now) resolver.now.file (predicate_data item.now)) }
    ensures found { OnOk result (Finds findings.old findings.new (predicate_faults
        (names_by resolver.now) (look_by resolver.now) resolver.now.file (predicate_data item.now))) }
{
    let params = parameter_types(resolver, findings, &item.params)?;
    let parameters = parameters(resolver.alloc, resolver.file, &item.params)?;
    let doubled = is_doubled(resolver.alloc, &parameters)?;
    let body = predicate_body(resolver, findings, item, &parameters)?;
    Ok(Definition {
        name: mentioned(resolver.file, &item.name),
        word: DefinitionWord::Predicate,
        params,
        doubled,
        body,
    })
}
