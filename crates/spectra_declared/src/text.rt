//! All that several files say.

ghost use Rattle.std.specs.Prelude.{◌≡◌, map, IfOk, OnOk};
ghost use Rattle.spectra_trees.specs.Views.{tree_data};
ghost use Rattle.spectra_declared.specs.ItemViews.{filed_data};
ghost use Rattle.spectra_resolved.specs.LookViews.{scope_data};
ghost use Rattle.spectra_resolved.specs.TextViews.{text_data};
ghost use Rattle.spectra_items.specs.Meanings.{at_large, faults_in};
ghost use Rattle.spectra_items.specs.Steps.{names_by, look_by, Finds};
ghost use Rattle.spectra_declared.specs.Wholes.{text_of_items as text_of_items_lem, text_of, item_faults, faults_of};
ghost use Rattle.spectra_declared.specs.WholeViews.{AddsItem};

use crate::declared::declared;
use crate::items::Filed;
use spec_model::value::Owner;
use spectra_items::definitions::{add_defines, predicate};
use spectra_items::lines::{add_monitor_lines, line};
use spectra_items::patterns::pattern;
use spectra_items::variables::{alias, owner_of, variable};
use spectra_resolved::findings::Findings;
use spectra_resolved::look::{Look, Scope, Sight};
use spectra_resolved::resolving::Resolver;
use spectra_resolved::text::Text;
use spectra_trees::tree::{Item, Tree};
use std::alloc::{AllocError, Global};

// What expressions of a file are resolved by outside of predicates and patterns.
fn resolver_outside<'s, 't>(alloc: Global, scope: &'s Scope<'t>, file: usize) -> Resolver<'s, 't>
    ensures names { names_by result ≡ scope_data scope.now }
    ensures look { look_by result ≡ at_large (scope_data scope.now) }
    ensures file { result.file ≡ file }
{
    let around = None;
    let look = Look {
        scope,
        around,
        sight: Sight::Values,
        quantified: &[],
    };
    Resolver { alloc, look, file }
}

#[tactic(auto, using(spectra_items::proofs::Loops::nothing_more, spectra_resolved::proofs::Mapped::map_push, spectra_resolved::proofs::First::with_faults_append))]
// Puts what an item says behind what is said so far. What means nothing in it is reported.
fn add_item<'t>(
    text: &mut Text<'t>,
    alloc: Global,
    scope: &Scope<'t>,
    findings: &mut Findings,
    filed: Filed<'t>,
) -> Result<(), AllocError>
    ensures added { OnOk result (AddsItem (scope_data scope.now) (filed_data filed.entry) text.old text.new) }
    ensures found { OnOk result (Finds findings.old findings.new
        (faults_in (scope_data scope.now) (filed_data filed.entry).0 (filed_data filed.entry).1)) }
{
    let by = resolver_outside(alloc, scope, filed.file);
    match filed.item {
        Item::Variable(x) => {
            let owner = owner_of(x.owner);
            text.variables.push(variable(&by, findings, &x.name, owner, &x.domain, &x.length)?)?;
            Ok(())
        }
        Item::Alias(t) => {
            text.types.push(alias(&by, findings, &t.name, &t.body)?)?;
            Ok(())
        }
        Item::Define(d) => add_defines(&mut text.definitions, &by, findings, &d.bodies),
        Item::Predicate(p) => {
            text.definitions.push(predicate(&by, findings, p)?)?;
            Ok(())
        }
        Item::Pattern(p) => {
            text.patterns.push(pattern(&by, findings, p)?)?;
            Ok(())
        }
        Item::Monitor(m) => {
            text.variables.push(variable(&by, findings, &m.name, Owner::Sys, &m.domain, &None)?)?;
            add_monitor_lines(&mut text.lines, &by, findings, m.at, &m.parts)
        }
        Item::Statement(l) => {
            text.lines.push(line(&by, findings, l)?)?;
            Ok(())
        }
    }
}

// What several items say.
fn text_of_items<'t>(
    alloc: Global,
    scope: &Scope<'t>,
    findings: &mut Findings,
    items: &[Filed<'t>],
) -> Result<Text<'t>, AllocError>
    ensures text { IfOk result (λ t. text_data t
        ≡ text_of_items_lem (scope_data scope.now) (map filed_data items.now)) }
    ensures found { OnOk result (Finds findings.old findings.new
        (item_faults (scope_data scope.now) (map filed_data items.now))) }
{
    let mut text = Text {
        names: scope.names.listed(alloc)?,
        variables: Vec::new(alloc),
        types: Vec::new(alloc),
        definitions: Vec::new(alloc),
        patterns: Vec::new(alloc),
        lines: Vec::new(alloc),
    };
    for filed in items {
        add_item(&mut text, alloc, scope, findings, *filed)?;
    }
    Ok(text)
}

/// All that several files declare and say, with each name resolved. The last file is the main one. The fault that comes
/// first among these is found: each fault of the declarations (8, 17, 18), an unknown name (7), a name twice in an enum,
/// among parameters or among the names of a pattern (8), a misused name (9), a wrong number of arguments (16), and an array's
/// length of 0 or past 256 (26).
pub fn resolved_text<'t>(
    alloc: Global,
    findings: &mut Findings,
    trees: &'t [Tree],
) -> Result<Text<'t>, AllocError>
    ensures text { IfOk result (λ t. text_data t ≡ text_of (map tree_data trees.now)) }
    ensures found { OnOk result (Finds findings.old findings.new (faults_of (map tree_data trees.now))) }
{
    let known = declared(alloc, findings, trees)?;
    let text = text_of_items(alloc, &known.1, findings, &known.0)?;
    Ok(text)
}
