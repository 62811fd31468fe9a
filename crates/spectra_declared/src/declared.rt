//! All that several files declare, and the faults of the declarations.

ghost use Rattle.std.specs.Prelude.{◌≡◌, ◌-◌, [], length, map, IfOk, OnOk};
ghost use Rattle.spectra_trees.specs.Views.{tree_data};
ghost use Rattle.spectra_resolved.specs.Findings.{with_faults};
ghost use Rattle.spectra_resolved.specs.Reports.{found_in};
ghost use Rattle.spectra_resolved.specs.Enums.{with_names};
ghost use Rattle.spectra_resolved.specs.EnumViews.{names_in};
ghost use Rattle.spectra_declared.specs.MentionViews.{names_data};
ghost use Rattle.spectra_resolved.specs.LookViews.{scope_data};
ghost use Rattle.spectra_declared.specs.Items.{items_from, enum_names_of as enum_names_of_lem};
ghost use Rattle.spectra_declared.specs.ItemViews.{filed_data};
ghost use Rattle.spectra_declared.specs.Declarations.{enums_in, names_past, names_of, scope_faults, limit_faults, import_and_item_faults, declaration_faults};

use crate::declaring::{Space, space_of};
use crate::items::{Filed, items_of};
use crate::limits::{Limited, report_imported, report_imports, report_past, spot_of_item};
use crate::mentions::enum_names_of;
use spectra_resolved::enum_names::EnumNames;
use spectra_resolved::findings::Findings;
use spectra_resolved::look::Scope;
use spectra_trees::faults::TOO_MANY;
use spectra_trees::tree::{Name, Tree};
use std::alloc::{AllocError, Global};

// The most enum names of several files.
const MOST_NAMES: usize = 65_535;

// Puts names behind others, where they aren't there.
fn add_names<'t>(enums: &mut EnumNames<'t>, names: &[&'t Name]) -> Result<(), AllocError>
    ensures { OnOk result (names_in enums.new ≡ with_names (names_in enums.old) (names_data names.now)) }
{
    for name in names {
        enums.add(name)?;
    }
    Ok(())
}

// Puts the enum names of an item behind others, where they aren't there.
fn add_item<'t>(
    alloc: Global,
    enums: &mut EnumNames<'t>,
    filed: Filed<'t>,
) -> Result<(), AllocError>
    ensures { OnOk result (names_in enums.new ≡ with_names (names_in enums.old) (enum_names_of_lem (filed_data filed.entry).1)) }
{
    let names = enum_names_of(alloc, filed.item)?;
    add_names(enums, &names)
}

// Every enum name of several items, by its first mention. The first item with which there are too many is reported.
fn enums_of<'t>(
    alloc: Global,
    findings: &mut Findings,
    items: &[Filed<'t>],
) -> Result<EnumNames<'t>, AllocError>
    ensures names { IfOk result (λ enums. names_in enums ≡ enums_in (map filed_data items.now)) }
    ensures found { OnOk result (found_in findings.new ≡ with_faults (found_in findings.old) (names_past 65_535 [] (map filed_data items.now))) }
{
    let mut enums = EnumNames::new(alloc);
    let mut passed = false;
    for filed in items {
        add_item(alloc, &mut enums, *filed)?;
        if !passed && enums.len() > MOST_NAMES {
            passed = true;
            findings.report(TOO_MANY, spot_of_item(*filed));
        }
    }
    Ok(enums)
}

// What the names of several items stand for. The second declarations of names are reported, and enum names past the limit.
fn scope_of<'t>(
    alloc: Global,
    findings: &mut Findings,
    items: &[Filed<'t>],
) -> Result<Scope<'t>, AllocError>
    ensures scope { IfOk result (λ s. scope_data s ≡ names_of (map filed_data items.now)) }
    ensures found { OnOk result (found_in findings.new ≡ with_faults (found_in findings.old) (scope_faults (map filed_data items.now))) }
{
    let names = enums_of(alloc, findings, items)?;
    let values = space_of(alloc, Space::Values, findings, &names, items)?;
    let types = space_of(alloc, Space::Types, findings, &names, items)?;
    let patterns = space_of(alloc, Space::Patterns, findings, &names, items)?;
    let lines = space_of(alloc, Space::Lines, findings, &names, items)?;
    Ok(Scope {
        names,
        values,
        types,
        patterns,
        lines,
    })
}

#[tactic(auto, using(spectra_resolved::proofs::First::with_faults_append))]
// Reports what passes a limit, and what may not stand in an imported file.
fn report_counted(findings: &mut Findings, trees: &[Tree], items: &[Filed<'_>])
    requires { map filed_data items.now ≡ items_from 0 (map tree_data trees.now) }
    ensures { found_in findings.new ≡ with_faults (with_faults (found_in findings.old) (limit_faults (items_from 0 (map tree_data trees.now))))
        (import_and_item_faults (length trees.now - 1) (map tree_data trees.now)) }
{
    let last = trees.len().saturating_sub(1);
    report_past(findings, Limited::Variables, 1024, items);
    report_past(findings, Limited::Lines, 4096, items);
    report_imported(findings, last, items);
    report_imports(findings, last, trees);
}

/// What several files declare: their items, and what their names stand for. The last file is the main one. Each fault of
/// the declarations is reported: a name of one name space that is declared again (8); an import, a variable, a monitor or a
/// line in an imported file (17); more than 1,024 variables, elements of arrays and monitors, 4,096 lines, 65,535 enum names, or 64 imports (18).
pub fn declared<'t>(
    alloc: Global,
    findings: &mut Findings,
    trees: &'t [Tree],
) -> Result<(Vec<Filed<'t>>, Scope<'t>), AllocError>
    ensures items { IfOk result (λ d. map filed_data d.0.items ≡ items_from 0 (map tree_data trees.now)) }
    ensures scope { IfOk result (λ d. scope_data d.1 ≡ names_of (items_from 0 (map tree_data trees.now))) }
    ensures found { OnOk result (found_in findings.new ≡ with_faults (found_in findings.old) (declaration_faults (map tree_data trees.now))) }
{
    let items = items_of(alloc, trees)?;
    let scope = scope_of(alloc, findings, &items)?;
    report_counted(findings, trees, &items);
    Ok((items, scope))
}
