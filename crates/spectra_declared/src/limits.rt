//! How many things there may be, and what an imported file may have.

ghost use Rattle.std.specs.Prelude.{◌≡◌, true, map, flat_map, nat_lt};
ghost use Rattle.spectra_trees.specs.Views.{name_data, item_data, tree_data};
ghost use Rattle.spectra_resolved.specs.Findings.{with_faults};
ghost use Rattle.spectra_resolved.specs.Reports.{found_in};
ghost use Rattle.spectra_declared.specs.ItemViews.{filed_data};
ghost use Rattle.spectra_declared.specs.Declarations.{spot_of_item as spot_of_item_lem, past, is_main as is_main_lem, imported_faults, import_faults, imports_faults};
ghost use Rattle.spectra_declared.specs.LimitViews.{weight_of};

use crate::items::Filed;
use spectra_items::lengths::count_of;
use spectra_resolved::findings::Findings;
use spectra_resolved::spot::{Spot, spot_at, spot_of};
use spectra_trees::faults::{IMPORTED_LINE, TOO_MANY};
use spectra_trees::tree::{Item, Name, Tree};

/// Of what there may be so many.
#[derive(Clone, Copy)]
pub enum Limited {
    Variables,
    Lines,
}

/// The place of an item's first token.
pub fn spot_of_item(filed: Filed<'_>) -> Spot
    ensures { result ≡ spot_of_item_lem (filed_data filed.entry) }
{
    let at = match filed.item {
        Item::Variable(x) => x.at,
        Item::Alias(x) => x.at,
        Item::Define(x) => x.at,
        Item::Predicate(x) => x.at,
        Item::Pattern(x) => x.at,
        Item::Monitor(x) => x.at,
        Item::Statement(x) => x.at,
    };
    spot_at(filed.file, at)
}

// How many of what is limited an item has.
fn weight(limited: Limited, item: &Item) -> usize
    ensures { result ≡ weight_of limited (item_data item.now) }
{
    match (limited, item) {
        (Limited::Variables, Item::Variable(x)) => count_of(&x.length),
        (Limited::Variables, Item::Monitor(_)) => 1,
        (Limited::Lines, Item::Statement(_)) => 1,
        (Limited::Lines, Item::Monitor(m)) => m.parts.len(),
        (_, _) => 0,
    }
}

/// Reports the first item past a limit, where there is room for so many.
pub fn report_past(findings: &mut Findings, limited: Limited, most: usize, items: &[Filed<'_>])
    ensures { found_in findings.new ≡ with_faults (found_in findings.old) (past (weight_of limited) most (map filed_data items.now)) }
{
    let mut room = most;
    for filed in items {
        let weight = weight(limited, filed.item);
        if room < weight {
            findings.report(TOO_MANY, spot_of_item(*filed));
            return;
        }
        room -= weight;
    }
}

// Whether an item may stand in the main file alone.
fn is_main(item: &Item) -> bool
    ensures { result ≡ is_main_lem (item_data item.now) }
{
    match item {
        Item::Variable(_) | Item::Monitor(_) | Item::Statement(_) => true,
        Item::Alias(_) | Item::Define(_) | Item::Predicate(_) | Item::Pattern(_) => false,
    }
}

// Reports an item of an imported file that may stand in the main file alone.
fn report_imported_item(findings: &mut Findings, last: usize, filed: Filed<'_>)
    ensures { found_in findings.new ≡ with_faults (found_in findings.old) (imported_faults last (filed_data filed.entry)) }
{
    if filed.file < last && is_main(filed.item) {
        findings.report(IMPORTED_LINE, spot_of_item(filed));
    }
}

#[tactic(auto, using(spectra_resolved::proofs::First::with_faults_append))]
/// Reports each item of an imported file that may stand in the main file alone.
pub fn report_imported(findings: &mut Findings, last: usize, items: &[Filed<'_>])
    ensures { found_in findings.new ≡ with_faults (found_in findings.old) (flat_map (imported_faults last) (map filed_data items.now)) }
{
    for filed in items {
        report_imported_item(findings, last, *filed);
    }
}

// Reports each import of an imported file, and the one past the limit in the main file.
fn report_file_imports(findings: &mut Findings, file: usize, last: usize, imports: &[Name])
    ensures { found_in findings.new ≡ with_faults (found_in findings.old) (import_faults file (nat_lt file last) (map name_data imports.now)) }
{
    if file < last {
        report_each_import(findings, file, imports);
        return;
    }
    match imports.get(64) {
        Some(name) => findings.report(TOO_MANY, spot_of(file, name)),
        None => {}
    }
}

// Reports each import of an imported file.
fn report_each_import(findings: &mut Findings, file: usize, imports: &[Name])
    ensures { found_in findings.new ≡ with_faults (found_in findings.old) (import_faults file true (map name_data imports.now)) }
{
    for name in imports {
        findings.report(IMPORTED_LINE, spot_of(file, name));
    }
}

#[tactic(auto, using(spectra_resolved::proofs::First::with_faults_append))]
/// Reports the imports that may not stand in their files, of which the last one is the main file.
pub fn report_imports(findings: &mut Findings, last: usize, trees: &[Tree])
    ensures { found_in findings.new ≡ with_faults (found_in findings.old) (imports_faults last 0 (map tree_data trees.now)) }
{
    for (file, tree) in trees.iter().enumerate() {
        report_file_imports(findings, file, last, &tree.imports);
    }
}
